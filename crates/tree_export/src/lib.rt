//! What a folder gets of a view: its directories, and the contents of its files.
#![tactic(auto)]

mod absent;
mod content;
mod filling;
mod items;
mod lookup;
mod pieces;
mod putting;
mod safe;
mod search;
mod stop;
mod told;

pub use filling::export;
pub use items::item_at;
pub use safe::safe_path;
pub use stop::{ExportFault, ExportStop};
pub use told::{Done, Item};
