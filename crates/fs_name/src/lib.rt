//! Names: their normal forms, their hashes, which of them are the same, how they are stored, and how they are shown.
#![tactic(auto)]

mod crc;
mod hash;
mod naming;
mod normal;
mod shown;
mod text;

pub use crc::crc32c;
pub use hash::{ascii_hash, name_hash};
pub use naming::Names;
pub use normal::same_name;
pub use shown::push_shown;
pub use text::stored_name;
