//! What files and attributes of a view hold.
#![tactic(auto)]

mod attribute;
mod attributes;
mod contents;
mod kept;
mod refused;
mod search;
mod stop;
mod streams;

pub use attribute::attr;
pub use attributes::attrs;
pub use contents::{cat, withheld};
pub use stop::WriteStop;
