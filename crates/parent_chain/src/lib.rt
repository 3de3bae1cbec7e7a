//! Whether the parents of each directory of a view lead to the root.
#![tactic(auto)]

mod climbs;
mod unreached;
mod ways;

pub use unreached::{do_ids_rise, first_unreached};
