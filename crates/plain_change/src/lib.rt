//! Whether what is gone and what has come shows that a view keeps its rules, which it has before.
#![tactic(auto)]

mod entries;
mod extents;
mod found;
mod lookups;
mod plain;
mod removed;
mod repeats;
mod shared;
mod siblings;
mod touched;
mod ways;

pub use plain::{is_plain, is_silent};
