//! Bits of runs of bytes: counted, compared, joined and tested. Bit i is bit i mod 8, the lowest first, of byte i / 8.
#![tactic(auto)]

mod bit;
mod count;
mod differ;
mod join;
mod ranges;
mod words;

pub use bit::is_set;
pub use count::count_ones;
pub use differ::first_difference;
pub use join::{and_any, and_into, or_into};
pub use ranges::{least_set, set_range};
