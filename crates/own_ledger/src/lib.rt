//! A set of blocks of a range, one bit each: claimed range by range, counted, and compared with bits.
#![tactic(auto)]

mod held;

pub use held::{ClaimFault, Difference, Ledger};
