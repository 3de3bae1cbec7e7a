//! How many blocks views have by pieces, how many each alone, and how many some view has.
#![tactic(auto)]

mod adding;
mod counting;
mod lone;
mod piece;
mod tally;

pub use counting::count;
pub use piece::{Holdings, Piece, ViewRun, Views};
pub use tally::{Counts, ViewCount};
