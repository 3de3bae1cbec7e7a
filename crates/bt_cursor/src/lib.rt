//! Walks over any tree: the flat list of its entries, a place in it, and its Line with order and counts.
#![tactic(auto)]

mod cursor;
mod fault;
mod gathering;
mod liner;
mod namer;
mod node;
mod seek;
mod seen;
mod start;
mod step;
mod walk;
mod way;

pub use cursor::Cursor;
pub use fault::WalkFault;
pub use gathering::{GatherFault, Keeper, Nothing, gather};
pub use liner::{LineItem, Liner};
pub use namer::{Namer, Physical};
pub use step::Step;
