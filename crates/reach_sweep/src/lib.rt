//! The account of a container: all that is reached of it, and whether each of its blocks is owned once and marked.
#![tactic(auto)]

mod accounting;
mod checking;
mod finding;
mod finishing;
mod gathering;
mod loading;
mod reaching;
mod sweeping;
mod theorem;

pub use accounting::{Tally, account};
pub use reaching::reached;
pub use theorem::parts_compose;
