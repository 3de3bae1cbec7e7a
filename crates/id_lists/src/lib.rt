//! Lists in the order of their ids, in which an id is searched for. Where a guess of the place is right, a search takes a step or two. Lists in which nothing stands twice.
#![tactic(auto)]

mod apart;
mod guesses;
mod id_list;
mod id_slice;
mod search;

pub use apart::distinct;
pub use id_list::IdList;
pub use id_slice::IdSlice;
pub use search::{ByItself, NO_GUESS, OrderBy, are_in_order, below, count, up_to};
