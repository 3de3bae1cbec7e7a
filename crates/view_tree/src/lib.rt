//! The tree of a path: what is under a directory of a view.
#![tactic(auto)]

mod depth;
mod kept;
mod lines;
mod trail;
mod under;

pub use depth::{tree, tree_rows};
pub use kept::{KeptRows, PutStop};
pub use lines::{kind_letter, push_target};
pub use trail::Trail;
