//! Accounting: what a container's objects name, which blocks they own, and which are marked.
#![tactic(auto)]

mod fault;
mod naming;
mod owner;
mod theorem;

pub use fault::{ReachFault, Why};
pub use naming::{Expected, LookUp, Namer, Naming, Object, TreeKind, ViewAt};
pub use owner::{Owner, Who};
pub use theorem::accounted_or_flawed;
