//! Paths by searches in a view's tree: what a path leads to and what a directory has, by definition and as it is found.
#![tactic(auto)]

mod answer;
pub mod by_search;
pub mod choice;
mod kept;
mod kinds;
mod lent;
mod onward;
pub mod order;
mod search;
mod stop;
mod target;

pub use answer::Answer;
pub use by_search::{ROOT, open_view};
pub use kept::{KeptInode, KeptTarget, Place};
pub use kinds::{FileKind, KindAndSize};
pub use lent::LentTarget;
pub use onward::Onward;
pub use stop::PathStop;
pub use target::Target;
