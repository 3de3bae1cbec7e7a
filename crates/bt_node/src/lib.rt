//! Nodes of trees: which are sound, their entries lent from the block, and what the keys of a tree are.
#![tactic(auto)]

mod entries;
mod fault;
mod key;
mod node;
mod soundness;
mod table;
mod view;

pub use fault::NodeFault;
pub use key::{Layout, Rank, TreeKey};
pub use node::{NodeAt, RootInfo};
pub use obj_base::Site;
pub use view::{Entry, NodeView};
