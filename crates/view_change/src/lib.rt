//! How the facts of a view differ from those of the view before, by the leaves of their trees.
#![tactic(auto)]

mod changing;
mod differing;
mod kept;
mod kept_view;
mod lazy_ring;
mod leaf;
mod leaf_read;
mod leaf_taker;
mod node;
mod outline;
mod ring;
mod runs;
mod seen;
mod stock;
mod walking;

pub use changing::{Change, Changed, Changing};
pub use differing::{difference, keep};
pub use kept::{Held, KeptLeaf, Numbers};
pub use kept_view::KeptView;
pub use leaf::Leaf;
pub use leaf_taker::{Ends, LeafTaker};
pub use runs::are_none;
pub use walking::walk_leaves;
