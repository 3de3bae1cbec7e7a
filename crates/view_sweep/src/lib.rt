//! One sweep over the virtual objects of all views: each object is read once, however many views name it.
#![tactic(auto)]

mod idle;
mod joining;
mod level;
mod looking;
mod next;
mod nodes;
mod once;
mod order;
mod reaching;
mod reading;
mod runs;
mod sets;
mod sweeping;
mod used;
mod wanted;

pub use idle::{MapRecords, unused};
pub use reaching::{reach_by_views, reach_views};
pub use runs::{Run, least_place, put_run};
pub use sets::ViewSet;
pub use used::{Reach, Share, SharedAs, Used};
pub use wanted::{Head, SweptView};
