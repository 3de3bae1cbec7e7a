//! The volumes of a container, their snapshots and their views.
#![tactic(auto)]

mod agree;
mod features;
mod fields;
mod head;
mod loading;
mod map;
mod metadata;
mod named;
mod place;
mod records;
mod slots;
mod snapshots;
mod stop;
mod superblock;
mod views;
mod volume;

pub use head::VolHead;
pub use loading::load;
pub use slots::heads;
pub use stop::VolStop;
pub use views::{by_name, live, past};
pub use volume::{Snapshot, View, Volume};
