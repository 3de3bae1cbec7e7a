//! What is gathered of a container: its namings, each with its owner, by the trees, volumes, lists and chains that name blocks.
#![tactic(auto)]

mod counting;
mod finishing;
mod gathered;
mod infos;
mod jumping;
mod keeping;
mod maps;
mod objects;
mod of_volumes;
mod once;
mod queues;
mod raising;
mod ranges;
mod reaper_lists;
mod reaping;
mod snapshots;
mod space;
mod starting;
mod steps;
mod theorem;
mod trees;
mod volumes;

pub use gathered::Gathered;
pub use jumping::add_jumpstart;
pub use maps::add_map;
pub use of_volumes::parts_of_volumes;
pub use raising::{raise_pool, walk_fault};
pub use reaping::add_reaper;
pub use space::add_space;
pub use theorem::{namings_of_parts, namings_of_steps};
pub use volumes::{add_volume, add_volumes};
