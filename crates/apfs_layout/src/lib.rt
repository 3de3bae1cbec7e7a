//! Where the fields of each structure of the format lie: offsets, lengths and marks, a module for each structure. No code.
#![tactic(auto)]

pub mod checkpoint_map;
pub mod chunk_info;
pub mod container;
pub mod jumpstart;
pub mod key;
pub mod kind;
pub mod node;
pub mod object;
pub mod object_map;
pub mod reaping;
pub mod record;
pub mod space_manager;
pub mod value;
pub mod volume;
