// The objects of a container, a module for each: a function that gives its block.

pub(crate) mod checkpoint_map;
pub(crate) mod chunk_info;
pub(crate) mod fields;
pub(crate) mod jumpstart;
pub(crate) mod object_map;
pub(crate) mod reaper;
pub(crate) mod space_manager;
pub(crate) mod superblock;
pub(crate) mod volume;
