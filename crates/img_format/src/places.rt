// Where the objects of a new container stand, and their ids.

// The blocks.

pub(crate) const FIRST_COPY: u64 = 0;

pub(crate) const CHECKPOINT_MAP: u64 = 1;

pub(crate) const SUPERBLOCK: u64 = 2;

pub(crate) const SPACE_MANAGER: u64 = 9;

pub(crate) const REAPER: u64 = 10;

pub(crate) const POOL_QUEUE: u64 = 11;

pub(crate) const MAIN_QUEUE: u64 = 12;

pub(crate) const CONTAINER_MAP: u64 = 25;

pub(crate) const CONTAINER_TREE: u64 = 26;

pub(crate) const RING: u64 = 27;

pub(crate) const CHUNK_INFO: u64 = 43;

pub(crate) const CHUNK_BITMAP: u64 = 44;

pub(crate) const VOLUME: u64 = 51;

pub(crate) const VOLUME_MAP: u64 = 52;

pub(crate) const VOLUME_TREE: u64 = 53;

pub(crate) const FILES: u64 = 54;

pub(crate) const EXTENTS: u64 = 55;

pub(crate) const SNAPSHOTS: u64 = 56;

/// The blocks that are used: each from here on is free.
pub(crate) const USED: u64 = 57;

// The ids.

pub(crate) const MANAGER_ID: u64 = 1024;

pub(crate) const REAPER_ID: u64 = 1025;

pub(crate) const VOLUME_ID: u64 = 1026;

pub(crate) const FILES_ID: u64 = 1028;

pub(crate) const POOL_QUEUE_ID: u64 = 1029;

pub(crate) const MAIN_QUEUE_ID: u64 = 1030;

/// The next id to be given.
pub(crate) const NEXT_ID: u64 = 1031;

/// The one transaction.
pub(crate) const XID: u64 = 1;
