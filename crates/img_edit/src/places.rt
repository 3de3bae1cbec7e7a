// Where the fixed objects of a made image stand, and their ids.

/// The descriptor area: the checkpoint map and the superblock, and then empty blocks.
pub const DESC_BASE: u64 = 1;

pub const DESC_BLOCKS: u32 = 8;

pub const CHECKPOINT_MAP: usize = 1;

pub const SUPERBLOCK: usize = 2;

/// The data area: the ephemeral objects, of which four stand in each image, and then empty blocks.
pub const DATA_BASE: u64 = 9;

pub const DATA_BLOCKS: u32 = 16;

pub const SPACE_MANAGER: usize = 9;

pub const REAPER: usize = 10;

pub const POOL_QUEUE: usize = 11;

pub const MAIN_QUEUE: usize = 12;

/// The first block of the data area that none of these four has.
pub const FREE_DATA: usize = 13;

/// The container's object map and the root of its tree.
pub const CONTAINER_MAP: usize = 25;

pub const CONTAINER_MAP_ROOT: usize = 26;

/// The ring of the pool's bitmaps, of which the first is the current one.
pub const RING_BASE: usize = 27;

pub const RING_BLOCKS: u32 = 16;

/// The pool: the chunk-info block, the chunks' bitmaps, and then empty blocks. It is as long as it must be, and at least
/// this long.
pub const POOL_BASE: usize = 43;

pub const POOL_BLOCKS: usize = 8;

/// The ids of the ephemeral objects.
pub const SPACE_OID: u64 = 1024;

pub const REAPER_OID: u64 = 1025;

pub const POOL_QUEUE_OID: u64 = 1029;

pub const MAIN_QUEUE_OID: u64 = 1030;

/// The ids of the first volume and of its file-system tree.
pub const VOLUME_OID: u64 = 1026;

pub const ROOT_OID: u64 = 1028;

/// The first id that no fixed object has.
pub const FIRST_OID: u64 = 1031;
