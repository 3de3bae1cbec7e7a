// The values of trees but those of file systems, by offset in the value.

// Object Maps, omap_val_t.

pub const OMAP_FLAGS: usize = 0;

pub const OMAP_SIZE: usize = 4;

pub const OMAP_PADDR: usize = 8;

pub const OMAP_LEN: usize = 16;

// Object Maps, omap_snapshot_t.

pub const MAP_SNAPSHOT_FLAGS: usize = 0;

pub const MAP_SNAPSHOT_LEN: usize = 16;

// Space Manager, spaceman_free_queue_val_t.

pub const QUEUE_LENGTH: usize = 0;

pub const QUEUE_LEN: usize = 8;

/// The length in blocks of an entry without a value.
pub const GHOST_LENGTH: u64 = 1;

// File-System Objects, j_phys_ext_val_t.

/// The length in blocks in the low 60 bits and the kind in the high 4.
pub const EXT_LENGTH_AND_KIND: usize = 0;

pub const EXT_OWNER: usize = 8;

pub const EXT_COUNT: usize = 16;

pub const EXT_LEN: usize = 20;

/// The kind of a range that the volume or the snapshot itself has written.
pub const EXT_NEW: u8 = 1;

// Snapshot Metadata, j_snap_metadata_val_t.

pub const SNAPSHOT_EXTENTS: usize = 0;

pub const SNAPSHOT_SUPERBLOCK: usize = 8;

pub const SNAPSHOT_CREATED: usize = 16;

/// The type of the extent reference tree, which isn't read.
pub const SNAPSHOT_EXTENTS_TYPE: usize = 40;

pub const SNAPSHOT_FLAGS: usize = 44;

pub const SNAPSHOT_NAME_LEN: usize = 48;

pub const SNAPSHOT_NAME: usize = 50;

// Snapshot Metadata, j_snap_name_val_t.

pub const SNAPSHOT_NAME_XID: usize = 0;
