// An object map (Object Maps, omap_phys_t), by offset.

/// The flags of the map, which aren't read.
pub const FLAGS: usize = 32;

pub const SNAP_COUNT: usize = 36;

/// The types of the two trees, which aren't read.
pub const TREE_TYPE: usize = 40;

pub const SNAP_TREE_TYPE: usize = 44;

pub const TREE: usize = 48;

pub const SNAP_TREE: usize = 56;

/// The transaction of the latest snapshot, which isn't read.
pub const LATEST_SNAP: usize = 64;

pub const REVERT_MIN: usize = 72;

pub const REVERT_MAX: usize = 80;

// The flags of a mapping (Object Maps, Object Map Value Flags).

pub const DELETED: u32 = 1;

pub const ENCRYPTED: u32 = 4;

pub const NO_HEADER: u32 = 8;

/// The flag of a map without snapshots, as the container's (Object Maps, Object Map Flags).
pub const MANUALLY_MANAGED: u32 = 1;
