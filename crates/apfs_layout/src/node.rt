// A node of a tree (B-Trees, btree_node_phys_t), by offset.

pub const FLAGS: usize = 32;

pub const LEVEL: usize = 34;

pub const COUNT: usize = 36;

/// Where the table of contents lies, counted from `TABLE`.
pub const TABLE_OFFSET: usize = 40;

pub const TABLE_LENGTH: usize = 42;

/// The free space and the two free lists, which aren't read.
pub const FREE_OFFSET: usize = 44;

pub const FREE_LENGTH: usize = 46;

pub const FREE_KEYS: usize = 48;

pub const FREE_VALUES: usize = 52;

pub const TABLE: usize = 56;

// The flags of a node (B-Trees, B-Tree Node Flags).

pub const ROOT: u16 = 1;

pub const LEAF: u16 = 2;

pub const FIXED: u16 = 4;

pub const HASHED: u16 = 8;

pub const NO_HEADER: u16 = 0x10;

// A table entry with offsets alone (kvoff_t) and one with offsets and lengths (kvloc_t).

pub const FIXED_ENTRY_LEN: usize = 4;

pub const VARIABLE_ENTRY_LEN: usize = 8;

/// The value offset of an entry without a value (BTOFF_INVALID).
pub const NO_VALUE: u16 = 0xffff;

/// The length of a child's oid, which a fixed value holds above level 0.
pub const CHILD_LEN: usize = 8;

/// The highest level of a root that is read.
pub const MAX_LEVEL: u16 = 15;

// A root's last bytes (B-Trees, btree_info_t), by offset in them.

pub const INFO_LEN: usize = 40;

pub const INFO_FLAGS: usize = 0;

pub const NODE_SIZE: usize = 4;

pub const KEY_SIZE: usize = 8;

pub const VALUE_SIZE: usize = 12;

pub const LONGEST_KEY: usize = 16;

pub const LONGEST_VALUE: usize = 20;

pub const KEY_COUNT: usize = 24;

pub const NODE_COUNT: usize = 32;
