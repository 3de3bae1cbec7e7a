// The keys of trees, by offset in the key.

// Object Maps, omap_key_t.

pub const OMAP_OID: usize = 0;

pub const OMAP_XID: usize = 8;

pub const OMAP_LEN: usize = 16;

// Object Maps, the key of omap_snapshot_t.

pub const MAP_SNAPSHOT_XID: usize = 0;

pub const MAP_SNAPSHOT_LEN: usize = 8;

// Space Manager, spaceman_free_queue_key_t.

pub const QUEUE_XID: usize = 0;

pub const QUEUE_PADDR: usize = 8;

pub const QUEUE_LEN: usize = 16;

// File-System Objects, j_key_t and the keys that start with it.

/// The id in the low 60 bits and the kind in the high 4.
pub const ID_AND_KIND: usize = 0;

/// One more than the greatest id: the unit of the kind.
pub const KIND_UNIT: u64 = 1 << 60;

/// The length of a key that is an id and a kind.
pub const RECORD_LEN: usize = 8;

/// A sibling id (j_sibling_key_t) or a logical address (j_file_extent_key_t).
pub const SECOND: usize = 8;

/// The length of a key with such a number.
pub const SECOND_LEN: usize = 16;

/// j_drec_hashed_key_t: the name's length in the low 10 bits, its hash in the high 22.
pub const LEN_AND_HASH: usize = 8;

/// One more than the greatest length there: the unit of the hash.
pub const HASH_UNIT: u32 = 1 << 10;

pub const HASHED_NAME: usize = 12;

/// j_drec_key_t, j_xattr_key_t, j_snap_name_key_t: the name's length.
pub const NAME_LEN: usize = 8;

pub const PLAIN_NAME: usize = 10;

// Kinds of records (File-System Objects, j_obj_types).

pub const SNAPSHOT: u8 = 1;

pub const EXTENT: u8 = 2;

pub const INODE: u8 = 3;

pub const ATTRIBUTE: u8 = 4;

pub const SIBLING_LINK: u8 = 5;

pub const STREAM_ID: u8 = 6;

pub const FILE_EXTENT: u8 = 8;

pub const ENTRY: u8 = 9;

pub const SNAPSHOT_NAME: u8 = 11;

pub const SIBLING_MAP: u8 = 12;
