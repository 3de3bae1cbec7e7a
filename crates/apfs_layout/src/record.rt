// The values of the records of file-system trees, by offset in the value.

// File-System Objects, j_inode_val_t.

pub const INODE_PARENT: usize = 0;

pub const INODE_PRIVATE_ID: usize = 8;

/// The inode's flags, which aren't read.
pub const INODE_FLAGS: usize = 48;

pub const INODE_LINKS: usize = 56;

pub const INODE_BSD_FLAGS: usize = 68;

pub const INODE_MODE: usize = 80;

pub const INODE_LEN: usize = 92;

/// The unit of the kind, which stands in the high 4 bits of the mode.
pub const MODE_KIND_UNIT: u16 = 1 << 12;

// File-System Objects, j_drec_val_t.

pub const ENTRY_FILE_ID: usize = 0;

pub const ENTRY_FLAGS: usize = 16;

pub const ENTRY_LEN: usize = 18;

/// One more than the greatest kind, which stands in the low 4 bits of the flags.
pub const ENTRY_KINDS: u16 = 16;

// Extended Attributes, j_xattr_val_t.

pub const ATTRIBUTE_FLAGS: usize = 0;

pub const ATTRIBUTE_CONTENTS_LEN: usize = 2;

pub const ATTRIBUTE_CONTENTS: usize = 4;

/// The flags: the contents are a stream, or stand in the record.
pub const ATTRIBUTE_STREAM: u16 = 1;

pub const ATTRIBUTE_EMBEDDED: u16 = 2;

// Extended Attributes, j_xattr_dstream_t, by offset in the contents.

pub const ATTRIBUTE_STREAM_ID: usize = 0;

pub const ATTRIBUTE_STREAM_SIZE: usize = 8;

pub const ATTRIBUTE_STREAM_LEN: usize = 48;

// Siblings, j_sibling_val_t.

pub const LINK_PARENT: usize = 0;

pub const LINK_NAME_LEN: usize = 8;

pub const LINK_NAME: usize = 10;

// Siblings, j_sibling_map_val_t.

pub const MAP_FILE: usize = 0;

pub const MAP_LEN: usize = 8;

// Data Streams, j_dstream_id_val_t.

/// How many files have the stream, which isn't read.
pub const STREAM_COUNT: usize = 0;

pub const STREAM_ID_LEN: usize = 4;

// Data Streams, j_file_extent_val_t.

/// The length in bytes in the low 56 bits, flags in the others.
pub const EXTENT_LENGTH: usize = 0;

pub const EXTENT_BLOCK: usize = 8;

pub const EXTENT_LEN: usize = 24;

/// One more than the greatest length: the unit of the flags.
pub const EXTENT_FLAG_UNIT: u64 = 1 << 56;

// Extended Fields, xf_blob_t and x_field_t, by offset in the head and in an item of the table.

pub const FIELDS_COUNT: usize = 0;

/// The bytes of all fields, which aren't compared.
pub const FIELDS_USED: usize = 2;

pub const FIELDS_HEAD_LEN: usize = 4;

pub const FIELD_TYPE: usize = 0;

/// The flags of a field, which aren't read.
pub const FIELD_FLAGS: usize = 1;

pub const FIELD_SIZE: usize = 2;

pub const FIELD_ITEM_LEN: usize = 4;

/// What the size of a field is rounded up to.
pub const FIELD_UNIT: usize = 8;

/// The type of an inode's stream, and of an entry's sibling id.
pub const FIELD_STREAM: u8 = 8;

pub const FIELD_SIBLING: u8 = 1;

pub const FIELD_SIBLING_LEN: usize = 8;

// Data Streams, j_dstream_t, by offset in the field.

pub const STREAM_SIZE: usize = 0;

pub const STREAM_ALLOCATED: usize = 8;

pub const STREAM_LEN: usize = 40;

/// The flag of a field that the system has made (Extended Fields, Extended-Field Flags).
pub const FIELD_OF_SYSTEM: u8 = 0x20;
