// A GUID partition table: its header, which begins with its mark, and its entries, by offset.

/// The sector in which the entries begin.
pub const FIRST_SECTOR: usize = 72;

/// The number of entries.
pub const ENTRY_COUNT: usize = 80;

/// The bytes of an entry.
pub const ENTRY_SIZE: usize = 84;

/// The length of a header.
pub const HEADER_LEN: usize = 92;

/// In an entry: its first sector, and its last, which belongs to it. Its type comes first.
pub const PART_FIRST: usize = 32;

pub const PART_LAST: usize = 40;

/// The length of an entry as far as it is read.
pub const PART_LEN: usize = 48;
