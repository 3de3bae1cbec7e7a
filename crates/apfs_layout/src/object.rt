// The header of an object (Objects, obj_phys_t), by offset.

/// The sum.
pub const SUM: usize = 0;

/// The object id.
pub const OID: usize = 8;

/// The transaction.
pub const XID: usize = 16;

/// The type: the kind in the low 16 bits, flags in the others.
pub const TYPE: usize = 24;

/// The subtype.
pub const SUBTYPE: usize = 28;

/// The length of the header.
pub const HEADER_LEN: usize = 32;

/// The first word that the sum goes over.
pub const FIRST_WORD: usize = 8;
