// A checkpoint map (Container, checkpoint_map_phys_t), by offset.

/// The flags, which aren't read.
pub const FLAGS: usize = 32;

pub const COUNT: usize = 36;

pub const MAPPINGS: usize = 40;

/// The length of a mapping.
pub const MAPPING_LEN: usize = 40;

// A mapping (Container, checkpoint_mapping_t), by offset in it.

pub const MAPPING_TYPE: usize = 0;

pub const MAPPING_SUBTYPE: usize = 4;

pub const MAPPING_SIZE: usize = 8;

pub const MAPPING_OID: usize = 24;

pub const MAPPING_PADDR: usize = 32;

/// The flag of the last map of a checkpoint (Container, Checkpoint Flags).
pub const LAST_MAP: u32 = 1;
