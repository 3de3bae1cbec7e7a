// A container superblock (Container, nx_superblock_t), by offset.

pub const MAGIC: usize = 32;

pub const BLOCK_SIZE: usize = 36;

pub const BLOCK_COUNT: usize = 40;

pub const INCOMPAT: usize = 64;

pub const UUID: usize = 72;

pub const NEXT_OID: usize = 88;

pub const NEXT_XID: usize = 96;

pub const DESC_BLOCKS: usize = 104;

pub const DATA_BLOCKS: usize = 108;

pub const DESC_BASE: usize = 112;

pub const DATA_BASE: usize = 120;

pub const DESC_NEXT: usize = 128;

pub const DATA_NEXT: usize = 132;

pub const DESC_INDEX: usize = 136;

pub const DESC_LEN: usize = 140;

pub const DATA_INDEX: usize = 144;

pub const DATA_LEN: usize = 148;

pub const SPACE_OID: usize = 152;

pub const OMAP_OID: usize = 160;

pub const REAPER_OID: usize = 168;

/// The greatest number of volumes, which isn't read.
pub const MAX_FILE_SYSTEMS: usize = 180;

pub const FS_OID: usize = 184;

pub const BLOCKED: usize = 1240;

pub const EVICTION: usize = 1256;

pub const JUMPSTART: usize = 1272;

pub const LOCKER: usize = 1296;

/// The ephemeral information, which isn't read.
pub const EPHEMERAL_INFO: usize = 1312;

pub const MEDIA_LOCKER: usize = 1392;

/// The bytes `NXSB` as a number.
pub const NX_MAGIC: u32 = 0x4253_584e;

/// The oid of each container superblock.
pub const NX_OID: u64 = 1;

/// The number of slots for volumes (`NX_MAX_FILE_SYSTEMS`).
pub const SLOTS: usize = 100;

/// The bytes that tell the block size: the least block.
pub const FIRST_BYTES: usize = 4096;

/// The highest bit of an area's number of blocks: it isn't contiguous.
pub const APART: u32 = 0x8000_0000;

/// Incompatible features (Incompatible Container Feature Flags).
pub const VERSION_1: u64 = 1;

pub const VERSION_2: u64 = 2;

pub const FUSION: u64 = 0x100;
