// A volume superblock (Volumes, apfs_superblock_t), by offset.

pub const MAGIC: usize = 32;

/// The volume's slot, which isn't read.
pub const SLOT: usize = 36;

/// The features that aren't incompatible, which aren't read.
pub const FEATURES: usize = 40;

pub const INCOMPAT: usize = 56;

/// What is said of the volume's keys (Encryption, wrapped_meta_crypto_state_t), which isn't read: the version, the class, and the revision.
pub const CRYPTO_VERSION: usize = 96;

pub const CRYPTO_CLASS: usize = 104;

pub const CRYPTO_REVISION: usize = 112;

pub const ROOT_TYPE: usize = 116;

pub const EXTENTS_TYPE: usize = 120;

pub const SNAPS_TYPE: usize = 124;

pub const OMAP_OID: usize = 128;

pub const ROOT_OID: usize = 136;

pub const EXTENTS_ROOT: usize = 144;

pub const SNAPS_ROOT: usize = 152;

pub const REVERT_TO: usize = 160;

/// The next id of a file, which isn't read.
pub const NEXT_ID: usize = 176;

pub const SNAPSHOTS: usize = 216;

pub const UUID: usize = 240;

pub const FS_FLAGS: usize = 264;

/// The transaction in which the volume was made, which isn't read.
pub const FORMATTED_BY_XID: usize = 312;

pub const NAME: usize = 704;

/// The next document id, which isn't read.
pub const NEXT_DOCUMENT: usize = 960;

pub const ROLE: usize = 964;

pub const ROLLING: usize = 976;

pub const META_EXT: usize = 1000;

pub const INTEGRITY: usize = 1024;

pub const FILE_EXTENTS: usize = 1032;

/// A number that the reference reserves.
pub const RESERVED: usize = 1048;

/// The length of the identifier.
pub const UUID_LEN: usize = 16;

/// The length of the name with all that follows it.
pub const NAME_LEN: usize = 256;

/// The bytes `APSB` as a number.
pub const VOLUME_MAGIC: u32 = 0x4253_5041;

// Incompatible features (Volumes, Incompatible Volume Feature Flags).

pub const CASE_INSENSITIVE: u64 = 1;

pub const DATALESS_SNAPSHOTS: u64 = 2;

pub const ENCRYPTION_ROLLED: u64 = 4;

pub const NORMALIZATION_INSENSITIVE: u64 = 8;

pub const INCOMPLETE_RESTORE: u64 = 0x10;

pub const SEALED: u64 = 0x20;

/// The volume flag "not encrypted" (Volumes, Volume Flags).
pub const UNENCRYPTED: u64 = 1;

/// The feature that siblings tell of each name of a file (Volumes, Volume Feature Flags).
pub const HARD_LINK_RECORDS: u64 = 2;
