// An EFI jumpstart (EFI Jumpstart, nx_efi_jumpstart_t), by offset.

pub const MAGIC: usize = 32;

/// The version and the length of the driver in bytes, which aren't read.
pub const VERSION: usize = 36;

pub const DRIVER_LEN: usize = 40;

pub const COUNT: usize = 44;

pub const EXTENTS: usize = 176;

/// The length of an extent, a range of blocks.
pub const EXTENT_LEN: usize = 16;

/// The bytes `JSDR` as a number.
pub const JUMP_MAGIC: u32 = 0x5244_534a;
