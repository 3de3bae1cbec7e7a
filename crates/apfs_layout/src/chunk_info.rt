// Blocks of addresses of chunk-info blocks (Space Manager, cib_addr_block_t), by offset.

pub const CAB_INDEX: usize = 32;

pub const CAB_COUNT: usize = 36;

pub const CAB_ADDRESSES: usize = 40;

/// The length of an address.
pub const ADDRESS_LEN: usize = 8;

// Chunk-info blocks (Space Manager, chunk_info_block_t), by offset.

pub const CIB_INDEX: usize = 32;

pub const CIB_COUNT: usize = 36;

pub const CIB_ENTRIES: usize = 40;

/// The length of an entry.
pub const ENTRY_LEN: usize = 32;

// An entry, which tells of a chunk (Space Manager, chunk_info_t), by offset in it.

/// The transaction, which isn't read.
pub const CHUNK_XID: usize = 0;

pub const CHUNK_ADDRESS: usize = 8;

pub const CHUNK_BLOCKS: usize = 16;

pub const CHUNK_FREE: usize = 20;

pub const CHUNK_BITMAP: usize = 24;

/// The bits of a chunk's number of blocks that count.
pub const CHUNK_BLOCKS_MASK: u32 = 0xf_ffff;
