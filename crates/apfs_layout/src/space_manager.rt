// A space manager (Space Manager, spaceman_phys_t), by offset.

pub const BLOCK_SIZE: usize = 32;

pub const BLOCKS_PER_CHUNK: usize = 36;

pub const CHUNKS_PER_CIB: usize = 40;

pub const CIBS_PER_CAB: usize = 44;

pub const MAIN_BLOCKS: usize = 48;

pub const MAIN_CHUNKS: usize = 56;

pub const MAIN_CIBS: usize = 64;

pub const MAIN_CABS: usize = 68;

pub const MAIN_FREE: usize = 72;

pub const MAIN_ADDRESSES: usize = 80;

pub const SECOND_BLOCKS: usize = 96;

/// Where the second device's addresses lie, which isn't read.
pub const SECOND_ADDRESSES: usize = 128;

/// The number of bitmaps in the pool's ring for each transaction, which isn't read.
pub const RING_BITMAPS: usize = 148;

pub const POOL_BLOCKS: usize = 152;

pub const POOL_BITMAP_SIZE: usize = 160;

pub const RING_BLOCKS: usize = 164;

pub const RING_BASE: usize = 168;

pub const POOL_BASE: usize = 176;

/// The trees of the three free queues: of the pool, of the main device, and of the second one.
pub const POOL_QUEUE_TREE: usize = 208;

pub const MAIN_QUEUE_TREE: usize = 248;

pub const SECOND_QUEUE_TREE: usize = 288;

/// How many blocks the main queue holds, and the oldest transaction in it, which aren't compared.
pub const MAIN_QUEUE_COUNT: usize = 240;

pub const MAIN_QUEUE_OLDEST: usize = 256;

/// The limits of two queues, which aren't read.
pub const POOL_QUEUE_LIMIT: usize = 224;

pub const MAIN_QUEUE_LIMIT: usize = 264;

/// The free list of the pool's ring and its transactions, which aren't read.
pub const RING_FREE_HEAD: usize = 320;

pub const RING_FREE_TAIL: usize = 322;

pub const RING_XIDS: usize = 324;

/// Where the indexes of the pool's current bitmap lie.
pub const RING_INDEXES: usize = 328;

pub const RING_FREE_NEXT: usize = 332;
