// Owners: who owns which range of blocks.

use crate::naming::Naming;
use omap_map::OmapRecord;

/// Who owns.
#[derive(Clone, Copy, PartialEq, Eq, PartialOrd, Ord)]
pub enum Who {
    BlockZero,
    /// The checkpoint descriptor area.
    Descriptors,
    /// The checkpoint data area.
    Checkpoints,
    KeyLocker,
    MediaLocker,
    InternalPool,
    /// The ring of the pool's bitmaps.
    PoolRing,
    /// The object of a physical naming.
    Named(Naming),
    /// The record of the object map in a block.
    Recorded(u64, OmapRecord),
    /// The range of a place among those of which the object of a naming tells.
    Told(Naming, u64),
    /// The bitmap of a chunk.
    Bitmap(u64),
}

/// An owner, and its range. The first block comes first, since most owners are told apart by it alone.
#[derive(Clone, Copy, PartialEq, Eq, PartialOrd, Ord)]
pub struct Owner {
    pub first: u64,
    pub blocks: u64,
    pub who: Who,
}
