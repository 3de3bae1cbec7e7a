// Why a block isn't a superblock.
use obj_base::HeadFault;

/// The first test of a superblock that fails (Container, `nx_superblock_t`).
#[derive(Clone, Copy, PartialEq, Eq)]
pub enum NxFault {
    /// The magic isn't `NXSB`.
    BadMagic,
    /// The block size isn't accepted, or isn't the length of the block.
    BadBlockSize,
    /// The header isn't that of a sound superblock.
    Head(HeadFault),
}
