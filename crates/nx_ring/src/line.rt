// A candidate as it is listed.

/// A candidate of the descriptor area: a superblock that may end a checkpoint.
#[derive(Clone, Copy, PartialEq, Eq)]
pub struct RingLine {
    /// Its index in the descriptor area.
    pub index: u32,
    /// Its block.
    pub block: u64,
    /// Its transaction.
    pub xid: u64,
    /// The index at which its checkpoint starts.
    pub desc_index: u32,
    /// How many blocks of the descriptor area its checkpoint has: the maps and the superblock.
    pub desc_len: u32,
}
