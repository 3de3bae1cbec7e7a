// What a ring of checkpoints lacks.

/// What a container's ring of checkpoints lacks, in the order of the tests.
#[derive(Clone, Copy, PartialEq, Eq)]
pub enum RingFault {
    /// Block 0 isn't a sound superblock whose areas lie in its container.
    BlockZero,
    /// The image has `have` whole blocks, and block 0 tells of `need`.
    Truncated { have: u64, need: u64 },
    /// No candidate is a valid checkpoint.
    NoCheckpoint,
}
