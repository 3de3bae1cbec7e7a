// Where the objects of a container lie.
ghost use Rattle.std.specs.Prelude.{◌≡◌, ◌&&◌, nat_lt};

/// What the objects of a container are measured by.
#[derive(Clone, Copy, PartialEq, Eq)]
pub struct Site {
    /// The bytes of a block.
    pub block_size: u32,
    /// The number of the container's blocks.
    pub blocks: u64,
    /// The greatest transaction that is allowed.
    pub max_xid: u64,
}

impl Site {
    /// Whether a block is one that an object may have: above 0 and inside the container.
    pub fn has_block(&self, block: u64) -> bool
        ensures { result ≡ (nat_lt 0 block && nat_lt block self.now.blocks) }
    {
        0 < block && block < self.blocks
    }
}
