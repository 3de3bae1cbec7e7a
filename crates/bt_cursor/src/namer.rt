// From the id of a node to its block.
ghost use Rattle.std.specs.Prelude.{◌≡◌, ℕ, Option};
ghost use Rattle.apfs_model.specs.Blocks.{in_container};

/// A look-up from the ids of nodes to blocks. Takes no memory.
pub trait Namer: Drop {
    /// The block of an id, where it has one.
    ghost named: { Self → ℕ → Option ℕ };

    /// The block of an id, where it has one.
    fn block(&self, oid: u64) -> Option<u64>
        ensures { result ≡ named self.now oid };
}

/// The look-up of physical objects: an id is a block of a container of so many blocks (Objects, obj_phys_t, o_oid).
#[derive(Clone, Copy, PartialEq, Eq)]
pub struct Physical {
    pub blocks: u64,
}

impl Namer for Physical {
    ghost named = { λ physical oid. in_container physical.blocks oid };

    fn block(&self, oid: u64) -> Option<u64> {
        if 0 < oid && oid < self.blocks {
            Some(oid)
        } else {
            None
        }
    }
}
