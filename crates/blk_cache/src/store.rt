// The blocks that are kept.
ghost use Rattle.std.specs.Prelude.{◌≡◌, ◌⊎◌, ◌+◌, ◌≤◌, ℕ, Some, None, length, IfSome, IsTrue, slice_range, nat_eq, Vec};
ghost use Rattle.std.specs.Map.{lookup};
ghost use Rattle.std.specs.declared.alloc.Global.{Global};
ghost use Rattle.lru.specs.LruCache.{lru_cache, promoted, put_entries};
ghost use Rattle.apfs_model.specs.Counts.{one_more};
ghost use Rattle.blk_cache.specs.Keeping.{keeps, IsReordered};

use lru::LruCache;
use std::alloc::Global;

/// The blocks that a cache keeps, the one used last first.
#[derive(Drop)]
pub struct Store {
    pub(crate) blocks: LruCache<u64, Vec<u8>>,
    /// The bytes of a block.
    pub(crate) size: u32,
    /// How many blocks couldn't be kept, up to the greatest number of 64 bits.
    pub(crate) lost: u64,
}

impl Store {
    /// Whether a block is kept.
    pub(crate) fn has(&self, block: u64) -> bool
        ensures { result ≡ keeps self.now block }
    {
        self.blocks.contains(&block)
    }

    /// Copies a part of a block that is kept, and makes the block the one used last: whether it is kept.
    pub(crate) fn serve(&mut self, block: u64, from: usize, into: &mut [u8]) -> bool
        requires { (v : Vec ℕ Global) → lookup (nat_eq block) self.old.blocks.entries ≡ Some v → from + length into.old ≤ length v.items }
        ensures found { result ≡ keeps self.old block }
        ensures copied { IfSome (lookup (nat_eq block) self.old.blocks.entries) (λ v. into.new ≡ slice_range v.items from (from + length into.old)) }
        ensures entries { self.new.blocks ≡ lru_cache (promoted (nat_eq block) self.old.blocks.entries) self.old.blocks.cap }
        ensures size { self.new.size ≡ self.old.size }
        ensures lost { self.new.lost ≡ self.old.lost }
    {
        match self.blocks.peek(&block) {
            None => {}
            Some(bytes) => into.copy_from_slice(&bytes[from..from + into.len()]),
        }
        self.blocks.promote(&block)
    }

    /// Makes a block, where it is kept, the next one to go.
    pub(crate) fn demote(&mut self, block: u64)
        ensures { IsReordered self.old self.new }
    {
        self.blocks.demote(&block);
    }

    /// Counts a block that couldn't be kept.
    pub(crate) fn lose(&mut self)
        ensures blocks { self.new.blocks ≡ self.old.blocks }
        ensures size { self.new.size ≡ self.old.size }
        ensures lost { self.new.lost ≡ one_more self.old.lost }
        ensures later { self.old.lost ≤ self.new.lost }
    {
        self.lost = self.lost.saturating_add(1);
    }

    /// Keeps a block that isn't kept, or counts it as lost where there is no memory.
    pub(crate) fn keep(&mut self, block: u64, bytes: Vec<u8>)
        ensures kept { ((self.new.blocks ≡ lru_cache (put_entries nat_eq self.old.blocks block bytes) self.old.blocks.cap) × (self.new.lost ≡ self.old.lost)) ⊎ ((self.new.blocks ≡ self.old.blocks) × (self.new.lost ≡ one_more self.old.lost)) }
        ensures size { self.new.size ≡ self.old.size }
        ensures later { self.old.lost ≤ self.new.lost }
    {
        match self.blocks.put(block, bytes) {
            Ok(_) => {}
            Err(_) => self.lose(),
        }
    }
}
