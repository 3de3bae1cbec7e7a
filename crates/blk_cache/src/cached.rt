// A source over another one, of which it keeps blocks.
ghost use Rattle.std.specs.Prelude.{◌≡◌, ◌⊎◌, ◌+◌, ◌*◌, ◌≤◌, ◌<◌, ℕ, List, Some, true, false, length, OnOk, OnErr, IfOk, IfErr};
ghost use Rattle.apfs_model.specs.Counts.{one_more, Rose};
ghost use Rattle.apfs_model.specs.Source.{Copies};
ghost use Rattle.obj_base.specs.BlockSize.{is_accepted};
ghost use Rattle.blk_cache.specs.Keeping.{keeps, IsFull, Touches, last_touched, touched_count, IsCache};

use crate::part::read;
use crate::store::Store;
use blk_source::{BlockSource, ReadFailed};
use lru::LruCache;
use std::alloc::Global;
use std::num::NonZeroUsize;

/// A source over another one, of which it keeps the blocks that were read last. Its block k is the bytes from k times
/// its block size on, up to the size of the source.
#[derive(Drop)]
pub struct Cached<S: BlockSource> {
    alloc: Global,
    inner: S,
    store: Store,
    reads: u64,
    ghost cache: { IsCache S.bytes S.bytes_len inner store },
}

impl<S: BlockSource> Cached<S> {
    /// A cache of at most `capacity` blocks of `block` bytes over a source. Where there is no memory for its table the
    /// source is handed back.
    pub fn new(alloc: Global, inner: S, block: u32, capacity: usize) -> Result<Cached<S>, S>
        requires accepted { is_accepted block ≡ true }
        requires room { 0 < capacity }
        ensures inner { IfOk result (λ cached. cached.inner ≡ inner) }
        ensures empty { IfOk result (λ cached. (k : ℕ) → keeps cached.store k ≡ false) }
        ensures block { IfOk result (λ cached. cached.store.size ≡ block) }
        ensures capacity { IfOk result (λ cached. cached.store.blocks.cap ≡ capacity) }
        ensures lost { IfOk result (λ cached. cached.store.lost ≡ 0) }
        ensures reads { IfOk result (λ cached. cached.reads ≡ 0) }
        ensures same { IfErr result (λ source. source ≡ inner) }
    {
        let room = NonZeroUsize::new(capacity).unwrap();
        match LruCache::new(alloc, room) {
            Ok(blocks) => Ok(Cached {
                alloc,
                inner,
                store: Store {
                    blocks,
                    size: block,
                    lost: 0,
                },
                reads: 0,
            }),
            Err(_) => Err(inner),
        }
    }

    /// Whether the cache has kept block `block`.
    pub fn kept(&self, block: u64) -> bool
        ensures value { result ≡ keeps self.now.store block }

        // A block that is kept lies before the end of the source.
        ensures before_end { result ≡ true → self.now.store.size * block < S.bytes_len self.now.inner }
    {
        self.store.blocks.contains(&block)
    }

    /// How many blocks couldn't be kept for want of memory, up to the greatest number of 64 bits.
    pub fn lost(&self) -> u64
        ensures { result ≡ self.now.store.lost }
    {
        self.store.lost
    }

    /// The source.
    pub fn inner(&self) -> &S
        ensures { result.now ≡ self.now.inner }
    {
        &self.inner
    }

    /// The source back.
    pub fn into_inner(self) -> S
        ensures { result ≡ self.inner }
    {
        let Cached {
            alloc: _,
            inner,
            store,
            reads: _,
        } = self;
        drop(store);
        inner
    }
}

impl<S: BlockSource> BlockSource for Cached<S> {
    ghost bytes_len = { λ s. S.bytes_len s.inner };

    ghost bytes = { λ s. S.bytes s.inner };

    ghost faults = { λ s. S.faults s.inner };

    ghost reads = { λ s. s.reads };

    ghost whole = { λ s image e. S.whole s.inner image e };

    fn size(&self) -> u64 {
        self.inner.size()
    }

    fn read_at(&mut self, at: u64, into: &mut [u8]) -> Result<(), ReadFailed>
        requires inside { at + length into.old ≤ S.bytes_len self.old.inner }
        requires some { 1 ≤ length into.old }
        requires short { length into.old ≤ 65536 }
        ensures found { (image : List ℕ) → S.bytes self.old.inner ≡ Some image → OnOk result (Copies image at into.new) }
        ensures cause { OnErr result (Rose (S.faults self.old.inner) (S.faults self.new.inner)) }
        ensures bytes { S.bytes self.new.inner ≡ S.bytes self.old.inner }
        ensures size { S.bytes_len self.new.inner ≡ S.bytes_len self.old.inner }
        ensures later { S.faults self.old.inner ≤ S.faults self.new.inner }
        ensures reads { self.new.reads ≡ one_more self.old.reads }

        // The source is read at most once for each block that the read touches, by its own count.
        ensures once_each { S.reads self.new.inner ≤ S.reads self.old.inner + touched_count self.old.store.size at (length into.old) }

        // Where each block that it touches is kept, the source isn't read, and no block is lost.
        ensures served { ((k : ℕ) → Touches self.old.store.size at (length into.old) k → keeps self.old.store k ≡ true) → (S.reads self.new.inner ≡ S.reads self.old.inner) × (self.new.store.lost ≡ self.old.store.lost) }

        // A block that was kept is kept, or the cache is full.
        ensures stays { (k : ℕ) → keeps self.old.store k ≡ true → (keeps self.new.store k ≡ true) ⊎ IsFull self.new.store }

        // The last block that it touches is kept, or one was lost.
        ensures last { OnOk result ((keeps self.new.store (last_touched self.old.store.size at (length into.old)) ≡ true) ⊎ Rose self.old.store.lost self.new.store.lost) }
        ensures lost { self.old.store.lost ≤ self.new.store.lost }
        ensures block { self.new.store.size ≡ self.old.store.size }
        ensures capacity { self.new.store.blocks.cap ≡ self.old.store.blocks.cap }
    {
        self.reads = self.reads.saturating_add(1);
        read(self.alloc, &mut self.inner, &mut self.store, at, into)
    }
}
