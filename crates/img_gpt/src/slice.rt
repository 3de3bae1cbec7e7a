// A part of a source, as a source.
ghost use Rattle.std.specs.Prelude.{◌≡◌, ◌+◌, ◌≤◌, ℕ, List, Option, Some, None, length, OnOk, OnErr};
ghost use Rattle.apfs_model.specs.Counts.{one_more, Rose};
ghost use Rattle.apfs_model.specs.Source.{Copies};
ghost use Rattle.img_gpt.specs.Slices.{sliced};
ghost use Rattle.img_gpt.specs.Whole.{sliced_whole};

use blk_source::{BlockSource, ReadFailed};
use std::marker::{Brand, PhantomData};

/// The size and the bytes of a source that is handed in, which it has when it is handed back. A type that stands for them in
/// contracts: a caller passes `Brand` and picks them.
pub trait Origin {
    ghost size: { ℕ };

    ghost bytes: { Option (List ℕ) };
}

impl Origin for Brand {
    ghost size = { 0 };

    ghost bytes = { None };
}

/// The bytes of a source from a place on, as many as said. It fails, and is read, as often as the source.
#[derive(Drop)]
pub struct Slice<S: BlockSource, O: Origin> {
    inner: S,
    start: u64,
    length: u64,
    origin: PhantomData<O>,
    ghost inside: { start + length ≤ S.bytes_len inner },
    ghost same_size: { S.bytes_len inner ≡ O.size },
    ghost same_bytes: { S.bytes inner ≡ O.bytes },
}

impl<S: BlockSource, O: Origin> Slice<S, O> {
    /// The `length` bytes of a source from byte `start` on.
    pub fn new(inner: S, start: u64, length: u64) -> Slice<S, O>
        requires inside { start + length ≤ S.bytes_len inner }
        requires size { S.bytes_len inner ≡ O.size }
        requires bytes { S.bytes inner ≡ O.bytes }
        ensures inner { result.inner ≡ inner }
        ensures from { result.start ≡ start }
        ensures length { result.length ≡ length }
    {
        Slice {
            inner,
            start,
            length,
            origin: PhantomData,
        }
    }

    /// The source back, with the size and the bytes that it had.
    pub fn into_inner(self) -> S
        ensures inner { result ≡ self.inner }
        ensures size { S.bytes_len result ≡ O.size }
        ensures bytes { S.bytes result ≡ O.bytes }
    {
        let Slice {
            inner,
            start: _,
            length: _,
            origin: _,
        } = self;
        inner
    }
}

impl<S: BlockSource, O: Origin> BlockSource for Slice<S, O> {
    ghost bytes_len = { λ s. s.length };

    ghost bytes = { λ s. sliced s.start s.length (S.bytes s.inner) };

    ghost faults = { λ s. S.faults s.inner };

    ghost reads = { λ s. S.reads s.inner };

    ghost whole = { λ s image e. sliced_whole s.start s.length (S.bytes_len s.inner) (S.bytes s.inner) image (λ disk told. S.whole s.inner disk told) s.inside e };

    fn size(&self) -> u64 {
        self.length
    }

    fn read_at(&mut self, at: u64, into: &mut [u8]) -> Result<(), ReadFailed>
        requires inside { at + length into.old ≤ self.old.length }
        requires some { 1 ≤ length into.old }
        requires short { length into.old ≤ 65536 }
        ensures found { (image : List ℕ) → sliced self.old.start self.old.length (S.bytes self.old.inner) ≡ Some image → OnOk result (Copies image at into.new) }
        ensures cause { OnErr result (Rose (S.faults self.old.inner) (S.faults self.new.inner)) }
        ensures bytes { sliced self.new.start self.new.length (S.bytes self.new.inner) ≡ sliced self.old.start self.old.length (S.bytes self.old.inner) }
        ensures size { self.new.length ≡ self.old.length }
        ensures later { S.faults self.old.inner ≤ S.faults self.new.inner }
        ensures reads { S.reads self.new.inner ≡ one_more (S.reads self.old.inner) }
    {
        let _size = self.inner.size();
        match self.inner.read_at(self.start + at, into) {
            Ok(()) => Ok(()),
            Err(failed) => Err(failed),
        }
    }
}
