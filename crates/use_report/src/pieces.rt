// The pieces of the blocks that views hold.
ghost use Rattle.std.specs.Prelude.{◌≡◌, ◌+◌, ◌^◌, ◌<◌, ℕ, [], length, true, OnOk, IfOk};
ghost use Rattle.apfs_model.specs.Blocks.{is_in};
ghost use Rattle.view_sweep.specs.Sets.{set_at};
ghost use Rattle.use_report.specs.Counted.{Grows};
ghost use Rattle.use_report.specs.Runs.{AreHeadRuns, AreViewSets};

use crate::runs::view_sets;
use apfs_model::NoMemory;
use piece_count::{Holdings, Piece};
use std::alloc::Global;
use view_sweep::ViewSet;

/// The pieces of the blocks that views hold, where what is added next is held by the views of the set of a number.
#[derive(Drop)]
pub(crate) struct Pieces {
    pub set: usize,
    pub all: Holdings,
}

impl Pieces {
    /// No view holds a block yet, of so many. The first sets are each of one view, and then come those of some sets of heads.
    pub(crate) fn new(alloc: Global, shared: &[ViewSet], many: usize) -> Result<Pieces, NoMemory>
        requires some { 0 < length shared.now → 0 < many }
        requires sets { (n : ℕ) → n < length shared.now → AreHeadRuns many (set_at shared.now n) }
        ensures none { IfOk result (λ held. held.all.pieces.items ≡ []) }
        ensures sets { IfOk result (λ held. AreViewSets shared.now many held.all.sets.items) }
        ensures few { IfOk result (λ held. many + length shared.now < 2 ^ 64) }
    {
        let sets = view_sets(alloc, shared, many)?;
        Ok(Pieces {
            set: 0,
            all: Holdings {
                sets,
                pieces: Vec::new(alloc),
            },
        })
    }

    /// What is added next is held by the views of the set of a number.
    pub(crate) fn turn(&mut self, set: usize)
        ensures { self.new ≡ record self.old { set = set } }
    {
        self.set = set;
    }

    /// Adds the blocks of a range.
    pub(crate) fn add(&mut self, first: u64, length: u64) -> Result<(), NoMemory>
        ensures { OnOk result (Grows self.old self.new (λ block. is_in block first length ≡ true)) }
    {
        let end = first.saturating_add(length);
        self.all.pieces.push(Piece {
            first,
            end,
            set: self.set,
        })?;
        Ok(())
    }
}
