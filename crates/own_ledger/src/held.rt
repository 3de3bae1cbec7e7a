// The blocks of a range that are held.
ghost use Rattle.std.specs.Prelude.{◌≡◌, ℕ, ◌+◌, ◌-◌, ◌*◌, ◌%◌, ◌^◌, ◌<◌, ◌≤◌, true, false, length, OnOk, OnErr, IfOk, IfErr, IsNone, IfSome};

use apfs_model::NoMemory;
use bit_lanes::{count_ones, first_difference, is_set, least_set, set_range};
use std::alloc::Global;
use std::marker::Model;

/// Why a range can't be claimed.
#[derive(Clone, Copy, PartialEq, Eq)]
pub enum ClaimFault {
    /// The range begins at this block, and leaves that of the ledger.
    Outside { block: u64 },
    /// This is the least block of the range that is held already.
    Twice { block: u64 },
}

/// The least block at which a ledger and bits differ.
#[derive(Clone, Copy, PartialEq, Eq)]
pub struct Difference {
    /// The block.
    pub block: u64,
    /// Whether the ledger holds it; its bit says the opposite.
    pub held: bool,
}

/// A set of blocks of a range.
#[derive(Drop)]
pub struct Ledger {
    first: u64,
    blocks: u64,
    bits: Vec<u8>,
}

impl Model for Ledger {
    ghost use Rattle.own_ledger.specs.Held.{HeldBlocks};
    ghost use Rattle.own_ledger.specs.Inside.{marks_of, IsSound};

    ghost Value = { HeldBlocks };

    ghost view = { λ a. record { first = a.first; blocks = a.blocks; marks = marks_of a.bits.items a.blocks } };

    ghost invariant = { λ a. IsSound a.first a.blocks a.bits.items };
}

impl Ledger {
    ghost use Rattle.own_ledger.specs.Held.{holds, held_count, lies_in, IsEmpty, CanClaim, AddsRange, AddsPart, IsClaimFault, Agrees, IsLeastDifference};

    /// A ledger of so many blocks from the first on, of which it holds none. It takes one bit a block, and no other call takes
    /// memory.
    ///
    /// # Errors
    ///
    /// `NoMemory`: an allocation failed.
    pub fn new(alloc: Global, first: u64, blocks: u64) -> Result<Ledger, NoMemory>
        requires { first + blocks < 2 ^ 64 }
        ensures { IfOk result (λ ledger. IsEmpty ledger first blocks) }
    {
        match vec![in alloc; 0u8; blocks.div_ceil(8) as usize] {
            Ok(bits) => Ok(Ledger {
                first,
                blocks,
                bits,
            }),
            Err(_) => Err(NoMemory),
        }
    }

    /// Empties the ledger, and moves it to another first block with as many blocks as before. Takes no memory.
    pub fn restart(&mut self, first: u64)
        requires { first + self.old.blocks < 2 ^ 64 }
        ensures { IsEmpty self.new first self.old.blocks }
    {
        self.bits.fill(0);
        self.first = first;
    }

    // Whether a range lies wholly in that of the ledger.
    fn covers(&self, first: u64, length: u64) -> bool
        ensures { result ≡ lies_in self.now first length }
    {
        match first.checked_add(length) {
            Some(end) => self.first <= first && end <= self.first + self.blocks,
            None => false,
        }
    }

    /// Whether a block is held.
    pub fn holds(&self, block: u64) -> bool
        ensures { result ≡ holds self.now block }
    {
        if !self.covers(block, 1) {
            return false;
        }
        is_set(&self.bits, (block - self.first) as usize)
    }

    /// How many blocks are held.
    pub fn held(&self) -> u64
        ensures { result ≡ held_count self.now }
    {
        count_ones(&self.bits)
    }

    /// Adds a range. After an error the ledger is as it was.
    pub fn claim(&mut self, first: u64, length: u64) -> Result<(), ClaimFault>
        ensures clear { OnOk result (CanClaim self.old first length) }
        ensures present { IfErr result (IsClaimFault self.old first length) }
        ensures added { OnOk result (AddsRange self.old self.new first length) }
        ensures same { OnErr result (self.new ≡ self.old) }
    {
        if length == 0 {
            return Ok(());
        }
        if !self.covers(first, length) {
            return Err(ClaimFault::Outside { block: first });
        }
        let from = (first - self.first) as usize;
        let to = from + length as usize;
        if let Some(place) = least_set(&self.bits, from, to) {
            return Err(ClaimFault::Twice {
                block: self.first + place as u64,
            });
        }
        set_range(&mut self.bits, from, to);
        Ok(())
    }

    /// Adds the blocks of a range that lie in the ledger's, whether or not they are held already.
    pub fn hold(&mut self, first: u64, length: u64)
        ensures { AddsPart self.old self.new first length }
    {
        let least = first.max(self.first);
        let end = first.saturating_add(length).min(self.first + self.blocks);
        if least < end {
            let from = (least - self.first) as usize;
            set_range(&mut self.bits, from, from + (end - least) as usize);
        }
    }

    /// The least of so many blocks from a first on that is held where its bit isn't set, or isn't held where it is; `None` where
    /// they agree. Bit `i` is that of block `first + i`; bits past the blocks don't count.
    pub fn compare(&self, first: u64, blocks: u64, bits: &[u8]) -> Option<Difference>
        requires inside { lies_in self.now first blocks ≡ true }
        requires whole { (first - self.now.first) % 8 ≡ 0 }
        requires long { blocks ≤ 8 * length bits.now }
        ensures agree { IsNone result → Agrees self.now first bits.now blocks }
        ensures differ { IfSome result (IsLeastDifference self.now first blocks bits.now) }
    {
        let from = ((first - self.first) / 8) as usize;
        let bytes = blocks.div_ceil(8) as usize;
        match first_difference(&self.bits[from..from + bytes], &bits[..bytes]) {
            Some(place) if (place as u64) < blocks => {
                let block = first + place as u64;
                Some(Difference {
                    block,
                    held: self.holds(block),
                })
            }
            _ => None,
        }
    }
}
