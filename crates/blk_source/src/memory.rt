// Sources in memory, for tests and for images that the program made.
ghost use Rattle.std.specs.Prelude.{◌≡◌, ◌+◌, ◌≤◌, ◌↔◌, List, ℕ, Option, Some, length, OnOk, OnErr, IsErr, IsTrue, Contains};
ghost use Rattle.apfs_model.specs.Counts.{one_more, Rose};
ghost use Rattle.apfs_model.specs.Source.{Copies};
ghost use Rattle.apfs_model.specs.Kept.{told_length};

use crate::BlockSource;
use apfs_model::ReadFailed;
use std::marker::Model;

/// A source in memory, which fails at the reads of certain numbers, counted from 1.
#[derive(Drop)]
pub struct MemSource {
    bytes: Vec<u8>,
    fails: Vec<u64>,
    reads: u64,
    faults: u64,
}

impl Model for MemSource {
    ghost use Rattle.blk_source.specs.Memory.{Memory};

    ghost Value = { Memory };

    ghost view = { λ a. record { bytes = a.bytes.items; fails = a.fails.items; reads = a.reads; faults = a.faults } };
}

impl MemSource {
    /// A source of these bytes, whose reads of the numbers in `fails` are refused.
    pub fn new(bytes: Vec<u8>, fails: Vec<u64>) -> MemSource
        ensures bytes { result.bytes ≡ bytes.items }
        ensures fails { result.fails ≡ fails.items }
        ensures reads { result.reads ≡ 0 }
        ensures faults { result.faults ≡ 0 }
    {
        MemSource {
            bytes,
            fails,
            reads: 0,
            faults: 0,
        }
    }

    // Whether the next read is one of those that are refused.
    fn is_refused(&self) -> bool
        ensures { IsTrue result ↔ Contains self.now.fails (self.now.reads + 1) }
    {
        is_due(&self.fails, self.reads)
    }

    /// How often it was read.
    pub fn read_count(&self) -> u64
        ensures { result ≡ self.now.reads }
    {
        self.reads
    }

    /// How often it has failed.
    pub fn fault_count(&self) -> u64
        ensures { result ≡ self.now.faults }
    {
        self.faults
    }
}

// Whether the call after so many is one of those that fail.
pub(crate) fn is_due(fails: &[u64], calls: u64) -> bool
    ensures { IsTrue result ↔ Contains fails.now (calls + 1) }
{
    match calls.checked_add(1) {
        Some(number) => fails.contains(&number),
        None => false,
    }
}

// Copies the bytes from a place on.
fn copy_from(bytes: &[u8], at: u64, into: &mut [u8])
    requires { at + length into.old ≤ length bytes.now }
    ensures { Copies bytes.now at into.new }
{
    let from = at as usize;
    into.copy_from_slice(&bytes[from..from + into.len()]);
}

impl BlockSource for MemSource {
    ghost bytes_len = { λ s. length s.bytes };

    ghost bytes = { λ s. Some s.bytes };

    ghost faults = { λ s. s.faults };

    ghost reads = { λ s. s.reads };

    ghost whole = { λ s image e. told_length s.bytes image e };

    fn size(&self) -> u64 {
        self.bytes.len() as u64
    }

    fn read_at(&mut self, at: u64, into: &mut [u8]) -> Result<(), ReadFailed>
        requires inside { at + length into.old ≤ length self.old.bytes }
        requires some { 1 ≤ length into.old }
        requires short { length into.old ≤ 65536 }
        ensures found { (image : List ℕ) → Some self.old.bytes ≡ Some image → OnOk result (Copies image at into.new) }
        ensures cause { OnErr result (Rose self.old.faults self.new.faults) }
        ensures bytes { Some self.new.bytes ≡ Some self.old.bytes }
        ensures size { length self.new.bytes ≡ length self.old.bytes }
        ensures later { self.old.faults ≤ self.new.faults }
        ensures reads { self.new.reads ≡ one_more self.old.reads }

        // It fails exactly at the numbers given.
        ensures fails { IsErr result ↔ Contains self.old.fails (self.old.reads + 1) }
        ensures faults { OnOk result (self.new.faults ≡ self.old.faults) }
        ensures same_fails { self.new.fails ≡ self.old.fails }
    {
        let failing = self.is_refused();
        self.reads = self.reads.saturating_add(1);
        if failing {
            self.faults = self.faults.saturating_add(1);
            return Err(ReadFailed);
        }
        copy_from(&self.bytes, at, into);
        Ok(())
    }
}

/// A source in memory that never fails.
#[derive(Drop)]
pub struct SureSource {
    bytes: Vec<u8>,
    reads: u64,
}

impl Model for SureSource {
    ghost use Rattle.blk_source.specs.Memory.{Sure};

    ghost Value = { Sure };

    ghost view = { λ a. record { bytes = a.bytes.items; reads = a.reads } };
}

impl SureSource {
    /// A source of these bytes.
    pub fn new(bytes: Vec<u8>) -> SureSource
        ensures bytes { result.bytes ≡ bytes.items }
        ensures reads { result.reads ≡ 0 }
    {
        SureSource { bytes, reads: 0 }
    }
}

impl BlockSource for SureSource {
    ghost bytes_len = { λ s. length s.bytes };

    ghost bytes = { λ s. Some s.bytes };

    ghost faults = { λ _. 0 };

    ghost reads = { λ s. s.reads };

    ghost whole = { λ s image e. told_length s.bytes image e };

    fn size(&self) -> u64 {
        self.bytes.len() as u64
    }

    fn read_at(&mut self, at: u64, into: &mut [u8]) -> Result<(), ReadFailed> {
        self.reads = self.reads.saturating_add(1);
        copy_from(&self.bytes, at, into);
        Ok(())
    }
}
