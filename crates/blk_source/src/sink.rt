// What a sink is, and one in memory.
ghost use Rattle.std.specs.Prelude.{◌≡◌, ◌+◌, ◌<◌, ◌≤◌, ◌↔◌, ◌⊎◌, ◌++◌, List, ℕ, Option, Some, length, OnOk, OnErr, IfOk, IsErr, Contains, []};
ghost use Rattle.apfs_model.specs.Counts.{one_more, Rose};
ghost use Rattle.apfs_model.specs.Sink.{Wrote, WrotePart};

use crate::memory::is_due;
use apfs_model::{NoMemory, WriteFailed};
use std::alloc::Global;
use std::marker::Model;

/// Bytes that can be put one piece behind the other. A sink has its contents, where it tells them, and a count of how
/// often it failed.
pub trait Sink {
    /// What was put so far, where it tells.
    ghost contents: { Self → Option (List ℕ) };

    /// How often it has failed, up to the greatest number of 64 bits.
    ghost faults: { Self → ℕ };

    /// Puts the whole piece, or fails with a front of it put.
    fn put(&mut self, piece: &[u8]) -> Result<(), WriteFailed>
        ensures put { OnOk result (Wrote (contents self.old) (contents self.new) piece.now) }
        ensures part { WrotePart (contents self.old) (contents self.new) piece.now }
        ensures cause { OnErr result (Rose (faults self.old) (faults self.new)) }
        ensures later { faults self.old ≤ faults self.new };
}

/// A sink in memory with room for so many bytes, which fails at the puts of certain numbers, counted from 1.
#[derive(Drop)]
pub struct MemSink {
    contents: Vec<u8>,
    room: usize,
    fails: Vec<u64>,
    puts: u64,
    faults: u64,
}

impl Model for MemSink {
    ghost use Rattle.std.specs.Prelude.{◌≤◌, vec_capacity, vec_len};
    ghost use Rattle.blk_source.specs.Memory.{MemorySink};

    ghost Value = { MemorySink };

    ghost view = { λ a. record { contents = a.contents.items; room = a.room; fails = a.fails.items; puts = a.puts; faults = a.faults } };

    ghost invariant = { λ a. (a.room ≤ vec_capacity a.contents) × (vec_len a.contents ≤ a.room) };
}

impl MemSink {
    /// An empty sink with room for `room` bytes, all of whose memory is taken here.
    pub fn new(alloc: Global, room: usize, fails: Vec<u64>) -> Result<MemSink, NoMemory>
        ensures contents { IfOk result (λ sink. sink.contents ≡ []) }
        ensures room { IfOk result (λ sink. sink.room ≡ room) }
        ensures fails { IfOk result (λ sink. sink.fails ≡ fails.items) }
        ensures puts { IfOk result (λ sink. sink.puts ≡ 0) }
        ensures faults { IfOk result (λ sink. sink.faults ≡ 0) }
    {
        match Vec::with_capacity(alloc, room) {
            Ok(contents) => Ok(MemSink {
                contents,
                room,
                fails,
                puts: 0,
                faults: 0,
            }),
            Err(_) => Err(NoMemory),
        }
    }

    /// What was put so far.
    pub fn contents(&self) -> &[u8]
        ensures { result.now ≡ self.now.contents }
    {
        &self.contents
    }

    /// How often it has failed.
    pub fn fault_count(&self) -> u64
        ensures { result ≡ self.now.faults }
    {
        self.faults
    }
}

impl Sink for MemSink {
    ghost contents = { λ s. Some s.contents };

    ghost faults = { λ s. s.faults };

    fn put(&mut self, piece: &[u8]) -> Result<(), WriteFailed>
        ensures put { OnOk result (Wrote (Some self.old.contents) (Some self.new.contents) piece.now) }
        ensures part { WrotePart (Some self.old.contents) (Some self.new.contents) piece.now }
        ensures cause { OnErr result (Rose self.old.faults self.new.faults) }
        ensures later { self.old.faults ≤ self.new.faults }

        // It fails exactly at the numbers given and where the room that is left is too small.
        ensures fails { IsErr result ↔ (Contains self.old.fails (self.old.puts + 1) ⊎ (self.old.room < length self.old.contents + length piece.now)) }
        ensures puts { self.new.puts ≡ one_more self.old.puts }
        ensures faults { OnOk result (self.new.faults ≡ self.old.faults) }
        ensures same { OnErr result (self.new.contents ≡ self.old.contents) }
        ensures same_room { self.new.room ≡ self.old.room }
        ensures same_fails { self.new.fails ≡ self.old.fails }
    {
        let failing = is_due(&self.fails, self.puts);
        self.puts = self.puts.saturating_add(1);
        if failing || self.room - self.contents.len() < piece.len() {
            self.faults = self.faults.saturating_add(1);
            return Err(WriteFailed);
        }
        self.contents.extend_from_slice(piece).unwrap();
        Ok(())
    }
}
