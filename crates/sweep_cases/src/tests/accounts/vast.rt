// A container that tells of more blocks than any memory has bits for.
ghost use Rattle.std.specs.Prelude.{◌≡◌, ◌≤◌, ◌+◌, ℕ, List, Some, length, OnOk, OnErr};
ghost use Rattle.apfs_model.specs.Counts.{one_more, Rose};
ghost use Rattle.apfs_model.specs.Source.{Copies};
ghost use Rattle.blk_source.specs.Edge.{untold};

use super::{account_of, open};
use apfs_layout::container::BLOCK_COUNT;
use blk_source::{BlockSource, ReadFailed};
use img_make::places::SUPERBLOCK;
use img_make::{Change, SMALL, image};
use obj_base::Stop;
use reach_rules::ReachFault;
use space_map::SpaceFault;
use std::test::Fail;

// A source of a size of its own, with zeros after its bytes. It tells nothing, and never fails.
#[derive(Drop)]
struct Vast {
    bytes: Vec<u8>,
    size: u64,
    reads: u64,
}

// A byte of a list, 0 past its end.
fn byte_at(bytes: &[u8], place: u64) -> u8 {
    match bytes.get(place as usize) {
        Some(byte) => *byte,
        None => 0,
    }
}

impl BlockSource for Vast {
    ghost bytes_len = { λ s. s.size };

    ghost bytes = { λ _. untold };

    ghost faults = { λ _. 0 };

    ghost reads = { λ s. s.reads };

    ghost whole = { λ s image e. Prim.cc };

    fn size(&self) -> u64 {
        self.size
    }

    fn read_at(&mut self, at: u64, into: &mut [u8]) -> Result<(), ReadFailed> {
        self.reads = self.reads.saturating_add(1);
        for (i, byte) in into.iter_mut().enumerate() {
            *byte = byte_at(&self.bytes, at.saturating_add(i as u64));
        }
        Ok(())
    }
}

// The small container has 2^51 blocks, of which its manager knows nothing: a bit for each would take 2^48 bytes.
const VAST: &[Change] = &[
    Change::Put(0, BLOCK_COUNT, &[0, 0, 0, 0, 0, 0, 8, 0]),
    Change::Put(SUPERBLOCK, BLOCK_COUNT, &[0, 0, 0, 0, 0, 0, 8, 0]),
];

#[test]
fn blocks_that_are_told_take_no_memory(rt: HostRuntime) -> Result<(), Fail> {
    let alloc = rt.alloc();
    let mut src = Vast {
        bytes: image(alloc, &SMALL, VAST)?,
        size: 1 << 63,
        reads: 0,
    };
    let at = open(alloc, &mut src)?;
    let want = ReachFault::Space(SpaceFault::Geometry);
    assert!(rt; account_of(alloc, &mut src, &at) == Err(Stop::Found(want)));
    Ok(())
}
