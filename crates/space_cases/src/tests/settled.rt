// The small container against ranges that are given by hand. Its blocks from 0 to 56 are used, of 256 in one chunk; its pool is
// the blocks from 43 to 50, of which the first two are used.
ghost use Rattle.std.specs.Prelude.{◌≡◌, IfOk};
ghost use Rattle.obj_base.specs.Site.{IsSiteFor};

use apfs_layout::chunk_info::{CHUNK_FREE, CIB_ENTRIES};
use apfs_layout::space_manager::MAIN_FREE;
use blk_source::{BlockSource, MemSource, NoMemory};
use img_make::{Sample, edit, make, make_with, sample, table, write};
use nx_ring::newest;
use obj_base::Stop;
use own_settle::{Reached, settle};
use reach_rules::ReachFault;
use reach_rules::ReachFault::*;
use space_map::Space;
use std::alloc::Global;

type Ranges = &'static [(u64, u64)];

// An edit: a block, a place in it, and the bytes that it gets.
type Edit = (usize, usize, &'static [u8]);

const MANAGER: usize = 9;

const CIB: usize = 43;

const BITMAP: usize = 44;

// The small container, of which some blocks are edited and sealed again; a bitmap has no sum. What is wrong with the edits is told as
// want of memory.
fn image(alloc: Global, edits: &[Edit]) -> Result<Vec<u8>, NoMemory> {
    let mut image = make(alloc, &sample(alloc, Sample::S)?)?;
    for (block, place, bytes) in edits.iter() {
        let done = if *block == BITMAP {
            write(&mut image, 4096, *block, *place, bytes)
        } else {
            edit(&mut image, 4096, *block, *place, bytes)
        };
        if !done {
            return Err(NoMemory);
        }
    }
    Ok(image)
}

// The small container with blocks of 65,536 bytes.
fn large(alloc: Global) -> Result<Vec<u8>, NoMemory> {
    let plan = sample(alloc, Sample::S)?;
    if !plan.valid() || plan.blocks > 256 {
        return Err(NoMemory);
    }
    make_with(alloc, &plan, 65536)
}

// The space of an image, by its newest checkpoint; a fault of the layers below is no answer of these tests.
fn load<S: BlockSource>(alloc: Global, src: &mut S) -> Result<Space, NoMemory>
    ensures { IfOk result (λ space. IsSiteFor space.site (S.bytes_len src.new)) }
{
    let Ok(cp) = newest(alloc, src) else {
        return Err(NoMemory);
    };
    match Space::load(alloc, src, &cp) {
        Ok(space) => Ok(space),
        Err(_) => Err(NoMemory),
    }
}

// Ranges of the container, and of the pool, whose bits are given in one byte.
type Owned = (Ranges, Ranges, u8);

// What was reached, with these ranges.
fn reached(alloc: Global, space: Space, owned: Owned) -> Result<Reached, NoMemory>
    ensures { IfOk result (λ reached. reached.space ≡ space) }
{
    let blocks = space.site().blocks;
    let (first, count) = space.pool();
    if first > blocks || count > blocks - first || count > 8 {
        return Err(NoMemory);
    }
    Ok(Reached::new(
        0,
        owned.0.to_vec(alloc)?,
        owned.1.to_vec(alloc)?,
        space,
        vec![in alloc; owned.2]?,
    ))
}

// What ranges come to in a source.
fn settled(alloc: Global, src: &mut MemSource, owned: Owned) -> Result<u64, Stop<ReachFault>> {
    let space = load(alloc, src)?;
    let reached = reached(alloc, space, owned)?;
    let settled = settle(alloc, src, &reached);
    drop(reached);
    settled
}

// A case: the ranges of the container and of the pool, the first byte of the pool's bits, edits, and what they come to.
type Case = (Ranges, Ranges, u8, &'static [Edit], Result<u64, ReachFault>);

// The ranges that settle with the container as it is made.
const USED: Ranges = &[(0, 57)];

const POOL_USED: Ranges = &[(43, 2)];

const CASES: &[Case] = table! {
    USED, POOL_USED, 0x03, &[], Ok(57);
    &[(43, 14), (0, 43)], &[(44, 1), (43, 1)], 0x03, &[], Ok(57);
    // A bit past the container's 256 blocks, in the last byte of which it has some and after it.
    USED, POOL_USED, 0x03, &[(BITMAP, 32, &[0x01]), (BITMAP, 4095, &[0x80])], Ok(57);
    // Block 60 is marked, and the free counts of its chunk and of the device say so.
    &[(0, 57), (60, 1)], POOL_USED, 0x03, &[(BITMAP, 7, &[0x11]), (CIB, CIB_ENTRIES + CHUNK_FREE, &[198]), (MANAGER, MAIN_FREE, &[198])], Ok(58);
    USED, POOL_USED, 0x03, &[(CIB, CIB_ENTRIES + CHUNK_FREE, &[198]), (MANAGER, MAIN_FREE, &[198])], Err(FreeCount { chunk: 0 });
    &[(0, 57), (56, 1)], POOL_USED, 0x03, &[], Err(OwnedTwice { block: 56 });
    &[(0, 57), (255, 2)], POOL_USED, 0x03, &[], Err(Outside { block: 255 });
    &[(0, 56)], POOL_USED, 0x03, &[], Err(Leaked { block: 56 });
    &[(0, 57), (200, 1)], POOL_USED, 0x03, &[], Err(Missing { block: 200 });
    &[(0, 57), (255, 1)], POOL_USED, 0x03, &[], Err(Missing { block: 255 });
    USED, POOL_USED, 0x43, &[], Err(PoolLeaked { block: 49 });
    USED, &[(43, 3)], 0x03, &[], Err(PoolMissing { block: 45 });
    USED, &[(43, 2), (44, 1)], 0x03, &[], Err(OwnedTwice { block: 44 });
};

fn settled_after(alloc: Global, case: &Case) -> Result<u64, Stop<ReachFault>> {
    let (owners, pool_owners, pool, edits, _) = *case;
    let mut src = MemSource::new(image(alloc, edits)?, Vec::new(alloc));
    settled(alloc, &mut src, (owners, pool_owners, pool))
}

#[test]
fn blocks_settle(rt: HostRuntime) {
    for (i, case) in CASES.iter().enumerate() {
        let found = settled_after(rt.alloc(), case);
        assert!(rt; found == case.4.map_err(Stop::Found), "case {i}");
    }
}

fn settled_in_large(alloc: Global) -> Result<u64, Stop<ReachFault>> {
    let mut src = MemSource::new(large(alloc)?, Vec::new(alloc));
    settled(alloc, &mut src, (USED, POOL_USED, 0x03))
}

// The reads up to the space, after which the next one is that of a bitmap.
fn reads(alloc: Global) -> Result<u64, NoMemory> {
    let mut src = MemSource::new(image(alloc, &[])?, Vec::new(alloc));
    drop(load(alloc, &mut src)?);
    Ok(src.read_count())
}

fn settled_failing(alloc: Global) -> Result<u64, Stop<ReachFault>> {
    let next = reads(alloc)?.saturating_add(1);
    let mut src = MemSource::new(image(alloc, &[])?, vec![in alloc; next]?);
    settled(alloc, &mut src, (USED, POOL_USED, 0x03))
}

#[test]
fn large_blocks_settle_and_a_read_that_fails_is_told(rt: HostRuntime) {
    assert!(rt; settled_in_large(rt.alloc()) == Ok(57));
    assert!(rt; settled_failing(rt.alloc()) == Err(Stop::ReadFault));
}
