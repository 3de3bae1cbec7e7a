// The space of the small container, and of edits of it.
ghost use Rattle.std.specs.Prelude.{◌≡◌, ◌≤◌, IfOk, length};
ghost use Rattle.obj_base.specs.Site.{IsSiteFor};

use apfs_layout::chunk_info::{
    CAB_ADDRESSES, CAB_COUNT, CAB_INDEX, CHUNK_ADDRESS, CHUNK_BITMAP, CHUNK_BLOCKS, CHUNK_FREE,
    CIB_COUNT, CIB_ENTRIES, CIB_INDEX,
};
use apfs_layout::container::SPACE_OID;
use apfs_layout::object::{OID, TYPE, XID};
use apfs_layout::space_manager::{
    BLOCKS_PER_CHUNK, MAIN_CABS, MAIN_CHUNKS, MAIN_FREE, SECOND_BLOCKS, SECOND_QUEUE_TREE,
};
use blk_source::{BlockSource, MemSource, NoMemory};
use img_make::{Sample, edit, make, make_with, sample, table, write};
use nx_ring::newest;
use obj_base::{Feature, HeadFault, Stop, Within};
use space_map::SpaceFault::*;
use space_map::{Chunk, Space, SpaceFault};
use std::alloc::Global;

// An edit: a block, a place in it, and the bytes that it gets.
type Edit = (usize, usize, &'static [u8]);

// The newest superblock, the space manager, the chunk-info block, and a block of the pool that nothing uses.
const NEWEST: usize = 2;

const MANAGER: usize = 9;

const CIB: usize = 43;

const SPARE: usize = 45;

// Where the manager has the address of its chunk-info block.
const ADDRESS: usize = 2528;

// The container with a chunk-info address block in the spare block: the manager's count and address, and the block's
// oid, transaction, kind, count and address.
const WITH_CAB: &[Edit] = &[
    (MANAGER, MAIN_CABS, &[1]),
    (MANAGER, ADDRESS, &[45]),
    (SPARE, OID, &[45]),
    (SPARE, XID, &[1]),
    (SPARE, TYPE, &[6, 0, 0, 0x40]),
    (SPARE, CAB_COUNT, &[1]),
    (SPARE, CAB_ADDRESSES, &[43]),
];

fn put(image: &mut [u8], edits: &[Edit], sealed: bool) -> Result<(), NoMemory> {
    for (block, place, bytes) in edits.iter() {
        let done = if sealed {
            edit(image, 4096, *block, *place, bytes)
        } else {
            write(image, 4096, *block, *place, bytes)
        };
        if !done {
            return Err(NoMemory);
        }
    }
    Ok(())
}

// The small container, changed by these edits; what is wrong with those is told as want of memory.
fn edited(alloc: Global, first: &[Edit], then: &[Edit], sealed: bool) -> Result<Vec<u8>, NoMemory> {
    let mut image = make(alloc, &sample(alloc, Sample::S)?)?;
    put(&mut image, first, true)?;
    put(&mut image, then, sealed)?;
    Ok(image)
}

// The small container with blocks of 65,536 bytes.
fn large(alloc: Global) -> Result<Vec<u8>, NoMemory> {
    let plan = sample(alloc, Sample::S)?;
    if !plan.valid() || plan.blocks > 256 {
        return Err(NoMemory);
    }
    make_with(alloc, &plan, 65536)
}

// The space of an image, by its newest checkpoint; a fault of the ring is no answer of these tests.
fn load<S: BlockSource>(alloc: Global, src: &mut S) -> Result<Space, Stop<SpaceFault>>
    ensures { IfOk result (λ space. IsSiteFor space.site (S.bytes_len src.new)) }
{
    match newest(alloc, src) {
        Ok(cp) => Space::load(alloc, src, &cp),
        Err(Stop::ReadFault) => Err(Stop::ReadFault),
        Err(_) => Err(Stop::NoMemory),
    }
}

// Whether a block of an image is marked; None past the container, and where the source fails.
fn marked(alloc: Global, image: Vec<u8>, fails: Vec<u64>, block: u64) -> Option<bool> {
    let mut src = MemSource::new(image, fails);
    let space = load(alloc, &mut src).ok()?;
    if block >= space.site().blocks {
        return None;
    }
    space.marked(&mut src, block).ok()
}

// How many bits of a chunk of an image are set; None where there is no such chunk.
fn ones(alloc: Global, image: Vec<u8>, chunk: usize) -> Option<u32> {
    let mut src = MemSource::new(image, Vec::new(alloc));
    let space = load(alloc, &mut src).ok()?;
    if chunk >= space.chunks().len() {
        return None;
    }
    let mut into = vec![in alloc; 0xffu8; space.site().block_size as usize].ok()?;
    space.bitmap(&mut src, chunk, &mut into).ok()?;
    let mut ones = 0u32;
    for byte in &into {
        ones = ones.saturating_add(byte.count_ones());
    }
    Some(ones)
}

// The one chunk of the small container.
const CHUNK: Chunk = Chunk {
    first: 0,
    blocks: 256,
    free: 199,
    bitmap: 44,
};

const CHUNKS: &[Chunk] = &[CHUNK];

const CIBS: &[u64] = &[43];

const MANAGER_TYPE: Option<&[u8]> = Some(&[5, 0, 0, 0x80]);

fn is_small(space: &Space, cabs: &[u64]) -> bool {
    (
        space.site().blocks,
        space.free(),
        space.pool(),
        space.pool_ring(),
    ) == (256, 199, (43, 8), (27, 16))
        && space.cabs() == cabs
        && space.cibs() == CIBS
        && space.chunks() == CHUNKS
        && space.manager().get(TYPE..TYPE + 4) == MANAGER_TYPE
}

fn has_small(alloc: Global, image: Vec<u8>, cabs: &[u64]) -> Result<bool, Stop<SpaceFault>> {
    let space = load(alloc, &mut MemSource::new(image, Vec::new(alloc)))?;
    let is_small = is_small(&space, cabs);
    drop(space);
    Ok(is_small)
}

fn has_small_after(alloc: Global, edits: &[Edit], cabs: &[u64]) -> Result<bool, Stop<SpaceFault>> {
    has_small(alloc, edited(alloc, edits, &[], true)?, cabs)
}

fn has_small_in_large(alloc: Global) -> Result<bool, Stop<SpaceFault>> {
    has_small(alloc, large(alloc)?, &[])
}

// Of a chunk's number of blocks the low 20 bits count.
const HIGH_BITS: &[Edit] = &[(CIB, CIB_ENTRIES + CHUNK_BLOCKS + 3, &[0xf0])];

#[test]
fn the_small_container(rt: HostRuntime) {
    let alloc = rt.alloc();
    assert!(rt;
        has_small_after(alloc, &[], &[]) == Ok(true)
            && has_small_after(alloc, WITH_CAB, &[45]) == Ok(true)
            && has_small_after(alloc, HIGH_BITS, &[]) == Ok(true)
            && has_small_in_large(alloc) == Ok(true)
    );
}

// The chunk has no bitmap.
const NO_BITMAP: &[Edit] = &[(CIB, CIB_ENTRIES + CHUNK_BITMAP, &[0])];

// A bitmap may stand anywhere in the pool.
const MOVED: &[Edit] = &[(CIB, CIB_ENTRIES + CHUNK_BITMAP, &[50])];

// Edits, a block, and whether it is marked.
const MARKS: &[(&[Edit], u64, bool)] = table! {
    &[], 0, true;
    &[], 56, true;
    &[], 57, false;
    &[], 255, false;
    NO_BITMAP, 0, false;
    MOVED, 56, false;
};

// Whether a block is marked after these edits, where the read of a number fails, if any does.
fn marked_after(alloc: Global, edits: &[Edit], fails: u64, block: u64) -> Option<bool> {
    let image = edited(alloc, edits, &[], true).ok()?;
    marked(alloc, image, vec![in alloc; fails].ok()?, block)
}

#[test]
fn marks(rt: HostRuntime) {
    for (i, (edits, block, mark)) in MARKS.iter().enumerate() {
        assert!(rt;
            marked_after(rt.alloc(), edits, 0, *block) == Some(*mark),
            "row {i}"
        );
    }
}

fn ones_after(alloc: Global, edits: &[Edit]) -> Option<u32> {
    ones(alloc, edited(alloc, edits, &[], true).ok()?, 0)
}

// The free blocks of the space after edits of which the last are sealed or not.
fn free_after(
    alloc: Global,
    first: &[Edit],
    then: &[Edit],
    sealed: bool,
) -> Result<u64, Stop<SpaceFault>> {
    let image = edited(alloc, first, then, sealed)?;
    let space = load(alloc, &mut MemSource::new(image, Vec::new(alloc)))?;
    let free = space.free();
    drop(space);
    Ok(free)
}

// A chunk's free count isn't tested against its bitmap.
const COUNTS: &[Edit] = &[
    (MANAGER, MAIN_FREE, &[198]),
    (CIB, CIB_ENTRIES + CHUNK_FREE, &[198]),
];

#[test]
fn bits_of_a_chunk_and_a_near_miss(rt: HostRuntime) {
    let alloc = rt.alloc();
    assert!(rt; ones_after(alloc, &[]) == Some(57));
    assert!(rt; ones_after(alloc, NO_BITMAP) == Some(0));
    assert!(rt; free_after(alloc, COUNTS, &[], true) == Ok(198));
}

// An edit, and the fault.
const FAULTS: &[(Edit, SpaceFault)] = table! {
    (NEWEST, SPACE_OID, &[77]), Unnamed { within: Within::Ephemeral, oid: 1101 };
    (MANAGER, ADDRESS, &[0]), Unnamed { within: Within::Physical, oid: 0 };
    (NEWEST, SPACE_OID, &[1]), Unsound { block: 10, why: HeadFault::BadKind };
    (CIB, TYPE, &[8]), Unsound { block: 43, why: HeadFault::BadKind };
    (MANAGER, BLOCKS_PER_CHUNK, &[0xf8, 0x7f]), Geometry;
    (MANAGER, MAIN_CHUNKS, &[2]), Geometry;
    (CIB, CIB_INDEX, &[1]), Cib { index: 0 };
    (CIB, CIB_COUNT, &[2]), Cib { index: 0 };
    (CIB, CIB_ENTRIES + CHUNK_ADDRESS, &[1]), Index { chunk: 0 };
    (CIB, CIB_ENTRIES + CHUNK_BLOCKS, &[255, 0]), Index { chunk: 0 };
    (CIB, CIB_ENTRIES + CHUNK_BITMAP, &[200]), Place { block: 200 };
    (MANAGER, ADDRESS, &[51]), Place { block: 51 };
    (MANAGER, MAIN_FREE, &[198]), FreeTotal;
};

#[test]
fn what_stops_it(rt: HostRuntime) {
    for (change, fault) in FAULTS {
        let stop = free_after(rt.alloc(), &[*change], &[], true);
        assert!(rt; stop == Err(Stop::Found(*fault)));
    }
}

const UNSOUND: Result<u64, Stop<SpaceFault>> = Err(Stop::Found(Unsound {
    block: 43,
    why: HeadFault::BadSum,
}));

const NUMBERED: Result<u64, Stop<SpaceFault>> = Err(Stop::Found(Cab { index: 0 }));

const FUSION: Result<u64, Stop<SpaceFault>> = Err(Stop::Unsupported {
    feature: Feature::Fusion,
    block: 9,
});

// Edits, and others after them, whether these are sealed, and what they come to.
type After = (
    &'static [Edit],
    &'static [Edit],
    bool,
    Result<u64, Stop<SpaceFault>>,
);

const AFTER: &[After] = table! {
    // A byte of the chunk-info block is changed, and its sum isn't.
    &[], &[(CIB, 4095, &[1])], false, UNSOUND;
    // The address block gets another index.
    WITH_CAB, &[(SPARE, CAB_INDEX, &[1])], true, NUMBERED;
    // Each gives the container a second device.
    &[], &[(MANAGER, SECOND_BLOCKS, &[1])], true, FUSION;
    &[], &[(MANAGER, SECOND_QUEUE_TREE, &[1])], true, FUSION;
};

#[test]
fn a_torn_block_another_index_and_a_second_device_stop_it(rt: HostRuntime) {
    for (i, (first, then, sealed, stop)) in AFTER.iter().enumerate() {
        assert!(rt;
            free_after(rt.alloc(), first, then, *sealed) == *stop,
            "row {i}"
        );
    }
}

// The reads of a load, where the read of a number fails, if any does.
fn reads_with(alloc: Global, fails: u64) -> Result<u64, Stop<SpaceFault>> {
    let image = edited(alloc, &[], &[], true)?;
    let mut src = MemSource::new(image, vec![in alloc; fails]?);
    drop(load(alloc, &mut src)?);
    Ok(src.read_count())
}

// The last read is the one of the chunk-info block. Where the next one fails it isn't known whether block 0 is marked, and where the one
// after that does it is.
#[test]
fn a_failed_read_stops_it(rt: HostRuntime) {
    let alloc = rt.alloc();
    let last = reads_with(alloc, 0).ok().expect(&rt, "it isn't loaded");
    assert!(rt;
        reads_with(alloc, last) == Err(Stop::ReadFault)
            && marked_after(alloc, &[], last.saturating_add(1), 0) == None
            && marked_after(alloc, &[], last.saturating_add(2), 0) == Some(true)
    );
}
