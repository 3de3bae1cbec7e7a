// What tells of the space and of the pool.
use crate::tests::rows::Said::{Clean, Fault};
use crate::tests::rows::Wrong::*;
use crate::tests::rows::{
    BOTH, Numbers, Row, SMALL_NUMBERS, SMALL_REPORT, Said, assert_row, assert_rows,
};
use apfs_layout::chunk_info::{
    CAB_INDEX, CHUNK_ADDRESS, CHUNK_BLOCKS, CHUNK_FREE, CIB_ENTRIES, CIB_INDEX,
};
use apfs_layout::space_manager::{MAIN_FREE, POOL_BITMAP_SIZE};
use img_make::Change::*;
use img_make::cases::RING_INDEX;
use img_make::places::{POOL_BASE, POOL_QUEUE, RING_BASE, SPACE_MANAGER};
use img_make::{Change, SMALL, grouped, table};
use std::test::Fail;

const CHUNKS: &[Row] = table! {
    "fault_space_cib", SMALL, &[Put(POOL_BASE, CIB_INDEX, &[1])], BOTH, Fault(SpaceCib(0));
    "fault_space_index", SMALL, &[Put(POOL_BASE, CIB_ENTRIES + CHUNK_ADDRESS, &[1])], BOTH, Fault(SpaceIndex(0));
    // The number of blocks has the low 20 bits of its field.
    "clean_space_index_other_bits", SMALL, &[Put(POOL_BASE, CIB_ENTRIES + CHUNK_BLOCKS + 3, &[0x80])], BOTH, SMALL_REPORT;
    "fault_space_free_count", SMALL, &[Put(POOL_BASE, CIB_ENTRIES + CHUNK_FREE, &[198]), Put(SPACE_MANAGER, MAIN_FREE, &[198])], BOTH,
        Fault(SpaceFreeCount(0));
    "clean_marked_and_freed", SMALL, &[Mark(60), Free(60)], BOTH, SMALL_REPORT;
};

#[test]
fn chunks_are_as_said(rt: HostRuntime) -> Result<(), Fail> {
    assert_rows(&rt, rt.alloc(), CHUNKS)
}

// Block 60 isn't of the pool, and 50 is its last one. A bitmap of two blocks has the first two of the ring.
const POOL: &[Row] = table! {
    "fault_pool_count", SMALL, &[Put(SPACE_MANAGER, POOL_BITMAP_SIZE, &[0])], BOTH, Fault(PoolCount);
    "clean_pool_bitmap_of_two_blocks", SMALL, &[Put(SPACE_MANAGER, POOL_BITMAP_SIZE, &[2]), Put(SPACE_MANAGER, RING_INDEX + 2, &[1])], BOTH,
        SMALL_REPORT;
    "fault_pool_place", SMALL, &[Records(POOL_QUEUE, &[([1, 60], &[1])])], BOTH, Fault(PoolPlace(60));
    "fault_pool_place_end", SMALL, &[Records(POOL_QUEUE, &[([1, 50], &[2])])], BOTH, Fault(PoolPlace(50));
    "clean_pool_place", SMALL, &[Records(POOL_QUEUE, &[([1, 50], &[1])]), Bare(RING_BASE, 0, &[0x83])], BOTH, SMALL_REPORT;
};

#[test]
fn the_pool_is_as_said(rt: HostRuntime) -> Result<(), Fail> {
    assert_rows(&rt, rt.alloc(), POOL)
}

// The address block stands in the third block of the pool, and is an object besides those of the small container.
const GROUPED: &[(&str, &[Change], Said)] = table! {
    "fault_space_cab", &[Put(45, CAB_INDEX, &[1])], Fault(SpaceCab(0));
    "clean_address_block", &[], Clean(Numbers { objects: 15, ..SMALL_NUMBERS }, &[]);
};

#[test]
fn address_blocks_are_as_said(rt: HostRuntime) -> Result<(), Fail> {
    let alloc = rt.alloc();
    for (name, changes, said) in GROUPED.iter() {
        let image = grouped(alloc, changes)?;
        assert_row(&rt, alloc, name, &image, BOTH, *said)?;
    }
    Ok(())
}
