// The space manager, what tells of chunks, and the pool.

use super::{Case, assert_cases, sum};
use apfs_layout::chunk_info::{CAB_INDEX, CHUNK_ADDRESS, CHUNK_BITMAP, CIB_ENTRIES, CIB_INDEX};
use apfs_layout::space_manager::{BLOCKS_PER_CHUNK, MAIN_FREE, POOL_BITMAP_SIZE};
use img_make::Change::*;
use img_make::cases::RING_INDEX;
use img_make::places::{POOL_BASE, POOL_QUEUE, SPACE_MANAGER};
use img_make::{Change, SMALL, grouped, table};
use obj_base::Stop;
use reach_rules::ReachFault::*;
use space_map::SpaceFault;
use space_pool::PoolFault;
use std::test::Fail;

const SPACE: &[Case] = table! {
    SMALL, &[Put(SPACE_MANAGER, BLOCKS_PER_CHUNK, &[0xf8, 0x7f])], Err(Space(SpaceFault::Geometry));
    SMALL, &[Put(POOL_BASE, CIB_INDEX, &[1])], Err(Space(SpaceFault::Cib { index: 0 }));
    SMALL, &[Put(POOL_BASE, CIB_ENTRIES + CHUNK_ADDRESS, &[1])], Err(Space(SpaceFault::Index { chunk: 0 }));
    SMALL, &[Put(POOL_BASE, CIB_ENTRIES + CHUNK_BITMAP, &[200])], Err(Space(SpaceFault::Place { block: 200 }));
    SMALL, &[Put(SPACE_MANAGER, MAIN_FREE, &[198])], Err(Space(SpaceFault::FreeTotal));
};

#[test]
fn chunks(rt: HostRuntime) -> Result<(), Fail> {
    assert_cases(&rt, rt.alloc(), SPACE)
}

// The address block stands in the third block of the pool.
const OTHER_INDEX: &[Change] = &[Put(45, CAB_INDEX, &[1])];

#[test]
fn an_address_block_of_another_index(rt: HostRuntime) -> Result<(), Fail> {
    let alloc = rt.alloc();
    let found = sum(alloc, grouped(alloc, OTHER_INDEX)?)?;
    let fault = Space(SpaceFault::Cab { index: 0 });
    assert!(rt; found == Err(Stop::Found(fault)));
    Ok(())
}

// Block 60 isn't of the pool, and 50 is its last one.
const POOL: &[Case] = table! {
    SMALL, &[Put(SPACE_MANAGER, RING_INDEX, &[16])], Err(Pool(PoolFault::Index { at: 0 }));
    SMALL, &[Put(SPACE_MANAGER, POOL_BITMAP_SIZE, &[0])], Err(Pool(PoolFault::Count));
    SMALL, &[Records(POOL_QUEUE, &[([1, 60], &[1])])], Err(Pool(PoolFault::Place { block: 60 }));
    SMALL, &[Records(POOL_QUEUE, &[([1, 50], &[2])])], Err(Pool(PoolFault::Place { block: 50 }));
    SMALL, &[Records(POOL_QUEUE, &[([1, 50], &[1])])], Err(PoolMissing { block: 50 });
};

#[test]
fn pool(rt: HostRuntime) -> Result<(), Fail> {
    assert_cases(&rt, rt.alloc(), POOL)
}
