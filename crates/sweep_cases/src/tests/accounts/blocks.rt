// Blocks that are owned twice, by none, or unmarked, and their near misses.

use super::{Case, Numbers, SMALL_NUMBERS, assert_cases};
use apfs_layout::chunk_info::{CHUNK_FREE, CIB_ENTRIES};
use apfs_layout::space_manager::MAIN_FREE;
use img_make::Change::*;
use img_make::cases::{QUEUED, TREE_IN_THE_POOL, TREE_PAST_THE_POOL, WAITING};
use img_make::places::{POOL_BASE, POOL_QUEUE, RING_BASE, SPACE_MANAGER};
use img_make::{SMALL, Sample, table};
use reach_rules::ReachFault::*;
use std::test::Fail;

const OWNERS: &[Case] = table! {
    QUEUED, &[], Ok(Numbers { owned: 58, ..SMALL_NUMBERS });
    QUEUED, &[Free(60)], Err(Missing { block: 60 });
    SMALL, &[Mark(200)], Err(Leaked { block: 200 });
    SMALL, &[Mark(255)], Err(Leaked { block: 255 });
    (Sample::C, &[(57, 2), (58, 1)], &[]), &[], Err(OwnedTwice { block: 58 });
    (Sample::C, &[(57, 1), (58, 1)], &[]), &[], Ok(Numbers { owned: 59, ..SMALL_NUMBERS });
    SMALL, TREE_IN_THE_POOL, Err(OwnedTwice { block: 46 });
    SMALL, TREE_PAST_THE_POOL, Ok(SMALL_NUMBERS);
    (Sample::S, &[], &[(255, 2)]), &[], Err(Outside { block: 255 });
    (Sample::S, &[], &[(255, 1)]), &[], Ok(Numbers { owned: 58, ..SMALL_NUMBERS });
};

#[test]
fn owners(rt: HostRuntime) -> Result<(), Fail> {
    assert_cases(&rt, rt.alloc(), OWNERS)
}

const POOL: &[Case] = table! {
    SMALL, &[Bare(RING_BASE, 0, &[0x07])], Err(PoolLeaked { block: 45 });
    SMALL, &[Bare(RING_BASE, 0, &[0x01])], Err(PoolMissing { block: 44 });
    SMALL, &[WAITING], Err(PoolMissing { block: 45 });
    SMALL, &[WAITING, Bare(RING_BASE, 0, &[0x07])], Ok(SMALL_NUMBERS);
    SMALL, &[Records(POOL_QUEUE, &[([1, 44], &[1])])], Err(OwnedTwice { block: 44 });
};

#[test]
fn owners_of_the_pool(rt: HostRuntime) -> Result<(), Fail> {
    assert_cases(&rt, rt.alloc(), POOL)
}

// The free counts of the only chunk and of the device.
const COUNTS: &[Case] = table! {
    SMALL, &[Put(POOL_BASE, CIB_ENTRIES + CHUNK_FREE, &[198]), Put(SPACE_MANAGER, MAIN_FREE, &[198])], Err(FreeCount { chunk: 0 });
    SMALL, &[Mark(60), Free(60)], Ok(SMALL_NUMBERS);
};

#[test]
fn counts(rt: HostRuntime) -> Result<(), Fail> {
    assert_cases(&rt, rt.alloc(), COUNTS)
}
