// Blocks that are owned twice, by none, or unmarked, and their near misses.
use crate::tests::rows::Noted::*;
use crate::tests::rows::Said::*;
use crate::tests::rows::Wrong::*;
use crate::tests::rows::{BOTH, Numbers, PLAIN, Row, SMALL_NUMBERS, SMALL_REPORT, assert_rows};
use img_make::Change::*;
use img_make::cases::{QUEUED, TREE_IN_THE_POOL, TREE_PAST_THE_POOL, WAITING};
use img_make::places::{POOL_QUEUE, RING_BASE};
use img_make::{SMALL, Sample, table};
use std::test::Fail;

const OWNED_TWICE: &[Row] = table! {
    "fault_owned_twice_range", (Sample::C, &[(57, 2), (58, 1)], &[]), &[], BOTH, Fault(OwnedTwice(58));
    // No file is in block 58, and both are in block 57.
    "clean_ranges_that_touch", (Sample::C, &[(57, 1), (58, 1)], &[]), &[], PLAIN,
        Clean(Numbers { records: 12, used: 59, free: 197, ..SMALL_NUMBERS }, &[Unreached(58, 1), Count(57, 1, 2), Count(58, 1, 0)]);
    "fault_owned_twice_tree", SMALL, TREE_IN_THE_POOL, BOTH, Fault(OwnedTwice(46));
    "clean_tree_past_the_pool", SMALL, TREE_PAST_THE_POOL, BOTH, SMALL_REPORT;
    "fault_owned_twice_pool", SMALL, &[Records(POOL_QUEUE, &[([1, 44], &[1])])], BOTH, Fault(OwnedTwice(44));
};

#[test]
fn what_is_owned_twice_is_as_said(rt: HostRuntime) -> Result<(), Fail> {
    assert_rows(&rt, rt.alloc(), OWNED_TWICE)
}

const MARKS: &[Row] = table! {
    "fault_outside", (Sample::S, &[], &[(255, 2)]), &[], BOTH, Fault(Outside(255));
    "clean_queued_last_block", (Sample::S, &[], &[(255, 1)]), &[], BOTH, Clean(Numbers { used: 58, free: 198, ..SMALL_NUMBERS }, &[]);
    "fault_leaked", SMALL, &[Mark(200)], BOTH, Fault(Leaked(200));
    "fault_leaked_last_block", SMALL, &[Mark(255)], BOTH, Fault(Leaked(255));
    "fault_missing", QUEUED, &[Free(60)], BOTH, Fault(Missing(60));
    "clean_queued", QUEUED, &[], BOTH, Clean(Numbers { used: 58, free: 198, ..SMALL_NUMBERS }, &[]);
};

#[test]
fn marks_are_as_said(rt: HostRuntime) -> Result<(), Fail> {
    assert_rows(&rt, rt.alloc(), MARKS)
}

const POOL_MARKS: &[Row] = table! {
    "fault_pool_leaked", SMALL, &[Bare(RING_BASE, 0, &[0x07])], BOTH, Fault(PoolLeaked(45));
    "fault_pool_missing", SMALL, &[Bare(RING_BASE, 0, &[0x01])], BOTH, Fault(PoolMissing(44));
    "fault_pool_missing_queued", SMALL, &[WAITING], BOTH, Fault(PoolMissing(45));
    "clean_queued_in_the_pool", SMALL, &[WAITING, Bare(RING_BASE, 0, &[0x07])], BOTH, SMALL_REPORT;
};

#[test]
fn marks_of_the_pool_are_as_said(rt: HostRuntime) -> Result<(), Fail> {
    assert_rows(&rt, rt.alloc(), POOL_MARKS)
}
