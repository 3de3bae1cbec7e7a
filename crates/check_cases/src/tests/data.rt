// The data of volumes, and candidates that are passed over.
use crate::tests::rows::Noted::*;
use crate::tests::rows::Said::*;
use crate::tests::rows::Wrong::*;
use crate::tests::rows::{
    BOTH, Numbers, PLAIN, Row, SMALL_NUMBERS, STRICT, Said, assert_row, assert_rows,
};
use img_make::{Base, SMALL, Sample, image, skipped_checkpoint, table};
use std::test::Fail;

// The range of the file goes on in block 58.
const LONGER: Base = (Sample::H, &[(57, 2)], &[]);

// The range of the two files counts one.
const ONE_COUNTED: Base = (Sample::C, &[(57, 1)], &[]);

const DATA: &[Row] = table! {
    "note_unreached", LONGER, &[], PLAIN, Clean(Numbers { records: 8, used: 59, free: 197, ..SMALL_NUMBERS }, &[Unreached(58, 1)]);
    "fault_data_unreached", LONGER, &[], STRICT, Fault(DataUnreached(58, 1));
    "note_count", ONE_COUNTED, &[], PLAIN, Clean(Numbers { records: 12, used: 58, free: 198, ..SMALL_NUMBERS }, &[Count(57, 1, 2)]);
    "fault_data_count", ONE_COUNTED, &[], STRICT, Fault(DataCount(57, 1, 2));
};

#[test]
fn data_are_as_said(rt: HostRuntime) -> Result<(), Fail> {
    assert_rows(&rt, rt.alloc(), DATA)
}

// A second checkpoint, whose space manager has a wrong sum, has its superblock in block 4, which has the index 3.
const SKIPPED: Said = Clean(SMALL_NUMBERS, &[Skipped(3, 2)]);

#[test]
fn a_candidate_that_is_skipped_is_noted(rt: HostRuntime) -> Result<(), Fail> {
    let alloc = rt.alloc();
    let mut image = image(alloc, &SMALL, &[])?;
    assert!(rt; skipped_checkpoint(&mut image));
    assert_row(&rt, alloc, "note_skipped", &image, BOTH, SKIPPED)
}
