// The reports of the samples. How many objects and used blocks each has, another program counted; how many records each has, the table
// of samples says: four of the two directories, and those of its files, in each view.
use crate::tests::rows::Said::Clean;
use crate::tests::rows::{BOTH, Numbers, Row, SMALL_NUMBERS, SMALL_REPORT, assert_rows};
use apfs_check::check;
use blk_source::{BlockSource, MemSource};
use img_make::{SMALL, Sample, image, table};
use std::test::Fail;
use tree_rules::Profile;

const REPORTS: &[Row] = table! {
    "clean_report_small", SMALL, &[], BOTH, SMALL_REPORT;
    "clean_report_hello", (Sample::H, &[], &[]), &[], BOTH, Clean(Numbers { records: 8, used: 58, free: 198, ..SMALL_NUMBERS }, &[]);
    "clean_report_links", (Sample::L, &[], &[]), &[], BOTH, Clean(Numbers { records: 11, ..SMALL_NUMBERS }, &[]);
    "clean_report_hole", (Sample::P, &[], &[]), &[], BOTH, Clean(Numbers { records: 9, used: 58, free: 198, ..SMALL_NUMBERS }, &[]);
    "clean_report_shared", (Sample::C, &[], &[]), &[], BOTH, Clean(Numbers { records: 12, used: 58, free: 198, ..SMALL_NUMBERS }, &[]);
    "clean_report_jumpstart", (Sample::J, &[], &[]), &[], BOTH, Clean(Numbers { objects: 15, used: 60, free: 196, ..SMALL_NUMBERS }, &[]);
    "clean_report_two_volumes", (Sample::T, &[], &[]), &[], BOTH,
        Clean(Numbers { volumes: 2, views: 2, objects: 20, records: 12, used: 64, free: 192, ..SMALL_NUMBERS }, &[]);
    "clean_report_snapshots", (Sample::V, &[], &[]), &[], BOTH,
        Clean(Numbers { xid: 5, views: 3, objects: 22, records: 18, used: 65, free: 191, ..SMALL_NUMBERS }, &[]);
    "clean_report_eight_snapshots", (Sample::V2, &[], &[]), &[], BOTH,
        Clean(Numbers { xid: 9, views: 9, objects: 34, records: 54, used: 77, free: 179, ..SMALL_NUMBERS }, &[]);
};

#[test]
fn reports_are_as_said(rt: HostRuntime) -> Result<(), Fail> {
    assert_rows(&rt, rt.alloc(), REPORTS)
}

// As many reads at most as a check took that kept what is wanted for each of the nine views.
#[test]
fn nine_views_take_no_more_reads(rt: HostRuntime) -> Result<(), Fail> {
    let alloc = rt.alloc();
    let eight_snapshots = image(alloc, &(Sample::V2, &[], &[]), &[])?;
    let mut src = MemSource::new(eight_snapshots, Vec::new(alloc));
    assert!(rt; check(alloc, &mut src, Profile::Plain).is_ok() && src.read_count() <= 98);
    Ok(())
}
