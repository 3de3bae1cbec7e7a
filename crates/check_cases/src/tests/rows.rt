// A row of the tables: an image, the profiles under which it is checked, and what is answered.
use apfs_check::{Fault, Report, check};
use blk_source::MemSource;
use bt_node::NodeFault;
use fs_record::RecFault;
use img_make::{Base, Change, image};
use obj_base::{Feature, Stop, Within};
use reach_rules::Why;
use std::alloc::Global;
use std::process::Abort;
use std::test::Fail;
use view_rules::{Note, Profile};

// The numbers of a report.
#[derive(Clone, Copy, PartialEq, Eq)]
pub struct Numbers {
    pub xid: u64,
    pub volumes: u64,
    pub views: u64,
    pub objects: u64,
    pub records: u64,
    pub used: u64,
    pub free: u64,
}

// Those of the small container.
pub const SMALL_NUMBERS: Numbers = Numbers {
    xid: 1,
    volumes: 1,
    views: 1,
    objects: 14,
    records: 4,
    used: 57,
    free: 199,
};

// What is wrong with a container, with the numbers that tell of it; a volume is that of slot 0, and a view that of transaction 1.
#[derive(Clone, Copy, PartialEq, Eq)]
pub enum Wrong {
    Unsound(u64, NodeFault),
    NamedTwice(Within, u64, u64),
    OwnedTwice(u64),
    Outside(u64),
    UnusedMapping(Within, u64, u64),
    Leaked(u64),
    Missing(u64),
    PoolLeaked(u64),
    PoolMissing(u64),
    SpaceCab(u32),
    SpaceCib(u32),
    SpaceIndex(u64),
    SpaceFreeCount(u64),
    PoolCount,
    PoolPlace(u64),
    TreeRecord(u64, u64),
    Record(u64, RecFault),
    DataUnreached(u64, u64),
    DataCount(u64, i32, u64),
}

// A note; a volume is that of slot 0.
#[derive(Clone, Copy, PartialEq, Eq)]
pub enum Noted {
    Skipped(u32, u64),
    Unreached(u64, u64),
    Count(u64, i32, u64),
}

// What is said of an image.
#[derive(Clone, Copy)]
pub enum Said {
    /// It is well-formed: the numbers of its report, and its notes.
    Clean(Numbers, &'static [Noted]),
    /// This is wrong with it.
    Fault(Wrong),
    /// It has this feature, for which this block is named.
    Feature(Feature, u64),
}

// A case: its name, what an image is made of, its changes, the profiles under which it is checked, and what is said of it.
pub type Row = (
    &'static str,
    Base,
    &'static [Change],
    &'static [Profile],
    Said,
);

// What is said of the small container.
pub const SMALL_REPORT: Said = Said::Clean(SMALL_NUMBERS, &[]);

pub const PLAIN: &[Profile] = &[Profile::Plain];

pub const STRICT: &[Profile] = &[Profile::Strict];

pub const BOTH: &[Profile] = &[Profile::Plain, Profile::Strict];

// What a check answers of an image.
pub(super) fn told(alloc: Global, image: Vec<u8>, profile: Profile) -> Result<Report, Stop<Fault>> {
    let mut src = MemSource::new(image, Vec::new(alloc));
    check(alloc, &mut src, profile)
}

// The numbers of a report.
pub(super) fn numbers_of(report: &Report) -> Numbers {
    Numbers {
        xid: report.xid,
        volumes: u64::from(report.volumes),
        views: report.views,
        objects: report.objects(),
        records: report.records,
        used: report.used(),
        free: report.free,
    }
}

// A fault by the numbers that tell of it, if the tables have it.
fn wrong_of(fault: &Fault) -> Option<Wrong> {
    Some(match *fault {
        Fault::Unsound {
            block,
            why: Why::Node(why),
        } => Wrong::Unsound(block, why),
        Fault::NamedTwice { within, oid, xid } => Wrong::NamedTwice(within, oid, xid),
        Fault::OwnedTwice { block } => Wrong::OwnedTwice(block),
        Fault::Outside { block } => Wrong::Outside(block),
        Fault::UnusedMapping { within, oid, xid } => Wrong::UnusedMapping(within, oid, xid),
        Fault::Leaked { block } => Wrong::Leaked(block),
        Fault::Missing { block } => Wrong::Missing(block),
        Fault::PoolLeaked { block } => Wrong::PoolLeaked(block),
        Fault::PoolMissing { block } => Wrong::PoolMissing(block),
        Fault::SpaceCab { index } => Wrong::SpaceCab(index),
        Fault::SpaceCib { index } => Wrong::SpaceCib(index),
        Fault::SpaceIndex { chunk } => Wrong::SpaceIndex(chunk),
        Fault::SpaceFreeCount { chunk } => Wrong::SpaceFreeCount(chunk),
        Fault::PoolCount => Wrong::PoolCount,
        Fault::PoolPlace { block } => Wrong::PoolPlace(block),
        Fault::TreeRecord { root, item } => Wrong::TreeRecord(root, item),
        Fault::Record {
            slot: 0,
            xid: 1,
            item,
            why,
        } => Wrong::Record(item, why),
        Fault::DataUnreached {
            slot: 0,
            block,
            length,
        } => Wrong::DataUnreached(block, length),
        Fault::DataCount {
            slot: 0,
            block,
            stored,
            streams,
        } => Wrong::DataCount(block, stored, streams),
        _ => return None,
    })
}

// The note that is meant.
fn note_of(noted: Noted) -> Note {
    match noted {
        Noted::Skipped(index, xid) => Note::Skipped { index, xid },
        Noted::Unreached(block, length) => Note::Unreached {
            slot: 0,
            block,
            length,
        },
        Noted::Count(block, stored, streams) => Note::Count {
            slot: 0,
            block,
            stored,
            streams,
        },
    }
}

// Whether notes are those that are meant.
fn are_notes(notes: &[Note], meant: &[Noted]) -> bool {
    if notes.len() != meant.len() {
        return false;
    }
    for (note, noted) in notes.iter().zip(meant.iter()) {
        if *note != note_of(*noted) {
            return false;
        }
    }
    true
}

// Whether what is answered is what is said.
fn is_as_said(answer: &Result<Report, Stop<Fault>>, said: Said) -> bool {
    match (answer, said) {
        (Ok(report), Said::Clean(want, notes)) => {
            numbers_of(report) == want && are_notes(&report.notes, notes)
        }
        (Err(Stop::Found(fault)), Said::Fault(wrong)) => wrong_of(fault) == Some(wrong),
        (Err(Stop::Unsupported { feature, block }), Said::Feature(want, at)) => {
            *feature == want && *block == at
        }
        _ => false,
    }
}

// Whether an image is as said, under each of some profiles.
pub(super) fn assert_row(
    rt: &impl Abort,
    alloc: Global,
    name: &str,
    image: &[u8],
    profiles: &[Profile],
    said: Said,
) -> Result<(), Fail> {
    for profile in profiles.iter() {
        let answer = told(alloc, image.to_vec(alloc)?, *profile);
        assert!(rt; is_as_said(&answer, said), "{name}");
    }
    Ok(())
}

// Whether each image of a table is as said.
pub(super) fn assert_rows(rt: &impl Abort, alloc: Global, rows: &[Row]) -> Result<(), Fail> {
    for (name, base, changes, profiles, said) in rows {
        let image = image(alloc, base, changes)?;
        assert_row(rt, alloc, name, &image, profiles, *said)?;
    }
    Ok(())
}
