// What is said of the views of the cases, under both profiles.
use crate::tests::cases::*;
use crate::tests::opened::open;
use crate::tests::trees::Rec::*;
use crate::tests::trees::Top::Root;
use crate::tests::trees::{Count, FILE, FOLDER, Id, In, Rec, image_of, image_of_two};
use Base::Alone;
use blk_source::Bytes;
use ext_ref::NewRange;
use fs_record::RecFault;
use img_make::{Sample, make, sample, table};
use obj_base::Stop;
use std::alloc::Global;
use std::process::Abort;
use std::test::Fail;
use tree_rules::{Profile, ViewTally, check_view};
use view_rules::{IdAt, NamedAt, Note, TreeFault};

// The ranges that cover the blocks of extents.
const RANGES: [NewRange; 2] = [
    NewRange {
        first: 57,
        length: 2,
        count: 1,
    },
    NewRange {
        first: 255,
        length: 4,
        count: 1,
    },
];

// What is said of a view of the only volume, by its number.
fn checked(
    alloc: Global,
    image: Vec<u8>,
    number: usize,
    profile: Profile,
) -> Result<Result<ViewTally, Stop<TreeFault>>, Fail> {
    let mut at = open(alloc, image, number)?;
    Ok(check_view(
        alloc,
        &mut at.src,
        &at.volume,
        &at.view,
        &RANGES,
        &at.site,
        profile,
    ))
}

fn at(id: u64) -> IdAt {
    IdAt {
        slot: 0,
        xid: 1,
        id,
    }
}

fn named_at(alloc: Global, id: u64, name: &str) -> Result<NamedAt, Fail> {
    Ok(NamedAt {
        slot: 0,
        xid: 1,
        id,
        name: Bytes::from_slice(alloc, name.as_bytes())?,
    })
}

// The fault of a word at an id; a word that wants a name has no fault without one.
fn fault_at(word: Word, id: u64) -> Option<TreeFault> {
    let fault = match word {
        Word::DirNames => TreeFault::DirNames(at(id)),
        Word::Unreached => TreeFault::Unreached(at(id)),
        Word::Children => TreeFault::Children(at(id)),
        Word::Links => TreeFault::Links(at(id)),
        Word::SiblingLost => TreeFault::SiblingLost(at(id)),
        Word::ExtentOrder => TreeFault::ExtentOrder(at(id)),
        Word::ExtentPlace => TreeFault::ExtentPlace(at(id)),
        Word::ExtentUncovered => TreeFault::ExtentUncovered(at(id)),
        Word::LinkTarget => TreeFault::LinkTarget(at(id)),
        Word::Stream => TreeFault::Stream(at(id)),
        Word::AttrOwner => TreeFault::AttrOwner(at(id)),
        _ => return None,
    };
    Some(fault)
}

// The fault of a word at an id and a name.
fn fault_named(word: Word, at: NamedAt) -> Option<TreeFault> {
    let fault = match word {
        Word::DupName => TreeFault::DupName(at),
        Word::Hash => TreeFault::Hash(at),
        Word::NoParent => TreeFault::NoParent(at),
        Word::KindMismatch => TreeFault::KindMismatch(at),
        Word::NoInode => TreeFault::NoInode {
            slot: at.slot,
            xid: at.xid,
            id: at.id,
            name: Some(at.name),
        },
        _ => return None,
    };
    Some(fault)
}

// The fault that is said to be there, where one is.
fn fault_of(alloc: Global, said: Said) -> Result<Option<TreeFault>, Fail> {
    Ok(match said {
        Said::Clean(_) | Said::Unnamed(..) | Said::Either(..) => None,
        Said::Order(item) => Some(TreeFault::Order {
            slot: 0,
            xid: 1,
            item,
        }),
        Said::Record(item) => Some(TreeFault::Record {
            slot: 0,
            xid: 1,
            item,
            why: RecFault::Length,
        }),
        Said::NoRoot => Some(TreeFault::NoInode {
            slot: 0,
            xid: 1,
            id: 2,
            name: None,
        }),
        Said::Fault(word, id) => fault_at(word, id),
        Said::Named(word, id, name) => fault_named(word, named_at(alloc, id, name)?),
    })
}

// Whether a tally is the one that is said.
fn is_tally(tally: &ViewTally, said: Said) -> bool {
    match said {
        Said::Clean(records) => tally.records == records && tally.notes.is_empty(),
        Said::Unnamed(records, id) => {
            tally.records == records
                && tally.notes.len() == 1
                && tally.notes[0] == Note::Unnamed(at(id))
        }
        _ => false,
    }
}

// Whether there is a fault, and it is this one.
fn is(found: Option<TreeFault>, fault: &TreeFault) -> bool {
    match &found {
        Some(found) => found == fault,
        None => false,
    }
}

// Whether a fault is one that is said to be there.
fn is_fault(alloc: Global, fault: &TreeFault, said: Said) -> Result<bool, Fail> {
    if let Said::Either(one, other, id) = said {
        return Ok(is(fault_at(one, id), fault) || is(fault_at(other, id), fault));
    }
    Ok(is(fault_of(alloc, said)?, fault))
}

// Whether what is answered is what is said.
fn is_as_said(
    alloc: Global,
    answer: &Result<ViewTally, Stop<TreeFault>>,
    said: Said,
) -> Result<bool, Fail> {
    Ok(match answer {
        Ok(tally) => is_tally(tally, said),
        Err(Stop::Found(fault)) => is_fault(alloc, fault, said)?,
        Err(_) => false,
    })
}

// Whether that is so of an image under a profile.
fn ends_as_said(alloc: Global, image: Vec<u8>, said: Said, profile: Profile) -> Result<bool, Fail> {
    let answer = checked(alloc, image, 0, profile)?;
    is_as_said(alloc, &answer, said)
}

// Whether it is so under both profiles.
fn is_said(alloc: Global, image: Vec<u8>, said: Said) -> Result<bool, Fail> {
    Ok(
        ends_as_said(alloc, image.to_vec(alloc)?, said, Profile::Plain)?
            && ends_as_said(alloc, image, said, Profile::Strict)?,
    )
}

fn assert_cases(rt: &impl Abort, alloc: Global, cases: &[Case]) -> Result<(), Fail> {
    for (name, top, base, records, said) in cases {
        let image = image_of(alloc, *top, *base, records)?;
        assert!(rt; is_said(alloc, image, *said)?, "{name}");
    }
    Ok(())
}

#[test]
fn name_cases_end_as_said(rt: HostRuntime) -> Result<(), Fail> {
    assert_cases(&rt, rt.alloc(), NAME_CASES)
}

#[test]
fn directory_cases_end_as_said(rt: HostRuntime) -> Result<(), Fail> {
    assert_cases(&rt, rt.alloc(), DIRECTORY_CASES)
}

#[test]
fn sibling_cases_end_as_said(rt: HostRuntime) -> Result<(), Fail> {
    assert_cases(&rt, rt.alloc(), SIBLING_CASES)
}

#[test]
fn extent_cases_end_as_said(rt: HostRuntime) -> Result<(), Fail> {
    assert_cases(&rt, rt.alloc(), EXTENT_CASES)
}

#[test]
fn inode_cases_end_as_said(rt: HostRuntime) -> Result<(), Fail> {
    assert_cases(&rt, rt.alloc(), INODE_CASES)
}

#[test]
fn cases_of_two_leaves_end_as_said(rt: HostRuntime) -> Result<(), Fail> {
    for (name, top, base, records, said) in LEAF_CASES {
        let image = image_of_two(rt.alloc(), *top, *base, records)?;
        assert!(rt; is_said(rt.alloc(), image, *said)?, "{name}");
    }
    Ok(())
}

// A name that isn't ASCII, with another hash in its entry.
const OTHER_HASH: &[Rec] = &[
    Hashed(In(2), Id(16), FILE, "é"),
    Inode(Id(16), In(2), F, Count(1)),
];

// Whether an answer is the fault of that entry.
fn is_name_hash(answer: &Result<ViewTally, Stop<TreeFault>>, at: &NamedAt) -> bool {
    match answer {
        Err(Stop::Found(TreeFault::NameHash(found))) => found == at,
        _ => false,
    }
}

#[test]
fn another_hash_is_a_fault_under_strict(rt: HostRuntime) -> Result<(), Fail> {
    let alloc = rt.alloc();
    let image = image_of(alloc, Root(1), Alone, OTHER_HASH)?;
    let answer = checked(alloc, image, 0, Profile::Strict)?;
    assert!(rt; is_name_hash(&answer, &named_at(alloc, 2, "é")?));
    Ok(())
}

// Two such names, and two files without an entry, whose ids stand between those of the directories.
const NOTED: &[Rec] = &[
    Hashed(In(2), Id(18), FILE, "é"),
    Entry(In(2), Id(20), FOLDER, "d"),
    Hashed(In(20), Id(17), FILE, "ü"),
    Inode(Id(16), In(2), F, Count(1)),
    Inode(Id(17), In(20), F, Count(1)),
    Inode(Id(18), In(2), F, Count(1)),
    Inode(Id(19), In(2), F, Count(3)),
    Inode(Id(20), In(2), D, Count(1)),
];

// The notes that those records lead to.
fn noted(alloc: Global) -> Result<Vec<Note>, Fail> {
    let mut notes = Vec::new(alloc);
    notes.push(Note::Hash(named_at(alloc, 2, "é")?))?;
    notes.push(Note::Hash(named_at(alloc, 20, "ü")?))?;
    notes.push(Note::Unnamed(at(16)))?;
    notes.push(Note::Unnamed(at(19)))?;
    Ok(notes)
}

// Whether a view has so many records, and leads to these notes.
fn has(answer: &Result<ViewTally, Stop<TreeFault>>, records: u64, notes: &[Note]) -> bool {
    match answer {
        Ok(tally) => tally.records == records && tally.notes.as_slice() == notes,
        Err(_) => false,
    }
}

#[test]
fn notes_stand_in_their_order(rt: HostRuntime) -> Result<(), Fail> {
    let image = image_of(rt.alloc(), Root(2), Alone, NOTED)?;
    let answer = checked(rt.alloc(), image, 0, Profile::Plain)?;
    assert!(rt; has(&answer, 12, &noted(rt.alloc())?));
    Ok(())
}

// A sample, the number of a view, and how many records that has.
const SAMPLES: &[(Sample, usize, u64)] = table! {
    Sample::S, 0, 4;
    Sample::H, 0, 8;
    Sample::L, 0, 11;
    Sample::P, 0, 9;
    Sample::C, 0, 12;
    Sample::V, 0, 6;
    Sample::V, 1, 6;
    Sample::V, 2, 6;
};

// Whether a view of a sample meets the rules without a note, and has so many records.
fn meets(alloc: Global, which: Sample, number: usize, records: u64) -> Result<bool, Fail> {
    let image = make(alloc, &sample(alloc, which)?)?;
    let answer = checked(alloc, image, number, Profile::Strict)?;
    Ok(has(&answer, records, &[]))
}

#[test]
fn samples_meet_the_rules(rt: HostRuntime) -> Result<(), Fail> {
    for &(which, number, records) in SAMPLES {
        assert!(rt;
            meets(rt.alloc(), which, number, records)?,
            "view {number}, {records} records"
        );
    }
    Ok(())
}
