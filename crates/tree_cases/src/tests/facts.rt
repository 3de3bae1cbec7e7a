// The facts of the sample containers, and of a small one with a symbolic link. What is wanted was worked out by hand.
use crate::tests::opened::{open, refusal};
use fs_name::Names;
use fs_record::RecFault;
use img_make::records::{InodePlan, Item, LINK_MODE, attribute};
use img_make::{FileTree, Sample, image_with, made, sample, table};
use obj_base::Stop;
use std::alloc::{AllocError, Global};
use std::test::Fail;
use view_facts::{Facts, ViewFacts, view_facts, view_files};
use view_rules::TreeFault;

const FILE: u64 = 16;

const ROOT: u64 = 2;

fn facts_of(alloc: Global, image: Vec<u8>) -> Result<Result<ViewFacts, Stop<TreeFault>>, Fail> {
    let mut at = open(alloc, image, 0)?;
    Ok(view_facts(alloc, &mut at.src, &at.volume, &at.view, &at.site))
}

// The inodes and the entries alone.
fn files_of(alloc: Global, image: Vec<u8>) -> Result<Result<Facts, Stop<TreeFault>>, Fail> {
    let mut at = open(alloc, image, 0)?;
    Ok(view_files(alloc, &mut at.src, &at.volume, &at.view, &at.site))
}

// Adds a symbolic link whose target has these bytes.
fn add_link(alloc: Global, tree: &mut FileTree, target: &[u8]) -> Result<(), AllocError> {
    let mut link = InodePlan::file(FILE, ROOT);
    link.mode = LINK_MODE;
    tree.add(alloc, link, "l")?;
    if target.len() <= 100 {
        tree.record(attribute(alloc, FILE, b"com.apple.fs.symlink", target)?)?;
    }
    Ok(())
}

// The records of the small container with that link.
fn linked(alloc: Global, target: &[u8]) -> Result<Vec<Item>, AllocError> {
    let mut tree = FileTree::new(alloc, Names::Folded)?;
    add_link(alloc, &mut tree, target)?;
    tree.items(alloc)
}

// The small container with these records.
fn with_items(alloc: Global, items: Vec<Item>) -> Result<Vec<u8>, Fail> {
    image_with(alloc, Sample::S, Names::Folded, items)
}

// How many records there are, and how many inodes, entries, attributes, links, siblings and extents.
type Counts = [u64; 7];

fn counts_of(found: &ViewFacts) -> Counts {
    let facts = &found.facts;
    [
        found.records,
        facts.inodes.len() as u64,
        facts.entries.len() as u64,
        facts.attributes.len() as u64,
        facts.links.len() as u64,
        facts.siblings.len() as u64,
        facts.extents.len() as u64,
    ]
}

// A sample, and what it has. The bare volume has 4 records. A file has an inode and an entry, one with a stream also the record of its
// id and its extents, and each of two names an entry, a link and a map.
const SAMPLES: &[(Sample, Counts)] = table! {
    Sample::S, [4, 2, 2, 0, 0, 0, 0];
    Sample::H, [8, 3, 3, 0, 0, 0, 1];
    Sample::L, [11, 3, 4, 0, 2, 2, 0];
    Sample::P, [9, 3, 3, 0, 0, 0, 2];
    Sample::V, [6, 3, 3, 0, 0, 0, 0];
};

// Whether the facts of an image are so many.
fn has_counts(alloc: Global, image: Vec<u8>, wanted: Counts) -> Result<bool, Fail> {
    match facts_of(alloc, image)? {
        Ok(found) => Ok(counts_of(&found) == wanted),
        Err(stop) => Err(refusal(stop)),
    }
}

// Whether these are the inodes and the entries alone, and so many.
fn are_files(files: &Facts, wanted: Counts) -> bool {
    files.inodes.len() as u64 == wanted[1]
        && files.entries.len() as u64 == wanted[2]
        && files.links.is_empty()
        && files.siblings.is_empty()
        && files.extents.is_empty()
}

// Whether the inodes and the entries are so many where these alone are gathered, with no links, siblings and extents.
fn has_files(alloc: Global, image: Vec<u8>, wanted: Counts) -> Result<bool, Fail> {
    match files_of(alloc, image)? {
        Ok(files) => Ok(are_files(&files, wanted)),
        Err(stop) => Err(refusal(stop)),
    }
}

// Whether both are so of a sample.
fn is_counted(alloc: Global, which: Sample, wanted: Counts) -> Result<bool, Fail> {
    let image = made(alloc, &sample(alloc, which)?)?;
    Ok(has_counts(alloc, image.to_vec(alloc)?, wanted)? && has_files(alloc, image, wanted)?)
}

#[test]
fn each_kind_of_record_is_counted(rt: HostRuntime) -> Result<(), Fail> {
    for &(which, wanted) in SAMPLES {
        assert!(rt;
            is_counted(rt.alloc(), which, wanted)?,
            "{} records",
            wanted[0]
        );
    }
    Ok(())
}

// The bytes of an attribute, and whether they are a target.
const TARGETS: &[(&[u8], bool)] = table! {
    b"hello\0", true;
    b"hello", false;
    b"\0", false;
    b"he\0lo\0", false;
};

// The only attribute: its id, and whether it gives the target.
fn attribute_in(facts: &Facts) -> Result<(u64, bool), Fail> {
    let [attribute] = facts.attributes.as_slice() else {
        return Err(Fail::from("there isn't one attribute"));
    };
    Ok((attribute.id(), attribute.gives_target()))
}

// That of the link whose target has these bytes.
fn attribute_of(alloc: Global, target: &[u8]) -> Result<(u64, bool), Fail> {
    let image = with_items(alloc, linked(alloc, target)?)?;
    match facts_of(alloc, image)? {
        Ok(found) => attribute_in(&found.facts),
        Err(stop) => Err(refusal(stop)),
    }
}

#[test]
fn the_target_of_a_link_is_kept(rt: HostRuntime) -> Result<(), Fail> {
    for (target, is_target) in TARGETS {
        assert!(rt; attribute_of(rt.alloc(), target)? == (FILE, *is_target));
    }
    Ok(())
}

// The numbers of the items that are cut, and how many bytes of their values stay. Items 5 and 6 are the inode of the link and its
// attribute. Before them stand the entries of directory 1, the root's inode and its entry, and the inode of directory 3.
const CUT: &[(usize, usize)] = &[(6, 3), (5, 91)];

// The small container with the link, and these items cut.
fn cut(alloc: Global) -> Result<Vec<u8>, Fail> {
    let mut items = linked(alloc, b"hello\0")?;
    for &(number, length) in CUT {
        if let Some(item) = items.get_mut(number) {
            item.1.truncate(length);
        }
    }
    with_items(alloc, items)
}

// Whether the record of the link's inode is named.
fn is_named(found: Result<ViewFacts, Stop<TreeFault>>) -> bool {
    matches!(
        &found,
        Err(Stop::Found(TreeFault::Record {
            slot: 0,
            xid: 1,
            item: 5,
            why: RecFault::Length,
        }))
    )
}

#[test]
fn the_first_record_that_is_refused_is_named(rt: HostRuntime) -> Result<(), Fail> {
    let found = facts_of(rt.alloc(), cut(rt.alloc())?)?;
    assert!(rt; is_named(found));
    Ok(())
}
