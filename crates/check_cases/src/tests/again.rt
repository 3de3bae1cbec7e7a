// Snapshots over one tree, and over trees that share leaves: what their check reads, and what it says of them.
use apfs_check::{Fault, check};
use blk_source::MemSource;
use fs_name::Names;
use img_make::records::InodePlan;
use img_make::{FileTree, Leaf, Sample, Version, made, sample};
use obj_base::Stop;
use std::alloc::{AllocError, Global};
use std::test::Fail;
use tree_rules::Profile;

// The first one of the oids of leaves.
const FIRST_LEAF: u64 = 1031;

// The records of the root directory and of an empty file.
const RECORDS: u64 = 6;

// A tree at a transaction in so many leaves: each but the last has one item.
fn in_leaves(alloc: Global, xid: u64, tree: FileTree, leaves: u64) -> Result<Version, AllocError> {
    let last = FIRST_LEAF.saturating_add(leaves).saturating_sub(1);
    let mut oid = FIRST_LEAF;
    let mut done = Vec::new(alloc);
    let mut items = Vec::new(alloc);
    for item in tree.items(alloc)? {
        items.push(item)?;
        if oid < last {
            done.push(Leaf { oid, items })?;
            items = Vec::new(alloc);
            oid += 1;
        }
    }
    done.push(Leaf { oid, items })?;
    Ok(Version {
        xid,
        snapshot: Some(format!(in alloc; "s{xid}")?.into_bytes()),
        leaves: done,
    })
}

// The tree of a transaction, of an empty file with a name.
fn version(alloc: Global, xid: u64, name: &str, leaves: u64) -> Result<Version, AllocError> {
    let mut tree = FileTree::new(alloc, Names::Folded)?;
    tree.add(alloc, InodePlan::file(16, 2), name)?;
    in_leaves(alloc, xid, tree, leaves)
}

// A container whose volume has a snapshot of each version.
fn source_of(alloc: Global, versions: Vec<Version>) -> Result<MemSource, Fail> {
    let mut plan = sample(alloc, Sample::V)?;
    plan.xid = (versions.len() as u64).saturating_add(1);
    if let Some(volume) = plan.volumes.first_mut() {
        volume.versions = versions;
    }
    Ok(MemSource::new(made(alloc, &plan)?, Vec::new(alloc)))
}

// How many reads a check takes of a volume with snapshots of these names for its file, and how many records it counts.
fn reads_of(alloc: Global, names: &[&str], leaves: u64) -> Result<(u64, u64), Fail> {
    let mut versions = Vec::new(alloc);
    let mut xid = 0u64;
    for name in names.iter() {
        xid = xid.saturating_add(1);
        versions.push(version(alloc, xid, *name, leaves)?)?;
    }
    let mut src = source_of(alloc, versions)?;
    match check(alloc, &mut src, Profile::Plain) {
        Ok(report) => Ok((src.read_count(), report.records)),
        Err(_) => Err(Fail::from("no report")),
    }
}

// How many more reads a check takes where the tree has five leaves and not four. The fifth leaf has the inodes, and no name. The fourth
// begins with the file's entry, so its key stands in the root, and trees with two names have two roots.
fn reads_of_a_leaf(alloc: Global, names: &[&str]) -> Result<u64, Fail> {
    let five = reads_of(alloc, names, 5)?;
    let four = reads_of(alloc, names, 4)?;
    Ok(five.0.saturating_sub(four.0))
}

// The names of the file in the snapshots.
const ONE_SNAPSHOT: [&str; 1] = ["old"];

const ONE_TREE: [&str; 8] = ["old"; 8];

const TWO_TREES: [&str; 8] = ["old", "old", "old", "new", "new", "new", "new", "new"];

#[test]
fn one_tree_is_walked_once(rt: HostRuntime) -> Result<(), Fail> {
    let alloc = rt.alloc();
    assert!(rt;
        reads_of_a_leaf(alloc, &ONE_TREE)? == reads_of_a_leaf(alloc, &ONE_SNAPSHOT)?
            && reads_of(alloc, &ONE_TREE, 5)?.1 == 9 * RECORDS
    );
    Ok(())
}

// The live view and the first snapshot are walked. The fifth leaf is in both, and is read once.
#[test]
fn a_leaf_that_both_trees_have_is_read_once(rt: HostRuntime) -> Result<(), Fail> {
    let alloc = rt.alloc();
    assert!(rt;
        reads_of_a_leaf(alloc, &TWO_TREES)? == reads_of_a_leaf(alloc, &ONE_SNAPSHOT)?
            && reads_of(alloc, &TWO_TREES, 5)?.1 == 9 * RECORDS
    );
    Ok(())
}

// What a directory holds: nothing, an empty file with a name, or one whose inode tells two links.
#[derive(Clone, Copy)]
enum Held {
    Nothing,
    File(&'static str),
    TwoLinks,
}

// The leaves in which the root directory, three files and the directory stand, the last one also with what the directory holds.
const LEAVES: u64 = 11;

// The records of the root directory, three files and a directory.
const STEADY: u64 = 12;

// The tree of a transaction: three files, and a directory that holds this.
fn holding(alloc: Global, xid: u64, held: Held) -> Result<Version, AllocError> {
    let mut tree = FileTree::new(alloc, Names::Folded)?;
    tree.add(alloc, InodePlan::file(16, 2), "a")?;
    tree.add(alloc, InodePlan::file(17, 2), "b")?;
    tree.add(alloc, InodePlan::file(18, 2), "c")?;
    tree.add(alloc, InodePlan::directory(30, 2), "d")?;
    match held {
        Held::Nothing => {}
        Held::File(name) => tree.add(alloc, InodePlan::file(31, 30), name)?,
        Held::TwoLinks => {
            tree.add(alloc, InodePlan::file(31, 30), "x")?;
            tree.inode(InodePlan {
                children_or_links: 2,
                ..InodePlan::file(31, 30)
            })?;
        }
    }
    in_leaves(alloc, xid, tree, LEAVES)
}

const X: Held = Held::File("x");

const Y: Held = Held::File("y");

const NO: Held = Held::Nothing;

// What a check says of a volume: the records of a report without notes, or the view and the inode of which a number of links is named.
#[derive(Clone, Copy, PartialEq, Eq)]
enum Said {
    Records(u64),
    Links { xid: u64, id: u64 },
}

// Five snapshots by what the directory holds in each, and what is said of them: how many records the six views have, so many of them with the file. The live
// view is that of the fifth snapshot.
const CASES: [([Held; 5], Said); 5] = [
    ([NO, NO, X, X, X], Said::Records(6 * STEADY + 2 * 4)),
    ([X, X, NO, NO, NO], Said::Records(6 * STEADY + 2 * 2)),
    ([X, X, Y, Y, Y], Said::Records(6 * STEADY + 2 * 6)),
    ([X, Y, X, NO, X], Said::Records(6 * STEADY + 2 * 5)),
    ([X, X, Held::TwoLinks, X, X], Said::Links { xid: 3, id: 31 }),
];

// A container whose volume has snapshots that hold this.
fn source_holding(alloc: Global, held: &[Held]) -> Result<MemSource, Fail> {
    let mut versions = Vec::new(alloc);
    let mut xid = 0u64;
    for one in held {
        xid = xid.saturating_add(1);
        versions.push(holding(alloc, xid, *one)?)?;
    }
    source_of(alloc, versions)
}

// What a check says of snapshots that hold this.
fn told(alloc: Global, held: &[Held]) -> Result<Said, Fail> {
    let mut src = source_holding(alloc, held)?;
    match check(alloc, &mut src, Profile::Plain) {
        Ok(report) => {
            if !report.notes.is_empty() {
                return Err(Fail::from("notes"));
            }
            Ok(Said::Records(report.records))
        }
        Err(Stop::Found(Fault::Links(at))) => Ok(Said::Links {
            xid: at.xid,
            id: at.id,
        }),
        Err(_) => Err(Fail::from("another fault")),
    }
}

#[test]
fn snapshots_that_share_leaves_are_tested(rt: HostRuntime) -> Result<(), Fail> {
    for (held, said) in &CASES {
        assert!(rt; told(rt.alloc(), held)? == *said);
    }
    Ok(())
}
