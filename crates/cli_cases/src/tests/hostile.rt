// Hostile use: images that say what can't be, and runs of which each read and each put is refused in turn. Which faults are there was worked out by hand
// from the definitions.
use crate::tests::cases::*;
use crate::tests::checks::*;
use crate::tests::contents::*;
use crate::tests::disks::{DISK, GPT_CHECK, GPT_RING};
use crate::tests::exports::{EXPORT, EXPORTED, FILLED, FILLED_TEXT};
use crate::tests::generated::{GEN, GEN_TEXT};
use crate::tests::images::Image::*;
use crate::tests::images::{Image, image_bytes, opened};
use crate::tests::uses::{USAGE, VIEWS_USED};
use crate::tests::{Ended, NOTHING, Refused, end, end_on};
use Text::*;
use apfs_layout::container::{DESC_INDEX, FS_OID};
use apfs_layout::node::COUNT;
use img_make::Change::Put;
use img_make::cases::{END, FILES, HELLO, MAP_ROOT, SNAPSHOTS as TWO_SNAPSHOTS};
use img_make::places::SUPERBLOCK;
use img_make::{SMALL, Sample, table};
use std::alloc::{AllocError, Global};
use std::process::Abort;
use std::test::Fail;

// A name, an image, and the texts of all faults that are in it.
type Wrong = (&'static str, Image, &'static [&'static str]);

// Where the root of the files of the container with two snapshots has the ids of its two children, 1031 and 1032.
const FIRST_CHILD: usize = END - 8;

const SECOND_CHILD: usize = END - 16;

// Where the size of the stream of `hello.txt` stands: the values of its inode and of five records before it have 378 bytes, of which the inode's stream is the end.
const STREAM_SIZE: usize = END - 378 + 92 + 8;

// Where the value of its only extent starts, which is the last of all.
const EXTENT: usize = END - 378 - 4 - 24;

// The root leads to itself. So none of its records is found but the inode of the file, and the other leaves of its first child are lost.
const ITSELF: &[&str] = &[
    "Unsound block 54 BadKind",
    "NamedTwice volume 0 oid 1028 xid 2",
    "NamedTwice volume 0 oid 1028 xid 4",
    "NamedTwice volume 0 oid 1028 xid 5",
    "UnusedMapping volume 0 oid 1031 xid 1",
    "UnusedMapping volume 0 oid 1031 xid 4",
    "Leaked block 57",
    "Leaked block 58",
    "Counts volume 0 view 2",
    "Counts volume 0 view 4",
    "Counts volume 0 view 5",
    "NoInode volume 0 view 2 id 2",
    "NoInode volume 0 view 4 id 2",
    "NoInode volume 0 view 5 id 2",
];

// The root leads to its first leaf twice. So that leaf's five records are there twice, and the inode of the file isn't.
const FIRST_LEAF_TWICE: &[&str] = &[
    "NamedTwice volume 0 oid 1031 xid 2",
    "NamedTwice volume 0 oid 1031 xid 4",
    "NamedTwice volume 0 oid 1031 xid 5",
    "UnusedMapping volume 0 oid 1032 xid 1",
    "Leaked block 59",
    "Order volume 0 view 2 item 7",
    "Order volume 0 view 4 item 7",
    "Order volume 0 view 5 item 7",
    "Counts volume 0 view 2",
    "Counts volume 0 view 4",
    "Counts volume 0 view 5",
    "DupName volume 0 view 2 id 1 name root",
    "DupName volume 0 view 4 id 1 name root",
    "DupName volume 0 view 5 id 1 name root",
    "DupName volume 0 view 2 id 1 name private-dir",
    "DupName volume 0 view 4 id 1 name private-dir",
    "DupName volume 0 view 5 id 1 name private-dir",
    "DupName volume 0 view 2 id 2 name old",
    "DupName volume 0 view 4 id 2 name new",
    "DupName volume 0 view 5 id 2 name new",
    "NoInode volume 0 view 2 id 2 name old",
    "NoInode volume 0 view 4 id 2 name new",
    "NoInode volume 0 view 5 id 2 name new",
    "Children volume 0 view 2 id 2",
    "Children volume 0 view 4 id 2",
    "Children volume 0 view 5 id 2",
];

// The root of the volume's object map can't be read, so nothing is found through it.
const UNREADABLE_MAP: &[&str] = &[
    "Unsound block 53 Bounds",
    "Unnamed volume 0 oid 1028 xid 1",
    "Leaked block 54",
    "NoInode volume 0 view 1 id 2",
];

const WRONG_IMAGES: &[Wrong] = table! {
    "no bytes", SmallShort(0), &["BlockZero"];
    "one byte", SmallShort(1), &["BlockZero"];
    "a block less a byte", SmallShort(4095), &["BlockZero"];
    "one block", SmallShort(4096), &["Truncated have 1 need 256"];
    "a block and a byte", SmallShort(4097), &["Truncated have 1 need 256"];
    "a byte less than all", SmallShort(1_048_575), &["Truncated have 255 need 256"];
    "the checkpoint starts at index 2^32 - 1", Made(SMALL, &[Put(SUPERBLOCK, DESC_INDEX, &[0xff, 0xff, 0xff, 0xff])]), &["NoCheckpoint"];
    "the last slot names 2^64 - 1", Made(SMALL, &[Put(SUPERBLOCK, FS_OID + 99 * 8, &[0xff, 0xff, 0xff, 0xff, 0xff, 0xff, 0xff, 0xff])]),
        &["Unnamed container oid 18446744073709551615 xid 1"];
    "a root leads to itself", Made(TWO_SNAPSHOTS, &[Put(FILES, FIRST_CHILD, &[0x04, 0x04])]), ITSELF;
    "a root leads to one leaf twice", Made(TWO_SNAPSHOTS, &[Put(FILES, SECOND_CHILD, &[0x07, 0x04])]), FIRST_LEAF_TWICE;
    "a node of 2^32 - 1 keys", Made(SMALL, &[Put(MAP_ROOT, COUNT, &[0xff, 0xff, 0xff, 0xff])]), UNREADABLE_MAP;
    "a file of 2^63 bytes", Made(HELLO, &[Put(FILES, STREAM_SIZE, &[0, 0, 0, 0, 0, 0, 0, 0x80])]), &["Stream volume 0 view 1 id 16"];
    "an extent of 2^56 - 4096 bytes", Made(HELLO, &[Put(FILES, EXTENT, &[0, 0xf0, 0xff, 0xff, 0xff, 0xff, 0xff])]),
        &["ExtentPlace volume 0 view 1 id 16", "ExtentUncovered volume 0 view 1 id 16"];
};

// Whether a line names one of some faults.
fn names_one_of(line: &[u8], faults: &[&str]) -> bool {
    let Some(rest) = line.strip_prefix(b"apfs: fault: ") else {
        return false;
    };
    let Some(fault) = rest.strip_suffix(b"\n") else {
        return false;
    };
    faults.iter().any(|text| text.as_bytes() == fault)
}

#[test]
fn what_is_named_of_a_hostile_image_is_there(rt: HostRuntime) -> Result<(), Fail> {
    let alloc = rt.alloc();
    for (name, image, faults) in WRONG_IMAGES {
        let ended = end(alloc, *image, CHECK, NOTHING)?;
        let is_there = names_one_of(ended.err.contents(), faults);
        assert!(rt;
            ended.status == 1 && ended.out.contents().is_empty() && is_there,
            "{name}"
        );
    }
    Ok(())
}

// More than the longest text of a run.
const LONG_ROOM: usize = 70_000;

// What a run writes that isn't stopped.
#[derive(Clone, Copy)]
enum Text {
    Lines(&'static str),
    /// The contents of the file `hole`.
    Hole,
    /// The same after a hole of 65,536 bytes.
    LongHole,
}

// So many zeros, and 904 times a byte.
fn zeros_then(alloc: Global, zeros: usize, byte: u8) -> Result<Vec<u8>, AllocError> {
    let mut contents = vec![in alloc; 0u8; zeros]?;
    contents.extend_from_slice(&[byte; 904])?;
    Ok(contents)
}

// 4,096 zeros, and 904 times a byte.
pub fn hole_then(alloc: Global, byte: u8) -> Result<Vec<u8>, AllocError> {
    zeros_then(alloc, 4096, byte)
}

impl Text {
    fn bytes(self, alloc: Global) -> Result<Vec<u8>, AllocError> {
        match self {
            Lines(lines) => lines.as_bytes().to_vec(alloc),
            Hole => hole_then(alloc, b'A'),
            LongHole => zeros_then(alloc, 65_536, b'A'),
        }
    }
}

// A run of which each read, each put and each call of its folder is refused in turn.
#[derive(Clone, Copy)]
struct Stopped {
    name: &'static str,
    image: Image,
    words: &'static [&'static str],
    text: Text,
    /// How many reads it takes at least and at most: a check reads each named object, of which there are 22 in the container with two snapshots and 14 in the
    /// others.
    reads: (u64, u64),
    /// How many bytes of the text were put before its last read; before the others none was.
    put_before_the_last_read: usize,
    /// How many were put before each put.
    put_before: &'static [usize],
    /// What the folder has before each call of it, and at the end.
    held: &'static [&'static str],
    /// How many calls of it came before its last read.
    calls_before_the_last_read: usize,
}

// A run that puts its text at once, after its last read, and nothing into its folder.
const AT_ONCE: Stopped = Stopped {
    name: "",
    image: Absent,
    words: &[],
    text: Lines(""),
    reads: (0, 0),
    put_before_the_last_read: 0,
    put_before: &[0],
    held: &[""],
    calls_before_the_last_read: 0,
};

// Contents are put in pieces of 65,536 bytes.
const IN_PIECES: Stopped = Stopped {
    put_before_the_last_read: 65_536,
    put_before: &[0, 65_536],
    ..AT_ONCE
};

// The last read of `export` is that of the file's bytes, after the directory was put and the file begun.
const INTO_A_FOLDER: Stopped = Stopped {
    held: EXPORTED,
    calls_before_the_last_read: 2,
    ..AT_ONCE
};

// `gen` puts its first line before the others.
const IN_TWO: Stopped = Stopped {
    put_before: &[0, 12],
    ..AT_ONCE
};

macro_rules! runs {
    ($($name:literal, $image:expr, $words:expr, $text:expr, $reads:expr, $order:expr;)*) => {
        &[$(Stopped { name: $name, image: $image, words: $words, text: $text, reads: $reads, ..$order }),*]
    };
}

// Every command but `format`, whose tests are in `formatted`. A new one has its row at the end.
const STOPPED_RUNS: &[Stopped] = runs! {
    "check", Views, CHECK, Lines(VIEWS_REPORT), (22, 60), AT_ONCE;
    "ls", Views, LS_CHECKED, Lines("- 16 0 new\n"), (23, 90), AT_ONCE;
    "cat", Made((Sample::P, &[], &[]), &[]), &["cat", "x", "/hole"], Hole, (16, 90), AT_ONCE;
    // The first of the two pieces is a hole.
    "cat --quick", Streamed(66_440, &[(0, 65_536, 0), (65_536, 4096, 57)]), CAT_HOLE, LongHole, (20, 39), IN_PIECES;
    "ring", Ring, RING, Lines(RING_LINES), (9, 39), AT_ONCE;
    "info", Empty, INFO, Lines(INFO_LINES), (14, 39), AT_ONCE;
    "volumes", Small, VOLUMES, Lines(SMALL_LINE), (17, 39), AT_ONCE;
    "space", Small, SPACE, Lines(SPACE_LINES), (15, 39), AT_ONCE;
    "snapshots", Views, SNAPSHOTS, Lines(VIEWS_LINES), (20, 39), AT_ONCE;
    "ls --quick, of a snapshot", Views, LS_OLD, Lines("- 16 0 old\n"), (21, 39), AT_ONCE;
    "tree --quick, of a snapshot", Views, TREE_OLD, Lines("- 16 0 old\n"), (21, 39), AT_ONCE;
    "xattr --quick", Link, XATTR, Lines("6 com.apple.fs.symlink\n"), (20, 39), AT_ONCE;
    "xattr --quick, of a name", Link, TARGET, Lines("hello\0"), (20, 39), AT_ONCE;
    "--gpt ring", Disk(DISK), GPT_RING, Lines("1 block 2 xid 1 from 0 length 2\n"), (11, 39), AT_ONCE;
    "--gpt check", Disk(DISK), GPT_CHECK, Lines(SMALL_REPORT), (16, 60), AT_ONCE;
    "usage", Views, USAGE, Lines(VIEWS_USED), (24, 66), AT_ONCE;
    "export", FILLED, EXPORT, Lines(FILLED_TEXT), (15, 90), INTO_A_FOLDER;
    "gen", Absent, GEN, Lines(GEN_TEXT), (0, 0), IN_TWO;
};

// Whether a run ended with this status and this line, left a folder that has this, and wrote the first so many bytes of a text.
fn ended_after(
    ended: &Ended,
    status: u8,
    line: &str,
    held: &str,
    text: &[u8],
    bytes: usize,
) -> bool {
    let out = ended.out.contents();
    ended.status == status
        && ended.held.as_str() == held
        && ended.err.contents() == line.as_bytes()
        && out.len() == bytes
        && text.starts_with(out)
}

// What a run is made on, what it writes, and what its folder has at the end.
#[derive(Drop)]
struct Prepared {
    image: Vec<u8>,
    text: Vec<u8>,
    held: &'static str,
}

fn prepare(alloc: Global, run: &Stopped) -> Result<Prepared, Fail> {
    Ok(Prepared {
        image: image_bytes(alloc, run.image)?,
        text: run.text.bytes(alloc)?,
        held: held_after(run, run.held.len().saturating_sub(1)),
    })
}

// What the folder of a run has after so many calls of it.
fn held_after(run: &Stopped, calls: usize) -> &'static str {
    run.held.get(calls).copied().unwrap_or("")
}

// Ends a run, with what is refused.
fn end_run(alloc: Global, run: &Stopped, on: &Prepared, refused: Refused) -> Result<Ended, Fail> {
    let image = opened(run.image, on.image.clone()?, [refused.read].to_vec(alloc)?);
    end_on(alloc, image, run.words, LONG_ROOM, refused)
}

// Whether a run of so many reads ends with 3 where the read of this number is refused.
fn fails_at_read(
    alloc: Global,
    run: &Stopped,
    on: &Prepared,
    number: u64,
    reads: u64,
) -> Result<bool, Fail> {
    let refused = Refused {
        read: number,
        ..NOTHING
    };
    let ended = end_run(alloc, run, on, refused)?;
    let (bytes, calls) = if number == reads {
        (run.put_before_the_last_read, run.calls_before_the_last_read)
    } else {
        (0, 0)
    };
    let held = held_after(run, calls);
    Ok(ended_after(&ended, 3, "apfs: read failed\n", held, &on.text, bytes))
}

// Refuses each read of a run in turn, and says whether it ends with 3.
fn refuse_each_read(rt: &impl Abort, alloc: Global, run: &Stopped) -> Result<(), Fail> {
    let on = prepare(alloc, run)?;
    let whole = end_run(alloc, run, &on, NOTHING)?;
    let is_whole = ended_after(&whole, 0, "", on.held, &on.text, on.text.len());
    let (least, most) = run.reads;
    assert!(rt;
        is_whole && whole.reads >= least && whole.reads <= most,
        "{}: {} reads",
        run.name,
        whole.reads
    );
    for number in 1..=whole.reads {
        let as_said = fails_at_read(alloc, run, &on, number, whole.reads)?;
        assert!(rt; as_said, "{}: read {number}", run.name);
    }
    Ok(())
}

// Refuses each put of a run in turn, and says whether it ends with 4; with 0 after its last put.
fn refuse_each_put(rt: &impl Abort, alloc: Global, run: &Stopped) -> Result<(), Fail> {
    let on = prepare(alloc, run)?;
    for (i, bytes) in run.put_before.iter().chain(&[on.text.len()]).enumerate() {
        let refused = Refused {
            put: (i as u64).saturating_add(1),
            ..NOTHING
        };
        let ended = end_run(alloc, run, &on, refused)?;
        let status = if i < run.put_before.len() { 4 } else { 0 };
        let as_said = ended_after(&ended, status, "", on.held, &on.text, *bytes);
        assert!(rt; as_said, "{}: after {i} puts", run.name);
    }
    Ok(())
}

// Refuses each call of the folder of a run in turn, and says whether it ends with 4 and writes nothing; with 0 after its last call.
fn failure_of_each_call(rt: &impl Abort, alloc: Global, run: &Stopped) -> Result<(), Fail> {
    let on = prepare(alloc, run)?;
    for (i, held) in run.held.iter().enumerate() {
        let refused = Refused {
            call: (i as u64).saturating_add(1),
            ..NOTHING
        };
        let ended = end_run(alloc, run, &on, refused)?;
        let (status, bytes) = if i.saturating_add(1) < run.held.len() {
            (4, 0)
        } else {
            (0, on.text.len())
        };
        let as_said = ended_after(&ended, status, "", held, &on.text, bytes);
        assert!(rt; as_said, "{}: after {i} calls", run.name);
    }
    Ok(())
}

#[test]
fn failure_of_each_read(rt: HostRuntime) -> Result<(), Fail> {
    for run in STOPPED_RUNS {
        refuse_each_read(&rt, rt.alloc(), run)?;
    }
    Ok(())
}

#[test]
fn failure_of_each_put(rt: HostRuntime) -> Result<(), Fail> {
    for run in STOPPED_RUNS {
        refuse_each_put(&rt, rt.alloc(), run)?;
        failure_of_each_call(&rt, rt.alloc(), run)?;
    }
    Ok(())
}
