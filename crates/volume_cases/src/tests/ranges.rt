// The extent reference tree of a made container, and ranges that meet, overlap or pass the greatest number.
ghost use Rattle.std.specs.Prelude.{◌≡◌, ◌≤◌, ◌-◌, ◌*◌, OnOk, pos};
ghost use Rattle.ext_ref.specs.Left.{AreShort, AreShortExtents};

use blk_source::{BlockSource, MemSource, NoMemory};
use bt_cursor::WalkFault;
use ext_ref::{
    Cover, ExtScan, ExtStop, NewRange, covered, new_ranges, references, scan, thin, unreached,
};
use fs_record::FileExt;
use img_make::{Sample, make, sample, table};
use obj_base::{Site, Stop};
use std::alloc::{AllocError, Global};

const TOP: u64 = u64::MAX;

const SITE: Site = Site {
    block_size: 4096,
    blocks: 256,
    max_xid: 1,
};

// A slice of ranges: a row is the first block and the number of blocks of one, and ends with a semicolon.
macro_rules! ranges {
    ($($first:expr, $length:expr;)*) => {
        &[$(NewRange { first: $first, length: $length, count: 1 }),*]
    };
}

// The container in which two files share block 57.
fn shared(alloc: Global, fails: &[u64]) -> Result<MemSource, NoMemory> {
    let plan = sample(alloc, Sample::C)?;
    Ok(MemSource::new(make(alloc, &plan)?, fails.to_vec(alloc)?))
}

fn scanned(alloc: Global, root: u64, fails: &[u64]) -> Result<ExtScan, Stop<ExtStop>> {
    let mut src = shared(alloc, fails)?;
    if src.size() < 4096 * 256 {
        return Err(Stop::NoMemory);
    }
    scan(alloc, &mut src, root, &SITE)
}

fn range(first: u64, length: u64) -> NewRange
    ensures { result ≡ record { first = first; length = length; count = pos 1 } }
{
    NewRange {
        first,
        length,
        count: 1,
    }
}

// The range of the shared block.
const SHARED: NewRange = NewRange {
    first: 57,
    length: 1,
    count: 2,
};

const SHARED_ALONE: &[NewRange] = &[SHARED];

fn has_shared_alone(alloc: Global) -> Result<bool, Stop<ExtStop>> {
    let scan = scanned(alloc, 55, &[])?;
    Ok(scan.steps.len() == 0 && scan.ranges.as_slice() == SHARED_ALONE)
}

// How many ranges there are without a tree.
fn ranges_of_none(alloc: Global) -> Result<usize, Stop<ExtStop>> {
    let mut src = shared(alloc, &[1])?;
    if src.size() < 4096 * 256 {
        return Err(Stop::NoMemory);
    }
    Ok(new_ranges(alloc, &mut src, 0, &SITE)?.len())
}

// The container has no block 256.
const UNNAMED: Stop<ExtStop> = Stop::Found(ExtStop::Walk(WalkFault::Unnamed { oid: 256 }));

#[test]
fn a_shared_block_is_one_range_and_what_stops_a_scan(rt: HostRuntime) {
    let alloc = rt.alloc();
    assert!(rt; has_shared_alone(alloc) == Ok(true));
    assert!(rt; ranges_of_none(alloc) == Ok(0));
    assert!(rt; scanned(alloc, 256, &[]).err() == Some(UNNAMED));
    assert!(rt; scanned(alloc, 55, &[1]).err() == Some(Stop::ReadFault));
}

// Ranges that meet, overlap or hold one another, one without a block, and one that passes the greatest number.
const COVERING: &[NewRange] = ranges! {
    60, 2; 57, 3; 58, 1; 70, 0; 80, 5; 82, 9; TOP, 5;
};

// The first block and the number of blocks of a range, and whether it is covered.
const COVERED: &[(u64, u64, bool)] = table! {
    57, 5, true; 58, 4, true; 56, 2, false; 61, 2, false; 60, 1, true; 70, 1, false; 70, 0, true; 80, 11, true; 81, 11, false;
    0, 1, false; TOP, 5, true; TOP, 6, false; TOP, TOP, false;
};

#[test]
fn which_ranges_are_covered(rt: HostRuntime) {
    let cover = Cover::of(rt.alloc(), COVERING).ok().expect(&rt, "memory");
    for (first, length, expected) in COVERED {
        assert!(rt;
            cover.covers(*first, *length) == *expected
                && covered(COVERING, *first, *length) == *expected,
            "{first} {length}"
        );
    }
}

// An extent of so many blocks of 4,096 bytes, less one byte.
fn extent(block: u64, blocks: u64) -> FileExt
    requires some { 1 ≤ blocks }
    requires few { blocks ≤ 1000 }
    ensures { result ≡ record { logical = 0; length = 4096 * blocks - 1; block = block } }
{
    FileExt {
        logical: 0,
        length: 4096 * blocks - 1,
        block,
    }
}

// A slice of extents with their streams: a row is a stream, the first block and the number of blocks, and ends with a semicolon. `less`
// says by how many bytes each extent is shorter than its blocks.
macro_rules! extents {
    (less $less:expr; $($stream:expr, $block:expr, $blocks:expr;)*) => {
        &[$(($stream, FileExt { logical: 0, length: 4096 * $blocks - $less, block: $block })),*]
    };
}

// Ranges that overlap or hold one another, one without a block, and one that passes the greatest number.
const REFERRED: &[NewRange] = ranges! {
    40, 1; 10, 5; 12, 8; 30, 0; TOP, 5; 1, 1000;
};

// Streams 1 and 2 share block 14, stream 2 twice; a hole; an extent over two ranges; one about an empty range.
const REFERRING: &[(u64, FileExt)] = extents! {
    less 1; 3, 39, 2; 2, 14, 1; 1, 10, 2; 2, 14, 2; 4, 0, 1000; 1, 14, 1; 5, 29, 3;
};

// Of stream 1 two extents touch: it has blocks 10 to 14. Of stream 2 two leave block 13 out: it has 11, 12 and 14. Of stream 3 one covers
// another and a third goes on past it: it has 20 to 30. Stream 4 has block 29, an extent without a block and a hole. Stream 5 has
// blocks 40 and 44, and stream 6 has 39 to 45.
const FILES: &[(u64, FileExt)] = extents! {
    less 0; 3, 25, 6; 1, 12, 3; 4, 12, 0; 5, 44, 1; 3, 20, 10; 2, 14, 1; 4, 29, 1; 6, 39, 7; 1, 10, 2; 4, 0, 1000; 2, 11, 2; 5, 40, 1;
    3, 22, 2;
};

// Ranges of which no two have a block in common.
const APART: &[NewRange] = ranges! {
    44, 1; 10, 1; 15, 5; 12, 1; 31, 8; 13, 1; 42, 1; 11, 1; 20, 4; 30, 1; 14, 1; 40, 1; 9, 1; 24, 4; 28, 2; 46, 1; TOP, 1;
};

// How many streams touch each.
const APART_COUNTS: &[u64] = &[2, 1, 0, 2, 0, 1, 1, 2, 1, 1, 2, 2, 0, 1, 2, 0, 0];

// The third ends before the first, which begins no later; two are one; two begin together; two meet two others; one has no block.
const OVERLAPPING: &[NewRange] = ranges! {
    10, 5; 13, 3; 12, 2; 10, 5; 10, 1; 21, 9; 29, 2; 13, 0; 43, 100; 41, 3;
};

// How many streams touch each.
const OVERLAPPING_COUNTS: &[u64] = &[2, 2, 2, 2, 1, 2, 2, 0, 2, 1];

// One range about all others.
const ABOUT: &[NewRange] = ranges! {
    1, 1000; 41, 3; 13, 1; 0, 10;
};

// Two ranges, of which one holds the other.
const TWO: &[NewRange] = ranges! {
    1, 5; 3, 1;
};

// Ranges, extents, and how many streams touch each range.
type Touched = (
    &'static [NewRange],
    &'static [(u64, FileExt)],
    &'static [u64],
);

const TOUCHED: &[Touched] = table! {
    REFERRED, REFERRING, &[1, 2, 2, 0, 0, 4];
    APART, FILES, APART_COUNTS;
    OVERLAPPING, FILES, OVERLAPPING_COUNTS;
    ABOUT, FILES, &[6, 1, 1, 0];
    &[], FILES, &[];
    TWO, &[], &[0, 0];
};

fn is_counted(alloc: Global, row: &Touched) -> Result<bool, NoMemory> {
    Ok(references(alloc, row.0, row.1, 4096)?.as_slice() == row.2)
}

#[test]
fn streams_are_counted_once_a_range(rt: HostRuntime) {
    for (i, row) in TOUCHED.iter().enumerate() {
        assert!(rt; is_counted(rt.alloc(), row) == Ok(true), "row {i}");
    }
}

// An extent of so many blocks of 4,096 bytes.
macro_rules! at {
    ($block:expr, $blocks:expr) => {
        FileExt {
            logical: 0,
            length: 4096 * $blocks,
            block: $block,
        }
    };
}

// An extent that lies further on in its stream.
const ODD: FileExt = FileExt {
    logical: 4096,
    length: 8192,
    block: 10,
};

// Two streams that share an extent, and extents that differ in one number alone.
const REPEATED: &[(u64, FileExt)] = table! {
    1, at!(10, 2);
    2, at!(10, 2);
    1, at!(10, 2);
    1, at!(10, 3);
    1, ODD;
    2, at!(10, 2);
    1, at!(11, 2);
    1, ODD;
};

// Each of these once.
const LEFT: &[(u64, FileExt)] = table! {
    1, at!(10, 2);
    2, at!(10, 2);
    1, at!(10, 3);
    1, ODD;
    1, at!(11, 2);
};

#[test]
fn each_extent_is_left_once(rt: HostRuntime) {
    let mut extents = REPEATED.to_vec(rt.alloc()).ok().expect(&rt, "memory");
    thin(&mut extents);
    assert!(rt; extents.len() == LEFT.len());
    for one in LEFT {
        assert!(rt; extents.contains(one));
    }
}

// Puts a range after others.
fn put_range(ranges: &mut Vec<NewRange>, first: u16, length: u16) -> Result<(), AllocError>
    requires { AreShort ranges.old.items }
    ensures { OnOk result (AreShort ranges.new.items) }
{
    ranges.push(range(u64::from(first), u64::from(length)))?;
    Ok(())
}

// Puts an extent of so many blocks, less one byte, after others.
fn put_extent(
    extents: &mut Vec<(u64, FileExt)>,
    stream: u64,
    block: u16,
    blocks: u64,
) -> Result<(), AllocError>
    requires some { 1 ≤ blocks }
    requires few { blocks ≤ 1000 }
    requires short { AreShortExtents 4096 extents.old.items }
    ensures { OnOk result (AreShortExtents 4096 extents.new.items) }
{
    extents.push((stream, extent(u64::from(block), blocks)))?;
    Ok(())
}

// Puts blocks 10 to 17, 30 and 31, and 50, of which a range ends where the next one begins.
fn put_ranges(ranges: &mut Vec<NewRange>) -> Result<(), AllocError>
    requires { AreShort ranges.old.items }
    ensures { OnOk result (AreShort ranges.new.items) }
{
    put_range(ranges, 30, 2)?;
    put_range(ranges, 10, 5)?;
    put_range(ranges, 50, 1)?;
    put_range(ranges, 15, 3)?;
    Ok(())
}

// Puts blocks 11 and 12, 16, and 31 to 70; and a hole.
fn put_extents(extents: &mut Vec<(u64, FileExt)>) -> Result<(), AllocError>
    requires { AreShortExtents 4096 extents.old.items }
    ensures { OnOk result (AreShortExtents 4096 extents.new.items) }
{
    put_extent(extents, 3, 31, 40)?;
    put_extent(extents, 1, 11, 2)?;
    put_extent(extents, 2, 0, 1000)?;
    put_extent(extents, 1, 16, 1)?;
    Ok(())
}

// The first block of each run, and the number of its blocks.
const RUNS: &[(u64, u64)] = &[(10, 1), (13, 3), (17, 1), (30, 1)];

fn are_unreached(alloc: Global) -> Result<bool, NoMemory> {
    let mut ranges = Vec::new(alloc);
    put_ranges(&mut ranges)?;
    let mut extents = Vec::new(alloc);
    put_extents(&mut extents)?;
    Ok(unreached(alloc, &ranges, &extents, 4096)?.as_slice() == RUNS)
}

#[test]
fn runs_that_no_extent_reaches(rt: HostRuntime) {
    assert!(rt; are_unreached(rt.alloc()) == Ok(true));
}
