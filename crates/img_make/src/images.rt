// Made containers, and changes of them.
ghost use Rattle.std.specs.Prelude.{◌≡◌, ◌*◌, ◌%◌, ◌≤◌, IfOk, vec_len};

use crate::places::ROOT_OID;
use crate::{
    Groups, Item, Leaf, NewRange, Plan, QueueEntry, Sample, edit, free, make, make_grouped, mark,
    pack, reseal_block, sample, write,
};
use apfs_layout::node::{COUNT, INFO_LEN, KEY_COUNT, TABLE, TABLE_LENGTH};
use fs_name::Names;
use std::alloc::Global;
use std::test::Fail;

// The bytes of a block, and where the values of a root end.
const BLOCK: usize = 4096;

const END: usize = BLOCK - INFO_LEN;

/// A record of a tree with fixed sizes: the two numbers of its key, and those of its value.
pub type Record = ([u64; 2], &'static [u64]);

/// A change of an image.
#[derive(Clone, Copy)]
pub enum Change {
    /// Bytes from a byte of a block on, after which the block's sum is right.
    Put(usize, usize, &'static [u8]),
    /// The same, but for the sum.
    Bare(usize, usize, &'static [u8]),
    /// A block is marked used, with the counts.
    Mark(usize),
    /// A block is marked free, with the counts.
    Free(usize),
    /// The records of a root of level 0 with fixed sizes, in place of its own.
    Records(usize, &'static [Record]),
}

/// Ranges, each as its first block and its number of blocks.
pub type Ranges = &'static [(u64, u64)];

/// What an image is made of: a sample, the extent references of its first volume in place of its own where some are given, and the
/// entries of the main free queue.
pub type Base = (Sample, Ranges, Ranges);

/// The small container as it is.
pub const SMALL: Base = (Sample::S, &[], &[]);

// Writes numbers one after the other.
fn put_numbers(image: &mut [u8], block: usize, at: usize, numbers: &[u64]) -> bool {
    for (i, number) in numbers.iter().enumerate() {
        let place = at.saturating_add(i.saturating_mul(8));
        if !write(image, BLOCK, block, place, &number.to_le_bytes()) {
            return false;
        }
    }
    true
}

// Writes the low 16 bits of a number.
fn put_short(image: &mut [u8], block: usize, at: usize, number: usize) -> bool {
    write(image, BLOCK, block, at, &(number as u64).to_le_bytes()[..2])
}

// Writes the record of a place among so many.
fn put_record(image: &mut [u8], block: usize, count: usize, place: usize, record: &Record) -> bool {
    let key = place.saturating_mul(16);
    let value = place
        .saturating_add(1)
        .saturating_mul(record.1.len().saturating_mul(8));
    let entry = TABLE.saturating_add(place.saturating_mul(4));
    let keys = TABLE.saturating_add(count.saturating_mul(4));
    put_short(image, block, entry, key)
        && put_short(image, block, entry.saturating_add(2), value)
        && put_numbers(image, block, keys.saturating_add(key), &record.0)
        && put_numbers(image, block, END.saturating_sub(value), record.1)
}

// Writes the records of a root of level 0, and how many they are.
fn put_records(image: &mut [u8], block: usize, records: &[Record]) -> bool {
    let count = records.len();
    for (place, record) in records.iter().enumerate() {
        if !put_record(image, block, count, place, record) {
            return false;
        }
    }
    put_short(image, block, COUNT, count)
        && put_short(image, block, TABLE_LENGTH, count.saturating_mul(4))
        && put_short(image, block, END + KEY_COUNT, count)
        && reseal_block(image, BLOCK, block)
}

// Makes a change. Answers whether the image has the place.
fn put(image: &mut [u8], change: &Change) -> bool {
    match *change {
        Change::Put(block, at, part) => edit(image, BLOCK, block, at, part),
        Change::Bare(block, at, part) => write(image, BLOCK, block, at, part),
        Change::Mark(block) => mark(image, BLOCK, block),
        Change::Free(block) => free(image, BLOCK, block),
        Change::Records(block, records) => put_records(image, block, records),
    }
}

// The extent references of some ranges, each of which one stream has.
fn extents_of(alloc: Global, ranges: &[(u64, u64)]) -> Result<Vec<NewRange>, Fail> {
    let mut extents = Vec::new(alloc);
    for (first, length) in ranges.iter() {
        extents.push(NewRange {
            first: *first,
            length: *length,
            count: 1,
        })?;
    }
    Ok(extents)
}

// The plan of an image, before its changes.
fn plan_of(alloc: Global, base: &Base) -> Result<Plan, Fail> {
    let mut plan = sample(alloc, base.0)?;
    if !base.1.is_empty() {
        let Some(volume) = plan.volumes.first_mut() else {
            return Err(Fail::from("the sample has no volume"));
        };
        volume.extents = extents_of(alloc, base.1)?;
    }
    for (paddr, length) in base.2.iter() {
        plan.queued.push(QueueEntry {
            xid: 1,
            paddr: *paddr,
            length: *length,
        })?;
    }
    Ok(plan)
}

// Makes changes, one after the other.
fn put_all(image: &mut [u8], changes: &[Change]) -> Result<(), Fail> {
    for change in changes.iter() {
        if !put(image, change) {
            return Err(Fail::from("no such place"));
        }
    }
    Ok(())
}

/// The bytes of the image of a plan, which has to be valid.
pub fn made(alloc: Global, plan: &Plan) -> Result<Vec<u8>, Fail>
    ensures in_blocks { IfOk result (λ image. vec_len image % 4096 ≡ 0) }
    ensures enough { IfOk result (λ image. 4096 * 51 ≤ vec_len image) }
{
    if !plan.valid() {
        return Err(Fail::from("the plan isn't valid"));
    }
    Ok(make(alloc, plan)?)
}

// Gives the first volume of a plan other leaves, and says how it compares names. A leaf that stands alone is the root.
fn put_leaves(plan: &mut Plan, names: Names, mut leaves: Vec<Leaf>) {
    if leaves.len() == 1 {
        leaves[0].oid = ROOT_OID;
    }
    if let Some(volume) = plan.volumes.first_mut() {
        volume.names = names;
        if let Some(version) = volume.versions.first_mut() {
            version.leaves = leaves;
        }
    }
}

// The id of the first of several leaves.
const FIRST_LEAF: u64 = 1031;

/// The bytes of the image of a sample whose first volume compares names so, and has these records of files in place of its own.
pub fn image_with(
    alloc: Global,
    which: Sample,
    names: Names,
    items: Vec<Item>,
) -> Result<Vec<u8>, Fail>
    ensures in_blocks { IfOk result (λ image. vec_len image % 4096 ≡ 0) }
    ensures enough { IfOk result (λ image. 4096 * 51 ≤ vec_len image) }
{
    let mut plan = sample(alloc, which)?;
    put_leaves(&mut plan, names, pack(alloc, items, FIRST_LEAF)?);
    made(alloc, &plan)
}

/// The bytes of an image, changed.
pub fn image(alloc: Global, base: &Base, changes: &[Change]) -> Result<Vec<u8>, Fail>
    ensures in_blocks { IfOk result (λ image. vec_len image % 4096 ≡ 0) }
    ensures enough { IfOk result (λ image. 4096 * 51 ≤ vec_len image) }
{
    let mut image = made(alloc, &plan_of(alloc, base)?)?;
    put_all(&mut image, changes)?;
    Ok(image)
}

/// The small container with an address block, in the block after the bitmap, changed.
pub fn grouped(alloc: Global, changes: &[Change]) -> Result<Vec<u8>, Fail>
    ensures in_blocks { IfOk result (λ image. vec_len image % 4096 ≡ 0) }
    ensures enough { IfOk result (λ image. 4096 * 51 ≤ vec_len image) }
{
    let plan = sample(alloc, Sample::S)?;
    let groups = Groups { chunks: 1, cibs: 1 };
    let mut image = make_grouped(alloc, &plan, groups)?;
    put_all(&mut image, changes)?;
    Ok(image)
}
