// Small rings of checkpoints at three block sizes. The container has 32 blocks: descriptors in blocks 1 to 8, data in
// blocks 9 to 12.
use blk_source::MemSource;
use nx_ring::{Checkpoint, RingFault, RingLine, newest, ring};
use obj_base::{Feature, Stop, sum64};
use std::alloc::{AllocError, Global};

// The types of a superblock, of a map, and of a space manager.
const SUPERBLOCK: u32 = 0x8000_0001;

const MAP: u32 = 0x4000_000c;

const MANAGER: u32 = 0x8000_0005;

// Puts bytes at a place, as far as there is room.
fn put(into: &mut [u8], at: usize, bytes: &[u8]) {
    for (i, byte) in bytes.iter().enumerate() {
        if let Some(place) = into.get_mut(at.saturating_add(i)) {
            *place = *byte;
        }
    }
}

// A block in the making.
#[derive(Drop)]
struct Block {
    bytes: Vec<u8>,
}

impl Block {
    fn new(alloc: Global, size: usize) -> Result<Block, AllocError> {
        Ok(Block {
            bytes: vec![in alloc; 0u8; size]?,
        })
    }

    fn put32(&mut self, at: usize, number: u32) {
        put(&mut self.bytes, at, &number.to_le_bytes());
    }

    fn put64(&mut self, at: usize, number: u64) {
        put(&mut self.bytes, at, &number.to_le_bytes());
    }

    // Gives it a header, and stores its sum.
    fn seal(&mut self, oid: u64, xid: u64, word: u32) {
        self.put64(8, oid);
        self.put64(16, xid);
        self.put32(24, word);
        if self.bytes.len() >= 12 && self.bytes.len() % 4 == 0 {
            let sum = sum64(&self.bytes);
            self.put64(0, sum);
        }
    }
}

// A superblock that gives `stored` as the block size and `apart` with the number of descriptors.
fn zero(alloc: Global, size: usize, stored: u32, apart: u32) -> Result<Block, AllocError> {
    superblock(alloc, size, stored, apart, (1, 0, 2))
}

// A superblock of a transaction, with the index and the number of its checkpoint's descriptors.
fn superblock(
    alloc: Global,
    size: usize,
    stored: u32,
    apart: u32,
    checkpoint: (u64, u32, u32),
) -> Result<Block, AllocError> {
    let mut block = Block::new(alloc, size)?;
    put(&mut block.bytes, 32, b"NXSB");
    block.put32(36, stored);
    block.put64(40, 32);
    block.put64(64, 2);
    block.put32(104, 8 | apart);
    block.put32(108, 4);
    block.put64(112, 1);
    block.put64(120, 9);
    block.put32(136, checkpoint.1);
    block.put32(140, checkpoint.2);
    block.seal(1, checkpoint.0, SUPERBLOCK);
    Ok(block)
}

// A map in a block with one mapping: its size, its oid and its first block.
fn map(
    alloc: Global,
    size: usize,
    at: u64,
    xid: u64,
    mapping: (u32, u64, u64),
) -> Result<Block, AllocError> {
    let mut block = Block::new(alloc, size)?;
    block.put32(36, 1);
    block.put32(40, MANAGER);
    block.put32(48, mapping.0);
    block.put64(64, mapping.1);
    block.put64(72, mapping.2);
    block.seal(at, xid, MAP);
    Ok(block)
}

fn object(alloc: Global, size: usize, oid: u64, xid: u64) -> Result<Block, AllocError> {
    let mut block = Block::new(alloc, size)?;
    block.seal(oid, xid, MANAGER);
    Ok(block)
}

// What the second checkpoint has: by how much the size of its object of two blocks is too small, the oid and the block of its other
// object, the oid and the transaction that stand in that block, the index of its first descriptor, whether the object of two blocks has
// another one in its second half, and whether its first map is torn.
#[derive(Clone, Copy)]
struct Second {
    less: u32,
    oid: u64,
    paddr: u64,
    there: u64,
    xid: u64,
    start: u32,
    shared: bool,
    torn: bool,
}

const SOUND: Second = Second {
    less: 0,
    oid: 1025,
    paddr: 11,
    there: 1025,
    xid: 2,
    start: 2,
    shared: false,
    torn: false,
};

// An image in the making.
#[derive(Drop)]
struct Image {
    bytes: Vec<u8>,
    // The bytes of a block.
    size: u32,
}

impl Image {
    fn put(&mut self, block: usize, bytes: &[u8]) {
        put(
            &mut self.bytes,
            (self.size as usize).saturating_mul(block),
            bytes,
        );
    }

    fn put_block(&mut self, at: usize, block: Block) {
        self.put(at, &block.bytes);
    }

    // A checkpoint of transaction 1, with one map.
    fn first(&mut self, alloc: Global) -> Result<(), AllocError> {
        let stored = self.size;
        let size = stored as usize;
        self.put_block(0, zero(alloc, size, stored, 0)?);
        self.put_block(1, map(alloc, size, 1, 1, (stored, 1024, 10))?);
        self.put_block(2, zero(alloc, size, stored, 0)?);
        self.put_block(10, object(alloc, size, 1024, 1)?);
        Ok(())
    }

    // A checkpoint of transaction 2, with two maps.
    fn second(&mut self, alloc: Global, parts: &Second) -> Result<(), AllocError> {
        let stored = self.size;
        let size = stored as usize;
        let long = stored.saturating_mul(2).saturating_sub(parts.less);
        self.put_block(3, map(alloc, size, 3, 2, (long, 1024, 12))?);
        let mapping = (stored, parts.oid, parts.paddr);
        self.put_block(4, map(alloc, size, 4, 2, mapping)?);
        self.put_block(5, superblock(alloc, size, stored, 0, (2, parts.start, 3))?);
        self.put_block(11, object(alloc, size, parts.there, parts.xid)?);
        self.put_halves(long_object(alloc, size, parts.shared)?);
        Ok(())
    }

    // Eight candidates without maps, of these transactions; those of `broken` don't end at their superblocks.
    fn put_bare(&mut self, alloc: Global, xids: &[u64], broken: u64) -> Result<(), AllocError> {
        self.put_block(0, zero(alloc, 4096, 4096, 0)?);
        for index in 0u32..8 {
            let xid = xids.get(index as usize).copied().unwrap_or(0);
            let (start, blocks) = if xid == broken { (8, 0) } else { (index, 1) };
            let candidate = superblock(alloc, 4096, 4096, 0, (xid, start, blocks))?;
            self.put_block((index as usize).saturating_add(1), candidate);
        }
        Ok(())
    }

    // Four candidates, each behind its map. All map one object of four blocks.
    fn put_crowd(&mut self, alloc: Global) -> Result<(), AllocError> {
        self.put_block(0, zero(alloc, 4096, 4096, 0)?);
        for i in 0u32..4 {
            let at = (i as usize).saturating_mul(2).saturating_add(1);
            let xid = u64::from(i).saturating_add(2);
            self.put_block(at, map(alloc, 4096, at as u64, xid, (16384, 1024, 9))?);
            let candidate = superblock(alloc, 4096, 4096, 0, (xid, i.saturating_mul(2), 2))?;
            self.put_block(at.saturating_add(1), candidate);
        }
        Ok(())
    }

    // An object of two blocks, the first in block 12 and the second in block 9.
    fn put_halves(&mut self, object: Block) {
        let size = self.size as usize;
        self.put(12, object.bytes.get(..size).unwrap_or(&[]));
        self.put(9, object.bytes.get(size..).unwrap_or(&[]));
    }
}

// Puts what the second half of an object of two blocks has: where two mappings share a block, an object of its own.
fn put_second_half(
    alloc: Global,
    object_of_two: &mut Block,
    size: usize,
    shared: bool,
) -> Result<(), AllocError> {
    if shared {
        let shared = object(alloc, size, 1025, 2)?;
        put(&mut object_of_two.bytes, size, &shared.bytes);
    } else {
        put(&mut object_of_two.bytes, size, b"wrapped");
    }
    Ok(())
}

fn long_object(alloc: Global, size: usize, shared: bool) -> Result<Block, AllocError> {
    let mut both = Block::new(alloc, size.saturating_mul(2))?;
    put_second_half(alloc, &mut both, size, shared)?;
    both.seal(1024, 2, MANAGER);
    Ok(both)
}

fn rings(alloc: Global, size: u32, second: &Second) -> Result<Image, AllocError> {
    let bytes = vec![in alloc; 0u8; (size as usize).saturating_mul(32)]?;
    let mut image = Image { bytes, size };
    image.first(alloc)?;
    image.second(alloc, second)?;
    if second.torn {
        image.put(3, b"x");
    }
    Ok(image)
}

// A source of a ring, and the number of the read that fails, if any does.
fn ring_source(
    alloc: Global,
    size: u32,
    second: &Second,
    fails: u64,
) -> Result<MemSource, AllocError> {
    let image = rings(alloc, size, second)?;
    Ok(MemSource::new(image.bytes, vec![in alloc; fails]?))
}

// Each candidate's index, block, transaction, and the index and the number of its descriptors.
const CANDIDATES: &[(u32, u64, u64, u32, u32)] = &[(1, 2, 1, 0, 2), (4, 5, 2, 2, 3)];

// Whether these are the two candidates.
fn are_candidates(lines: &[RingLine]) -> bool {
    for (at, wanted) in lines.iter().zip(CANDIDATES) {
        if (at.index, at.block, at.xid, at.desc_index, at.desc_len) != *wanted {
            return false;
        }
    }
    lines.len() == CANDIDATES.len()
}

// The bytes of a block, and the reads.
const LIST_READS: &[(u32, u64)] = &[(4096, 9), (16384, 10), (65536, 10)];

// Whether the candidates of a ring are those two, and the reads.
fn listed(alloc: Global, size: u32) -> Result<(bool, u64), Stop<RingFault>> {
    let mut source = ring_source(alloc, size, &SOUND, 0)?;
    let lines = ring(alloc, &mut source)?;
    Ok((are_candidates(&lines), source.read_count()))
}

#[test]
fn lists_candidates_in_the_fewest_reads(rt: HostRuntime) {
    for (size, reads) in LIST_READS {
        assert!(rt; listed(rt.alloc(), *size) == Ok((true, *reads)), "{size}");
    }
}

// Whether this is the second checkpoint, of a ring with blocks of so many bytes.
fn is_second(checkpoint: &Checkpoint, size: u32) -> bool {
    let place = (checkpoint.xid(), checkpoint.block(), checkpoint.index());
    let counts = (
        checkpoint.maps(),
        checkpoint.mapped(),
        checkpoint.nx().block_count(),
    );
    place == (2, 5, 4)
        && counts == (2, 2, 32)
        && checkpoint.skipped().is_empty()
        && checkpoint.site().block_size == size
}

// Whether the second checkpoint has the object of two blocks, and doesn't have one of another id.
fn has_long_object(checkpoint: &Checkpoint, size: usize) -> bool {
    let object = checkpoint.object(1024).unwrap_or(&[]);
    object.len() == size.saturating_mul(2)
        && object.get(size).copied().unwrap_or(0) == b'w'
        && checkpoint.object_block(1024) == Some(12)
        && checkpoint.object_block(7) == None
}

// The bytes of a block, and the reads: block 0, the 8 descriptors, 2 maps and 3 blocks of objects; then the superblock and
// these 3 blocks again.
const NEWEST_READS: &[(u32, u64)] = &[(4096, 18), (16384, 19), (65536, 19)];

// Whether the newest checkpoint of a ring is the second one.
fn is_second_newest(
    alloc: Global,
    source: &mut MemSource,
    size: u32,
) -> Result<bool, Stop<RingFault>> {
    let checkpoint = newest(alloc, source)?;
    let second = is_second(&checkpoint, size) && has_long_object(&checkpoint, size as usize);
    drop(checkpoint);
    Ok(second)
}

fn taken(alloc: Global, size: u32) -> Result<(bool, u64), Stop<RingFault>> {
    let mut source = ring_source(alloc, size, &SOUND, 0)?;
    let second = is_second_newest(alloc, &mut source, size)?;
    Ok((second, source.read_count()))
}

#[test]
fn takes_the_newest_that_is_read_twice_and_the_older_not_at_all(rt: HostRuntime) {
    for (size, reads) in NEWEST_READS {
        assert!(rt; taken(rt.alloc(), *size) == Ok((true, *reads)), "{size}");
    }
}

// The index and the transaction of a checkpoint, and whether those that are skipped before it are those that were to be.
type Found = (u32, u64, bool);

// The newest checkpoint of a source.
fn found(
    alloc: Global,
    source: &mut MemSource,
    skipped: &[(u32, u64)],
) -> Result<Found, Stop<RingFault>> {
    let checkpoint = newest(alloc, source)?;
    let found = (
        checkpoint.index(),
        checkpoint.xid(),
        checkpoint.skipped() == skipped,
    );
    drop(checkpoint);
    Ok(found)
}

// The second checkpoint broken in some way.
macro_rules! but {
    ($($field:ident: $value:expr),+) => {
        Second { $($field: $value),+, ..SOUND }
    };
}

// How the second checkpoint is broken, once in each way: it ends elsewhere, its map is torn, an object isn't of whole blocks, is another
// one, lies outside the area, is mapped twice, shares a block, or is of another transaction.
const FLAWS: &[Second] = &[
    but!(start: 3),
    but!(torn: true),
    but!(less: 1),
    but!(there: 7),
    but!(paddr: 13),
    but!(oid: 1024, there: 1024),
    but!(paddr: 9, shared: true),
    but!(xid: 3),
];

// What is found where the second checkpoint has this, or a read fails.
fn found_with(
    alloc: Global,
    size: u32,
    second: &Second,
    fails: u64,
) -> Result<Found, Stop<RingFault>> {
    let mut source = ring_source(alloc, size, second, fails)?;
    found(alloc, &mut source, &[(4, 2)])
}

#[test]
fn takes_the_older_where_the_newer_is_broken(rt: HostRuntime) {
    for (i, second) in FLAWS.iter().enumerate() {
        assert!(rt;
            found_with(rt.alloc(), 4096, second, 0) == Ok((1, 1, true)),
            "flaw {i}"
        );
    }
}

// A block 0: the block size that it gives, the bit of an area that isn't contiguous, the bytes of the image that are
// kept, and what is answered.
type Zero = (u32, u32, usize, Stop<RingFault>);

// The bytes of the whole image.
const WHOLE: usize = 32 * 16384;

const WRONG: Stop<RingFault> = Stop::Found(RingFault::BlockZero);

const SHORT: Stop<RingFault> = Stop::Found(RingFault::Truncated { have: 31, need: 32 });

const APART: Stop<RingFault> = Stop::Unsupported {
    feature: Feature::NonContiguous,
    block: 0,
};

const ZEROS: &[Zero] = &[
    (16384, 0, 4095, WRONG),
    (16384, 0, 4096, WRONG),
    (12288, 0, WHOLE, WRONG),
    (16384, 0, WHOLE - 16384, SHORT),
    (16384, 0x8000_0000, WHOLE - 16384, SHORT),
    (16384, 0x8000_0000, WHOLE, APART),
];

// A source of a ring with this block 0, of which so many bytes are kept.
fn cut_ring(alloc: Global, stored: u32, bit: u32, kept: usize) -> Result<MemSource, AllocError> {
    let mut image = rings(alloc, 16384, &SOUND)?;
    image.put_block(0, zero(alloc, 16384, stored, bit)?);
    image.bytes.truncate(kept);
    Ok(MemSource::new(image.bytes, Vec::new(alloc)))
}

// Whether this is answered of both the ring and its newest checkpoint.
fn is_answered(alloc: Global, row: &Zero) -> Result<bool, AllocError> {
    let mut source = cut_ring(alloc, row.0, row.1, row.2)?;
    let listed = ring(alloc, &mut source).err();
    Ok(listed == Some(row.3) && newest(alloc, &mut source).err() == Some(row.3))
}

#[test]
fn the_first_test_that_fails_is_answered(rt: HostRuntime) {
    for (i, row) in ZEROS.iter().enumerate() {
        assert!(rt; is_answered(rt.alloc(), row) == Ok(true), "row {i}");
    }
}

// Reads that fail.
const READS: &[u64] = &[1, 2, 3, 12, 15, 16, 19];

#[test]
fn a_failed_read_stops_it(rt: HostRuntime) {
    for read in READS {
        assert!(rt;
            found_with(rt.alloc(), 16384, &SOUND, *read) == Err(Stop::ReadFault),
            "{read}"
        );
    }
}

// A ring of eight candidates without maps, of these transactions; those of `broken` don't end at their superblocks.
fn bare_ring(alloc: Global, xids: &[u64], broken: u64) -> Result<MemSource, AllocError> {
    let bytes = vec![in alloc; 0u8; 4096 * 32]?;
    let mut image = Image { bytes, size: 4096 };
    image.put_bare(alloc, xids, broken)?;
    Ok(MemSource::new(image.bytes, Vec::new(alloc)))
}

// Transactions, the one that is broken, those skipped, and the index and the transaction of the newest.
type Bare = (&'static [u64], u64, &'static [(u32, u64)], (u32, u64));

const BARE: &[Bare] = &[
    (&[3, 5, 5, 2, 5, 1, 4, 2], 9, &[], (1, 5)),
    (
        &[3, 5, 5, 2, 5, 1, 4, 2],
        5,
        &[(1, 5), (2, 5), (4, 5)],
        (6, 4),
    ),
    (&[7, 7, 7, 7, 7, 7, 7, 7], 9, &[], (0, 7)),
    (&[1, 2, 3, 9, 8, 8, 3, 9], 9, &[(3, 9), (7, 9)], (4, 8)),
];

// What is found in a bare ring, and the reads.
fn found_bare(alloc: Global, row: &Bare) -> Result<(Found, u64), Stop<RingFault>> {
    let mut source = bare_ring(alloc, row.0, row.1)?;
    let found = found(alloc, &mut source, row.2)?;
    Ok((found, source.read_count()))
}

// The reads are those of block 0, of the 8 descriptors, and of the superblock again.
#[test]
fn the_greatest_transaction_comes_first_and_then_the_least_index(rt: HostRuntime) {
    for (i, row) in BARE.iter().enumerate() {
        let (index, xid) = row.3;
        assert!(rt;
            found_bare(rt.alloc(), row) == Ok(((index, xid, true), 10)),
            "row {i}"
        );
    }
}

// Four candidates, each behind its map. All map the one object of four blocks that fills the data area, of which the oid
// or the last byte is wrong.
fn crowd(alloc: Global, oid: u64, last: u8) -> Result<MemSource, AllocError> {
    let bytes = vec![in alloc; 0u8; 4096 * 32]?;
    let mut image = Image { bytes, size: 4096 };
    image.put_crowd(alloc)?;
    let mut object = object(alloc, 16384, oid, 2)?;
    put(&mut object.bytes, 16383, &[last]);
    image.put_block(9, object);
    Ok(MemSource::new(image.bytes, Vec::new(alloc)))
}

// No candidate is sound.
const NO_CHECKPOINT: Stop<RingFault> = Stop::Found(RingFault::NoCheckpoint);

// The oid of the object, its last byte, what is found, and the reads: block 0, the 8 descriptors, 4 maps; the first block for each
// candidate, or the four blocks for the first. Where the object is sound, one map, its four blocks, then the superblock and the four
// blocks again.
type Crowd = (u64, u8, Result<Found, Stop<RingFault>>, u64);

const CROWDS: &[Crowd] = &[
    (7, 0, Err(NO_CHECKPOINT), 17),
    (1024, 1, Err(NO_CHECKPOINT), 17),
    (1024, 0, Ok((7, 5, true)), 19),
];

fn is_found(alloc: Global, row: &Crowd) -> Result<bool, AllocError> {
    let mut source = crowd(alloc, row.0, row.1)?;
    Ok(found(alloc, &mut source, &[]) == row.2 && source.read_count() == row.3)
}

#[test]
fn an_object_is_read_twice_or_to_its_first_flaw_and_once(rt: HostRuntime) {
    for (i, row) in CROWDS.iter().enumerate() {
        assert!(rt; is_found(rt.alloc(), row) == Ok(true), "row {i}");
    }
}
