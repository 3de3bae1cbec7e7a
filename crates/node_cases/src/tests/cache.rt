// What no clause says: that blocks are kept where there is memory.
ghost use Rattle.std.specs.Prelude.{◌<◌};

use blk_cache::Cached;
use blk_source::{BlockSource, MemSource, SureSource};
use std::alloc::{AllocError, Global};
use std::process::Abort;

// So many bytes.
fn bytes(alloc: Global, count: u32) -> Result<Vec<u8>, AllocError> {
    let mut bytes = Vec::new(alloc);
    for i in 0..count {
        bytes.push((i / 7 % 251) as u8)?;
    }
    Ok(bytes)
}

// The image has four blocks of 4,096 bytes, and a short one.
const SIZE: u32 = 20_000;

fn image(alloc: Global) -> Result<Vec<u8>, AllocError> {
    bytes(alloc, SIZE)
}

// A cache of so many blocks over a source of so many bytes.
fn cached(rt: &impl Abort, alloc: Global, count: u32, capacity: usize) -> Cached<SureSource>
    requires { 0 < capacity }
{
    let bytes = bytes(alloc, count).ok().expect(rt, "memory");
    Cached::new(alloc, SureSource::new(bytes), 4096, capacity)
        .ok()
        .expect(rt, "memory")
}

// The bytes of a source from a place on.
fn piece<S: BlockSource>(
    alloc: Global,
    source: &mut S,
    at: u16,
    len: u16,
) -> Result<Vec<u8>, &'static str> {
    let mut into = vec![in alloc; 0u8; len as usize].or(Err("no memory"))?;
    if len == 0 || source.size() < at as u64 + len as u64 {
        return Err("out of range");
    }
    source.read_at(at as u64, &mut into).or(Err("no read"))?;
    Ok(into)
}

// Pieces of the image: within a block, over two, of all five, twice the same, at its end.
const PIECES: &[(u16, u16)] = &[
    (0, 16),
    (4000, 200),
    (0, 20_000),
    (8192, 4096),
    (8192, 4096),
    (19_999, 1),
    (16_000, 4000),
];

// Whether a source has a piece of an image.
fn has_piece<S: BlockSource>(
    alloc: Global,
    image: &[u8],
    source: &mut S,
    at: u16,
    len: u16,
) -> Result<bool, &'static str> {
    let start = at as usize;
    let bytes = piece(alloc, source, at, len)?;
    Ok(Some(bytes.as_slice()) == image.get(start..start + len as usize))
}

// Whether a source has the bytes of an image in each of the pieces.
fn has_pieces<S: BlockSource>(
    alloc: Global,
    image: &[u8],
    source: &mut S,
) -> Result<bool, &'static str> {
    for (at, len) in PIECES {
        if !has_piece(alloc, image, source, *at, *len)? {
            return Ok(false);
        }
    }
    Ok(true)
}

// Whether of some blocks those are kept that are marked.
fn keeps(cached: &Cached<SureSource>, blocks: &[(u64, bool)]) -> bool {
    for (block, kept) in blocks {
        if cached.kept(*block) != *kept {
            return false;
        }
    }
    true
}

// Asserts that a cache gives the image, and what it keeps after those pieces.
fn assert_cache(rt: &impl Abort, alloc: Global, capacity: usize, blocks: &[(u64, bool)])
    requires { 0 < capacity }
{
    let image = image(alloc).ok().expect(rt, "memory");
    let mut cached = cached(rt, alloc, SIZE, capacity);
    assert!(rt; has_pieces(alloc, &image, &mut cached) == Ok(true) && keeps(&cached, blocks));
    drop(cached);
}

// What a small and a large cache keep after those pieces. Block 3 is never the last one that a piece touches.
const SMALL_KEEPS: &[(u64, bool)] = &[(4, true), (0, false)];

const LARGE_KEEPS: &[(u64, bool)] = &[(0, true), (3, false)];

#[test]
fn a_small_and_a_large_cache_give_the_same_bytes(rt: HostRuntime) {
    assert_cache(&rt, rt.alloc(), 3, SMALL_KEEPS);
    assert_cache(&rt, rt.alloc(), 256, LARGE_KEEPS);
}

// Whether pieces are read, and how often the source inside then was.
fn reads(alloc: Global, image: &[u8], cached: &mut Cached<MemSource>) -> (bool, u64, u64) {
    let read = has_pieces(alloc, image, cached) == Ok(true);
    (read, cached.inner().read_count(), cached.lost())
}

// Whether the source inside, of which the second read is refused, is read as often as it should be.
fn is_read(alloc: Global, image: &[u8], cached: &mut Cached<MemSource>) -> bool {
    let first = piece(alloc, cached, 0, 4096).is_ok();
    let second = piece(alloc, cached, 4090, 10).is_ok();
    (first, second, cached.kept(0), cached.kept(1)) == (true, false, true, false)
        // After block 0 and the read that is refused: block 1, blocks 2 and 3 at once, 4, 2, and what is asked of 3.
        && reads(alloc, image, cached) == (true, 7, 0)
        // Block 3 alone isn't kept, and two pieces touch it.
        && reads(alloc, image, cached) == (true, 9, 0)
}

#[test]
fn what_is_kept_is_not_read_again(rt: HostRuntime) {
    let alloc = rt.alloc();
    let bytes = image(alloc).ok().expect(&rt, "memory");
    let fails = vec![in alloc; 2].ok().expect(&rt, "memory");
    let source = MemSource::new(image(alloc).ok().expect(&rt, "memory"), fails);
    let mut cached = Cached::new(alloc, source, 4096, 256)
        .ok()
        .expect(&rt, "memory");
    assert!(rt; is_read(alloc, &bytes, &mut cached));
    assert!(rt; cached.into_inner().fault_count() == 1);
}

// Two nodes, and contents whose last blocks are 3, 5 and 8.
const NODES_AND_CONTENTS: &[(u16, u16)] = &[
    (0, 4096),
    (4096, 4096),
    (8192, 8192),
    (16_384, 8192),
    (24_576, 12_288),
];

// What is kept after them, and after a third node, which takes the place of contents.
const KEPT: &[(u64, bool)] = &[(0, true), (1, true), (3, false), (5, false), (8, true)];

const KEPT_AFTER_A_NODE: &[(u64, bool)] = &[(0, true), (1, true), (2, true), (8, false)];

// Whether a cache keeps what it should after these, and after a third node.
fn pushes_out_one(alloc: Global, cached: &mut Cached<SureSource>) -> bool {
    for (at, len) in NODES_AND_CONTENTS {
        if piece(alloc, cached, *at, *len).is_err() {
            return false;
        }
    }
    keeps(cached, KEPT)
        && piece(alloc, cached, 8192, 4096).is_ok()
        && keeps(cached, KEPT_AFTER_A_NODE)
}

#[test]
fn reads_of_several_blocks_push_out_one_block_at_most(rt: HostRuntime) {
    let mut cached = cached(&rt, rt.alloc(), 36_864, 3);
    assert!(rt; pushes_out_one(rt.alloc(), &mut cached));
    drop(cached);
}
