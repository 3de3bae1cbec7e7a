// The bits of chunks against the ranges of owners, and their free counts.
//
// Tests: that the blocks of each chunk lie in ranges exactly where its bits are set, and that its free count is the number of the
// others. Gives: nothing. Rests on: the space, whose chunks lie by number, and ranges that lie one after the other.
ghost use Rattle.std.specs.Prelude.{◌≡◌, ◌≢◌, ◌+◌, ◌-◌, ◌*◌, ◌%◌, ◌≤◌, ◌<◌, ◌^◌, ℕ, List, Some, true, false, length, drop, OnOk, IfOk, OnErr, IfErr, IsErrOf};
ghost use Rattle.std.specs.Bool.{OnTrue};
ghost use Rattle.apfs_model.specs.Bytes.{bit_at};
ghost use Rattle.apfs_model.specs.Counts.{Rose};
ghost use Rattle.apfs_model.specs.Kept.{IsKept};
ghost use Rattle.bit_lanes.specs.Bits.{ones_below};
ghost use Rattle.apfs_model.specs.Blocks.{is_in, rounded_up};
ghost use Rattle.obj_base.specs.BlockSize as sizes;
ghost use Rattle.obj_base.specs.Site.{IsSiteFor};
ghost use Rattle.obj_base.specs.Stops.{Tells, NoFeature};
ghost use Rattle.obj_base.specs.declared.stop.Stop.TheVariants.{ReadFault, NoMemory};
ghost use Rattle.space_map.specs.Geometry.{chunk_len};
ghost use Rattle.space_map.specs.Tests.{share};
ghost use Rattle.space_map.specs.Stops.{known_of};
ghost use Rattle.own_ledger.specs.Held.{holds, lies_in};
ghost use Rattle.reach_rules.specs.Settled.{is_held};
ghost use Rattle.own_settle.specs.Agreed.{IsAgreed, IsAgreeFault, told_of, first_of, IsChunkAgreed, IsChunkFault, IsOfChunk};
ghost use Rattle.own_settle.specs.InOrder.{AreInOrder, AreAlikeFrom};

use bit_lanes::{count_ones, is_set};
use blk_source::BlockSource;
use obj_base::{Site, Stop};
use own_ledger::{Difference, Ledger};
use reach_rules::ReachFault;
use space_map::Space;

// How many of the first so many bits are set.
fn ones_in(bits: &[u8], count: usize) -> usize
    requires inside { count ≤ 8 * length bits.now }
    requires short { length bits.now ≤ 65536 }
    ensures value { result ≡ ones_below bits.now count }
    ensures few { result ≤ count }
{
    let whole = count / 8;
    let mut ones = count_ones(&bits[..whole]) as usize;
    'rest: for place in 8 * whole..count {
        if is_set(bits, place) {
            ones += 1;
        }
    }
    ones
}

// What a difference says of a block of the container.
fn told(difference: Difference) -> ReachFault
    ensures { result ≡ told_of difference }
{
    if difference.held {
        ReachFault::Missing {
            block: difference.block,
        }
    } else {
        ReachFault::Leaked {
            block: difference.block,
        }
    }
}

// Whether the bits of the chunk of a number, of so many blocks from a first on, say what a ledger holds, and its free count
// what they say. Bits past the blocks don't count.
fn agree(
    ledger: &Ledger,
    number: u64,
    first: u64,
    blocks: u64,
    free: u32,
    bits: &[u8],
) -> Result<(), ReachFault>
    requires inside { lies_in ledger.now first blocks ≡ true }
    requires whole { (first - ledger.now.first) % 8 ≡ 0 }
    requires long { blocks ≤ 8 * length bits.now }
    requires short { length bits.now ≤ 65536 }
    ensures clear { OnOk result (IsAgreed (bit_at bits.now) (holds ledger.now) first blocks free) }
    ensures present { IfErr result (IsAgreeFault (bit_at bits.now) (holds ledger.now) number first blocks free) }
{
    if let Some(difference) = ledger.compare(first, blocks, bits) {
        return Err(told(difference));
    }
    let ones = ones_in(bits, blocks as usize) as u64;
    if u64::from(free) + ones != blocks {
        return Err(ReachFault::FreeCount { chunk: number });
    }
    Ok(())
}

// The blocks of the chunk of a number: the first, and how many.
fn chunk_range(site: &Site, number: u64) -> (u64, u64)
    requires accepted { sizes.is_accepted site.now.block_size ≡ true }
    requires low { number < rounded_up site.now.blocks (chunk_len site.now.block_size) }
    ensures first { result.0 ≡ number * chunk_len site.now.block_size }
    ensures blocks { result.1 ≡ share site.now.blocks (chunk_len site.now.block_size) number }
    ensures inside { result.0 + result.1 ≤ site.now.blocks }
    ensures whole { result.0 % 8 ≡ 0 }
{
    let len = 8 * u64::from(site.block_size);
    let first = number * len;
    (first, len.min(site.blocks - first))
}

// Holds the blocks of ranges that lie in a ledger that holds none, which ends at a block. Gives how many of the ranges, which lie
// one after the other, end by there.
fn fill(ledger: &mut Ledger, ranges: &[(u64, u64)], end: u64) -> usize
    requires empty { (block : ℕ) → holds ledger.old block ≡ false }
    requires end { end ≡ ledger.old.first + ledger.old.blocks }
    requires order { AreInOrder 0 (2 ^ 64) ranges.now }
    ensures first { ledger.new.first ≡ ledger.old.first }
    ensures blocks { ledger.new.blocks ≡ ledger.old.blocks }
    ensures held { (block : ℕ) → is_in block ledger.old.first ledger.old.blocks ≡ true → holds ledger.new block ≡ is_held ranges.now block }
    ensures done { result ≤ length ranges.now }
    ensures left { AreAlikeFrom end (drop result ranges.now) ranges.now }
{
    'each: for place in 0..ranges.len() {
        let (first, length) = ranges[place];
        if first >= end {
            return place;
        }
        ledger.hold(first, length);
        if length > end - first {
            return place;
        }
    }
    ranges.len()
}

// Whether no range, of some that lie one after the other, begins before a block.
fn begin_from(ranges: &[(u64, u64)], end: u64) -> bool
    requires { AreInOrder 0 (2 ^ 64) ranges.now }
    ensures { OnTrue result ((block : ℕ) → block < end → is_held ranges.now block ≡ false) }
{
    match ranges.first() {
        Some(range) => end <= range.0,
        None => true,
    }
}

// Whether the chunk of a number agrees with ranges, by a ledger of as many blocks as a chunk has. Gives how many of the ranges, which
// lie one after the other, end by the chunk's end.
fn settle_marked<S: BlockSource>(
    src: &mut S,
    space: &Space,
    ranges: &[(u64, u64)],
    ledger: &mut Ledger,
    number: usize,
    bits: &mut [u8],
) -> Result<usize, Stop<ReachFault>>
    requires site { IsSiteFor space.now.site (S.bytes_len src.old) }
    requires few { space.now.site.blocks ≤ 2 ^ 63 }
    requires low { number < length space.now.chunks }
    requires long { length bits.old ≡ space.now.site.block_size }
    requires order { AreInOrder 0 (2 ^ 64) ranges.now }
    requires blocks { ledger.old.blocks ≡ chunk_len space.now.site.block_size }
    ensures clear { (image : List ℕ) → S.bytes src.old ≡ Some image → space.now ≡ known_of image space.now.site space.now.manager → OnOk result (IsChunkAgreed image space.now (is_held ranges.now) number) }
    ensures present { (image : List ℕ) → S.bytes src.old ≡ Some image → space.now ≡ known_of image space.now.site space.now.manager → IfErr result (Tells (IsChunkFault image space.now (is_held ranges.now) number) NoFeature) }
    ensures done { IfOk result (λ done. done ≤ length ranges.now) }
    ensures left { IfOk result (λ done. AreAlikeFrom (first_of space.now (number + 1)) (drop done ranges.now) ranges.now) }
    ensures blocks { ledger.new.blocks ≡ ledger.old.blocks }
    ensures cause { IsErrOf result ReadFault → Rose (S.faults src.old) (S.faults src.new) }
    ensures kept { IsKept S.bytes S.bytes_len S.faults src.old src.new }
    ensures reads { S.reads src.new ≤ S.reads src.old + 1 }
{
    let free = space.chunks()[number].free;
    let site = space.site();
    let (first, blocks) = chunk_range(&site, number as u64);
    ledger.restart(first);
    let done = fill(ledger, ranges, first + 8 * u64::from(site.block_size));
    space.bitmap(src, number, bits)?;
    match agree(ledger, number as u64, first, blocks, free, bits) {
        Ok(()) => Ok(done),
        Err(fault) => Err(Stop::Found(fault)),
    }
}

// The same; a chunk without a bitmap and without a block of a range takes no time for its blocks.
fn settle_chunk<S: BlockSource>(
    src: &mut S,
    space: &Space,
    ranges: &[(u64, u64)],
    ledger: &mut Ledger,
    number: usize,
    bits: &mut [u8],
) -> Result<usize, Stop<ReachFault>>
    requires site { IsSiteFor space.now.site (S.bytes_len src.old) }
    requires few { space.now.site.blocks ≤ 2 ^ 63 }
    requires low { number < length space.now.chunks }
    requires long { length bits.old ≡ space.now.site.block_size }
    requires order { AreInOrder 0 (2 ^ 64) ranges.now }
    requires blocks { ledger.old.blocks ≡ chunk_len space.now.site.block_size }
    ensures clear { (image : List ℕ) → S.bytes src.old ≡ Some image → space.now ≡ known_of image space.now.site space.now.manager → OnOk result (IsChunkAgreed image space.now (is_held ranges.now) number) }
    ensures present { (image : List ℕ) → S.bytes src.old ≡ Some image → space.now ≡ known_of image space.now.site space.now.manager → IfErr result (Tells (IsChunkFault image space.now (is_held ranges.now) number) NoFeature) }
    ensures done { IfOk result (λ done. done ≤ length ranges.now) }
    ensures left { IfOk result (λ done. AreAlikeFrom (first_of space.now (number + 1)) (drop done ranges.now) ranges.now) }
    ensures blocks { ledger.new.blocks ≡ ledger.old.blocks }
    ensures cause { IsErrOf result ReadFault → Rose (S.faults src.old) (S.faults src.new) }
    ensures kept { IsKept S.bytes S.bytes_len S.faults src.old src.new }
    ensures reads { S.reads src.new ≤ S.reads src.old + 1 }
{
    let chunk = space.chunks()[number];
    let (first, blocks) = chunk_range(&space.site(), number as u64);
    if chunk.bitmap != 0 || !begin_from(ranges, first + blocks) {
        return settle_marked(src, space, ranges, ledger, number, bits);
    }
    if u64::from(chunk.free) != blocks {
        return Err(Stop::Found(ReachFault::FreeCount {
            chunk: number as u64,
        }));
    }
    Ok(0)
}

/// Whether all chunks agree with ranges that lie one after the other, by the bits of one chunk and a ledger of one. Each takes one
/// read at most.
pub(crate) fn settle_chunks<S: BlockSource>(
    src: &mut S,
    space: &Space,
    ranges: &[(u64, u64)],
    ledger: &mut Ledger,
    bits: &mut [u8],
) -> Result<(), Stop<ReachFault>>
    requires site { IsSiteFor space.now.site (S.bytes_len src.old) }
    requires few { space.now.site.blocks ≤ 2 ^ 63 }
    requires order { AreInOrder 0 (2 ^ 64) ranges.now }
    requires blocks { ledger.old.blocks ≡ chunk_len space.now.site.block_size }
    requires long { length bits.old ≡ space.now.site.block_size }
    ensures clear { (image : List ℕ) → S.bytes src.old ≡ Some image → space.now ≡ known_of image space.now.site space.now.manager → OnOk result ((k : ℕ) → k < length space.now.chunks → IsChunkAgreed image space.now (is_held ranges.now) k) }
    ensures present { (image : List ℕ) → S.bytes src.old ≡ Some image → space.now ≡ known_of image space.now.site space.now.manager → IfErr result (Tells (IsOfChunk image space.now (is_held ranges.now)) NoFeature) }
    ensures cause { IsErrOf result ReadFault → Rose (S.faults src.old) (S.faults src.new) }
    ensures kept { IsKept S.bytes S.bytes_len S.faults src.old src.new }
    ensures reads { S.reads src.new ≤ S.reads src.old + length space.now.chunks }
{
    let mut done = 0;
    'each: for number in 0..space.chunks().len() {
        let (_, left) = ranges.split_at(done);
        match settle_chunk(src, space, left, ledger, number, bits) {
            Ok(more) => done += more,
            Err(stop) => return Err(stop),
        }
    }
    Ok(())
}
