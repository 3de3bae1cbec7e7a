// Reading the bytes of a stream from the source.
ghost use Rattle.std.specs.Prelude.{◌≡◌, ◌+◌, ◌<◌, ◌≤◌, ℕ, List, Some, false, length, take, replicate, OnOk, OnErr, IfOk};
ghost use Rattle.fs_record.specs.StreamExtents.{is_hole};
ghost use Rattle.apfs_model.specs.Counts.{Rose};
ghost use Rattle.apfs_model.specs.Kept.{IsKept};
ghost use Rattle.obj_base.specs.Site.{IsSiteFor};
ghost use Rattle.file_extent.specs.Streams.{bytes_from};
ghost use Rattle.file_extent.specs.Laid.{AreLaid, IsPart};

use crate::search::part_at;
use blk_source::{BlockSource, ReadFailed};
use fs_record::FileExt;
use obj_base::Site;

// The most bytes that a source is asked for at once.
const MOST: usize = 65536;

// How many bytes are read at once, of those that a part of a stream has and those that are wanted.
fn few(left: u64, wanted: usize) -> usize
    requires left { 0 < left }
    requires wanted { 0 < wanted }
    ensures some { 0 < result }
    ensures left { result ≤ left }
    ensures wanted { result ≤ wanted }
    ensures short { result ≤ 65536 }
{
    let most = wanted.min(MOST);
    if left < most as u64 {
        left as usize
    } else {
        most
    }
}

// Puts zeros over the whole of a piece.
fn zero(into: &mut [u8])
    ensures { into.new ≡ replicate (length into.old) 0 }
{
    into.fill(0);
}

// Puts the bytes of an extent that has blocks, from byte `i` of its stream on, over the whole of `into`, with one read.
fn put_run<S: BlockSource>(
    src: &mut S,
    site: &Site,
    extents: &[FileExt],
    i: u64,
    extent: &FileExt,
    into: &mut [u8],
) -> Result<(), ReadFailed>
    requires site { IsSiteFor site.now (S.bytes_len src.old) }
    requires laid { AreLaid site.now extents.now }
    requires part { IsPart extents.now i (Some extent.now) (length into.old) }
    requires solid { is_hole extent.now ≡ false }
    requires short { length into.old ≤ 65536 }
    ensures found { (image : List ℕ) → S.bytes src.old ≡ Some image → OnOk result (into.new ≡ bytes_from site.now.block_size image extents.now i (length into.old)) }
    ensures cause { OnErr result (Rose (S.faults src.old) (S.faults src.new)) }
    ensures kept { IsKept S.bytes S.bytes_len S.faults src.old src.new }
{
    let _size = src.size();
    let first = site.block_size as u64 * extent.block;
    match src.read_at(first + (i - extent.logical), into) {
        Ok(()) => Ok(()),
        Err(failed) => Err(failed),
    }
}

// Puts the bytes of a part of a stream, from byte `i` on, over the whole of `into`.
fn put<S: BlockSource>(
    src: &mut S,
    site: &Site,
    extents: &[FileExt],
    i: u64,
    extent: Option<FileExt>,
    into: &mut [u8],
) -> Result<(), ReadFailed>
    requires site { IsSiteFor site.now (S.bytes_len src.old) }
    requires laid { AreLaid site.now extents.now }
    requires part { IsPart extents.now i extent (length into.old) }
    requires short { length into.old ≤ 65536 }
    ensures found { (image : List ℕ) → S.bytes src.old ≡ Some image → OnOk result (into.new ≡ bytes_from site.now.block_size image extents.now i (length into.old)) }
    ensures cause { OnErr result (Rose (S.faults src.old) (S.faults src.new)) }
    ensures kept { IsKept S.bytes S.bytes_len S.faults src.old src.new }
{
    let Some(extent) = extent else {
        zero(into);
        return Ok(());
    };
    if extent.block == 0 {
        zero(into);
        return Ok(());
    }
    match put_run(src, site, extents, i, &extent, into) {
        Ok(()) => Ok(()),
        Err(failed) => Err(failed),
    }
}

// Puts bytes of a stream, which starts at byte `from` of it in `into`, after the `done` that are there: how many are there
// then.
fn next<S: BlockSource>(
    src: &mut S,
    site: &Site,
    extents: &[FileExt],
    from: u64,
    done: usize,
    into: &mut [u8],
) -> Result<usize, ReadFailed>
    requires site { IsSiteFor site.now (S.bytes_len src.old) }
    requires laid { AreLaid site.now extents.now }
    requires some { done < length into.old }
    requires fits { from + length into.old < 18446744073709551616 }
    ensures done { IfOk result (λ n. (done < n) × (n ≤ length into.old)) }
    ensures found { (image : List ℕ) → S.bytes src.old ≡ Some image → take done into.old ≡ bytes_from site.now.block_size image extents.now from done → IfOk result (λ n. take n into.new ≡ bytes_from site.now.block_size image extents.now from n) }
    ensures cause { OnErr result (Rose (S.faults src.old) (S.faults src.new)) }
    ensures kept { IsKept S.bytes S.bytes_len S.faults src.old src.new }
{
    let i = from + done as u64;
    let part = part_at(extents, i);
    let len = few(part.left, into.len() - done);
    put(
        src,
        site,
        extents,
        i,
        part.extent,
        &mut into[done..done + len],
    )?;
    Ok(done + len)
}

/// Puts the bytes of a stream, from byte `from` on, over the whole of `into`: one search and one read for each run of
/// blocks. Takes no memory.
pub(crate) fn fill<S: BlockSource>(
    src: &mut S,
    site: &Site,
    extents: &[FileExt],
    from: u64,
    into: &mut [u8],
) -> Result<(), ReadFailed>
    requires site { IsSiteFor site.now (S.bytes_len src.old) }
    requires laid { AreLaid site.now extents.now }
    requires fits { from + length into.old < 18446744073709551616 }
    ensures found { (image : List ℕ) → S.bytes src.old ≡ Some image → OnOk result (into.new ≡ bytes_from site.now.block_size image extents.now from (length into.old)) }
    ensures cause { OnErr result (Rose (S.faults src.old) (S.faults src.new)) }
    ensures kept { IsKept S.bytes S.bytes_len S.faults src.old src.new }
{
    let mut done = 0;
    while done < into.len() {
        done = next(src, site, extents, from, done, into)?;
    }
    Ok(())
}
