// Reading the parts of a read, each within one block.
ghost use Rattle.std.specs.Prelude.{◌≡◌, ◌⊎◌, ◌+◌, ◌-◌, ◌*◌, ◌/◌, ◌%◌, ◌≤◌, ◌<◌, ℕ, List, Some, None, true, false, length, min, take, OnOk, OnErr, IfOk};
ghost use Rattle.apfs_model.specs.Counts.{one_more, Rose};
ghost use Rattle.apfs_model.specs.Source.{Copies};
ghost use Rattle.apfs_model.specs.Kept.{IsKept};
ghost use Rattle.blk_cache.specs.Keeping.{keeps, Touches, last_touched, touched_count, IsCache, Grows, IsSame, IsReordered};

use crate::store::Store;
use blk_source::{BlockSource, ReadFailed};
use std::alloc::Global;

// Reads as many bytes as a buffer has, from a place on, into it.
fn fetch<S: BlockSource>(inner: &mut S, at: u64, buffer: Vec<u8>) -> Result<Vec<u8>, ReadFailed>
    requires some { 1 ≤ length buffer.items }
    requires short { length buffer.items ≤ 65536 }
    requires inside { at + length buffer.items ≤ S.bytes_len inner.old }
    ensures found { (image : List ℕ) → S.bytes inner.old ≡ Some image → IfOk result (λ bytes. Copies image at bytes.items) }
    ensures long { IfOk result (λ bytes. length bytes.items ≡ length buffer.items) }
    ensures cause { OnErr result (Rose (S.faults inner.old) (S.faults inner.new)) }
    ensures kept { IsKept S.bytes S.bytes_len S.faults inner.old inner.new }
    ensures reads { S.reads inner.new ≤ S.reads inner.old + 1 }
{
    let mut bytes = buffer;
    inner.read_at(at, &mut bytes)?;
    Ok(bytes)
}

// Reads a part of a block that isn't kept, and keeps the block where there is memory.
fn fill<S: BlockSource>(
    alloc: Global,
    inner: &mut S,
    store: &mut Store,
    block: u64,
    from: usize,
    into: &mut [u8],
) -> Result<(), ReadFailed>
    requires cache { IsCache S.bytes S.bytes_len inner.old store.old }
    requires lacks { keeps store.old block ≡ false }
    requires some { 1 ≤ length into.old }
    requires inside { store.old.size * block + from + length into.old ≤ S.bytes_len inner.old }
    requires within { from + length into.old ≤ store.old.size }
    ensures found { (image : List ℕ) → S.bytes inner.old ≡ Some image → OnOk result (Copies image (store.old.size * block + from) into.new) }
    ensures cause { OnErr result (Rose (S.faults inner.old) (S.faults inner.new)) }
    ensures kept { IsKept S.bytes S.bytes_len S.faults inner.old inner.new }
    ensures cache { IsCache S.bytes S.bytes_len inner.new store.new }
    ensures grows { Grows store.old store.new }
    ensures last { OnOk result ((keeps store.new block ≡ true) ⊎ Rose store.old.lost store.new.lost) }
    ensures counted { keeps store.new block ≡ true → store.new.lost ≡ store.old.lost }
    ensures reads { S.reads inner.new ≤ S.reads inner.old + 1 }
{
    let size = store.size as u64;
    let end = inner.size();
    let first = size * block;
    let len = size.min(end - first) as usize;
    match vec![in alloc; 0u8; len] {
        Ok(buffer) => {
            let bytes = fetch(inner, first, buffer)?;
            into.copy_from_slice(&bytes[from..from + into.len()]);
            store.keep(block, bytes);
            Ok(())
        }
        Err(_) => {
            store.lose();
            inner.read_at(first + from as u64, into)
        }
    }
}

// Reads a part of a block, which is kept afterwards where there is memory.
fn part<S: BlockSource>(
    alloc: Global,
    inner: &mut S,
    store: &mut Store,
    at: u64,
    into: &mut [u8],
) -> Result<(), ReadFailed>
    requires cache { IsCache S.bytes S.bytes_len inner.old store.old }
    requires some { 1 ≤ length into.old }
    requires inside { at + length into.old ≤ S.bytes_len inner.old }
    requires within { at % store.old.size + length into.old ≤ store.old.size }
    ensures found { (image : List ℕ) → S.bytes inner.old ≡ Some image → OnOk result (Copies image at into.new) }
    ensures cause { OnErr result (Rose (S.faults inner.old) (S.faults inner.new)) }
    ensures kept { IsKept S.bytes S.bytes_len S.faults inner.old inner.new }
    ensures cache { IsCache S.bytes S.bytes_len inner.new store.new }
    ensures grows { Grows store.old store.new }
    ensures last { OnOk result ((keeps store.new (at / store.old.size) ≡ true) ⊎ Rose store.old.lost store.new.lost) }
    ensures counted { keeps store.new (at / store.old.size) ≡ true → store.new.lost ≡ store.old.lost }
    ensures served { keeps store.old (at / store.old.size) ≡ true → (S.reads inner.new ≡ S.reads inner.old) × IsSame store.old store.new }
    ensures reads { S.reads inner.new ≤ S.reads inner.old + 1 }
{
    let size = store.size as u64;
    let block = at / size;
    let from = (at % size) as usize;
    if store.serve(block, from, into) {
        return Ok(());
    }
    fill(alloc, inner, store, block, from, into)
}

// How many of the bytes that are left lie in the block in which a place lies.
fn part_len(size: u32, at: u64, left: usize) -> usize
    requires size { 1 ≤ size }
    requires left { 1 ≤ left }
    ensures some { 1 ≤ result }
    ensures few { result ≤ left }
    ensures within { at % size + result ≤ size }
    ensures rest { (result ≡ left) ⊎ (at % size + result ≡ size) }
{
    let rest = size as u64 - at % size as u64;
    left.min(rest as usize)
}

// Reads the part of a piece that follows the bytes that are there, up to the end of its block: how many are there then.
fn next<S: BlockSource>(
    alloc: Global,
    inner: &mut S,
    store: &mut Store,
    at: u64,
    done: usize,
    into: &mut [u8],
) -> Result<usize, ReadFailed>
    requires cache { IsCache S.bytes S.bytes_len inner.old store.old }
    requires some { done < length into.old }
    requires inside { at + length into.old ≤ S.bytes_len inner.old }
    ensures done { IfOk result (λ n. (done < n) × (n ≤ length into.old)) }
    ensures found { (image : List ℕ) → S.bytes inner.old ≡ Some image → Copies image at (take done into.old) → IfOk result (λ n. Copies image at (take n into.new)) }
    ensures cause { OnErr result (Rose (S.faults inner.old) (S.faults inner.new)) }
    ensures kept { IsKept S.bytes S.bytes_len S.faults inner.old inner.new }
    ensures cache { IsCache S.bytes S.bytes_len inner.new store.new }
    ensures grows { Grows store.old store.new }
    ensures last { IfOk result (λ n. (keeps store.new (last_touched store.old.size at n) ≡ true) ⊎ Rose store.old.lost store.new.lost) }
    ensures served { keeps store.old ((at + done) / store.old.size) ≡ true → (S.reads inner.new ≡ S.reads inner.old) × IsSame store.old store.new }
    ensures reads { S.reads inner.new ≤ S.reads inner.old + 1 }
    ensures onward { IfOk result (λ n. n < length into.old → (at + n) / store.old.size ≡ (at + done) / store.old.size + 1) }
{
    let _size = inner.size();
    let from = at + done as u64;
    let len = part_len(store.size, from, into.len() - done);
    part(alloc, inner, store, from, &mut into[done..done + len])?;
    Ok(done + len)
}

// The first block of those from one on that is kept, or the last of them where none before it is.
fn first_kept(store: &Store, first: u64, last: u64) -> u64
    requires { first ≤ last }
    ensures inside { (first ≤ result) × (result ≤ last) }
    ensures lacks { (k : ℕ) → first ≤ k → k < result → keeps store.now k ≡ false }
{
    for block in first..last {
        if store.has(block) {
            return block;
        }
    }
    last
}

// How many of the bytes that are left are read past the cache: those of the blocks before the first one that is kept, and
// none of the last block.
fn past_len(store: &Store, at: u64, left: usize) -> usize
    requires size { 1 ≤ store.now.size }
    requires left { 1 ≤ left }
    requires fits { at + left < 18446744073709551616 }
    ensures few { result < left }
    ensures lacks { 0 < result → keeps store.now (at / store.now.size) ≡ false }
    ensures onward { 0 < result → at / store.now.size + 1 ≤ (at + result) / store.now.size }
{
    let size = store.size as u64;
    let last = (at + (left as u64 - 1)) / size;
    let stop = first_kept(store, at / size, last);
    (stop * size).saturating_sub(at) as usize
}

// Reads so many bytes of a piece past the cache, after the bytes that are there, with one read: how many are there then.
fn pass<S: BlockSource>(
    inner: &mut S,
    at: u64,
    done: usize,
    len: usize,
    into: &mut [u8],
) -> Result<usize, ReadFailed>
    requires some { 1 ≤ len }
    requires within { done + len ≤ length into.old }
    requires short { length into.old ≤ 65536 }
    requires inside { at + length into.old ≤ S.bytes_len inner.old }
    ensures done { IfOk result (λ n. n ≡ done + len) }
    ensures found { (image : List ℕ) → S.bytes inner.old ≡ Some image → Copies image at (take done into.old) → IfOk result (λ n. Copies image at (take n into.new)) }
    ensures cause { OnErr result (Rose (S.faults inner.old) (S.faults inner.new)) }
    ensures kept { IsKept S.bytes S.bytes_len S.faults inner.old inner.new }
    ensures reads { S.reads inner.new ≤ S.reads inner.old + 1 }
{
    let _size = inner.size();
    inner.read_at(at + done as u64, &mut into[done..done + len])?;
    Ok(done + len)
}

// Reads more of a piece: a run of blocks that aren't kept past the cache, or a part of one block through it.
fn step<S: BlockSource>(
    alloc: Global,
    inner: &mut S,
    store: &mut Store,
    at: u64,
    done: usize,
    into: &mut [u8],
) -> Result<usize, ReadFailed>
    requires cache { IsCache S.bytes S.bytes_len inner.old store.old }
    requires some { done < length into.old }
    requires short { length into.old ≤ 65536 }
    requires inside { at + length into.old ≤ S.bytes_len inner.old }
    ensures done { IfOk result (λ n. (done < n) × (n ≤ length into.old)) }
    ensures found { (image : List ℕ) → S.bytes inner.old ≡ Some image → Copies image at (take done into.old) → IfOk result (λ n. Copies image at (take n into.new)) }
    ensures cause { OnErr result (Rose (S.faults inner.old) (S.faults inner.new)) }
    ensures kept { IsKept S.bytes S.bytes_len S.faults inner.old inner.new }
    ensures cache { IsCache S.bytes S.bytes_len inner.new store.new }
    ensures grows { Grows store.old store.new }
    ensures last { IfOk result (λ n. length into.old ≤ n → (keeps store.new (last_touched store.old.size at n) ≡ true) ⊎ Rose store.old.lost store.new.lost) }
    ensures served { keeps store.old ((at + done) / store.old.size) ≡ true → (S.reads inner.new ≡ S.reads inner.old) × IsSame store.old store.new }
    ensures reads { S.reads inner.new ≤ S.reads inner.old + 1 }
    ensures onward { IfOk result (λ n. n < length into.old → (at + done) / store.old.size + 1 ≤ (at + n) / store.old.size) }
{
    let _size = inner.size();
    let past = past_len(store, at + done as u64, into.len() - done);
    if past == 0 {
        return next(alloc, inner, store, at, done, into);
    }
    pass(inner, at, done, past, into)
}

// Reads a piece. The last block that it touches is kept afterwards where there is memory. The others are read past the cache
// where they aren't kept, as many as stand side by side with one read.
fn parts<S: BlockSource>(
    alloc: Global,
    inner: &mut S,
    store: &mut Store,
    at: u64,
    into: &mut [u8],
) -> Result<(), ReadFailed>
    requires cache { IsCache S.bytes S.bytes_len inner.old store.old }
    requires some { 1 ≤ length into.old }
    requires short { length into.old ≤ 65536 }
    requires inside { at + length into.old ≤ S.bytes_len inner.old }
    ensures found { (image : List ℕ) → S.bytes inner.old ≡ Some image → OnOk result (Copies image at into.new) }
    ensures cause { OnErr result (Rose (S.faults inner.old) (S.faults inner.new)) }
    ensures kept { IsKept S.bytes S.bytes_len S.faults inner.old inner.new }
    ensures cache { IsCache S.bytes S.bytes_len inner.new store.new }
    ensures grows { Grows store.old store.new }
    ensures last { OnOk result ((keeps store.new (last_touched store.old.size at (length into.old)) ≡ true) ⊎ Rose store.old.lost store.new.lost) }
    ensures served { ((block : ℕ) → Touches store.old.size at (length into.old) block → keeps store.old block ≡ true) → (S.reads inner.new ≡ S.reads inner.old) × IsSame store.old store.new }
    ensures once_each { S.reads inner.new ≤ S.reads inner.old + touched_count store.old.size at (length into.old) }
{
    let mut done = 0;
    while done < into.len() {
        done = step(alloc, inner, store, at, done, into)?;
    }
    Ok(())
}

// Makes the last block of a piece that touches several the next one to go: contents are wanted once, and nodes again.
fn demote_last(store: &mut Store, at: u64, len: usize)
    requires size { 1 ≤ store.old.size }
    requires some { 1 ≤ len }
    requires fits { at + len < 18446744073709551616 }
    ensures { IsReordered store.old store.new }
{
    let size = store.size as u64;
    let last = (at + (len as u64 - 1)) / size;
    if at / size < last {
        store.demote(last);
    }
}

/// Reads a piece. The last block that it touches is kept afterwards where there is memory, as the next one to go where it
/// isn't the only one.
pub(crate) fn read<S: BlockSource>(
    alloc: Global,
    inner: &mut S,
    store: &mut Store,
    at: u64,
    into: &mut [u8],
) -> Result<(), ReadFailed>
    requires cache { IsCache S.bytes S.bytes_len inner.old store.old }
    requires some { 1 ≤ length into.old }
    requires short { length into.old ≤ 65536 }
    requires inside { at + length into.old ≤ S.bytes_len inner.old }
    ensures found { (image : List ℕ) → S.bytes inner.old ≡ Some image → OnOk result (Copies image at into.new) }
    ensures cause { OnErr result (Rose (S.faults inner.old) (S.faults inner.new)) }
    ensures kept { IsKept S.bytes S.bytes_len S.faults inner.old inner.new }
    ensures cache { IsCache S.bytes S.bytes_len inner.new store.new }
    ensures grows { Grows store.old store.new }
    ensures last { OnOk result ((keeps store.new (last_touched store.old.size at (length into.old)) ≡ true) ⊎ Rose store.old.lost store.new.lost) }
    ensures served { ((block : ℕ) → Touches store.old.size at (length into.old) block → keeps store.old block ≡ true) → (S.reads inner.new ≡ S.reads inner.old) × IsSame store.old store.new }
    ensures once_each { S.reads inner.new ≤ S.reads inner.old + touched_count store.old.size at (length into.old) }
{
    let _size = inner.size();
    match parts(alloc, inner, store, at, into) {
        Ok(()) => {}
        Err(fault) => return Err(fault),
    }
    demote_last(store, at, into.len());
    Ok(())
}
