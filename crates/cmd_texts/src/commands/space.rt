// The command `space`.
ghost use Rattle.std.specs.Prelude.{◌≡◌, ◌≤◌, ◌++◌, ◌*◌, ◌<◌, [], ℕ, List, codes, IfOk, OnOk, Ok, Some};
ghost use Rattle.std.specs.String.{string_bytes};
ghost use Rattle.apfs_model.specs.Bytes as numbers;
ghost use Rattle.apfs_model.specs.Kept.{IsKept};
ghost use Rattle.obj_base.specs.Site.{IsSiteFor};
ghost use Rattle.nx_ring.specs.Checkpoint.{site_of};
ghost use Rattle.nx_ring.specs.Features.{container_features};
ghost use Rattle.nx_ring.specs.Newest.{newest_of};
ghost use Rattle.space_map.specs.Stops.{IsSpaceOf};
ghost use Rattle.space_pool.specs.declared.entry.Queue.TheVariants.{Pool};
ghost use Rattle.space_pool.specs.Stops.{ArePoolBits, AreQueued};
ghost use Rattle.cmd_texts.specs.Commands.Space.{head_text, chunk_text, chunks_text, pool_text, queue_text, space_text};
ghost use Rattle.cmd_texts.specs.Commands.Space as texts;
ghost use Rattle.cmd_texts.specs.Handed.{looked};
ghost use Rattle.cmd_texts.specs.Ended.{HasEnded};
ghost use Rattle.cmd_lines.specs.Words as asked;
ghost use Rattle.cmd_lines.specs.Written.{sunk};
ghost use Rattle.cmd_lines.specs.Putting.{IsPut};

use crate::put::put;
use blk_source::{BlockSource, Sink};
use cmd_lines::{Stopped, stopped_by};
use nx_ring::{Checkpoint, newest};
use space_map::{Chunk, Space};
use space_pool::{Queue, QueueEntry, pool_bits, queue};
use std::alloc::{AllocError, Global};

// The line of a container.
fn head_line(alloc: Global, space: &Space) -> Result<String, AllocError>
    ensures { IfOk result (λ line. string_bytes line ≡ head_text space.now) }
{
    let blocks = space.site().blocks;
    let free = space.free();
    format!(in alloc; "blocks {blocks} free {free}\n")
}

// The line of a chunk.
fn chunk_line(alloc: Global, number: u64, chunk: &Chunk) -> Result<String, AllocError>
    ensures { IfOk result (λ line. string_bytes line ≡ chunk_text (number, chunk.now)) }
{
    let blocks = chunk.blocks;
    let free = chunk.free;
    let bitmap = chunk.bitmap;
    format!(in alloc; "chunk {number} blocks {blocks} free {free} bitmap {bitmap}\n")
}

// Adds the line of a chunk.
fn push_chunk(
    alloc: Global,
    text: &mut Vec<u8>,
    number: u64,
    chunk: &Chunk,
) -> Result<(), AllocError>
    ensures { OnOk result (text.new.items ≡ text.old.items ++ chunk_text (number, chunk.now)) }
{
    let line = chunk_line(alloc, number, chunk)?;
    text.extend_from_slice(line.as_bytes())
}

// Adds a line for each chunk.
fn push_chunks(alloc: Global, text: &mut Vec<u8>, chunks: &[Chunk]) -> Result<(), AllocError>
    ensures { OnOk result (text.new.items ≡ text.old.items ++ chunks_text chunks.now) }
{
    'chunks: for number in 0..chunks.len() {
        push_chunk(alloc, text, number as u64, &chunks[number])?;
    }
    Ok(())
}

// Whether bit `i` of a byte is set, the lowest being bit 0.
fn has_bit(byte: u8, i: u32) -> bool
    requires { i < 8 }
    ensures { result ≡ numbers.has_bit byte i }
{
    (byte >> i) % 2 == 1
}

// Whether a bit is set.
#[tactic(auto, unfolding(apfs_model::specs::Bytes::bit_at))]
fn is_marked(bits: &[u8], i: u64) -> bool
    ensures { result ≡ numbers.bit_at bits.now i }
{
    let byte = bits.get((i / 8) as usize).copied().unwrap_or(0);
    has_bit(byte, (i % 8) as u32)
}

// How many of the first bits aren't set.
#[tactic(auto, using(crate::proofs::Spaces::free_in_none, crate::proofs::Spaces::free_in_more))]
fn free_in(bits: &[u8], blocks: u64) -> u64
    ensures { result ≡ texts.free_in bits.now blocks }
{
    let mut free = 0u64;
    'each: for block in 0..blocks {
        if !is_marked(bits, block) {
            free += 1;
        }
    }
    free
}

// The line of the pool.
fn pool_line(alloc: Global, space: &Space, bits: &[u8]) -> Result<String, AllocError>
    ensures { IfOk result (λ line. string_bytes line ≡ pool_text space.now.manager bits.now) }
{
    let (_, blocks) = space.pool();
    let free = free_in(bits, blocks);
    format!(in alloc; "pool blocks {blocks} free {free}\n")
}

// How many blocks the entries of a queue have.
fn blocks_in(entries: &[QueueEntry]) -> u64
    ensures { result ≡ texts.blocks_in entries.now }
{
    let mut blocks = 0u64;
    'entries: for entry in entries {
        blocks = blocks.saturating_add(entry.length);
    }
    blocks
}

// The line of a queue.
fn queue_line(alloc: Global, word: &str, entries: &[QueueEntry]) -> Result<String, AllocError>
    ensures { IfOk result (λ line. string_bytes line ≡ queue_text word.now entries.now) }
{
    let count = entries.len();
    let blocks = blocks_in(entries);
    format!(in alloc; "queue {word} entries {count} blocks {blocks}\n")
}

// All lines.
fn text(
    alloc: Global,
    space: &Space,
    bits: &[u8],
    pool: &[QueueEntry],
    main: &[QueueEntry],
) -> Result<Vec<u8>, AllocError>
    ensures { IfOk result (λ text. text.items ≡ space_text space.now bits.now pool.now main.now) }
{
    let mut text = head_line(alloc, space)?.into_bytes();
    push_chunks(alloc, &mut text, space.chunks())?;
    text.extend_from_slice(pool_line(alloc, space, bits)?.as_bytes())?;
    text.extend_from_slice(queue_line(alloc, "pool", pool)?.as_bytes())?;
    text.extend_from_slice(queue_line(alloc, "main", main)?.as_bytes())?;
    Ok(text)
}

// Puts all lines.
fn put_text<W: Sink>(
    alloc: Global,
    space: &Space,
    bits: &[u8],
    pool: &[QueueEntry],
    main: &[QueueEntry],
    out: &mut W,
) -> Result<(), Stopped>
    ensures { IsPut (space_text space.now bits.now pool.now main.now) result (sunk W.contents W.faults out.old out.new) }
{
    let text = text(alloc, space, bits, pool, main)?;
    put(text.as_slice(), out)
}

// Writes all lines, once the pool's queue is read.
fn write_main<S: BlockSource, W: Sink>(
    alloc: Global,
    src: &mut S,
    checkpoint: &Checkpoint,
    space: &Space,
    bits: &[u8],
    pool: &[QueueEntry],
    out: &mut W,
) -> Result<(), Stopped>
    requires site { IsSiteFor (site_of checkpoint.now) (S.bytes_len src.old) }
    requires plain { container_features checkpoint.now.nx ≡ [] }
    requires found { (image : List ℕ) → S.bytes src.old ≡ Some image → newest_of image ≡ Ok checkpoint.now }
    requires space { (image : List ℕ) → S.bytes src.old ≡ Some image → IsSpaceOf image checkpoint.now space.now }
    requires bits { (image : List ℕ) → S.bytes src.old ≡ Some image → ArePoolBits image checkpoint.now space.now.manager bits.now }
    requires pool { (image : List ℕ) → S.bytes src.old ≡ Some image → AreQueued image checkpoint.now space.now.manager Pool pool.now }
    ensures answer { HasEnded asked.Space (looked S.bytes S.faults src.old src.new) result (sunk W.contents W.faults out.old out.new) }
    ensures kept { IsKept S.bytes S.bytes_len S.faults src.old src.new }
{
    match queue(alloc, src, checkpoint, space, Queue::Main) {
        Ok(main) => put_text(alloc, space, bits, pool, &main, out),
        Err(stop) => Err(stopped_by(stop, checkpoint.xid())),
    }
}

// Writes all lines, once the pool's bitmap is read.
fn write_pool<S: BlockSource, W: Sink>(
    alloc: Global,
    src: &mut S,
    checkpoint: &Checkpoint,
    space: &Space,
    bits: &[u8],
    out: &mut W,
) -> Result<(), Stopped>
    requires site { IsSiteFor (site_of checkpoint.now) (S.bytes_len src.old) }
    requires plain { container_features checkpoint.now.nx ≡ [] }
    requires found { (image : List ℕ) → S.bytes src.old ≡ Some image → newest_of image ≡ Ok checkpoint.now }
    requires space { (image : List ℕ) → S.bytes src.old ≡ Some image → IsSpaceOf image checkpoint.now space.now }
    requires bits { (image : List ℕ) → S.bytes src.old ≡ Some image → ArePoolBits image checkpoint.now space.now.manager bits.now }
    ensures answer { HasEnded asked.Space (looked S.bytes S.faults src.old src.new) result (sunk W.contents W.faults out.old out.new) }
    ensures kept { IsKept S.bytes S.bytes_len S.faults src.old src.new }
{
    match queue(alloc, src, checkpoint, space, Queue::Pool) {
        Ok(pool) => write_main(alloc, src, checkpoint, space, bits, &pool, out),
        Err(stop) => Err(stopped_by(stop, checkpoint.xid())),
    }
}

// Writes all lines of a space that is loaded.
fn write_of<S: BlockSource, W: Sink>(
    alloc: Global,
    src: &mut S,
    checkpoint: &Checkpoint,
    space: &Space,
    out: &mut W,
) -> Result<(), Stopped>
    requires site { IsSiteFor (site_of checkpoint.now) (S.bytes_len src.old) }
    requires plain { container_features checkpoint.now.nx ≡ [] }
    requires found { (image : List ℕ) → S.bytes src.old ≡ Some image → newest_of image ≡ Ok checkpoint.now }
    requires space { (image : List ℕ) → S.bytes src.old ≡ Some image → IsSpaceOf image checkpoint.now space.now }
    ensures answer { HasEnded asked.Space (looked S.bytes S.faults src.old src.new) result (sunk W.contents W.faults out.old out.new) }
    ensures kept { IsKept S.bytes S.bytes_len S.faults src.old src.new }
{
    match pool_bits(alloc, src, checkpoint, space) {
        Ok(bits) => write_pool(alloc, src, checkpoint, space, &bits, out),
        Err(stop) => Err(stopped_by(stop, checkpoint.xid())),
    }
}

// Writes the space of a checkpoint's container.
fn write_at<S: BlockSource, W: Sink>(
    alloc: Global,
    src: &mut S,
    checkpoint: &Checkpoint,
    out: &mut W,
) -> Result<(), Stopped>
    requires site { IsSiteFor (site_of checkpoint.now) (S.bytes_len src.old) }
    requires plain { container_features checkpoint.now.nx ≡ [] }
    requires found { (image : List ℕ) → S.bytes src.old ≡ Some image → newest_of image ≡ Ok checkpoint.now }
    ensures answer { HasEnded asked.Space (looked S.bytes S.faults src.old src.new) result (sunk W.contents W.faults out.old out.new) }
    ensures kept { IsKept S.bytes S.bytes_len S.faults src.old src.new }
{
    match Space::load(alloc, src, checkpoint) {
        Ok(space) => write_of(alloc, src, checkpoint, &space, out),
        Err(stop) => Err(stopped_by(stop, checkpoint.xid())),
    }
}

/// Writes the space that is in use and free.
pub fn write<S: BlockSource, W: Sink>(
    alloc: Global,
    src: &mut S,
    out: &mut W,
) -> Result<(), Stopped>
    ensures answer { HasEnded asked.Space (looked S.bytes S.faults src.old src.new) result (sunk W.contents W.faults out.old out.new) }
    ensures kept { IsKept S.bytes S.bytes_len S.faults src.old src.new }
{
    match newest(alloc, src) {
        Ok(checkpoint) => write_at(alloc, src, &checkpoint, out),
        Err(stop) => Err(stopped_by(stop, ())),
    }
}
