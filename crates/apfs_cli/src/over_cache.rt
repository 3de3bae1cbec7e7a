// Commands over a cache of the image's blocks.
ghost use Rattle.std.specs.Prelude.{◌≡◌, ℕ, List, Some, true, length, unwrap_or, IfOk, OnErr};
ghost use Rattle.apfs_model.specs.Counts.{Rose};
ghost use Rattle.apfs_model.specs.Kept.{IsKept};
ghost use Rattle.obj_base.specs.BlockSize.{is_accepted};
ghost use Rattle.nx_block.specs.Read.{size_of};
ghost use Rattle.apfs_cli.specs.Cache.{kept_size};
ghost use Rattle.cmd_words.specs.Lent.{target_asked};
ghost use Rattle.cmd_texts.specs.Handed.{looked, stored};
ghost use Rattle.cmd_texts.specs.Ended.{HasEnded, HasEndedInto};
ghost use Rattle.cmd_lines.specs.Words.{Export};
ghost use Rattle.cmd_lines.specs.Lent.{said};
ghost use Rattle.cmd_lines.specs.Written.{sunk};

use blk_cache::Cached;
use blk_folder::Folder;
use blk_source::{BlockSource, ReadFailed, Sink};
use cmd_lines::{Command, Stopped};
use cmd_texts::commands::{export, on_image};
use cmd_words::Target;
use nx_block::nx_size;
use std::alloc::Global;

// How many blocks are kept, which are at most 64 MiB.
const BLOCKS: usize = 1024;

// How many of an image's first bytes tell its block size.
const FIRST: usize = 4096;

// The size in bytes of the blocks that are kept where the image tells none.
const LEAST: u32 = 4096;

// The block size that an image's first bytes tell, or the least one.
fn told_size(first: &[u8]) -> u32
    requires { length first.now ≡ 4096 }
    ensures accepted { is_accepted result ≡ true }
    ensures value { result ≡ unwrap_or (size_of first.now) 4096 }
{
    match nx_size(first) {
        Some(size) => size,
        None => LEAST,
    }
}

// The size in bytes of the blocks that are kept of a source.
fn kept_size_of<S: BlockSource>(src: &mut S) -> Result<u32, ReadFailed>
    ensures accepted { IfOk result (λ size. is_accepted size ≡ true) }
    ensures value { (image : List ℕ) → S.bytes src.old ≡ Some image → IfOk result (λ size. size ≡ kept_size image) }
    ensures cause { OnErr result (Rose (S.faults src.old) (S.faults src.new)) }
    ensures kept { IsKept S.bytes S.bytes_len S.faults src.old src.new }
{
    if src.size() < FIRST as u64 {
        return Ok(LEAST);
    }
    let mut first = [0u8; FIRST];
    match src.read_at(0, &mut first) {
        Ok(()) => Ok(told_size(&first)),
        Err(failed) => Err(failed),
    }
}

// Runs a command on an image of which no block is kept.
fn on_source<S: BlockSource, W: Sink>(
    alloc: Global,
    command: Command<'_>,
    mut src: S,
    out: &mut W,
) -> (Result<(), Stopped>, S)
    ensures answer { HasEnded (said command.entry) (looked S.bytes S.faults src result.1) result.0 (sunk W.contents W.faults out.old out.new) }
    ensures kept { IsKept S.bytes S.bytes_len S.faults src result.1 }
{
    let ended = on_image(alloc, command, &mut src, out);
    (ended, src)
}

/// Runs a command on an image whose blocks are kept as they are read, and gives the image back. None is kept for `check`, each
/// of whose walks reads a node once.
pub fn on_cache<S: BlockSource, W: Sink>(
    alloc: Global,
    command: Command<'_>,
    mut src: S,
    out: &mut W,
) -> (Result<(), Stopped>, S)
    ensures answer { HasEnded (said command.entry) (looked S.bytes S.faults src result.1) result.0 (sunk W.contents W.faults out.old out.new) }
    ensures kept { IsKept S.bytes S.bytes_len S.faults src result.1 }
{
    if let Command::Check(_) = command {
        return on_source(alloc, command, src, out);
    }
    let size = match kept_size_of(&mut src) {
        Ok(size) => size,
        Err(_) => return (Err(Stopped::ReadFailed), src),
    };
    match Cached::new(alloc, src, size, BLOCKS) {
        Ok(mut cache) => {
            let ended = on_image(alloc, command, &mut cache, out);
            (ended, cache.into_inner())
        }
        Err(src) => (Err(Stopped::OutOfMemory), src),
    }
}

/// Fills a folder from an image whose blocks are kept as they are read, and gives the image back.
pub fn fill_cached<S: BlockSource, W: Sink, F: Folder>(
    alloc: Global,
    target: Target<'_>,
    mut src: S,
    out: &mut W,
    folder: &mut F,
) -> (Result<(), Stopped>, S)
    ensures answer { HasEndedInto (Export (target_asked target.entry)) (looked S.bytes S.faults src result.1) (stored F.contents F.faults folder.old folder.new) result.0 (sunk W.contents W.faults out.old out.new) }
    ensures kept { IsKept S.bytes S.bytes_len S.faults src result.1 }
{
    let size = match kept_size_of(&mut src) {
        Ok(size) => size,
        Err(_) => return (Err(Stopped::ReadFailed), src),
    };
    match Cached::new(alloc, src, size, BLOCKS) {
        Ok(mut cache) => {
            let ended = export::write(alloc, target, &mut cache, out, folder);
            (ended, cache.into_inner())
        }
        Err(src) => (Err(Stopped::OutOfMemory), src),
    }
}
