// Commands over a partition of a disk.
ghost use Rattle.std.specs.Prelude.{◌≡◌, ◌+◌, ◌≤◌, None, Some};
ghost use Rattle.apfs_model.specs.Kept.{IsKept};
ghost use Rattle.cmd_words.specs.Lent.{target_asked};
ghost use Rattle.cmd_texts.specs.Handed.{looked, part_looked, stored};
ghost use Rattle.cmd_texts.specs.Ended.{HasEnded, HasEndedInto, HasCome};
ghost use Rattle.cmd_texts.specs.Seen.{stopped_at_table};
ghost use Rattle.cmd_lines.specs.Words.{Export, line_in};
ghost use Rattle.cmd_lines.specs.Lent.{partition_line, said};
ghost use Rattle.cmd_lines.specs.Written.{sunk};

use crate::over_cache::{fill_cached, on_cache};
use blk_folder::Folder;
use blk_source::{BlockSource, Sink};
use cmd_lines::{Command, Named, Stopped};
use cmd_words::Target;
use img_gpt::{GptStop, Origin, Part, Slice, find_part};
use std::alloc::Global;
use std::marker::Brand;

// Why the run stops, where no partition is found.
fn stopped_without(stop: GptStop) -> Stopped
    ensures { result ≡ stopped_at_table stop }
{
    match stop {
        GptStop::NoTable => Stopped::Faulty(Named::NoTable),
        GptStop::BadTable => Stopped::Faulty(Named::BadTable),
        GptStop::NoPartition => Stopped::Faulty(Named::NoPartition),
        GptStop::PartOutside { at } => Stopped::Faulty(Named::PartOutside { at }),
        GptStop::ReadFault => Stopped::ReadFailed,
    }
}

// Runs a command on a part of a disk, and gives the disk back with the size and the bytes that it had.
fn on_slice<S: BlockSource, W: Sink, O: Origin>(
    alloc: Global,
    command: Command<'_>,
    src: S,
    part: Part,
    out: &mut W,
) -> (Result<(), Stopped>, S)
    requires inside { part.start + part.length ≤ S.bytes_len src }
    requires size { S.bytes_len src ≡ O.size }
    requires bytes { S.bytes src ≡ O.bytes }
    ensures answer { HasEnded (said command.entry) (part_looked part (looked S.bytes S.faults src result.1)) result.0 (sunk W.contents W.faults out.old out.new) }
    ensures size { S.bytes_len result.1 ≡ O.size }
    ensures bytes { S.bytes result.1 ≡ O.bytes }
    ensures later { S.faults src ≤ S.faults result.1 }
{
    let slice = Slice::<S, O>::new(src, part.start, part.length);
    let (ended, slice) = on_cache(alloc, command, slice, out);
    (ended, slice.into_inner())
}

// Runs a command on the partition that holds a container, and gives the disk back.
fn on_partition<S: BlockSource, W: Sink>(
    alloc: Global,
    command: Command<'_>,
    mut src: S,
    out: &mut W,
) -> (Result<(), Stopped>, S)
    ensures answer { HasCome (Some (partition_line (said command.entry))) (Some (looked S.bytes S.faults src result.1)) None result.0 (sunk W.contents W.faults out.old out.new) }
    ensures kept { IsKept S.bytes S.bytes_len S.faults src result.1 }
{
    match find_part(&mut src) {
        Ok(part) => on_slice::<S, W, Brand>(alloc, command, src, part, out),
        Err(stop) => (Err(stopped_without(stop)), src),
    }
}

/// Runs a command on an image or on a partition of it, and gives the image back.
pub fn on_order<S: BlockSource, W: Sink>(
    alloc: Global,
    in_partition: bool,
    command: Command<'_>,
    src: S,
    out: &mut W,
) -> (Result<(), Stopped>, S)
    ensures answer { HasCome (Some (line_in in_partition (said command.entry))) (Some (looked S.bytes S.faults src result.1)) None result.0 (sunk W.contents W.faults out.old out.new) }
    ensures kept { IsKept S.bytes S.bytes_len S.faults src result.1 }
{
    if in_partition {
        on_partition(alloc, command, src, out)
    } else {
        on_cache(alloc, command, src, out)
    }
}

// Fills a folder from a part of a disk, and gives the disk back with the size and the bytes that it had.
fn fill_slice<S: BlockSource, W: Sink, F: Folder, O: Origin>(
    alloc: Global,
    target: Target<'_>,
    src: S,
    part: Part,
    out: &mut W,
    folder: &mut F,
) -> (Result<(), Stopped>, S)
    requires inside { part.start + part.length ≤ S.bytes_len src }
    requires size { S.bytes_len src ≡ O.size }
    requires bytes { S.bytes src ≡ O.bytes }
    ensures answer { HasEndedInto (Export (target_asked target.entry)) (part_looked part (looked S.bytes S.faults src result.1)) (stored F.contents F.faults folder.old folder.new) result.0 (sunk W.contents W.faults out.old out.new) }
    ensures size { S.bytes_len result.1 ≡ O.size }
    ensures bytes { S.bytes result.1 ≡ O.bytes }
    ensures later { S.faults src ≤ S.faults result.1 }
{
    let slice = Slice::<S, O>::new(src, part.start, part.length);
    let (ended, slice) = fill_cached(alloc, target, slice, out, folder);
    (ended, slice.into_inner())
}

// Fills a folder from the partition that holds a container, and gives the disk back.
fn fill_partition<S: BlockSource, W: Sink, F: Folder>(
    alloc: Global,
    target: Target<'_>,
    mut src: S,
    out: &mut W,
    folder: &mut F,
) -> (Result<(), Stopped>, S)
    ensures answer { HasCome (Some (partition_line (Export (target_asked target.entry)))) (Some (looked S.bytes S.faults src result.1)) (Some (stored F.contents F.faults folder.old folder.new)) result.0 (sunk W.contents W.faults out.old out.new) }
    ensures kept { IsKept S.bytes S.bytes_len S.faults src result.1 }
{
    match find_part(&mut src) {
        Ok(part) => fill_slice::<S, W, F, Brand>(alloc, target, src, part, out, folder),
        Err(stop) => (Err(stopped_without(stop)), src),
    }
}

/// Fills a folder from an image or from a partition of it, and gives the image back.
pub fn fill<S: BlockSource, W: Sink, F: Folder>(
    alloc: Global,
    in_partition: bool,
    target: Target<'_>,
    src: S,
    out: &mut W,
    folder: &mut F,
) -> (Result<(), Stopped>, S)
    ensures answer { HasCome (Some (line_in in_partition (Export (target_asked target.entry)))) (Some (looked S.bytes S.faults src result.1)) (Some (stored F.contents F.faults folder.old folder.new)) result.0 (sunk W.contents W.faults out.old out.new) }
    ensures kept { IsKept S.bytes S.bytes_len S.faults src result.1 }
{
    if in_partition {
        fill_partition(alloc, target, src, out, folder)
    } else {
        fill_cached(alloc, target, src, out, folder)
    }
}
