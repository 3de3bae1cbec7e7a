// The command `info`.
ghost use Rattle.std.specs.Prelude.{◌≡◌, IfOk};
ghost use Rattle.std.specs.String.{string_bytes};
ghost use Rattle.apfs_model.specs.Kept.{IsKept};
ghost use Rattle.nx_block.specs.Super.{uuid_of};
ghost use Rattle.cmd_texts.specs.Commands.Info.{container_text, checkpoint_text, info_text};
ghost use Rattle.cmd_lines.specs.Names.{uuid_text};
ghost use Rattle.cmd_texts.specs.Handed.{looked};
ghost use Rattle.cmd_texts.specs.Ended.{HasEnded};
ghost use Rattle.cmd_lines.specs.Words.{Info};
ghost use Rattle.cmd_lines.specs.Written.{sunk};
ghost use Rattle.cmd_lines.specs.Putting.{IsPut};

use crate::put::put;
use blk_source::{BlockSource, Sink};
use cmd_lines::{Stopped, identifier, stopped_by};
use nx_block::NxView;
use nx_ring::{Checkpoint, newest};
use std::alloc::{AllocError, Global};

// The lines of a container, by its superblock and the text of its identifier.
fn container_lines(alloc: Global, nx: &NxView<'_>, uuid: &str) -> Result<String, AllocError>
    requires { uuid.now ≡ uuid_text (uuid_of nx.now) }
    ensures { IfOk result (λ text. string_bytes text ≡ container_text nx.now) }
{
    let size = nx.block_size();
    let blocks = nx.block_count();
    format!(in alloc; "uuid {uuid}\nblock size {size}\nblocks {blocks}\n")
}

// The lines of a checkpoint.
fn checkpoint_lines(alloc: Global, checkpoint: &Checkpoint) -> Result<String, AllocError>
    ensures { IfOk result (λ text. string_bytes text ≡ checkpoint_text checkpoint.now) }
{
    let xid = checkpoint.xid();
    let block = checkpoint.block();
    let maps = checkpoint.maps();
    let objects = checkpoint.mapped();
    let skipped = checkpoint.skipped().len();
    format!(in alloc;
        "checkpoint xid {xid} block {block}\nmaps {maps} objects {objects}\nskipped {skipped}\n"
    )
}

// All six lines.
fn text(alloc: Global, checkpoint: &Checkpoint) -> Result<Vec<u8>, AllocError>
    ensures { IfOk result (λ text. text.items ≡ info_text checkpoint.now) }
{
    let nx = checkpoint.nx();
    let uuid = identifier(alloc, nx.uuid())?;
    let mut text = container_lines(alloc, &nx, uuid.as_str())?.into_bytes();
    let lines = checkpoint_lines(alloc, checkpoint)?;
    text.extend_from_slice(lines.as_bytes())?;
    Ok(text)
}

// Puts all six lines.
fn put_text<W: Sink>(alloc: Global, checkpoint: &Checkpoint, out: &mut W) -> Result<(), Stopped>
    ensures { IsPut (info_text checkpoint.now) result (sunk W.contents W.faults out.old out.new) }
{
    let text = text(alloc, checkpoint)?;
    put(text.as_slice(), out)
}

/// Writes what there is of the container and its newest checkpoint.
pub fn write<S: BlockSource, W: Sink>(
    alloc: Global,
    src: &mut S,
    out: &mut W,
) -> Result<(), Stopped>
    ensures answer { HasEnded Info (looked S.bytes S.faults src.old src.new) result (sunk W.contents W.faults out.old out.new) }
    ensures kept { IsKept S.bytes S.bytes_len S.faults src.old src.new }
{
    match newest(alloc, src) {
        Ok(checkpoint) => put_text(alloc, &checkpoint, out),
        Err(stop) => Err(stopped_by(stop, ())),
    }
}
