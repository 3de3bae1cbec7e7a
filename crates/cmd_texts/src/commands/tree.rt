// The command `tree`.
ghost use Rattle.apfs_model.specs.Kept.{IsKept};
ghost use Rattle.cmd_words.specs.Lent.{target_asked};
ghost use Rattle.view_tree.specs.Texts.{tree_text};
ghost use Rattle.cmd_texts.specs.Handed.{looked};
ghost use Rattle.cmd_texts.specs.Ended.{HasEnded};
ghost use Rattle.cmd_lines.specs.Words.{Tree};
ghost use Rattle.cmd_lines.specs.declared.words.Checks.TheVariants.{Quick};
ghost use Rattle.cmd_lines.specs.Written.{sunk};
ghost use Rattle.cmd_lines.specs.Putting.{IsPut};

use crate::meant_view::reach_view;
use crate::on_path::stopped_on_path;
use blk_source::{BlockSource, Sink};
use cmd_lines::Stopped;
use cmd_words::Target;
use std::alloc::Global;
use view_tree::{KeptRows, PutStop, tree_rows};

// Puts the line of each row: the kind, id and size of its target, and the names that lead to it.
fn put_rows<W: Sink>(alloc: Global, rows: &KeptRows, out: &mut W) -> Result<(), Stopped>
    ensures { IsPut (tree_text rows.now) result (sunk W.contents W.faults out.old out.new) }
{
    match rows.put(alloc, out) {
        Ok(()) => Ok(()),
        Err(PutStop::WriteFault) => Err(Stopped::WriteFailed),
        Err(PutStop::NoMemory) => Err(Stopped::OutOfMemory),
    }
}

/// Writes what is under a path in the view that is meant.
pub fn write<S: BlockSource, W: Sink>(
    alloc: Global,
    target: Target<'_>,
    src: &mut S,
    out: &mut W,
) -> Result<(), Stopped>
    ensures answer { HasEnded (Tree Quick (target_asked target.entry)) (looked S.bytes S.faults src.old src.new) result (sunk W.contents W.faults out.old out.new) }
    ensures kept { IsKept S.bytes S.bytes_len S.faults src.old src.new }
{
    let viewed = match reach_view(alloc, src, target) {
        Ok(viewed) => viewed,
        Err(stopped) => return Err(stopped),
    };
    let site = viewed.checkpoint.site();
    match tree_rows(alloc, src, &viewed.volume, &viewed.view, &site, target.path) {
        Ok(rows) => put_rows(alloc, &rows, out),
        Err(stop) => Err(stopped_on_path(stop)),
    }
}
