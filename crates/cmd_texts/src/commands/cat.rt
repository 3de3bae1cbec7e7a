// The command `cat`.
ghost use Rattle.apfs_model.specs.Kept.{IsKept};
ghost use Rattle.cmd_words.specs.Lent.{target_asked};
ghost use Rattle.cmd_texts.specs.Handed.{looked};
ghost use Rattle.cmd_texts.specs.Ended.{HasEnded};
ghost use Rattle.cmd_lines.specs.Words.{Cat};
ghost use Rattle.cmd_lines.specs.declared.words.Checks.TheVariants.{Quick};
ghost use Rattle.cmd_lines.specs.Written.{sunk};

use crate::meant_view::reach_view;
use crate::on_path::stopped_on_write;
use blk_source::{BlockSource, Sink};
use cmd_lines::Stopped;
use cmd_words::Target;
use path_read::cat;
use std::alloc::Global;

/// Writes the contents of a file in the view that is meant.
pub fn write<S: BlockSource, W: Sink>(
    alloc: Global,
    target: Target<'_>,
    src: &mut S,
    out: &mut W,
) -> Result<(), Stopped>
    ensures answer { HasEnded (Cat Quick (target_asked target.entry)) (looked S.bytes S.faults src.old src.new) result (sunk W.contents W.faults out.old out.new) }
    ensures kept { IsKept S.bytes S.bytes_len S.faults src.old src.new }
{
    let viewed = match reach_view(alloc, src, target) {
        Ok(viewed) => viewed,
        Err(stopped) => return Err(stopped),
    };
    let site = viewed.checkpoint.site();
    match cat(
        alloc,
        src,
        &viewed.volume,
        &viewed.view,
        &site,
        target.path,
        out,
    ) {
        Ok(()) => Ok(()),
        Err(stop) => Err(stopped_on_write(stop)),
    }
}
