// The command `ls`.
ghost use Rattle.apfs_model.specs.Kept.{IsKept};
ghost use Rattle.cmd_words.specs.Lent.{target_asked};
ghost use Rattle.path_search.specs.Texts.{target_text};
ghost use Rattle.cmd_texts.specs.Handed.{looked};
ghost use Rattle.cmd_texts.specs.Ended.{HasEnded};
ghost use Rattle.cmd_lines.specs.Words.{Ls};
ghost use Rattle.cmd_lines.specs.declared.words.Checks.TheVariants.{Quick};
ghost use Rattle.cmd_lines.specs.Written.{sunk};

use crate::meant_view::reach_view;
use crate::on_path::stopped_on_path;
use crate::put::{Line, put_lines};
use blk_source::{BlockSource, Sink};
use cmd_lines::Stopped;
use cmd_words::Target;
use path_walk::{KeptTarget, list_kept};
use std::alloc::{AllocError, Global};
use view_tree::push_target;

/// A target's kind, id, size and name.
impl Line for KeptTarget {
    ghost text = { λ target. target_text target };

    fn line(&self, alloc: Global) -> Result<Vec<u8>, AllocError> {
        let mut line = Vec::new(alloc);
        push_target(&mut line, self)?;
        Ok(line)
    }

    fn add(&self, _: Global, waiting: &mut Vec<u8>) -> Result<(), AllocError> {
        push_target(waiting, self)
    }
}

/// Writes what a path lists in the view that is meant.
pub fn write<S: BlockSource, W: Sink>(
    alloc: Global,
    target: Target<'_>,
    src: &mut S,
    out: &mut W,
) -> Result<(), Stopped>
    ensures answer { HasEnded (Ls Quick (target_asked target.entry)) (looked S.bytes S.faults src.old src.new) result (sunk W.contents W.faults out.old out.new) }
    ensures kept { IsKept S.bytes S.bytes_len S.faults src.old src.new }
{
    let viewed = match reach_view(alloc, src, target) {
        Ok(viewed) => viewed,
        Err(stopped) => return Err(stopped),
    };
    let site = viewed.checkpoint.site();
    match list_kept(alloc, src, &viewed.volume, &viewed.view, &site, target.path) {
        Ok(items) => put_lines(alloc, items.as_slice(), out),
        Err(stop) => Err(stopped_on_path(stop)),
    }
}
