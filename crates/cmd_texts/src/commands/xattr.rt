// The command `xattr`.
ghost use Rattle.std.specs.Prelude.{None, Some, option_map};
ghost use Rattle.apfs_model.specs.Kept.{IsKept};
ghost use Rattle.cmd_words.specs.Lent.{target_asked};
ghost use Rattle.path_read.specs.Texts.{attribute_text};
ghost use Rattle.cmd_texts.specs.Handed.{looked};
ghost use Rattle.cmd_texts.specs.Ended.{HasEnded};
ghost use Rattle.cmd_lines.specs.Words.{Xattr};
ghost use Rattle.cmd_lines.specs.declared.words.Checks.TheVariants.{Quick};
ghost use Rattle.cmd_lines.specs.Written.{sunk};

use crate::meant_view::reach_view;
use crate::on_path::{stopped_on_path, stopped_on_write};
use crate::put::{Line, put_lines};
use apfs_model::Bytes;
use blk_source::{BlockSource, Sink};
use cmd_lines::Stopped;
use cmd_words::Target;
use fs_name::push_shown;
use path_read::{attr, attrs};
use std::alloc::{AllocError, Global};

/// How many bytes an attribute holds, and its name.
impl Line for (Bytes, u64) {
    ghost text = { λ attribute. attribute_text attribute };

    fn line(&self, alloc: Global) -> Result<Vec<u8>, AllocError> {
        let length = self.1;
        let mut line = format!(in alloc; "{length} ")?.into_bytes();
        push_shown(&mut line, self.0.as_slice())?;
        line.push(b'\n')?;
        Ok(line)
    }
}

// Writes a line for each attribute of what a path leads to in the view that is meant.
fn write_all<S: BlockSource, W: Sink>(
    alloc: Global,
    target: Target<'_>,
    src: &mut S,
    out: &mut W,
) -> Result<(), Stopped>
    ensures answer { HasEnded (Xattr Quick (target_asked target.entry) None) (looked S.bytes S.faults src.old src.new) result (sunk W.contents W.faults out.old out.new) }
    ensures kept { IsKept S.bytes S.bytes_len S.faults src.old src.new }
{
    let viewed = match reach_view(alloc, src, target) {
        Ok(viewed) => viewed,
        Err(stopped) => return Err(stopped),
    };
    let site = viewed.checkpoint.site();
    match attrs(alloc, src, &viewed.volume, &viewed.view, &site, target.path) {
        Ok(items) => put_lines(alloc, items.as_slice(), out),
        Err(stop) => Err(stopped_on_path(stop)),
    }
}

// Writes what the attribute of a name holds, of what a path leads to in the view that is meant.
fn write_one<S: BlockSource, W: Sink>(
    alloc: Global,
    target: Target<'_>,
    name: &str,
    src: &mut S,
    out: &mut W,
) -> Result<(), Stopped>
    ensures answer { HasEnded (Xattr Quick (target_asked target.entry) (Some name.now)) (looked S.bytes S.faults src.old src.new) result (sunk W.contents W.faults out.old out.new) }
    ensures kept { IsKept S.bytes S.bytes_len S.faults src.old src.new }
{
    let viewed = match reach_view(alloc, src, target) {
        Ok(viewed) => viewed,
        Err(stopped) => return Err(stopped),
    };
    let site = viewed.checkpoint.site();
    match attr(
        alloc,
        src,
        &viewed.volume,
        &viewed.view,
        &site,
        target.path,
        name,
        out,
    ) {
        Ok(()) => Ok(()),
        Err(stop) => Err(stopped_on_write(stop)),
    }
}

/// Writes the attributes of what a path leads to in the view that is meant, or what the one of a name holds.
pub fn write<S: BlockSource, W: Sink>(
    alloc: Global,
    target: Target<'_>,
    name: Option<&str>,
    src: &mut S,
    out: &mut W,
) -> Result<(), Stopped>
    ensures answer { HasEnded (Xattr Quick (target_asked target.entry) (option_map (λ text. text.now) name.entry)) (looked S.bytes S.faults src.old src.new) result (sunk W.contents W.faults out.old out.new) }
    ensures kept { IsKept S.bytes S.bytes_len S.faults src.old src.new }
{
    match name {
        None => write_all(alloc, target, src, out),
        Some(name) => write_one(alloc, target, name, src, out),
    }
}
