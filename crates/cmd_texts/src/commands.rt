//! The commands: each writes its text on a sink, and stops where there is none.
ghost use Rattle.apfs_model.specs.Kept.{IsKept};
ghost use Rattle.std.specs.Prelude.{◌≡◌, ℕ, List, Some};
ghost use Rattle.cmd_texts.specs.Handed.{looked};
ghost use Rattle.cmd_texts.specs.Ended.{HasEnded};
ghost use Rattle.cmd_texts.specs.Reached.{IsClean};
ghost use Rattle.cmd_lines.specs.Lent.{said};
ghost use Rattle.cmd_lines.specs.Words.{checks_of};
ghost use Rattle.cmd_lines.specs.Unchecked.{quick};
ghost use Rattle.cmd_lines.specs.Written.{sunk};

mod cat;
pub mod check;
mod checked;
pub mod export;
pub mod generated;
mod info;
mod ls;
pub mod new_container;
mod ring;
mod snapshots;
mod space;
mod tree;
mod usage;
mod volumes;
mod xattr;

use crate::commands::checked::check_first;
use blk_source::{BlockSource, Sink};
use cmd_lines::{Command, Stopped};
use std::alloc::Global;

// Runs a command that takes an image and no folder, once it was checked where the command wants that.
fn on_unchecked<S: BlockSource, W: Sink>(
    alloc: Global,
    command: Command<'_>,
    src: &mut S,
    out: &mut W,
) -> Result<(), Stopped>
    requires clean { (image : List ℕ) → S.bytes src.old ≡ Some image → IsClean (checks_of (said command)) image }
    ensures answer { HasEnded (quick (said command.entry)) (looked S.bytes S.faults src.old src.new) result (sunk W.contents W.faults out.old out.new) }
    ensures kept { IsKept S.bytes S.bytes_len S.faults src.old src.new }
{
    match command {
        Command::Ring => ring::write(alloc, src, out),
        Command::Info => info::write(alloc, src, out),
        Command::Volumes => volumes::write(alloc, src, out),
        Command::Space => space::write(alloc, src, out),
        Command::Check(profile) => check::write(alloc, profile, src, out),
        Command::Snapshots(volume) => snapshots::write(alloc, volume, src, out),
        Command::Usage(volume) => usage::write(alloc, volume, src, out),
        Command::Ls(_, target) => ls::write(alloc, target, src, out),
        Command::Tree(_, target) => tree::write(alloc, target, src, out),
        Command::Cat(_, target) => cat::write(alloc, target, src, out),
        Command::Xattr(_, target, name) => xattr::write(alloc, target, name, src, out),
    }
}

/// Runs a command that takes an image and no folder.
pub fn on_image<S: BlockSource, W: Sink>(
    alloc: Global,
    command: Command<'_>,
    src: &mut S,
    out: &mut W,
) -> Result<(), Stopped>
    ensures answer { HasEnded (said command.entry) (looked S.bytes S.faults src.old src.new) result (sunk W.contents W.faults out.old out.new) }
    ensures kept { IsKept S.bytes S.bytes_len S.faults src.old src.new }
{
    match check_first(alloc, command.checks(), src) {
        Ok(()) => on_unchecked(alloc, command, src, out),
        Err(stopped) => Err(stopped),
    }
}
