// The command `snapshots`.
ghost use Rattle.apfs_model.specs.Kept.{IsKept};
ghost use Rattle.cmd_texts.specs.Commands.Snapshots.{snapshot_text, snapshots_text};
ghost use Rattle.cmd_texts.specs.Handed.{looked};
ghost use Rattle.cmd_texts.specs.Ended.{HasEnded};
ghost use Rattle.cmd_lines.specs.Words.{Snapshots};
ghost use Rattle.cmd_lines.specs.Written.{sunk};
ghost use Rattle.cmd_lines.specs.Putting.{IsPut};

use crate::meant::reach;
use crate::put::{Line, put_lines};
use blk_source::{BlockSource, Sink};
use cmd_lines::Stopped;
use fs_name::push_shown;
use std::alloc::{AllocError, Global};
use vol_view::{Snapshot, Volume};

/// A snapshot's transaction, when it was made, and its name.
impl Line for Snapshot {
    ghost text = { λ snapshot. snapshot_text snapshot };

    fn line(&self, alloc: Global) -> Result<Vec<u8>, AllocError> {
        let xid = self.xid;
        let created = self.created;
        let mut line = format!(in alloc; "{xid} {created} ")?.into_bytes();
        push_shown(&mut line, self.name.as_slice())?;
        line.push(b'\n')?;
        Ok(line)
    }
}

// Puts a line for each snapshot of a volume.
fn put_snapshots<W: Sink>(alloc: Global, volume: &Volume, out: &mut W) -> Result<(), Stopped>
    ensures { IsPut (snapshots_text volume.now.snaps) result (sunk W.contents W.faults out.old out.new) }
{
    put_lines(alloc, volume.snaps.as_slice(), out)
}

/// Writes the snapshots of the volume that is meant.
pub fn write<S: BlockSource, W: Sink>(
    alloc: Global,
    volume: Option<u8>,
    src: &mut S,
    out: &mut W,
) -> Result<(), Stopped>
    ensures answer { HasEnded (Snapshots volume) (looked S.bytes S.faults src.old src.new) result (sunk W.contents W.faults out.old out.new) }
    ensures kept { IsKept S.bytes S.bytes_len S.faults src.old src.new }
{
    match reach(alloc, src, volume) {
        Ok(reached) => put_snapshots(alloc, &reached.volume, out),
        Err(stopped) => Err(stopped),
    }
}
