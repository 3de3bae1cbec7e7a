// The command `ring`.
ghost use Rattle.std.specs.Prelude.{IfOk};
ghost use Rattle.std.specs.String.{string_bytes};
ghost use Rattle.apfs_model.specs.Kept.{IsKept};
ghost use Rattle.cmd_texts.specs.Commands.Ring.{line_text};
ghost use Rattle.cmd_texts.specs.Handed.{looked};
ghost use Rattle.cmd_texts.specs.Ended.{HasEnded};
ghost use Rattle.cmd_lines.specs.Words.{Ring};
ghost use Rattle.cmd_lines.specs.Written.{sunk};

use crate::put::{Line, put_lines};
use blk_source::{BlockSource, Sink};
use cmd_lines::{Stopped, stopped_by};
use nx_ring::{RingLine, ring};
use std::alloc::{AllocError, Global};

/// A candidate's index, its block, its transaction, and the blocks of its checkpoint.
impl Line for RingLine {
    ghost text = { λ line. line_text line };

    fn line(&self, alloc: Global) -> Result<Vec<u8>, AllocError> {
        let index = self.index;
        let block = self.block;
        let xid = self.xid;
        let from = self.desc_index;
        let length = self.desc_len;
        let line = format!(in alloc;
            "{index} block {block} xid {xid} from {from} length {length}\n"
        )?;
        Ok(line.into_bytes())
    }
}

/// Writes the candidates of the descriptor ring.
pub fn write<S: BlockSource, W: Sink>(
    alloc: Global,
    src: &mut S,
    out: &mut W,
) -> Result<(), Stopped>
    ensures answer { HasEnded Ring (looked S.bytes S.faults src.old src.new) result (sunk W.contents W.faults out.old out.new) }
    ensures kept { IsKept S.bytes S.bytes_len S.faults src.old src.new }
{
    match ring(alloc, src) {
        Ok(lines) => put_lines(alloc, lines.as_slice(), out),
        Err(stop) => Err(stopped_by(stop, ())),
    }
}
