// Texts that are put on a sink.
ghost use Rattle.std.specs.Prelude.{◌≡◌, ◌++◌, [], List, ℕ, IfOk, OnOk};
ghost use Rattle.std.specs.List.{flat_map};
ghost use Rattle.cmd_lines.specs.Written.{sunk};
ghost use Rattle.cmd_lines.specs.Putting.{IsPut, Passes};

use blk_source::Sink;
use cmd_lines::Stopped;
use std::alloc::{AllocError, Global};

// How many bytes of lines wait before they are put.
const PIECE: usize = 65536;

/// Something that is shown as a line.
pub trait Line {
    /// The line, with its newline.
    ghost text: { Self → List ℕ };

    /// The line as its bytes.
    fn line(&self, alloc: Global) -> Result<Vec<u8>, AllocError>
        ensures { IfOk result (λ line. line.items ≡ text self.now) };

    /// Adds the line to those that wait.
    fn add(&self, alloc: Global, waiting: &mut Vec<u8>) -> Result<(), AllocError>
        ensures { OnOk result (waiting.new.items ≡ waiting.old.items ++ text self.now) }
    {
        let line = self.line(alloc)?;
        waiting.extend_from_slice(line.as_slice())
    }
}

/// Puts a text whole.
pub fn put<W: Sink>(text: &[u8], out: &mut W) -> Result<(), Stopped>
    ensures { IsPut text.now result (sunk W.contents W.faults out.old out.new) }
{
    match out.put(text) {
        Ok(()) => Ok(()),
        Err(_) => Err(Stopped::WriteFailed),
    }
}

// Puts what waits, if anything does.
fn put_waiting<W: Sink>(waiting: &mut Vec<u8>, out: &mut W) -> Result<(), Stopped>
    ensures put { IsPut waiting.old.items result (sunk W.contents W.faults out.old out.new) }
    ensures none { OnOk result (waiting.new.items ≡ []) }
{
    if waiting.is_empty() {
        return Ok(());
    }
    match put(waiting.as_slice(), out) {
        Ok(()) => {
            waiting.clear();
            Ok(())
        }
        Err(stopped) => Err(stopped),
    }
}

// Adds the line of an item to those that wait, and puts them once they are many.
fn pass<T: Line, W: Sink>(
    alloc: Global,
    item: &T,
    waiting: &mut Vec<u8>,
    out: &mut W,
) -> Result<(), Stopped>
    ensures { Passes waiting.old.items (T.text item.now) waiting.new.items result (sunk W.contents W.faults out.old out.new) }
{
    item.add(alloc, waiting)?;
    if waiting.len() < PIECE {
        return Ok(());
    }
    match put_waiting(waiting, out) {
        Ok(()) => Ok(()),
        Err(stopped) => Err(stopped),
    }
}

/// Puts a line for each item, one after the other, many at a time.
pub fn put_lines<T: Line, W: Sink>(alloc: Global, items: &[T], out: &mut W) -> Result<(), Stopped>
    ensures { IsPut (flat_map T.text items.now) result (sunk W.contents W.faults out.old out.new) }
{
    let mut waiting = Vec::new(alloc);
    'items: for item in items {
        match pass(alloc, item, &mut waiting, out) {
            Ok(()) => {}
            Err(stopped) => return Err(stopped),
        }
    }
    put_waiting(&mut waiting, out)
}
