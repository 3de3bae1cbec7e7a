// The notes of a container, in the order of their kinds.
ghost use Rattle.std.specs.Prelude.{◌≡◌, ◌++◌, OnOk, IfOk};
ghost use Rattle.apfs_check.specs.Notes.{skipped_notes};

use nx_ring::Checkpoint;
use std::alloc::{AllocError, Global};
use view_rules::Note;

/// Puts notes after others. Where there are no others, their list is the one that is kept.
pub(crate) fn append(notes: &mut Vec<Note>, more: Vec<Note>) -> Result<(), AllocError>
    ensures { OnOk result (notes.new.items ≡ notes.old.items ++ more.items) }
{
    if notes.is_empty() {
        *notes = more;
        return Ok(());
    }
    'more: for note in more {
        notes.push(note)?;
    }
    Ok(())
}

/// The notes on the candidates that a checkpoint stands before.
pub(crate) fn skipped(alloc: Global, cp: &Checkpoint) -> Result<Vec<Note>, AllocError>
    ensures { IfOk result (λ notes. notes.items ≡ skipped_notes cp.now) }
{
    let mut notes = Vec::new(alloc);
    let candidates = cp.skipped();
    'candidates: for candidate in candidates {
        notes.push(Note::Skipped {
            index: candidate.0,
            xid: candidate.1,
        })?;
    }
    Ok(notes)
}
