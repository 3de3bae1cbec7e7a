// The command `volumes`.
ghost use Rattle.std.specs.Prelude.{◌≡◌, ◌++◌, [], List, ℕ, IfOk, Ok, Some};
ghost use Rattle.std.specs.String.{string_bytes};
ghost use Rattle.apfs_model.specs.Kept.{IsKept};
ghost use Rattle.obj_base.specs.Site.{IsSiteFor};
ghost use Rattle.nx_ring.specs.Checkpoint.{site_of};
ghost use Rattle.nx_ring.specs.Features.{container_features};
ghost use Rattle.nx_ring.specs.Newest.{newest_of};
ghost use Rattle.cmd_texts.specs.Commands.Volumes.{prefix_text, volume_text};
ghost use Rattle.cmd_texts.specs.Commands.Volumes as texts;
ghost use Rattle.cmd_lines.specs.Names.{uuid_text};
ghost use Rattle.cmd_texts.specs.Handed.{looked};
ghost use Rattle.cmd_texts.specs.Ended.{HasEnded};
ghost use Rattle.cmd_lines.specs.Words.{Volumes};
ghost use Rattle.cmd_lines.specs.Written.{sunk};

use crate::put::{Line, put_lines};
use blk_source::{BlockSource, Sink};
use cmd_lines::{Stopped, identifier, stopped_by};
use fs_name::{Names, push_shown};
use nx_ring::{Checkpoint, newest};
use std::alloc::{AllocError, Global};
use vol_view::{VolHead, heads};

// How a volume compares names.
fn names_word(names: Names) -> &'static str
    ensures { result.now ≡ texts.names_word names }
{
    match names {
        Names::Exact => "exact",
        Names::Normal => "normal",
        Names::Folded => "folded",
    }
}

// The line of a volume up to its name, with the text of its identifier.
fn before_name(alloc: Global, head: &VolHead, uuid: &str) -> Result<String, AllocError>
    requires { uuid.now ≡ uuid_text head.now.uuid }
    ensures { IfOk result (λ text. string_bytes text ≡ prefix_text head.now) }
{
    let slot = head.slot;
    let role = head.role;
    let names = names_word(Names::of_features(head.incompat));
    let snapshots = head.snapshots;
    format!(in alloc; "{slot} {uuid} {role} {names} {snapshots} ")
}

/// A volume's slot, identifier and role, how it compares names, the number of its snapshots, and its name.
impl Line for VolHead {
    ghost text = { λ head. volume_text head };

    fn line(&self, alloc: Global) -> Result<Vec<u8>, AllocError> {
        let uuid = identifier(alloc, self.uuid)?;
        let mut line = before_name(alloc, self, uuid.as_str())?.into_bytes();
        push_shown(&mut line, self.name.as_slice())?;
        line.push(b'\n')?;
        Ok(line)
    }
}

// Writes the volumes of the newest checkpoint.
fn write_at<S: BlockSource, W: Sink>(
    alloc: Global,
    src: &mut S,
    checkpoint: &Checkpoint,
    out: &mut W,
) -> Result<(), Stopped>
    requires site { IsSiteFor (site_of checkpoint.now) (S.bytes_len src.old) }
    requires plain { container_features checkpoint.now.nx ≡ [] }
    requires found { (image : List ℕ) → S.bytes src.old ≡ Some image → newest_of image ≡ Ok checkpoint.now }
    ensures answer { HasEnded Volumes (looked S.bytes S.faults src.old src.new) result (sunk W.contents W.faults out.old out.new) }
    ensures kept { IsKept S.bytes S.bytes_len S.faults src.old src.new }
{
    match heads(alloc, src, checkpoint) {
        Ok(heads) => put_lines(alloc, heads.as_slice(), out),
        Err(stop) => Err(stopped_by(stop, checkpoint.xid())),
    }
}

/// Writes the volumes.
pub fn write<S: BlockSource, W: Sink>(
    alloc: Global,
    src: &mut S,
    out: &mut W,
) -> Result<(), Stopped>
    ensures answer { HasEnded Volumes (looked S.bytes S.faults src.old src.new) result (sunk W.contents W.faults out.old out.new) }
    ensures kept { IsKept S.bytes S.bytes_len S.faults src.old src.new }
{
    match newest(alloc, src) {
        Ok(checkpoint) => write_at(alloc, src, &checkpoint, out),
        Err(stop) => Err(stopped_by(stop, ())),
    }
}
