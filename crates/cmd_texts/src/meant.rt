// The volume that is meant.
ghost use Rattle.std.specs.Prelude.{◌≡◌, [], ℕ, List, Ok, Some, IfOk, IfErr, IsErrOf, option_copied};
ghost use Rattle.apfs_model.specs.Counts.{Rose};
ghost use Rattle.apfs_model.specs.Kept.{IsKept};
ghost use Rattle.obj_base.specs.Site.{IsSiteFor};
ghost use Rattle.nx_ring.specs.Checkpoint.{site_of};
ghost use Rattle.nx_ring.specs.Features.{container_features};
ghost use Rattle.nx_ring.specs.Newest.{newest_of};
ghost use Rattle.cmd_texts.specs.Meant.{IsMeantVolume};
ghost use Rattle.cmd_texts.specs.Meant as wanted;
ghost use Rattle.cmd_texts.specs.Reached.{TellsWay, IsWhileLooking};
ghost use Rattle.cmd_lines.specs.declared.stopped.Stopped.TheVariants.{ReadFailed};

use blk_source::BlockSource;
use cmd_lines::{Stopped, stopped_by};
use nx_ring::{Checkpoint, newest};
use path_walk::Answer;
use std::alloc::Global;
use vol_view::{VolHead, Volume, heads, load};

/// The newest checkpoint, and the volume that is meant.
#[derive(Drop)]
pub struct Reached {
    pub checkpoint: Checkpoint,
    pub volume: Volume,
}

// The slot that is meant.
fn meant_slot(heads: &[VolHead], named: Option<u8>) -> u32
    ensures { result ≡ wanted.meant_slot named heads.now }
{
    match (named, heads) {
        (Some(slot), _) => u32::from(slot),
        (None, []) => 0,
        (None, [head, ..]) => head.slot,
    }
}

// The volume that is meant, where the slot that is meant holds one.
fn meant_head<'a>(heads: &'a [VolHead], named: Option<u8>) -> Option<&'a VolHead>
    ensures { option_copied result ≡ wanted.meant_head named heads.now }
{
    let slot = meant_slot(heads, named);
    heads.iter().find(|head| head.slot == slot)
}

// Loads the volume that is meant, of those of a checkpoint.
fn load_meant<S: BlockSource>(
    alloc: Global,
    src: &mut S,
    checkpoint: &Checkpoint,
    named: Option<u8>,
) -> Result<Volume, Stopped>
    requires site { IsSiteFor (site_of checkpoint.now) (S.bytes_len src.old) }
    requires plain { container_features checkpoint.now.nx ≡ [] }
    requires found { (image : List ℕ) → S.bytes src.old ≡ Some image → newest_of image ≡ Ok checkpoint.now }
    ensures clear { (image : List ℕ) → S.bytes src.old ≡ Some image → IfOk result (λ volume. IsMeantVolume image named checkpoint.now volume.head volume) }
    ensures way { (image : List ℕ) → S.bytes src.old ≡ Some image → IfErr result (TellsWay image named) }
    ensures looking { IfErr result IsWhileLooking }
    ensures cause { IsErrOf result ReadFailed → Rose (S.faults src.old) (S.faults src.new) }
    ensures kept { IsKept S.bytes S.bytes_len S.faults src.old src.new }
{
    let heads = match heads(alloc, src, checkpoint) {
        Ok(heads) => heads,
        Err(stop) => return Err(stopped_by(stop, checkpoint.xid())),
    };
    match meant_head(&heads, named) {
        None => Err(Stopped::Answered(Answer::NoVolume)),
        Some(head) => match load(alloc, src, checkpoint, head) {
            Ok(volume) => Ok(volume),
            Err(stop) => Err(stopped_by(stop, checkpoint.xid())),
        },
    }
}

/// The newest checkpoint and the volume that is meant: the one in the slot that is named, otherwise the one in the
/// least slot that holds one. No other volume is loaded.
pub fn reach<S: BlockSource>(
    alloc: Global,
    src: &mut S,
    named: Option<u8>,
) -> Result<Reached, Stopped>
    ensures clear { (image : List ℕ) → S.bytes src.old ≡ Some image → IfOk result (λ reached. IsMeantVolume image named reached.checkpoint reached.volume.head reached.volume) }
    ensures way { (image : List ℕ) → S.bytes src.old ≡ Some image → IfErr result (TellsWay image named) }
    ensures looking { IfErr result IsWhileLooking }
    ensures site { IfOk result (λ reached. IsSiteFor (site_of reached.checkpoint) (S.bytes_len src.old)) }
    ensures cause { IsErrOf result ReadFailed → Rose (S.faults src.old) (S.faults src.new) }
    ensures kept { IsKept S.bytes S.bytes_len S.faults src.old src.new }
{
    let checkpoint = match newest(alloc, src) {
        Ok(checkpoint) => checkpoint,
        Err(stop) => return Err(stopped_by(stop, ())),
    };
    match load_meant(alloc, src, &checkpoint, named) {
        Ok(volume) => Ok(Reached { checkpoint, volume }),
        Err(stopped) => Err(stopped),
    }
}
