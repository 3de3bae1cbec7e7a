// The EFI jumpstart, which owns its block, with the extents of its driver.
ghost use Rattle.std.specs.Prelude.{◌≡◌, ◌+◌, ◌≤◌, ℕ, List, [], length, Some, OnOk, IfErr, IsErrOf};
ghost use Rattle.apfs_model.specs.Counts.{Rose};
ghost use Rattle.apfs_model.specs.Kept.{IsKept};
ghost use Rattle.obj_base.specs.Site.{IsSiteFor};
ghost use Rattle.obj_base.specs.Stops.{Tells};
ghost use Rattle.obj_base.specs.declared.stop.Stop.TheVariants.{ReadFault};
ghost use Rattle.nx_ring.specs.Checkpoint.{site_of};
ghost use Rattle.reach_rules.specs.Features.{HasFeature};
ghost use Rattle.reach_rules.specs.Reached.{IsReachedFault};
ghost use Rattle.reach_gather.specs.Container.{jumpstart_naming};
ghost use Rattle.reach_gather.specs.Adds.{Adds};

use crate::Gathered;
use crate::starting::jumpstart;
use apfs_layout::container;
use blk_source::BlockSource;
use nx_ring::Checkpoint;
use obj_base::Stop;
use reach_rules::{Expected, LookUp, Namer, Naming, Object, ReachFault};
use std::alloc::Global;

/// Adds the EFI jumpstart, where the superblock names one, with the extents of its driver.
pub fn add_jumpstart<S: BlockSource>(
    alloc: Global,
    src: &mut S,
    cp: &Checkpoint,
    out: &mut Gathered,
) -> Result<(), Stop<ReachFault>>
    requires site { IsSiteFor (site_of cp.now) (S.bytes_len src.old) }
    ensures clear { (image : List ℕ) → S.bytes src.old ≡ Some image → OnOk result (Adds image cp.now (jumpstart_naming cp.now.nx) [] out.old out.new) }
    ensures present { (image : List ℕ) → S.bytes src.old ≡ Some image → IfErr result (Tells (IsReachedFault image cp.now) (HasFeature image cp.now)) }
    ensures reads { (image : List ℕ) → S.bytes src.old ≡ Some image → OnOk result (S.reads src.new + length out.old.namings ≤ S.reads src.old + length out.new.namings) }
    ensures cause { IsErrOf result ReadFault → Rose (S.faults src.old) (S.faults src.new) }
    ensures kept { IsKept S.bytes S.bytes_len S.faults src.old src.new }
{
    let extents = match jumpstart(alloc, src, cp) {
        Ok(extents) => extents,
        Err(stop) => return Err(stop),
    };
    let block = cp.nx().jumpstart();
    if block == 0 {
        return Ok(());
    }
    let naming = Naming {
        namer: Namer::Whole(Object::Newest),
        at: container::JUMPSTART as u64,
        expected: Expected::Jumpstart,
        how: LookUp::ByBlock,
        oid: block,
    };
    out.note_block(naming)?;
    out.tell_those(naming, extents)?;
    Ok(())
}
