// Trees of physical nodes, from the namings of their roots on.
ghost use Rattle.std.specs.Prelude.{◌≡◌, ◌∷◌, ◌++◌, ◌==◌, ◌+◌, ◌≤◌, ℕ, List, [], length, map, Some, false, OnOk, IfErr, IsErrOf};
ghost use Rattle.apfs_model.specs.Counts.{Rose};
ghost use Rattle.apfs_model.specs.Kept.{IsKept};
ghost use Rattle.obj_base.specs.Site.{IsSiteFor};
ghost use Rattle.obj_base.specs.Stops.{Tells};
ghost use Rattle.obj_base.specs.declared.stop.Stop.TheVariants.{ReadFault};
ghost use Rattle.nx_ring.specs.Checkpoint.{site_of};
ghost use Rattle.reach_rules.specs.Features.{HasFeature};
ghost use Rattle.reach_rules.specs.Live.{IsLive};
ghost use Rattle.reach_rules.specs.declared.naming.LookUp.TheVariants.{ByBlock};
ghost use Rattle.reach_rules.specs.declared.naming.TreeKind.TheVariants.{ExtentRefs};
ghost use Rattle.reach_rules.specs.declared.naming.Expected.TheVariants.{TreeRoot};
ghost use Rattle.reach_rules.specs.Reached.{IsReachedFault};
ghost use Rattle.reach_gather.specs.Adds.{Adds};
ghost use Rattle.reach_gather.specs.Steps.{node_namings, block_owner};

use crate::Gathered;
use crate::raising::raise_extents;
use crate::ranges::tell_all;
use crate::steps::note_blocks;
use blk_source::{BlockSource, NoMemory};
use bt_cursor::Step;
use ext_ref::scan;
use nx_ring::Checkpoint;
use obj_base::Stop;
use reach_rules::{Naming, ReachFault, TreeKind};
use std::alloc::Global;

/// Adds a tree of physical nodes, by the naming of its root and by its steps: each node with its block, and nothing of which the
/// tree tells. Nothing is read.
pub(crate) fn add_nodes(
    tree: TreeKind,
    root: Naming,
    steps: &[Step],
    out: &mut Gathered,
) -> Result<(), NoMemory>
    ensures namings { OnOk result (out.new.namings ≡ out.old.namings ++ node_namings tree root steps.now) }
    ensures owners { OnOk result (out.new.owners ≡ out.old.owners ++ map block_owner (node_namings tree root steps.now)) }
    ensures pool_owners { out.new.pool_owners ≡ out.old.pool_owners }
{
    out.note_block(root)?;
    note_blocks(out, tree, steps)?;
    Ok(())
}

/// Adds a tree of extent references, by the naming of its root, with the new ranges of which it tells.
pub(crate) fn add_extents<S: BlockSource>(
    alloc: Global,
    src: &mut S,
    cp: &Checkpoint,
    root: Naming,
    out: &mut Gathered,
) -> Result<(), Stop<ReachFault>>
    requires site { IsSiteFor (site_of cp.now) (S.bytes_len src.old) }
    requires how { root.how ≡ ByBlock }
    requires kind { root.expected ≡ TreeRoot ExtentRefs }
    requires some { (root.oid == 0) ≡ false }
    ensures clear { (image : List ℕ) → S.bytes src.old ≡ Some image → OnOk result (Adds image cp.now (root ∷ []) [] out.old out.new) }
    ensures present { (image : List ℕ) → S.bytes src.old ≡ Some image → IsLive image cp.now root → IfErr result (Tells (IsReachedFault image cp.now) (HasFeature image cp.now)) }
    ensures reads { (image : List ℕ) → S.bytes src.old ≡ Some image → OnOk result (S.reads src.new + length out.old.namings ≤ S.reads src.old + length out.new.namings) }
    ensures cause { IsErrOf result ReadFault → Rose (S.faults src.old) (S.faults src.new) }
    ensures kept { IsKept S.bytes S.bytes_len S.faults src.old src.new }
{
    let site = cp.site();
    let scanned = match scan(alloc, src, root.oid, &site) {
        Ok(scanned) => scanned,
        Err(stop) => return Err(raise_extents(cp, root.oid, stop)),
    };
    out.note_block(root)?;
    tell_all(alloc, out, root, scanned.ranges.as_slice())?;
    note_blocks(out, TreeKind::ExtentRefs, &scanned.steps)?;
    Ok(())
}
