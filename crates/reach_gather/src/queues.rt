// The free queues, whose trees are of ephemeral nodes.
ghost use Rattle.std.specs.Prelude.{◌≡◌, ◌∷◌, ◌==◌, ◌+◌, ◌≤◌, ℕ, List, [], length, Some, false, OnOk, IfErr, IsErrOf};
ghost use Rattle.apfs_model.specs.Counts.{Rose};
ghost use Rattle.apfs_model.specs.Kept.{IsKept};
ghost use Rattle.obj_base.specs.Site.{IsSiteFor};
ghost use Rattle.obj_base.specs.Stops.{Tells};
ghost use Rattle.obj_base.specs.declared.stop.Stop.TheVariants.{ReadFault};
ghost use Rattle.nx_ring.specs.Checkpoint.{site_of};
ghost use Rattle.space_map.specs.Fields.{pool_queue_of, main_queue_of};
ghost use Rattle.space_map.specs.Stops.{IsSpaceOf};
ghost use Rattle.space_pool.specs.declared.entry.Queue.TheVariants.{Pool, Main};
ghost use Rattle.reach_rules.specs.Features.{HasFeature};
ghost use Rattle.reach_rules.specs.declared.naming.LookUp.TheVariants.{ByMapping};
ghost use Rattle.reach_rules.specs.declared.naming.TreeKind.TheVariants.{FreeQueue};
ghost use Rattle.reach_rules.specs.declared.naming.Expected.TheVariants.{TreeRoot};
ghost use Rattle.reach_rules.specs.Reached.{IsReachedFault};
ghost use Rattle.reach_gather.specs.Adds.{Adds};
ghost use Rattle.reach_gather.specs.Pooled.{ArePooled};

use crate::Gathered;
use crate::raising::raise_pool;
use crate::ranges::{tell_all, tell_all_pool};
use crate::steps::note_ids;
use blk_source::BlockSource;
use nx_ring::Checkpoint;
use obj_base::Stop;
use reach_rules::{Naming, ReachFault, TreeKind};
use space_map::Space;
use space_pool::{Queue, queue_walk};
use std::alloc::Global;

/// Adds the free queue of the main device, by the naming of its root, with the ranges that it keeps.
pub(crate) fn add_main_queue<S: BlockSource>(
    alloc: Global,
    src: &mut S,
    cp: &Checkpoint,
    space: &Space,
    root: Naming,
    out: &mut Gathered,
) -> Result<(), Stop<ReachFault>>
    requires site { IsSiteFor (site_of cp.now) (S.bytes_len src.old) }
    requires how { root.how ≡ ByMapping }
    requires kind { root.expected ≡ TreeRoot (FreeQueue Main) }
    requires root { root.oid ≡ main_queue_of space.now.manager }
    requires some { (root.oid == 0) ≡ false }
    ensures clear { (image : List ℕ) → S.bytes src.old ≡ Some image → OnOk result (Adds image cp.now (root ∷ []) [] out.old out.new) }
    ensures present { (image : List ℕ) → S.bytes src.old ≡ Some image → IsSpaceOf image cp.now space.now → IfErr result (Tells (IsReachedFault image cp.now) (HasFeature image cp.now)) }
    ensures reads { (image : List ℕ) → S.bytes src.old ≡ Some image → OnOk result (S.reads src.new + length out.old.namings ≤ S.reads src.old + length out.new.namings) }
    ensures cause { IsErrOf result ReadFault → Rose (S.faults src.old) (S.faults src.new) }
    ensures kept { IsKept S.bytes S.bytes_len S.faults src.old src.new }
{
    let queued = match queue_walk(alloc, src, cp, space, Queue::Main) {
        Ok(queued) => queued,
        Err(stop) => return Err(raise_pool(cp, stop)),
    };
    out.note_id(root)?;
    tell_all(alloc, out, root, queued.entries.as_slice())?;
    note_ids(out, TreeKind::FreeQueue(Queue::Main), &queued.steps)?;
    Ok(())
}

/// Adds the free queue of the pool, by the naming of its root, with the ranges that it keeps, all of which lie in the pool.
pub(crate) fn add_pool_queue<S: BlockSource>(
    alloc: Global,
    src: &mut S,
    cp: &Checkpoint,
    space: &Space,
    root: Naming,
    out: &mut Gathered,
) -> Result<(), Stop<ReachFault>>
    requires site { IsSiteFor (site_of cp.now) (S.bytes_len src.old) }
    requires how { root.how ≡ ByMapping }
    requires kind { root.expected ≡ TreeRoot (FreeQueue Pool) }
    requires root { root.oid ≡ pool_queue_of space.now.manager }
    requires some { (root.oid == 0) ≡ false }
    ensures clear { (image : List ℕ) → S.bytes src.old ≡ Some image → OnOk result (Adds image cp.now (root ∷ []) [] out.old out.new) }
    ensures queued { (image : List ℕ) → S.bytes src.old ≡ Some image → OnOk result (ArePooled image cp.now space.now.manager) }
    ensures present { (image : List ℕ) → S.bytes src.old ≡ Some image → IsSpaceOf image cp.now space.now → IfErr result (Tells (IsReachedFault image cp.now) (HasFeature image cp.now)) }
    ensures reads { (image : List ℕ) → S.bytes src.old ≡ Some image → OnOk result (S.reads src.new + length out.old.namings ≤ S.reads src.old + length out.new.namings) }
    ensures cause { IsErrOf result ReadFault → Rose (S.faults src.old) (S.faults src.new) }
    ensures kept { IsKept S.bytes S.bytes_len S.faults src.old src.new }
{
    let queued = match queue_walk(alloc, src, cp, space, Queue::Pool) {
        Ok(queued) => queued,
        Err(stop) => return Err(raise_pool(cp, stop)),
    };
    out.note_id(root)?;
    tell_all_pool(alloc, out, root, queued.entries.as_slice())?;
    note_ids(out, TreeKind::FreeQueue(Queue::Pool), &queued.steps)?;
    Ok(())
}
