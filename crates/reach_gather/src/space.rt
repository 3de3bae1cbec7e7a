// The space of a container: its manager, the two free queues, and the blocks that tell of chunks.
ghost use Rattle.std.specs.Prelude.{◌≡◌, ◌∷◌, ◌++◌, ◌==◌, ◌+◌, ◌≤◌, ℕ, List, [], length, Some, OnOk, IfErr, IsErrOf, if◌then◌else◌};
ghost use Rattle.apfs_model.specs.Counts.{Rose};
ghost use Rattle.apfs_model.specs.Kept.{IsKept};
ghost use Rattle.obj_base.specs.Site.{IsSiteFor};
ghost use Rattle.obj_base.specs.Stops.{Tells};
ghost use Rattle.obj_base.specs.declared.stop.Stop.TheVariants.{ReadFault};
ghost use Rattle.nx_block.specs.Super.{space_oid_of};
ghost use Rattle.nx_ring.specs.Checkpoint.{site_of};
ghost use Rattle.space_map.specs.Fields.{pool_base_of, pool_blocks_of, ring_base_of, ring_blocks_of, pool_queue_of, main_queue_of};
ghost use Rattle.space_map.specs.Stops.{IsSpaceOf};
ghost use Rattle.reach_rules.specs.declared.naming.LookUp.TheVariants.{ByMapping};
ghost use Rattle.reach_rules.specs.declared.naming.Object.TheVariants.{OfId};
ghost use Rattle.reach_rules.specs.declared.naming.Namer.TheVariants.{Whole};
ghost use Rattle.reach_rules.specs.declared.naming.Expected.TheVariants.{TreeRoot};
ghost use Rattle.reach_rules.specs.Naming.{naming};
ghost use Rattle.reach_rules.specs.Features.{HasFeature};
ghost use Rattle.reach_rules.specs.declared.owner.Who.TheVariants.{InternalPool, PoolRing};
ghost use Rattle.reach_rules.specs.Owners.{owner};
ghost use Rattle.reach_rules.specs.Reached.{IsReachedFault};
ghost use Rattle.reach_gather.specs.Container.{pool_queue_naming, main_queue_naming, manager_naming};
ghost use Rattle.reach_gather.specs.Space.{manager_namer};
ghost use Rattle.reach_gather.specs.Adds.{Adds};
ghost use Rattle.reach_gather.specs.Pooled.{ArePooled};

use crate::Gathered;
use crate::infos::note_space;
use crate::queues::{add_main_queue, add_pool_queue};
use apfs_layout::{container, space_manager as layout};
use blk_source::{BlockSource, NoMemory};
use nx_ring::Checkpoint;
use obj_base::{Stop, u64_at};
use reach_rules::{Expected, LookUp, Namer, Naming, Object, Owner, ReachFault, TreeKind, Who};
use space_map::Space;
use space_pool::Queue;
use std::alloc::Global;

// The manager, with the pool and the ring of the pool's bitmaps.
fn add_manager(cp: &Checkpoint, space: &Space, out: &mut Gathered) -> Result<(), NoMemory>
    ensures namings { OnOk result (out.new.namings ≡ out.old.namings ++ manager_naming cp.now.nx ∷ []) }
    ensures owners { OnOk result (out.new.owners ≡ (out.old.owners ++ (if pool_blocks_of space.now.manager == 0 then [] else owner InternalPool (pool_base_of space.now.manager) (pool_blocks_of space.now.manager) ∷ [])) ++ (if ring_blocks_of space.now.manager == 0 then [] else owner PoolRing (ring_base_of space.now.manager) (ring_blocks_of space.now.manager) ∷ [])) }
    ensures pool_owners { out.new.pool_owners ≡ out.old.pool_owners }
{
    let manager = Naming {
        namer: Namer::Whole(Object::Newest),
        at: container::SPACE_OID as u64,
        expected: Expected::SpaceManager,
        how: LookUp::ByMapping,
        oid: cp.nx().space_oid(),
    };
    let (first, blocks) = space.pool();
    let (ring, ring_blocks) = space.pool_ring();
    out.note_id(manager)?;
    out.tell(Owner {
        who: Who::InternalPool,
        first,
        blocks,
    })?;
    out.tell(Owner {
        who: Who::PoolRing,
        first: ring,
        blocks: ring_blocks,
    })
}

// The root of the pool's queue, 0 where it has none.
#[tactic(auto, unfolding(space_map::specs::Fields::pool_queue_of))]
fn pool_root(space: &Space) -> u64
    ensures { result ≡ pool_queue_of space.now.manager }
{
    u64_at(space.manager(), layout::POOL_QUEUE_TREE)
}

// The root of the main device's queue, 0 where it has none.
#[tactic(auto, unfolding(space_map::specs::Fields::main_queue_of))]
fn main_root(space: &Space) -> u64
    ensures { result ≡ main_queue_of space.now.manager }
{
    u64_at(space.manager(), layout::MAIN_QUEUE_TREE)
}

// The naming of the root of a queue, by the manager.
fn root(cp: &Checkpoint, at: u64, tree: TreeKind, oid: u64) -> Naming
    ensures { result ≡ naming (Whole (OfId (space_oid_of cp.now.nx))) at (TreeRoot tree) ByMapping oid }
{
    Naming {
        namer: Namer::Whole(Object::OfId(cp.nx().space_oid())),
        at,
        expected: Expected::TreeRoot(tree),
        how: LookUp::ByMapping,
        oid,
    }
}

// Adds the pool's queue, where it has one, whose entries lie in the pool.
fn add_pool<S: BlockSource>(
    alloc: Global,
    src: &mut S,
    cp: &Checkpoint,
    space: &Space,
    out: &mut Gathered,
) -> Result<(), Stop<ReachFault>>
    requires site { IsSiteFor (site_of cp.now) (S.bytes_len src.old) }
    ensures clear { (image : List ℕ) → S.bytes src.old ≡ Some image → OnOk result (Adds image cp.now (pool_queue_naming (manager_namer cp.now.nx) space.now.manager) [] out.old out.new) }
    ensures queued { (image : List ℕ) → S.bytes src.old ≡ Some image → OnOk result (ArePooled image cp.now space.now.manager) }
    ensures present { (image : List ℕ) → S.bytes src.old ≡ Some image → IsSpaceOf image cp.now space.now → IfErr result (Tells (IsReachedFault image cp.now) (HasFeature image cp.now)) }
    ensures reads { (image : List ℕ) → S.bytes src.old ≡ Some image → OnOk result (S.reads src.new + length out.old.namings ≤ S.reads src.old + length out.new.namings) }
    ensures cause { IsErrOf result ReadFault → Rose (S.faults src.old) (S.faults src.new) }
    ensures kept { IsKept S.bytes S.bytes_len S.faults src.old src.new }
{
    let oid = pool_root(space);
    if oid == 0 {
        return Ok(());
    }
    let root = root(cp, 208, TreeKind::FreeQueue(Queue::Pool), oid);
    match add_pool_queue(alloc, src, cp, space, root, out) {
        Ok(()) => Ok(()),
        Err(stop) => Err(stop),
    }
}

// Adds the main device's queue, where it has one.
fn add_main<S: BlockSource>(
    alloc: Global,
    src: &mut S,
    cp: &Checkpoint,
    space: &Space,
    out: &mut Gathered,
) -> Result<(), Stop<ReachFault>>
    requires site { IsSiteFor (site_of cp.now) (S.bytes_len src.old) }
    ensures clear { (image : List ℕ) → S.bytes src.old ≡ Some image → OnOk result (Adds image cp.now (main_queue_naming (manager_namer cp.now.nx) space.now.manager) [] out.old out.new) }
    ensures present { (image : List ℕ) → S.bytes src.old ≡ Some image → IsSpaceOf image cp.now space.now → IfErr result (Tells (IsReachedFault image cp.now) (HasFeature image cp.now)) }
    ensures reads { (image : List ℕ) → S.bytes src.old ≡ Some image → OnOk result (S.reads src.new + length out.old.namings ≤ S.reads src.old + length out.new.namings) }
    ensures cause { IsErrOf result ReadFault → Rose (S.faults src.old) (S.faults src.new) }
    ensures kept { IsKept S.bytes S.bytes_len S.faults src.old src.new }
{
    let oid = main_root(space);
    if oid == 0 {
        return Ok(());
    }
    let root = root(cp, 248, TreeKind::FreeQueue(Queue::Main), oid);
    match add_main_queue(alloc, src, cp, space, root, out) {
        Ok(()) => Ok(()),
        Err(stop) => Err(stop),
    }
}

/// Adds the space that was loaded of a container: its manager, the free queues with what they keep, and the blocks that tell of chunks with the
/// bitmaps of the chunks. `Pool` comes where an entry of the pool's queue leaves the pool.
pub fn add_space<S: BlockSource>(
    alloc: Global,
    src: &mut S,
    cp: &Checkpoint,
    space: &Space,
    out: &mut Gathered,
) -> Result<(), Stop<ReachFault>>
    requires site { IsSiteFor (site_of cp.now) (S.bytes_len src.old) }
    ensures clear { (image : List ℕ) → S.bytes src.old ≡ Some image → IsSpaceOf image cp.now space.now → OnOk result (Adds image cp.now (manager_naming cp.now.nx ∷ []) [] out.old out.new) }
    ensures queued { (image : List ℕ) → S.bytes src.old ≡ Some image → OnOk result (ArePooled image cp.now space.now.manager) }
    ensures present { (image : List ℕ) → S.bytes src.old ≡ Some image → IsSpaceOf image cp.now space.now → IfErr result (Tells (IsReachedFault image cp.now) (HasFeature image cp.now)) }
    ensures reads { (image : List ℕ) → S.bytes src.old ≡ Some image → IsSpaceOf image cp.now space.now → OnOk result (S.reads src.new + (length space.now.cabs + length space.now.cibs) + length out.old.namings ≤ S.reads src.old + length out.new.namings) }
    ensures cause { IsErrOf result ReadFault → Rose (S.faults src.old) (S.faults src.new) }
    ensures kept { IsKept S.bytes S.bytes_len S.faults src.old src.new }
{
    add_manager(cp, space, out)?;
    match add_pool(alloc, src, cp, space, out) {
        Ok(()) => (),
        Err(stop) => return Err(stop),
    }
    match add_main(alloc, src, cp, space, out) {
        Ok(()) => (),
        Err(stop) => return Err(stop),
    }
    note_space(space, cp.nx().space_oid(), out)?;
    Ok(())
}
