// What is gathered of a container before its views are swept.
ghost use Rattle.std.specs.Prelude.{◌≡◌, ◌∷◌, ◌++◌, ◌+◌, ◌≤◌, ℕ, List, [], Some, length, OnOk, IfOk, IfErr, IsErrOf};
ghost use Rattle.apfs_model.specs.Counts.{Rose};
ghost use Rattle.apfs_model.specs.Kept.{IsKept};
ghost use Rattle.obj_base.specs.Site.{IsSiteFor};
ghost use Rattle.obj_base.specs.Stops.{Tells};
ghost use Rattle.obj_base.specs.declared.stop.Stop.TheVariants.{ReadFault, NoMemory};
ghost use Rattle.nx_block.specs.Super.{omap_oid_of};
ghost use Rattle.nx_ring.specs.Checkpoint.{site_of};
ghost use Rattle.omap_map.specs.Maps.{map_records};
ghost use Rattle.vol_view.specs.Volumes.{Loaded};
ghost use Rattle.vol_view.specs.declared.head.VolHead.{VolHead};
ghost use Rattle.space_map.specs.Stops.{IsSpaceOf};
ghost use Rattle.reach_rules.specs.declared.naming.Namer.{Namer};
ghost use Rattle.reach_rules.specs.Next.{roots};
ghost use Rattle.reach_rules.specs.Features.{HasFeature};
ghost use Rattle.reach_rules.specs.Owners.{first_owners};
ghost use Rattle.reach_rules.specs.Reached.{IsReachedFault};
ghost use Rattle.reach_gather.specs.Container.{container_map_naming};
ghost use Rattle.reach_gather.specs.Volumes.Parts.{IsMapPart, container_map};
ghost use Rattle.reach_gather.specs.Volumes.Laws.{HasParts};
ghost use Rattle.reach_gather.specs.Held.{some_owners};
ghost use Rattle.reach_gather.specs.Adds.{Adds};
ghost use Rattle.reach_gather.specs.Pooled.{ArePooled};
ghost use Rattle.reach_sweep.specs.Views.{AreVolumes, volumes_views};
ghost use Rattle.reach_sweep.specs.Composed.{IsStart};

use crate::loading::load_map;
use apfs_layout::container;
use blk_source::{BlockSource, NoMemory as OutOfMemory};
use nx_ring::Checkpoint;
use obj_base::Stop;
use omap_map::Omap;
use reach_gather::{Gathered, add_jumpstart, add_map, add_reaper, add_space, add_volumes};
use reach_rules::{Expected, LookUp, Namer, Naming, Object, Owner, ReachFault, Who};
use space_map::Space;
use std::alloc::Global;
use vol_view::Volume;

// Tells block 0, the areas and the lockers, those of them with a block.
fn tell_first(cp: &Checkpoint, out: &mut Gathered) -> Result<(), OutOfMemory>
    ensures namings { out.new.namings ≡ out.old.namings }
    ensures owners { OnOk result (out.new.owners ≡ out.old.owners ++ some_owners (first_owners cp.now.nx)) }
    ensures pool_owners { out.new.pool_owners ≡ out.old.pool_owners }
{
    let nx = cp.nx();
    let (key_locker, key_blocks) = nx.locker();
    let (media_locker, media_blocks) = nx.media_locker();
    out.tell(Owner {
        who: Who::BlockZero,
        first: 0,
        blocks: 1,
    })?;
    out.tell(Owner {
        who: Who::Descriptors,
        first: nx.desc_base(),
        blocks: u64::from(nx.desc_blocks()),
    })?;
    out.tell(Owner {
        who: Who::Checkpoints,
        first: nx.data_base(),
        blocks: u64::from(nx.data_blocks()),
    })?;
    out.tell(Owner {
        who: Who::KeyLocker,
        first: key_locker,
        blocks: key_blocks,
    })?;
    out.tell(Owner {
        who: Who::MediaLocker,
        first: media_locker,
        blocks: media_blocks,
    })?;
    Ok(())
}

/// The owners of which the newest superblock tells, and nothing else.
pub(crate) fn started(alloc: Global, cp: &Checkpoint) -> Result<Gathered, Stop<ReachFault>>
    ensures start { IfOk result (IsStart cp.now) }
    ensures memory_only { IfErr result (λ stop. stop ≡ NoMemory) }
{
    let mut out = Gathered::new(alloc);
    tell_first(cp, &mut out)?;
    Ok(out)
}

// Adds the container's object map, and gives it.
fn add_container_map<S: BlockSource>(
    alloc: Global,
    src: &mut S,
    cp: &Checkpoint,
    out: &mut Gathered,
) -> Result<Omap, Stop<ReachFault>>
    requires site { IsSiteFor (site_of cp.now) (S.bytes_len src.old) }
    ensures clear { (image : List ℕ) → S.bytes src.old ≡ Some image → IsMapPart image cp.now (container_map cp.now) → OnOk result (Adds image cp.now (container_map_naming cp.now.nx ∷ []) [] out.old out.new) }
    ensures records { (image : List ℕ) → S.bytes src.old ≡ Some image → IfOk result (λ omap. omap.records ≡ map_records image (site_of cp.now) (omap_oid_of cp.now.nx)) }
    ensures reads { (image : List ℕ) → S.bytes src.old ≡ Some image → OnOk result (S.reads src.new + length out.old.namings ≤ S.reads src.old + length out.new.namings) }
    ensures present { (image : List ℕ) → S.bytes src.old ≡ Some image → IsMapPart image cp.now (container_map cp.now) → IfErr result (Tells (IsReachedFault image cp.now) (HasFeature image cp.now)) }
    ensures cause { IsErrOf result ReadFault → Rose (S.faults src.old) (S.faults src.new) }
    ensures kept { IsKept S.bytes S.bytes_len S.faults src.old src.new }
{
    let omap = match load_map(alloc, src, cp) {
        Ok(omap) => omap,
        Err(stop) => return Err(stop),
    };
    let naming = Naming {
        namer: Namer::Whole(Object::Newest),
        at: container::OMAP_OID as u64,
        expected: Expected::ContainerMap,
        how: LookUp::ByBlock,
        oid: cp.nx().omap_oid(),
    };
    add_map(naming, &omap, out)?;
    Ok(omap)
}

/// Adds all that the roots lead to, but for what the views of the volumes name. What is answered is the container's object
/// map.
pub(crate) fn add_parts<S: BlockSource>(
    alloc: Global,
    src: &mut S,
    cp: &Checkpoint,
    space: &Space,
    volumes: &[Volume],
    out: &mut Gathered,
) -> Result<Omap, Stop<ReachFault>>
    requires site { IsSiteFor (site_of cp.now) (S.bytes_len src.old) }
    ensures clear { (image : List ℕ) (heads : List VolHead) (namer : Loaded → Namer) → S.bytes src.old ≡ Some image → HasParts image cp.now heads → AreVolumes image cp.now heads volumes.now namer → IsSpaceOf image cp.now space.now → OnOk result (Adds image cp.now (roots cp.now.nx) (volumes_views cp.now namer volumes.now) out.old out.new) }
    ensures records { (image : List ℕ) → S.bytes src.old ≡ Some image → IfOk result (λ omap. omap.records ≡ map_records image (site_of cp.now) (omap_oid_of cp.now.nx)) }
    ensures queued { (image : List ℕ) → S.bytes src.old ≡ Some image → OnOk result (ArePooled image cp.now space.now.manager) }
    ensures reads { (image : List ℕ) → S.bytes src.old ≡ Some image → IsSpaceOf image cp.now space.now → OnOk result (S.reads src.new + (length space.now.cabs + length space.now.cibs) + length out.old.namings ≤ S.reads src.old + length out.new.namings) }
    ensures present { (image : List ℕ) (heads : List VolHead) (namer : Loaded → Namer) → S.bytes src.old ≡ Some image → HasParts image cp.now heads → AreVolumes image cp.now heads volumes.now namer → IsSpaceOf image cp.now space.now → IfErr result (Tells (IsReachedFault image cp.now) (HasFeature image cp.now)) }
    ensures cause { IsErrOf result ReadFault → Rose (S.faults src.old) (S.faults src.new) }
    ensures kept { IsKept S.bytes S.bytes_len S.faults src.old src.new }
{
    match add_space(alloc, src, cp, space, out) {
        Ok(()) => (),
        Err(stop) => return Err(stop),
    }
    let omap = match add_container_map(alloc, src, cp, out) {
        Ok(omap) => omap,
        Err(stop) => return Err(stop),
    };
    match add_reaper(alloc, cp, out) {
        Ok(()) => (),
        Err(stop) => return Err(stop),
    }
    match add_jumpstart(alloc, src, cp, out) {
        Ok(()) => (),
        Err(stop) => return Err(stop),
    }
    match add_volumes(alloc, src, cp, volumes, &omap, out) {
        Ok(()) => Ok(omap),
        Err(stop) => Err(stop),
    }
}
