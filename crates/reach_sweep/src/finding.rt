// The records by which the volumes of a container are found.
ghost use Rattle.std.specs.Prelude.{◌≡◌, ◌++◌, ℕ, List, [], ◌∷◌, OnOk, IfOk, IfErr};
ghost use Rattle.std.specs.List.{filter_map};
ghost use Rattle.obj_base.specs.declared.stop.Stop.TheVariants.{NoMemory};
ghost use Rattle.nx_block.specs.Super.{omap_oid_of};
ghost use Rattle.nx_ring.specs.Checkpoint.{site_of};
ghost use Rattle.omap_map.specs.Maps.{map_records};
ghost use Rattle.vol_view.specs.Volumes.{Loaded};
ghost use Rattle.vol_view.specs.declared.head.VolHead.{VolHead};
ghost use Rattle.reach_rules.specs.declared.naming.Namer.{Namer};
ghost use Rattle.reach_gather.specs.Volumes.Laws.{HasParts};
ghost use Rattle.reach_sweep.specs.Composed.{records_used, AreHeadRecords};
ghost use Rattle.reach_sweep.specs.Used.{found_of};
ghost use Rattle.reach_sweep.specs.Views.{AreVolumes};

use nx_ring::Checkpoint;
use obj_base::Stop;
use omap_map::Omap;
use reach_rules::ReachFault;
use std::alloc::Global;
use view_sweep::Used;
use vol_view::Volume;

// The record by which a volume is found, as one that is used.
fn record_of(cp: &Checkpoint, volume: &Volume, omap: &Omap) -> Option<Used>
    ensures { result ≡ found_of cp.now omap.now.records volume.now }
{
    match omap.record(volume.head.oid, cp.xid()) {
        Some(mapping) => Some(Used {
            map: cp.nx().omap_oid(),
            mapping,
        }),
        None => None,
    }
}

// Adds the record by which a volume is found.
fn add_found(
    cp: &Checkpoint,
    volume: &Volume,
    omap: &Omap,
    out: &mut Vec<Used>,
) -> Result<(), Stop<ReachFault>>
    ensures added { OnOk result (out.new.items ≡ out.old.items ++ filter_map (found_of cp.now omap.now.records) (volume.now ∷ [])) }
    ensures memory_only { IfErr result (λ stop. stop ≡ NoMemory) }
{
    let Some(one) = record_of(cp, volume, omap) else {
        return Ok(());
    };
    out.push(one)?;
    Ok(())
}

/// The records of the container's object map by which some volumes are found. `omap` is that map.
pub(crate) fn head_records(
    alloc: Global,
    cp: &Checkpoint,
    volumes: &[Volume],
    omap: &Omap,
) -> Result<Vec<Used>, Stop<ReachFault>>
    ensures found { (image : List ℕ) (heads : List VolHead) (namer : Loaded → Namer) → HasParts image cp.now heads → omap.now.records ≡ map_records image (site_of cp.now) (omap_oid_of cp.now.nx) → AreVolumes image cp.now heads volumes.now namer → IfOk result (λ found. AreHeadRecords image cp.now heads (records_used found.items)) }
    ensures memory_only { IfErr result (λ stop. stop ≡ NoMemory) }
{
    let mut found = Vec::new(alloc);
    for i in 0..volumes.len() {
        let volume = &volumes[i];
        match add_found(cp, volume, omap, &mut found) {
            Ok(()) => (),
            Err(stop) => return Err(stop),
        }
    }
    Ok(found)
}
