// Whether the records of all object maps are used.
ghost use Rattle.std.specs.Prelude.{◌≡◌, ◌++◌, ℕ, List, map, OnOk, IfOk, IfErr, IsErrOf};
ghost use Rattle.obj_base.specs.Stops.{Tells, NoFeature};
ghost use Rattle.obj_base.specs.declared.stop.Stop.TheVariants.{ReadFault, NoMemory};
ghost use Rattle.reach_rules.specs.Features.{HasFeature};
ghost use Rattle.reach_rules.specs.Reached.{IsReachedFault};
ghost use Rattle.view_sweep.specs.Unused.{AreAllUsed, IsUnusedHere, AreMapsOf, AreUsedOnes};
ghost use Rattle.reach_sweep.specs.Used.{maps_of, told_by_map, volume_map};

use nx_ring::Checkpoint;
use obj_base::{Stop, Within};
use omap_map::OmapRecord;
use reach_rules::ReachFault;
use std::alloc::Global;
use view_sweep::{MapRecords, Used, unused};
use vol_view::Volume;

// The records of a volume's map.
fn volume_map<'a>(volume: &'a Volume) -> MapRecords<'a>
    ensures { told_by_map result ≡ told_by_map (volume_map volume.now) }
{
    MapRecords {
        within: Within::Volume(volume.head.slot),
        map: volume.omap.block(),
        records: volume.omap.records(),
    }
}

// The records of the container's map, and of the maps of its volumes.
fn maps<'a>(
    alloc: Global,
    cp: &Checkpoint,
    volumes: &'a [Volume],
    records: &'a [OmapRecord],
) -> Result<Vec<MapRecords<'a>>, Stop<ReachFault>>
    ensures all { IfOk result (λ maps. map told_by_map maps.items ≡ map told_by_map (maps_of cp.now volumes.now records.now)) }
    ensures memory_only { IfErr result (λ stop. stop ≡ NoMemory) }
{
    let mut maps = Vec::new(alloc);
    maps.push(MapRecords {
        within: Within::Container,
        map: cp.nx().omap_oid(),
        records,
    })?;
    for volume in volumes {
        let map = volume_map(volume);
        maps.push(map)?;
    }
    Ok(maps)
}

// Two lists of records that are used, one after the other.
fn joined(alloc: Global, first: &[Used], second: &[Used]) -> Result<Vec<Used>, Stop<ReachFault>>
    ensures all { IfOk result (λ joined. joined.items ≡ first.now ++ second.now) }
    ensures memory_only { IfErr result (λ stop. stop ≡ NoMemory) }
{
    let mut joined = Vec::new(alloc);
    joined.extend_from_slice(first)?;
    joined.extend_from_slice(second)?;
    Ok(joined)
}

// Whether each record of some maps is one of two lists of used ones.
fn unused_in(
    alloc: Global,
    maps: &[MapRecords<'_>],
    found: &[Used],
    used: &[Used],
) -> Result<(), Stop<ReachFault>>
    ensures clear { OnOk result (AreAllUsed maps.now (found.now ++ used.now)) }
    ensures stops { IfErr result (Tells (IsUnusedHere maps.now (found.now ++ used.now)) NoFeature) }
    ensures no_read { IsErrOf result ReadFault → ⊥ }
{
    let joined = joined(alloc, found, used)?;
    match unused(alloc, maps, &joined) {
        Ok(()) => Ok(()),
        Err(stop) => Err(stop),
    }
}

/// Whether each record of the container's object map and of those of its volumes that isn't marked deleted is used: to find a
/// volume, or by a view. `records` are those of the container's map. `UnusedMapping` tells of one that isn't.
pub(crate) fn check_used(
    alloc: Global,
    cp: &Checkpoint,
    volumes: &[Volume],
    records: &[OmapRecord],
    found: &[Used],
    used: &[Used],
) -> Result<(), Stop<ReachFault>>
    ensures clear { OnOk result (AreAllUsed (maps_of cp.now volumes.now records.now) (found.now ++ used.now)) }
    ensures stops { IfErr result (Tells (IsUnusedHere (maps_of cp.now volumes.now records.now) (found.now ++ used.now)) NoFeature) }
    ensures present { (image : List ℕ) → AreUsedOnes image cp.now (found.now ++ used.now) → AreMapsOf image cp.now (maps_of cp.now volumes.now records.now) → IfErr result (Tells (IsReachedFault image cp.now) (HasFeature image cp.now)) }
    ensures no_read { IsErrOf result ReadFault → ⊥ }
{
    let maps = maps(alloc, cp, volumes, records)?;
    match unused_in(alloc, &maps, found, used) {
        Ok(()) => Ok(()),
        Err(stop) => Err(stop),
    }
}
