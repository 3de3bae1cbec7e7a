// What is told of all that was gathered.
ghost use Rattle.std.specs.Prelude.{◌≡◌, ◌++◌, ◌+◌, ◌^◌, ◌<◌, map, length, OnOk, IfOk, IfErr};
ghost use Rattle.obj_base.specs.declared.stop.Stop.TheVariants.{NoMemory};
ghost use Rattle.own_settle.specs.Kept.{HasPool};
ghost use Rattle.reach_sweep.specs.Composed.{record_used, records_used, HasRecords};
ghost use Rattle.reach_sweep.specs.Finished.{IsFinished};

use obj_base::Stop;
use omap_map::OmapRecord;
use own_settle::Reached;
use reach_gather::Gathered;
use reach_rules::{Owner, ReachFault, Who};
use space_map::Space;
use std::alloc::Global;
use view_sweep::Used;

// A record that is used, with the block of its map.
fn mapping_of(used: &Used) -> (u64, OmapRecord)
    ensures { result ≡ record_used used.now }
{
    (used.map, used.mapping)
}

// The owners of records that are used.
fn tell_records(used: &[Used], out: &mut Gathered) -> Result<(), Stop<ReachFault>>
    ensures told { OnOk result (HasRecords (records_used used.now) out.old out.new) }
    ensures memory_only { IfErr result (λ stop. stop ≡ NoMemory) }
{
    for one in used {
        out.tell(Owner {
            who: Who::Recorded(one.map, one.mapping),
            first: one.mapping.paddr,
            blocks: 1,
        })?;
    }
    Ok(())
}

// Adds records that are used, as they are kept.
fn add_mappings(used: &[Used], out: &mut Vec<(u64, OmapRecord)>) -> Result<(), Stop<ReachFault>>
    ensures added { OnOk result (out.new.items ≡ out.old.items ++ records_used used.now) }
    ensures memory_only { IfErr result (λ stop. stop ≡ NoMemory) }
{
    for one in used {
        out.push(mapping_of(one))?;
    }
    Ok(())
}

// The records that views use, and after them those by which the volumes are found.
fn mappings(
    alloc: Global,
    used: &[Used],
    found: &[Used],
) -> Result<Vec<(u64, OmapRecord)>, Stop<ReachFault>>
    ensures all { IfOk result (λ all. all.items ≡ records_used used.now ++ records_used found.now) }
    ensures memory_only { IfErr result (λ stop. stop ≡ NoMemory) }
{
    let mut all = Vec::new(alloc);
    match add_mappings(used, &mut all) {
        Ok(()) => (),
        Err(stop) => return Err(stop),
    }
    match add_mappings(found, &mut all) {
        Ok(()) => Ok(all),
        Err(stop) => Err(stop),
    }
}

/// All that was reached, told from what was gathered: the ranges of the owners, those of the records that views use among them, and
/// how many objects are named. `found` are the records by which the volumes are found, whose owners were gathered with them.
pub(crate) fn finish(
    alloc: Global,
    space: Space,
    pool: Vec<u8>,
    parts: &mut Gathered,
    used: &[Used],
    found: &[Used],
) -> Result<Reached, Stop<ReachFault>>
    requires { HasPool space.site.blocks space.manager pool.items }
    ensures done { IfOk result (IsFinished (records_used used.now) (records_used found.now) parts.old space pool.items) }
    ensures few { OnOk result (length parts.old.namings + length used.now < 2 ^ 64) }
    ensures memory_only { IfErr result (λ stop. stop ≡ NoMemory) }
{
    match tell_records(used, parts) {
        Ok(()) => (),
        Err(stop) => return Err(stop),
    }
    let mut records = match mappings(alloc, used, found) {
        Ok(records) => records,
        Err(stop) => return Err(stop),
    };
    let owners = parts.ranges(alloc)?;
    let pool_owners = parts.pool_ranges(alloc)?;
    let objects = parts.objects(alloc, &mut records)?;
    Ok(Reached::new(objects, owners, pool_owners, space, pool))
}
