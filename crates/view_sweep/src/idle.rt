// Whether each record of some object maps is used.
ghost use Rattle.std.specs.Prelude.{◌≡◌, Bool, true, false, OnOk, IfOk, IfErr, IfSome, IsNone, IsErrOf, IsTrue};
ghost use Rattle.std.specs.List.Sorted.{IsPermutation, IsSortedBy};
ghost use Rattle.apfs_model.specs.Lists.{In};
ghost use Rattle.obj_base.specs.Stops.{Tells, IsFree, NoFeature};
ghost use Rattle.obj_base.specs.declared.stop.Stop.TheVariants.{ReadFault, NoMemory};
ghost use Rattle.omap_map.specs.Records.{is_deleted};
ghost use Rattle.view_sweep.specs.Order.{used_rank, is_used_below};
ghost use Rattle.view_sweep.specs.Unused.{used_in, AreUsedIn, AreAllUsed, IsIdleOf, IsUnusedHere};

use crate::order::{by_use, rank};
use crate::used::Used;
use apfs_layout::object_map;
use obj_base::{Stop, Within};
use omap_map::OmapRecord;
use reach_rules::ReachFault;
use std::alloc::Global;
use std::cmp::Ordering;

/// The records of the object map in a block, and the space in which its ids are looked up.
#[derive(Clone, Copy)]
pub struct MapRecords<'a> {
    pub within: Within,
    /// The block of the map.
    pub map: u64,
    pub records: &'a [OmapRecord],
}

// Whether a record stands among sorted ones.
fn is_among(sorted: &[Used], one: &Used) -> bool
    requires sorted { IsSortedBy is_used_below sorted.now }
    ensures one { IsTrue result → In one.now sorted.now }
    ensures none { result ≡ false → In one.now sorted.now → ⊥ }
{
    let wanted = *one;
    let found = sorted.binary_search_by(
        |used: &Used| -> Ordering
            ensures { result ≡ used_rank used.now wanted }
        { rank(used, &wanted) },
    );
    found.is_ok()
}

// Whether a record is marked deleted.
fn is_deleted(mapping: &OmapRecord) -> bool
    ensures { result ≡ is_deleted mapping.now.flags }
{
    mapping.flags & object_map::DELETED == object_map::DELETED
}

// Whether a record of a map isn't marked deleted and isn't used.
fn is_idle(of: &MapRecords<'_>, mapping: &OmapRecord, sorted: &[Used]) -> bool
    requires sorted { IsSortedBy is_used_below sorted.now }
    ensures kept { IsTrue result → is_deleted mapping.now.flags ≡ false }
    ensures idle { IsTrue result → In (used_in of.now.map mapping.now) sorted.now → ⊥ }
    ensures used { result ≡ false → is_deleted mapping.now.flags ≡ false → In (used_in of.now.map mapping.now) sorted.now }
{
    if is_deleted(mapping) {
        return false;
    }
    let one = Used {
        map: of.map,
        mapping: *mapping,
    };
    if is_among(sorted, &one) {
        return false;
    }
    true
}

// The first record of a map that isn't marked deleted and isn't used.
fn first_idle(of: &MapRecords<'_>, sorted: &[Used]) -> Option<OmapRecord>
    requires sorted { IsSortedBy is_used_below sorted.now }
    ensures none { IsNone result → AreUsedIn of.now sorted.now }
    ensures some { IfSome result (IsIdleOf of.now sorted.now) }
{
    for mapping in of.records {
        if is_idle(of, mapping, sorted) {
            return Some(*mapping);
        }
    }
    None
}

// Whether each record of some maps is used, where the used ones are sorted.
fn all_used(maps: &[MapRecords<'_>], sorted: &[Used]) -> Result<(), Stop<ReachFault>>
    requires sorted { IsSortedBy is_used_below sorted.now }
    ensures clear { OnOk result (AreAllUsed maps.now sorted.now) }
    ensures stops { IfErr result (Tells (IsUnusedHere maps.now sorted.now) NoFeature) }
    ensures no_read { IsErrOf result ReadFault → ⊥ }
{
    for of in maps {
        if let Some(mapping) = first_idle(of, sorted) {
            return Err(Stop::Found(ReachFault::UnusedMapping {
                within: of.within,
                oid: mapping.oid,
                xid: mapping.xid,
            }));
        }
    }
    Ok(())
}

// The used records, sorted.
fn sorted(alloc: Global, used: &[Used]) -> Result<Vec<Used>, Stop<ReachFault>>
    ensures order { IfOk result (λ sorted. IsPermutation used.now sorted.items) }
    ensures sorted { IfOk result (λ sorted. IsSortedBy is_used_below sorted.items) }
    ensures memory_only { IfErr result (λ stop. stop ≡ NoMemory) }
{
    let mut sorted = Vec::new(alloc);
    sorted.extend_from_slice(used)?;
    by_use(&mut sorted);
    Ok(sorted)
}

/// Whether each record of some object maps that isn't marked deleted is used. `UnusedMapping` tells of one that isn't.
pub fn unused(alloc: Global, maps: &[MapRecords<'_>], used: &[Used]) -> Result<(), Stop<ReachFault>>
    ensures clear { OnOk result (AreAllUsed maps.now used.now) }
    ensures present { IfErr result (Tells (IsUnusedHere maps.now used.now) NoFeature) }
    ensures exact { AreAllUsed maps.now used.now → IfErr result IsFree }
    ensures no_read { IsErrOf result ReadFault → ⊥ }
{
    let sorted = sorted(alloc, used)?;
    match all_used(maps, &sorted) {
        Ok(()) => Ok(()),
        Err(stop) => Err(stop),
    }
}
