// How the records of a volume's snapshots agree with one another and with its map.
ghost use Rattle.std.specs.Prelude.{◌≡◌, ◌≤◌, ℕ, length, map, bytes_eq, IfErr, IsErrOf, OnOk};
ghost use Rattle.obj_base.specs.Stops.{Tells, NoFeature};
ghost use Rattle.obj_base.specs.declared.stop.Stop.TheVariants.{ReadFault};
ghost use Rattle.vol_view.specs.Fields as fields;
ghost use Rattle.vol_view.specs.Gathered.{map_agrees, AgreeBy, Disagree};
ghost use Rattle.vol_view.specs.declared.records.SnapshotRecord.{SnapshotRecord};

use crate::VolStop;
use crate::head::snapshots as counted;
use crate::named::are_named;
use crate::records::{NameRecord, SnapshotRecord};
use obj_base::Stop;
use omap_map::Omap;
use std::alloc::Global;

// Whether the snapshots of a map are of the transactions of some records, in their order.
fn are_same(known: &[(u64, u32)], snapshots: &[SnapshotRecord]) -> bool
    ensures { result ≡ bytes_eq (map (λ (s : ℕ × ℕ). s.0) known.now) (map (λ (s : SnapshotRecord). s.xid) snapshots.now) }
{
    if known.len() != snapshots.len() {
        return false;
    }
    'places: for i in 0..known.len() {
        if known[i].0 != snapshots[i].xid {
            return false;
        }
    }
    true
}

// Whether the snapshots of a map are those of the records, in their order, and as many as the map counts.
fn is_in_map(omap: &Omap, snapshots: &[SnapshotRecord]) -> bool
    ensures { result ≡ map_agrees omap.now.snap_count (map (λ (s : ℕ × ℕ). s.0) omap.now.snapshots) snapshots.now }
{
    omap.snap_count() as usize == omap.snapshots().len() && are_same(omap.snapshots(), snapshots)
}

/// Tests how the records of the volume in a slot agree, by the bytes of its superblock.
pub(crate) fn agree(
    alloc: Global,
    slot: u32,
    bytes: &[u8],
    omap: &Omap,
    snapshots: &[SnapshotRecord],
    names: &[NameRecord],
) -> Result<(), Stop<VolStop>>
    requires { 1024 ≤ length bytes.now }
    ensures ok { OnOk result (AgreeBy (fields.snapshots_of bytes.now) omap.now.snap_count (map (λ (s : ℕ × ℕ). s.0) omap.now.snapshots) snapshots.now names.now) }
    ensures present { IfErr result (Tells (Disagree slot (fields.snapshots_of bytes.now) omap.now.snap_count (map (λ (s : ℕ × ℕ). s.0) omap.now.snapshots) snapshots.now names.now) NoFeature) }
    ensures no_read { IsErrOf result ReadFault → ⊥ }
{
    if counted(bytes) != snapshots.len() as u64 {
        return Err(Stop::Found(VolStop::SnapCount { slot }));
    }
    if !are_named(alloc, snapshots, names)? {
        return Err(Stop::Found(VolStop::SnapName { slot }));
    }
    if !is_in_map(omap, snapshots) {
        return Err(Stop::Found(VolStop::OmapSnaps { slot }));
    }
    Ok(())
}
