// The views of a volume, each with the roots of what it holds.
ghost use Rattle.std.specs.Prelude.{◌≡◌, ◌<◌, length, slice_get, option_map, Some, IfOk, IfErr};
ghost use Rattle.obj_base.specs.declared.stop.Stop.TheVariants.{NoMemory};
ghost use Rattle.use_report.specs.Views as spec;

use crate::UseFault;
use nx_ring::Checkpoint;
use obj_base::Stop;
use std::alloc::Global;
use vol_view::{View, Volume, live, past};

/// A view with the roots of what it holds.
#[derive(Clone, Copy, PartialEq, Eq)]
pub(crate) struct KeptView {
    /// The view's place among those of its volume: 0 for the live one, and then that of the snapshot, counted from 1.
    pub place: u64,
    pub view: View,
    /// The root of its extent reference tree, 0 where there is none.
    pub extents_root: u64,
    /// The oid of its extended metadata, 0 where there is none.
    pub meta_ext: u64,
    /// The block of the superblock, where it is a snapshot's view.
    pub super_block: Option<u64>,
}

// The volume as it is.
fn live_kept(volume: &Volume, cp: &Checkpoint) -> KeptView
    ensures { result ≡ spec.live_kept volume.now cp.now }
{
    KeptView {
        place: 0,
        view: live(volume, cp),
        extents_root: volume.extents_root,
        meta_ext: volume.meta_ext,
        super_block: None,
    }
}

// The volume as its snapshot `i`, counted from 0, keeps it.
fn past_kept(volume: &Volume, i: usize) -> KeptView
    requires { i < length volume.now.snaps }
    ensures { option_map (spec.past_kept volume.now i) (slice_get volume.now.snaps i) ≡ Some result }
{
    let snapshot = &volume.snaps[i];
    KeptView {
        place: i as u64 + 1,
        view: past(volume, i),
        extents_root: snapshot.extents_root,
        meta_ext: snapshot.meta_ext,
        super_block: Some(snapshot.super_block),
    }
}

/// The live view of a volume, then those of its snapshots by transaction.
pub(crate) fn kept_views(
    alloc: Global,
    volume: &Volume,
    cp: &Checkpoint,
) -> Result<Vec<KeptView>, Stop<UseFault>>
    ensures all { IfOk result (λ views. views.items ≡ spec.views_kept volume.now cp.now) }
    ensures memory_only { IfErr result (λ stop. stop ≡ NoMemory) }
{
    let mut views = Vec::new(alloc);
    views.push(live_kept(volume, cp))?;
    'snaps: for i in 0..volume.snaps.len() {
        views.push(past_kept(volume, i))?;
    }
    Ok(views)
}
