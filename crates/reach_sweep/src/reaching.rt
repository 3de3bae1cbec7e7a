// All that is reached of a container.
ghost use Rattle.std.specs.Prelude.{◌≡◌, ℕ, List, [], Some, IfOk, IfErr, IsErrOf};
ghost use Rattle.apfs_model.specs.Counts.{Rose};
ghost use Rattle.apfs_model.specs.Kept.{IsKept};
ghost use Rattle.obj_base.specs.Site.{IsSiteFor};
ghost use Rattle.obj_base.specs.Stops.{Tells, IsFree};
ghost use Rattle.obj_base.specs.declared.stop.Stop.TheVariants.{Found, ReadFault};
ghost use Rattle.obj_base.specs.declared.stop.Within.TheVariants.{Container};
ghost use Rattle.nx_ring.specs.Checkpoint.{site_of};
ghost use Rattle.nx_ring.specs.Features.{container_features};
ghost use Rattle.vol_view.specs.Stops.{AreHeads};
ghost use Rattle.vol_view.specs.declared.head.VolHead.{VolHead};
ghost use Rattle.reach_rules.specs.declared.fault.ReachFault.TheVariants.{NamedTwice};
ghost use Rattle.reach_rules.specs.Bound.{ReachedWithin};
ghost use Rattle.reach_rules.specs.Features.{HasFeature};
ghost use Rattle.reach_rules.specs.Reached.{Whole, IsReached, IsReachedFault};
ghost use Rattle.reach_sweep.specs.Account.{AreLoadedOf};

use crate::checking::check_used;
use crate::finding::head_records;
use crate::finishing::finish;
use crate::gathering::{add_parts, started};
use crate::loading::{load_pool, load_space};
use crate::sweeping::{slot_twice, sweep_views};
use blk_source::BlockSource;
use nx_ring::Checkpoint;
use obj_base::{Stop, Within};
use own_settle::Reached;
use reach_rules::ReachFault;
use std::alloc::Global;
use vol_view::Volume;

// The id of a volume whose slot another one has: it is named twice.
fn twice(cp: &Checkpoint, oid: u64) -> Stop<ReachFault>
    ensures { result ≡ Found (NamedTwice Container oid cp.now.line.xid) }
{
    Stop::Found(ReachFault::NamedTwice {
        within: Within::Container,
        oid,
        xid: cp.xid(),
    })
}

/// All that is reached of a container whose superblock has no feature that is refused. `volumes` are what `load` gave for all
/// heads of the checkpoint, in their order.
pub fn reached<S: BlockSource>(
    alloc: Global,
    src: &mut S,
    cp: &Checkpoint,
    volumes: &[Volume],
) -> Result<Reached, Stop<ReachFault>>
    requires site { IsSiteFor (site_of cp.now) (S.bytes_len src.old) }
    requires plain { container_features cp.now.nx ≡ [] }
    ensures clear { (image : List ℕ) (heads : List VolHead) → S.bytes src.old ≡ Some image → AreHeads image cp.now heads → AreLoadedOf image cp.now heads volumes.now → IfOk result (IsReached image cp.now) }
    ensures site { IfOk result (λ whole. whole.space.site ≡ site_of cp.now) }
    ensures reads { (image : List ℕ) (heads : List VolHead) → S.bytes src.old ≡ Some image → AreHeads image cp.now heads → AreLoadedOf image cp.now heads volumes.now → IfOk result (λ whole. ReachedWithin whole (S.reads src.old) (S.reads src.new)) }
    ensures present { (image : List ℕ) (heads : List VolHead) → S.bytes src.old ≡ Some image → AreHeads image cp.now heads → AreLoadedOf image cp.now heads volumes.now → IfErr result (Tells (IsReachedFault image cp.now) (HasFeature image cp.now)) }
    ensures exact { (image : List ℕ) (heads : List VolHead) → S.bytes src.old ≡ Some image → AreHeads image cp.now heads → AreLoadedOf image cp.now heads volumes.now → (whole : Whole) → IsReached image cp.now whole → IfErr result IsFree }
    ensures cause { IsErrOf result ReadFault → Rose (S.faults src.old) (S.faults src.new) }
    ensures kept { IsKept S.bytes S.bytes_len S.faults src.old src.new }
{
    let space = match load_space(alloc, src, cp) {
        Ok(space) => space,
        Err(stop) => return Err(stop),
    };
    let pool = match load_pool(alloc, src, cp, &space) {
        Ok(pool) => pool,
        Err(stop) => return Err(stop),
    };
    let mut parts = started(alloc, cp)?;
    let omap = match add_parts(alloc, src, cp, &space, volumes, &mut parts) {
        Ok(omap) => omap,
        Err(stop) => return Err(stop),
    };
    match parts.once(alloc, cp) {
        Ok(()) => (),
        Err(stop) => return Err(stop),
    }
    if let Some(oid) = slot_twice(volumes) {
        return Err(twice(cp, oid));
    }
    let used = match sweep_views(alloc, src, cp, volumes) {
        Ok(used) => used,
        Err(stop) => return Err(stop),
    };
    let found = match head_records(alloc, cp, volumes, &omap) {
        Ok(found) => found,
        Err(stop) => return Err(stop),
    };
    match check_used(alloc, cp, volumes, omap.records(), &found, &used) {
        Ok(()) => (),
        Err(stop) => return Err(stop),
    }
    match finish(alloc, space, pool, &mut parts, &used, &found) {
        Ok(reached) => Ok(reached),
        Err(stop) => Err(stop),
    }
}
