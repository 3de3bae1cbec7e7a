// All volumes of a container.
ghost use Rattle.std.specs.Prelude.{◌≡◌, ◌+◌, ◌≤◌, ℕ, List, map, sum, Some, Ok, IfOk, IfErr, IsErrOf};
ghost use Rattle.apfs_model.specs.Counts.{Rose};
ghost use Rattle.apfs_model.specs.Lists.{In};
ghost use Rattle.apfs_model.specs.Kept.{IsKept};
ghost use Rattle.obj_base.specs.Site.{IsSiteFor};
ghost use Rattle.obj_base.specs.declared.stop.Stop.TheVariants.{ReadFault};
ghost use Rattle.nx_ring.specs.Checkpoint.{site_of};
ghost use Rattle.nx_ring.specs.Newest.{newest_of};
ghost use Rattle.vol_view.specs.Heads.{heads_of};
ghost use Rattle.vol_view.specs.Placed.{IsHead};
ghost use Rattle.vol_view.specs.ReadBound.{heads_reads};
ghost use Rattle.vol_view.specs.Stops.{AreHeads};
ghost use Rattle.vol_view.specs.declared.head.VolHead as declared;
ghost use Rattle.reach_sweep.specs.Account.{AreLoadedOf};
ghost use Rattle.view_rules.specs.declared.profile.Profile as rules;
ghost use Rattle.apfs_check.specs.Reads.{loading_reads};
ghost use Rattle.apfs_check.specs.Steps.{IsThere, AreReady};

use crate::Fault;
use crate::raising::stop_of;
use blk_source::BlockSource;
use nx_ring::Checkpoint;
use obj_base::Stop;
use std::alloc::Global;
use vol_view::{VolHead, Volume, heads, load};

// The volumes of all heads, in their order.
fn load_all<S: BlockSource>(
    alloc: Global,
    src: &mut S,
    cp: &Checkpoint,
    heads: &[VolHead],
) -> Result<Vec<Volume>, Stop<Fault>>
    requires site { IsSiteFor (site_of cp.now) (S.bytes_len src.old) }
    requires heads { (head : declared.VolHead) → In head heads.now → IsHead (S.bytes src.old) cp.now head }
    ensures clear { (image : List ℕ) → S.bytes src.old ≡ Some image → IfOk result (λ volumes. AreLoadedOf image cp.now heads.now volumes.items) }
    ensures present { (profile : rules.Profile) (image : List ℕ) → S.bytes src.old ≡ Some image → newest_of image ≡ Ok cp.now → AreHeads image cp.now heads.now → IfErr result (IsThere profile image) }
    ensures reads { (image : List ℕ) → S.bytes src.old ≡ Some image → IfOk result (λ volumes. S.reads src.new ≤ S.reads src.old + sum (map (loading_reads image (site_of cp.now)) volumes.items)) }
    ensures cause { IsErrOf result ReadFault → Rose (S.faults src.old) (S.faults src.new) }
    ensures kept { IsKept S.bytes S.bytes_len S.faults src.old src.new }
{
    let mut volumes = Vec::new(alloc);
    'heads: for head in heads {
        let volume = match load(alloc, src, cp, head) {
            Ok(volume) => volume,
            Err(stop) => return Err(stop_of(stop, cp.xid())),
        };
        volumes.push(volume)?;
    }
    Ok(volumes)
}

/// All volumes of a checkpoint's container, by slot.
pub(crate) fn volumes_of<S: BlockSource>(
    alloc: Global,
    src: &mut S,
    cp: &Checkpoint,
) -> Result<Vec<Volume>, Stop<Fault>>
    requires site { IsSiteFor (site_of cp.now) (S.bytes_len src.old) }
    ensures clear { (image : List ℕ) → S.bytes src.old ≡ Some image → newest_of image ≡ Ok cp.now → IfOk result (λ volumes. AreReady image cp.now volumes.items) }
    ensures present { (profile : rules.Profile) (image : List ℕ) → S.bytes src.old ≡ Some image → newest_of image ≡ Ok cp.now → IfErr result (IsThere profile image) }
    ensures reads { (image : List ℕ) → S.bytes src.old ≡ Some image → IfOk result (λ volumes. S.reads src.new ≤ S.reads src.old + (heads_reads image cp.now (heads_of image cp.now) + sum (map (loading_reads image (site_of cp.now)) volumes.items))) }
    ensures cause { IsErrOf result ReadFault → Rose (S.faults src.old) (S.faults src.new) }
    ensures kept { IsKept S.bytes S.bytes_len S.faults src.old src.new }
{
    let heads = match heads(alloc, src, cp) {
        Ok(heads) => heads,
        Err(stop) => return Err(stop_of(stop, cp.xid())),
    };
    match load_all(alloc, src, cp, &heads) {
        Ok(volumes) => Ok(volumes),
        Err(stop) => Err(stop),
    }
}
