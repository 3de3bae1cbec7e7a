// The account of a container.
ghost use Rattle.std.specs.Prelude.{◌≡◌, ℕ, List, [], Some, OnOk, IfOk, IfErr, IsErrOf};
ghost use Rattle.apfs_model.specs.Counts.{Rose};
ghost use Rattle.apfs_model.specs.Kept.{IsKept};
ghost use Rattle.obj_base.specs.Site.{IsSiteFor};
ghost use Rattle.obj_base.specs.Stops.{Tells, IsFree};
ghost use Rattle.obj_base.specs.declared.stop.Stop.TheVariants.{ReadFault};
ghost use Rattle.nx_ring.specs.Checkpoint.{site_of};
ghost use Rattle.nx_ring.specs.Features.{container_features};
ghost use Rattle.vol_view.specs.Stops.{AreHeads};
ghost use Rattle.vol_view.specs.declared.head.VolHead.{VolHead};
ghost use Rattle.space_map.specs.Blocks.{manager_of};
ghost use Rattle.reach_rules.specs.Accounted.{IsAccounted};
ghost use Rattle.reach_rules.specs.Bound.{RoseBy, account_reads};
ghost use Rattle.reach_rules.specs.Faults.{Present};
ghost use Rattle.reach_rules.specs.Features.{HasFeature};
ghost use Rattle.reach_rules.specs.Tally.{IsTally};
ghost use Rattle.reach_sweep.specs.Account.{AreLoadedOf};

use crate::reached;
use blk_source::BlockSource;
use nx_ring::Checkpoint;
use obj_base::Stop;
use own_settle::settle;
use reach_rules::ReachFault;
use std::alloc::Global;
use std::marker::Model;
use vol_view::Volume;

/// How many objects of a container are named, and how many of its blocks are owned. `account` alone makes one.
#[derive(Clone, Copy, PartialEq, Eq)]
pub struct Tally {
    named: u64,
    held: u64,
}

impl Model for Tally {
    ghost use Rattle.reach_sweep.specs.Account.{Counted};

    ghost Value = { Counted };

    ghost view = { λ a. record { objects = a.named; owned = a.held } };

    ghost inverse = { λ c. record { named = c.objects; held = c.owned } };
}

impl Tally {
    /// How many objects are named.
    pub fn objects(&self) -> u64
        ensures { result ≡ self.now.objects }
    {
        self.named
    }

    /// How many blocks are owned.
    pub fn owned(&self) -> u64
        ensures { result ≡ self.now.owned }
    {
        self.held
    }
}

/// Whether each block of a container is owned once and marked: the numbers of named objects and of owned blocks. The container's
/// superblock has no feature that is refused, and `volumes` are what `load` gave for all heads of the checkpoint, in their order.
pub fn account<S: BlockSource>(
    alloc: Global,
    src: &mut S,
    cp: &Checkpoint,
    volumes: &[Volume],
) -> Result<Tally, Stop<ReachFault>>
    requires site { IsSiteFor (site_of cp.now) (S.bytes_len src.old) }
    requires plain { container_features cp.now.nx ≡ [] }
    ensures clear { (image : List ℕ) (heads : List VolHead) → S.bytes src.old ≡ Some image → AreHeads image cp.now heads → AreLoadedOf image cp.now heads volumes.now → OnOk result (IsAccounted image cp.now) }
    ensures tally { (image : List ℕ) (heads : List VolHead) → S.bytes src.old ≡ Some image → AreHeads image cp.now heads → AreLoadedOf image cp.now heads volumes.now → IfOk result (λ tally. IsTally image cp.now tally.objects tally.owned) }
    ensures reads { (image : List ℕ) (heads : List VolHead) → S.bytes src.old ≡ Some image → AreHeads image cp.now heads → AreLoadedOf image cp.now heads volumes.now → IfOk result (λ tally. (manager : List ℕ) → manager_of cp.now ≡ Some manager → RoseBy (account_reads tally.objects manager) (S.reads src.old) (S.reads src.new)) }
    ensures present { (image : List ℕ) (heads : List VolHead) → S.bytes src.old ≡ Some image → AreHeads image cp.now heads → AreLoadedOf image cp.now heads volumes.now → IfErr result (Tells (Present image cp.now) (HasFeature image cp.now)) }
    ensures exact { (image : List ℕ) (heads : List VolHead) → S.bytes src.old ≡ Some image → AreHeads image cp.now heads → AreLoadedOf image cp.now heads volumes.now → IsAccounted image cp.now → IfErr result IsFree }
    ensures cause { IsErrOf result ReadFault → Rose (S.faults src.old) (S.faults src.new) }
    ensures kept { IsKept S.bytes S.bytes_len S.faults src.old src.new }
{
    let _size = src.size();
    let reached = match reached(alloc, src, cp, volumes) {
        Ok(reached) => reached,
        Err(stop) => return Err(stop),
    };
    match settle(alloc, src, &reached) {
        Ok(held) => Ok(Tally {
            named: reached.objects(),
            held,
        }),
        Err(stop) => Err(stop),
    }
}
