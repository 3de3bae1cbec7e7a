// The bits of the pool against the ranges of its owners.
//
// Tests: that no block of the pool lies in two ranges, and that its bits mark the blocks in them. Gives: nothing. Rests on: the
// ranges lie in the pool.
ghost use Rattle.std.specs.Prelude.{◌≡◌, ◌+◌, ◌≤◌, ◌*◌, length, OnOk, IfErr, IsErrOf};
ghost use Rattle.obj_base.specs.Stops.{Tells, NoFeature};
ghost use Rattle.obj_base.specs.declared.stop.Stop.TheVariants.{ReadFault};
ghost use Rattle.reach_rules.specs.Reached.{AreInPool};
ghost use Rattle.reach_rules.specs.Settled.{ArePoolSettled};
ghost use Rattle.own_settle.specs.Pooled.{pool_fault, pool_told_of, IsPoolSideFault};

use crate::Reached;
use crate::claims::claim_all;
use obj_base::Stop;
use own_ledger::{ClaimFault, Difference, Ledger};
use reach_rules::ReachFault;
use space_pool::PoolFault;
use std::alloc::Global;

// What a refused claim says of the pool's ranges, which lie in the pool.
fn refused(fault: ClaimFault) -> ReachFault
    ensures { result ≡ pool_fault fault }
{
    match fault {
        ClaimFault::Outside { block } => ReachFault::Pool(PoolFault::Place { block }),
        ClaimFault::Twice { block } => ReachFault::OwnedTwice { block },
    }
}

// What a difference says of a block of the pool.
fn told(difference: Difference) -> ReachFault
    ensures { result ≡ pool_told_of difference }
{
    if difference.held {
        ReachFault::PoolMissing {
            block: difference.block,
        }
    } else {
        ReachFault::PoolLeaked {
            block: difference.block,
        }
    }
}

/// Whether the ranges of the pool's owners settle with its bits.
pub(crate) fn settle_pool(alloc: Global, reached: &Reached) -> Result<(), Stop<ReachFault>>
    ensures clear { AreInPool reached.now.space.manager reached.now.pool_owners → OnOk result (ArePoolSettled reached.now) }
    ensures present { IfErr result (Tells (IsPoolSideFault reached.now) NoFeature) }
    ensures no_read { IsErrOf result ReadFault → ⊥ }
{
    let bits = reached.pool();
    let _end = reached.space().site().blocks;
    let (first, blocks) = reached.space().pool();
    let mut ledger = Ledger::new(alloc, first, blocks)?;
    match claim_all(&mut ledger, reached.pool_owners()) {
        Ok(()) => {}
        Err(fault) => return Err(Stop::Found(refused(fault))),
    }
    match ledger.compare(first, blocks, bits) {
        None => Ok(()),
        Some(difference) => Err(Stop::Found(told(difference))),
    }
}
