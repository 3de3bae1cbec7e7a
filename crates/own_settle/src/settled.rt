// The blocks of owners against the bits that mark them.
//
// Tests: that each range lies in the container, that no block lies in two, that the marked blocks are those in them, and that each
// free count is the number of the others; and of the pool the same. Gives: how many blocks lie in the container's ranges. Rests
// on: all that was reached.
ghost use Rattle.std.specs.Prelude.{◌≡◌, ◌≤◌, ◌+◌, ℕ, List, Some, length, OnOk, IfOk, IfErr, IsErrOf};
ghost use Rattle.apfs_model.specs.Counts.{Rose};
ghost use Rattle.apfs_model.specs.Kept.{IsKept};
ghost use Rattle.obj_base.specs.Site.{IsSiteFor};
ghost use Rattle.obj_base.specs.Stops.{Tells, NoFeature, IsFree};
ghost use Rattle.obj_base.specs.declared.stop.Stop.TheVariants.{ReadFault};
ghost use Rattle.nx_ring.specs.Checkpoint.{Seen};
ghost use Rattle.reach_rules.specs.Reached.{IsReached};
ghost use Rattle.reach_rules.specs.Settled.{IsSettledWith, IsSettleFault};
ghost use Rattle.own_settle.specs.Pooled.{owner_fault};

use crate::Reached;
use crate::chunks::settle_chunks;
use crate::ordered::{by_first, count_in_order};
use crate::pools::settle_pool;
use blk_source::BlockSource;
use obj_base::Stop;
use own_ledger::{ClaimFault, Ledger};
use reach_rules::ReachFault;
use std::alloc::Global;

// What a refused claim says of the container's ranges.
fn refused(fault: ClaimFault) -> ReachFault
    ensures { result ≡ owner_fault fault }
{
    match fault {
        ClaimFault::Outside { block } => ReachFault::Outside { block },
        ClaimFault::Twice { block } => ReachFault::OwnedTwice { block },
    }
}

/// Settles what was reached of a container with the bits that mark its blocks, and gives how many blocks lie in the ranges of its
/// owners. The ranges are sorted by their first blocks, and each chunk is compared with those that have blocks in it. `Outside`
/// and `OwnedTwice` come where a range leaves the container or a block lies in two, `Leaked` and `Missing` where a bit is set
/// outside of the ranges or isn't inside, `FreeCount` where a chunk's count is wrong, and of the pool `OwnedTwice`,
/// `PoolLeaked` and `PoolMissing`. No feature is refused here.
pub fn settle<S: BlockSource>(
    alloc: Global,
    src: &mut S,
    reached: &Reached,
) -> Result<u64, Stop<ReachFault>>
    requires site { IsSiteFor reached.now.space.site (S.bytes_len src.old) }
    ensures clear { (image : List ℕ) (seen : Seen) → S.bytes src.old ≡ Some image → IsReached image seen reached.now → IfOk result (IsSettledWith image reached.now) }
    ensures present { (image : List ℕ) (seen : Seen) → S.bytes src.old ≡ Some image → IsReached image seen reached.now → IfErr result (Tells (IsSettleFault image reached.now) NoFeature) }
    ensures exact { (image : List ℕ) (seen : Seen) → S.bytes src.old ≡ Some image → IsReached image seen reached.now → (number : ℕ) → IsSettledWith image reached.now number → IfErr result IsFree }
    ensures cause { IsErrOf result ReadFault → Rose (S.faults src.old) (S.faults src.new) }
    ensures kept { IsKept S.bytes S.bytes_len S.faults src.old src.new }
    ensures reads { S.reads src.new ≤ S.reads src.old + length reached.now.space.chunks }
{
    let _size = src.size();
    let space = reached.space();
    let sorted = by_first(alloc, reached.owners())?;
    let ranges = sorted.as_slice();
    let number = match count_in_order(ranges, space.site().blocks) {
        Ok(number) => number,
        Err(fault) => return Err(Stop::Found(refused(fault))),
    };
    match settle_pool(alloc, reached) {
        Ok(()) => {}
        Err(stop) => return Err(stop),
    }
    let block_size = space.site().block_size;
    let mut bits = vec![in alloc; 0u8; block_size as usize]?;
    let mut ledger = Ledger::new(alloc, 0, 8 * u64::from(block_size))?;
    match settle_chunks(src, space, ranges, &mut ledger, &mut bits) {
        Ok(()) => Ok(number),
        Err(stop) => Err(stop),
    }
}
