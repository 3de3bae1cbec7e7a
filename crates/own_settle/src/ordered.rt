// The ranges of the container's owners, one after the other.
//
// Tests: that each lies in the container and begins where those before have ended. Gives: the ranges by their first blocks, and how
// many blocks they have. Rests on: nothing.
ghost use Rattle.std.specs.Prelude.{◌≡◌, ◌+◌, ◌≤◌, OnOk, IfOk, IfErr, MatchOption, false};
ghost use Rattle.std.specs.List.Sorted.{IsPermutation, IsNonDecreasingBy};
ghost use Rattle.apfs_model.specs.Blocks.{is_within};
ghost use Rattle.own_settle.specs.Claimed.{IsRangeFault};
ghost use Rattle.own_settle.specs.InOrder.{AreInOrder, HaveBlocks, blocks_in};
ghost use Rattle.own_settle.specs.InOrder as ranges_spec;

use own_ledger::ClaimFault;
use std::alloc::{AllocError, Global};

/// A copy of ranges, by their first blocks.
pub(crate) fn by_first(alloc: Global, ranges: &[(u64, u64)]) -> Result<Vec<(u64, u64)>, AllocError>
    ensures moved { IfOk result (λ sorted. IsPermutation ranges.now sorted.items) }
    ensures sorted { IfOk result (λ sorted. IsNonDecreasingBy ranges_spec.first_of sorted.items) }
{
    let mut sorted = ranges.to_vec(alloc)?;
    sorted.sort_unstable_by(|a, b| a.0.cmp(&b.0));
    Ok(sorted)
}

// The end of a range that lies in the first so many blocks.
fn end_in(range: &(u64, u64), blocks: u64) -> Option<u64>
    ensures { MatchOption result (is_within range.now.0 range.now.1 0 blocks ≡ false) (λ end. (end ≡ range.now.0 + range.now.1) × (end ≤ blocks)) }
{
    range.0.checked_add(range.1).filter(|end| *end <= blocks)
}

/// How many blocks ranges have that are sorted by their first blocks, if they lie in the first so many blocks, one after the other.
pub(crate) fn count_in_order(ranges: &[(u64, u64)], blocks: u64) -> Result<u64, ClaimFault>
    requires { IsNonDecreasingBy ranges_spec.first_of ranges.now }
    ensures clear { OnOk result (AreInOrder 0 blocks ranges.now) }
    ensures count { IfOk result (λ number. number ≡ blocks_in ranges.now) }
    ensures present { HaveBlocks ranges.now → IfErr result (IsRangeFault 0 blocks ranges.now) }
{
    let mut end = 0;
    let mut number = 0;
    'each: for range in ranges {
        let Some(next) = end_in(range, blocks) else {
            return Err(ClaimFault::Outside { block: range.0 });
        };
        if range.0 < end {
            return Err(ClaimFault::Twice { block: range.0 });
        }
        end = next;
        number += range.1;
    }
    Ok(number)
}
