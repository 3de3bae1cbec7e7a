// The owners as ranges, each once.
ghost use Rattle.std.specs.Prelude.{◌≡◌, ◌↔◌, map, flat_map, IfOk, IsTrue};
ghost use Rattle.std.specs.List.Sorted.{IsStrictlyIncreasing};
ghost use Rattle.reach_rules.specs.Reached.{range_of};
ghost use Rattle.reach_gather.specs.Kept.{owners_in};
ghost use Rattle.reach_gather.specs.Finished.{AreRangesOnce, first_of};

use crate::gathered::Gathered;
use crate::keeping::{Noted, owners_of, ranges_of};
use id_lists::distinct;
use reach_rules::Owner;
use std::alloc::{AllocError, Global};

// The ranges of some owners.
fn ranges_alone(alloc: Global, owners: &[Owner]) -> Result<Vec<(u64, u64)>, AllocError>
    ensures { IfOk result (λ v. v.items ≡ map range_of owners.now) }
{
    owners
        .iter()
        .map(|owner| (owner.first, owner.blocks))
        .collect(alloc)
}

// Whether each range begins after the one before.
fn do_rise(ranges: &[(u64, u64)]) -> bool
    ensures { IsTrue result ↔ IsStrictlyIncreasing (map first_of ranges.now) }
{
    for i in 1..ranges.len() {
        if ranges[i].0 <= ranges[i - 1].0 {
            return false;
        }
    }
    true
}

// The ranges of owners that are kept, each owner once. An owner that was noted twice has two ranges that begin at one block, so the owners
// themselves are compared only where two ranges do.
fn ranges_once(alloc: Global, kept: &[Noted]) -> Result<Vec<(u64, u64)>, AllocError>
    ensures { IfOk result (λ v. AreRangesOnce (flat_map owners_in kept.now) v.items) }
{
    let mut ranges = ranges_of(alloc, kept)?;
    ranges.sort_unstable();
    if do_rise(&ranges) {
        return Ok(ranges);
    }
    let mut owners = owners_of(alloc, kept)?;
    distinct(&mut owners);
    ranges_alone(alloc, &owners)
}

impl Gathered {
    /// The ranges of the owners, each owner once.
    pub fn ranges(&self, alloc: Global) -> Result<Vec<(u64, u64)>, AllocError>
        ensures { IfOk result (λ v. AreRangesOnce self.now.owners v.items) }
    {
        ranges_once(alloc, &self.noted)
    }

    /// The ranges of the owners of the pool, each owner once.
    pub fn pool_ranges(&self, alloc: Global) -> Result<Vec<(u64, u64)>, AllocError>
        ensures { IfOk result (λ v. AreRangesOnce self.now.pool_owners v.items) }
    {
        ranges_once(alloc, &self.pool)
    }
}
