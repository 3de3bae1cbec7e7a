// The ranges of which the object of a naming tells.
ghost use Rattle.std.specs.Prelude.{◌≡◌, ◌++◌, ℕ, map, OnOk, IfOk};
ghost use Rattle.reach_rules.specs.Owners.{told_from};
ghost use Rattle.reach_gather.specs.Held.{some_owners};

use crate::Gathered;
use blk_source::NoMemory;
use ext_ref::NewRange;
use reach_rules::Naming;
use space_pool::QueueEntry;
use std::alloc::{AllocError, Global};

/// Something that stands for a range of blocks.
pub(crate) trait Ranged {
    /// The first block, and the number of blocks.
    ghost range: { Self → ℕ × ℕ };

    fn range(&self) -> (u64, u64)
        ensures { result ≡ range self.now };
}

impl Ranged for NewRange {
    ghost range = { λ r. (r.first, r.length) };

    fn range(&self) -> (u64, u64)
        ensures { result ≡ (self.now.first, self.now.length) }
    {
        (self.first, self.length)
    }
}

impl Ranged for QueueEntry {
    ghost range = { λ e. (e.paddr, e.length) };

    fn range(&self) -> (u64, u64)
        ensures { result ≡ (self.now.paddr, self.now.length) }
    {
        (self.paddr, self.length)
    }
}

// The ranges alone.
fn pairs<T: Ranged>(alloc: Global, ranges: &[T]) -> Result<Vec<(u64, u64)>, AllocError>
    ensures { IfOk result (λ v. v.items ≡ map T.range ranges.now) }
{
    ranges.iter().map(|range| range.range()).collect(alloc)
}

/// The ranges of which an object tells, each with its place.
pub(crate) fn tell_all<T: Ranged>(
    alloc: Global,
    out: &mut Gathered,
    naming: Naming,
    ranges: &[T],
) -> Result<(), NoMemory>
    ensures namings { out.new.namings ≡ out.old.namings }
    ensures owners { OnOk result (out.new.owners ≡ out.old.owners ++ some_owners (told_from naming 0 (map T.range ranges.now))) }
    ensures pool_owners { out.new.pool_owners ≡ out.old.pool_owners }
{
    let pairs = pairs(alloc, ranges)?;
    out.tell_those(naming, pairs)
}

/// The ranges of the pool of which an object tells, each with its place.
pub(crate) fn tell_all_pool<T: Ranged>(
    alloc: Global,
    out: &mut Gathered,
    naming: Naming,
    ranges: &[T],
) -> Result<(), NoMemory>
    ensures namings { out.new.namings ≡ out.old.namings }
    ensures owners { out.new.owners ≡ out.old.owners }
    ensures pool_owners { OnOk result (out.new.pool_owners ≡ out.old.pool_owners ++ some_owners (told_from naming 0 (map T.range ranges.now))) }
{
    let pairs = pairs(alloc, ranges)?;
    out.tell_those_pool(naming, pairs)
}
