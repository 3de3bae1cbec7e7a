// The order in which candidates are tried.
ghost use Rattle.std.specs.List.Sorted.{IsPermutation, IsSortedBy};
ghost use Rattle.std.specs.Prelude.{◌≡◌, IfOk, IfErr};
ghost use Rattle.obj_base.specs.declared.stop.Stop.TheVariants.{NoMemory};
ghost use Rattle.nx_ring.specs.Order.{is_before};

use crate::{RingFault, RingLine};
use obj_base::Stop;
use std::alloc::Global;

// Candidates in the order in which they are tried: greater transactions first, and those of one transaction by index.
pub(crate) fn by_transaction(
    alloc: Global,
    lines: &[RingLine],
) -> Result<Vec<RingLine>, Stop<RingFault>>
    ensures order { IfOk result (λ tried. IsPermutation lines.now tried.items) }
    ensures sorted { IfOk result (λ tried. IsSortedBy is_before tried.items) }
    ensures memory_only { IfErr result (λ stop. stop ≡ NoMemory) }
{
    let mut tried = Vec::from_slice(alloc, lines)?;
    tried.sort_unstable_by(|a, b| b.xid.cmp(&a.xid).then(a.index.cmp(&b.index)));
    Ok(tried)
}
