// The small container with an EFI jumpstart, whose driver is in blocks 58 and 59.
ghost use Rattle.std.specs.Prelude.{◌≡◌, IfOk, vec_len};

use super::small;
use crate::plan::Plan;
use std::alloc::{AllocError, Global};

// The small container with a jumpstart.
pub(super) fn jump(alloc: Global) -> Result<Plan, AllocError>
    ensures blocks { IfOk result (λ plan. plan.blocks ≡ 256) }
    ensures one_volume { IfOk result (λ plan. vec_len plan.volumes ≡ 1) }
{
    let mut plan = small::small(alloc)?;
    plan.jumpstart = vec![in alloc; (58, 2)]?;
    Ok(plan)
}
