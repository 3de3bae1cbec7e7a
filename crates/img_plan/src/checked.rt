// Plans that are tested before they are handed out.
ghost use Rattle.std.specs.Prelude.{◌≡◌, IfOk};
ghost use Rattle.img_plan.specs.Plans.{IsValid};

use crate::plan::Plan;
use std::alloc::AllocError;

// A plan that is valid, as each sample's is and each that is generated.
pub(crate) fn checked(plan: Plan) -> Result<Plan, AllocError>
    ensures valid { IfOk result IsValid }
    ensures same { IfOk result (λ answer. answer ≡ plan) }
{
    if plan.valid() {
        Ok(plan)
    } else {
        Err(AllocError)
    }
}
