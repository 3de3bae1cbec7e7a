// The ranges of owners, claimed one after the other.
ghost use Rattle.std.specs.Prelude.{◌≡◌, ℕ, false, OnOk, IfErr};
ghost use Rattle.own_ledger.specs.Held.{holds};
ghost use Rattle.own_settle.specs.Claimed.{AreClaimed, IsRangeFault};

use own_ledger::{ClaimFault, Ledger};

/// Claims ranges of a ledger that holds no block.
pub(crate) fn claim_all(ledger: &mut Ledger, ranges: &[(u64, u64)]) -> Result<(), ClaimFault>
    requires { (block : ℕ) → holds ledger.old block ≡ false }
    ensures clear { OnOk result (AreClaimed ledger.old ledger.new ranges.now) }
    ensures present { IfErr result (IsRangeFault ledger.old.first ledger.old.blocks ranges.now) }
{
    'each: for range in ranges {
        match ledger.claim(range.0, range.1) {
            Ok(()) => {}
            Err(fault) => return Err(fault),
        }
    }
    Ok(())
}
