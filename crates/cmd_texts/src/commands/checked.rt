// The check of the whole container.
ghost use Rattle.std.specs.Prelude.{◌≡◌, ℕ, List, Some, IfOk, IfErr, IsErrOf, OnOk};
ghost use Rattle.apfs_model.specs.Counts.{Rose};
ghost use Rattle.apfs_model.specs.Kept.{IsKept};
ghost use Rattle.apfs_check.specs.Report.{IsChecked};
ghost use Rattle.cmd_texts.specs.Reached.{IsClean, IsWhileLooking, TellsFlaw};
ghost use Rattle.cmd_lines.specs.declared.stopped.Stopped.TheVariants.{ReadFailed};
ghost use Rattle.cmd_lines.specs.declared.words.Checks.TheVariants.{First};

use apfs_check::{Report, check};
use blk_source::BlockSource;
use cmd_lines::{Checks, Stopped, stopped_by};
use std::alloc::Global;
use view_rules::Profile;

/// What is told of a container that is well-formed under a profile, or why the run stops.
pub fn checked<S: BlockSource>(
    alloc: Global,
    profile: Profile,
    src: &mut S,
) -> Result<Report, Stopped>
    ensures clear { (image : List ℕ) → S.bytes src.old ≡ Some image → IfOk result (IsChecked profile image) }
    ensures flaw { (image : List ℕ) → S.bytes src.old ≡ Some image → IfErr result (TellsFlaw (First profile) image) }
    ensures looking { IfErr result IsWhileLooking }
    ensures cause { IsErrOf result ReadFailed → Rose (S.faults src.old) (S.faults src.new) }
    ensures kept { IsKept S.bytes S.bytes_len S.faults src.old src.new }
{
    match check(alloc, src, profile) {
        Ok(report) => Ok(report),
        Err(stop) => Err(stopped_by(stop, ())),
    }
}

/// Checks the container where a check is asked for before a command.
pub fn check_first<S: BlockSource>(
    alloc: Global,
    checks: Checks,
    src: &mut S,
) -> Result<(), Stopped>
    ensures clear { (image : List ℕ) → S.bytes src.old ≡ Some image → OnOk result (IsClean checks image) }
    ensures flaw { (image : List ℕ) → S.bytes src.old ≡ Some image → IfErr result (TellsFlaw checks image) }
    ensures looking { IfErr result IsWhileLooking }
    ensures cause { IsErrOf result ReadFailed → Rose (S.faults src.old) (S.faults src.new) }
    ensures kept { IsKept S.bytes S.bytes_len S.faults src.old src.new }
{
    match checks {
        Checks::Quick => { Ok(()) }
        Checks::First(profile) => match checked(alloc, profile, src) {
            Ok(_) => Ok(()),
            Err(stopped) => Err(stopped),
        },
    }
}
