// The law of the check, which rests on the definitions alone.
ghost use Rattle.apfs_check.specs.Laws.{WellFormedOrFlawed, NeverBoth, HasReport, OneReport, Browsed, StrictIsPlain};

/// An image is well-formed under a profile, or a fault is present under it or a feature is present, and never both. A well-formed
/// image has one report, and can be browsed. Well-formed under Strict is well-formed under Plain without the notes that are faults
/// there. It does nothing.
pub fn well_formed_or_flawed()
    ensures either { WellFormedOrFlawed }
    ensures never_both { NeverBoth }
    ensures report { HasReport }
    ensures one_report { OneReport }
    ensures browsed { Browsed }
    ensures strict { StrictIsPlain }
{}
