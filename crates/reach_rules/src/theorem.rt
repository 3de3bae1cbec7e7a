// The law of the account, which rests on the definitions alone.
ghost use Rattle.reach_rules.specs.Laws.{AccountedOrFlawed, NeverBoth};

/// A container is accounted, or a fault or a feature is present, and never both. It does nothing.
pub fn accounted_or_flawed()
    ensures either { AccountedOrFlawed }
    ensures never_both { NeverBoth }
{}
