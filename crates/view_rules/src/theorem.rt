// The law of the rules, which rests on the definitions alone.
ghost use Rattle.view_rules.specs.Laws.{RulesOrFlaw, NeverBoth};

/// A view meets its rules, or a fault of it or a feature of its tree is present, and never both; under both profiles. It does nothing.
pub fn rules_or_flaw()
    ensures either { RulesOrFlaw }
    ensures never_both { NeverBoth }
{}
