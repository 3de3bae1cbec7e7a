//! Why a view has its rules if it differs by a plain change from one that has them.
#![tactic(auto)]

ghost use Rattle.rule_changes.specs.Laws.{ChangeKeepsRules, PlainIfRight};
ghost use Rattle.rule_changes.specs.Known.{RecordsWeave, CountsFollow, InodesKnown, ChildrenKnown, NamedOnce, NamedStill, AlikeByHash, FellowsAlone, DistinctIds, ChildrenStep, LinksKnown, NoNameless, NoOddHashes};

/// A plain change keeps the rules on the facts of a view, and nearly each change between views with their rules is plain. It does nothing.
pub fn change_keeps_rules()
    ensures rules { ChangeKeepsRules }
    ensures nearly_all { PlainIfRight }
{}

/// What is known of a change without a look at all facts. It does nothing.
pub fn change_is_known()
    ensures woven { RecordsWeave }
    ensures numbers { CountsFollow }
    ensures inodes_before { InodesKnown }
    ensures children { ChildrenKnown }
    ensures named_once { NamedOnce }
    ensures named_still { NamedStill }
    ensures alike { AlikeByHash }
    ensures fellows { FellowsAlone }
    ensures one_inode { DistinctIds }
    ensures children_step { ChildrenStep }
    ensures links { LinksKnown }
{}

/// A view after one without notes on hashes and on inodes has none, if what is tested has none. It does nothing.
pub fn change_keeps_silence()
    ensures nameless { NoNameless }
    ensures hashes { NoOddHashes }
{}
