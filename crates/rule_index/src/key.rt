// By what facts are counted: up to three numbers and a name.
ghost use Rattle.std.proofs.Common.{rules};
ghost use Rattle.std.specs.Cmp.Rules.{comparing};
ghost use Rattle.std.specs.Ordering.{as_partial_cmp};
ghost use Rattle.rule_index.specs.Keys.{key_cmp, is_same_key, key_partial};

use std::cmp::Ordering;
use std::marker::Model;

/// Up to three numbers and a name.
#[derive(Drop)]
pub struct KeyRef<'a> {
    pub first: u64,
    pub second: u64,
    pub third: u64,
    pub name: &'a str,
}

impl<'a> Model for KeyRef<'a> {
    ghost use Rattle.rule_index.specs.Keys.{Key};

    ghost Value = { Key };

    ghost view = { λ a. record { first = a.first; second = a.second; third = a.third; name = a.name.now } };
}

impl PartialEq for KeyRef<'_> {
    ghost eq = { is_same_key };

    ghost laws = { Prim.search (comparing, rules) };

    fn eq(&self, other: &Self) -> bool {
        self.first == other.first
            && self.second == other.second
            && self.third == other.third
            && self.name == other.name
    }
}

impl Eq for KeyRef<'_> {
    ghost laws = { Prim.search (comparing, rules) };
}

impl Ord for KeyRef<'_> {
    ghost cmp = { key_cmp };

    ghost total = { Prim.search (comparing, rules) };

    ghost matches_partial_cmp = { Prim.search (comparing, rules) };

    ghost matches_eq = { Prim.search (comparing, rules) };

    fn cmp(&self, other: &Self) -> Ordering {
        self.first
            .cmp(&other.first)
            .then(self.second.cmp(&other.second))
            .then(self.third.cmp(&other.third))
            .then_with(|| self.name.cmp(other.name))
    }
}

impl PartialOrd for KeyRef<'_> {
    ghost partial_cmp = { as_partial_cmp key_cmp };

    ghost laws = { key_partial };

    fn partial_cmp(&self, other: &Self) -> Option<Ordering> {
        Some(self.cmp(other))
    }
}
