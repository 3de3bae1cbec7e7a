// Numbers in order, among which each is counted by searches.
ghost use Rattle.std.specs.Prelude.{◌≡◌, ◌≤◌, ◌<◌, ℕ, true, false, nat_lt};
ghost use Rattle.std.specs.List.Sorted.{IsNonDecreasing};
ghost use Rattle.rule_index.specs.Ids.{count_in};

use id_lists::{ByItself, NO_GUESS};
use std::marker::Model;

/// Numbers in order, so that a search tells whether one is among them, and two tell how often.
#[derive(Drop)]
pub struct Counts {
    ids: Vec<u64>,
}

impl Model for Counts {
    ghost use Rattle.std.specs.Prelude.{List, ℕ};
    ghost use Rattle.std.specs.List.Sorted.{IsNonDecreasing};

    ghost Value = { List ℕ };

    ghost view = { λ counts. counts.ids.items };

    ghost invariant = { λ counts. IsNonDecreasing counts.ids.items };
}

// How often a number stands among some.
#[tactic(auto, unfolding(crate::specs::Ids::count_in))]
fn count_among(ids: &[u64], id: u64) -> usize
    requires { IsNonDecreasing ids.now }
    ensures { result ≡ count_in ids.now id }
{
    id_lists::count::<_, ByItself>(ids, id, NO_GUESS)
}

// Whether a number stands among some.
fn is_among(ids: &[u64], id: u64) -> bool
    requires { IsNonDecreasing ids.now }
    ensures { result ≡ nat_lt 0 (count_in ids.now id) }
{
    ids.binary_search(&id).is_ok()
}

// Whether none of some numbers is the next one too.
fn are_distinct(ids: &[u64]) -> bool
    requires { IsNonDecreasing ids.now }
    ensures distinct { result ≡ true → (q : ℕ) → count_in ids.now q ≤ 1 }
    ensures repeated { result ≡ false → (q : ℕ) × (1 < count_in ids.now q) }
{
    for i in 1..ids.len() {
        if ids[i - 1] == ids[i] {
            return false;
        }
    }
    true
}

impl Counts {
    /// Counts the numbers of a list.
    pub fn of(ids: Vec<u64>) -> Counts
        ensures { (q : ℕ) → count_in result q ≡ count_in ids.items q }
    {
        let mut ids = ids;
        ids.sort_unstable();
        Counts { ids }
    }

    /// How often a number is counted.
    pub fn count(&self, id: u64) -> u64
        ensures { result ≡ count_in self.now id }
    {
        count_among(&self.ids, id) as u64
    }

    /// Whether a number is counted.
    pub fn has(&self, id: u64) -> bool
        ensures { result ≡ nat_lt 0 (count_in self.now id) }
    {
        is_among(&self.ids, id)
    }

    /// Whether no number is counted twice.
    pub fn are_distinct(&self) -> bool
        ensures distinct { result ≡ true → (q : ℕ) → count_in self.now q ≤ 1 }
        ensures repeated { result ≡ false → (q : ℕ) × (1 < count_in self.now q) }
    {
        are_distinct(&self.ids)
    }
}
