// Keys in order, among which each is counted by searches.
ghost use Rattle.std.specs.Prelude.{◌≡◌, ◌≤◌, true, false, length, nat_lt};
ghost use Rattle.std.specs.List.Sorted.{IsSorted, IsPartitionPoint};
ghost use Rattle.std.specs.Ordering.{is_lt, is_le};
ghost use Rattle.rule_index.specs.Keys.{Key, key_cmp, key_count};

use crate::key::KeyRef;
use std::marker::Model;

/// Keys in order, so that a search tells whether one is among them, and two tell how often.
#[derive(Drop)]
pub struct KeyCounts<'a> {
    keys: Vec<KeyRef<'a>>,
}

impl<'a> Model for KeyCounts<'a> {
    ghost use Rattle.std.specs.Prelude.{List};
    ghost use Rattle.std.specs.List.Sorted.{IsSorted};
    ghost use Rattle.rule_index.specs.Keys.{Key, key_cmp};

    ghost Value = { List Key };

    ghost view = { λ counts. counts.keys.items };

    ghost invariant = { λ counts. IsSorted key_cmp counts.keys.items };
}

// How many keys are below one.
fn below(keys: &[KeyRef<'_>], key: &KeyRef<'_>) -> usize
    requires { IsSorted key_cmp keys.now }
    ensures bound { result ≤ length keys.now }
    ensures split { IsPartitionPoint (λ k. is_lt (key_cmp k key.now) ≡ true) (λ k. is_lt (key_cmp k key.now) ≡ false) keys.now result }
{
    keys.partition_point(
        |k: &KeyRef<'_>| -> bool
            ensures { result ≡ is_lt (key_cmp k.now key.entry.now) }
        { k.cmp(key).is_lt() },
    )
}

// How many keys aren't above one.
fn up_to(keys: &[KeyRef<'_>], key: &KeyRef<'_>) -> usize
    requires { IsSorted key_cmp keys.now }
    ensures bound { result ≤ length keys.now }
    ensures split { IsPartitionPoint (λ k. is_le (key_cmp k key.now) ≡ true) (λ k. is_le (key_cmp k key.now) ≡ false) keys.now result }
{
    keys.partition_point(
        |k: &KeyRef<'_>| -> bool
            ensures { result ≡ is_le (key_cmp k.now key.entry.now) }
        { k.cmp(key).is_le() },
    )
}

// How often a key stands among some.
fn count_among(keys: &[KeyRef<'_>], key: &KeyRef<'_>) -> usize
    requires { IsSorted key_cmp keys.now }
    ensures { result ≡ key_count keys.now key.now }
{
    up_to(keys, key) - below(keys, key)
}

// Whether a key stands among some.
fn is_among(keys: &[KeyRef<'_>], key: &KeyRef<'_>) -> bool
    requires { IsSorted key_cmp keys.now }
    ensures { result ≡ nat_lt 0 (key_count keys.now key.now) }
{
    keys.binary_search(key).is_ok()
}

impl<'a> KeyCounts<'a> {
    /// Counts the keys of a list.
    pub fn of(keys: Vec<KeyRef<'a>>) -> KeyCounts<'a>
        ensures { (q : Key) → key_count result q ≡ key_count keys.entry.items q }
    {
        let mut keys = keys;
        keys.sort_unstable();
        KeyCounts { keys }
    }

    /// How often a key is counted.
    pub fn count(&self, key: KeyRef<'a>) -> u64
        ensures { result ≡ key_count self.now key.entry }
    {
        count_among(&self.keys, &key) as u64
    }

    /// Whether a key is counted.
    pub fn has(&self, key: KeyRef<'a>) -> bool
        ensures { result ≡ nat_lt 0 (key_count self.now key.entry) }
    {
        is_among(&self.keys, &key)
    }
}
