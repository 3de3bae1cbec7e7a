// Entries that may have the name of another one. Entries stand in the order of their directories and hashes, so where the hashes of ASCII names
// are right, such a name is there once if it is beside none of its directory and hash.
ghost use Rattle.std.specs.Prelude.{◌≡◌, ◌⊎◌, ◌+◌, ◌-◌, ◌<◌, ◌++◌, [], ◌∷◌, true, false, length, IfOk, OnOk};
ghost use Rattle.std.specs.List.{slice_index_or};
ghost use Rattle.std.specs.List.Sorted.{IsNonDecreasingBy};
ghost use Rattle.fs_record.specs.Entries.{Entry};
ghost use Rattle.fs_record.specs.Facts.{Fact};
ghost use Rattle.rule_index.specs.Digests.{digest_of};
ghost use Rattle.rule_breaks.specs.Suspects.{entry_rank, IsAlone, HasSuspects};

use blk_source::NoMemory;
use rule_index::digests::digest;
use std::alloc::Global;
use view_facts::EntryFact;

// The directory of an entry and its hash as one number.
fn rank(e: &EntryFact) -> u128
    ensures { result ≡ entry_rank e.now }
{
    u128::from(e.id()) * (1 << 32) + u128::from(e.hash())
}

/// Whether entries stand in the order of their directories and hashes.
pub(crate) fn are_ranked(entries: &[EntryFact]) -> bool
    ensures { result ≡ true → IsNonDecreasingBy entry_rank entries.now }
{
    for i in 1..entries.len() {
        if rank(&entries[i]) < rank(&entries[i - 1]) {
            return false;
        }
    }
    true
}

// Whether the entry before one has its directory and its hash.
fn follows_its_like(entries: &[EntryFact], i: usize) -> bool
    requires { i < length entries.now }
    ensures { result ≡ false → (d : Fact Entry) → 0 < i → entry_rank (slice_index_or entries.now (i - 1) d) ≡ entry_rank (slice_index_or entries.now i d) → ⊥ }
{
    i > 0 && rank(&entries[i - 1]) == rank(&entries[i])
}

// Whether the entry after one has its directory and its hash.
fn precedes_its_like(entries: &[EntryFact], i: usize) -> bool
    requires { i < length entries.now }
    ensures { result ≡ false → (d : Fact Entry) → i + 1 < length entries.now → entry_rank (slice_index_or entries.now (i + 1) d) ≡ entry_rank (slice_index_or entries.now i d) → ⊥ }
{
    i + 1 < entries.len() && rank(&entries[i + 1]) == rank(&entries[i])
}

// Whether an entry may have the name of another one.
fn is_suspect(entries: &[EntryFact], i: usize) -> bool
    requires { i < length entries.now }
    ensures { result ≡ false → IsAlone entries.now i }
{
    if !entries[i].is_ascii() {
        return true;
    }
    let follows = follows_its_like(entries, i);
    let precedes = precedes_its_like(entries, i);
    follows || precedes
}

// Puts the digest of an entry's name after others, where another one may have it.
fn add(digests: &mut Vec<u64>, entries: &[EntryFact], i: usize) -> Result<(), NoMemory>
    requires { i < length entries.now }
    ensures { OnOk result ((IsAlone entries.now i × (digests.new.items ≡ digests.old.items)) ⊎ ((d : Fact Entry) → digests.new.items ≡ digests.old.items ++ digest_of (slice_index_or entries.now i d).id (slice_index_or entries.now i d).what.name ∷ [])) }
{
    if !is_suspect(entries, i) {
        return Ok(());
    }
    let e = &entries[i];
    digests.push(digest(e.id(), e.name()))?;
    Ok(())
}

/// The digests of the names that another entry may have.
pub(crate) fn suspects(alloc: Global, entries: &[EntryFact]) -> Result<Vec<u64>, NoMemory>
    ensures { IfOk result (λ ids. HasSuspects entries.now ids.items) }
{
    let mut digests = Vec::new(alloc);
    for i in 0..entries.len() {
        add(&mut digests, entries, i)?;
    }
    Ok(digests)
}
