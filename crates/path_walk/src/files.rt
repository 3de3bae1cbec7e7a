// The entries and the inodes of a view in memory.
ghost use Rattle.std.specs.Prelude.{◌≡◌, ◌==◌, ◌≤◌, ◌+◌, take, drop, nat_lt, true, false, length, Some, None, option_map, filter};
ghost use Rattle.std.specs.List.Sorted.{IsPartitionPoint};
ghost use Rattle.view_rules.specs.Facts.{Facts, inode_at};
ghost use Rattle.path_search.specs.Found.{entries_in};
ghost use Rattle.path_search.specs.Parts.{whats, Rises, IsFirst, Remembers, HasEntries};

use path_search::by_search::is_reserved;
use view_facts::{EntryFact, InodeFact};

/// The entries of a view, by the ids of their directories, and its inodes by their ids, each in record order.
#[derive(Drop)]
pub struct Files {
    pub entries: Vec<EntryFact>,
    pub inodes: Vec<InodeFact>,
}

// How many entries are of directories below an id.
fn entries_below(entries: &[EntryFact], id: u64) -> usize
    ensures bound { result ≤ length entries.now }
    ensures split { Rises entries.now → IsPartitionPoint (λ f. nat_lt f.id id ≡ true) (λ f. nat_lt f.id id ≡ false) entries.now result }
{
    entries.partition_point(
        |entry: &EntryFact| -> bool
            ensures { result ≡ nat_lt entry.now.id id }
        { entry.id() < id },
    )
}

// How many of some entries are of the directory of an id, where they stand first.
fn entries_of(entries: &[EntryFact], id: u64) -> usize
    ensures bound { result ≤ length entries.now }
    ensures split { IsFirst id entries.now → IsPartitionPoint (λ f. (f.id == id) ≡ true) (λ f. (f.id == id) ≡ false) entries.now result }
{
    entries.partition_point(
        |entry: &EntryFact| -> bool
            ensures { result ≡ (entry.now.id == id) }
        { entry.id() == id },
    )
}

// Where an inode of an id would stand, if ids lay as far apart everywhere.
fn between(inodes: &[InodeFact], id: u64) -> usize {
    let (Some(first), Some(last)) = (inodes.first(), inodes.last()) else {
        return 0;
    };
    let past = id.saturating_sub(first.id());
    let span = last.id().saturating_sub(first.id());
    match past.checked_mul(inodes.len() as u64) {
        Some(product) => match product.checked_div(span.saturating_add(1)) {
            Some(place) => place as usize,
            None => 0,
        },
        None => 0,
    }
}

// How many inodes are of ids below an id, as far as those between a place and the id's are looked at: ids that rise are as far apart as their places, or further.
fn near(inodes: &[InodeFact], id: u64, at: usize) -> usize {
    let Some(item) = inodes.get(at) else {
        return at;
    };
    let before = item.id().saturating_sub(id) as usize;
    let after = id.saturating_sub(item.id()) as usize;
    let from = at.saturating_sub(before);
    let to = at.saturating_add(after).min(inodes.len());
    match inodes.get(from..to) {
        Some(few) => from.saturating_add(few.partition_point(|at: &InodeFact| -> bool {
            at.id() < id
        })),
        None => at,
    }
}

// Whether as many inodes are of ids below one as stand before a place.
fn is_point(inodes: &[InodeFact], id: u64, at: usize) -> bool
    ensures bound { result ≡ true → at ≤ length inodes.now }
    ensures split { Rises inodes.now → result ≡ true → IsPartitionPoint (λ f. nat_lt f.id id ≡ true) (λ f. nat_lt f.id id ≡ false) inodes.now at }
{
    if at > inodes.len() {
        return false;
    }
    if at < inodes.len() {
        let next = &inodes[at];
        if next.id() < id {
            return false;
        }
    }
    if at == 0 {
        return true;
    }
    let last = &inodes[at - 1];
    last.id() < id
}

// How many inodes are of ids below an id, by a search among all.
fn searched(inodes: &[InodeFact], id: u64) -> usize
    ensures bound { result ≤ length inodes.now }
    ensures split { Rises inodes.now → IsPartitionPoint (λ f. nat_lt f.id id ≡ true) (λ f. nat_lt f.id id ≡ false) inodes.now result }
{
    inodes.partition_point(
        |at: &InodeFact| -> bool
            ensures { result ≡ nat_lt at.now.id id }
        { at.id() < id },
    )
}

// How many inodes are of ids below an id, by a guess that is tested, or by a search.
fn sought(inodes: &[InodeFact], id: u64) -> usize
    ensures bound { result ≤ length inodes.now }
    ensures split { Rises inodes.now → IsPartitionPoint (λ f. nat_lt f.id id ≡ true) (λ f. nat_lt f.id id ≡ false) inodes.now result }
{
    let guess = near(inodes, id, between(inodes, id));
    if is_point(inodes, id, guess) {
        return guess;
    }
    searched(inodes, id)
}

// How many inodes are of ids below an id. The first guess is as far from the id as the last answer was from its own: ids are mostly given one after the other. No
// guess is believed.
fn inodes_below(inodes: &[InodeFact], id: u64, shift: &mut u64) -> usize
    ensures bound { result ≤ length inodes.now }
    ensures split { Rises inodes.now → IsPartitionPoint (λ f. nat_lt f.id id ≡ true) (λ f. nat_lt f.id id ≡ false) inodes.now result }
{
    let guess = id.saturating_sub(*shift) as usize;
    if is_point(inodes, id, guess) {
        return guess;
    }
    let found = sought(inodes, id);
    *shift = id.saturating_sub(found as u64);
    found
}

/// So many items from a place on.
pub(crate) fn part<T>(items: &[T], from: usize, count: usize) -> &[T]
    requires { from + count ≤ length items.now }
    ensures items { result.now ≡ take count (drop from items.now) }
    ensures counted { length result.now ≡ count }
{
    let rest = &items[from..];
    &rest[..count]
}

/// Where the entries of the directory of an id begin, and how many they are.
pub(crate) fn run_at(entries: &[EntryFact], id: u64) -> (usize, usize)
    ensures inside { result.0 + result.1 ≤ length entries.now }
    ensures run { Rises entries.now → take result.1 (drop result.0 entries.now) ≡ filter (λ f. f.id == id) entries.now }
{
    let from = entries_below(entries, id);
    let rest = &entries[from..];
    let count = entries_of(rest, id);
    (from, count)
}

// The entries of the directory of an id.
fn run_of(entries: &[EntryFact], id: u64) -> &[EntryFact]
    ensures { Rises entries.now → result.now ≡ filter (λ f. f.id == id) entries.now }
{
    let (from, count) = run_at(entries, id);
    part(entries, from, count)
}

/// The entries of a directory that are followed and listed.
#[tactic(auto, unfolding(path_search::specs::Found::entries_in))]
pub(crate) fn directory_in(entries: &[EntryFact], id: u64) -> &[EntryFact]
    ensures counted { (facts : Facts) → entries.now ≡ facts.entries → Rises entries.now → HasEntries facts result.now }
    ensures all { (facts : Facts) → entries.now ≡ facts.entries → Rises entries.now → whats result.now ≡ entries_in facts id }
{
    if is_reserved(id) {
        return &[];
    }
    run_of(entries, id)
}

/// The inode of an id, the first where there are more. What `shift` has is how far the last id that was looked for is from its place, and decides nothing.
pub(crate) fn inode_in<'a>(
    inodes: &'a [InodeFact],
    id: u64,
    shift: &mut u64,
) -> Option<&'a InodeFact>
    ensures { (facts : Facts) → inodes.now ≡ facts.inodes → Rises inodes.now → option_map (λ inode. inode.now.what) result ≡ inode_at facts id }
{
    let from = inodes_below(inodes, id, shift);
    if from == inodes.len() {
        return None;
    }
    let at = &inodes[from];
    if at.id() == id { Some(at) } else { None }
}

impl Files {
    /// The entries of a directory that are followed and listed.
    pub fn directory(&self, id: u64) -> &[EntryFact]
        ensures counted { (facts : Facts) → Remembers facts self.now.entries.items self.now.inodes.items → HasEntries facts result.now }
        ensures all { (facts : Facts) → Remembers facts self.now.entries.items self.now.inodes.items → whats result.now ≡ entries_in facts id }
    {
        directory_in(&self.entries, id)
    }

    /// The inode of an id, the first where there are more.
    pub(crate) fn inode(&self, id: u64) -> Option<&InodeFact>
        ensures { (facts : Facts) → Remembers facts self.now.entries.items self.now.inodes.items → option_map (λ inode. inode.now.what) result ≡ inode_at facts id }
    {
        let mut shift = 0;
        inode_in(&self.inodes, id, &mut shift)
    }
}
