// The directories of each file's entries.
ghost use Rattle.std.specs.Prelude.{◌≡◌, ◌<◌, ◌≤◌, ◌++◌, ◌∷◌, [], ◌&&◌, not, ℕ, List, Some, true, length, replicate, slice_index_or, count_by, IfOk, OnOk};
ghost use Rattle.std.specs.List.{list_any};
ghost use Rattle.fs_record.specs.Entries.{Entry};
ghost use Rattle.fs_record.specs.Facts.{Fact, directory_kind};
ghost use Rattle.view_rules.specs.Facts.{does_count, names_file};
ghost use Rattle.rule_index.specs.declared.kin.Kin.{Kin};
ghost use Rattle.rule_index.specs.Kins.{kin_place, parent_at, has_kind};
ghost use Rattle.rule_index.specs.Homes.{pair_of, are_listed, is_astray, IsHomeOf, IsOnlyHome, HasHomes};

use crate::ids::does_count;
use crate::kin::Kins;
use crate::pairs::Pairs;
use blk_source::NoMemory;
use std::alloc::Global;
use std::marker::Model;
use view_facts::EntryFact;

/// How many entries that count name a file, and the directory of one of them.
#[derive(Clone, Copy)]
pub(crate) struct Home {
    pub(crate) entries: u64,
    pub(crate) directory: u64,
}

/// Where the entries that count of an inode's file are told.
#[derive(Clone, Copy)]
pub(crate) enum Told {
    // It has none.
    Nowhere,
    // It has one alone, in the directory that the inode names as its parent.
    ByParent,
    // They stand among the pairs.
    InPairs,
}

/// At the place of each inode where the entries of its file are told, in a byte, and pairs of the file and the directory of each entry that counts and isn't told
/// by its inode's parent: of files without an inode, and of those that have another entry than the one in the parent.
#[derive(Drop)]
pub(crate) struct Homes {
    places: Vec<Told>,
    pairs: Pairs,
}

impl Model for Homes {
    ghost use Rattle.std.specs.Prelude.{List, ℕ};
    ghost use Rattle.rule_index.specs.declared.homes.Told.{Told};

    ghost Value = { List Told × List (ℕ × ℕ) };

    ghost view = { λ homes. (homes.places.items, homes.pairs) };
}

// For each of some inodes, that its file has no entry.
fn none_yet(alloc: Global, inodes: usize) -> Result<Vec<Told>, NoMemory>
    ensures { IfOk result (λ places. places.items ≡ replicate inodes Told.Nowhere) }
{
    Ok(vec![in alloc; Told::Nowhere; inodes]?)
}

/// The file and the directory of an entry.
pub(crate) fn pair_of(e: &EntryFact) -> (u64, u64)
    ensures { result ≡ pair_of e.now }
{
    (e.file_id(), e.id())
}

/// Whether an id has an inode that is a directory.
#[derive(Clone, Copy)]
pub(crate) struct Seen {
    pub(crate) id: u64,
    pub(crate) directory: bool,
}

// The same of another id. The entries of a directory stand side by side, so for most it is that of the entry before.
fn seen_of(kins: &Kins<'_>, last: Seen, id: u64) -> Seen
    requires { last.directory ≡ has_kind kins.now last.id directory_kind }
    ensures same { result.id ≡ id }
    ensures right { result.directory ≡ has_kind kins.now id directory_kind }
{
    if last.id == id {
        return last;
    }
    let directory = kins.has_kind(id, 4);
    Seen { id, directory }
}

// Whether an entry has its directory, and its file, whose inode stands at a place, with its kind.
fn has_both(kins: &Kins<'_>, at: usize, directory: bool, e: &EntryFact) -> bool
    requires place { Some at ≡ kin_place kins.now e.now.what.file_id }
    requires directory { directory ≡ has_kind kins.now e.now.id directory_kind }
    ensures { result ≡ (has_kind kins.now e.now.id directory_kind && has_kind kins.now e.now.what.file_id e.now.what.kind) }
{
    directory && kins.has_kind_at(at, e.kind())
}

// Has the entries of a file, whose inode stands at a place, among the pairs from now on.
fn list(
    places: &mut [Told],
    pairs: &mut Vec<(u64, u64)>,
    kins: &Kins<'_>,
    at: usize,
    file: u64,
) -> Result<(), NoMemory>
    requires place { Some at ≡ kin_place kins.now file }
    requires long { length places.old ≡ length kins.now }
    ensures same { OnOk result ((entries : List (Fact Entry)) → HasHomes kins.now entries (places.old, pairs.old.items) → HasHomes kins.now entries (places.new, pairs.new.items)) }
    ensures listed { OnOk result (are_listed kins.now places.new file ≡ true) }
{
    match places[at] {
        Told::Nowhere => {
            places[at] = Told::InPairs;
        }
        Told::ByParent => {
            places[at] = Told::InPairs;
            pairs.push((file, kins.parent_at(at)))?;
        }
        Told::InPairs => {}
    }
    Ok(())
}

// Whether an entry is the first one of its file, whose inode stands at a place, and stands in the directory that the inode names.
fn is_first_in_parent(places: &[Told], kins: &Kins<'_>, at: usize, e: &EntryFact) -> bool
    requires within { at < length kins.now }
    requires long { length places.now ≡ length kins.now }
    ensures { result ≡ true → (slice_index_or places.now at Told.Nowhere ≡ Told.Nowhere) × (e.now.id ≡ parent_at kins.now at) }
{
    match places[at] {
        Told::Nowhere => e.id() == kins.parent_at(at),
        Told::ByParent => false,
        Told::InPairs => false,
    }
}

// Adds one more entry that counts, of a file whose inode stands at a place.
fn add_at(
    places: &mut [Told],
    pairs: &mut Vec<(u64, u64)>,
    kins: &Kins<'_>,
    at: usize,
    e: &EntryFact,
) -> Result<(), NoMemory>
    requires counts { does_count e.now ≡ true }
    requires place { Some at ≡ kin_place kins.now e.now.what.file_id }
    requires long { length places.old ≡ length kins.now }
    ensures { OnOk result ((entries : List (Fact Entry)) → HasHomes kins.now entries (places.old, pairs.old.items) → HasHomes kins.now (entries ++ e.now ∷ []) (places.new, pairs.new.items)) }
{
    if is_first_in_parent(places, kins, at, e) {
        places[at] = Told::ByParent;
        return Ok(());
    }
    list(places, pairs, kins, at, e.file_id())?;
    pairs.push(pair_of(e))?;
    Ok(())
}

// Adds one more entry, of which it is known whether it has its directory. Tells whether it is whole: it doesn't count, or it has its directory, and its file
// with its kind.
fn add(
    places: &mut [Told],
    pairs: &mut Vec<(u64, u64)>,
    kins: &Kins<'_>,
    directory: bool,
    e: &EntryFact,
) -> Result<bool, NoMemory>
    requires directory { directory ≡ has_kind kins.now e.now.id directory_kind }
    requires long { length places.old ≡ length kins.now }
    ensures homes { OnOk result ((entries : List (Fact Entry)) → HasHomes kins.now entries (places.old, pairs.old.items) → HasHomes kins.now (entries ++ e.now ∷ []) (places.new, pairs.new.items)) }
    ensures whole { IfOk result (λ whole. whole ≡ not (is_astray kins.now e.now)) }
{
    if !does_count(e) {
        return Ok(true);
    }
    if let Some(at) = kins.place(e.file_id()) {
        add_at(places, pairs, kins, at, e)?;
        return Ok(has_both(kins, at, directory, e));
    }
    pairs.push(pair_of(e))?;
    Ok(false)
}

// Whether entries are whole with one more.
fn are_still_whole(whole: bool, fits: bool) -> bool
    ensures { result ≡ (whole && fits) }
{
    whole && fits
}

impl Homes {
    /// The directories of each file's entries, among those that count, and whether all of these are whole: each has its directory, and
    /// its file with its kind.
    pub(crate) fn of(
        alloc: Global,
        entries: &[EntryFact],
        kins: &Kins<'_>,
    ) -> Result<(Homes, bool), NoMemory>
        ensures homes { IfOk result (λ made. HasHomes kins.now entries.now made.0) }
        ensures whole { IfOk result (λ made. made.1 ≡ not (list_any (is_astray kins.now) entries.now)) }
    {
        let mut places = none_yet(alloc, kins.len())?;
        let mut listed = Vec::new(alloc);
        let mut whole = true;
        let mut seen = Seen {
            id: 0,
            directory: kins.has_kind(0, 4),
        };
        for e in entries {
            seen = seen_of(kins, seen, e.id());
            let fits = add(&mut places, &mut listed, kins, seen.directory, e)?;
            whole = are_still_whole(whole, fits);
        }
        let pairs = Pairs::of(alloc, listed)?;
        Ok((Homes { places, pairs }, whole))
    }

    /// Whether it shows at once that no file has two entries: each that has one has an inode, and one alone in the inode's parent.
    pub(crate) fn are_single(&self) -> bool
        ensures { result ≡ true → (kins : List (ℕ × Kin)) (entries : List (Fact Entry)) → HasHomes kins entries self.now → (file : ℕ) → count_by (names_file file) entries ≤ 1 }
    {
        self.pairs.is_empty()
    }

    // The entries of a file: how many, and the directory of one of them.
    fn home(&self, kins: &Kins<'_>, file: u64) -> Home
        requires { length self.now.0 ≡ length kins.now }
        ensures { (entries : List (Fact Entry)) → HasHomes kins.now entries self.now → IsHomeOf entries file result }
    {
        let Some(at) = kins.place(file) else {
            return self.pairs.home(file);
        };
        match self.places[at] {
            Told::Nowhere => Home {
                entries: 0,
                directory: 0,
            },
            Told::ByParent => Home {
                entries: 1,
                directory: kins.parent_at(at),
            },
            Told::InPairs => self.pairs.home(file),
        }
    }

    /// How many entries a file has.
    pub(crate) fn count(&self, kins: &Kins<'_>, file: u64) -> u64
        requires { length self.now.0 ≡ length kins.now }
        ensures { (entries : List (Fact Entry)) → HasHomes kins.now entries self.now → result ≡ count_by (names_file file) entries }
    {
        self.home(kins, file).entries
    }

    /// The directory of a file's only entry, where it has exactly one.
    pub(crate) fn only(&self, kins: &Kins<'_>, file: u64) -> Option<u64>
        requires { length self.now.0 ≡ length kins.now }
        ensures { (entries : List (Fact Entry)) → HasHomes kins.now entries self.now → IsOnlyHome entries file result }
    {
        let home = self.home(kins, file);
        if home.entries == 1 {
            Some(home.directory)
        } else {
            None
        }
    }
}
