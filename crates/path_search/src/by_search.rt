// Paths by searches in a view's tree.
ghost use Rattle.std.specs.Prelude.{◌≡◌, ℕ, true, List, [], ◌∷◌, Some, map, IfOk, IfErr, IfSome, IsErrOf};
ghost use Rattle.apfs_model.specs.Counts.{Rose};
ghost use Rattle.apfs_model.specs.Kept.{IsKept};
ghost use Rattle.obj_base.specs.declared.stop.Stop.TheVariants.{ReadFault};
ghost use Rattle.obj_base.specs.Stops.{Tells};
ghost use Rattle.obj_base.specs.Site.{IsSiteFor};
ghost use Rattle.bt_cursor.specs.Flat.{flat_of};
ghost use Rattle.bt_cursor.specs.Line.{line_of};
ghost use Rattle.bt_cursor.specs.Order.{is_ordered};
ghost use Rattle.bt_cursor.specs.Faults.{IsNodeFault, HasFeature};
ghost use Rattle.bt_cursor.specs.Cursors.{site_of, root_of, tree_of, IsOn};
ghost use Rattle.fs_name.specs.Normal.{are_hashed};
ghost use Rattle.fs_record.specs.Facts as facts;
ghost use Rattle.vol_view.specs.Views.{view_tree};
ghost use Rattle.view_rules.specs.Facts.{facts_in, is_directory};
ghost use Rattle.path_search.specs.Paths.{parts_of};
ghost use Rattle.path_search.specs.Places.{placed, target_of};
ghost use Rattle.path_search.specs.Listing.{children, listed, listing};
ghost use Rattle.path_search.specs.Found.{entries_in, entry_named, step, walk, found};
ghost use Rattle.path_search.specs.Needs.{StepNeeds, PathNeeds, ChildrenNeed, ListingNeeds, HaveFiles};
ghost use Rattle.path_search.specs.Stays.{Stays, StopsFrom};
ghost use Rattle.path_search.specs.Parts.{whats, by_part, along, target_by, targets_by, Leads, HasEntriesIn, NeedsIn, PartNeeds, AlongNeeds, WhereLed};

use crate::Answer;
use crate::choice::{choose, parts};
use crate::kept::{KeptInode, KeptTarget, Place};
use crate::onward::Onward;
use crate::order::{alone, kept_by_name};
use crate::search::{Wanted, find_entries, find_inode};
use apfs_model::NoMemory;
use blk_source::BlockSource;
use bt_cursor::{Cursor, Namer, WalkFault};
use bt_keys::FsTreeKey;
use fs_name::Names;
use fs_record::KeptName;
use obj_base::{Site, Stop};
use omap_map::At;
use std::alloc::Global;
use view_facts::EntryFact;
use vol_view::{View, Volume};

/// The id of the root (File-System Objects, `ROOT_DIR_INO_NUM`).
pub const ROOT: u64 = 2;

/// Whether an id is reserved: a directory of such an id has no entries that are followed or listed.
pub fn is_reserved(id: u64) -> bool
    ensures { result ≡ facts.is_reserved id }
{
    id == 1 || (4 <= id && id <= 15)
}

/// The place of an entry's file, which has this inode.
pub fn place_of(alloc: Global, entry: &EntryFact, inode: KeptInode) -> Result<Place, NoMemory>
    ensures { IfOk result (λ place. place ≡ placed entry.now.what.file_id entry.now.what.name inode) }
{
    let name = KeptName::of(alloc, entry.name())?;
    Ok(Place {
        id: entry.file_id(),
        name,
        inode,
    })
}

/// The place of the root, which has this inode.
pub fn root_of_inode(alloc: Global, inode: KeptInode) -> Result<Place, NoMemory>
    ensures { IfOk result (λ place. place ≡ placed 2 (0x2f ∷ []) inode) }
{
    let name = KeptName::of(alloc, "/")?;
    Ok(Place {
        id: ROOT,
        name,
        inode,
    })
}

// The entries of a directory that are followed and listed; None where one of them can't be read, or there are many.
#[tactic(auto, unfolding(crate::specs::Found::entries_in))]
fn directory<K: FsTreeKey, S: BlockSource, N: Namer>(
    alloc: Global,
    src: &mut S,
    cursor: &mut Cursor<K, N>,
    names: Names,
    id: u64,
) -> Result<Option<Vec<EntryFact>>, Stop<WalkFault>>
    requires site { IsSiteFor (site_of cursor.old) (S.bytes_len src.old) }
    requires hashed { are_hashed names ≡ K.HASHED }
    ensures stays { Stays S.bytes S.bytes_len S.faults src.old src.new cursor.old cursor.new }
    ensures found { (image : List ℕ) → S.bytes src.old ≡ Some image → IsOn image cursor.old → is_ordered K.shape (line_of (tree_of cursor.old image) (root_of cursor.old)) ≡ true → IfOk result (λ run. IfSome run (λ v. whats v.items ≡ entries_in (facts_in names (flat_of (tree_of cursor.old image) (root_of cursor.old))) id)) }
    ensures all { (image : List ℕ) → S.bytes src.old ≡ Some image → IsOn image cursor.old → is_ordered K.shape (line_of (tree_of cursor.old image) (root_of cursor.old)) ≡ true → IfOk result (λ run. IfSome run (λ v. HasEntriesIn names (tree_of cursor.old image) (root_of cursor.old) id)) }
    ensures stops { IfErr result (StopsFrom S.bytes S.faults src.old src.new cursor.old) }
{
    if is_reserved(id) {
        return Ok(Some(Vec::new(alloc)));
    }
    match find_entries(alloc, src, cursor, names, id, Wanted::All) {
        Ok(run) => Ok(run),
        Err(stop) => Err(stop),
    }
}

// Entries of a directory among which a name takes the one that it takes among all that are followed: those of its bytes, and
// where there are none those of its normal form. None where one of the directory's can't be read, or there are many of them.
#[tactic(auto, unfolding(crate::specs::Found::entries_in))]
fn candidates<K: FsTreeKey, S: BlockSource, N: Namer>(
    alloc: Global,
    src: &mut S,
    cursor: &mut Cursor<K, N>,
    names: Names,
    id: u64,
    name: &str,
) -> Result<Option<Vec<EntryFact>>, Stop<WalkFault>>
    requires site { IsSiteFor (site_of cursor.old) (S.bytes_len src.old) }
    requires hashed { are_hashed names ≡ K.HASHED }
    ensures stays { Stays S.bytes S.bytes_len S.faults src.old src.new cursor.old cursor.new }
    ensures found { (image : List ℕ) → S.bytes src.old ≡ Some image → IsOn image cursor.old → is_ordered K.shape (line_of (tree_of cursor.old image) (root_of cursor.old)) ≡ true → IfOk result (λ run. IfSome run (λ v. entry_named names name.now (whats v.items) ≡ entry_named names name.now (entries_in (facts_in names (flat_of (tree_of cursor.old image) (root_of cursor.old))) id))) }
    ensures all { (image : List ℕ) → S.bytes src.old ≡ Some image → IsOn image cursor.old → is_ordered K.shape (line_of (tree_of cursor.old image) (root_of cursor.old)) ≡ true → IfOk result (λ run. IfSome run (λ v. HasEntriesIn names (tree_of cursor.old image) (root_of cursor.old) id)) }
    ensures stops { IfErr result (StopsFrom S.bytes S.faults src.old src.new cursor.old) }
{
    if is_reserved(id) {
        return Ok(Some(Vec::new(alloc)));
    }
    let run = match find_entries(alloc, src, cursor, names, id, Wanted::Same(name)) {
        Ok(run) => run,
        Err(stop) => return Err(stop),
    };
    let Some(same) = run else {
        return Ok(None);
    };
    if !same.is_empty() {
        return Ok(Some(same));
    }
    match find_entries(alloc, src, cursor, names, id, Wanted::Alike(name)) {
        Ok(run) => Ok(run),
        Err(stop) => Err(stop),
    }
}

// One name on from a place.
fn go_on<K: FsTreeKey, S: BlockSource, N: Namer>(
    alloc: Global,
    src: &mut S,
    cursor: &mut Cursor<K, N>,
    names: Names,
    place: &Place,
    name: &str,
) -> Result<Onward<Place>, Stop<WalkFault>>
    requires site { IsSiteFor (site_of cursor.old) (S.bytes_len src.old) }
    requires hashed { are_hashed names ≡ K.HASHED }
    ensures stays { Stays S.bytes S.bytes_len S.faults src.old src.new cursor.old cursor.new }
    ensures leads { (image : List ℕ) → S.bytes src.old ≡ Some image → IsOn image cursor.old → is_ordered K.shape (line_of (tree_of cursor.old image) (root_of cursor.old)) ≡ true → IfOk result (Leads (λ place. place) (step (facts_in names (flat_of (tree_of cursor.old image) (root_of cursor.old))) place.now name.now)) }
    ensures needs { (image : List ℕ) → S.bytes src.old ≡ Some image → IsOn image cursor.old → is_ordered K.shape (line_of (tree_of cursor.old image) (root_of cursor.old)) ≡ true → IfOk result (WhereLed (NeedsIn (λ facts has_all. StepNeeds facts has_all place.now name.now) names (tree_of cursor.old image) (root_of cursor.old))) }
    ensures stops { IfErr result (StopsFrom S.bytes S.faults src.old src.new cursor.old) }
{
    if !place.is_directory() {
        return Ok(Onward::Answered(Answer::NotDirectory));
    }
    let run = match candidates(alloc, src, cursor, names, place.id, name) {
        Ok(run) => run,
        Err(stop) => return Err(stop),
    };
    let Some(entries) = run else {
        return Ok(Onward::Lost);
    };
    let Some(entry) = choose(alloc, names, name, &entries)? else {
        return Ok(Onward::Answered(Answer::NotFound));
    };
    let found = match find_inode(src, cursor, entry.file_id()) {
        Ok(found) => found,
        Err(stop) => return Err(stop),
    };
    let Some(inode) = found else {
        return Ok(Onward::Lost);
    };
    let next = place_of(alloc, entry, inode)?;
    Ok(Onward::To(next))
}

// One part of a path on from a place; an empty part stays there.
fn go_by<K: FsTreeKey, S: BlockSource, N: Namer>(
    alloc: Global,
    src: &mut S,
    cursor: &mut Cursor<K, N>,
    names: Names,
    place: Place,
    part: &str,
) -> Result<Onward<Place>, Stop<WalkFault>>
    requires site { IsSiteFor (site_of cursor.old) (S.bytes_len src.old) }
    requires hashed { are_hashed names ≡ K.HASHED }
    ensures stays { Stays S.bytes S.bytes_len S.faults src.old src.new cursor.old cursor.new }
    ensures leads { (image : List ℕ) → S.bytes src.old ≡ Some image → IsOn image cursor.old → is_ordered K.shape (line_of (tree_of cursor.old image) (root_of cursor.old)) ≡ true → IfOk result (Leads (λ place. place) (by_part (facts_in names (flat_of (tree_of cursor.old image) (root_of cursor.old))) place part.now)) }
    ensures needs { (image : List ℕ) → S.bytes src.old ≡ Some image → IsOn image cursor.old → is_ordered K.shape (line_of (tree_of cursor.old image) (root_of cursor.old)) ≡ true → IfOk result (WhereLed (NeedsIn (λ facts has_all. PartNeeds facts has_all place part.now) names (tree_of cursor.old image) (root_of cursor.old))) }
    ensures stops { IfErr result (StopsFrom S.bytes S.faults src.old src.new cursor.old) }
{
    if part.is_empty() {
        return Ok(Onward::To(place));
    }
    go_on(alloc, src, cursor, names, &place, part)
}

// All parts of a path on from a place.
fn go_along<K: FsTreeKey, S: BlockSource, N: Namer>(
    alloc: Global,
    src: &mut S,
    cursor: &mut Cursor<K, N>,
    names: Names,
    start: Place,
    parts: &[&str],
) -> Result<Onward<Place>, Stop<WalkFault>>
    requires site { IsSiteFor (site_of cursor.old) (S.bytes_len src.old) }
    requires hashed { are_hashed names ≡ K.HASHED }
    ensures stays { Stays S.bytes S.bytes_len S.faults src.old src.new cursor.old cursor.new }
    ensures leads { (image : List ℕ) → S.bytes src.old ≡ Some image → IsOn image cursor.old → is_ordered K.shape (line_of (tree_of cursor.old image) (root_of cursor.old)) ≡ true → IfOk result (Leads (λ place. place) (along (facts_in names (flat_of (tree_of cursor.old image) (root_of cursor.old))) (map (λ part. part.now) parts.now) start)) }
    ensures needs { (image : List ℕ) → S.bytes src.old ≡ Some image → IsOn image cursor.old → is_ordered K.shape (line_of (tree_of cursor.old image) (root_of cursor.old)) ≡ true → IfOk result (WhereLed (NeedsIn (λ facts has_all. AlongNeeds facts has_all (map (λ part. part.now) parts.now) start) names (tree_of cursor.old image) (root_of cursor.old))) }
    ensures stops { IfErr result (StopsFrom S.bytes S.faults src.old src.new cursor.old) }
{
    let mut place = start;
    for part in parts {
        let onward = match go_by(alloc, src, cursor, names, place, part) {
            Ok(onward) => onward,
            Err(stop) => return Err(stop),
        };
        match onward {
            Onward::To(next) => place = next,
            Onward::Answered(answer) => return Ok(Onward::Answered(answer)),
            Onward::Lost => return Ok(Onward::Lost),
        }
    }
    Ok(Onward::To(place))
}

// All parts of a path on from the root; what it says holds for each path that has these parts.
fn go_from_root<K: FsTreeKey, S: BlockSource, N: Namer>(
    alloc: Global,
    src: &mut S,
    cursor: &mut Cursor<K, N>,
    names: Names,
    parts: &[&str],
) -> Result<Onward<Place>, Stop<WalkFault>>
    requires site { IsSiteFor (site_of cursor.old) (S.bytes_len src.old) }
    requires hashed { are_hashed names ≡ K.HASHED }
    ensures stays { Stays S.bytes S.bytes_len S.faults src.old src.new cursor.old cursor.new }
    ensures leads { (path : List ℕ) → map (λ part. part.now) parts.now ≡ parts_of path → (image : List ℕ) → S.bytes src.old ≡ Some image → IsOn image cursor.old → is_ordered K.shape (line_of (tree_of cursor.old image) (root_of cursor.old)) ≡ true → IfOk result (Leads (λ place. place) (found (facts_in names (flat_of (tree_of cursor.old image) (root_of cursor.old))) path)) }
    ensures needs { (path : List ℕ) → map (λ part. part.now) parts.now ≡ parts_of path → (image : List ℕ) → S.bytes src.old ≡ Some image → IsOn image cursor.old → is_ordered K.shape (line_of (tree_of cursor.old image) (root_of cursor.old)) ≡ true → IfOk result (WhereLed (NeedsIn (λ facts has_all. PathNeeds facts has_all path) names (tree_of cursor.old image) (root_of cursor.old))) }
    ensures stops { IfErr result (StopsFrom S.bytes S.faults src.old src.new cursor.old) }
{
    let found = match find_inode(src, cursor, ROOT) {
        Ok(found) => found,
        Err(stop) => return Err(stop),
    };
    let Some(inode) = found else {
        return Ok(Onward::Lost);
    };
    let root = root_of_inode(alloc, inode)?;
    match go_along(alloc, src, cursor, names, root, parts) {
        Ok(onward) => Ok(onward),
        Err(stop) => Err(stop),
    }
}

/// Where a path leads, from a cursor of the view's tree.
pub fn locate<K: FsTreeKey, S: BlockSource, N: Namer>(
    alloc: Global,
    src: &mut S,
    cursor: &mut Cursor<K, N>,
    names: Names,
    path: &str,
) -> Result<Onward<Place>, Stop<WalkFault>>
    requires site { IsSiteFor (site_of cursor.old) (S.bytes_len src.old) }
    requires hashed { are_hashed names ≡ K.HASHED }
    ensures site { site_of cursor.new ≡ site_of cursor.old }
    ensures root { root_of cursor.new ≡ root_of cursor.old }
    ensures tree { tree_of cursor.new ≡ tree_of cursor.old }
    ensures within { (image : List ℕ) → S.bytes src.old ≡ Some image → IsOn image cursor.old → IsOn image cursor.new }
    ensures leads { (image : List ℕ) → S.bytes src.old ≡ Some image → IsOn image cursor.old → is_ordered K.shape (line_of (tree_of cursor.old image) (root_of cursor.old)) ≡ true → IfOk result (Leads (λ place. place) (found (facts_in names (flat_of (tree_of cursor.old image) (root_of cursor.old))) path.now)) }
    ensures needs { (image : List ℕ) → S.bytes src.old ≡ Some image → IsOn image cursor.old → is_ordered K.shape (line_of (tree_of cursor.old image) (root_of cursor.old)) ≡ true → IfOk result (WhereLed (NeedsIn (λ facts has_all. PathNeeds facts has_all path.now) names (tree_of cursor.old image) (root_of cursor.old))) }
    ensures present { (image : List ℕ) → S.bytes src.old ≡ Some image → IsOn image cursor.old → IfErr result (Tells (IsNodeFault (tree_of cursor.old image) (root_of cursor.old)) (HasFeature (tree_of cursor.old image) (root_of cursor.old))) }
    ensures cause { IsErrOf result ReadFault → Rose (S.faults src.old) (S.faults src.new) }
    ensures kept { IsKept S.bytes S.bytes_len S.faults src.old src.new }
{
    let parts = parts(alloc, path)?;
    go_from_root(alloc, src, cursor, names, &parts)
}

// An entry's file as it is told; None where it has no inode, or one that can't be read.
fn target_at<K: FsTreeKey, S: BlockSource, N: Namer>(
    alloc: Global,
    src: &mut S,
    cursor: &mut Cursor<K, N>,
    names: Names,
    entry: &EntryFact,
) -> Result<Option<KeptTarget>, Stop<WalkFault>>
    requires site { IsSiteFor (site_of cursor.old) (S.bytes_len src.old) }
    requires hashed { are_hashed names ≡ K.HASHED }
    ensures stays { Stays S.bytes S.bytes_len S.faults src.old src.new cursor.old cursor.new }
    ensures found { (image : List ℕ) → S.bytes src.old ≡ Some image → IsOn image cursor.old → is_ordered K.shape (line_of (tree_of cursor.old image) (root_of cursor.old)) ≡ true → IfOk result (λ found. IfSome found (λ target. target_by (facts_in names (flat_of (tree_of cursor.old image) (root_of cursor.old))) entry.now.what ≡ Some target)) }
    ensures stops { IfErr result (StopsFrom S.bytes S.faults src.old src.new cursor.old) }
{
    let Some(inode) = find_inode(src, cursor, entry.file_id())? else {
        return Ok(None);
    };
    let place = place_of(alloc, entry, inode)?;
    Ok(Some(place.target()))
}

// What some entries lead to, in their order; None where a file has no inode, or one that can't be read.
fn targets_at<K: FsTreeKey, S: BlockSource, N: Namer>(
    alloc: Global,
    src: &mut S,
    cursor: &mut Cursor<K, N>,
    names: Names,
    entries: &[EntryFact],
) -> Result<Option<Vec<KeptTarget>>, Stop<WalkFault>>
    requires site { IsSiteFor (site_of cursor.old) (S.bytes_len src.old) }
    requires hashed { are_hashed names ≡ K.HASHED }
    ensures stays { Stays S.bytes S.bytes_len S.faults src.old src.new cursor.old cursor.new }
    ensures found { (image : List ℕ) → S.bytes src.old ≡ Some image → IsOn image cursor.old → is_ordered K.shape (line_of (tree_of cursor.old image) (root_of cursor.old)) ≡ true → IfOk result (λ found. IfSome found (λ targets. targets.items ≡ targets_by (facts_in names (flat_of (tree_of cursor.old image) (root_of cursor.old))) (whats entries.now))) }
    ensures needs { (image : List ℕ) → S.bytes src.old ≡ Some image → IsOn image cursor.old → is_ordered K.shape (line_of (tree_of cursor.old image) (root_of cursor.old)) ≡ true → IfOk result (λ found. IfSome found (λ targets. NeedsIn (λ facts has_all. HaveFiles facts (whats entries.now)) names (tree_of cursor.old image) (root_of cursor.old))) }
    ensures stops { IfErr result (StopsFrom S.bytes S.faults src.old src.new cursor.old) }
{
    let mut targets = Vec::new(alloc);
    for entry in entries {
        let found = match target_at(alloc, src, cursor, names, entry) {
            Ok(found) => found,
            Err(stop) => return Err(stop),
        };
        let Some(target) = found else {
            return Ok(None);
        };
        targets.push(target)?;
    }
    Ok(Some(targets))
}

// What a directory has, by name; None where it has many entries, or a record of them can't be read or isn't there.
fn children<K: FsTreeKey, S: BlockSource, N: Namer>(
    alloc: Global,
    src: &mut S,
    cursor: &mut Cursor<K, N>,
    names: Names,
    id: u64,
) -> Result<Option<Vec<KeptTarget>>, Stop<WalkFault>>
    requires site { IsSiteFor (site_of cursor.old) (S.bytes_len src.old) }
    requires hashed { are_hashed names ≡ K.HASHED }
    ensures stays { Stays S.bytes S.bytes_len S.faults src.old src.new cursor.old cursor.new }
    ensures found { (image : List ℕ) → S.bytes src.old ≡ Some image → IsOn image cursor.old → is_ordered K.shape (line_of (tree_of cursor.old image) (root_of cursor.old)) ≡ true → IfOk result (λ found. IfSome found (λ targets. targets.items ≡ map target_of (children (facts_in names (flat_of (tree_of cursor.old image) (root_of cursor.old))) id))) }
    ensures needs { (image : List ℕ) → S.bytes src.old ≡ Some image → IsOn image cursor.old → is_ordered K.shape (line_of (tree_of cursor.old image) (root_of cursor.old)) ≡ true → IfOk result (λ found. IfSome found (λ targets. NeedsIn (λ facts has_all. ChildrenNeed facts has_all id) names (tree_of cursor.old image) (root_of cursor.old))) }
    ensures stops { IfErr result (StopsFrom S.bytes S.faults src.old src.new cursor.old) }
{
    let run = match directory(alloc, src, cursor, names, id) {
        Ok(run) => run,
        Err(stop) => return Err(stop),
    };
    let Some(entries) = run else {
        return Ok(None);
    };
    let found = match targets_at(alloc, src, cursor, names, &entries) {
        Ok(found) => found,
        Err(stop) => return Err(stop),
    };
    let Some(targets) = found else {
        return Ok(None);
    };
    let sorted = kept_by_name(targets)?;
    Ok(Some(sorted))
}

// What is listed of a place.
#[tactic(auto, using(crate::proofs::Listed::listed_directory, crate::proofs::Listed::listed_file))]
fn listed<K: FsTreeKey, S: BlockSource, N: Namer>(
    alloc: Global,
    src: &mut S,
    cursor: &mut Cursor<K, N>,
    names: Names,
    place: Place,
) -> Result<Option<Vec<KeptTarget>>, Stop<WalkFault>>
    requires site { IsSiteFor (site_of cursor.old) (S.bytes_len src.old) }
    requires hashed { are_hashed names ≡ K.HASHED }
    ensures stays { Stays S.bytes S.bytes_len S.faults src.old src.new cursor.old cursor.new }
    ensures found { (image : List ℕ) → S.bytes src.old ≡ Some image → IsOn image cursor.old → is_ordered K.shape (line_of (tree_of cursor.old image) (root_of cursor.old)) ≡ true → IfOk result (λ found. IfSome found (λ targets. targets.items ≡ map target_of (listed (facts_in names (flat_of (tree_of cursor.old image) (root_of cursor.old))) place))) }
    ensures needs { (image : List ℕ) → S.bytes src.old ≡ Some image → IsOn image cursor.old → is_ordered K.shape (line_of (tree_of cursor.old image) (root_of cursor.old)) ≡ true → IfOk result (λ found. IfSome found (λ targets. NeedsIn (λ facts has_all. is_directory place.inode ≡ true → ChildrenNeed facts has_all place.id) names (tree_of cursor.old image) (root_of cursor.old))) }
    ensures stops { IfErr result (StopsFrom S.bytes S.faults src.old src.new cursor.old) }
{
    if place.is_directory() {
        return children(alloc, src, cursor, names, place.id);
    }
    let targets = alone(alloc, place)?;
    Ok(Some(targets))
}

/// What is listed of a path, from a cursor of the view's tree.
pub fn list<K: FsTreeKey, S: BlockSource, N: Namer>(
    alloc: Global,
    src: &mut S,
    cursor: &mut Cursor<K, N>,
    names: Names,
    path: &str,
) -> Result<Onward<Vec<KeptTarget>>, Stop<WalkFault>>
    requires site { IsSiteFor (site_of cursor.old) (S.bytes_len src.old) }
    requires hashed { are_hashed names ≡ K.HASHED }
    ensures site { site_of cursor.new ≡ site_of cursor.old }
    ensures root { root_of cursor.new ≡ root_of cursor.old }
    ensures tree { tree_of cursor.new ≡ tree_of cursor.old }
    ensures within { (image : List ℕ) → S.bytes src.old ≡ Some image → IsOn image cursor.old → IsOn image cursor.new }
    ensures leads { (image : List ℕ) → S.bytes src.old ≡ Some image → IsOn image cursor.old → is_ordered K.shape (line_of (tree_of cursor.old image) (root_of cursor.old)) ≡ true → IfOk result (Leads (λ targets. targets.items) (listing (facts_in names (flat_of (tree_of cursor.old image) (root_of cursor.old))) path.now)) }
    ensures needs { (image : List ℕ) → S.bytes src.old ≡ Some image → IsOn image cursor.old → is_ordered K.shape (line_of (tree_of cursor.old image) (root_of cursor.old)) ≡ true → IfOk result (WhereLed (NeedsIn (λ facts has_all. ListingNeeds facts has_all path.now) names (tree_of cursor.old image) (root_of cursor.old))) }
    ensures present { (image : List ℕ) → S.bytes src.old ≡ Some image → IsOn image cursor.old → IfErr result (Tells (IsNodeFault (tree_of cursor.old image) (root_of cursor.old)) (HasFeature (tree_of cursor.old image) (root_of cursor.old))) }
    ensures cause { IsErrOf result ReadFault → Rose (S.faults src.old) (S.faults src.new) }
    ensures kept { IsKept S.bytes S.bytes_len S.faults src.old src.new }
{
    let onward = match locate(alloc, src, cursor, names, path) {
        Ok(onward) => onward,
        Err(stop) => return Err(stop),
    };
    let place = match onward {
        Onward::To(place) => place,
        Onward::Answered(answer) => return Ok(Onward::Answered(answer)),
        Onward::Lost => return Ok(Onward::Lost),
    };
    match listed(alloc, src, cursor, names, place) {
        Ok(Some(targets)) => Ok(Onward::To(targets)),
        Ok(None) => Ok(Onward::Lost),
        Err(stop) => Err(stop),
    }
}

/// A cursor of a view's tree.
pub fn open_view<'a, K: FsTreeKey, S: BlockSource>(
    alloc: Global,
    src: &mut S,
    volume: &'a Volume,
    view: &View,
    site: &Site,
) -> Result<Cursor<K, At<'a>>, Stop<WalkFault>>
    requires site { IsSiteFor site.now (S.bytes_len src.old) }
    ensures site { IfOk result (λ cursor. site_of cursor ≡ site.now) }
    ensures root { IfOk result (λ cursor. root_of cursor ≡ view.now.root_oid) }
    ensures tree { IfOk result (λ cursor. (image : List ℕ) → tree_of cursor image ≡ view_tree K.shape image site.now volume.now view.now) }
    ensures within { (image : List ℕ) → S.bytes src.old ≡ Some image → IfOk result (IsOn image) }
    ensures present { (image : List ℕ) → S.bytes src.old ≡ Some image → IfErr result (Tells (IsNodeFault (view_tree K.shape image site.now volume.now view.now) view.now.root_oid) (HasFeature (view_tree K.shape image site.now volume.now view.now) view.now.root_oid)) }
    ensures cause { IsErrOf result ReadFault → Rose (S.faults src.old) (S.faults src.new) }
    ensures kept { IsKept S.bytes S.bytes_len S.faults src.old src.new }
{
    let namer = At {
        omap: &volume.omap,
        xid: view.xid,
        blocks: site.blocks,
    };
    match Cursor::<K, At<'a>>::new(alloc, src, namer, view.root_oid, *site) {
        Ok(cursor) => Ok(cursor),
        Err(stop) => Err(stop),
    }
}
