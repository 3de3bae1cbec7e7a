// Paths by the entries and the inodes of a view in memory.
ghost use Rattle.std.specs.Prelude.{◌≡◌, map, length, IfOk, IfErr, IsErrOf};
ghost use Rattle.obj_base.specs.declared.stop.Stop.TheVariants.{ReadFault};
ghost use Rattle.view_rules.specs.Facts.{Facts};
ghost use Rattle.path_search.specs.Places.{target_of};
ghost use Rattle.path_search.specs.Found.{step, found};
ghost use Rattle.path_search.specs.Listing.{children, listing};
ghost use Rattle.path_search.specs.Needs.{StepNeeds, PathNeeds, HaveFiles, ChildrenNeed, ListingNeeds};
ghost use Rattle.path_search.specs.Calls.{IsNoAnswer};
ghost use Rattle.path_search.specs.Parts.{whats, by_part, along, rooted, lacking_entry, targets_by, targets_with, HasEntries, Remembers, Rises, IsKnown, IsPlaceKnown, IsTargetKnown, PartNeeds, AlongNeeds, WhereTold, of_any};

use crate::files::{Files, directory_in, inode_in};
use apfs_model::{Bytes, NoMemory};
use fs_name::Names;
use obj_base::Stop;
use path_search::by_search::{ROOT, place_of, root_of_inode};
use path_search::choice::{choose, parts};
use path_search::order::{alone, kept_by_name, kept_of};
use path_search::{Answer, KeptInode, KeptTarget, KindAndSize, LentTarget, PathStop, Place};
use std::alloc::Global;
use view_facts::{EntryFact, InodeFact};
use view_rules::TreeFault;
use vol_view::View;

/// The fault of an entry whose file has no inode.
pub(crate) fn lacking(alloc: Global, view: &View, entry: &EntryFact) -> Result<TreeFault, NoMemory>
    ensures { IfOk result (λ fault. fault ≡ lacking_entry view.now entry.now.id entry.now.what.name) }
{
    let name = Bytes::from_slice(alloc, entry.name().as_bytes())?;
    Ok(TreeFault::NoInode {
        slot: view.slot,
        xid: view.xid,
        id: entry.id(),
        name: Some(name),
    })
}

/// The place of an entry's file.
pub fn place_in(
    alloc: Global,
    files: &Files,
    view: &View,
    entry: &EntryFact,
) -> Result<Place, Stop<PathStop>>
    ensures no_read { IsErrOf result ReadFault → ⊥ }
    ensures known { (facts : Facts) → Remembers facts files.now.entries.items files.now.inodes.items → IsPlaceKnown facts view.now entry.now result }
{
    match files.inode(entry.file_id()) {
        Some(inode) => {
            let place = place_of(alloc, entry, KeptInode::of_fact(inode))?;
            Ok(place)
        }
        None => {
            let fault = lacking(alloc, view, entry)?;
            Err(Stop::Found(PathStop::Fault(fault)))
        }
    }
}

/// What an entry's file is, as it is told. What `shift` has is how far the last file's id is from the place of its inode, 0 at first; it decides nothing.
pub(crate) fn target_in<'a>(
    alloc: Global,
    inodes: &[InodeFact],
    view: &View,
    entry: &'a EntryFact,
    shift: &mut u64,
) -> Result<LentTarget<'a>, Stop<PathStop>>
    ensures no_read { IsErrOf result ReadFault → ⊥ }
    ensures known { (facts : Facts) → inodes.now ≡ facts.inodes → Rises inodes.now → IsTargetKnown facts view.now entry.now result }
{
    match inode_in(inodes, entry.file_id(), shift) {
        Some(inode) => Ok(LentTarget::of(entry, inode)),
        None => {
            let fault = lacking(alloc, view, entry)?;
            Err(Stop::Found(PathStop::Fault(fault)))
        }
    }
}

// One name on from a place.
fn go_on(
    alloc: Global,
    files: &Files,
    names: Names,
    view: &View,
    place: &Place,
    name: &str,
) -> Result<Place, Stop<PathStop>>
    ensures no_read { IsErrOf result ReadFault → ⊥ }
    ensures known { (facts : Facts) → facts.names ≡ names → Remembers facts files.now.entries.items files.now.inodes.items → IsKnown facts view.now (λ p. p) (step facts place.now name.now) result }
    ensures needs { (facts : Facts) → facts.names ≡ names → Remembers facts files.now.entries.items files.now.inodes.items → WhereTold (StepNeeds facts of_any place.now name.now) result }
{
    if !place.is_directory() {
        return Err(Stop::Found(PathStop::Answer(Answer::NotDirectory)));
    }
    let chosen = choose(alloc, names, name, files.directory(place.id()))?;
    match chosen {
        None => Err(Stop::Found(PathStop::Answer(Answer::NotFound))),
        Some(entry) => match place_in(alloc, files, view, entry) {
            Ok(place) => Ok(place),
            Err(stop) => Err(stop),
        },
    }
}

/// One part of a path on from a place; an empty part stays there.
pub fn go_by(
    alloc: Global,
    files: &Files,
    names: Names,
    view: &View,
    place: Place,
    part: &str,
) -> Result<Place, Stop<PathStop>>
    ensures no_read { IsErrOf result ReadFault → ⊥ }
    ensures known { (facts : Facts) → facts.names ≡ names → Remembers facts files.now.entries.items files.now.inodes.items → IsKnown facts view.now (λ p. p) (by_part facts place part.now) result }
    ensures needs { (facts : Facts) → facts.names ≡ names → Remembers facts files.now.entries.items files.now.inodes.items → WhereTold (PartNeeds facts of_any place part.now) result }
{
    if part.is_empty() {
        return Ok(place);
    }
    match go_on(alloc, files, names, view, &place, part) {
        Ok(next) => Ok(next),
        Err(stop) => Err(stop),
    }
}

// All parts of a path on from a place.
fn go_along(
    alloc: Global,
    files: &Files,
    names: Names,
    view: &View,
    start: Place,
    parts: &[&str],
) -> Result<Place, Stop<PathStop>>
    ensures no_read { IsErrOf result ReadFault → ⊥ }
    ensures known { (facts : Facts) → facts.names ≡ names → Remembers facts files.now.entries.items files.now.inodes.items → IsKnown facts view.now (λ p. p) (along facts (map (λ part. part.now) parts.now) start) result }
    ensures needs { (facts : Facts) → facts.names ≡ names → Remembers facts files.now.entries.items files.now.inodes.items → WhereTold (AlongNeeds facts of_any (map (λ part. part.now) parts.now) start) result }
{
    let mut place = start;
    for part in parts {
        place = match go_by(alloc, files, names, view, place, part) {
            Ok(next) => next,
            Err(stop) => return Err(stop),
        };
    }
    Ok(place)
}

/// The root.
pub fn root(alloc: Global, files: &Files, view: &View) -> Result<Place, Stop<PathStop>>
    ensures no_read { IsErrOf result ReadFault → ⊥ }
    ensures unanswered { IfErr result IsNoAnswer }
    ensures known { (facts : Facts) → Remembers facts files.now.entries.items files.now.inodes.items → IsKnown facts view.now (λ p. p) (rooted facts) result }
{
    match files.inode(ROOT) {
        Some(inode) => {
            let place = root_of_inode(alloc, KeptInode::of_fact(inode))?;
            Ok(place)
        }
        None => Err(Stop::Found(PathStop::Fault(TreeFault::NoInode {
            slot: view.slot,
            xid: view.xid,
            id: ROOT,
            name: None,
        }))),
    }
}

/// Where a path leads.
pub(crate) fn locate(
    alloc: Global,
    files: &Files,
    names: Names,
    view: &View,
    path: &str,
) -> Result<Place, Stop<PathStop>>
    ensures no_read { IsErrOf result ReadFault → ⊥ }
    ensures known { (facts : Facts) → facts.names ≡ names → Remembers facts files.now.entries.items files.now.inodes.items → IsKnown facts view.now (λ p. p) (found facts path.now) result }
    ensures needs { (facts : Facts) → facts.names ≡ names → Remembers facts files.now.entries.items files.now.inodes.items → WhereTold (PathNeeds facts of_any path.now) result }
{
    let parts = parts(alloc, path)?;
    let root = match root(alloc, files, view) {
        Ok(root) => root,
        Err(stop) => return Err(stop),
    };
    match go_along(alloc, files, names, view, root, &parts) {
        Ok(place) => Ok(place),
        Err(stop) => Err(stop),
    }
}

// The kinds and sizes of what some entries lead to, in their order: a quarter of the memory that targets take.
fn kinds_in(
    alloc: Global,
    inodes: &[InodeFact],
    view: &View,
    entries: &[EntryFact],
) -> Result<Vec<KindAndSize>, Stop<PathStop>>
    ensures no_read { IsErrOf result ReadFault → ⊥ }
    ensures counted { IfOk result (λ kinds. length entries.now ≡ length kinds.items) }
    ensures known { (facts : Facts) → inodes.now ≡ facts.inodes → Rises inodes.now → HasEntries facts entries.now → IsKnown facts view.now (λ kinds. targets_with entries.now kinds.items) (Ok (targets_by facts (whats entries.now))) result }
    ensures needs { (facts : Facts) → inodes.now ≡ facts.inodes → Rises inodes.now → HasEntries facts entries.now → WhereTold (HaveFiles facts (whats entries.now)) result }
{
    let mut kinds = Vec::with_capacity(alloc, entries.len())?;
    let mut shift = 0;
    for entry in entries {
        let target = match target_in(alloc, inodes, view, entry, &mut shift) {
            Ok(target) => target,
            Err(stop) => return Err(stop),
        };
        kinds.push(target.kind_and_size())?;
    }
    Ok(kinds)
}

/// What a directory has, by name. The inodes go before names are copied, where their kinds and sizes alone are kept, and the entries go before the targets are sorted.
pub(crate) fn children(
    alloc: Global,
    files: Files,
    view: &View,
    id: u64,
) -> Result<Vec<KeptTarget>, Stop<PathStop>>
    ensures no_read { IsErrOf result ReadFault → ⊥ }
    ensures known { (facts : Facts) → Remembers facts files.entries.items files.inodes.items → IsKnown facts view.now (λ targets. targets.items) (Ok (map target_of (children facts id))) result }
    ensures needs { (facts : Facts) → Remembers facts files.entries.items files.inodes.items → WhereTold (ChildrenNeed facts of_any id) result }
{
    let Files { entries, inodes } = files;
    let run = directory_in(&entries, id);
    let kinds = match kinds_in(alloc, &inodes, view, run) {
        Ok(kinds) => kinds,
        Err(stop) => return Err(stop),
    };
    drop(inodes);
    let kept = kept_of(alloc, run, &kinds)?;
    drop(kinds);
    drop(entries);
    let sorted = kept_by_name(kept)?;
    Ok(sorted)
}

/// What is listed of a path.
pub(crate) fn list(
    alloc: Global,
    files: Files,
    names: Names,
    view: &View,
    path: &str,
) -> Result<Vec<KeptTarget>, Stop<PathStop>>
    ensures no_read { IsErrOf result ReadFault → ⊥ }
    ensures known { (facts : Facts) → facts.names ≡ names → Remembers facts files.entries.items files.inodes.items → IsKnown facts view.now (λ targets. targets.items) (listing facts path.now) result }
    ensures needs { (facts : Facts) → facts.names ≡ names → Remembers facts files.entries.items files.inodes.items → WhereTold (ListingNeeds facts of_any path.now) result }
{
    let place = match locate(alloc, &files, names, view, path) {
        Ok(place) => place,
        Err(stop) => return Err(stop),
    };
    if !place.is_directory() {
        let targets = alone(alloc, place)?;
        return Ok(targets);
    }
    match children(alloc, files, view, place.id()) {
        Ok(targets) => Ok(targets),
        Err(stop) => Err(stop),
    }
}
