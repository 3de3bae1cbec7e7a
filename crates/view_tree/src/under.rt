// What is under a directory, depth first, by the entries and the inodes of a view in memory.
ghost use Rattle.std.specs.Prelude.{◌≡◌, ◌++◌, ℕ, IsErrOf, true, false, List, [], ◌∷◌, map, reverse, length, Some, IfOk, IfErr, OnOk, Ok};
ghost use Rattle.std.specs.BTreeMap.{get};
ghost use Rattle.std.specs.Ordering.{nat_cmp};
ghost use Rattle.obj_base.specs.declared.stop.Stop.TheVariants as stops;
ghost use Rattle.obj_base.specs.declared.stop.Stop.TheVariants.{ReadFault};
ghost use Rattle.view_rules.specs.Facts.{Facts};
ghost use Rattle.path_search.specs.Places.{target_of};
ghost use Rattle.path_search.specs.Found.{found};
ghost use Rattle.path_search.specs.Listing.{children};
ghost use Rattle.view_tree.specs.Tree as spec;
ghost use Rattle.view_tree.specs.Kept.{told_rows};
ghost use Rattle.view_tree.specs.Met.{spot_in, is_user_id, IsEntryOf, IsEntered, IsMet, IsMetTwice};
ghost use Rattle.view_tree.specs.Rows.{IsShownTwice, HaveMetFiles};
ghost use Rattle.path_search.specs.Needs.{PathNeeds};
ghost use Rattle.path_search.specs.Calls.{IsNoAnswer};
ghost use Rattle.path_search.specs.Parts.{whats, by_part, along, targets_by, numbered, Remembers, PartNeeds, AlongNeeds, WhereTold, of_any};
ghost use Rattle.view_tree.specs.Parts.{is_opened_target, told_of, told_from, row_at, kept_under, IsMemo, IsTaken, TakesFrom, HasAll, AreTold, IsUnderway, IsTreeStop, IsTreeKnown, StaysKept, AreKeptIn, AreRowsKept, KeepsTaken, KeepsFrom, KeepsPath};

use crate::kept::{KeptRows, Row};
use crate::lines::push_name_of;
use apfs_model::{Bytes, NoMemory};
use fs_name::Names;
use obj_base::Stop;
use path_search::choice::{choose_number, parts};
use path_search::order::{Numbered, sort_numbered};
use path_walk::by_memory::{go_by, root};
use path_walk::{Files, KeptTarget, PathStop, Place, ToldFiles, ToldRun, target_told};
use std::alloc::Global;
use std::collections::BTreeMap;
use view_rules::{IdAt, TreeFault};
use vol_view::View;

// The kind of a directory (File System Constants, File Modes).
const DIRECTORY: u16 = 4;

// The first id of those that aren't kept for the format's own use (`MIN_USER_INO_NUM`).
const FIRST_USER: u64 = 16;

// Room for so many rows isn't given back.
const MANY: usize = 4096;

// Whether a target is a directory that is entered where it is met on the way.
fn is_opened(target: &KeptTarget) -> bool
    ensures { result ≡ is_opened_target target.now }
{
    target.kind() == DIRECTORY && FIRST_USER <= target.id()
}

// Whether a place is a directory that is entered where it is met on the way.
fn is_opened_place(place: &Place) -> bool
    ensures { result ≡ spec.is_opened place.now }
{
    place.is_directory() && FIRST_USER <= place.id()
}

// Keeps the spot of an entry that names a directory; false where another spot was kept of it.
fn keep_spot(
    memo: &mut BTreeMap<u64, (u64, usize)>,
    id: u64,
    spot: (u64, usize),
) -> Result<bool, NoMemory>
    ensures kept { (facts : Facts) (path : List ℕ) → IsMemo facts path memo.old → IsMet facts path (spot_in spot.0 spot.1) → IsEntryOf facts (spot_in spot.0 spot.1) id → OnOk result (IsMemo facts path memo.new) }
    ensures twice { (facts : Facts) (path : List ℕ) → IsMemo facts path memo.old → IsMet facts path (spot_in spot.0 spot.1) → IsEntryOf facts (spot_in spot.0 spot.1) id → is_user_id facts id ≡ true → IfOk result (λ same. same ≡ false → IsMetTwice facts path id) }
    ensures stays { OnOk result (StaysKept memo.old memo.new) }
    ensures holds { IfOk result (λ same. same ≡ true → get nat_cmp memo.new id ≡ Some spot) }
{
    let before = memo.get(&id).copied();
    match before {
        Some(other) => Ok(other.0 == spot.0 && other.1 == spot.1),
        None => match memo.insert(id, spot) {
            Ok(_) => Ok(true),
            Err(_) => Err(NoMemory),
        },
    }
}

// Meets an entry that leads to an id: where that is a directory which is entered where it is met, DirNames comes where another
// entry led to it.
fn meet(
    view: &View,
    memo: &mut BTreeMap<u64, (u64, usize)>,
    spot: (u64, usize),
    id: u64,
    opened: bool,
) -> Result<(), Stop<PathStop>>
    ensures no_read { IsErrOf result ReadFault → ⊥ }
    ensures unanswered { IfErr result IsNoAnswer }
    ensures kept { (facts : Facts) (path : List ℕ) → IsMemo facts path memo.old → IsMet facts path (spot_in spot.0 spot.1) → IsEntryOf facts (spot_in spot.0 spot.1) id → OnOk result (IsMemo facts path memo.new) }
    ensures stops { (facts : Facts) (path : List ℕ) → IsMemo facts path memo.old → IsMet facts path (spot_in spot.0 spot.1) → IsEntryOf facts (spot_in spot.0 spot.1) id → (opened ≡ true → is_user_id facts id ≡ true) → IfErr result (IsTreeStop facts view.now path) }
    ensures stays { OnOk result (StaysKept memo.old memo.new) }
    ensures holds { opened ≡ true → OnOk result (get nat_cmp memo.new id ≡ Some spot) }
{
    if !opened {
        return Ok(());
    }
    let same = keep_spot(memo, id, spot)?;
    if same {
        Ok(())
    } else {
        Err(Stop::Found(PathStop::Fault(TreeFault::DirNames(IdAt {
            slot: view.slot,
            xid: view.xid,
            id,
        }))))
    }
}

// Meets the entries of a directory, each with its number there, and gives what they lead to, in their order.
fn meet_entries(
    alloc: Global,
    files: &ToldFiles,
    view: &View,
    memo: &mut BTreeMap<u64, (u64, usize)>,
    id: u64,
    run: &ToldRun<'_>,
) -> Result<Vec<Numbered>, Stop<PathStop>>
    ensures no_read { IsErrOf result ReadFault → ⊥ }
    ensures gives { (facts : Facts) (path : List ℕ) (first : ℕ) → IsUnderway facts path first files.now.entries.items files.now.kinds.items → IsEntered facts first id → HasAll facts id run.now.entries.now → AreTold facts run.now.entries.now run.now.kinds.now → IsMemo facts path memo.old → IfOk result (λ targets. targets.items ≡ numbered 0 (targets_by facts (whats run.now.entries.now))) }
    ensures kept { (facts : Facts) (path : List ℕ) (first : ℕ) → IsUnderway facts path first files.now.entries.items files.now.kinds.items → IsEntered facts first id → HasAll facts id run.now.entries.now → AreTold facts run.now.entries.now run.now.kinds.now → IsMemo facts path memo.old → OnOk result (IsMemo facts path memo.new) }
    ensures stops { (facts : Facts) (path : List ℕ) (first : ℕ) → IsUnderway facts path first files.now.entries.items files.now.kinds.items → IsEntered facts first id → HasAll facts id run.now.entries.now → AreTold facts run.now.entries.now run.now.kinds.now → IsMemo facts path memo.old → IfErr result (IsTreeStop facts view.now path) }
    ensures all { (facts : Facts) (path : List ℕ) (first : ℕ) → IsUnderway facts path first files.now.entries.items files.now.kinds.items → IsEntered facts first id → HasAll facts id run.now.entries.now → AreTold facts run.now.entries.now run.now.kinds.now → IsMemo facts path memo.old → OnOk result (StaysKept memo.old memo.new × AreKeptIn facts memo.new id) }
{
    let mut targets = Vec::with_capacity(alloc, run.entries.len())?;
    for (number, entry) in run.entries.iter().enumerate() {
        let lent = match target_told(alloc, view, entry, &run.kinds[number]) {
            Ok(lent) => lent,
            Err(stop) => return Err(stop),
        };
        let target = lent.kept(alloc)?;
        match meet(view, memo, (id, number), target.id(), is_opened(&target)) {
            Ok(()) => {}
            Err(stop) => return Err(stop),
        }
        targets.push(Numbered { number, target })?;
    }
    Ok(targets)
}

// What a directory that is entered has, by name.
fn enter(
    alloc: Global,
    files: &ToldFiles,
    view: &View,
    memo: &mut BTreeMap<u64, (u64, usize)>,
    id: u64,
) -> Result<Vec<Numbered>, Stop<PathStop>>
    ensures no_read { IsErrOf result ReadFault → ⊥ }
    ensures gives { (facts : Facts) (path : List ℕ) (first : ℕ) → IsUnderway facts path first files.now.entries.items files.now.kinds.items → IsEntered facts first id → IsMemo facts path memo.old → IfOk result (λ targets. map (λ t. t.target) targets.items ≡ map target_of (children facts id)) }
    ensures kept { (facts : Facts) (path : List ℕ) (first : ℕ) → IsUnderway facts path first files.now.entries.items files.now.kinds.items → IsEntered facts first id → IsMemo facts path memo.old → OnOk result (IsMemo facts path memo.new) }
    ensures stops { (facts : Facts) (path : List ℕ) (first : ℕ) → IsUnderway facts path first files.now.entries.items files.now.kinds.items → IsEntered facts first id → IsMemo facts path memo.old → IfErr result (IsTreeStop facts view.now path) }
    ensures all { (facts : Facts) (path : List ℕ) (first : ℕ) → IsUnderway facts path first files.now.entries.items files.now.kinds.items → IsEntered facts first id → IsMemo facts path memo.old → OnOk result (StaysKept memo.old memo.new × AreKeptIn facts memo.new id) }
{
    let run = files.directory(id);
    let mut targets = match meet_entries(alloc, files, view, memo, id, &run) {
        Ok(targets) => targets,
        Err(stop) => return Err(stop),
    };
    sort_numbered(&mut targets);
    Ok(targets)
}

// Gives memory back where a list has got short for its room. It leaves room, so that items which come and go don't make and free it each time.
fn thin<T>(list: &mut Vec<T>)
    ensures { list.new.items ≡ list.old.items }
{
    let room = list.capacity();
    if MANY < room && list.len() < room / 4 * 3 {
        list.shrink_to(room / 8 * 7);
    }
}

// Puts targets on the rows that are left, the first of them on top.
fn put_on(shared: usize, targets: Vec<Numbered>, left: &mut Vec<Row>) -> Result<(), Stop<PathStop>>
    ensures no_read { IsErrOf result ReadFault → ⊥ }
    ensures put { OnOk result (reverse left.new.items ≡ map (row_at shared) (map (λ t. t.target) targets.items) ++ reverse left.old.items) }
    ensures memory { IfErr result (λ stop. stop ≡ stops.NoMemory) }
{
    left.reserve(targets.len())?;
    let mut targets = targets;
    'put: while let Some(numbered) = targets.pop() {
        let target = numbered.target;
        left.push(Row { shared, target })?;
        thin(&mut targets);
    }
    Ok(())
}

// The row of a place that is no directory: the path of the root is its name, and that of another one is its name as it is shown.
fn lone_row(alloc: Global, place: Place) -> Result<KeptRows, Stop<PathStop>>
    ensures no_read { IsErrOf result ReadFault → ⊥ }
    ensures row { IfOk result (λ rows. rows ≡ spec.row_told (spec.lone_row place) ∷ []) }
    ensures memory { IfErr result (λ stop. stop ≡ stops.NoMemory) }
{
    let target = place.target();
    let mut path = Vec::new(alloc);
    push_name_of(&mut path, target.id(), target.name().as_bytes())?;
    let path = Bytes::from_slice(alloc, path.as_slice())?;
    Ok(KeptRows::lone(path, target))
}

// Puts the rows right under a row on those that are left.
fn go_under(
    alloc: Global,
    files: &ToldFiles,
    view: &View,
    memo: &mut BTreeMap<u64, (u64, usize)>,
    target: &KeptTarget,
    shared: usize,
    left: &mut Vec<Row>,
) -> Result<(), Stop<PathStop>>
    ensures no_read { IsErrOf result ReadFault → ⊥ }
    ensures gives { (facts : Facts) (path : List ℕ) (first : ℕ) → IsUnderway facts path first files.now.entries.items files.now.kinds.items → (is_opened_target target.now ≡ true → IsEntered facts first target.now.id) → IsMemo facts path memo.old → OnOk result (reverse left.new.items ≡ kept_under facts shared target.now ++ reverse left.old.items) }
    ensures kept { (facts : Facts) (path : List ℕ) (first : ℕ) → IsUnderway facts path first files.now.entries.items files.now.kinds.items → (is_opened_target target.now ≡ true → IsEntered facts first target.now.id) → IsMemo facts path memo.old → OnOk result (IsMemo facts path memo.new) }
    ensures stops { (facts : Facts) (path : List ℕ) (first : ℕ) → IsUnderway facts path first files.now.entries.items files.now.kinds.items → (is_opened_target target.now ≡ true → IsEntered facts first target.now.id) → IsMemo facts path memo.old → IfErr result (IsTreeStop facts view.now path) }
    ensures all { (facts : Facts) (path : List ℕ) (first : ℕ) → IsUnderway facts path first files.now.entries.items files.now.kinds.items → (is_opened_target target.now ≡ true → IsEntered facts first target.now.id) → IsMemo facts path memo.old → OnOk result (StaysKept memo.old memo.new × (is_opened_target target.now ≡ true → AreKeptIn facts memo.new target.now.id)) }
{
    if !is_opened(target) {
        thin(left);
        return Ok(());
    }
    let targets = match enter(alloc, files, view, memo, target.id()) {
        Ok(targets) => targets,
        Err(stop) => return Err(stop),
    };
    match put_on(shared, targets, left) {
        Ok(()) => Ok(()),
        Err(stop) => Err(stop),
    }
}

// The rows under a directory, as many as the view has entries at most.
fn rows_below(
    alloc: Global,
    files: &ToldFiles,
    view: &View,
    memo: &mut BTreeMap<u64, (u64, usize)>,
    id: u64,
) -> Result<Vec<Row>, Stop<PathStop>>
    ensures no_read { IsErrOf result ReadFault → ⊥ }
    ensures gives { (facts : Facts) (path : List ℕ) → IsUnderway facts path id files.now.entries.items files.now.kinds.items → IsMemo facts path memo.old → IfOk result (λ rows. told_rows [] rows.items ≡ told_from facts (length facts.entries) (told_of facts [] id)) }
    ensures stops { (facts : Facts) (path : List ℕ) → IsUnderway facts path id files.now.entries.items files.now.kinds.items → IsMemo facts path memo.old → IfErr result (IsTreeStop facts view.now path) }
    ensures all { (facts : Facts) (path : List ℕ) → IsUnderway facts path id files.now.entries.items files.now.kinds.items → IsMemo facts path memo.old → IfOk result (λ rows. StaysKept memo.old memo.new × (AreKeptIn facts memo.new id × AreRowsKept facts memo.new (told_rows [] rows.items))) }
{
    let targets = match enter(alloc, files, view, memo, id) {
        Ok(targets) => targets,
        Err(stop) => return Err(stop),
    };
    let mut left = Vec::new(alloc);
    match put_on(0, targets, &mut left) {
        Ok(()) => {}
        Err(stop) => return Err(stop),
    }
    let mut path = Vec::new(alloc);
    let mut rows = Vec::new(alloc);
    'rows: while rows.len() < files.entries.len() {
        let Some(row) = left.pop() else {
            return Ok(rows);
        };
        row.lead(&mut path)?;
        path.push(b'/')?;
        let shared = path.len();
        match go_under(alloc, files, view, memo, &row.target, shared, &mut left) {
            Ok(()) => {}
            Err(stop) => return Err(stop),
        }
        rows.push(row)?;
    }
    Ok(rows)
}

// Keeps the spot of the entry that a part of a path took at a place, where it led to a directory which is entered where it is
// met.
fn keep_part(
    alloc: Global,
    files: &Files,
    names: Names,
    view: &View,
    memo: &mut BTreeMap<u64, (u64, usize)>,
    place: u64,
    part: &str,
    next: &Place,
) -> Result<(), Stop<PathStop>>
    ensures no_read { IsErrOf result ReadFault → ⊥ }
    ensures unanswered { IfErr result IsNoAnswer }
    ensures kept { (facts : Facts) (path : List ℕ) → facts.names ≡ names → Remembers facts files.now.entries.items files.now.inodes.items → IsMemo facts path memo.old → IsTaken facts path place part.now next.now → OnOk result (IsMemo facts path memo.new) }
    ensures stops { (facts : Facts) (path : List ℕ) → facts.names ≡ names → Remembers facts files.now.entries.items files.now.inodes.items → IsMemo facts path memo.old → IsTaken facts path place part.now next.now → IfErr result (IsTreeStop facts view.now path) }
    ensures all { (facts : Facts) (path : List ℕ) → facts.names ≡ names → Remembers facts files.now.entries.items files.now.inodes.items → IsMemo facts path memo.old → IsTaken facts path place part.now next.now → OnOk result (StaysKept memo.old memo.new × KeepsTaken facts memo.new place part.now) }
{
    if part.is_empty() {
        return Ok(());
    }
    let number = choose_number(alloc, names, part, files.directory(place))?;
    let Some(number) = number else {
        return Ok(());
    };
    match meet(
        view,
        memo,
        (place, number),
        next.id(),
        is_opened_place(next),
    ) {
        Ok(()) => Ok(()),
        Err(stop) => Err(stop),
    }
}

// One part of a path on from a place, whose entry is met.
fn trace_part(
    alloc: Global,
    files: &Files,
    names: Names,
    view: &View,
    memo: &mut BTreeMap<u64, (u64, usize)>,
    place: Place,
    part: &str,
) -> Result<Place, Stop<PathStop>>
    ensures no_read { IsErrOf result ReadFault → ⊥ }
    ensures known { (facts : Facts) (path : List ℕ) (rest : List (List ℕ)) → facts.names ≡ names → Remembers facts files.now.entries.items files.now.inodes.items → IsMemo facts path memo.old → TakesFrom facts path (part.now ∷ rest) place → IsTreeKnown facts view.now path (λ place. place) (by_part facts place part.now) result }
    ensures needs { (facts : Facts) → facts.names ≡ names → Remembers facts files.now.entries.items files.now.inodes.items → WhereTold (PartNeeds facts of_any place part.now) result }
    ensures kept { (facts : Facts) (path : List ℕ) (rest : List (List ℕ)) → facts.names ≡ names → Remembers facts files.now.entries.items files.now.inodes.items → IsMemo facts path memo.old → TakesFrom facts path (part.now ∷ rest) place → OnOk result (IsMemo facts path memo.new) }
    ensures taken { (facts : Facts) (path : List ℕ) (rest : List (List ℕ)) → facts.names ≡ names → Remembers facts files.now.entries.items files.now.inodes.items → IsMemo facts path memo.old → TakesFrom facts path (part.now ∷ rest) place → IfOk result (TakesFrom facts path rest) }
    ensures all { (facts : Facts) (path : List ℕ) (rest : List (List ℕ)) → facts.names ≡ names → Remembers facts files.now.entries.items files.now.inodes.items → IsMemo facts path memo.old → TakesFrom facts path (part.now ∷ rest) place → IfOk result (λ next. StaysKept memo.old memo.new × KeepsFrom facts memo.new (part.now ∷ rest) place rest next) }
{
    let id = place.id();
    let next = match go_by(alloc, files, names, view, place, part) {
        Ok(next) => next,
        Err(stop) => return Err(stop),
    };
    match keep_part(alloc, files, names, view, memo, id, part, &next) {
        Ok(()) => Ok(next),
        Err(stop) => Err(stop),
    }
}

// All parts of a path on from a place, whose entries are met.
fn trace_along(
    alloc: Global,
    files: &Files,
    names: Names,
    view: &View,
    memo: &mut BTreeMap<u64, (u64, usize)>,
    start: Place,
    parts: &[&str],
) -> Result<Place, Stop<PathStop>>
    ensures no_read { IsErrOf result ReadFault → ⊥ }
    ensures known { (facts : Facts) (path : List ℕ) → facts.names ≡ names → Remembers facts files.now.entries.items files.now.inodes.items → IsMemo facts path memo.old → TakesFrom facts path (map (λ part. part.now) parts.now) start → IsTreeKnown facts view.now path (λ place. place) (along facts (map (λ part. part.now) parts.now) start) result }
    ensures needs { (facts : Facts) (path : List ℕ) → facts.names ≡ names → Remembers facts files.now.entries.items files.now.inodes.items → IsMemo facts path memo.old → TakesFrom facts path (map (λ part. part.now) parts.now) start → WhereTold (AlongNeeds facts of_any (map (λ part. part.now) parts.now) start) result }
    ensures kept { (facts : Facts) (path : List ℕ) → facts.names ≡ names → Remembers facts files.now.entries.items files.now.inodes.items → IsMemo facts path memo.old → TakesFrom facts path (map (λ part. part.now) parts.now) start → OnOk result (IsMemo facts path memo.new) }
    ensures all { (facts : Facts) (path : List ℕ) → facts.names ≡ names → Remembers facts files.now.entries.items files.now.inodes.items → IsMemo facts path memo.old → TakesFrom facts path (map (λ part. part.now) parts.now) start → IfOk result (KeepsFrom facts memo.new (map (λ part. part.now) parts.now) start []) }
{
    let mut place = start;
    for part in parts {
        place = match trace_part(alloc, files, names, view, memo, place, part) {
            Ok(next) => next,
            Err(stop) => return Err(stop),
        };
    }
    Ok(place)
}

// Where a path leads, and the spots of the entries that it takes.
fn trace(
    alloc: Global,
    files: &Files,
    names: Names,
    view: &View,
    memo: &mut BTreeMap<u64, (u64, usize)>,
    path: &str,
) -> Result<Place, Stop<PathStop>>
    ensures no_read { IsErrOf result ReadFault → ⊥ }
    ensures known { (facts : Facts) → facts.names ≡ names → Remembers facts files.now.entries.items files.now.inodes.items → IsMemo facts path.now memo.old → IsTreeKnown facts view.now path.now (λ place. place) (found facts path.now) result }
    ensures needs { (facts : Facts) → facts.names ≡ names → Remembers facts files.now.entries.items files.now.inodes.items → IsMemo facts path.now memo.old → WhereTold (PathNeeds facts of_any path.now) result }
    ensures kept { (facts : Facts) → facts.names ≡ names → Remembers facts files.now.entries.items files.now.inodes.items → IsMemo facts path.now memo.old → OnOk result (IsMemo facts path.now memo.new) }
    ensures all { (facts : Facts) → facts.names ≡ names → Remembers facts files.now.entries.items files.now.inodes.items → IsMemo facts path.now memo.old → OnOk result (KeepsPath facts memo.new path.now) }
{
    let parts = parts(alloc, path)?;
    let root = match root(alloc, files, view) {
        Ok(root) => root,
        Err(stop) => return Err(stop),
    };
    match trace_along(alloc, files, names, view, memo, root, &parts) {
        Ok(place) => Ok(place),
        Err(stop) => Err(stop),
    }
}

/// The rows of a path's tree.
pub(crate) fn tree_in(
    alloc: Global,
    files: Files,
    names: Names,
    view: &View,
    path: &str,
) -> Result<KeptRows, Stop<PathStop>>
    ensures no_read { IsErrOf result ReadFault → ⊥ }
    ensures known { (facts : Facts) → facts.names ≡ names → Remembers facts files.entries.items files.inodes.items → IsTreeKnown facts view.now path.now (λ rows. rows) (spec.tree facts path.now) result }
    ensures needs { (facts : Facts) → facts.names ≡ names → Remembers facts files.entries.items files.inodes.items → WhereTold (PathNeeds facts of_any path.now) result }
    ensures files { (facts : Facts) → facts.names ≡ names → Remembers facts files.entries.items files.inodes.items → IfOk result (λ rows. HaveMetFiles facts path.now rows) }
    ensures clear { (facts : Facts) → facts.names ≡ names → Remembers facts files.entries.items files.inodes.items → IfOk result (λ rows. (id : ℕ) → IsShownTwice facts path.now rows id → ⊥) }
{
    let mut memo = BTreeMap::new(alloc);
    let place = match trace(alloc, &files, names, view, &mut memo, path) {
        Ok(place) => place,
        Err(stop) => return Err(stop),
    };
    if !place.is_directory() {
        let rows = match lone_row(alloc, place) {
            Ok(rows) => rows,
            Err(stop) => return Err(stop),
        };
        return Ok(rows);
    }
    let files = ToldFiles::of(alloc, files)?;
    match rows_below(alloc, &files, view, &mut memo, place.id()) {
        Ok(rows) => Ok(KeptRows::below(rows)),
        Err(stop) => Err(stop),
    }
}
