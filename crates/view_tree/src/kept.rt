// The rows of a tree, as they are kept, told and put.
ghost use Rattle.std.specs.Prelude.{◌≡◌, ◌++◌, ◌+◌, ◌<◌, ◌≤◌, ℕ, List, [], ◌∷◌, length, slice_get, Some, Ok, Err, IfOk, IfErr, OnOk, IsErrOf};
ghost use Rattle.apfs_model.specs.Counts.{Rose};
ghost use Rattle.apfs_model.specs.Sink.{Wrote, WrotePart};
ghost use Rattle.obj_base.specs.declared.stop.Stop.TheVariants as stops;
ghost use Rattle.obj_base.specs.declared.stop.Stop.TheVariants.{ReadFault};
ghost use Rattle.path_search.specs.Paths.{slash};
ghost use Rattle.path_search.specs.declared.target.Target.{Target};
ghost use Rattle.view_tree.specs.Kept.{path_after, told_rows, held_told};
ghost use Rattle.view_tree.specs.Puts.{IsPut, Passes};
ghost use Rattle.view_tree.specs.Trails.{IsOn, path_of};
ghost use Rattle.view_tree.specs.Texts.{row_text, tree_text};
ghost use Rattle.view_tree.specs.declared.kept.PutStop.TheVariants as puts;

use crate::lines::{push_kept, push_name};
use crate::trail::Trail;
use apfs_model::Bytes;
use blk_source::Sink;
use obj_base::Stop;
use path_walk::{KeptTarget, PathStop, Target};
use std::alloc::{AllocError, Global};
use std::marker::Model;

// How many bytes of lines wait before they are put.
const PIECE: usize = 65536;

/// Why rows weren't all put.
#[derive(Clone, Copy, PartialEq, Eq)]
pub enum PutStop {
    WriteFault,
    NoMemory,
}

impl From<AllocError> for PutStop {
    ghost from_gives = { λ _ e. e ≡ puts.NoMemory };

    fn from(_: AllocError) -> Self {
        PutStop::NoMemory
    }
}

/// A row: how many bytes its path shares with that of the row before it and a slash, and its target.
#[derive(Drop)]
pub(crate) struct Row {
    pub(crate) shared: usize,
    pub(crate) target: KeptTarget,
}

impl Row {
    /// Makes the path of the row out of that of the row before it and a slash.
    pub(crate) fn lead(&self, path: &mut Vec<u8>) -> Result<(), AllocError>
        ensures { OnOk result (path.new.items ≡ path_after path.old.items self.now) }
    {
        path.truncate(self.shared);
        push_name(path, self.target.name().as_bytes())
    }
}

// The rows of a tree: that of what is no directory, or those below a directory.
#[derive(Drop)]
enum Held {
    Lone(Bytes, KeptTarget),
    Below(Vec<Row>),
}

/// The rows of a tree. A path is kept but once: each row has its name, and how much of its path is that of the row before it.
#[derive(Drop)]
pub struct KeptRows {
    held: Held,
}

impl Model for KeptRows {
    ghost use Rattle.std.specs.Prelude.{ℕ, List};
    ghost use Rattle.path_search.specs.declared.target.Target.{Target};
    ghost use Rattle.view_tree.specs.Kept.{held_told};

    ghost Value = { List (List ℕ × Target) };

    ghost view = { λ a. held_told a.held };
}

// Puts what waits, if anything does.
#[tactic(auto, using(crate::proofs::RowsPut::put_none))]
fn put_waiting<W: Sink>(waiting: &mut Vec<u8>, out: &mut W) -> Result<(), PutStop>
    ensures put { IsPut waiting.old.items result (W.contents out.old) (W.contents out.new) (W.faults out.old) (W.faults out.new) }
    ensures none { OnOk result (waiting.new.items ≡ []) }
{
    if waiting.is_empty() {
        return Ok(());
    }
    match out.put(waiting.as_slice()) {
        Ok(()) => {
            waiting.clear();
            Ok(())
        }
        Err(_) => Err(PutStop::WriteFault),
    }
}

// Adds the line of a row to those that wait, and makes of its path what the next one is told after.
fn add_line(row: &Row, path: &mut Vec<u8>, waiting: &mut Vec<u8>) -> Result<(), AllocError>
    ensures path { OnOk result (path.new.items ≡ path_after path.old.items row.now ++ slash ∷ []) }
    ensures line { OnOk result (waiting.new.items ≡ waiting.old.items ++ row_text (path_after path.old.items row.now, row.now.target)) }
{
    row.lead(path)?;
    push_kept(waiting, &row.target, path.as_slice())?;
    path.push(b'/')?;
    Ok(())
}

// Adds the line of a row to those that wait, and puts them once they are many.
#[tactic(auto, using(crate::proofs::RowsPut::none_cut, crate::proofs::RowsPut::passes_waits, crate::proofs::RowsPut::passes_put, crate::proofs::RowsPut::passes_cut))]
fn pass<W: Sink>(
    row: &Row,
    path: &mut Vec<u8>,
    waiting: &mut Vec<u8>,
    out: &mut W,
) -> Result<(), PutStop>
    ensures path { OnOk result (path.new.items ≡ path_after path.old.items row.now ++ slash ∷ []) }
    ensures passes { Passes waiting.old.items (row_text (path_after path.old.items row.now, row.now.target)) waiting.new.items result (W.contents out.old) (W.contents out.new) (W.faults out.old) (W.faults out.new) }
{
    add_line(row, path, waiting)?;
    if waiting.len() < PIECE {
        return Ok(());
    }
    match put_waiting(waiting, out) {
        Ok(()) => Ok(()),
        Err(stop) => Err(stop),
    }
}

// Puts the line of each row below a directory, many at a time.
fn put_below<W: Sink>(alloc: Global, rows: &[Row], out: &mut W) -> Result<(), PutStop>
    ensures { IsPut (tree_text (told_rows [] rows.now)) result (W.contents out.old) (W.contents out.new) (W.faults out.old) (W.faults out.new) }
{
    let mut waiting = Vec::new(alloc);
    let mut path = Vec::new(alloc);
    'rows: for row in rows {
        match pass(row, &mut path, &mut waiting, out) {
            Ok(()) => {}
            Err(stop) => return Err(stop),
        }
    }
    put_waiting(&mut waiting, out)
}

// Puts the line of a row alone.
#[tactic(auto, using(crate::proofs::RowsPut::none_cut, crate::proofs::RowsPut::put_alone))]
fn put_lone<W: Sink>(
    alloc: Global,
    path: &[u8],
    target: &KeptTarget,
    out: &mut W,
) -> Result<(), PutStop>
    ensures { IsPut (tree_text ((path.now, target.now) ∷ [])) result (W.contents out.old) (W.contents out.new) (W.faults out.old) (W.faults out.new) }
{
    let mut line = Vec::new(alloc);
    push_kept(&mut line, target, path)?;
    put_waiting(&mut line, out)
}

// Puts the line of each row.
fn put_held<W: Sink>(alloc: Global, held: &Held, out: &mut W) -> Result<(), PutStop>
    ensures { IsPut (tree_text (held_told held.now)) result (W.contents out.old) (W.contents out.new) (W.faults out.old) (W.faults out.new) }
{
    match held {
        Held::Lone(path, target) => put_lone(alloc, path.as_slice(), target, out),
        Held::Below(rows) => put_below(alloc, rows, out),
    }
}

// Tells a row with its path, and makes of its path what the next one is told after.
fn tell(
    alloc: Global,
    row: &Row,
    path: &mut Vec<u8>,
    told: &mut Vec<(Bytes, Target)>,
) -> Result<(), Stop<PathStop>>
    ensures memory { IfErr result (λ stop. stop ≡ stops.NoMemory) }
    ensures path { OnOk result (path.new.items ≡ path_after path.old.items row.now ++ slash ∷ []) }
    ensures told { OnOk result (told.new.items ≡ told.old.items ++ (path_after path.old.items row.now, row.now.target) ∷ []) }
{
    row.lead(path)?;
    let shown = Bytes::from_slice(alloc, path.as_slice())?;
    let target = row.target.target(alloc)?;
    told.push((shown, target))?;
    path.push(b'/')?;
    Ok(())
}

// The rows below a directory, each with its path.
fn told_below(alloc: Global, rows: Vec<Row>) -> Result<Vec<(Bytes, Target)>, Stop<PathStop>>
    ensures no_read { IsErrOf result ReadFault → ⊥ }
    ensures memory { IfErr result (λ stop. stop ≡ stops.NoMemory) }
    ensures told { IfOk result (λ told. told.items ≡ told_rows [] rows.items) }
{
    let mut told = Vec::new(alloc);
    let mut path = Vec::new(alloc);
    'rows: for row in rows {
        match tell(alloc, &row, &mut path, &mut told) {
            Ok(()) => {}
            Err(stop) => return Err(stop),
        }
    }
    Ok(told)
}

// Goes on to the row at a place below a directory, from a row before it or from the first one.
fn go_on(rows: &[Row], place: usize, trail: &mut Trail) -> Result<(), AllocError>
    requires low { place < length rows.now }
    requires before { trail.old.passed ≤ place }
    requires on { IsOn (told_rows [] rows.now) trail.old }
    ensures on { OnOk result (IsOn (told_rows [] rows.now) trail.new) }
    ensures passed { OnOk result (trail.new.passed ≡ place + 1) }
{
    'rows: while trail.passed <= place {
        let row = &rows[trail.passed];
        row.lead(&mut trail.path)?;
        trail.path.push(b'/')?;
        trail.passed += 1;
    }
    Ok(())
}

// Goes to the row at a place below a directory, and tells its target.
fn go_below<'a>(
    rows: &'a [Row],
    place: usize,
    trail: &mut Trail,
) -> Result<&'a KeptTarget, AllocError>
    requires low { place < length rows.now }
    requires on { IsOn (told_rows [] rows.now) trail.old }
    ensures on { OnOk result (IsOn (told_rows [] rows.now) trail.new) }
    ensures row { IfOk result (λ target. slice_get (told_rows [] rows.now) place ≡ Some (path_of trail.new, target.now)) }
{
    if place < trail.passed {
        trail.start();
    }
    go_on(rows, place, trail)?;
    Ok(&rows[place].target)
}

// Goes to the only row.
fn go_alone<'a>(
    path: &[u8],
    target: &'a KeptTarget,
    trail: &mut Trail,
) -> Result<&'a KeptTarget, AllocError>
    ensures on { OnOk result (IsOn ((path.now, target.now) ∷ []) trail.new) }
    ensures path { OnOk result (path_of trail.new ≡ path.now) }
    ensures target { IfOk result (λ same. same.now ≡ target.now) }
{
    trail.start();
    trail.path.extend_from_slice(path)?;
    trail.path.push(b'/')?;
    trail.passed = 1;
    Ok(target)
}

// The only row, with its path.
fn told_alone(
    alloc: Global,
    path: Bytes,
    target: &KeptTarget,
) -> Result<Vec<(Bytes, Target)>, Stop<PathStop>>
    ensures memory { IfErr result (λ stop. stop ≡ stops.NoMemory) }
    ensures told { IfOk result (λ told. told.items ≡ (path, target.now) ∷ []) }
{
    let mut told = Vec::new(alloc);
    told.push((path, target.target(alloc)?))?;
    Ok(told)
}

impl KeptRows {
    /// No rows.
    pub fn none(alloc: Global) -> KeptRows
        ensures { result ≡ [] }
    {
        KeptRows::below(Vec::new(alloc))
    }

    /// The row of what is no directory.
    pub(crate) fn lone(path: Bytes, target: KeptTarget) -> KeptRows
        ensures { result ≡ (path, target) ∷ [] }
    {
        KeptRows {
            held: Held::Lone(path, target),
        }
    }

    /// The rows below a directory.
    pub(crate) fn below(rows: Vec<Row>) -> KeptRows
        ensures { result ≡ told_rows [] rows.items }
    {
        KeptRows {
            held: Held::Below(rows),
        }
    }

    /// Each row with its path.
    pub(crate) fn told(self, alloc: Global) -> Result<Vec<(Bytes, Target)>, Stop<PathStop>>
        ensures no_read { IsErrOf result ReadFault → ⊥ }
        ensures memory { IfErr result (λ stop. stop ≡ stops.NoMemory) }
        ensures told { IfOk result (λ rows. rows.items ≡ self) }
    {
        match self.held {
            Held::Lone(path, target) => told_alone(alloc, path, &target),
            Held::Below(rows) => told_below(alloc, rows),
        }
    }

    /// How many rows there are.
    pub fn len(&self) -> usize
        ensures { result ≡ length self.now }
    {
        match &self.held {
            Held::Lone(_, _) => 1,
            Held::Below(rows) => rows.len(),
        }
    }

    /// Goes to the row at a place, and tells its target. From a row before it the trail goes on, from another one it starts again.
    pub fn go_to(&self, place: usize, trail: &mut Trail) -> Result<&KeptTarget, AllocError>
        requires low { place < length self.now }
        requires on { IsOn self.now trail.old }
        ensures on { OnOk result (IsOn self.now trail.new) }
        ensures row { IfOk result (λ target. slice_get self.now place ≡ Some (path_of trail.new, target.now)) }
    {
        match &self.held {
            Held::Lone(path, target) => go_alone(path.as_slice(), target, trail),
            Held::Below(rows) => go_below(rows, place, trail),
        }
    }

    /// Puts the line of each row, as the command `tree` writes it. Its paths are made one by one, in one place.
    pub fn put<W: Sink>(&self, alloc: Global, out: &mut W) -> Result<(), PutStop>
        ensures put { OnOk result (Wrote (W.contents out.old) (W.contents out.new) (tree_text self.now)) }
        ensures part { WrotePart (W.contents out.old) (W.contents out.new) (tree_text self.now) }
        ensures cause { result ≡ Err puts.WriteFault → Rose (W.faults out.old) (W.faults out.new) }
        ensures later { W.faults out.old ≤ W.faults out.new }
    {
        put_held(alloc, &self.held, out)
    }
}
