// Whether an id is wanted twice.
ghost use Rattle.std.specs.Prelude.{◌≡◌, ◌+◌, ◌<◌, ◌≤◌, ℕ, true, false, length, OnOk, IfOk, IfErr, IfSome, IsNone, IsErrOf, IsTrue};
ghost use Rattle.obj_base.specs.Stops.{Tells, NoFeature};
ghost use Rattle.obj_base.specs.declared.stop.Stop.TheVariants.{ReadFault};
ghost use Rattle.view_sweep.specs.Runs.{has_place, AreRising};
ghost use Rattle.view_sweep.specs.Sets.{AreSets, AreNumbered, all_asked};
ghost use Rattle.view_sweep.specs.Here.{IsTwiceHere, Among};
ghost use Rattle.view_sweep.specs.Order.{AreById};
ghost use Rattle.view_sweep.specs.Swept.{IsOnce};
ghost use Rattle.view_sweep.specs.Asked.{nth_asked, has_view, AreClashing, AreAlike, IsClashAt, AreAlikeAt, IsRun};

use crate::runs::{Run, add, shared};
use crate::sets::{ViewSet, copy_of, runs_of};
use crate::wanted::{Asked, SweptView, Want};
use obj_base::{Stop, Within};
use reach_rules::ReachFault;
use std::alloc::Global;

// Whether an object is wanted in one way, by one namer.
fn is_same(a: &Want, b: &Want) -> bool
    ensures same { IsTrue result → a.now ≡ b.now }
    ensures other { result ≡ false → a.now ≡ b.now → ⊥ }
{
    *a == *b
}

// The place of a view that wants an id in two ways, as two that are asked for.
fn clash_of(views: &[SweptView], sets: &[ViewSet], other: &Asked, one: &Asked) -> Option<usize>
    requires sets { AreSets views.now sets.now }
    requires other { other.now.set < length sets.now }
    requires one { one.now.set < length sets.now }
    ensures some { IfSome result (AreClashing views.now sets.now other.now one.now) }
    ensures none { IsNone result → AreAlike views.now sets.now other.now one.now }
{
    if is_same(&other.wanted.want, &one.wanted.want) {
        return None;
    }
    shared(runs_of(sets, other.set), runs_of(sets, one.set))
}

// The place of a view that wants an id in two ways: as the last of some that are asked for, and as one of those before it.
fn found_clash(
    views: &[SweptView],
    sets: &[ViewSet],
    asked: &[Asked],
    from: usize,
    last: usize,
) -> Option<usize>
    requires sets { AreSets views.now sets.now }
    requires numbers { AreNumbered (length sets.now) asked.now }
    requires from { from ≤ last }
    requires last { last < length asked.now }
    ensures some { IfSome result (IsClashAt views.now sets.now asked.now from last) }
    ensures none { IsNone result → (j : ℕ) → from ≤ j → j < last → AreAlikeAt views.now sets.now asked.now j last }
{
    for place in from..last {
        match clash_of(views, sets, &asked[place], &asked[last]) {
            Some(view) => return Some(view),
            None => {}
        }
    }
    None
}

// The same, where all views of those before the last are seen.
fn clash(
    views: &[SweptView],
    sets: &[ViewSet],
    asked: &[Asked],
    seen: &[Run],
    from: usize,
    last: usize,
) -> Option<usize>
    requires sets { AreSets views.now sets.now }
    requires numbers { AreNumbered (length sets.now) asked.now }
    requires from { from ≤ last }
    requires last { last < length asked.now }
    requires rising { AreRising seen.now }
    requires seen { (j p : ℕ) → from ≤ j → j < last → has_view sets.now (nth_asked asked.now j) p ≡ true → has_place seen.now p ≡ true }
    ensures some { IfSome result (IsClashAt views.now sets.now asked.now from last) }
    ensures none { IsNone result → (j : ℕ) → from ≤ j → j < last → AreAlikeAt views.now sets.now asked.now j last }
{
    match shared(seen, runs_of(sets, asked[last].set)) {
        Some(_) => found_clash(views, sets, asked, from, last),
        None => None,
    }
}

// Takes one more: it is of the run that began at a place, or begins one. What is answered is where its run began.
fn take_one(
    alloc: Global,
    views: &[SweptView],
    sets: &[ViewSet],
    asked: &[Asked],
    seen: &mut Vec<Run>,
    from: usize,
    i: usize,
) -> Result<usize, Stop<ReachFault>>
    requires sorted { AreById asked.now }
    requires sets { AreSets views.now sets.now }
    requires numbers { AreNumbered (length sets.now) asked.now }
    requires inside { i < length asked.now }
    requires run { IsRun views.now sets.now asked.now seen.old.items from i }
    ensures run { IfOk result (λ start. IsRun views.now sets.now asked.now seen.new.items start (i + 1)) }
    ensures stops { IfErr result (Tells (IsTwiceHere (Among (all_asked views.now sets.now asked.now))) NoFeature) }
    ensures no_read { IsErrOf result ReadFault → ⊥ }
{
    let one = asked[i];
    let set = runs_of(sets, one.set);
    if one.wanted.oid != asked[from].wanted.oid {
        let renewed = copy_of(alloc, set)?;
        *seen = renewed;
        return Ok(i);
    }
    match clash(views, sets, asked, seen, from, i) {
        Some(place) => {
            let view = views[place];
            return Err(Stop::Found(ReachFault::NamedTwice {
                within: Within::Volume(view.slot),
                oid: one.wanted.oid,
                xid: view.xid,
            }));
        }
        None => {}
    }
    add(alloc, seen, set)?;
    Ok(from)
}

/// Whether no id of a view is wanted in two ways. What is asked of one id stands side by side.
pub(crate) fn once(
    alloc: Global,
    views: &[SweptView],
    sets: &[ViewSet],
    asked: &[Asked],
) -> Result<(), Stop<ReachFault>>
    requires sorted { AreById asked.now }
    requires sets { AreSets views.now sets.now }
    requires numbers { AreNumbered (length sets.now) asked.now }
    ensures once { OnOk result (IsOnce (all_asked views.now sets.now asked.now)) }
    ensures stops { IfErr result (Tells (IsTwiceHere (Among (all_asked views.now sets.now asked.now))) NoFeature) }
    ensures no_read { IsErrOf result ReadFault → ⊥ }
{
    let mut seen = Vec::new(alloc);
    let mut from = 0;
    for i in 0..asked.len() {
        match take_one(alloc, views, sets, asked, &mut seen, from, i) {
            Ok(start) => from = start,
            Err(stop) => return Err(stop),
        }
    }
    Ok(())
}
