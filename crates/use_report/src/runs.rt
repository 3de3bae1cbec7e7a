// The views of sets.
ghost use Rattle.std.specs.Prelude.{◌≡◌, ◌==◌, ◌+◌, ◌-◌, ◌^◌, ◌<◌, ◌≤◌, ◌&&◌, ◌||◌, nat_lt, ℕ, [], length, map, OnOk, IfOk};
ghost use Rattle.bit_lanes.specs.Places.{is_from};
ghost use Rattle.piece_count.specs.Covered.{is_among};
ghost use Rattle.view_sweep.specs.Runs.{has_place, IsBehind};
ghost use Rattle.view_sweep.specs.Sets.{set_at};
ghost use Rattle.use_report.specs.Runs as spec;
ghost use Rattle.use_report.specs.Runs.{AreHeadRuns, AreRunsOf, AreViewsOf, AreOwnSets, AreViewSets};

use apfs_model::NoMemory;
use piece_count::{ViewRun, Views};
use std::alloc::{AllocError, Global};
use view_sweep::{Run, ViewSet, least_place, put_run};

// Whether a set has the live view, of so many: its head comes last.
fn has_live(set: &[Run], many: usize) -> bool
    requires some { 0 < many }
    requires runs { AreHeadRuns many set.now }
    ensures { result ≡ has_place set.now (many - 1) }
{
    least_place(set, many - 1).is_some()
}

// Adds the live view to none, where a set has it.
fn add_live(runs: &mut Vec<Run>, set: &[Run], many: usize) -> Result<(), NoMemory>
    requires some { 0 < many }
    requires none { runs.old.items ≡ [] }
    requires runs { AreHeadRuns many set.now }
    ensures live { OnOk result ((view : ℕ) → has_place runs.new.items view ≡ ((view == 0) && has_place set.now (many - 1))) }
    ensures behind { OnOk result (IsBehind 0 runs.new.items) }
{
    if !has_live(set, many) {
        return Ok(());
    }
    runs.push(Run { from: 0, end: 1 })?;
    Ok(())
}

// Adds the views after those of a run of heads, which are the snapshots', of so many views.
fn add_next(runs: &mut Vec<Run>, run: Run, many: usize) -> Result<(), NoMemory>
    requires some { 0 < many }
    requires low { run.from < run.end }
    requires high { run.end ≤ many }
    requires behind { IsBehind (run.from + 1) runs.old.items }
    ensures places { OnOk result ((view : ℕ) → view < many → has_place runs.new.items view ≡ (has_place runs.old.items view || (nat_lt 0 view && is_from run.from run.end (view - 1)))) }
    ensures behind { OnOk result (IsBehind (run.from + 1) runs.new.items) }
{
    let from = run.from + 1;
    if from == many {
        return Ok(());
    }
    put_run(
        runs,
        Run {
            from,
            end: run.end.min(many - 1) + 1,
        },
    )?;
    Ok(())
}

// Adds the runs of the views in a set, of so many, to none.
fn add_runs(runs: &mut Vec<Run>, set: &[Run], many: usize) -> Result<(), NoMemory>
    requires some { 0 < many }
    requires none { runs.old.items ≡ [] }
    requires runs { AreHeadRuns many set.now }
    ensures { OnOk result (AreRunsOf set.now many runs.new.items) }
{
    add_live(runs, set, many)?;
    'set: for run in set {
        add_next(runs, *run, many)?;
    }
    Ok(())
}

// A run, as pieces are counted by it.
fn view_run(run: &Run) -> ViewRun
    ensures { result ≡ spec.view_run run.now }
{
    ViewRun {
        from: run.from,
        to: run.end,
    }
}

// The same for each of some runs.
fn view_runs(alloc: Global, runs: &[Run]) -> Result<Vec<ViewRun>, AllocError>
    ensures { IfOk result (λ views. views.items ≡ map spec.view_run runs.now) }
{
    runs.iter().map(|run| view_run(run)).collect(alloc)
}

// The view in a place alone.
fn own_views(alloc: Global, place: usize) -> Result<Views, NoMemory>
    requires { place + 1 < 2 ^ 64 }
    ensures { IfOk result (λ views. (view : ℕ) → is_among views.runs.items view ≡ is_from place (place + 1) view) }
{
    let mut runs = Vec::new(alloc);
    runs.push(ViewRun {
        from: place,
        to: place + 1,
    })?;
    Ok(Views { runs })
}

// The views in a set, of so many.
fn shared_views(alloc: Global, set: &[Run], many: usize) -> Result<Views, NoMemory>
    requires some { 0 < many }
    requires runs { AreHeadRuns many set.now }
    ensures { IfOk result (AreViewsOf set.now many) }
{
    let mut runs = Vec::new(alloc);
    add_runs(&mut runs, set, many)?;
    let runs = view_runs(alloc, &runs)?;
    Ok(Views { runs })
}

// The sets of each of so many views alone.
fn own_sets(alloc: Global, many: usize) -> Result<Vec<Views>, NoMemory>
    ensures many { IfOk result (λ sets. length sets.items ≡ many) }
    ensures own { IfOk result (λ sets. AreOwnSets many sets.items) }
{
    let mut sets = Vec::new(alloc);
    'views: for view in 0..many {
        sets.push(own_views(alloc, view)?)?;
    }
    Ok(sets)
}

/// The sets of each of so many views alone, and then the views in each of some sets.
pub(crate) fn view_sets(
    alloc: Global,
    shared: &[ViewSet],
    many: usize,
) -> Result<Vec<Views>, NoMemory>
    requires some { 0 < length shared.now → 0 < many }
    requires runs { (n : ℕ) → n < length shared.now → AreHeadRuns many (set_at shared.now n) }
    ensures sets { IfOk result (λ sets. AreViewSets shared.now many sets.items) }
    ensures few { IfOk result (λ sets. many + length shared.now < 2 ^ 64) }
{
    let mut sets = own_sets(alloc, many)?;
    'shared: for set in shared {
        sets.push(shared_views(alloc, &set.runs, many)?)?;
    }
    let _all = sets.len();
    Ok(sets)
}
