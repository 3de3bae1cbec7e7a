// Places by their runs, which rise.
ghost use Rattle.std.specs.Prelude.{◌≡◌, ◌<◌, ◌≤◌, ◌&&◌, ◌||◌, ℕ, List, nat_le, nat_lt, true, false, length, map, OnOk, IfOk, IfSome, IsNone, IsTrue};
ghost use Rattle.std.specs.List.Sorted.{IsPartitionPoint, IsPermutation, IsNonDecreasingBy};
ghost use Rattle.bit_lanes.specs.Places.{is_from};
ghost use Rattle.apfs_model.specs.Lists.{In};
ghost use Rattle.view_sweep.specs.declared.runs.Run.{Run as One};
ghost use Rattle.view_sweep.specs.Runs as spec;
ghost use Rattle.view_sweep.specs.Runs.{has_place, AreRising, IsLeast, IsInBoth, AreApart, AreSome, IsBehind, IsHolding, begin_of};

use std::alloc::{AllocError, Global};

/// The places from one up to another, which isn't among them.
#[derive(Clone, Copy, PartialEq, Eq)]
pub struct Run {
    pub from: usize,
    pub end: usize,
}

// How many of some runs end by a place.
fn ended(runs: &[Run], place: usize) -> usize
    requires { AreRising runs.now }
    ensures bound { result ≤ length runs.now }
    ensures split { IsPartitionPoint (λ r. nat_le r.end place ≡ true) (λ r. nat_le r.end place ≡ false) runs.now result }
{
    runs.partition_point(
        |run: &Run| -> bool
            ensures { result ≡ nat_le run.now.end place }
        { run.end <= place },
    )
}

// How many of some runs begin before a place.
fn begun(runs: &[Run], place: usize) -> usize
    requires { AreRising runs.now }
    ensures bound { result ≤ length runs.now }
    ensures split { IsPartitionPoint (λ r. nat_lt r.from place ≡ true) (λ r. nat_lt r.from place ≡ false) runs.now result }
{
    runs.partition_point(
        |run: &Run| -> bool
            ensures { result ≡ nat_lt run.now.from place }
        { run.from < place },
    )
}

/// The least place of some runs from one on.
pub fn least_place(runs: &[Run], from: usize) -> Option<usize>
    requires { AreRising runs.now }
    ensures { IsLeast runs.now from result }
{
    let at = ended(runs, from);
    if at == runs.len() {
        return None;
    }
    Some(runs[at].from.max(from))
}

/// The run that has a place.
pub(crate) fn holding(runs: &[Run], place: usize) -> Option<Run>
    requires { AreRising runs.now }
    ensures { IfSome result (IsHolding runs.now place) }
{
    let at = ended(runs, place);
    if at == runs.len() || place < runs[at].from {
        return None;
    }
    Some(runs[at])
}

// The runs that have places from one up to another.
fn between(runs: &[Run], low: usize, high: usize) -> &[Run]
    requires { AreRising runs.now }
    ensures { spec.IsBetween low high runs.now result.now }
{
    let rest = &runs[ended(runs, low)..];
    &rest[..begun(rest, high)]
}

// The part of a run from one place up to another.
fn clip(run: &Run, low: usize, high: usize) -> Run
    ensures { result ≡ spec.clip low high run.now }
{
    Run {
        from: run.from.max(low),
        end: run.end.min(high),
    }
}

// The parts of some runs from one place up to another.
fn clips(alloc: Global, runs: &[Run], low: usize, high: usize) -> Result<Vec<Run>, AllocError>
    ensures { IfOk result (λ parts. parts.items ≡ map (spec.clip low high) runs.now) }
{
    runs.iter().map(|run| clip(run, low, high)).collect(alloc)
}

/// The places of some runs from one up to another.
pub(crate) fn part_of(
    alloc: Global,
    runs: &[Run],
    low: usize,
    high: usize,
) -> Result<Vec<Run>, AllocError>
    requires rising { AreRising runs.now }
    requires order { low < high }
    ensures rising { IfOk result (λ part. AreRising part.items) }
    ensures places { IfOk result (λ part. (k : ℕ) → has_place part.items k ≡ (is_from low high k && has_place runs.now k)) }
{
    let these = between(runs, low, high);
    let part = clips(alloc, these, low, high)?;
    Ok(part)
}

/// A place that is in some runs and in others.
pub(crate) fn shared(runs: &[Run], others: &[Run]) -> Option<usize>
    requires { AreRising runs.now }
    ensures some { IfSome result (IsInBoth runs.now others.now) }
    ensures none { IsNone result → AreApart runs.now others.now }
{
    for other in others {
        match least_place(runs, other.from) {
            Some(place) => {
                if place < other.end {
                    return Some(place);
                }
            }
            None => {}
        }
    }
    None
}

/// Adds a run that begins where the last one does, or later: to the last one, where it begins by its end, or as one of its own.
pub fn put_run(runs: &mut Vec<Run>, run: Run) -> Result<(), AllocError>
    requires some { run.from < run.end }
    requires behind { IsBehind run.from runs.old.items }
    ensures rising { AreRising runs.old.items → OnOk result (AreRising runs.new.items) }
    ensures places { OnOk result ((k : ℕ) → has_place runs.new.items k ≡ (has_place runs.old.items k || is_from run.from run.end k)) }
    ensures behind { OnOk result (IsBehind run.from runs.new.items) }
{
    match runs.pop() {
        Some(last) => {
            if last.end < run.from {
                runs.push(last)?;
                runs.push(run)?;
                return Ok(());
            }
            runs.push(Run {
                from: last.from,
                end: last.end.max(run.end),
            })?;
            Ok(())
        }
        None => {
            runs.push(run)?;
            Ok(())
        }
    }
}

// Adds some runs, the first of which begins where the last one does, or later, and each where the one before it does, or later.
fn put_all(runs: &mut Vec<Run>, more: &[Run]) -> Result<(), AllocError>
    requires some { AreSome more.now }
    requires order { IsNonDecreasingBy begin_of more.now }
    requires behind { (r : One) → In r more.now → IsBehind r.from runs.old.items }
    ensures rising { AreRising runs.old.items → OnOk result (AreRising runs.new.items) }
    ensures places { OnOk result ((k : ℕ) → has_place runs.new.items k ≡ (has_place runs.old.items k || has_place more.now k)) }
{
    for run in more {
        put_run(runs, *run)?;
    }
    Ok(())
}

// Whether some runs begin where others do, or later.
fn are_behind(runs: &[Run], more: &[Run]) -> bool
    requires runs { AreRising runs.now }
    requires more { AreRising more.now }
    ensures { IsTrue result → (r : One) → In r more.now → IsBehind r.from runs.now }
{
    if runs.is_empty() || more.is_empty() {
        return true;
    }
    runs[runs.len() - 1].from <= more[0].from
}

// Puts runs in the order in which they begin.
fn by_begin(runs: &mut Vec<Run>)
    ensures order { IsPermutation runs.old.items runs.new.items }
    ensures sorted { IsNonDecreasingBy begin_of runs.new.items }
{
    runs.sort_unstable_by(|a, b| a.from.cmp(&b.from));
}

// The places of some runs and of others, in runs that rise.
fn joined(alloc: Global, runs: &[Run], more: &[Run]) -> Result<Vec<Run>, AllocError>
    requires runs { AreRising runs.now }
    requires more { AreRising more.now }
    ensures rising { IfOk result (λ all. AreRising all.items) }
    ensures places { IfOk result (λ all. (k : ℕ) → has_place all.items k ≡ (has_place runs.now k || has_place more.now k)) }
{
    let mut both = Vec::with_capacity(alloc, runs.len().saturating_add(more.len()))?;
    both.extend_from_slice(runs)?;
    both.extend_from_slice(more)?;
    by_begin(&mut both);
    let mut all = Vec::new(alloc);
    put_all(&mut all, &both)?;
    Ok(all)
}

/// Adds the places of some runs to those of others.
pub(crate) fn add(alloc: Global, runs: &mut Vec<Run>, more: &[Run]) -> Result<(), AllocError>
    requires runs { AreRising runs.old.items }
    requires more { AreRising more.now }
    ensures rising { OnOk result (AreRising runs.new.items) }
    ensures places { OnOk result ((k : ℕ) → has_place runs.new.items k ≡ (has_place runs.old.items k || has_place more.now k)) }
{
    if are_behind(runs, more) {
        return put_all(runs, more);
    }
    let all = joined(alloc, runs, more)?;
    *runs = all;
    Ok(())
}
