// The blocks of pieces that share none with another, counted by the sets of the pieces.
ghost use Rattle.std.specs.Prelude.{◌≡◌, ◌+◌, ◌-◌, ◌^◌, ◌<◌, ◌≤◌, ℕ, Bool, false, true, min, get_or, length, IfOk, IsTrue};
ghost use Rattle.std.specs.List.Sorted.{IsNonDecreasingBy};
ghost use Rattle.piece_count.specs.Lone.{owed, with_more, no_piece, IsSplit, AreCounts};

use crate::adding::add_runs;
use crate::piece::{Piece, Views, runs_of};
use crate::tally::{Counts, Tally, ViewCount};
use apfs_model::NoMemory;
use std::alloc::Global;

/// What is counted of pieces.
#[derive(Drop)]
pub(crate) struct Split {
    /// Of those that share blocks with others.
    pub counts: Counts,
    /// How many blocks each set has by the others.
    pub lone: Vec<u64>,
}

// Whether a piece shares no block with another, in the order of their first blocks, where those before it end by a block.
fn is_lone(pieces: &[Piece], i: usize, high: u64) -> bool
    requires { i < length pieces.now }
    ensures first { IsTrue result → high ≤ (get_or pieces.now i no_piece).first }
    ensures next { IsTrue result → i + 1 < length pieces.now → (get_or pieces.now i no_piece).end ≤ (get_or pieces.now (i + 1) no_piece).first }
{
    let piece = pieces[i];
    if i + 1 < pieces.len() && pieces[i + 1].first < piece.end {
        return false;
    }
    high <= piece.first
}

// Adds so many blocks to those of a set, where there is one of the number.
fn add_lone(lone: &mut Vec<u64>, set: usize, more: u64)
    ensures { lone.new.items ≡ with_more lone.old.items set more }
{
    if set < lone.len() {
        lone[set] = lone[set].saturating_add(more);
    }
}

/// Counts pieces in the order of their first blocks, of so many views and in a container of so many blocks.
pub(crate) fn divide(
    alloc: Global,
    sets: &[Views],
    pieces: &[Piece],
    views: usize,
    blocks: u64,
) -> Result<Split, NoMemory>
    requires some { 0 < views }
    requires sorted { IsNonDecreasingBy (λ p. p.first) pieces.now }
    ensures { IfOk result (IsSplit blocks views sets.now pieces.now) }
{
    let mut tally = Tally::new(alloc, views)?;
    let mut lone = vec![in alloc; 0u64; sets.len()]?;
    let mut high = 0;
    'pieces: for i in 0..pieces.len() {
        let piece = pieces[i];
        let first = piece.first.min(blocks);
        let end = piece.end.min(blocks);
        let reach = end.max(high);
        if is_lone(pieces, i, high) {
            add_lone(&mut lone, piece.set, end.saturating_sub(first));
        } else {
            tally.settle(first);
            add_runs(&mut tally, runs_of(sets, piece.set), views, first, end);
        }
        high = reach;
    }
    tally.settle(blocks);
    Ok(Split {
        counts: tally.counts,
        lone,
    })
}

/// Counts blocks of which sets have so many each, of so many views and in a container of so many blocks.
pub(crate) fn count_lone(
    alloc: Global,
    sets: &[Views],
    lone: &[u64],
    views: usize,
    blocks: u64,
) -> Result<Counts, NoMemory>
    requires some { 0 < views }
    requires long { length lone.now ≡ length sets.now }
    requires few { owed (λ has. true) sets.now lone.now ≤ blocks }
    ensures { IfOk result (AreCounts views (λ test. owed test sets.now lone.now)) }
{
    let mut tally = Tally::new(alloc, views)?;
    'sets: for i in 0..sets.len() {
        let first = tally.at;
        let end = first.saturating_add(lone[i]);
        add_runs(&mut tally, runs_of(sets, i), views, first, end);
        tally.settle(end);
    }
    tally.settle(blocks);
    Ok(tally.counts)
}

// The numbers of a view by those of two kinds of blocks.
fn added(one: ViewCount, other: ViewCount) -> ViewCount
    ensures held { result.held ≡ min (one.held + other.held) (2 ^ 64 - 1) }
    ensures only { result.only ≡ min (one.only + other.only) (2 ^ 64 - 1) }
{
    ViewCount {
        held: one.held.saturating_add(other.held),
        only: one.only.saturating_add(other.only),
    }
}

/// Adds numbers of other blocks.
pub(crate) fn add_counts(counts: &mut Counts, more: &Counts)
    requires { length more.now.views.items ≡ length counts.old.views.items }
    ensures { (views : ℕ) (a b : ((ℕ → Bool) → Bool) → ℕ) → ((test : (ℕ → Bool) → Bool) → test (λ view. false) ≡ false → a test + b test < 2 ^ 64) → AreCounts views a counts.old → AreCounts views b more.now → AreCounts views (λ test. a test + b test) counts.new }
{
    'views: for view in 0..more.views.len() {
        counts.views[view] = added(counts.views[view], more.views[view]);
    }
    counts.all = counts.all.saturating_add(more.all);
}
