// How many streams touch each of some ranges, by one sweep over the places where what a stream touches begins and ends.
ghost use Rattle.std.specs.Prelude.{◌≡◌, ◌<◌, ◌≤◌, ◌+◌, ◌-◌, ℕ, true, false, List, cond, nat_le, length, map, filter, count_by, slice_index, slice_index_or, IfOk, OnOk, IfSome};
ghost use Rattle.std.specs.List.{list_any};
ghost use Rattle.std.specs.List.Sorted.{IsNonDecreasingBy, IsPartitionPoint, IsPermutation};
ghost use Rattle.apfs_model.specs.Apart.{Apart};
ghost use Rattle.fs_record.specs.declared.extents.FileExt as file;
ghost use Rattle.ext_ref.specs.References.{streams_of};
ghost use Rattle.ext_ref.specs.Spans.{span_has, AreProper};
ghost use Rattle.ext_ref.specs.Same.{HaveSame};
ghost use Rattle.ext_ref.specs.Sweep.{meets, streams_at, is_of, AreRising, AreCounts};
ghost use Rattle.ext_ref.specs.declared.covering.Span as declared;

use crate::covering::{Span, span_of};
use crate::places::places;
use crate::rising::rising;
use crate::{Cover, NewRange};
use fs_record::FileExt;
use id_lists::{ByItself, NO_GUESS, OrderBy, are_in_order, below, distinct, up_to};
use std::alloc::{AllocError, Global};

// Extents by their streams.
struct ByStream;

impl OrderBy<(u64, FileExt)> for ByStream {
    ghost id = { λ extent. extent.0 };

    fn id(extent: &(u64, FileExt)) -> u64 {
        extent.0
    }
}

// Spans by their first blocks.
struct ByFirst;

impl OrderBy<Span> for ByFirst {
    ghost id = { λ span. span.first };

    fn id(span: &Span) -> u64 {
        span.first
    }
}

// The extents in the order of their streams.
fn by_stream(alloc: Global, extents: &[(u64, FileExt)]) -> Result<Vec<(u64, FileExt)>, AllocError>
    ensures same { IfOk result (λ sorted. IsPermutation extents.now sorted.items) }
    ensures ascending { IfOk result (λ sorted. IsNonDecreasingBy (λ (x : ℕ × file.FileExt). x.0) sorted.items) }
{
    let mut sorted = Vec::new(alloc);
    sorted.extend_from_slice(extents)?;
    sorted.sort_by_key(|extent| extent.0)?;
    Ok(sorted)
}

// The ids of the streams of some extents, in their order.
fn all_ids(alloc: Global, extents: &[(u64, FileExt)]) -> Result<Vec<u64>, AllocError>
    ensures { IfOk result (λ ids. ids.items ≡ map (λ (x : ℕ × file.FileExt). x.0) extents.now) }
{
    extents.iter().map(|extent| extent.0).collect(alloc)
}

// The same, each once.
fn ids_of(alloc: Global, extents: &[(u64, FileExt)]) -> Result<Vec<u64>, AllocError>
    ensures same { IfOk result (λ ids. HaveSame (map (λ (x : ℕ × file.FileExt). x.0) extents.now) ids.items) }
    ensures apart { IfOk result (λ ids. Apart ids.items) }
{
    let mut ids = all_ids(alloc, extents)?;
    distinct(&mut ids);
    Ok(ids)
}

// The extents of a stream, of extents in the order of their streams. `guess` is where the search starts.
fn of_stream(extents: &[(u64, FileExt)], id: u64, guess: usize) -> &[(u64, FileExt)]
    requires { IsNonDecreasingBy (λ (x : ℕ × file.FileExt). x.0) extents.now }
    ensures { result.now ≡ filter (is_of id) extents.now }
{
    let low = below::<(u64, FileExt), ByStream>(extents, id, guess);
    let high = up_to::<(u64, FileExt), ByStream>(extents, id, low);
    &extents[low.min(high)..high]
}

// Puts the places of the spans that extents of one stream touch after those of other streams, those that meet joined.
fn add_stream(
    alloc: Global,
    out: &mut Vec<Span>,
    spans: &[Span],
    extents: &[(u64, FileExt)],
    block_size: u32,
) -> Result<(), AllocError>
    requires some { 0 < block_size }
    requires rising { AreRising spans.now }
    ensures proper { AreProper out.old.items → OnOk result (AreProper out.new.items) }
    ensures counts { OnOk result ((i : ℕ) (none : declared.Span) → i < length spans.now → count_by (span_has i) out.new.items ≡ count_by (span_has i) out.old.items + cond (list_any (meets block_size (slice_index_or spans.now i none)) extents.now) 1 0) }
{
    let cover = Cover::joining(places(alloc, spans, extents, block_size)?);
    out.extend_from_slice(cover.as_spans())?;
    Ok(())
}

// The places of the spans that each of some streams touches, by their ids, of extents in the order of their streams.
fn touched_by(
    alloc: Global,
    spans: &[Span],
    extents: &[(u64, FileExt)],
    ids: &[u64],
    block_size: u32,
) -> Result<Vec<Span>, AllocError>
    requires some { 0 < block_size }
    requires rising { AreRising spans.now }
    requires ascending { IsNonDecreasingBy (λ (x : ℕ × file.FileExt). x.0) extents.now }
    ensures proper { IfOk result (λ out. AreProper out.items) }
    ensures counts { IfOk result (λ out. (i : ℕ) (none : declared.Span) → i < length spans.now → count_by (span_has i) out.items ≡ count_by (λ (id : ℕ). list_any (meets block_size (slice_index_or spans.now i none)) (filter (is_of id) extents.now)) ids.now) }
{
    let mut out = Vec::new(alloc);
    let mut next: usize = 0;
    for id in ids {
        let own = of_stream(extents, *id, next);
        next = next.saturating_add(own.len());
        add_stream(alloc, &mut out, spans, own, block_size)?;
    }
    Ok(out)
}

// The same of all streams of extents in the order of their streams.
fn touched_in_order(
    alloc: Global,
    spans: &[Span],
    extents: &[(u64, FileExt)],
    block_size: u32,
) -> Result<Vec<Span>, AllocError>
    requires some { 0 < block_size }
    requires rising { AreRising spans.now }
    requires ascending { IsNonDecreasingBy (λ (x : ℕ × file.FileExt). x.0) extents.now }
    ensures proper { IfOk result (λ out. AreProper out.items) }
    ensures counts { (all : List (ℕ × file.FileExt)) → IsPermutation all extents.now → IfOk result (λ out. (i : ℕ) (none : declared.Span) → i < length spans.now → count_by (span_has i) out.items ≡ streams_at block_size all (slice_index_or spans.now i none)) }
{
    let ids = ids_of(alloc, extents)?;
    touched_by(alloc, spans, extents, &ids, block_size)
}

// The places of the spans that each stream touches: as many have a place as streams touch the span there. Extents that aren't in the
// order of their streams are sorted first.
fn touched(
    alloc: Global,
    spans: &[Span],
    extents: &[(u64, FileExt)],
    block_size: u32,
) -> Result<Vec<Span>, AllocError>
    requires some { 0 < block_size }
    requires rising { AreRising spans.now }
    ensures proper { IfOk result (λ out. AreProper out.items) }
    ensures counts { IfOk result (λ out. (i : ℕ) (none : declared.Span) → i < length spans.now → count_by (span_has i) out.items ≡ streams_at block_size extents.now (slice_index_or spans.now i none)) }
{
    if are_in_order::<(u64, FileExt), ByStream>(extents) {
        return touched_in_order(alloc, spans, extents, block_size);
    }
    let sorted = by_stream(alloc, extents)?;
    touched_in_order(alloc, spans, &sorted, block_size)
}

// The first blocks of spans, ascending.
fn firsts_of(alloc: Global, spans: &[Span]) -> Result<Vec<u64>, AllocError>
    ensures same { IfOk result (λ firsts. IsPermutation (map (λ (s : declared.Span). s.first) spans.now) firsts.items) }
    ensures ascending { IfOk result (λ firsts. IsNonDecreasingBy (λ (n : ℕ). n) firsts.items) }
{
    let mut firsts: Vec<u64> = spans.iter().map(|span| span.first).collect(alloc)?;
    firsts.sort_by_key(|first| *first)?;
    Ok(firsts)
}

// Their ends, ascending.
fn ends_of(alloc: Global, spans: &[Span]) -> Result<Vec<u128>, AllocError>
    ensures same { IfOk result (λ ends. IsPermutation (map (λ (s : declared.Span). s.end) spans.now) ends.items) }
    ensures ascending { IfOk result (λ ends. IsNonDecreasingBy (λ (n : ℕ). n) ends.items) }
{
    let mut ends: Vec<u128> = spans.iter().map(|span| span.end).collect(alloc)?;
    ends.sort_by_key(|end| *end)?;
    Ok(ends)
}

// How many first blocks aren't above a number. `guess` is where the search starts.
fn begun_by(firsts: &[u64], place: u64, guess: usize) -> usize
    requires { IsNonDecreasingBy (λ (n : ℕ). n) firsts.now }
    ensures { result ≡ count_by (λ (n : ℕ). nat_le n place) firsts.now }
{
    up_to::<u64, ByItself>(firsts, place, guess)
}

// How many ends aren't above a number.
fn ended_by(ends: &[u128], place: u64) -> usize
    requires { IsNonDecreasingBy (λ (n : ℕ). n) ends.now }
    ensures { result ≡ count_by (λ (n : ℕ). nat_le n place) ends.now }
{
    ends.partition_point(
        |end: &u128| -> bool
            ensures { result ≡ nat_le end.now place }
        { *end <= u128::from(place) },
    )
}

// For each number below `until`, how many of some numbers aren't above it, without those of others.
fn differences(
    alloc: Global,
    firsts: &[u64],
    ends: &[u128],
    until: usize,
) -> Result<Vec<u64>, AllocError>
    requires firsts { IsNonDecreasingBy (λ (n : ℕ). n) firsts.now }
    requires ends { IsNonDecreasingBy (λ (n : ℕ). n) ends.now }
    requires fewer { (i : ℕ) → count_by (λ (n : ℕ). nat_le n i) ends.now ≤ count_by (λ (n : ℕ). nat_le n i) firsts.now }
    ensures long { IfOk result (λ counts. length counts.items ≡ until) }
    ensures each { IfOk result (λ counts. (i : ℕ) → i < until → slice_index counts.items i ≡ count_by (λ (n : ℕ). nat_le n i) firsts.now - count_by (λ (n : ℕ). nat_le n i) ends.now) }
{
    let mut counts = Vec::new(alloc);
    let mut guess: usize = 0;
    for place in 0..until {
        let begun = begun_by(firsts, place as u64, guess);
        guess = begun;
        let ended = ended_by(ends, place as u64);
        counts.push((begun - ended) as u64)?;
    }
    Ok(counts)
}

// For each number below `until`, how many spans have it: those that begin by it without those that end by it.
fn counts_of(alloc: Global, spans: &[Span], until: usize) -> Result<Vec<u64>, AllocError>
    requires { AreProper spans.now }
    ensures long { IfOk result (λ counts. length counts.items ≡ until) }
    ensures each { IfOk result (λ counts. (i : ℕ) → i < until → slice_index counts.items i ≡ count_by (span_has i) spans.now) }
{
    let firsts = firsts_of(alloc, spans)?;
    let ends = ends_of(alloc, spans)?;
    differences(alloc, &firsts, &ends, until)
}

/// Ranges in the order of their first blocks, each with the number of the streams that touch it. A range that ends before one that stands
/// before it is left out.
#[derive(Drop)]
pub(crate) struct Sweep {
    spans: Vec<Span>,
    counts: Vec<u64>,
}

impl Sweep {
    /// The numbers for some ranges.
    pub(crate) fn of(
        alloc: Global,
        ranges: &[NewRange],
        extents: &[(u64, FileExt)],
        block_size: u32,
    ) -> Result<Sweep, AllocError>
        requires { 0 < block_size }
        ensures rising { IfOk result (λ sweep. AreRising sweep.spans.items) }
        ensures counts { IfOk result (λ sweep. AreCounts block_size extents.now sweep.spans.items sweep.counts.items) }
    {
        let spans = rising(alloc, ranges)?;
        let touched = touched(alloc, &spans, extents, block_size)?;
        let counts = counts_of(alloc, &touched, spans.len())?;
        Ok(Sweep { spans, counts })
    }

    /// The number of a range; `None` where it may have been left out.
    pub(crate) fn find(&self, range: NewRange) -> Option<u64>
        requires rising { AreRising self.now.spans.items }
        requires long { length self.now.counts.items ≡ length self.now.spans.items }
        ensures { (block_size : ℕ) (extents : List (ℕ × file.FileExt)) → AreCounts block_size extents self.now.spans.items self.now.counts.items → IfSome result (λ count. count ≡ streams_of block_size extents range) }
    {
        let place = below::<Span, ByFirst>(&self.spans, range.first, NO_GUESS);
        if place == self.spans.len() {
            return None;
        }
        let span = self.spans[place];
        if span.first != range.first || span.end != span_of(range).end {
            return None;
        }
        Some(self.counts[place])
    }
}
