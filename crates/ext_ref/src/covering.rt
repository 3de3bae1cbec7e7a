// Which blocks lie in ranges.
ghost use Rattle.std.specs.Prelude.{◌≡◌, map, ◌≤◌, ◌<◌, ◌||◌, ℕ, length, true, false, nat_le, OnOk, IfOk, MatchOption};
ghost use Rattle.std.specs.List.Sorted.{IsNonDecreasingBy, IsPartitionPoint};
ghost use Rattle.ext_ref.specs.declared.covering.Span as declared;
ghost use Rattle.ext_ref.specs.Cover.{is_owned, is_covered};
ghost use Rattle.ext_ref.specs.Reach as reach;
ghost use Rattle.ext_ref.specs.Reach.{Reaches};
ghost use Rattle.ext_ref.specs.Left.{AreFull};
ghost use Rattle.ext_ref.specs.Spans as spec;
ghost use Rattle.ext_ref.specs.Spans.{span_has, is_spanned, are_spanned, joined_spans, AreProper, AreApart, BeginBy};

use crate::NewRange;
use std::alloc::{AllocError, Global};
use std::marker::Model;

// A range of blocks by its first block and the one after its last.
#[derive(Clone, Copy)]
pub(crate) struct Span {
    pub first: u64,
    pub end: u128,
}

/// The blocks of some ranges, so kept that one search tells whether a further range lies in them.
#[derive(Drop)]
pub struct Cover {
    spans: Vec<Span>,
}

impl Model for Cover {
    ghost use Rattle.std.specs.Prelude.{List};
    ghost use Rattle.ext_ref.specs.declared.covering.Span.{Span};
    ghost use Rattle.ext_ref.specs.Spans.{AreApart};

    ghost Value = { List Span };

    ghost view = { λ cover. cover.spans.items };

    ghost invariant = { λ cover. AreApart cover.spans.items };
}

pub(crate) fn span_of(range: NewRange) -> Span
    ensures { result ≡ spec.span_of range }
{
    Span {
        first: range.first,
        end: u128::from(range.first) + u128::from(range.length),
    }
}

fn spans_of(alloc: Global, ranges: &[NewRange]) -> Result<Vec<Span>, AllocError>
    ensures { IfOk result (λ spans. spans.items ≡ map spec.span_of ranges.now) }
{
    ranges.iter().map(|range| span_of(*range)).collect(alloc)
}

// The spans of ranges, in the order of their first blocks.
pub(crate) fn sorted_spans(alloc: Global, ranges: &[NewRange]) -> Result<Vec<Span>, AllocError>
    ensures same { IfOk result (λ spans. (block : ℕ) → is_spanned spans.items block ≡ is_owned ranges.now block) }
    ensures proper { IfOk result (λ spans. AreProper spans.items) }
    ensures ascending { IfOk result (λ spans. IsNonDecreasingBy (λ (s : declared.Span). s.first) spans.items) }
{
    let mut spans = spans_of(alloc, ranges)?;
    spans.sort_by_key(|span| span.first)?;
    Ok(spans)
}

// Both spans as one, where the second, which doesn't begin before the first, meets it.
fn joined(last: Span, span: Span) -> Option<Span>
    ensures { result ≡ joined_spans last span }
{
    if u128::from(span.first) <= last.end {
        Some(Span {
            first: last.first,
            end: last.end.max(span.end),
        })
    } else {
        None
    }
}

// Puts a span after those that don't begin after it.
pub(crate) fn put(spans: &mut Vec<Span>, span: Span) -> Result<(), AllocError>
    requires apart { AreApart spans.old.items }
    requires after { BeginBy span.first spans.old.items }
    requires proper { span.first ≤ span.end }
    ensures apart { OnOk result (AreApart spans.new.items) }
    ensures by { OnOk result (BeginBy span.first spans.new.items) }
    ensures blocks { OnOk result ((block : ℕ) → is_spanned spans.new.items block ≡ (is_spanned spans.old.items block || span_has block span)) }
    ensures full { AreFull spans.old.items → span.first < span.end → OnOk result (AreFull spans.new.items) }
{
    let Some(last) = spans.pop() else {
        spans.push(span)?;
        return Ok(());
    };
    match joined(last, span) {
        Some(both) => {
            spans.push(both)?;
            Ok(())
        }
        None => {
            spans.push(last)?;
            spans.push(span)?;
            Ok(())
        }
    }
}

// Sorts spans by their first blocks, and joins those that meet.
fn set_apart(spans: &mut Vec<Span>)
    requires { AreProper spans.old.items }
    ensures apart { AreApart spans.new.items }
    ensures blocks { (block : ℕ) → is_spanned spans.new.items block ≡ is_spanned spans.old.items block }
{
    spans.sort_unstable_by_key(|span| span.first);
    spans.dedup_by(
        |span: &mut Span, last: &mut Span| -> bool
            ensures { MatchOption (joined_spans last.entry.now span.entry.now) ((result ≡ false) × (span.exit.now ≡ span.entry.now) × (last.exit.now ≡ last.entry.now)) (λ both. (result ≡ true) × (last.exit.now ≡ both)) }
        {
            let Some(both) = joined(*last, *span) else {
                return false;
            };
            *last = both;
            true
        },
    );
}

// How many spans don't begin after a block.
fn count_by(spans: &[Span], block: u64) -> usize
    requires { AreApart spans.now }
    ensures bound { result ≤ length spans.now }
    ensures split { IsPartitionPoint (λ (s : declared.Span). nat_le s.first block ≡ true) (λ (s : declared.Span). nat_le s.first block ≡ false) spans.now result }
{
    spans.partition_point(
        |span: &Span| -> bool
            ensures { result ≡ nat_le span.now.first block }
        { span.first <= block },
    )
}

// Whether each block of a range lies in some span.
fn has_all(spans: &[Span], first: u64, length: u64) -> bool
    requires { AreApart spans.now }
    ensures { result ≡ are_spanned spans.now first length }
{
    if length == 0 {
        return true;
    }
    let by = count_by(spans, first);
    if by == 0 {
        return false;
    }
    u128::from(first) + u128::from(length) <= spans[by - 1].end
}

impl Cover {
    ghost use Rattle.ext_ref.specs.Spans.{IsCoverOf};

    // The blocks of some spans, in the room that these have.
    pub(crate) fn joining(mut spans: Vec<Span>) -> Cover
        requires { AreProper spans.items }
        ensures { (block : ℕ) → is_spanned result block ≡ is_spanned spans.items block }
    {
        set_apart(&mut spans);
        spans.shrink_to_fit();
        Cover { spans }
    }

    /// The blocks of some ranges.
    pub fn of(alloc: Global, ranges: &[NewRange]) -> Result<Cover, AllocError>
        ensures { IfOk result (IsCoverOf ranges.now) }
    {
        let spans = spans_of(alloc, ranges)?;
        Ok(Cover::joining(spans))
    }

    // Its spans, in ascending order.
    pub(crate) fn as_spans(&self) -> &[Span]
        ensures same { result.now ≡ self.now }
        ensures apart { AreApart result.now }
    {
        &self.spans
    }

    /// Whether each block of a range, by its first block and its length, is one of these. A search in the ranges, so
    /// that many questions take no time for each range.
    pub fn covers(&self, first: u64, length: u64) -> bool
        ensures { result ≡ are_spanned self.now first length }
    {
        has_all(&self.spans, first, length)
    }
}

// The end of a range that doesn't begin after a block, where it is further on than another end.
fn further(block: u128, far: u128, range: NewRange) -> u128
    ensures { result ≡ reach.further block far range }
{
    let span = span_of(range);
    if u128::from(span.first) <= block && far < span.end {
        span.end
    } else {
        far
    }
}

// The block up to which the blocks of ranges from a block on are known to go on without a gap: the greatest end of a
// range that has that block, and the block itself where none has it.
fn reach_from(ranges: &[NewRange], block: u128) -> u128
    ensures { Reaches ranges.now ranges.now block result }
{
    let mut far = block;
    for range in ranges {
        far = further(block, far, *range);
    }
    far
}

/// Whether each block of a range, by its first block and its length, lies in some of `ranges`. Goes through the ranges
/// once for each of them that it needs: for many questions of the same ranges, make a `Cover`.
pub fn covered(ranges: &[NewRange], first: u64, length: u64) -> bool
    ensures { result ≡ is_covered ranges.now first length }
{
    let end = u128::from(first) + u128::from(length);
    let mut block = u128::from(first);
    while block < end {
        let next = reach_from(ranges, block);
        if next == block {
            return false;
        }
        block = next;
    }
    true
}
