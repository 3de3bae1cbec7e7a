// Which blocks of ranges no extent reaches.
ghost use Rattle.std.specs.Prelude.{◌≡◌, ◌≤◌, ◌<◌, ◌+◌, ◌-◌, ◌^◌, ◌||◌, ◌&&◌, ℕ, List, true, not, nat_le, nat_lt, map, All, OnOk, IfOk};
ghost use Rattle.std.specs.List.{list_any};
ghost use Rattle.obj_base.specs.BlockSize.{is_accepted};
ghost use Rattle.fs_record.specs.declared.extents.FileExt as file;
ghost use Rattle.ext_ref.specs.declared.covering.Span as declared;
ghost use Rattle.ext_ref.specs.Spans.{span_has, is_spanned, AreProper, AreApart};
ghost use Rattle.ext_ref.specs.Unreached.{reaches, unreached_runs};
ghost use Rattle.ext_ref.specs.Left as spec;
ghost use Rattle.ext_ref.specs.Left.{run_of, EndBy, AreUpTo, AreLow, AreLeft, AreShort, AreShortExtents};

use crate::covering::{Span, put, span_of};
use crate::{Cover, NewRange};
use apfs_model::NoMemory;
use fs_record::FileExt;
use std::alloc::{AllocError, Global};

// The blocks of an extent as a range.
fn reach_of(extent: FileExt, block_size: u32) -> NewRange
    requires { 0 < block_size }
    ensures { result ≡ spec.reach_of block_size extent }
{
    NewRange {
        first: extent.block,
        length: extent.blocks(block_size),
        count: 0,
    }
}

// Puts the blocks that an extent reaches after other spans.
fn add_reach(
    spans: &mut Vec<Span>,
    extent: (u64, FileExt),
    block_size: u32,
) -> Result<(), AllocError>
    requires { 0 < block_size }
    ensures proper { AreProper spans.old.items → OnOk result (AreProper spans.new.items) }
    ensures same { OnOk result ((k : ℕ) → is_spanned spans.new.items k ≡ (is_spanned spans.old.items k || reaches block_size k extent)) }
{
    if extent.1.block == 0 {
        return Ok(());
    }
    spans.push(span_of(reach_of(extent.1, block_size)))?;
    Ok(())
}

// The blocks that extents reach, a span for each extent.
fn reached(
    alloc: Global,
    extents: &[(u64, FileExt)],
    block_size: u32,
) -> Result<Vec<Span>, AllocError>
    requires { 0 < block_size }
    ensures proper { IfOk result (λ spans. AreProper spans.items) }
    ensures same { IfOk result (λ spans. (k : ℕ) → is_spanned spans.items k ≡ list_any (reaches block_size k) extents.now) }
{
    let mut spans = Vec::new(alloc);
    for extent in extents {
        add_reach(&mut spans, *extent, block_size)?;
    }
    Ok(spans)
}

// Puts the blocks from one up to an end after spans, where there are any.
fn add_between(spans: &mut Vec<Span>, first: u64, end: u128) -> Result<(), AllocError>
    requires { AreUpTo first spans.old.items }
    ensures up_to { OnOk result (AreUpTo first spans.new.items) }
    ensures blocks { OnOk result ((k : ℕ) → is_spanned spans.new.items k ≡ (is_spanned spans.old.items k || (nat_le first k && nat_lt k end))) }
{
    if end <= u128::from(first) {
        return Ok(());
    }
    put(spans, Span { first, end })
}

// Puts what is left of a span without others after what is left of those before it. As many of the others as `from` says end
// by its first block; the answer is how many of them end by its end, with which the next span goes on.
fn add_left(
    spans: &mut Vec<Span>,
    span: Span,
    others: &[Span],
    from: usize,
) -> Result<usize, AllocError>
    requires proper { span.first ≤ span.end }
    requires low { span.first < span.end → span.end < 2 ^ 64 }
    requires apart { AreApart others.now }
    requires from { EndBy span.first from others.now }
    requires up_to { AreUpTo span.first spans.old.items }
    ensures next { IfOk result (λ next. EndBy span.end next others.now) }
    ensures up_to { OnOk result (AreUpTo span.end spans.new.items) }
    ensures blocks { OnOk result ((k : ℕ) → is_spanned spans.new.items k ≡ (is_spanned spans.old.items k || (span_has k span && not (is_spanned others.now k)))) }
{
    let mut at = span.first;
    for next in from..others.len() {
        let other = others[next];
        add_between(spans, at, span.end.min(u128::from(other.first)))?;
        if span.end < other.end {
            return Ok(next);
        }
        at = at.max(other.end as u64);
    }
    add_between(spans, at, span.end)?;
    Ok(others.len())
}

// What is left of spans without others: both lists are gone through once, side by side.
fn left(alloc: Global, cover: &[Span], others: &[Span]) -> Result<Vec<Span>, AllocError>
    requires apart { AreApart cover.now }
    requires low { AreLow cover.now }
    requires others { AreApart others.now }
    ensures { IfOk result (λ spans. AreLeft cover.now others.now spans.items) }
{
    let mut spans = Vec::new(alloc);
    let mut next = 0;
    for span in cover {
        next = add_left(&mut spans, *span, others, next)?;
    }
    Ok(spans)
}

// Spans as runs, each by its first block and its length.
fn runs(alloc: Global, spans: &[Span]) -> Result<Vec<(u64, u64)>, AllocError>
    requires { All (λ (s : declared.Span). (s.first ≤ s.end) × (s.end - s.first < 2 ^ 64)) spans.now }
    ensures { IfOk result (λ runs. runs.items ≡ map run_of spans.now) }
{
    let mut runs = Vec::new(alloc);
    for span in spans {
        runs.push((span.first, (span.end - u128::from(span.first)) as u64))?;
    }
    Ok(runs)
}

// The blocks that extents reach.
fn reach_of_all(
    alloc: Global,
    extents: &[(u64, FileExt)],
    block_size: u32,
) -> Result<Cover, AllocError>
    requires { 0 < block_size }
    ensures { IfOk result (λ reach. (k : ℕ) → is_spanned reach k ≡ list_any (reaches block_size k) extents.now) }
{
    Ok(Cover::joining(reached(alloc, extents, block_size)?))
}

// The same of extents that aren't needed further.
fn reach_of_moved(
    alloc: Global,
    extents: Vec<(u64, FileExt)>,
    block_size: u32,
) -> Result<Cover, AllocError>
    requires { 0 < block_size }
    ensures { IfOk result (λ reach. (k : ℕ) → is_spanned reach k ≡ list_any (reaches block_size k) extents.items) }
{
    reach_of_all(alloc, &extents, block_size)
}

// The longest runs of blocks of ranges that are none of those that extents reach.
fn left_out(alloc: Global, ranges: &[NewRange], reach: Cover) -> Result<Vec<(u64, u64)>, AllocError>
    requires { AreShort ranges.now }
    ensures { (block_size : ℕ) (extents : List (ℕ × file.FileExt)) → ((k : ℕ) → is_spanned reach k ≡ list_any (reaches block_size k) extents) → IfOk result (λ runs. runs.items ≡ unreached_runs block_size ranges.now extents) }
{
    let cover = Cover::of(alloc, ranges)?;
    let spans = left(alloc, cover.as_spans(), reach.as_spans())?;
    drop(reach);
    runs(alloc, &spans)
}

// The longest runs of blocks of ranges that no extent with a block other than 0 reaches.
fn runs_without(
    alloc: Global,
    ranges: &[NewRange],
    extents: &[(u64, FileExt)],
    block_size: u32,
) -> Result<Vec<(u64, u64)>, AllocError>
    requires short { AreShort ranges.now }
    requires accepted { is_accepted block_size ≡ true }
    ensures { IfOk result (λ runs. runs.items ≡ unreached_runs block_size ranges.now extents.now) }
{
    let reach = reach_of_all(alloc, extents, block_size)?;
    left_out(alloc, ranges, reach)
}

// The same for extents that aren't needed further.
fn runs_without_moved(
    alloc: Global,
    ranges: &[NewRange],
    extents: Vec<(u64, FileExt)>,
    block_size: u32,
) -> Result<Vec<(u64, u64)>, AllocError>
    requires short { AreShort ranges.now }
    requires accepted { is_accepted block_size ≡ true }
    ensures { IfOk result (λ runs. runs.items ≡ unreached_runs block_size ranges.now extents.items) }
{
    let reach = reach_of_moved(alloc, extents, block_size)?;
    left_out(alloc, ranges, reach)
}

/// The longest runs of blocks of ranges that no extent with a block other than 0 reaches, each by its first block and its
/// length, in ascending order. An extent stands after its stream's id. Sorts the ranges, and what extents reach, and goes
/// through both once.
///
/// # Errors
///
/// `NoMemory`: an allocation failed.
pub fn unreached(
    alloc: Global,
    ranges: &[NewRange],
    extents: &[(u64, FileExt)],
    block_size: u32,
) -> Result<Vec<(u64, u64)>, NoMemory>
    requires short { AreShort ranges.now }
    requires extents { AreShortExtents block_size extents.now }
    requires accepted { is_accepted block_size ≡ true }
    ensures { IfOk result (λ runs. runs.items ≡ unreached_runs block_size ranges.now extents.now) }
{
    match runs_without(alloc, ranges, extents, block_size) {
        Ok(runs) => Ok(runs),
        Err(_) => Err(NoMemory),
    }
}

/// What `unreached` answers, of extents that aren't needed further: their room is given back before the runs are looked for.
///
/// # Errors
///
/// `NoMemory`: an allocation failed.
pub fn unreached_by_moved(
    alloc: Global,
    ranges: &[NewRange],
    extents: Vec<(u64, FileExt)>,
    block_size: u32,
) -> Result<Vec<(u64, u64)>, NoMemory>
    requires short { AreShort ranges.now }
    requires extents { AreShortExtents block_size extents.items }
    requires accepted { is_accepted block_size ≡ true }
    ensures { IfOk result (λ runs. runs.items ≡ unreached_runs block_size ranges.now extents.items) }
{
    match runs_without_moved(alloc, ranges, extents, block_size) {
        Ok(runs) => Ok(runs),
        Err(_) => Err(NoMemory),
    }
}
