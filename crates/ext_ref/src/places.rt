// Which of some spans extents touch, by their places.
ghost use Rattle.std.specs.Prelude.{◌≡◌, ◌<◌, ◌≤◌, ◌^◌, ℕ, true, false, nat_le, nat_lt, length, slice_index_or, IfOk};
ghost use Rattle.std.specs.List.{list_any};
ghost use Rattle.std.specs.List.Sorted.{IsPartitionPoint};
ghost use Rattle.ext_ref.specs.Cover.{range_has};
ghost use Rattle.ext_ref.specs.Spans.{is_spanned, AreProper};
ghost use Rattle.ext_ref.specs.Sweep.{meets, AreRising};
ghost use Rattle.ext_ref.specs.declared.covering.Span as declared;

use crate::NewRange;
use crate::covering::{Span, span_of};
use crate::referring::end_of;
use fs_record::FileExt;
use std::alloc::{AllocError, Global};

// How many spans end by a block.
fn ended_by(spans: &[Span], block: u64) -> usize
    requires { AreRising spans.now }
    ensures bound { result ≤ length spans.now }
    ensures split { IsPartitionPoint (λ (s : declared.Span). nat_le s.end block ≡ true) (λ (s : declared.Span). nat_le s.end block ≡ false) spans.now result }
{
    spans.partition_point(
        |span: &Span| -> bool
            ensures { result ≡ nat_le span.now.end block }
        { span.end <= u128::from(block) },
    )
}

// How many spans begin before a block.
fn begun_before(spans: &[Span], block: u128) -> usize
    requires { AreRising spans.now }
    ensures bound { result ≤ length spans.now }
    ensures split { IsPartitionPoint (λ (s : declared.Span). nat_lt s.first block ≡ true) (λ (s : declared.Span). nat_lt s.first block ≡ false) spans.now result }
{
    spans.partition_point(
        |span: &Span| -> bool
            ensures { result ≡ nat_lt span.now.first block }
        { u128::from(span.first) < block },
    )
}

// The places of no spans.
const NO_PLACES: NewRange = NewRange {
    first: 0,
    length: 0,
    count: 0,
};

// The places of the spans that an extent touches, as a range of numbers.
fn places_of(spans: &[Span], extent: (u64, FileExt), block_size: u32) -> NewRange
    requires some { 0 < block_size }
    requires rising { AreRising spans.now }
    ensures { (i : ℕ) (none : declared.Span) → i < length spans.now → range_has i result ≡ meets block_size (slice_index_or spans.now i none) extent }
{
    if extent.1.block == 0 {
        return NO_PLACES;
    }
    let end = end_of(extent.1, block_size);
    if end <= u128::from(extent.1.block) {
        return NO_PLACES;
    }
    let low = ended_by(spans, extent.1.block);
    let high = begun_before(spans, end);
    NewRange {
        first: low as u64,
        length: high.saturating_sub(low) as u64,
        count: 0,
    }
}

// The places of the spans that each of some extents touches, a span for each extent.
pub(crate) fn places(
    alloc: Global,
    spans: &[Span],
    extents: &[(u64, FileExt)],
    block_size: u32,
) -> Result<Vec<Span>, AllocError>
    requires some { 0 < block_size }
    requires rising { AreRising spans.now }
    ensures proper { IfOk result (λ places. AreProper places.items) }
    ensures same { IfOk result (λ places. (i : ℕ) (none : declared.Span) → i < length spans.now → is_spanned places.items i ≡ list_any (meets block_size (slice_index_or spans.now i none)) extents.now) }
{
    let mut places = Vec::new(alloc);
    for extent in extents {
        places.push(span_of(places_of(spans, *extent, block_size)))?;
    }
    Ok(places)
}
