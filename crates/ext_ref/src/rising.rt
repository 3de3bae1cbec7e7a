// Ranges in an order in which neither first blocks nor ends fall.
ghost use Rattle.std.specs.Prelude.{◌≤◌, All, OnOk, IfOk};
ghost use Rattle.std.specs.List.Sorted.{IsNonDecreasingBy};
ghost use Rattle.ext_ref.specs.Spans.{BeginBy};
ghost use Rattle.ext_ref.specs.Sweep.{AreRising};
ghost use Rattle.ext_ref.specs.declared.covering.Span as declared;

use crate::NewRange;
use crate::covering::{Span, sorted_spans};
use std::alloc::{AllocError, Global};

// Puts a span after others that don't begin after it, where it has blocks and they don't end after it. `far` is an end that none of them
// goes beyond; the answer is one for them all.
fn put_risen(spans: &mut Vec<Span>, far: u128, span: Span) -> Result<u128, AllocError>
    requires rising { AreRising spans.old.items }
    requires by { BeginBy span.first spans.old.items }
    requires far { All (λ (s : declared.Span). s.end ≤ far) spans.old.items }
    ensures rising { OnOk result (AreRising spans.new.items) }
    ensures by { OnOk result (BeginBy span.first spans.new.items) }
    ensures far { IfOk result (λ far. All (λ (s : declared.Span). s.end ≤ far) spans.new.items) }
{
    if span.end <= u128::from(span.first) || span.end < far {
        return Ok(far);
    }
    spans.push(span)?;
    Ok(span.end)
}

// Of spans in the order of their first blocks those that have blocks and don't end before one that stands before them.
fn risen(alloc: Global, sorted: &[Span]) -> Result<Vec<Span>, AllocError>
    requires { IsNonDecreasingBy (λ (s : declared.Span). s.first) sorted.now }
    ensures { IfOk result (λ spans. AreRising spans.items) }
{
    let mut spans = Vec::new(alloc);
    let mut far = 0u128;
    for span in sorted {
        far = put_risen(&mut spans, far, *span)?;
    }
    Ok(spans)
}

// The ranges that have blocks, in the order of their first blocks, without those that end before one that stands before them.
pub(crate) fn rising(alloc: Global, ranges: &[NewRange]) -> Result<Vec<Span>, AllocError>
    ensures { IfOk result (λ spans. AreRising spans.items) }
{
    let sorted = sorted_spans(alloc, ranges)?;
    risen(alloc, &sorted)
}
