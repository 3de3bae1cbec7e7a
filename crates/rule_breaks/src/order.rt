// The rule on the order of the extents of each stream.
ghost use Rattle.std.specs.Prelude.{◌≡◌, ◌<◌, ℕ, length, true, find, map, IfOk, IfSome, IsNone, MatchOption};
ghost use Rattle.std.specs.Option.{option_copied};
ghost use Rattle.std.specs.Ordering.{is_lt};
ghost use Rattle.std.specs.List.Sorted.{IsPermutation, IsSortedBy};
ghost use Rattle.fs_record.specs.StreamExtents as stream;
ghost use Rattle.fs_record.specs.declared.extents.FileExt as declared;
ghost use Rattle.view_rules.specs.Extents as rules;
ghost use Rattle.rule_breaks.specs.Order as spec;

use crate::extents::{extents_with_ids, piece};
use blk_source::NoMemory;
use fs_record::FileExt;
use std::alloc::Global;
use view_facts::{ExtentFact, Facts};

/// The greatest end of an extent in bytes (Data Streams, `j_file_extent_val_t`).
const MOST: u64 = 1 << 63;

/// Whether an extent has a length, begins and ends at multiples of the block size, and ends at 2^63 at most.
#[tactic(auto, unfolding(fs_record::specs::StreamExtents::is_extent_even))]
pub fn is_even(block_size: u32, extent: FileExt) -> bool
    requires { 0 < block_size }
    ensures { result ≡ stream.is_extent_even block_size extent }
{
    let size = block_size as u64;
    if extent.length == 0 || size * (extent.length / size) != extent.length {
        return false;
    }
    if size * (extent.logical / size) != extent.logical {
        return false;
    }
    extent.logical <= MOST && extent.length <= MOST - extent.logical
}

// Whether an extent isn't even.
fn is_uneven(block_size: u32, f: &ExtentFact) -> bool
    requires { 0 < block_size }
    ensures { result ≡ spec.is_uneven block_size f.now }
{
    !is_even(block_size, f.extent())
}

// The first extent that isn't even.
fn uneven(facts: &Facts, block_size: u32) -> Option<&ExtentFact>
    requires { 0 < block_size }
    ensures { option_copied result ≡ find (spec.is_uneven block_size) facts.now.extents }
{
    facts.extents.iter().find(|f| is_uneven(block_size, f))
}

// Puts the extents of each stream side by side, in the order of where they begin.
fn by_stream(pieces: &mut Vec<(u64, FileExt)>)
    ensures order { IsPermutation pieces.old.items pieces.new.items }
    ensures sorted { IsSortedBy (λ a b. is_lt (spec.piece_cmp a b)) pieces.new.items }
{
    pieces.sort_unstable_by(|a, b| a.0.cmp(&b.0).then(a.1.logical.cmp(&b.1.logical)));
}

// Whether the second is of a later stream, or of the same one and doesn't begin before the first ends.
fn follows(a: &(u64, FileExt), b: &(u64, FileExt)) -> bool
    ensures { result ≡ spec.follows a.now b.now }
{
    if a.0 != b.0 {
        return a.0 < b.0;
    }
    u128::from(a.1.logical) + u128::from(a.1.length) <= u128::from(b.1.logical)
}

// Whether the second of two extents follows the first.
fn is_followed(a: &ExtentFact, b: &ExtentFact) -> bool
    ensures { result ≡ spec.follows (spec.piece a.now) (spec.piece b.now) }
{
    follows(&piece(a), &piece(b))
}

// Whether each extent follows the one before it as they stand, as they do in an ordered tree whose streams are in order.
fn stand_in_order(extents: &[ExtentFact]) -> bool
    ensures { result ≡ true → spec.StandInOrder extents.now }
{
    for i in 1..extents.len() {
        if !is_followed(&extents[i - 1], &extents[i]) {
            return false;
        }
    }
    true
}

// The stream of the first extent that the next one doesn't follow.
fn crossing(pieces: &[(u64, FileExt)]) -> Option<u64>
    ensures none { IsNone result → spec.Follow pieces.now (length pieces.now) }
    ensures some { IfSome result (spec.IsCrossing pieces.now) }
{
    for i in 1..pieces.len() {
        if !follows(&pieces[i - 1], &pieces[i]) {
            return Some(pieces[i - 1].0);
        }
    }
    None
}

/// A stream of which an extent isn't even, or of which two overlap.
pub fn disordered(alloc: Global, facts: &Facts, block_size: u32) -> Result<Option<u64>, NoMemory>
    requires { 0 < block_size }
    ensures { IfOk result (λ first. MatchOption first (rules.HasExtentOrder block_size facts.now) (rules.IsExtentOrder block_size facts.now)) }
{
    if let Some(f) = uneven(facts, block_size) {
        return Ok(Some(f.id()));
    }
    if stand_in_order(&facts.extents) {
        return Ok(None);
    }
    let mut pieces = extents_with_ids(alloc, facts)?;
    by_stream(&mut pieces);
    Ok(crossing(&pieces))
}
