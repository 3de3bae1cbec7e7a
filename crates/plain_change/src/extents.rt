// The rules on streams, and on their extents.
ghost use Rattle.std.specs.Prelude.{◌≡◌, ◌+◌, ◌^◌, ◌<◌, ◌≤◌, true, map, All, IsTrue};
ghost use Rattle.std.specs.List.{list_any};
ghost use Rattle.ext_ref.specs.Spans.{IsCoverOf};
ghost use Rattle.fs_record.specs.Facts.{Fact, all_for};
ghost use Rattle.fs_record.specs.StreamExtents.{is_extent_even, are_extents_ordered};
ghost use Rattle.fs_record.specs.declared.extents.FileExt as declared;
ghost use Rattle.view_rules.specs.Inodes as inodes;
ghost use Rattle.plain_change.specs.Parts.{IsExtentRight, AreStreamsRight};

use crate::lookups::After;
use ext_ref::Cover;
use fs_record::FileExt;
use rule_breaks::extents::{is_misplaced, is_uncovered};
use rule_breaks::faults::Asked;
use rule_breaks::inodes::{has_large_body, has_large_stream};
use rule_breaks::order::is_even;
use view_facts::{ExtentFact, Facts};

// Whether an extent is even and doesn't begin before a place.
#[tactic(auto, unfolding(fs_record::specs::StreamExtents::is_extent_even))]
fn is_next(block_size: u32, end: u64, extent: FileExt) -> bool
    requires { 0 < block_size }
    ensures even { IsTrue result → is_extent_even block_size extent ≡ true }
    ensures behind { IsTrue result → end ≤ extent.logical }
    ensures low { IsTrue result → extent.logical + extent.length ≤ 2 ^ 63 }
{
    end <= extent.logical && is_even(block_size, extent)
}

// Whether extents are at most so many, and each is even and begins where the one before it ends, or later.
fn are_in_order(most: usize, block_size: u32, run: &[ExtentFact]) -> bool
    requires { 0 < block_size }
    ensures { IsTrue result → are_extents_ordered block_size (map (λ (f : Fact declared.FileExt). f.what) run.now) ≡ true }
{
    if run.len() > most {
        return false;
    }
    let mut end = 0;
    for f in run {
        let extent = f.extent();
        if !is_next(block_size, end, extent) {
            return false;
        }
        end = extent.logical + extent.length;
    }
    true
}

// Whether it shows that the extents of a stream are in order.
fn is_stream_ordered(after: &After<'_>, block_size: u32, id: u64) -> bool
    requires { 0 < block_size }
    ensures { IsTrue result → are_extents_ordered block_size (all_for id after.now.index.now.facts.now.extents) ≡ true }
{
    are_in_order(after.most(), block_size, after.extents_of(id))
}

// Whether it shows that the streams of some extents are in order.
fn are_streams_ordered(after: &After<'_>, block_size: u32, some: &Facts) -> bool
    requires { 0 < block_size }
    ensures { IsTrue result → All (λ (f : Fact declared.FileExt). are_extents_ordered block_size (all_for f.id after.now.index.now.facts.now.extents) ≡ true) some.now.extents }
{
    some.extents
        .iter()
        .all(|f| is_stream_ordered(after, block_size, f.id()))
}

// Whether an extent lies in the container, and the new ranges cover it.
fn is_extent_right(asked: &Asked<'_>, cover: &Cover, f: &ExtentFact) -> bool
    requires size { 0 < asked.now.site.now.block_size }
    requires cover { IsCoverOf asked.now.ranges.now cover.now }
    ensures { IsTrue result → IsExtentRight asked.now.site.now asked.now.ranges.now f.now }
{
    let site = asked.site;
    if is_misplaced(site.block_size, site.blocks, f) {
        return false;
    }
    !is_uncovered(site.block_size, cover, asked.ranges, f)
}

// Whether all extents that have come do.
fn are_extents_right(asked: &Asked<'_>, cover: &Cover, come: &Facts) -> bool
    requires size { 0 < asked.now.site.now.block_size }
    requires cover { IsCoverOf asked.now.ranges.now cover.now }
    ensures { IsTrue result → All (IsExtentRight asked.now.site.now asked.now.ranges.now) come.now.extents }
{
    come.extents
        .iter()
        .all(|f| is_extent_right(asked, cover, f))
}

// Whether the stream of an inode is too large.
fn have_large_streams(come: &Facts) -> bool
    ensures { result ≡ list_any inodes.has_large_stream come.now.inodes }
{
    come.inodes.iter().any(|f| has_large_stream(f))
}

// Whether the stream of an attribute is too large.
fn have_large_bodies(come: &Facts) -> bool
    ensures { result ≡ list_any inodes.has_large_body come.now.attributes }
{
    come.attributes.iter().any(|a| has_large_body(a))
}

/// Whether it shows that streams are in order of which an extent is gone or has come, and that what has come of streams is as it must be. `cover` is that of the new ranges.
pub(crate) fn are_streams_right(
    asked: &Asked<'_>,
    cover: &Cover,
    after: &After<'_>,
    gone: &Facts,
    come: &Facts,
) -> bool
    requires size { 0 < asked.now.site.now.block_size }
    requires cover { IsCoverOf asked.now.ranges.now cover.now }
    ensures { IsTrue result → AreStreamsRight asked.now.site.now asked.now.ranges.now after.now.index.now.facts.now gone.now come.now }
{
    let site = asked.site;
    if !are_streams_ordered(after, site.block_size, gone) {
        return false;
    }
    if !are_streams_ordered(after, site.block_size, come) {
        return false;
    }
    if !are_extents_right(asked, cover, come) {
        return false;
    }
    !have_large_streams(come) && !have_large_bodies(come)
}
