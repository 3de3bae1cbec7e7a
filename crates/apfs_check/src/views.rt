// The views of a volume: their rules, what is told of them, and their extents.
ghost use Rattle.std.specs.Prelude.{◌≡◌, ◌⊎◌, ◌+◌, ◌≤◌, ◌<◌, ◌^◌, ◌∷◌, ◌++◌, [], ℕ, List, map, sum, Some, false, length, slice_get, All, OnOk, IfOk, IfErr, IfSome, IsErrOf, IsTrue, ◌↔◌};
ghost use Rattle.apfs_model.specs.Counts.{Rose};
ghost use Rattle.apfs_model.specs.Lists.{In};
ghost use Rattle.apfs_model.specs.Kept.{IsKept};
ghost use Rattle.obj_base.specs.Site.{IsSiteFor};
ghost use Rattle.obj_base.specs.Stops.{Tells};
ghost use Rattle.obj_base.specs.declared.stop.Stop.TheVariants.{ReadFault};
ghost use Rattle.nx_ring.specs.Checkpoint.{site_of};
ghost use Rattle.fs_record.specs.StreamExtents as stream;
ghost use Rattle.fs_record.specs.declared.extents.FileExt.{FileExt as Extent};
ghost use Rattle.vol_view.specs.Placed.{view_nodes};
ghost use Rattle.vol_view.specs.Views.{views_of, IsViewFeature};
ghost use Rattle.view_rules.specs.Rules.{IsTreeFault};
ghost use Rattle.tree_rules.specs.Known.{AddExtents, IsKnown, IsKnownBefore, IsCheckedNext, extents_before};
ghost use Rattle.ext_ref.specs.Left.{AreShortExtents};
ghost use Rattle.ext_ref.specs.Same.{HaveSame};
ghost use Rattle.ext_ref.specs.Spans.{IsCoverOf};
ghost use Rattle.apfs_check.specs.Volumes as spec;
ghost use Rattle.apfs_check.specs.declared.views.Passed as declared;
ghost use Rattle.apfs_check.specs.Again.{are_seen_alike, HaveOneTree, IsPassed};
ghost use Rattle.apfs_check.specs.Held.{AddsViews};
ghost use Rattle.apfs_check.specs.Reads.{view_reads};
ghost use Rattle.apfs_check.specs.DataSteps.{AreShortOrHoles};
ghost use Rattle.apfs_check.specs.Steps.{IsThere, IsReady};

use crate::Fault;
use crate::gathered::Gathered;
use crate::raising::stop_of;
use blk_source::BlockSource;
use ext_ref::{Cover, NewRange, thin};
use fs_record::FileExt;
use nx_ring::Checkpoint;
use obj_base::{Site, Stop};
use omap_map::OmapRecord;
use std::alloc::{AllocError, Global};
use tree_rules::{
    CheckedNext, CheckedView, KeptView, Profile, ViewTally, check_next, check_with_extents,
};
use view_rules::TreeFault;
use vol_view::{View, Volume, live, past};

// A view of a volume by its place: the live one, then those of the snapshots by transaction.
fn view_at(volume: &Volume, cp: &Checkpoint, place: usize) -> View
    requires { place ≤ length volume.now.snaps }
    ensures { slice_get (views_of volume.now cp.now) place ≡ Some result }
{
    if place == 0 {
        live(volume, cp)
    } else {
        past(volume, place - 1)
    }
}

// A view that has its rules, of which nothing is noted, and the number of its records.
#[derive(Clone, Copy)]
struct Passed {
    view: View,
    records: u64,
}

// A view that was added, where nothing is noted of it; its extents, each after its stream's id, or those that the view before hasn't; and what is kept of it.
#[derive(Drop)]
struct Added {
    passed: Option<Passed>,
    extents: Vec<(u64, FileExt)>,
    kept: Option<KeptView>,
}

// A view as one that passed, where nothing is noted of it.
fn passed_of(view: &View, tally: &ViewTally) -> Option<Passed>
    ensures same { IfSome result (λ passed. passed ≡ record { view = view.now; records = tally.now.records }) }
    ensures none { IfSome result (λ passed. tally.now.notes.items ≡ []) }
{
    if tally.notes.is_empty() {
        Some(Passed {
            view: *view,
            records: tally.records,
        })
    } else {
        None
    }
}

// Whether each record of a map is of a transaction that two views both see, or that neither does.
fn is_seen_alike(records: &[OmapRecord], one: u64, other: u64) -> bool
    ensures { result ≡ are_seen_alike records.now one other }
{
    records.iter().all(|record| {
        (record.xid <= one && record.xid <= other) || (one < record.xid && other < record.xid)
    })
}

// Whether two views of a volume have one root, and no record of its map is of a transaction that one of them sees and the other doesn't.
fn have_one_tree(volume: &Volume, one: &View, other: &View) -> bool
    ensures { IsTrue result → HaveOneTree volume.now one.now other.now }
{
    one.root_oid == other.root_oid && is_seen_alike(volume.omap.records(), one.xid, other.xid)
}

// How many views that passed are remembered.
const REMEMBERED: usize = 16;

// A view that passed and has the tree of another one.
fn again(volume: &Volume, passed: &[Passed], view: &View) -> Option<Passed>
    ensures same { IfSome result (λ before. In before passed.now) }
    ensures one { IfSome result (λ before. HaveOneTree volume.now before.view view.now) }
{
    'passed: for i in 0..passed.len() {
        let before = passed[i];
        if have_one_tree(volume, &before.view, view) {
            return Some(before);
        }
    }
    None
}

// Remembers a view that passed, in place of the first where there are so many.
fn remember(passed: &mut Vec<Passed>, one: Option<Passed>) -> Result<(), AllocError>
    ensures { OnOk result ((other : declared.Passed) → In other passed.new.items → In other passed.old.items ⊎ (one ≡ Some other)) }
{
    let Some(one) = one else {
        return Ok(());
    };
    if passed.len() >= REMEMBERED {
        passed.remove(0);
    }
    passed.push(one)?;
    Ok(())
}

// What is told of the one view of a volume without snapshots.
fn check_alone<S: BlockSource>(
    alloc: Global,
    src: &mut S,
    volume: &Volume,
    view: &View,
    ranges: &[NewRange],
    site: &Site,
    profile: Profile,
) -> Result<CheckedNext, Stop<TreeFault>>
    requires site { IsSiteFor site.now (S.bytes_len src.old) }
    ensures clear { (image : List ℕ) (before : List (ℕ × Extent)) → S.bytes src.old ≡ Some image → IfOk result (IsCheckedNext profile image site.now volume.now ranges.now view.now before) }
    ensures present { (image : List ℕ) → S.bytes src.old ≡ Some image → IfErr result (Tells (IsTreeFault profile image site.now volume.now view.now ranges.now) (IsViewFeature image site.now volume.now view.now)) }
    ensures reads { (image : List ℕ) → S.bytes src.old ≡ Some image → OnOk result (S.reads src.new ≤ S.reads src.old + length (view_nodes image site.now volume.now view.now)) }
    ensures cause { IsErrOf result ReadFault → Rose (S.faults src.old) (S.faults src.new) }
    ensures kept { IsKept S.bytes S.bytes_len S.faults src.old src.new }
{
    match check_with_extents(alloc, src, volume, view, ranges, site, profile) {
        Ok(checked) => Ok(CheckedNext {
            checked,
            kept: None,
        }),
        Err(stop) => Err(stop),
    }
}

// What is told of a view: by its difference from one before, if there is more than one view.
fn check_one<S: BlockSource>(
    alloc: Global,
    src: &mut S,
    cp: &Checkpoint,
    volume: &Volume,
    view: &View,
    before: Option<KeptView>,
    ranges: &[NewRange],
    cover: &Cover,
    profile: Profile,
) -> Result<CheckedNext, Stop<TreeFault>>
    requires site { IsSiteFor (site_of cp.now) (S.bytes_len src.old) }
    requires cover { IsCoverOf ranges.now cover.now }
    ensures clear { (image : List ℕ) → S.bytes src.old ≡ Some image → IsKnownBefore profile image (site_of cp.now) volume.now ranges.now before → IfOk result (IsCheckedNext profile image (site_of cp.now) volume.now ranges.now view.now (extents_before before)) }
    ensures present { (image : List ℕ) → S.bytes src.old ≡ Some image → IsKnownBefore profile image (site_of cp.now) volume.now ranges.now before → IfErr result (Tells (IsTreeFault profile image (site_of cp.now) volume.now view.now ranges.now) (IsViewFeature image (site_of cp.now) volume.now view.now)) }
    ensures reads { (image : List ℕ) → S.bytes src.old ≡ Some image → IsKnownBefore profile image (site_of cp.now) volume.now ranges.now before → OnOk result (S.reads src.new ≤ S.reads src.old + view_reads image (site_of cp.now) volume.now view.now) }
    ensures cause { IsErrOf result ReadFault → Rose (S.faults src.old) (S.faults src.new) }
    ensures kept { IsKept S.bytes S.bytes_len S.faults src.old src.new }
{
    let site = cp.site();
    if volume.snaps.is_empty() {
        return check_alone(alloc, src, volume, view, ranges, &site, profile);
    }
    check_next(
        alloc, src, volume, view, before, ranges, cover, &site, profile,
    )
}

// Adds what is told of a view that has its rules.
fn add_view<S: BlockSource>(
    alloc: Global,
    src: &mut S,
    cp: &Checkpoint,
    volume: &Volume,
    view: &View,
    before: Option<KeptView>,
    ranges: &[NewRange],
    cover: &Cover,
    profile: Profile,
    out: &mut Gathered,
) -> Result<Added, Stop<Fault>>
    requires site { IsSiteFor (site_of cp.now) (S.bytes_len src.old) }
    requires cover { IsCoverOf ranges.now cover.now }
    ensures clear { (image : List ℕ) → S.bytes src.old ≡ Some image → IsKnownBefore profile image (site_of cp.now) volume.now ranges.now before → IsReady image cp.now volume.now → ranges.now ≡ spec.volume_ranges image (site_of cp.now) volume.now.head → OnOk result (AddsViews profile image cp.now volume.now.head (view.now ∷ []) out.old out.new) }
    ensures all { (image : List ℕ) → S.bytes src.old ≡ Some image → IsKnownBefore profile image (site_of cp.now) volume.now ranges.now before → IfOk result (λ added. AddExtents image (site_of cp.now) volume.now view.now (extents_before before) added.extents.items) }
    ensures passed { (image : List ℕ) → S.bytes src.old ≡ Some image → IsKnownBefore profile image (site_of cp.now) volume.now ranges.now before → IfOk result (λ added. IfSome added.passed (IsPassed profile image (site_of cp.now) volume.now ranges.now (view.now ∷ []))) }
    ensures known { (image : List ℕ) → S.bytes src.old ≡ Some image → IsKnownBefore profile image (site_of cp.now) volume.now ranges.now before → IfOk result (λ added. IfSome added.kept (IsKnown profile image (site_of cp.now) volume.now ranges.now view.now)) }
    ensures present { (image : List ℕ) → S.bytes src.old ≡ Some image → IsKnownBefore profile image (site_of cp.now) volume.now ranges.now before → IsReady image cp.now volume.now → ranges.now ≡ spec.volume_ranges image (site_of cp.now) volume.now.head → In view.now (views_of volume.now cp.now) → IfErr result (IsThere profile image) }
    ensures reads { (image : List ℕ) → S.bytes src.old ≡ Some image → IsKnownBefore profile image (site_of cp.now) volume.now ranges.now before → OnOk result (S.reads src.new ≤ S.reads src.old + view_reads image (site_of cp.now) volume.now view.now) }
    ensures cause { IsErrOf result ReadFault → Rose (S.faults src.old) (S.faults src.new) }
    ensures kept { IsKept S.bytes S.bytes_len S.faults src.old src.new }
{
    let next = match check_one(alloc, src, cp, volume, view, before, ranges, cover, profile) {
        Ok(next) => next,
        Err(stop) => return Err(stop_of(stop, ())),
    };
    let CheckedNext { checked, kept } = next;
    let CheckedView { tally, extents } = checked;
    let passed = passed_of(view, &tally);
    out.put_view(tally)?;
    Ok(Added {
        passed,
        extents,
        kept,
    })
}

// The block after the last one of an extent.
fn end_of(extent: FileExt, block_size: u32) -> u128
    requires { 0 < block_size }
    ensures value { result ≡ extent.block + stream.extent_blocks block_size extent }
    ensures hole { extent.block ≡ 0 → result < 2 ^ 64 }
{
    u128::from(extent.block) + u128::from(extent.blocks(block_size))
}

// Puts an extent after others, where its end is a number of 64 bits.
fn put_short(
    extents: &mut Vec<(u64, FileExt)>,
    extent: (u64, FileExt),
    block_size: u32,
) -> Result<(), AllocError>
    requires { 0 < block_size }
    ensures added { (stream.is_hole extent.1 ≡ false → extent.1.block + stream.extent_blocks block_size extent.1 < 2 ^ 64) → OnOk result (extents.new.items ≡ extents.old.items ++ extent ∷ []) }
    ensures short { AreShortExtents block_size extents.old.items → OnOk result (AreShortExtents block_size extents.new.items) }
{
    if end_of(extent.1, block_size) <= u128::from(u64::MAX) {
        extents.push(extent)?;
    }
    Ok(())
}

// The same for each of some extents.
fn put_all_short(
    extents: &mut Vec<(u64, FileExt)>,
    more: &[(u64, FileExt)],
    block_size: u32,
) -> Result<(), AllocError>
    requires { 0 < block_size }
    ensures added { AreShortOrHoles block_size more.now → OnOk result (extents.new.items ≡ extents.old.items ++ more.now) }
    ensures short { AreShortExtents block_size extents.old.items → OnOk result (AreShortExtents block_size extents.new.items) }
{
    'more: for extent in more {
        put_short(extents, *extent, block_size)?;
    }
    Ok(())
}

// Whether each of some extents ends at a number of 64 bits.
fn are_short(extents: &[(u64, FileExt)], block_size: u32) -> bool
    requires { 0 < block_size }
    ensures { IsTrue result ↔ AreShortExtents block_size extents.now }
{
    extents.iter().all(|extent| end_of(extent.1, block_size) <= u128::from(u64::MAX))
}

// The same for each of some extents that aren't needed further: where there are no others, their list is the one that is kept.
fn move_short(
    extents: &mut Vec<(u64, FileExt)>,
    more: Vec<(u64, FileExt)>,
    block_size: u32,
) -> Result<(), AllocError>
    requires { 0 < block_size }
    ensures added { AreShortOrHoles block_size more.items → OnOk result (extents.new.items ≡ extents.old.items ++ more.items) }
    ensures short { AreShortExtents block_size extents.old.items → OnOk result (AreShortExtents block_size extents.new.items) }
{
    if extents.is_empty() && are_short(&more, block_size) {
        *extents = more;
        return Ok(());
    }
    put_all_short(extents, &more, block_size)
}

// How many extents are kept before they are thinned.
const FIRST_LIMIT: usize = 1024;

// Leaves each extent once where there are more than a limit, and answers the next limit: twice as many as are left then, so that each is
// sorted a few times alone.
fn thin_past(extents: &mut Vec<(u64, FileExt)>, limit: usize) -> usize
    ensures { HaveSame extents.old.items extents.new.items }
{
    if extents.len() <= limit {
        return limit;
    }
    thin(extents);
    extents.len().saturating_mul(2).max(FIRST_LIMIT)
}

/// Adds what is told of all views of a volume, each of which has its rules, and gives their extents, each after its stream's id, in whatever
/// order: of an extent that many views have, few are kept. A view that has the tree of one of the last that passed, of which nothing was noted, isn't walked again; another one is tested by its difference from the
/// last that was tested and passed. None ends after block 2^64 - 1: those of a view that has its rules all end within
/// the container.
pub(crate) fn add_views<S: BlockSource>(
    alloc: Global,
    src: &mut S,
    cp: &Checkpoint,
    volume: &Volume,
    ranges: &[NewRange],
    profile: Profile,
    out: &mut Gathered,
) -> Result<Vec<(u64, FileExt)>, Stop<Fault>>
    requires site { IsSiteFor (site_of cp.now) (S.bytes_len src.old) }
    ensures clear { (image : List ℕ) → S.bytes src.old ≡ Some image → IsReady image cp.now volume.now → ranges.now ≡ spec.volume_ranges image (site_of cp.now) volume.now.head → OnOk result (AddsViews profile image cp.now volume.now.head (views_of volume.now cp.now) out.old out.new) }
    ensures all { (image : List ℕ) → S.bytes src.old ≡ Some image → IsReady image cp.now volume.now → ranges.now ≡ spec.volume_ranges image (site_of cp.now) volume.now.head → IfOk result (λ extents. HaveSame extents.items (spec.volume_extents image cp.now volume.now.head)) }
    ensures short { IfOk result (λ extents. AreShortExtents (site_of cp.now).block_size extents.items) }
    ensures present { (image : List ℕ) → S.bytes src.old ≡ Some image → IsReady image cp.now volume.now → ranges.now ≡ spec.volume_ranges image (site_of cp.now) volume.now.head → IfErr result (IsThere profile image) }
    ensures reads { (image : List ℕ) → S.bytes src.old ≡ Some image → OnOk result (S.reads src.new ≤ S.reads src.old + sum (map (view_reads image (site_of cp.now) volume.now) (views_of volume.now cp.now))) }
    ensures cause { IsErrOf result ReadFault → Rose (S.faults src.old) (S.faults src.new) }
    ensures kept { IsKept S.bytes S.bytes_len S.faults src.old src.new }
{
    let site = cp.site();
    let cover = Cover::of(alloc, ranges)?;
    let mut extents = Vec::new(alloc);
    let mut limit = FIRST_LIMIT;
    let mut passed = Vec::new(alloc);
    let mut known = None;
    let count = volume.snaps.len() + 1;
    'views: for place in 0..count {
        let view = view_at(volume, cp, place);
        if let Some(before) = again(volume, &passed, &view) {
            out.count_records(before.records);
            continue;
        }
        match add_view(
            alloc,
            src,
            cp,
            volume,
            &view,
            known.take(),
            ranges,
            &cover,
            profile,
            out,
        ) {
            Ok(added) => {
                let Added {
                    passed: next,
                    extents: more,
                    kept,
                } = added;
                move_short(&mut extents, more, site.block_size)?;
                limit = thin_past(&mut extents, limit);
                remember(&mut passed, next)?;
                known = kept;
            }
            Err(stop) => return Err(stop),
        }
    }
    Ok(extents)
}
