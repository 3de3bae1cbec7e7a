// A view after another one of its volume: whether it meets its rules, by what it has more and less, where that shows it.
ghost use Rattle.std.specs.Prelude.{◌≡◌, ◌+◌, ◌*◌, ◌≤◌, ◌<◌, ℕ, List, [], Some, length, IfOk, IfErr, IfSome, IsErrOf, IsTrue, OnOk};
ghost use Rattle.apfs_model.specs.Counts.{Rose};
ghost use Rattle.apfs_model.specs.Kept.{IsKept};
ghost use Rattle.obj_base.specs.Site.{IsSiteFor};
ghost use Rattle.obj_base.specs.Stops.{IsFree, Tells};
ghost use Rattle.obj_base.specs.declared.stop.Stop.TheVariants.{ReadFault};
ghost use Rattle.ext_ref.specs.Spans.{IsCoverOf};
ghost use Rattle.fs_record.specs.declared.extents.FileExt.{FileExt};
ghost use Rattle.vol_view.specs.Volumes.{Loaded};
ghost use Rattle.vol_view.specs.Views.{IsViewFeature};
ghost use Rattle.vol_view.specs.Placed.{view_nodes};
ghost use Rattle.view_rules.specs.Facts as facts;
ghost use Rattle.view_rules.specs.Listed.{extents_with_ids};
ghost use Rattle.view_rules.specs.Rules as rules;
ghost use Rattle.rule_changes.specs.Changes.{AreWoven, IsChange};
ghost use Rattle.vol_view.specs.declared.volume.View as declared;
ghost use Rattle.view_change.specs.Shared.{ShareLeaves};
ghost use Rattle.view_change.specs.Kept.{facts_of, leaves_of, records_kept};
ghost use Rattle.view_change.specs.Changing.{HasDifference};
ghost use Rattle.view_change.specs.Difference.{view_places, view_leaves, new_nodes, IsKeptOf};
ghost use Rattle.tree_rules.specs.Known as spec;

use crate::gathered::tally_of;
use crate::{CheckedView, Profile, ViewTally, check_with_extents};
use blk_source::{BlockSource, NoMemory};
use ext_ref::{Cover, NewRange};
use obj_base::{Site, Stop};
use plain_change::{is_plain, is_silent};
use rule_breaks::extents::extents_with_ids;
use rule_breaks::faults::Asked;
use rule_index::Index;
use std::alloc::Global;
use view_change::{Change, Changed, KeptView, are_none, difference, keep};
use view_facts::Facts;
use view_rules::TreeFault;
use vol_view::{View, Volume};

/// What is told of a view and its extents, those alone that have come since the view before where it was tested by its difference; and what is kept of it, where it has its rules and no notes.
#[derive(Drop)]
pub struct CheckedNext {
    pub checked: CheckedView,
    pub kept: Option<KeptView>,
}

// Why a walk for a difference stops: a failed read, or want of memory.
fn raise(stop: Stop<()>) -> Stop<TreeFault>
    requires { IsFree stop }
    ensures free { IsFree result }
    ensures read { result ≡ ReadFault → stop ≡ ReadFault }
{
    match stop {
        Stop::Found(()) => unreachable!(),
        Stop::Unsupported {
            feature: _,
            block: _,
        } => unreachable!(),
        Stop::ReadFault => Stop::ReadFault,
        Stop::NoMemory => Stop::NoMemory,
    }
}

// Whether it shows that indexed facts are right, by how they differ from facts that are.
fn are_shown_right(
    alloc: Global,
    asked: &Asked<'_>,
    cover: &Cover,
    index: &Index<'_>,
    gone: &Facts,
    come: &Facts,
) -> Result<bool, NoMemory>
    requires size { 0 < asked.now.site.now.block_size }
    requires cover { IsCoverOf asked.now.ranges.now cover.now }
    ensures { IfOk result (λ right. IsTrue right → (before same : facts.Facts) → spec.AreRight asked.now.profile asked.now.site.now asked.now.ranges.now before → IsChange before index.now.facts.now gone.now come.now same → spec.AreRight asked.now.profile asked.now.site.now asked.now.ranges.now index.now.facts.now) }
{
    if !is_plain(alloc, asked, cover, index, gone, come)? {
        return Ok(false);
    }
    is_silent(alloc, index, gone, come)
}

// Whether it shows that facts are right, by how they differ from facts that are.
fn are_right_still(
    alloc: Global,
    asked: &Asked<'_>,
    cover: &Cover,
    after: &KeptView,
    gone: &Facts,
    come: &Facts,
) -> Result<bool, NoMemory>
    requires size { 0 < asked.now.site.now.block_size }
    requires cover { IsCoverOf asked.now.ranges.now cover.now }
    ensures { IfOk result (λ right. IsTrue right → (before same : facts.Facts) → spec.AreRight asked.now.profile asked.now.site.now asked.now.ranges.now before → (facts_of after.now).names ≡ before.names → AreWoven before same gone.now → AreWoven (facts_of after.now) same come.now → spec.AreRight asked.now.profile asked.now.site.now asked.now.ranges.now (facts_of after.now)) }
{
    if are_none(gone) && are_none(come) {
        return Ok(true);
    }
    if !after.is_in_order() {
        return Ok(false);
    }
    let index = Index::after(alloc, after.facts(), gone, come)?;
    are_shown_right(alloc, asked, cover, &index, gone, come)
}

// A view of which all facts are kept, tested whole.
fn check_kept(
    alloc: Global,
    asked: &Asked<'_>,
    kept: KeptView,
) -> Result<CheckedNext, Stop<TreeFault>>
    requires size { 0 < asked.now.site.now.block_size }
    ensures clear { (image : List ℕ) (volume : Loaded) (before : List (ℕ × FileExt)) → IsKeptOf image asked.now.site.now volume asked.now.view.now kept → IfOk result (spec.IsCheckedNext asked.now.profile image asked.now.site.now volume asked.now.ranges.now asked.now.view.now before) }
    ensures present { (image : List ℕ) (volume : Loaded) → IsKeptOf image asked.now.site.now volume asked.now.view.now kept → IfErr result (Tells (rules.IsTreeFault asked.now.profile image asked.now.site.now volume asked.now.view.now asked.now.ranges.now) (IsViewFeature image asked.now.site.now volume asked.now.view.now)) }
    ensures no_read { IsErrOf result ReadFault → ⊥ }
{
    let tally = match tally_of(alloc, asked, kept.facts(), kept.records()) {
        Ok(tally) => tally,
        Err(stop) => return Err(stop),
    };
    let extents = extents_with_ids(alloc, kept.facts())?;
    let is_right = tally.notes.is_empty() && kept.is_in_order();
    let checked = CheckedView { tally, extents };
    let kept = if is_right { Some(kept) } else { None };
    Ok(CheckedNext { checked, kept })
}

// A view that has its rules and no notes, as what has come since the view before shows.
fn checked_by(alloc: Global, after: KeptView, come: &Facts) -> Result<CheckedNext, NoMemory>
    ensures records { IfOk result (λ next. next.checked.tally.records ≡ records_kept after) }
    ensures notes { IfOk result (λ next. next.checked.tally.notes.items ≡ []) }
    ensures extents { IfOk result (λ next. next.checked.extents.items ≡ extents_with_ids come.now) }
    ensures kept { IfOk result (λ next. next.kept ≡ Some after) }
{
    let extents = extents_with_ids(alloc, come)?;
    let tally = ViewTally {
        records: after.records(),
        notes: Vec::new(alloc),
    };
    let checked = CheckedView { tally, extents };
    Ok(CheckedNext {
        checked,
        kept: Some(after),
    })
}

// A view by its difference from a view before, or, where this doesn't show it, whole.
fn check_followed(
    alloc: Global,
    asked: &Asked<'_>,
    cover: &Cover,
    after: KeptView,
    change: &Change,
) -> Result<CheckedNext, Stop<TreeFault>>
    requires size { 0 < asked.now.site.now.block_size }
    requires cover { IsCoverOf asked.now.ranges.now cover.now }
    ensures clear { (image : List ℕ) (volume : Loaded) (before : facts.Facts) → IsKeptOf image asked.now.site.now volume asked.now.view.now after → spec.AreRight asked.now.profile asked.now.site.now asked.now.ranges.now before → HasDifference before (facts_of after) change.now → IfOk result (spec.IsCheckedNext asked.now.profile image asked.now.site.now volume asked.now.ranges.now asked.now.view.now (extents_with_ids before)) }
    ensures present { (image : List ℕ) (volume : Loaded) → IsKeptOf image asked.now.site.now volume asked.now.view.now after → IfErr result (Tells (rules.IsTreeFault asked.now.profile image asked.now.site.now volume asked.now.view.now asked.now.ranges.now) (IsViewFeature image asked.now.site.now volume asked.now.view.now)) }
    ensures no_read { IsErrOf result ReadFault → ⊥ }
{
    if are_right_still(alloc, asked, cover, &after, &change.gone, &change.come)? {
        return Ok(checked_by(alloc, after, &change.come)?);
    }
    match check_kept(alloc, asked, after) {
        Ok(next) => Ok(next),
        Err(stop) => Err(stop),
    }
}

// A view by its difference from a view before, where that was followed, and otherwise whole.
fn check_changed(
    alloc: Global,
    asked: &Asked<'_>,
    cover: &Cover,
    changed: Changed,
) -> Result<CheckedNext, Stop<TreeFault>>
    requires size { 0 < asked.now.site.now.block_size }
    requires cover { IsCoverOf asked.now.ranges.now cover.now }
    ensures clear { (image : List ℕ) (volume : Loaded) (before : facts.Facts) → IsKeptOf image asked.now.site.now volume asked.now.view.now changed.after → spec.AreRight asked.now.profile asked.now.site.now asked.now.ranges.now before → IfSome changed.change (HasDifference before (facts_of changed.after)) → IfOk result (spec.IsCheckedNext asked.now.profile image asked.now.site.now volume asked.now.ranges.now asked.now.view.now (extents_with_ids before)) }
    ensures present { (image : List ℕ) (volume : Loaded) → IsKeptOf image asked.now.site.now volume asked.now.view.now changed.after → IfErr result (Tells (rules.IsTreeFault asked.now.profile image asked.now.site.now volume asked.now.view.now asked.now.ranges.now) (IsViewFeature image asked.now.site.now volume asked.now.view.now)) }
    ensures no_read { IsErrOf result ReadFault → ⊥ }
{
    let Changed { after, change } = changed;
    let Some(change) = change else {
        return check_kept(alloc, asked, after);
    };
    check_followed(alloc, asked, cover, after, &change)
}

// What is told of a view after one that is known; None where no difference is found.
fn check_after<S: BlockSource>(
    alloc: Global,
    src: &mut S,
    volume: &Volume,
    asked: &Asked<'_>,
    cover: &Cover,
    before: KeptView,
) -> Result<Option<CheckedNext>, Stop<TreeFault>>
    requires site { IsSiteFor asked.now.site.now (S.bytes_len src.old) }
    requires cover { IsCoverOf asked.now.ranges.now cover.now }
    ensures clear { (image : List ℕ) (earlier : declared.View) → S.bytes src.old ≡ Some image → spec.IsKnown asked.now.profile image asked.now.site.now volume.now asked.now.ranges.now earlier before → IfOk result (λ found. IfSome found (spec.IsCheckedNext asked.now.profile image asked.now.site.now volume.now asked.now.ranges.now asked.now.view.now (extents_with_ids (facts_of before)))) }
    ensures present { (image : List ℕ) (earlier : declared.View) → S.bytes src.old ≡ Some image → spec.IsKnown asked.now.profile image asked.now.site.now volume.now asked.now.ranges.now earlier before → IfErr result (Tells (rules.IsTreeFault asked.now.profile image asked.now.site.now volume.now asked.now.view.now asked.now.ranges.now) (IsViewFeature image asked.now.site.now volume.now asked.now.view.now)) }
    ensures reads_met { (image : List ℕ) → S.bytes src.old ≡ Some image → S.reads src.new ≤ S.reads src.old + length (view_places image asked.now.site.now volume.now asked.now.view.now) }
    ensures reads_new { (image : List ℕ) → S.bytes src.old ≡ Some image → ShareLeaves (leaves_of before) (view_leaves image asked.now.site.now volume.now asked.now.view.now) → IfOk result (λ found. IfSome found (λ next. S.reads src.new ≤ S.reads src.old + new_nodes image asked.now.site.now volume.now asked.now.view.now (leaves_of before))) }
    ensures cause { IsErrOf result ReadFault → Rose (S.faults src.old) (S.faults src.new) }
    ensures kept { IsKept S.bytes S.bytes_len S.faults src.old src.new }
{
    let changed = match difference(alloc, src, volume, asked.view, asked.site, before) {
        Ok(Some(changed)) => changed,
        Ok(None) => return Ok(None),
        Err(stop) => return Err(raise(stop)),
    };
    match check_changed(alloc, asked, cover, changed) {
        Ok(next) => Ok(Some(next)),
        Err(stop) => Err(stop),
    }
}

// What is told of a view that comes after none; None where what is kept of it isn't found.
fn check_first<S: BlockSource>(
    alloc: Global,
    src: &mut S,
    volume: &Volume,
    asked: &Asked<'_>,
) -> Result<Option<CheckedNext>, Stop<TreeFault>>
    requires site { IsSiteFor asked.now.site.now (S.bytes_len src.old) }
    ensures clear { (image : List ℕ) → S.bytes src.old ≡ Some image → IfOk result (λ found. IfSome found (spec.IsCheckedNext asked.now.profile image asked.now.site.now volume.now asked.now.ranges.now asked.now.view.now [])) }
    ensures present { (image : List ℕ) → S.bytes src.old ≡ Some image → IfErr result (Tells (rules.IsTreeFault asked.now.profile image asked.now.site.now volume.now asked.now.view.now asked.now.ranges.now) (IsViewFeature image asked.now.site.now volume.now asked.now.view.now)) }
    ensures reads_met { (image : List ℕ) → S.bytes src.old ≡ Some image → S.reads src.new ≤ S.reads src.old + length (view_places image asked.now.site.now volume.now asked.now.view.now) }
    ensures cause { IsErrOf result ReadFault → Rose (S.faults src.old) (S.faults src.new) }
    ensures kept { IsKept S.bytes S.bytes_len S.faults src.old src.new }
{
    let kept = match keep(alloc, src, volume, asked.view, asked.site) {
        Ok(Some(kept)) => kept,
        Ok(None) => return Ok(None),
        Err(stop) => return Err(raise(stop)),
    };
    match check_kept(alloc, asked, kept) {
        Ok(next) => Ok(Some(next)),
        Err(stop) => Err(stop),
    }
}

// What is told of a view, by what is kept of one before, if it is; None where that isn't found.
fn check_by<S: BlockSource>(
    alloc: Global,
    src: &mut S,
    volume: &Volume,
    asked: &Asked<'_>,
    cover: &Cover,
    before: Option<KeptView>,
) -> Result<Option<CheckedNext>, Stop<TreeFault>>
    requires site { IsSiteFor asked.now.site.now (S.bytes_len src.old) }
    requires cover { IsCoverOf asked.now.ranges.now cover.now }
    ensures clear { (image : List ℕ) → S.bytes src.old ≡ Some image → spec.IsKnownBefore asked.now.profile image asked.now.site.now volume.now asked.now.ranges.now before → IfOk result (λ found. IfSome found (spec.IsCheckedNext asked.now.profile image asked.now.site.now volume.now asked.now.ranges.now asked.now.view.now (spec.extents_before before))) }
    ensures present { (image : List ℕ) → S.bytes src.old ≡ Some image → spec.IsKnownBefore asked.now.profile image asked.now.site.now volume.now asked.now.ranges.now before → IfErr result (Tells (rules.IsTreeFault asked.now.profile image asked.now.site.now volume.now asked.now.view.now asked.now.ranges.now) (IsViewFeature image asked.now.site.now volume.now asked.now.view.now)) }
    ensures reads_met { (image : List ℕ) → S.bytes src.old ≡ Some image → S.reads src.new ≤ S.reads src.old + length (view_places image asked.now.site.now volume.now asked.now.view.now) }
    ensures reads_new { (image : List ℕ) (kept : spec.KnownView) → S.bytes src.old ≡ Some image → before ≡ Some kept → ShareLeaves (leaves_of kept) (view_leaves image asked.now.site.now volume.now asked.now.view.now) → IfOk result (λ found. IfSome found (λ next. S.reads src.new ≤ S.reads src.old + new_nodes image asked.now.site.now volume.now asked.now.view.now (leaves_of kept))) }
    ensures cause { IsErrOf result ReadFault → Rose (S.faults src.old) (S.faults src.new) }
    ensures kept { IsKept S.bytes S.bytes_len S.faults src.old src.new }
{
    match before {
        Some(before) => match check_after(alloc, src, volume, asked, cover, before) {
            Ok(found) => Ok(found),
            Err(stop) => Err(stop),
        },
        None => match check_first(alloc, src, volume, asked) {
            Ok(found) => Ok(found),
            Err(stop) => Err(stop),
        },
    }
}

/// What `check_with_extents` answers of a view, and what is kept of it for the next view of its volume, where it has its rules and no notes. Where a view before is known and shares half of the leaves at least, this one is
/// tested by what it has more and less, if that shows that it has its rules; then `extents` are those that have come. `before` is what an earlier call kept of another view of the volume, under the same ranges and profile, and
/// `cover` is that of the ranges. `reads`: on Ok at most two for each node of the view's tree. `reads_new`: where something is kept of the view, and it shares leaves with the one before (`ShareLeaves`), at most one for each
/// node above its leaves, and for each leaf that the one before hasn't.
pub fn check_next<S: BlockSource>(
    alloc: Global,
    src: &mut S,
    volume: &Volume,
    view: &View,
    before: Option<KeptView>,
    ranges: &[NewRange],
    cover: &Cover,
    site: &Site,
    profile: Profile,
) -> Result<CheckedNext, Stop<TreeFault>>
    requires site { IsSiteFor site.now (S.bytes_len src.old) }
    requires cover { IsCoverOf ranges.now cover.now }
    ensures clear { (image : List ℕ) → S.bytes src.old ≡ Some image → spec.IsKnownBefore profile image site.now volume.now ranges.now before → IfOk result (spec.IsCheckedNext profile image site.now volume.now ranges.now view.now (spec.extents_before before)) }
    ensures present { (image : List ℕ) → S.bytes src.old ≡ Some image → spec.IsKnownBefore profile image site.now volume.now ranges.now before → IfErr result (Tells (rules.IsTreeFault profile image site.now volume.now view.now ranges.now) (IsViewFeature image site.now volume.now view.now)) }
    ensures reads { (image : List ℕ) → S.bytes src.old ≡ Some image → spec.IsKnownBefore profile image site.now volume.now ranges.now before → OnOk result (S.reads src.new ≤ S.reads src.old + 2 * length (view_nodes image site.now volume.now view.now)) }
    ensures reads_new { (image : List ℕ) (earlier : declared.View) (kept : spec.KnownView) → S.bytes src.old ≡ Some image → before ≡ Some kept → spec.IsKnown profile image site.now volume.now ranges.now earlier kept → ShareLeaves (view_leaves image site.now volume.now earlier) (view_leaves image site.now volume.now view.now) → IfOk result (λ next. IfSome next.kept (λ known. S.reads src.new ≤ S.reads src.old + new_nodes image site.now volume.now view.now (view_leaves image site.now volume.now earlier))) }
    ensures cause { IsErrOf result ReadFault → Rose (S.faults src.old) (S.faults src.new) }
    ensures kept { IsKept S.bytes S.bytes_len S.faults src.old src.new }
{
    let asked = Asked {
        view,
        site,
        ranges,
        profile,
    };
    match check_by(alloc, src, volume, &asked, cover, before) {
        Ok(Some(next)) => return Ok(next),
        Ok(None) => {}
        Err(stop) => return Err(stop),
    }
    match check_with_extents(alloc, src, volume, view, ranges, site, profile) {
        Ok(checked) => Ok(CheckedNext {
            checked,
            kept: None,
        }),
        Err(stop) => Err(stop),
    }
}
