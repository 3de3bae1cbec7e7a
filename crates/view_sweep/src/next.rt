// How far the record goes by which an id is found.
ghost use Rattle.std.specs.Prelude.{◌≡◌, ℕ, ◌<◌, ◌≤◌, nat_lt, ◌+◌, Some, length, true, false, OnOk, IfOk, IsNone, IfSome, IsTrue};
ghost use Rattle.std.specs.List.Sorted.{IsPartitionPoint, IsNonDecreasingBy};
ghost use Rattle.omap_map.specs.Loading.{IsAscending};
ghost use Rattle.omap_map.specs.Search.{is_by};
ghost use Rattle.view_sweep.specs.Found.{looked, records_at};
ghost use Rattle.view_sweep.specs.Sets.{view_of, of_view};
ghost use Rattle.view_sweep.specs.Next.{AreNoneAfter, IsNext, AreAsOne, IsStretch, AreStretches, AreSoFar, xid_of};
ghost use Rattle.view_sweep.specs.Runs.{AreRising};

use crate::runs::{Run, holding};
use crate::wanted::{SweptView, Wanted};
use obj_base::Site;
use omap_map::OmapRecord;
use std::alloc::{AllocError, Global};
use vol_view::Volume;

// How many records don't come after an id and a transaction.
fn count_by(records: &[OmapRecord], oid: u64, xid: u64) -> usize
    requires { IsAscending records.now }
    ensures bound { result ≤ length records.now }
    ensures split { IsPartitionPoint (λ r. is_by oid xid r ≡ true) (λ r. is_by oid xid r ≡ false) records.now result }
{
    records.partition_point(
        |record: &OmapRecord| -> bool
            ensures { result ≡ is_by oid xid record.now }
        { record.oid < oid || (record.oid == oid && record.xid <= xid) },
    )
}

// The least transaction after `xid` of a record of `oid`.
fn next_xid(records: &[OmapRecord], oid: u64, xid: u64) -> Option<u64>
    requires { IsAscending records.now }
    ensures none { IsNone result → AreNoneAfter records.now oid xid }
    ensures some { IfSome result (IsNext records.now oid xid) }
{
    let by = count_by(records, oid, xid);
    if by == records.len() {
        return None;
    }
    let next = records[by];
    if next.oid != oid {
        return None;
    }
    Some(next.xid)
}

// Whether a view is of the volume of the one before it, and of its transaction or a later one.
fn follows(before: &SweptView, view: &SweptView) -> bool
    ensures one { IsTrue result → AreAsOne before.now view.now }
    ensures rises { IsTrue result → before.now.xid ≤ view.now.xid }
{
    before.volume == view.volume
        && before.map == view.map
        && before.hashed == view.hashed
        && before.xid <= view.xid
}

// Ends the stretch that began at a place, where the view at another one doesn't follow. What is answered is where the stretch of that view began.
fn go_on(
    views: &[SweptView],
    runs: &mut Vec<Run>,
    from: usize,
    place: usize,
) -> Result<usize, AllocError>
    requires place { place < length views.now }
    requires far { AreSoFar views.now runs.old.items from place }
    ensures { IfOk result (λ next. AreSoFar views.now runs.new.items next (place + 1)) }
{
    if follows(&views[place - 1], &views[place]) {
        return Ok(from);
    }
    runs.push(Run { from, end: place })?;
    Ok(place)
}

// Ends the last stretch.
fn end_last(views: &[SweptView], runs: &mut Vec<Run>, from: usize) -> Result<(), AllocError>
    requires { AreSoFar views.now runs.old.items from (length views.now) }
    ensures rising { OnOk result (AreRising runs.new.items) }
    ensures all { OnOk result (AreStretches views.now runs.new.items) }
{
    runs.push(Run {
        from,
        end: views.len(),
    })?;
    Ok(())
}

/// The runs of views that stand side by side, are of one volume, and come in the order of their transactions.
pub(crate) fn stretches(alloc: Global, views: &[SweptView]) -> Result<Vec<Run>, AllocError>
    ensures rising { IfOk result (λ runs. AreRising runs.items) }
    ensures all { IfOk result (λ runs. AreStretches views.now runs.items) }
{
    let mut runs = Vec::new(alloc);
    if views.is_empty() {
        return Ok(runs);
    }
    let mut from = 0;
    for place in 1..views.len() {
        from = go_on(views, &mut runs, from, place)?;
    }
    end_last(views, &mut runs, from)?;
    Ok(runs)
}

// The end of the stretch of the view at a place.
fn stretch_end(views: &[SweptView], stretches: &[Run], low: usize) -> usize
    requires low { low < length views.now }
    requires rising { AreRising stretches.now }
    requires all { AreStretches views.now stretches.now }
    ensures more { low < result }
    ensures inside { result ≤ length views.now }
    ensures stretch { IsStretch views.now low result }
{
    match holding(stretches, low) {
        Some(run) => run.end,
        None => low + 1,
    }
}

// How many of some views, whose transactions don't fall, are of a transaction before one.
fn count_before(views: &[SweptView], xid: u64) -> usize
    requires { IsNonDecreasingBy xid_of views.now }
    ensures bound { result ≤ length views.now }
    ensures split { IsPartitionPoint (λ v. nat_lt v.xid xid ≡ true) (λ v. nat_lt v.xid xid ≡ false) views.now result }
{
    views.partition_point(
        |view: &SweptView| -> bool
            ensures { result ≡ nat_lt view.now.xid xid }
        { view.xid < xid },
    )
}

// The end of the views of a stretch, from a place on, that are of a transaction before one.
fn end_before(views: &[SweptView], low: usize, end: usize, xid: u64) -> usize
    requires low { low < end }
    requires end { end ≤ length views.now }
    requires stretch { IsStretch views.now low end }
    requires first { (view_of views.now low).xid < xid }
    ensures more { low < result }
    ensures inside { result ≤ end }
    ensures before { (p : ℕ) → low ≤ p → p < result → (view_of views.now p).xid < xid }
{
    low + count_before(&views[low..end], xid)
}

// The records of the map of a volume.
fn records_of(volumes: &[Volume], place: usize) -> &[OmapRecord]
    requires { place < length volumes.now }
    ensures all { result.now ≡ records_at volumes.now place }
    ensures ascending { IsAscending result.now }
{
    let volume = &volumes[place];
    volume.omap.records()
}

// The end of the views of a stretch, from a place on, that are of a transaction before one, where there is one.
fn end_from(views: &[SweptView], stretches: &[Run], low: usize, next: Option<u64>) -> usize
    requires low { low < length views.now }
    requires rising { AreRising stretches.now }
    requires all { AreStretches views.now stretches.now }
    requires first { IfSome next (λ n. (view_of views.now low).xid < n) }
    ensures more { low < result }
    ensures inside { result ≤ length views.now }
    ensures stretch { IsStretch views.now low result }
    ensures before { (p : ℕ) → low ≤ p → p < result → IfSome next (λ n. (view_of views.now p).xid < n) }
{
    let end = stretch_end(views, stretches, low);
    match next {
        Some(xid) => end_before(views, low, end, xid),
        None => end,
    }
}

// Whether a view is of the volume of another one, at a transaction from that of a record up to the next one.
fn is_as_one(first: &SweptView, view: &SweptView, since: u64, next: Option<u64>) -> bool
    ensures one { IsTrue result → AreAsOne first.now view.now }
    ensures since { IsTrue result → since ≤ view.now.xid }
    ensures before { IsTrue result → IfSome next (λ n. view.now.xid < n) }
{
    let is_before = match next {
        Some(next) => view.xid < next,
        None => true,
    };
    is_before
        && view.volume == first.volume
        && view.map == first.map
        && view.hashed == first.hashed
        && since <= view.xid
}

/// The end of the views from a place on in which an object is found by one record, which is that of the first of them.
pub(crate) fn until(
    volumes: &[Volume],
    site: &Site,
    views: &[SweptView],
    stretches: &[Run],
    low: usize,
    wanted: &Wanted,
    mapping: &OmapRecord,
) -> usize
    requires rising { AreRising stretches.now }
    requires all { AreStretches views.now stretches.now }
    requires low { low < length views.now }
    requires first { wanted.now.view ≡ view_of views.now low }
    requires below { wanted.now.view.volume < length volumes.now }
    requires found { looked volumes.now site.now wanted.now ≡ Some mapping.now }
    ensures more { low < result }
    ensures inside { result ≤ length views.now }
    ensures one { (p : ℕ) → low ≤ p → p < result → AreAsOne wanted.now.view (view_of views.now p) }
    ensures found { (p : ℕ) → low ≤ p → p < result → looked volumes.now site.now (of_view wanted.now (view_of views.now p)) ≡ Some mapping.now }
{
    let first = wanted.view;
    let records = records_of(volumes, first.volume);
    let next = next_xid(records, wanted.oid, first.xid);
    let mut high = end_from(views, stretches, low, next);
    while high < views.len() && is_as_one(&first, &views[high], mapping.xid, next) {
        high = end_from(views, stretches, high, next);
    }
    high
}
