// The whole check of a container.
ghost use Rattle.std.specs.Prelude.{◌≡◌, ◌+◌, ◌-◌, ◌≤◌, ◌++◌, ℕ, List, [], Some, Ok, OnOk, IfOk, IfErr, IsErrOf, length, min};
ghost use Rattle.apfs_model.specs.Counts.{given, Rose};
ghost use Rattle.apfs_model.specs.Kept.{IsKept};
ghost use Rattle.obj_base.specs.Site.{IsSiteFor};
ghost use Rattle.obj_base.specs.Stops.{Tells, IsFree};
ghost use Rattle.obj_base.specs.declared.stop.Stop.TheVariants.{ReadFault};
ghost use Rattle.nx_block.specs.Super.{slots};
ghost use Rattle.nx_ring.specs.Checkpoint.{Seen, site_of};
ghost use Rattle.nx_ring.specs.Features.{container_features};
ghost use Rattle.nx_ring.specs.Newest.{newest_of};
ghost use Rattle.space_map.specs.Blocks.{manager_of};
ghost use Rattle.reach_rules.specs.Accounted.{IsAccounted};
ghost use Rattle.reach_rules.specs.Bound.{account_reads};
ghost use Rattle.reach_rules.specs.Tally.{IsTally};
ghost use Rattle.view_rules.specs.declared.profile.Profile as rules;
ghost use Rattle.apfs_check.specs.Notes.{skipped_notes};
ghost use Rattle.apfs_check.specs.Present.{IsPresent, IsFeature};
ghost use Rattle.apfs_check.specs.Reads.{newest_reads, check_reads};
ghost use Rattle.apfs_check.specs.Report.{IsChecked};
ghost use Rattle.apfs_check.specs.Steps.{IsThere, AreReady};
ghost use Rattle.apfs_check.specs.WellFormed.{IsWellFormed};

use crate::gathered::Gathered;
use crate::loading::volumes_of;
use crate::notes::skipped;
use crate::raising::stop_of;
use crate::volumes::add_volumes;
use crate::{Fault, Report};
use apfs_layout::container;
use blk_source::BlockSource;
use nx_ring::{Checkpoint, newest};
use obj_base::Stop;
use reach_sweep::{Tally, account};
use std::alloc::{AllocError, Global};
use tree_rules::Profile;
use vol_view::Volume;

// The newest checkpoint, whose superblock has no feature that is refused.
fn newest_checkpoint<S: BlockSource>(alloc: Global, src: &mut S) -> Result<Checkpoint, Stop<Fault>>
    ensures clear { (image : List ℕ) → S.bytes src.old ≡ Some image → IfOk result (λ seen. newest_of image ≡ Ok seen) }
    ensures plain { IfOk result (λ seen. container_features seen.nx ≡ []) }
    ensures present { (profile : rules.Profile) (image : List ℕ) → S.bytes src.old ≡ Some image → IfErr result (IsThere profile image) }
    ensures reads { (image : List ℕ) → S.bytes src.old ≡ Some image → S.reads src.new ≤ S.reads src.old + newest_reads image }
    ensures site { IfOk result (λ seen. IsSiteFor (site_of seen) (S.bytes_len src.old)) }
    ensures cause { IsErrOf result ReadFault → Rose (S.faults src.old) (S.faults src.new) }
    ensures kept { IsKept S.bytes S.bytes_len S.faults src.old src.new }
{
    match newest(alloc, src) {
        Ok(cp) => Ok(cp),
        Err(stop) => Err(stop_of(stop, ())),
    }
}

// The account of a container.
fn tally_of<S: BlockSource>(
    alloc: Global,
    src: &mut S,
    cp: &Checkpoint,
    volumes: &[Volume],
) -> Result<Tally, Stop<Fault>>
    requires site { IsSiteFor (site_of cp.now) (S.bytes_len src.old) }
    requires plain { container_features cp.now.nx ≡ [] }
    ensures clear { (image : List ℕ) → S.bytes src.old ≡ Some image → AreReady image cp.now volumes.now → OnOk result (IsAccounted image cp.now) }
    ensures tally { (image : List ℕ) → S.bytes src.old ≡ Some image → AreReady image cp.now volumes.now → IfOk result (λ tally. IsTally image cp.now tally.objects tally.owned) }
    ensures present { (profile : rules.Profile) (image : List ℕ) → S.bytes src.old ≡ Some image → AreReady image cp.now volumes.now → IfErr result (IsThere profile image) }
    ensures reads { (image : List ℕ) → S.bytes src.old ≡ Some image → AreReady image cp.now volumes.now → IfOk result (λ tally. (manager : List ℕ) → manager_of cp.now ≡ Some manager → S.reads src.new ≤ S.reads src.old + account_reads tally.objects manager) }
    ensures cause { IsErrOf result ReadFault → Rose (S.faults src.old) (S.faults src.new) }
    ensures kept { IsKept S.bytes S.bytes_len S.faults src.old src.new }
{
    match account(alloc, src, cp, volumes) {
        Ok(tally) => Ok(tally),
        Err(stop) => Err(stop_of(stop, cp.xid())),
    }
}

// What is told of a container whose volumes were found right. It has no more volumes than slots.
fn report(
    alloc: Global,
    cp: &Checkpoint,
    volumes: &[Volume],
    tally: Tally,
    gathered: Gathered,
) -> Result<Report, AllocError>
    ensures { IfOk result (λ report. report ≡ record { xid = cp.now.line.xid; volumes = min (length volumes.now) slots; views = given gathered.views; objects = tally.objects; records = given gathered.records; used = tally.owned; free = (site_of cp.now).blocks - tally.owned; notes = skipped_notes cp.now ++ (gathered.hashes ++ (gathered.unreached ++ (gathered.unnamed ++ gathered.counts))) }) }
{
    let views = gathered.views();
    let records = gathered.records();
    let notes = gathered.into_notes(skipped(alloc, cp)?)?;
    Ok(Report {
        xid: cp.xid(),
        volumes: volumes.len().min(container::SLOTS) as u32,
        views,
        tally,
        records,
        free: cp.site().blocks.saturating_sub(tally.owned()),
        notes,
    })
}

/// Whether a container is well-formed under a profile: what is told of it, or what is wrong with it. Its newest checkpoint comes
/// first, then its volumes, the account of its blocks, and each volume with its views and its data. A fault or a feature that is
/// named is there, and of one that is well-formed nothing is named. `reads`: on Ok at most `check_reads`, which counts objects, chunks, and
/// the nodes of each tree.
pub fn check<S: BlockSource>(
    alloc: Global,
    src: &mut S,
    profile: Profile,
) -> Result<Report, Stop<Fault>>
    ensures clear { (image : List ℕ) → S.bytes src.old ≡ Some image → IfOk result (IsChecked profile image) }
    ensures present { (image : List ℕ) → S.bytes src.old ≡ Some image → IfErr result (Tells (IsPresent profile image) (IsFeature image)) }
    ensures exact { (image : List ℕ) → S.bytes src.old ≡ Some image → IsWellFormed profile image → IfErr result IsFree }
    ensures reads { (image manager : List ℕ) (seen : Seen) → S.bytes src.old ≡ Some image → newest_of image ≡ Ok seen → manager_of seen ≡ Some manager → IfOk result (λ report. S.reads src.new ≤ S.reads src.old + check_reads image seen manager report.objects) }
    ensures cause { IsErrOf result ReadFault → Rose (S.faults src.old) (S.faults src.new) }
    ensures kept { IsKept S.bytes S.bytes_len S.faults src.old src.new }
{
    let cp = match newest_checkpoint(alloc, src) {
        Ok(cp) => cp,
        Err(stop) => return Err(stop),
    };
    let volumes = match volumes_of(alloc, src, &cp) {
        Ok(volumes) => volumes,
        Err(stop) => return Err(stop),
    };
    let tally = match tally_of(alloc, src, &cp, &volumes) {
        Ok(tally) => tally,
        Err(stop) => return Err(stop),
    };
    let mut gathered = Gathered::new(alloc);
    match add_volumes(alloc, src, &cp, &volumes, profile, &mut gathered) {
        Ok(()) => {}
        Err(stop) => return Err(stop),
    }
    match report(alloc, &cp, &volumes, tally, gathered) {
        Ok(report) => Ok(report),
        Err(_) => Err(Stop::NoMemory),
    }
}
