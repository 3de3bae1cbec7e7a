// The data of a volume: blocks of new ranges that no extent reaches, and counts that are wrong.
ghost use Rattle.std.specs.Prelude.{◌≡◌, ◌∷◌, ◌++◌, [], ℕ, List, true, pos, length, map, filter, if◌then◌else◌, OnOk, IfOk, IfErr, IsErrOf};
ghost use Rattle.std.specs.Ordering.{int_eq};
ghost use Rattle.obj_base.specs.BlockSize.{is_accepted};
ghost use Rattle.obj_base.specs.Stops.{Tells, NoFeature};
ghost use Rattle.obj_base.specs.declared.stop.Stop.TheVariants.{ReadFault};
ghost use Rattle.nx_ring.specs.Checkpoint.{site_of};
ghost use Rattle.fs_record.specs.declared.extents.FileExt as declared;
ghost use Rattle.ext_ref.specs.Left.{AreShort, AreShortExtents};
ghost use Rattle.ext_ref.specs.Scanned.{references_of};
ghost use Rattle.ext_ref.specs.Same.{HaveSame};
ghost use Rattle.ext_ref.specs.Unreached.{unreached_runs};
ghost use Rattle.view_rules.specs.declared.profile.Profile.TheVariants as profiles;
ghost use Rattle.apfs_check.specs.Volumes as spec;
ghost use Rattle.apfs_check.specs.Data.{is_miscounted};
ghost use Rattle.apfs_check.specs.Notes.{unreached_note};
ghost use Rattle.apfs_check.specs.Held.{unless_strict, AddsData};
ghost use Rattle.apfs_check.specs.Steps.{IsThere, IsReady};
ghost use Rattle.apfs_check.specs.DataSteps.{IsRunFault, IsCountFault, with_streams, wrong_note, wrong_in};

use crate::Fault;
use crate::gathered::Gathered;
use apfs_model::NoMemory;
use ext_ref::{NewRange, references, unreached_by_moved};
use fs_record::FileExt;
use nx_ring::Checkpoint;
use obj_base::Stop;
use std::alloc::{AllocError, Global};
use tree_rules::Profile;
use vol_view::{VolHead, Volume};

// Refuses the first of some runs of unreached blocks.
fn refuse_runs(slot: u32, runs: &[(u64, u64)]) -> Result<(), Fault>
    ensures none { OnOk result (runs.now ≡ []) }
    ensures first { IfErr result (IsRunFault slot runs.now) }
{
    if runs.is_empty() {
        return Ok(());
    }
    let run = runs[0];
    Err(Fault::DataUnreached {
        slot,
        block: run.0,
        length: run.1,
    })
}

// Keeps a note on each of some runs of unreached blocks.
fn note_runs(head: &VolHead, runs: &[(u64, u64)], out: &mut Gathered) -> Result<(), AllocError>
    ensures { OnOk result (out.new ≡ record out.old { unreached = out.old.unreached ++ map (unreached_note head.now) runs.now }) }
{
    out.reserve_unreached(runs.len())?;
    'runs: for run in runs {
        out.put_unreached(head.slot, *run)?;
    }
    Ok(())
}

// Under Strict there are no unreached blocks, and under Plain they are noted.
fn tell_runs(
    head: &VolHead,
    runs: &[(u64, u64)],
    profile: Profile,
    out: &mut Gathered,
) -> Result<(), Stop<Fault>>
    ensures none { profile ≡ profiles.Strict → OnOk result (runs.now ≡ []) }
    ensures added { OnOk result (out.new ≡ record out.old { unreached = out.old.unreached ++ unless_strict profile (map (unreached_note head.now) runs.now) }) }
    ensures present { IfErr result (Tells (λ fault. (profile ≡ profiles.Strict) × IsRunFault head.now.slot runs.now fault) NoFeature) }
    ensures no_read { IsErrOf result ReadFault → ⊥ }
{
    match profile {
        Profile::Plain => match note_runs(head, runs, out) {
            Ok(()) => Ok(()),
            Err(_) => Err(Stop::NoMemory),
        },
        Profile::Strict => match refuse_runs(head.slot, runs) {
            Ok(()) => Ok(()),
            Err(fault) => Err(Stop::Found(fault)),
        },
    }
}

// Puts a range with the number of its streams after others, where it stores another one.
fn put_wrong(
    wrong: &mut Vec<(NewRange, u64)>,
    range: NewRange,
    streams: u64,
) -> Result<(), AllocError>
    ensures { OnOk result (wrong.new.items ≡ wrong.old.items ++ (if int_eq range.count (pos streams) then [] else (range, streams) ∷ [])) }
{
    if i128::from(range.count) != i128::from(streams) {
        wrong.push((range, streams))?;
    }
    Ok(())
}

// The ranges that store another count than the number of their streams, each before that number.
fn miscounts(
    alloc: Global,
    ranges: &[NewRange],
    counts: &[u64],
) -> Result<Vec<(NewRange, u64)>, AllocError>
    requires { length counts.now ≡ length ranges.now }
    ensures { (block_size : ℕ) (extents : List (ℕ × declared.FileExt)) → counts.now ≡ references_of block_size ranges.now extents → IfOk result (λ wrong. wrong.items ≡ map (with_streams block_size extents) (filter (is_miscounted block_size extents) ranges.now)) }
{
    let mut wrong = Vec::new(alloc);
    'each: for i in 0..ranges.len() {
        put_wrong(&mut wrong, ranges[i], counts[i])?;
    }
    Ok(wrong)
}

// Refuses the first of some ranges whose counts are wrong.
fn refuse_counts(slot: u32, wrong: &[(NewRange, u64)]) -> Result<(), Fault>
    ensures none { OnOk result (wrong.now ≡ []) }
    ensures first { IfErr result (IsCountFault slot wrong.now) }
{
    if wrong.is_empty() {
        return Ok(());
    }
    let first = wrong[0];
    Err(Fault::DataCount {
        slot,
        block: first.0.first,
        stored: first.0.count,
        streams: first.1,
    })
}

// Keeps a note on each of some ranges whose counts are wrong.
fn note_counts(slot: u32, wrong: &[(NewRange, u64)], out: &mut Gathered) -> Result<(), AllocError>
    ensures { OnOk result (out.new ≡ record out.old { counts = out.old.counts ++ map (wrong_note slot) wrong.now }) }
{
    'wrong: for item in wrong {
        out.put_count(slot, item.0.first, item.0.count, item.1)?;
    }
    Ok(())
}

// Under Strict no count is wrong, and under Plain those that are are noted.
fn tell_counts(
    slot: u32,
    wrong: &[(NewRange, u64)],
    profile: Profile,
    out: &mut Gathered,
) -> Result<(), Stop<Fault>>
    ensures none { profile ≡ profiles.Strict → OnOk result (wrong.now ≡ []) }
    ensures added { OnOk result (out.new ≡ record out.old { counts = out.old.counts ++ unless_strict profile (map (wrong_note slot) wrong.now) }) }
    ensures present { IfErr result (Tells (λ fault. (profile ≡ profiles.Strict) × IsCountFault slot wrong.now fault) NoFeature) }
    ensures no_read { IsErrOf result ReadFault → ⊥ }
{
    match profile {
        Profile::Plain => match note_counts(slot, wrong, out) {
            Ok(()) => Ok(()),
            Err(_) => Err(Stop::NoMemory),
        },
        Profile::Strict => match refuse_counts(slot, wrong) {
            Ok(()) => Ok(()),
            Err(fault) => Err(Stop::Found(fault)),
        },
    }
}

// The new ranges of a volume without snapshots whose counts are wrong, each before the number of its streams; none of another volume.
fn wrong_of(
    alloc: Global,
    volume: &Volume,
    ranges: &[NewRange],
    extents: &[(u64, FileExt)],
    block_size: u32,
) -> Result<Vec<(NewRange, u64)>, NoMemory>
    requires { is_accepted block_size ≡ true }
    ensures { IfOk result (λ wrong. wrong.items ≡ wrong_in volume.now block_size ranges.now extents.now) }
{
    if !volume.snaps.is_empty() {
        return Ok(Vec::new(alloc));
    }
    let counts = references(alloc, ranges, extents, block_size)?;
    match miscounts(alloc, ranges, &counts) {
        Ok(wrong) => Ok(wrong),
        Err(_) => Err(NoMemory),
    }
}

/// Tells of a volume's data, by its new ranges and the extents of its views, which aren't needed further.
pub(crate) fn add_data(
    alloc: Global,
    cp: &Checkpoint,
    volume: &Volume,
    ranges: &[NewRange],
    extents: Vec<(u64, FileExt)>,
    profile: Profile,
    out: &mut Gathered,
) -> Result<(), Stop<Fault>>
    requires accepted { is_accepted (site_of cp.now).block_size ≡ true }
    requires short { AreShort ranges.now }
    requires extents { AreShortExtents (site_of cp.now).block_size extents.items }
    ensures clear { (image : List ℕ) → IsReady image cp.now volume.now → ranges.now ≡ spec.volume_ranges image (site_of cp.now) volume.now.head → HaveSame extents.items (spec.volume_extents image cp.now volume.now.head) → OnOk result (AddsData profile image cp.now volume.now.head out.old out.new) }
    ensures present { (image : List ℕ) → IsReady image cp.now volume.now → ranges.now ≡ spec.volume_ranges image (site_of cp.now) volume.now.head → HaveSame extents.items (spec.volume_extents image cp.now volume.now.head) → IfErr result (IsThere profile image) }
    ensures no_read { IsErrOf result ReadFault → ⊥ }
{
    let site = cp.site();
    // Looked for before any note on runs is kept, since both take memory.
    let wrong = wrong_of(alloc, volume, ranges, &extents, site.block_size)?;
    let runs = unreached_by_moved(alloc, ranges, extents, site.block_size)?;
    match tell_runs(&volume.head, &runs, profile, out) {
        Ok(()) => {}
        Err(stop) => return Err(stop),
    }
    match tell_counts(volume.head.slot, &wrong, profile, out) {
        Ok(()) => Ok(()),
        Err(stop) => Err(stop),
    }
}
