// The command `usage`.
ghost use Rattle.std.specs.Prelude.{◌≡◌, ◌++◌, [], ℕ, List, Some, IfOk, OnOk};
ghost use Rattle.std.specs.List.{flat_map, zip};
ghost use Rattle.std.specs.String.{string_bytes};
ghost use Rattle.apfs_model.specs.Kept.{IsKept};
ghost use Rattle.obj_base.specs.Site.{IsSiteFor};
ghost use Rattle.nx_ring.specs.Checkpoint.{site_of};
ghost use Rattle.view_rules.specs.declared.profile.Profile.TheVariants.{Plain};
ghost use Rattle.apfs_check.specs.WellFormed.{IsWellFormed};
ghost use Rattle.use_report.specs.Numbers.{told_of};
ghost use Rattle.cmd_texts.specs.Commands.Usage.{live_text, past_text, usage_text};
ghost use Rattle.cmd_texts.specs.Commands.Usage as texts;
ghost use Rattle.cmd_texts.specs.Handed.{looked};
ghost use Rattle.cmd_texts.specs.Meant.{IsMeantVolume};
ghost use Rattle.cmd_texts.specs.Ended.{HasEnded};
ghost use Rattle.cmd_texts.specs.Seen.{stopped_counting};
ghost use Rattle.cmd_lines.specs.Words as asked;
ghost use Rattle.cmd_lines.specs.Written.{sunk};
ghost use Rattle.cmd_lines.specs.Putting.{IsPut};

use crate::meant::reach;
use crate::put::put;
use blk_source::{BlockSource, Sink};
use cmd_lines::{Named, Stopped};
use fs_name::push_shown;
use nx_ring::Checkpoint;
use obj_base::Stop;
use std::alloc::{AllocError, Global};
use use_report::{Usage, UseFault, ViewUse, usage};
use vol_view::{Snapshot, Volume};

// The numbers of a view.
fn numbers_line(alloc: Global, numbers: ViewUse) -> Result<String, AllocError>
    ensures { IfOk result (λ line. string_bytes line ≡ texts.numbers_text numbers) }
{
    let held = numbers.held;
    let only = numbers.only;
    format!(in alloc; " held {held} only {only}\n")
}

// Adds the line of the live view.
fn push_live(alloc: Global, text: &mut Vec<u8>, numbers: ViewUse) -> Result<(), AllocError>
    ensures { OnOk result (text.new.items ≡ text.old.items ++ live_text numbers) }
{
    text.extend_from_slice(b"live")?;
    text.extend_from_slice(numbers_line(alloc, numbers)?.as_bytes())
}

// Adds the line of a snapshot.
fn push_past(
    alloc: Global,
    text: &mut Vec<u8>,
    snapshot: &Snapshot,
    numbers: ViewUse,
) -> Result<(), AllocError>
    ensures { OnOk result (text.new.items ≡ text.old.items ++ past_text (snapshot.now, numbers)) }
{
    let xid = snapshot.xid;
    text.extend_from_slice(format!(in alloc; "{xid} ")?.as_bytes())?;
    push_shown(text, snapshot.name.as_slice())?;
    text.extend_from_slice(numbers_line(alloc, numbers)?.as_bytes())
}

// Adds a line for each snapshot.
fn push_pasts(
    alloc: Global,
    text: &mut Vec<u8>,
    snapshots: &[Snapshot],
    pasts: &[ViewUse],
) -> Result<(), AllocError>
    ensures { OnOk result (text.new.items ≡ text.old.items ++ flat_map past_text (zip snapshots.now pasts.now)) }
{
    'pasts: for (snapshot, numbers) in snapshots.iter().zip(pasts) {
        push_past(alloc, text, snapshot, *numbers)?;
    }
    Ok(())
}

// A line for the live view, then one for each snapshot.
fn views_text(
    alloc: Global,
    snapshots: &[Snapshot],
    views: &[ViewUse],
) -> Result<Vec<u8>, AllocError>
    ensures { IfOk result (λ text. text.items ≡ texts.views_text snapshots.now views.now) }
{
    let mut text = Vec::new(alloc);
    if let [live, pasts @ ..] = views {
        push_live(alloc, &mut text, *live)?;
        push_pasts(alloc, &mut text, snapshots, pasts)?;
    }
    Ok(text)
}

// How many blocks some view holds.
fn all_line(alloc: Global, all: u64) -> Result<String, AllocError>
    ensures { IfOk result (λ line. string_bytes line ≡ texts.all_text all) }
{
    format!(in alloc; "all {all}\n")
}

// All lines.
fn text(alloc: Global, snapshots: &[Snapshot], usage: &Usage) -> Result<Vec<u8>, AllocError>
    ensures { IfOk result (λ text. text.items ≡ usage_text snapshots.now (told_of usage.now)) }
{
    let mut text = views_text(alloc, snapshots, usage.views.as_slice())?;
    text.extend_from_slice(all_line(alloc, usage.all)?.as_bytes())?;
    Ok(text)
}

// Puts all lines.
fn put_usage<W: Sink>(
    alloc: Global,
    volume: &Volume,
    usage: &Usage,
    out: &mut W,
) -> Result<(), Stopped>
    ensures { IsPut (usage_text volume.now.snaps (told_of usage.now)) result (sunk W.contents W.faults out.old out.new) }
{
    let text = text(alloc, volume.snaps.as_slice(), usage)?;
    put(text.as_slice(), out)
}

// Why the run stops, where the blocks of the views of a volume can't be counted.
fn stopped_in(volume: &Volume, stop: Stop<UseFault>) -> Stopped
    ensures { result ≡ stopped_counting volume.now.head.slot stop }
{
    let slot = volume.head.slot;
    match stop {
        Stop::Found(
            UseFault::Walk { xid, .. } | UseFault::Value { xid, .. } | UseFault::Outside { xid },
        ) => Stopped::Faulty(Named::InUsage { slot, xid }),
        Stop::Unsupported { feature, block } => Stopped::Refused { feature, block },
        Stop::ReadFault => Stopped::ReadFailed,
        Stop::NoMemory => Stopped::OutOfMemory,
    }
}

// Writes how many blocks each view of a volume keeps from being freed, which is the one that is meant.
fn write_of<S: BlockSource, W: Sink>(
    alloc: Global,
    named: Option<u8>,
    src: &mut S,
    checkpoint: &Checkpoint,
    volume: &Volume,
    out: &mut W,
) -> Result<(), Stopped>
    requires site { IsSiteFor (site_of checkpoint.now) (S.bytes_len src.old) }
    requires clean { (image : List ℕ) → S.bytes src.old ≡ Some image → IsWellFormed Plain image }
    requires meant { (image : List ℕ) → S.bytes src.old ≡ Some image → IsMeantVolume image named checkpoint.now volume.now.head volume.now }
    ensures answer { HasEnded (asked.Usage named) (looked S.bytes S.faults src.old src.new) result (sunk W.contents W.faults out.old out.new) }
    ensures kept { IsKept S.bytes S.bytes_len S.faults src.old src.new }
{
    match usage(alloc, src, checkpoint, volume) {
        Ok(usage) => put_usage(alloc, volume, &usage, out),
        Err(stop) => Err(stopped_in(volume, stop)),
    }
}

/// Writes how many blocks each view of the volume that is meant keeps from being freed.
pub fn write<S: BlockSource, W: Sink>(
    alloc: Global,
    volume: Option<u8>,
    src: &mut S,
    out: &mut W,
) -> Result<(), Stopped>
    requires clean { (image : List ℕ) → S.bytes src.old ≡ Some image → IsWellFormed Plain image }
    ensures answer { HasEnded (asked.Usage volume) (looked S.bytes S.faults src.old src.new) result (sunk W.contents W.faults out.old out.new) }
    ensures kept { IsKept S.bytes S.bytes_len S.faults src.old src.new }
{
    match reach(alloc, src, volume) {
        Ok(reached) => write_of(
            alloc,
            volume,
            src,
            &reached.checkpoint,
            &reached.volume,
            out,
        ),
        Err(stopped) => Err(stopped),
    }
}
