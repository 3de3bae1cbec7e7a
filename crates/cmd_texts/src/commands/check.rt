// The command `check`.
ghost use Rattle.std.specs.Prelude.{◌≡◌, IfOk};
ghost use Rattle.std.specs.String.{string_bytes};
ghost use Rattle.apfs_model.specs.Kept.{IsKept};
ghost use Rattle.cmd_lines.specs.ReportText.{note_text, note_line, things_text, blocks_text, head_text, report_text};
ghost use Rattle.cmd_texts.specs.Handed.{looked};
ghost use Rattle.cmd_texts.specs.Ended.{HasEnded};
ghost use Rattle.cmd_lines.specs.Words.{Check};
ghost use Rattle.cmd_lines.specs.Written.{sunk};
ghost use Rattle.cmd_lines.specs.Putting.{IsPut};

use crate::commands::checked::checked;
use crate::put::{Line, put, put_lines};
use apfs_check::Report;
use blk_source::{BlockSource, Sink};
use cmd_lines::{Stopped, fault_places as places};
use std::alloc::{AllocError, Global};
use view_rules::{Note, Profile};

// The text of a note, as its bytes: names in it are shown by bytes.
fn note_bytes(alloc: Global, note: &Note) -> Result<Vec<u8>, AllocError>
    ensures { IfOk result (λ text. text.items ≡ note_text note.now) }
{
    match note {
        Note::Skipped { index, xid } => places::skipped(alloc, *index, *xid),
        Note::Hash(at) => places::of_name(alloc, "note hash", at),
        Note::Unreached {
            slot,
            block,
            length,
        } => places::of_run(alloc, "note unreached", *slot, *block, *length),
        Note::Unnamed(at) => places::of_id(alloc, "note unnamed", at),
        Note::Count {
            slot,
            block,
            stored,
            streams,
        } => places::of_count(alloc, "note count", *slot, *block, *stored, *streams),
    }
}

impl Line for Note {
    ghost text = { λ note. note_line note };

    fn line(&self, alloc: Global) -> Result<Vec<u8>, AllocError> {
        let mut line = note_bytes(alloc, self)?;
        line.push(b'\n')?;
        Ok(line)
    }
}

// The lines of what there is of a container.
fn things_lines(alloc: Global, report: &Report) -> Result<String, AllocError>
    ensures { IfOk result (λ text. string_bytes text ≡ things_text report.now) }
{
    let xid = report.xid;
    let volumes = report.volumes;
    let views = report.views;
    let objects = report.objects();
    let records = report.records;
    format!(in alloc;
        "xid {xid}\nvolumes {volumes}\nviews {views}\nobjects {objects}\nrecords {records}\n"
    )
}

// The lines of a container's blocks.
fn blocks_lines(alloc: Global, report: &Report) -> Result<String, AllocError>
    ensures { IfOk result (λ text. string_bytes text ≡ blocks_text report.now) }
{
    let used = report.used();
    let free = report.free;
    format!(in alloc; "used {used}\nfree {free}\n")
}

// The nine lines of a report.
fn head(alloc: Global, report: &Report) -> Result<Vec<u8>, AllocError>
    ensures { IfOk result (λ text. text.items ≡ head_text report.now) }
{
    let notes = report.notes.len();
    let mut text = String::from_str(alloc, "clean\n")?.into_bytes();
    text.extend_from_slice(things_lines(alloc, report)?.as_bytes())?;
    text.extend_from_slice(blocks_lines(alloc, report)?.as_bytes())?;
    text.extend_from_slice(format!(in alloc; "notes {notes}\n")?.as_bytes())?;
    Ok(text)
}

// Puts the nine lines of a report.
fn put_head<W: Sink>(alloc: Global, report: &Report, out: &mut W) -> Result<(), Stopped>
    ensures { IsPut (head_text report.now) result (sunk W.contents W.faults out.old out.new) }
{
    let text = head(alloc, report)?;
    put(text.as_slice(), out)
}

// Puts a report, and a line for each of its notes.
fn put_report<W: Sink>(alloc: Global, report: &Report, out: &mut W) -> Result<(), Stopped>
    ensures { IsPut (report_text report.now) result (sunk W.contents W.faults out.old out.new) }
{
    match put_head(alloc, report, out) {
        Ok(()) => put_lines(alloc, &report.notes, out),
        Err(stopped) => Err(stopped),
    }
}

/// Writes what is told of a container that is well-formed under a profile.
pub fn write<S: BlockSource, W: Sink>(
    alloc: Global,
    profile: Profile,
    src: &mut S,
    out: &mut W,
) -> Result<(), Stopped>
    ensures answer { HasEnded (Check profile) (looked S.bytes S.faults src.old src.new) result (sunk W.contents W.faults out.old out.new) }
    ensures kept { IsKept S.bytes S.bytes_len S.faults src.old src.new }
{
    match checked(alloc, profile, src) {
        Ok(report) => put_report(alloc, &report, out),
        Err(stopped) => Err(stopped),
    }
}
