// The command `gen`.
ghost use Rattle.std.specs.Prelude.{◌≡◌, ◌≤◌, IfOk, option_map};
ghost use Rattle.std.specs.String.{string_bytes};
ghost use Rattle.cmd_texts.specs.Commands.Gen.{lead};
ghost use Rattle.cmd_texts.specs.Handed.{made};
ghost use Rattle.cmd_texts.specs.Ended.{HasEnded, HasMade};
ghost use Rattle.cmd_lines.specs.Words.{Gen};
ghost use Rattle.cmd_lines.specs.Written.{sunk};
ghost use Rattle.cmd_lines.specs.Putting.{IsPut};

use crate::commands::check;
use crate::put::put;
use blk_source::{NoMemory, Sink, SureSource};
use cmd_lines::Stopped;
use img_make::{gen_plan, make};
use std::alloc::{AllocError, Global};
use view_rules::Profile;

// The line before the report.
fn lead_line(alloc: Global, files: u32) -> Result<String, AllocError>
    ensures { IfOk result (λ line. string_bytes line ≡ lead files) }
{
    format!(in alloc; "generated {files}\n")
}

// Puts the line before the report.
fn put_lead<W: Sink>(alloc: Global, files: u32, out: &mut W) -> Result<(), Stopped>
    ensures { IsPut (lead files) result (sunk W.contents W.faults out.old out.new) }
{
    let line = lead_line(alloc, files)?;
    put(line.as_bytes(), out)
}

// Writes that line, and what `check` writes of an image.
fn write_over<W: Sink>(
    alloc: Global,
    files: u32,
    src: &mut SureSource,
    out: &mut W,
) -> Result<(), Stopped>
    ensures answer { HasEnded (Gen files) (made src.old.bytes) result (sunk W.contents W.faults out.old out.new) }
    ensures kept { src.new.bytes ≡ src.old.bytes }
{
    match put_lead(alloc, files, out) {
        Ok(()) => check::write(alloc, Profile::Plain, src, out),
        Err(stopped) => Err(stopped),
    }
}

// An image of so many files.
fn image_of(alloc: Global, files: u32) -> Result<SureSource, NoMemory>
    requires { files ≤ 20000 }
{
    let plan = gen_plan(alloc, files)?;
    let image = make(alloc, &plan)?;
    Ok(SureSource::new(image))
}

/// Makes an image of so many files and leaves it in `made`, or None where memory ran out for it; writes how many there are,
/// and what `check` writes of the image.
pub fn write<W: Sink>(
    alloc: Global,
    files: u32,
    out: &mut W,
    made: &mut Option<SureSource>,
) -> Result<(), Stopped>
    requires { files ≤ 20000 }
    ensures { HasMade (Gen files) (option_map (λ source. source.bytes) made.new) result (sunk W.contents W.faults out.old out.new) }
{
    match image_of(alloc, files) {
        Ok(image) => {
            let mut source = image;
            let ended = write_over(alloc, files, &mut source, out);
            *made = Some(source);
            ended
        }
        Err(_) => {
            *made = None;
            Err(Stopped::OutOfMemory)
        }
    }
}
