// The line that says why there is no text, and the status.
ghost use Rattle.std.specs.Prelude.{◌⊎◌, ◌≡◌, List, ℕ, IfOk};
ghost use Rattle.cmd_lines.specs.FaultTexts as texts;
ghost use Rattle.cmd_lines.specs.Stops.{outcome_of};
ghost use Rattle.cmd_lines.specs.Texts.{out_of_memory_line};
ghost use Rattle.cmd_lines.specs.Texts as lines;
ghost use Rattle.cmd_lines.specs.Written.{sunk, IsSaid};
ghost use Rattle.cmd_lines.specs.Putting.{IsClosed};

use crate::fault_text::named_fault_text;
use crate::named::Named;
use crate::stopped::Stopped;
use blk_source::Sink;
use obj_base::Feature;
use path_search::Answer;
use std::alloc::{AllocError, Global};

// The status of a run whose writing failed.
const WRITE_FAILED: u8 = 4;

// The status of a run for which there was no memory, and its line.
const OUT_OF_MEMORY: u8 = 5;

const OUT_OF_MEMORY_LINE: &[u8] = b"apfs: out of memory\n";

fn fault_line(alloc: Global, named: &Named) -> Result<Vec<u8>, AllocError>
    ensures { IfOk result (λ line. line.items ≡ lines.fault_line (texts.named_fault_text named.now)) }
{
    let mut line = String::from_str(alloc, "apfs: fault: ")?.into_bytes();
    let text = named_fault_text(alloc, named)?;
    line.extend_from_slice(text.as_slice())?;
    line.push(b'\n')?;
    Ok(line)
}

fn unsupported_line(alloc: Global, feature: Feature, block: u64) -> Result<Vec<u8>, AllocError>
    ensures { IfOk result (λ line. line.items ≡ lines.unsupported_line feature block) }
{
    let name = feature.name();
    let line = format!(in alloc; "apfs: unsupported: {name} block {block}\n")?;
    Ok(line.into_bytes())
}

fn answer_line(answer: Answer) -> &'static [u8]
    ensures { result.now ≡ lines.answer_line answer }
{
    match answer {
        Answer::NotFound => b"apfs: answer: NotFound\n",
        Answer::NotDirectory => b"apfs: answer: NotDirectory\n",
        Answer::NotFile => b"apfs: answer: NotFile\n",
        Answer::Compressed => b"apfs: answer: Compressed\n",
        Answer::Dataless => b"apfs: answer: Dataless\n",
        Answer::NoAttribute => b"apfs: answer: NoAttribute\n",
        Answer::NoVolume => b"apfs: answer: NoVolume\n",
        Answer::NoSnapshot => b"apfs: answer: NoSnapshot\n",
    }
}

// Puts a line and gives its status, or that of a failed put.
fn put_line<E: Sink>(status: u8, line: &[u8], err: &mut E) -> u8
    ensures { IsSaid result status line.now (sunk E.contents E.faults err.old err.new) }
{
    match err.put(line) {
        Ok(()) => status,
        Err(_) => WRITE_FAILED,
    }
}

// Puts a line that was built, or that there was no memory for it.
fn put_built<E: Sink>(status: u8, line: Result<Vec<u8>, AllocError>, err: &mut E) -> u8
    ensures { (wanted : List ℕ) → IfOk line (λ text. text.items ≡ wanted) →
        IsSaid result status wanted (sunk E.contents E.faults err.old err.new) ⊎ IsSaid result 5 out_of_memory_line (sunk E.contents E.faults err.old err.new) }
{
    match line {
        Ok(line) => put_line(status, line.as_slice(), err),
        Err(_) => put_line(OUT_OF_MEMORY, OUT_OF_MEMORY_LINE, err),
    }
}

/// Says on the second sink why the run stopped, or that there was no memory for its line, and gives the status.
pub fn say<E: Sink>(alloc: Global, stopped: Stopped, err: &mut E) -> u8
    ensures { (part : List ℕ) → IsClosed result (outcome_of (Err stopped) part) (sunk E.contents E.faults err.old err.new) }
{
    match stopped {
        Stopped::Faulty(named) => put_built(1, fault_line(alloc, &named), err),
        Stopped::WrongWords => put_line(2, b"apfs: usage: apfs COMMAND IMAGE [WORDS]\n", err),
        Stopped::ReadFailed => put_line(3, b"apfs: read failed\n", err),
        Stopped::WriteFailed => WRITE_FAILED,
        Stopped::OutOfMemory => put_line(OUT_OF_MEMORY, OUT_OF_MEMORY_LINE, err),
        Stopped::Refused { feature, block } => {
            put_built(6, unsupported_line(alloc, feature, block), err)
        }
        Stopped::Answered(answer) => put_line(7, answer_line(answer), err),
        Stopped::NoImage => put_line(8, b"apfs: no image\n", err),
        Stopped::NoFolder => put_line(9, b"apfs: no folder\n", err),
    }
}
