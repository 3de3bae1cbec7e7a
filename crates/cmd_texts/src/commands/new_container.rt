// The command `format`.
ghost use Rattle.std.specs.Prelude.{◌≡◌, [], IfOk};
ghost use Rattle.img_format.specs.Fresh.{fresh};
ghost use Rattle.img_format.specs.Valid.{IsValid};
ghost use Rattle.cmd_texts.specs.Handed.{made};
ghost use Rattle.cmd_texts.specs.Ended.{HasEnded};
ghost use Rattle.cmd_lines.specs.Words.{Format};
ghost use Rattle.cmd_lines.specs.Lent.{spec_of};
ghost use Rattle.cmd_lines.specs.Written.{sunk};
ghost use Rattle.cmd_lines.specs.Putting.{IsPut};

use blk_source::{Bytes, NoMemory, Sink};
use cmd_lines::{NewContainer, Stopped};
use img_format::{FormatStop, Spec, format};
use std::alloc::Global;

// The container, with a name of its own.
fn spec_in(alloc: Global, wanted: NewContainer<'_>) -> Result<Spec, NoMemory>
    ensures { IfOk result (λ spec. spec ≡ spec_of wanted.entry) }
{
    let name = Bytes::from_slice(alloc, wanted.name.as_bytes())?;
    Ok(Spec {
        blocks: wanted.blocks,
        name,
        container: wanted.container,
        volume: wanted.volume,
    })
}

// Puts the blocks of a container.
fn put_blocks<W: Sink>(alloc: Global, spec: &Spec, out: &mut W) -> Result<(), Stopped>
    requires { IsValid spec.now }
    ensures { IsPut (fresh spec.now) result (sunk W.contents W.faults out.old out.new) }
{
    match format(alloc, spec, out) {
        Ok(()) => Ok(()),
        Err(FormatStop::WriteFault) => Err(Stopped::WriteFailed),
        Err(FormatStop::NoMemory) => Err(Stopped::OutOfMemory),
    }
}

/// Writes a new container.
pub fn write<W: Sink>(alloc: Global, wanted: NewContainer<'_>, out: &mut W) -> Result<(), Stopped>
    requires { IsValid (spec_of wanted) }
    ensures { HasEnded (Format (spec_of wanted.entry)) (made []) result (sunk W.contents W.faults out.old out.new) }
{
    match spec_in(alloc, wanted) {
        Ok(spec) => put_blocks(alloc, &spec, out),
        Err(_) => Err(Stopped::OutOfMemory),
    }
}
