// The call that writes a new container.
ghost use Rattle.std.specs.Prelude.{◌≡◌, ◌≤◌, Err, OnOk, OnErr, IfOk};
ghost use Rattle.apfs_model.specs.Counts.{Rose};
ghost use Rattle.apfs_model.specs.Sink.{Wrote, WrotePart};
ghost use Rattle.img_format.specs.declared.writing.FormatStop.TheVariants as stops;
ghost use Rattle.img_format.specs.Valid.{IsValid};
ghost use Rattle.img_format.specs.Fresh.{fresh, blocks_from};
ghost use Rattle.img_format.specs.Steps.{zero_blocks};

use crate::blocks::add_block;
use crate::field::BLOCK;
use crate::places::USED;
use crate::spec::Spec;
use blk_source::Sink;
use std::alloc::{AllocError, Global};

/// Why a new container isn't written whole.
#[derive(Clone, Copy, PartialEq, Eq, Drop)]
pub enum FormatStop {
    WriteFault,
    NoMemory,
}

// The blocks that are used, one after another.
fn used_blocks(alloc: Global, spec: &Spec) -> Result<Vec<u8>, AllocError>
    requires { IsValid spec.now }
    ensures { IfOk result (λ used. used.items ≡ blocks_from spec.now 0 USED) }
{
    let mut used = Vec::new(alloc);
    'each: for k in 0..USED {
        add_block(&mut used, alloc, spec, k)?;
    }
    Ok(used)
}

// Puts so many blocks of zeros.
fn put_zeros<W: Sink>(out: &mut W, count: u64) -> Result<(), FormatStop>
    ensures put { OnOk result (Wrote (W.contents out.old) (W.contents out.new) (zero_blocks count)) }
    ensures part { WrotePart (W.contents out.old) (W.contents out.new) (zero_blocks count) }
    ensures cause { OnErr result (Rose (W.faults out.old) (W.faults out.new)) }
    ensures free { result ≡ Err stops.NoMemory → ⊥ }
    ensures later { W.faults out.old ≤ W.faults out.new }
{
    let zeros = [0u8; BLOCK];
    'each: for _ in 0..count {
        if out.put(&zeros).is_err() {
            return Err(FormatStop::WriteFault);
        }
    }
    Ok(())
}

/// Writes a new container: its blocks in their order, as `Fresh` has them. All memory is taken before the first put, and blocks of
/// zeros are put from one buffer.
pub fn format<W: Sink>(alloc: Global, spec: &Spec, out: &mut W) -> Result<(), FormatStop>
    requires { IsValid spec.now }
    ensures put { OnOk result (Wrote (W.contents out.old) (W.contents out.new) (fresh spec.now)) }
    ensures part { WrotePart (W.contents out.old) (W.contents out.new) (fresh spec.now) }
    ensures write_cause { result ≡ Err stops.WriteFault → Rose (W.faults out.old) (W.faults out.new) }
    ensures same { result ≡ Err stops.NoMemory → out.new ≡ out.old }
    ensures later { W.faults out.old ≤ W.faults out.new }
{
    let Ok(used) = used_blocks(alloc, spec) else {
        return Err(FormatStop::NoMemory);
    };
    if out.put(&used).is_err() {
        return Err(FormatStop::WriteFault);
    }
    put_zeros(out, spec.blocks - USED)
}
