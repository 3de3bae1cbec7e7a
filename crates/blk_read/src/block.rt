// Reading a block, into memory that is there or into its own (General-Purpose Types, paddr_t).
ghost use Rattle.std.specs.Prelude.{◌≡◌, ◌+◌, ◌*◌, ◌≤◌, List, ℕ, Some, length, IfOk, IfErr, IsErrOf, OnOk, OnErr};
ghost use Rattle.apfs_model.specs.Blocks.{block_of};
ghost use Rattle.apfs_model.specs.Counts.{one_more, Rose};
ghost use Rattle.apfs_model.specs.Kept.{IsKept};
ghost use Rattle.obj_base.specs.Stops.{IsFree};
ghost use Rattle.obj_base.specs.declared.stop.Stop.TheVariants.{ReadFault};

use blk_source::{BlockSource, ReadFailed};
use obj_base::Stop;
use std::alloc::Global;

/// Reads block `block` of an image whose blocks have the length of `into`. After an error what `into` holds isn't said.
/// Takes no memory.
#[tactic(auto, unfolding(apfs_model::specs::Blocks::block_of))]
pub fn read_block<S: BlockSource>(
    src: &mut S,
    block: u64,
    into: &mut [u8],
) -> Result<(), ReadFailed>
    requires some { 1 ≤ length into.old }
    requires short { length into.old ≤ 65536 }
    requires inside { length into.old * block + length into.old ≤ S.bytes_len src.old }
    ensures found { (image : List ℕ) → S.bytes src.old ≡ Some image → OnOk result (into.new ≡ block_of (length into.old) image block) }
    ensures long { length into.new ≡ length into.old }
    ensures cause { OnErr result (Rose (S.faults src.old) (S.faults src.new)) }
    ensures kept { IsKept S.bytes S.bytes_len S.faults src.old src.new }
    ensures reads { S.reads src.new ≡ one_more (S.reads src.old) }
{
    let _size = src.size();
    let at = into.len() as u64 * block;
    src.read_at(at, into)
}

/// Reads block `block` of an image whose blocks have `size` bytes, into memory of its own.
pub fn read_new<S: BlockSource, F>(
    alloc: Global,
    src: &mut S,
    block: u64,
    size: u32,
) -> Result<Vec<u8>, Stop<F>>
    requires some { 1 ≤ size }
    requires short { size ≤ 65536 }
    requires inside { size * block + size ≤ S.bytes_len src.old }
    ensures found { (image : List ℕ) → S.bytes src.old ≡ Some image → IfOk result (λ bytes. bytes.items ≡ block_of size image block) }
    ensures long { IfOk result (λ bytes. length bytes.items ≡ size) }
    ensures free { IfErr result IsFree }
    ensures cause { IsErrOf result ReadFault → Rose (S.faults src.old) (S.faults src.new) }
    ensures kept { IsKept S.bytes S.bytes_len S.faults src.old src.new }
    ensures reads { S.reads src.new ≤ S.reads src.old + 1 }
{
    let mut bytes = vec![in alloc; 0u8; size as usize]?;
    read_block(src, block, &mut bytes)?;
    Ok(bytes)
}
