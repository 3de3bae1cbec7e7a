// Reading an object that has to be sound (Objects, obj_phys_t).
ghost use Rattle.std.specs.Prelude.{◌≡◌, ◌+◌, ◌≤◌, ◌<◌, ℕ, List, Some, length, true, IfOk, IsErrOf};
ghost use Rattle.apfs_model.specs.Counts.{Rose};
ghost use Rattle.apfs_model.specs.Kept.{IsKept};
ghost use Rattle.obj_base.specs.BlockSize.{is_accepted};
ghost use Rattle.obj_base.specs.Site.{IsSiteFor};
ghost use Rattle.obj_base.specs.Sound.{sound_of};
ghost use Rattle.obj_base.specs.Stops.{Gives};
ghost use Rattle.obj_base.specs.declared.stop.Stop.TheVariants.{ReadFault, NoMemory};
ghost use Rattle.blk_read.specs.Object.{judged, sound_object};

use crate::read_new;
use blk_source::BlockSource;
use obj_base::{Expect, HeadFault, Site, Stop, Unsound, sound};
use std::alloc::Global;

// Tests the object that was read from a block.
#[tactic(auto, using(crate::proofs::Sizes::accepted_size))]
fn test(
    bytes: &[u8],
    site: &Site,
    block: u64,
    expect: &Expect,
) -> Result<(), Stop<Unsound<HeadFault>>>
    requires accepted { is_accepted site.now.block_size ≡ true }
    requires long { length bytes.now ≡ site.now.block_size }
    ensures first { Gives (λ _. bytes.now) result (judged block bytes.now (sound_of bytes.now expect.now)) }
    ensures no_read { IsErrOf result ReadFault → ⊥ }
    ensures no_memory { IsErrOf result NoMemory → ⊥ }
{
    match sound(bytes, expect) {
        Ok(_) => Ok(()),
        Err(bad) => Err(bad.in_block(block)),
    }
}

/// Reads the object in a block, and tests its sum and its header by what is expected of it: its bytes, or the first
/// test that fails, with the block. An oid that `expect` leaves out isn't tested.
#[tactic(auto, unfolding(crate::specs::Object::sound_object))]
pub fn read_sound<S: BlockSource>(
    alloc: Global,
    src: &mut S,
    site: &Site,
    block: u64,
    expect: &Expect,
) -> Result<Vec<u8>, Stop<Unsound<HeadFault>>>
    requires site { IsSiteFor site.now (S.bytes_len src.old) }
    requires below { block < site.now.blocks }
    ensures found { (image : List ℕ) → S.bytes src.old ≡ Some image → Gives (λ bytes. bytes.items) result (sound_object image site.now block expect.now) }
    ensures long { IfOk result (λ bytes. length bytes.items ≡ site.now.block_size) }
    ensures cause { IsErrOf result ReadFault → Rose (S.faults src.old) (S.faults src.new) }
    ensures kept { IsKept S.bytes S.bytes_len S.faults src.old src.new }
    ensures reads { S.reads src.new ≤ S.reads src.old + 1 }
{
    let bytes = read_new(alloc, src, block, site.block_size)?;
    test(&bytes, site, block, expect)?;
    Ok(bytes)
}
