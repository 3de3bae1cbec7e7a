// The stored sum of an object.
ghost use Rattle.std.specs.Prelude.{◌≡◌, ◌+◌, ◌≤◌, ◌%◌, length, drop};
ghost use Rattle.apfs_model.specs.Object.{sum_field};
ghost use Rattle.apfs_model.specs.Sum.{sum_of};

use crate::writer::put_u64;
use apfs_layout::object::SUM;
use obj_base::sum64;

/// Stores an object's sum anew, so that an edited object is whole again (Objects, `obj_phys_t`, `o_cksum`).
#[tactic(auto, using(crate::proofs::Sealed::sum_past), unfolding(apfs_model::specs::Object::sum_field))]
pub fn reseal(block: &mut [u8])
    requires whole { length block.old % 4 ≡ 0 }
    requires long { 12 ≤ length block.old }
    ensures sum { sum_field block.new ≡ sum_of block.new }
    ensures same { drop 8 block.new ≡ drop 8 block.old }
{
    let sum = sum64(block);
    put_u64(block, SUM, sum);
}
