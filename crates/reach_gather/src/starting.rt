// The EFI jumpstart of a container.
//
// Tests: the block is one of the container, the object there is a sound jumpstart, and its extents fit it. Gives: the extents of the driver. Rests
// on: the checkpoint.
ghost use Rattle.std.specs.Prelude.{◌≡◌, ◌≤◌, ◌+◌, ℕ, List, [], Some, length, IfOk, IfErr, IsErrOf};
ghost use Rattle.apfs_model.specs.Counts.{Rose};
ghost use Rattle.apfs_model.specs.Kept.{IsKept};
ghost use Rattle.obj_base.specs.Site.{IsSiteFor};
ghost use Rattle.obj_base.specs.Stops.{Gives, Tells, IsFree};
ghost use Rattle.obj_base.specs.declared.stop.Stop.TheVariants.{ReadFault};
ghost use Rattle.nx_block.specs.Jump.{jump_extents_of};
ghost use Rattle.nx_ring.specs.Checkpoint.{site_of};
ghost use Rattle.reach_rules.specs.declared.naming.Object.TheVariants.{InBlock};
ghost use Rattle.reach_rules.specs.Features.{HasFeature};
ghost use Rattle.reach_rules.specs.Reached.{IsReachedFault};
ghost use Rattle.reach_gather.specs.Jumped.{told_jump, jump_root, IsJumped, IsRightJump};

use crate::objects::raise;
use apfs_layout::kind;
use blk_read::read_sound;
use blk_source::BlockSource;
use nx_block::{Jump, jump_read};
use nx_ring::Checkpoint;
use obj_base::{Expect, Stop, Within};
use reach_rules::{ReachFault, Why};
use std::alloc::Global;

// Reads the object of a jumpstart's header in a block.
fn read_jump<S: BlockSource>(
    alloc: Global,
    src: &mut S,
    cp: &Checkpoint,
    block: u64,
) -> Result<Vec<u8>, Stop<ReachFault>>
    requires site { IsSiteFor (site_of cp.now) (S.bytes_len src.old) }
    ensures found { (image : List ℕ) → S.bytes src.old ≡ Some image → Gives (λ bytes. record { object = InBlock block; block = block; bytes = bytes.items }) result (told_jump image cp.now block) }
    ensures long { IfOk result (λ bytes. 4096 ≤ length bytes.items) }
    ensures cause { IsErrOf result ReadFault → Rose (S.faults src.old) (S.faults src.new) }
    ensures kept { IsKept S.bytes S.bytes_len S.faults src.old src.new }
    ensures reads { S.reads src.new ≤ S.reads src.old + 1 }
{
    let site = cp.site();
    if !site.has_block(block) {
        return Err(Stop::Found(ReachFault::Unnamed {
            within: Within::Physical,
            oid: block,
            xid: cp.xid(),
        }));
    }
    let expect = Expect {
        kind: kind::JUMPSTART,
        subtype: None,
        oid: Some(block),
        max_xid: site.max_xid,
    };
    match read_sound(alloc, src, &site, block, &expect) {
        Ok(bytes) => Ok(bytes),
        Err(stop) => Err(raise(stop)),
    }
}

// The extents of a driver.
fn extents(alloc: Global, jump: &Jump<'_>) -> Result<Vec<(u64, u64)>, Stop<ReachFault>>
    ensures all { IfOk result (λ extents. extents.items ≡ jump_extents_of jump.now) }
    ensures free { IfErr result IsFree }
    ensures no_read { IsErrOf result ReadFault → ⊥ }
{
    let mut all = Vec::new(alloc);
    'extents: for i in 0..jump.count() {
        all.push(jump.extent(i))?;
    }
    Ok(all)
}

/// The extents of the driver of a container's EFI jumpstart, by one read, and none where the superblock names no jumpstart. `Unnamed` and `Unsound`
/// tell of it, also where its extents don't fit it, and `Unsupported` of its header.
pub(crate) fn jumpstart<S: BlockSource>(
    alloc: Global,
    src: &mut S,
    cp: &Checkpoint,
) -> Result<Vec<(u64, u64)>, Stop<ReachFault>>
    requires site { IsSiteFor (site_of cp.now) (S.bytes_len src.old) }
    ensures clear { (image : List ℕ) → S.bytes src.old ≡ Some image → IfOk result (λ extents. IsJumped image cp.now extents.items) }
    ensures present { (image : List ℕ) → S.bytes src.old ≡ Some image → IfErr result (Tells (IsReachedFault image cp.now) (HasFeature image cp.now)) }
    ensures exact { (image : List ℕ) → S.bytes src.old ≡ Some image → IsRightJump image cp.now → IfErr result IsFree }
    ensures cause { IsErrOf result ReadFault → Rose (S.faults src.old) (S.faults src.new) }
    ensures kept { IsKept S.bytes S.bytes_len S.faults src.old src.new }
    ensures reads { S.reads src.new ≤ S.reads src.old + length (jump_root cp.now.nx) }
{
    let block = cp.nx().jumpstart();
    if block == 0 {
        return Ok(Vec::new(alloc));
    }
    let bytes = match read_jump(alloc, src, cp, block) {
        Ok(bytes) => bytes,
        Err(stop) => return Err(stop),
    };
    let Some(jump) = jump_read(&bytes) else {
        return Err(Stop::Found(ReachFault::Unsound {
            block,
            why: Why::Magic,
        }));
    };
    extents(alloc, &jump)
}
