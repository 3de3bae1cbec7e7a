// The space manager of a checkpoint.
//
// Tests: it is there, its first block is one of the container, it is sound, and there is no second device. Gives: its
// bytes. Rests on: the objects that a checkpoint maps.
ghost use Rattle.std.specs.Prelude.{◌≡◌, ◌≤◌, ℕ, [], length, IfOk, IfErr, IsErrOf};
ghost use Rattle.obj_base.specs.Stops.{Tells};
ghost use Rattle.obj_base.specs.declared.stop.Stop.TheVariants.{ReadFault};
ghost use Rattle.nx_block.specs.Super.{space_oid_of};
ghost use Rattle.nx_ring.specs.Checkpoint.{site_of};
ghost use Rattle.space_map.specs.Blocks.{manager_block};
ghost use Rattle.space_map.specs.Stops.{HasManager, space_features, IsManagerFeature};
ghost use Rattle.space_map.specs.Held.{IsManagerFault};

use crate::SpaceFault;
use crate::info::raise;
use crate::manager::Manager;
use apfs_layout::kind;
use nx_ring::Checkpoint;
use obj_base::{Expect, Feature, Site, Stop, Within, sound};
use std::alloc::Global;

// The first block of the space manager, where it is one of the container.
fn first_block(cp: &Checkpoint, site: &Site, oid: u64) -> Option<u64>
    requires same { site.now ≡ site_of cp.now }
    requires named { oid ≡ space_oid_of cp.now.nx }
    ensures { result ≡ manager_block cp.now }
{
    let block = cp.object_block(oid)?;
    if site.has_block(block) {
        Some(block)
    } else {
        None
    }
}

/// The bytes of the space manager that a checkpoint's superblock names.
pub(crate) fn sound_manager(
    alloc: Global,
    cp: &Checkpoint,
    site: &Site,
) -> Result<Vec<u8>, Stop<SpaceFault>>
    requires { site.now ≡ site_of cp.now }
    ensures right { IfOk result (λ manager. (block : ℕ) × HasManager cp.now manager.items block) }
    ensures plain { IfOk result (λ manager. space_features manager.items ≡ []) }
    ensures present { IfErr result (Tells (IsManagerFault cp.now) (IsManagerFeature cp.now)) }
    ensures long { IfOk result (λ manager. 4096 ≤ length manager.items) }
    ensures no_read { IsErrOf result ReadFault → ⊥ }
{
    let oid = cp.nx().space_oid();
    let unnamed = SpaceFault::Unnamed {
        within: Within::Ephemeral,
        oid,
    };
    let Some(bytes) = cp.object(oid) else {
        return Err(Stop::Found(unnamed));
    };
    let Some(block) = first_block(cp, site, oid) else {
        return Err(Stop::Found(unnamed));
    };
    let manager = bytes.to_vec(alloc)?;
    let expect = Expect {
        kind: kind::SPACE_MANAGER,
        subtype: None,
        oid: Some(oid),
        max_xid: cp.xid(),
    };
    match sound(&manager, &expect) {
        Ok(_) => (),
        Err(bad) => return Err(raise(bad.in_block(block))),
    }
    if Manager::of(&manager).is_fusion() {
        return Err(Stop::Unsupported {
            feature: Feature::Fusion,
            block,
        });
    }
    Ok(manager)
}
