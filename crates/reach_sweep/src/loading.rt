// The space of a container, the bits of its pool, and its object map.
ghost use Rattle.std.specs.Prelude.{◌≡◌, ◌≤◌, ◌+◌, ℕ, List, Some, length, OnOk, IfOk, IfErr, IsErrOf};
ghost use Rattle.apfs_model.specs.Counts.{Rose};
ghost use Rattle.apfs_model.specs.Kept.{IsKept};
ghost use Rattle.obj_base.specs.Site.{IsSiteFor};
ghost use Rattle.obj_base.specs.Stops.{Tells, raised};
ghost use Rattle.obj_base.specs.declared.stop.Stop.TheVariants.{ReadFault};
ghost use Rattle.nx_block.specs.Super.{omap_oid_of};
ghost use Rattle.nx_ring.specs.Checkpoint.{site_of};
ghost use Rattle.omap_map.specs.Loading.{map_nodes, IsLoaded};
ghost use Rattle.space_map.specs.Fields.{pool_bitmap_blocks_of};
ghost use Rattle.space_map.specs.Stops.{IsSpaceOf};
ghost use Rattle.space_pool.specs.Stops.{ArePoolBits};
ghost use Rattle.own_settle.specs.Kept.{HasPool};
ghost use Rattle.reach_rules.specs.Raised.{of_space, of_map};
ghost use Rattle.reach_rules.specs.Features.{HasFeature};
ghost use Rattle.reach_rules.specs.Reached.{IsReachedFault};
ghost use Rattle.reach_gather.specs.Volumes.Parts.{IsMapPart, container_map};

use blk_source::BlockSource;
use bt_node::NodeFault;
use nx_ring::Checkpoint;
use obj_base::{Stop, Within};
use omap_map::{Omap, OmapFault};
use reach_gather::{raise_pool, walk_fault};
use reach_rules::{ReachFault, Why};
use space_map::{Space, SpaceFault};
use space_pool::pool_bits;
use std::alloc::Global;

// What is wrong with the space, said of the account.
fn space_fault(cp: &Checkpoint, fault: SpaceFault) -> ReachFault
    ensures { result ≡ of_space cp.now fault }
{
    match fault {
        SpaceFault::Unnamed { within, oid } => ReachFault::Unnamed {
            within,
            oid,
            xid: cp.xid(),
        },
        SpaceFault::Unsound { block, why } => ReachFault::Unsound {
            block,
            why: Why::Node(NodeFault::Head(why)),
        },
        other => ReachFault::Space(other),
    }
}

// Why a load of the space stopped, said of the account.
fn raise_space(cp: &Checkpoint, stop: Stop<SpaceFault>) -> Stop<ReachFault>
    ensures { result ≡ raised (of_space cp.now) stop }
{
    stop.map(|fault| space_fault(cp, fault))
}

/// The space of a checkpoint's container.
pub(crate) fn load_space<S: BlockSource>(
    alloc: Global,
    src: &mut S,
    cp: &Checkpoint,
) -> Result<Space, Stop<ReachFault>>
    requires site { IsSiteFor (site_of cp.now) (S.bytes_len src.old) }
    ensures clear { (image : List ℕ) → S.bytes src.old ≡ Some image → IfOk result (IsSpaceOf image cp.now) }
    ensures site { IfOk result (λ space. space.site ≡ site_of cp.now) }
    ensures present { (image : List ℕ) → S.bytes src.old ≡ Some image → IfErr result (Tells (IsReachedFault image cp.now) (HasFeature image cp.now)) }
    ensures cause { IsErrOf result ReadFault → Rose (S.faults src.old) (S.faults src.new) }
    ensures kept { IsKept S.bytes S.bytes_len S.faults src.old src.new }
    ensures reads { IfOk result (λ space. S.reads src.new ≤ S.reads src.old + (length space.cabs + length space.cibs)) }
{
    match Space::load(alloc, src, cp) {
        Ok(space) => Ok(space),
        Err(stop) => Err(raise_space(cp, stop)),
    }
}

// What is wrong with the container's object map, said of the account.
fn map_fault(cp: &Checkpoint, fault: OmapFault) -> ReachFault
    ensures { result ≡ of_map cp.now fault }
{
    match fault {
        OmapFault::Head { block, why } => ReachFault::Unsound {
            block,
            why: Why::Node(NodeFault::Head(why)),
        },
        OmapFault::Tree { root, why } => walk_fault(cp, Within::Physical, root, why),
    }
}

// Why a load of the container's object map stopped, said of the account.
fn raise_map(cp: &Checkpoint, stop: Stop<OmapFault>) -> Stop<ReachFault>
    ensures { result ≡ raised (of_map cp.now) stop }
{
    stop.map(|fault| map_fault(cp, fault))
}

/// The object map of a checkpoint's container, which is right (`IsMapPart`).
pub(crate) fn load_map<S: BlockSource>(
    alloc: Global,
    src: &mut S,
    cp: &Checkpoint,
) -> Result<Omap, Stop<ReachFault>>
    requires site { IsSiteFor (site_of cp.now) (S.bytes_len src.old) }
    ensures clear { (image : List ℕ) → S.bytes src.old ≡ Some image → IfOk result (IsLoaded image (site_of cp.now) (omap_oid_of cp.now.nx)) }
    ensures present { (image : List ℕ) → S.bytes src.old ≡ Some image → IsMapPart image cp.now (container_map cp.now) → IfErr result (Tells (IsReachedFault image cp.now) (HasFeature image cp.now)) }
    ensures reads { (image : List ℕ) → S.bytes src.old ≡ Some image → OnOk result (S.reads src.new ≤ S.reads src.old + (1 + map_nodes image (site_of cp.now) (omap_oid_of cp.now.nx))) }
    ensures cause { IsErrOf result ReadFault → Rose (S.faults src.old) (S.faults src.new) }
    ensures kept { IsKept S.bytes S.bytes_len S.faults src.old src.new }
{
    let block = cp.nx().omap_oid();
    let site = cp.site();
    if !site.has_block(block) {
        return Err(Stop::Found(ReachFault::Unnamed {
            within: Within::Physical,
            oid: block,
            xid: cp.xid(),
        }));
    }
    match Omap::load(alloc, src, block, &site) {
        Ok(omap) => Ok(omap),
        Err(stop) => Err(raise_map(cp, stop)),
    }
}

/// The bits of the pool of a space, which has room for them.
pub(crate) fn load_pool<S: BlockSource>(
    alloc: Global,
    src: &mut S,
    cp: &Checkpoint,
    space: &Space,
) -> Result<Vec<u8>, Stop<ReachFault>>
    requires site { IsSiteFor (site_of cp.now) (S.bytes_len src.old) }
    ensures clear { (image : List ℕ) → S.bytes src.old ≡ Some image → IfOk result (λ bits. ArePoolBits image cp.now space.now.manager bits.items) }
    ensures room { IfOk result (λ bits. HasPool (site_of cp.now).blocks space.now.manager bits.items) }
    ensures present { (image : List ℕ) → S.bytes src.old ≡ Some image → IsSpaceOf image cp.now space.now → IfErr result (Tells (IsReachedFault image cp.now) (HasFeature image cp.now)) }
    ensures cause { IsErrOf result ReadFault → Rose (S.faults src.old) (S.faults src.new) }
    ensures kept { IsKept S.bytes S.bytes_len S.faults src.old src.new }
    ensures reads { OnOk result (S.reads src.new ≤ S.reads src.old + pool_bitmap_blocks_of space.now.manager) }
{
    match pool_bits(alloc, src, cp, space) {
        Ok(bits) => Ok(bits),
        Err(stop) => Err(raise_pool(cp, stop)),
    }
}
