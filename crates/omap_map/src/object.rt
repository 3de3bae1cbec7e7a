// The object of a map: its bytes, their fields and their tests (Object Maps, omap_phys_t).
ghost use Rattle.std.specs.Prelude.{◌≡◌, ◌+◌, ◌≤◌, ◌<◌, ℕ, List, Some, length, IfOk, IsErrOf};
ghost use Rattle.apfs_model.specs.Counts.{Rose};
ghost use Rattle.apfs_model.specs.Kept.{IsKept};
ghost use Rattle.obj_base.specs.Stops.{Gives, raised};
ghost use Rattle.obj_base.specs.declared.stop.Stop.TheVariants.{ReadFault};
ghost use Rattle.obj_base.specs.Site.{IsSiteFor};
ghost use Rattle.omap_map.specs.Fields as fields;
ghost use Rattle.omap_map.specs.Features.{is_reverting};
ghost use Rattle.omap_map.specs.Loading.{head_fault, object_of};

use crate::OmapFault;
use apfs_layout::{kind, object_map};
use blk_read::read_sound;
use blk_source::BlockSource;
use obj_base::{Expect, Feature, HeadFault, Site, Stop, Unsound, u32_at, u64_at};
use std::alloc::Global;

#[tactic(auto, unfolding(crate::specs::Fields::snap_count_of))]
pub(crate) fn snap_count(bytes: &[u8]) -> u32
    requires { 96 ≤ length bytes.now }
    ensures { result ≡ fields.snap_count_of bytes.now }
{
    u32_at(bytes, object_map::SNAP_COUNT)
}

#[tactic(auto, unfolding(crate::specs::Fields::tree_of))]
pub(crate) fn tree(bytes: &[u8]) -> u64
    requires { 96 ≤ length bytes.now }
    ensures { result ≡ fields.tree_of bytes.now }
{
    u64_at(bytes, object_map::TREE)
}

#[tactic(auto, unfolding(crate::specs::Fields::snap_tree_of))]
pub(crate) fn snap_tree(bytes: &[u8]) -> u64
    requires { 96 ≤ length bytes.now }
    ensures { result ≡ fields.snap_tree_of bytes.now }
{
    u64_at(bytes, object_map::SNAP_TREE)
}

// Whether a revert of the map to a snapshot is pending.
#[tactic(auto, unfolding(crate::specs::Features::is_reverting, crate::specs::Fields::revert_min_of, crate::specs::Fields::revert_max_of))]
fn is_pending(bytes: &[u8]) -> bool
    requires { 96 ≤ length bytes.now }
    ensures { result ≡ is_reverting bytes.now }
{
    u64_at(bytes, object_map::REVERT_MIN) != 0 || u64_at(bytes, object_map::REVERT_MAX) != 0
}

// Why the object of a map isn't sound, said of the map.
fn raise(stop: Stop<Unsound<HeadFault>>) -> Stop<OmapFault>
    ensures { result ≡ raised head_fault stop }
{
    stop.map(|Unsound { block, why }| OmapFault::Head { block, why })
}

/// The bytes of the map in a block, or the first test of its object that fails.
#[tactic(auto, using(blk_read::proofs::Sizes::accepted_size))]
pub(crate) fn object<S: BlockSource>(
    alloc: Global,
    src: &mut S,
    block: u64,
    site: &Site,
) -> Result<Vec<u8>, Stop<OmapFault>>
    requires site { IsSiteFor site.now (S.bytes_len src.old) }
    requires below { block < site.now.blocks }
    ensures found { (image : List ℕ) → S.bytes src.old ≡ Some image → Gives (λ bytes. bytes.items) result (object_of image site.now block) }
    ensures long { IfOk result (λ bytes. 96 ≤ length bytes.items) }
    ensures reads { S.reads src.new ≤ S.reads src.old + 1 }
    ensures cause { IsErrOf result ReadFault → Rose (S.faults src.old) (S.faults src.new) }
    ensures kept { IsKept S.bytes S.bytes_len S.faults src.old src.new }
{
    let expect = Expect {
        kind: kind::OBJECT_MAP,
        subtype: None,
        oid: Some(block),
        max_xid: site.max_xid,
    };
    let bytes = match read_sound(alloc, src, site, block, &expect) {
        Ok(bytes) => bytes,
        Err(stop) => return Err(raise(stop)),
    };
    if is_pending(&bytes) {
        return Err(Stop::Unsupported {
            feature: Feature::Revert,
            block,
        });
    }
    Ok(bytes)
}
