// The volumes in the slots of a container's superblock.
ghost use Rattle.std.specs.Prelude.{◌≡◌, ◌++◌, ◌<◌, ◌≤◌, ◌+◌, ℕ, List, length, Some, IfOk, IfErr, IfSome, IsErrOf, OnOk, option_to_list};
ghost use Rattle.apfs_model.specs.Counts.{Rose};
ghost use Rattle.apfs_model.specs.Lists.{In};
ghost use Rattle.apfs_model.specs.Kept.{IsKept};
ghost use Rattle.obj_base.specs.Stops.{Gives, Tells, IsFree};
ghost use Rattle.obj_base.specs.declared.stop.Stop.TheVariants.{ReadFault, NoMemory};
ghost use Rattle.obj_base.specs.Site.{IsSiteFor};
ghost use Rattle.nx_block.specs.Super as super_block;
ghost use Rattle.nx_ring.specs.Checkpoint.{site_of};
ghost use Rattle.vol_view.specs.Stops.{IsHeadsStop, IsHeadsFeature, AreRight, AreHeads};
ghost use Rattle.vol_view.specs.Placed.{IsPlaced, IsHead};
ghost use Rattle.vol_view.specs.Slots.{slot_of};
ghost use Rattle.vol_view.specs.ReadBound.{heads_reads};

use crate::map::container_map;
use crate::place::locate;
use crate::superblock::{superblock, tell};
use crate::{VolHead, VolStop};
use apfs_layout::container;
use blk_source::BlockSource;
use nx_ring::Checkpoint;
use obj_base::{Site, Stop};
use omap_map::Omap;
use std::alloc::Global;

// The number of slots for volumes (Container, `NX_MAX_FILE_SYSTEMS`).
const SLOTS: u32 = container::SLOTS as u32;

// The volume in a slot, by the container's map; None in an empty slot.
#[tactic(auto, unfolding(crate::specs::Slots::slot_of))]
fn volume_in<S: BlockSource>(
    alloc: Global,
    src: &mut S,
    cp: &Checkpoint,
    site: &Site,
    omap: &Omap,
    slot: u32,
) -> Result<Option<VolHead>, Stop<VolStop>>
    requires site { IsSiteFor site.now (S.bytes_len src.old) }
    requires same { site.now ≡ site_of cp.now }
    requires low { slot < super_block.slots }
    ensures found { (image : List ℕ) → S.bytes src.old ≡ Some image → Gives (λ head. head) result (slot_of image cp.now omap.now.records slot) }
    ensures placed { IfOk result (λ head. IfSome head (IsPlaced (site_of cp.now))) }
    ensures reads { IfOk result (λ head. S.reads src.new ≤ S.reads src.old + length (option_to_list head)) }
    ensures cause { IsErrOf result ReadFault → Rose (S.faults src.old) (S.faults src.new) }
    ensures kept { IsKept S.bytes S.bytes_len S.faults src.old src.new }
{
    let oid = cp.nx().fs_oid(slot);
    if oid == 0 {
        return Ok(None);
    }
    let place = locate(omap, oid, site)?;
    let bytes = superblock(alloc, src, Some(oid), place.block, site)?;
    let head = tell(alloc, slot, oid, place.block, &bytes)?;
    Ok(Some(head))
}

// Puts a volume after those of the slots before.
fn add(heads: &mut Vec<VolHead>, head: Option<VolHead>) -> Result<(), Stop<VolStop>>
    ensures more { OnOk result (heads.new.items ≡ heads.old.items ++ option_to_list head) }
    ensures memory_only { IfErr result (λ stop. stop ≡ NoMemory) }
{
    if let Some(head) = head {
        heads.push(head)?;
    }
    Ok(())
}

/// The volumes of a checkpoint's container, one for each slot whose oid isn't 0, by slot. `Omap` comes where the
/// container's object map isn't whole, and `Unnamed` where it or a volume's superblock has no block of the container;
/// `Head` and `Magic` where a superblock isn't sound. `Unsupported` comes for a feature of the container's map and its
/// snapshots, of a record that gives the block of a volume, or of a superblock's header. No feature of a volume is
/// refused here. `reads`: one read for the map's object, one for each node of its trees, and one for each volume.
pub fn heads<S: BlockSource>(
    alloc: Global,
    src: &mut S,
    cp: &Checkpoint,
) -> Result<Vec<VolHead>, Stop<VolStop>>
    requires site { IsSiteFor (site_of cp.now) (S.bytes_len src.old) }
    ensures clear { (image : List ℕ) → S.bytes src.old ≡ Some image → IfOk result (λ heads. AreHeads image cp.now heads.items) }
    ensures each { IfOk result (λ heads. (head : VolHead) → In head heads.items → IsHead (S.bytes src.old) cp.now head) }
    ensures present { (image : List ℕ) → S.bytes src.old ≡ Some image → IfErr result (Tells (IsHeadsStop image cp.now) (IsHeadsFeature image cp.now)) }
    ensures exact { (image : List ℕ) → S.bytes src.old ≡ Some image → AreRight image cp.now → IfErr result IsFree }
    ensures reads { (image : List ℕ) → S.bytes src.old ≡ Some image → IfOk result (λ heads. S.reads src.new ≤ S.reads src.old + heads_reads image cp.now heads.items) }
    ensures cause { IsErrOf result ReadFault → Rose (S.faults src.old) (S.faults src.new) }
    ensures kept { IsKept S.bytes S.bytes_len S.faults src.old src.new }
{
    let site = cp.site();
    let omap = match container_map(alloc, src, cp, &site) {
        Ok(omap) => omap,
        Err(stop) => return Err(stop),
    };
    let mut heads = Vec::new(alloc);
    'slots: for slot in 0..SLOTS {
        let head = match volume_in(alloc, src, cp, &site, &omap, slot) {
            Ok(head) => head,
            Err(stop) => return Err(stop),
        };
        match add(&mut heads, head) {
            Ok(()) => {}
            Err(stop) => return Err(stop),
        }
    }
    Ok(heads)
}
