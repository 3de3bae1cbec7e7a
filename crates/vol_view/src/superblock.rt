// Reading a volume's superblock, and its tests.
ghost use Rattle.std.specs.Prelude.{◌≡◌, ◌≤◌, ◌<◌, ◌+◌, ℕ, List, Some, length, IfOk, IfErr, IsErrOf};
ghost use Rattle.apfs_model.specs.Counts.{Rose};
ghost use Rattle.apfs_model.specs.Kept.{IsKept};
ghost use Rattle.obj_base.specs.Stops.{Gives};
ghost use Rattle.obj_base.specs.declared.stop.Stop.TheVariants.{ReadFault, NoMemory};
ghost use Rattle.obj_base.specs.Site.{IsSiteFor};
ghost use Rattle.vol_view.specs.Heads.{super_in, head_of};
ghost use Rattle.vol_view.specs.Slots.{tested, head_raised};

use crate::head::{incompat, magic, name, role, snapshots, uuid};
use crate::{VolHead, VolStop};
use apfs_layout::{kind, volume};
use blk_read::read_sound;
use blk_source::{BlockSource, Bytes};
use obj_base::{Expect, HeadFault, Site, Stop, Unsound};
use std::alloc::Global;

/// What a volume's superblock in a block tells.
pub(crate) fn tell(
    alloc: Global,
    slot: u32,
    oid: u64,
    block: u64,
    bytes: &[u8],
) -> Result<VolHead, Stop<VolStop>>
    requires { 1024 ≤ length bytes.now }
    ensures found { IfOk result (λ head. head ≡ head_of slot oid block bytes.now) }
    ensures memory_only { IfErr result (λ stop. stop ≡ NoMemory) }
{
    let name = Bytes::from_slice(alloc, name(bytes))?;
    Ok(VolHead {
        slot,
        oid,
        block,
        uuid: uuid(bytes),
        role: role(bytes),
        incompat: incompat(bytes),
        snapshots: snapshots(bytes),
        name,
    })
}

// Why an object in a block isn't sound, said of a superblock there.
fn raise(stop: Stop<Unsound<HeadFault>>) -> Stop<VolStop>
    ensures { result ≡ head_raised stop }
{
    stop.map(|Unsound { block, why }| VolStop::Head { block, why })
}

/// The superblock of a volume in a block, or the first test that fails: those of the header, then the magic. An oid that
/// is left out isn't tested.
#[tactic(auto, using(crate::proofs::Supers::long_enough), unfolding(blk_read::specs::Object::sound_object))]
pub(crate) fn superblock<S: BlockSource>(
    alloc: Global,
    src: &mut S,
    oid: Option<u64>,
    block: u64,
    site: &Site,
) -> Result<Vec<u8>, Stop<VolStop>>
    requires site { IsSiteFor site.now (S.bytes_len src.old) }
    requires below { block < site.now.blocks }
    ensures found { (image : List ℕ) → S.bytes src.old ≡ Some image → Gives (λ bytes. bytes.items) result (tested site.now oid block (super_in image site.now block)) }
    ensures same { (image : List ℕ) → S.bytes src.old ≡ Some image → IfOk result (λ bytes. bytes.items ≡ super_in image site.now block) }
    ensures long { IfOk result (λ bytes. 1024 ≤ length bytes.items) }
    ensures reads { S.reads src.new ≤ S.reads src.old + 1 }
    ensures cause { IsErrOf result ReadFault → Rose (S.faults src.old) (S.faults src.new) }
    ensures kept { IsKept S.bytes S.bytes_len S.faults src.old src.new }
{
    let expect = Expect {
        kind: kind::VOLUME,
        subtype: None,
        oid,
        max_xid: site.max_xid,
    };
    let bytes = match read_sound(alloc, src, site, block, &expect) {
        Ok(bytes) => bytes,
        Err(stop) => return Err(raise(stop)),
    };
    if magic(&bytes) != volume::VOLUME_MAGIC {
        return Err(Stop::Found(VolStop::Magic { block }));
    }
    Ok(bytes)
}
