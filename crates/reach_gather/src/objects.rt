// The objects that a checkpoint maps, as they are named.
//
// Tests: the first block is one of the container, and the header. Gives: the bytes, and the first block. Rests on: the objects that a checkpoint
// maps.
ghost use Rattle.std.specs.Prelude.{◌≡◌, IfOk, IfSome, IsErrOf, option_map};
ghost use Rattle.nx_ring.specs.Reading.{HasWholeBlocks};
ghost use Rattle.obj_base.specs.Stops.{Gives, raised};
ghost use Rattle.obj_base.specs.declared.stop.Stop.TheVariants.{ReadFault, NoMemory};
ghost use Rattle.reach_rules.specs.declared.naming.Object.TheVariants.{OfId};
ghost use Rattle.reach_gather.specs.Told.{found_mapped, told_mapped, unsound};

use bt_node::NodeFault;
use nx_ring::Checkpoint;
use obj_base::{Expect, HeadFault, Stop, Unsound, Within, sound};
use reach_rules::{ReachFault, Why};

// Why the header of an object isn't sound, said of a named object.
pub(crate) fn raise(stop: Stop<Unsound<HeadFault>>) -> Stop<ReachFault>
    ensures { result ≡ raised unsound stop }
{
    stop.map(|Unsound { block, why }| ReachFault::Unsound {
        block,
        why: Why::Node(NodeFault::Head(why)),
    })
}

/// An object that a checkpoint maps.
#[derive(Drop)]
pub(crate) struct Mapped<'a> {
    /// The first block.
    pub block: u64,
    pub bytes: &'a [u8],
}

// The mapped object of an ephemeral id, where its first block is one of the container.
fn find(cp: &Checkpoint, oid: u64) -> Option<Mapped<'_>>
    ensures found { option_map (λ m. record { object = OfId oid; block = m.block; bytes = m.bytes.now }) result ≡ found_mapped cp.now oid }
    ensures whole { IfSome result (λ m. HasWholeBlocks m.bytes.now) }
{
    let bytes = cp.object(oid)?;
    let block = cp.object_block(oid)?;
    if cp.site().has_block(block) {
        Some(Mapped { block, bytes })
    } else {
        None
    }
}

/// The sound mapped object of a kind by its ephemeral id.
pub(crate) fn sound_object(
    cp: &Checkpoint,
    kind: u16,
    oid: u64,
) -> Result<Mapped<'_>, Stop<ReachFault>>
    ensures found { Gives (λ m. record { object = OfId oid; block = m.block; bytes = m.bytes.now }) result (told_mapped cp.now kind oid) }
    ensures whole { IfOk result (λ m. HasWholeBlocks m.bytes.now) }
    ensures no_read { IsErrOf result ReadFault → ⊥ }
    ensures no_memory { IsErrOf result NoMemory → ⊥ }
{
    let Some(mapped) = find(cp, oid) else {
        return Err(Stop::Found(ReachFault::Unnamed {
            within: Within::Ephemeral,
            oid,
            xid: cp.xid(),
        }));
    };
    let expect = Expect {
        kind,
        subtype: None,
        oid: Some(oid),
        max_xid: cp.xid(),
    };
    match sound(mapped.bytes, &expect) {
        Ok(_) => Ok(mapped),
        Err(bad) => Err(raise(bad.in_block(mapped.block))),
    }
}
