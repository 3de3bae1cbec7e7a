//! The header of an object (Objects, obj_phys_t).
ghost use Rattle.std.specs.Prelude.{◌≡◌, ◌≤◌, ◌-◌, ◌++◌, IfOk, OnOk, bit_or, replicate, vec_len};
ghost use Rattle.img_edit.specs.Nodes.{FitsHead, HasHead, header_of};

use crate::growing::{add_u32, add_u64, add_zeros};
use apfs_layout::object::{HEADER_LEN, OID};
use obj_base::ObjFlags;
use std::alloc::{AllocError, Global};

/// How an object is found: the bits of its type above the kind (Objects, Object Type Flags).
pub const VIRTUAL: u32 = 0;

pub const EPHEMERAL: u32 = ObjFlags::EPHEMERAL.bits;

pub const PHYSICAL: u32 = ObjFlags::PHYSICAL.bits;

/// The header of an object, but for its sum.
#[derive(Clone, Copy)]
pub struct Head {
    pub oid: u64,
    pub xid: u64,
    /// How it is found.
    pub storage: u32,
    pub kind: u16,
    pub subtype: u16,
}

impl Head {
    /// The header of a physical object, whose oid is its block.
    pub fn physical(block: usize, xid: u64, kind: u16) -> Head
        ensures { result ≡ record { oid = block; xid = xid; storage = PHYSICAL; kind = kind; subtype = 0 } }
    {
        Head {
            oid: block as u64,
            xid,
            storage: PHYSICAL,
            kind,
            subtype: 0,
        }
    }

    /// The header of an ephemeral object.
    pub fn ephemeral(oid: u64, xid: u64, kind: u16) -> Head
        ensures { result ≡ record { oid = oid; xid = xid; storage = EPHEMERAL; kind = kind; subtype = 0 } }
    {
        Head {
            oid,
            xid,
            storage: EPHEMERAL,
            kind,
            subtype: 0,
        }
    }
}

/// The type of an object that is found in a way.
pub fn type_of(storage: u32, kind: u16) -> u32
    ensures { result ≡ bit_or storage kind }
{
    storage | u32::from(kind)
}

// The bytes of a header, with zeros for its sum.
#[tactic(auto, unfolding(crate::specs::Nodes::header_of))]
pub(crate) fn add_head(bytes: &mut Vec<u8>, head: &Head) -> Result<(), AllocError>
    ensures added { OnOk result (bytes.new.items ≡ bytes.old.items ++ (replicate 8 0 ++ header_of head.now)) }
    ensures fits { OnOk result (FitsHead head.now) }
{
    add_zeros(bytes, OID)?;
    add_u64(bytes, head.oid)?;
    add_u64(bytes, head.xid)?;
    add_u32(bytes, type_of(head.storage, head.kind))?;
    add_u32(bytes, u32::from(head.subtype))
}

/// A block with a header, and zeros after it. Its sum isn't stored yet.
#[tactic(auto, using(crate::proofs::Nodes::headed_long))]
pub fn block_with(alloc: Global, size: usize, head: &Head) -> Result<Vec<u8>, AllocError>
    requires { 32 ≤ size }
    ensures len { IfOk result (λ block. vec_len block ≡ size) }
    ensures laid { IfOk result (λ block. block.items ≡ replicate 8 0 ++ header_of head.now ++ replicate (size - 32) 0) }
    ensures header { IfOk result (λ block. HasHead head.now block.items) }
{
    let mut block = Vec::with_capacity(alloc, size)?;
    add_head(&mut block, head)?;
    add_zeros(&mut block, size - HEADER_LEN)?;
    Ok(block)
}
