// Objects of one block: a header, fields, and the sum of both before them.
ghost use Rattle.std.specs.Prelude.{◌≡◌, ◌++◌, true, IfOk, OnOk, bit_or, replicate};
ghost use Rattle.img_format.specs.Tables.{laid, is_laid, object, plain};
ghost use Rattle.img_format.specs.Steps.{fields_of, header_bytes};

use crate::field::{BLOCK, Field, Value, add_value, add_zeros, lay};
use crate::places::XID;
use apfs_layout::object::{HEADER_LEN, OID};
use obj_base::{ObjFlags, sum64};
use std::alloc::{AllocError, Global};

/// How an object is found: the bits of its type above the kind (Objects, Object Type Flags).
pub(crate) const VIRTUAL: u32 = 0;

pub(crate) const EPHEMERAL: u32 = ObjFlags::EPHEMERAL.bits;

pub(crate) const PHYSICAL: u32 = ObjFlags::PHYSICAL.bits;

/// The header of an object, but for its sum, and for its transaction, which is the same in all.
#[derive(Clone, Copy)]
pub(crate) struct Head {
    pub oid: u64,
    /// How it is found.
    pub storage: u32,
    pub kind: u16,
    pub subtype: u16,
}

// The bytes of a header, with zeros for its sum.
fn add_head(block: &mut Vec<u8>, head: &Head) -> Result<(), AllocError>
    ensures { OnOk result (block.new.items ≡ block.old.items ++ (replicate 8 0 ++ header_bytes head.now)) }
{
    add_zeros(block, OID)?;
    add_value(block, &Value::U64(head.oid))?;
    add_value(block, &Value::U64(XID))?;
    add_value(block, &Value::U32(head.storage | u32::from(head.kind)))?;
    add_value(block, &Value::U32(u32::from(head.subtype)))
}

// A block with zeros for its sum.
fn unsealed(alloc: Global, head: &Head, fields: &[Field<'_>]) -> Result<Vec<u8>, AllocError>
    requires { is_laid BLOCK HEADER_LEN (fields_of fields.now) ≡ true }
    ensures { IfOk result (λ block. block.items ≡ replicate 8 0 ++ (header_bytes head.now ++ laid BLOCK HEADER_LEN (fields_of fields.now))) }
{
    let mut block = Vec::with_capacity(alloc, BLOCK)?;
    add_head(&mut block, head)?;
    lay(&mut block, fields)?;
    Ok(block)
}

/// Adds an object of one block.
pub(crate) fn add_object(
    front: &mut Vec<u8>,
    alloc: Global,
    head: &Head,
    fields: &[Field<'_>],
) -> Result<(), AllocError>
    requires { is_laid BLOCK HEADER_LEN (fields_of fields.now) ≡ true }
    ensures { OnOk result (front.new.items ≡ front.old.items ++ object head.now.oid (bit_or head.now.storage head.now.kind) head.now.subtype (fields_of fields.now)) }
{
    let block = unsealed(alloc, head, fields)?;
    add_value(front, &Value::U64(sum64(&block)))?;
    front.extend_from_slice(&block[OID..])
}

/// Adds a block without a header.
pub(crate) fn add_plain(
    front: &mut Vec<u8>,
    alloc: Global,
    fields: &[Field<'_>],
) -> Result<(), AllocError>
    requires { is_laid BLOCK 0 (fields_of fields.now) ≡ true }
    ensures { OnOk result (front.new.items ≡ front.old.items ++ plain (fields_of fields.now)) }
{
    let mut block = Vec::with_capacity(alloc, BLOCK)?;
    lay(&mut block, fields)?;
    front.extend_from_slice(&block)
}
