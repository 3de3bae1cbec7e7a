// Blocks as tables of fields.
ghost use Rattle.std.specs.Prelude.{◌≡◌, ◌++◌, true, OnOk, length, replicate};
ghost use Rattle.img_format.specs.Tables.{laid, is_laid};
ghost use Rattle.img_format.specs.Steps.{value_bytes, fields_of};

use std::alloc::AllocError;

/// The bytes of a block.
pub(crate) const BLOCK: usize = 4096;

/// What a field holds: a number, the lowest byte first, or bytes.
#[derive(Clone, Copy)]
pub(crate) enum Value<'a> {
    U16(u16),
    U32(u32),
    U64(u64),
    Bytes(&'a [u8]),
}

/// A field: where it begins in its block, and what it holds.
pub(crate) type Field<'a> = (usize, Value<'a>);

/// Adds so many zeros.
pub(crate) fn add_zeros(block: &mut Vec<u8>, count: usize) -> Result<(), AllocError>
    ensures { OnOk result (block.new.items ≡ block.old.items ++ replicate count 0) }
{
    let all = block.len().checked_add(count).ok_or(AllocError)?;
    block.resize(all, 0)
}

/// Adds what a field holds.
#[tactic(auto, unfolding(crate::specs::Tables::num))]
pub(crate) fn add_value(block: &mut Vec<u8>, value: &Value<'_>) -> Result<(), AllocError>
    ensures { OnOk result (block.new.items ≡ block.old.items ++ value_bytes value.now) }
{
    match value {
        Value::U16(number) => block.extend_from_slice(&number.to_le_bytes()),
        Value::U32(number) => block.extend_from_slice(&number.to_le_bytes()),
        Value::U64(number) => block.extend_from_slice(&number.to_le_bytes()),
        Value::Bytes(bytes) => block.extend_from_slice(bytes),
    }
}

/// Adds fields in their order to what a block has, with zeros before each, and then zeros to the block's end.
pub(crate) fn lay(block: &mut Vec<u8>, fields: &[Field<'_>]) -> Result<(), AllocError>
    requires { is_laid BLOCK (length block.old.items) (fields_of fields.now) ≡ true }
    ensures { OnOk result (block.new.items ≡ block.old.items ++ laid BLOCK (length block.old.items) (fields_of fields.now)) }
{
    'fields: for field in fields {
        add_zeros(block, field.0 - block.len())?;
        add_value(block, &field.1)?;
    }
    add_zeros(block, BLOCK - block.len())?;
    Ok(())
}
