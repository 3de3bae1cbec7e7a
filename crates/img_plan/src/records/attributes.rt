// Extended attributes (Extended Attributes, j_xattr_key_t and j_xattr_val_t).
ghost use Rattle.std.specs.Prelude.{◌≡◌, ◌≤◌, ◌+◌, IfOk, drop, length, replicate};
ghost use Rattle.img_plan.specs.Records.{IsEmbeddedValue, IsNamedKey, IsStreamedValue};

use super::keys::{Item, key_named, zeros};
use apfs_layout::key::ATTRIBUTE;
use apfs_layout::record::{
    ATTRIBUTE_CONTENTS, ATTRIBUTE_CONTENTS_LEN, ATTRIBUTE_EMBEDDED, ATTRIBUTE_FLAGS,
    ATTRIBUTE_STREAM, ATTRIBUTE_STREAM_ID, ATTRIBUTE_STREAM_LEN, ATTRIBUTE_STREAM_SIZE,
};
use img_edit::{put_bytes, put_u16, put_u64};
use std::alloc::{AllocError, Global};

// The value of an attribute that holds its own bytes.
fn put_embedded(value: &mut [u8], contents: &[u8])
    requires short { length contents.now ≤ 60000 }
    requires whole { length value.old ≡ 4 + length contents.now }
    ensures { IsEmbeddedValue contents.now value.new }
{
    put_u16(value, ATTRIBUTE_FLAGS, ATTRIBUTE_EMBEDDED);
    put_u16(value, ATTRIBUTE_CONTENTS_LEN, contents.len() as u16);
    put_bytes(value, ATTRIBUTE_CONTENTS, contents);
}

// The value of an attribute whose bytes are a stream, in bytes that end with zeros.
fn put_streamed(value: &mut [u8], stream: u64, size: u64)
    requires len { length value.old ≡ 52 }
    requires zeros { drop 20 value.old ≡ replicate 32 0 }
    ensures { IsStreamedValue stream size value.new }
{
    put_u16(value, ATTRIBUTE_FLAGS, ATTRIBUTE_STREAM);
    put_u16(value, ATTRIBUTE_CONTENTS_LEN, ATTRIBUTE_STREAM_LEN as u16);
    put_u64(value, ATTRIBUTE_CONTENTS + ATTRIBUTE_STREAM_ID, stream);
    put_u64(value, ATTRIBUTE_CONTENTS + ATTRIBUTE_STREAM_SIZE, size);
}

/// The record of an attribute of a file that holds its own bytes.
pub fn attribute(alloc: Global, file: u64, name: &[u8], contents: &[u8]) -> Result<Item, AllocError>
    requires name { length name.now ≤ 1022 }
    requires contents { length contents.now ≤ 60000 }
    ensures key { IfOk result (λ item. IsNamedKey file 4 name.now item.0.items) }
    ensures value { IfOk result (λ item. IsEmbeddedValue contents.now item.1.items) }
{
    let key = key_named(alloc, file, ATTRIBUTE, name)?;
    let mut value = zeros(alloc, ATTRIBUTE_CONTENTS + contents.len())?;
    put_embedded(&mut value, contents);
    Ok((key, value))
}

/// The record of an attribute of a file whose bytes are a stream of its own, of so many bytes.
pub fn stream_attribute(
    alloc: Global,
    file: u64,
    name: &[u8],
    stream: u64,
    size: u64,
) -> Result<Item, AllocError>
    requires { length name.now ≤ 1022 }
    ensures key { IfOk result (λ item. IsNamedKey file 4 name.now item.0.items) }
    ensures value { IfOk result (λ item. IsStreamedValue stream size item.1.items) }
{
    let key = key_named(alloc, file, ATTRIBUTE, name)?;
    let mut value = zeros(alloc, ATTRIBUTE_CONTENTS + ATTRIBUTE_STREAM_LEN)?;
    put_streamed(&mut value, stream, size);
    Ok((key, value))
}
