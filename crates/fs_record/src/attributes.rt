// Reading extended attributes (Extended Attributes, j_xattr_key_t and j_xattr_val_t).
ghost use Rattle.std.specs.Prelude.{◌≡◌, ◌≤◌, length, true, false};
ghost use Rattle.bt_keys.specs.RecordKey.{has_plain_name, plain_name_of};
ghost use Rattle.fs_record.specs.Attributes.{attribute_of, is_attribute_short, is_streamed, is_embedded, contents_of, body_in};
ghost use Rattle.fs_record.specs.Reading.{body_seen};

use crate::{Attr, AttrBody, RecFault};
use apfs_layout::{key as keys, record as layout};
use fs_name::stored_name;
use obj_base::{u16_at, u64_at};

// Whether the contents are a stream.
#[tactic(auto, unfolding(crate::specs::Attributes::flags_of))]
fn is_a_stream(value: &[u8]) -> bool
    requires { 4 ≤ length value.now }
    ensures { result ≡ is_streamed value.now }
{
    u16_at(value, layout::ATTRIBUTE_FLAGS) & layout::ATTRIBUTE_STREAM == layout::ATTRIBUTE_STREAM
}

// Whether the contents stand in the value.
#[tactic(auto, unfolding(crate::specs::Attributes::flags_of))]
fn is_in_the_value(value: &[u8]) -> bool
    requires { 4 ≤ length value.now }
    ensures { result ≡ is_embedded value.now }
{
    u16_at(value, layout::ATTRIBUTE_FLAGS) & layout::ATTRIBUTE_EMBEDDED
        == layout::ATTRIBUTE_EMBEDDED
}

// Whether the value is too short for its contents, or these for their stream.
#[tactic(auto, unfolding(crate::specs::Attributes::is_attribute_short, crate::specs::Attributes::contents_len))]
fn is_short(value: &[u8]) -> bool
    ensures { result ≡ is_attribute_short value.now }
{
    if value.len() < layout::ATTRIBUTE_CONTENTS {
        return true;
    }
    let len = usize::from(u16_at(value, layout::ATTRIBUTE_CONTENTS_LEN));
    value.len() < layout::ATTRIBUTE_CONTENTS + len
        || (is_a_stream(value) && len < layout::ATTRIBUTE_STREAM_LEN)
}

// The contents.
#[tactic(auto, unfolding(crate::specs::Attributes::is_attribute_short, crate::specs::Attributes::contents_len, crate::specs::Attributes::contents_of))]
fn contents(value: &[u8]) -> &[u8]
    requires { is_attribute_short value.now ≡ false }
    ensures contents { result.now ≡ contents_of value.now }
    ensures long { is_streamed value.now ≡ true → 48 ≤ length result.now }
{
    let len = usize::from(u16_at(value, layout::ATTRIBUTE_CONTENTS_LEN));
    &value[layout::ATTRIBUTE_CONTENTS..layout::ATTRIBUTE_CONTENTS + len]
}

// What the value holds.
#[tactic(auto, unfolding(crate::specs::Attributes::is_attribute_short, crate::specs::Attributes::body_in))]
fn body(value: &[u8]) -> AttrBody<'_>
    requires { is_attribute_short value.now ≡ false }
    ensures { body_seen result ≡ body_in value.now }
{
    let contents = contents(value);
    if is_a_stream(value) {
        return AttrBody::Stream {
            id: u64_at(contents, layout::ATTRIBUTE_STREAM_ID),
            size: u64_at(contents, layout::ATTRIBUTE_STREAM_SIZE),
        };
    }
    AttrBody::Embedded(contents)
}

// The name in a key, with its final zero.
#[tactic(auto, unfolding(bt_keys::specs::RecordKey::plain_name_len, bt_keys::specs::RecordKey::plain_name_of))]
pub(crate) fn plain_name(key: &[u8]) -> &[u8]
    requires { has_plain_name key.now ≡ true }
    ensures { result.now ≡ plain_name_of key.now }
{
    &key[keys::PLAIN_NAME..keys::PLAIN_NAME + usize::from(u16_at(key, keys::NAME_LEN))]
}

/// The attribute of a record, whose key has its name. `Length` where the value is too short for its contents, or these
/// for their stream; otherwise `Flags` where not exactly one of the two flags is set; otherwise `Name` where the key's
/// isn't a proper name.
#[tactic(auto, unfolding(crate::specs::Attributes::attribute_of, crate::specs::Attributes::is_attribute_short, fs_name::specs::Steps::name_of))]
pub fn attr<'a>(key: &'a [u8], value: &'a [u8]) -> Result<Attr<'a>, RecFault>
    requires { has_plain_name key.now ≡ true }
    ensures { result ≡ attribute_of key.now value.now }
{
    if is_short(value) {
        return Err(RecFault::Length);
    }
    if is_a_stream(value) == is_in_the_value(value) {
        return Err(RecFault::Flags);
    }
    match stored_name(plain_name(key)) {
        Some(name) => Ok(Attr {
            name,
            body: body(value),
        }),
        None => Err(RecFault::Name),
    }
}
