// Extended fields (Extended Fields, xf_blob_t and x_field_t).
ghost use Rattle.std.specs.Prelude.{◌≡◌, ◌≤◌, ◌+◌, drop, length, take};
ghost use Rattle.img_plan.specs.Records.{IsOneField};

use apfs_layout::record::{
    FIELD_FLAGS, FIELD_ITEM_LEN, FIELD_OF_SYSTEM, FIELD_SIZE, FIELD_TYPE, FIELDS_COUNT,
    FIELDS_HEAD_LEN, FIELDS_USED,
};
use img_edit::{put_bytes, put_u16};

// The length of one extended field with what tells of it: its size is a multiple of 8.
pub(crate) const ONE_FIELD: usize = FIELDS_HEAD_LEN + FIELD_ITEM_LEN;

// One field at the end of a value, in the bytes that are its own. Its size is a multiple of 8.
fn put_field(part: &mut [u8], kind: u8, contents: &[u8])
    requires whole { length part.old ≡ 8 + length contents.now }
    requires short { length contents.now ≤ 1000 }
    ensures head { IsOneField kind (length contents.now) part.new }
    ensures contents { drop 8 part.new ≡ contents.now }
{
    put_u16(part, FIELDS_COUNT, 1);
    put_u16(part, FIELDS_USED, contents.len() as u16);
    part[FIELDS_HEAD_LEN + FIELD_TYPE] = kind;
    part[FIELDS_HEAD_LEN + FIELD_FLAGS] = FIELD_OF_SYSTEM;
    put_u16(part, FIELDS_HEAD_LEN + FIELD_SIZE, contents.len() as u16);
    put_bytes(part, ONE_FIELD, contents);
}

// One field at the end of a value, from a place on.
pub(crate) fn put_field_at(value: &mut [u8], place: usize, kind: u8, contents: &[u8])
    requires whole { length value.old ≡ place + 8 + length contents.now }
    requires short { length contents.now ≤ 1000 }
    ensures head { IsOneField kind (length contents.now) (drop place value.new) }
    ensures contents { drop 8 (drop place value.new) ≡ contents.now }
    ensures front { take place value.new ≡ take place value.old }
{
    put_field(&mut value[place..], kind, contents);
}
