// Extended fields (Extended Fields, xf_blob_t and x_field_t).
ghost use Rattle.std.specs.Prelude.{◌≡◌, ◌≤◌, ◌+◌, ◌*◌, ◌<◌, length, true, IfOk, IfSome, None};
ghost use Rattle.fs_record.specs.Fields as spec;
ghost use Rattle.fs_record.specs.Reading as reading;
ghost use Rattle.fs_record.specs.Search.{field_seen, place_after};

use crate::RecFault;
use apfs_layout::record as layout;
use obj_base::u16_at;

/// A field: its type, where its contents start, and how many bytes they have.
#[derive(Clone, Copy, PartialEq, Eq)]
pub(crate) struct Field {
    pub(crate) kind: u8,
    pub(crate) at: usize,
    pub(crate) len: usize,
}

// How many fields there are.
#[tactic(auto, unfolding(crate::specs::Fields::field_count_of))]
fn count(value: &[u8], at: usize) -> usize
    requires { at + 4 ≤ length value.now }
    ensures count { result ≡ spec.field_count_of value.now at }
    ensures few { result < 65536 }
{
    usize::from(u16_at(value, at + layout::FIELDS_COUNT))
}

// Whether the table of fields lies in the value.
#[tactic(auto, unfolding(crate::specs::Fields::has_table))]
fn has_table(value: &[u8], at: usize) -> bool
    requires { at ≤ length value.now }
    ensures { result ≡ spec.has_table value.now at }
{
    value.len() - at >= layout::FIELDS_HEAD_LEN
        && layout::FIELDS_HEAD_LEN + layout::FIELD_ITEM_LEN * count(value, at) <= value.len() - at
}

// Field `i`, whose contents start at `start`.
#[tactic(auto, unfolding(crate::specs::Fields::size_at))]
fn field_at(value: &[u8], at: usize, i: usize, start: usize) -> Field
    requires { at + 8 + 4 * i ≤ length value.now }
    ensures field { result ≡ spec.placed start (spec.size_at value.now at i) }
    ensures short { result.len < 65536 }
{
    let item = at + layout::FIELDS_HEAD_LEN + layout::FIELD_ITEM_LEN * i;
    Field {
        kind: value[item + layout::FIELD_TYPE],
        at: start,
        len: usize::from(u16_at(value, item + layout::FIELD_SIZE)),
    }
}

// A length rounded up.
fn padded(len: usize) -> usize
    requires { len < 65536 }
    ensures padded { result ≡ spec.padded len }
    ensures near { result ≤ len + 7 }
{
    layout::FIELD_UNIT * ((len + (layout::FIELD_UNIT - 1)) / layout::FIELD_UNIT)
}

// What is found after one more field: what was found before it, otherwise this field where it is of the type.
#[tactic(auto, unfolding(crate::specs::Search::field_seen))]
fn see(
    kind: u8,
    least: usize,
    found: Option<usize>,
    field: &Field,
) -> Result<Option<usize>, RecFault>
    ensures { result ≡ field_seen kind least found field.now }
{
    if found.is_some() || field.kind != kind {
        return Ok(found);
    }
    if field.len < least {
        return Err(RecFault::Fields);
    }
    Ok(Some(field.at))
}

// Searches the fields of a table.
#[tactic(auto, unfolding(crate::specs::Fields::has_table))]
fn search(value: &[u8], at: usize, kind: u8, least: usize) -> Result<Option<usize>, RecFault>
    requires table { spec.has_table value.now at ≡ true }
    ensures found { result ≡ place_after (length value.now) kind least None (spec.laid_out (at + 4 + 4 * spec.field_count_of value.now at) (spec.sizes_of value.now at)) }
    ensures inside { IfOk result (λ place. IfSome place (λ start. start + least ≤ length value.now)) }
{
    let count = count(value, at);
    let mut start = at + layout::FIELDS_HEAD_LEN + layout::FIELD_ITEM_LEN * count;
    let mut found = None;
    'fields: for i in 0..count {
        let field = field_at(value, at, i, start);
        if value.len() < start + field.len {
            return Err(RecFault::Fields);
        }
        found = match see(kind, least, found, &field) {
            Ok(found) => found,
            Err(why) => return Err(why),
        };
        start += padded(field.len);
    }
    Ok(found)
}

/// Where the contents of the first field of a type start, of the fields that start at `at`; None where there is none.
/// `Fields` where the table or a field leaves the value, or where that field has fewer than `least` bytes.
#[tactic(auto, using(crate::proofs::Places::place_none, crate::proofs::Places::place_untabled, crate::proofs::Places::place_tabled))]
pub(crate) fn find(
    value: &[u8],
    at: usize,
    kind: u8,
    least: usize,
) -> Result<Option<usize>, RecFault>
    requires { at ≤ length value.now }
    ensures found { result ≡ reading.field_place value.now at kind least }
    ensures inside { IfOk result (λ place. IfSome place (λ start. start + least ≤ length value.now)) }
{
    if value.len() == at {
        return Ok(None);
    }
    if !has_table(value, at) {
        return Err(RecFault::Fields);
    }
    search(value, at, kind, least)
}
