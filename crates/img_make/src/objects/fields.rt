// The fields of objects.
use img_edit::write;

/// A field: its place and its number, in 16, 32 or 64 bits.
#[derive(Clone, Copy)]
pub(crate) enum Field {
    U16(usize, u16),
    U32(usize, u32),
    U64(usize, u64),
}

// Writes a field, where the block has room for it.
fn put_field(block: &mut [u8], field: &Field) {
    let size = block.len();
    let _ = match *field {
        Field::U16(place, number) => write(block, size, 0, place, &number.to_le_bytes()),
        Field::U32(place, number) => write(block, size, 0, place, &number.to_le_bytes()),
        Field::U64(place, number) => write(block, size, 0, place, &number.to_le_bytes()),
    };
}

/// Writes fields, those that the block has room for.
pub(crate) fn put_fields(block: &mut [u8], fields: &[Field]) {
    for field in fields.iter() {
        put_field(block, field);
    }
}
