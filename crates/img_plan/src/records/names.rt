// Names that end keys and values (File-System Objects, Extended Attributes, Siblings, Snapshot Metadata).
ghost use Rattle.std.specs.Prelude.{◌≡◌, ◌≤◌, ◌+◌, [], ◌∷◌, IfOk, length, take, drop, replicate};
ghost use Rattle.img_plan.specs.Records.{EndsInName};

use super::keys::zeros;
use img_edit::{put_bytes, put_u16};
use std::alloc::{AllocError, Global};

// The bytes of a name's length, which stands before the name.
const NAME_LEN_BYTES: usize = 2;

// A name in bytes of which the last is zero, with its length from a place on.
fn put_name(bytes: &mut [u8], place: usize, name: &[u8])
    requires short { length name.now ≤ 1022 }
    requires front { place ≤ 100 }
    requires whole { length bytes.old ≡ place + 3 + length name.now }
    requires last { drop (place + 2 + length name.now) bytes.old ≡ 0 ∷ [] }
    ensures named { EndsInName place name.now bytes.new }
    ensures front { take place bytes.new ≡ take place bytes.old }
{
    put_u16(bytes, place, name.len() as u16 + 1);
    put_bytes(bytes, place + NAME_LEN_BYTES, name);
}

// So many zeros, and then a name with its length.
pub(super) fn zeros_and_name(
    alloc: Global,
    place: usize,
    name: &[u8],
) -> Result<Vec<u8>, AllocError>
    requires short { length name.now ≤ 1022 }
    requires front { place ≤ 100 }
    ensures named { IfOk result (λ bytes. EndsInName place name.now bytes.items) }
    ensures len { IfOk result (λ bytes. length bytes.items ≡ place + 3 + length name.now) }
    ensures zeros { IfOk result (λ bytes. take place bytes.items ≡ replicate place 0) }
{
    let mut bytes = zeros(alloc, place + NAME_LEN_BYTES + name.len() + 1)?;
    put_name(&mut bytes, place, name);
    Ok(bytes)
}
