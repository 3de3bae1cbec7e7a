// The bits of a run from a place up to another.
ghost use Rattle.std.specs.Prelude.{◌≡◌, ℕ, ◌+◌, ◌*◌, ◌%◌, ◌^◌, ◌≤◌, ◌<◌, ◌||◌, ◌==◌, length};
ghost use Rattle.apfs_model.specs.Bytes.{bit_at};
ghost use Rattle.bit_lanes.specs.Places.{is_from, IsSearched};

use crate::bit::is_set;
use crate::differ::first_difference;
use crate::words::PART;

// Sets a bit.
fn set_bit(bits: &mut [u8], place: usize)
    requires { place < 8 * length bits.old }
    ensures { (k : ℕ) → bit_at bits.new k ≡ (bit_at bits.old k || (k == place)) }
{
    bits[place / 8] |= 1 << (place % 8);
}

// Sets the bits from a place up to another, one by one.
fn set_bits(bits: &mut [u8], from: usize, to: usize)
    requires order { from ≤ to }
    requires inside { to ≤ 8 * length bits.old }
    ensures { (k : ℕ) → bit_at bits.new k ≡ (bit_at bits.old k || is_from from to k) }
{
    'bits: for place in from..to {
        set_bit(bits, place);
    }
}

// Sets all bits of the bytes from one up to another.
fn set_bytes(bits: &mut [u8], from: usize, to: usize)
    requires order { from ≤ to }
    requires inside { to ≤ length bits.old }
    ensures { (k : ℕ) → bit_at bits.new k ≡ (bit_at bits.old k || is_from (8 * from) (8 * to) k) }
{
    bits[from..to].fill(0xff);
}

// The first place of a whole byte from a place on, and not beyond another.
fn edge(from: usize, to: usize) -> usize
    requires { from ≤ to }
    ensures above { from ≤ result }
    ensures below { result ≤ to }
    ensures whole { result < to → result % 8 ≡ 0 }
{
    from + (to - from).min((8 - from % 8) % 8)
}

/// Sets the bits from a place up to another, whole bytes at once.
pub fn set_range(bits: &mut [u8], from: usize, to: usize)
    requires order { from ≤ to }
    requires inside { to ≤ 8 * length bits.old }
    ensures { (k : ℕ) → bit_at bits.new k ≡ (bit_at bits.old k || is_from from to k) }
{
    let head = edge(from, to);
    let tail = head.max(8 * (to / 8));
    set_bits(bits, from, head);
    set_bytes(bits, head / 8, tail / 8);
    set_bits(bits, tail, to);
}

// The least bit that is set from a place up to another, one by one.
fn least_bit(bits: &[u8], from: usize, to: usize) -> Option<usize>
    requires order { from ≤ to }
    requires inside { to ≤ 8 * length bits.now }
    ensures { IsSearched bits.now from to result }
{
    'bits: for place in from..to {
        if is_set(bits, place) {
            return Some(place);
        }
    }
    None
}

// The least bit that is set in 64 bytes or fewer.
fn least_in_part(part: &[u8]) -> Option<usize>
    requires { length part.now ≤ PART }
    ensures { IsSearched part.now 0 (8 * length part.now) result }
{
    let zeros = [0u8; PART];
    first_difference(part, &zeros[..part.len()])
}

// The least bit that is set in the bytes from one up to another, 64 bytes at a time.
fn least_in_bytes(bits: &[u8], from: usize, to: usize) -> Option<usize>
    requires order { from ≤ to }
    requires inside { to ≤ length bits.now }
    requires short { length bits.now ≤ 2 ^ 61 }
    ensures { IsSearched bits.now (8 * from) (8 * to) result }
{
    'parts: for part in 0..(to - from).div_ceil(PART) {
        let at = from + PART * part;
        if let Some(place) = least_in_part(&bits[at..to.min(at + PART)]) {
            return Some(8 * at + place);
        }
    }
    None
}

/// The least bit that is set from a place up to another, 64 whole bytes at a time.
pub fn least_set(bits: &[u8], from: usize, to: usize) -> Option<usize>
    requires order { from ≤ to }
    requires inside { to ≤ 8 * length bits.now }
    requires short { length bits.now ≤ 2 ^ 61 }
    ensures { IsSearched bits.now from to result }
{
    let head = edge(from, to);
    if let Some(place) = least_bit(bits, from, head) {
        return Some(place);
    }
    if head == to {
        return None;
    }
    match least_in_bytes(bits, head / 8, to.div_ceil(8)) {
        Some(place) if place < to => Some(place),
        _ => None,
    }
}
