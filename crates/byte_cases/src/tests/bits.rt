// Counts and places worked out by hand. Runs of 130 bytes have two parts of 64 and a rest of two.
use bit_lanes::{and_any, and_into, count_ones, first_difference, least_set, or_into, set_range};

// Bytes, and how many of their bits are set.
const COUNTS: &[(&[u8], u64)] = &[
    (&[], 0),
    (&[0xff, 0xff, 0xff], 24),
    (&[0x01, 0x80, 0x55], 6),
    (&[0xff; 64], 512),
    (&[0x52; 130], 390),
];

#[test]
fn counts(rt: HostRuntime) {
    for (bytes, want) in COUNTS {
        assert!(rt; count_ones(bytes) == *want, "{want}");
    }
}

// 130 bytes that are alike but for one: what the others are, the place of the one, and what it is.
type Long = (u8, usize, u8);

fn long(row: Long) -> [u8; 130] {
    let (others, at, one) = row;
    let mut bytes = [others; 130];
    if at < 130 {
        bytes[at] = one;
    }
    bytes
}

// Two runs of bytes, and the place of the first bit in which they differ.
const DIFFERENCES: &[(&[u8], &[u8], Option<usize>)] = &[
    (&[], &[], None),
    (&[0x00, 0x04], &[0x00, 0x00], Some(10)),
    (&[0x80, 0x01], &[0x00, 0x00], Some(7)),
    (&[0x11, 0xb0], &[0x11, 0x10], Some(13)),
];

const LONG_DIFFERENCES: &[(Long, Long, Option<usize>)] = &[
    ((0, 100, 0x14), (0, 129, 0x80), Some(802)),
    ((0, 0, 0), (0, 129, 0x80), Some(1039)),
    ((0, 129, 0x80), (0, 129, 0x80), None),
];

fn differ_at(a: &[u8], b: &[u8], want: Option<usize>) -> bool {
    a.len() == b.len() && a.len() < 1000 && first_difference(a, b) == want
}

#[test]
fn least_differences(rt: HostRuntime) {
    for (i, (a, b, want)) in DIFFERENCES.iter().enumerate() {
        assert!(rt; differ_at(a, b, *want), "row {i}");
    }
    for (i, (a, b, want)) in LONG_DIFFERENCES.iter().enumerate() {
        assert!(rt; differ_at(&long(*a), &long(*b), *want), "long row {i}");
    }
}

#[test]
fn a_bit_of_either_is_set(rt: HostRuntime) {
    let mut few = [0x01, 0x80, 0x00];
    or_into(&mut few, &[0x10, 0x80, 0x00]);
    assert!(rt; few == [0x11, 0x80, 0x00]);
    let mut many = [0x03; 130];
    or_into(&mut many, &[0x06; 130]);
    assert!(rt; many == [0x07; 130]);
}

// Two runs of bytes, and whether a bit is set in both.
const SHARED: &[(&[u8], &[u8], bool)] = &[
    (&[], &[], false),
    (&[0x01, 0xf0], &[0x02, 0x0f], false),
    (&[0x01, 0xf0], &[0x02, 0x10], true),
];

// The same of 130 bytes of which each is 1.
const ONES: &[u8] = &[0x01; 130];

const SHARED_WITH_ONES: &[(Long, bool)] = &[
    ((0x06, 0, 0x06), false),
    ((0x06, 70, 0x07), true),
    ((0x06, 128, 0x07), true),
];

fn share(a: &[u8], b: &[u8]) -> Option<bool> {
    if a.len() == b.len() {
        Some(and_any(a, b))
    } else {
        None
    }
}

#[test]
fn shared_bits(rt: HostRuntime) {
    for (i, (a, b, want)) in SHARED.iter().enumerate() {
        assert!(rt; share(a, b) == Some(*want), "row {i}");
    }
    for (i, (b, want)) in SHARED_WITH_ONES.iter().enumerate() {
        assert!(rt; share(ONES, &long(*b)) == Some(*want), "long row {i}");
    }
}

#[test]
fn a_bit_of_both_is_left(rt: HostRuntime) {
    let mut few = [0x11, 0x80, 0x0f];
    and_into(&mut few, &[0x10, 0x7f, 0x3c]);
    assert!(rt; few == [0x10, 0x00, 0x0c]);
}

// Where it begins and ends, and the least bit that is set there.
const LEAST: &[(usize, usize, Option<usize>)] = &[
    (0, 5, None),
    (0, 6, Some(5)),
    (7, 640, Some(7)),
    (19, 630, None),
    (19, 640, Some(630)),
    (633, 640, None),
];

// Where bits are set, and bytes that stand from a place up to another afterwards.
const RANGES: &[(usize, usize, usize, usize, &[u8])] = &[
    (5, 5, 0, 80, &[0x00; 80]),
    (5, 19, 0, 4, &[0xe0, 0xff, 0x07, 0x00]),
    (630, 633, 77, 80, &[0x00, 0xc0, 0x01]),
];

fn are_set(bits: &mut [u8; 80]) -> bool {
    for (from, to, first, end, bytes) in RANGES {
        if from > to || *to > 640 {
            return false;
        }
        set_range(bits, *from, *to);
        if bits.get(*first..*end) != Some(*bytes) {
            return false;
        }
    }
    true
}

fn is_least(bits: &[u8; 80], from: usize, to: usize, want: Option<usize>) -> bool {
    from <= to && to <= 640 && least_set(bits, from, to) == want
}

#[test]
fn bits_from_a_place_up_to_another(rt: HostRuntime) {
    let mut bits = [0; 80];
    assert!(rt; are_set(&mut bits));
    for (from, to, want) in LEAST {
        assert!(rt; is_least(&bits, *from, *to, *want), "{from} {to}");
    }
}
