// Values from outside: sums worked out by the closed formula apart from the program, and each call once.
use apfs_model::{NoMemory, ReadFailed};
use bitflags::Flags;
use obj_base::{
    Bad, Expect, Feature, HeadFault, ObjFlags, Stop, Unsound, is_accepted, sound, sum64, u16_at,
    u32_at, u64_at,
};
use std::alloc::{AllocError, Global};

// How many bytes there are, what each of them is but some, those by place, and their sum.
type Summed = (usize, u8, &'static [(usize, u8)], u64);

const SUMS: &[Summed] = &[
    (16, 0, &[(8, 1), (12, 2)], 0x0000_0004_ffff_fff8),
    (4096, 0, &[], 0xffff_ffff_ffff_ffff),
    (4096, 0, &[(8, 1)], 0x0000_03fe_ffff_fc00),
    (4096, 0, &[(4092, 1)], 0x0000_0001_ffff_fffd),
    (65536, 0xff, &[], 0xffff_ffff_ffff_ffff),
    (131112, 1, &[], 0x8888_8888_eeee_eeee),
];

fn filled(
    alloc: Global,
    len: usize,
    byte: u8,
    others: &[(usize, u8)],
) -> Result<Vec<u8>, AllocError> {
    let mut bytes = vec![in alloc; byte; len]?;
    for (at, other) in others {
        if let Some(place) = bytes.get_mut(*at) {
            *place = *other;
        }
    }
    Ok(bytes)
}

fn has_sum(alloc: Global, row: &Summed) -> Result<bool, AllocError> {
    let bytes = filled(alloc, row.0, row.1, row.2)?;
    Ok(bytes.len() >= 12 && bytes.len() % 4 == 0 && sum64(&bytes) == row.3)
}

#[test]
fn sums(rt: HostRuntime) {
    for (i, row) in SUMS.iter().enumerate() {
        assert!(rt; has_sum(rt.alloc(), row) == Ok(true), "sum {i}");
    }
}

// The bytes of a sum as an object has them.
const STORED: [u8; 8] = [0, 0xfc, 0xff, 0xff, 0xfe, 3, 0, 0];

#[test]
fn a_sum_is_stored_with_the_lowest_byte_first(rt: HostRuntime) {
    let mut first_word = [0u8; 4096];
    first_word[8] = 1;
    assert!(rt; sum64(&first_word).to_le_bytes() == STORED);
}

// The numbers stand from the second byte on.
const NUMBERS: &[u8] = &[9, 1, 2, 3, 4, 5, 6, 7, 8];

#[test]
fn numbers_have_the_lowest_byte_first(rt: HostRuntime) {
    assert!(rt;
        u16_at(NUMBERS, 1) == 0x0201
            && u32_at(NUMBERS, 1) == 0x0403_0201
            && u64_at(NUMBERS, 1) == 0x0807_0605_0403_0201
    );
}

// An object map of oid 5 and transaction 3; its sum was worked out apart.
const OBJECT: [u8; 36] = [
    0x83, 0xff, 0xff, 0xff, 0x61, 0x00, 0x00, 0xc0, 5, 0, 0, 0, 0, 0, 0, 0, 3, 0, 0, 0, 0, 0, 0, 0,
    11, 0, 0, 0x40, 7, 0, 0, 0, 0, 0, 0, 0,
];

const EXPECTED: Expect = Expect {
    kind: 11,
    subtype: Some(7),
    oid: Some(5),
    max_xid: 3,
};

// The object is later than that.
const EARLIER: Expect = Expect {
    max_xid: 2,
    ..EXPECTED
};

#[test]
fn a_header_is_tested(rt: HostRuntime) {
    let Ok(header) = sound(&OBJECT, &EXPECTED) else {
        panic!(rt; "it isn't sound");
    };
    assert!(rt;
        (header.oid, header.xid, header.kind, header.subtype) == (5, 3, 11, 7)
            && header.flags.contains(ObjFlags::PHYSICAL)
    );
    assert!(rt; sound(&OBJECT, &EARLIER) == Err(Bad::Found(HeadFault::BadXid)));
}

const WRONG_SUM: Bad<HeadFault> = Bad::Found(HeadFault::BadSum);

const SEALED: Bad<HeadFault> = Bad::Unsupported(Feature::Sealed);

// The same in block 7.
const SUM_IN_SEVEN: Stop<Unsound<HeadFault>> = Stop::Found(Unsound {
    block: 7,
    why: HeadFault::BadSum,
});

const SEALED_IN_SEVEN: Stop<Unsound<HeadFault>> = Stop::Unsupported {
    feature: Feature::Sealed,
    block: 7,
};

#[test]
fn causes_are_carried(rt: HostRuntime) {
    assert!(rt;
        Stop::<HeadFault>::from(ReadFailed) == Stop::ReadFault
            && Stop::<HeadFault>::from(NoMemory) == Stop::NoMemory
            && WRONG_SUM.in_block(7) == SUM_IN_SEVEN
            && SEALED.in_block(7) == SEALED_IN_SEVEN
            && Stop::Found(HeadFault::BadSum).map(Bad::Found) == Stop::Found(WRONG_SUM)
    );
}

#[test]
fn features_have_names_and_few_sizes_are_accepted(rt: HostRuntime) {
    assert!(rt;
        Feature::LaterTree.name() == "LaterTree" && is_accepted(4096) && !is_accepted(4097)
    );
}
