// Keys and values by hand.

use bt_keys::*;
use bt_node::{Rank, TreeKey};
use std::process::Abort;

// A key's bytes, and its rank and whether it is strict, or None where the bytes hold no key.
type Case = (&'static [u8], Option<(u64, u64, u64, bool)>);

fn seen<K: TreeKey>(key: &[u8]) -> Option<(u64, u64, u64, bool)> {
    let key = K::read(key)?;
    let rank = key.rank();
    Some((rank.id, rank.kind, rank.sub, key.strict()))
}

fn read_all<K: TreeKey>(rt: &impl Abort, cases: &[Case]) {
    for (i, (key, expected)) in cases.iter().enumerate() {
        assert!(rt; seen::<K>(key) == *expected, "key {i}");
    }
}

fn rank(id: u64, kind: u64, sub: u64) -> Rank {
    Rank { id, kind, sub }
}

const TWO_NUMBERS: &[Case] = &[
    (
        &[2, 1, 0, 0, 0, 0, 0, 0, 7, 0, 0, 0, 0, 0, 0, 0],
        Some((258, 7, 0, true)),
    ),
    (&[2, 1, 0, 0, 0, 0, 0, 0, 7, 0, 0, 0, 0, 0, 0], None),
];

const ONE_NUMBER: &[Case] = &[
    (&[2, 1, 0, 0, 0, 0, 0, 0], Some((258, 0, 0, true))),
    (&[2, 1, 0, 0, 0, 0, 0], None),
];

// Kinds 2 and 3, then a short key.
const RANGES: &[Case] = &[
    (&[2, 0, 0, 0, 0, 0, 0, 0x20], Some((2, 2, 0, true))),
    (&[2, 0, 0, 0, 0, 0, 0, 0x30], None),
    (&[2, 0, 0, 0, 0, 0, 0], None),
];

// A snapshot, its name under an id of all ones, and a name that leaves its key.
const SNAPSHOTS: &[Case] = &[
    (&[2, 0, 0, 0, 0, 0, 0, 0x10], Some((2, 1, 0, true))),
    (
        &[
            0xff, 0xff, 0xff, 0xff, 0xff, 0xff, 0xff, 0xbf, 2, 0, b'a', 0,
        ],
        Some((0x0fff_ffff_ffff_ffff, 11, 0, false)),
    ),
    (
        &[0xff, 0xff, 0xff, 0xff, 0xff, 0xff, 0xff, 0xbf, 2, 0, b'a'],
        None,
    ),
    (&[2, 0, 0, 0, 0, 0, 0, 0x30], None),
];

// An inode, an entry whose word 0x1405 says a name of 5 bytes and the hash 5, and a file extent at 4,096.
const HASHED: &[Case] = &[
    (&[2, 0, 0, 0, 0, 0, 0, 0x30], Some((2, 3, 0, true))),
    (
        &[
            2, 0, 0, 0, 0, 0, 0, 0x90, 5, 20, 0, 0, b'n', b'o', b't', b'e', 0,
        ],
        Some((2, 9, 5, false)),
    ),
    (
        &[
            2, 0, 0, 0, 0, 0, 0, 0x90, 5, 20, 0, 0, b'n', b'o', b't', b'e',
        ],
        None,
    ),
    (
        &[2, 0, 0, 0, 0, 0, 0, 0x80, 0, 16, 0, 0, 0, 0, 0, 0],
        Some((2, 8, 4096, true)),
    ),
    (&[2, 0, 0, 0, 0, 0, 0, 0x80, 0, 16, 0, 0, 0, 0, 0], None),
];

const PLAIN: &[Case] = &[
    (
        &[2, 0, 0, 0, 0, 0, 0, 0x90, 5, 0, b'n', b'o', b't', b'e', 0],
        Some((2, 9, 0, false)),
    ),
    (
        &[2, 0, 0, 0, 0, 0, 0, 0x90, 5, 0, b'n', b'o', b't', b'e'],
        None,
    ),
    (
        &[2, 0, 0, 0, 0, 0, 0, 0x50, 3, 0, 0, 0, 0, 0, 0, 0],
        Some((2, 5, 3, true)),
    ),
];

#[test]
fn keys_of_numbers(rt: HostRuntime) {
    read_all::<OmapKey>(&rt, TWO_NUMBERS);
    read_all::<QueueKey>(&rt, TWO_NUMBERS);
    read_all::<OmapSnapKey>(&rt, ONE_NUMBER);
}

#[test]
fn keys_of_records(rt: HostRuntime) {
    read_all::<ExtKey>(&rt, RANGES);
    read_all::<SnapKey>(&rt, SNAPSHOTS);
    read_all::<FsKey>(&rt, HASHED);
    read_all::<FsPlainKey>(&rt, PLAIN);
}

fn parts<K: FsTreeKey>(key: &[u8]) -> Option<(u64, u8, bool)> {
    let key = K::read(key)?;
    Some((key.id(), key.kind(), K::HASHED))
}

const EXTENT: &[u8] = &[2, 0, 0, 0, 0, 0, 0, 0x80, 0, 16, 0, 0, 0, 0, 0, 0];

#[test]
fn keys_of_file_systems(rt: HostRuntime) {
    assert!(rt;
        parts::<FsKey>(EXTENT) == Some((2, 8, true))
            && parts::<FsPlainKey>(EXTENT) == Some((2, 8, false))
            && parts::<FsPlainKey>(&EXTENT[..15]) == None
    );
}

#[test]
fn ranks_are_ordered_by_their_fields(rt: HostRuntime) {
    assert!(rt;
        rank(1, 9, 9).is_below(&rank(2, 0, 0))
            && rank(2, 3, 9) < rank(2, 9, 0)
            && rank(2, 9, 4) < rank(2, 9, 5)
            && !rank(2, 9, 5).is_below(&rank(2, 9, 5))
    );
}

// The value of an entry of an object map, and what it says.
const MAPPING: &[u8] = &[4, 0, 0, 0, 0, 16, 0, 0, 61, 0, 0, 0, 0, 0, 0, 0];

const PLACE: OmapValue = OmapValue {
    flags: 4,
    size: 4096,
    paddr: 61,
};

#[test]
fn values_of_an_object_map(rt: HostRuntime) {
    assert!(rt;
        omap_value(MAPPING) == Some(PLACE)
            && omap_value(&MAPPING[..15]) == None
            && omap_snap_flags(MAPPING) == Some(4)
            && omap_snap_flags(&MAPPING[..15]) == None
    );
}

// The value of an entry of a queue.
const LENGTH: &[u8] = &[61, 0, 0, 0, 0, 0, 0, 0];

#[test]
fn values_of_a_queue(rt: HostRuntime) {
    assert!(rt;
        queue_length(None) == Some(1)
            && queue_length(Some(LENGTH)) == Some(61)
            && queue_length(Some(&LENGTH[1..])) == None
    );
}

// The value of a range, and what it says.
const RANGE: &[u8] = &[
    3, 0, 0, 0, 0, 0, 0, 0x10, 16, 0, 0, 0, 0, 0, 0, 0, 0xff, 0xff, 0xff, 0xff,
];

const RANGE_PARTS: ExtValue = ExtValue {
    length: 3,
    kind: 1,
    owner: 16,
    count: -1,
};

#[test]
fn values_of_ranges(rt: HostRuntime) {
    assert!(rt; ext_value(RANGE) == Some(RANGE_PARTS) && ext_value(&RANGE[..19]) == None);
}
