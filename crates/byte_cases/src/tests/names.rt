// How names are compared, by sums and hashes of the standard and of another program.
use apfs_model::NoMemory;
use fs_name::{Names, ascii_hash, crc32c, name_hash, same_name, stored_name};
use std::alloc::Global;

// Features, how names are compared, and whether they are hashed.
const FEATURES: &[(u64, Names, bool)] = &[
    (0, Names::Exact, false),
    (2, Names::Exact, false),
    (8, Names::Normal, true),
    (1, Names::Folded, true),
    (9, Names::Folded, true),
];

#[test]
fn features_tell_how_names_are_compared(rt: HostRuntime) {
    for (incompat, names, hashed) in FEATURES {
        assert!(rt; Names::of_features(*incompat) == *names && names.are_hashed() == *hashed);
    }
}

// The check value of CRC-32C, and the examples of RFC 3720, B.4.
const SUMS: &[(&[u8], u32)] = &[
    (b"", 0),
    (b"123456789", 0xe306_9283),
    (&[0x00; 32], 0x8a91_36aa),
    (&[0xff; 32], 0x62a8_ab43),
];

#[test]
fn sums_of_the_standard(rt: HostRuntime) {
    for (bytes, want) in SUMS {
        assert!(rt; crc32c(bytes) == *want, "{want:x}");
    }
}

// The word in a key has the hash above the length with the final zero.
#[test]
fn a_and_capital_a_hash_alike_where_letters_are_folded(rt: HostRuntime) {
    let hash = ascii_hash(Names::Folded, b"A");
    assert!(rt;
        hash == 0x1e_55ec
            && ascii_hash(Names::Folded, b"a") == hash
            && u64::from(hash) * 1024 + 2 == 0x7957_b002
    );
}

// A name of 51 bytes in five scripts, its decomposition, and the folding of that, by another program.
const LONG: &str =
    "Gr\u{f6}\u{df}e \u{3a9}\u{39c}\u{388}\u{393}\u{391} \u{d55c}\u{ae00} \u{c5}ngstr\u{f6}m, \u{65e5}\u{672c}\u{8a9e}.txt";

const LONG_DECOMPOSED: &str =
    "Gro\u{308}\u{df}e \u{3a9}\u{39c}\u{395}\u{301}\u{393}\u{391} \u{1112}\u{1161}\u{11ab}\u{1100}\u{1173}\u{11af} A\u{30a}ngstro\u{308}m, \u{65e5}\u{672c}\u{8a9e}.txt";

const LONG_FOLDED: &str =
    "gro\u{308}sse \u{3c9}\u{3bc}\u{3b5}\u{301}\u{3b3}\u{3b1} \u{1112}\u{1161}\u{11ab}\u{1100}\u{1173}\u{11af} a\u{30a}ngstro\u{308}m, \u{65e5}\u{672c}\u{8a9e}.txt";

// The hashes of a name under each kind, by another program.
const HASHES: &[(&str, [u32; 3])] = &[
    ("", [0x3f_ffff, 0x3f_ffff, 0x3f_ffff]),
    ("A", [0x3b_4167, 0x3b_4167, 0x1e_55ec]),
    ("Read Me.TXT", [0x0a_e875, 0x0a_e875, 0x30_bcea]),
    ("CAF\u{c9}", [0x1b_fff1, 0x20_2da6, 0x28_68e1]),
    ("Cafe\u{301}", [0x3f_a967, 0x3f_a967, 0x28_68e1]),
    ("stra\u{df}e", [0x3f_993d, 0x3f_993d, 0x14_6c83]),
    ("\u{d55c}", [0x03_b483, 0x10_ad04, 0x10_ad04]),
    ("\u{1fb4}", [0x18_ce64, 0x32_542d, 0x13_3556]),
    ("\u{1f600}", [0x2f_ab5c, 0x2f_ab5c, 0x2f_ab5c]),
    (LONG, [0x0f_de44, 0x2c_6c26, 0x39_0a1f]),
];

fn hashes_of(alloc: Global, name: &str) -> Result<[u32; 3], NoMemory> {
    Ok([
        name_hash(alloc, Names::Exact, name)?,
        name_hash(alloc, Names::Normal, name)?,
        name_hash(alloc, Names::Folded, name)?,
    ])
}

#[test]
fn hashes(rt: HostRuntime) {
    for (name, want) in HASHES {
        assert!(rt; hashes_of(rt.alloc(), name) == Ok(*want), "{name}");
    }
}

// Which names are the same under each kind, by another program.
const SAME: &[(&str, &str, [bool; 3])] = &[
    ("", "", [true, true, true]),
    ("a", "b", [false, false, false]),
    ("readme", "README", [false, false, true]),
    ("caf\u{e9}", "cafe\u{301}", [false, true, true]),
    ("CAF\u{c9}", "cafe\u{301}", [false, false, true]),
    ("stra\u{df}e", "STRASSE", [false, false, true]),
    ("\u{3c3}", "\u{3c2}", [false, false, true]),
    ("\u{d55c}", "\u{1112}\u{1161}\u{11ab}", [false, true, true]),
    ("\u{1fb4}", "\u{3b1}\u{345}\u{301}", [false, true, true]),
    (LONG, LONG_DECOMPOSED, [false, true, true]),
    (LONG, LONG_FOLDED, [false, false, true]),
];

fn are_same(alloc: Global, a: &str, b: &str) -> Result<[bool; 3], NoMemory> {
    Ok([
        same_name(alloc, Names::Exact, a, b)?,
        same_name(alloc, Names::Normal, a, b)?,
        same_name(alloc, Names::Folded, a, b)?,
    ])
}

#[test]
fn same_names(rt: HostRuntime) {
    for (a, b, want) in SAME {
        assert!(rt; are_same(rt.alloc(), a, b) == Ok(*want), "{a} {b}");
    }
}

// Which bytes are stored names.
const STORED: &[(&[u8], Option<&str>)] = &[
    (b"a\0", Some("a")),
    (b"\xc3\xa9\0", Some("\u{e9}")),
    (b"", None),
    (b"\0", None),
    (b"a", None),
    (b"a\0\0", None),
    (b"a\0b\0", None),
    (b"\xff\0", None),
];

#[test]
fn stored_names(rt: HostRuntime) {
    for (raw, want) in STORED {
        assert!(rt; stored_name(raw) == *want, "{raw:?}");
    }
}
