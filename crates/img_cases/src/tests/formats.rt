// What no clause says: that the calls succeed, and that a program that shares nothing with this one writes the same bytes.
use blk_source::{Bytes, MemSink};
use img_format::{FormatStop, Spec, format};
use std::alloc::Global;
use std::test::Fail;

// A container, and the Adler-32 sum of the bytes that `tests/cli/format_by_hand.py` writes for it.
struct Case {
    blocks: u64,
    name: &'static str,
    container: [u8; 16],
    volume: [u8; 16],
    adler: u32,
}

// A name of 255 bytes.
const LONG_NAME: &str =
    "Käse — ßßßßßßßßßßßßßßßßßßßßßßßßßßßßßßßßßßßßßßßßßßßßßßßßßßßßßßßßßßßßßßßßßßßßßßßßßßßßßßßßßßßßßßßßßßßßßßßßßßßßßßßßßßßßßßßßßßßßßßßßßßx";

const CASES: [Case; 2] = [
    Case {
        blocks: 256,
        name: "Small",
        container: *b"\x00\x11\x22\x33\x44\x55\x66\x77\x88\x99\xaa\xbb\xcc\xdd\xee\xff",
        volume: *b"\xff\xee\xdd\xcc\xbb\xaa\x99\x88\x77\x66\x55\x44\x33\x22\x11\x00",
        adler: 0x52ac_8b79,
    },
    Case {
        blocks: 300,
        name: LONG_NAME,
        container: *b"\x0f\x0e\x0d\x0c\x0b\x0a\x09\x08\x07\x06\x05\x04\x03\x02\x01\x00",
        volume: *b"\x10\x11\x12\x13\x14\x15\x16\x17\x18\x19\x1a\x1b\x1c\x1d\x1e\x1f",
        adler: 0xaaa0_24ee,
    },
];

// The Adler-32 sum of bytes (RFC 1950).
fn adler(bytes: &[u8]) -> u32 {
    let (mut a, mut b) = (1u64, 0u64);
    for byte in bytes {
        a = (a % 65_521 + u64::from(*byte)) % 65_521;
        b = (b % 65_521 + a) % 65_521;
    }
    (b % 65_521 * 65_536 + a % 65_521) as u32
}

// What is to be made.
fn spec_of(alloc: Global, case: &Case) -> Result<Spec, Fail> {
    Ok(Spec {
        blocks: case.blocks,
        name: Bytes::from_slice(alloc, case.name.as_bytes())?,
        container: case.container,
        volume: case.volume,
    })
}

#[test]
fn another_program_writes_the_same(rt: HostRuntime) -> Result<(), Fail> {
    let alloc = rt.alloc();
    for case in &CASES {
        let spec = spec_of(alloc, case)?;
        assert!(rt; spec.valid(), "{}", case.name);
        let mut sink = MemSink::new(alloc, 300 * 4096, vec![in alloc;]?)?;
        format(alloc, &spec, &mut sink).map_err(|_| "stopped")?;
        let contents = sink.contents();
        assert!(rt; contents.len() as u64 == case.blocks * 4096);
        assert!(rt; adler(contents) == case.adler, "{}", case.name);
    }
    Ok(())
}

// Which put is refused, and how many blocks are put before. The used blocks are put at once, and then each block of zeros.
const REFUSED: [(u64, usize); 3] = [(1, 0), (2, 57), (200, 255)];

#[test]
fn a_refused_put_stops_it(rt: HostRuntime) -> Result<(), Fail> {
    let alloc = rt.alloc();
    let spec = spec_of(alloc, &CASES[0])?;
    assert!(rt; spec.valid());
    for (put, kept) in REFUSED {
        let mut sink = MemSink::new(alloc, 256 * 4096, vec![in alloc; put]?)?;
        assert!(rt;
            format(alloc, &spec, &mut sink) == Err(FormatStop::WriteFault)
                && sink.contents().len() == kept * 4096
        );
    }
    Ok(())
}

// How many blocks are asked for, and a name.
const WRONG: [(u64, &[u8]); 6] = [
    (255, b"x"),
    (32_769, b"x"),
    (256, b""),
    (256, &[b'x'; 256]),
    (256, b"a\0b"),
    (256, b"\xff"),
];

#[test]
fn what_cannot_be_made(rt: HostRuntime) -> Result<(), Fail> {
    for (blocks, name) in WRONG {
        let spec = Spec {
            blocks,
            name: Bytes::from_slice(rt.alloc(), name)?,
            container: [0; 16],
            volume: [0; 16],
        };
        assert!(rt; !spec.valid(), "{blocks} blocks, a name of {}", name.len());
    }
    Ok(())
}
