// Records that were put together by hand, as a writer would, and with each part wrong alone.
ghost use Rattle.std.specs.Prelude.{◌≡◌};
ghost use Rattle.fs_name.specs.Normal.{are_hashed};

use bt_keys::{FsKey, FsPlainKey, FsTreeKey};
use bt_node::Entry;
use fs_name::Names;
use fs_record::{
    Attr, AttrBody, DirEntry, FileExt, Inode, RecFault, Sibling, StreamSize, attr, entry, file_ext,
    inode, refused, sibling_link, sibling_map,
};
use std::alloc::{AllocError, Global};

// What an inode's value starts with, and its stream of 7 bytes in a block of 4,096; in pieces.
const INODE: &[&[u8]] = &[
    &[2, 0, 0, 0, 0, 0, 0, 0, 16, 0, 0, 0, 0, 0, 0, 0],
    &[0; 40],
    &[1, 0, 0, 0, 0, 0, 0, 0, 0, 0, 0, 0, 0x20, 0, 0, 0],
    &[0, 0, 0, 0, 0, 0, 0, 0, 0, 0x81],
    &[0; 10],
];

const STREAM_FIELD: &[&[u8]] = &[&[7, 0, 0, 0, 0, 0, 0, 0, 0, 16], &[0; 30]];

fn add(value: &mut Vec<u8>, pieces: &[&[u8]]) -> Result<(), AllocError> {
    for piece in pieces {
        value.extend_from_slice(piece)?;
    }
    Ok(())
}

// An inode's value with a field of so many bytes of type 4, padded, and then that stream.
fn inode_value(alloc: Global, len: u8, padded: &[u8]) -> Result<Vec<u8>, AllocError> {
    let mut value = Vec::new(alloc);
    add(&mut value, INODE)?;
    value.extend_from_slice(&[2, 0, 48, 0, 4, 0, len, 0, 8, 0, 40, 0])?;
    value.extend_from_slice(padded)?;
    add(&mut value, STREAM_FIELD)?;
    Ok(value)
}

const STREAM: StreamSize = StreamSize {
    size: 7,
    allocated: 4096,
};

// How many bytes a field has, and those bytes with what pads them.
const PADDED: &[(u8, &[u8])] = &[
    (0, &[]),
    (1, &[9; 8]),
    (4, &[9; 8]),
    (5, &[9; 8]),
    (8, &[9; 8]),
    (9, &[9; 16]),
];

// The stream of an inode with this value.
fn stream_in(value: &[u8]) -> Result<Option<StreamSize>, RecFault> {
    Ok(inode(value)?.stream())
}

fn has_stream(alloc: Global, len: u8, padded: &[u8]) -> Result<bool, AllocError> {
    Ok(stream_in(&inode_value(alloc, len, padded)?) == Ok(Some(STREAM)))
}

#[test]
fn a_stream_is_found_after_a_padded_field(rt: HostRuntime) {
    for (len, padded) in PADDED {
        assert!(rt;
            has_stream(rt.alloc(), *len, padded) == Ok(true),
            "{len} bytes"
        );
    }
}

// Whether this is the inode of such a value.
fn is_inode(read: Result<Inode<'_>, RecFault>) -> bool {
    match read {
        Ok(inode) => {
            (inode.parent(), inode.private_id(), inode.links()) == (2, 16, 1)
                && (inode.bsd_flags(), inode.mode(), inode.kind()) == (0x20, 0x8100, 8)
                && inode.stream() == Some(STREAM)
        }
        Err(_) => false,
    }
}

// How many of an inode's bytes there are, and its stream or why it is refused.
const CUT_INODES: &[(usize, Result<Option<StreamSize>, RecFault>)] = &[
    (91, Err(RecFault::Length)),
    (92, Ok(None)),
    (95, Err(RecFault::Fields)),
    (103, Err(RecFault::Fields)),
    (151, Err(RecFault::Fields)),
];

// Whether an inode is read, and refused where it is cut.
fn is_read(value: &[u8]) -> bool {
    for (len, stream) in CUT_INODES {
        if stream_in(value.get(..*len).unwrap_or(&[])) != *stream {
            return false;
        }
    }
    is_inode(inode(value))
}

#[test]
fn an_inode_is_read_and_refused_where_it_is_cut(rt: HostRuntime) {
    let value = inode_value(rt.alloc(), 3, &[9; 8])
        .ok()
        .expect(&rt, "memory");
    assert!(rt; is_read(&value));
}

// The keys of the entry `hello` of directory 2 with the hash 0x12345, and of the entry and the attribute `hello` without
// one.
const HASHED_KEY: &[u8] = &[
    2, 0, 0, 0, 0, 0, 0, 0x90, 6, 0x14, 0x8d, 4, b'h', b'e', b'l', b'l', b'o', 0,
];

const PLAIN_KEY: &[u8] = &[
    2, 0, 0, 0, 0, 0, 0, 0x90, 6, 0, b'h', b'e', b'l', b'l', b'o', 0,
];

// The value of an entry of the regular file 16, with a flag beside its kind, and a field of the sibling 18.
const ENTRY_VALUE: &[u8] = &[
    16, 0, 0, 0, 0, 0, 0, 0, 0, 0, 0, 0, 0, 0, 0, 0, 0x18, 0, 1, 0, 8, 0, 1, 0, 8, 0, 18, 0, 0, 0,
    0, 0, 0, 0,
];

const UNNAMED_KEY: &[u8] = &[2, 0, 0, 0, 0, 0, 0, 0x90, 1, 0, 0];

fn is_hello(read: Result<DirEntry<'_>, RecFault>, hash: u32) -> bool {
    match read {
        Ok(entry) => {
            (entry.hash(), entry.file_id(), entry.kind(), entry.sibling())
                == (hash, 16, 8, Some(18))
                && entry.name() == "hello"
        }
        Err(_) => false,
    }
}

fn is_refused<T: Drop>(read: Result<T, RecFault>, why: RecFault) -> bool {
    match read {
        Ok(_) => false,
        Err(found) => found == why,
    }
}

#[test]
#[tactic(auto, unfolding(bt_keys::specs::RecordKey::plain_name_len, bt_keys::specs::RecordKey::len_and_hash_of, apfs_model::specs::Bytes::u16_at, apfs_model::specs::Bytes::u32_at))]
fn an_entry_is_read(rt: HostRuntime) {
    assert!(rt;
        is_hello(entry(Names::Folded, HASHED_KEY, ENTRY_VALUE), 0x12345)
            && is_hello(entry(Names::Exact, PLAIN_KEY, ENTRY_VALUE), 0)
    );
    let short = entry(Names::Exact, PLAIN_KEY, &ENTRY_VALUE[..17]);
    assert!(rt; is_refused(short, RecFault::Length));
    let cut = entry(Names::Exact, PLAIN_KEY, &ENTRY_VALUE[..33]);
    assert!(rt; is_refused(cut, RecFault::Fields));
    let unnamed = entry(Names::Exact, UNNAMED_KEY, &ENTRY_VALUE[..18]);
    assert!(rt; is_refused(unnamed, RecFault::Name));
}

// The values of an attribute of three bytes, and of one whose five bytes are in the stream 20.
const EMBEDDED_VALUE: &[u8] = &[2, 0, 3, 0, 7, 8, 9];

const STREAMED_VALUE: &[u8] = &[
    1, 0, 48, 0, 20, 0, 0, 0, 0, 0, 0, 0, 5, 0, 0, 0, 0, 0, 0, 0, 0, 0, 0, 0, 0, 0, 0, 0, 0, 0, 0,
    0, 0, 0, 0, 0, 0, 0, 0, 0, 0, 0, 0, 0, 0, 0, 0, 0, 0, 0, 0, 0,
];

const EMBEDDED: AttrBody<'static> = AttrBody::Embedded(&[7, 8, 9]);

const STREAMED: AttrBody<'static> = AttrBody::Stream { id: 20, size: 5 };

fn is_attribute(read: Result<Attr<'_>, RecFault>, body: AttrBody<'_>) -> bool {
    match read {
        Ok(attr) => attr.name() == "hello" && attr.body() == body,
        Err(_) => false,
    }
}

#[test]
#[tactic(auto, unfolding(bt_keys::specs::RecordKey::plain_name_len, apfs_model::specs::Bytes::u16_at))]
fn an_attribute_is_read(rt: HostRuntime) {
    assert!(rt;
        is_attribute(attr(PLAIN_KEY, EMBEDDED_VALUE), EMBEDDED)
            && is_attribute(attr(PLAIN_KEY, STREAMED_VALUE), STREAMED)
    );
}

// Values of no attribute, and why they are refused.
const WRONG_ATTRIBUTES: &[(&[u8], RecFault)] = &[
    (&[2, 0, 0], RecFault::Length),
    (&[2, 0, 1, 0], RecFault::Length),
    (&[1, 0, 1, 0, 7], RecFault::Length),
    (&[0, 0, 1, 0, 7], RecFault::Flags),
];

#[test]
#[tactic(auto, unfolding(bt_keys::specs::RecordKey::plain_name_len, apfs_model::specs::Bytes::u16_at))]
fn a_wrong_attribute_is_refused(rt: HostRuntime) {
    for (i, (value, why)) in WRONG_ATTRIBUTES.iter().enumerate() {
        assert!(rt; is_refused(attr(PLAIN_KEY, value), *why), "attribute {i}");
    }
}

// The key of file 16 and sibling 18, or of stream 16 from byte 18 on.
const SECOND_KEY: &[u8] = &[16, 0, 0, 0, 0, 0, 0, 0x50, 18, 0, 0, 0, 0, 0, 0, 0];

// The value of a sibling with the name `a` in directory 2.
const LINK_VALUE: &[u8] = &[2, 0, 0, 0, 0, 0, 0, 0, 2, 0, b'a', 0];

// The value of a sibling map: the file 16.
const MAP_VALUE: &[u8] = &[16, 0, 0, 0, 0, 0, 0, 0];

fn is_link(read: Result<Sibling<'_>, RecFault>) -> bool {
    match read {
        Ok(link) => {
            (link.file(), link.sibling(), link.parent()) == (16, 18, 2) && link.name() == "a"
        }
        Err(_) => false,
    }
}

#[test]
fn siblings_are_read(rt: HostRuntime) {
    assert!(rt;
        is_link(sibling_link(SECOND_KEY, LINK_VALUE))
            && sibling_map(MAP_VALUE) == Ok(16)
            && sibling_map(&MAP_VALUE[..1]) == Err(RecFault::Length)
    );
}

// Values of no sibling, and why they are refused.
const WRONG_LINKS: &[(&[u8], RecFault)] = &[
    (&[2, 0, 0, 0, 0, 0, 0, 0, 2], RecFault::Length),
    (&[2, 0, 0, 0, 0, 0, 0, 0, 2, 0, b'a'], RecFault::Length),
    (&[2, 0, 0, 0, 0, 0, 0, 0, 1, 0, b'a', 0], RecFault::Name),
];

#[test]
fn a_wrong_sibling_is_refused(rt: HostRuntime) {
    for (i, (value, why)) in WRONG_LINKS.iter().enumerate() {
        assert!(rt;
            is_refused(sibling_link(SECOND_KEY, value), *why),
            "sibling {i}"
        );
    }
}

// The value of an extent, with flags in its eighth byte, and what it says under that key.
const EXTENT_VALUE: &[u8] = &[
    0, 16, 0, 0, 0, 0, 0, 0xff, 57, 0, 0, 0, 0, 0, 0, 0, 0, 0, 0, 0, 0, 0, 0, 0,
];

const EXTENT: FileExt = FileExt {
    logical: 18,
    length: 4096,
    block: 57,
};

#[test]
fn an_extent_is_read(rt: HostRuntime) {
    assert!(rt;
        file_ext(SECOND_KEY, EXTENT_VALUE) == Ok(EXTENT)
            && file_ext(SECOND_KEY, &EXTENT_VALUE[..23]) == Err(RecFault::Length)
    );
}

// How many bytes an extent has, and how many blocks.
const LENGTHS: &[(u64, u64)] = &[(0, 0), (1, 1), (4095, 1), (4096, 1), (4097, 2), (8192, 2)];

#[test]
fn an_extent_has_the_blocks_of_its_length(rt: HostRuntime) {
    for (length, wanted) in LENGTHS {
        let extent = FileExt {
            length: *length,
            ..EXTENT
        };
        assert!(rt; extent.blocks(4096) == *wanted);
    }
}

// Why a record of a tree with these keys is refused; `Flags` where its key isn't read.
fn why<K: FsTreeKey>(names: Names, key_bytes: &[u8], value: &[u8]) -> Option<RecFault>
    requires { are_hashed names ≡ K.HASHED }
{
    let Some(key) = K::read(key_bytes) else {
        return Some(RecFault::Flags);
    };
    let value = Some(value);
    refused(
        names,
        &Entry {
            key,
            key_bytes,
            value,
        },
    )
}

// The key of an inode, of a stream's id and of a sibling map; of an attribute; of an extent.
const INODE_KEY: &[u8] = &[16, 0, 0, 0, 0, 0, 0, 0x30];

const STREAM_KEY: &[u8] = &[16, 0, 0, 0, 0, 0, 0, 0x60];

const MAP_KEY: &[u8] = &[18, 0, 0, 0, 0, 0, 0, 0xc0];

const ATTRIBUTE_KEY: &[u8] = &[16, 0, 0, 0, 0, 0, 0, 0x40, 2, 0, b'a', 0];

const EXTENT_KEY: &[u8] = &[16, 0, 0, 0, 0, 0, 0, 0x80, 0, 0, 0, 0, 0, 0, 0, 0];

// A key, a value, and why the record is refused.
const RECORDS: &[(&[u8], &[u8], Option<RecFault>)] = &[
    (INODE_KEY, &[0; 92], None),
    (INODE_KEY, &[0; 91], Some(RecFault::Length)),
    (INODE_KEY, &[0; 95], Some(RecFault::Fields)),
    (ATTRIBUTE_KEY, &[2, 0, 0, 0], None),
    (ATTRIBUTE_KEY, &[3, 0, 0, 0], Some(RecFault::Length)),
    (ATTRIBUTE_KEY, &[0, 0, 0, 0], Some(RecFault::Flags)),
    (SECOND_KEY, &[2, 0, 0, 0, 0, 0, 0, 0, 2, 0, b'a', 0], None),
    (
        SECOND_KEY,
        &[2, 0, 0, 0, 0, 0, 0, 0, 1, 0, 0],
        Some(RecFault::Name),
    ),
    (EXTENT_KEY, &[0; 24], None),
    (EXTENT_KEY, &[0; 23], Some(RecFault::Length)),
    (MAP_KEY, &[0; 8], None),
    (MAP_KEY, &[0; 7], Some(RecFault::Length)),
    (STREAM_KEY, &[], None),
];

#[test]
fn records_are_refused_by_their_readers(rt: HostRuntime) {
    for (i, (key, value, want)) in RECORDS.iter().enumerate() {
        assert!(rt;
            why::<FsKey>(Names::Normal, key, value) == *want
                && why::<FsPlainKey>(Names::Exact, key, value) == *want,
            "record {i}"
        );
    }
}

const SHORT: Option<RecFault> = Some(RecFault::Length);

const UNNAMED: Option<RecFault> = Some(RecFault::Name);

#[test]
fn entries_are_refused_by_their_reader(rt: HostRuntime) {
    assert!(rt;
        why::<FsKey>(Names::Folded, HASHED_KEY, ENTRY_VALUE) == None
            && why::<FsKey>(Names::Folded, HASHED_KEY, &ENTRY_VALUE[..17]) == SHORT
            && why::<FsPlainKey>(Names::Exact, PLAIN_KEY, ENTRY_VALUE) == None
            && why::<FsPlainKey>(Names::Exact, UNNAMED_KEY, &ENTRY_VALUE[..18]) == UNNAMED
    );
}
