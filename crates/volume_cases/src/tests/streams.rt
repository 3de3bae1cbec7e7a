// The stream of the sample container's file that begins with a hole: 5,000 bytes, of which the first 4,096 are a hole and
// the others are `A`s in block 57.
ghost use Rattle.std.specs.Prelude.{length, IfOk};
ghost use Rattle.obj_base.specs.Site.{IsSiteFor};

use blk_source::{MemSink, MemSource, NoMemory};
use file_extent::{CopyFault, Stream, StreamStop};
use img_make::{Sample, edit, make, sample};
use nx_ring::newest;
use obj_base::Stop;
use std::alloc::Global;
use vol_view::{heads, live, load};

const FILE: u64 = 16;

const SIZE: u64 = 5000;

// More than a piece, of 65,536 bytes.
const LONG: u64 = 70_000;

// The node of the view's records, and the start of the value of the second extent: a length of 4,096 and block 57.
const LEAF: usize = 54;

const EXTENT: [u8; 16] = [0, 16, 0, 0, 0, 0, 0, 0, 57, 0, 0, 0, 0, 0, 0, 0];

fn container(alloc: Global) -> Result<Vec<u8>, NoMemory> {
    make(alloc, &sample(alloc, Sample::P)?)
}

// The container with one byte changed in the value of the second extent; what is wrong with that is told as want of memory.
fn edited(alloc: Global, at: usize, byte: u8) -> Result<MemSource, NoMemory> {
    let mut image = container(alloc)?;
    let Some(place) = image
        .get(LEAF * 4096..LEAF * 4096 + 4096)
        .unwrap_or(&[])
        .windows(16)
        .position(|bytes| bytes == EXTENT.as_slice())
    else {
        return Err(NoMemory);
    };
    if place > 4000 || at > 16 || !edit(&mut image, 4096, LEAF, place + at, &[byte]) {
        return Err(NoMemory);
    }
    Ok(MemSource::new(image, Vec::new(alloc)))
}

// The stream of an id in the live view, with a size; a fault of the layers below is no answer of these tests.
fn open(alloc: Global, src: &mut MemSource, id: u64, size: u64) -> Result<Stream, Stop<StreamStop>>
    ensures { IfOk result (λ stream. IsSiteFor stream.site (length src.new.bytes)) }
{
    let Ok(cp) = newest(alloc, src) else {
        return Err(Stop::NoMemory);
    };
    let found = match heads(alloc, src, &cp) {
        Ok(found) => found,
        Err(_) => return Err(Stop::NoMemory),
    };
    if found.is_empty() {
        return Err(Stop::NoMemory);
    }
    let volume = match load(alloc, src, &cp, &found[0]) {
        Ok(volume) => volume,
        Err(_) => return Err(Stop::NoMemory),
    };
    Stream::start(
        alloc,
        src,
        &volume,
        &live(&volume, &cp),
        id,
        size,
        &cp.site(),
    )
}

// Whether a stream of the file has what it should around its end and around the end of the hole.
fn has_bytes(stream: &Stream, src: &mut MemSource) -> bool
    requires { IsSiteFor stream.now.site (length src.old.bytes) }
{
    let mut into = [1u8; 20];
    stream.read_into(src, 4990, &mut into) == Ok(10)
        && into == *b"AAAAAAAAAA\x01\x01\x01\x01\x01\x01\x01\x01\x01\x01"
        && stream.read_into(src, 5000, &mut into) == Ok(0)
        && stream.read_into(src, 4086, &mut into) == Ok(20)
        && into == *b"\0\0\0\0\0\0\0\0\0\0AAAAAAAAAA"
}

fn is_read(alloc: Global) -> Result<bool, Stop<StreamStop>> {
    let mut src = MemSource::new(container(alloc)?, Vec::new(alloc));
    let stream = open(alloc, &mut src, FILE, SIZE)?;
    let is_right = has_bytes(&stream, &mut src);
    drop(stream);
    Ok(is_right)
}

#[test]
fn a_hole_is_zeros_and_the_size_is_the_end(rt: HostRuntime) {
    assert!(rt; is_read(rt.alloc()) == Ok(true));
}

// How a copy ends, and how many bytes the sink then has.
type Copied = (Result<(), CopyFault>, usize);

// How a copy ends into a sink with room for the bytes that refuses the put of this number.
fn copied(alloc: Global, id: u64, put: u64) -> Result<Copied, Stop<StreamStop>> {
    let mut src = MemSource::new(container(alloc)?, Vec::new(alloc));
    let stream = open(alloc, &mut src, id, LONG)?;
    let mut out = MemSink::new(alloc, LONG as usize, vec![in alloc; put]?)?;
    let end = stream.copy_to(&mut src, &mut out);
    drop(stream);
    Ok((end, out.contents().len()))
}

// An id, the number of the put that is refused, and how the copy ends. No extent is of the last id, so each byte is a zero.
const COPIES: &[(u64, u64, Copied)] = &[
    (FILE, 3, (Ok(()), 70_000)),
    (FILE, 2, (Err(CopyFault::WriteFault), 65_536)),
    (99, 1, (Err(CopyFault::WriteFault), 0)),
];

#[test]
fn a_copy_goes_in_pieces_up_to_a_refused_one(rt: HostRuntime) {
    for (id, put, end) in COPIES {
        assert!(rt; copied(rt.alloc(), *id, *put) == Ok(*end));
    }
}

const ORDER: Option<Stop<StreamStop>> = Some(Stop::Found(StreamStop::Order));

const OUTSIDE: Option<Stop<StreamStop>> = Some(Stop::Found(StreamStop::Outside));

// A place in the extent, the byte that it gets, and what stops the stream: a length of 4,097 and of 0; blocks 313 and 255,
// of which there are 256, and none.
const WRONG: &[(usize, u8, Option<Stop<StreamStop>>)] = &[
    (0, 1, ORDER),
    (1, 0, ORDER),
    (9, 1, OUTSIDE),
    (8, 255, None),
    (8, 0, None),
];

fn stop_after(alloc: Global, at: usize, byte: u8) -> Result<Option<Stop<StreamStop>>, NoMemory> {
    let mut src = edited(alloc, at, byte)?;
    Ok(open(alloc, &mut src, FILE, SIZE).err())
}

#[test]
fn extents_that_are_wrong(rt: HostRuntime) {
    for (at, byte, stop) in WRONG {
        assert!(rt;
            stop_after(rt.alloc(), *at, *byte) == Ok(*stop),
            "{at} {byte}"
        );
    }
}
