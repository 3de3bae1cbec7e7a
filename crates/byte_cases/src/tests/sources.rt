// What no clause says: that calls succeed, and what a file and a writer do.
use super::directories::place_of;
use blk_source::{BlockSource, FileSource, MemSink, MemSource, Opened, Sink, StdSink, SureSource};
use std::fs;
use std::io::{self, ErrorKind, Write};
use std::os::unix::fs::FileExt;
use std::test::Fail;

// Two bytes of a source from a place on, or none where it ends before them or the read fails.
fn two<S: BlockSource>(source: &mut S, at: u64) -> Option<[u8; 2]> {
    let size = source.size();
    if size < 2 || size - 2 < at {
        return None;
    }
    let mut into = [0u8; 2];
    source.read_at(at, &mut into).ok()?;
    Some(into)
}

// Four bytes of a source from a place on, or none where it ends before them or the read fails.
fn four<S: BlockSource>(source: &mut S, at: u64) -> Option<[u8; 4]> {
    let size = source.size();
    if size < 4 || size - 4 < at {
        return None;
    }
    let mut into = [0u8; 4];
    source.read_at(at, &mut into).ok()?;
    Some(into)
}

const TWO_THREE: Option<[u8; 2]> = Some([2, 3]);

const THREE_FOUR: Option<[u8; 2]> = Some([3, 4]);

// Whether the second of three reads is refused.
fn refuses_second(source: &mut MemSource) -> bool {
    (two(source, 1), two(source, 0), two(source, 2)) == (TWO_THREE, None, THREE_FOUR)
        && (source.size(), source.read_count(), source.fault_count()) == (4, 3, 1)
}

#[test]
fn a_source_in_memory_refuses_chosen_reads(rt: HostRuntime) {
    let alloc = rt.alloc();
    let bytes = vec![in alloc; 1, 2, 3, 4].ok().expect(&rt, "memory");
    let fails = vec![in alloc; 2].ok().expect(&rt, "memory");
    let mut source = MemSource::new(bytes, fails);
    assert!(rt; refuses_second(&mut source));
    drop(source);
}

#[test]
fn a_sure_source_reads(rt: HostRuntime) {
    let bytes = vec![in rt.alloc(); 5, 6, 7].ok().expect(&rt, "memory");
    let mut source = SureSource::new(bytes);
    assert!(rt; two(&mut source, 1) == Some([6, 7]) && source.size() == 3);
    drop(source);
}

// Pieces, and whether they are put.
const PUTS: &[(&[u8], bool)] = &[(b"ab", true), (b"c", false), (b"def", true), (b"g", false)];

const ABDEF: &[u8] = b"abdef";

// Whether the second and the fourth of four puts are refused.
fn refuses_by_number_and_room(sink: &mut MemSink) -> bool {
    for (piece, is_put) in PUTS {
        if sink.put(piece).is_ok() != *is_put {
            return false;
        }
    }
    sink.contents() == ABDEF && sink.fault_count() == 2
}

#[test]
fn a_sink_in_memory_refuses_by_number_and_by_room(rt: HostRuntime) {
    let alloc = rt.alloc();
    let fails = vec![in alloc; 2].ok().expect(&rt, "memory");
    let mut sink = MemSink::new(alloc, 5, fails).ok().expect(&rt, "memory");
    assert!(rt; refuses_by_number_and_room(&mut sink));
    drop(sink);
}

const THREE_TO_SIX: Option<[u8; 4]> = Some(*b"3456");

const SIX_SEVEN: Option<[u8; 2]> = Some(*b"67");

fn is_whole(source: &mut FileSource) -> bool {
    (source.size(), four(source, 3)) == (10, THREE_TO_SIX)
}

// Whether the bytes from 8 on are not there any more. Of the last four bytes that are asked for the file has two.
fn is_short(source: &mut FileSource) -> bool {
    (two(source, 8), two(source, 6), four(source, 6)) == (None, SIX_SEVEN, None)
}

// Whether a file of ten bytes is read, and is at its end after it is cut behind the source's back.
fn is_cut(rt: &HostRuntime, path: &str) -> Result<bool, Fail> {
    fs::write(rt, path, b"0123456789")?;
    let mut source = FileSource::new(fs::open(rt, path)?)?;
    let whole = is_whole(&mut source);
    fs::write(rt, path, b"01234567")?;
    Ok(whole && is_short(&mut source))
}

// More than 2^40 bytes, of which the file keeps the few that are written.
const FAR: u64 = (1 << 40) + 3;

const NEAR_TEXT: Option<[u8; 4]> = Some(*b"near");

const FAR_TEXT: Option<[u8; 4]> = Some(*b"far!");

const NOTHING: Option<[u8; 4]> = Some([0; 4]);

// Whether a long file is read at its end, near its start, and between.
fn is_long(source: &mut FileSource) -> bool {
    source.size() == FAR + 4
        && (four(source, FAR), four(source, 3), four(source, FAR - 4))
            == (FAR_TEXT, NEAR_TEXT, NOTHING)
}

// Writes a few bytes near the start of a long file, and at its end.
fn write_far(rt: &HostRuntime, path: &str) -> io::Result<()> {
    let file = fs::create(rt, path)?;
    file.write_all_at(b"near", 3)?;
    file.write_all_at(b"far!", FAR)
}

fn is_read_far_out(rt: &HostRuntime, path: &str) -> Result<bool, Fail> {
    write_far(rt, path)?;
    let mut source = FileSource::new(fs::open(rt, path)?)?;
    Ok(is_long(&mut source))
}

// Whether no byte is read of a file that was opened to be written: the system refuses to read by its descriptor.
fn is_refused(rt: &HostRuntime, path: &str) -> Result<bool, Fail> {
    let file = fs::create(rt, path)?;
    file.write_all_at(b"0123", 0)?;
    let mut source = FileSource::new(file)?;
    Ok((source.size(), four(&mut source, 0)) == (4, None))
}

// Whether all of that is so of the file at a path, which is removed.
fn are_read(rt: &HostRuntime, path: &str) -> Result<bool, Fail> {
    let are_read = is_cut(rt, path)? && is_read_far_out(rt, path)? && is_refused(rt, path)?;
    fs::remove_file(rt, path)?;
    Ok(are_read)
}

#[test]
fn files_are_read_and_fail_as_they_should(rt: HostRuntime) -> Result<(), Fail> {
    assert!(rt; are_read(&rt, &place_of(&rt, "blk_source")?)?);
    Ok(())
}

// A writer that takes at most one byte at a time, is interrupted before each, and takes none once it has taken so many.
#[derive(Drop)]
struct Narrow {
    left: usize,
    is_ready: bool,
}

impl Write for Narrow {
    fn write(&mut self, piece: &[u8]) -> io::Result<usize> {
        self.is_ready = !self.is_ready;
        if !self.is_ready {
            return Err(io::Error::from(ErrorKind::Interrupted));
        }
        if self.left == 0 || piece.is_empty() {
            return Ok(0);
        }
        self.left -= 1;
        Ok(1)
    }

    fn flush(&mut self) -> io::Result<()> {
        Ok(())
    }
}

#[test]
fn a_writer_that_takes_nothing_fails(rt: HostRuntime) {
    let mut sink = StdSink::new(Narrow {
        left: 3,
        is_ready: true,
    });
    assert!(rt; sink.put(b"ab").is_ok() && sink.put(b"").is_ok() && sink.put(b"cd").is_err());
}

// A writer that refuses to write, or to hand on what it took.
#[derive(Drop)]
struct Refusing {
    writes: bool,
    flushes: bool,
}

impl Write for Refusing {
    fn write(&mut self, piece: &[u8]) -> io::Result<usize> {
        if self.writes {
            return Err(io::Error::from(ErrorKind::BrokenPipe));
        }
        Ok(piece.len())
    }

    fn flush(&mut self) -> io::Result<()> {
        if self.flushes {
            return Err(io::Error::from(ErrorKind::StorageFull));
        }
        Ok(())
    }
}

// Whether a write is refused, whether a flush is, and whether a put fails.
const REFUSALS: [(bool, bool, bool); 3] = [
    (false, false, false),
    (true, false, true),
    (false, true, true),
];

#[test]
fn a_write_or_a_flush_that_fails_is_told(rt: HostRuntime) {
    for (writes, flushes, fails) in REFUSALS {
        let mut sink = StdSink::new(Refusing { writes, flushes });
        assert!(rt; sink.put(b"abc").is_err() == fails);
    }
}

#[test]
fn an_image_is_there_or_absent(rt: HostRuntime) {
    let opened = [Opened::Absent, Opened::Image(1u8)];
    for (i, one) in opened.iter().enumerate() {
        assert!(rt; matches!(one, Opened::Image(_)) == (i == 1));
    }
}
