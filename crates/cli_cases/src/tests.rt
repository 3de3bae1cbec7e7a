// The cases of the program, in tables, over images and sinks in memory. Their lines were worked out by hand.
ghost use Rattle.std.specs.Prelude.{replicate};

mod cases;
mod checks;
mod contents;
mod disks;
mod exports;
mod formatted;
mod generated;
mod hostile;
mod images;
mod uses;

use apfs_cli::{gen_report, report, run};
use blk_folder::{Given, MemFolder};
use blk_source::{BlockSource, MemSink, MemSource, Opened, StdSink};
use cases::*;
use checks::{CHECK, CHECK_CASES, FIRST_CASES, LEAKED, MARKED, NINE_VIEWS, SMALL_REPORT};
use cmd_texts::{Line, put_lines};
use contents::*;
use disks::DISK_CASES;
use exports::{EXPORT_CASES, Export, REFUSED_CASES, told};
use formatted::{FORMAT, FORMAT_CASES, FORMATS, FORMATTED, READ_CASES};
use generated::{GEN_CASES, GEN_TEXT};
use hostile::hole_then;
use images::{Image, handed, image_bytes, opened};
use std::alloc::{AllocError, Global};
use std::cell::Cell;
use std::io::{self, Write};
use std::process::Abort;
use std::test::Fail;
use uses::USAGE_CASES;
use view_rules::Profile;

const ROOM: usize = 8192;

// How a run ended.
#[derive(Drop)]
struct Ended {
    status: u8,
    out: MemSink,
    err: MemSink,
    reads: u64,
    /// What the folder has.
    held: String,
}

// The number of the read of the image, of the put on each sink, and of the call of the folder, that is refused; none where it is 0.
#[derive(Clone, Copy)]
struct Refused {
    read: u64,
    put: u64,
    line: u64,
    call: u64,
}

const NOTHING: Refused = Refused {
    read: 0,
    put: 0,
    line: 0,
    call: 0,
};

// A folder with room for a few items.
fn folder_in(alloc: Global, refused: Refused) -> Result<Given<MemFolder>, Fail> {
    let fails = [refused.call].to_vec(alloc)?;
    Ok(Given::Into(MemFolder::new(alloc, 10, 100, fails)?))
}

// Runs the words on what is handed in, with what is refused. Nothing is handed in for the folder where there is nothing that it has.
fn end_with(
    alloc: Global,
    image: Opened<MemSource>,
    words: &[&str],
    held: Option<&str>,
    refused: Refused,
) -> Result<Ended, Fail> {
    let folder = match held {
        Some(_) => folder_in(alloc, refused)?,
        None => Given::Nothing,
    };
    end_into(alloc, image, words, ROOM, refused, folder)
}

// Runs the words on an image, with a folder and with what is refused.
fn end(alloc: Global, image: Image, words: &[&str], refused: Refused) -> Result<Ended, Fail> {
    let image = handed(alloc, image, [refused.read].to_vec(alloc)?)?;
    end_on(alloc, image, words, ROOM, refused)
}

// Runs the words on what is handed in, with a folder, with room for so many bytes of text, and with what is refused.
fn end_on(
    alloc: Global,
    image: Opened<MemSource>,
    words: &[&str],
    room: usize,
    refused: Refused,
) -> Result<Ended, Fail> {
    let folder = folder_in(alloc, refused)?;
    end_into(alloc, image, words, room, refused, folder)
}

// The same, with the folder that is handed in.
fn end_into(
    alloc: Global,
    mut image: Opened<MemSource>,
    words: &[&str],
    room: usize,
    refused: Refused,
    mut folder: Given<MemFolder>,
) -> Result<Ended, Fail> {
    let words: Vec<String> = words
        .iter()
        .map(|word| String::from_str(alloc, word))
        .try_collect(alloc)?;
    let mut out = MemSink::new(alloc, room, [refused.put].to_vec(alloc)?)?;
    let mut err = MemSink::new(alloc, ROOM, [refused.line].to_vec(alloc)?)?;
    let status = run(alloc, &words, &mut image, &mut out, &mut err, &mut folder);
    let reads = match &image {
        Opened::Absent => 0,
        Opened::Image(source) => source.read_count(),
    };
    Ok(Ended {
        status,
        out,
        err,
        reads,
        held: told(alloc, &folder)?,
    })
}

// Whether a run ended with this status, this text and this line, and left a folder that has this.
fn ended_so(ended: &Ended, status: u8, text: &str, line: &str, held: &str) -> bool {
    ended.status == status
        && ended.held.as_str() == held
        && ended.out.contents() == text.as_bytes()
        && ended.err.contents() == line.as_bytes()
}

// Whether a case ends as is said on what it is handed, and its folder has this then.
fn assert_as_said(
    rt: &impl Abort,
    alloc: Global,
    case: &Case,
    image: Opened<MemSource>,
    held: Option<&str>,
) -> Result<(), Fail> {
    let (name, _, words, ends) = *case;
    let ended = end_with(alloc, image, words, held, NOTHING)?;
    let (status, text, line) = ends.said();
    let as_said = ended_so(&ended, status, text, line, held.unwrap_or(""));
    assert!(rt; as_said, "{name}: status {}", ended.status);
    Ok(())
}

// The first put on each sink is refused.
const FIRST_PUTS: Refused = Refused {
    put: 1,
    line: 1,
    ..NOTHING
};

// Whether it ends with 4 and writes nothing where those are refused. Nothing is put where there is nothing to write.
fn failure_of_the_first_put_of_a_case(
    rt: &impl Abort,
    alloc: Global,
    case: &Case,
    image: Opened<MemSource>,
    held: Option<&str>,
) -> Result<(), Fail> {
    let (name, _, words, ends) = *case;
    let ended = end_with(alloc, image, words, held, FIRST_PUTS)?;
    let (_, text, line) = ends.said();
    let is_silent = text.is_empty() && line.is_empty();
    let status = if is_silent { 0 } else { 4 };
    let as_said = ended_so(&ended, status, "", "", held.unwrap_or(""));
    assert!(rt; as_said, "{name}, the first put: status {}", ended.status);
    Ok(())
}

// Both for a case.
fn assert_case(
    rt: &impl Abort,
    alloc: Global,
    case: &Case,
    held: Option<&str>,
) -> Result<(), Fail> {
    let bytes = image_bytes(alloc, case.1)?;
    let image = opened(case.1, bytes.clone()?, Vec::new(alloc));
    assert_as_said(rt, alloc, case, image, held)?;
    let image = opened(case.1, bytes, Vec::new(alloc));
    failure_of_the_first_put_of_a_case(rt, alloc, case, image, held)
}

// Both for each case, none of which puts anything into the folder.
fn assert_cases(rt: &impl Abort, alloc: Global, cases: &[Case]) -> Result<(), Fail> {
    for case in cases {
        assert_case(rt, alloc, case, Some(""))?;
    }
    Ok(())
}

// A table has no more than some 25 rows, since the time in which the prover reads one grows with the square of their number.
#[test]
fn cases_end_as_said(rt: HostRuntime) -> Result<(), Fail> {
    assert_cases(&rt, rt.alloc(), CASES)
}

#[test]
fn list_cases_end_as_said(rt: HostRuntime) -> Result<(), Fail> {
    assert_cases(&rt, rt.alloc(), LIST_CASES)
}

#[test]
fn feature_cases_end_as_said(rt: HostRuntime) -> Result<(), Fail> {
    assert_cases(&rt, rt.alloc(), FEATURE_CASES)
}

#[test]
fn volume_cases_end_as_said(rt: HostRuntime) -> Result<(), Fail> {
    assert_cases(&rt, rt.alloc(), VOLUME_CASES)
}

#[test]
fn space_cases_end_as_said(rt: HostRuntime) -> Result<(), Fail> {
    assert_cases(&rt, rt.alloc(), SPACE_CASES)
}

#[test]
fn view_cases_end_as_said(rt: HostRuntime) -> Result<(), Fail> {
    assert_cases(&rt, rt.alloc(), VIEW_CASES)
}

#[test]
fn tree_cases_end_as_said(rt: HostRuntime) -> Result<(), Fail> {
    assert_cases(&rt, rt.alloc(), TREE_CASES)
}

#[test]
fn disk_cases_end_as_said(rt: HostRuntime) -> Result<(), Fail> {
    assert_cases(&rt, rt.alloc(), DISK_CASES)
}

#[test]
fn check_cases_end_as_said(rt: HostRuntime) -> Result<(), Fail> {
    assert_cases(&rt, rt.alloc(), CHECK_CASES)
}

#[test]
fn cases_that_check_first_end_as_said(rt: HostRuntime) -> Result<(), Fail> {
    assert_cases(&rt, rt.alloc(), FIRST_CASES)
}

#[test]
fn gen_cases_end_as_said(rt: HostRuntime) -> Result<(), Fail> {
    assert_cases(&rt, rt.alloc(), GEN_CASES)
}

#[test]
fn format_cases_end_as_said(rt: HostRuntime) -> Result<(), Fail> {
    assert_cases(&rt, rt.alloc(), FORMAT_CASES)
}

#[test]
fn usage_cases_end_as_said(rt: HostRuntime) -> Result<(), Fail> {
    assert_cases(&rt, rt.alloc(), USAGE_CASES)
}

#[test]
fn content_cases_end_as_said(rt: HostRuntime) -> Result<(), Fail> {
    assert_cases(&rt, rt.alloc(), CONTENT_CASES)
}

#[test]
fn attribute_cases_end_as_said(rt: HostRuntime) -> Result<(), Fail> {
    assert_cases(&rt, rt.alloc(), ATTRIBUTE_CASES)
}

// The same for each export. Its text is put when its folder is done.
fn assert_exports(rt: &impl Abort, alloc: Global, cases: &[Export]) -> Result<(), Fail> {
    for (case, held) in cases {
        assert_case(rt, alloc, case, *held)?;
    }
    Ok(())
}

#[test]
fn export_cases_end_as_said(rt: HostRuntime) -> Result<(), Fail> {
    assert_exports(&rt, rt.alloc(), EXPORT_CASES)
}

#[test]
fn refused_cases_end_as_said(rt: HostRuntime) -> Result<(), Fail> {
    assert_exports(&rt, rt.alloc(), REFUSED_CASES)
}

// An image, and how its report ends.
const REPORTS: [(Image, Ends); 2] = [
    (Image::Small, Ends::Wrote(SMALL_REPORT)),
    (MARKED, Ends::Faulty(LEAKED)),
];

// Whether the report of an image ends so. `report` is what `check` does once its words are read.
fn is_reported_so(alloc: Global, image: Image, ends: Ends) -> Result<bool, Fail> {
    let (wanted, text, line) = ends.said();
    let mut source = match handed(alloc, image, Vec::new(alloc))? {
        Opened::Image(source) => source,
        Opened::Absent => MemSource::new(Vec::new(alloc), Vec::new(alloc)),
    };
    let mut out = MemSink::new(alloc, ROOM, Vec::new(alloc))?;
    let mut err = MemSink::new(alloc, ROOM, Vec::new(alloc))?;
    let status = report(alloc, &mut source, Profile::Plain, &mut out, &mut err);
    Ok(status == wanted && out.contents() == text.as_bytes() && err.contents() == line.as_bytes())
}

#[test]
fn reports_end_as_said(rt: HostRuntime) -> Result<(), Fail> {
    for (image, ends) in REPORTS {
        assert!(rt; is_reported_so(rt.alloc(), image, ends)?);
    }
    Ok(())
}

// `gen_report` is what `gen` does, and leaves the image of 1,028 blocks.
#[test]
fn a_generated_report_leaves_its_image(rt: HostRuntime) -> Result<(), Fail> {
    let alloc = rt.alloc();
    let mut out = MemSink::new(alloc, ROOM, Vec::new(alloc))?;
    let mut err = MemSink::new(alloc, ROOM, Vec::new(alloc))?;
    let mut made = None;
    let status = gen_report(alloc, 1, &mut out, &mut err, &mut made);
    let size = made.map_or(0, |source| source.size());
    assert!(rt;
        (status, size) == (0, 1028 * 4096)
            && out.contents() == GEN_TEXT.as_bytes()
            && err.contents().is_empty()
    );
    Ok(())
}

// Whether other commands write what they should of a new container with these bytes.
fn is_read_so(alloc: Global, bytes: &[u8], words: &[&str], text: &str) -> Result<bool, Fail> {
    let image = Opened::Image(MemSource::new(bytes.to_vec(alloc)?, Vec::new(alloc)));
    let ended = end_on(alloc, image, words, ROOM, NOTHING)?;
    Ok(ended_so(&ended, 0, text, "", ""))
}

// Each form of the identifiers asks for the same container, and what was written is read by other commands.
#[test]
fn a_new_container_is_read(rt: HostRuntime) -> Result<(), Fail> {
    let alloc = rt.alloc();
    for format in FORMATS {
        let written = end_on(alloc, Opened::Absent, format, FORMATTED, NOTHING)?;
        assert!(rt;
            written.status == 0 && written.held.is_empty() && written.err.contents().is_empty()
        );
        for (words, text) in READ_CASES {
            let as_said = is_read_so(alloc, written.out.contents(), words, text)?;
            assert!(rt; as_said, "{text}");
        }
    }
    Ok(())
}

// A put that is refused, how `format` ends then, and how many bytes it has written: the 57 used blocks are put at once, and then each block of zeros.
const FORMAT_PUTS: [(u64, u8, usize); 4] = [
    (1, 4, 0),
    (2, 4, 57 * 4096),
    (200, 4, 255 * 4096),
    (201, 0, 256 * 4096),
];

#[test]
fn failure_of_each_put_of_format(rt: HostRuntime) -> Result<(), Fail> {
    for (put, status, written) in FORMAT_PUTS {
        let refused = Refused { put, ..NOTHING };
        let ended = end_on(rt.alloc(), Opened::Absent, FORMAT, FORMATTED, refused)?;
        assert!(rt;
            ended.status == status
                && ended.out.contents().len() == written
                && ended.held.is_empty()
                && ended.err.contents().is_empty(),
            "put {put}"
        );
    }
    Ok(())
}

// However many views a container has, what they share is read once.
#[test]
fn a_check_of_nine_views_takes_few_reads(rt: HostRuntime) -> Result<(), Fail> {
    let ended = end(rt.alloc(), NINE_VIEWS, CHECK, NOTHING)?;
    assert!(rt;
        ended.status == 0 && ended.reads <= 100,
        "{} reads",
        ended.reads
    );
    Ok(())
}

// A file that starts with a hole, and the same where what follows has no extent.
const HOLE: Image = Image::Streamed(5000, &[(0, 4096, 0), (4096, 4096, 57)]);

const HOLE_ALONE: Image = Image::Streamed(5000, &[(0, 4096, 0)]);

// Both, and what the bytes after the hole are.
const HOLES: [(Image, u8); 2] = [(HOLE, b'A'), (HOLE_ALONE, 0)];

#[test]
fn a_hole_is_written_as_zeros(rt: HostRuntime) -> Result<(), Fail> {
    let alloc = rt.alloc();
    for (image, byte) in HOLES {
        let ended = end(alloc, image, CAT_HOLE, NOTHING)?;
        let contents = hole_then(alloc, byte)?;
        assert!(rt;
            (ended.status, ended.err.contents().len()) == (0, 0)
                && ended.out.contents() == contents.as_slice()
        );
    }
    Ok(())
}

// A line of so many bytes, all of them the same.
#[derive(Drop)]
struct Long {
    byte: u8,
    length: usize,
}

impl Line for Long {
    ghost text = { λ long. replicate long.length long.byte };

    fn line(&self, alloc: Global) -> Result<Vec<u8>, AllocError> {
        vec![in alloc; self.byte; self.length]
    }
}

// A line of 40,000 bytes.
macro_rules! long {
    ($byte:expr) => {
        Long {
            byte: $byte,
            length: 40_000,
        }
    };
}

const LONG_LINES: &[Long] = &[long!(b'a'), long!(b'b'), long!(b'c')];

// A put that is refused, whether all lines are put then, and how many bytes are.
const LATER_PUTS: [(u64, bool, usize); 3] = [(1, false, 0), (2, false, 80_000), (3, true, 120_000)];

#[test]
fn failure_of_a_later_put(rt: HostRuntime) -> Result<(), Fail> {
    let alloc = rt.alloc();
    for (refused, is_whole, written) in LATER_PUTS {
        let mut out = MemSink::new(alloc, 3 * 40_000, [refused].to_vec(alloc)?)?;
        let ended = put_lines(alloc, LONG_LINES, &mut out);
        let contents = out.contents();
        let before = contents.iter().filter(|byte| **byte == b'a').count();
        assert!(rt;
            ended.is_ok() == is_whole && contents.len() == written && before == written.min(40_000)
        );
    }
    Ok(())
}

// A writer that keeps what it takes back until it is flushed, and counts the bytes that it has let go.
#[derive(Drop)]
struct Holding<'a> {
    held: u64,
    shown: &'a Cell<u64>,
}

impl Write for Holding<'_> {
    fn write(&mut self, piece: &[u8]) -> io::Result<usize> {
        self.held = self.held.saturating_add(piece.len() as u64);
        Ok(piece.len())
    }

    fn flush(&mut self) -> io::Result<()> {
        self.shown.set(self.shown.get().saturating_add(self.held));
        self.held = 0;
        Ok(())
    }
}

// An image, and what `ring` writes of it on each sink.
const RINGS: [(Image, &str, &str); 2] = [
    (Image::Ring, RING_LINES, ""),
    (Image::Absent, "", NO_IMAGE),
];

fn ring_words(alloc: Global) -> Result<Vec<String>, AllocError> {
    let words = vec![in alloc;
        String::from_str(alloc, "ring")?,
        String::from_str(alloc, "x")?,
    ]?;
    Ok(words)
}

// How many bytes `ring` lets go on each sink.
fn flushed(alloc: Global, image: Image) -> Result<(u64, u64), Fail> {
    let words = ring_words(alloc)?;
    let mut image = handed(alloc, image, Vec::new(alloc))?;
    let (shown, said) = (Cell::new(0), Cell::new(0));
    let mut out = StdSink::new(Holding {
        held: 0,
        shown: &shown,
    });
    let mut err = StdSink::new(Holding {
        held: 0,
        shown: &said,
    });
    let mut folder: Given<MemFolder> = Given::Nothing;
    let _status = run(alloc, &words, &mut image, &mut out, &mut err, &mut folder);
    Ok((shown.get(), said.get()))
}

#[test]
fn what_is_written_is_flushed(rt: HostRuntime) -> Result<(), Fail> {
    for (image, on_out, on_err) in RINGS {
        let wanted = (on_out.len() as u64, on_err.len() as u64);
        assert!(rt; flushed(rt.alloc(), image)? == wanted);
    }
    Ok(())
}
