// What no clause says: what a folder gets of small containers, and how the call ends where a read or a call of the folder is
// refused. What is wanted was worked out by hand.

ghost use Rattle.std.specs.Prelude.{length};
ghost use Rattle.obj_base.specs.Site.{IsSiteFor};

mod holed;

use crate::tests::made::Holds;
use crate::tests::opened::{Opened, open, rows_in, rows_of};
use blk_folder::{Folder, MemFolder};
use img_make::{Sample, table};
use obj_base::Stop;
use std::alloc::Global;
use std::test::Fail;
use tree_export::{Done, ExportFault, ExportStop, export};
use view_tree::KeptRows;

// The only file is `hello.txt`.
const HELLO: Holds = Holds::Of(Sample::H);

// What is left of a text after what a folder has: of each item its path, and of a file its bytes. None where the text doesn't
// begin so.
fn rest_of<'a>(folder: &MemFolder, text: &'a str) -> Option<&'a [u8]> {
    let mut rest = text.as_bytes();
    for i in 0..folder.len() {
        rest = rest.strip_prefix(b"\n")?;
        rest = rest.strip_prefix(folder.path(i).as_bytes())?;
        let Some(bytes) = folder.bytes(i) else {
            rest = rest.strip_prefix(b"/")?;
            continue;
        };
        rest = rest.strip_prefix(b"=")?;
        rest = rest.strip_prefix(bytes)?;
    }
    Some(rest)
}

// Whether this is all that a folder has.
fn has(folder: &MemFolder, text: &str) -> bool {
    matches!(rest_of(folder, text), Some([]))
}

// An empty folder, of which the call of a number is refused, and none where it is 0.
fn folder_with(alloc: Global, call: u64) -> Result<MemFolder, Fail> {
    Ok(MemFolder::new(alloc, 10, 1000, vec![in alloc; call]?)?)
}

// What stops are called.
const READ_REFUSED: &str = "a read is refused";

const CALL_REFUSED: &str = "a call is refused";

const NO_INODE: &str = "17 has no inode";

// Why an export stops.
fn word(stop: ExportStop) -> &'static str {
    match &stop {
        ExportStop::WriteFault => CALL_REFUSED,
        ExportStop::Stopped(Stop::ReadFault) => READ_REFUSED,
        ExportStop::Stopped(Stop::Found(ExportFault::NoInode { id: 17 })) => NO_INODE,
        _ => "another stop",
    }
}

// How an export of these rows ends.
fn ended<F: Folder>(
    alloc: Global,
    at: &mut Opened,
    rows: &KeptRows,
    folder: &mut F,
) -> Result<Done, &'static str>
    requires { IsSiteFor at.old.site (length at.old.src.bytes) }
{
    match export(
        alloc,
        &mut at.src,
        &at.volume,
        &at.view,
        &at.site,
        rows,
        folder,
    ) {
        Ok(done) => Ok(done),
        Err(stop) => Err(word(stop)),
    }
}

// How an export ends, and how many reads there were before and after it.
#[derive(Drop)]
struct Outcome {
    before: u64,
    end: Result<Done, &'static str>,
    after: u64,
}

// That of what an image holds, where the reads of these numbers are refused.
fn exported<F: Folder>(
    alloc: Global,
    holds: Holds,
    reads: Vec<u64>,
    folder: &mut F,
) -> Result<Outcome, Fail> {
    let mut at = open(alloc, holds, reads, None)?;
    let rows = rows_of(alloc, &mut at, "/")?;
    let before = at.src.read_count();
    let end = ended(alloc, &mut at, &rows, folder);
    Ok(Outcome {
        before,
        end,
        after: at.src.read_count(),
    })
}

// What an image holds, what a folder gets of it, and what the call tells: how many directories, files and bytes, and which places
// are skipped.
type Case = (Holds, &'static str, (u64, u64, u64), &'static [usize]);

const CASES: &[Case] = table! {
    HELLO, "\nhello.txt=hello", (0, 1, 5), &[];
    Holds::Folders, "\nd/\nd/f=\ne/", (2, 1, 0), &[];
    Holds::Link, "", (0, 0, 0), &[0];
    Holds::Dots, "\n\\x2e/\n\\x2e/\\x2e\\x2e=\n\\x2e\\x2e=\n...=", (1, 3, 0), &[];
    Holds::Withheld, "\nplain=hello", (0, 1, 5), &[0, 1, 2];
    Holds::Empty, "", (0, 0, 0), &[];
};

// Whether these numbers are told, and these places.
fn tells(done: &Done, counts: (u64, u64, u64), skipped: &[usize]) -> bool {
    done.directories == counts.0
        && done.files == counts.1
        && done.bytes == counts.2
        && done.skipped.as_slice() == skipped
}

// Whether an export doesn't stop, and ends as a case says.
fn ends_as_said(alloc: Global, case: &Case) -> Result<bool, Fail> {
    let mut folder = folder_with(alloc, 0)?;
    let Ok(done) = exported(alloc, case.0, Vec::new(alloc), &mut folder)?.end else {
        return Ok(false);
    };
    Ok(tells(&done, case.2, case.3) && has(&folder, case.1))
}

#[test]
fn folders_get_the_tree_of_a_view(rt: HostRuntime) -> Result<(), Fail> {
    for case in CASES {
        assert!(rt; ends_as_said(rt.alloc(), case)?, "{}", case.1);
    }
    Ok(())
}

// The number of a refused call, and what the folder has then. The calls are: the directory, its file and the file's bytes, the file
// beside it and its two pieces, and the last directory.
const LEFT: &[(u64, &str)] = table! {
    1, "";
    2, "\nd/";
    3, "\nd/\nd/f=";
    4, "\nd/\nd/f=hello";
    5, WHOLE;
};

// What a folder gets where nothing is refused.
const WHOLE: &str = "\nd/\nd/f=hello\nlast/";

// Why an export stops where the read of a number is refused, and none where it is 0.
fn stop_of(alloc: Global, read: u64, folder: &mut MemFolder) -> Result<Option<&'static str>, Fail> {
    let reads = vec![in alloc; read]?;
    Ok(exported(alloc, Holds::Several, reads, folder)?.end.err())
}

// Whether an export of which the call of a number is refused ends so, and puts this.
fn puts(alloc: Global, number: u64, put: &str) -> Result<bool, Fail> {
    let mut folder = folder_with(alloc, number)?;
    let stop = stop_of(alloc, 0, &mut folder)?;
    let wanted = if number == 5 {
        None
    } else {
        Some(CALL_REFUSED)
    };
    Ok(stop == wanted && has(&folder, put))
}

#[test]
fn a_refused_call_ends_it(rt: HostRuntime) -> Result<(), Fail> {
    for (number, put) in LEFT {
        assert!(rt; puts(rt.alloc(), *number, put)?, "call {number}");
    }
    Ok(())
}

// Whether an export of which the read of a number is refused ends by that, and puts no more than the beginning.
fn ends_by_read(alloc: Global, number: u64) -> Result<bool, Fail> {
    let mut folder = folder_with(alloc, 0)?;
    let stop = stop_of(alloc, number, &mut folder)?;
    Ok(stop == Some(READ_REFUSED) && rest_of(&folder, WHOLE).is_some())
}

// How many reads there were before a whole export, and after it.
fn reads_of(alloc: Global) -> Result<(u64, u64), Fail> {
    let mut folder = folder_with(alloc, 0)?;
    let ended = exported(alloc, Holds::Several, Vec::new(alloc), &mut folder)?;
    if ended.end.is_err() || !has(&folder, WHOLE) {
        return Err(Fail::from("it isn't whole"));
    }
    Ok((ended.before, ended.after))
}

#[test]
fn a_refused_read_ends_it(rt: HostRuntime) -> Result<(), Fail> {
    let (before, after) = reads_of(rt.alloc())?;
    assert!(rt; before < after);
    for number in before..after {
        assert!(rt;
            ends_by_read(rt.alloc(), number.saturating_add(1))?,
            "read {number}"
        );
    }
    Ok(())
}

// Why an export of the rows of another image stops.
fn stop_by_others(alloc: Global, folder: &mut MemFolder) -> Result<Option<&'static str>, Fail> {
    let rows = rows_in(alloc, Holds::Several, "/")?;
    let mut at = open(alloc, HELLO, Vec::new(alloc), None)?;
    Ok(ended(alloc, &mut at, &rows, folder).err())
}

// The directory `d` of the rows has the id of the only file, and no file has the next one.
#[test]
fn an_id_without_an_inode_is_named(rt: HostRuntime) -> Result<(), Fail> {
    let mut folder = folder_with(rt.alloc(), 0)?;
    let stop = stop_by_others(rt.alloc(), &mut folder)?;
    assert!(rt; stop == Some(NO_INODE) && has(&folder, "\nd=hello"));
    Ok(())
}
