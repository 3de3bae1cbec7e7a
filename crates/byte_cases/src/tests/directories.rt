// What real directories get of what is put into them, and what stays as it was.
use apfs_model::WriteFailed;
use blk_folder::{DirFolder, Folder};
use std::alloc::{AllocError, Global};
use std::os::unix::fs::symlink;
use std::test::Fail;
use std::{env, fs, io, process};

// What stands at a path: a directory, a file with a text, or a link that leads to a path.
#[derive(Clone, Copy)]
enum Thing {
    Directory,
    File(&'static str),
    Link(&'static str),
}

use Thing::{Directory, File, Link};

type Row = (&'static str, Thing);

// What is put into a folder: a directory, or a file with a text, at a path. At a path that is refused neither can be put.
#[derive(Clone, Copy)]
enum Call {
    Makes(&'static str),
    Writes(&'static str, &'static str),
    Refuses(&'static str),
}

use Call::{Makes, Refuses, Writes};

// A folder that is filled: what stands there before, which stays; the directory that is filled, of which none is an empty path; the
// calls; and what stands there afterwards besides. All paths but those of calls start at the case's own directory, and parents come
// first.
type Case = (
    &'static [Row],
    Option<&'static str>,
    &'static [Call],
    &'static [Row],
);

// A table of tuples: a row is the parts of one, and ends with a semicolon.
macro_rules! table {
    ($($($part:expr),+;)*) => {
        &[$(($($part),+)),*]
    };
}

const ONE: &[Row] = &[("dir", Directory)];

// Files, a directory, and links to these, to the directory above, and to itself; and `d`, a real directory beyond a link.
const LINKED: &[Row] = &[
    ("dir", Directory),
    ("dir/file", File("old")),
    ("dir/directory", Directory),
    ("dir/directory/file", File("old")),
    ("dir/directory/d", Directory),
    ("dir/directory/up", Link("..")),
    ("dir/to_file", Link("file")),
    ("dir/to_directory", Link("directory")),
    ("dir/to_itself", Link("to_itself")),
];

const OUTSIDE: &[Row] = &[
    ("beside", Directory),
    ("dir", Directory),
    ("dir/link", Link("../beside")),
    ("dir/dangling", Link("../beside/missing")),
];

const NO_DIRECTORY: &[Row] = &[("file", File("old")), ("link", Link("missing"))];

const REACHED: &[Row] = &[("dir", Directory), ("to_dir", Link("dir"))];

const CASES: &[Case] = table! {
    ONE, Some("dir"), &[Makes("d"), Writes("d/f", "hello"), Writes("e", "")],
        &[("dir/d", Directory), ("dir/d/f", File("hello")), ("dir/e", File(""))];
    // A file is closed by the next one, by a refusal, by a directory, and at the end.
    ONE, Some("dir"), &[Writes("a", "1"), Writes("b", "2"), Refuses("b"), Writes("c", "3"), Makes("d"), Writes("e", "4")],
        &[("dir/a", File("1")), ("dir/b", File("2")), ("dir/c", File("3")), ("dir/d", Directory), ("dir/e", File("4"))];
    // What stands stays, and a refusal refuses nothing else.
    LINKED, Some("dir"), &[Refuses("file"), Refuses("file/x"), Refuses("directory"), Refuses("directory/file"), Refuses("directory/file/x"),
        Refuses("to_file"), Refuses("to_file/x"), Refuses("to_directory"), Refuses("to_directory/x"), Refuses("to_directory/file"),
        Refuses("to_directory/d/x"), Refuses("to_directory/../x"), Refuses("directory/up"), Refuses("directory/up/x"), Refuses("directory/up/file"),
        Refuses("to_itself"), Refuses("to_itself/x"), Refuses("missing/x"), Makes("d"), Writes("d/f", "hello"), Writes("e", "")],
        &[("dir/d", Directory), ("dir/d/f", File("hello")), ("dir/e", File(""))];
    // After something was put a parent of the same name elsewhere, or of a longer one, is asked for all the same.
    LINKED, Some("dir"), &[Makes("d"), Makes("d/up"), Refuses("directory/up/x"), Makes("to"), Refuses("to_directory/x"), Writes("to/f", "old"),
        Refuses("to/f/x"), Makes("directory/d/d"), Refuses("to_directory/d/d/x"), Writes("directory/d/d/x", "new")],
        &[("dir/d", Directory), ("dir/d/up", Directory), ("dir/to", Directory), ("dir/to/f", File("old")), ("dir/directory/d/d", Directory),
        ("dir/directory/d/d/x", File("new"))];
    // Nothing leaves the directory.
    OUTSIDE, Some("dir"), &[Refuses(""), Refuses("."), Refuses(".."), Refuses("/"), Refuses("/x"), Refuses("../x"), Refuses("./x"), Refuses("x/"),
        Refuses("x//y"), Refuses("d/../../x"), Refuses("x\0y"), Refuses("link"), Refuses("link/x"), Refuses("link/../x"), Refuses("dangling"),
        Refuses("dangling/x")], &[];
    // With an empty path the name would stand at the system's root.
    NO_DIRECTORY, None, &[Refuses("apfs-byte-cases")], &[];
    NO_DIRECTORY, Some("file"), &[Refuses("x")], &[];
    NO_DIRECTORY, Some("link"), &[Refuses("x")], &[];
    NO_DIRECTORY, Some("missing"), &[Refuses("x")], &[];
    // The directory may be reached over a link, and its path may end with a slash.
    REACHED, Some("to_dir"), &[Makes("x")], &[("dir/x", Directory)];
    REACHED, Some("dir/"), &[Makes("x")], &[("dir/x", Directory)];
};

// What is wrong with a case, and the number of what it is said of: a call that doesn't go as it has to, or after which other files are
// open, files that are open at the end, a row that doesn't stand, or the number of entries.
#[derive(Debug, Drop)]
struct Wrong(&'static str, usize);

fn path_in(alloc: Global, top: &str, path: &str) -> Result<String, AllocError> {
    format!(in alloc; "{top}/{path}")
}

fn place(rt: &HostRuntime, at: &str, thing: Thing) -> io::Result<()> {
    match thing {
        Directory => fs::create_dir(rt, at),
        File(text) => fs::write(rt, at, text),
        Link(to) => symlink(rt, to, at),
    }
}

fn place_all(rt: &HostRuntime, top: &str, rows: &[Row]) -> Result<(), Fail> {
    for (path, thing) in rows {
        let at = path_in(rt.alloc(), top, path)?;
        place(rt, &at, *thing)?;
    }
    Ok(())
}

fn has_text(rt: &HostRuntime, at: &str, text: &str) -> io::Result<bool> {
    Ok(fs::read_to_string(rt, at)?.as_str() == text)
}

fn leads_to(rt: &HostRuntime, at: &str, to: &str) -> io::Result<bool> {
    Ok(fs::read_link(rt, at)?.into_string().as_str() == to)
}

// Whether a thing stands at a path.
fn stands(rt: &HostRuntime, at: &str, thing: Thing) -> io::Result<bool> {
    let found = fs::symlink_metadata(rt, at)?;
    match thing {
        Directory => Ok(found.is_dir()),
        File(text) => Ok(found.is_file() && has_text(rt, at, text)?),
        Link(to) => Ok(found.is_symlink() && leads_to(rt, at, to)?),
    }
}

// How many entries a real directory has.
fn entries(rt: &HostRuntime, dir: &str) -> io::Result<usize> {
    Ok(fs::read_dir(rt, dir)?.count())
}

// How many entries a thing at a path has, which has to stand.
fn entries_of(rt: &HostRuntime, at: &str, thing: Thing, row: usize) -> Result<usize, Fail> {
    if !stands(rt, at, thing)? {
        return Err(Wrong("row", row))?;
    }
    match thing {
        Directory => Ok(entries(rt, at)?),
        File(_) | Link(_) => Ok(0),
    }
}

// How many entries the directories of some rows have, all of which have to stand.
fn entries_in(rt: &HostRuntime, top: &str, rows: &[Row]) -> Result<usize, Fail> {
    let mut sum = 0usize;
    for (i, (path, thing)) in rows.iter().enumerate() {
        let at = path_in(rt.alloc(), top, path)?;
        sum = sum.saturating_add(entries_of(rt, &at, *thing, i)?);
    }
    Ok(sum)
}

// Puts a file in two pieces.
fn write<F: Folder>(folder: &mut F, path: &str, text: &str) -> Result<(), WriteFailed> {
    let bytes = text.as_bytes();
    let (first, second) = bytes.split_at(bytes.len() / 2);
    folder.start_file(path)?;
    folder.append(first)?;
    folder.append(second)
}

// Whether a call goes as it has to.
fn goes<F: Folder>(folder: &mut F, call: Call) -> bool {
    match call {
        Makes(path) => folder.make_dir(path).is_ok(),
        Writes(path, text) => write(folder, path, text).is_ok(),
        Refuses(path) => folder.make_dir(path).is_err() && folder.start_file(path).is_err(),
    }
}

// How many files are open after a call.
fn opened(call: Call) -> usize {
    match call {
        Writes(_, _) => 1,
        Makes(_) | Refuses(_) => 0,
    }
}

// Linux lists what a process has open.
const OPEN: &str = "/proc/self/fd";

// Makes calls, and looks after each whether its file is open and nothing more than before.
fn call_all<F: Folder>(
    rt: &HostRuntime,
    folder: &mut F,
    before: usize,
    calls: &[Call],
) -> Result<(), Fail> {
    for (i, call) in calls.iter().enumerate() {
        let went = goes(folder, *call);
        let open = entries(rt, OPEN)?;
        if !went || open != before.saturating_add(opened(*call)) {
            return Err(Wrong("call", i))?;
        }
    }
    Ok(())
}

// Fills a directory, before which so many files are open.
fn fill(rt: &HostRuntime, dir: String, before: usize, calls: &[Call]) -> Result<(), Fail> {
    let mut folder = DirFolder::new(rt, dir);
    let called = call_all(rt, &mut folder, before, calls);
    drop(folder);
    called
}

// The directory that is filled.
fn dir_of(alloc: Global, top: &str, into: Option<&str>) -> Result<String, AllocError> {
    match into {
        Some(path) => path_in(alloc, top, path),
        None => Ok(String::new(alloc)),
    }
}

// Fills the directory of a case, after which nothing more is open than before.
fn fill_case(rt: &HostRuntime, top: &str, case: &Case) -> Result<(), Fail> {
    let before = entries(rt, OPEN)?;
    fill(rt, dir_of(rt.alloc(), top, case.1)?, before, case.2)?;
    let left = entries(rt, OPEN)?;
    if left != before {
        return Err(Wrong("left", left))?;
    }
    Ok(())
}

// Looks whether all that stood and all that was put is there, and no other entry.
fn look(rt: &HostRuntime, top: &str, case: &Case) -> Result<(), Fail> {
    let found = entries(rt, top)?
        .saturating_add(entries_in(rt, top, case.0)?)
        .saturating_add(entries_in(rt, top, case.3)?);
    if found != case.0.len().saturating_add(case.3.len()) {
        return Err(Wrong("entries", found))?;
    }
    Ok(())
}

// Makes what stands in a case, fills its folder, and looks at it.
fn run(rt: &HostRuntime, top: &str, case: &Case) -> Result<(), Fail> {
    fs::create_dir(rt, top)?;
    place_all(rt, top, case.0)?;
    fill_case(rt, top, case)?;
    look(rt, top, case)?;
    Ok(fs::remove_dir_all(rt, top)?)
}

// Where a test has its files.
pub(super) fn place_of(rt: &HostRuntime, name: &str) -> Result<String, Fail> {
    let below = format!(in rt.alloc(); "{name}.{}", process::id(rt.process()))?;
    Ok(
        env::temp_dir(rt)?
            .join(rt.alloc(), below.as_str())?
            .into_string(),
    )
}

#[test]
fn real_directories_get_what_is_put_and_nothing_else(rt: HostRuntime) -> Result<(), Fail> {
    let top = place_of(&rt, "byte_cases")?;
    for case in CASES {
        run(&rt, &top, case)?;
    }
    Ok(())
}
