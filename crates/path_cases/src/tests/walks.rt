// Paths in the sample containers, and in small ones made for them. What is wanted was worked out by hand.
ghost use Rattle.std.specs.Prelude.{length};
ghost use Rattle.obj_base.specs.Site.{IsSiteFor};

use crate::tests::made::Holds;
use crate::tests::opened::{Opened, open, rows_in};
use apfs_model::Bytes;
use blk_source::MemSink;
use img_make::{Sample, table};
use obj_base::Stop;
use path_walk::{Answer, PathStop, Target, find, list};
use std::alloc::Global;
use std::test::Fail;
use view_rules::{IdAt, TreeFault};
use view_tree::{PutStop, kind_letter, tree};

// What an image holds, the number of a snapshot or none for the live view, a path in that view, and what is told of it.
type Case = (Holds, Option<usize>, &'static str, &'static str);

// Adds kind, id, size and name of a target, or the shown path in the name's place.
fn add_row(alloc: Global, text: &mut String, target: &Target, name: &Bytes) -> Result<(), Fail> {
    let (kind, id, size) = (target.kind, target.id, target.size);
    let Ok(name) = str::from_utf8(name.as_slice()) else {
        return Err(Fail::from("a name isn't UTF-8"));
    };
    let row = format!(in alloc; "{kind} {id} {size} {name}\n")?;
    text.push_str(row.as_str())?;
    Ok(())
}

// What is told where a path leads nowhere, or to no directory.
const NOT_FOUND: &str = "not found";

const NO_DIRECTORY: &str = "no directory";

// The directory that stands in itself.
const RING: IdAt = IdAt {
    slot: 0,
    xid: 1,
    id: 16,
};

// What a stop is called.
fn word(stop: &Stop<PathStop>) -> &'static str {
    match stop {
        Stop::Found(PathStop::Answer(Answer::NotFound)) => NOT_FOUND,
        Stop::Found(PathStop::Answer(Answer::NotDirectory)) => NO_DIRECTORY,
        Stop::Found(PathStop::Fault(TreeFault::DirNames(at))) if *at == RING => TWICE,
        _ => "another stop",
    }
}

/// Why there are no rows.
pub(super) fn why(stop: Stop<PathStop>) -> &'static str {
    word(&stop)
}

// Adds what is told of a listing: its rows, or why there is none.
fn add_listing(alloc: Global, text: &mut String, at: &mut Opened, path: &str) -> Result<(), Fail>
    requires { IsSiteFor at.old.site (length at.old.src.bytes) }
{
    match list(alloc, &mut at.src, &at.volume, &at.view, &at.site, path) {
        Ok(targets) => {
            for target in targets.iter() {
                add_row(alloc, text, target, &target.name)?;
            }
        }
        Err(stop) => text.push_str(why(stop))?,
    }
    Ok(())
}

// Adds what is told of a tree.
fn add_tree(alloc: Global, text: &mut String, at: &mut Opened, path: &str) -> Result<(), Fail>
    requires { IsSiteFor at.old.site (length at.old.src.bytes) }
{
    match tree(alloc, &mut at.src, &at.volume, &at.view, &at.site, path) {
        Ok(rows) => {
            for (path, target) in rows.iter() {
                add_row(alloc, text, target, path)?;
            }
        }
        Err(stop) => text.push_str(why(stop))?,
    }
    Ok(())
}

// Adds what is told of where a path leads.
fn add_found(alloc: Global, text: &mut String, at: &mut Opened, path: &str) -> Result<(), Fail>
    requires { IsSiteFor at.old.site (length at.old.src.bytes) }
{
    match find(alloc, &mut at.src, &at.volume, &at.view, &at.site, path) {
        Ok(target) => add_row(alloc, text, &target, &target.name)?,
        Err(stop) => text.push_str(why(stop))?,
    }
    Ok(())
}

// What is asked of a path.
#[derive(Clone, Copy)]
enum Ask {
    List,
    Tree,
    Find,
}

// Adds what is told of a case.
fn tell(alloc: Global, text: &mut String, case: &Case, ask: Ask) -> Result<(), Fail> {
    let mut at = open(alloc, case.0, Vec::new(alloc), case.1)?;
    match ask {
        Ask::List => add_listing(alloc, text, &mut at, case.2),
        Ask::Tree => add_tree(alloc, text, &mut at, case.2),
        Ask::Find => add_found(alloc, text, &mut at, case.2),
    }
}

// Whether that is what the case says.
fn is_told(alloc: Global, case: &Case, ask: Ask) -> Result<bool, Fail> {
    let mut text = String::new(alloc);
    tell(alloc, &mut text, case, ask)?;
    Ok(text.as_str() == case.3)
}

const HELLO: Holds = Holds::Of(Sample::H);

const SNAPSHOTS: Holds = Holds::Of(Sample::V);

const NAMES_OF_THE_ROOT: &str =
    "8 21 0 Ab\n8 22 0 ReadMe\n8 20 0 aB\n4 16 0 d\n8 23 0 no directory\n4 3 0 private\n4 7 0 reserved\n";

// By the bytes of the names: one that another begins with comes first, and the bytes of U+00E9, c3 a9, after those of letters and digits.
const ALIKE: &str =
    "8 27 0 p\n8 23 0 photo-0\n8 21 0 photo-01\n8 24 0 photo-01a\n8 22 0 photo-01a.long\n8 20 0 photo-01b\n8 25 0 photo-01\u{e9}\n8 26 0 photo-0\u{e9}\n";

// What paths list.
const LISTINGS: &[Case] = table! {
    Holds::Of(Sample::S), None, "/", "";
    HELLO, None, "", "8 16 5 hello.txt\n";
    HELLO, None, "//hello.txt/", "8 16 5 hello.txt\n";
    HELLO, None, "/x", NOT_FOUND;
    HELLO, None, "/hello.txt/x", NO_DIRECTORY;
    HELLO, None, "/..", NOT_FOUND;
    Holds::Of(Sample::L), None, "/", "8 16 0 a\n8 16 0 b\n";
    Holds::Of(Sample::P), None, "/hole", "8 16 5000 hole\n";
    SNAPSHOTS, None, "/", "8 16 0 new\n";
    SNAPSHOTS, Some(0), "/", "8 16 0 old\n";
    SNAPSHOTS, Some(1), "/", "8 16 0 new\n";
    Holds::Names, None, "/", NAMES_OF_THE_ROOT;
    Holds::Names, None, "/reserved", "";
    Holds::Names, None, "/private", "8 19 0 kept\n";
    Holds::Ring, None, "/d/d/d", "4 16 0 d\n";
    Holds::Alike, None, "/", ALIKE;
};

// Where paths lead. Where several entries are the same by their normal forms, the one of the same bytes is taken, otherwise the first.
const FINDS: &[Case] = table! {
    HELLO, None, "/", "4 2 0 /\n";
    SNAPSHOTS, Some(0), "/new", NOT_FOUND;
    Holds::Names, None, "/aB", "8 20 0 aB\n";
    Holds::Names, None, "/Ab", "8 21 0 Ab\n";
    Holds::Names, None, "/AB", "8 20 0 aB\n";
    Holds::Names, None, "/README", "8 22 0 ReadMe\n";
    Holds::Names, None, "/D/F", "8 17 0 f\n";
    Holds::Names, None, "/reserved/unseen", NOT_FOUND;
    Holds::Names, None, "/no directory/x", NO_DIRECTORY;
};

const TREE_OF_THE_ROOT: &str =
    "8 21 0 Ab\n8 22 0 ReadMe\n8 20 0 aB\n4 16 0 d\n8 17 0 d/f\n8 23 0 no directory\n4 3 0 private\n4 7 0 reserved\n";

const TWICE: &str = "directory 16 is entered twice";

// Trees, where none enters a directory twice.
const TREES: &[Case] = table! {
    Holds::Of(Sample::S), None, "/", "";
    HELLO, None, "/hello.txt", "8 16 5 hello.txt\n";
    SNAPSHOTS, Some(0), "/", "8 16 0 old\n";
    Holds::Names, None, "/", TREE_OF_THE_ROOT;
    Holds::Names, None, "/d", "8 17 0 f\n";
    Holds::Names, None, "/private", "8 19 0 kept\n";
    Holds::Names, None, "/d/g", NOT_FOUND;
    Holds::Ring, None, "/", TWICE;
    Holds::Ring, None, "/d", TWICE;
    Holds::Alike, None, "/", ALIKE;
};

#[test]
fn listings_are_by_name(rt: HostRuntime) -> Result<(), Fail> {
    for case in LISTINGS {
        assert!(rt; is_told(rt.alloc(), case, Ask::List)?);
    }
    Ok(())
}

#[test]
fn paths_lead_by_bytes_then_by_form(rt: HostRuntime) -> Result<(), Fail> {
    for case in FINDS {
        assert!(rt; is_told(rt.alloc(), case, Ask::Find)?);
    }
    Ok(())
}

#[test]
fn trees_enter_each_directory_once(rt: HostRuntime) -> Result<(), Fail> {
    for case in TREES {
        assert!(rt; is_told(rt.alloc(), case, Ask::Tree)?);
    }
    Ok(())
}

// Puts the rows of a tree on a sink, and tells how that ends.
fn put(
    alloc: Global,
    holds: Holds,
    path: &str,
    out: &mut MemSink,
) -> Result<Result<(), PutStop>, Fail> {
    Ok(rows_in(alloc, holds, path)?.put(alloc, out))
}

const LINES_OF_THE_ROOT: &str =
    "- 21 0 Ab\n- 22 0 ReadMe\n- 20 0 aB\nd 16 0 d\n- 17 0 d/f\n- 23 0 no directory\nd 3 0 private\nd 7 0 reserved\n";

// What an image holds, a path in its live view, and the lines of the tree there.
const LINES: &[(Holds, &str, &str)] = table! {
    Holds::Of(Sample::S), "/", "";
    HELLO, "/hello.txt", "- 16 5 hello.txt\n";
    Holds::Names, "/", LINES_OF_THE_ROOT;
};

// Whether the rows of the tree there are put as these lines.
fn are_put(alloc: Global, holds: Holds, path: &str, lines: &str) -> Result<bool, Fail> {
    let mut out = MemSink::new(alloc, 1000, Vec::new(alloc))?;
    let end = put(alloc, holds, path, &mut out)?;
    Ok(end == Ok(()) && out.contents() == lines.as_bytes())
}

#[test]
fn rows_are_put_as_lines(rt: HostRuntime) -> Result<(), Fail> {
    for (holds, path, lines) in LINES {
        assert!(rt; are_put(rt.alloc(), *holds, path, lines)?, "{path}");
    }
    Ok(())
}

// The lines of a small tree are put at once.
#[test]
fn a_sink_without_room_gets_no_rows(rt: HostRuntime) -> Result<(), Fail> {
    let mut out = MemSink::new(rt.alloc(), 10, Vec::new(rt.alloc()))?;
    let end = put(rt.alloc(), Holds::Names, "/", &mut out)?;
    assert!(rt; end == Err(PutStop::WriteFault) && out.contents().is_empty());
    Ok(())
}

// A whiteout, which no tree has.
#[test]
fn a_whiteout_has_a_letter(rt: HostRuntime) {
    assert!(rt; kind_letter(14) == "w");
}

// How many targets are listed.
fn list_len(alloc: Global, at: &mut Opened) -> Result<usize, Fail>
    requires { IsSiteFor at.old.site (length at.old.src.bytes) }
    ensures { IsSiteFor at.new.site (length at.new.src.bytes) }
{
    match list(alloc, &mut at.src, &at.volume, &at.view, &at.site, "/x/y") {
        Ok(targets) => Ok(targets.len()),
        Err(stop) => Err(Fail::from(why(stop))),
    }
}

// How many rows the tree has.
fn tree_len(alloc: Global, at: &mut Opened) -> Result<usize, Fail>
    requires { IsSiteFor at.old.site (length at.old.src.bytes) }
{
    match tree(alloc, &mut at.src, &at.volume, &at.view, &at.site, "/") {
        Ok(rows) => Ok(rows.len()),
        Err(stop) => Err(Fail::from(why(stop))),
    }
}

// Whether a search finds one of all the rows, and reads few of the blocks.
fn finds_one(alloc: Global, at: &mut Opened) -> Result<bool, Fail>
    requires { IsSiteFor at.old.site (length at.old.src.bytes) }
{
    let start = at.src.read_count();
    let targets = list_len(alloc, at)?;
    let first = at.src.read_count().saturating_sub(start);
    let rows = tree_len(alloc, at)?;
    let all = at.src.read_count().saturating_sub(start);
    Ok(targets == 1 && rows == 3003 && first < 24 && all > 100)
}

// A tree of more than a hundred nodes, of which a search reads few.
#[test]
fn a_search_reads_few_blocks(rt: HostRuntime) -> Result<(), Fail> {
    let mut at = open(rt.alloc(), Holds::Many, Vec::new(rt.alloc()), None)?;
    assert!(rt; finds_one(rt.alloc(), &mut at)?);
    Ok(())
}
