//! Lines, right and wrong, worked out by hand. The words of a line are parted by `|`.
use cmd_words::Line::*;
use cmd_words::{Flags, Line, Target, line_in};
use std::alloc::{AllocError, Global};
use std::process::Abort;

// The words of a line.
fn words(alloc: Global, text: &str) -> Result<Vec<String>, AllocError> {
    let mut words: Vec<String> = Vec::new(alloc);
    for word in text.split('|') {
        words.push(format!(in alloc; "{word}")?)?;
    }
    Ok(words)
}

// Whether the words of a line ask for this.
fn ask_for(alloc: Global, text: &str, wanted: Option<Line<'_>>) -> Result<bool, AllocError> {
    let words = words(alloc, text)?;
    Ok(line_in(alloc, &words)? == wanted)
}

// A path in the volume and the snapshot that are meant.
macro_rules! at {
    ($path:expr, $volume:expr, $snapshot:expr) => {
        Target {
            path: $path,
            volume: $volume,
            snapshot: $snapshot,
        }
    };
}

// Which flags were said: `--quick`, and `--strict`.
macro_rules! said {
    ($quick:expr, $strict:expr) => {
        Flags {
            quick: $quick,
            strict: $strict,
        }
    };
}

// Neither flag was said.
const PLAIN: Flags = said!(false, false);

// The words of a line, and the line.
type Row = (&'static str, Option<Line<'static>>);

// A table of these: a row has the words and the parts of the line, and ends with a semicolon.
macro_rules! lines {
    ($($text:expr, $line:expr;)*) => {
        &[$(($text, Some($line))),*]
    };
}

const RIGHT: &[Row] = lines! {
    "ring|img", Ring;
    "info|img", Info;
    "volumes|--help", Volumes;
    "space|img", Space;
    "check|", Check(false);
    "check|img|--strict", Check(true);
    "check|img|--strict|--", Check(true);
    "snapshots|img", Snapshots(None);
    "snapshots|img|--volume=2", Snapshots(Some(2));
    "snapshots|img|--", Snapshots(None);
    "usage|img", Usage(None);
    "usage|--|--volume|41", Usage(Some(41));
    "export|img|dir", Export(at!("/", None, None));
    "export|img|", Export(at!("/", None, None));
    "export|img|--volume|--volume=3", Export(at!("/", Some(3), None));
    "export|img|--|--snapshot|s|--volume|1", Export(at!("/", Some(1), Some("s")));
    "ls|img|/", Ls(PLAIN, at!("/", None, None));
    "ls|img|a|--quick", Ls(said!(true, false), at!("a", None, None));
    "ls|img|--strict|a", Ls(said!(false, true), at!("a", None, None));
    "ls|img|", Ls(PLAIN, at!("", None, None));
    "ls|--volume|é", Ls(PLAIN, at!("é", None, None));
    "tree|img|a", Tree(PLAIN, at!("a", None, None));
    "tree|img|--strict|--quick|a", Tree(said!(true, true), at!("a", None, None));
    "tree|img|help", Tree(PLAIN, at!("help", None, None));
    "xattr|img|a", Xattr(PLAIN, at!("a", None, None), None);
    "xattr|img|a|--quick|n", Xattr(said!(true, false), at!("a", None, None), Some("n"));
    "xattr|img|a|--|-n", Xattr(PLAIN, at!("a", None, None), Some("-n"));
    "xattr|img|--volume=1|a|--snapshot|s|n", Xattr(PLAIN, at!("a", Some(1), Some("s")), Some("n"));
};

const ANYWHERE: &[Row] = lines! {
    "cat|img|a|--volume|3", Cat(PLAIN, at!("a", Some(3), None));
    "cat|img|--volume=0|a", Cat(PLAIN, at!("a", Some(0), None));
    "cat|img|a|--volume=10", Cat(PLAIN, at!("a", Some(10), None));
    "cat|img|--snapshot|s|--volume|99|a", Cat(PLAIN, at!("a", Some(99), Some("s")));
    "cat|img|a|--snapshot=", Cat(PLAIN, at!("a", None, Some("")));
    "cat|img|a|--snapshot|", Cat(PLAIN, at!("a", None, Some("")));
    "cat|img|a|--snapshot=-x", Cat(PLAIN, at!("a", None, Some("-x")));
    "cat|img|a|--snapshot=--volume=3", Cat(PLAIN, at!("a", None, Some("--volume=3")));
    "cat|img|a|--snapshot=a=b", Cat(PLAIN, at!("a", None, Some("a=b")));
    "cat|img|a|--snapshot|-", Cat(PLAIN, at!("a", None, Some("-")));
    "cat|img|a|--snapshot=-é", Cat(PLAIN, at!("a", None, Some("-é")));
    "cat|img|--|-a", Cat(PLAIN, at!("-a", None, None));
    "cat|img|--|--", Cat(PLAIN, at!("--", None, None));
    "cat|img|--|--help", Cat(PLAIN, at!("--help", None, None));
    "cat|img|--|--quick", Cat(PLAIN, at!("--quick", None, None));
    "cat|img|a|--snapshot=--quick", Cat(PLAIN, at!("a", None, Some("--quick")));
    "cat|img|--volume=3|--|--volume=4", Cat(PLAIN, at!("--volume=4", Some(3), None));
    "cat|img|a|--", Cat(PLAIN, at!("a", None, None));
    "cat|img|-", Cat(PLAIN, at!("-", None, None));
};

// Words of no line. The first has no word.
macro_rules! wrong {
    ($($text:expr;)*) => {
        &[$(($text, None)),*]
    };
}

const WRONG: &[Row] = wrong! {
    ""; "help"; "--help"; "--help|img"; "ls"; "ring"; "export|img"; "export|img|dir|/"; "export|img|dir|--quick";
    "export|img|dir|--strict"; "export|img|dir|--volume=x"; "export|img|--volume|3"; "export|img|dir|--snapshot=s|--snapshot=s";
    "RING|img"; "rings|img"; "ring|img|a"; "ring|img|--"; "check|img|--quick"; "check|img|a"; "check|img|--strict=true";
    "check|img|--strict|--strict"; "ring|img|--strict"; "info|img|--quick"; "volumes|img|--strict"; "space|img|--strict"; "gen|3";
    "LS|img|a"; "lsx|img|a"; "ls|img"; "ls|img|a|b"; "ls|img|a|--quick=1"; "ls|img|a|--quick="; "ls|img|a|--quick|1";
    "ls|img|a|--quick|--quick"; "ls|img|a|--strict|--quick|--strict"; "ls|img|a|--snapshot|--quick"; "ls|img|a|-q"; "ls|img|--quick";
    "cat|img|--"; "cat|img|a|--|b"; "cat|img|a|--volume=07"; "cat|img|a|--volume=100"; "cat|img|a|--volume=+3"; "cat|img|a|--volume=";
    "cat|img|a|--volume|"; "cat|img|a|--volume"; "cat|img|a|--vol=3"; "cat|img|a|-v|3"; "cat|img|a|--volume=3|--volume=3";
    "cat|img|a|--volume|3|--volume=3"; "cat|img|a|--snapshot=x|--snapshot|y"; "cat|img|a|--snapshot|-x";
    "cat|img|a|--snapshot|--volume=3"; "cat|img|a|--snapshot|--|x"; "cat|img|-a"; "cat|img|-1"; "cat|img|---"; "cat|img|--=x";
    "cat|img|a|-h"; "cat|img|a|--help"; "cat|img|a|-V"; "cat|img|a|--version"; "xattr|img|a|n|m"; "snapshots|img|a";
    "snapshots|img|--strict"; "snapshots|img|--snapshot=a"; "usage"; "usage|img|1"; "usage|img|--volume=100"; "usage|img|--snapshot=a";
    "usage|img|--strict"; "usage|img|--quick";
};

// Asserts that words ask for the lines of a table.
fn assert_lines(rt: &impl Abort, alloc: Global, rows: &[Row]) {
    for (text, line) in rows {
        assert!(rt; ask_for(alloc, text, *line) == Ok(true), "{text}");
    }
}

#[test]
fn right_lines_say_their_parts_and_options_stand_anywhere(rt: HostRuntime) {
    assert_lines(&rt, rt.alloc(), RIGHT);
    assert_lines(&rt, rt.alloc(), ANYWHERE);
}

#[test]
fn wrong_words_are_no_line(rt: HostRuntime) {
    assert_lines(&rt, rt.alloc(), WRONG);
}
