// What no clause says: each call once on its happy path, in a container with a file and a symbolic link that has two attributes.
use crate::tests::made::Holds;
use crate::tests::opened::open;
use crate::tests::walks::why;
use apfs_model::Bytes;
use blk_source::MemSink;
use img_make::table;
use obj_base::Stop;
use path_read::{WriteStop, attr, attrs, cat, withheld};
use path_walk::{Answer, PathStop, locate};
use std::alloc::Global;
use std::test::Fail;

// How a call ends at the end, at what is no file, and at a name that no attribute has.
const WHOLE: &str = "whole";

const NOT_FILE: &str = "no file";

const NO_ATTRIBUTE: &str = "no attribute";

fn word(end: &Result<(), WriteStop>) -> &'static str {
    match end {
        Ok(()) => WHOLE,
        Err(WriteStop::Stopped(Stop::Found(PathStop::Answer(Answer::NotFile)))) => NOT_FILE,
        Err(WriteStop::Stopped(Stop::Found(PathStop::Answer(Answer::NoAttribute)))) => NO_ATTRIBUTE,
        Err(_) => "another stop",
    }
}

// How a call ends.
fn how(end: Result<(), WriteStop>) -> &'static str {
    word(&end)
}

// Writes the contents of what a path leads to, or those of its attribute of a name, and tells how that ends.
fn written(
    alloc: Global,
    path: &str,
    attribute: Option<&str>,
    out: &mut MemSink,
) -> Result<&'static str, Fail> {
    let mut at = open(alloc, Holds::Attributes, Vec::new(alloc), None)?;
    let end = match attribute {
        None => cat(
            alloc,
            &mut at.src,
            &at.volume,
            &at.view,
            &at.site,
            path,
            out,
        ),
        Some(name) => attr(
            alloc,
            &mut at.src,
            &at.volume,
            &at.view,
            &at.site,
            path,
            name,
            out,
        ),
    };
    Ok(how(end))
}

// A path, the name of an attribute or none, how writing it ends, and what is written.
type Case = (
    &'static str,
    Option<&'static str>,
    &'static str,
    &'static [u8],
);

// Whether it ends so.
fn is_written(alloc: Global, case: &Case) -> Result<bool, Fail> {
    let mut out = MemSink::new(alloc, 100, Vec::new(alloc))?;
    let end = written(alloc, case.0, case.1, &mut out)?;
    Ok(end == case.2 && out.contents() == case.3)
}

// What the file and the link give.
const FILES: &[Case] = table! {
    "/hello.txt", None, WHOLE, b"hello";
    "/l", None, NOT_FILE, b"";
};

#[test]
fn a_file_is_written(rt: HostRuntime) -> Result<(), Fail> {
    for case in FILES {
        assert!(rt; is_written(rt.alloc(), case)?, "{}", case.0);
    }
    Ok(())
}

// What the attributes of the link give.
const WRITTEN: &[Case] = table! {
    "/l", Some("com.apple.fs.symlink"), WHOLE, b"hello\0";
    "/l", Some("b"), WHOLE, b"hel";
};

#[test]
fn an_attribute_is_written(rt: HostRuntime) -> Result<(), Fail> {
    for case in WRITTEN {
        assert!(rt; is_written(rt.alloc(), case)?);
    }
    Ok(())
}

const PART: Case = ("/l", Some("com.apple.fs.symlin"), NO_ATTRIBUTE, b"");

#[test]
fn a_part_of_a_name_is_no_attribute(rt: HostRuntime) -> Result<(), Fail> {
    assert!(rt; is_written(rt.alloc(), &PART)?);
    Ok(())
}

// Why the contents of what a path leads to aren't given.
fn withheld_at(alloc: Global, path: &str) -> Result<Option<Answer>, Fail> {
    let mut at = open(alloc, Holds::Attributes, Vec::new(alloc), None)?;
    match locate(alloc, &mut at.src, &at.volume, &at.view, &at.site, path) {
        Ok(place) => Ok(withheld(place.inode())),
        Err(stop) => Err(Fail::from(why(stop))),
    }
}

#[test]
fn contents_are_those_of_a_file(rt: HostRuntime) -> Result<(), Fail> {
    assert!(rt;
        withheld_at(rt.alloc(), "/hello.txt")? == None
            && withheld_at(rt.alloc(), "/l")? == Some(Answer::NotFile)
    );
    Ok(())
}

// Whether these are the attributes of the link: of each its name, and how many bytes it has.
fn are_named(listed: &[(Bytes, u64)]) -> bool {
    let [first, second] = listed else {
        return false;
    };
    first.0.as_slice() == b"b".as_slice()
        && first.1 == 3
        && second.0.as_slice() == b"com.apple.fs.symlink".as_slice()
        && second.1 == 6
}

// Whether the attributes of the link are listed.
fn are_listed(alloc: Global) -> Result<bool, Fail> {
    let mut at = open(alloc, Holds::Attributes, Vec::new(alloc), None)?;
    match attrs(alloc, &mut at.src, &at.volume, &at.view, &at.site, "/l") {
        Ok(listed) => Ok(are_named(&listed)),
        Err(stop) => Err(Fail::from(why(stop))),
    }
}

#[test]
fn attributes_are_listed_by_name(rt: HostRuntime) -> Result<(), Fail> {
    assert!(rt; are_listed(rt.alloc())?);
    Ok(())
}
