//! `apfs`: checks and browses APFS containers. What it writes, and how it ends, is said by the contract of `run` (apfs_cli).
#![tactic(auto)]

use apfs_cli::run;
use blk_folder::{DirFolder, Given};
use blk_source::{FileSource, Opened, StdSink};
use cmd_lines::{Order, asked};
use std::alloc::{AllocError, Global};
use std::io::{self, ErrorKind};
use std::os::unix::fs::FileTypeExt;
use std::process::ExitCode;
use std::{env, fs};

// The status of a run for which there was no memory.
const OUT_OF_MEMORY: u8 = 5;

// The words after the program's name; none where one of them isn't text, and an error where memory ran out.
fn read_words(rt: &HostRuntime) -> io::Result<Vec<String>> {
    let mut words = Vec::new(rt.alloc());
    match env::args(rt) {
        Ok(args) => {
            for word in args.skip(1) {
                words.push(word)?;
            }
        }
        Err(error) if error.kind() == ErrorKind::OutOfMemory => return Err(error),
        Err(_) => {}
    }
    Ok(words)
}

// The places among the words of the one that names the image and of the one that names the directory to put files into; none
// where the words are no line, or ask for a command that takes none. `--gpt` stands before the command.
#[derive(Drop)]
struct Places {
    image: Option<usize>,
    folder: Option<usize>,
}

// The place of the word that names the image, after the command.
fn image_at(in_partition: bool) -> usize {
    if in_partition { 2 } else { 1 }
}

// The place of the word that names the directory, after that of the image.
fn folder_at(in_partition: bool) -> usize {
    if in_partition { 3 } else { 2 }
}

fn places_in(alloc: Global, words: &[String]) -> Result<Places, AllocError> {
    let (image, folder) = match asked(alloc, words)? {
        Some(Order::On { in_partition, .. }) => (Some(image_at(in_partition)), None),
        Some(Order::Export { in_partition, .. }) => (
            Some(image_at(in_partition)),
            Some(folder_at(in_partition)),
        ),
        Some(Order::Gen(_) | Order::Format(_)) | None => (None, None),
    };
    Ok(Places { image, folder })
}

// Whether a path leads to a file or a block device. What else it leads to is never opened: a pipe would be waited for, and
// a directory has a length.
fn holds_bytes(rt: &HostRuntime, path: &str) -> bool {
    match fs::metadata(rt, path) {
        Ok(found) => found.is_file() || found.file_type().is_block_device(),
        Err(_) => false,
    }
}

// The image that a word names.
fn open(rt: &HostRuntime, path: &str) -> Opened<FileSource> {
    if !holds_bytes(rt, path) {
        return Opened::Absent;
    }
    let Ok(file) = fs::open(rt, path) else {
        return Opened::Absent;
    };
    match FileSource::new(file) {
        Ok(source) => Opened::Image(source),
        Err(_) => Opened::Absent,
    }
}

// Opens what a word names for reading, once for each stream that a process is started with. What is opened takes the number of a
// stream that is closed. One of these takes it, to which nothing can be written, and no file of the folder does, into which the
// text or the line would be written then.
fn stand_ins(rt: &HostRuntime, word: Option<&String>) -> [Opened<FileSource>; 3] {
    [image_of(rt, word), image_of(rt, word), image_of(rt, word)]
}

// The word at a place, where it is named.
fn word_at(words: &[String], at: Option<usize>) -> Option<&String> {
    match at {
        Some(at) => words.get(at),
        None => None,
    }
}

// The image that a word names; absent where none does.
fn image_of(rt: &HostRuntime, word: Option<&String>) -> Opened<FileSource> {
    match word {
        Some(path) => open(rt, path.as_str()),
        None => Opened::Absent,
    }
}

// Whether a path leads to a directory.
fn is_directory(rt: &HostRuntime, path: &str) -> bool {
    match fs::metadata(rt, path) {
        Ok(found) => found.is_dir(),
        Err(_) => false,
    }
}

// The folder that a word names; nothing where none does, or where it leads to no directory. An error where memory ran out.
fn folder_of<'a>(
    rt: &'a HostRuntime,
    word: Option<&String>,
) -> Result<Given<DirFolder<'a, HostRuntime>>, AllocError> {
    match word {
        Some(path) if is_directory(rt, path.as_str()) => {
            Ok(Given::Into(DirFolder::new(rt, path.clone()?)))
        }
        _ => Ok(Given::Nothing),
    }
}

fn main(rt: HostRuntime) -> ExitCode {
    let Ok(words) = read_words(&rt) else {
        return ExitCode::from(OUT_OF_MEMORY);
    };
    let Ok(places) = places_in(rt.alloc(), &words) else {
        return ExitCode::from(OUT_OF_MEMORY);
    };
    let _stand_ins = stand_ins(&rt, word_at(&words, places.folder.and(places.image)));
    let mut image = image_of(&rt, word_at(&words, places.image));
    let Ok(mut folder) = folder_of(&rt, word_at(&words, places.folder)) else {
        return ExitCode::from(OUT_OF_MEMORY);
    };
    let mut out = StdSink::new(rt.stdout());
    let mut err = StdSink::new(rt.stderr());
    let status = run(
        rt.alloc(),
        &words,
        &mut image,
        &mut out,
        &mut err,
        &mut folder,
    );
    ExitCode::from(status)
}
