// The edge: a real directory as a folder. No contract knows what a file system holds, so it tells nothing.
ghost use Rattle.std.specs.Prelude.{◌≡◌, ◌≤◌, false, is_some, IsErr};
ghost use Rattle.apfs_model.specs.Counts.{one_more};
ghost use Rattle.blk_folder.specs.Edge.{untold};

use crate::folder::Folder;
use apfs_model::WriteFailed;
use std::fs::{self, DirBuilder, OpenOptions};
use std::io::Write;
use std::os::unix::fs::{DirBuilderExt, OpenOptionsExt};
use std::rt::Files;

// Whom what is made lets read and write it, less what the process's mask takes away.
const DIRECTORY_MODE: u32 = 0o755;

const FILE_MODE: u32 = 0o644;

// A real directory, and the way to what is put into it.
#[derive(Drop)]
struct Way {
    dir: String,
    // The path of the last item below the directory, none of whose parts was a link when they were asked for or made; empty after a
    // failure.
    last: String,
}

impl Way {
    // The path of what is to be put, in the real directory. An error where it leads out of the directory, where one of its
    // parents isn't a directory, and where memory is refused. A parent that the last item has too isn't asked for again: it is no
    // link, and the system puts nothing below a file. No directory has an empty path, and with a slash after it that would be the
    // system's own root.
    fn below<R: Files>(&self, rt: &R, path: &str) -> Result<String, WriteFailed> {
        if self.dir.is_empty() {
            return Err(WriteFailed);
        }
        let Ok(mut whole) = self.dir.clone() else {
            return Err(WriteFailed);
        };
        let mut last = self.last.split('/');
        let mut is_known = true;
        for name in path.split('/') {
            if !is_name(name) || !(is_known || is_directory(rt, &whole)) {
                return Err(WriteFailed);
            }
            if whole.push('/').is_err() || whole.push_str(name).is_err() {
                return Err(WriteFailed);
            }
            is_known = is_known && last.next() == Some(name);
        }
        Ok(whole)
    }

    // The same, with this path as that of the last item: what comes next has to be a try to put it.
    fn take<R: Files>(&mut self, rt: &R, path: &str) -> Result<String, WriteFailed> {
        let whole = self.below(rt, path)?;
        self.last.clear();
        match self.last.push_str(path) {
            Ok(()) => Ok(whole),
            Err(_) => Err(WriteFailed),
        }
    }

    // Makes a directory.
    fn make<R: Files>(&mut self, rt: &R, path: &str) -> Result<(), WriteFailed> {
        let whole = self.take(rt, path)?;
        match DirBuilder::new().mode(DIRECTORY_MODE).create(rt, &whole) {
            Ok(()) => Ok(()),
            Err(_) => Err(WriteFailed),
        }
    }

    // Makes a file, and opens it.
    fn create<R: Files>(&mut self, rt: &R, path: &str) -> Result<R::File, WriteFailed> {
        let whole = self.take(rt, path)?;
        match OpenOptions::new()
            .write(true)
            .create_new(true)
            .mode(FILE_MODE)
            .open(rt, &whole)
        {
            Ok(file) => Ok(file),
            Err(_) => Err(WriteFailed),
        }
    }
}

// Whether a directory stands at a path, and no link.
fn is_directory<R: Files>(rt: &R, path: &str) -> bool {
    match fs::symlink_metadata(rt, path) {
        Ok(found) => found.is_dir(),
        Err(_) => false,
    }
}

// Whether a part of a path is a name, and leads nowhere else.
fn is_name(part: &str) -> bool {
    !part.is_empty() && part != "." && part != ".."
}

/// The directories and files below a real directory. It tells nothing. Each call fails where the path is there already, leads
/// out of the directory or over a link, the system refuses the call, or memory is refused.
#[derive(Drop)]
pub struct DirFolder<'a, R: Files> {
    rt: &'a R,
    way: Way,
    file: Option<R::File>,
    faults: u64,
}

impl<'a, R: Files> DirFolder<'a, R> {
    /// What is to be put below this directory. Takes no memory.
    pub fn new(rt: &'a R, dir: String) -> DirFolder<'a, R>
        ensures faults { result.faults ≡ 0 }
        ensures writing { is_some result.file ≡ false }
    {
        let last = String::new(*dir.allocator());
        DirFolder {
            rt,
            way: Way { dir, last },
            file: None,
            faults: 0,
        }
    }

    // Counts a failure, after which nothing is written, and each parent is asked for again.
    fn fail(&mut self) -> Result<(), WriteFailed>
        ensures fails { IsErr result }
        ensures closes { is_some self.new.file ≡ false }
        ensures counts { self.new.faults ≡ one_more self.old.faults }
        ensures later { self.old.faults ≤ self.new.faults }
    {
        self.file = None;
        self.way.last.clear();
        self.faults = self.faults.saturating_add(1);
        Err(WriteFailed)
    }
}

impl<'a, R: Files> Folder for DirFolder<'a, R> {
    ghost contents = { λ _. untold };

    ghost faults = { λ s. s.faults };

    ghost writing = { λ s. is_some s.file };

    fn make_dir(&mut self, path: &str) -> Result<(), WriteFailed> {
        self.file = None;
        match self.way.make(self.rt, path) {
            Ok(()) => Ok(()),
            Err(_) => self.fail(),
        }
    }

    fn start_file(&mut self, path: &str) -> Result<(), WriteFailed> {
        self.file = None;
        match self.way.create(self.rt, path) {
            Ok(file) => {
                self.file = Some(file);
                Ok(())
            }
            Err(_) => self.fail(),
        }
    }

    fn append(&mut self, piece: &[u8]) -> Result<(), WriteFailed> {
        let Some(file) = &mut self.file else {
            return self.fail();
        };
        match file.write_all(piece) {
            Ok(()) => Ok(()),
            Err(_) => self.fail(),
        }
    }
}
