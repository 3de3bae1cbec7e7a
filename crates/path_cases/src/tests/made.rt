// Made images, and what they hold.
use fs_name::Names;
use img_make::records::{EntryPlan, InodePlan, LINK_MODE, attribute, stream_attribute};
use img_make::{FileTree, Item, Sample, image_with, made, sample, table};
use std::alloc::{AllocError, Global};
use std::test::Fail;

// The id of the root.
const ROOT: u64 = 2;

// The id of the private directory, which isn't reserved and stands below the first user's.
const PRIVATE: u64 = 3;

// The flags of compressed and of dataless files.
const COMPRESSED: u32 = 0x20;

const DATALESS: u32 = 0x4000_0000;

// The block of the sample with a file that holds `hello`.
const HELLO_BLOCK: u64 = 57;

/// The size of the large hole.
pub(super) const HOLE: u64 = 1 << 30;

/// What an image holds.
#[derive(Clone, Copy)]
pub(super) enum Holds {
    /// What a sample holds.
    Of(Sample),
    /// Names that differ in case alone, a directory and a file in it, a reserved directory and the private one.
    Names,
    /// Directory 16 with an entry in the root and one in itself.
    Ring,
    /// Names that share their first eight bytes, or a part of them.
    Alike,
    /// Directory `d` with 3,000 empty files, and beside it directory `x` with the file `y`.
    Many,
    /// A directory with a file without a stream, and an empty directory.
    Folders,
    /// A symbolic link.
    Link,
    /// A directory `.` with the file `..`, and beside it the files `..` and `...`.
    Dots,
    /// A compressed file, a dataless one, one that is both, and one that is neither.
    Withheld,
    /// Nothing.
    Empty,
    /// A directory with the file `hello`, and an empty directory.
    Several,
    /// A file that begins with a hole of 1 GiB.
    Hole,
    /// The file `hello.txt`, and the symbolic link `l` with two attributes.
    Attributes,
}

// The extents of a stream: of each where it is in the stream, its length, and its block, which is 0 of a hole.
type Extents = &'static [(u64, u64, u64)];

// Those of `hello`, and of the large hole with `hello` behind it.
const HELLO_EXTENTS: Extents = &[(0, 4096, HELLO_BLOCK)];

const HOLE_EXTENTS: Extents = &[(0, HOLE, 0), (HOLE, 4096, HELLO_BLOCK)];

// A file or a directory without contents: the directory in which it stands, its id, the kind that its entry gives, and its name.
type File = (u64, u64, u16, &'static str);

const FILE: u16 = 8;

const FOLDER: u16 = 4;

const NAMES: &[File] = table! {
    ROOT, 20, FILE, "aB"; ROOT, 21, FILE, "Ab"; ROOT, 22, FILE, "ReadMe"; ROOT, 16, FOLDER, "d"; 16, 17, FILE, "f";
    ROOT, 7, FOLDER, "reserved"; 7, 18, FILE, "unseen"; PRIVATE, 19, FILE, "kept";
};

const ALIKE: &[File] = table! {
    ROOT, 20, FILE, "photo-01b"; ROOT, 21, FILE, "photo-01"; ROOT, 22, FILE, "photo-01a.long"; ROOT, 23, FILE, "photo-0";
    ROOT, 24, FILE, "photo-01a"; ROOT, 25, FILE, "photo-01\u{e9}"; ROOT, 26, FILE, "photo-0\u{e9}"; ROOT, 27, FILE, "p";
};

const FOLDERS: &[File] = table! {
    ROOT, 16, FOLDER, "d"; 16, 17, FILE, "f"; ROOT, 18, FOLDER, "e";
};

const DOTS: &[File] = table! {
    ROOT, 16, FOLDER, "."; 16, 17, FILE, ".."; ROOT, 18, FILE, ".."; ROOT, 19, FILE, "...";
};

fn add_files(alloc: Global, tree: &mut FileTree, files: &[File]) -> Result<(), AllocError> {
    for (directory, id, kind, name) in files {
        let plan = if *kind == FOLDER {
            InodePlan::directory(*id, *directory)
        } else {
            InodePlan::file(*id, *directory)
        };
        tree.add(alloc, plan, name)?;
    }
    Ok(())
}

// Adds a file with the bytes `hello`.
fn add_hello(
    alloc: Global,
    tree: &mut FileTree,
    id: u64,
    parent: u64,
    flags: u32,
    name: &str,
) -> Result<(), AllocError> {
    let mut file = InodePlan::file(id, parent);
    file.stream = Some(5);
    file.bsd_flags = flags;
    tree.add(alloc, file, name)?;
    tree.stream(alloc, id, HELLO_EXTENTS)
}

// Adds the link `l`, whose target is `hello`.
fn add_link(alloc: Global, tree: &mut FileTree, id: u64) -> Result<(), AllocError> {
    let mut link = InodePlan::file(id, ROOT);
    link.mode = LINK_MODE;
    tree.add(alloc, link, "l")?;
    tree.record(attribute(alloc, id, b"com.apple.fs.symlink", b"hello\0")?)
}

// An entry that calls its file a directory.
fn entry(directory: u64, file: u64) -> EntryPlan {
    EntryPlan {
        directory,
        file,
        kind: FOLDER,
        sibling: None,
    }
}

fn add_names(alloc: Global, tree: &mut FileTree) -> Result<(), AllocError> {
    add_files(alloc, tree, NAMES)?;
    tree.name(alloc, &entry(ROOT, PRIVATE), "private")?;
    // The inode of this one is a file's.
    tree.inode(InodePlan::file(23, ROOT))?;
    tree.name(alloc, &entry(ROOT, 23), "no directory")
}

fn add_ring(alloc: Global, tree: &mut FileTree) -> Result<(), AllocError> {
    tree.add(alloc, InodePlan::directory(16, ROOT), "d")?;
    tree.name(alloc, &entry(16, 16), "d")
}

fn add_many(alloc: Global, tree: &mut FileTree) -> Result<(), AllocError> {
    tree.add(alloc, InodePlan::directory(16, ROOT), "d")?;
    'files: for number in 0..3000u64 {
        let name = format!(in alloc; "f{number}")?;
        tree.add(alloc, InodePlan::file(100 + number, 16), name.as_str())?;
    }
    tree.add(alloc, InodePlan::directory(17, ROOT), "x")?;
    tree.add(alloc, InodePlan::file(18, 17), "y")
}

fn add_withheld(alloc: Global, tree: &mut FileTree) -> Result<(), AllocError> {
    add_hello(alloc, tree, 16, ROOT, COMPRESSED, "a")?;
    add_hello(alloc, tree, 17, ROOT, DATALESS, "b")?;
    add_hello(alloc, tree, 18, ROOT, COMPRESSED | DATALESS, "c")?;
    add_hello(alloc, tree, 19, ROOT, 0, "plain")
}

fn add_several(alloc: Global, tree: &mut FileTree) -> Result<(), AllocError> {
    tree.add(alloc, InodePlan::directory(16, ROOT), "d")?;
    add_hello(alloc, tree, 17, 16, 0, "f")?;
    tree.add(alloc, InodePlan::directory(18, ROOT), "last")
}

fn add_hole(alloc: Global, tree: &mut FileTree) -> Result<(), AllocError> {
    let mut file = InodePlan::file(16, ROOT);
    file.stream = Some(HOLE + 5);
    tree.add(alloc, file, "hole")?;
    tree.stream(alloc, 16, HOLE_EXTENTS)
}

// The target's record comes first, and its name is the greater one.
fn add_attributes(alloc: Global, tree: &mut FileTree) -> Result<(), AllocError> {
    add_hello(alloc, tree, 16, ROOT, 0, "hello.txt")?;
    add_link(alloc, tree, 17)?;
    tree.record(stream_attribute(alloc, 17, b"b", 18, 3)?)?;
    tree.stream(alloc, 18, HELLO_EXTENTS)
}

fn add_all(alloc: Global, tree: &mut FileTree, holds: Holds) -> Result<(), AllocError> {
    match holds {
        Holds::Of(_) | Holds::Empty => Ok(()),
        Holds::Names => add_names(alloc, tree),
        Holds::Ring => add_ring(alloc, tree),
        Holds::Alike => add_files(alloc, tree, ALIKE),
        Holds::Many => add_many(alloc, tree),
        Holds::Folders => add_files(alloc, tree, FOLDERS),
        Holds::Link => add_link(alloc, tree, 16),
        Holds::Dots => add_files(alloc, tree, DOTS),
        Holds::Withheld => add_withheld(alloc, tree),
        Holds::Several => add_several(alloc, tree),
        Holds::Hole => add_hole(alloc, tree),
        Holds::Attributes => add_attributes(alloc, tree),
    }
}

// The records of these files.
fn items(alloc: Global, holds: Holds) -> Result<Vec<Item>, AllocError> {
    let mut tree = FileTree::new(alloc, Names::Folded)?;
    add_all(alloc, &mut tree, holds)?;
    tree.items(alloc)
}

/// A sample, or one with these files in the place of its own.
pub(super) fn image_of(alloc: Global, holds: Holds) -> Result<Vec<u8>, Fail> {
    let base = match holds {
        Holds::Of(which) => return made(alloc, &sample(alloc, which)?),
        Holds::Names | Holds::Ring | Holds::Alike | Holds::Many => Sample::S,
        _ => Sample::H,
    };
    image_with(alloc, base, Names::Folded, items(alloc, holds)?)
}
