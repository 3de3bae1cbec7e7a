// The images that the cases are run on, each one fact away from a good one.
use crate::tests::disks::{Disk, sectors, write_table};
use apfs_layout::container::{BLOCKED, DESC_BLOCKS, INCOMPAT};
use apfs_layout::key::LEN_AND_HASH;
use apfs_layout::node::{INFO_LEN, KEY_COUNT};
use apfs_layout::object::SUM;
use apfs_layout::record::ATTRIBUTE_FLAGS;
use apfs_layout::value::{SNAPSHOT_FLAGS, SNAPSHOT_NAME};
use blk_source::{MemSource, Opened};
use fs_name::Names;
use img_make::records::{EntryPlan, InodePlan, LINK_MODE, attribute};
use img_make::{
    Base, Change, FileTree, Item, Sample, edit, image_with, made, put_u32, ring_of_four, sample,
    skipped_checkpoint, write,
};
use std::alloc::{AllocError, Global};
use std::test::Fail;

const BLOCK: usize = 4096;

// The superblock of the only checkpoint.
pub const SUPERBLOCK: usize = 2;

// Blocks of the small container: the container's object map, the only node of its tree, and the volume's superblock.
pub const MAP: usize = 25;

pub const MAP_TREE: usize = 26;

pub const VOLUME: usize = 51;

// Its space manager, where that has the index of the pool's bitmap, and the block that tells of its chunk.
pub const MANAGER: usize = 9;

pub const POOL_INDEX: usize = 2520;

pub const CHUNK_INFO: usize = 43;

// The only node of its file-system tree.
pub const FILES_TREE: usize = 54;

// The only node of the snapshot metadata tree of the small container's volume.
pub const SNAPS_TREE: usize = 56;

// Where the number of keys of a root stands in its block.
pub const ROOT_KEY_COUNT: usize = BLOCK - INFO_LEN + KEY_COUNT;

// Where the value of the only entry of a root of level 0 starts, when it has 16 bytes.
pub const ONLY_VALUE: usize = BLOCK - INFO_LEN - 16;

// The object map of that volume.
pub const VOLUME_MAP: usize = 52;

// Where the name in the first record of a lone root stands, which is of a snapshot with a name of two bytes.
pub const FIRST_NAME: usize = BLOCK - INFO_LEN - 3;

// Where the flags of the first two of the records of a lone root stand, which are of snapshots with names of two bytes.
pub const FIRST_FLAGS: usize = BLOCK - INFO_LEN - (SNAPSHOT_NAME + 3) + SNAPSHOT_FLAGS;

pub const SECOND_FLAGS: usize = BLOCK - INFO_LEN - 2 * (SNAPSHOT_NAME + 3) + SNAPSHOT_FLAGS;

// A file: the directory in which it has its entry and which is its parent, its id, its kind, and its name.
pub type Entry = (u64, u64, u16, &'static str);

// A further name of a file: its directory, the file, and the name.
pub type Name = (u64, u64, &'static str);

// What a case is run on.
#[derive(Clone, Copy)]
pub enum Image {
    Absent,
    /// A ring of eight blocks with superblocks at the indices 1, 3, 5 and 7, the second of them with a wrong sum.
    Ring,
    /// The same without its last block.
    RingCut,
    /// The first 4,095 bytes of it.
    RingShort,
    /// The same, and block 0 says that its descriptor area isn't contiguous.
    RingSplit,
    /// A container without volumes.
    Empty,
    /// The sum of its only superblock in the descriptor area is wrong; that of block 0 is right.
    EmptyUnsummed,
    /// Its superblock has these incompatible features.
    EmptyFeatures(u64),
    /// Its superblock keeps a block back from use.
    EmptyResizing,
    /// A second checkpoint follows, whose space manager has a wrong sum.
    EmptySkipped,
    /// A container with one volume, which holds its two directories.
    Small,
    /// Without its last block, and block 0 says that its descriptor area isn't contiguous.
    SmallCutSplit,
    /// The block of this number has other bytes from a place on, and a right sum.
    SmallChanged(usize, usize, &'static [u8]),
    /// A container whose volume has a file and two snapshots.
    Views,
    /// Its first snapshot has this name.
    ViewsNamed(&'static str),
    /// The block of this number has other bytes from a place on, and a right sum.
    ViewsChanged(usize, usize, &'static [u8]),
    /// A container whose volume has one file with five bytes.
    Hello,
    /// Its file has these flags.
    Flagged(u32),
    /// A container whose volume has one file with so many bytes and these extents, each as its logical address and its length in bytes, and its first block.
    Streamed(u64, &'static [(u64, u64, u64)]),
    /// A container whose volume has one symbolic link.
    Link,
    /// The record of its target doesn't say where the target's bytes are.
    LinkUnsaid,
    /// A container whose volume has these files.
    Files(&'static [Entry]),
    /// A container whose volume has these files, and these further names.
    Named(&'static [Entry], &'static [Name]),
    /// A container whose volume tells names apart by each byte, and has these empty files.
    Exact(&'static [Entry]),
    /// A container whose volume has these files, and the file `hello` (17) with these five bytes in the directory of this id.
    WithBytes(&'static [Entry], u64),
    /// The small container, and the records of its volume's files stand in the opposite order.
    Backwards,
    /// The small container, whose volume has one more inode (16), with a value of 8 bytes.
    ShortInode,
    /// The first so many bytes of the small container.
    SmallShort(usize),
    /// The small container, and a second checkpoint follows, whose space manager has a wrong sum.
    SmallSkipped,
    /// A container whose volume has the file `é` with five bytes, in whose key the hash is 0.
    Unhashed,
    /// A sample, changed.
    Made(Base, &'static [Change]),
    /// A disk whose partition is the small container.
    Disk(Disk),
}

// A container without volumes.
fn empty(alloc: Global) -> Result<Vec<u8>, Fail> {
    let mut plan = sample(alloc, Sample::S)?;
    plan.volumes.clear();
    made(alloc, &plan)
}

// A container whose volume has two snapshots, the first of them of this name.
fn views_named(alloc: Global, name: &str) -> Result<Vec<u8>, Fail> {
    let mut plan = sample(alloc, Sample::V)?;
    for volume in plan.volumes.iter_mut() {
        for version in volume.versions.iter_mut() {
            if version.xid == 2 {
                version.snapshot = Some(name.as_bytes().to_vec(alloc)?);
            }
        }
    }
    made(alloc, &plan)
}

// Adds empty files and directories to those of a volume.
fn add_files(alloc: Global, tree: &mut FileTree, files: &[Entry]) -> Result<(), AllocError> {
    for (directory, file, kind, name) in files {
        let mut plan = InodePlan::file(*file, *directory);
        if *kind == 4 {
            plan = InodePlan::directory(*file, *directory);
        } else {
            plan.mode = kind.saturating_mul(0x1000);
        }
        tree.add(alloc, plan, name)?;
    }
    Ok(())
}

// The files of a volume, and further names of them.
fn file_tree(alloc: Global, files: &[Entry], names: &[Name]) -> Result<FileTree, AllocError> {
    let mut tree = FileTree::new(alloc, Names::Folded)?;
    add_files(alloc, &mut tree, files)?;
    for (directory, file, name) in names {
        let plan = EntryPlan {
            directory: *directory,
            file: *file,
            kind: 4,
            sibling: None,
        };
        tree.name(alloc, &plan, name)?;
    }
    Ok(tree)
}

// A sample whose volume has these records of files in place of its own.
fn with_items(alloc: Global, which: Sample, items: Vec<Item>) -> Result<Vec<u8>, Fail> {
    image_with(alloc, which, Names::Folded, items)
}

// A container whose volume has these records of files.
fn with_records(alloc: Global, items: Vec<Item>) -> Result<Vec<u8>, Fail> {
    with_items(alloc, Sample::S, items)
}

// The extents of a file of one block: block 57.
const ONE_BLOCK: &[(u64, u64, u64)] = &[(0, 4096, 57)];

// The file 16 in the root, with so many bytes in these extents, and with these flags.
fn with_file(
    alloc: Global,
    which: Sample,
    name: &str,
    flags: u32,
    size: u64,
    extents: &[(u64, u64, u64)],
) -> Result<Vec<u8>, Fail> {
    let mut tree = file_tree(alloc, &[], &[])?;
    let mut file = InodePlan::file(16, 2);
    file.bsd_flags = flags;
    file.stream = Some(size);
    tree.add(alloc, file, name)?;
    tree.stream(alloc, 16, extents)?;
    with_items(alloc, which, tree.items(alloc)?)
}

// A container whose volume tells names apart by each byte, and has these empty files.
fn exact(alloc: Global, files: &[Entry]) -> Result<Vec<u8>, Fail> {
    let mut tree = FileTree::new(alloc, Names::Exact)?;
    add_files(alloc, &mut tree, files)?;
    image_with(alloc, Sample::S, Names::Exact, tree.items(alloc)?)
}

// A container whose volume has these files and directories, and the file 17 of five bytes in one of them.
fn with_bytes(alloc: Global, files: &[Entry], directory: u64) -> Result<Vec<u8>, Fail> {
    let mut tree = file_tree(alloc, files, &[])?;
    let mut file = InodePlan::file(17, directory);
    file.stream = Some(5);
    tree.add(alloc, file, "hello")?;
    tree.stream(alloc, 17, ONE_BLOCK)?;
    with_items(alloc, Sample::H, tree.items(alloc)?)
}

// A container whose volume has the symbolic link 16 to `hello`, whose target has these flags where some are given.
fn with_link(alloc: Global, flags: Option<u8>) -> Result<Vec<u8>, Fail> {
    let mut tree = file_tree(alloc, &[], &[])?;
    let mut link = InodePlan::file(16, 2);
    link.mode = LINK_MODE;
    tree.add(alloc, link, "l")?;
    let mut target = attribute(alloc, 16, b"com.apple.fs.symlink", b"hello\0")?;
    if let (Some(flags), Some(byte)) = (flags, target.1.get_mut(ATTRIBUTE_FLAGS)) {
        *byte = flags;
    }
    tree.record(target)?;
    with_records(alloc, tree.items(alloc)?)
}

// A container whose volume has its two directories alone, and their records in the opposite order.
fn backwards(alloc: Global) -> Result<Vec<u8>, Fail> {
    let mut items = file_tree(alloc, &[], &[])?.items(alloc)?;
    items.reverse();
    with_records(alloc, items)
}

// The key of the inode 16.
const INODE_KEY: &[u8] = &[16, 0, 0, 0, 0, 0, 0, 0x30];

// That key, and a value of 8 bytes.
fn short_inode(alloc: Global) -> Result<Item, AllocError> {
    Ok((INODE_KEY.to_vec(alloc)?, vec![in alloc; 0u8; 8]?))
}

// A container whose volume has such a record besides its two directories.
fn with_short_inode(alloc: Global) -> Result<Vec<u8>, Fail> {
    let mut tree = file_tree(alloc, &[], &[])?;
    tree.record(short_inode(alloc)?)?;
    with_records(alloc, tree.items(alloc)?)
}

// How long the key of an entry is whose name has two bytes and a zero after them, and where its length and its hash stand.
const SHORT_ENTRY: usize = 15;

// A container whose volume has the file `é`, in whose key the hash is 0.
fn unhashed(alloc: Global) -> Result<Vec<u8>, Fail> {
    let mut tree = file_tree(alloc, &[], &[])?;
    let mut file = InodePlan::file(16, 2);
    file.stream = Some(5);
    tree.add(alloc, file, "é")?;
    tree.stream(alloc, 16, ONE_BLOCK)?;
    let mut items = tree.items(alloc)?;
    for item in items.iter_mut() {
        if item.0.len() == SHORT_ENTRY {
            put_u32(&mut item.0, LEN_AND_HASH, 3);
        }
    }
    with_items(alloc, Sample::H, items)
}

// Says in block 0 that the descriptor area isn't contiguous, by the highest bit of its number of blocks.
fn split(image: &mut [u8]) -> bool {
    edit(image, BLOCK, 0, DESC_BLOCKS + 3, &[0x80])
}

// A good image.
fn bytes(alloc: Global, image: Image) -> Result<Vec<u8>, Fail> {
    match image {
        Image::Ring | Image::RingCut | Image::RingShort | Image::RingSplit => empty(alloc),
        Image::Empty | Image::EmptyUnsummed | Image::EmptyFeatures(_) => empty(alloc),
        Image::EmptyResizing | Image::EmptySkipped => empty(alloc),
        Image::Views | Image::ViewsChanged(..) => made(alloc, &sample(alloc, Sample::V)?),
        Image::ViewsNamed(name) => views_named(alloc, name),
        Image::Hello => made(alloc, &sample(alloc, Sample::H)?),
        Image::Flagged(flags) => with_file(alloc, Sample::H, "hello.txt", flags, 5, ONE_BLOCK),
        Image::Streamed(size, extents) => { with_file(alloc, Sample::P, "hole", 0, size, extents) }
        Image::Link => with_link(alloc, None),
        Image::LinkUnsaid => with_link(alloc, Some(0)),
        Image::Files(files) => with_records(alloc, file_tree(alloc, files, &[])?.items(alloc)?),
        Image::Named(files, names) => {
            with_records(alloc, file_tree(alloc, files, names)?.items(alloc)?)
        }
        Image::Exact(files) => exact(alloc, files),
        Image::WithBytes(files, directory) => with_bytes(alloc, files, directory),
        Image::Backwards => backwards(alloc),
        Image::ShortInode => with_short_inode(alloc),
        Image::Unhashed => unhashed(alloc),
        Image::Made(base, changes) => img_make::image(alloc, &base, changes),
        Image::Disk(disk) => {
            let mut bytes = sectors(alloc, disk)?;
            bytes.extend_from_slice(&made(alloc, &sample(alloc, Sample::S)?)?)?;
            Ok(bytes)
        }
        _ => made(alloc, &sample(alloc, Sample::S)?),
    }
}

// Changes it. Answers whether it has what is changed.
fn change(image: Image, bytes: &mut [u8]) -> bool {
    match image {
        Image::Ring | Image::RingCut | Image::RingShort => ring_of_four(bytes),
        Image::RingSplit => ring_of_four(bytes) && split(bytes),
        Image::EmptyUnsummed => write(bytes, BLOCK, SUPERBLOCK, SUM, &[0, 0]),
        Image::EmptyFeatures(features) => {
            edit(bytes, BLOCK, SUPERBLOCK, INCOMPAT, &features.to_le_bytes())
        }
        Image::EmptyResizing => edit(bytes, BLOCK, SUPERBLOCK, BLOCKED + 8, &[1]),
        Image::EmptySkipped | Image::SmallSkipped => skipped_checkpoint(bytes),
        Image::SmallChanged(block, at, other) | Image::ViewsChanged(block, at, other) => {
            edit(bytes, BLOCK, block, at, other)
        }
        Image::SmallCutSplit => split(bytes),
        Image::Disk(disk) => write_table(bytes, disk),
        _ => true,
    }
}

// How many bytes of an image are handed in.
fn length(image: Image) -> usize {
    match image {
        Image::RingShort => 4095,
        Image::SmallShort(length) => length,
        Image::Disk(disk) => disk.length,
        Image::RingCut | Image::SmallCutSplit => 255 * BLOCK,
        _ => 256 * BLOCK,
    }
}

// The bytes of an image that is handed in, none of what is absent.
pub fn image_bytes(alloc: Global, image: Image) -> Result<Vec<u8>, Fail> {
    let mut bytes = bytes(alloc, image)?;
    if !change(image, &mut bytes) {
        bytes.clear();
    }
    bytes.truncate(length(image));
    Ok(bytes)
}

// What is handed in for an image with these bytes, with the numbers of the reads that are refused.
pub fn opened(image: Image, bytes: Vec<u8>, fails: Vec<u64>) -> Opened<MemSource> {
    match image {
        Image::Absent => Opened::Absent,
        _ => Opened::Image(MemSource::new(bytes, fails)),
    }
}

// What a case is handed, with the numbers of the reads that are refused.
pub fn handed(alloc: Global, image: Image, fails: Vec<u64>) -> Result<Opened<MemSource>, Fail> {
    Ok(opened(image, image_bytes(alloc, image)?, fails))
}
