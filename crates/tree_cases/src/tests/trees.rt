// The trees of the cases: their records, and the containers that hold them.
use crate::tests::cases::Base;
use apfs_layout::key::LEN_AND_HASH;
use fs_name::Names;
use img_make::records::{
    DIRECTORY_MODE, EntryPlan, InodePlan, Item, attribute, entry, file_extent, inode, rank,
    sibling_link, sibling_map, stream_attribute,
};
use img_make::{Leaf, Plan, Sample, image_with, made, put_u32, sample};
use obj_base::u32_at;
use std::alloc::{AllocError, Global};
use std::test::Fail;

// The oids of two leaves below the root of the volume's file-system tree.
const FIRST_LEAF: u64 = 1031;

const LAST_LEAF: u64 = 1032;

// What stands in the place of the root, beside the private directory.
#[derive(Clone, Copy, PartialEq, Eq)]
pub enum Top {
    /// A root that says it has so many children.
    Root(u32),
    /// Inode 2 is a regular file.
    File,
    /// No inode 2.
    None,
    /// A root without children, and a private directory that says it has so many.
    Private(u32),
}

/// The id of an object, of which a record is.
#[derive(Clone, Copy)]
pub struct Id(pub u64);

/// The id of the directory in which something stands.
#[derive(Clone, Copy)]
pub struct In(pub u64);

/// The id of a sibling.
#[derive(Clone, Copy)]
pub struct Sibling(pub u64);

/// A number of children or of links.
#[derive(Clone, Copy)]
pub struct Count(pub u32);

/// A number of bytes.
#[derive(Clone, Copy)]
pub struct Size(pub u64);

/// A logical address in bytes.
#[derive(Clone, Copy)]
pub struct At(pub u64);

/// A block of the container.
#[derive(Clone, Copy)]
pub struct Block(pub u64);

/// The kind that an entry gives of a folder.
pub const FOLDER: u16 = 4;

/// The kind that an entry gives of a regular file.
pub const FILE: u16 = 8;

/// The kind that an entry gives of a symbolic link.
pub const LINK: u16 = 10;

// A record of a tree.
#[derive(Clone, Copy)]
pub enum Rec {
    /// An inode, its mode, and the number of its children or links.
    Inode(Id, In, u16, Count),
    /// A regular file in the root with one link, and the size of its stream.
    Streamed(Id, Size),
    /// An inode whose value lacks its last byte.
    Cut(Id, In),
    /// An entry, the kind that it gives, and its name.
    Entry(In, Id, u16, &'static str),
    /// The same, with a hash that is greater by one.
    Hashed(In, Id, u16, &'static str),
    /// An entry with a sibling's id before its name.
    Twin(In, Id, u16, Sibling, &'static str),
    /// A sibling link, and its name.
    Link(Id, Sibling, In, &'static str),
    /// A sibling map.
    Map(Sibling, Id),
    /// An attribute that stands in its record: its name, and its bytes.
    Attr(Id, &'static str, &'static [u8]),
    /// An attribute that is a stream, and its name.
    StreamAttr(Id, &'static str, Size),
    /// An extent of a stream.
    Extent(Id, At, Size, Block),
}

fn inode_of(
    alloc: Global,
    id: u64,
    parent: u64,
    mode: u16,
    children_or_links: u32,
    stream: Option<u64>,
) -> Result<Item, AllocError> {
    let mut plan = InodePlan::file(id, parent);
    plan.mode = mode;
    plan.children_or_links = children_or_links;
    plan.stream = stream;
    inode(alloc, &plan)
}

fn entry_of(
    alloc: Global,
    directory: u64,
    file: u64,
    kind: u16,
    sibling: Option<u64>,
    name: &str,
) -> Result<Item, AllocError> {
    let plan = EntryPlan {
        directory,
        file,
        kind,
        sibling,
    };
    if name.len() > 1022 {
        return Err(AllocError);
    }
    entry(alloc, Names::Folded, &plan, name)
}

// Raises the hash in an entry's key by one.
fn raise_hash(item: &mut Item) {
    if item.0.len() >= LEN_AND_HASH + 4 {
        let word = u32_at(&item.0, LEN_AND_HASH);
        put_u32(&mut item.0, LEN_AND_HASH, word.wrapping_add(0x400));
    }
}

fn attribute_of(alloc: Global, file: u64, name: &str, bytes: &[u8]) -> Result<Item, AllocError> {
    if name.len() > 1022 || bytes.len() > 60_000 {
        return Err(AllocError);
    }
    attribute(alloc, file, name.as_bytes(), bytes)
}

fn link_of(
    alloc: Global,
    file: u64,
    sibling: u64,
    directory: u64,
    name: &str,
) -> Result<Item, AllocError> {
    if name.len() > 1022 {
        return Err(AllocError);
    }
    sibling_link(alloc, file, sibling, directory, name.as_bytes())
}

fn large_of(alloc: Global, file: u64, name: &str, size: u64) -> Result<Item, AllocError> {
    if name.len() > 1022 {
        return Err(AllocError);
    }
    stream_attribute(alloc, file, name.as_bytes(), file, size)
}

// An inode whose value lacks its last byte.
fn cut_inode(alloc: Global, id: u64, parent: u64) -> Result<Item, AllocError> {
    let mut item = inode_of(alloc, id, parent, 0x81a4, 1, None)?;
    item.1.pop();
    Ok(item)
}

// An entry whose hash is greater by one.
fn hashed_entry(
    alloc: Global,
    directory: u64,
    file: u64,
    kind: u16,
    name: &str,
) -> Result<Item, AllocError> {
    let mut item = entry_of(alloc, directory, file, kind, None, name)?;
    raise_hash(&mut item);
    Ok(item)
}

fn item_of(alloc: Global, record: Rec) -> Result<Item, AllocError> {
    match record {
        Rec::Inode(Id(id), In(parent), mode, Count(number)) => inode_of(
            alloc, id, parent, mode, number, None,
        ),
        Rec::Streamed(Id(id), Size(size)) => inode_of(alloc, id, 2, 0x81a4, 1, Some(size)),
        Rec::Cut(Id(id), In(parent)) => cut_inode(alloc, id, parent),
        Rec::Entry(In(directory), Id(file), kind, name) => {
            entry_of(alloc, directory, file, kind, None, name)
        }
        Rec::Hashed(In(directory), Id(file), kind, name) => {
            hashed_entry(alloc, directory, file, kind, name)
        }
        Rec::Twin(In(directory), Id(file), kind, Sibling(sibling), name) => {
            entry_of(alloc, directory, file, kind, Some(sibling), name)
        }
        Rec::Link(Id(file), Sibling(sibling), In(directory), name) => {
            link_of(alloc, file, sibling, directory, name)
        }
        Rec::Map(Sibling(sibling), Id(file)) => sibling_map(alloc, sibling, file),
        Rec::Attr(Id(file), name, bytes) => attribute_of(alloc, file, name, bytes),
        Rec::StreamAttr(Id(file), name, Size(size)) => large_of(alloc, file, name, size),
        Rec::Extent(Id(stream), At(address), Size(length), Block(block)) => {
            file_extent(alloc, stream, address, length, block)
        }
    }
}

// The number of children of the private directory.
fn private_children(top: Top) -> u32 {
    match top {
        Top::Private(private) => private,
        _ => 0,
    }
}

// Adds the inode of the root as a case has it.
fn add_root(alloc: Global, items: &mut Vec<Item>, top: Top) -> Result<(), AllocError> {
    let (mode, number) = match top {
        Top::Root(children) => (DIRECTORY_MODE, children),
        Top::Private(_) => (DIRECTORY_MODE, 0),
        Top::File => (0x81a4, 1),
        Top::None => return Ok(()),
    };
    items.push(inode_of(alloc, 2, 1, mode, number, None)?)?;
    Ok(())
}

// Adds the directories that each volume has: their entries, and their inodes as a case has them.
fn add_top(alloc: Global, items: &mut Vec<Item>, top: Top) -> Result<(), AllocError> {
    items.push(entry_of(alloc, 1, 2, FOLDER, None, "root")?)?;
    items.push(entry_of(alloc, 1, 3, FOLDER, None, "private-dir")?)?;
    let private = private_children(top);
    items.push(inode_of(alloc, 3, 1, DIRECTORY_MODE, private, None)?)?;
    add_root(alloc, items, top)
}

// Adds the items of these records.
fn add_all(alloc: Global, items: &mut Vec<Item>, records: &[Rec]) -> Result<(), AllocError> {
    for record in records {
        items.push(item_of(alloc, *record)?)?;
    }
    Ok(())
}

// The items of a tree, in its order.
fn items_of(alloc: Global, top: Top, base: Base, records: &[Rec]) -> Result<Vec<Item>, AllocError> {
    let mut items = Vec::new(alloc);
    add_top(alloc, &mut items, top)?;
    add_all(alloc, &mut items, base.records())?;
    add_all(alloc, &mut items, records)?;
    items.sort_by_key(|item| rank(&item.0))?;
    Ok(items)
}

// A container whose volume has this tree, in one node.
pub(super) fn image_of(
    alloc: Global,
    top: Top,
    base: Base,
    records: &[Rec],
) -> Result<Vec<u8>, Fail> {
    let items = items_of(alloc, top, base, records)?;
    image_with(alloc, Sample::S, Names::Folded, items)
}

// Puts a tree of these leaves in the place of that of the plan's volume.
fn set_tree(plan: &mut Plan, leaves: Vec<Leaf>) {
    if let Some(volume) = plan.volumes.first_mut() {
        if let Some(version) = volume.versions.first_mut() {
            version.leaves = leaves;
        }
    }
}

// These items in two leaves, of which the last has the last item alone.
fn leaves_of(alloc: Global, mut items: Vec<Item>) -> Result<Vec<Leaf>, AllocError> {
    let mut last = Vec::new(alloc);
    if let Some(item) = items.pop() {
        last.push(item)?;
    }
    let first = Leaf {
        oid: FIRST_LEAF,
        items,
    };
    let second = Leaf {
        oid: LAST_LEAF,
        items: last,
    };
    Ok(vec![in alloc; first, second]?)
}

// A container whose volume has this tree, in two leaves below the root, of which the last has its last item alone.
pub(super) fn image_of_two(
    alloc: Global,
    top: Top,
    base: Base,
    records: &[Rec],
) -> Result<Vec<u8>, Fail> {
    let mut plan = sample(alloc, Sample::S)?;
    let items = items_of(alloc, top, base, records)?;
    set_tree(&mut plan, leaves_of(alloc, items)?);
    made(alloc, &plan)
}
