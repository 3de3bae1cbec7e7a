// The objects of a volume, put into an image one after another.
ghost use Rattle.img_make.specs.Images.{HasGrown};

use crate::laying::files::{Ids, put_files, root_of};
use crate::laying::image::{Image, add};
use crate::laying::physical::put_physical;
use crate::laying::snapshots::{Kept, put_snapshots};
use crate::objects::object_map::{MapPlan, Placed, object_map};
use crate::objects::volume::{Places, volume_superblock};
use apfs_layout::key::KIND_UNIT;
use img_edit::node::Tree;
use img_edit::places::{ROOT_OID, VOLUME_OID};
use img_plan::records::{map_record, range_record};
use img_plan::{Item, NewRange, VolPlan};
use obj_base::u64_at;
use std::alloc::{AllocError, Global};

// The six blocks in which a volume starts, the first free ones.
#[derive(Clone, Copy)]
struct Blocks {
    superblock: usize,
    map: usize,
    map_root: usize,
    root: usize,
    extents: usize,
    snapshots: usize,
}

fn six(image: &mut Image) -> Result<Blocks, AllocError>
    ensures { HasGrown image.old image.new }
{
    let mut six = [0usize; 6];
    for i in 0..6 {
        six[i] = image.place()?;
    }
    Ok(Blocks {
        superblock: six[0],
        map: six[1],
        map_root: six[2],
        root: six[3],
        extents: six[4],
        snapshots: six[5],
    })
}

// An id above those of all records of the volume.
fn next_id(volume: &VolPlan) -> u64 {
    let mut next = 0u64;
    for version in volume.versions.iter() {
        for leaf in version.leaves.iter() {
            for item in leaf.items.iter() {
                if item.0.len() >= 8 {
                    next = next.max(u64_at(&item.0, 0) % KIND_UNIT + 1);
                }
            }
        }
    }
    next
}

/// The records by which an object map finds objects of one block.
pub(crate) fn map_records(
    alloc: Global,
    image: &Image,
    placed: &[Placed],
) -> Result<Vec<Item>, AllocError> {
    let size = image.geometry.size as u32;
    let mut records = Vec::new(alloc);
    for node in placed.iter() {
        let record = map_record(alloc, node.oid, node.xid, size, node.block as u64);
        add(&mut records, record)?;
    }
    Ok(records)
}

// The records of the ranges that the volume's files own.
fn range_records(alloc: Global, ranges: &[NewRange]) -> Result<Vec<Item>, AllocError> {
    let mut records = Vec::new(alloc);
    for range in ranges.iter() {
        add(&mut records, range_record(alloc, range))?;
    }
    Ok(records)
}

// The snapshot metadata tree: the snapshots, and then their names.
fn put_metadata(
    alloc: Global,
    image: &mut Image,
    root: usize,
    xid: u64,
    mut metadata: Vec<Item>,
    mut names: Vec<Item>,
) -> Result<(), AllocError>
    ensures { HasGrown image.old image.new }
{
    metadata.append(&mut names)?;
    put_physical(alloc, image, &Tree::SNAPSHOTS, root, xid, metadata)
}

// The object map, and where it has snapshots their tree in the first free block.
fn put_map(
    alloc: Global,
    image: &mut Image,
    blocks: &Blocks,
    xid: u64,
    in_map: Vec<Item>,
    latest: u64,
) -> Result<(), AllocError>
    ensures { HasGrown image.old image.new }
{
    let snapshots = in_map.len();
    let mut snap_tree = 0;
    if snapshots != 0 {
        snap_tree = image.place()?;
        put_physical(alloc, image, &Tree::MAP_SNAPSHOTS, snap_tree, xid, in_map)?;
    }
    let plan = MapPlan {
        block: blocks.map,
        xid,
        is_container: false,
        tree: blocks.map_root,
        snap_tree,
        snapshots,
        latest,
    };
    let geometry = image.geometry;
    image.store(blocks.map, object_map(alloc, geometry, &plan))
}

// The contents of the volume's files.
fn put_contents(image: &mut Image, volume: &VolPlan)
    ensures { HasGrown image.old image.new }
{
    for (block, contents) in volume.contents.iter() {
        image.put_contents(*block, contents);
    }
}

// The volume's trees and its object map. The answer is how many snapshots it has.
fn put_trees(
    alloc: Global,
    image: &mut Image,
    volume: &VolPlan,
    blocks: &Blocks,
    places: &Places,
    xid: u64,
    ids: &mut Ids,
) -> Result<usize, AllocError>
    ensures { HasGrown image.old image.new }
{
    let placed = put_files(alloc, image, volume, places.root, blocks.root, ids)?;
    let records = map_records(alloc, image, &placed)?;
    put_physical(
        alloc,
        image,
        &Tree::OBJECT_MAP,
        blocks.map_root,
        xid,
        records,
    )?;
    let ranges = range_records(alloc, &volume.extents)?;
    put_physical(alloc, image, &Tree::EXTENTS, blocks.extents, xid, ranges)?;
    let Kept {
        metadata,
        names,
        in_map,
        latest,
    } = put_snapshots(alloc, image, volume, places)?;
    let count = in_map.len();
    put_metadata(alloc, image, blocks.snapshots, xid, metadata, names)?;
    put_map(alloc, image, blocks, xid, in_map, latest)?;
    Ok(count)
}

/// A volume of a slot: its superblock, its object map with the map's root, the roots of its file-system tree, of its
/// extent references and of its snapshots; then the other nodes of its trees, what its snapshots keep, and the map's
/// snapshot tree. The answer is where its superblock stands.
pub(crate) fn put_volume(
    alloc: Global,
    image: &mut Image,
    volume: &VolPlan,
    slot: usize,
    xid: u64,
    ids: &mut Ids,
) -> Result<Placed, AllocError>
    ensures { HasGrown image.old image.new }
{
    let oid = if slot == 0 { VOLUME_OID } else { ids.take() };
    let root = if slot == 0 { ROOT_OID } else { ids.take() };
    let blocks = six(image)?;
    let made = match volume.versions.first() {
        Some(version) => version.xid,
        None => xid,
    };
    let places = Places {
        slot,
        oid,
        xid: made,
        made,
        map: blocks.map,
        root,
        extents: blocks.extents,
        snapshots: blocks.snapshots,
        count: 0,
        next_id: next_id(volume),
    };
    let count = put_trees(alloc, image, volume, &blocks, &places, xid, ids)?;
    let live = match volume.versions.last() {
        Some(version) => root_of(version, root),
        None => root,
    };
    let places = places.at(made, live, blocks.extents, count);
    let geometry = image.geometry;
    image.store(
        blocks.superblock,
        volume_superblock(alloc, geometry, volume, &places),
    )?;
    put_contents(image, volume);
    Ok(Placed {
        oid,
        xid: made,
        block: blocks.superblock,
    })
}
