// The file-system trees of a volume, each node written once for each transaction that changed it.
ghost use Rattle.img_make.specs.Images.{HasGrown};

use crate::geometry::Geometry;
use crate::laying::image::Image;
use crate::laying::trees::{Grown, Node, Plot, grow};
use crate::objects::object_map::Placed;
use img_edit::node::Tree;
use img_plan::{Version, VolPlan};
use std::alloc::{AllocError, Global};

/// The ids of virtual and ephemeral objects: the first one that is free.
#[derive(Clone, Copy)]
pub(crate) struct Ids {
    pub next: u64,
}

impl Ids {
    /// The next id.
    pub(crate) fn take(&mut self) -> u64 {
        let oid = self.next;
        self.next = oid.saturating_add(1);
        oid
    }
}

/// The root's id in a version: a leaf alone is the root, and keeps its own.
pub(crate) fn root_of(version: &Version, root: u64) -> u64 {
    match version.leaves.as_slice() {
        [only] => only.oid,
        _ => root,
    }
}

/// So many ids at least.
pub(crate) fn reach(oids: &mut Vec<u64>, count: usize, ids: &mut Ids) -> Result<(), AllocError> {
    for _ in oids.len()..count {
        oids.push(ids.take())?;
    }
    Ok(())
}

// The tree of one version. The nodes above the leaves have the same ids in all versions.
fn tree_of(
    alloc: Global,
    geometry: Geometry,
    version: &Version,
    root: u64,
    uppers: &mut Vec<u64>,
    ids: &mut Ids,
) -> Result<Grown, AllocError> {
    let plot = Plot {
        geometry,
        tree: Tree::FILE_SYSTEM,
        xid: version.xid,
        root: root_of(version, root),
        oids: &[],
    };
    let count = grow(alloc, &plot, &version.leaves)?.taken;
    reach(uppers, count, ids)?;
    grow(alloc, &plot.with(uppers), &version.leaves)
}

// The nodes of all versions, by id and then by transaction.
fn all_nodes(
    alloc: Global,
    geometry: Geometry,
    versions: &[Version],
    root: u64,
    ids: &mut Ids,
) -> Result<Vec<Node>, AllocError> {
    let mut nodes = Vec::new(alloc);
    let mut uppers = Vec::new(alloc);
    for version in versions.iter() {
        let mut grown = tree_of(alloc, geometry, version, root, &mut uppers, ids)?;
        nodes.append(&mut grown.nodes)?;
    }
    nodes.sort_by_key(|node| (node.oid, node.xid))?;
    Ok(nodes)
}

// The nodes without those that are as they were at an earlier transaction.
fn changed(alloc: Global, nodes: Vec<Node>) -> Result<Vec<Node>, AllocError> {
    let mut kept = Vec::new(alloc);
    for node in nodes {
        let is_kept = match kept.last() {
            Some(last) => !node.is_as(last),
            None => true,
        };
        if is_kept {
            kept.push(node)?;
        }
    }
    Ok(kept)
}

// The next block: the one that is kept for the live root where that hasn't had it yet, otherwise the first free one.
fn next_block(
    image: &mut Image,
    is_live: bool,
    kept: &mut Option<usize>,
) -> Result<usize, AllocError>
    ensures { HasGrown image.old image.new }
{
    if is_live && let Some(block) = kept.take() {
        return Ok(block);
    }
    image.place()
}

// Nodes in their blocks: the first one of the live root in its own, the others in the first free ones.
fn put_nodes(
    alloc: Global,
    image: &mut Image,
    nodes: &[Node],
    live: u64,
    root_block: usize,
) -> Result<Vec<Placed>, AllocError>
    ensures { HasGrown image.old image.new }
{
    let mut placed = Vec::new(alloc);
    let mut kept = Some(root_block);
    for node in nodes.iter() {
        let block = next_block(image, node.oid == live, &mut kept)?;
        image.put(block, &node.bytes);
        placed.push(Placed {
            oid: node.oid,
            xid: node.xid,
            block,
        })?;
    }
    Ok(placed)
}

/// The trees of all versions of a volume: the live root's first node in a block that it is given, and the other nodes
/// in the first free blocks, by id and then by transaction. The answer is where each stands, in this order.
pub(crate) fn put_files(
    alloc: Global,
    image: &mut Image,
    volume: &VolPlan,
    root: u64,
    root_block: usize,
    ids: &mut Ids,
) -> Result<Vec<Placed>, AllocError>
    ensures { HasGrown image.old image.new }
{
    let live = match volume.versions.last() {
        Some(version) => root_of(version, root),
        None => root,
    };
    let nodes = all_nodes(alloc, image.geometry, &volume.versions, root, ids)?;
    let nodes = changed(alloc, nodes)?;
    put_nodes(alloc, image, &nodes, live, root_block)
}
