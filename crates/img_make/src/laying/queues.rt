// The two free queues, which are ephemeral trees.
ghost use Rattle.img_make.specs.Images.{HasGrown};

use crate::laying::files::{Ids, reach};
use crate::laying::image::{Image, add};
use crate::laying::trees::{Grown, Plot, grow};
use crate::objects::checkpoint_map::Mapping;
use apfs_layout::kind;
use img_edit::node::Tree;
use img_edit::places;
use img_plan::records::queue_record;
use img_plan::{Leaf, QueueEntry, pack};
use std::alloc::{AllocError, Global};

// The leaves of the main queue.
fn queue_leaves(alloc: Global, queued: &[QueueEntry]) -> Result<Vec<Leaf>, AllocError> {
    let mut records = Vec::new(alloc);
    for entry in queued.iter() {
        add(&mut records, queue_record(alloc, entry))?;
    }
    pack(alloc, records, 0)
}

// The tree of a queue, whose nodes below the root get the next ids.
fn queue_tree(
    alloc: Global,
    image: &Image,
    root: u64,
    xid: u64,
    leaves: &[Leaf],
    ids: &mut Ids,
) -> Result<Grown, AllocError> {
    let plot = Plot {
        geometry: image.geometry,
        tree: Tree::QUEUE,
        xid,
        root,
        oids: &[],
    };
    let count = grow(alloc, &plot, leaves)?.taken;
    let mut oids = Vec::new(alloc);
    reach(&mut oids, count, ids)?;
    grow(alloc, &plot.with(&oids), leaves)
}

// The nodes of a queue in the data area: the root in its block, the others from the first block that no other object
// has on. Their mappings are added.
fn put_nodes(
    image: &mut Image,
    grown: &Grown,
    root: u64,
    root_block: usize,
    mappings: &mut Vec<Mapping>,
) -> Result<(), AllocError>
    ensures { HasGrown image.old image.new }
{
    let mut next = places::FREE_DATA;
    for node in grown.nodes.iter() {
        let is_root = node.oid == root;
        let block = if is_root { root_block } else { next };
        image.put(block, &node.bytes);
        mappings.push(Mapping {
            kind: if is_root {
                kind::TREE_ROOT
            } else {
                kind::TREE_NODE
            },
            subtype: kind::FREE_QUEUE,
            oid: node.oid,
            block,
        })?;
        if !is_root {
            next = next.saturating_add(1);
        }
    }
    Ok(())
}

/// The two queues, of which that of the pool is empty. Their mappings are added.
pub(crate) fn put_queues(
    alloc: Global,
    image: &mut Image,
    xid: u64,
    queued: &[QueueEntry],
    ids: &mut Ids,
    mappings: &mut Vec<Mapping>,
) -> Result<(), AllocError>
    ensures { HasGrown image.old image.new }
{
    let pool = queue_tree(alloc, image, places::POOL_QUEUE_OID, xid, &[], ids)?;
    put_nodes(
        image,
        &pool,
        places::POOL_QUEUE_OID,
        places::POOL_QUEUE,
        mappings,
    )?;
    let leaves = queue_leaves(alloc, queued)?;
    let main = queue_tree(alloc, image, places::MAIN_QUEUE_OID, xid, &leaves, ids)?;
    put_nodes(
        image,
        &main,
        places::MAIN_QUEUE_OID,
        places::MAIN_QUEUE,
        mappings,
    )
}
