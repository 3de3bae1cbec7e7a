// Physical trees, whose nodes are named by their blocks.
ghost use Rattle.img_make.specs.Images.{HasGrown};

use crate::laying::image::Image;
use crate::laying::trees::{Grown, Plot, grow};
use img_edit::node::Tree;
use img_plan::{Item, Leaf, pack};
use std::alloc::{AllocError, Global};

// So many blocks, the first free ones.
fn blocks(alloc: Global, image: &mut Image, count: usize) -> Result<Vec<u64>, AllocError>
    ensures { HasGrown image.old image.new }
{
    let mut blocks = Vec::new(alloc);
    for _ in 0..count {
        let block = image.place()?;
        blocks.push(block as u64)?;
    }
    Ok(blocks)
}

// A physical tree whose nodes below the root are named by the first free blocks.
fn grow_named(
    alloc: Global,
    image: &mut Image,
    plot: &Plot<'_>,
    leaves: &[Leaf],
) -> Result<Grown, AllocError>
    ensures { HasGrown image.old image.new }
{
    let count = grow(alloc, plot, leaves)?.taken;
    let oids = blocks(alloc, image, count)?;
    grow(alloc, &plot.with(&oids), leaves)
}

/// A physical tree with its items in as few leaves as hold them: the root in its block, the other nodes in the first
/// free blocks, the leaves before the levels above them.
pub(crate) fn put_physical(
    alloc: Global,
    image: &mut Image,
    tree: &Tree,
    root: usize,
    xid: u64,
    items: Vec<Item>,
) -> Result<(), AllocError>
    ensures { HasGrown image.old image.new }
{
    let leaves = pack(alloc, items, 0)?;
    let plot = Plot {
        geometry: image.geometry,
        tree: *tree,
        xid,
        root: root as u64,
        oids: &[],
    };
    let grown = grow_named(alloc, image, &plot, &leaves)?;
    for node in grown.nodes.iter() {
        image.put(node.oid as usize, &node.bytes);
    }
    Ok(())
}
