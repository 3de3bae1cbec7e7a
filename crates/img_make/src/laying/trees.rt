// Trees of nodes, built from the leaves up.
use crate::geometry::Geometry;
use crate::laying::image::add;
use img_edit::node::{NodeHead, Totals, Tree, node};
use img_plan::records::child;
use img_plan::{Item, Leaf, pack};
use std::alloc::{AllocError, Global};

// A tree has at most so many levels above its leaves.
const MOST_LEVELS: u16 = 15;

// Where the bytes of a node start that don't tell its transaction or its sum.
const AFTER_XID: usize = 24;

/// What a tree is built by.
#[derive(Clone, Copy)]
pub(crate) struct Plot<'a> {
    pub geometry: Geometry,
    pub tree: Tree,
    pub xid: u64,
    /// The root's id.
    pub root: u64,
    /// The ids of the other nodes that have none, in the order in which they are built.
    pub oids: &'a [u64],
}

impl Plot<'_> {
    /// The same with these ids.
    pub(crate) fn with<'b>(&self, oids: &'b [u64]) -> Plot<'b> {
        Plot {
            geometry: self.geometry,
            tree: self.tree,
            xid: self.xid,
            root: self.root,
            oids,
        }
    }
}

/// A node that is built: its id, its transaction and its block's bytes.
#[derive(Drop)]
pub(crate) struct Node {
    pub oid: u64,
    pub xid: u64,
    pub bytes: Vec<u8>,
}

impl Node {
    // All bytes but the sum, the id and the transaction.
    fn contents(&self) -> &[u8] {
        self.bytes.get(AFTER_XID..).unwrap_or(&[])
    }

    /// Whether this is the same node as another, at whatever transaction.
    pub(crate) fn is_as(&self, other: &Node) -> bool {
        self.oid == other.oid && self.contents() == other.contents()
    }
}

/// A tree that is built: its nodes, the root last, and how many ids they took.
#[derive(Drop)]
pub(crate) struct Grown {
    pub nodes: Vec<Node>,
    pub taken: usize,
}

impl Grown {
    // The id of a node: its own, or the next one where it has none.
    fn id_of(&mut self, plot: &Plot<'_>, own: u64) -> u64 {
        if own != 0 {
            return own;
        }
        let next = plot.oids.get(self.taken).copied().unwrap_or(0);
        self.taken = self.taken.saturating_add(1);
        next
    }

    // One node more, with its items. A valid plan has no leaf without room.
    fn add(
        &mut self,
        alloc: Global,
        plot: &Plot<'_>,
        head: &NodeHead,
        items: &[Item],
    ) -> Result<(), AllocError> {
        let made = node(alloc, plot.geometry.size, &plot.tree, head, items)?;
        self.nodes.push(Node {
            oid: head.oid,
            xid: head.xid,
            bytes: made.ok_or(AllocError)?,
        })?;
        Ok(())
    }
}

// The key by which the level above names a node.
fn first_key(part: &Leaf) -> &[u8] {
    match part.items.first() {
        Some(item) => &item.0,
        None => &[],
    }
}

// The nodes of one level below the root; the items by which the level above names them.
fn grow_level(
    alloc: Global,
    plot: &Plot<'_>,
    level: u16,
    parts: &[Leaf],
    grown: &mut Grown,
) -> Result<Vec<Item>, AllocError> {
    let mut children = Vec::new(alloc);
    for part in parts.iter() {
        let oid = grown.id_of(plot, part.oid);
        let head = NodeHead {
            oid,
            xid: plot.xid,
            level,
            totals: None,
        };
        grown.add(alloc, plot, &head, &part.items)?;
        add(&mut children, child(alloc, first_key(part), oid))?;
    }
    Ok(children)
}

// The longest key or value of some, as a root tells it.
fn longer(longest: u32, length: usize) -> u32 {
    longest.max((length % 0x1_0000) as u32)
}

// What the root says of a tree with these leaves, but for the number of its nodes.
fn totals_of(leaves: &[Leaf]) -> Totals {
    let mut totals = Totals {
        keys: 0,
        nodes: 1,
        longest_key: 0,
        longest_value: 0,
    };
    for leaf in leaves.iter() {
        totals.keys = totals.keys.saturating_add(leaf.items.len() as u64);
        for item in leaf.items.iter() {
            totals.longest_key = longer(totals.longest_key, item.0.len());
            totals.longest_value = longer(totals.longest_value, item.1.len());
        }
    }
    totals
}

// The root with its items.
fn grow_root(
    alloc: Global,
    plot: &Plot<'_>,
    level: u16,
    totals: Totals,
    items: &[Item],
    grown: &mut Grown,
) -> Result<(), AllocError> {
    let head = NodeHead {
        oid: plot.root,
        xid: plot.xid,
        level,
        totals: Some(totals),
    };
    grown.add(alloc, plot, &head, items)
}

// The leaves, and the levels above them, the root last.
fn grow_levels(
    alloc: Global,
    plot: &Plot<'_>,
    leaves: &[Leaf],
    grown: &mut Grown,
) -> Result<(), AllocError> {
    let mut totals = totals_of(leaves);
    let mut children = grow_level(alloc, plot, 0, leaves, grown)?;
    for level in 1..MOST_LEVELS {
        let parts = pack(alloc, children, 0)?;
        if let [top] = parts.as_slice() {
            totals.nodes = (grown.nodes.len() as u64).saturating_add(1);
            return grow_root(alloc, plot, level, totals, &top.items, grown);
        }
        children = grow_level(alloc, plot, level, &parts, grown)?;
    }
    Err(AllocError)
}

/// A tree with its leaves. A leaf alone is the root itself, and so is none.
pub(crate) fn grow(alloc: Global, plot: &Plot<'_>, leaves: &[Leaf]) -> Result<Grown, AllocError> {
    let mut grown = Grown {
        nodes: Vec::new(alloc),
        taken: 0,
    };
    let totals = totals_of(leaves);
    let done = match leaves {
        [] => grow_root(alloc, plot, 0, totals, &[], &mut grown),
        [only] => grow_root(alloc, plot, 0, totals, &only.items, &mut grown),
        _ => grow_levels(alloc, plot, leaves, &mut grown),
    };
    done?;
    Ok(grown)
}
