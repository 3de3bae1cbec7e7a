// What a container holds.
ghost use Rattle.std.specs.Prelude.{◌↔◌, IsTrue};

use crate::records::node_bytes;
use fs_name::Names;

/// What a container holds.
#[derive(Drop)]
pub struct Plan {
    /// How many blocks the container has at least.
    pub blocks: u64,
    /// The checkpoint's transaction.
    pub xid: u64,
    /// The volumes by slot, from 0 on.
    pub volumes: Vec<VolPlan>,
    /// The entries of the main free queue, in the tree's order. Their blocks are used.
    pub queued: Vec<QueueEntry>,
    /// The extents of the EFI jumpstart, as first block and number of blocks; their blocks are used. Where there are
    /// none, there is no jumpstart.
    pub jumpstart: Vec<(u64, u64)>,
}

/// What a volume holds.
#[derive(Drop)]
pub struct VolPlan {
    /// The name, without a final zero.
    pub name: Vec<u8>,
    pub uuid: [u8; 16],
    pub names: Names,
    /// The file-system tree at each transaction that changed it or at which a snapshot was taken, by ascending
    /// transaction. The last one is the live one.
    pub versions: Vec<Version>,
    /// The extent reference tree.
    pub extents: Vec<NewRange>,
    /// Blocks of files, each as its number and what it starts with.
    pub contents: Vec<(u64, Vec<u8>)>,
}

/// A file-system tree at one transaction.
#[derive(Drop)]
pub struct Version {
    pub xid: u64,
    /// The name of the snapshot that keeps this version, without a final zero; None where no snapshot keeps it.
    pub snapshot: Option<Vec<u8>>,
    /// The leaves in the tree's order. A leaf of an earlier version with the same oid and the same items is the same node.
    pub leaves: Vec<Leaf>,
}

/// A leaf of a file-system tree: its keys and values in the tree's order. A leaf alone is the root.
#[derive(Drop)]
pub struct Leaf {
    pub oid: u64,
    pub items: Vec<(Vec<u8>, Vec<u8>)>,
}

/// An entry of a free queue: blocks that are freed with a transaction.
#[derive(Clone, Copy)]
pub struct QueueEntry {
    pub xid: u64,
    /// The first block.
    pub paddr: u64,
    /// The number of blocks.
    pub length: u64,
}

/// A range of blocks that files own.
#[derive(Clone, Copy)]
pub struct NewRange {
    /// The first block.
    pub first: u64,
    /// The number of blocks.
    pub length: u64,
    /// How many streams have it.
    pub count: i32,
}

// The most bytes of a key or a value, and of all that a leaf holds.
const MOST_BYTES: usize = 900;

pub(crate) const MOST_OF_A_LEAF: usize = 4000;

// The most bytes of a volume's name, and of a snapshot's.
const MOST_OF_A_NAME: usize = 255;

const MOST_OF_A_SNAPSHOT: usize = 800;

impl Leaf {
    ghost use Rattle.std.specs.Prelude.{◌≤◌, All, sum_by, vec_len};
    ghost use Rattle.img_plan.specs.Nodes.{bytes_in_node};
    ghost use Rattle.img_plan.specs.Plans.{IsLeaf};

    // Whether keys and values have few bytes.
    fn is_short(&self) -> bool
        ensures { IsTrue result ↔ All (λ item. (vec_len item.0 ≤ 900) × (vec_len item.1 ≤ 900)) self.now.items.items }
    {
        self.items.iter().all(|item| item.0.len() <= MOST_BYTES && item.1.len() <= MOST_BYTES)
    }

    // Whether all that the leaf holds fits a node.
    fn is_small(&self) -> bool
        ensures { IsTrue result ↔ (sum_by (λ item. bytes_in_node (vec_len item.0) (vec_len item.1)) self.now.items.items ≤ 4000) }
    {
        let mut room = MOST_OF_A_LEAF;
        'items: for item in self.items.iter() {
            let bytes = node_bytes(item);
            if bytes > room {
                return false;
            }
            room -= bytes;
        }
        true
    }

    // Whether the leaf fits a node.
    fn is_valid(&self) -> bool
        ensures { IsTrue result ↔ IsLeaf self.now }
    {
        self.is_short() && self.is_small()
    }
}

impl Version {
    ghost use Rattle.std.specs.Prelude.{◌≤◌, IfSome, vec_len};
    ghost use Rattle.img_plan.specs.Plans.{IsVersion};

    // Whether the name of the snapshot is short, where there is one.
    fn has_short_name(&self) -> bool
        ensures { IsTrue result ↔ IfSome self.now.snapshot (λ name. vec_len name ≤ 800) }
    {
        match &self.snapshot {
            None => true,
            Some(name) => name.len() <= MOST_OF_A_SNAPSHOT,
        }
    }

    // Whether the snapshot's name and the leaves fit.
    fn is_valid(&self) -> bool
        ensures { IsTrue result ↔ IsVersion self.now }
    {
        self.has_short_name() && self.leaves.iter().all(|leaf| leaf.is_valid())
    }
}

impl VolPlan {
    ghost use Rattle.img_plan.specs.Plans.{IsRising, IsVolume};

    // Whether each version is of a greater transaction than the one before it.
    fn rises(&self) -> bool
        ensures { IsTrue result ↔ IsRising self.now.versions.items }
    {
        'versions: for i in 1..self.versions.len() {
            if self.versions[i].xid <= self.versions[i - 1].xid {
                return false;
            }
        }
        true
    }

    // Whether the volume has a short name and at least one version, and these rise.
    fn is_valid(&self) -> bool
        ensures { IsTrue result ↔ IsVolume self.now }
    {
        self.name.len() <= MOST_OF_A_NAME
            && !self.versions.is_empty()
            && self.rises()
            && self.versions.iter().all(|version| version.is_valid())
    }
}

impl Plan {
    ghost use Rattle.std.specs.Prelude.{◌≤◌, All, vec_len};
    ghost use Rattle.img_plan.specs.Plans.{IsValid, IsVolume};

    /// The most blocks that a plan may ask for.
    pub const MOST_BLOCKS: u64 = 1_048_576;

    /// The most volumes of a container.
    pub const MOST_VOLUMES: usize = 100;

    /// The most entries of the main free queue.
    pub const MOST_QUEUED: usize = 1000;

    /// The most extents of a jumpstart, for which a block of 4,096 bytes has room.
    pub const MOST_EXTENTS: usize = 245;

    // Whether there are few volumes, each of which has its place.
    fn has_few_volumes(&self) -> bool
        ensures { IsTrue result ↔ ((vec_len self.now.volumes ≤ 100) × All IsVolume self.now.volumes.items) }
    {
        self.volumes.len() <= Plan::MOST_VOLUMES
            && self.volumes.iter().all(|volume| volume.is_valid())
    }

    /// Whether `make` takes the plan: its parts fit their places in the format.
    pub fn valid(&self) -> bool
        ensures { IsTrue result ↔ IsValid self.now }
    {
        self.blocks <= Plan::MOST_BLOCKS
            && self.has_few_volumes()
            && self.queued.len() <= Plan::MOST_QUEUED
            && self.jumpstart.len() <= Plan::MOST_EXTENTS
    }
}
