// A volume that was loaded, its snapshots and its views.

use crate::VolHead;
use apfs_model::Bytes;
use bt_cursor::Step;
use fs_name::Names;
use omap_map::Omap;
use std::marker::Model;

/// A snapshot of a volume.
#[derive(Drop)]
pub struct Snapshot {
    /// Its transaction.
    pub xid: u64,
    /// When it was made, in nanoseconds.
    pub created: u64,
    /// Its name, without the final zero.
    pub name: Bytes,
    /// The block of its superblock.
    pub super_block: u64,
    /// The root of its extent reference tree, 0 where there is none.
    pub extents_root: u64,
    /// The oid of the root of its file-system tree.
    pub root_oid: u64,
    /// The oid of its extended metadata, 0 where there is none.
    pub meta_ext: u64,
}

/// A volume with its object map, its snapshots, and the steps of its snapshot metadata tree.
#[derive(Drop)]
pub struct Volume {
    pub head: VolHead,
    pub omap: Omap,
    /// How it compares names.
    pub names: Names,
    /// The oid of the root of its file-system tree.
    pub root_oid: u64,
    /// The root of its extent reference tree, 0 where there is none.
    pub extents_root: u64,
    /// The root of its snapshot metadata tree, 0 where there is none.
    pub snaps_root: u64,
    /// The steps of that tree, in the order in which a walk takes them: one for each node below the root.
    pub snaps_steps: Vec<Step>,
    /// The oid of its extended snapshot metadata, 0 where there is none.
    pub meta_ext: u64,
    /// Its snapshots, by transaction.
    pub snaps: Vec<Snapshot>,
}

impl Model for Volume {
    ghost use Rattle.vol_view.specs.Volumes.{Loaded};

    ghost Value = { Loaded };

    ghost view = { λ a. record { head = a.head; omap = a.omap; names = a.names; root_oid = a.root_oid; extents_root = a.extents_root; snaps_root = a.snaps_root; snaps_steps = a.snaps_steps.items; meta_ext = a.meta_ext; snaps = a.snaps.items } };
}

/// A volume as it is, or as a snapshot keeps it.
#[derive(Clone, Copy, PartialEq, Eq)]
pub struct View {
    /// The volume's place among those of the container.
    pub slot: u32,
    /// The transaction at which virtual objects are looked up.
    pub xid: u64,
    /// The oid of the root of the file-system tree.
    pub root_oid: u64,
}
