// What is wanted of a view: virtual objects, by their ids.

use omap_map::OmapRecord;

/// A view whose virtual objects are swept.
#[derive(Clone, Copy, PartialEq, Eq)]
pub struct SweptView {
    /// The volume's slot.
    pub slot: u32,
    /// The view's place among those of its volume: 0 for the live one, and then that of the snapshot's record, counted
    /// from 1.
    pub place: u64,
    /// The transaction at which ids are looked up.
    pub xid: u64,
    /// The block of the volume's object map.
    pub map: u64,
    /// Whether the names in keys are hashed.
    pub hashed: bool,
    /// The place of the volume among those that are handed in.
    pub volume: usize,
}

/// What the superblock of a view names.
#[derive(Clone, Copy)]
pub struct Head {
    pub view: SweptView,
    /// The id of the root of the view's files.
    pub root_oid: u64,
    /// The id of the extended metadata, 0 where there is none.
    pub meta_ext: u64,
}

/// What is expected of a virtual object; of a node below a root, its level and who names it.
#[derive(Clone, Copy, PartialEq, Eq)]
pub(crate) enum Want {
    Root,
    Metadata,
    Node {
        level: u16,
        namer: OmapRecord,
        entry: usize,
    },
}

/// A virtual object that is wanted of a view.
#[derive(Clone, Copy)]
pub(crate) struct Wanted {
    pub view: SweptView,
    pub oid: u64,
    pub want: Want,
}

impl Wanted {
    ghost use Rattle.std.specs.Prelude.{◌≡◌};
    ghost use Rattle.view_sweep.specs.Swept.{level_of};
    ghost use Rattle.view_sweep.specs.Wanted.{number_by};

    /// How far above the leaves it is wanted; what a superblock names is wanted above all levels.
    pub(crate) fn level(&self) -> u16
        ensures { result ≡ level_of self.now }
    {
        match self.want {
            Want::Root => 16,
            Want::Metadata => 16,
            Want::Node { level, .. } => level,
        }
    }

    /// The number of what is expected, whoever names it.
    pub(crate) fn number(&self) -> u32
        ensures { result ≡ number_by self.now.want }
    {
        match self.want {
            Want::Root => 0,
            Want::Metadata => 1,
            Want::Node { level, .. } => u32::from(level) + 2,
        }
    }
}

/// A virtual object that is wanted of each view of a set, as it is wanted of one of them.
#[derive(Clone, Copy)]
pub(crate) struct Asked {
    pub wanted: Wanted,
    /// The number of the set, of those that are kept.
    pub set: usize,
}
