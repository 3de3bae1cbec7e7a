// Which records of object maps are used.

use crate::sets::ViewSet;
use crate::wanted::{Want, Wanted};
use omap_map::OmapRecord;

/// A record of the object map in a block.
#[derive(Clone, Copy, PartialEq, Eq)]
pub struct Used {
    /// The block of the map.
    pub map: u64,
    pub mapping: OmapRecord,
}

/// As what the object of a record is expected, whoever names it.
#[derive(Clone, Copy, PartialEq, Eq)]
pub enum SharedAs {
    /// The root of the files; its level stands in its block.
    Root,
    /// The extended metadata.
    Metadata,
    /// A node of the files below the root, at a level: a leaf at level 0.
    Node { level: u16 },
}

/// A record that is used by each view of a set, in one way.
#[derive(Clone, Copy)]
pub struct Share {
    pub used: Used,
    pub expected: SharedAs,
    /// Whether the names in keys are hashed, in each view of the set.
    pub hashed: bool,
    /// The number of the set, of those that are answered beside.
    pub set: usize,
}

/// What some views use.
#[derive(Drop)]
pub struct Reach {
    /// The records that are used, each once.
    pub used: Vec<Used>,
    /// Which views use each of them, and as what. A record has as many entries as there are ways in which it is used, and one
    /// more where views of another volume, or ones that find another record, stand between those that use it.
    pub shares: Vec<Share>,
    /// The sets of views, by their numbers.
    pub sets: Vec<ViewSet>,
}

/// What is wanted of each view of a set, as it is wanted of one of them, and the record by which it is found in all of them.
#[derive(Clone, Copy)]
pub(crate) struct Hit {
    pub wanted: Wanted,
    pub mapping: OmapRecord,
    /// The number of the set, of those that are kept.
    pub set: usize,
}

impl Hit {
    ghost use Rattle.std.specs.Prelude.{◌≡◌};
    ghost use Rattle.view_sweep.specs.Found.{used_of};
    ghost use Rattle.view_sweep.specs.Shared.{shared_as, share_of};

    /// The record that is used.
    pub(crate) fn used(&self) -> Used
        ensures { result ≡ used_of self.now }
    {
        Used {
            map: self.wanted.view.map,
            mapping: self.mapping,
        }
    }

    // As what its object is expected.
    fn expected(&self) -> SharedAs
        ensures { result ≡ shared_as self.now.wanted.want }
    {
        match self.wanted.want {
            Want::Root => SharedAs::Root,
            Want::Metadata => SharedAs::Metadata,
            Want::Node { level, .. } => SharedAs::Node { level },
        }
    }

    /// The record, as the views of the set use it.
    pub(crate) fn share(&self) -> Share
        ensures { result ≡ share_of self.now }
    {
        Share {
            used: self.used(),
            expected: self.expected(),
            hashed: self.wanted.view.hashed,
            set: self.set,
        }
    }
}
