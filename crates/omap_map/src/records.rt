// The records of an object map, and the places that they give.
ghost use Rattle.std.specs.Prelude.{◌≡◌, ◌≤◌, length, true, false};
ghost use Rattle.std.specs.List.Sorted.{IsPartitionPoint};

use apfs_layout::object_map;

/// A record of an object map: where an object lies from a transaction on (Object Maps, `omap_key_t` and `omap_val_t`).
#[derive(Clone, Copy, PartialEq, Eq, PartialOrd, Ord)]
pub struct OmapRecord {
    pub oid: u64,
    pub xid: u64,
    pub flags: u32,
    /// The object's size in bytes.
    pub size: u32,
    /// The object's first block.
    pub paddr: u64,
}

/// Where an object lies at a transaction.
#[derive(Clone, Copy, PartialEq, Eq)]
pub struct Place {
    /// The object's first block.
    pub block: u64,
    /// The transaction of the record that gives it.
    pub xid: u64,
    pub flags: u32,
    /// The object's size in bytes.
    pub size: u32,
}

impl OmapRecord {
    ghost use Rattle.omap_map.specs.Records.{is_deleted};
    ghost use Rattle.omap_map.specs.Resolve.{place_of};

    pub(crate) fn is_deleted(&self) -> bool
        ensures { result ≡ is_deleted self.now.flags }
    {
        self.flags & object_map::DELETED == object_map::DELETED
    }

    pub(crate) fn place(&self) -> Place
        ensures { result ≡ place_of self.now }
    {
        Place {
            block: self.paddr,
            xid: self.xid,
            flags: self.flags,
            size: self.size,
        }
    }
}
