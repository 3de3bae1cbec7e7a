// Why a volume can't be loaded.

use bt_cursor::WalkFault;
use obj_base::{HeadFault, Within};
use omap_map::OmapFault;

/// What is wrong with the volumes of a container, or with one of them.
#[derive(Clone, Copy, PartialEq, Eq)]
pub enum VolStop {
    /// The object in this block isn't a sound superblock of a volume.
    Head { block: u64, why: HeadFault },
    /// The superblock in this block lacks its magic.
    Magic { block: u64 },
    /// The id names no block of the container.
    Unnamed { within: Within, oid: u64 },
    /// An object map isn't whole.
    Omap(OmapFault),
    /// The tree of this root isn't whole.
    Walk { root: u64, why: WalkFault },
    /// A record of a snapshot, or of a snapshot's name, of the volume in this slot can't be read.
    SnapRecord { slot: u32 },
    /// The volume in this slot doesn't have as many snapshots as it counts.
    SnapCount { slot: u32 },
    /// The snapshots and their names don't agree in the volume in this slot.
    SnapName { slot: u32 },
    /// The snapshots of the volume in this slot aren't those of its object map.
    OmapSnaps { slot: u32 },
}
