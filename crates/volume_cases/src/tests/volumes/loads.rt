// The volume of the sample container with two snapshots, and small edits of it.

use super::{Edit, SUPER, edited};
use blk_source::MemSource;
use bt_cursor::WalkFault;
use bt_node::NodeFault;
use fs_name::Names;
use img_make::{Sample, table};
use nx_ring::{Checkpoint, newest};
use obj_base::{Feature, HeadFault, Stop, Within};
use omap_map::OmapFault;
use std::alloc::Global;
use vol_view::VolStop::*;
use vol_view::{Snapshot, VolStop, Volume, by_name, heads, live, load, past};

// The volume's map, the root of its snapshot metadata tree, the superblock of its first snapshot, and the root of the
// map's tree of snapshots.
const VOLUME_MAP: usize = 52;

const METADATA: usize = 56;

const FIRST: usize = 60;

const MAP_SNAPSHOTS: usize = 64;

// The record of `s2`, 53 bytes before the end of the values, that of `s4` before it, and then the values of the names.
const RECORD_2: usize = 4096 - 40 - 53;

const RECORD_4: usize = RECORD_2 - 53;

const NAME_2: usize = RECORD_4 - 8;

// The first volume of an image by its newest checkpoint, and that; a fault of the ring or of the heads is no answer of
// these tests.
fn loaded(alloc: Global, image: Vec<u8>) -> Result<(Volume, Checkpoint), Stop<VolStop>> {
    let mut src = MemSource::new(image, Vec::new(alloc));
    let Ok(cp) = newest(alloc, &mut src) else {
        return Err(Stop::NoMemory);
    };
    let found = match heads(alloc, &mut src, &cp) {
        Ok(found) => found,
        Err(_) => return Err(Stop::NoMemory),
    };
    if found.is_empty() {
        return Err(Stop::NoMemory);
    }
    let volume = load(alloc, &mut src, &cp, &found[0])?;
    Ok((volume, cp))
}

fn is_snapshot(snap: &Snapshot, xid: u64, super_block: u64, extents_root: u64) -> bool {
    (snap.xid, snap.super_block, snap.extents_root, snap.root_oid)
        == (xid, super_block, extents_root, 1028)
}

// Whether the live view and the one before it are those of the two snapshots.
fn has_views(volume: &Volume, cp: &Checkpoint) -> bool {
    let snaps = volume.snaps.as_slice();
    if snaps.len() != 2 {
        return false;
    }
    let now = live(volume, cp);
    let before = past(volume, 1);
    is_snapshot(&snaps[0], 2, 60, 61)
        && is_snapshot(&snaps[1], 4, 62, 63)
        && snaps[0].name.as_slice() == b"s2".as_slice()
        && (now.slot, now.xid, now.root_oid) == (0, 5, 1028)
        && (before.slot, before.xid, before.root_oid) == (0, 4, 1028)
}

fn is_volume(volume: &Volume) -> bool {
    (
        volume.root_oid,
        volume.extents_root,
        volume.snaps_root,
        volume.meta_ext,
    ) == (1028, 55, 56, 0)
        && volume.names == Names::Folded
        && (
            by_name(volume, b"s2"),
            by_name(volume, b"s4"),
            by_name(volume, b"s"),
        ) == (Some(0), Some(1), None)
}

fn is_loaded(alloc: Global, edits: &[Edit]) -> Result<bool, Stop<VolStop>> {
    let found = loaded(alloc, edited(alloc, Sample::V, edits, true)?)?;
    let is_right = is_volume(&found.0) && has_views(&found.0, &found.1);
    drop(found);
    Ok(is_right)
}

// Of a snapshot's superblock neither the reserved number nor the types of its physical trees are looked at.
const NEAR_MISSES: &[Edit] = &[(FIRST, 1048, 1), (FIRST, 123, 0), (FIRST, 160, 1)];

fn has_none(alloc: Global) -> Result<bool, Stop<VolStop>> {
    let found = loaded(alloc, edited(alloc, Sample::S, &[], true)?)?;
    let none = found.0.snaps.len() == 0 && by_name(&found.0, b"s2") == None;
    drop(found);
    Ok(none)
}

#[test]
fn a_volume_with_two_snapshots_and_one_with_none(rt: HostRuntime) {
    let alloc = rt.alloc();
    assert!(rt; is_loaded(alloc, &[]) == Ok(true));
    assert!(rt; is_loaded(alloc, NEAR_MISSES) == Ok(true));
    assert!(rt; has_none(alloc) == Ok(true));
}

// What stops the volume after an edit.
fn stop_after(alloc: Global, edit: Edit, sealed: bool) -> Option<Stop<VolStop>> {
    match edited(alloc, Sample::V, &[edit], sealed) {
        Ok(image) => loaded(alloc, image).err(),
        Err(_) => Some(Stop::NoMemory),
    }
}

// An edit, whether its block is sealed again, and the fault.
const FAULTS: &[(Edit, bool, VolStop)] = table! {
    (SUPER, 128, 0), true, Unnamed { within: Within::Physical, oid: 0 };
    (METADATA, RECORD_2 + 8, 0), true, Unnamed { within: Within::Physical, oid: 0 };
    (METADATA, RECORD_2 + 52, 0x33), true, SnapRecord { slot: 0 };
    (SUPER, 216, 3), true, SnapCount { slot: 0 };
    (METADATA, RECORD_2 + 51, 0x33), true, SnapName { slot: 0 };
    (METADATA, NAME_2, 4), true, SnapName { slot: 0 };
    (VOLUME_MAP, 36, 3), true, OmapSnaps { slot: 0 };
    (FIRST, 32, 0), true, Magic { block: 60 };
    (FIRST, 4095, 1), false, Head { block: 60, why: HeadFault::BadSum };
    (VOLUME_MAP, 4095, 1), false, Omap(OmapFault::Head { block: 52, why: HeadFault::BadSum });
    (METADATA, 4000, 1), false, Walk { root: 56, why: WalkFault::Unsound { block: 56, why: NodeFault::Head(HeadFault::BadSum) } };
};

#[test]
fn what_stops_a_volume(rt: HostRuntime) {
    for (edit, sealed, fault) in FAULTS {
        assert!(rt; stop_after(rt.alloc(), *edit, *sealed) == Some(Stop::Found(*fault)));
    }
}

// An edit, and the stop.
const FEATURES: &[(Edit, Option<Stop<VolStop>>)] = table! {
    (SUPER, 160, 1), feature!(Feature::Revert, 51);
    (SUPER, 264, 0), feature!(Feature::Encrypted, 51);
    (SUPER, 1024, 1), feature!(Feature::Sealed, 51);
    (SUPER, 56, 3), feature!(Feature::Dataless, 51);
    (SUPER, 56, 0x11), feature!(Feature::Restore, 51);
    (SUPER, 123, 0), feature!(Feature::Storage, 51);
    (SUPER, 1048, 1), feature!(Feature::LaterTree, 51);
    (SUPER, 56, 0x41), feature!(Feature::UnknownVolume, 51);
    (MAP_SNAPSHOTS, 4096 - 40 - 16, 1), feature!(Feature::SnapshotState, 52);
    (METADATA, RECORD_2 + 44, 2), feature!(Feature::SnapshotState, 60);
    (METADATA, RECORD_4 + 44, 1), feature!(Feature::Dataless, 62);
    (FIRST, 264, 0), feature!(Feature::Encrypted, 60);
    (FIRST, 56, 0x21), feature!(Feature::Sealed, 60);
};

#[test]
fn features_of_a_volume(rt: HostRuntime) {
    for (edit, stop) in FEATURES {
        assert!(rt; stop_after(rt.alloc(), *edit, true) == *stop);
    }
}
