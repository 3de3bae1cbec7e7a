// The volume of the small sample container, a second volume beside it, and small edits of both.

// A feature, and the block that is told with it.
macro_rules! feature {
    ($feature:expr, $block:expr) => {
        Some(Stop::Unsupported {
            feature: $feature,
            block: $block,
        })
    };
}

mod loads;

use blk_source::{MemSource, NoMemory};
use fs_name::Names;
use img_make::{Plan, Sample, edit, make, make_with, sample, table, write};
use nx_ring::{RingFault, newest};
use obj_base::{Feature, HeadFault, Stop, Within};
use omap_map::OmapFault;
use std::alloc::Global;
use vol_view::VolStop::*;
use vol_view::{VolHead, VolStop, heads};

// An edit: a block, a place in it, and the byte that it gets.
type Edit = (usize, usize, u8);

// The newest superblock, the container's map, the node of its records, and the superblocks of two volumes.
const NEWEST: usize = 2;

const MAP: usize = 25;

const RECORDS: usize = 26;

const SUPER: usize = 51;

const SECOND: usize = 57;

const UUID: [u8; 16] = [
    0xff, 0xee, 0xdd, 0xcc, 0xbb, 0xaa, 0x99, 0x88, 0x77, 0x66, 0x55, 0x44, 0x33, 0x22, 0x11, 0x00,
];

// The container of a plan, changed by these edits; what is wrong with those is told as want of memory.
fn changed(alloc: Global, plan: &Plan, edits: &[Edit], sealed: bool) -> Result<Vec<u8>, NoMemory> {
    if !plan.valid() {
        return Err(NoMemory);
    }
    let mut image = make(alloc, plan)?;
    for (block, place, byte) in edits.iter() {
        let done = if sealed {
            edit(&mut image, 4096, *block, *place, &[*byte])
        } else {
            write(&mut image, 4096, *block, *place, &[*byte])
        };
        if !done {
            return Err(NoMemory);
        }
    }
    Ok(image)
}

// A sample container, changed by these edits.
fn edited(alloc: Global, of: Sample, edits: &[Edit], sealed: bool) -> Result<Vec<u8>, NoMemory> {
    let plan = sample(alloc, of)?;
    changed(alloc, &plan, edits, sealed)
}

// The small container with blocks of 65,536 bytes.
fn large(alloc: Global) -> Result<Vec<u8>, NoMemory> {
    let plan = sample(alloc, Sample::S)?;
    if !plan.valid() || plan.blocks > 256 {
        return Err(NoMemory);
    }
    make_with(alloc, &plan, 65536)
}

// What gives the two volumes of a container the slots 0 and 3, and the roles 0x40 and 0x102. The second gets no features
// and counts five snapshots.
const GAP: &[Edit] = table! {
    NEWEST, 192, 0;
    NEWEST, 193, 0;
    NEWEST, 208, 0x07;
    NEWEST, 209, 0x04;
    SUPER, 964, 0x40;
    SECOND, 56, 0;
    SECOND, 216, 5;
    SECOND, 964, 0x02;
    SECOND, 965, 0x01;
};

// Adds a second volume to the plan of the small container.
fn add_second(alloc: Global, plan: &mut Plan) -> Result<(), NoMemory> {
    let mut other = sample(alloc, Sample::S)?;
    let Some(mut volume) = other.volumes.pop() else {
        return Err(NoMemory);
    };
    volume.name = b"Second".to_vec(alloc)?;
    Ok(plan.volumes.push(volume)?)
}

// The small container with a second volume, changed by these edits.
fn with_a_gap(alloc: Global) -> Result<Vec<u8>, NoMemory> {
    let mut plan = sample(alloc, Sample::S)?;
    add_second(alloc, &mut plan)?;
    changed(alloc, &plan, GAP, true)
}

// The heads of an image, by its newest checkpoint; a fault of the ring is no answer of these tests.
fn volumes_in(alloc: Global, src: &mut MemSource) -> Result<Vec<VolHead>, Stop<VolStop>> {
    match newest(alloc, src) {
        Ok(cp) => heads(alloc, src, &cp),
        Err(Stop::<RingFault>::ReadFault) => Err(Stop::ReadFault),
        Err(_) => Err(Stop::NoMemory),
    }
}

fn volumes(alloc: Global, image: Vec<u8>) -> Result<Vec<VolHead>, Stop<VolStop>> {
    volumes_in(alloc, &mut MemSource::new(image, Vec::new(alloc)))
}

// Whether this is the head of the small container's volume.
fn is_small(head: &VolHead) -> bool {
    (head.slot, head.oid, head.block) == (0, 1026, 51)
        && (head.role, head.incompat, head.snapshots) == (0, 1, 0)
        && head.uuid == UUID
        && head.name.as_slice() == b"Small".as_slice()
}

// Whether an image has that volume alone.
fn has_small(alloc: Global, image: Vec<u8>) -> Result<bool, Stop<VolStop>> {
    let heads = volumes(alloc, image)?;
    Ok(heads.len() == 1 && is_small(&heads[0]))
}

fn has_small_after(alloc: Global, edits: &[Edit]) -> Result<bool, Stop<VolStop>> {
    has_small(alloc, edited(alloc, Sample::S, edits, true)?)
}

fn has_small_in_large(alloc: Global) -> Result<bool, Stop<VolStop>> {
    has_small(alloc, large(alloc)?)
}

// The volume's flags become 0.
const NO_FLAGS: &[Edit] = &[(SUPER, 264, 0)];

fn is_first(head: &VolHead) -> bool {
    (head.slot, head.oid, head.block) == (0, 1026, 51)
        && (head.role, head.incompat, head.snapshots) == (0x40, 1, 0)
        && head.names() == Names::Folded
}

fn is_second(head: &VolHead) -> bool {
    (head.slot, head.oid, head.block) == (3, 1031, 57)
        && (head.role, head.incompat, head.snapshots) == (0x102, 0, 5)
        && head.names() == Names::Exact
        && head.name.as_slice() == b"Second".as_slice()
}

fn has_two(alloc: Global) -> Result<bool, Stop<VolStop>> {
    let heads = volumes(alloc, with_a_gap(alloc)?)?;
    Ok(heads.len() == 2 && is_first(&heads[0]) && is_second(&heads[1]))
}

#[test]
fn the_small_volume_and_two_with_an_empty_slot_between(rt: HostRuntime) {
    let alloc = rt.alloc();
    assert!(rt; has_small_after(alloc, &[]) == Ok(true));
    assert!(rt; has_small_after(alloc, NO_FLAGS) == Ok(true));
    assert!(rt; has_small_in_large(alloc) == Ok(true));
    assert!(rt; has_two(alloc) == Ok(true));
}

// The reads of the small container's heads, where the read of a number fails, if any does.
fn reads_of_small(alloc: Global, fails: u64) -> Result<u64, Stop<VolStop>> {
    let image = edited(alloc, Sample::S, &[], true)?;
    let mut src = MemSource::new(image, vec![in alloc; fails]?);
    drop(volumes_in(alloc, &mut src)?);
    Ok(src.read_count())
}

// The last three reads are those of the container's map, of the node of its records, and of the volume's superblock.
#[test]
fn a_failed_read_stops_them(rt: HostRuntime) {
    let alloc = rt.alloc();
    let last = reads_of_small(alloc, 0).unwrap_or(0);
    assert!(rt; last > 3);
    for before in 0..3u64 {
        let read = last.saturating_sub(before);
        assert!(rt;
            reads_of_small(alloc, read) == Err(Stop::ReadFault),
            "{read}"
        );
    }
}

// An edit, whether its block is sealed again, and the fault.
const FAULTS: &[(Edit, bool, VolStop)] = table! {
    (RECORDS, 4040, 1), true, Unnamed { within: Within::Container, oid: 1026 };
    (SUPER, 4095, 1), false, Head { block: 51, why: HeadFault::BadSum };
    (SUPER, 32, 0), true, Magic { block: 51 };
    (MAP, 4095, 1), false, Omap(OmapFault::Head { block: 25, why: HeadFault::BadSum });
};

// What stops the volumes after an edit.
fn stop_after(alloc: Global, edit: Edit, sealed: bool) -> Option<Stop<VolStop>> {
    match edited(alloc, Sample::S, &[edit], sealed) {
        Ok(image) => volumes(alloc, image).err(),
        Err(_) => Some(Stop::NoMemory),
    }
}

#[test]
fn what_stops_the_volumes(rt: HostRuntime) {
    for (edit, sealed, fault) in FAULTS {
        assert!(rt; stop_after(rt.alloc(), *edit, *sealed) == Some(Stop::Found(*fault)));
    }
}

// An edit, and the stop.
const FEATURES: &[(Edit, Option<Stop<VolStop>>)] = table! {
    (MAP, 36, 1), feature!(Feature::ContainerSnapshots, 25);
    (RECORDS, 4040, 8), feature!(Feature::NoHeader, 51);
    (RECORDS, 4045, 32), feature!(Feature::Size, 51);
};

#[test]
fn features_of_the_map_and_of_its_record(rt: HostRuntime) {
    for (edit, stop) in FEATURES {
        assert!(rt; stop_after(rt.alloc(), *edit, true) == *stop);
    }
}
