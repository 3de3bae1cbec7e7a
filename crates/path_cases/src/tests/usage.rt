// What the views of small containers hold, worked out by hand.
ghost use Rattle.std.specs.Prelude.{length};
ghost use Rattle.obj_base.specs.Site.{IsSiteFor};
ghost use Rattle.nx_ring.specs.Checkpoint.{site_of};

use crate::tests::made::{Holds, image_of};
use crate::tests::opened::volume_in;
use blk_source::MemSource;
use bt_cursor::WalkFault;
use bt_node::NodeFault;
use img_make::{Sample, Version, VolPlan, made, sample, table, write};
use nx_ring::{Checkpoint, newest};
use obj_base::{HeadFault, Stop};
use std::alloc::{AllocError, Global};
use std::test::Fail;
use use_report::{Usage, UseFault, usage};

// The sample whose byte in the middle of a block is another. Sums stay as they are.
fn edited(alloc: Global, which: Sample, block: usize) -> Result<Vec<u8>, Fail> {
    let mut image = image_of(alloc, Holds::Of(which))?;
    if !write(&mut image, 4096, block, 2000, &[0x55]) {
        return Err(Fail::from("no such place"));
    }
    Ok(image)
}

// The tree of the container with a file, kept by a snapshot.
fn earlier(alloc: Global) -> Result<Version, Fail> {
    let mut plan = sample(alloc, Sample::H)?;
    let Some(volume) = plan.volumes.first_mut() else {
        return Err(Fail::from("no volume"));
    };
    let Some(mut first) = volume.versions.pop() else {
        return Err(Fail::from("no version"));
    };
    first.snapshot = Some(b"s1".to_vec(alloc)?);
    Ok(first)
}

// Puts that tree before the only one of a volume.
fn put_earlier(alloc: Global, volume: &mut VolPlan) -> Result<(), Fail> {
    let Some(last) = volume.versions.first_mut() else {
        return Err(Fail::from("no version"));
    };
    last.xid = 2;
    volume.versions.insert(0, earlier(alloc)?)?;
    Ok(())
}

// The container whose file begins with a hole, and a snapshot of before, when the file was the block after the hole alone.
fn with_an_earlier_file(alloc: Global) -> Result<Vec<u8>, Fail> {
    let mut plan = sample(alloc, Sample::P)?;
    let Some(volume) = plan.volumes.first_mut() else {
        return Err(Fail::from("no volume"));
    };
    put_earlier(alloc, volume)?;
    plan.xid = 2;
    made(alloc, &plan)
}

// Gives the last record of the first leaf this value.
fn set_last(volume: &mut VolPlan, value: &[u8]) -> Result<(), Fail> {
    let Some(version) = volume.versions.first_mut() else {
        return Err(Fail::from("no version"));
    };
    let Some(leaf) = version.leaves.first_mut() else {
        return Err(Fail::from("no leaf"));
    };
    let Some(item) = leaf.items.last_mut() else {
        return Err(Fail::from("no record"));
    };
    item.1.clear();
    item.1.extend_from_slice(value)?;
    Ok(())
}

// The container with a file of one extent, the value of whose record is another. It is the last record.
fn with_extent(alloc: Global, value: &[u8]) -> Result<Vec<u8>, Fail> {
    let mut plan = sample(alloc, Sample::H)?;
    let Some(volume) = plan.volumes.first_mut() else {
        return Err(Fail::from("no volume"));
    };
    set_last(volume, value)?;
    made(alloc, &plan)
}

// Gives the value of the first record the version's transaction as its first byte.
fn set_first(version: &mut Version) -> Result<(), Fail> {
    let Some(leaf) = version.leaves.first_mut() else {
        return Err(Fail::from("no leaf"));
    };
    let Some(item) = leaf.items.first_mut() else {
        return Err(Fail::from("no record"));
    };
    let Some(byte) = item.1.first_mut() else {
        return Err(Fail::from("no value"));
    };
    *byte = version.xid.to_le_bytes()[0];
    Ok(())
}

// The container with eight snapshots, each of which has a first leaf of its own: the last one's is that of the live view too.
fn with_own_leaves(alloc: Global) -> Result<Vec<u8>, Fail> {
    let mut plan = sample(alloc, Sample::V2)?;
    let Some(volume) = plan.volumes.first_mut() else {
        return Err(Fail::from("no volume"));
    };
    for version in volume.versions.iter_mut() {
        set_first(version)?;
    }
    made(alloc, &plan)
}

// The same stop where a read is refused, and another one where something is wrong before the count.
fn early<F: Drop>(stop: Stop<F>) -> Stop<UseFault> {
    match stop {
        Stop::ReadFault => Stop::ReadFault,
        _ => Stop::NoMemory,
    }
}

// What is told of the volume in a place among those of a checkpoint, and how many reads that takes once the volume is loaded.
fn told_of(
    alloc: Global,
    src: &mut MemSource,
    cp: &Checkpoint,
    place: usize,
) -> Result<(Usage, u64), Stop<UseFault>>
    requires { IsSiteFor (site_of cp.now) (length src.old.bytes) }
{
    let volume = match volume_in(alloc, src, cp, place) {
        Ok(volume) => volume,
        Err(stop) => return Err(early(stop)),
    };
    let before = src.read_count();
    match usage(alloc, src, cp, &volume) {
        Ok(usage) => Ok((usage, src.read_count().saturating_sub(before))),
        Err(stop) => Err(stop),
    }
}

// What is told of the volume in a place among those of an image, when reads of these numbers fail, with those reads.
fn told(
    alloc: Global,
    image: Vec<u8>,
    place: usize,
    fails: Vec<u64>,
) -> Result<(Usage, u64), Stop<UseFault>> {
    let mut src = MemSource::new(image, fails);
    match newest(alloc, &mut src) {
        Ok(cp) => told_of(alloc, &mut src, &cp, place),
        Err(stop) => Err(early(stop)),
    }
}

// What the views of a volume hold: of each its transaction, how many blocks it holds, and how many it alone.
type Held = &'static [(u64, u64, u64)];

// Whether this is told.
fn tells(usage: &Usage, held: &[(u64, u64, u64)], all: u64) -> bool {
    if usage.views.len() != held.len() || usage.all != all {
        return false;
    }
    for (view, (xid, blocks, only)) in usage.views.iter().zip(held) {
        if view.xid != *xid || view.held != *blocks || view.only != *only {
            return false;
        }
    }
    true
}

// How many reads it takes to tell this of the volume in a place. None where something else is told.
fn reads_to_tell(
    alloc: Global,
    image: Vec<u8>,
    place: usize,
    held: &[(u64, u64, u64)],
    all: u64,
) -> Option<u64> {
    match told(alloc, image, place, Vec::new(alloc)) {
        Ok((usage, reads)) if tells(&usage, held, all) => Some(reads),
        _ => None,
    }
}

// A sample, the place of a volume, what its views hold, and all that they hold.
const SAMPLES: &[(Sample, usize, Held, u64)] = table! {
    Sample::V, 0, &[(5, 4, 1), (2, 5, 3), (4, 5, 2)], 9;
    Sample::V2, 0, &[(9, 4, 1), (1, 5, 2), (2, 5, 2), (3, 5, 2), (4, 5, 2), (5, 5, 2), (6, 5, 2), (7, 5, 2), (8, 5, 2)], 21;
    Sample::S, 0, &[(1, 2, 2)], 2;
    Sample::H, 0, &[(1, 3, 3)], 3;
    Sample::P, 0, &[(1, 3, 3)], 3;
    Sample::L, 0, &[(1, 2, 2)], 2;
    Sample::C, 0, &[(1, 3, 3)], 3;
    Sample::J, 0, &[(1, 2, 2)], 2;
    Sample::T, 0, &[(1, 2, 2)], 2;
    Sample::T, 1, &[(1, 3, 3)], 3;
};

#[test]
fn what_views_hold(rt: HostRuntime) -> Result<(), Fail> {
    let alloc = rt.alloc();
    for (which, place, held, all) in SAMPLES {
        let image = image_of(alloc, Holds::Of(*which))?;
        assert!(rt; reads_to_tell(alloc, image, *place, held, *all).is_some());
    }
    Ok(())
}

// Each view has a root and extent references of its own, and the snapshot a superblock. Both have the file's block.
const SHARING: Held = &[(2, 3, 2), (1, 4, 3)];

#[test]
fn two_views_share_an_extent(rt: HostRuntime) -> Result<(), Fail> {
    let image = with_an_earlier_file(rt.alloc())?;
    assert!(rt; reads_to_tell(rt.alloc(), image, 0, SHARING, 6).is_some());
    Ok(())
}

const OWN_LEAVES: Held = table! {
    9, 4, 1; 1, 5, 3; 2, 5, 3; 3, 5, 3; 4, 5, 3; 5, 5, 3; 6, 5, 3; 7, 5, 3; 8, 5, 2;
};

// A root and a leaf that all nine views share, eight leaves, nine roots of extent references, and eight superblocks. Each node of
// the files is read by the sweep, and the root and the leaves once more; a walk of each view would take 36 reads.
#[test]
fn a_node_that_views_share_is_read_once(rt: HostRuntime) -> Result<(), Fail> {
    let image = with_own_leaves(rt.alloc())?;
    let Some(reads) = reads_to_tell(rt.alloc(), image, 0, OWN_LEAVES, 27) else {
        panic!(rt; "something else is told");
    };
    assert!(rt; reads <= 29);
    Ok(())
}

// A sample, the block of which a byte is another, so that its sum is wrong, and the transaction that is told: the root of the live
// view's files, that of its extent references, the leaf that the first snapshot keeps, and the root of the second one's extent
// references.
const WRONG_NODES: &[(Sample, usize, u64)] = table! {
    Sample::S, 54, 1;
    Sample::S, 55, 1;
    Sample::V, 57, 2;
    Sample::V, 63, 4;
};

// What stops the count where a byte of this block is another.
fn stop_at(alloc: Global, which: Sample, block: usize) -> Result<Option<Stop<UseFault>>, Fail> {
    let image = edited(alloc, which, block)?;
    Ok(told(alloc, image, 0, Vec::new(alloc)).err())
}

#[test]
fn which_node_is_wrong(rt: HostRuntime) -> Result<(), Fail> {
    for &(which, block, xid) in WRONG_NODES {
        let why = WalkFault::Unsound {
            block: block as u64,
            why: NodeFault::Head(HeadFault::BadSum),
        };
        let got = stop_at(rt.alloc(), which, block)?;
        assert!(rt;
            got == Some(Stop::Found(UseFault::Walk { xid, why })),
            "{block}"
        );
    }
    Ok(())
}

// The length of an extent, its block, how many bytes its value has, and what is wrong with it.
type Extent = (u64, u64, usize, Option<UseFault>);

// An extent leaves the container, or its value is too short.
const OUTSIDE: Option<UseFault> = Some(UseFault::Outside { xid: 1 });

const SHORT: Option<UseFault> = Some(UseFault::Value { xid: 1, item: 7 });

// A length of one block or of two, and the last block of the container, that after it, or a negative one; and a value that is a byte
// too short.
const EXTENTS: &[Extent] = table! {
    4096, 255, 24, None;
    4096, 256, 24, OUTSIDE;
    8192, 254, 24, None;
    8192, 255, 24, OUTSIDE;
    4096, 1 << 63, 24, OUTSIDE;
    4096, 57, 23, SHORT;
};

// The first bytes of the value of an extent.
fn value_of(alloc: Global, length: u64, block: u64, bytes: usize) -> Result<Vec<u8>, AllocError> {
    let mut value = length.to_le_bytes().to_vec(alloc)?;
    value.extend_from_slice(&block.to_le_bytes())?;
    value.extend_from_slice(&[0; 8])?;
    value.truncate(bytes);
    Ok(value)
}

// What stops the count where the value of the extent is this.
fn stop_with(alloc: Global, extent: &Extent) -> Result<Option<Stop<UseFault>>, Fail> {
    let value = value_of(alloc, extent.0, extent.1, extent.2)?;
    let image = with_extent(alloc, &value)?;
    Ok(told(alloc, image, 0, Vec::new(alloc)).err())
}

#[test]
fn which_extent_is_wrong(rt: HostRuntime) -> Result<(), Fail> {
    for extent in EXTENTS {
        let got = stop_with(rt.alloc(), extent)?;
        assert!(rt; got == extent.3.map(Stop::Found), "{}", extent.1);
    }
    Ok(())
}

// How the count of an image ends where the read of a number is refused: by that, or it tells that 9 blocks are held.
fn end_of(alloc: Global, image: &[u8], number: u64) -> Result<Option<bool>, Fail> {
    let fails = vec![in alloc; number]?;
    Ok(match told(alloc, image.to_vec(alloc)?, 0, fails) {
        Ok((usage, _)) if usage.all == 9 => Some(true),
        Err(Stop::ReadFault) => Some(false),
        _ => None,
    })
}

#[test]
fn each_read_fails_in_turn(rt: HostRuntime) -> Result<(), Fail> {
    let alloc = rt.alloc();
    let image = image_of(alloc, Holds::Of(Sample::V))?;
    for number in 1..200u64 {
        let Some(is_whole) = end_of(alloc, &image, number)? else {
            panic!(rt; "it ends otherwise");
        };
        if is_whole {
            assert!(rt; number > 9);
            return Ok(());
        }
    }
    panic!(rt; "there are no 200 reads")
}
