// Features of objects, and of the records by which they are found.

use super::{Numbers, SMALL_NUMBERS, sum};
use apfs_layout::node::{FLAGS, NODE_SIZE};
use apfs_layout::object::TYPE;
use apfs_layout::reaping::REAPER_FLAGS;
use apfs_layout::space_manager::SECOND_BLOCKS;
use img_make::Change::Put;
use img_make::cases::{END, EXTENTS, MAP_ROOT};
use img_make::places::{POOL_BASE, REAPER, SPACE_MANAGER};
use img_make::{Change, SMALL, image, table};
use obj_base::{Feature, Stop};
use std::alloc::Global;
use std::process::Abort;
use std::test::Fail;

// Where the map's root has the value of its only record: the flags, the size, and block 54.
const VALUE: usize = END - 16;

// A case: changes of the small container, and what its account comes to, or a feature with the block that is named for it.
type Case = (&'static [Change], Result<Numbers, (Feature, u64)>);

// Whether each image of a table comes to what is said of it.
fn assert_features(rt: &impl Abort, alloc: Global, cases: &[Case]) -> Result<(), Fail> {
    for (changes, want) in cases {
        let want = match *want {
            Ok(numbers) => Ok(numbers),
            Err((feature, block)) => Err(Stop::Unsupported { feature, block }),
        };
        let found = sum(alloc, image(alloc, &SMALL, changes)?)?;
        assert!(rt; found == want);
    }
    Ok(())
}

const OBJECTS: &[Case] = table! {
    &[Put(REAPER, REAPER_FLAGS, &[3])], Err((Feature::Reaper, 10));
    &[Put(REAPER, REAPER_FLAGS, &[5])], Ok(SMALL_NUMBERS);
    &[Put(SPACE_MANAGER, SECOND_BLOCKS, &[1])], Err((Feature::Fusion, 9));
    &[Put(POOL_BASE, TYPE + 3, &[0x50])], Err((Feature::Encrypted, 43));
    &[Put(EXTENTS, TYPE + 3, &[0x50])], Err((Feature::Encrypted, 55));
    &[Put(EXTENTS, TYPE + 3, &[0x60])], Err((Feature::NoHeader, 55));
};

#[test]
fn of_objects(rt: HostRuntime) -> Result<(), Fail> {
    assert_features(&rt, rt.alloc(), OBJECTS)
}

// A node is hashed, has no header, or stands above level 15.
const NODES: &[Case] = table! {
    &[Put(EXTENTS, FLAGS, &[0x0b])], Err((Feature::Sealed, 55));
    &[Put(EXTENTS, FLAGS, &[0x13])], Err((Feature::NoHeader, 55));
    &[Put(EXTENTS, FLAGS, &[1, 0, 16])], Err((Feature::Deep, 55));
    &[Put(EXTENTS, END + NODE_SIZE + 1, &[0x20])], Err((Feature::Size, 55));
    &[Put(MAP_ROOT, VALUE, &[4])], Err((Feature::Encrypted, 54));
    &[Put(MAP_ROOT, VALUE, &[8])], Err((Feature::NoHeader, 54));
    &[Put(MAP_ROOT, VALUE + 5, &[0x20])], Err((Feature::Size, 54));
    &[Put(MAP_ROOT, VALUE, &[2])], Ok(SMALL_NUMBERS);
};

#[test]
fn of_nodes_and_records(rt: HostRuntime) -> Result<(), Fail> {
    assert_features(&rt, rt.alloc(), NODES)
}
