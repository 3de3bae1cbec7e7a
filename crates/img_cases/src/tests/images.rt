// Made images, against what the format says of them.
use apfs_model::NoMemory;
use fs_name::Names;
use img_make::{
    Groups, Leaf, NewRange, Plan, QueueEntry, Sample, Version, VolPlan, free, make, make_grouped,
    make_with, mark, ring_of_four, sample, skipped_checkpoint, table,
};
use obj_base::{sum64, u64_at};
use std::alloc::{AllocError, Global};
use std::process::Abort;
use std::test::Fail;

mod rows;

use rows::Row;

// A container of so many blocks without a volume.
fn empty_plan(alloc: Global, blocks: u64) -> Plan {
    Plan {
        blocks,
        xid: 1,
        volumes: Vec::new(alloc),
        queued: Vec::new(alloc),
        jumpstart: Vec::new(alloc),
    }
}

// The image of a valid plan.
fn image_of(alloc: Global, plan: &Plan) -> Result<Vec<u8>, NoMemory> {
    if plan.valid() {
        make(alloc, plan)
    } else {
        Err(NoMemory)
    }
}

// The number of 64 bits at a byte of a block of 4,096 bytes.
fn number(image: &[u8], block: usize, at: usize) -> Option<u64> {
    let from = block.checked_mul(4096)?.checked_add(at)?;
    let part = image.get(from..from.checked_add(8)?)?;
    if part.len() == 8 {
        Some(u64_at(part, 0))
    } else {
        None
    }
}

// Whether an image has these numbers.
fn assert_numbers(rt: &impl Abort, image: &[u8], numbers: &[Number]) {
    for (block, at, wanted) in numbers {
        let found = number(image, *block, *at);
        assert!(rt; found == Some(*wanted), "block {block} byte {at}");
    }
}

// The row of a block of so many bytes.
fn row_of(image: &[u8], size: usize, block: usize) -> Option<Row> {
    let from = block.checked_mul(size)?;
    let part = image.get(from..from.checked_add(size)?)?;
    if part.len() >= 12 && part.len() % 4 == 0 {
        Some((block, u64_at(part, 0), sum64(part)))
    } else {
        None
    }
}

// The row of a block that isn't empty.
fn row_in(rows: &[Row], block: usize) -> Option<Row> {
    rows.iter().find(|row| row.0 == block).copied()
}

// The row of a block of zeros of 4,096 bytes or more.
fn empty_row(block: usize) -> Row {
    (block, 0, u64::MAX)
}

// Each block of an image has its row: that of the sample, otherwise that of the small one, otherwise none.
fn assert_rows(rt: &impl Abort, image: &[u8], size: usize, rows: &[Row], small: &[Row]) {
    for block in 0..256usize {
        let wanted = row_in(rows, block)
            .or(row_in(small, block))
            .unwrap_or(empty_row(block));
        assert!(rt; row_of(image, size, block) == Some(wanted));
    }
}

// Samples, with the rows in which each differs from the small one.
const SAMPLES: [(Sample, &[Row]); 9] = [
    (Sample::S, &[]),
    (Sample::H, rows::HELLO),
    (Sample::L, rows::LINKS),
    (Sample::P, rows::HOLE),
    (Sample::C, rows::SHARED),
    (Sample::V, rows::SNAPSHOTS),
    (Sample::V2, rows::EIGHT_SNAPSHOTS),
    (Sample::J, rows::JUMPSTART),
    (Sample::T, rows::TWO_VOLUMES),
];

#[test]
fn each_sample_has_its_blocks(rt: HostRuntime) -> Result<(), Fail> {
    for (which, rows) in SAMPLES {
        let plan = sample(rt.alloc(), which)?;
        let image = image_of(rt.alloc(), &plan)?;
        assert!(rt; image.len() == 1_048_576, "{which:?}");
        assert_rows(&rt, &image, 4096, rows, rows::SMALL);
    }
    Ok(())
}

#[test]
fn an_address_block_names_the_chunk_info_block(rt: HostRuntime) -> Result<(), Fail> {
    let plan = sample(rt.alloc(), Sample::S)?;
    if plan.valid() {
        let groups = Groups {
            chunks: 126,
            cibs: 1,
        };
        let image = make_grouped(rt.alloc(), &plan, groups)?;
        assert_rows(&rt, &image, 4096, rows::ADDRESS_BLOCK, rows::SMALL);
    }
    Ok(())
}

// A block, a byte in it, and the number of 64 bits that stands there.
type Number = (usize, usize, u64);

// What a container of two chunks has, with one chunk to a chunk-info block, and one of these to an address block: block,
// byte and number.
const GROUPED: &[Number] = table! {
    // the manager's sizes of groups, its chunks, chunk-info blocks and address blocks, and both addresses
    9, 40, 0x0000_0001_0000_0001; 9, 56, 2; 9, 64, 0x0000_0002_0000_0002; 9, 80, 2584; 9, 2584, 46; 9, 2592, 47;
    // the pool's bits: two chunk-info blocks, a bitmap, and two address blocks
    27, 0, 31;
    // of both chunk-info blocks index and count; the first one's bitmap, and the second one's first block
    43, 32, 0x0000_0001_0000_0000; 43, 64, 45; 44, 32, 0x0000_0001_0000_0001; 44, 48, 32768;
    // of both address blocks index and count, and the address
    46, 32, 0x0000_0001_0000_0000; 46, 40, 43; 47, 32, 0x0000_0001_0000_0001; 47, 40, 44;
};

#[test]
fn address_blocks_name_groups(rt: HostRuntime) -> Result<(), Fail> {
    let plan = empty_plan(rt.alloc(), 32_769);
    if plan.valid() {
        let groups = Groups { chunks: 1, cibs: 1 };
        let image = make_grouped(rt.alloc(), &plan, groups)?;
        assert_numbers(&rt, &image, GROUPED);
    }
    Ok(())
}

// The bytes of a block, and the rows of the small sample.
const SIZES: [(u32, &[Row]); 2] = [(16384, rows::SMALL_16384), (65536, rows::SMALL_65536)];

#[test]
fn greater_blocks_hold_the_same(rt: HostRuntime) -> Result<(), Fail> {
    let plan = sample(rt.alloc(), Sample::S)?;
    assert!(rt; plan.blocks == 256);
    for (size, rows) in SIZES {
        if plan.valid() && plan.blocks == 256 {
            let image = make_with(rt.alloc(), &plan, size)?;
            assert!(rt; image.len() == 256 * size as usize);
            assert_rows(&rt, &image, size as usize, rows, &[]);
        }
    }
    Ok(())
}

#[test]
fn a_container_has_the_blocks_that_it_needs(rt: HostRuntime) -> Result<(), Fail> {
    let image = image_of(rt.alloc(), &empty_plan(rt.alloc(), 0))?;
    assert!(rt;
        image.len() == 208_896
            && number(&image, 2, 40) == Some(51)
            && number(&image, 9, 72) == Some(0)
    );
    Ok(())
}

#[test]
fn a_second_chunk_has_no_bitmap(rt: HostRuntime) -> Result<(), Fail> {
    let image = image_of(rt.alloc(), &empty_plan(rt.alloc(), 32_769))?;
    // the address, the blocks with the free ones, and the bitmap of the second chunk
    assert!(rt;
        number(&image, 43, 80) == Some(32_768)
            && number(&image, 43, 88) == Some(0x0000_0001_0000_0001)
            && number(&image, 43, 96) == Some(0)
    );
    Ok(())
}

// A leaf of one item, whose key has so many bytes.
fn leaf(alloc: Global, oid: u64, key: usize) -> Result<Leaf, AllocError> {
    let item = (vec![in alloc; 0u8; key]?, vec![in alloc; 0u8; 1]?);
    Ok(Leaf {
        oid,
        items: vec![in alloc; item]?,
    })
}

// A tree of six leaves, of which one node can name five and no more.
fn six_leaves(alloc: Global) -> Result<Version, AllocError> {
    let mut leaves = Vec::new(alloc);
    leaves.push(leaf(alloc, 1031, 24)?)?;
    for oid in 2000..2005 {
        leaves.push(leaf(alloc, oid, 900)?)?;
    }
    Ok(Version {
        xid: 1,
        snapshot: None,
        leaves,
    })
}

// A container whose files own blocks among those that are free, with a queue of two leaves and a
// jumpstart.
fn full_plan(alloc: Global) -> Result<Plan, AllocError> {
    let range = NewRange {
        first: 58,
        length: 2,
        count: 1,
    };
    let volume = VolPlan {
        name: b"Tall".to_vec(alloc)?,
        uuid: [0u8; 16],
        names: Names::Normal,
        versions: vec![in alloc; six_leaves(alloc)?]?,
        extents: vec![in alloc; range]?,
        contents: vec![in alloc; (58, b"hello".to_vec(alloc)?)]?,
    };
    let mut queued = Vec::new(alloc);
    for i in 0..126u64 {
        queued.push(QueueEntry {
            xid: 1,
            paddr: 1000 + 2 * i,
            length: 1,
        })?;
    }
    Ok(Plan {
        blocks: 1300,
        xid: 1,
        volumes: vec![in alloc; volume]?,
        queued,
        jumpstart: vec![in alloc; (90, 3)]?,
    })
}

// What the image of this plan has: block, byte and number.
const FULL: &[Number] = table! {
    // the root of the file-system tree, above two nodes, and these above six leaves: flags, level and count, the number
    // of keys, that of nodes
    54, 32, 0x0000_0002_0002_0001; 54, 4080, 6; 54, 4088, 9;
    // the oids of two leaves with the file's block between them, and the flags, levels and counts of the two nodes
    57, 8, 1031; 58, 0, 0x006f_6c6c_6568; 60, 8, 2000; 65, 32, 0x0000_0005_0001_0000; 66, 32, 0x0000_0001_0001_0000;
    // the queue: six mappings, the last of which are the leaves in blocks 13 and 14; the root of level 1, and the leaves
    1, 32, 0x0000_0006_0000_0001; 1, 224, 2007; 1, 232, 13; 1, 264, 2008; 1, 272, 14; 2, 144, 0x0000_0006_0000_0000;
    12, 32, 0x0000_0002_0001_0005; 12, 4080, 126; 12, 4088, 3; 13, 32, 0x0000_007d_0000_0006; 14, 32, 0x0000_0001_0000_0006;
    // the jumpstart, its magic and version, its count of extents, and the extent
    2, 1272, 67; 67, 32, 0x0000_0001_5244_534a; 67, 44, 1; 67, 176, 90;
};

#[test]
fn a_full_container_has_its_parts(rt: HostRuntime) -> Result<(), Fail> {
    let plan = full_plan(rt.alloc())?;
    let image = image_of(rt.alloc(), &plan)?;
    assert_numbers(&rt, &image, FULL);
    // 68 blocks from 0 on, the three of the jumpstart, and those of the queue are used
    assert!(rt; number(&image, 9, 72) == Some(1300 - 68 - 3 - 126));
    Ok(())
}

#[test]
fn a_block_is_marked_and_freed(rt: HostRuntime) -> Result<(), Fail> {
    let plan = sample(rt.alloc(), Sample::S)?;
    let mut image = image_of(rt.alloc(), &plan)?;
    assert!(rt; mark(&mut image, 4096, 200) && !mark(&mut image, 4096, 200));
    // the bit, and the free blocks of the chunk, beside its blocks, and of the container
    assert!(rt;
        number(&image, 44, 24) == Some(0x100)
            && number(&image, 43, 56) == Some(0x0000_00c6_0000_0100)
            && number(&image, 9, 72) == Some(198)
            && free(&mut image, 4096, 200)
            && !free(&mut image, 4096, 200)
    );
    assert_rows(&rt, &image, 4096, &[], rows::SMALL);
    Ok(())
}

// Superblocks and a checkpoint map that edits make: block, byte and number.
const SKIPPED: &[Number] = table! {
    3, 8, 3; 3, 72, 13; 3, 192, 16; 4, 16, 2; 4, 136, 0x0000_0002_0000_0002; 13, 0, 0;
};

const RING: &[Number] = table! {
    0, 16, 9; 2, 16, 9; 4, 0, 0; 6, 16, 7; 8, 16, 8; 8, 136, 0x0000_0002_0000_0006;
};

#[test]
fn images_of_several_checkpoints(rt: HostRuntime) -> Result<(), Fail> {
    let plan = sample(rt.alloc(), Sample::S)?;
    let mut skipped = image_of(rt.alloc(), &plan)?;
    assert!(rt; skipped_checkpoint(&mut skipped));
    assert_numbers(&rt, &skipped, SKIPPED);
    let mut ring = image_of(rt.alloc(), &plan)?;
    assert!(rt; ring_of_four(&mut ring));
    assert_numbers(&rt, &ring, RING);
    Ok(())
}

#[test]
fn plans_that_ask_too_much_are_refused(rt: HostRuntime) {
    assert!(rt;
        empty_plan(rt.alloc(), 1_048_576).valid() && !empty_plan(rt.alloc(), 1_048_577).valid()
    );
}
