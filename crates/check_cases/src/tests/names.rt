// Names that aren't ASCII, and their hashes.
use crate::tests::rows::{BOTH, Numbers, SMALL_NUMBERS, Said, assert_row, numbers_of, told};
use apfs_check::Fault;
use apfs_layout::key::LEN_AND_HASH;
use blk_source::Bytes;
use fs_name::Names;
use img_make::records::InodePlan;
use img_make::{FileTree, Item, Sample, image_with, put_u32};
use obj_base::Stop;
use std::alloc::{AllocError, Global};
use std::test::Fail;
use view_rules::{NamedAt, Note, Profile};

// The name, whose two bytes and the zero behind them follow 12 bytes in the key of its entry.
const NAME: &str = "é";

const KEY_LEN: usize = 15;

const NUMBERS: Numbers = Numbers {
    records: 8,
    used: 58,
    free: 198,
    ..SMALL_NUMBERS
};

// The only extent of the file: where it is in the file, its length, and its block.
const EXTENTS: &[(u64, u64, u64)] = &[(0, 4096, 57)];

// The records of a volume with the file `é`, which has block 57.
fn items_of(alloc: Global) -> Result<Vec<Item>, AllocError> {
    let mut tree = FileTree::new(alloc, Names::Folded)?;
    let mut file = InodePlan::file(16, 2);
    file.stream = Some(5);
    tree.add(alloc, file, NAME)?;
    tree.stream(alloc, 16, EXTENTS)?;
    tree.items(alloc)
}

// Stores the hash 0 in the key of the file's entry.
fn clear_hash(items: &mut [Item]) {
    for item in items.iter_mut() {
        if item.0.len() == KEY_LEN {
            put_u32(&mut item.0, LEN_AND_HASH, 3);
        }
    }
}

// A container whose volume has these records.
fn image_of(alloc: Global, items: Vec<Item>) -> Result<Vec<u8>, Fail> {
    image_with(alloc, Sample::H, Names::Folded, items)
}

// The container whose file has the hash 0.
fn other_hash(alloc: Global) -> Result<Vec<u8>, Fail> {
    let mut items = items_of(alloc)?;
    clear_hash(&mut items);
    image_of(alloc, items)
}

// The name where it stands: in the root of the only volume.
fn named(alloc: Global) -> Result<NamedAt, Fail> {
    Ok(NamedAt {
        slot: 0,
        xid: 1,
        id: 2,
        name: Bytes::from_slice(alloc, NAME.as_bytes())?,
    })
}

#[test]
fn note_hash(rt: HostRuntime) -> Result<(), Fail> {
    let alloc = rt.alloc();
    let notes = vec![in alloc; Note::Hash(named(alloc)?)]?;
    let Ok(report) = told(alloc, other_hash(alloc)?, Profile::Plain) else {
        panic!(rt; "the container isn't well-formed");
    };
    assert!(rt; numbers_of(&report) == NUMBERS && report.notes.as_slice() == notes.as_slice());
    Ok(())
}

#[test]
fn fault_name_hash(rt: HostRuntime) -> Result<(), Fail> {
    let alloc = rt.alloc();
    let Err(Stop::Found(Fault::NameHash(at))) = told(alloc, other_hash(alloc)?, Profile::Strict)
    else {
        panic!(rt; "the name's hash isn't at fault");
    };
    assert!(rt; at == named(alloc)?);
    Ok(())
}

#[test]
fn clean_name_of_other_letters(rt: HostRuntime) -> Result<(), Fail> {
    let alloc = rt.alloc();
    let image = image_of(alloc, items_of(alloc)?)?;
    assert_row(&rt, alloc, NAME, &image, BOTH, Said::Clean(NUMBERS, &[]))
}
