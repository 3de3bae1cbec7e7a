// The volume superblock (Volumes, apfs_superblock_t).
ghost use Rattle.std.specs.Prelude.{◌≡◌, ◌≤◌, length};

use crate::geometry::Geometry;
use crate::objects::fields::{Field, put_fields};
use apfs_layout::kind;
use apfs_layout::volume::{
    CASE_INSENSITIVE, CRYPTO_CLASS, CRYPTO_REVISION, CRYPTO_VERSION, EXTENTS_ROOT, EXTENTS_TYPE,
    FEATURES, FORMATTED_BY_XID, FS_FLAGS, HARD_LINK_RECORDS, INCOMPAT, MAGIC, NAME, NAME_LEN,
    NEXT_DOCUMENT, NEXT_ID, NORMALIZATION_INSENSITIVE, OMAP_OID, ROOT_OID, ROOT_TYPE, SLOT,
    SNAPS_ROOT, SNAPS_TYPE, SNAPSHOTS, UNENCRYPTED, UUID, VOLUME_MAGIC,
};
use fs_name::Names;
use img_edit::header::{Head, PHYSICAL, VIRTUAL, block_with, type_of};
use img_edit::{put_bytes, reseal};
use img_plan::VolPlan;
use std::alloc::{AllocError, Global};

// What an unencrypted volume says of the state of its keys (Encryption, wrapped_meta_crypto_state_t).
const NO_CRYPTO_VERSION: u16 = 5;

const NO_CRYPTO_CLASS: u32 = 6;

const NO_CRYPTO_REVISION: u16 = 1;

// The first id of a file that is given.
const FIRST_ID: u64 = 16;

const FIRST_DOCUMENT: u32 = 3;

/// What a volume's superblock says of its objects: as they are now, or as they were at a snapshot.
#[derive(Clone, Copy)]
pub(crate) struct Places {
    pub slot: usize,
    pub oid: u64,
    pub xid: u64,
    /// The transaction in which the volume was made.
    pub made: u64,
    /// The block of the object map.
    pub map: usize,
    /// The oid of the file-system tree.
    pub root: u64,
    /// The blocks of the roots of the extent reference tree and of the snapshot metadata tree.
    pub extents: usize,
    pub snapshots: usize,
    /// How many snapshots there are.
    pub count: usize,
    /// An id that no file has, nor any greater one.
    pub next_id: u64,
}

impl Places {
    /// The same at a transaction, with these roots of its files and its extent references, and so many snapshots.
    pub(crate) fn at(self, xid: u64, root: u64, extents: usize, count: usize) -> Places {
        Places {
            xid,
            root,
            extents,
            count,
            ..self
        }
    }
}

// The volume's features by its names.
fn features_of(names: Names) -> u64 {
    match names {
        Names::Exact => 0,
        Names::Normal => NORMALIZATION_INSENSITIVE,
        Names::Folded => CASE_INSENSITIVE,
    }
}

// The volume's slot and its trees.
fn put_trees(block: &mut [u8], places: &Places) {
    let fields = [
        Field::U32(MAGIC, VOLUME_MAGIC),
        Field::U32(SLOT, (places.slot % 0x1_0000_0000) as u32),
        Field::U32(ROOT_TYPE, type_of(VIRTUAL, kind::TREE_ROOT)),
        Field::U32(EXTENTS_TYPE, type_of(PHYSICAL, kind::TREE_ROOT)),
        Field::U32(SNAPS_TYPE, type_of(PHYSICAL, kind::TREE_ROOT)),
        Field::U64(OMAP_OID, places.map as u64),
        Field::U64(ROOT_OID, places.root),
        Field::U64(EXTENTS_ROOT, places.extents as u64),
        Field::U64(SNAPS_ROOT, places.snapshots as u64),
        Field::U64(SNAPSHOTS, places.count as u64),
        Field::U64(NEXT_ID, places.next_id.max(FIRST_ID)),
        Field::U64(FORMATTED_BY_XID, places.made),
        Field::U32(NEXT_DOCUMENT, FIRST_DOCUMENT),
    ];
    put_fields(block, &fields);
}

// What the volume says of itself: its features, its identifier and its name.
fn put_names(block: &mut [u8], volume: &VolPlan)
    requires { 4096 ≤ length block.old }
{
    let fields = [
        Field::U64(FEATURES, HARD_LINK_RECORDS),
        Field::U64(INCOMPAT, features_of(volume.names)),
        Field::U16(CRYPTO_VERSION, NO_CRYPTO_VERSION),
        Field::U32(CRYPTO_CLASS, NO_CRYPTO_CLASS),
        Field::U16(CRYPTO_REVISION, NO_CRYPTO_REVISION),
        Field::U64(FS_FLAGS, UNENCRYPTED),
    ];
    put_fields(block, &fields);
    put_bytes(block, UUID, &volume.uuid);
    if volume.name.len() < NAME_LEN {
        put_bytes(block, NAME, &volume.name);
    }
}

/// The superblock of a volume, or that of a snapshot of it.
pub(crate) fn volume_superblock(
    alloc: Global,
    geometry: Geometry,
    volume: &VolPlan,
    places: &Places,
) -> Result<Vec<u8>, AllocError> {
    let head = Head {
        oid: places.oid,
        xid: places.xid,
        storage: VIRTUAL,
        kind: kind::VOLUME,
        subtype: 0,
    };
    let mut block = block_with(alloc, geometry.size, &head)?;
    put_trees(&mut block, places);
    put_names(&mut block, volume);
    reseal(&mut block);
    Ok(block)
}
