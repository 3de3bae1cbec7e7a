// Keys that start with a record's id and kind: those of extent reference, snapshot metadata and file-system trees.

use crate::record;
use apfs_layout::{key as layout, kind, value};
use bt_node::{Layout, Rank, TreeKey};

/// A key of an extent reference tree: the first block of a range (File-System Objects, `j_phys_ext_key_t`).
#[derive(Clone, Copy, PartialEq, Eq)]
pub struct ExtKey {
    pub first: u64,
}

/// A key of a snapshot metadata tree: a snapshot's transaction, or a name (Snapshot Metadata, `j_snap_metadata_key_t`
/// and `j_snap_name_key_t`).
#[derive(Clone, Copy, PartialEq, Eq)]
pub struct SnapKey {
    pub id: u64,
    pub kind: u8,
}

/// A key of a file-system tree, whose entries have hashed names or not (File-System Objects, `j_key_t`, and
/// `j_drec_hashed_key_t` or `j_drec_key_t`).
#[derive(Clone, Copy, PartialEq, Eq)]
pub struct FsRecordKey<const HASHED: bool> {
    pub id: u64,
    pub kind: u8,
    /// A sibling's id, a logical address or a hashed name's hash; 0 at another kind.
    pub sub: u64,
}

/// A key of a file-system tree whose names are hashed.
pub type FsKey = FsRecordKey<true>;

/// A key of a file-system tree whose names aren't hashed.
pub type FsPlainKey = FsRecordKey<false>;

impl TreeKey for ExtKey {
    ghost use Rattle.std.specs.Prelude.{refl, false};
    ghost use Rattle.bt_node.specs.declared.key.Layout.TheVariants.{Either};
    ghost use Rattle.bt_keys.specs.Shapes.{ext_shape};
    ghost use Rattle.bt_keys.specs.Laws.{ext_lawful};

    const SUBTYPE: u32 = kind::EXTENT_REFERENCES as u32;

    const LAYOUT: Layout = Layout::Either;

    const KEY_LEN: usize = layout::RECORD_LEN;

    const VALUE_LEN: usize = value::EXT_LEN;

    const GHOSTS: bool = false;

    ghost SUBTYPE = { 0xf };

    ghost LAYOUT = { Either };

    ghost KEY_LEN = { 8 };

    ghost VALUE_LEN = { 20 };

    ghost GHOSTS = { false };

    ghost shape = { ext_shape };

    ghost same_subtype = { refl };

    ghost same_layout = { refl };

    ghost same_key_len = { refl };

    ghost same_value_len = { refl };

    ghost same_ghosts = { refl };

    ghost lawful = { ext_lawful };

    #[tactic(auto, unfolding(crate::specs::RecordKey::is_ext_key, crate::specs::RecordKey::is_snap_key, crate::specs::RecordKey::is_fs_key))]
    fn read(key: &[u8]) -> Option<Self> {
        if !record::is_ext_key(key) {
            return None;
        }
        Some(ExtKey {
            first: record::id(key),
        })
    }

    fn rank(&self) -> Rank {
        Rank {
            id: self.first,
            kind: u64::from(layout::EXTENT),
            sub: 0,
        }
    }

    fn strict(&self) -> bool {
        true
    }
}

impl TreeKey for SnapKey {
    ghost use Rattle.std.specs.Prelude.{refl, false};
    ghost use Rattle.bt_node.specs.declared.key.Layout.TheVariants.{Variable};
    ghost use Rattle.bt_keys.specs.Shapes.{snap_shape};
    ghost use Rattle.bt_keys.specs.Laws.{snap_lawful};

    const SUBTYPE: u32 = kind::SNAPSHOT_METADATA as u32;

    const LAYOUT: Layout = Layout::Variable;

    const KEY_LEN: usize = 0;

    const VALUE_LEN: usize = 0;

    const GHOSTS: bool = false;

    ghost SUBTYPE = { 0x10 };

    ghost LAYOUT = { Variable };

    ghost KEY_LEN = { 0 };

    ghost VALUE_LEN = { 0 };

    ghost GHOSTS = { false };

    ghost shape = { snap_shape };

    ghost same_subtype = { refl };

    ghost same_layout = { refl };

    ghost same_key_len = { refl };

    ghost same_value_len = { refl };

    ghost same_ghosts = { refl };

    ghost lawful = { snap_lawful };

    #[tactic(auto, unfolding(crate::specs::RecordKey::is_ext_key, crate::specs::RecordKey::is_snap_key, crate::specs::RecordKey::is_fs_key))]
    fn read(key: &[u8]) -> Option<Self> {
        if !record::is_snap_key(key) {
            return None;
        }
        Some(SnapKey {
            id: record::id(key),
            kind: record::kind(key),
        })
    }

    fn rank(&self) -> Rank {
        Rank {
            id: self.id,
            kind: u64::from(self.kind),
            sub: 0,
        }
    }

    fn strict(&self) -> bool {
        self.kind == layout::SNAPSHOT
    }
}

impl<const HASHED: bool> TreeKey for FsRecordKey<HASHED> {
    ghost use Rattle.std.specs.Prelude.{refl, false};
    ghost use Rattle.bt_node.specs.declared.key.Layout.TheVariants.{Variable};
    ghost use Rattle.bt_keys.specs.Shapes.{fs_record_shape};
    ghost use Rattle.bt_keys.specs.Laws.{fs_record_lawful};

    const SUBTYPE: u32 = kind::FILE_SYSTEM as u32;

    const LAYOUT: Layout = Layout::Variable;

    const KEY_LEN: usize = 0;

    const VALUE_LEN: usize = 0;

    const GHOSTS: bool = false;

    ghost SUBTYPE = { 0xe };

    ghost LAYOUT = { Variable };

    ghost KEY_LEN = { 0 };

    ghost VALUE_LEN = { 0 };

    ghost GHOSTS = { false };

    ghost shape = { fs_record_shape HASHED };

    ghost same_subtype = { refl };

    ghost same_layout = { refl };

    ghost same_key_len = { refl };

    ghost same_value_len = { refl };

    ghost same_ghosts = { refl };

    ghost lawful = { fs_record_lawful HASHED };

    #[tactic(auto, unfolding(crate::specs::RecordKey::is_ext_key, crate::specs::RecordKey::is_snap_key, crate::specs::RecordKey::is_fs_key))]
    fn read(key: &[u8]) -> Option<Self> {
        if !record::is_fs_key(HASHED, key) {
            return None;
        }
        Some(FsRecordKey {
            id: record::id(key),
            kind: record::kind(key),
            sub: record::sub(HASHED, key),
        })
    }

    fn rank(&self) -> Rank {
        Rank {
            id: self.id,
            kind: u64::from(self.kind),
            sub: self.sub,
        }
    }

    fn strict(&self) -> bool {
        record::is_strict(self.kind)
    }
}
