// Keys that are numbers: those of object maps, of their snapshots and of free queues.

use apfs_layout::{key as layout, kind, value};
use bt_node::{Layout, Rank, TreeKey};
use obj_base::u64_at;

/// A key of an object map: an object's oid and the transaction of one of its versions (Object Maps, `omap_key_t`).
#[derive(Clone, Copy, PartialEq, Eq)]
pub struct OmapKey {
    pub oid: u64,
    pub xid: u64,
}

/// A key of the snapshots of an object map: a snapshot's transaction (Object Maps, `omap_snapshot_t`).
#[derive(Clone, Copy, PartialEq, Eq)]
pub struct OmapSnapKey {
    pub xid: u64,
}

/// A key of a free queue: the transaction that freed blocks, and the first of them (Space Manager,
/// `spaceman_free_queue_key_t`).
#[derive(Clone, Copy, PartialEq, Eq)]
pub struct QueueKey {
    pub xid: u64,
    pub paddr: u64,
}

impl TreeKey for OmapKey {
    ghost use Rattle.std.specs.Prelude.{refl, false};
    ghost use Rattle.bt_node.specs.declared.key.Layout.TheVariants.{Fixed};
    ghost use Rattle.bt_keys.specs.Shapes.{omap_shape};
    ghost use Rattle.bt_keys.specs.Laws.{omap_lawful};

    const SUBTYPE: u32 = kind::OBJECT_MAP as u32;

    const LAYOUT: Layout = Layout::Fixed;

    const KEY_LEN: usize = layout::OMAP_LEN;

    const VALUE_LEN: usize = value::OMAP_LEN;

    const GHOSTS: bool = false;

    ghost SUBTYPE = { 0xb };

    ghost LAYOUT = { Fixed };

    ghost KEY_LEN = { 16 };

    ghost VALUE_LEN = { 16 };

    ghost GHOSTS = { false };

    ghost shape = { omap_shape };

    ghost same_subtype = { refl };

    ghost same_layout = { refl };

    ghost same_key_len = { refl };

    ghost same_value_len = { refl };

    ghost same_ghosts = { refl };

    ghost lawful = { omap_lawful };

    fn read(key: &[u8]) -> Option<Self> {
        if key.len() < layout::OMAP_LEN {
            return None;
        }
        Some(OmapKey {
            oid: u64_at(key, layout::OMAP_OID),
            xid: u64_at(key, layout::OMAP_XID),
        })
    }

    fn rank(&self) -> Rank {
        Rank {
            id: self.oid,
            kind: self.xid,
            sub: 0,
        }
    }

    fn strict(&self) -> bool {
        true
    }
}

impl TreeKey for OmapSnapKey {
    ghost use Rattle.std.specs.Prelude.{refl, false};
    ghost use Rattle.bt_node.specs.declared.key.Layout.TheVariants.{Fixed};
    ghost use Rattle.bt_keys.specs.Shapes.{omap_snap_shape};
    ghost use Rattle.bt_keys.specs.Laws.{omap_snap_lawful};

    const SUBTYPE: u32 = kind::MAP_SNAPSHOTS as u32;

    const LAYOUT: Layout = Layout::Fixed;

    const KEY_LEN: usize = layout::MAP_SNAPSHOT_LEN;

    const VALUE_LEN: usize = value::MAP_SNAPSHOT_LEN;

    const GHOSTS: bool = false;

    ghost SUBTYPE = { 0x13 };

    ghost LAYOUT = { Fixed };

    ghost KEY_LEN = { 8 };

    ghost VALUE_LEN = { 16 };

    ghost GHOSTS = { false };

    ghost shape = { omap_snap_shape };

    ghost same_subtype = { refl };

    ghost same_layout = { refl };

    ghost same_key_len = { refl };

    ghost same_value_len = { refl };

    ghost same_ghosts = { refl };

    ghost lawful = { omap_snap_lawful };

    fn read(key: &[u8]) -> Option<Self> {
        if key.len() < layout::MAP_SNAPSHOT_LEN {
            return None;
        }
        Some(OmapSnapKey {
            xid: u64_at(key, layout::MAP_SNAPSHOT_XID),
        })
    }

    fn rank(&self) -> Rank {
        Rank {
            id: self.xid,
            kind: 0,
            sub: 0,
        }
    }

    fn strict(&self) -> bool {
        true
    }
}

impl TreeKey for QueueKey {
    ghost use Rattle.std.specs.Prelude.{refl, true};
    ghost use Rattle.bt_node.specs.declared.key.Layout.TheVariants.{Fixed};
    ghost use Rattle.bt_keys.specs.Shapes.{queue_shape};
    ghost use Rattle.bt_keys.specs.Laws.{queue_lawful};

    const SUBTYPE: u32 = kind::FREE_QUEUE as u32;

    const LAYOUT: Layout = Layout::Fixed;

    const KEY_LEN: usize = layout::QUEUE_LEN;

    const VALUE_LEN: usize = value::QUEUE_LEN;

    const GHOSTS: bool = true;

    ghost SUBTYPE = { 9 };

    ghost LAYOUT = { Fixed };

    ghost KEY_LEN = { 16 };

    ghost VALUE_LEN = { 8 };

    ghost GHOSTS = { true };

    ghost shape = { queue_shape };

    ghost same_subtype = { refl };

    ghost same_layout = { refl };

    ghost same_key_len = { refl };

    ghost same_value_len = { refl };

    ghost same_ghosts = { refl };

    ghost lawful = { queue_lawful };

    fn read(key: &[u8]) -> Option<Self> {
        if key.len() < layout::QUEUE_LEN {
            return None;
        }
        Some(QueueKey {
            xid: u64_at(key, layout::QUEUE_XID),
            paddr: u64_at(key, layout::QUEUE_PADDR),
        })
    }

    fn rank(&self) -> Rank {
        Rank {
            id: self.xid,
            kind: self.paddr,
            sub: 0,
        }
    }

    fn strict(&self) -> bool {
        true
    }
}
