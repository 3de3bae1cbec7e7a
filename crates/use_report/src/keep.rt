// What is kept of the items of a view's Line: the nodes below its root, and the extents of its streams.
ghost use Rattle.std.specs.Prelude.{◌≡◌, ◌≤◌, ◌++◌, [], ◌∷◌, List, Some, length, not, option_map, option_to_list, OnOk, IfOk, IsTrue};
ghost use Rattle.bt_keys.specs.RecordKey.{record_kind_of, file_extent_record};
ghost use Rattle.bt_cursor.specs.Line.{Item};
ghost use Rattle.bt_cursor.specs.WholeTree.{child_id};
ghost use Rattle.bt_cursor.specs.Gathered.{shown};
ghost use Rattle.use_report.specs.Gathered as spec;
ghost use Rattle.use_report.specs.Gathered.{extent_in, extent_at, is_refused, Gathers};

use apfs_layout::key as kinds;
use apfs_model::NoMemory;
use bt_cursor::{Keeper, LineItem};
use bt_keys::FsTreeKey;
use bt_node::Entry;
use fs_record::{FileExt, RecFault, file_ext};
use std::alloc::Global;
use std::marker::PhantomData;

/// The oids of the nodes below the root, and the extents, in the order of the Line.
#[derive(Drop)]
pub(crate) struct Kept<K: FsTreeKey> {
    pub below: Vec<u64>,
    pub extents: Vec<FileExt>,
    pub kind: PhantomData<K>,
}

impl<K: FsTreeKey> Kept<K> {
    /// Nothing is kept yet.
    #[tactic(auto, using(crate::proofs::Gathered::gathers_none))]
    pub(crate) fn new(alloc: Global) -> Self
        ensures { Gathers result.below.items result.extents.items [] }
    {
        Kept {
            below: Vec::new(alloc),
            extents: Vec::new(alloc),
            kind: PhantomData,
        }
    }
}

// Puts what an item gave after what was gathered.
fn add<T: Drop>(gathered: &mut Vec<T>, given: Option<T>) -> Result<(), NoMemory>
    ensures { OnOk result (gathered.new.items ≡ gathered.old.items ++ option_to_list given) }
{
    let Some(item) = given else {
        return Ok(());
    };
    match gathered.push(item) {
        Ok(()) => Ok(()),
        Err(_) => Err(NoMemory),
    }
}

// The extent of a record whose key is of a kind, where it is one.
#[tactic(auto, unfolding(crate::specs::Gathered::extent_in))]
fn extent_of(kind: u8, key: &[u8], value: Option<&[u8]>) -> Result<Option<FileExt>, RecFault>
    requires long { kind ≡ file_extent_record → 16 ≤ length key.now }
    requires kind { kind ≡ record_kind_of key.now }
    ensures { result ≡ extent_in (record { key = key.now; value = option_map (λ v. v.now) value.entry }) }
{
    if kind != kinds::FILE_EXTENT {
        return Ok(None);
    }
    match file_ext(key, value.unwrap_or(&[])) {
        Ok(extent) => Ok(Some(extent)),
        Err(why) => Err(why),
    }
}

/// The extent of a record, where it is one.
#[tactic(auto, using(bt_keys::proofs::FsKeys::kind_read, crate::proofs::Gathered::long_read))]
pub(crate) fn extent_in<K: FsTreeKey>(entry: &Entry<'_, K>) -> Result<Option<FileExt>, RecFault>
    requires { K.shape.read entry.now.key_bytes.now ≡ Some entry.now.key }
    ensures { result ≡ spec.extent_in (record { key = entry.now.key_bytes.now; value = option_map (λ value. value.now) entry.now.value }) }
{
    extent_of(entry.key.kind(), entry.key_bytes, entry.value)
}

// The extent of an item, where it is the record of one.
#[tactic(auto, using(bt_keys::proofs::FsKeys::kind_read, crate::proofs::Gathered::long_read), unfolding(crate::specs::Gathered::extent_at))]
fn extent_at<K: FsTreeKey>(item: &LineItem<'_, K>) -> Result<Option<FileExt>, RecFault>
    requires { K.shape.read item.now.pair.key_bytes.now ≡ Some item.now.pair.key }
    ensures { result ≡ extent_at (shown item.now.node item.now.at item.now.level item.now.pair.key_bytes.now (option_map (λ value. value.now) item.now.pair.value)) }
{
    if item.level > 0 {
        return Ok(None);
    }
    extent_in(&item.pair)
}

impl<K: FsTreeKey> Keeper<K> for Kept<K> {
    ghost refuses = { is_refused };

    ghost holds = { λ kept items. Gathers kept.below.items kept.extents.items items };

    fn keep(&mut self, item: LineItem<'_, K>) -> Result<bool, NoMemory>
        requires key { K.shape.read item.pair.key_bytes.now ≡ Some item.pair.key }
        requires child { item.child ≡ child_id (shown item.node item.at item.level item.pair.key_bytes.now (option_map (λ value. value.now) item.pair.value)) }
        ensures refused { IfOk result (λ kept. kept ≡ not (is_refused (shown item.entry.node item.entry.at item.entry.level item.entry.pair.key_bytes.now (option_map (λ value. value.now) item.entry.pair.value)))) }
        ensures held { (items : List Item) → Gathers self.old.below.items self.old.extents.items items → IfOk result (λ kept. IsTrue kept → Gathers self.new.below.items self.new.extents.items (items ++ shown item.entry.node item.entry.at item.entry.level item.entry.pair.key_bytes.now (option_map (λ value. value.now) item.entry.pair.value) ∷ [])) }
    {
        add(&mut self.below, item.child)?;
        let Ok(extent) = extent_at(&item) else {
            return Ok(false);
        };
        add(&mut self.extents, extent)?;
        Ok(true)
    }
}
