// Collecting the extents of a stream from the tree of a view.
ghost use Rattle.std.specs.Prelude.{◌≡◌, ◌++◌, ◌≤◌, ◌<◌, ℕ, List, [], ◌∷◌, length, Option, Some, None, true, option_map, IfOk, IfErr, IfSome, IsErrOf, IsSome, OnOk, IsTrue, MatchOption};
ghost use Rattle.apfs_model.specs.Counts.{Rose};
ghost use Rattle.apfs_model.specs.Kept.{IsKept};
ghost use Rattle.obj_base.specs.Stops.{Tells, raised};
ghost use Rattle.obj_base.specs.declared.stop.Stop.TheVariants.{ReadFault};
ghost use Rattle.obj_base.specs.Site.{IsSiteFor};
ghost use Rattle.bt_node.specs.Entries.{bytes_in};
ghost use Rattle.bt_keys.specs.RecordKey.{record_kind_of, id_of, file_extent_record};
ghost use Rattle.bt_cursor.specs.Tree.{tree_in};
ghost use Rattle.bt_cursor.specs.Line.{line_of};
ghost use Rattle.bt_cursor.specs.Order.{is_ordered};
ghost use Rattle.bt_cursor.specs.Faults.{IsNodeFault, HasFeature};
ghost use Rattle.bt_cursor.specs.Cursors.{site_of, root_of, tree_of, gapped_left_of, fuel_of, IsOn};
ghost use Rattle.file_extent.specs.Laid.{AreLaid};
ghost use Rattle.file_extent.specs.Collected.{extent_in, IsCollected, AreCollected, GoesOn, IsCollectStop};
ghost use Rattle.fs_record.specs.declared.extents.FileExt.{FileExt};
ghost use Rattle.file_extent.specs.declared.stop.StreamStop.TheVariants as stops;

use crate::StreamStop;
use crate::lay::lay;
use apfs_layout::key as kinds;
use blk_source::BlockSource;
use bt_cursor::{Cursor, Namer, WalkFault};
use bt_keys::FsTreeKey;
use bt_node::{Entry, Rank};
use fs_record::{FileExt, RecFault, file_ext};
use obj_base::{Site, Stop};
use std::alloc::Global;

// Why a walk stops, said of a stream; `root` is the oid of the tree's root.
pub(crate) fn raise(root: u64, stop: Stop<WalkFault>) -> Stop<StreamStop>
    ensures { result ≡ raised (stops.Walk root) stop }
{
    stop.map(|why| StreamStop::Walk { root, why })
}

// The extent of a record whose key has this id and this kind, where it is one of the stream's.
#[tactic(auto, unfolding(crate::specs::Collected::extent_in))]
fn extent_of(
    id: u64,
    own: u64,
    kind: u8,
    key: &[u8],
    value: Option<&[u8]>,
) -> Result<Option<FileExt>, RecFault>
    requires long { kind ≡ file_extent_record → 16 ≤ length key.now }
    requires own { own ≡ id_of key.now }
    requires kind { kind ≡ record_kind_of key.now }
    ensures { result ≡ extent_in id (record { key = key.now; value = option_map (λ v. v.now) value.entry }) }
{
    if own != id || kind != kinds::FILE_EXTENT {
        return Ok(None);
    }
    match file_ext(key, value.unwrap_or(&[])) {
        Ok(extent) => Ok(Some(extent)),
        Err(why) => Err(why),
    }
}

// The same for the entry that a cursor lends.
#[tactic(auto, using(bt_keys::proofs::FsKeys::kind_read, bt_keys::proofs::FsKeys::id_read, crate::proofs::Walks::long_read))]
fn extent_at<K: FsTreeKey>(id: u64, item: &Entry<'_, K>) -> Result<Option<FileExt>, RecFault>
    requires { K.shape.read item.now.key_bytes.now ≡ Some item.now.key }
    ensures { result ≡ extent_in id (record { key = item.now.key_bytes.now; value = option_map (λ v. v.now) item.now.value }) }
{
    extent_of(
        id,
        item.key.id(),
        item.key.kind(),
        item.key_bytes,
        item.value,
    )
}

// A walk that stands before the first extent of a stream.
fn open<K: FsTreeKey, S: BlockSource, N: Namer>(
    alloc: Global,
    src: &mut S,
    namer: N,
    root: u64,
    site: &Site,
    id: u64,
) -> Result<Cursor<K, N>, Stop<StreamStop>>
    requires site { IsSiteFor site.now (S.bytes_len src.old) }
    ensures site { IfOk result (λ cursor. site_of cursor ≡ site.now) }
    ensures root { IfOk result (λ cursor. root_of cursor ≡ root) }
    ensures tree { IfOk result (λ cursor. tree_of cursor ≡ tree_in K.shape site.now (N.named namer)) }
    ensures within { (image : List ℕ) → S.bytes src.old ≡ Some image → IfOk result (IsOn image) }
    ensures opened { (image : List ℕ) → S.bytes src.old ≡ Some image → IfOk result (λ cursor. IsCollected (tree_in K.shape site.now (N.named namer) image) root id (gapped_left_of cursor image) []) }
    ensures present { (image : List ℕ) → S.bytes src.old ≡ Some image → IfErr result (Tells (IsCollectStop site.now (tree_in K.shape site.now (N.named namer) image) root id) (HasFeature (tree_in K.shape site.now (N.named namer) image) root)) }
    ensures cause { IsErrOf result ReadFault → Rose (S.faults src.old) (S.faults src.new) }
    ensures kept { IsKept S.bytes S.bytes_len S.faults src.old src.new }
{
    let mut cursor = match Cursor::<K, N>::new(alloc, src, namer, root, *site) {
        Ok(cursor) => cursor,
        Err(stop) => return Err(raise(root, stop)),
    };
    let first = Rank {
        id,
        kind: kinds::FILE_EXTENT as u64,
        sub: 0,
    };
    match cursor.seek(src, &first) {
        Ok(()) => Ok(cursor),
        Err(stop) => Err(raise(root, stop)),
    }
}

// Moves a walk on: the next extent of the stream, or None behind the last.
fn step<K: FsTreeKey, S: BlockSource, N: Namer>(
    src: &mut S,
    cursor: &mut Cursor<K, N>,
    root: u64,
    site: &Site,
    id: u64,
) -> Result<Option<FileExt>, Stop<StreamStop>>
    requires site { IsSiteFor (site_of cursor.old) (S.bytes_len src.old) }
    requires root { root_of cursor.old ≡ root }
    ensures site { site_of cursor.new ≡ site_of cursor.old }
    ensures root { root_of cursor.new ≡ root_of cursor.old }
    ensures tree { tree_of cursor.new ≡ tree_of cursor.old }
    ensures within { (image : List ℕ) → S.bytes src.old ≡ Some image → IsOn image cursor.old → IsOn image cursor.new }
    ensures goes_on { (image : List ℕ) → S.bytes src.old ≡ Some image → (es : List FileExt) → IsCollected (tree_of cursor.old image) root id (gapped_left_of cursor.old image) es → IfOk result (GoesOn (tree_of cursor.old image) root id (gapped_left_of cursor.new image) es) }
    ensures present { (image : List ℕ) → S.bytes src.old ≡ Some image → IsOn image cursor.old → IfErr result (Tells (IsCollectStop site.now (tree_of cursor.old image) root id) (HasFeature (tree_of cursor.old image) root)) }
    ensures fuel { IfOk result (λ more. IsSome more → fuel_of cursor.new < fuel_of cursor.old) }
    ensures cause { IsErrOf result ReadFault → Rose (S.faults src.old) (S.faults src.new) }
    ensures kept { IsKept S.bytes S.bytes_len S.faults src.old src.new }
{
    match cursor.next(src) {
        Ok(true) => match extent_at(id, &cursor.item()) {
            Ok(extent) => Ok(extent),
            Err(why) => Err(Stop::Found(StreamStop::Extent { why })),
        },
        Ok(false) => Ok(None),
        Err(stop) => Err(raise(root, stop)),
    }
}

/// All extents of a stream, as they are laid. None where they aren't in order, which is so in no tree whose records are.
pub(crate) fn collect<K: FsTreeKey, S: BlockSource, N: Namer>(
    alloc: Global,
    src: &mut S,
    namer: N,
    root: u64,
    site: &Site,
    id: u64,
) -> Result<Option<Vec<FileExt>>, Stop<StreamStop>>
    requires site { IsSiteFor site.now (S.bytes_len src.old) }
    ensures laid { IfOk result (λ all. IfSome all (λ extents. AreLaid site.now extents.items)) }
    ensures all { (image : List ℕ) → S.bytes src.old ≡ Some image → IfOk result (λ all. MatchOption all (is_ordered K.shape (line_of (tree_in K.shape site.now (N.named namer) image) root) ≡ true → ⊥) (λ extents. AreCollected (tree_in K.shape site.now (N.named namer) image) root id extents.items)) }
    ensures present { (image : List ℕ) → S.bytes src.old ≡ Some image → IfErr result (Tells (IsCollectStop site.now (tree_in K.shape site.now (N.named namer) image) root id) (HasFeature (tree_in K.shape site.now (N.named namer) image) root)) }
    ensures cause { IsErrOf result ReadFault → Rose (S.faults src.old) (S.faults src.new) }
    ensures kept { IsKept S.bytes S.bytes_len S.faults src.old src.new }
{
    let mut cursor = match open::<K, S, N>(alloc, src, namer, root, site, id) {
        Ok(cursor) => cursor,
        Err(stop) => return Err(stop),
    };
    let mut extents = Vec::new(alloc);
    'walk: loop {
        let extent = match step(src, &mut cursor, root, site, id) {
            Ok(Some(extent)) => extent,
            Ok(None) => return Ok(Some(extents)),
            Err(stop) => return Err(stop),
        };
        match lay(site, &mut extents, extent) {
            Ok(true) => (),
            Ok(false) => return Ok(None),
            Err(stop) => return Err(stop),
        }
    }
}
