// Opening a stream: its extents are collected from the tree of a view.
ghost use Rattle.std.specs.Prelude.{◌≡◌, ℕ, List, Some, true, IfOk, IfErr, IsErrOf};
ghost use Rattle.apfs_model.specs.Counts.{Rose};
ghost use Rattle.apfs_model.specs.Kept.{IsKept};
ghost use Rattle.obj_base.specs.Stops.{Tells, IsFree};
ghost use Rattle.obj_base.specs.declared.stop.Stop.TheVariants.{ReadFault};
ghost use Rattle.obj_base.specs.Site.{IsSiteFor};
ghost use Rattle.bt_cursor.specs.Faults.{HasFeature};
ghost use Rattle.bt_keys.specs.RecordKey.{file_extent_record};
ghost use Rattle.vol_view.specs.Views.{view_tree, view_flat, is_view_ordered};
ghost use Rattle.vol_view.specs.Placed.{has_all_records};
ghost use Rattle.file_extent.specs.Streams.{extents_for};
ghost use Rattle.file_extent.specs.Stops.{IsStreamStop};
ghost use Rattle.file_extent.specs.Opening.{IsStreamFeature};
ghost use Rattle.file_extent.specs.Laid.{AreLaid};
ghost use Rattle.file_extent.specs.Collected.{AreCollected, IsCollectStop};

use crate::StreamStop;
use crate::collect::collect;
use crate::disorder::disorder;
use blk_source::BlockSource;
use bt_keys::{FsKey, FsPlainKey, FsTreeKey};
use fs_record::FileExt;
use obj_base::{Site, Stop};
use omap_map::At;
use std::alloc::Global;
use vol_view::{View, Volume};

// All extents of a stream in a view whose records have keys of this kind.
fn in_view<K: FsTreeKey, S: BlockSource>(
    alloc: Global,
    src: &mut S,
    volume: &Volume,
    view: &View,
    site: &Site,
    id: u64,
) -> Result<Vec<FileExt>, Stop<StreamStop>>
    requires site { IsSiteFor site.now (S.bytes_len src.old) }
    ensures laid { IfOk result (λ extents. AreLaid site.now extents.items) }
    ensures all { (image : List ℕ) → S.bytes src.old ≡ Some image → IfOk result (λ extents. AreCollected (view_tree K.shape image site.now volume.now view.now) view.now.root_oid id extents.items) }
    ensures present { (image : List ℕ) → S.bytes src.old ≡ Some image → IfErr result (Tells (IsCollectStop site.now (view_tree K.shape image site.now volume.now view.now) view.now.root_oid id) (HasFeature (view_tree K.shape image site.now volume.now view.now) view.now.root_oid)) }
    ensures cause { IsErrOf result ReadFault → Rose (S.faults src.old) (S.faults src.new) }
    ensures kept { IsKept S.bytes S.bytes_len S.faults src.old src.new }
{
    let root = view.root_oid;
    let namer = At {
        omap: &volume.omap,
        xid: view.xid,
        blocks: site.blocks,
    };
    match collect::<K, S, At<'_>>(alloc, src, namer, root, site, id) {
        Ok(Some(extents)) => Ok(extents),
        Ok(None) => {
            let again = At {
                omap: &volume.omap,
                xid: view.xid,
                blocks: site.blocks,
            };
            Err(disorder::<K, S, At<'_>>(alloc, src, again, root, site))
        }
        Err(stop) => Err(stop),
    }
}

/// All extents of a stream in a view, by the kind of its keys.
pub(crate) fn extents_in<S: BlockSource>(
    alloc: Global,
    src: &mut S,
    volume: &Volume,
    view: &View,
    site: &Site,
    id: u64,
) -> Result<Vec<FileExt>, Stop<StreamStop>>
    requires site { IsSiteFor site.now (S.bytes_len src.old) }
    ensures laid { IfOk result (λ extents. AreLaid site.now extents.items) }
    ensures all { (image : List ℕ) → S.bytes src.old ≡ Some image → is_view_ordered image site.now volume.now view.now ≡ true → IfOk result (λ extents. extents_for id (view_flat image site.now volume.now view.now) ≡ extents.items) }
    ensures whole { (image : List ℕ) → S.bytes src.old ≡ Some image → is_view_ordered image site.now volume.now view.now ≡ true → IfOk result (λ extents. has_all_records image site.now volume.now view.now id file_extent_record ≡ true) }
    ensures present { (image : List ℕ) → S.bytes src.old ≡ Some image → IfErr result (Tells (IsStreamStop image site.now volume.now view.now id) (IsStreamFeature image site.now volume.now view.now)) }
    ensures cause { IsErrOf result ReadFault → Rose (S.faults src.old) (S.faults src.new) }
    ensures kept { IsKept S.bytes S.bytes_len S.faults src.old src.new }
{
    if volume.names.are_hashed() {
        let extents = match in_view::<FsKey, S>(alloc, src, volume, view, site, id) {
            Ok(extents) => extents,
            Err(stop) => return Err(stop),
        };
        return Ok(extents);
    }
    match in_view::<FsPlainKey, S>(alloc, src, volume, view, site, id) {
        Ok(extents) => Ok(extents),
        Err(stop) => Err(stop),
    }
}
