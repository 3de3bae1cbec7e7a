// The nodes and the extents of a view's files.
ghost use Rattle.std.specs.Prelude.{◌≡◌, ℕ, List, Some, false, IfOk, IfErr, IsErrOf};
ghost use Rattle.std.specs.List.{list_any};
ghost use Rattle.apfs_model.specs.Counts.{Rose};
ghost use Rattle.apfs_model.specs.Kept.{IsKept};
ghost use Rattle.obj_base.specs.Site.{IsSiteFor};
ghost use Rattle.obj_base.specs.Stops.{Tells, IsFree};
ghost use Rattle.obj_base.specs.declared.stop.Stop.TheVariants.{ReadFault};
ghost use Rattle.bt_cursor.specs.Faults.{HasFeature};
ghost use Rattle.bt_cursor.specs.Gathered.{IsGatherFault};
ghost use Rattle.bt_cursor.specs.WholeTree.{IsWhole};
ghost use Rattle.bt_cursor.specs.Line.{line_of};
ghost use Rattle.fs_name.specs.Normal.{are_hashed};
ghost use Rattle.vol_view.specs.Views.{view_tree, IsViewFeature};
ghost use Rattle.use_report.specs.Gathered.{is_refused};
ghost use Rattle.use_report.specs.Files.{AreOfTree, AreOfView, AreWholeFiles, IsViewStop};

use crate::keep::Kept;
use blk_source::BlockSource;
use bt_cursor::{GatherFault, gather};
use bt_keys::{FsKey, FsPlainKey, FsTreeKey};
use fs_record::FileExt;
use obj_base::{Site, Stop};
use omap_map::At;
use std::alloc::Global;
use vol_view::{View, Volume};

/// What is known of a view's files.
#[derive(Drop)]
pub(crate) struct Files {
    /// The oids of the nodes below the root, in the order of the Line.
    pub below: Vec<u64>,
    /// The extents, in record order.
    pub extents: Vec<FileExt>,
}

// A walk over a view's tree under keys of a kind.
fn walk<K: FsTreeKey, S: BlockSource>(
    alloc: Global,
    src: &mut S,
    volume: &Volume,
    view: &View,
    site: &Site,
) -> Result<Files, Stop<GatherFault>>
    requires site { IsSiteFor site.now (S.bytes_len src.old) }
    ensures clear { (image : List ℕ) → S.bytes src.old ≡ Some image → IfOk result (AreOfTree (view_tree K.shape image site.now volume.now view.now) view.now.root_oid) }
    ensures present { (image : List ℕ) → S.bytes src.old ≡ Some image → IfErr result (Tells (IsGatherFault (view_tree K.shape image site.now volume.now view.now) view.now.root_oid is_refused) (HasFeature (view_tree K.shape image site.now volume.now view.now) view.now.root_oid)) }
    ensures exact { (image : List ℕ) → S.bytes src.old ≡ Some image → IsWhole (view_tree K.shape image site.now volume.now view.now) view.now.root_oid → list_any is_refused (line_of (view_tree K.shape image site.now volume.now view.now) view.now.root_oid) ≡ false → IfErr result IsFree }
    ensures cause { IsErrOf result ReadFault → Rose (S.faults src.old) (S.faults src.new) }
    ensures kept { IsKept S.bytes S.bytes_len S.faults src.old src.new }
{
    let none = Kept::<K>::new(alloc);
    let namer = At {
        omap: &volume.omap,
        xid: view.xid,
        blocks: site.blocks,
    };
    let kept = match gather::<K, S, At<'_>, Kept<K>>(alloc, src, namer, view.root_oid, site, none) {
        Ok(kept) => kept,
        Err(stop) => return Err(stop),
    };
    let Kept {
        below,
        extents,
        kind: _,
    } = kept;
    Ok(Files { below, extents })
}

/// A walk over the files of a view: its nodes, and its extents.
pub(crate) fn walk_files<S: BlockSource>(
    alloc: Global,
    src: &mut S,
    volume: &Volume,
    view: &View,
    site: &Site,
) -> Result<Files, Stop<GatherFault>>
    requires site { IsSiteFor site.now (S.bytes_len src.old) }
    ensures clear { (image : List ℕ) → S.bytes src.old ≡ Some image → IfOk result (AreOfView image site.now volume.now view.now) }
    ensures present { (image : List ℕ) → S.bytes src.old ≡ Some image → IfErr result (Tells (IsViewStop image site.now volume.now view.now) (IsViewFeature image site.now volume.now view.now)) }
    ensures exact { (image : List ℕ) → S.bytes src.old ≡ Some image → AreWholeFiles image site.now volume.now view.now → IfErr result IsFree }
    ensures cause { IsErrOf result ReadFault → Rose (S.faults src.old) (S.faults src.new) }
    ensures kept { IsKept S.bytes S.bytes_len S.faults src.old src.new }
{
    if volume.names.are_hashed() {
        match walk::<FsKey, S>(alloc, src, volume, view, site) {
            Ok(files) => Ok(files),
            Err(stop) => Err(stop),
        }
    } else {
        match walk::<FsPlainKey, S>(alloc, src, volume, view, site) {
            Ok(files) => Ok(files),
            Err(stop) => Err(stop),
        }
    }
}
