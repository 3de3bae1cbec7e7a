// What the inode of an id gives a folder.
ghost use Rattle.std.specs.Prelude.{◌≡◌, ℕ, true, List, Some, IfOk, IfErr, IsErrOf};
ghost use Rattle.apfs_model.specs.Counts.{Rose};
ghost use Rattle.apfs_model.specs.Kept.{IsKept};
ghost use Rattle.obj_base.specs.Stops.{Tells, raised};
ghost use Rattle.obj_base.specs.declared.stop.Stop.TheVariants.{ReadFault};
ghost use Rattle.obj_base.specs.Site.{IsSiteFor};
ghost use Rattle.bt_cursor.specs.Flat.{flat_of};
ghost use Rattle.bt_cursor.specs.Line.{line_of};
ghost use Rattle.bt_cursor.specs.Order.{is_ordered};
ghost use Rattle.bt_cursor.specs.Faults.{IsNodeFault, HasFeature};
ghost use Rattle.vol_view.specs.Views.{view_tree, view_flat, is_view_ordered, IsViewFeature};
ghost use Rattle.tree_export.specs.Stopping.{IsFaultOf};
ghost use Rattle.tree_export.specs.Parts.{TellsOrdered, TellsRecord, IsContentIn, HasContent, IsLookupFault};
ghost use Rattle.tree_export.specs.declared.stop.ExportFault.TheVariants as stops;

use crate::ExportFault;
use crate::absent::absent;
use crate::content::Content;
use crate::search::{Sought, find_inode};
use blk_source::BlockSource;
use bt_cursor::WalkFault;
use bt_keys::{FsKey, FsPlainKey, FsTreeKey};
use obj_base::{Site, Stop};
use path_search::open_view;
use std::alloc::Global;
use vol_view::{View, Volume};

// Why a walk stops, said of an id.
fn raise(id: u64, stop: Stop<WalkFault>) -> Stop<ExportFault>
    ensures { result ≡ raised (stops.Walk id) stop }
{
    stop.map(|why| ExportFault::Walk { id, why })
}

// What is found of the inode of an id, by the keys of the view's tree.
fn search<K: FsTreeKey, S: BlockSource>(
    alloc: Global,
    src: &mut S,
    volume: &Volume,
    view: &View,
    site: &Site,
    id: u64,
) -> Result<Sought, Stop<WalkFault>>
    requires site { IsSiteFor site.now (S.bytes_len src.old) }
    ensures ordered { (image : List ℕ) → S.bytes src.old ≡ Some image → is_ordered K.shape (line_of (view_tree K.shape image site.now volume.now view.now) view.now.root_oid) ≡ true → IfOk result (TellsOrdered (flat_of (view_tree K.shape image site.now volume.now view.now) view.now.root_oid) id) }
    ensures record { (image : List ℕ) → S.bytes src.old ≡ Some image → IfOk result (TellsRecord (flat_of (view_tree K.shape image site.now volume.now view.now) view.now.root_oid) id) }
    ensures present { (image : List ℕ) → S.bytes src.old ≡ Some image → IfErr result (Tells (IsNodeFault (view_tree K.shape image site.now volume.now view.now) view.now.root_oid) (HasFeature (view_tree K.shape image site.now volume.now view.now) view.now.root_oid)) }
    ensures cause { IsErrOf result ReadFault → Rose (S.faults src.old) (S.faults src.new) }
    ensures kept { IsKept S.bytes S.bytes_len S.faults src.old src.new }
{
    let mut cursor = match open_view::<K, S>(alloc, src, volume, view, site) {
        Ok(cursor) => cursor,
        Err(stop) => return Err(stop),
    };
    match find_inode(src, &mut cursor, id) {
        Ok(sought) => Ok(sought),
        Err(stop) => Err(stop),
    }
}

// The content of the inode of an id, by the keys of the view's tree.
fn content_by<K: FsTreeKey, S: BlockSource>(
    alloc: Global,
    src: &mut S,
    volume: &Volume,
    view: &View,
    site: &Site,
    id: u64,
) -> Result<Content, Stop<ExportFault>>
    requires site { IsSiteFor site.now (S.bytes_len src.old) }
    ensures found { (image : List ℕ) → S.bytes src.old ≡ Some image → is_ordered K.shape (line_of (view_tree K.shape image site.now volume.now view.now) view.now.root_oid) ≡ true → IfOk result (IsContentIn (flat_of (view_tree K.shape image site.now volume.now view.now) view.now.root_oid) id) }
    ensures record { (image : List ℕ) → S.bytes src.old ≡ Some image → IfOk result (HasContent (flat_of (view_tree K.shape image site.now volume.now view.now) view.now.root_oid) id) }
    ensures present { (image : List ℕ) → S.bytes src.old ≡ Some image → IfErr result (Tells (IsLookupFault (view_tree K.shape image site.now volume.now view.now) view.now.root_oid id) (HasFeature (view_tree K.shape image site.now volume.now view.now) view.now.root_oid)) }
    ensures cause { IsErrOf result ReadFault → Rose (S.faults src.old) (S.faults src.new) }
    ensures kept { IsKept S.bytes S.bytes_len S.faults src.old src.new }
{
    let sought = match search::<K, S>(alloc, src, volume, view, site, id) {
        Ok(sought) => sought,
        Err(stop) => return Err(raise(id, stop)),
    };
    match sought {
        Sought::One(content) => Ok(content),
        Sought::Refused(why) => Err(Stop::Found(ExportFault::Value { id, why })),
        Sought::Missing => Err(absent::<K, S>(alloc, src, volume, view, site, id)),
    }
}

/// The content of the inode of an id. Where a search finds no record of it the whole tree is gone through, to see that it is
/// whole.
pub(crate) fn content_for<S: BlockSource>(
    alloc: Global,
    src: &mut S,
    volume: &Volume,
    view: &View,
    site: &Site,
    id: u64,
) -> Result<Content, Stop<ExportFault>>
    requires site { IsSiteFor site.now (S.bytes_len src.old) }
    ensures found { (image : List ℕ) → S.bytes src.old ≡ Some image → is_view_ordered image site.now volume.now view.now ≡ true → IfOk result (IsContentIn (view_flat image site.now volume.now view.now) id) }
    ensures record { (image : List ℕ) → S.bytes src.old ≡ Some image → IfOk result (HasContent (view_flat image site.now volume.now view.now) id) }
    ensures present { (image : List ℕ) → S.bytes src.old ≡ Some image → IfErr result (Tells (IsFaultOf image site.now volume.now view.now id) (IsViewFeature image site.now volume.now view.now)) }
    ensures cause { IsErrOf result ReadFault → Rose (S.faults src.old) (S.faults src.new) }
    ensures kept { IsKept S.bytes S.bytes_len S.faults src.old src.new }
{
    if volume.names.are_hashed() {
        match content_by::<FsKey, S>(alloc, src, volume, view, site, id) {
            Ok(content) => Ok(content),
            Err(stop) => Err(stop),
        }
    } else {
        match content_by::<FsPlainKey, S>(alloc, src, volume, view, site, id) {
            Ok(content) => Ok(content),
            Err(stop) => Err(stop),
        }
    }
}
