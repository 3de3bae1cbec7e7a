// An id without an inode, by a walk over the whole tree.
ghost use Rattle.std.specs.Prelude.{◌≡◌, ℕ, List, Some, true};
ghost use Rattle.apfs_model.specs.Counts.{Rose};
ghost use Rattle.apfs_model.specs.Kept.{IsKept};
ghost use Rattle.obj_base.specs.Stops.{Tells};
ghost use Rattle.obj_base.specs.declared.stop.Stop.TheVariants.{ReadFault};
ghost use Rattle.obj_base.specs.Site.{IsSiteFor};
ghost use Rattle.bt_cursor.specs.Line.{line_of};
ghost use Rattle.bt_cursor.specs.Order.{is_ordered};
ghost use Rattle.bt_cursor.specs.Flat.{flat_of};
ghost use Rattle.bt_cursor.specs.Faults.{HasFeature};
ghost use Rattle.vol_view.specs.Views.{view_tree};
ghost use Rattle.tree_export.specs.Faults.{LacksInode};
ghost use Rattle.tree_export.specs.Parts.{IsLookupFault, gather_raised};

use crate::ExportFault;
use blk_source::BlockSource;
use bt_cursor::{GatherFault, Nothing, gather};
use bt_keys::FsTreeKey;
use obj_base::{Site, Stop};
use omap_map::At;
use std::alloc::Global;
use vol_view::{View, Volume};

// Why the tree isn't whole, said of an id.
fn raise(id: u64, stop: Stop<GatherFault>) -> Stop<ExportFault>
    ensures { result ≡ gather_raised id stop }
{
    stop.map(|fault| match fault {
        GatherFault::Tree(why) => ExportFault::Walk { id, why },
        GatherFault::Refused { item: _ } => ExportFault::NoInode { id },
    })
}

/// Why a search has found no record of the inode of an id: the tree isn't whole, or there is none.
pub(crate) fn absent<K: FsTreeKey, S: BlockSource>(
    alloc: Global,
    src: &mut S,
    volume: &Volume,
    view: &View,
    site: &Site,
    id: u64,
) -> Stop<ExportFault>
    requires site { IsSiteFor site.now (S.bytes_len src.old) }
    ensures present { (image : List ℕ) → S.bytes src.old ≡ Some image → (is_ordered K.shape (line_of (view_tree K.shape image site.now volume.now view.now) view.now.root_oid) ≡ true → LacksInode (flat_of (view_tree K.shape image site.now volume.now view.now) view.now.root_oid) id) → Tells (IsLookupFault (view_tree K.shape image site.now volume.now view.now) view.now.root_oid id) (HasFeature (view_tree K.shape image site.now volume.now view.now) view.now.root_oid) result }
    ensures cause { result ≡ ReadFault → Rose (S.faults src.old) (S.faults src.new) }
    ensures kept { IsKept S.bytes S.bytes_len S.faults src.old src.new }
{
    let namer = At {
        omap: &volume.omap,
        xid: view.xid,
        blocks: site.blocks,
    };
    match gather::<K, S, At<'_>, Nothing>(alloc, src, namer, view.root_oid, site, Nothing) {
        Ok(_) => Stop::Found(ExportFault::NoInode { id }),
        Err(stop) => raise(id, stop),
    }
}
