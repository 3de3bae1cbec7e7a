// A record that a search met and that can't be read.
ghost use Rattle.std.specs.Prelude.{◌≡◌, ℕ, List, Some};
ghost use Rattle.apfs_model.specs.Counts.{Rose};
ghost use Rattle.apfs_model.specs.Kept.{IsKept};
ghost use Rattle.obj_base.specs.declared.stop.Stop.TheVariants.{ReadFault};
ghost use Rattle.obj_base.specs.Site.{IsSiteFor};
ghost use Rattle.view_rules.specs.Rules.{HasRecords};
ghost use Rattle.vol_view.specs.Views.{view_line};
ghost use Rattle.path_search.specs.Calls.{IsStopThere, IsNoAnswer};

use blk_source::BlockSource;
use fs_record::RecFault;
use obj_base::{Site, Stop};
use path_walk::{PathStop, refusal};
use std::alloc::Global;
use view_rules::TreeFault;
use vol_view::{View, Volume};

/// Why not all records of a view can be read, after one was refused: the whole tree is gone through, for the number of its item.
pub(crate) fn refused<S: BlockSource>(
    alloc: Global,
    src: &mut S,
    volume: &Volume,
    view: &View,
    site: &Site,
) -> Stop<PathStop>
    requires site { IsSiteFor site.now (S.bytes_len src.old) }
    ensures present { (image : List ℕ) → S.bytes src.old ≡ Some image → (HasRecords volume.now.names (view_line image site.now volume.now view.now) → ⊥) → IsStopThere image site.now volume.now view.now result }
    ensures unanswered { IsNoAnswer result }
    ensures cause { result ≡ ReadFault → Rose (S.faults src.old) (S.faults src.new) }
    ensures kept { IsKept S.bytes S.bytes_len S.faults src.old src.new }
{
    match refusal(alloc, src, volume, view, site) {
        Some(stop) => stop,
        // The source has told other bytes than before.
        None => Stop::Found(PathStop::Fault(TreeFault::Record {
            slot: view.slot,
            xid: view.xid,
            item: 0,
            why: RecFault::Length,
        })),
    }
}
