// Why the records of a tree aren't in order, by a walk over all of it.
ghost use Rattle.std.specs.Prelude.{◌≡◌, ℕ, List, Some, true};
ghost use Rattle.apfs_model.specs.Counts.{Rose};
ghost use Rattle.apfs_model.specs.Kept.{IsKept};
ghost use Rattle.obj_base.specs.Stops.{Tells};
ghost use Rattle.obj_base.specs.declared.stop.Stop.TheVariants.{ReadFault};
ghost use Rattle.obj_base.specs.Site.{IsSiteFor};
ghost use Rattle.bt_cursor.specs.Tree.{tree_in};
ghost use Rattle.bt_cursor.specs.Line.{line_of};
ghost use Rattle.bt_cursor.specs.Order.{is_ordered};
ghost use Rattle.bt_cursor.specs.Faults.{HasFeature};
ghost use Rattle.file_extent.specs.Collected.{IsCollectStop, gather_raised};

use crate::StreamStop;
use blk_source::BlockSource;
use bt_cursor::{GatherFault, Namer, Nothing, gather};
use bt_keys::FsTreeKey;
use obj_base::{Site, Stop};
use std::alloc::Global;

// Why the tree isn't whole, said of a stream; `root` is the oid of its root.
fn raise(root: u64, stop: Stop<GatherFault>) -> Stop<StreamStop>
    ensures { result ≡ gather_raised root stop }
{
    stop.map(|fault| match fault {
        GatherFault::Tree(why) => StreamStop::Walk { root, why },
        GatherFault::Refused { item: _ } => StreamStop::Order,
    })
}

/// Why the records of a tree aren't in order.
pub(crate) fn disorder<K: FsTreeKey, S: BlockSource, N: Namer>(
    alloc: Global,
    src: &mut S,
    namer: N,
    root: u64,
    site: &Site,
) -> Stop<StreamStop>
    requires site { IsSiteFor site.now (S.bytes_len src.old) }
    ensures present { (image : List ℕ) → S.bytes src.old ≡ Some image → (id : ℕ) → (is_ordered K.shape (line_of (tree_in K.shape site.now (N.named namer) image) root) ≡ true → ⊥) → Tells (IsCollectStop site.now (tree_in K.shape site.now (N.named namer) image) root id) (HasFeature (tree_in K.shape site.now (N.named namer) image) root) result }
    ensures cause { result ≡ ReadFault → Rose (S.faults src.old) (S.faults src.new) }
    ensures kept { IsKept S.bytes S.bytes_len S.faults src.old src.new }
{
    match gather::<K, S, N, Nothing>(alloc, src, namer, root, site, Nothing) {
        Ok(_) => Stop::Found(StreamStop::Order),
        Err(stop) => raise(root, stop),
    }
}
