// How a view differs from the one before.
ghost use Rattle.std.specs.Prelude.{◌≡◌, ◌+◌, ◌≤◌, ℕ, List, length, Some, IfOk, IfErr, IfSome, IsErrOf};
ghost use Rattle.apfs_model.specs.Counts.{Rose};
ghost use Rattle.apfs_model.specs.Kept.{IsKept};
ghost use Rattle.obj_base.specs.Site.{IsSiteFor};
ghost use Rattle.obj_base.specs.Stops.{IsFree};
ghost use Rattle.obj_base.specs.declared.stop.Stop.TheVariants.{ReadFault};
ghost use Rattle.bt_keys.specs.Shapes.{fs_shape};
ghost use Rattle.vol_view.specs.Placed.{view_nodes};
ghost use Rattle.view_change.specs.declared.leaf.Leaf.{Leaf};
ghost use Rattle.view_change.specs.Shared.{ShareLeaves};
ghost use Rattle.view_change.specs.Kept.{facts_of, leaves_of, IsKeptView};
ghost use Rattle.view_change.specs.Changing.{HasDifference};
ghost use Rattle.view_change.specs.Difference.{view_places, view_leaves, new_nodes, IsKeptOf};

use crate::{Changed, Changing, KeptView, walk_leaves};
use blk_source::BlockSource;
use bt_keys::FsKey;
use obj_base::{Site, Stop};
use omap_map::At;
use std::alloc::Global;
use vol_view::{View, Volume};

/// What is kept of a view, and how it differs from the one before, of which `before` is kept, where that is followed. A leaf that is found in the view before isn't read,
/// unless fewer than half of the leaves of either view are in both: then the difference isn't followed. None where it isn't found: the names of the volume aren't hashed, the root is a leaf, the tree isn't whole, or a record can't be read.
/// `reads_new`: of a view that shares leaves with the one before, each node is read at most once but for those leaves that the one before has.
pub fn difference<S: BlockSource>(
    alloc: Global,
    src: &mut S,
    volume: &Volume,
    view: &View,
    site: &Site,
    before: KeptView,
) -> Result<Option<Changed>, Stop<()>>
    requires site { IsSiteFor site.now (S.bytes_len src.old) }
    ensures after { (image : List ℕ) (leaves : List Leaf) → S.bytes src.old ≡ Some image → IsKeptView fs_shape site.now image volume.now.names leaves before → IfOk result (λ found. IfSome found (λ changed. IsKeptOf image site.now volume.now view.now changed.after)) }
    ensures differs { (image : List ℕ) (leaves : List Leaf) → S.bytes src.old ≡ Some image → IsKeptView fs_shape site.now image volume.now.names leaves before → IfOk result (λ found. IfSome found (λ changed. IfSome changed.change (HasDifference (facts_of before) (facts_of changed.after)))) }
    ensures reads { (image : List ℕ) (leaves : List Leaf) → S.bytes src.old ≡ Some image → IsKeptView fs_shape site.now image volume.now.names leaves before → IfOk result (λ found. IfSome found (λ changed. S.reads src.new ≤ S.reads src.old + length (view_nodes image site.now volume.now view.now))) }
    ensures reads_met { (image : List ℕ) → S.bytes src.old ≡ Some image → S.reads src.new ≤ S.reads src.old + length (view_places image site.now volume.now view.now) }
    ensures reads_new { (image : List ℕ) → S.bytes src.old ≡ Some image → ShareLeaves (leaves_of before) (view_leaves image site.now volume.now view.now) → IfOk result (λ found. IfSome found (λ changed. S.reads src.new ≤ S.reads src.old + new_nodes image site.now volume.now view.now (leaves_of before))) }
    ensures free { IfErr result IsFree }
    ensures cause { IsErrOf result ReadFault → Rose (S.faults src.old) (S.faults src.new) }
    ensures kept { IsKept S.bytes S.bytes_len S.faults src.old src.new }
{
    if !volume.names.are_hashed() {
        return Ok(None);
    }
    let namer = At {
        omap: &volume.omap,
        xid: view.xid,
        blocks: site.blocks,
    };
    let changing = Changing::new::<FsKey>(alloc, before);
    let Some(changing) = walk_leaves::<FsKey, S, At<'_>, Changing>(
        alloc,
        src,
        &namer,
        site,
        view.root_oid,
        changing,
    )?
    else {
        return Ok(None);
    };
    Ok(Some(changing.finish::<FsKey>()?))
}

/// What is kept of a view, where its tree is whole; None as for `difference`.
pub fn keep<S: BlockSource>(
    alloc: Global,
    src: &mut S,
    volume: &Volume,
    view: &View,
    site: &Site,
) -> Result<Option<KeptView>, Stop<()>>
    requires site { IsSiteFor site.now (S.bytes_len src.old) }
    ensures clear { (image : List ℕ) → S.bytes src.old ≡ Some image → IfOk result (λ found. IfSome found (IsKeptOf image site.now volume.now view.now)) }
    ensures reads_met { (image : List ℕ) → S.bytes src.old ≡ Some image → S.reads src.new ≤ S.reads src.old + length (view_places image site.now volume.now view.now) }
    ensures free { IfErr result IsFree }
    ensures cause { IsErrOf result ReadFault → Rose (S.faults src.old) (S.faults src.new) }
    ensures kept { IsKept S.bytes S.bytes_len S.faults src.old src.new }
{
    let none = KeptView::none::<FsKey>(alloc, volume.names);
    match difference(alloc, src, volume, view, site, none) {
        Ok(Some(changed)) => Ok(Some(changed.after)),
        Ok(None) => Ok(None),
        Err(stop) => Err(stop),
    }
}
