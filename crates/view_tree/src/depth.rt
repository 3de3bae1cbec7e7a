// What is under a directory of a view.
ghost use Rattle.std.specs.Prelude.{◌≡◌, ℕ, List, Some, IfOk, IfErr, IsErrOf};
ghost use Rattle.apfs_model.specs.Counts.{Rose};
ghost use Rattle.apfs_model.specs.Kept.{IsKept};
ghost use Rattle.obj_base.specs.declared.stop.Stop.TheVariants.{Found, ReadFault};
ghost use Rattle.obj_base.specs.Site.{IsSiteFor};
ghost use Rattle.view_rules.specs.Rules.{view_facts};
ghost use Rattle.view_rules.specs.declared.fault.TreeFault.{TreeFault};
ghost use Rattle.view_tree.specs.Rows.{IsShownTwice, HaveMetFiles};
ghost use Rattle.path_search.specs.Needs.{RestsOn};
ghost use Rattle.view_tree.specs.Needs.{TreeNeeds};
ghost use Rattle.view_tree.specs.Tree as spec;
ghost use Rattle.path_search.specs.Stops.{IsLawful};
ghost use Rattle.path_search.specs.Calls.{IsGiven, IsStopThere};
ghost use Rattle.view_tree.specs.Told.{IsTold};
ghost use Rattle.path_search.specs.declared.stop.PathStop.TheVariants as stops;

use crate::kept::KeptRows;
use crate::under::tree_in;
use apfs_model::Bytes;
use blk_source::BlockSource;
use obj_base::{Site, Stop};
use path_walk::{PathStop, Target, gather_view};
use std::alloc::Global;
use vol_view::{View, Volume};

/// The rows of what is under a directory of a view, which `tree` gives with their paths. They are seen as what `tree` gives.
pub fn tree_rows<S: BlockSource>(
    alloc: Global,
    src: &mut S,
    volume: &Volume,
    view: &View,
    site: &Site,
    path: &str,
) -> Result<KeptRows, Stop<PathStop>>
    requires site { IsSiteFor site.now (S.bytes_len src.old) }
    ensures exact { (image : List ℕ) → S.bytes src.old ≡ Some image → IsLawful image site.now volume.now view.now → IsGiven (λ rows. rows) (spec.tree (view_facts image site.now volume.now view.now) path.now) result }
    ensures present { (image : List ℕ) → S.bytes src.old ≡ Some image → IfErr result (IsStopThere image site.now volume.now view.now) }
    ensures told { (image : List ℕ) → S.bytes src.old ≡ Some image → (fault : TreeFault) → IsErrOf result (Found (stops.Fault fault)) → IsTold (view_facts image site.now volume.now view.now) path.now fault }
    ensures clear { (image : List ℕ) → S.bytes src.old ≡ Some image → IfOk result (λ rows. (id : ℕ) → IsShownTwice (view_facts image site.now volume.now view.now) path.now rows id → ⊥) }
    ensures files { (image : List ℕ) → S.bytes src.old ≡ Some image → IfOk result (λ rows. HaveMetFiles (view_facts image site.now volume.now view.now) path.now rows) }
    ensures rests { (image : List ℕ) → S.bytes src.old ≡ Some image → RestsOn (λ rows. rows) (spec.tree (view_facts image site.now volume.now view.now) path.now) (TreeNeeds image site.now volume.now view.now path.now) result }
    ensures cause { IsErrOf result ReadFault → Rose (S.faults src.old) (S.faults src.new) }
    ensures kept { IsKept S.bytes S.bytes_len S.faults src.old src.new }
{
    let files = match gather_view(alloc, src, volume, view, site) {
        Ok(files) => files,
        Err(stop) => return Err(stop),
    };
    match tree_in(alloc, files, volume.names, view, path) {
        Ok(rows) => Ok(rows),
        Err(stop) => Err(stop),
    }
}

/// What is under a directory of a view, depth first, each directory before what it has, in the order of `list`: for each row
/// the names that lead to it from that directory on, as they are shown and joined by slashes, and its target. Of what is no
/// directory it gives the one row of it. The answers are those of `find`. A reserved directory that is met on the way isn't
/// entered. The whole tree of the view is gone through once. Where two entries, those of the path among them, lead to one
/// directory that is entered, `DirNames` comes for that directory.
pub fn tree<S: BlockSource>(
    alloc: Global,
    src: &mut S,
    volume: &Volume,
    view: &View,
    site: &Site,
    path: &str,
) -> Result<Vec<(Bytes, Target)>, Stop<PathStop>>
    requires site { IsSiteFor site.now (S.bytes_len src.old) }
    ensures exact { (image : List ℕ) → S.bytes src.old ≡ Some image → IsLawful image site.now volume.now view.now → IsGiven (λ rows. rows.items) (spec.tree (view_facts image site.now volume.now view.now) path.now) result }
    ensures present { (image : List ℕ) → S.bytes src.old ≡ Some image → IfErr result (IsStopThere image site.now volume.now view.now) }
    ensures told { (image : List ℕ) → S.bytes src.old ≡ Some image → (fault : TreeFault) → IsErrOf result (Found (stops.Fault fault)) → IsTold (view_facts image site.now volume.now view.now) path.now fault }
    ensures clear { (image : List ℕ) → S.bytes src.old ≡ Some image → IfOk result (λ rows. (id : ℕ) → IsShownTwice (view_facts image site.now volume.now view.now) path.now rows.items id → ⊥) }
    ensures files { (image : List ℕ) → S.bytes src.old ≡ Some image → IfOk result (λ rows. HaveMetFiles (view_facts image site.now volume.now view.now) path.now rows.items) }
    ensures rests { (image : List ℕ) → S.bytes src.old ≡ Some image → RestsOn (λ rows. rows.items) (spec.tree (view_facts image site.now volume.now view.now) path.now) (TreeNeeds image site.now volume.now view.now path.now) result }
    ensures cause { IsErrOf result ReadFault → Rose (S.faults src.old) (S.faults src.new) }
    ensures kept { IsKept S.bytes S.bytes_len S.faults src.old src.new }
{
    let rows = match tree_rows(alloc, src, volume, view, site, path) {
        Ok(rows) => rows,
        Err(stop) => return Err(stop),
    };
    match rows.told(alloc) {
        Ok(rows) => Ok(rows),
        Err(stop) => Err(stop),
    }
}
