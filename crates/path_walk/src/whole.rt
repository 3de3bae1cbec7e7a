// A whole view in memory.
ghost use Rattle.std.specs.Prelude.{◌≡◌, ℕ, List, Some, None, IfOk, IfErr, IfSome, IsErrOf};
ghost use Rattle.apfs_model.specs.Counts.{Rose};
ghost use Rattle.apfs_model.specs.Kept.{IsKept};
ghost use Rattle.obj_base.specs.declared.stop.Stop.TheVariants.{Found, ReadFault};
ghost use Rattle.obj_base.specs.Stops.{raised};
ghost use Rattle.obj_base.specs.Site.{IsSiteFor};
ghost use Rattle.vol_view.specs.Views.{view_line};
ghost use Rattle.view_rules.specs.Rules.{view_facts, HasRecords};
ghost use Rattle.view_facts.specs.Stops.{IsOfRecords};
ghost use Rattle.path_search.specs.Calls.{IsStopThere, of_walk, IsNoAnswer};
ghost use Rattle.path_search.specs.Needs.{HasAll};
ghost use Rattle.path_search.specs.Parts.{Remembers};
ghost use Rattle.path_search.specs.declared.stop.PathStop.TheVariants as stops;
ghost use Rattle.view_rules.specs.declared.fault.TreeFault.{TreeFault};

use crate::files::Files;
use blk_source::BlockSource;
use bt_cursor::WalkFault;
use obj_base::{Site, Stop};
use path_search::PathStop;
use std::alloc::Global;
use view_facts::{Facts, fault_of, view_files};
use view_rules::TreeFault;
use vol_view::{View, Volume};

/// Why a walk stops, said of a path.
#[tactic(auto, using(path_search::proofs::Known::raised_unanswered))]
pub fn raise(view: &View, stop: Stop<WalkFault>) -> Stop<PathStop>
    ensures raised { result ≡ raised (of_walk view.now) stop }
    ensures unanswered { IsNoAnswer result }
{
    stop.map(|why| PathStop::Fault(fault_of(view, why)))
}

// Why the records of a view can't all be read, said of a path.
fn of_path(stop: Stop<TreeFault>) -> Stop<PathStop>
    ensures { result ≡ raised stops.Fault stop }
{
    stop.map(PathStop::Fault)
}

// The entries and the inodes of some facts.
fn files_of(facts: Facts) -> Files
    ensures entries { result.entries.items ≡ facts.entries }
    ensures inodes { result.inodes.items ≡ facts.inodes }
{
    Files {
        entries: facts.entries,
        inodes: facts.inodes,
    }
}

/// The entries and the inodes of a view whose tree is whole and whose records can all be read.
pub fn gather_view<S: BlockSource>(
    alloc: Global,
    src: &mut S,
    volume: &Volume,
    view: &View,
    site: &Site,
) -> Result<Files, Stop<PathStop>>
    requires site { IsSiteFor site.now (S.bytes_len src.old) }
    ensures clear { (image : List ℕ) → S.bytes src.old ≡ Some image → IfOk result (λ files. Remembers (view_facts image site.now volume.now view.now) files.entries.items files.inodes.items) }
    ensures rests { (image : List ℕ) → S.bytes src.old ≡ Some image → IfOk result (λ files. HasAll image site.now volume.now view.now) }
    ensures present { (image : List ℕ) → S.bytes src.old ≡ Some image → IfErr result (IsStopThere image site.now volume.now view.now) }
    ensures unanswered { IfErr result IsNoAnswer }
    ensures walked { (fault : TreeFault) → IsErrOf result (Found (stops.Fault fault)) → IsOfRecords view.now fault }
    ensures cause { IsErrOf result ReadFault → Rose (S.faults src.old) (S.faults src.new) }
    ensures kept { IsKept S.bytes S.bytes_len S.faults src.old src.new }
{
    match view_files(alloc, src, volume, view, site) {
        Ok(facts) => Ok(files_of(facts)),
        Err(stop) => Err(of_path(stop)),
    }
}

/// Why the records of a view can't all be read, by a walk over its whole tree: a fault of the tree, or `Record`; None where they can
/// all be read.
pub fn refusal<S: BlockSource>(
    alloc: Global,
    src: &mut S,
    volume: &Volume,
    view: &View,
    site: &Site,
) -> Option<Stop<PathStop>>
    requires site { IsSiteFor site.now (S.bytes_len src.old) }
    ensures clear { (image : List ℕ) → S.bytes src.old ≡ Some image → result ≡ None → HasRecords volume.now.names (view_line image site.now volume.now view.now) }
    ensures present { (image : List ℕ) → S.bytes src.old ≡ Some image → IfSome result (IsStopThere image site.now volume.now view.now) }
    ensures unanswered { IfSome result IsNoAnswer }
    ensures cause { result ≡ Some ReadFault → Rose (S.faults src.old) (S.faults src.new) }
    ensures kept { IsKept S.bytes S.bytes_len S.faults src.old src.new }
{
    match gather_view(alloc, src, volume, view, site) {
        Ok(_) => None,
        Err(stop) => Some(stop),
    }
}
