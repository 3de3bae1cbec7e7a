// Where a path leads.
ghost use Rattle.std.specs.Prelude.{◌≡◌, ℕ, List, Some, true, IfOk, IfErr, IsErrOf};
ghost use Rattle.apfs_model.specs.Counts.{Rose};
ghost use Rattle.apfs_model.specs.Kept.{IsKept};
ghost use Rattle.obj_base.specs.declared.stop.Stop.TheVariants.{ReadFault};
ghost use Rattle.obj_base.specs.Stops.{Tells};
ghost use Rattle.obj_base.specs.Site.{IsSiteFor};
ghost use Rattle.bt_cursor.specs.Flat.{flat_of};
ghost use Rattle.bt_cursor.specs.Line.{line_of};
ghost use Rattle.bt_cursor.specs.Order.{is_ordered};
ghost use Rattle.bt_cursor.specs.Faults.{IsNodeFault, HasFeature};
ghost use Rattle.fs_name.specs.Normal.{are_hashed};
ghost use Rattle.vol_view.specs.Views.{view_tree, is_view_ordered};
ghost use Rattle.view_rules.specs.Facts.{facts_in};
ghost use Rattle.view_rules.specs.Rules.{view_facts};
ghost use Rattle.path_search.specs.Found.{found, target_found};
ghost use Rattle.path_search.specs.Stops.{IsLawful};
ghost use Rattle.path_search.specs.Calls.{IsGiven, IsStopThere, IsNoAnswer};
ghost use Rattle.path_search.specs.Needs.{HasEntriesOf, PathNeeds, RestsOn};
ghost use Rattle.path_search.specs.Parts.{Leads, NeedsIn, WhereLed};

use crate::by_memory;
use crate::whole::{gather_view, raise};
use blk_source::BlockSource;
use bt_cursor::WalkFault;
use bt_keys::{FsKey, FsPlainKey, FsTreeKey};
use obj_base::{Site, Stop};
use path_search::{Onward, PathStop, Place, Target, by_search};
use std::alloc::Global;
use vol_view::{View, Volume};

// Where a path leads, by searches, and by the keys of the view's tree.
fn search_by<K: FsTreeKey, S: BlockSource>(
    alloc: Global,
    src: &mut S,
    volume: &Volume,
    view: &View,
    site: &Site,
    path: &str,
) -> Result<Onward<Place>, Stop<WalkFault>>
    requires site { IsSiteFor site.now (S.bytes_len src.old) }
    requires hashed { are_hashed volume.now.names ≡ K.HASHED }
    ensures leads { (image : List ℕ) → S.bytes src.old ≡ Some image → is_ordered K.shape (line_of (view_tree K.shape image site.now volume.now view.now) view.now.root_oid) ≡ true → IfOk result (Leads (λ place. place) (found (facts_in volume.now.names (flat_of (view_tree K.shape image site.now volume.now view.now) view.now.root_oid)) path.now)) }
    ensures needs { (image : List ℕ) → S.bytes src.old ≡ Some image → is_ordered K.shape (line_of (view_tree K.shape image site.now volume.now view.now) view.now.root_oid) ≡ true → IfOk result (WhereLed (NeedsIn (λ facts has_all. PathNeeds facts has_all path.now) volume.now.names (view_tree K.shape image site.now volume.now view.now) view.now.root_oid)) }
    ensures present { (image : List ℕ) → S.bytes src.old ≡ Some image → IfErr result (Tells (IsNodeFault (view_tree K.shape image site.now volume.now view.now) view.now.root_oid) (HasFeature (view_tree K.shape image site.now volume.now view.now) view.now.root_oid)) }
    ensures cause { IsErrOf result ReadFault → Rose (S.faults src.old) (S.faults src.new) }
    ensures kept { IsKept S.bytes S.bytes_len S.faults src.old src.new }
{
    let mut cursor = match by_search::open_view::<K, S>(alloc, src, volume, view, site) {
        Ok(cursor) => cursor,
        Err(stop) => return Err(stop),
    };
    match by_search::locate(alloc, src, &mut cursor, volume.names, path) {
        Ok(onward) => Ok(onward),
        Err(stop) => Err(stop),
    }
}

// Where a path leads, by searches.
fn search<S: BlockSource>(
    alloc: Global,
    src: &mut S,
    volume: &Volume,
    view: &View,
    site: &Site,
    path: &str,
) -> Result<Onward<Place>, Stop<PathStop>>
    requires site { IsSiteFor site.now (S.bytes_len src.old) }
    ensures leads { (image : List ℕ) → S.bytes src.old ≡ Some image → is_view_ordered image site.now volume.now view.now ≡ true → IfOk result (Leads (λ place. place) (found (view_facts image site.now volume.now view.now) path.now)) }
    ensures needs { (image : List ℕ) → S.bytes src.old ≡ Some image → is_view_ordered image site.now volume.now view.now ≡ true → IfOk result (WhereLed (PathNeeds (view_facts image site.now volume.now view.now) (HasEntriesOf image site.now volume.now view.now) path.now)) }
    ensures present { (image : List ℕ) → S.bytes src.old ≡ Some image → IfErr result (IsStopThere image site.now volume.now view.now) }
    ensures unanswered { IfErr result IsNoAnswer }
    ensures cause { IsErrOf result ReadFault → Rose (S.faults src.old) (S.faults src.new) }
    ensures kept { IsKept S.bytes S.bytes_len S.faults src.old src.new }
{
    if volume.names.are_hashed() {
        match search_by::<FsKey, S>(alloc, src, volume, view, site, path) {
            Ok(onward) => Ok(onward),
            Err(stop) => Err(raise(view, stop)),
        }
    } else {
        match search_by::<FsPlainKey, S>(alloc, src, volume, view, site, path) {
            Ok(onward) => Ok(onward),
            Err(stop) => Err(raise(view, stop)),
        }
    }
}

// Where a path leads, by all records of the view.
fn locate_whole<S: BlockSource>(
    alloc: Global,
    src: &mut S,
    volume: &Volume,
    view: &View,
    site: &Site,
    path: &str,
) -> Result<Place, Stop<PathStop>>
    requires site { IsSiteFor site.now (S.bytes_len src.old) }
    ensures exact { (image : List ℕ) → S.bytes src.old ≡ Some image → IsLawful image site.now volume.now view.now → IsGiven (λ place. place) (found (view_facts image site.now volume.now view.now) path.now) result }
    ensures rests { (image : List ℕ) → S.bytes src.old ≡ Some image → RestsOn (λ place. place) (found (view_facts image site.now volume.now view.now) path.now) (PathNeeds (view_facts image site.now volume.now view.now) (HasEntriesOf image site.now volume.now view.now) path.now) result }
    ensures present { (image : List ℕ) → S.bytes src.old ≡ Some image → IfErr result (IsStopThere image site.now volume.now view.now) }
    ensures cause { IsErrOf result ReadFault → Rose (S.faults src.old) (S.faults src.new) }
    ensures kept { IsKept S.bytes S.bytes_len S.faults src.old src.new }
{
    let files = match gather_view(alloc, src, volume, view, site) {
        Ok(files) => files,
        Err(stop) => return Err(stop),
    };
    match by_memory::locate(alloc, &files, volume.names, view, path) {
        Ok(place) => Ok(place),
        Err(stop) => Err(stop),
    }
}

/// Where a path leads: by searches, and where a record that is needed isn't found or can't be read, by all records.
pub fn locate<S: BlockSource>(
    alloc: Global,
    src: &mut S,
    volume: &Volume,
    view: &View,
    site: &Site,
    path: &str,
) -> Result<Place, Stop<PathStop>>
    requires site { IsSiteFor site.now (S.bytes_len src.old) }
    ensures exact { (image : List ℕ) → S.bytes src.old ≡ Some image → IsLawful image site.now volume.now view.now → IsGiven (λ place. place) (found (view_facts image site.now volume.now view.now) path.now) result }
    ensures rests { (image : List ℕ) → S.bytes src.old ≡ Some image → is_view_ordered image site.now volume.now view.now ≡ true → RestsOn (λ place. place) (found (view_facts image site.now volume.now view.now) path.now) (PathNeeds (view_facts image site.now volume.now view.now) (HasEntriesOf image site.now volume.now view.now) path.now) result }
    ensures present { (image : List ℕ) → S.bytes src.old ≡ Some image → IfErr result (IsStopThere image site.now volume.now view.now) }
    ensures cause { IsErrOf result ReadFault → Rose (S.faults src.old) (S.faults src.new) }
    ensures kept { IsKept S.bytes S.bytes_len S.faults src.old src.new }
{
    let onward = match search(alloc, src, volume, view, site, path) {
        Ok(onward) => onward,
        Err(stop) => return Err(stop),
    };
    match onward {
        Onward::To(place) => Ok(place),
        Onward::Answered(answer) => Err(Stop::Found(PathStop::Answer(answer))),
        Onward::Lost => match locate_whole(alloc, src, volume, view, site, path) {
            Ok(place) => Ok(place),
            Err(stop) => Err(stop),
        },
    }
}

/// What a path of a view leads to, from the root on. A path is split at `/`; empty components are skipped, and `.` and `..`
/// are names like others. In each directory the entry of the same bytes is taken, otherwise the first in record order whose
/// normal form is the same. `NotDirectory` comes where a component is left at what is no directory, and `NotFound` where
/// a directory has no such entry. A component costs a search for the entries of its directory, which are gone through,
/// and a search for an inode. Where a record can't be read, or an inode isn't found, the whole tree is gone through, and
/// the fault that is named is one of it: of the tree itself, `Record`, or `NoInode`.
pub fn find<S: BlockSource>(
    alloc: Global,
    src: &mut S,
    volume: &Volume,
    view: &View,
    site: &Site,
    path: &str,
) -> Result<Target, Stop<PathStop>>
    requires site { IsSiteFor site.now (S.bytes_len src.old) }
    ensures exact { (image : List ℕ) → S.bytes src.old ≡ Some image → IsLawful image site.now volume.now view.now → IsGiven (λ target. target) (target_found (view_facts image site.now volume.now view.now) path.now) result }
    ensures rests { (image : List ℕ) → S.bytes src.old ≡ Some image → is_view_ordered image site.now volume.now view.now ≡ true → RestsOn (λ target. target) (target_found (view_facts image site.now volume.now view.now) path.now) (PathNeeds (view_facts image site.now volume.now view.now) (HasEntriesOf image site.now volume.now view.now) path.now) result }
    ensures present { (image : List ℕ) → S.bytes src.old ≡ Some image → IfErr result (IsStopThere image site.now volume.now view.now) }
    ensures cause { IsErrOf result ReadFault → Rose (S.faults src.old) (S.faults src.new) }
    ensures kept { IsKept S.bytes S.bytes_len S.faults src.old src.new }
{
    match locate(alloc, src, volume, view, site, path) {
        Ok(place) => {
            let target = place.target().target(alloc)?;
            Ok(target)
        }
        Err(stop) => Err(stop),
    }
}
