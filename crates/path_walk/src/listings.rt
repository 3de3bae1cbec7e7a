// What is listed of a path.
ghost use Rattle.std.specs.Prelude.{◌≡◌, ℕ, List, Some, true, IfOk, IfErr, IsErrOf};
ghost use Rattle.apfs_model.specs.Counts.{Rose};
ghost use Rattle.apfs_model.specs.Kept.{IsKept};
ghost use Rattle.obj_base.specs.declared.stop.Stop.TheVariants.{ReadFault};
ghost use Rattle.obj_base.specs.Stops.{Tells};
ghost use Rattle.obj_base.specs.Site.{IsSiteFor};
ghost use Rattle.bt_cursor.specs.Flat.{flat_of};
ghost use Rattle.bt_cursor.specs.Line.{line_of};
ghost use Rattle.bt_cursor.specs.Order.{is_ordered};
ghost use Rattle.bt_cursor.specs.Faults.{IsNodeFault, HasFeature};
ghost use Rattle.fs_name.specs.Normal.{are_hashed};
ghost use Rattle.vol_view.specs.Views.{view_tree, is_view_ordered};
ghost use Rattle.view_rules.specs.Facts.{facts_in};
ghost use Rattle.view_rules.specs.Rules.{view_facts};
ghost use Rattle.path_search.specs.Listing.{listing};
ghost use Rattle.path_search.specs.Stops.{IsLawful};
ghost use Rattle.path_search.specs.Calls.{IsGiven, IsStopThere, IsNoAnswer};
ghost use Rattle.path_search.specs.Needs.{HasEntriesOf, ListingNeeds, RestsOn};
ghost use Rattle.path_search.specs.Parts.{Leads, NeedsIn, WhereLed};

use crate::by_memory;
use crate::whole::{gather_view, raise};
use blk_source::BlockSource;
use bt_cursor::WalkFault;
use bt_keys::{FsKey, FsPlainKey, FsTreeKey};
use obj_base::{Site, Stop};
use path_search::order::told;
use path_search::{KeptTarget, Onward, PathStop, Target, by_search};
use std::alloc::Global;
use vol_view::{View, Volume};

// What is listed of a path, by searches, and by the keys of the view's tree.
fn search_by<K: FsTreeKey, S: BlockSource>(
    alloc: Global,
    src: &mut S,
    volume: &Volume,
    view: &View,
    site: &Site,
    path: &str,
) -> Result<Onward<Vec<KeptTarget>>, Stop<WalkFault>>
    requires site { IsSiteFor site.now (S.bytes_len src.old) }
    requires hashed { are_hashed volume.now.names ≡ K.HASHED }
    ensures leads { (image : List ℕ) → S.bytes src.old ≡ Some image → is_ordered K.shape (line_of (view_tree K.shape image site.now volume.now view.now) view.now.root_oid) ≡ true → IfOk result (Leads (λ targets. targets.items) (listing (facts_in volume.now.names (flat_of (view_tree K.shape image site.now volume.now view.now) view.now.root_oid)) path.now)) }
    ensures needs { (image : List ℕ) → S.bytes src.old ≡ Some image → is_ordered K.shape (line_of (view_tree K.shape image site.now volume.now view.now) view.now.root_oid) ≡ true → IfOk result (WhereLed (NeedsIn (λ facts has_all. ListingNeeds facts has_all path.now) volume.now.names (view_tree K.shape image site.now volume.now view.now) view.now.root_oid)) }
    ensures present { (image : List ℕ) → S.bytes src.old ≡ Some image → IfErr result (Tells (IsNodeFault (view_tree K.shape image site.now volume.now view.now) view.now.root_oid) (HasFeature (view_tree K.shape image site.now volume.now view.now) view.now.root_oid)) }
    ensures cause { IsErrOf result ReadFault → Rose (S.faults src.old) (S.faults src.new) }
    ensures kept { IsKept S.bytes S.bytes_len S.faults src.old src.new }
{
    let mut cursor = match by_search::open_view::<K, S>(alloc, src, volume, view, site) {
        Ok(cursor) => cursor,
        Err(stop) => return Err(stop),
    };
    match by_search::list(alloc, src, &mut cursor, volume.names, path) {
        Ok(onward) => Ok(onward),
        Err(stop) => Err(stop),
    }
}

// What is listed of a path, by searches.
fn search<S: BlockSource>(
    alloc: Global,
    src: &mut S,
    volume: &Volume,
    view: &View,
    site: &Site,
    path: &str,
) -> Result<Onward<Vec<KeptTarget>>, Stop<PathStop>>
    requires site { IsSiteFor site.now (S.bytes_len src.old) }
    ensures leads { (image : List ℕ) → S.bytes src.old ≡ Some image → is_view_ordered image site.now volume.now view.now ≡ true → IfOk result (Leads (λ targets. targets.items) (listing (view_facts image site.now volume.now view.now) path.now)) }
    ensures needs { (image : List ℕ) → S.bytes src.old ≡ Some image → is_view_ordered image site.now volume.now view.now ≡ true → IfOk result (WhereLed (ListingNeeds (view_facts image site.now volume.now view.now) (HasEntriesOf image site.now volume.now view.now) path.now)) }
    ensures present { (image : List ℕ) → S.bytes src.old ≡ Some image → IfErr result (IsStopThere image site.now volume.now view.now) }
    ensures unanswered { IfErr result IsNoAnswer }
    ensures cause { IsErrOf result ReadFault → Rose (S.faults src.old) (S.faults src.new) }
    ensures kept { IsKept S.bytes S.bytes_len S.faults src.old src.new }
{
    if volume.names.are_hashed() {
        match search_by::<FsKey, S>(alloc, src, volume, view, site, path) {
            Ok(onward) => Ok(onward),
            Err(stop) => Err(raise(view, stop)),
        }
    } else {
        match search_by::<FsPlainKey, S>(alloc, src, volume, view, site, path) {
            Ok(onward) => Ok(onward),
            Err(stop) => Err(raise(view, stop)),
        }
    }
}

// What is listed of a path, by all records of the view.
fn list_whole<S: BlockSource>(
    alloc: Global,
    src: &mut S,
    volume: &Volume,
    view: &View,
    site: &Site,
    path: &str,
) -> Result<Vec<KeptTarget>, Stop<PathStop>>
    requires site { IsSiteFor site.now (S.bytes_len src.old) }
    ensures exact { (image : List ℕ) → S.bytes src.old ≡ Some image → IsLawful image site.now volume.now view.now → IsGiven (λ targets. targets.items) (listing (view_facts image site.now volume.now view.now) path.now) result }
    ensures rests { (image : List ℕ) → S.bytes src.old ≡ Some image → RestsOn (λ targets. targets.items) (listing (view_facts image site.now volume.now view.now) path.now) (ListingNeeds (view_facts image site.now volume.now view.now) (HasEntriesOf image site.now volume.now view.now) path.now) result }
    ensures present { (image : List ℕ) → S.bytes src.old ≡ Some image → IfErr result (IsStopThere image site.now volume.now view.now) }
    ensures cause { IsErrOf result ReadFault → Rose (S.faults src.old) (S.faults src.new) }
    ensures kept { IsKept S.bytes S.bytes_len S.faults src.old src.new }
{
    let files = match gather_view(alloc, src, volume, view, site) {
        Ok(files) => files,
        Err(stop) => return Err(stop),
    };
    match by_memory::list(alloc, files, volume.names, view, path) {
        Ok(targets) => Ok(targets),
        Err(stop) => Err(stop),
    }
}

/// What `list` gives, with short names kept in place.
pub fn list_kept<S: BlockSource>(
    alloc: Global,
    src: &mut S,
    volume: &Volume,
    view: &View,
    site: &Site,
    path: &str,
) -> Result<Vec<KeptTarget>, Stop<PathStop>>
    requires site { IsSiteFor site.now (S.bytes_len src.old) }
    ensures exact { (image : List ℕ) → S.bytes src.old ≡ Some image → IsLawful image site.now volume.now view.now → IsGiven (λ targets. targets.items) (listing (view_facts image site.now volume.now view.now) path.now) result }
    ensures rests { (image : List ℕ) → S.bytes src.old ≡ Some image → is_view_ordered image site.now volume.now view.now ≡ true → RestsOn (λ targets. targets.items) (listing (view_facts image site.now volume.now view.now) path.now) (ListingNeeds (view_facts image site.now volume.now view.now) (HasEntriesOf image site.now volume.now view.now) path.now) result }
    ensures present { (image : List ℕ) → S.bytes src.old ≡ Some image → IfErr result (IsStopThere image site.now volume.now view.now) }
    ensures cause { IsErrOf result ReadFault → Rose (S.faults src.old) (S.faults src.new) }
    ensures kept { IsKept S.bytes S.bytes_len S.faults src.old src.new }
{
    let onward = match search(alloc, src, volume, view, site, path) {
        Ok(onward) => onward,
        Err(stop) => return Err(stop),
    };
    match onward {
        Onward::To(targets) => Ok(targets),
        Onward::Answered(answer) => Err(Stop::Found(PathStop::Answer(answer))),
        Onward::Lost => match list_whole(alloc, src, volume, view, site, path) {
            Ok(targets) => Ok(targets),
            Err(stop) => Err(stop),
        },
    }
}

/// What a path of a view lists: what a directory has, by the bytes of the names, or the one target. An entry of a reserved
/// directory isn't listed. The answers are those of `find`. The inodes of a directory's entries are searched for one by one
/// where there are at most a thousand, and otherwise found in one walk over the whole tree.
pub fn list<S: BlockSource>(
    alloc: Global,
    src: &mut S,
    volume: &Volume,
    view: &View,
    site: &Site,
    path: &str,
) -> Result<Vec<Target>, Stop<PathStop>>
    requires site { IsSiteFor site.now (S.bytes_len src.old) }
    ensures exact { (image : List ℕ) → S.bytes src.old ≡ Some image → IsLawful image site.now volume.now view.now → IsGiven (λ targets. targets.items) (listing (view_facts image site.now volume.now view.now) path.now) result }
    ensures rests { (image : List ℕ) → S.bytes src.old ≡ Some image → is_view_ordered image site.now volume.now view.now ≡ true → RestsOn (λ targets. targets.items) (listing (view_facts image site.now volume.now view.now) path.now) (ListingNeeds (view_facts image site.now volume.now view.now) (HasEntriesOf image site.now volume.now view.now) path.now) result }
    ensures present { (image : List ℕ) → S.bytes src.old ≡ Some image → IfErr result (IsStopThere image site.now volume.now view.now) }
    ensures cause { IsErrOf result ReadFault → Rose (S.faults src.old) (S.faults src.new) }
    ensures kept { IsKept S.bytes S.bytes_len S.faults src.old src.new }
{
    let kept = match list_kept(alloc, src, volume, view, site, path) {
        Ok(kept) => kept,
        Err(stop) => return Err(stop),
    };
    let targets = told(alloc, &kept)?;
    Ok(targets)
}
