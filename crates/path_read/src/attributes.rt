// The attributes of what a path leads to.
ghost use Rattle.std.specs.Prelude.{◌≡◌, ℕ, List, [], Some, None, true, map, take, length, option_map, IfOk, IfErr, IfSome, IsErrOf};
ghost use Rattle.std.specs.List.{find};
ghost use Rattle.apfs_model.specs.Counts.{Rose};
ghost use Rattle.apfs_model.specs.Kept.{IsKept};
ghost use Rattle.obj_base.specs.declared.stop.Stop.TheVariants.{ReadFault};
ghost use Rattle.obj_base.specs.Stops.{Tells};
ghost use Rattle.obj_base.specs.Site.{IsSiteFor};
ghost use Rattle.bt_cursor.specs.Flat.{flat_of};
ghost use Rattle.bt_cursor.specs.Line.{line_of};
ghost use Rattle.bt_cursor.specs.Order.{is_ordered};
ghost use Rattle.bt_cursor.specs.Faults.{IsNodeFault, HasFeature};
ghost use Rattle.fs_record.specs.Facts.{all_for, attributes_of};
ghost use Rattle.vol_view.specs.Views.{view_tree, view_flat, is_view_ordered};
ghost use Rattle.view_rules.specs.Rules.{view_facts};
ghost use Rattle.path_search.specs.Order as order;
ghost use Rattle.path_search.specs.Stops.{IsLawful};
ghost use Rattle.path_search.specs.Calls.{IsGiven, IsStopThere, IsNoAnswer};
ghost use Rattle.bt_keys.specs.RecordKey.{attribute_record};
ghost use Rattle.path_search.specs.Needs.{HasKind, RestsOn};
ghost use Rattle.path_search.specs.Parts.{HasKindIn};
ghost use Rattle.path_read.specs.Needs.{AttributesNeed};
ghost use Rattle.path_read.specs.Attributes as spec;
ghost use Rattle.path_read.specs.Attributes.{attribute_told, is_called};
ghost use Rattle.path_read.specs.Parts.{HasRefused, attributes_at};

use crate::kept::KeptAttribute;
use crate::refused::refused;
use crate::search::find_attributes;
use apfs_model::{Bytes, NoMemory};
use blk_source::BlockSource;
use bt_cursor::WalkFault;
use bt_keys::{FsKey, FsPlainKey, FsTreeKey};
use obj_base::{Site, Stop};
use path_walk::{PathStop, locate, open_view, raise};
use std::alloc::{AllocError, Global};
use vol_view::{View, Volume};

// The attributes of an id, by the keys of the view's tree; None where one of them can't be read.
fn search_by<K: FsTreeKey, S: BlockSource>(
    alloc: Global,
    src: &mut S,
    volume: &Volume,
    view: &View,
    site: &Site,
    id: u64,
) -> Result<Option<Vec<KeptAttribute>>, Stop<WalkFault>>
    requires site { IsSiteFor site.now (S.bytes_len src.old) }
    ensures found { (image : List ℕ) → S.bytes src.old ≡ Some image → is_ordered K.shape (line_of (view_tree K.shape image site.now volume.now view.now) view.now.root_oid) ≡ true → IfOk result (λ run. IfSome run (λ v. v.items ≡ all_for id (attributes_of (flat_of (view_tree K.shape image site.now volume.now view.now) view.now.root_oid)))) }
    ensures all { (image : List ℕ) → S.bytes src.old ≡ Some image → is_ordered K.shape (line_of (view_tree K.shape image site.now volume.now view.now) view.now.root_oid) ≡ true → IfOk result (λ run. IfSome run (λ v. HasKindIn volume.now.names (view_tree K.shape image site.now volume.now view.now) view.now.root_oid id attribute_record)) }
    ensures refused { (image : List ℕ) → S.bytes src.old ≡ Some image → IfOk result (λ run. run ≡ None → HasRefused (flat_of (view_tree K.shape image site.now volume.now view.now) view.now.root_oid)) }
    ensures present { (image : List ℕ) → S.bytes src.old ≡ Some image → IfErr result (Tells (IsNodeFault (view_tree K.shape image site.now volume.now view.now) view.now.root_oid) (HasFeature (view_tree K.shape image site.now volume.now view.now) view.now.root_oid)) }
    ensures cause { IsErrOf result ReadFault → Rose (S.faults src.old) (S.faults src.new) }
    ensures kept { IsKept S.bytes S.bytes_len S.faults src.old src.new }
{
    let mut cursor = match open_view::<K, S>(alloc, src, volume, view, site) {
        Ok(cursor) => cursor,
        Err(stop) => return Err(stop),
    };
    match find_attributes(alloc, src, &mut cursor, id) {
        Ok(run) => Ok(run),
        Err(stop) => Err(stop),
    }
}

// The attributes of an id; None where one of them can't be read.
fn search<S: BlockSource>(
    alloc: Global,
    src: &mut S,
    volume: &Volume,
    view: &View,
    site: &Site,
    id: u64,
) -> Result<Option<Vec<KeptAttribute>>, Stop<PathStop>>
    requires site { IsSiteFor site.now (S.bytes_len src.old) }
    ensures found { (image : List ℕ) → S.bytes src.old ≡ Some image → is_view_ordered image site.now volume.now view.now ≡ true → IfOk result (λ run. IfSome run (λ v. v.items ≡ all_for id (attributes_of (view_flat image site.now volume.now view.now)))) }
    ensures all { (image : List ℕ) → S.bytes src.old ≡ Some image → is_view_ordered image site.now volume.now view.now ≡ true → IfOk result (λ run. IfSome run (λ v. HasKind image site.now volume.now view.now id attribute_record)) }
    ensures refused { (image : List ℕ) → S.bytes src.old ≡ Some image → IfOk result (λ run. run ≡ None → HasRefused (view_flat image site.now volume.now view.now)) }
    ensures present { (image : List ℕ) → S.bytes src.old ≡ Some image → IfErr result (IsStopThere image site.now volume.now view.now) }
    ensures unanswered { IfErr result IsNoAnswer }
    ensures cause { IsErrOf result ReadFault → Rose (S.faults src.old) (S.faults src.new) }
    ensures kept { IsKept S.bytes S.bytes_len S.faults src.old src.new }
{
    if volume.names.are_hashed() {
        match search_by::<FsKey, S>(alloc, src, volume, view, site, id) {
            Ok(run) => Ok(run),
            Err(stop) => Err(raise(view, stop)),
        }
    } else {
        match search_by::<FsPlainKey, S>(alloc, src, volume, view, site, id) {
            Ok(run) => Ok(run),
            Err(stop) => Err(raise(view, stop)),
        }
    }
}

// The attributes of an id in record order. Where one of them can't be read the whole tree is gone through, for the fault.
fn attributes_for<S: BlockSource>(
    alloc: Global,
    src: &mut S,
    volume: &Volume,
    view: &View,
    site: &Site,
    id: u64,
) -> Result<Vec<KeptAttribute>, Stop<PathStop>>
    requires site { IsSiteFor site.now (S.bytes_len src.old) }
    ensures found { (image : List ℕ) → S.bytes src.old ≡ Some image → is_view_ordered image site.now volume.now view.now ≡ true → IfOk result (λ v. v.items ≡ all_for id (view_facts image site.now volume.now view.now).attributes) }
    ensures all { (image : List ℕ) → S.bytes src.old ≡ Some image → is_view_ordered image site.now volume.now view.now ≡ true → IfOk result (λ v. HasKind image site.now volume.now view.now id attribute_record) }
    ensures present { (image : List ℕ) → S.bytes src.old ≡ Some image → IfErr result (IsStopThere image site.now volume.now view.now) }
    ensures unanswered { IfErr result IsNoAnswer }
    ensures cause { IsErrOf result ReadFault → Rose (S.faults src.old) (S.faults src.new) }
    ensures kept { IsKept S.bytes S.bytes_len S.faults src.old src.new }
{
    let run = match search(alloc, src, volume, view, site, id) {
        Ok(run) => run,
        Err(stop) => return Err(stop),
    };
    match run {
        Some(attributes) => Ok(attributes),
        None => Err(refused(alloc, src, volume, view, site)),
    }
}

/// The attributes of what a path leads to, in record order.
pub(crate) fn gathered<S: BlockSource>(
    alloc: Global,
    src: &mut S,
    volume: &Volume,
    view: &View,
    site: &Site,
    path: &str,
) -> Result<Vec<KeptAttribute>, Stop<PathStop>>
    requires site { IsSiteFor site.now (S.bytes_len src.old) }
    ensures exact { (image : List ℕ) → S.bytes src.old ≡ Some image → IsLawful image site.now volume.now view.now → IsGiven (λ v. v.items) (attributes_at (view_facts image site.now volume.now view.now) path.now) result }
    ensures rests { (image : List ℕ) → S.bytes src.old ≡ Some image → is_view_ordered image site.now volume.now view.now ≡ true → RestsOn (λ v. v.items) (attributes_at (view_facts image site.now volume.now view.now) path.now) (AttributesNeed image site.now volume.now view.now path.now) result }
    ensures present { (image : List ℕ) → S.bytes src.old ≡ Some image → IfErr result (IsStopThere image site.now volume.now view.now) }
    ensures cause { IsErrOf result ReadFault → Rose (S.faults src.old) (S.faults src.new) }
    ensures kept { IsKept S.bytes S.bytes_len S.faults src.old src.new }
{
    let place = match locate(alloc, src, volume, view, site, path) {
        Ok(place) => place,
        Err(stop) => return Err(stop),
    };
    match attributes_for(alloc, src, volume, view, site, place.id()) {
        Ok(attributes) => Ok(attributes),
        Err(stop) => Err(stop),
    }
}

// Some attributes as they are told, in their order.
fn told(alloc: Global, attributes: &[KeptAttribute]) -> Result<Vec<(Bytes, u64)>, NoMemory>
    ensures { IfOk result (λ told. told.items ≡ map attribute_told attributes.now) }
{
    let mut told = Vec::new(alloc);
    for attribute in attributes {
        let one = attribute.told(alloc)?;
        match told.push(one) {
            Ok(()) => {}
            Err(_) => return Err(NoMemory),
        }
    }
    Ok(told)
}

// Attributes as they are told by the bytes of their names, those of one name in their order.
fn by_name(mut told: Vec<(Bytes, u64)>) -> Result<Vec<(Bytes, u64)>, AllocError>
    ensures { IfOk result (λ sorted. sorted.items ≡ order.by_name (λ one. one.0) told.items) }
{
    told.sort_by(|a, b| a.0.as_slice().cmp(b.0.as_slice()))?;
    Ok(told)
}

// Some attributes as they are told, by the bytes of their names.
fn listed(alloc: Global, attributes: &[KeptAttribute]) -> Result<Vec<(Bytes, u64)>, NoMemory>
    ensures { IfOk result (λ listed. listed.items ≡ map attribute_told (order.by_name (λ a. a.name) attributes.now)) }
{
    let told = told(alloc, attributes)?;
    match by_name(told) {
        Ok(sorted) => Ok(sorted),
        Err(_) => Err(NoMemory),
    }
}

/// The attributes of what a path leads to (Extended Attributes): the name of each, by the bytes of the names, and how many bytes it holds. They are
/// found by a search for the first of them. Where a record of an attribute can't be read the whole tree is gone through, and the fault that is named is one
/// of it.
pub fn attrs<S: BlockSource>(
    alloc: Global,
    src: &mut S,
    volume: &Volume,
    view: &View,
    site: &Site,
    path: &str,
) -> Result<Vec<(Bytes, u64)>, Stop<PathStop>>
    requires site { IsSiteFor site.now (S.bytes_len src.old) }
    ensures exact { (image : List ℕ) → S.bytes src.old ≡ Some image → IsLawful image site.now volume.now view.now → IsGiven (λ v. v.items) (spec.attributes (view_facts image site.now volume.now view.now) path.now) result }
    ensures rests { (image : List ℕ) → S.bytes src.old ≡ Some image → is_view_ordered image site.now volume.now view.now ≡ true → RestsOn (λ v. v.items) (spec.attributes (view_facts image site.now volume.now view.now) path.now) (AttributesNeed image site.now volume.now view.now path.now) result }
    ensures present { (image : List ℕ) → S.bytes src.old ≡ Some image → IfErr result (IsStopThere image site.now volume.now view.now) }
    ensures cause { IsErrOf result ReadFault → Rose (S.faults src.old) (S.faults src.new) }
    ensures kept { IsKept S.bytes S.bytes_len S.faults src.old src.new }
{
    let attributes = match gathered(alloc, src, volume, view, site, path) {
        Ok(attributes) => attributes,
        Err(stop) => return Err(stop),
    };
    let listed = listed(alloc, &attributes)?;
    Ok(listed)
}
