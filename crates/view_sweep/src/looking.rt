// The records by which what is wanted is found.
ghost use Rattle.std.specs.Prelude.{◌≡◌, ◌<◌, ℕ, [], length, Some, OnOk, IfOk, IfErr, IfSome, IsErrOf, IsNone};
ghost use Rattle.apfs_model.specs.Blocks.{in_container};
ghost use Rattle.apfs_model.specs.Lists.{In};
ghost use Rattle.obj_base.specs.Stops.{Tells};
ghost use Rattle.obj_base.specs.declared.stop.Stop.TheVariants.{ReadFault};
ghost use Rattle.omap_map.specs.Features.{mapping_features};
ghost use Rattle.omap_map.specs.Resolve.{resolved};
ghost use Rattle.view_sweep.specs.Found.{looked, records_at};
ghost use Rattle.view_sweep.specs.Here.{IsLostHere, IsMappedBy};
ghost use Rattle.view_sweep.specs.Sets.{IsSetOf, AreSets, AreKept};
ghost use Rattle.view_sweep.specs.Next.{AreStretches};
ghost use Rattle.view_sweep.specs.Runs.{AreRising};
ghost use Rattle.view_sweep.specs.Asked.{AreOfSets, IsOfSet, IsOfSought};
ghost use Rattle.view_sweep.specs.Hits.{AreBelowViews, AreSplit, AreHitsOf};

use crate::joining::Sought;
use crate::next::until;
use crate::runs::{Run, least_place, part_of};
use crate::sets::{ViewSet, keep};
use crate::used::Hit;
use crate::wanted::{SweptView, Wanted};
use apfs_layout::object_map;
use obj_base::{Feature, Site, Stop, Within};
use omap_map::{Omap, OmapRecord};
use reach_rules::ReachFault;
use std::alloc::Global;
use vol_view::Volume;

// The record of a map to which an id resolves at a transaction.
#[tactic(auto, using(crate::proofs::Records::record_found), unfolding(omap_map::specs::Resolve::resolve))]
fn find(omap: &Omap, oid: u64, xid: u64) -> Option<OmapRecord>
    ensures { result ≡ resolved omap.now.records oid xid }
{
    let place = omap.resolve(oid, xid)?;
    Some(OmapRecord {
        oid,
        xid: place.xid,
        flags: place.flags,
        size: place.size,
        paddr: place.block,
    })
}

// The record by which an object is found, where it gives a block of the container.
#[tactic(auto, unfolding(crate::specs::Found::looked))]
fn look(volumes: &[Volume], site: &Site, wanted: &Wanted) -> Option<OmapRecord>
    requires below { wanted.now.view.volume < length volumes.now }
    ensures found { result ≡ looked volumes.now site.now wanted.now }
    ensures inside { IfSome result (λ r. in_container site.now.blocks r.paddr ≡ Some r.paddr) }
{
    let volume = &volumes[wanted.view.volume];
    let mapping = find(&volume.omap, wanted.oid, wanted.view.xid)?;
    if site.has_block(mapping.paddr) {
        Some(mapping)
    } else {
        None
    }
}

// The first feature of a record's mapping.
fn feature(mapping: &OmapRecord, site: &Site) -> Option<Feature>
    ensures none { IsNone result → mapping_features site.now.block_size mapping.now.flags mapping.now.size ≡ [] }
    ensures some { IfSome result (λ feature. In feature (mapping_features site.now.block_size mapping.now.flags mapping.now.size)) }
{
    if mapping.flags & object_map::ENCRYPTED == object_map::ENCRYPTED {
        return Some(Feature::Encrypted);
    }
    if mapping.flags & object_map::NO_HEADER == object_map::NO_HEADER {
        return Some(Feature::NoHeader);
    }
    if mapping.size != site.block_size {
        return Some(Feature::Size);
    }
    None
}

// The record by which one object that is wanted is found.
fn found(volumes: &[Volume], site: &Site, wanted: &Wanted) -> Result<OmapRecord, Stop<ReachFault>>
    requires below { wanted.now.view.volume < length volumes.now }
    ensures found { IfOk result (λ mapping. looked volumes.now site.now wanted.now ≡ Some mapping) }
    ensures inside { IfOk result (λ mapping. in_container site.now.blocks mapping.paddr ≡ Some mapping.paddr) }
    ensures plain { IfOk result (λ mapping. mapping_features site.now.block_size mapping.flags mapping.size ≡ []) }
    ensures stops { IfErr result (Tells (IsLostHere (looked volumes.now site.now) (λ w. w ≡ wanted.now)) (IsMappedBy (looked volumes.now site.now) site.now.block_size (λ w. w ≡ wanted.now))) }
    ensures no_read { IsErrOf result ReadFault → ⊥ }
{
    let Some(mapping) = look(volumes, site, wanted) else {
        return Err(Stop::Found(ReachFault::Unnamed {
            within: Within::Volume(wanted.view.slot),
            oid: wanted.oid,
            xid: wanted.view.xid,
        }));
    };
    if let Some(feature) = feature(&mapping, site) {
        return Err(Stop::Unsupported {
            feature,
            block: mapping.paddr,
        });
    }
    Ok(mapping)
}

// Adds what is found of one that is sought: a hit for each record, with the views that find it.
fn add_hits(
    alloc: Global,
    volumes: &[Volume],
    site: &Site,
    views: &[SweptView],
    stretches: &[Run],
    sought: &Sought,
    sets: &mut Vec<ViewSet>,
    out: &mut Vec<Hit>,
) -> Result<(), Stop<ReachFault>>
    requires below { AreBelowViews (length volumes.now) views.now }
    requires rising { AreRising stretches.now }
    requires stretches { AreStretches views.now stretches.now }
    requires set { IsSetOf views.now sought.now.set.items }
    requires sets { AreSets views.now sets.old.items }
    ensures hits { OnOk result (AreSplit (looked volumes.now site.now) site.now views.now sets.new.items sought.now.wanted sought.now.set.items (length views.now) out.old.items out.new.items) }
    ensures sets { OnOk result (AreSets views.now sets.new.items) }
    ensures kept { OnOk result (AreKept sets.old.items sets.new.items) }
    ensures stops { IfErr result (Tells (IsLostHere (looked volumes.now site.now) (IsOfSet views.now sought.now.wanted sought.now.set.items)) (IsMappedBy (looked volumes.now site.now) site.now.block_size (IsOfSet views.now sought.now.wanted sought.now.set.items))) }
    ensures no_read { IsErrOf result ReadFault → ⊥ }
{
    let mut from = 0;
    while let Some(low) = least_place(&sought.set, from) {
        let wanted = Wanted {
            view: views[low],
            oid: sought.wanted.oid,
            want: sought.wanted.want,
        };
        let mapping = match found(volumes, site, &wanted) {
            Ok(mapping) => mapping,
            Err(stop) => return Err(stop),
        };
        let high = until(volumes, site, views, stretches, low, &wanted, &mapping);
        let part = part_of(alloc, &sought.set, low, high)?;
        let set = keep(sets, part)?;
        out.push(Hit {
            wanted,
            mapping,
            set,
        })?;
        from = high;
    }
    Ok(())
}

/// The records by which all that is sought is found.
pub(crate) fn hits(
    alloc: Global,
    volumes: &[Volume],
    site: &Site,
    views: &[SweptView],
    stretches: &[Run],
    all: &[Sought],
    sets: &mut Vec<ViewSet>,
) -> Result<Vec<Hit>, Stop<ReachFault>>
    requires below { AreBelowViews (length volumes.now) views.now }
    requires rising { AreRising stretches.now }
    requires stretches { AreStretches views.now stretches.now }
    requires all { AreOfSets views.now all.now }
    requires sets { AreSets views.now sets.old.items }
    ensures hits { IfOk result (λ hits. AreHitsOf (looked volumes.now site.now) site.now views.now sets.new.items all.now hits.items) }
    ensures sets { OnOk result (AreSets views.now sets.new.items) }
    ensures kept { OnOk result (AreKept sets.old.items sets.new.items) }
    ensures stops { IfErr result (Tells (IsLostHere (looked volumes.now site.now) (IsOfSought views.now all.now)) (IsMappedBy (looked volumes.now site.now) site.now.block_size (IsOfSought views.now all.now))) }
    ensures no_read { IsErrOf result ReadFault → ⊥ }
{
    let mut hits = Vec::new(alloc);
    for sought in all {
        match add_hits(
            alloc, volumes, site, views, stretches, sought, sets, &mut hits,
        ) {
            Ok(()) => {}
            Err(stop) => return Err(stop),
        }
    }
    Ok(hits)
}
