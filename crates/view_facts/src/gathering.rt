// The facts of a view, in one walk over its tree.
ghost use Rattle.std.specs.Prelude.{◌≡◌, ◌+◌, ◌≤◌, ℕ, List, length, Some, false, IfOk, IfErr, IsErrOf, OnOk};
ghost use Rattle.apfs_model.specs.Counts.{Rose};
ghost use Rattle.apfs_model.specs.Kept.{IsKept};
ghost use Rattle.obj_base.specs.Site.{IsSiteFor};
ghost use Rattle.obj_base.specs.Stops.{Tells};
ghost use Rattle.obj_base.specs.declared.stop.Stop.TheVariants.{Found, ReadFault};
ghost use Rattle.bt_cursor.specs.Met.{nodes_of};
ghost use Rattle.bt_cursor.specs.Faults.{HasFeature};
ghost use Rattle.bt_cursor.specs.Gathered.{RefusesOne};
ghost use Rattle.fs_name.specs.Normal.{are_hashed};
ghost use Rattle.vol_view.specs.Views.{view_tree, IsViewFeature};
ghost use Rattle.vol_view.specs.Placed.{view_nodes};
ghost use Rattle.view_rules.specs.declared.profile.Profile.{Profile};
ghost use Rattle.ext_ref.specs.declared.range.NewRange.{NewRange};
ghost use Rattle.view_rules.specs.Rules as spec;
ghost use Rattle.view_rules.specs.Listed as listed;
ghost use Rattle.view_rules.specs.declared.fault.TreeFault.{TreeFault};
ghost use Rattle.view_rules.specs.declared.fault.TreeFault.TheVariants.{Record};
ghost use Rattle.view_facts.specs.Kept.{IsWalked, IsWalkedView, IsGatheredView, AreFiles};
ghost use Rattle.view_facts.specs.Stops.{SaysOfView, IsRaised, IsOfWalk, IsOfRecords};

use crate::Facts;
use crate::keep::{Keep, Refusal};
use crate::scope::{OfFiles, Scope, Whole};
use blk_source::BlockSource;
use bt_cursor::{GatherFault, WalkFault, gather};
use bt_keys::{FsKey, FsPlainKey, FsTreeKey};
use fs_name::Names;
use obj_base::{Site, Stop};
use omap_map::At;
use std::alloc::Global;
use view_rules::TreeFault;
use vol_view::{View, Volume};

/// The facts of a view, and how many records it has.
#[derive(Drop)]
pub struct ViewFacts {
    pub facts: Facts,
    /// The number of records of its flat list; it stands at the greatest number where it would pass it.
    pub records: u64,
}

// What was kept in a walk, without the kind of its keys.
#[derive(Drop)]
struct Walked {
    facts: Facts,
    records: u64,
    refusal: Option<Refusal>,
}

/// What a walk names, said of the view.
pub fn fault_of(view: &View, why: WalkFault) -> TreeFault
    ensures { result ≡ listed.raised view.now why }
{
    match why {
        WalkFault::Unsound { block, why } => TreeFault::Unsound { block, why },
        WalkFault::Unnamed { oid } => TreeFault::Unnamed {
            slot: view.slot,
            oid,
            xid: view.xid,
        },
        WalkFault::Order { item } => TreeFault::Order {
            slot: view.slot,
            xid: view.xid,
            item,
        },
        WalkFault::Counts => TreeFault::Counts {
            slot: view.slot,
            xid: view.xid,
        },
    }
}

// Why a walk stops, said of the view. No item of its tree is refused in the walk.
fn raise(view: &View, stop: Stop<GatherFault>) -> Stop<TreeFault>
    requires { RefusesOne (λ _. false) stop }
    ensures { SaysOfView view.now stop result }
{
    stop.map(|fault| match fault {
        GatherFault::Tree(why) => fault_of(view, why),
        GatherFault::Refused { item: _ } => unreachable!(),
    })
}

// The same facts, with how names are compared.
fn renamed(facts: Facts, names: Names) -> Facts
    ensures { result ≡ record facts { names = names } }
{
    let mut facts = facts;
    facts.names = names;
    facts
}

// A walk over a view's tree under keys of a kind.
fn walk<K: FsTreeKey, W: Scope, S: BlockSource>(
    alloc: Global,
    src: &mut S,
    volume: &Volume,
    view: &View,
    site: &Site,
) -> Result<Walked, Stop<TreeFault>>
    requires site { IsSiteFor site.now (S.bytes_len src.old) }
    requires hashed { are_hashed volume.now.names ≡ K.HASHED }
    ensures clear { (image : List ℕ) → S.bytes src.old ≡ Some image → IfOk result (IsWalked W.FILES (view_tree K.shape image site.now volume.now view.now) view.now.root_oid volume.now.names) }
    ensures present { (image : List ℕ) → S.bytes src.old ≡ Some image → IfErr result (Tells (IsRaised view.now (view_tree K.shape image site.now volume.now view.now) view.now.root_oid) (HasFeature (view_tree K.shape image site.now volume.now view.now) view.now.root_oid)) }
    ensures walked { (fault : TreeFault) → IsErrOf result (Found fault) → IsOfWalk view.now fault }
    ensures reads { (image : List ℕ) → S.bytes src.old ≡ Some image → OnOk result (S.reads src.new ≤ S.reads src.old + length (nodes_of (view_tree K.shape image site.now volume.now view.now) view.now.root_oid)) }
    ensures cause { IsErrOf result ReadFault → Rose (S.faults src.old) (S.faults src.new) }
    ensures kept { IsKept S.bytes S.bytes_len S.faults src.old src.new }
{
    let none = Keep::<K, W>::new(alloc, volume.names);
    let namer = At {
        omap: &volume.omap,
        xid: view.xid,
        blocks: site.blocks,
    };
    let keep = match gather::<K, S, At<'_>, Keep<K, W>>(
        alloc,
        src,
        namer,
        view.root_oid,
        site,
        none,
    ) {
        Ok(keep) => keep,
        Err(stop) => return Err(raise(view, stop)),
    };
    let Keep {
        alloc: _,
        facts,
        items: _,
        records,
        refusal,
        kind: _,
        scope: _,
    } = keep;
    Ok(Walked {
        facts: renamed(facts, volume.names),
        records,
        refusal,
    })
}

// A walk over the tree of a view.
fn walk_view<W: Scope, S: BlockSource>(
    alloc: Global,
    src: &mut S,
    volume: &Volume,
    view: &View,
    site: &Site,
) -> Result<Walked, Stop<TreeFault>>
    requires site { IsSiteFor site.now (S.bytes_len src.old) }
    ensures clear { (image : List ℕ) → S.bytes src.old ≡ Some image → IfOk result (IsWalkedView W.FILES image site.now volume.now view.now) }
    ensures present { (profile : Profile) (ranges : List NewRange) (image : List ℕ) → S.bytes src.old ≡ Some image → IfErr result (Tells (spec.IsTreeFault profile image site.now volume.now view.now ranges) (IsViewFeature image site.now volume.now view.now)) }
    ensures walked { (fault : TreeFault) → IsErrOf result (Found fault) → IsOfWalk view.now fault }
    ensures reads { (image : List ℕ) → S.bytes src.old ≡ Some image → OnOk result (S.reads src.new ≤ S.reads src.old + length (view_nodes image site.now volume.now view.now)) }
    ensures cause { IsErrOf result ReadFault → Rose (S.faults src.old) (S.faults src.new) }
    ensures kept { IsKept S.bytes S.bytes_len S.faults src.old src.new }
{
    if volume.names.are_hashed() {
        match walk::<FsKey, W, S>(alloc, src, volume, view, site) {
            Ok(walked) => Ok(walked),
            Err(stop) => Err(stop),
        }
    } else {
        match walk::<FsPlainKey, W, S>(alloc, src, volume, view, site) {
            Ok(walked) => Ok(walked),
            Err(stop) => Err(stop),
        }
    }
}

// A record that its reader refuses, said of the view.
fn refused(view: &View, refusal: Refusal) -> TreeFault
    ensures { result ≡ Record view.now.slot view.now.xid refusal.item refusal.why }
{
    TreeFault::Record {
        slot: view.slot,
        xid: view.xid,
        item: refusal.item,
        why: refusal.why,
    }
}

/// The facts of a view, in one walk over its tree, where that is whole and each record can be read. `Unsound`, `Unnamed`,
/// `Order`, `Counts` and `Record` tell what is wrong, where something is.
pub fn view_facts<S: BlockSource>(
    alloc: Global,
    src: &mut S,
    volume: &Volume,
    view: &View,
    site: &Site,
) -> Result<ViewFacts, Stop<TreeFault>>
    requires site { IsSiteFor site.now (S.bytes_len src.old) }
    ensures clear { (image : List ℕ) → S.bytes src.old ≡ Some image → IfOk result (IsGatheredView image site.now volume.now view.now) }
    ensures present { (profile : Profile) (ranges : List NewRange) (image : List ℕ) → S.bytes src.old ≡ Some image → IfErr result (Tells (spec.IsTreeFault profile image site.now volume.now view.now ranges) (IsViewFeature image site.now volume.now view.now)) }
    ensures reads { (image : List ℕ) → S.bytes src.old ≡ Some image → OnOk result (S.reads src.new ≤ S.reads src.old + length (view_nodes image site.now volume.now view.now)) }
    ensures cause { IsErrOf result ReadFault → Rose (S.faults src.old) (S.faults src.new) }
    ensures kept { IsKept S.bytes S.bytes_len S.faults src.old src.new }
{
    let walked = match walk_view::<Whole, S>(alloc, src, volume, view, site) {
        Ok(walked) => walked,
        Err(stop) => return Err(stop),
    };
    match walked.refusal {
        Some(refusal) => Err(Stop::Found(refused(view, refusal))),
        None => Ok(ViewFacts {
            facts: walked.facts,
            records: walked.records,
        }),
    }
}

/// The inodes and the entries of a view, in one walk over its tree, where that is whole and each record can be read. What is
/// wrong is told as by `view_facts`.
pub fn view_files<S: BlockSource>(
    alloc: Global,
    src: &mut S,
    volume: &Volume,
    view: &View,
    site: &Site,
) -> Result<Facts, Stop<TreeFault>>
    requires site { IsSiteFor site.now (S.bytes_len src.old) }
    ensures clear { (image : List ℕ) → S.bytes src.old ≡ Some image → IfOk result (AreFiles image site.now volume.now view.now) }
    ensures present { (profile : Profile) (ranges : List NewRange) (image : List ℕ) → S.bytes src.old ≡ Some image → IfErr result (Tells (spec.IsTreeFault profile image site.now volume.now view.now ranges) (IsViewFeature image site.now volume.now view.now)) }
    ensures walked { (fault : TreeFault) → IsErrOf result (Found fault) → IsOfRecords view.now fault }
    ensures reads { (image : List ℕ) → S.bytes src.old ≡ Some image → OnOk result (S.reads src.new ≤ S.reads src.old + length (view_nodes image site.now volume.now view.now)) }
    ensures cause { IsErrOf result ReadFault → Rose (S.faults src.old) (S.faults src.new) }
    ensures kept { IsKept S.bytes S.bytes_len S.faults src.old src.new }
{
    let walked = match walk_view::<OfFiles, S>(alloc, src, volume, view, site) {
        Ok(walked) => walked,
        Err(stop) => return Err(stop),
    };
    match walked.refusal {
        Some(refusal) => Err(Stop::Found(refused(view, refusal))),
        None => Ok(walked.facts),
    }
}
