// What the views of a volume hold, where each node that many of them share is read once.
ghost use Rattle.std.specs.Prelude.{◌≡◌, ◌+◌, ◌*◌, ◌^◌, ◌<◌, ◌≤◌, [], ℕ, List, Some, true, length, map, IfOk, IfSome, IfErr, IsErrOf, IsTrue};
ghost use Rattle.apfs_model.specs.Blocks.{in_container};
ghost use Rattle.apfs_model.specs.Counts.{Rose};
ghost use Rattle.apfs_model.specs.Kept.{IsKept};
ghost use Rattle.nx_ring.specs.Checkpoint.{Seen, site_of};
ghost use Rattle.obj_base.specs.Site.{IsSiteFor};
ghost use Rattle.obj_base.specs.BlockSize.{is_accepted};
ghost use Rattle.obj_base.specs.Stops.{IsFree};
ghost use Rattle.obj_base.specs.declared.stop.Stop.TheVariants.{ReadFault as ReadFailed};
ghost use Rattle.use_report.specs.Counted.{Grows};
ghost use Rattle.use_report.specs.Given.{IsGiven};
ghost use Rattle.use_report.specs.Heads.{ArePlaced};
ghost use Rattle.use_report.specs.Leaves.{AddsNode};
ghost use Rattle.use_report.specs.Runs.{AreOwnSets, AreViewSets};
ghost use Rattle.use_report.specs.Sharing as spec;
ghost use Rattle.use_report.specs.Sharing.{bytes_of, AddsShare, AreShared, AreInOrder, IsOwn, AddsOwns, IsReachOf, AreHeldBy};
ghost use Rattle.use_report.specs.Views.{views_kept};

use crate::UseFault;
use crate::heads::heads_of;
use crate::holding::{add_references, add_super};
use crate::kept::KeptView;
use crate::leaves::add_leaf;
use crate::pieces::Pieces;
use apfs_model::NoMemory;
use blk_read::read_block;
use blk_source::BlockSource;
use bt_keys::{FsKey, FsPlainKey};
use bt_node::NodeAt;
use obj_base::{Site, Stop};
use piece_count::Holdings;
use std::alloc::Global;
use view_sweep::{Reach, Share, SharedAs, ViewSet, reach_by_views};
use vol_view::Volume;

// Whether the object of a record may be a leaf: the level of a root stands in its block.
fn may_be_leaf(expected: SharedAs) -> bool
    ensures { result ≡ spec.may_be_leaf expected }
{
    match expected {
        SharedAs::Root => true,
        SharedAs::Metadata => false,
        SharedAs::Node { level } => level == 0,
    }
}

// The place of the node of a record.
fn place_of(share: &Share) -> NodeAt {
    let oid = share.used.mapping.oid;
    match share.expected {
        SharedAs::Node { level } => NodeAt {
            oid,
            root: false,
            level: Some(level),
        },
        _ => NodeAt {
            oid,
            root: true,
            level: None,
        },
    }
}

// Adds the blocks of the extents whose records stand in a node, where it is a leaf; false where something is wrong with it.
fn add_node(held: &mut Pieces, site: &Site, share: &Share, bytes: &[u8]) -> Result<bool, NoMemory>
    requires accepted { is_accepted site.now.block_size ≡ true }
    requires long { length bytes.now ≡ site.now.block_size }
    ensures { IfOk result (λ whole. IsTrue whole → AddsNode share.now.hashed site.now bytes.now held.old held.new) }
{
    let at = place_of(share);
    if share.hashed {
        add_leaf::<FsKey>(held, site, &at, bytes)
    } else {
        add_leaf::<FsPlainKey>(held, site, &at, bytes)
    }
}

// Adds the block of a record, and where it is a leaf the blocks of the extents whose records stand in it.
#[tactic(auto, using(view_sweep::proofs::Sizes::accepted_size))]
fn add_share<S: BlockSource>(
    src: &mut S,
    site: &Site,
    share: &Share,
    block: &mut Vec<u8>,
    held: &mut Pieces,
) -> Result<bool, Stop<UseFault>>
    requires site { IsSiteFor site.now (S.bytes_len src.old) }
    requires inside { in_container site.now.blocks share.now.used.mapping.paddr ≡ Some share.now.used.mapping.paddr }
    requires long { length block.old.items ≡ site.now.block_size }
    ensures added { (image : List ℕ) → S.bytes src.old ≡ Some image → IfOk result (λ whole. IsTrue whole → AddsShare image site.now share.now held.old held.new) }
    ensures long { length block.new.items ≡ site.now.block_size }
    ensures free { IfErr result IsFree }
    ensures cause { IsErrOf result ReadFailed → Rose (S.faults src.old) (S.faults src.new) }
    ensures kept { IsKept S.bytes S.bytes_len S.faults src.old src.new }
{
    let _size = src.size();
    held.add(share.used.mapping.paddr, 1)?;
    if !may_be_leaf(share.expected) {
        return Ok(true);
    }
    read_block(src, share.used.mapping.paddr, block)?;
    let whole = add_node(held, site, share, block)?;
    Ok(whole)
}

// The same for each of some records and the views of its set, which comes after those of so many views.
fn add_shares<S: BlockSource>(
    alloc: Global,
    src: &mut S,
    site: &Site,
    sets: &[ViewSet],
    shares: &[Share],
    many: usize,
    held: &mut Pieces,
) -> Result<bool, Stop<UseFault>>
    requires site { IsSiteFor site.now (S.bytes_len src.old) }
    requires few { many + length sets.now < 2 ^ 64 }
    requires order { AreInOrder site.now.blocks many sets.now shares.now }
    requires none { held.old.all.pieces.items ≡ [] }
    requires sets { AreViewSets sets.now many held.old.all.sets.items }
    ensures held { (image : List ℕ) → S.bytes src.old ≡ Some image → IfOk result (λ whole. IsTrue whole → AreShared image site.now sets.now many shares.now held.new.all) }
    ensures sets { (image : List ℕ) → S.bytes src.old ≡ Some image → IfOk result (λ whole. IsTrue whole → AreViewSets sets.now many held.new.all.sets.items) }
    ensures free { IfErr result IsFree }
    ensures cause { IsErrOf result ReadFailed → Rose (S.faults src.old) (S.faults src.new) }
    ensures kept { IsKept S.bytes S.bytes_len S.faults src.old src.new }
{
    let mut block = vec![in alloc; 0u8; site.block_size as usize]?;
    'shares: for share in shares {
        held.turn(many + share.set);
        match add_share(src, site, share, &mut block, held) {
            Ok(true) => {}
            Ok(false) => return Ok(false),
            Err(stop) => return Err(stop),
        }
    }
    Ok(true)
}

// A stop that tells of the image gives up, and another is handed on.
fn given_up<F: Drop>(stop: Stop<F>) -> Result<(), Stop<UseFault>>
    ensures free { IfErr result IsFree }
    ensures cause { IsErrOf result ReadFailed → stop ≡ ReadFailed }
{
    match stop {
        Stop::ReadFault => Err(Stop::ReadFault),
        Stop::NoMemory => Err(Stop::NoMemory),
        _ => Ok(()),
    }
}

// Adds what is a view's own: the nodes of its extent reference tree, and a snapshot's superblock; false where something is wrong
// with the tree.
fn add_own<S: BlockSource>(
    alloc: Global,
    src: &mut S,
    kept: &KeptView,
    site: &Site,
    held: &mut Pieces,
) -> Result<bool, Stop<UseFault>>
    requires site { IsSiteFor site.now (S.bytes_len src.old) }
    ensures added { (image : List ℕ) → S.bytes src.old ≡ Some image → IfOk result (λ whole. IsTrue whole → Grows held.old held.new (IsOwn image site.now kept.now)) }
    ensures free { IfErr result IsFree }
    ensures cause { IsErrOf result ReadFailed → Rose (S.faults src.old) (S.faults src.new) }
    ensures kept { IsKept S.bytes S.bytes_len S.faults src.old src.new }
{
    match add_references(alloc, src, kept, site, held) {
        Ok(()) => {}
        Err(stop) => {
            given_up(stop)?;
            return Ok(false);
        }
    }
    add_super(held, kept)?;
    Ok(true)
}

// The same for each view.
fn add_owns<S: BlockSource>(
    alloc: Global,
    src: &mut S,
    views: &[KeptView],
    site: &Site,
    held: &mut Pieces,
) -> Result<bool, Stop<UseFault>>
    requires site { IsSiteFor site.now (S.bytes_len src.old) }
    ensures added { (image : List ℕ) → S.bytes src.old ≡ Some image → AreOwnSets (length views.now) held.old.all.sets.items → IfOk result (λ whole. IsTrue whole → AddsOwns image site.now views.now (length views.now) held.old.all held.new.all) }
    ensures free { IfErr result IsFree }
    ensures cause { IsErrOf result ReadFailed → Rose (S.faults src.old) (S.faults src.new) }
    ensures kept { IsKept S.bytes S.bytes_len S.faults src.old src.new }
{
    'views: for i in 0..views.len() {
        held.turn(i);
        match add_own(alloc, src, &views[i], site, held) {
            Ok(true) => {}
            Ok(false) => return Ok(false),
            Err(stop) => return Err(stop),
        }
    }
    Ok(true)
}

// The records that the views of a volume use; none where something is wrong with one of them.
fn reached<S: BlockSource>(
    alloc: Global,
    src: &mut S,
    volume: &Volume,
    views: &[KeptView],
    site: &Site,
) -> Result<Option<Reach>, Stop<UseFault>>
    requires site { IsSiteFor site.now (S.bytes_len src.old) }
    requires placed { ArePlaced views.now }
    ensures reached { (image : List ℕ) → S.bytes src.old ≡ Some image → (seen : Seen) → site.now ≡ site_of seen → IsGiven image seen volume.now → IfOk result (λ found. IfSome found (IsReachOf image seen volume.now views.now)) }
    ensures order { IfOk result (λ found. IfSome found (λ reach. AreInOrder site.now.blocks (length views.now) reach.sets.items reach.shares.items)) }
    ensures free { IfErr result IsFree }
    ensures cause { IsErrOf result ReadFailed → Rose (S.faults src.old) (S.faults src.new) }
    ensures kept { IsKept S.bytes S.bytes_len S.faults src.old src.new }
{
    let heads = heads_of(alloc, volume, views)?;
    match reach_by_views(alloc, src, site, std::slice::from_ref(volume), &heads) {
        Ok(reach) => Ok(Some(reach)),
        Err(stop) => {
            given_up(stop)?;
            Ok(None)
        }
    }
}

/// The pieces of the blocks that the views of a volume hold, each view by its place: each node that many of them share is read
/// once. None where something is wrong with one of the views, or where there is one alone, which shares nothing.
pub(crate) fn held_by_sweep<S: BlockSource>(
    alloc: Global,
    src: &mut S,
    volume: &Volume,
    views: &[KeptView],
    site: &Site,
) -> Result<Option<Holdings>, Stop<UseFault>>
    requires site { IsSiteFor site.now (S.bytes_len src.old) }
    requires placed { ArePlaced views.now }
    ensures held { (image : List ℕ) → S.bytes src.old ≡ Some image → (seen : Seen) → site.now ≡ site_of seen → views.now ≡ views_kept volume.now seen → IsGiven image seen volume.now → IfOk result (λ found. IfSome found (AreHeldBy image seen volume.now views.now)) }
    ensures free { IfErr result IsFree }
    ensures cause { IsErrOf result ReadFailed → Rose (S.faults src.old) (S.faults src.new) }
    ensures kept { IsKept S.bytes S.bytes_len S.faults src.old src.new }
{
    let _blocks = site.blocks;
    if views.len() < 2 {
        return Ok(None);
    }
    let reach = match reached(alloc, src, volume, views, site) {
        Ok(Some(reach)) => reach,
        Ok(None) => return Ok(None),
        Err(stop) => return Err(stop),
    };
    let mut held = Pieces::new(alloc, &reach.sets, views.len())?;
    match add_shares(
        alloc,
        src,
        site,
        &reach.sets,
        &reach.shares,
        views.len(),
        &mut held,
    ) {
        Ok(true) => {}
        Ok(false) => return Ok(None),
        Err(stop) => return Err(stop),
    }
    match add_owns(alloc, src, views, site, &mut held) {
        Ok(true) => Ok(Some(held.all)),
        Ok(false) => Ok(None),
        Err(stop) => Err(stop),
    }
}
