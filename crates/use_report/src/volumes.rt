// How many blocks the views of a volume hold.
ghost use Rattle.std.specs.Prelude.{◌≡◌, ◌<◌, ℕ, List, Some, length, IfOk, IfErr, IsErrOf};
ghost use Rattle.apfs_model.specs.Counts.{Rose};
ghost use Rattle.apfs_model.specs.Kept.{IsKept};
ghost use Rattle.nx_ring.specs.Checkpoint.{Seen, site_of};
ghost use Rattle.obj_base.specs.Site.{IsSiteFor};
ghost use Rattle.obj_base.specs.Stops.{Tells, IsFree};
ghost use Rattle.obj_base.specs.declared.stop.Stop.TheVariants.{ReadFault, NoMemory};
ghost use Rattle.use_report.specs.Faults.{IsUseFault};
ghost use Rattle.use_report.specs.Stops.{IsUseFeature};
ghost use Rattle.use_report.specs.Given.{IsGiven, IsRight};
ghost use Rattle.use_report.specs.Heads.{ArePlaced};
ghost use Rattle.use_report.specs.Numbers.{IsUsage, told_of};
ghost use Rattle.use_report.specs.Sets.{AreHoldings, AreRightViews, AreFaultsOf, AreFeaturesOf, AreUsesOf, AreNumbersOf};
ghost use Rattle.use_report.specs.Sharing.{AreHeldBy};
ghost use Rattle.use_report.specs.Views.{views_kept};

use crate::UseFault;
use crate::holding::hold;
use crate::kept::{KeptView, kept_views};
use crate::numbers::{Usage, ViewUse};
use crate::pieces::Pieces;
use crate::sharing::held_by_sweep;
use blk_source::BlockSource;
use nx_ring::Checkpoint;
use obj_base::{Site, Stop};
use piece_count::{Holdings, ViewCount, count};
use std::alloc::Global;
use vol_view::Volume;

// The pieces of the blocks that some views hold, each view by its place.
fn held_by_all<S: BlockSource>(
    alloc: Global,
    src: &mut S,
    volume: &Volume,
    views: &[KeptView],
    site: &Site,
) -> Result<Holdings, Stop<UseFault>>
    requires site { IsSiteFor site.now (S.bytes_len src.old) }
    ensures held { (image : List ℕ) → S.bytes src.old ≡ Some image → IfOk result (AreHoldings image site.now volume.now views.now (length views.now)) }
    ensures present { (image : List ℕ) → S.bytes src.old ≡ Some image → IfErr result (Tells (AreFaultsOf image site.now volume.now views.now) (AreFeaturesOf image site.now volume.now views.now)) }
    ensures exact { (image : List ℕ) → S.bytes src.old ≡ Some image → AreRightViews image site.now volume.now views.now → IfErr result IsFree }
    ensures cause { IsErrOf result ReadFault → Rose (S.faults src.old) (S.faults src.new) }
    ensures kept { IsKept S.bytes S.bytes_len S.faults src.old src.new }
{
    let mut held = Pieces::new(alloc, &[], views.len())?;
    'views: for i in 0..views.len() {
        held.turn(i);
        match hold(alloc, src, volume, &views[i], site, &mut held) {
            Ok(()) => {}
            Err(stop) => return Err(stop),
        }
    }
    Ok(held.all)
}

// The same, where a node that many views share is read once unless something is wrong with one of them.
fn held_by_views<S: BlockSource>(
    alloc: Global,
    src: &mut S,
    volume: &Volume,
    views: &[KeptView],
    site: &Site,
) -> Result<Holdings, Stop<UseFault>>
    requires site { IsSiteFor site.now (S.bytes_len src.old) }
    requires placed { ArePlaced views.now }
    ensures held { (image : List ℕ) → S.bytes src.old ≡ Some image → (seen : Seen) → site.now ≡ site_of seen → views.now ≡ views_kept volume.now seen → IsGiven image seen volume.now → IfOk result (AreHeldBy image seen volume.now views.now) }
    ensures present { (image : List ℕ) → S.bytes src.old ≡ Some image → IfErr result (Tells (AreFaultsOf image site.now volume.now views.now) (AreFeaturesOf image site.now volume.now views.now)) }
    ensures exact { (image : List ℕ) → S.bytes src.old ≡ Some image → AreRightViews image site.now volume.now views.now → IfErr result IsFree }
    ensures cause { IsErrOf result ReadFault → Rose (S.faults src.old) (S.faults src.new) }
    ensures kept { IsKept S.bytes S.bytes_len S.faults src.old src.new }
{
    let _blocks = site.blocks;
    match held_by_sweep(alloc, src, volume, views, site) {
        Ok(Some(pieces)) => return Ok(pieces),
        Ok(None) => {}
        Err(stop) => return Err(stop),
    }
    match held_by_all(alloc, src, volume, views, site) {
        Ok(pieces) => Ok(pieces),
        Err(stop) => Err(stop),
    }
}

// The numbers of a view of a transaction.
fn numbers(xid: u64, count: ViewCount) -> ViewUse
    ensures xid { result.xid ≡ xid }
    ensures held { result.held ≡ count.held }
    ensures only { result.only ≡ count.only }
{
    ViewUse {
        xid,
        held: count.held,
        only: count.only,
    }
}

// The numbers of some views, by what is counted of each.
fn uses(
    alloc: Global,
    views: &[KeptView],
    counts: &[ViewCount],
) -> Result<Vec<ViewUse>, Stop<UseFault>>
    requires many { length counts.now ≡ length views.now }
    ensures uses { IfOk result (λ uses. AreUsesOf views.now counts.now uses.items) }
    ensures memory_only { IfErr result (λ stop. stop ≡ NoMemory) }
{
    let mut uses = Vec::new(alloc);
    'views: for i in 0..views.len() {
        uses.push(numbers(views[i].view.xid, counts[i]))?;
    }
    Ok(uses)
}

// The numbers of some views by pieces, and how many blocks some view has.
fn tally(
    alloc: Global,
    views: &[KeptView],
    held: Holdings,
    blocks: u64,
) -> Result<Usage, Stop<UseFault>>
    requires { 0 < length views.now }
    ensures numbers { IfOk result (λ usage. AreNumbersOf blocks views.now held usage.views.items usage.all) }
    ensures memory_only { IfErr result (λ stop. stop ≡ NoMemory) }
{
    let counts = count(alloc, held, views.len(), blocks)?;
    let told = match uses(alloc, views, &counts.views) {
        Ok(told) => told,
        Err(stop) => return Err(stop),
    };
    Ok(Usage {
        views: told,
        all: counts.all,
    })
}

/// How many blocks each view of a volume holds, how many it alone, and how many some view does. `volume` is what `load` gave
/// for this checkpoint and this source. A view holds the blocks of its files' nodes and of its extended metadata, those that
/// its extents cover, the nodes of its extent reference tree, and a snapshot's superblock (Volumes, apfs_superblock_t, and
/// Snapshot Metadata, j_snap_metadata_val_t).
///
/// # Errors
///
/// `Walk`, `Value` and `Outside` tell what is wrong with a view; a feature is that of a node. Of a well-formed container none
/// comes.
pub fn usage<S: BlockSource>(
    alloc: Global,
    src: &mut S,
    cp: &Checkpoint,
    volume: &Volume,
) -> Result<Usage, Stop<UseFault>>
    requires site { IsSiteFor (site_of cp.now) (S.bytes_len src.old) }
    ensures count { (image : List ℕ) → S.bytes src.old ≡ Some image → IsGiven image cp.now volume.now → IfOk result (λ usage. IsUsage image cp.now volume.now (told_of usage)) }
    ensures present { (image : List ℕ) → S.bytes src.old ≡ Some image → IfErr result (Tells (IsUseFault image cp.now volume.now) (IsUseFeature image cp.now volume.now)) }
    ensures exact { (image : List ℕ) → S.bytes src.old ≡ Some image → IsGiven image cp.now volume.now → IsRight image cp.now volume.now → IfErr result IsFree }
    ensures cause { IsErrOf result ReadFault → Rose (S.faults src.old) (S.faults src.new) }
    ensures kept { IsKept S.bytes S.bytes_len S.faults src.old src.new }
{
    let site = cp.site();
    let views = match kept_views(alloc, volume, cp) {
        Ok(views) => views,
        Err(stop) => return Err(stop),
    };
    let pieces = match held_by_views(alloc, src, volume, &views, &site) {
        Ok(pieces) => pieces,
        Err(stop) => return Err(stop),
    };
    match tally(alloc, &views, pieces, site.blocks) {
        Ok(usage) => Ok(usage),
        Err(stop) => Err(stop),
    }
}
