// What the views of all volumes reach, said in the namings of the account.
ghost use Rattle.std.specs.Prelude.{◌≡◌, ◌+◌, ◌≤◌, ℕ, List, Some, length, IfOk, IfErr, IsErrOf};
ghost use Rattle.apfs_model.specs.Counts.{Rose};
ghost use Rattle.apfs_model.specs.Kept.{IsKept};
ghost use Rattle.obj_base.specs.Site.{IsSiteFor};
ghost use Rattle.obj_base.specs.Stops.{Tells, IsFree};
ghost use Rattle.obj_base.specs.declared.stop.Stop.TheVariants.{ReadFault};
ghost use Rattle.nx_ring.specs.Checkpoint.{Seen};
ghost use Rattle.reach_rules.specs.declared.naming.Namer.{Namer};
ghost use Rattle.reach_rules.specs.Features.{HasFeature};
ghost use Rattle.reach_rules.specs.Reached.{IsReachedFault};
ghost use Rattle.view_sweep.specs.declared.wanted.SweptView.{SweptView as View};
ghost use Rattle.view_sweep.specs.Wanted.{AreToldHeads, AreBelowHeads};
ghost use Rattle.view_sweep.specs.Named.{head_namings, AreOfImage, AreLive, ArePlainFrom, AreOnceFrom, AreReached};
ghost use Rattle.view_sweep.specs.Shared.{head_views, AreSharedBy, AreInside};

use crate::sweeping::sweep;
use crate::used::{Reach, Used};
use crate::wanted::Head;
use blk_source::BlockSource;
use obj_base::{Site, Stop};
use reach_rules::ReachFault;
use std::alloc::Global;
use vol_view::Volume;

/// Reads what the superblocks of some views lead to, level by level: each record of an object map once, however many views
/// name its object. What is answered is the records that are used, each once, and for each of them the sets of the views
/// through which it is used, and as what. A view that stands twice among the heads is told at its first place.
///
/// # Errors
///
/// `Unnamed` tells of an id that isn't found, `NamedTwice` of one that a view names twice, and `Unsound` of an object that fails
/// a test.
pub fn reach_by_views<S: BlockSource>(
    alloc: Global,
    src: &mut S,
    site: &Site,
    volumes: &[Volume],
    heads: &[Head],
) -> Result<Reach, Stop<ReachFault>>
    requires site { IsSiteFor site.now (S.bytes_len src.old) }
    requires told { AreToldHeads heads.now }
    requires below { AreBelowHeads (length volumes.now) heads.now }
    ensures clear { (image : List ℕ) → S.bytes src.old ≡ Some image → (seen : Seen) → AreOfImage image seen site.now volumes.now heads.now → (supers : View → Namer) → IfOk result (λ reached. AreReached image seen (head_namings supers heads.now) reached.used.items) }
    ensures views { (image : List ℕ) → S.bytes src.old ≡ Some image → (seen : Seen) → AreOfImage image seen site.now volumes.now heads.now → (supers : View → Namer) → IfOk result (λ reached. AreSharedBy image seen (head_views heads.now) (head_namings supers heads.now) reached.sets.items reached.shares.items) }
    ensures inside { IfOk result (λ reached. AreInside site.now.blocks (head_views heads.now) reached.sets.items reached.shares.items) }
    ensures present { (image : List ℕ) → S.bytes src.old ≡ Some image → (seen : Seen) → AreOfImage image seen site.now volumes.now heads.now → (supers : View → Namer) → AreLive image seen (head_namings supers heads.now) → IfErr result (Tells (IsReachedFault image seen) (HasFeature image seen)) }
    ensures exact { (image : List ℕ) → S.bytes src.old ≡ Some image → (seen : Seen) → AreOfImage image seen site.now volumes.now heads.now → (supers : View → Namer) → ArePlainFrom image seen (head_namings supers heads.now) → AreOnceFrom image seen (head_namings supers heads.now) → IfErr result IsFree }
    ensures reads { IfOk result (λ reached. S.reads src.new ≤ S.reads src.old + length reached.used.items) }
    ensures cause { IsErrOf result ReadFault → Rose (S.faults src.old) (S.faults src.new) }
    ensures kept { IsKept S.bytes S.bytes_len S.faults src.old src.new }
{
    match sweep(alloc, src, site, volumes, heads) {
        Ok(reached) => Ok(reached),
        Err(stop) => Err(stop),
    }
}

/// Reads what the superblocks of some views lead to, level by level: each record of an object map once, however many views
/// name its object. What is answered is the records that are used, each once. `Unnamed` tells of an id that isn't found,
/// `NamedTwice` of one that a view names twice, and `Unsound` of an object that fails a test.
pub fn reach_views<S: BlockSource>(
    alloc: Global,
    src: &mut S,
    site: &Site,
    volumes: &[Volume],
    heads: &[Head],
) -> Result<Vec<Used>, Stop<ReachFault>>
    requires site { IsSiteFor site.now (S.bytes_len src.old) }
    requires told { AreToldHeads heads.now }
    requires below { AreBelowHeads (length volumes.now) heads.now }
    ensures clear { (image : List ℕ) → S.bytes src.old ≡ Some image → (seen : Seen) → AreOfImage image seen site.now volumes.now heads.now → (supers : View → Namer) → IfOk result (λ used. AreReached image seen (head_namings supers heads.now) used.items) }
    ensures present { (image : List ℕ) → S.bytes src.old ≡ Some image → (seen : Seen) → AreOfImage image seen site.now volumes.now heads.now → (supers : View → Namer) → AreLive image seen (head_namings supers heads.now) → IfErr result (Tells (IsReachedFault image seen) (HasFeature image seen)) }
    ensures exact { (image : List ℕ) → S.bytes src.old ≡ Some image → (seen : Seen) → AreOfImage image seen site.now volumes.now heads.now → (supers : View → Namer) → ArePlainFrom image seen (head_namings supers heads.now) → AreOnceFrom image seen (head_namings supers heads.now) → IfErr result IsFree }
    ensures reads { IfOk result (λ used. S.reads src.new ≤ S.reads src.old + length used.items) }
    ensures cause { IsErrOf result ReadFault → Rose (S.faults src.old) (S.faults src.new) }
    ensures kept { IsKept S.bytes S.bytes_len S.faults src.old src.new }
{
    match sweep(alloc, src, site, volumes, heads) {
        Ok(reached) => Ok(reached.used),
        Err(stop) => Err(stop),
    }
}
