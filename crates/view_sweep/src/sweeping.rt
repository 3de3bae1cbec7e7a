// The sweep: all that is wanted of all views, level by level.
ghost use Rattle.std.specs.Prelude.{◌≡◌, ◌==◌, ◌+◌, ◌≤◌, ◌<◌, ◌++◌, ℕ, List, Some, length, map, IfOk, IfErr, OnOk, IsErrOf};
ghost use Rattle.std.specs.List.{filter};
ghost use Rattle.apfs_model.specs.Counts.{Rose};
ghost use Rattle.apfs_model.specs.Kept.{IsKept};
ghost use Rattle.obj_base.specs.Site.{IsSiteFor};
ghost use Rattle.obj_base.specs.declared.stop.Stop.TheVariants.{ReadFault};
ghost use Rattle.view_sweep.specs.Wanted.{head_wants, heads_want, AreBelowHeads};
ghost use Rattle.view_sweep.specs.Found.{world, looked};
ghost use Rattle.view_sweep.specs.Here.{TellsHere};
ghost use Rattle.view_sweep.specs.Hits.{AreBelowViews};
ghost use Rattle.view_sweep.specs.Next.{AreStretches};
ghost use Rattle.view_sweep.specs.Runs.{AreRising};
ghost use Rattle.view_sweep.specs.Sets.{AreSets, AreKept, AreNumbered, AreDistinct, HaveSame, IsSetOfOne, all_asked, asked_with, set_at, view_of};
ghost use Rattle.view_sweep.specs.Shared.{head_views, AreInside, AreShares, IsAbove};
ghost use Rattle.view_sweep.specs.Swept.{AreKids, IsLive, IsSwept, level_of};

use crate::level::take_level;
use crate::next::stretches;
use crate::runs::Run;
use crate::sets::{ViewSet, first_place, in_order, keep, one_of};
use crate::used::Reach;
use crate::wanted::{Asked, Head, SweptView, Want, Wanted};
use blk_source::BlockSource;
use obj_base::{Site, Stop};
use reach_rules::ReachFault;
use std::alloc::{AllocError, Global};
use vol_view::Volume;

// What the superblock of a view wants, of the set of the view.
fn add_head(head: &Head, set: usize, out: &mut Vec<Asked>) -> Result<(), AllocError>
    ensures { OnOk result (out.new.items ≡ out.old.items ++ map (asked_with set) (head_wants head.now)) }
{
    let view = head.view;
    out.push(Asked {
        wanted: Wanted {
            view,
            oid: head.root_oid,
            want: Want::Root,
        },
        set,
    })?;
    if head.meta_ext == 0 {
        return Ok(());
    }
    out.push(Asked {
        wanted: Wanted {
            view,
            oid: head.meta_ext,
            want: Want::Metadata,
        },
        set,
    })?;
    Ok(())
}

// The views, in the order of their heads.
fn views_of(alloc: Global, heads: &[Head]) -> Result<Vec<SweptView>, AllocError>
    ensures { IfOk result (λ views. views.items ≡ map (λ h. h.view) heads.now) }
{
    heads.iter().map(|head| head.view).collect(alloc)
}

// Keeps the set of the view at a place, where so many at the front stand one before the other.
fn keep_one(
    alloc: Global,
    views: &[SweptView],
    at: usize,
    ordered: usize,
    sets: &mut Vec<ViewSet>,
) -> Result<usize, AllocError>
    requires at { at < length views.now }
    requires ordered { AreDistinct views.now ordered }
    ensures kept { IfOk result (λ n. AreKept sets.old.items sets.new.items) }
    ensures inside { IfOk result (λ n. n < length sets.new.items) }
    ensures one { IfOk result (λ n. IsSetOfOne views.now (set_at sets.new.items n) (view_of views.now at)) }
    ensures sets { OnOk result (AreSets views.now sets.old.items → AreSets views.now sets.new.items) }
{
    let set = one_of(alloc, first_place(views, at, ordered))?;
    let number = keep(sets, set)?;
    Ok(number)
}

// What the superblocks of some views want.
fn wants(
    alloc: Global,
    views: &[SweptView],
    heads: &[Head],
    sets: &mut Vec<ViewSet>,
) -> Result<Vec<Asked>, AllocError>
    requires views { views.now ≡ map (λ h. h.view) heads.now }
    requires sets { AreSets views.now sets.old.items }
    ensures all { IfOk result (λ wants. HaveSame (all_asked views.now sets.new.items wants.items) (heads_want heads.now)) }
    ensures numbers { IfOk result (λ wants. AreNumbered (length sets.new.items) wants.items) }
    ensures sets { OnOk result (AreSets views.now sets.new.items) }
{
    let ordered = in_order(views);
    let mut wants = Vec::new(alloc);
    for at in 0..heads.len() {
        let set = keep_one(alloc, views, at, ordered, sets)?;
        add_head(&heads[at], set, &mut wants)?;
    }
    Ok(wants)
}

// Adds what is asked for at a level.
fn add_level(kids: &[Asked], level: u16, out: &mut Vec<Asked>) -> Result<(), AllocError>
    ensures { OnOk result (out.new.items ≡ out.old.items ++ filter (λ a. level_of a.wanted == level) kids.now) }
{
    for kid in kids {
        if kid.wanted.level() == level {
            out.push(*kid)?;
        }
    }
    Ok(())
}

// Takes the levels from the highest down to 0: of each what waits for it, and what superblocks lead to.
fn levels<S: BlockSource>(
    alloc: Global,
    src: &mut S,
    site: &Site,
    volumes: &[Volume],
    heads: &[Head],
    views: &[SweptView],
    stretches: &[Run],
    kids: &[Asked],
    block: &mut Vec<u8>,
    out: &mut Reach,
) -> Result<(), Stop<ReachFault>>
    requires site { IsSiteFor site.now (S.bytes_len src.old) }
    requires long { length block.old.items ≡ site.now.block_size }
    requires rising { AreRising stretches.now }
    requires stretches { AreStretches views.now stretches.now }
    requires below { AreBelowViews (length volumes.now) views.now }
    requires inside { AreInside site.now.blocks views.now out.old.sets.items out.old.shares.items }
    requires numbers { AreNumbered (length out.old.sets.items) kids.now }
    requires kids { (image : List ℕ) → S.bytes src.old ≡ Some image → AreKids (world volumes.now site.now image) heads.now (all_asked views.now out.old.sets.items kids.now) }
    requires top { (image : List ℕ) → S.bytes src.old ≡ Some image → IsSwept (world volumes.now site.now image) heads.now 16 out.old.used.items }
    requires shares { (image : List ℕ) → S.bytes src.old ≡ Some image → AreShares (looked volumes.now site.now) views.now (IsAbove (world volumes.now site.now image) heads.now 16) out.old.sets.items out.old.shares.items }
    ensures clear { (image : List ℕ) → S.bytes src.old ≡ Some image → OnOk result (IsSwept (world volumes.now site.now image) heads.now 0 out.new.used.items) }
    ensures shares { (image : List ℕ) → S.bytes src.old ≡ Some image → OnOk result (AreShares (looked volumes.now site.now) views.now (IsAbove (world volumes.now site.now image) heads.now 0) out.new.sets.items out.new.shares.items) }
    ensures inside { OnOk result (AreInside site.now.blocks views.now out.new.sets.items out.new.shares.items) }
    ensures present { (image : List ℕ) → S.bytes src.old ≡ Some image → IfErr result (TellsHere (world volumes.now site.now image) (IsLive (world volumes.now site.now image) heads.now)) }
    ensures reads { OnOk result (S.reads src.new + length out.old.used.items ≤ S.reads src.old + length out.new.used.items) }
    ensures cause { IsErrOf result ReadFault → Rose (S.faults src.old) (S.faults src.new) }
    ensures kept { IsKept S.bytes S.bytes_len S.faults src.old src.new }
{
    let mut current = Vec::new(alloc);
    let mut level: u16 = 16;
    while level > 0 {
        level -= 1;
        add_level(kids, level, &mut current)?;
        let mut below = Vec::new(alloc);
        let read = match take_level(
            alloc,
            src,
            volumes,
            views,
            stretches,
            site,
            &mut out.sets,
            &mut current,
            block,
            &mut below,
            &mut out.shares,
        ) {
            Ok(read) => read,
            Err(stop) => return Err(stop),
        };
        out.used.extend_from_slice(&read)?;
        current = below;
    }
    Ok(())
}

/// Sweeps the virtual objects of all views at once, level by level: each record of an object map is read once, however
/// many views name its object. What is answered is the records that are used, each once.
pub(crate) fn sweep<S: BlockSource>(
    alloc: Global,
    src: &mut S,
    site: &Site,
    volumes: &[Volume],
    heads: &[Head],
) -> Result<Reach, Stop<ReachFault>>
    requires site { IsSiteFor site.now (S.bytes_len src.old) }
    requires below { AreBelowHeads (length volumes.now) heads.now }
    ensures clear { (image : List ℕ) → S.bytes src.old ≡ Some image → IfOk result (λ reached. IsSwept (world volumes.now site.now image) heads.now 0 reached.used.items) }
    ensures shares { (image : List ℕ) → S.bytes src.old ≡ Some image → IfOk result (λ reached. AreShares (looked volumes.now site.now) (head_views heads.now) (IsAbove (world volumes.now site.now image) heads.now 0) reached.sets.items reached.shares.items) }
    ensures inside { IfOk result (λ reached. AreInside site.now.blocks (head_views heads.now) reached.sets.items reached.shares.items) }
    ensures present { (image : List ℕ) → S.bytes src.old ≡ Some image → IfErr result (TellsHere (world volumes.now site.now image) (IsLive (world volumes.now site.now image) heads.now)) }
    ensures reads { IfOk result (λ reached. S.reads src.new ≤ S.reads src.old + length reached.used.items) }
    ensures cause { IsErrOf result ReadFault → Rose (S.faults src.old) (S.faults src.new) }
    ensures kept { IsKept S.bytes S.bytes_len S.faults src.old src.new }
{
    let mut block = vec![in alloc; 0u8; site.block_size as usize]?;
    let views = views_of(alloc, heads)?;
    let mut sets = Vec::new(alloc);
    let mut first = wants(alloc, &views, heads, &mut sets)?;
    let stretches = stretches(alloc, &views)?;
    let mut kids = Vec::new(alloc);
    let mut shares = Vec::new(alloc);
    let used = match take_level(
        alloc,
        src,
        volumes,
        &views,
        &stretches,
        site,
        &mut sets,
        &mut first,
        &mut block,
        &mut kids,
        &mut shares,
    ) {
        Ok(read) => read,
        Err(stop) => return Err(stop),
    };
    let mut out = Reach { used, shares, sets };
    match levels(
        alloc, src, site, volumes, heads, &views, &stretches, &kids, &mut block, &mut out,
    ) {
        Ok(()) => Ok(out),
        Err(stop) => Err(stop),
    }
}
