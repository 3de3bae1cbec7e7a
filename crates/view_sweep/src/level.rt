// A level: what is wanted of all views at once.
ghost use Rattle.std.specs.Prelude.{◌≡◌, ◌+◌, ◌++◌, ◌≤◌, ℕ, List, Some, length, map, IfOk, IfErr, OnOk, IsErrOf};
ghost use Rattle.apfs_model.specs.Counts.{Rose};
ghost use Rattle.apfs_model.specs.Kept.{IsKept};
ghost use Rattle.obj_base.specs.Site.{IsSiteFor};
ghost use Rattle.obj_base.specs.declared.stop.Stop.TheVariants.{ReadFault};
ghost use Rattle.view_sweep.specs.Found.{world, looked};
ghost use Rattle.view_sweep.specs.Here.{TellsHere, Among};
ghost use Rattle.view_sweep.specs.Hits.{AreBelowViews};
ghost use Rattle.view_sweep.specs.Next.{AreStretches};
ghost use Rattle.view_sweep.specs.Runs.{AreRising};
ghost use Rattle.view_sweep.specs.Sets.{AreSets, AreKept, AreNumbered, all_asked};
ghost use Rattle.view_sweep.specs.Swept.{IsStep};
ghost use Rattle.view_sweep.specs.Shared.{share_of, AddsShares};

use crate::joining::joined;
use crate::looking::hits;
use crate::once::once;
use crate::order::{by_id, by_record};
use crate::reading::read_hits;
use crate::runs::Run;
use crate::sets::ViewSet;
use crate::used::{Hit, Share, Used};
use crate::wanted::{Asked, SweptView};
use blk_source::BlockSource;
use obj_base::{Site, Stop};
use reach_rules::ReachFault;
use std::alloc::{AllocError, Global};
use vol_view::Volume;

// Adds the records of some hits, as the views of their sets use them.
fn add_shares(hits: &[Hit], out: &mut Vec<Share>) -> Result<(), AllocError>
    ensures { OnOk result (out.new.items ≡ out.old.items ++ map share_of hits.now) }
{
    for hit in hits {
        out.push(hit.share())?;
    }
    Ok(())
}

/// Takes a level: each record is read once, however many views want it, and what its object wants in turn is asked for.
pub(crate) fn take_level<S: BlockSource>(
    alloc: Global,
    src: &mut S,
    volumes: &[Volume],
    views: &[SweptView],
    stretches: &[Run],
    site: &Site,
    sets: &mut Vec<ViewSet>,
    current: &mut Vec<Asked>,
    block: &mut Vec<u8>,
    below: &mut Vec<Asked>,
    shares: &mut Vec<Share>,
) -> Result<Vec<Used>, Stop<ReachFault>>
    requires site { IsSiteFor site.now (S.bytes_len src.old) }
    requires long { length block.old.items ≡ site.now.block_size }
    requires below { AreBelowViews (length volumes.now) views.now }
    requires rising { AreRising stretches.now }
    requires stretches { AreStretches views.now stretches.now }
    requires sets { AreSets views.now sets.old.items }
    requires numbers { AreNumbered (length sets.old.items) current.old.items }
    requires waiting { AreNumbered (length sets.old.items) below.old.items }
    ensures step { (image : List ℕ) → S.bytes src.old ≡ Some image → IfOk result (λ read. IsStep (world volumes.now site.now image) (all_asked views.now sets.old.items current.old.items) (all_asked views.now sets.new.items below.old.items) (all_asked views.now sets.new.items below.new.items) read.items) }
    ensures stops { (image : List ℕ) → S.bytes src.old ≡ Some image → IfErr result (TellsHere (world volumes.now site.now image) (Among (all_asked views.now sets.old.items current.old.items))) }
    ensures shares { IfOk result (λ read. AddsShares (looked volumes.now site.now) site.now.blocks views.now (Among (all_asked views.now sets.old.items current.old.items)) sets.new.items shares.old.items shares.new.items) }
    ensures sets { OnOk result (AreSets views.now sets.new.items) }
    ensures numbers { OnOk result (AreNumbered (length sets.new.items) below.new.items) }
    ensures same { OnOk result (AreKept sets.old.items sets.new.items) }
    ensures reads { IfOk result (λ read. S.reads src.new ≤ S.reads src.old + length read.items) }
    ensures long { length block.new.items ≡ site.now.block_size }
    ensures cause { IsErrOf result ReadFault → Rose (S.faults src.old) (S.faults src.new) }
    ensures kept { IsKept S.bytes S.bytes_len S.faults src.old src.new }
{
    by_id(current)?;
    match once(alloc, views, sets, current) {
        Ok(()) => {}
        Err(stop) => return Err(stop),
    }
    let all = joined(alloc, views, sets, current)?;
    let mut found = match hits(alloc, volumes, site, views, stretches, &all, sets) {
        Ok(found) => found,
        Err(stop) => return Err(stop),
    };
    by_record(&mut found);
    let read = match read_hits(alloc, src, site, &found, block, below) {
        Ok(read) => read,
        Err(stop) => return Err(stop),
    };
    add_shares(&found, shares)?;
    Ok(read)
}
