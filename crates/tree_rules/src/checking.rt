// Whether a view meets its rules.
ghost use Rattle.std.specs.Prelude.{◌≡◌, ◌+◌, ◌≤◌, ℕ, List, length, Some, IfOk, IfErr, IsErrOf, OnOk};
ghost use Rattle.apfs_model.specs.Counts.{Rose};
ghost use Rattle.apfs_model.specs.Kept.{IsKept};
ghost use Rattle.obj_base.specs.Site.{IsSiteFor};
ghost use Rattle.obj_base.specs.Stops.{Tells};
ghost use Rattle.obj_base.specs.declared.stop.Stop.TheVariants.{ReadFault};
ghost use Rattle.vol_view.specs.Views.{IsViewFeature};
ghost use Rattle.vol_view.specs.Placed.{view_nodes};
ghost use Rattle.view_rules.specs.Rules.{HasTreeRules, IsTreeFault};
ghost use Rattle.tree_rules.specs.Tallies.{IsTally};

use crate::gathered::tally_of;
use crate::{Profile, ViewTally};
use blk_source::BlockSource;
use ext_ref::NewRange;
use obj_base::{Site, Stop};
use rule_breaks::faults::Asked;
use std::alloc::Global;
use view_facts::view_facts;
use view_rules::TreeFault;
use vol_view::{View, Volume};

/// The number of records and the notes of a view that meets its rules under a profile. `ranges` are the new ranges of the
/// volume and of its snapshots. A fault or a feature that is named is there.
pub fn check_view<S: BlockSource>(
    alloc: Global,
    src: &mut S,
    volume: &Volume,
    view: &View,
    ranges: &[NewRange],
    site: &Site,
    profile: Profile,
) -> Result<ViewTally, Stop<TreeFault>>
    requires site { IsSiteFor site.now (S.bytes_len src.old) }
    ensures clear { (image : List ℕ) → S.bytes src.old ≡ Some image → OnOk result (HasTreeRules profile image site.now volume.now view.now ranges.now) }
    ensures value { (image : List ℕ) → S.bytes src.old ≡ Some image → IfOk result (IsTally profile image site.now volume.now view.now) }
    ensures present { (image : List ℕ) → S.bytes src.old ≡ Some image → IfErr result (Tells (IsTreeFault profile image site.now volume.now view.now ranges.now) (IsViewFeature image site.now volume.now view.now)) }
    ensures reads { (image : List ℕ) → S.bytes src.old ≡ Some image → OnOk result (S.reads src.new ≤ S.reads src.old + length (view_nodes image site.now volume.now view.now)) }
    ensures cause { IsErrOf result ReadFault → Rose (S.faults src.old) (S.faults src.new) }
    ensures kept { IsKept S.bytes S.bytes_len S.faults src.old src.new }
{
    let gathered = match view_facts(alloc, src, volume, view, site) {
        Ok(gathered) => gathered,
        Err(stop) => return Err(stop),
    };
    let asked = Asked {
        view,
        site,
        ranges,
        profile,
    };
    match tally_of(alloc, &asked, &gathered.facts, gathered.records) {
        Ok(tally) => Ok(tally),
        Err(stop) => Err(stop),
    }
}
