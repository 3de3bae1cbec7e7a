// The extents of a view.
ghost use Rattle.std.specs.Prelude.{◌≡◌, ◌+◌, ◌≤◌, ℕ, List, length, Some, IfOk, IfErr, IsErrOf, OnOk};
ghost use Rattle.apfs_model.specs.Counts.{Rose};
ghost use Rattle.apfs_model.specs.Kept.{IsKept};
ghost use Rattle.obj_base.specs.Site.{IsSiteFor};
ghost use Rattle.obj_base.specs.Stops.{Tells};
ghost use Rattle.obj_base.specs.declared.stop.Stop.TheVariants.{ReadFault};
ghost use Rattle.ext_ref.specs.declared.range.NewRange.{NewRange};
ghost use Rattle.vol_view.specs.Views.{IsViewFeature};
ghost use Rattle.vol_view.specs.Placed.{view_nodes};
ghost use Rattle.view_rules.specs.Listed.{extents_with_ids};
ghost use Rattle.view_rules.specs.Rules as rules;
ghost use Rattle.view_rules.specs.declared.profile.Profile.{Profile};

use blk_source::BlockSource;
use fs_record::FileExt;
use obj_base::{Site, Stop};
use rule_breaks::extents::extents_with_ids;
use std::alloc::Global;
use view_facts::view_facts;
use view_rules::TreeFault;
use vol_view::{View, Volume};

/// The extents of a view in record order, each after the id of its stream, where its tree is whole and each record can be
/// read. `Unsound`, `Unnamed`, `Order`, `Counts` and `Record` tell what is wrong, where something is.
pub fn view_extents<S: BlockSource>(
    alloc: Global,
    src: &mut S,
    volume: &Volume,
    view: &View,
    site: &Site,
) -> Result<Vec<(u64, FileExt)>, Stop<TreeFault>>
    requires site { IsSiteFor site.now (S.bytes_len src.old) }
    ensures all { (image : List ℕ) → S.bytes src.old ≡ Some image → IfOk result (λ extents. extents.items ≡ extents_with_ids (rules.view_facts image site.now volume.now view.now)) }
    ensures present { (profile : Profile) (ranges : List NewRange) (image : List ℕ) → S.bytes src.old ≡ Some image → IfErr result (Tells (rules.IsTreeFault profile image site.now volume.now view.now ranges) (IsViewFeature image site.now volume.now view.now)) }
    ensures reads { (image : List ℕ) → S.bytes src.old ≡ Some image → OnOk result (S.reads src.new ≤ S.reads src.old + length (view_nodes image site.now volume.now view.now)) }
    ensures cause { IsErrOf result ReadFault → Rose (S.faults src.old) (S.faults src.new) }
    ensures kept { IsKept S.bytes S.bytes_len S.faults src.old src.new }
{
    let gathered = match view_facts(alloc, src, volume, view, site) {
        Ok(gathered) => gathered,
        Err(stop) => return Err(stop),
    };
    Ok(extents_with_ids(alloc, &gathered.facts)?)
}
