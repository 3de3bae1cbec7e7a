// Faults of extents: their order, their place in the container, and the new ranges that cover them.
ghost use Rattle.std.specs.Prelude.{◌<◌, IfOk};
ghost use Rattle.ext_ref.specs.Spans.{IsCoverOf};
ghost use Rattle.view_rules.specs.Extents as rules;
ghost use Rattle.rule_breaks.specs.Faults as spec;

use super::{Asked, either, id_at};
use crate::extents::{is_misplaced, is_uncovered};
use crate::order::disordered;
use blk_source::NoMemory;
use ext_ref::Cover;
use std::alloc::Global;
use view_facts::Facts;
use view_rules::TreeFault;

// A stream whose extents aren't in order.
#[tactic(auto, using(crate::proofs::Shown::order))]
fn order(alloc: Global, asked: &Asked<'_>, facts: &Facts) -> Result<Option<TreeFault>, NoMemory>
    requires { 0 < asked.now.site.now.block_size }
    ensures { IfOk result (spec.IsFirst asked.now facts.now (rules.HasExtentOrder asked.now.site.now.block_size facts.now)) }
{
    match disordered(alloc, facts, asked.site.block_size)? {
        Some(id) => Ok(Some(TreeFault::ExtentOrder(id_at(asked.view, id)))),
        None => Ok(None),
    }
}

// An extent that leaves the container.
fn place(asked: &Asked<'_>, facts: &Facts) -> Option<TreeFault>
    requires { 0 < asked.now.site.now.block_size }
    ensures { spec.IsFirst asked.now facts.now (rules.HasExtentPlaces asked.now.site.now.block_size asked.now.site.now.blocks facts.now) result }
{
    for f in &facts.extents {
        if is_misplaced(asked.site.block_size, asked.site.blocks, f) {
            return Some(TreeFault::ExtentPlace(id_at(asked.view, f.id())));
        }
    }
    None
}

// An extent that the new ranges don't cover.
fn uncovered(asked: &Asked<'_>, facts: &Facts, cover: &Cover) -> Option<TreeFault>
    requires size { 0 < asked.now.site.now.block_size }
    requires cover { IsCoverOf asked.now.ranges.now cover.now }
    ensures { spec.IsFirst asked.now facts.now (rules.HasCover asked.now.site.now.block_size asked.now.ranges.now facts.now) result }
{
    for f in &facts.extents {
        if is_uncovered(asked.site.block_size, cover, asked.ranges, f) {
            return Some(TreeFault::ExtentUncovered(id_at(asked.view, f.id())));
        }
    }
    None
}

// The same, by a cover that is made of them.
fn cover(alloc: Global, asked: &Asked<'_>, facts: &Facts) -> Result<Option<TreeFault>, NoMemory>
    requires { 0 < asked.now.site.now.block_size }
    ensures { IfOk result (spec.IsFirst asked.now facts.now (rules.HasCover asked.now.site.now.block_size asked.now.ranges.now facts.now)) }
{
    let cover = Cover::of(alloc, asked.ranges)?;
    Ok(uncovered(asked, facts, &cover))
}

/// A fault of an extent, where one is there.
pub fn fault(alloc: Global, asked: &Asked<'_>, facts: &Facts) -> Result<Option<TreeFault>, NoMemory>
    requires { 0 < asked.now.site.now.block_size }
    ensures { IfOk result (spec.IsFirst asked.now facts.now (rules.HasExtentOrder asked.now.site.now.block_size facts.now × (rules.HasExtentPlaces asked.now.site.now.block_size asked.now.site.now.blocks facts.now × rules.HasCover asked.now.site.now.block_size asked.now.ranges.now facts.now))) }
{
    let order = order(alloc, asked, facts)?;
    let place = place(asked, facts);
    let cover = cover(alloc, asked, facts);
    let rest = either(Ok(place), cover);
    either(Ok(order), rest)
}
