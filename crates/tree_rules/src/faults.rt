// The first fault that the facts of a view show.
ghost use Rattle.std.specs.Prelude.{◌<◌, IfOk};
ghost use Rattle.rule_breaks.specs.Faults as spec;
ghost use Rattle.tree_rules.specs.Groups as groups;
ghost use Rattle.view_rules.specs.Rules.{HasFactRules};

mod hashes;

use blk_source::NoMemory;
use rule_breaks::faults::{
    Asked, counts, directories, entries, extents, inodes, names, siblings, ways,
};
use rule_index::Index;
use std::alloc::Global;
use view_rules::TreeFault;

// A fault of the names of directories, of the ways to them, or of what is counted.
fn directory_fault(
    alloc: Global,
    asked: &Asked<'_>,
    index: &Index<'_>,
) -> Result<Option<TreeFault>, NoMemory>
    ensures { IfOk result (spec.IsFirst asked.now index.now.facts.now (groups.HasDirectoryRules index.now.facts.now)) }
{
    let directories = directories::fault(asked, index);
    let ways = ways::fault(alloc, asked, index.facts)?;
    let counts = counts::fault(asked, index);
    Ok(directories.or(ways.or(counts)))
}

// A fault of names, of entries or of directories.
fn naming_fault(
    alloc: Global,
    asked: &Asked<'_>,
    index: &Index<'_>,
) -> Result<Option<TreeFault>, NoMemory>
    ensures { IfOk result (spec.IsFirst asked.now index.now.facts.now (groups.HasNamingRules index.now.facts.now)) }
{
    let names = names::fault(alloc, asked, index.facts)?;
    let entries = entries::fault(alloc, asked, index)?;
    let directories = directory_fault(alloc, asked, index)?;
    Ok(names.or(entries.or(directories)))
}

// A fault of extents, of inodes or of the hashes of names that aren't ASCII.
fn extent_fault(
    alloc: Global,
    asked: &Asked<'_>,
    index: &Index<'_>,
) -> Result<Option<TreeFault>, NoMemory>
    requires { 0 < asked.now.site.now.block_size }
    ensures { IfOk result (spec.IsFirst asked.now index.now.facts.now (groups.HasRulesFromExtents asked.now index.now.facts.now)) }
{
    let extents = extents::fault(alloc, asked, index.facts)?;
    let inodes = inodes::fault(asked, index);
    let hashes = hashes::fault(alloc, asked, index.facts)?;
    Ok(extents.or(inodes.or(hashes)))
}

// A fault of siblings, or one of those.
fn content_fault(
    alloc: Global,
    asked: &Asked<'_>,
    index: &Index<'_>,
) -> Result<Option<TreeFault>, NoMemory>
    requires { 0 < asked.now.site.now.block_size }
    ensures { IfOk result (spec.IsFirst asked.now index.now.facts.now (groups.HasContentRules asked.now index.now.facts.now)) }
{
    let siblings = siblings::fault(alloc, asked, index)?;
    let extents = extent_fault(alloc, asked, index)?;
    Ok(siblings.or(extents))
}

/// A fault that the facts show, where one is there: of the first rule, in the order of the rules, that they break.
pub(crate) fn first_fault(
    alloc: Global,
    asked: &Asked<'_>,
    index: &Index<'_>,
) -> Result<Option<TreeFault>, NoMemory>
    requires { 0 < asked.now.site.now.block_size }
    ensures { IfOk result (spec.IsFirst asked.now index.now.facts.now (HasFactRules asked.now.profile asked.now.site.now asked.now.ranges.now index.now.facts.now)) }
{
    let naming = naming_fault(alloc, asked, index)?;
    let content = content_fault(alloc, asked, index)?;
    Ok(naming.or(content))
}
