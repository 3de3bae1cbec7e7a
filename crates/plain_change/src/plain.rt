// Whether a change is plain.
ghost use Rattle.std.specs.Prelude.{◌≡◌, ◌<◌, None, find, IfOk, IsTrue};
ghost use Rattle.ext_ref.specs.Spans.{IsCoverOf};
ghost use Rattle.view_rules.specs.Facts as facts;
ghost use Rattle.view_rules.specs.Names as names;
ghost use Rattle.view_rules.specs.Words.{IsClear};
ghost use Rattle.view_rules.specs.Rules.{HasFactRules};
ghost use Rattle.view_rules.specs.declared.profile.Profile.TheVariants.{Strict};
ghost use Rattle.rule_changes.specs.Changes as spec;
ghost use Rattle.rule_changes.specs.Known.{is_nameless};
ghost use Rattle.plain_change.specs.Parts.{AreNamesRight, AreInodesRight};

use crate::entries::{are_entries_right, have_name_hashes};
use crate::extents::are_streams_right;
use crate::lookups::After;
use crate::removed::are_let_go;
use crate::repeats::{are_attributes_right, are_entries_alone};
use crate::shared::are_still_shared;
use crate::siblings::are_fellows_right;
use crate::touched::{
    Children, DirectoryNames, Links, Named, Targets, do_refilled_keep, do_renamed_keep,
    do_stripped_keep,
};
use crate::ways::have_ways;
use blk_source::NoMemory;
use ext_ref::Cover;
use rule_breaks::directories::is_root_named;
use rule_breaks::entries::has_root;
use rule_breaks::faults::Asked;
use rule_index::Index;
use std::alloc::Global;
use view_facts::Facts;
use view_rules::Profile;

// Whether names, siblings and attributes that are gone or have come are as they must be.
fn are_names_right(after: &After<'_>, gone: &Facts, come: &Facts) -> bool
    ensures { IsTrue result → AreNamesRight after.now.index.now.facts.now gone.now come.now }
{
    if !are_fellows_right(after, gone, come) {
        return false;
    }
    if !are_entries_alone(after, come) {
        return false;
    }
    are_attributes_right(after, come)
}

// Whether the root, inodes that are gone, and those of whose ids something speaks are as they must be.
fn are_inodes_right(after: &After<'_>, gone: &Facts, come: &Facts) -> bool
    ensures { IsTrue result → AreInodesRight after.now.index.now.facts.now gone.now come.now }
{
    if !has_root(after.index) {
        return false;
    }
    if is_root_named(after.index) {
        return false;
    }
    if !are_let_go(after, gone, come) {
        return false;
    }
    if !do_renamed_keep::<DirectoryNames>(after, gone, come) {
        return false;
    }
    if !do_renamed_keep::<Links>(after, gone, come) {
        return false;
    }
    if !do_refilled_keep::<Children>(after, gone, come) {
        return false;
    }
    do_stripped_keep::<Targets>(after, gone, come) && have_ways(after, gone, come)
}

// Whether the hashes of names that aren't ASCII are right, where that is a rule.
fn are_hashes_right(
    alloc: Global,
    profile: Profile,
    facts: &Facts,
    come: &Facts,
) -> Result<bool, NoMemory>
    ensures { IfOk result (λ right. IsTrue right → profile ≡ Strict → find (names.has_other_name_hash facts.now) come.now.entries ≡ None) }
{
    match profile {
        Profile::Plain => Ok(true),
        Profile::Strict => have_name_hashes(alloc, facts, come),
    }
}

/// Whether it shows that a change is plain, by what is gone, what has come, and an index of the facts after. Where it doesn't, the change may be plain and may not be. `cover` is that
/// of the new ranges.
///
/// # Errors
///
/// `NoMemory`: an allocation failed.
pub fn is_plain(
    alloc: Global,
    asked: &Asked<'_>,
    cover: &Cover,
    index: &Index<'_>,
    gone: &Facts,
    come: &Facts,
) -> Result<bool, NoMemory>
    requires size { 0 < asked.now.site.now.block_size }
    requires cover { IsCoverOf asked.now.ranges.now cover.now }
    ensures { IfOk result (λ plain. IsTrue plain → (before same : facts.Facts) → HasFactRules asked.now.profile asked.now.site.now asked.now.ranges.now before → spec.IsChange before index.now.facts.now gone.now come.now same → spec.IsPlainChange asked.now.profile asked.now.site.now asked.now.ranges.now before index.now.facts.now gone.now come.now) }
{
    let hashed = are_hashes_right(alloc, asked.profile, index.facts, come)?;
    if !hashed {
        return Ok(false);
    }
    let Some(after) = After::of(index, gone, come) else {
        return Ok(false);
    };
    if !are_entries_right(index, come) {
        return Ok(false);
    }
    if !are_names_right(&after, gone, come) {
        return Ok(false);
    }
    if !are_inodes_right(&after, gone, come) {
        return Ok(false);
    }
    let shared = are_still_shared(alloc, index, gone, come)?;
    if !shared {
        return Ok(false);
    }
    Ok(are_streams_right(asked, cover, &after, gone, come))
}

/// Whether it shows that a view has no notes where the view before has none, by what is gone, what has come, and an index of the facts after.
///
/// # Errors
///
/// `NoMemory`: an allocation failed.
pub fn is_silent(
    alloc: Global,
    index: &Index<'_>,
    gone: &Facts,
    come: &Facts,
) -> Result<bool, NoMemory>
    ensures nameless { IfOk result (λ silent. IsTrue silent → (before same : facts.Facts) → spec.IsChange before index.now.facts.now gone.now come.now same → IsClear (is_nameless before) before.inodes → IsClear (is_nameless index.now.facts.now) index.now.facts.now.inodes) }
    ensures hashes { IfOk result (λ silent. IsTrue silent → (before same : facts.Facts) → spec.IsChange before index.now.facts.now gone.now come.now same → names.HasNameHashes before → names.HasNameHashes index.now.facts.now) }
{
    let hashed = have_name_hashes(alloc, index.facts, come)?;
    if !hashed {
        return Ok(false);
    }
    let Some(after) = After::of(index, gone, come) else {
        return Ok(false);
    };
    Ok(do_renamed_keep::<Named>(&after, gone, come))
}
