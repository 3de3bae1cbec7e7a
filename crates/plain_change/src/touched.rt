// The rules on inodes of whose ids something speaks that is gone or has come.
ghost use Rattle.std.specs.Prelude.{◌≡◌, Bool, IsTrue};
ghost use Rattle.std.specs.List.{list_any};
ghost use Rattle.fs_record.specs.Facts.{Fact};
ghost use Rattle.fs_record.specs.Inodes.{Inode};
ghost use Rattle.fs_record.specs.Entries.{Entry};
ghost use Rattle.fs_record.specs.Attributes.{Attribute};
ghost use Rattle.view_rules.specs.Facts as facts;
ghost use Rattle.rule_changes.specs.Changes as spec;
ghost use Rattle.plain_change.specs.Lookups.{breaks_at};

use crate::lookups::After;
use rule_breaks::directories::is_misnamed;
use rule_breaks::inodes::lacks_target;
use rule_breaks::links::{has_other_children, has_other_links};
use rule_index::Index;
use view_facts::{Facts, InodeFact};

/// A rule on inodes.
pub(crate) trait InodeRule {
    ghost breaks: { facts.Facts → Fact Inode → Bool };

    /// Whether an inode breaks it.
    fn is_broken(index: &Index<'_>, f: &InodeFact) -> bool
        ensures { result ≡ breaks index.now.facts.now f.now };
}

/// The entries of directories.
pub(crate) struct DirectoryNames;

impl InodeRule for DirectoryNames {
    ghost use Rattle.view_rules.specs.Directories as rules;

    ghost breaks = { rules.is_misnamed };

    fn is_broken(index: &Index<'_>, f: &InodeFact) -> bool {
        is_misnamed(index, f)
    }
}

/// The numbers of links.
pub(crate) struct Links;

impl InodeRule for Links {
    ghost use Rattle.view_rules.specs.Counts as rules;

    ghost breaks = { rules.has_other_links };

    fn is_broken(index: &Index<'_>, f: &InodeFact) -> bool {
        has_other_links(index, f)
    }
}

/// The numbers of children.
pub(crate) struct Children;

impl InodeRule for Children {
    ghost use Rattle.view_rules.specs.Counts as rules;

    ghost breaks = { rules.has_other_children };

    fn is_broken(index: &Index<'_>, f: &InodeFact) -> bool {
        has_other_children(index, f)
    }
}

/// The targets of symbolic links.
pub(crate) struct Targets;

impl InodeRule for Targets {
    ghost use Rattle.view_rules.specs.Inodes as rules;

    ghost breaks = { rules.lacks_target };

    fn is_broken(index: &Index<'_>, f: &InodeFact) -> bool {
        lacks_target(index, f)
    }
}

/// That an inode which is no directory has an entry.
pub(crate) struct Named;

impl InodeRule for Named {
    ghost use Rattle.rule_changes.specs.Known.{is_nameless};

    ghost breaks = { is_nameless };

    fn is_broken(index: &Index<'_>, f: &InodeFact) -> bool {
        f.id() >= 16 && f.kind() != 4 && !index.is_named(f.id())
    }
}

// Whether the inode of an id breaks a rule.
fn is_broken_at<R: InodeRule>(after: &After<'_>, id: u64) -> bool
    ensures { result ≡ breaks_at (R.breaks after.now.index.now.facts.now) after.now.index.now.facts.now id }
{
    match after.inode(id) {
        Some(f) => R::is_broken(after.index, f),
        None => false,
    }
}

// Whether an inode that has come breaks a rule.
fn is_come_broken<R: InodeRule>(after: &After<'_>, come: &Facts) -> bool
    ensures { result ≡ list_any (λ (f : Fact Inode). breaks_at (R.breaks after.now.index.now.facts.now) after.now.index.now.facts.now f.id) come.now.inodes }
{
    come.inodes.iter().any(|f| is_broken_at::<R>(after, f.id()))
}

// Whether the inode of a file that some entry names breaks a rule.
fn is_named_broken<R: InodeRule>(after: &After<'_>, some: &Facts) -> bool
    ensures { result ≡ list_any (λ (e : Fact Entry). breaks_at (R.breaks after.now.index.now.facts.now) after.now.index.now.facts.now e.what.file_id) some.now.entries }
{
    some.entries
        .iter()
        .any(|e| is_broken_at::<R>(after, e.file_id()))
}

// Whether the inode of a directory in which some entry stands breaks a rule.
fn is_filled_broken<R: InodeRule>(after: &After<'_>, some: &Facts) -> bool
    ensures { result ≡ list_any (λ (e : Fact Entry). breaks_at (R.breaks after.now.index.now.facts.now) after.now.index.now.facts.now e.id) some.now.entries }
{
    some.entries
        .iter()
        .any(|e| is_broken_at::<R>(after, e.id()))
}

// Whether the inode of a file that has some attribute breaks a rule.
fn is_owner_broken<R: InodeRule>(after: &After<'_>, some: &Facts) -> bool
    ensures { result ≡ list_any (λ (a : Fact Attribute). breaks_at (R.breaks after.now.index.now.facts.now) after.now.index.now.facts.now a.id) some.now.attributes }
{
    some.attributes
        .iter()
        .any(|a| is_broken_at::<R>(after, a.id()))
}

/// Whether a rule holds of the inodes that have come, and of those of which an entry is gone or has come.
pub(crate) fn do_renamed_keep<R: InodeRule>(after: &After<'_>, gone: &Facts, come: &Facts) -> bool
    ensures { IsTrue result → spec.HasDistinctInodes after.now.index.now.facts.now → spec.IsClearWhere (spec.is_renamed gone.now come.now) (R.breaks after.now.index.now.facts.now) after.now.index.now.facts.now.inodes }
{
    if is_come_broken::<R>(after, come) {
        return false;
    }
    !is_named_broken::<R>(after, gone) && !is_named_broken::<R>(after, come)
}

/// Whether a rule holds of the inodes that have come, and of those of whose directory an entry is gone or has come.
pub(crate) fn do_refilled_keep<R: InodeRule>(after: &After<'_>, gone: &Facts, come: &Facts) -> bool
    ensures { IsTrue result → spec.HasDistinctInodes after.now.index.now.facts.now → spec.IsClearWhere (spec.is_refilled gone.now come.now) (R.breaks after.now.index.now.facts.now) after.now.index.now.facts.now.inodes }
{
    if is_come_broken::<R>(after, come) {
        return false;
    }
    !is_filled_broken::<R>(after, gone) && !is_filled_broken::<R>(after, come)
}

/// Whether a rule holds of the inodes that have come, and of those of which an attribute is gone.
pub(crate) fn do_stripped_keep<R: InodeRule>(after: &After<'_>, gone: &Facts, come: &Facts) -> bool
    ensures { IsTrue result → spec.HasDistinctInodes after.now.index.now.facts.now → spec.IsClearWhere (spec.is_stripped gone.now come.now) (R.breaks after.now.index.now.facts.now) after.now.index.now.facts.now.inodes }
{
    !is_come_broken::<R>(after, come) && !is_owner_broken::<R>(after, gone)
}
