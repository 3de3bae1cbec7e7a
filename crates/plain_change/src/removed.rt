// Inodes that are gone: each has come again with its kind, or nothing uses its id.
ghost use Rattle.std.specs.Prelude.{◌≡◌, true, false, All, IsTrue};
ghost use Rattle.view_rules.specs.Facts.{is_directory, entry_count, child_count};
ghost use Rattle.rule_changes.specs.Changes as spec;
ghost use Rattle.plain_change.specs.Parts.{IsLetGo};

use crate::lookups::After;
use rule_index::ordered::{ByInode, Ordered};
use view_facts::{Facts, InodeFact};

// Whether an inode has come of the same id and the same kind.
fn has_double(come: &Facts, inodes: &Ordered<'_, InodeFact, ByInode>, f: &InodeFact) -> bool
    requires { inodes.now ≡ come.now.inodes }
    ensures { result ≡ spec.has_double come.now f.now }
{
    match inodes.first(f.id()) {
        Some(double) => double.kind() == f.kind(),
        None => false,
    }
}

// Whether no entry that counts names a file.
fn has_no_name(after: &After<'_>, f: &InodeFact) -> bool
    ensures { IsTrue result → entry_count after.now.index.now.facts.now f.now.id ≡ 0 }
{
    after.index.entry_count(f.id()) == 0
}

// Whether a file has no attribute.
fn has_no_attribute(after: &After<'_>, f: &InodeFact) -> bool
    ensures { IsTrue result → spec.has_fact f.now.id after.now.index.now.facts.now.attributes ≡ false }
{
    after.attributes_of(f.id()).is_empty()
}

// Whether no entry stands in an inode, if it is a directory.
fn is_empty(after: &After<'_>, f: &InodeFact) -> bool
    ensures { IsTrue result → is_directory f.now.what ≡ true → child_count after.now.index.now.facts.now f.now.id ≡ 0 }
{
    f.kind() != 4 || after.index.child_count(f.id()) == 0
}

// Whether no fact uses the id of an inode.
fn is_unused(after: &After<'_>, f: &InodeFact) -> bool
    ensures { IsTrue result → spec.IsUnused after.now.index.now.facts.now f.now }
{
    has_no_name(after, f) && has_no_attribute(after, f) && is_empty(after, f)
}

// Whether an inode has come again with its kind, or nothing uses its id.
fn is_let_go(
    after: &After<'_>,
    come: &Facts,
    inodes: &Ordered<'_, InodeFact, ByInode>,
    f: &InodeFact,
) -> bool
    requires { inodes.now ≡ come.now.inodes }
    ensures { IsTrue result → IsLetGo after.now.index.now.facts.now come.now f.now }
{
    has_double(come, inodes, f) || is_unused(after, f)
}

/// Whether each inode that is gone has come again with its kind, or nothing uses its id.
pub(crate) fn are_let_go(after: &After<'_>, gone: &Facts, come: &Facts) -> bool
    ensures { IsTrue result → All (IsLetGo after.now.index.now.facts.now come.now) gone.now.inodes }
{
    match Ordered::of(&come.inodes) {
        Some(inodes) => gone
            .inodes
            .iter()
            .all(|f| is_let_go(after, come, &inodes, f)),
        None => false,
    }
}
