// The rules on directories: each has one entry, in the directory of its parent, and the root has none.
ghost use Rattle.std.specs.Prelude.{◌≡◌, ◌==◌, ◌&&◌};
ghost use Rattle.view_rules.specs.Facts.{entry_count, entry_count_in};
ghost use Rattle.view_rules.specs.Directories as spec;

use rule_index::Index;
use view_facts::InodeFact;

/// Whether an inode is a directory of 16 or more.
pub fn is_user_directory(f: &InodeFact) -> bool
    ensures { result ≡ spec.is_user_directory f.now }
{
    f.kind() == 4 && f.id() >= 16
}

/// Whether the root has an entry.
#[tactic(auto, unfolding(view_rules::specs::Directories::is_root_named))]
pub fn is_root_named(index: &Index<'_>) -> bool
    ensures { result ≡ spec.is_root_named index.now.facts.now }
{
    index.entry_count(2) > 0
}

// Whether an inode has exactly one entry, in the directory of its parent.
fn is_at_home(index: &Index<'_>, f: &InodeFact) -> bool
    ensures { result ≡ ((entry_count index.now.facts.now f.now.id == 1) && (entry_count_in index.now.facts.now f.now.id f.now.what.parent == 1)) }
{
    match index.only_home(f.id()) {
        Some(directory) => directory == f.parent(),
        None => false,
    }
}

/// Whether a directory of 16 or more hasn't exactly one entry, in the directory of its parent.
#[tactic(auto, unfolding(view_rules::specs::Directories::is_misnamed))]
pub fn is_misnamed(index: &Index<'_>, f: &InodeFact) -> bool
    ensures { result ≡ spec.is_misnamed index.now.facts.now f.now }
{
    is_user_directory(f) && !is_at_home(index, f)
}
