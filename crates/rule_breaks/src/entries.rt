// The rules on entries: each has its directory and its file, of the same kind, and the right hash of an ASCII name.
ghost use Rattle.std.specs.Prelude.{◌≡◌, ◌==◌, not, true};
ghost use Rattle.apfs_model.specs.Lists.{passes};
ghost use Rattle.view_rules.specs.Entries as spec;

use rule_index::Index;
use rule_index::ids::does_count;
use view_facts::EntryFact;

/// Whether an entry that counts stands in what is no directory.
#[tactic(auto, unfolding(view_rules::specs::Entries::lacks_parent))]
pub fn lacks_parent(index: &Index<'_>, e: &EntryFact) -> bool
    ensures { result ≡ spec.lacks_parent index.now.facts.now e.now }
{
    does_count(e) && !index.has_directory(e.id())
}

/// Whether an entry that counts is of a file without an inode.
#[tactic(auto, unfolding(view_rules::specs::Entries::lacks_inode))]
pub fn lacks_inode(index: &Index<'_>, e: &EntryFact) -> bool
    ensures { result ≡ spec.lacks_inode index.now.facts.now e.now }
{
    does_count(e) && !index.has_inode(e.file_id())
}

// Whether there is a kind, and it is another.
fn is_other(kind: Option<u16>, other: u16) -> bool
    ensures { result ≡ passes kind (λ k. not (k == other)) }
{
    match kind {
        Some(kind) => kind != other,
        None => false,
    }
}

/// Whether an entry that counts is of another kind than the inode of its file.
#[tactic(auto, using(rule_index::proofs::KinLooks::kind_passes), unfolding(view_rules::specs::Entries::has_other_kind))]
pub fn has_other_kind(index: &Index<'_>, e: &EntryFact) -> bool
    ensures { result ≡ spec.has_other_kind index.now.facts.now e.now }
{
    does_count(e) && is_other(index.kind(e.file_id()), e.kind())
}

/// Whether each entry that counts has its directory, and its file with its kind, as the index knows.
pub fn are_whole(index: &Index<'_>) -> bool
    ensures { result ≡ true → spec.HasParents index.now.facts.now × (spec.HasFiles index.now.facts.now × spec.HasKinds index.now.facts.now) }
{
    index.has_whole_entries()
}

/// Whether the root is there, and a directory.
#[tactic(auto, unfolding(view_rules::specs::Entries::has_root))]
pub fn has_root(index: &Index<'_>) -> bool
    ensures { result ≡ spec.has_root index.now.facts.now }
{
    index.has_directory(2)
}
