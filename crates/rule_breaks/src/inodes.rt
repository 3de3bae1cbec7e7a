// The rules on the targets of symbolic links, the sizes of streams, and the owners of attributes.
ghost use Rattle.std.specs.Prelude.{◌≡◌};
ghost use Rattle.view_rules.specs.Inodes as spec;

use rule_index::Index;
use view_facts::{AttributeFact, InodeFact};

/// The least size of a stream that is too large, in bytes.
const LARGE_SIZE: u64 = 0x8000_0000_0000_0000;

/// Whether a symbolic link lacks its target.
#[tactic(auto, unfolding(view_rules::specs::Inodes::lacks_target))]
pub fn lacks_target(index: &Index<'_>, f: &InodeFact) -> bool
    ensures { result ≡ spec.lacks_target index.now.facts.now f.now }
{
    f.kind() == 10 && !index.has_target(f.id())
}

/// Whether an inode has a stream that is too large.
#[tactic(auto, unfolding(view_rules::specs::Inodes::has_large_stream))]
pub fn has_large_stream(f: &InodeFact) -> bool
    ensures { result ≡ spec.has_large_stream f.now }
{
    match f.stream() {
        Some(stream) => stream.size >= LARGE_SIZE,
        None => false,
    }
}

/// Whether an attribute has a stream that is too large.
#[tactic(auto, unfolding(view_rules::specs::Inodes::has_large_body))]
pub fn has_large_body(a: &AttributeFact) -> bool
    ensures { result ≡ spec.has_large_body a.now }
{
    a.has_large_body()
}

/// Whether the file of an attribute has no inode.
#[tactic(auto, unfolding(view_rules::specs::Inodes::lacks_owner))]
pub fn lacks_owner(index: &Index<'_>, a: &AttributeFact) -> bool
    ensures { result ≡ spec.lacks_owner index.now.facts.now a.now }
{
    !index.has_inode(a.id())
}
