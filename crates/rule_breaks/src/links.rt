// The rules on the numbers of a directory's children and of a file's links.
ghost use Rattle.std.specs.Prelude.{◌≡◌, ℤ, pos, not};
ghost use Rattle.std.specs.Ordering.{int_eq};
ghost use Rattle.view_rules.specs.Counts as spec;
ghost use Rattle.view_rules.specs.Facts as rules;

use rule_index::Index;
use view_facts::InodeFact;

// Whether a number is another than a count.
fn is_other(number: i32, count: u64) -> bool
    ensures { result ≡ not (int_eq number (pos count)) }
{
    i128::from(number) != i128::from(count)
}

// Whether the children of an inode are counted: it is the root, or a directory of 16 or more.
fn is_counted_directory(f: &InodeFact) -> bool
    ensures { result ≡ spec.is_counted_directory f.now }
{
    f.kind() == 4 && (f.id() == 2 || f.id() >= 16)
}

/// Whether a directory has another number of children.
#[tactic(auto, unfolding(view_rules::specs::Counts::has_other_children))]
pub fn has_other_children(index: &Index<'_>, f: &InodeFact) -> bool
    ensures { result ≡ spec.has_other_children index.now.facts.now f.now }
{
    is_counted_directory(f) && is_other(f.links(), index.child_count(f.id()))
}

// Whether the links of an inode that has so many entries are counted.
fn is_linked_file(index: &Index<'_>, f: &InodeFact, count: u64) -> bool
    requires { count ≡ rules.entry_count index.now.facts.now f.now.id }
    ensures { result ≡ spec.is_linked_file index.now.facts.now f.now }
{
    f.kind() == 8 && count > 0 && !index.has_system_name(f.id())
}

/// Whether a file has another number of links.
#[tactic(auto, unfolding(view_rules::specs::Counts::has_other_links))]
pub fn has_other_links(index: &Index<'_>, f: &InodeFact) -> bool
    ensures { result ≡ spec.has_other_links index.now.facts.now f.now }
{
    let count = index.entry_count(f.id());
    is_linked_file(index, f, count) && is_other(f.links(), count)
}
