// Lists in which each item may stand before the one after it.
ghost use Rattle.std.specs.Prelude.{◌≡◌, Bool, IsTrue};
ghost use Rattle.rule_index.specs.Order as spec;
ghost use Rattle.rule_index.specs.Order.{AreInOrder, IsChain};

use crate::ordered::{ByFile, ByHash, ByInode, ByLinkedFile, BySibling, ByStream, rank};
use view_facts::{AttributeFact, EntryFact, ExtentFact, Facts, InodeFact, LinkFact, SiblingFact};

/// What may stand after what.
pub trait Follows<T> {
    ghost follows: { T → T → Bool };

    /// Whether an item may stand right after another.
    fn follows(item: &T, next: &T) -> bool
        ensures { result ≡ follows item.now next.now };
}

impl Follows<InodeFact> for ByInode {
    ghost follows = { spec.inode_follows };

    fn follows(f: &InodeFact, next: &InodeFact) -> bool {
        f.id() < next.id()
    }
}

impl Follows<EntryFact> for ByHash {
    ghost follows = { spec.entry_follows };

    fn follows(e: &EntryFact, next: &EntryFact) -> bool {
        e.id() <= next.id() && rank(e) <= rank(next)
    }
}

impl Follows<AttributeFact> for ByFile {
    ghost follows = { spec.attribute_follows };

    fn follows(a: &AttributeFact, next: &AttributeFact) -> bool {
        a.id() <= next.id()
    }
}

impl Follows<LinkFact> for ByLinkedFile {
    ghost follows = { spec.link_follows };

    fn follows(l: &LinkFact, next: &LinkFact) -> bool {
        l.file() <= next.file()
    }
}

impl Follows<SiblingFact> for BySibling {
    ghost follows = { spec.map_follows };

    fn follows(m: &SiblingFact, next: &SiblingFact) -> bool {
        m.id() <= next.id()
    }
}

impl Follows<ExtentFact> for ByStream {
    ghost follows = { spec.extent_follows };

    fn follows(f: &ExtentFact, next: &ExtentFact) -> bool {
        f.id() <= next.id()
    }
}

/// Whether each item may stand before the one after it.
pub fn is_chain<T, B: Follows<T>>(list: &[T]) -> bool
    ensures { IsTrue result → IsChain B.follows list.now }
{
    for i in 1..list.len() {
        if !B::follows(&list[i - 1], &list[i]) {
            return false;
        }
    }
    true
}

/// Whether the facts of each kind are in order.
pub fn are_in_order(facts: &Facts) -> bool
    ensures { IsTrue result → AreInOrder facts.now }
{
    if !is_chain::<InodeFact, ByInode>(&facts.inodes) {
        return false;
    }
    if !is_chain::<EntryFact, ByHash>(&facts.entries) {
        return false;
    }
    if !is_chain::<AttributeFact, ByFile>(&facts.attributes) {
        return false;
    }
    if !is_chain::<LinkFact, ByLinkedFile>(&facts.links) {
        return false;
    }
    if !is_chain::<SiblingFact, BySibling>(&facts.siblings) {
        return false;
    }
    is_chain::<ExtentFact, ByStream>(&facts.extents)
}
