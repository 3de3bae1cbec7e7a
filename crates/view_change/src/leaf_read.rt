// What is told of a leaf that is read: its ends, and what its records say.
ghost use Rattle.std.specs.Prelude.{◌≡◌, IfOk, IfSome, IsTrue};
ghost use Rattle.bt_node.specs.Rank as ranks;
ghost use Rattle.bt_node.specs.Entries.{pairs_of};
ghost use Rattle.view_change.specs.Numbers.{joined};
ghost use Rattle.view_change.specs.Kept.{facts_said, AreReadable};
ghost use Rattle.view_change.specs.Reading.{is_misplaced_after, AreEnds};

use crate::Ends;
use apfs_model::NoMemory;
use bt_keys::FsTreeKey;
use bt_node::{NodeView, Rank, TreeKey};
use std::alloc::Global;
use view_facts::{Facts, add_record};

// Whether two ranks are one.
fn is_same(rank: &Rank, other: &Rank) -> bool
    ensures { result ≡ ranks.is_same_rank rank.now other.now }
{
    rank.id == other.id && rank.kind == other.kind && rank.sub == other.sub
}

// Whether a key may not come after one of a rank.
fn is_misplaced<K: TreeKey>(key: &K, before: &Rank) -> bool
    ensures { result ≡ is_misplaced_after K.shape key.now before.now }
{
    let rank = key.rank();
    rank.is_below(before) || key.strict() && is_same(&rank, before)
}

/// The ends of a leaf; none where its records aren't in order, or where it has none.
pub(crate) fn ends_of<K: TreeKey>(node: &NodeView<'_, K>) -> Option<Ends>
    ensures { IfSome result (AreEnds K.shape node.now) }
{
    let count = node.len();
    if count == 0 {
        return None;
    }
    let first = node.key(0);
    let mut last = first.rank();
    'items: for i in 1..count {
        let key = node.key(i);
        if is_misplaced(&key, &last) {
            return None;
        }
        last = key.rank();
    }
    Some(Ends {
        first: first.rank(),
        strict: first.strict(),
        last,
        count: count as u64,
    })
}

/// Adds what is kept of the records of a leaf to some facts; false where a record is refused, or where names aren't
/// compared as the keys say.
pub(crate) fn add_records<K: FsTreeKey>(
    alloc: Global,
    node: &NodeView<'_, K>,
    facts: &mut Facts,
) -> Result<bool, NoMemory>
    ensures facts { IfOk result (λ added. IsTrue added → facts.new ≡ joined facts.old (facts_said facts.old.names (pairs_of K.shape node.now))) }
    ensures names { facts.new.names ≡ facts.old.names }
    ensures readable { IfOk result (λ added. IsTrue added → AreReadable facts.old.names (pairs_of K.shape node.now)) }
{
    if facts.names.are_hashed() != K::HASHED {
        return Ok(false);
    }
    'records: for i in 0..node.len() {
        if add_record::<K>(alloc, facts, &node.entry(i))?.is_some() {
            return Ok(false);
        }
    }
    Ok(true)
}
