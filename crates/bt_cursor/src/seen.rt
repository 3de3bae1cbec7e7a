// What a walk over a Line has seen.
ghost use Rattle.std.specs.Prelude.{◌≡◌, ◌<◌, true, false, Option, Some, None, IfSome, IsSome, IsNone, IsTrue, IsFalse};
ghost use Rattle.bt_node.specs.Node.{level_of, count_of};
ghost use Rattle.bt_node.specs.Entries.{pair_of};
ghost use Rattle.bt_cursor.specs.Line.{item_at};
ghost use Rattle.bt_cursor.specs.Stack.{IsStep};
ghost use Rattle.bt_cursor.specs.Seen as spec;

use crate::node::{key_at, level};
use crate::way::Step;
use bt_node::{Rank, RootInfo, Site, TreeKey};

/// How many are still to come, and whether more came than were to come.
#[derive(Clone, Copy, PartialEq, Eq)]
pub(crate) struct Tally {
    pub left: u64,
    pub over: bool,
}

/// The rank of the last item and of the last one of level 0, how many items there were, and how many keys and nodes
/// are still to come by the root's numbers.
#[derive(Clone, Copy, PartialEq, Eq)]
pub(crate) struct Seen {
    pub before: Option<Rank>,
    pub leaf: Option<Rank>,
    pub number: u64,
    pub keys: Tally,
    pub nodes: Tally,
}

// The rank is below the last item's.
fn falls(rank: &Rank, before: Option<Rank>) -> bool
    ensures { result ≡ spec.falls_below rank.now before }
{
    match before {
        None => false,
        Some(before) => rank.is_below(&before),
    }
}

// The rank is that of the last key of level 0.
fn repeats(rank: &Rank, leaf: Option<Rank>) -> bool
    ensures { result ≡ spec.is_again rank.now leaf }
{
    match leaf {
        None => false,
        Some(leaf) => rank.id == leaf.id && rank.kind == leaf.kind && rank.sub == leaf.sub,
    }
}

// One fewer is to come.
fn spend(tally: &mut Tally)
    ensures { tally.new ≡ spec.spend tally.old }
{
    if tally.left == 0 {
        tally.over = true;
    } else {
        tally.left -= 1;
    }
}

/// What is seen before the first item: of the nodes, the root.
pub(crate) fn nothing_seen(info: RootInfo) -> Seen
    ensures { result ≡ spec.seen_start info.key_count info.node_count }
{
    let mut nodes = Tally {
        left: info.node_count,
        over: false,
    };
    spend(&mut nodes);
    Seen {
        before: None,
        leaf: None,
        number: 0,
        keys: Tally {
            left: info.key_count,
            over: false,
        },
        nodes,
    }
}

// Sees an item of a level and a rank.
fn more(seen: &mut Seen, level: u16, rank: Rank)
    ensures { seen.new ≡ spec.seen_more seen.old level rank }
{
    seen.before = Some(rank);
    seen.number = seen.number.saturating_add(1);
    if level == 0 {
        seen.leaf = Some(rank);
        spend(&mut seen.keys);
    } else {
        spend(&mut seen.nodes);
    }
}

// Sees an item of a level, by its key; false where it is out of order, and then nothing changes. In place, since a walk does
// this for each item.
fn see<K: TreeKey>(seen: &mut Seen, level: u16, key: &K) -> bool
    ensures seen { IsTrue result → spec.seen_key K.shape seen.old level key.now ≡ Some seen.new }
    ensures out { IsFalse result → spec.seen_key K.shape seen.old level key.now ≡ None }
    ensures same { IsFalse result → seen.new ≡ seen.old }
{
    let rank = key.rank();
    if falls(&rank, seen.before) {
        return false;
    }
    if level == 0 && key.strict() && repeats(&rank, seen.leaf) {
        return false;
    }
    more(seen, level, rank);
    true
}

/// Sees the next entry of a node, and gives its key; None where it is out of order, and then nothing changes.
pub(crate) fn see_next<K: TreeKey>(seen: &mut Seen, step: &Step, site: &Site) -> Option<K>
    requires step { IsStep K.shape site.now step.now }
    requires left { step.now.next < count_of step.now.block.items }
    ensures key { IfSome result (λ key. K.shape.read (pair_of K.shape step.now.block.items step.now.next).key ≡ Some key) }
    ensures seen { IsSome result → (spec.is_out K.shape seen.old (item_at step.now.at.oid step.now.next (level_of step.now.block.items) (pair_of K.shape step.now.block.items step.now.next)) ≡ false) × (seen.new ≡ spec.seen_item K.shape seen.old (item_at step.now.at.oid step.now.next (level_of step.now.block.items) (pair_of K.shape step.now.block.items step.now.next))) }
    ensures out { IsNone result → spec.is_out K.shape seen.old (item_at step.now.at.oid step.now.next (level_of step.now.block.items) (pair_of K.shape step.now.block.items step.now.next)) ≡ true }
    ensures same { IsNone result → seen.new ≡ seen.old }
{
    let key = key_at::<K>(step, site, step.next);
    if !see::<K>(seen, level::<K>(step, site), &key) {
        return None;
    }
    Some(key)
}

/// No key and no node is still to come, and none came that was not to come.
pub(crate) fn fits(seen: Seen) -> bool
    ensures { result ≡ spec.fits seen }
{
    !seen.keys.over && seen.keys.left == 0 && !seen.nodes.over && seen.nodes.left == 0
}
