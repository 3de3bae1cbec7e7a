// Trees whose items are gathered.

use super::image::Node;
use super::trees::{QUEUE, THREE_LEVELS, TOO_FEW, WHOLE};
use super::{PHYSICAL, SITE, container};
use blk_source::{MemSource, NoMemory};
use bt_cursor::{GatherFault, Keeper, LineItem, Physical, WalkFault, gather};
use bt_keys::QueueKey;
use obj_base::Stop;
use std::alloc::Global;

/// The first words of the keys of leaves, and the ids of the children; an item above level 1 is refused.
#[derive(Drop)]
struct Words {
    words: Vec<u64>,
    children: Vec<u64>,
}

impl Keeper<QueueKey> for Words {
    ghost use Rattle.std.specs.Prelude.{◌≡◌, List, IfOk, IsTrue, not, nat_lt};
    ghost use Rattle.bt_cursor.specs.Line.{Item};

    ghost refuses = { λ item. nat_lt 1 item.level };

    ghost holds = { λ words items. Unit {0} };

    fn keep(&mut self, item: LineItem<'_, QueueKey>) -> Result<bool, NoMemory>
        ensures refused { IfOk result (λ kept. kept ≡ not (nat_lt 1 item.entry.level)) }
        ensures held { (items : List Item) → Unit {0} → IfOk result (λ kept. IsTrue kept → Unit {0}) }
    {
        if item.level > 1 {
            return Ok(false);
        }
        let pushed = match item.child {
            Some(child) => self.children.push(child),
            None => self.words.push(item.pair.key.xid),
        };
        pushed.or(Err(NoMemory)).and(Ok(true))
    }
}

// Gathers the tree in block 1, over a source of which a read fails, if any does.
fn gathered(alloc: Global, nodes: &[Node], fails: u64) -> Result<Words, Stop<GatherFault>> {
    let mut src = container(alloc, QUEUE, nodes, fails)?;
    let none = Words {
        words: Vec::new(alloc),
        children: Vec::new(alloc),
    };
    gather::<QueueKey, MemSource, Physical, Words>(alloc, &mut src, PHYSICAL, 1, &SITE, none)
}

const ONE_TO_THREE: &[u64] = &[1, 2, 3];

fn is_gathered(alloc: Global) -> Result<bool, Stop<GatherFault>> {
    let kept = gathered(alloc, WHOLE, 0)?;
    Ok(kept.words.as_slice() == ONE_TO_THREE && kept.children.as_slice() == &ONE_TO_THREE[1..])
}

#[test]
fn what_items_give_is_gathered(rt: HostRuntime) {
    assert!(rt; is_gathered(rt.alloc()) == Ok(true));
}

// Trees, the number of the read that fails, if any does, and why they can't be gathered.
const STOPPED: &[(&[Node], u64, Stop<GatherFault>)] = &[
    (
        TOO_FEW,
        0,
        Stop::Found(GatherFault::Tree(WalkFault::Counts)),
    ),
    (
        THREE_LEVELS,
        0,
        Stop::Found(GatherFault::Refused { item: 0 }),
    ),
    (WHOLE, 2, Stop::ReadFault),
];

#[test]
fn what_stops_is_not_gathered(rt: HostRuntime) {
    for (nodes, fails, stop) in STOPPED {
        assert!(rt; gathered(rt.alloc(), nodes, *fails).err() == Some(*stop));
    }
}
