// What is kept of the items of a free queue's tree.
ghost use Rattle.std.specs.Prelude.{◌≡◌, ◌++◌, List, [], ◌∷◌, Option, Some, is_none, not, option_map, option_to_list, OnOk, IfOk, IfSome, IsTrue};
ghost use Rattle.bt_keys.specs.Shapes.{queue_shape};
ghost use Rattle.bt_cursor.specs.Line.{Item};
ghost use Rattle.bt_cursor.specs.WholeTree.{child_id};
ghost use Rattle.bt_cursor.specs.Gathered.{shown};
ghost use Rattle.space_pool.specs.Queues.{is_short_item};
ghost use Rattle.space_pool.specs.Gathered.{entries_at, Gathers};

use crate::QueueEntry;
use blk_source::NoMemory;
use bt_cursor::{Keeper, LineItem, Step};
use bt_keys::{QueueKey, queue_length};

/// The entries of a queue, and the steps of its tree, in the order of its Line.
#[derive(Drop)]
pub(crate) struct Kept {
    pub entries: Vec<QueueEntry>,
    pub steps: Vec<Step>,
}

// Puts what an item gave after what was gathered.
fn add<T: Drop>(gathered: &mut Vec<T>, given: Option<T>) -> Result<(), NoMemory>
    ensures { OnOk result (gathered.new.items ≡ gathered.old.items ++ option_to_list given) }
{
    let Some(item) = given else {
        return Ok(());
    };
    gathered.push(item)?;
    Ok(())
}

// The entry of an item, if it is one of a leaf; None where its value is too short.
#[tactic(auto, unfolding(crate::specs::Queues::queue_entry_of, crate::specs::Queues::is_short_item))]
fn entry_at(item: LineItem<'_, QueueKey>) -> Option<Option<QueueEntry>>
    requires { queue_shape.read item.pair.key_bytes.now ≡ Some item.pair.key }
    ensures short { is_none result ≡ is_short_item (shown item.entry.node item.entry.at item.entry.level item.entry.pair.key_bytes.now (option_map (λ value. value.now) item.entry.pair.value)) }
    ensures value { IfSome result (λ given. option_to_list given ≡ entries_at (shown item.entry.node item.entry.at item.entry.level item.entry.pair.key_bytes.now (option_map (λ value. value.now) item.entry.pair.value))) }
{
    if item.level > 0 {
        return Some(None);
    }
    let length = queue_length(item.pair.value)?;
    Some(Some(QueueEntry {
        xid: item.pair.key.xid,
        paddr: item.pair.key.paddr,
        length,
    }))
}

impl Keeper<QueueKey> for Kept {
    ghost refuses = { is_short_item };

    ghost holds = { λ kept items. Gathers kept.entries.items kept.steps.items items };

    fn keep(&mut self, item: LineItem<'_, QueueKey>) -> Result<bool, NoMemory>
        requires key { queue_shape.read item.pair.key_bytes.now ≡ Some item.pair.key }
        requires child { item.child ≡ child_id (shown item.node item.at item.level item.pair.key_bytes.now (option_map (λ value. value.now) item.pair.value)) }
        ensures refused { IfOk result (λ kept. kept ≡ not (is_short_item (shown item.entry.node item.entry.at item.entry.level item.entry.pair.key_bytes.now (option_map (λ value. value.now) item.entry.pair.value)))) }
        ensures held { (items : List Item) → Gathers self.old.entries.items self.old.steps.items items → IfOk result (λ kept. IsTrue kept → Gathers self.new.entries.items self.new.steps.items (items ++ shown item.entry.node item.entry.at item.entry.level item.entry.pair.key_bytes.now (option_map (λ value. value.now) item.entry.pair.value) ∷ [])) }
    {
        add(&mut self.steps, item.step())?;
        let Some(given) = entry_at(item) else {
            return Ok(false);
        };
        add(&mut self.entries, given)?;
        Ok(true)
    }
}
