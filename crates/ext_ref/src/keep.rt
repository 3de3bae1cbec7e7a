// What is kept of the items of an extent reference tree.
ghost use Rattle.std.specs.Prelude.{◌≡◌, ◌++◌, List, [], ◌∷◌, Option, Some, is_none, not, option_map, option_to_list, OnOk, IfOk, IfSome, IsTrue};
ghost use Rattle.bt_keys.specs.Shapes.{ext_shape};
ghost use Rattle.bt_cursor.specs.Line.{Item};
ghost use Rattle.bt_cursor.specs.WholeTree.{child_id};
ghost use Rattle.bt_cursor.specs.Gathered.{shown};
ghost use Rattle.ext_ref.specs.Ranges as spec;
ghost use Rattle.ext_ref.specs.Stops.{is_short_item};
ghost use Rattle.ext_ref.specs.Gathered.{ranges_at, Gathers};

use crate::NewRange;
use apfs_layout::value;
use blk_source::NoMemory;
use bt_cursor::{Keeper, LineItem, Step};
use bt_keys::{ExtKey, ExtValue, ext_value};

/// The new ranges of a tree, and its steps, in the order of its Line.
#[derive(Drop)]
pub(crate) struct Kept {
    pub ranges: Vec<NewRange>,
    pub steps: Vec<Step>,
}

// Puts what an item gave after what was gathered.
fn add<T: Drop>(gathered: &mut Vec<T>, given: Option<T>) -> Result<(), NoMemory>
    ensures { OnOk result (gathered.new.items ≡ gathered.old.items ++ option_to_list given) }
{
    let Some(item) = given else {
        return Ok(());
    };
    match gathered.push(item) {
        Ok(()) => Ok(()),
        Err(_) => Err(NoMemory),
    }
}

// The new range from a first block on that a value tells of.
fn new_range(first: u64, told: ExtValue) -> Option<NewRange>
    ensures { result ≡ spec.range_in first told }
{
    if told.kind == value::EXT_NEW && told.length > 0 {
        Some(NewRange {
            first,
            length: told.length,
            count: told.count,
        })
    } else {
        None
    }
}

// The new range of an item, if it has one; None where its value is too short.
#[tactic(auto, unfolding(crate::specs::Ranges::range_of, crate::specs::Stops::is_short_item, bt_keys::specs::Values::ext_value_of))]
fn range_at(item: LineItem<'_, ExtKey>) -> Option<Option<NewRange>>
    requires { ext_shape.read item.pair.key_bytes.now ≡ Some item.pair.key }
    ensures short { is_none result ≡ is_short_item (shown item.entry.node item.entry.at item.entry.level item.entry.pair.key_bytes.now (option_map (λ value. value.now) item.entry.pair.value)) }
    ensures value { IfSome result (λ given. option_to_list given ≡ ranges_at (shown item.entry.node item.entry.at item.entry.level item.entry.pair.key_bytes.now (option_map (λ value. value.now) item.entry.pair.value))) }
{
    if item.level > 0 {
        return Some(None);
    }
    let told = ext_value(item.pair.value?)?;
    Some(new_range(item.pair.key.first, told))
}

impl Keeper<ExtKey> for Kept {
    ghost refuses = { is_short_item };

    ghost holds = { λ kept items. Gathers kept.ranges.items kept.steps.items items };

    fn keep(&mut self, item: LineItem<'_, ExtKey>) -> Result<bool, NoMemory>
        requires key { ext_shape.read item.pair.key_bytes.now ≡ Some item.pair.key }
        requires child { item.child ≡ child_id (shown item.node item.at item.level item.pair.key_bytes.now (option_map (λ value. value.now) item.pair.value)) }
        ensures refused { IfOk result (λ kept. kept ≡ not (is_short_item (shown item.entry.node item.entry.at item.entry.level item.entry.pair.key_bytes.now (option_map (λ value. value.now) item.entry.pair.value)))) }
        ensures held { (items : List Item) → Gathers self.old.ranges.items self.old.steps.items items → IfOk result (λ kept. IsTrue kept → Gathers self.new.ranges.items self.new.steps.items (items ++ shown item.entry.node item.entry.at item.entry.level item.entry.pair.key_bytes.now (option_map (λ value. value.now) item.entry.pair.value) ∷ [])) }
    {
        add(&mut self.steps, item.step())?;
        let Some(given) = range_at(item) else {
            return Ok(false);
        };
        add(&mut self.ranges, given)?;
        Ok(true)
    }
}
