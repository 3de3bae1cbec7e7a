// The items of the rows of a tree.
ghost use Rattle.std.specs.Prelude.{◌≡◌, ◌<◌, length, map, slice_get, Some, IfOk, OnOk};
ghost use Rattle.view_tree.specs.Trails.{IsOn};
ghost use Rattle.tree_export.specs.Exported as spec;
ghost use Rattle.tree_export.specs.Stopping.{wanted_of};

use crate::Item;
use path_search::KeptTarget;
use std::alloc::{AllocError, Global};
use view_tree::{KeptRows, Trail};

// The item of a row. Its path is text, since names are; one that isn't is told as if there were no memory for it.
fn item_of(alloc: Global, path: &[u8], target: &KeptTarget) -> Result<Item, AllocError>
    ensures { IfOk result (λ item. wanted_of item ≡ spec.item_of (path.now, target.now)) }
{
    let Ok(path) = str::from_utf8(path) else {
        return Err(AllocError);
    };
    Ok(Item {
        path: String::from_str(alloc, path)?,
        id: target.id(),
        kind: target.kind(),
        size: target.size(),
    })
}

/// The item of the row at a place, to which the trail goes.
pub fn item_at(
    alloc: Global,
    rows: &KeptRows,
    place: usize,
    trail: &mut Trail,
) -> Result<Item, AllocError>
    requires low { place < length rows.now }
    requires on { IsOn rows.now trail.old }
    ensures on { OnOk result (IsOn rows.now trail.new) }
    ensures item { IfOk result (λ item. slice_get (map spec.item_of rows.now) place ≡ Some (wanted_of item)) }
{
    let target = rows.go_to(place, trail)?;
    item_of(alloc, trail.path(), target)
}
