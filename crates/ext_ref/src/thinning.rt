// Extents, each once.
ghost use Rattle.std.specs.Prelude.{◌≡◌, true};
ghost use Rattle.ext_ref.specs.Same.{HaveSame};

use fs_record::FileExt;

// Leaves one of items that are the same and stand side by side.
fn merge<T: Eq + Copy>(items: &mut Vec<T>)
    requires same { (x y : T) → T.eq x y ≡ true → x ≡ y }
    ensures { HaveSame items.old.items items.new.items }
{
    items.dedup();
}

/// Leaves each extent once, in whatever order. An extent stands after its stream's id.
pub fn thin(extents: &mut Vec<(u64, FileExt)>)
    ensures { HaveSame extents.old.items extents.new.items }
{
    extents.sort_unstable_by_key(|extent| {
        (extent.0, extent.1.block, extent.1.length, extent.1.logical)
    });
    merge(extents);
}
