// Lists in which nothing stands twice.
ghost use Rattle.std.specs.Prelude.{◌≡◌, ◌↔◌};
ghost use Rattle.std.specs.declared.cmp.Ordering.TheVariants.{Equal};
ghost use Rattle.apfs_model.specs.Apart.{Apart};
ghost use Rattle.apfs_model.specs.Lists.{In};

/// Sorts a list and leaves each of its items once. Two items that tie must be one.
pub fn distinct<T: Ord + Copy>(items: &mut Vec<T>)
    requires one { (x y : T) → T.cmp x y ≡ Equal → x ≡ y }
    ensures same { (x : T) → In x items.old.items ↔ In x items.new.items }
    ensures apart { Apart items.new.items }
{
    items.sort_unstable();
    items.dedup();
}
