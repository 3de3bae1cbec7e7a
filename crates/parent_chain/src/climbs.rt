// Whether the parents of an id lead below 16. Each id is followed once: what a climb meets is marked with its number.
ghost use Rattle.std.specs.Prelude.{◌≡◌, ◌⊎◌, ◌+◌, ◌<◌, ℕ, Option, None, true, false, nat_lt};
ghost use Rattle.apfs_model.specs.Lists.{passes};
ghost use Rattle.fs_record.specs.Facts.{first_user_id};
ghost use Rattle.view_rules.specs.Directories.{Leads};
ghost use Rattle.parent_chain.specs.Ways.{left_at, met_at};
ghost use Rattle.parent_chain.specs.Climbs.{HasClimbed, IsClimbing};

use crate::ways::Ways;

// Follows parents from an id, to an id whose parent isn't left.
fn climb(ways: &mut Ways, number: usize, start: u64) -> u64
    ensures climbing { (parent : ℕ → Option ℕ) → HasClimbed parent (left_at ways.old) (met_at ways.old) number → IsClimbing parent (left_at ways.new) (met_at ways.new) number start result }
    ensures top { (result < first_user_id) ⊎ (left_at ways.new result ≡ None) }
{
    let mut id = start;
    'climb: while let Some(parent) = ways.follow(id, number) {
        id = parent;
    }
    id
}

// Whether an id was met in an earlier climb.
fn is_earlier(ways: &Ways, number: usize, id: u64) -> bool
    ensures { result ≡ passes (met_at ways.now id) (λ n. nat_lt n number) }
{
    match ways.climb_of(id) {
        Some(n) => n < number,
        None => false,
    }
}

/// Whether parents lead from an id to one below 16, where they do from each id that was met.
pub(crate) fn leads(ways: &mut Ways, number: usize, start: u64) -> bool
    ensures yes { result ≡ true → (parent : ℕ → Option ℕ) → HasClimbed parent (left_at ways.old) (met_at ways.old) number → Leads parent start × HasClimbed parent (left_at ways.new) (met_at ways.new) (number + 1) }
    ensures no { result ≡ false → (parent : ℕ → Option ℕ) → HasClimbed parent (left_at ways.old) (met_at ways.old) number → Leads parent start → ⊥ }
{
    let top = climb(ways, number, start);
    top < 16 || is_earlier(ways, number, top)
}
