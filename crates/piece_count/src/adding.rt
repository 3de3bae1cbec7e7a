// Blocks that views have, counted for each of them.
ghost use Rattle.std.specs.Prelude.{◌≡◌, ℕ, ◌^◌, ◌<◌, ◌≤◌, Bool, length};
ghost use Rattle.piece_count.specs.Tally.{IsTally, grown_all, grown_set};

use crate::piece::ViewRun;
use crate::tally::Tally;

// Counts the blocks from one up to another, which the views from one up to another have.
fn add_views(tally: &mut Tally, from: usize, to: usize, first: u64, end: u64)
    requires counted { to ≤ length tally.old.counts.views.items }
    requires reached { to ≤ length tally.old.reach.items }
    ensures added { (blocks views : ℕ) (has : ℕ → ℕ → Bool) → blocks < 2 ^ 64 → end ≤ blocks → tally.old.at ≡ first → IsTally blocks views has tally.old → IsTally blocks views (grown_all has from to first end) tally.new }
    ensures many { length tally.new.counts.views.items ≡ length tally.old.counts.views.items }
    ensures reaches { length tally.new.reach.items ≡ length tally.old.reach.items }
    ensures at { tally.new.at ≡ tally.old.at }
{
    'views: for view in from..to {
        tally.add(view, first, end);
    }
}

/// Counts the blocks from one up to another, which the views of some runs have, of so many views.
pub(crate) fn add_runs(tally: &mut Tally, runs: &[ViewRun], many: usize, first: u64, end: u64)
    requires counted { many ≤ length tally.old.counts.views.items }
    requires reached { many ≤ length tally.old.reach.items }
    ensures added { (blocks : ℕ) (has : ℕ → ℕ → Bool) → blocks < 2 ^ 64 → end ≤ blocks → tally.old.at ≡ first → IsTally blocks many has tally.old → IsTally blocks many (grown_set has runs.now first end) tally.new }
    ensures at { tally.new.at ≡ tally.old.at }
{
    'runs: for run in runs {
        add_views(tally, run.from, run.to.min(many), first, end);
    }
}
