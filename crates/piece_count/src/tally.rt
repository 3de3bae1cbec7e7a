// What is counted of pieces that come in the order of their first blocks.
ghost use Rattle.std.specs.Prelude.{◌≡◌, ℕ, ◌-◌, ◌^◌, ◌<◌, ◌≤◌, Bool, length, max, IfOk};
ghost use Rattle.piece_count.specs.Tally.{IsTally, IsRaised, has_none, grown};

use apfs_model::NoMemory;
use std::alloc::Global;

/// How many blocks a view has.
#[derive(Clone, Copy, PartialEq, Eq)]
pub struct ViewCount {
    /// The blocks that it has.
    pub held: u64,
    /// Those that no other view has.
    pub only: u64,
}

/// How many blocks views have.
#[derive(Drop)]
pub struct Counts {
    /// Of each view, by its place.
    pub views: Vec<ViewCount>,
    /// How many some view has.
    pub all: u64,
}

/// What is counted of the pieces up to a block, at which the next one begins: no later piece has a block before it. Of the blocks from
/// there on each view has those up to its reach.
#[derive(Drop)]
pub(crate) struct Tally {
    pub counts: Counts,
    /// The block after the last one of each view, 0 where it has none.
    pub reach: Vec<u64>,
    /// The block up to which it is counted what a view has alone.
    pub at: u64,
    /// A view that reaches as far as any.
    pub top: usize,
    /// How far it reaches.
    pub high: u64,
    /// How far another view reaches.
    pub second: u64,
}

/// How many blocks from one up to another aren't below a third.
pub(crate) fn beyond(first: u64, end: u64, low: u64) -> u64
    ensures { result ≡ end - max first low }
{
    end.saturating_sub(first.max(low))
}

impl Tally {
    /// Nothing is counted yet, of so many views.
    pub(crate) fn new(alloc: Global, views: usize) -> Result<Tally, NoMemory>
        requires { 0 < views }
        ensures tally { (blocks : ℕ) → IfOk result (IsTally blocks views has_none) }
        ensures at { IfOk result (λ tally. tally.at ≡ 0) }
    {
        let counts = vec![in alloc; ViewCount { held: 0, only: 0 }; views]?;
        let reach = vec![in alloc; 0; views]?;
        Ok(Tally {
            counts: Counts {
                views: counts,
                all: 0,
            },
            reach,
            at: 0,
            top: 0,
            high: 0,
            second: 0,
        })
    }

    /// Counts what views have alone up to a block, where no later piece has a block before it.
    pub(crate) fn settle(&mut self, first: u64)
        requires { self.old.top < length self.old.counts.views.items }
        ensures settled { (blocks views : ℕ) (has : ℕ → ℕ → Bool) → blocks < 2 ^ 64 → first ≤ blocks → self.old.at ≤ first → IsTally blocks views has self.old → IsTally blocks views has self.new }
        ensures at { self.new.at ≡ first }
    {
        let more = beyond(self.at, self.high.min(first), self.second);
        let count = &mut self.counts.views[self.top];
        count.only = count.only.saturating_add(more);
        self.at = first;
    }

    // Notes how far a view reaches.
    fn raise(&mut self, view: usize, end: u64)
        requires { view < length self.old.reach.items }
        ensures { IsRaised view end self.old self.new }
    {
        self.reach[view] = self.reach[view].max(end);
        if view == self.top {
            self.high = self.high.max(end);
        } else if self.high < end {
            self.second = self.high;
            self.high = end;
            self.top = view;
        } else {
            self.second = self.second.max(end);
        }
    }

    /// Counts the blocks from one up to another, which a view has, where what was counted is settled up to the first of them.
    pub(crate) fn add(&mut self, view: usize, first: u64, end: u64)
        requires counted { view < length self.old.counts.views.items }
        requires reached { view < length self.old.reach.items }
        ensures added { (blocks views : ℕ) (has : ℕ → ℕ → Bool) → blocks < 2 ^ 64 → end ≤ blocks → self.old.at ≡ first → IsTally blocks views has self.old → IsTally blocks views (grown has view first end) self.new }
        ensures many { length self.new.counts.views.items ≡ length self.old.counts.views.items }
        ensures reaches { length self.new.reach.items ≡ length self.old.reach.items }
        ensures at { self.new.at ≡ self.old.at }
    {
        let more = beyond(first, end, self.reach[view]);
        let count = &mut self.counts.views[view];
        count.held = count.held.saturating_add(more);
        self.counts.all = self
            .counts
            .all
            .saturating_add(beyond(first, end, self.high));
        self.raise(view, end);
    }
}
