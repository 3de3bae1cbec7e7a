// Runs of blocks, each of the views of a set.
ghost use Rattle.std.specs.Prelude.{◌≡◌};
ghost use Rattle.std.specs.List.Sorted.{IsPermutation, IsNonDecreasingBy};
ghost use Rattle.piece_count.specs.Covered.{runs_at};

/// Views side by side. They are told by their places.
#[derive(Clone, Copy, PartialEq, Eq)]
pub struct ViewRun {
    /// The first view.
    pub from: usize,
    /// The view after the last one.
    pub to: usize,
}

/// A set of views, by runs of them.
#[derive(Drop)]
pub struct Views {
    pub runs: Vec<ViewRun>,
}

/// A run of blocks, which the views of a set have.
#[derive(Clone, Copy, PartialEq, Eq)]
pub struct Piece {
    /// The first block.
    pub first: u64,
    /// The block after the last one.
    pub end: u64,
    /// The number of the set, counted from 0.
    pub set: usize,
}

/// What views have: pieces, and the sets of views in the order of their numbers.
#[derive(Drop)]
pub struct Holdings {
    pub sets: Vec<Views>,
    pub pieces: Vec<Piece>,
}

/// The runs of the set of a number; none where there is no such set.
#[tactic(auto, unfolding(crate::specs::Covered::runs_at))]
pub(crate) fn runs_of(sets: &[Views], number: usize) -> &[ViewRun]
    ensures { result.now ≡ runs_at sets.now number }
{
    match sets.get(number) {
        Some(views) => &views.runs,
        None => &[],
    }
}

/// Puts pieces in the order of their first blocks.
pub(crate) fn by_first(pieces: &mut Vec<Piece>)
    ensures order { IsPermutation pieces.old.items pieces.new.items }
    ensures sorted { IsNonDecreasingBy (λ p. p.first) pieces.new.items }
{
    pieces.sort_unstable_by(|a, b| a.first.cmp(&b.first));
}
