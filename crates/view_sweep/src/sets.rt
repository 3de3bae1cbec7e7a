// Sets of views: the runs of their places. A view that stands twice is told at its first place.
ghost use Rattle.std.specs.Prelude.{◌≡◌, ◌↔◌, ◌+◌, ◌-◌, ◌<◌, ◌^◌, ℕ, List, true, false, length, IfOk, IsTrue};
ghost use Rattle.apfs_model.specs.Lists.{In};
ghost use Rattle.view_sweep.specs.declared.wanted.SweptView.{SweptView as View};
ghost use Rattle.view_sweep.specs.Runs.{has_place, AreRising};
ghost use Rattle.view_sweep.specs.Sets as spec;
ghost use Rattle.view_sweep.specs.Sets.{set_at, view_of, IsSetOf, AreSets, IsFirst, AreDistinct, AreKept};

use crate::runs::Run;
use crate::wanted::SweptView;
use std::alloc::{AllocError, Global};

/// A set of views.
#[derive(Drop)]
pub struct ViewSet {
    /// The runs of their places in the order of the heads, counted from 0: none is empty, and each begins where the one before it ends,
    /// or later.
    pub runs: Vec<Run>,
}

// Whether two views are one.
fn is_same(a: &SweptView, b: &SweptView) -> bool
    ensures same { IsTrue result → a.now ≡ b.now }
    ensures other { result ≡ false → a.now ≡ b.now → ⊥ }
{
    *a == *b
}

// Whether a view stands in a volume of a lower slot than another one, or at a lower place of the same.
fn is_before(a: &SweptView, b: &SweptView) -> bool
    ensures { result ≡ spec.is_before a.now b.now }
{
    a.slot < b.slot || (a.slot == b.slot && a.place < b.place)
}

/// How many views at the front stand one before the other.
pub(crate) fn in_order(views: &[SweptView]) -> usize
    ensures { AreDistinct views.now result }
{
    for place in 1..views.len() {
        if !is_before(&views[place - 1], &views[place]) {
            return place;
        }
    }
    views.len()
}

// The first place of a view.
fn place_of(views: &[SweptView], view: &SweptView) -> usize
    requires { In view.now views.now }
    ensures { IsFirst views.now view.now result }
{
    let mut place = 0;
    while !is_same(&views[place], view) {
        place += 1;
    }
    place
}

/// The first place of the view at a place, where so many at the front differ.
pub(crate) fn first_place(views: &[SweptView], at: usize, ordered: usize) -> usize
    requires at { at < length views.now }
    requires ordered { AreDistinct views.now ordered }
    ensures { IsFirst views.now (view_of views.now at) result }
{
    if at < ordered {
        return at;
    }
    place_of(views, &views[at])
}

/// The set of the view at a place.
pub(crate) fn one_of(alloc: Global, place: usize) -> Result<Vec<Run>, AllocError>
    requires { place + 1 < 2 ^ 64 }
    ensures rising { IfOk result (λ set. AreRising set.items) }
    ensures one { IfOk result (λ set. (k : ℕ) → (has_place set.items k ≡ true) ↔ (k ≡ place)) }
{
    let mut set = Vec::new(alloc);
    set.push(Run {
        from: place,
        end: place + 1,
    })?;
    Ok(set)
}

/// A set once more.
pub(crate) fn copy_of(alloc: Global, set: &[Run]) -> Result<Vec<Run>, AllocError>
    ensures { IfOk result (λ copy. copy.items ≡ set.now) }
{
    set.to_vec(alloc)
}

/// The runs of the set of a number.
pub(crate) fn runs_of(sets: &[ViewSet], number: usize) -> &[Run]
    requires { number < length sets.now }
    ensures { result.now ≡ set_at sets.now number }
{
    let set = &sets[number];
    &set.runs
}

// Whether two sets have the same runs.
fn are_same(a: &[Run], b: &[Run]) -> bool
    ensures { IsTrue result → a.now ≡ b.now }
{
    if a.len() != b.len() {
        return false;
    }
    for i in 0..a.len() {
        if a[i].from != b[i].from || a[i].end != b[i].end {
            return false;
        }
    }
    true
}

// Whether a set is the last of those that are kept.
fn is_last(sets: &[ViewSet], runs: &[Run]) -> bool
    ensures some { IsTrue result → 0 < length sets.now }
    ensures same { IsTrue result → set_at sets.now (length sets.now - 1) ≡ runs.now }
{
    let count = sets.len();
    count > 0 && are_same(runs_of(sets, count - 1), runs)
}

/// Keeps a set, and answers its number: where it is the last of those that are kept, that one's.
pub(crate) fn keep(sets: &mut Vec<ViewSet>, runs: Vec<Run>) -> Result<usize, AllocError>
    ensures kept { IfOk result (λ n. AreKept sets.old.items sets.new.items) }
    ensures inside { IfOk result (λ n. n < length sets.new.items) }
    ensures at { IfOk result (λ n. set_at sets.new.items n ≡ runs.items) }
    ensures sets { IfOk result (λ n. (views : List View) → AreSets views sets.old.items → IsSetOf views runs.items → AreSets views sets.new.items) }
{
    let count = sets.as_slice().len();
    if is_last(sets, &runs) {
        return Ok(count - 1);
    }
    sets.push(ViewSet { runs })?;
    Ok(count)
}
