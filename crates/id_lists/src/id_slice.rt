// A list that is lent, which is searched by halves, from guesses, where it is in the order of its ids.
ghost use Rattle.std.specs.Prelude.{◌≡◌, ◌==◌, ◌<◌, ℕ, true, Some, length, count_by, IfOk};
ghost use Rattle.std.specs.List.{position, AllAdjacentBelow};

use crate::guesses::Guesses;
use crate::search::{OrderBy, are_in_order, count, place};
use apfs_model::NoMemory;
use std::alloc::Global;
use std::marker::{Model, PhantomData};

/// Items that are lent. Where they are in the order of their ids, a search finds those of an id; otherwise all are looked at.
#[derive(Drop)]
pub struct IdSlice<'a, T, B: OrderBy<T>> {
    list: &'a [T],
    // Whether they are in the order of their ids, and whether in addition no two are of one id.
    ordered: bool,
    rises: bool,
    guesses: Guesses,
    order: PhantomData<B>,
}

impl<'a, T, B: OrderBy<T>> Model for IdSlice<'a, T, B> {
    ghost use Rattle.std.specs.Prelude.{◌≡◌, ◌<◌, List, true, length};
    ghost use Rattle.std.specs.List.{AllAdjacentBelow};
    ghost use Rattle.std.specs.List.Sorted.{IsNonDecreasingBy};

    ghost Value = { List T };

    ghost view = { λ a. a.list.now };

    ghost invariant = { λ a. (a.ordered ≡ true → IsNonDecreasingBy B.id a.list.now) × (a.rises ≡ true → AllAdjacentBelow (λ x y. B.id x < B.id y) a.list.now (length a.list.now)) };
}

// Whether each item is of a greater id than the one before it.
fn do_rise<T, B: OrderBy<T>>(list: &[T]) -> bool
    ensures { result ≡ true → AllAdjacentBelow (λ x y. B.id x < B.id y) list.now (length list.now) }
{
    for i in 1..list.len() {
        if B::id(&list[i]) <= B::id(&list[i - 1]) {
            return false;
        }
    }
    true
}

// Whether the only item of an id stands at a place.
#[inline]
fn is_only<T, B: OrderBy<T>>(list: &[T], id: u64, at: usize) -> bool
    requires { AllAdjacentBelow (λ x y. B.id x < B.id y) list.now (length list.now) }
    ensures { result ≡ true → position (λ x. B.id x == id) list.now ≡ Some at }
{
    if at >= list.len() {
        return false;
    }
    B::id(&list[at]) == id
}

// The place of the first item of an id, where all are looked at.
fn place_among_all<T, B: OrderBy<T>>(list: &[T], id: u64) -> Option<usize>
    ensures { result ≡ position (λ x. B.id x == id) list.now }
{
    list.iter().position(|x| B::id(x) == id)
}

// How many items are of an id, where all are looked at.
fn count_among_all<T, B: OrderBy<T>>(list: &[T], id: u64) -> usize
    ensures { result ≡ count_by (λ x. B.id x == id) list.now }
{
    list.iter().filter(|x| B::id(*x) == id).count()
}

impl<'a, T, B: OrderBy<T>> IdSlice<'a, T, B> {
    // The items of a list, with the guesses for them.
    fn with(list: &'a [T], guesses: Guesses) -> IdSlice<'a, T, B>
        ensures { result ≡ list.now }
    {
        IdSlice {
            list,
            ordered: are_in_order::<T, B>(list),
            rises: do_rise::<T, B>(list),
            guesses,
            order: PhantomData,
        }
    }

    /// The items of a list, with guesses.
    ///
    /// # Errors
    ///
    /// `NoMemory`: an allocation failed.
    pub fn of(alloc: Global, list: &'a [T]) -> Result<IdSlice<'a, T, B>, NoMemory>
        ensures { IfOk result (λ made. made ≡ list.now) }
    {
        let guesses = Guesses::of::<T, B>(alloc, list)?;
        Ok(IdSlice::with(list, guesses))
    }

    /// The items of a list, without guesses: for few searches.
    pub fn without_guesses(alloc: Global, list: &'a [T]) -> IdSlice<'a, T, B>
        ensures { result ≡ list.now }
    {
        IdSlice::with(list, Guesses::none(alloc))
    }

    /// How many items it has.
    pub fn len(&self) -> usize
        ensures { result ≡ length self.now }
    {
        self.list.len()
    }

    /// Its items.
    pub fn as_slice(&self) -> &'a [T]
        ensures { result.now ≡ self.now }
    {
        self.list
    }

    // The place of the first item of an id, by a search from a guess on.
    #[inline(never)]
    fn searched(&self, id: u64, guess: usize) -> Option<usize>
        ensures { result ≡ position (λ x. B.id x == id) self.now }
    {
        if self.ordered {
            return place::<T, B>(self.list, id, guess);
        }
        place_among_all::<T, B>(self.list, id)
    }

    /// The place of the first item of an id.
    #[inline(always)]
    pub fn place(&self, id: u64) -> Option<usize>
        ensures { result ≡ position (λ x. B.id x == id) self.now }
    {
        let guess = self.guesses.near(id);
        if self.rises && is_only::<T, B>(self.list, id, guess) {
            return Some(guess);
        }
        self.searched(id, guess)
    }

    /// How many items are of an id.
    pub fn count(&self, id: u64) -> usize
        ensures { result ≡ count_by (λ x. B.id x == id) self.now }
    {
        if self.ordered {
            return count::<T, B>(self.list, id, self.guesses.near(id));
        }
        count_among_all::<T, B>(self.list, id)
    }
}
