// A list in the order of its ids, with the guesses from which it is searched.
ghost use Rattle.std.specs.Prelude.{◌≡◌, ◌==◌, ℕ, Some, length, count_by, option_map, slice_get, slice_set, IfOk};
ghost use Rattle.std.specs.List.{position};
ghost use Rattle.std.specs.List.Sorted.{IsNonDecreasingBy};

use crate::guesses::Guesses;
use crate::search::{OrderBy, count, place};
use apfs_model::NoMemory;
use std::alloc::Global;
use std::marker::{Model, PhantomData};

/// Items in the order of their ids, so that a search finds those of an id.
#[derive(Drop)]
pub struct IdList<T, B: OrderBy<T>> {
    list: Vec<T>,
    guesses: Guesses,
    order: PhantomData<B>,
}

impl<T, B: OrderBy<T>> Model for IdList<T, B> {
    ghost use Rattle.std.specs.Prelude.{List};
    ghost use Rattle.std.specs.List.Sorted.{IsNonDecreasingBy};

    ghost Value = { List T };

    ghost view = { λ a. a.list.items };

    ghost invariant = { λ a. IsNonDecreasingBy B.id a.list.items };
}

impl<T: Drop, B: OrderBy<T>> IdList<T, B> {
    /// The items of a list that is in the order of its ids.
    ///
    /// # Errors
    ///
    /// `NoMemory`: an allocation failed.
    pub fn of(alloc: Global, list: Vec<T>) -> Result<IdList<T, B>, NoMemory>
        requires { IsNonDecreasingBy B.id list.items }
        ensures { IfOk result (λ made. made ≡ list.items) }
    {
        let guesses = Guesses::of::<T, B>(alloc, &list)?;
        Ok(IdList {
            list,
            guesses,
            order: PhantomData,
        })
    }

    /// How many items it has.
    pub fn len(&self) -> usize
        ensures { result ≡ length self.now }
    {
        self.list.len()
    }

    /// Its items.
    pub fn as_slice(&self) -> &[T]
        ensures { result.now ≡ self.now }
    {
        self.list.as_slice()
    }

    /// The place of the first item of an id.
    pub fn place(&self, id: u64) -> Option<usize>
        ensures { result ≡ position (λ x. B.id x == id) self.now }
    {
        place::<T, B>(&self.list, id, self.guesses.near(id))
    }

    /// How many items are of an id.
    pub fn count(&self, id: u64) -> usize
        ensures { result ≡ count_by (λ x. B.id x == id) self.now }
    {
        count::<T, B>(&self.list, id, self.guesses.near(id))
    }

    /// Puts an item where one of the same id stands.
    pub fn set(&mut self, at: usize, item: T)
        requires { option_map B.id (slice_get self.old at) ≡ Some (B.id item) }
        ensures { self.new ≡ slice_set self.old at item }
    {
        self.list[at] = item;
    }
}
