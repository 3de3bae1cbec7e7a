// Items of two views in one ring.
ghost use Rattle.std.specs.Prelude.{◌≡◌, ◌≤◌, ◌++◌, [], length, take, drop, option_to_list, IfOk, IfNone, IfSome, OnOk, IsTrue};
ghost use Rattle.rule_index.specs.Order.{IsChain};
ghost use Rattle.view_change.specs.Rings.{MayCome};

use apfs_model::NoMemory;
use rule_index::chain::{Follows, is_chain};
use std::collections::VecDeque;
use std::marker::{Model, PhantomData};

/// The items that are left of the view before, and behind them those of the view after. What both have goes from the front to the back, and only where there is room between them does it move.
#[derive(Drop)]
pub(crate) struct Ring<T: Drop, B: Follows<T>> {
    items: VecDeque<T>,
    /// How many are left of the view before.
    left: usize,
    /// Whether it is known that those of each view are in order.
    in_order: bool,
    order: PhantomData<B>,
}

impl<T: Drop, B: Follows<T>> Model for Ring<T, B> {
    ghost use Rattle.std.specs.Prelude.{◌≡◌, ◌≤◌, List, true, length, take, drop};
    ghost use Rattle.rule_index.specs.Order.{IsChain};

    ghost Value = { List T × List T };

    ghost view = { λ a. (take a.left a.items.items, drop a.left a.items.items) };

    ghost invariant = { λ a. (a.left ≤ length a.items.items) × (a.in_order ≡ true → IsChain B.follows (take a.left a.items.items) × IsChain B.follows (drop a.left a.items.items)) };
}

impl<T: Drop, B: Follows<T>> Ring<T, B> {
    /// The items of the view before. They are in order where it is said so.
    pub(crate) fn new(items: Vec<T>, in_order: bool) -> Ring<T, B>
        requires { IsTrue in_order → IsChain B.follows items.items }
        ensures { result ≡ (items.items, []) }
    {
        let left = items.len();
        Ring {
            items: VecDeque::from_vec(items),
            left,
            in_order,
            order: PhantomData,
        }
    }

    /// How many are left of the view before.
    pub(crate) fn left(&self) -> usize
        ensures { result ≡ length self.now.0 }
    {
        self.left
    }

    // Whether an item may stand behind those of the view after.
    fn may_come(&self, next: &T) -> bool
        ensures { IsTrue result → MayCome B.follows self.now.1 next.now }
    {
        if self.left >= self.items.len() {
            return true;
        }
        match self.items.back() {
            Some(last) => B::follows(last, next),
            None => true,
        }
    }

    // Whether it shows that those of each view stay in order where some go from the one to the other.
    fn stay_in_order(&self, number: usize) -> bool
        requires { number ≤ length self.now.0 }
        ensures left { IsTrue result → IsChain B.follows (drop number self.now.0) }
        ensures taken { IsTrue result → IsChain B.follows (self.now.1 ++ take number self.now.0) }
    {
        let Some(next) = self.items.front() else {
            return false;
        };
        if !self.in_order {
            return false;
        }
        self.may_come(next)
    }

    /// Makes the first of those that are left the last of the view after, as many as there are up to a number.
    pub(crate) fn keep(&mut self, number: usize) -> ()
        ensures left { self.new.0 ≡ drop number self.old.0 }
        ensures taken { self.new.1 ≡ self.old.1 ++ take number self.old.0 }
    {
        let number = number.min(self.left);
        if number == 0 {
            return;
        }
        let in_order = self.stay_in_order(number);
        self.items.rotate_left(number);
        self.left -= number;
        self.in_order = in_order;
    }

    // Takes the first of those that are left.
    fn pop(&mut self) -> Option<T>
        ensures first { self.old.0 ≡ option_to_list result ++ self.new.0 }
        ensures taken { self.new.1 ≡ self.old.1 }
        ensures none { IfNone result (self.old.0 ≡ []) }
    {
        if self.left == 0 {
            return None;
        }
        let first = self.items.pop_front()?;
        self.left -= 1;
        Some(first)
    }

    /// Moves the first of those that are left to others, as many as there are up to a number.
    pub(crate) fn pass(&mut self, number: usize, to: &mut Vec<T>) -> Result<(), NoMemory>
        ensures left { OnOk result (self.new.0 ≡ drop number self.old.0) }
        ensures taken { OnOk result (self.new.1 ≡ self.old.1) }
        ensures moved { OnOk result (to.new.items ≡ to.old.items ++ take number self.old.0) }
    {
        'items: for _ in 0..number {
            let Some(item) = self.pop() else {
                return Ok(());
            };
            to.push(item)?;
        }
        Ok(())
    }

    // Makes room for some more. A ring that grows once often grows again, so there is some to spare.
    fn make_room(&mut self, more: usize) -> Result<(), NoMemory>
        ensures { self.new ≡ self.old }
    {
        let len = self.items.len();
        if self.items.capacity() - len < more {
            self.items.reserve_exact(more.saturating_add(len / 32))?;
        }
        Ok(())
    }

    // Whether it shows that those of each view stay in order where some come.
    fn come_in_order(&self, items: &[T]) -> bool
        ensures left { IsTrue result → IsChain B.follows self.now.0 }
        ensures taken { IsTrue result → IsChain B.follows (self.now.1 ++ items.now) }
    {
        let Some(next) = items.first() else {
            return false;
        };
        if !self.in_order {
            return false;
        }
        if !is_chain::<T, B>(items) {
            return false;
        }
        self.may_come(next)
    }

    /// Puts items behind those of the view after.
    pub(crate) fn put(&mut self, items: Vec<T>) -> Result<(), NoMemory>
        ensures left { OnOk result (self.new.0 ≡ self.old.0) }
        ensures taken { OnOk result (self.new.1 ≡ self.old.1 ++ items.items) }
    {
        if items.is_empty() {
            return Ok(());
        }
        self.make_room(items.len())?;
        let in_order = self.come_in_order(&items);
        let mut items = VecDeque::from_vec(items);
        self.in_order = false;
        self.items.append(&mut items)?;
        self.in_order = in_order;
        Ok(())
    }

    /// All items, and others behind them; and whether it is known that these are in order, where none is left of the view before.
    pub(crate) fn whole(self, items: Vec<T>) -> Result<(Vec<T>, bool), NoMemory>
        ensures items { IfOk result (λ whole. whole.0.items ≡ (self.0 ++ self.1) ++ items.items) }
        ensures order { IfOk result (λ whole. IsTrue whole.1 → IsChain B.follows whole.0.items) }
    {
        if self.items.is_empty() {
            let mut items = items;
            items.shrink_to_fit();
            let in_order = is_chain::<T, B>(&items);
            return Ok((items, in_order));
        }
        let mut ring = self;
        ring.put(items)?;
        let in_order = ring.in_order && ring.left == 0;
        Ok((ring.items.into_vec(), in_order))
    }
}
