// A ring in which what goes to the back waits, and then moves at once.
ghost use Rattle.std.specs.Prelude.{◌≡◌, ◌++◌, [], take, drop, IfOk, OnOk, IsTrue};
ghost use Rattle.rule_index.specs.Order.{IsChain};

use crate::ring::Ring;
use apfs_model::NoMemory;
use rule_index::chain::Follows;
use std::alloc::Global;
use std::marker::Model;
use std::mem::replace;

/// The items that are left of the view before, and those of the view after. What both have waits where it stands until something is gone or has come.
#[derive(Drop)]
pub(crate) struct LazyRing<T: Drop, B: Follows<T>> {
    ring: Ring<T, B>,
    /// How many of those that the ring has left of the view before are to go to the view after.
    waiting: usize,
}

impl<T: Drop, B: Follows<T>> Model for LazyRing<T, B> {
    ghost use Rattle.std.specs.Prelude.{◌≤◌, ◌++◌, List, length, take, drop};

    ghost Value = { List T × List T };

    ghost view = { λ a. (drop a.waiting a.ring.0, a.ring.1 ++ take a.waiting a.ring.0) };

    ghost invariant = { λ a. a.waiting ≤ length a.ring.0 };
}

impl<T: Drop, B: Follows<T>> LazyRing<T, B> {
    /// The items of the view before. They are in order where it is said so.
    pub(crate) fn new(items: Vec<T>, in_order: bool) -> LazyRing<T, B>
        requires { IsTrue in_order → IsChain B.follows items.items }
        ensures { result ≡ (items.items, []) }
    {
        LazyRing {
            ring: Ring::new(items, in_order),
            waiting: 0,
        }
    }

    /// Makes the first of those that are left the last of the view after, as many as there are up to a number.
    pub(crate) fn keep(&mut self, number: usize) -> ()
        ensures left { self.new.0 ≡ drop number self.old.0 }
        ensures taken { self.new.1 ≡ self.old.1 ++ take number self.old.0 }
    {
        let more = number.min(self.ring.left() - self.waiting);
        self.waiting += more;
    }

    /// Moves the first of those that are left to others, as many as there are up to a number.
    pub(crate) fn pass(&mut self, number: usize, to: &mut Vec<T>) -> Result<(), NoMemory>
        ensures left { OnOk result (self.new.0 ≡ drop number self.old.0) }
        ensures taken { OnOk result (self.new.1 ≡ self.old.1) }
        ensures moved { OnOk result (to.new.items ≡ to.old.items ++ take number self.old.0) }
    {
        let waiting = replace(&mut self.waiting, 0);
        self.ring.keep(waiting);
        self.ring.pass(number, to)?;
        Ok(())
    }

    /// Moves items behind those of the view after.
    pub(crate) fn put(&mut self, alloc: Global, items: &mut Vec<T>) -> Result<(), NoMemory>
        ensures left { OnOk result (self.new.0 ≡ self.old.0) }
        ensures taken { OnOk result (self.new.1 ≡ self.old.1 ++ items.old.items) }
        ensures none { items.new.items ≡ [] }
    {
        let waiting = replace(&mut self.waiting, 0);
        self.ring.keep(waiting);
        self.ring.put(replace(items, Vec::new(alloc)))?;
        Ok(())
    }

    /// Puts all items before some; and tells whether it is known that all these are in order, where none is left of the view before.
    pub(crate) fn whole(&mut self, alloc: Global, items: &mut Vec<T>) -> Result<bool, NoMemory>
        ensures items { OnOk result (items.new.items ≡ (self.old.0 ++ self.old.1) ++ items.old.items) }
        ensures order { IfOk result (λ known. IsTrue known → IsChain B.follows items.new.items) }
    {
        let none = Ring::new(Vec::new(alloc), false);
        let mut ring = replace(&mut self.ring, none);
        ring.keep(replace(&mut self.waiting, 0));
        let (whole, known) = ring.whole(replace(items, Vec::new(alloc)))?;
        *items = whole;
        Ok(known)
    }
}
