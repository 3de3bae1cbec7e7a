// What two runs of leaves have more and less than one another: each of one view, between two leaves that both views have.
ghost use Rattle.std.specs.Prelude.{◌≡◌, ◌≤◌, ◌++◌, [], length, slice_get, Some, IsTrue, OnOk};
ghost use Rattle.view_change.specs.Numbers.{no_facts_under};
ghost use Rattle.view_change.specs.Settled.{IsSettled, AreSettled};

use apfs_model::NoMemory;
use std::alloc::Global;
use std::mem::replace;
use view_facts::{Facts, KeptFact};

// Adds copies of some facts to others.
fn add_copies<T: KeptFact>(alloc: Global, facts: &[T], to: &mut Vec<T>) -> Result<(), NoMemory>
    ensures { OnOk result (to.new.items ≡ to.old.items ++ facts.now) }
{
    for fact in facts {
        to.push(fact.copied(alloc)?)?;
    }
    Ok(())
}

// The place of the first of some facts, from one on, that doesn't stand before a fact.
fn place_of<T: KeptFact>(facts: &[T], from: usize, fact: &T) -> usize
    requires { from ≤ length facts.now }
    ensures from { from ≤ result }
    ensures within { result ≤ length facts.now }
{
    for place in from..facts.len() {
        if !facts[place].is_before(fact) {
            return place;
        }
    }
    facts.len()
}

// Whether the fact at a place of some is the same as another.
fn is_at<T: KeptFact>(facts: &[T], place: usize, fact: &T) -> bool
    ensures { IsTrue result → slice_get facts.now place ≡ Some fact.now }
{
    match facts.get(place) {
        Some(other) => other.is_same(fact),
        None => false,
    }
}

// Tells which of some facts that were passed are gone, and which of some that were read have come: those that aren't found in both, one after the other.
fn settle_each<T: KeptFact>(
    alloc: Global,
    passed: Vec<T>,
    read: &[T],
    gone: &mut Vec<T>,
    come: &mut Vec<T>,
) -> Result<(), NoMemory>
    ensures { OnOk result (IsSettled passed.items read.now gone.old.items gone.new.items come.old.items come.new.items) }
{
    let mut from: usize = 0;
    'passed: for fact in passed {
        let place = place_of(read, from, &fact);
        add_copies(alloc, &read[from..place], come)?;
        from = place;
        if is_at(read, place, &fact) {
            from += 1;
        } else {
            gone.push(fact)?;
        }
    }
    add_copies(alloc, &read[from..], come)?;
    Ok(())
}

// The same, where those that were passed are taken out.
fn settle_kind<T: KeptFact>(
    alloc: Global,
    passed: &mut Vec<T>,
    read: &[T],
    gone: &mut Vec<T>,
    come: &mut Vec<T>,
) -> Result<(), NoMemory>
    ensures settled { OnOk result (IsSettled passed.old.items read.now gone.old.items gone.new.items come.old.items come.new.items) }
    ensures none { passed.new.items ≡ [] }
{
    let all = replace(passed, Vec::new(alloc));
    settle_each(alloc, all, read, gone, come)
}

/// Tells which of the facts that were passed are gone, and which of those that were read have come. Those that were passed are taken out.
pub(crate) fn settle(
    alloc: Global,
    passed: &mut Facts,
    read: &Facts,
    gone: &mut Facts,
    come: &mut Facts,
) -> Result<(), NoMemory>
    ensures settled { OnOk result (AreSettled passed.old read.now gone.old gone.new come.old come.new) }
    ensures none { OnOk result (passed.new ≡ no_facts_under passed.old.names) }
{
    settle_kind(
        alloc,
        &mut passed.inodes,
        &read.inodes,
        &mut gone.inodes,
        &mut come.inodes,
    )?;
    settle_kind(
        alloc,
        &mut passed.entries,
        &read.entries,
        &mut gone.entries,
        &mut come.entries,
    )?;
    settle_kind(
        alloc,
        &mut passed.attributes,
        &read.attributes,
        &mut gone.attributes,
        &mut come.attributes,
    )?;
    settle_kind(
        alloc,
        &mut passed.links,
        &read.links,
        &mut gone.links,
        &mut come.links,
    )?;
    settle_kind(
        alloc,
        &mut passed.siblings,
        &read.siblings,
        &mut gone.siblings,
        &mut come.siblings,
    )?;
    settle_kind(
        alloc,
        &mut passed.extents,
        &read.extents,
        &mut gone.extents,
        &mut come.extents,
    )
}

/// Whether there are no facts.
pub fn are_none(facts: &Facts) -> bool
    ensures { IsTrue result → facts.now ≡ no_facts_under facts.now.names }
{
    facts.inodes.is_empty()
        && facts.entries.is_empty()
        && facts.attributes.is_empty()
        && facts.links.is_empty()
        && facts.siblings.is_empty()
        && facts.extents.is_empty()
}
