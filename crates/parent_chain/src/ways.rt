// The parent of each inode, and the climb that met it.
ghost use Rattle.std.specs.Prelude.{◌≡◌, ◌+◌, ◌==◌, ◌&&◌, ℕ, None, Some, nat_le, map, filter, is_some, if◌then◌else◌, IfOk};
ghost use Rattle.std.specs.List.Sorted.{IsNonDecreasingBy};
ghost use Rattle.fs_record.specs.Facts.{first_user_id};
ghost use Rattle.view_rules.specs.Directories as rules;
ghost use Rattle.parent_chain.specs.declared.ways.Way as declared;
ghost use Rattle.parent_chain.specs.Ways as spec;

use crate::unreached::is_user_directory;
use blk_source::NoMemory;
use id_lists::{IdList, OrderBy, are_in_order};
use std::alloc::{AllocError, Global};
use std::marker::Model;
use view_facts::InodeFact;

/// The id of an inode and that of its parent, and the number of the climb that met it.
#[derive(Clone, Copy, PartialEq, Eq)]
pub(crate) struct Way {
    id: u64,
    parent: u64,
    climb: Option<usize>,
}

/// By the id of the inode.
struct ById;

impl OrderBy<Way> for ById {
    ghost use Rattle.parent_chain.specs.declared.ways.Way.{Way};

    ghost id = { λ (w : Way). w.id };

    fn id(way: &Way) -> u64 {
        way.id
    }
}

/// The ways of all inodes in the order of their ids, so that a search finds that of an id.
#[derive(Drop)]
pub(crate) struct Ways {
    list: IdList<Way, ById>,
}

impl Model for Ways {
    ghost use Rattle.std.specs.Prelude.{List};
    ghost use Rattle.parent_chain.specs.declared.ways.Way.{Way};

    ghost Value = { List Way };

    ghost view = { λ ways. ways.list };
}

// The way of an inode that no climb met.
fn way_of(f: &InodeFact) -> Way
    ensures { result ≡ spec.way_of f.now }
{
    Way {
        id: f.id(),
        parent: f.parent(),
        climb: None,
    }
}

// Those of all inodes, in record order.
fn listed(alloc: Global, inodes: &[InodeFact]) -> Result<Vec<Way>, AllocError>
    ensures { IfOk result (λ list. list.items ≡ map spec.way_of inodes.now) }
{
    inodes.iter().map(|f| way_of(f)).collect(alloc)
}

// Those of the directories of 16 or more, in record order.
fn listed_directories(alloc: Global, inodes: &[InodeFact]) -> Result<Vec<Way>, AllocError>
    ensures { IfOk result (λ list. list.items ≡ map spec.way_of (filter rules.is_user_directory inodes.now)) }
{
    inodes
        .iter()
        .filter(|f| is_user_directory(f))
        .map(|f| way_of(f))
        .collect(alloc)
}

// The same ways in the order of their ids, which is that of the records in a tree; those of an id stay in their order.
fn in_order(list: Vec<Way>) -> Result<Vec<Way>, AllocError>
    ensures same { IfOk result (λ sorted. (id : ℕ) → spec.way_at sorted.items id ≡ spec.way_at list.items id) }
    ensures ascending { IfOk result (λ sorted. IsNonDecreasingBy (λ (w : declared.Way). w.id) sorted.items) }
{
    let mut list = list;
    if are_in_order::<_, ById>(&list) {
        return Ok(list);
    }
    list.sort_by_key(|w| w.id)?;
    Ok(list)
}

// The parent of an id that no climb met. Now this one has.
fn take(list: &mut IdList<Way, ById>, id: u64, climb: usize) -> Option<u64>
    ensures value { result ≡ spec.left_at list.old id }
    ensures left { (q : ℕ) → spec.left_at list.new q ≡ (if is_some result && id == q then None else spec.left_at list.old q) }
    ensures met { (q : ℕ) → spec.met_at list.new q ≡ (if is_some result && id == q then Some climb else spec.met_at list.old q) }
    ensures fuel { spec.left_count list.new + (if is_some result then 1 else 0) ≡ spec.left_count list.old }
{
    let Some(at) = list.place(id) else {
        return None;
    };
    let way = list.as_slice()[at];
    if way.climb.is_some() {
        return None;
    }
    let met = Way {
        id: way.id,
        parent: way.parent,
        climb: Some(climb),
    };
    list.set(at, met);
    Some(way.parent)
}

impl Ways {
    // Some ways, of which no climb met one.
    fn made(alloc: Global, list: Vec<Way>) -> Result<Ways, NoMemory>
        ensures { IfOk result (λ ways. (id : ℕ) → spec.way_at ways id ≡ spec.way_at list.items id) }
    {
        let list = in_order(list)?;
        let list = IdList::of(alloc, list)?;
        Ok(Ways { list })
    }

    /// The ways of all inodes. No climb met one yet.
    pub(crate) fn of(alloc: Global, inodes: &[InodeFact]) -> Result<Ways, NoMemory>
        ensures { IfOk result (spec.HasWaysOf inodes.now) }
    {
        let list = listed(alloc, inodes)?;
        Ways::made(alloc, list)
    }

    /// The ways of the directories of 16 or more. No climb met one yet.
    pub(crate) fn of_directories(alloc: Global, inodes: &[InodeFact]) -> Result<Ways, NoMemory>
        ensures { IfOk result (spec.HasWaysOf (filter rules.is_user_directory inodes.now)) }
    {
        let list = listed_directories(alloc, inodes)?;
        Ways::made(alloc, list)
    }

    /// The parent of an id of 16 or more that no climb met. Now this one has.
    pub(crate) fn follow(&mut self, id: u64, climb: usize) -> Option<u64>
        ensures value { result ≡ (if nat_le first_user_id id then spec.left_at self.old id else None) }
        ensures left { (q : ℕ) → spec.left_at self.new q ≡ (if is_some result && id == q then None else spec.left_at self.old q) }
        ensures met { (q : ℕ) → spec.met_at self.new q ≡ (if is_some result && id == q then Some climb else spec.met_at self.old q) }
        ensures fuel { spec.left_count self.new + (if is_some result then 1 else 0) ≡ spec.left_count self.old }
    {
        if id < 16 {
            return None;
        }
        take(&mut self.list, id, climb)
    }

    /// The climb that met an id.
    pub(crate) fn climb_of(&self, id: u64) -> Option<usize>
        ensures { result ≡ spec.met_at self.now id }
    {
        let Some(at) = self.list.place(id) else {
            return None;
        };
        self.list.as_slice()[at].climb
    }
}
