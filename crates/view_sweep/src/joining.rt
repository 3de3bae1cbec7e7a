// What is sought of sets of views, whoever names it.
ghost use Rattle.std.specs.Prelude.{◌≡◌, ◌<◌, ◌||◌, ◌++◌, ◌∷◌, [], ℕ, List, length, false, OnOk, IfOk, IfErr, IsTrue};
ghost use Rattle.apfs_model.specs.Lists.{In};
ghost use Rattle.obj_base.specs.declared.stop.Stop.TheVariants.{NoMemory};
ghost use Rattle.view_sweep.specs.declared.joining.Sought.{Sought as One};
ghost use Rattle.view_sweep.specs.declared.wanted.SweptView.{SweptView as View};
ghost use Rattle.view_sweep.specs.Wanted.{number_by};
ghost use Rattle.view_sweep.specs.Runs.{has_place, AreRising};
ghost use Rattle.view_sweep.specs.Sets.{AreSets, AreNumbered, IsSetOf};
ghost use Rattle.view_sweep.specs.Asked.{IsJoined, AreSought, AreOfSets, IsUnder};

use crate::runs::{Run, add};
use crate::sets::{ViewSet, copy_of, runs_of};
use crate::wanted::{Asked, SweptView, Wanted};
use std::alloc::{AllocError, Global};

/// A virtual object that is sought in each view of a set, as one of those that name it wants it.
#[derive(Drop)]
pub(crate) struct Sought {
    pub wanted: Wanted,
    pub set: Vec<Run>,
}

// Whether two are wanted under one id, and what is expected of them is one.
fn is_alike(a: &Wanted, b: &Wanted) -> bool
    ensures { IsTrue result → IsUnder a.now b.now.oid (number_by b.now.want) }
{
    a.oid == b.oid && a.number() == b.number()
}

// Adds the views of a set.
fn add_views(alloc: Global, sought: &mut Sought, set: &[Run]) -> Result<(), AllocError>
    requires own { AreRising sought.old.set.items }
    requires set { AreRising set.now }
    ensures same { sought.new.wanted ≡ sought.old.wanted }
    ensures rising { OnOk result (AreRising sought.new.set.items) }
    ensures places { OnOk result ((p : ℕ) → has_place sought.new.set.items p ≡ (has_place sought.old.set.items p || has_place set.now p)) }
{
    add(alloc, &mut sought.set, set)
}

// Puts one more after those that are sought.
fn push_one(
    alloc: Global,
    wanted: &Wanted,
    set: &[Run],
    all: &mut Vec<Sought>,
) -> Result<(), AllocError>
    ensures joined { OnOk result (IsJoined wanted.now set.now all.old.items all.new.items) }
    ensures sets { (views : List View) → AreOfSets views all.old.items → IsSetOf views set.now → OnOk result (AreOfSets views all.new.items) }
{
    let set = copy_of(alloc, set)?;
    all.push(Sought {
        wanted: *wanted,
        set,
    })?;
    Ok(())
}

// Whether the last of those that are sought is alike.
fn is_last_alike(all: &[Sought], wanted: &Wanted) -> bool
    ensures some { IsTrue result → 0 < length all.now }
    ensures alike { IsTrue result → (front : List One) (last : One) → all.now ≡ front ++ last ∷ [] → IsUnder last.wanted wanted.now.oid (number_by wanted.now.want) }
{
    let count = all.len();
    if count == 0 {
        return false;
    }
    let last = &all[count - 1];
    is_alike(&last.wanted, wanted)
}

// Puts one more after those that are sought, or joins it to the last of them.
fn put(alloc: Global, wanted: &Wanted, set: &[Run], all: &mut Vec<Sought>) -> Result<(), AllocError>
    requires all { (s : One) → In s all.old.items → AreRising s.set.items }
    requires set { AreRising set.now }
    ensures joined { OnOk result (IsJoined wanted.now set.now all.old.items all.new.items) }
    ensures sets { (views : List View) → AreOfSets views all.old.items → IsSetOf views set.now → OnOk result (AreOfSets views all.new.items) }
{
    if !is_last_alike(all, wanted) {
        return push_one(alloc, wanted, set, all);
    }
    let mut last = all.pop().unwrap();
    add_views(alloc, &mut last, set)?;
    all.push(last)?;
    Ok(())
}

/// What is sought, where things stand side by side that are asked under one id and expected alike.
pub(crate) fn joined(
    alloc: Global,
    views: &[SweptView],
    sets: &[ViewSet],
    asked: &[Asked],
) -> Result<Vec<Sought>, AllocError>
    requires sets { AreSets views.now sets.now }
    requires numbers { AreNumbered (length sets.now) asked.now }
    ensures all { IfOk result (λ all. AreSought sets.now asked.now all.items) }
    ensures sets { IfOk result (λ all. AreOfSets views.now all.items) }
{
    let mut all = Vec::new(alloc);
    for one in asked {
        let set = runs_of(sets, one.set);
        put(alloc, &one.wanted, set, &mut all)?;
    }
    Ok(all)
}
