// Targets by name.
ghost use Rattle.std.specs.Prelude.{◌≡◌, List, [], ◌∷◌, length, map, IfOk};
ghost use Rattle.path_search.specs.Order as order;
ghost use Rattle.path_search.specs.Places.{target_of};
ghost use Rattle.path_search.specs.Parts.{targets_with, numbered};
ghost use Rattle.path_search.specs.declared.target.Target.{Target};

use crate::Target;
use crate::kept::{KeptTarget, Place};
use crate::kinds::KindAndSize;
use apfs_model::NoMemory;
use std::alloc::{AllocError, Global};
use view_facts::EntryFact;

/// Some targets by the bytes of their names, those of one name in their order. The names lie in place, so that a sort reads them where it moves them, and the comparison of
/// texts takes their first sixteen bytes as two numbers.
pub fn kept_by_name(mut targets: Vec<KeptTarget>) -> Result<Vec<KeptTarget>, AllocError>
    ensures { IfOk result (λ sorted. sorted.items ≡ order.by_name (λ target. target.name) targets.items) }
{
    targets.sort_by(|a, b| a.name().cmp(b.name()))?;
    Ok(targets)
}

/// A target with the number of its entry among those of its directory.
#[derive(Drop)]
pub struct Numbered {
    pub number: usize,
    pub target: KeptTarget,
}

/// Sorts numbered targets as `kept_by_name` does, where they stand: their numbers tell how those of one name stood, so that no buffer is needed.
pub fn sort_numbered(targets: &mut Vec<Numbered>)
    ensures { (before : List Target) → targets.old.items ≡ numbered 0 before → map (λ t. t.target) targets.new.items ≡ order.by_name (λ target. target.name) before }
{
    targets.sort_unstable_by(|a, b| {
        a.target
            .name()
            .cmp(b.target.name())
            .then(a.number.cmp(&b.number))
    });
}

/// The targets of some entries whose files have these kinds and sizes, each with a name of its own.
pub fn kept_of(
    alloc: Global,
    entries: &[EntryFact],
    kinds: &[KindAndSize],
) -> Result<Vec<KeptTarget>, NoMemory>
    requires { length entries.now ≡ length kinds.now }
    ensures { IfOk result (λ kept. kept.items ≡ targets_with entries.now kinds.now) }
{
    let mut kept = Vec::with_capacity(alloc, entries.len())?;
    for (number, entry) in entries.iter().enumerate() {
        let told = &kinds[number];
        let target = told.target(alloc, entry)?;
        kept.push(target)?;
    }
    Ok(kept)
}

/// A place alone, as it is told.
pub fn alone(alloc: Global, place: Place) -> Result<Vec<KeptTarget>, AllocError>
    ensures { IfOk result (λ targets. targets.items ≡ target_of place ∷ []) }
{
    let mut targets = Vec::new(alloc);
    targets.push(place.target())?;
    Ok(targets)
}

/// The same targets, each with a name of its own.
pub fn told(alloc: Global, kept: &[KeptTarget]) -> Result<Vec<Target>, NoMemory>
    ensures { IfOk result (λ targets. targets.items ≡ kept.now) }
{
    let mut targets = Vec::with_capacity(alloc, kept.len())?;
    'kept: for target in kept {
        let target = target.target(alloc)?;
        targets.push(target)?;
    }
    Ok(targets)
}
