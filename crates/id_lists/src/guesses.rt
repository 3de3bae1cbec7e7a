// Where searches by an id start.
use crate::search::{NO_GUESS, OrderBy};
use apfs_model::NoMemory;
use std::alloc::Global;

/// How many bits of a cut id tell where it stands in its run.
const RUN_BITS: u32 = 3;

/// Places in a list from which searches start: one for each run of ids, of the first item that isn't of an id below the run. The list of them is small enough
/// to stay in the processor's cache. They tell nothing that a search doesn't test, so a wrong one costs time alone.
#[derive(Drop)]
pub(crate) struct Guesses {
    first: u64,
    shift: u32,
    places: Vec<u32>,
}

// By how many bits ids are cut, so that as many numbers as items come out, or twice as many: where ids lie side by side each has a number of its own.
fn shift_for(first: u64, last: u64, items: usize) -> u32 {
    let span = last.saturating_sub(first);
    match span.checked_div(items as u64) {
        Some(ids) => 63_u32.saturating_sub(ids.leading_zeros()),
        None => 0,
    }
}

// No place yet for as many runs.
fn unplaced(alloc: Global, runs: usize) -> Result<Vec<u32>, NoMemory> {
    Ok(vec![in alloc; u32::MAX; runs]?)
}

// Gives a run without an item the place of the next one.
fn close(places: &mut [u32]) {
    let mut next = u32::MAX;
    for run in (0..places.len()).rev() {
        if places[run] == u32::MAX {
            places[run] = next;
        }
        next = places[run];
    }
}

// The run of a cut id.
fn run(cut: u64) -> usize {
    cut.wrapping_shr(RUN_BITS) as usize
}

// Where a cut id stands in its run.
fn within_run(cut: u64) -> usize {
    (cut & ((1 << RUN_BITS) - 1)) as usize
}

impl Guesses {
    /// No guess for any id.
    pub(crate) fn none(alloc: Global) -> Guesses {
        Guesses {
            first: 0,
            shift: 0,
            places: Vec::new(alloc),
        }
    }

    /// The places for a list that is in the order of its ids.
    pub(crate) fn of<T, B: OrderBy<T>>(alloc: Global, list: &[T]) -> Result<Guesses, NoMemory> {
        let mut guesses = Guesses::none(alloc);
        if list.is_empty() {
            return Ok(guesses);
        }
        let first = B::id(&list[0]);
        let last = B::id(&list[list.len() - 1]);
        guesses.first = first;
        guesses.shift = shift_for(first, last, list.len());
        let runs = run(guesses.cut(last)).saturating_add(1);
        guesses.places = unplaced(alloc, runs)?;
        guesses.note::<T, B>(list);
        close(&mut guesses.places);
        Ok(guesses)
    }

    // An id without the bits that are cut.
    fn cut(&self, id: u64) -> u64 {
        id.saturating_sub(self.first).wrapping_shr(self.shift)
    }

    // Gives each run that has an item the place of its first one, which is the last that is noted.
    fn note<T, B: OrderBy<T>>(&mut self, list: &[T]) {
        for place in (0..list.len()).rev() {
            let run = run(self.cut(B::id(&list[place])));
            if let Some(first) = self.places.get_mut(run) {
                *first = u32::try_from(place).unwrap_or(u32::MAX);
            }
        }
    }

    /// Where a search for an id starts: as far from the first of its run as its number is from the run's first one, which is right where ids lie side by side.
    pub(crate) fn near(&self, id: u64) -> usize {
        let cut = self.cut(id);
        match self.places.get(run(cut)) {
            Some(place) => (*place as usize).saturating_add(within_run(cut)),
            None => NO_GUESS,
        }
    }
}
