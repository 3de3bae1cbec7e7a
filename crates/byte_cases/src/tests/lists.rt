// Lists in order with what is found in them, whatever the guess.
use id_lists::{ByItself, IdList, IdSlice, NO_GUESS, are_in_order, below, count, distinct};
use std::alloc::{AllocError, Global};
use std::process::Abort;

/// A list, an id, how many items are below it, its place, and how many items are of it.
type Row = (&'static [u64], u64, usize, Option<usize>, usize);

const SPARSE: &[u64] = &[2, 3, 16, 17, 17, 17, 20, 1_000_000, u64::MAX];

const RISING: &[u64] = &[2, 3, 16, 18, 20, 1_000_000];

// In no order.
const LOOSE: &[u64] = &[3, 1, 3, 2];

/// A list, an id, its place, and how many items are of it.
type Lent = (&'static [u64], u64, Option<usize>, usize);

const LENT: &[Lent] = &[
    (RISING, 2, Some(0), 1),
    (RISING, 18, Some(3), 1),
    (RISING, 19, None, 0),
    (RISING, 1_000_000, Some(5), 1),
    (LOOSE, 3, Some(0), 2),
    (LOOSE, 2, Some(3), 1),
    (LOOSE, 4, None, 0),
];

const ROWS: &[Row] = &[
    (&[], 0, 0, None, 0),
    (&[], u64::MAX, 0, None, 0),
    (&[5], 4, 0, None, 0),
    (&[5], 5, 0, Some(0), 1),
    (&[5], 6, 1, None, 0),
    (SPARSE, 2, 0, Some(0), 1),
    (SPARSE, 4, 2, None, 0),
    (SPARSE, 17, 3, Some(3), 3),
    (SPARSE, 18, 6, None, 0),
    (SPARSE, 1_000_000, 7, Some(7), 1),
    (SPARSE, 1_000_001, 8, None, 0),
    (SPARSE, u64::MAX, 8, Some(8), 1),
];

const GUESSES: &[usize] = &[NO_GUESS, 0, 3, 8];

// Whether an id is found in a list as a row says, whatever the guess.
fn is_searched(row: &Row) -> bool {
    let (list, id, before, _, of_it) = *row;
    if !are_in_order::<_, ByItself>(list) {
        return false;
    }
    for guess in GUESSES {
        let found = (
            below::<_, ByItself>(list, id, *guess),
            count::<_, ByItself>(list, id, *guess),
        );
        if found != (before, of_it) {
            return false;
        }
    }
    true
}

#[test]
fn searches(rt: HostRuntime) {
    for (i, row) in ROWS.iter().enumerate() {
        assert!(rt; is_searched(row), "row {i}");
    }
}

// Puts an id where it stands.
fn put_back(list: &mut IdList<u64, ByItself>, id: u64) {
    if let Some(at) = list.place(id) {
        list.set(at, id);
    }
}

// Whether a list is that of a row, and an id is found in it as the row says, also after it is put back.
fn is_made(made: &mut IdList<u64, ByItself>, row: &Row) -> bool {
    let (list, id, _, at, of_it) = *row;
    let found = (made.len(), made.place(id), made.count(id)) == (list.len(), at, of_it);
    let whole = made.as_slice() == list;
    put_back(made, id);
    found && whole && made.as_slice() == list
}

fn is_list(alloc: Global, row: &Row) -> Result<bool, AllocError> {
    let items = Vec::from_slice(alloc, row.0)?;
    if !are_in_order::<_, ByItself>(&items) {
        return Ok(false);
    }
    let mut made: IdList<u64, ByItself> = IdList::of(alloc, items).or(Err(AllocError))?;
    let is_made = is_made(&mut made, row);
    drop(made);
    Ok(is_made)
}

#[test]
fn lists(rt: HostRuntime) {
    for (i, row) in ROWS.iter().enumerate() {
        assert!(rt; is_list(rt.alloc(), row) == Ok(true), "row {i}");
    }
}

// Whether an id is found in a lent list as a row says.
fn is_found(lent: &IdSlice<'_, u64, ByItself>, row: Lent) -> bool {
    let (list, id, at, of_it) = row;
    lent.place(id) == at && lent.count(id) == of_it && lent.len() == list.len()
}

// Asserts that an id is found in a lent list, with guesses and without, as a row says.
fn assert_found(rt: &impl Abort, alloc: Global, row: Lent) {
    let lent: IdSlice<'_, u64, ByItself> = IdSlice::of(alloc, row.0).ok().expect(rt, "memory");
    assert!(rt; is_found(&lent, row));
    drop(lent);
    let plain: IdSlice<'_, u64, ByItself> = IdSlice::without_guesses(alloc, row.0);
    assert!(rt; is_found(&plain, row));
    drop(plain);
}

#[test]
fn lent_lists(rt: HostRuntime) {
    for (list, id, _, at, of_it) in ROWS {
        assert_found(&rt, rt.alloc(), (*list, *id, *at, *of_it));
    }
    for row in LENT {
        assert_found(&rt, rt.alloc(), *row);
    }
}

// Lists, and whether they are in order.
const ORDER: &[(&[u64], bool)] = &[
    (&[], true),
    (&[7], true),
    (SPARSE, true),
    (&[1, 3, 2], false),
    (&[2, 1], false),
];

#[test]
fn order(rt: HostRuntime) {
    for (list, want) in ORDER {
        assert!(rt; are_in_order::<_, ByItself>(list) == *want);
    }
}

// Numbers, and those that there are in order.
const DISTINCT: &[(&[u64], &[u64])] = &[
    (&[], &[]),
    (&[7], &[7]),
    (&[3, 1, 3, 2, 1], &[1, 2, 3]),
    (&[u64::MAX, 0, u64::MAX], &[0, u64::MAX]),
];

fn are_distinct(alloc: Global, given: &[u64], want: &[u64]) -> Result<bool, AllocError> {
    let mut items = Vec::from_slice(alloc, given)?;
    distinct(&mut items);
    Ok(items.as_slice() == want)
}

#[test]
fn numbers_once(rt: HostRuntime) {
    for (given, want) in DISTINCT {
        assert!(rt; are_distinct(rt.alloc(), given, want) == Ok(true));
    }
}
