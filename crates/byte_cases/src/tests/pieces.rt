// Numbers worked out by hand.
use apfs_model::NoMemory;
use piece_count::{Holdings, Piece, ViewCount, ViewRun, Views, count};
use std::alloc::{AllocError, Global};

// Runs of blocks; of each of three views, how many blocks it has and how many no other view has; and how many some view has.
type Row = (&'static [Piece], &'static [ViewCount], u64);

// A table of these: a run is its first block, the one after the last, and the number of its set.
macro_rules! rows {
    ($([$(($first:expr, $end:expr, $set:expr)),*], [$(($held:expr, $only:expr)),*], $all:expr;)*) => {
        &[$((
            &[$(Piece { first: $first, end: $end, set: $set }),*],
            &[$(ViewCount { held: $held, only: $only }),*],
            $all,
        )),*]
    };
}

const ROWS: &[Row] = rows! {
    [], [(0, 0), (0, 0), (0, 0)], 0;
    [(5, 9, 1)], [(0, 0), (4, 4), (0, 0)], 4;
    [(5, 9, 3)], [(4, 0), (4, 0), (4, 0)], 4;
    [(5, 9, 4), (8, 10, 1)], [(4, 0), (2, 1), (4, 0)], 5;
    [(7, 12, 0), (5, 9, 1)], [(5, 3), (4, 2), (0, 0)], 7;
    [(7, 8, 0), (5, 9, 1), (8, 9, 2)], [(1, 0), (4, 2), (1, 0)], 4;
    [(5, 9, 2), (5, 9, 2), (8, 20, 5)], [(0, 0), (0, 0), (11, 11)], 11;
    [(3, 3, 3), (9, 4, 3), (16, 90, 0), (40, 50, 3), (2, 5, 6)], [(0, 0), (0, 0), (0, 0)], 0;
};

// A set of views from one up to another.
macro_rules! views {
    ($(($from:expr, $to:expr)),+) => {
        &[$(ViewRun { from: $from, to: $to }),+]
    };
}

// The views of each set, by runs of them.
const SETS: &[&[ViewRun]] = &[
    views!((0, 1)),
    views!((1, 2)),
    views!((2, 3)),
    views!((0, 3)),
    views!((0, 1), (2, 3)),
    views!((2, 9)),
];

fn sets(alloc: Global) -> Result<Vec<Views>, AllocError> {
    let mut sets = Vec::new(alloc);
    for runs in SETS {
        sets.push(Views {
            runs: Vec::from_slice(alloc, runs)?,
        })?;
    }
    Ok(sets)
}

// Whether three views have of 16 blocks what a row says.
fn is_counted(alloc: Global, row: &Row) -> Result<bool, NoMemory> {
    let held = Holdings {
        sets: sets(alloc)?,
        pieces: Vec::from_slice(alloc, row.0)?,
    };
    let counts = count(alloc, held, 3, 16)?;
    Ok(counts.all == row.2 && counts.views.as_slice() == row.1)
}

#[test]
fn counts_what_views_have(rt: HostRuntime) {
    for (i, row) in ROWS.iter().enumerate() {
        assert!(rt; is_counted(rt.alloc(), row) == Ok(true), "row {i}");
    }
}
