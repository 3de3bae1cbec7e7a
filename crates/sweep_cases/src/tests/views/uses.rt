// Which views use which records: the live view of a volume, and two snapshots between which a file was renamed. What is wanted
// was worked out by hand.
ghost use Rattle.std.specs.Prelude.{◌≡◌, ◌==◌, IfOk, if◌then◌else◌};
ghost use Rattle.view_sweep.specs.Wanted.{AreToldHeads, AreBelowHeads};

use super::{MAP, open};
use blk_source::MemSource;
use img_make::{Sample, make, sample, table};
use omap_map::OmapRecord;
use std::alloc::{AllocError, Global};
use std::test::Fail;
use view_sweep::{Head, Reach, Run, Share, SharedAs, SweptView, Used, reach_by_views};

// The transaction of the live view, whose place is 0, or of a snapshot.
fn xid_of(place: u64) -> u64
    ensures { result ≡ (if place == 0 then 5 else if place == 1 then 2 else 4) }
{
    match place {
        0 => 5,
        1 => 2,
        _ => 4,
    }
}

// Views in an order of their places.
fn views(alloc: Global, order: [u64; 3]) -> Result<Vec<Head>, AllocError>
    ensures told { IfOk result (λ heads. AreToldHeads heads.items) }
    ensures below { IfOk result (λ heads. AreBelowHeads 1 heads.items) }
{
    let mut heads = Vec::new(alloc);
    for place in order {
        heads.push(Head {
            view: SweptView {
                slot: 0,
                place,
                xid: xid_of(place),
                map: MAP,
                hashed: true,
                volume: 0,
            },
            root_oid: 1028,
            meta_ext: 0,
        })?;
    }
    Ok(heads)
}

// What the views use.
fn reach(alloc: Global, order: [u64; 3]) -> Result<Reach, Fail> {
    let plan = sample(alloc, Sample::V)?;
    let mut src = MemSource::new(make(alloc, &plan)?, Vec::new(alloc));
    let at = open(alloc, &mut src)?;
    let heads = views(alloc, order)?;
    let volumes = [at.volume];
    match reach_by_views(alloc, &mut src, &at.site, &volumes, &heads) {
        Ok(reach) => Ok(reach),
        Err(_) => Err(Fail::from("the sweep is stopped")),
    }
}

// A record that is used: its id, its transaction and its block, as what it is expected, and the only run of its set.
type One = (u64, u64, u64, SharedAs, Run);

// Whether the set of a record is a run.
fn has_run(reach: &Reach, share: &Share, run: Run) -> bool {
    match reach.sets.get(share.set) {
        Some(set) => set.runs.as_slice() == [run].as_slice(),
        None => false,
    }
}

// Whether one of the records that are answered is this one, with its set.
fn has(reach: &Reach, one: &One) -> bool {
    let (oid, xid, paddr, expected, run) = *one;
    let used = Used {
        map: MAP,
        mapping: OmapRecord {
            oid,
            xid,
            flags: 0,
            size: 4096,
            paddr,
        },
    };
    reach.used.contains(&used)
        && reach.shares.iter().any(|share| {
            share.used == used
                && share.expected == expected
                && share.hashed
                && has_run(reach, share, run)
        })
}

const LEAF: SharedAs = SharedAs::Node { level: 0 };

// The places of the three views, of the first, of the second, of the third, and of the last two.
const ALL: Run = Run { from: 0, end: 3 };

const FIRST: Run = Run { from: 0, end: 1 };

const SECOND: Run = Run { from: 1, end: 2 };

const THIRD: Run = Run { from: 2, end: 3 };

const LATER: Run = Run { from: 1, end: 3 };

// By transaction: the snapshots, then the live view. The root and the second leaf are those of all views, and the first leaf is one before
// transaction 4 and another from it on.
const BY_TRANSACTION: &[One] = table! {
    1028, 1, 54, SharedAs::Root, ALL;
    1031, 1, 57, LEAF, FIRST;
    1031, 4, 58, LEAF, LATER;
    1032, 1, 59, LEAF, ALL;
};

// The live view, then the snapshots: a view that uses another leaf stands between two that share one.
const LIVE_FIRST: &[One] = table! {
    1028, 1, 54, SharedAs::Root, ALL;
    1031, 1, 57, LEAF, SECOND;
    1031, 4, 58, LEAF, FIRST;
    1031, 4, 58, LEAF, THIRD;
    1032, 1, 59, LEAF, ALL;
};

// The order of the views, and what they use.
const ORDERS: &[([u64; 3], &[One])] = table! {
    [1, 2, 0], BY_TRANSACTION;
    [0, 1, 2], LIVE_FIRST;
};

// Whether the views use four records, and these with their sets.
fn is_reached(reach: &Reach, wanted: &[One]) -> bool {
    reach.used.len() == 4
        && reach.shares.len() == wanted.len()
        && wanted.iter().all(|one| has(reach, one))
}

#[test]
fn each_record_tells_its_views(rt: HostRuntime) -> Result<(), Fail> {
    for (order, wanted) in ORDERS {
        assert!(rt;
            is_reached(&reach(rt.alloc(), *order)?, wanted),
            "{} first",
            order[0]
        );
    }
    Ok(())
}
