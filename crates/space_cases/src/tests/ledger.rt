// Places and counts worked out by hand.
ghost use Rattle.std.specs.Prelude.{◌≡◌, IfOk};

use apfs_model::NoMemory;
use img_make::table;
use own_ledger::ClaimFault::{Outside, Twice};
use own_ledger::{ClaimFault, Difference, Ledger};
use std::alloc::Global;

// A ledger of the blocks from 0 to 99, of which it holds those from 10 to 19.
fn ten_of_a_hundred(alloc: Global) -> Result<Ledger, NoMemory>
    ensures { IfOk result (λ ledger. (ledger.first ≡ 0) × (ledger.blocks ≡ 100)) }
{
    let mut ledger = Ledger::new(alloc, 0, 100)?;
    let _ = ledger.claim(10, 10);
    Ok(ledger)
}

// The first block and the number of blocks of a claim, its answer, and how many blocks are held after it.
const CLAIMS: &[(u64, u64, Result<(), ClaimFault>, u64)] = table! {
    5, 8, Err(Twice { block: 10 }), 10;
    99, 2, Err(Outside { block: 99 }), 10;
    50, 0, Ok(()), 10;
    200, 0, Ok(()), 10;
    u64::MAX, 2, Err(Outside { block: u64::MAX }), 10;
    100, 1, Err(Outside { block: 100 }), 10;
    0, 101, Err(Outside { block: 0 }), 10;
    15, 3, Err(Twice { block: 15 }), 10;
    19, 81, Err(Twice { block: 19 }), 10;
    20, 80, Ok(()), 90;
    0, 10, Ok(()), 20;
    99, 1, Ok(()), 11;
};

// What a claim answers, and how many blocks are held after it.
fn claimed(
    alloc: Global,
    first: u64,
    length: u64,
) -> Result<(Result<(), ClaimFault>, u64), NoMemory> {
    let mut ledger = ten_of_a_hundred(alloc)?;
    let answer = ledger.claim(first, length);
    Ok((answer, ledger.held()))
}

#[test]
fn claims(rt: HostRuntime) {
    for (first, length, want, held) in CLAIMS {
        assert!(rt;
            claimed(rt.alloc(), *first, *length) == Ok((*want, *held)),
            "{first} {length}"
        );
    }
}

// A block, and whether it is held.
const HELD: &[(u64, bool)] = &[
    (999, false),
    (1002, false),
    (1003, true),
    (1004, true),
    (3000, true),
    (5002, true),
    (5003, false),
    (6002, false),
    (6003, false),
];

fn holds_as_said(ledger: &Ledger) -> bool {
    for (block, want) in HELD {
        if ledger.holds(*block) != *want {
            return false;
        }
    }
    true
}

const TWICE: Result<(), ClaimFault> = Err(Twice { block: 1003 });

fn are_long_claims(alloc: Global) -> Result<bool, NoMemory> {
    let mut ledger = Ledger::new(alloc, 1000, 5003)?;
    let first = (ledger.claim(1003, 4000), ledger.held());
    let as_said = holds_as_said(&ledger);
    let then = (
        ledger.claim(5003, 1000),
        ledger.claim(1000, 5003),
        ledger.held(),
    );
    Ok(first == (Ok(()), 4000) && as_said && then == (Ok(()), TWICE, 5000))
}

const FAR_AWAY: Result<(), ClaimFault> = Err(Twice { block: 4321 });

fn is_found_far_away(alloc: Global) -> Result<bool, NoMemory> {
    let mut ledger = Ledger::new(alloc, 0, 5000)?;
    let claims = (
        ledger.claim(4321, 1),
        ledger.claim(3, 4997),
        ledger.claim(3, 4318),
    );
    Ok(claims == (Ok(()), FAR_AWAY, Ok(())) && ledger.held() == 4319)
}

// A difference: the block, and whether it is held.
macro_rules! of {
    ($block:expr, $held:expr) => {
        Some(Difference {
            block: $block,
            held: $held,
        })
    };
}

// The first block and the number of blocks that are compared, their bits, and the difference.
const DIFFERENCES: &[(u64, u64, [u8; 4], Option<Difference>)] = &[
    (0, 24, [0x00, 0xfc, 0x0f, 0xff], None),
    (0, 24, [0x00, 0xfc, 0x0e, 0x00], of!(16, true)),
    (0, 24, [0x00, 0x7c, 0x0f, 0x00], of!(15, true)),
    (0, 24, [0x00, 0xfc, 0x1f, 0x00], of!(20, false)),
    (0, 20, [0x00, 0xfc, 0xff, 0x00], None),
    (0, 21, [0x00, 0xfc, 0xff, 0x00], of!(20, false)),
    (16, 16, [0x0f, 0x80, 0xff, 0xff], of!(31, false)),
    (16, 15, [0x0f, 0x80, 0xff, 0xff], None),
    (8, 0, [0xff, 0xff, 0xff, 0xff], None),
];

fn is_difference(ledger: &Ledger, row: &(u64, u64, [u8; 4], Option<Difference>)) -> bool
    requires first { ledger.now.first ≡ 0 }
    requires blocks { ledger.now.blocks ≡ 100 }
{
    let (first, blocks, bits, want) = *row;
    first % 8 == 0 && first <= 64 && blocks <= 32 && ledger.compare(first, blocks, &bits) == want
}

#[test]
fn differences(rt: HostRuntime) {
    let ledger = ten_of_a_hundred(rt.alloc()).ok().expect(&rt, "memory");
    for (i, row) in DIFFERENCES.iter().enumerate() {
        assert!(rt; is_difference(&ledger, row), "row {i}");
    }
}

// How many blocks are held after parts of them were, and then, after a restart, how many are, and whether it is the one.
fn parts(alloc: Global) -> Result<(u64, u64, u64, bool), NoMemory> {
    let mut ledger = Ledger::new(alloc, 100, 50)?;
    ledger.hold(90, 15);
    ledger.hold(140, 100);
    ledger.hold(102, 3);
    ledger.hold(0, 100);
    ledger.hold(u64::MAX, 5);
    let before = ledger.held();
    ledger.restart(1000);
    let none = ledger.held();
    ledger.hold(1049, 7);
    Ok((before, none, ledger.held(), ledger.holds(1049)))
}

#[test]
fn long_claims_and_parts_are_held(rt: HostRuntime) {
    let alloc = rt.alloc();
    assert!(rt; are_long_claims(alloc) == Ok(true));
    assert!(rt; is_found_far_away(alloc) == Ok(true));
    assert!(rt; parts(alloc) == Ok((15, 0, 1, true)));
}
