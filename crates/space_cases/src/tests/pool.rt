// The pool and the queues of made containers.

use apfs_layout::space_manager::{MAIN_QUEUE_TREE, POOL_BITMAP_SIZE};
use blk_source::{MemSource, NoMemory};
use img_make::{Plan, Sample, edit, make, sample, table};
use nx_ring::newest;
use obj_base::Stop;
use space_map::Space;
use space_pool::{PoolFault, Queue, QueueEntry, pool_bits, queue};
use std::alloc::Global;

// The space manager of the small container, and where its indexes of the pool's bitmap begin.
const MANAGER: usize = 9;

const INDEXES: usize = 2520;

// An edit of the manager: a place and its new bytes.
type Edit<'a> = (usize, &'a [u8]);

// The container of a plan, changed by these edits; what is wrong with them is told as want of memory.
fn image(alloc: Global, plan: &Plan, edits: &[Edit<'_>]) -> Result<Vec<u8>, NoMemory> {
    if !plan.valid() {
        return Err(NoMemory);
    }
    let mut image = make(alloc, plan)?;
    for (place, bytes) in edits.iter() {
        if !edit(&mut image, 4096, MANAGER, *place, bytes) {
            return Err(NoMemory);
        }
    }
    Ok(image)
}

// The pool's bits of an image; what stops the calls before is no answer of these tests.
fn bits(alloc: Global, image: Vec<u8>) -> Result<Vec<u8>, Stop<PoolFault>> {
    let mut src = MemSource::new(image, Vec::new(alloc));
    let Ok(cp) = newest(alloc, &mut src) else {
        return Err(Stop::NoMemory);
    };
    let Ok(space) = Space::load(alloc, &mut src, &cp) else {
        return Err(Stop::NoMemory);
    };
    pool_bits(alloc, &mut src, &cp, &space)
}

// The entries of a queue of an image.
fn entries(
    alloc: Global,
    image: Vec<u8>,
    which: Queue,
) -> Result<Vec<QueueEntry>, Stop<PoolFault>> {
    let mut src = MemSource::new(image, Vec::new(alloc));
    let Ok(cp) = newest(alloc, &mut src) else {
        return Err(Stop::NoMemory);
    };
    let Ok(space) = Space::load(alloc, &mut src, &cp) else {
        return Err(Stop::NoMemory);
    };
    queue(alloc, &mut src, &cp, &space, which)
}

// The pool's bits of the small container, changed by these edits.
fn bits_after(alloc: Global, edits: &[Edit<'_>]) -> Result<Vec<u8>, Stop<PoolFault>> {
    let plan = sample(alloc, Sample::S)?;
    bits(alloc, image(alloc, &plan, edits)?)
}

// The bits of a block, of which the first two are set.
const TWO_OF_A_BLOCK: Option<&[u8]> = Some(&[3, 0, 0, 0, 0, 0, 0, 0]);

fn has_two_bits(alloc: Global) -> Result<bool, Stop<PoolFault>> {
    let bits = bits_after(alloc, &[])?;
    let others = vec![in alloc; 0u8; 4088]?;
    Ok(bits.len() == 4096 && bits.get(..8) == TWO_OF_A_BLOCK && bits.get(8..) == Some(&others))
}

// Edits, and the fault.
const FAULTS: &[(&[Edit<'static>], PoolFault)] = table! {
    &[(INDEXES, &[16])], PoolFault::Index { at: 0 };
    &[(POOL_BITMAP_SIZE, &[2]), (INDEXES, &[1, 0, 1, 0])], PoolFault::Index { at: 1 };
    &[(POOL_BITMAP_SIZE, &[0])], PoolFault::Count;
};

#[test]
fn what_is_wrong_with_the_bitmap(rt: HostRuntime) {
    for (edits, fault) in FAULTS {
        assert!(rt; bits_after(rt.alloc(), edits).err() == Some(Stop::Found(*fault)));
    }
}

// The entries of the main queue: a transaction, the first block, and the number of blocks.
const QUEUED: &[(u64, u64, u64)] = &[(1, 100, 1), (1, 102, 3)];

// Adds those entries to a plan.
fn add_queued(plan: &mut Plan) -> Result<(), NoMemory> {
    for (xid, paddr, length) in QUEUED {
        plan.queued.push(img_make::QueueEntry {
            xid: *xid,
            paddr: *paddr,
            length: *length,
        })?;
    }
    Ok(())
}

// Whether these are those entries.
fn are_queued(entries: &[QueueEntry]) -> bool {
    for (entry, wanted) in entries.iter().zip(QUEUED) {
        if (entry.xid, entry.paddr, entry.length) != *wanted {
            return false;
        }
    }
    entries.len() == QUEUED.len()
}

// A queue of the container in which those entries wait.
fn waiting(alloc: Global, which: Queue) -> Result<Vec<QueueEntry>, Stop<PoolFault>> {
    let mut plan = sample(alloc, Sample::S)?;
    add_queued(&mut plan)?;
    entries(alloc, image(alloc, &plan, &[])?, which)
}

fn are_waiting(alloc: Global) -> Result<bool, Stop<PoolFault>> {
    let main = waiting(alloc, Queue::Main)?;
    Ok(are_queued(&main) && waiting(alloc, Queue::Pool)?.is_empty())
}

// How many entries the main queue of the small container has, changed by these edits.
fn main_after(alloc: Global, edits: &[Edit<'_>]) -> Result<usize, Stop<PoolFault>> {
    let plan = sample(alloc, Sample::S)?;
    Ok(entries(alloc, image(alloc, &plan, edits)?, Queue::Main)?.len())
}

// The main queue has no tree.
const WITHOUT: &[Edit<'static>] = &[(MAIN_QUEUE_TREE, &[0, 0])];

// The root of the queue's tree is 5000, which isn't mapped.
const ELSEWHERE: &[Edit<'static>] = &[(MAIN_QUEUE_TREE, &[0x88, 0x13])];

const UNNAMED: Stop<PoolFault> = Stop::Found(PoolFault::Unnamed { oid: 5000 });

#[test]
fn two_blocks_are_marked_and_two_entries_wait(rt: HostRuntime) {
    let alloc = rt.alloc();
    assert!(rt; has_two_bits(alloc) == Ok(true));
    assert!(rt; are_waiting(alloc) == Ok(true));
    assert!(rt; main_after(alloc, WITHOUT) == Ok(0));
    assert!(rt; main_after(alloc, ELSEWHERE) == Err(UNNAMED));
}
