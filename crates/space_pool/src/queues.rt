// Reading a free queue (Space Manager, spaceman_free_queue_t).
ghost use Rattle.std.specs.Prelude.{◌≡◌, ◌||◌, ◌+◌, ◌≤◌, ◌==◌, ℕ, suc, List, Some, true, false, length, OnOk, IfOk, IfErr, IfNone, IfSome, IsErrOf};
ghost use Rattle.std.specs.List.{list_all};
ghost use Rattle.apfs_model.specs.Blocks.{is_within};
ghost use Rattle.apfs_model.specs.Counts.{Rose};
ghost use Rattle.apfs_model.specs.Kept.{IsKept};
ghost use Rattle.obj_base.specs.Stops.{Tells, IsFree, raised};
ghost use Rattle.obj_base.specs.declared.stop.Stop.TheVariants.{ReadFault};
ghost use Rattle.obj_base.specs.Site.{IsSiteFor};
ghost use Rattle.bt_cursor.specs.Faults.{HasFeature};
ghost use Rattle.nx_ring.specs.Checkpoint.{site_of};
ghost use Rattle.space_map.specs.Fields.{pool_base_of, pool_blocks_of};
ghost use Rattle.space_pool.specs.Queues.{ephemeral_named, queue_root, queue_tree, queue_of, queue_steps, is_queued_in_pool, are_queued_in_pool};
ghost use Rattle.space_pool.specs.Stops.{IsQueueFault, IsQueueFeature, AreQueued};
ghost use Rattle.space_pool.specs.Gathered.{said, IsTreeFault, AreEntries, queue_nodes, IsOutside, IsPlaceFault};

use crate::keep::Kept;
use crate::{Ephemeral, PoolFault, Queue, QueueEntry, Queued};
use apfs_layout::space_manager as layout;
use blk_source::BlockSource;
use bt_cursor::{GatherFault, Namer, WalkFault, gather};
use bt_keys::QueueKey;
use nx_ring::Checkpoint;
use obj_base::{Stop, u64_at};
use space_map::Space;
use std::alloc::Global;

// Why a walk over the tree whose root stands in a block stops, said of the queue.
fn raise(block: u64, stop: Stop<GatherFault>) -> Stop<PoolFault>
    ensures { result ≡ raised (said block) stop }
{
    stop.map(|fault| match fault {
        GatherFault::Tree(WalkFault::Unnamed { oid }) => PoolFault::Unnamed { oid },
        GatherFault::Tree(why) => PoolFault::Walk { root: block, why },
        GatherFault::Refused { item } => PoolFault::Value { root: block, item },
    })
}

// The entries and the steps of the tree of a root, whose block is handed in.
fn walked_from<S: BlockSource>(
    alloc: Global,
    src: &mut S,
    cp: &Checkpoint,
    root: u64,
    block: u64,
) -> Result<Kept, Stop<PoolFault>>
    requires site { IsSiteFor (site_of cp.now) (S.bytes_len src.old) }
    requires some { (root == 0) ≡ false }
    requires named { ephemeral_named cp.now root ≡ Some block }
    ensures clear { (image : List ℕ) → S.bytes src.old ≡ Some image → IfOk result (λ kept. AreEntries image cp.now root kept.entries.items) }
    ensures steps { (image : List ℕ) → S.bytes src.old ≡ Some image → IfOk result (λ kept. kept.steps.items ≡ queue_steps image cp.now root) }
    ensures present { (image : List ℕ) → S.bytes src.old ≡ Some image → IfErr result (Tells (IsTreeFault image cp.now root) (HasFeature (queue_tree image cp.now) root)) }
    ensures cause { IsErrOf result ReadFault → Rose (S.faults src.old) (S.faults src.new) }
    ensures kept { IsKept S.bytes S.bytes_len S.faults src.old src.new }
    ensures reads { (image : List ℕ) → S.bytes src.old ≡ Some image → OnOk result (S.reads src.new ≤ S.reads src.old + queue_nodes image cp.now root) }
{
    let none = Kept {
        entries: Vec::new(alloc),
        steps: Vec::new(alloc),
    };
    let site = cp.site();
    match gather::<QueueKey, S, Ephemeral<'_>, Kept>(
        alloc,
        src,
        Ephemeral { cp },
        root,
        &site,
        none,
    ) {
        Ok(kept) => Ok(kept),
        Err(stop) => Err(raise(block, stop)),
    }
}

// The entries and the steps of the tree of a root that isn't 0.
fn walked<S: BlockSource>(
    alloc: Global,
    src: &mut S,
    cp: &Checkpoint,
    root: u64,
) -> Result<Kept, Stop<PoolFault>>
    requires site { IsSiteFor (site_of cp.now) (S.bytes_len src.old) }
    requires some { (root == 0) ≡ false }
    ensures clear { (image : List ℕ) → S.bytes src.old ≡ Some image → IfOk result (λ kept. AreEntries image cp.now root kept.entries.items) }
    ensures steps { (image : List ℕ) → S.bytes src.old ≡ Some image → IfOk result (λ kept. kept.steps.items ≡ queue_steps image cp.now root) }
    ensures present { (image : List ℕ) → S.bytes src.old ≡ Some image → IfErr result (Tells (IsTreeFault image cp.now root) (HasFeature (queue_tree image cp.now) root)) }
    ensures cause { IsErrOf result ReadFault → Rose (S.faults src.old) (S.faults src.new) }
    ensures kept { IsKept S.bytes S.bytes_len S.faults src.old src.new }
    ensures reads { (image : List ℕ) → S.bytes src.old ≡ Some image → OnOk result (S.reads src.new ≤ S.reads src.old + queue_nodes image cp.now root) }
{
    let namer = Ephemeral { cp };
    match namer.block(root) {
        Some(block) => walked_from(alloc, src, cp, root, block),
        None => Err(Stop::Found(PoolFault::Unnamed { oid: root })),
    }
}

// Whether an entry lies in the pool, which has so many blocks from a first one on.
fn is_in(entry: QueueEntry, first: u64, blocks: u64) -> bool
    ensures { result ≡ ((entry.length == 0) || is_within entry.paddr entry.length first blocks) }
{
    let end = u128::from(first) + u128::from(blocks);
    entry.length == 0
        || (first <= entry.paddr && u128::from(entry.paddr) + u128::from(entry.length) <= end)
}

/// The first block of an entry that leaves the pool of the manager that `space` has; None where all lie in it.
#[tactic(auto, unfolding(crate::specs::Queues::is_queued_in_pool))]
pub fn outside(space: &Space, entries: &[QueueEntry]) -> Option<u64>
    ensures clear { IfNone result (list_all (is_queued_in_pool space.now.manager) entries.now ≡ true) }
    ensures present { IfSome result (IsOutside space.now.manager entries.now) }
{
    let (first, blocks) = space.pool();
    for entry in entries {
        if !is_in(*entry, first, blocks) {
            return Some(entry.paddr);
        }
    }
    None
}

// The entries of a queue, where those of the pool's queue lie in the pool.
fn placed(
    space: &Space,
    which: Queue,
    entries: Vec<QueueEntry>,
) -> Result<Vec<QueueEntry>, PoolFault>
    ensures same { IfOk result (λ kept. kept.items ≡ entries.items) }
    ensures inside { OnOk result (are_queued_in_pool which space.now.manager entries.items ≡ true) }
    ensures outside { IfErr result (IsPlaceFault space.now.manager which entries.items) }
{
    match which {
        Queue::Main => Ok(entries),
        Queue::Pool => match outside(space, &entries) {
            Some(block) => Err(PoolFault::Place { block }),
            None => Ok(entries),
        },
    }
}

// The root of a queue's tree, an ephemeral oid; 0 where it has none.
#[tactic(auto, unfolding(space_map::specs::Fields::pool_queue_of, space_map::specs::Fields::main_queue_of))]
fn root_of(space: &Space, which: Queue) -> u64
    ensures { result ≡ queue_root which space.now.manager }
{
    let manager = space.manager();
    match which {
        Queue::Pool => u64_at(manager, layout::POOL_QUEUE_TREE),
        Queue::Main => u64_at(manager, layout::MAIN_QUEUE_TREE),
    }
}

/// The entries of a free queue, in tree order, and the steps of its tree; none where the queue has no tree. `space` is that of
/// the checkpoint. `Unnamed` comes where the id of a node of its tree names no block, `Walk` where the tree isn't whole
/// otherwise, `Value` where the value of an item is too short, and for the pool's queue `Place` where an entry leaves the pool.
pub fn queue_walk<S: BlockSource>(
    alloc: Global,
    src: &mut S,
    cp: &Checkpoint,
    space: &Space,
    which: Queue,
) -> Result<Queued, Stop<PoolFault>>
    requires site { IsSiteFor (site_of cp.now) (S.bytes_len src.old) }
    ensures clear { (image : List ℕ) → S.bytes src.old ≡ Some image → IfOk result (λ queued. AreQueued image cp.now space.now.manager which queued.entries.items) }
    ensures steps { (image : List ℕ) → S.bytes src.old ≡ Some image → IfOk result (λ queued. queued.steps.items ≡ queue_steps image cp.now (queue_root which space.now.manager)) }
    ensures present { (image : List ℕ) → S.bytes src.old ≡ Some image → IfErr result (Tells (IsQueueFault image cp.now space.now.manager which) (IsQueueFeature image cp.now space.now.manager which)) }
    ensures exact { (image : List ℕ) → S.bytes src.old ≡ Some image → AreQueued image cp.now space.now.manager which (queue_of image cp.now space.now.manager which) → IfErr result IsFree }
    ensures cause { IsErrOf result ReadFault → Rose (S.faults src.old) (S.faults src.new) }
    ensures kept { IsKept S.bytes S.bytes_len S.faults src.old src.new }
    ensures reads { (image : List ℕ) → S.bytes src.old ≡ Some image → OnOk result (S.reads src.new ≤ S.reads src.old + queue_nodes image cp.now (queue_root which space.now.manager)) }
    ensures by_steps { (image : List ℕ) → S.bytes src.old ≡ Some image → IfOk result (λ queued. S.reads src.new ≤ S.reads src.old + suc (length queued.steps.items)) }
{
    let root = root_of(space, which);
    if root == 0 {
        return Ok(Queued {
            entries: Vec::new(alloc),
            steps: Vec::new(alloc),
        });
    }
    let kept = match walked(alloc, src, cp, root) {
        Ok(kept) => kept,
        Err(stop) => return Err(stop),
    };
    match placed(space, which, kept.entries) {
        Ok(entries) => Ok(Queued {
            entries,
            steps: kept.steps,
        }),
        Err(fault) => Err(Stop::Found(fault)),
    }
}

/// The entries of a free queue, in tree order; none where the queue has no tree. `space` is that of the checkpoint.
/// `Unnamed` comes where the id of a node of its tree names no block, `Walk` where the tree isn't whole otherwise, `Value`
/// where the value of an item is too short, and for the pool's queue `Place` where an entry leaves the pool.
pub fn queue<S: BlockSource>(
    alloc: Global,
    src: &mut S,
    cp: &Checkpoint,
    space: &Space,
    which: Queue,
) -> Result<Vec<QueueEntry>, Stop<PoolFault>>
    requires site { IsSiteFor (site_of cp.now) (S.bytes_len src.old) }
    ensures clear { (image : List ℕ) → S.bytes src.old ≡ Some image → IfOk result (λ entries. AreQueued image cp.now space.now.manager which entries.items) }
    ensures present { (image : List ℕ) → S.bytes src.old ≡ Some image → IfErr result (Tells (IsQueueFault image cp.now space.now.manager which) (IsQueueFeature image cp.now space.now.manager which)) }
    ensures exact { (image : List ℕ) → S.bytes src.old ≡ Some image → AreQueued image cp.now space.now.manager which (queue_of image cp.now space.now.manager which) → IfErr result IsFree }
    ensures cause { IsErrOf result ReadFault → Rose (S.faults src.old) (S.faults src.new) }
    ensures kept { IsKept S.bytes S.bytes_len S.faults src.old src.new }
    ensures reads { (image : List ℕ) → S.bytes src.old ≡ Some image → OnOk result (S.reads src.new ≤ S.reads src.old + queue_nodes image cp.now (queue_root which space.now.manager)) }
{
    match queue_walk(alloc, src, cp, space, which) {
        Ok(Queued { entries, steps: _ }) => Ok(entries),
        Err(stop) => Err(stop),
    }
}
