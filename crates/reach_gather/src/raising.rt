// What the parts of a container tell, said of the account.
ghost use Rattle.std.specs.Prelude.{◌≡◌};
ghost use Rattle.obj_base.specs.Stops.{raised};
ghost use Rattle.reach_rules.specs.Raised.{of_walk, of_extents, of_pool};

use bt_cursor::WalkFault;
use ext_ref::ExtStop;
use nx_ring::Checkpoint;
use obj_base::{Stop, Within};
use reach_rules::{ReachFault, Why};
use space_pool::PoolFault;

/// A fault of the tree whose root stands in a block, of ids that are looked up in a space, said of the account.
pub fn walk_fault(cp: &Checkpoint, within: Within, root: u64, why: WalkFault) -> ReachFault
    ensures { result ≡ of_walk within cp.now.line.xid root why }
{
    match why {
        WalkFault::Unsound { block, why } => ReachFault::Unsound {
            block,
            why: Why::Node(why),
        },
        WalkFault::Unnamed { oid } => ReachFault::Unnamed {
            within,
            oid,
            xid: cp.xid(),
        },
        WalkFault::Order { item } => ReachFault::Tree {
            root,
            item: Some(item),
        },
        WalkFault::Counts => ReachFault::Tree { root, item: None },
    }
}

// A fault of the tree of extent references of a root, said of the account.
fn extents_fault(cp: &Checkpoint, root: u64, fault: ExtStop) -> ReachFault
    ensures { result ≡ of_extents cp.now root fault }
{
    match fault {
        ExtStop::Walk(why) => walk_fault(cp, Within::Physical, root, why),
        ExtStop::Value { item } => ReachFault::Value { root, item },
    }
}

/// Why a scan of the tree of a root stopped, said of the account.
pub(crate) fn raise_extents(cp: &Checkpoint, root: u64, stop: Stop<ExtStop>) -> Stop<ReachFault>
    ensures { result ≡ raised (of_extents cp.now root) stop }
{
    stop.map(|fault| extents_fault(cp, root, fault))
}

// A fault of the pool's bitmap or of a free queue, said of the account.
fn pool_fault(cp: &Checkpoint, fault: PoolFault) -> ReachFault
    ensures { result ≡ of_pool cp.now fault }
{
    match fault {
        PoolFault::Unnamed { oid } => ReachFault::Unnamed {
            within: Within::Ephemeral,
            oid,
            xid: cp.xid(),
        },
        PoolFault::Walk { root, why } => walk_fault(cp, Within::Ephemeral, root, why),
        PoolFault::Value { root, item } => ReachFault::Value { root, item },
        other => ReachFault::Pool(other),
    }
}

/// Why a reading of the pool's bits or of a free queue stopped, said of the account.
pub fn raise_pool(cp: &Checkpoint, stop: Stop<PoolFault>) -> Stop<ReachFault>
    ensures { result ≡ raised (of_pool cp.now) stop }
{
    stop.map(|fault| pool_fault(cp, fault))
}
