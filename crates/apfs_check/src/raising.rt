// What the parts of a check find wrong, as faults of the container.
ghost use Rattle.std.specs.Prelude.{◌≡◌};
ghost use Rattle.obj_base.specs.Stops.{raised};
ghost use Rattle.apfs_check.specs.Raised as told;

use crate::Fault;
use bt_cursor::WalkFault;
use bt_node::NodeFault;
use ext_ref::ExtStop;
use nx_ring::RingFault;
use obj_base::{Stop, Within};
use omap_map::OmapFault;
use reach_rules::{ReachFault, Why};
use space_map::SpaceFault;
use space_pool::PoolFault;
use view_rules::TreeFault;
use vol_view::VolStop;

/// What a part finds wrong at a place `P`, which is what a fault of the container shows beside it.
pub trait Raise<P> {
    ghost use Rattle.apfs_check.specs.declared.fault.Fault.{Fault};

    /// The fault of the container.
    ghost raises: { P → Self → Fault };

    fn raise(self, place: P) -> Fault
        ensures { result ≡ raises place self };
}

/// Why a check stops, where a part of it does at this place.
pub(crate) fn stop_of<P: Copy, F: Raise<P> + Drop>(stop: Stop<F>, place: P) -> Stop<Fault>
    ensures { result ≡ raised (F.raises place) stop }
{
    stop.map(|fault| fault.raise(place))
}

/// A fault of the container is raised as it is.
impl Raise<()> for Fault {
    ghost raises = { λ place fault. fault };

    fn raise(self, _place: ()) -> Fault {
        self
    }
}

/// A fault of block 0 or of the candidates has no place beside it.
impl Raise<()> for RingFault {
    ghost raises = { λ place fault. told.of_ring fault };

    fn raise(self, _place: ()) -> Fault {
        match self {
            RingFault::BlockZero => Fault::BlockZero,
            RingFault::Truncated { have, need } => Fault::Truncated { have, need },
            RingFault::NoCheckpoint => Fault::NoCheckpoint,
        }
    }
}

// A fault of the tree of a root, whose ids are looked up in a space at a transaction.
fn of_walk(within: Within, xid: u64, root: u64, fault: WalkFault) -> Fault
    ensures { result ≡ told.of_walk within xid root fault }
{
    match fault {
        WalkFault::Unsound { block, why } => Fault::Unsound {
            block,
            why: Why::Node(why),
        },
        WalkFault::Unnamed { oid } => Fault::Unnamed { within, oid, xid },
        WalkFault::Order { item } => Fault::TreeOrder { root, item },
        WalkFault::Counts => Fault::TreeCounts { root },
    }
}

// A fault of an object map.
fn of_map(xid: u64, fault: OmapFault) -> Fault
    ensures { result ≡ told.of_map xid fault }
{
    match fault {
        OmapFault::Head { block, why } => Fault::Unsound {
            block,
            why: Why::Node(NodeFault::Head(why)),
        },
        OmapFault::Tree { root, why } => of_walk(Within::Physical, xid, root, why),
    }
}

/// A fault of the volumes is raised at the checkpoint's transaction.
impl Raise<u64> for VolStop {
    ghost raises = { λ xid fault. told.of_volume xid fault };

    fn raise(self, xid: u64) -> Fault {
        match self {
            VolStop::Head { block, why } => Fault::Unsound {
                block,
                why: Why::Node(NodeFault::Head(why)),
            },
            VolStop::Magic { block } => Fault::Unsound {
                block,
                why: Why::Magic,
            },
            VolStop::Unnamed { within, oid } => Fault::Unnamed { within, oid, xid },
            VolStop::Omap(fault) => of_map(xid, fault),
            VolStop::Walk { root, why } => of_walk(Within::Physical, xid, root, why),
            VolStop::SnapRecord { slot } => Fault::SnapRecord { slot },
            VolStop::SnapCount { slot } => Fault::SnapCount { slot },
            VolStop::SnapName { slot } => Fault::SnapName { slot },
            VolStop::OmapSnaps { slot } => Fault::OmapSnaps { slot },
        }
    }
}

/// A fault of an extent reference tree is raised at the checkpoint's transaction and the tree's root.
impl Raise<(u64, u64)> for ExtStop {
    ghost raises = { λ place fault. told.of_extents place.0 place.1 fault };

    fn raise(self, place: (u64, u64)) -> Fault {
        let (xid, root) = place;
        match self {
            ExtStop::Walk(why) => of_walk(Within::Physical, xid, root, why),
            ExtStop::Value { item } => Fault::TreeRecord { root, item },
        }
    }
}

/// A fault of the space manager is raised at the checkpoint's transaction.
impl Raise<u64> for SpaceFault {
    ghost use Rattle.reach_rules.specs.declared.fault.ReachFault.TheVariants as sweeps;

    ghost raises = { λ xid fault. told.of_sweep xid (sweeps.Space fault) };

    fn raise(self, xid: u64) -> Fault {
        match self {
            SpaceFault::Unnamed { within, oid } => Fault::Unnamed { within, oid, xid },
            SpaceFault::Unsound { block, why } => Fault::Unsound {
                block,
                why: Why::Node(NodeFault::Head(why)),
            },
            SpaceFault::Geometry => Fault::SpaceGeometry,
            SpaceFault::Cab { index } => Fault::SpaceCab { index },
            SpaceFault::Cib { index } => Fault::SpaceCib { index },
            SpaceFault::Index { chunk } => Fault::SpaceIndex { chunk },
            SpaceFault::Place { block } => Fault::SpacePlace { block },
            SpaceFault::FreeTotal => Fault::SpaceFreeTotal,
        }
    }
}

/// A fault of the pool or of a free queue is raised at the checkpoint's transaction. A queue's nodes are ephemeral.
impl Raise<u64> for PoolFault {
    ghost use Rattle.reach_rules.specs.declared.fault.ReachFault.TheVariants as sweeps;

    ghost raises = { λ xid fault. told.of_sweep xid (sweeps.Pool fault) };

    fn raise(self, xid: u64) -> Fault {
        match self {
            PoolFault::Index { at } => Fault::PoolIndex { at },
            PoolFault::Count => Fault::PoolCount,
            PoolFault::Place { block } => Fault::PoolPlace { block },
            PoolFault::Unnamed { oid } => Fault::Unnamed {
                within: Within::Ephemeral,
                oid,
                xid,
            },
            PoolFault::Walk { root, why } => of_walk(Within::Ephemeral, xid, root, why),
            PoolFault::Value { root, item } => Fault::TreeRecord { root, item },
        }
    }
}

/// A fault of named objects, or of the account of blocks, is raised at the checkpoint's transaction.
impl Raise<u64> for ReachFault {
    ghost raises = { λ xid fault. told.of_sweep xid fault };

    fn raise(self, xid: u64) -> Fault {
        match self {
            ReachFault::Unsound { block, why } => Fault::Unsound { block, why },
            ReachFault::Unnamed { within, oid, xid } => Fault::Unnamed { within, oid, xid },
            ReachFault::NamedTwice { within, oid, xid } => Fault::NamedTwice { within, oid, xid },
            ReachFault::OwnedTwice { block } => Fault::OwnedTwice { block },
            ReachFault::Outside { block } => Fault::Outside { block },
            ReachFault::UnusedMapping { within, oid, xid } => Fault::UnusedMapping {
                within,
                oid,
                xid,
            },
            ReachFault::Leaked { block } => Fault::Leaked { block },
            ReachFault::Missing { block } => Fault::Missing { block },
            ReachFault::PoolLeaked { block } => Fault::PoolLeaked { block },
            ReachFault::PoolMissing { block } => Fault::PoolMissing { block },
            ReachFault::FreeCount { chunk } => Fault::SpaceFreeCount { chunk },
            ReachFault::Space(fault) => fault.raise(xid),
            ReachFault::Pool(fault) => fault.raise(xid),
            ReachFault::Tree {
                root,
                item: Some(item),
            } => Fault::TreeOrder { root, item },
            ReachFault::Tree { root, item: None } => Fault::TreeCounts { root },
            ReachFault::Value { root, item } => Fault::TreeRecord { root, item },
        }
    }
}

/// A fault of a view has its place.
impl Raise<()> for TreeFault {
    ghost raises = { λ place fault. told.of_view fault };

    fn raise(self, _place: ()) -> Fault {
        match self {
            TreeFault::Unsound { block, why } => Fault::Unsound {
                block,
                why: Why::Node(why),
            },
            TreeFault::Unnamed { slot, oid, xid } => Fault::Unnamed {
                within: Within::Volume(slot),
                oid,
                xid,
            },
            TreeFault::Order { slot, xid, item } => Fault::Order { slot, xid, item },
            TreeFault::Counts { slot, xid } => Fault::Counts { slot, xid },
            TreeFault::Record {
                slot,
                xid,
                item,
                why,
            } => Fault::Record {
                slot,
                xid,
                item,
                why,
            },
            TreeFault::DupName(at) => Fault::DupName(at),
            TreeFault::Hash(at) => Fault::Hash(at),
            TreeFault::NoParent(at) => Fault::NoParent(at),
            TreeFault::NoInode {
                slot,
                xid,
                id,
                name,
            } => Fault::NoInode {
                slot,
                xid,
                id,
                name,
            },
            TreeFault::KindMismatch(at) => Fault::KindMismatch(at),
            TreeFault::DirNames(at) => Fault::DirNames(at),
            TreeFault::Unreached(at) => Fault::Unreached(at),
            TreeFault::Children(at) => Fault::Children(at),
            TreeFault::Links(at) => Fault::Links(at),
            TreeFault::SiblingLost(at) => Fault::SiblingLost(at),
            TreeFault::ExtentOrder(at) => Fault::ExtentOrder(at),
            TreeFault::ExtentPlace(at) => Fault::ExtentPlace(at),
            TreeFault::ExtentUncovered(at) => Fault::ExtentUncovered(at),
            TreeFault::LinkTarget(at) => Fault::LinkTarget(at),
            TreeFault::Stream(at) => Fault::Stream(at),
            TreeFault::AttrOwner(at) => Fault::AttrOwner(at),
            TreeFault::NameHash(at) => Fault::NameHash(at),
        }
    }
}
