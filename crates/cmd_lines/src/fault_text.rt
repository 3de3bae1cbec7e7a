// The text of each fault.
ghost use Rattle.std.specs.Prelude.{◌≡◌, IfOk};
ghost use Rattle.cmd_lines.specs.FaultTexts as texts;

use crate::fault_places as places;
use crate::named::Named;
use apfs_check::Fault;
use std::alloc::{AllocError, Global};

// The text of a fault of the container, as its bytes: names in it are shown by bytes.
fn fault_text(alloc: Global, fault: &Fault) -> Result<Vec<u8>, AllocError>
    ensures { IfOk result (λ text. text.items ≡ texts.fault_text fault.now) }
{
    match fault {
        Fault::BlockZero => places::plain(alloc, "BlockZero"),
        Fault::Truncated { have, need } => places::truncated(alloc, *have, *need),
        Fault::NoCheckpoint => places::plain(alloc, "NoCheckpoint"),
        Fault::Unsound { block, why } => places::unsound(alloc, *block, *why),
        Fault::Unnamed { within, oid, xid } => places::of_oid(
            alloc, "Unnamed", *within, *oid, *xid,
        ),
        Fault::NamedTwice { within, oid, xid } => places::of_oid(
            alloc,
            "NamedTwice",
            *within,
            *oid,
            *xid,
        ),
        Fault::OwnedTwice { block } => places::of_block(alloc, "OwnedTwice", *block),
        Fault::Outside { block } => places::of_block(alloc, "Outside", *block),
        Fault::UnusedMapping { within, oid, xid } => places::of_oid(
            alloc,
            "UnusedMapping",
            *within,
            *oid,
            *xid,
        ),
        Fault::Leaked { block } => places::of_block(alloc, "Leaked", *block),
        Fault::Missing { block } => places::of_block(alloc, "Missing", *block),
        Fault::PoolLeaked { block } => places::of_block(alloc, "PoolLeaked", *block),
        Fault::PoolMissing { block } => places::of_block(alloc, "PoolMissing", *block),
        Fault::SpaceGeometry => places::plain(alloc, "Space Geometry"),
        Fault::SpaceCab { index } => places::of_number(alloc, "Space Cab", u64::from(*index)),
        Fault::SpaceCib { index } => places::of_number(alloc, "Space Cib", u64::from(*index)),
        Fault::SpaceIndex { chunk } => places::of_number(alloc, "Space Index", *chunk),
        Fault::SpacePlace { block } => places::of_number(alloc, "Space Place", *block),
        Fault::SpaceFreeCount { chunk } => places::of_number(alloc, "Space FreeCount", *chunk),
        Fault::SpaceFreeTotal => places::plain(alloc, "Space FreeTotal"),
        Fault::PoolCount => places::plain(alloc, "Pool Count"),
        Fault::PoolIndex { at } => places::of_number(alloc, "Pool Index", u64::from(*at)),
        Fault::PoolPlace { block } => places::of_number(alloc, "Pool Place", *block),
        Fault::SnapRecord { slot } => places::of_slot(alloc, *slot, "SnapRecord"),
        Fault::SnapCount { slot } => places::of_slot(alloc, *slot, "SnapCount"),
        Fault::SnapName { slot } => places::of_slot(alloc, *slot, "SnapName"),
        Fault::OmapSnaps { slot } => places::of_slot(alloc, *slot, "OmapSnaps"),
        Fault::TreeOrder { root, item } => places::of_item(alloc, "Order", *root, *item),
        Fault::TreeCounts { root } => places::of_root(alloc, "Counts", *root),
        Fault::Order { slot, xid, item } => places::of_view_item(
            alloc, "Order", *slot, *xid, *item,
        ),
        Fault::Counts { slot, xid } => places::of_view(alloc, "Counts", *slot, *xid),
        Fault::TreeRecord { root, item } => places::of_item(alloc, "Record", *root, *item),
        Fault::Record {
            slot,
            xid,
            item,
            why,
        } => places::of_record(alloc, *slot, *xid, *item, *why),
        Fault::DupName(at) => places::of_name(alloc, "DupName", at),
        Fault::Hash(at) => places::of_name(alloc, "Hash", at),
        Fault::NoParent(at) => places::of_name(alloc, "NoParent", at),
        Fault::NoInode {
            slot,
            xid,
            id,
            name,
        } => places::no_inode(alloc, *slot, *xid, *id, name),
        Fault::KindMismatch(at) => places::of_name(alloc, "KindMismatch", at),
        Fault::DirNames(at) => places::of_id(alloc, "DirNames", at),
        Fault::Unreached(at) => places::of_id(alloc, "Unreached", at),
        Fault::Children(at) => places::of_id(alloc, "Children", at),
        Fault::Links(at) => places::of_id(alloc, "Links", at),
        Fault::SiblingLost(at) => places::of_id(alloc, "SiblingLost", at),
        Fault::ExtentOrder(at) => places::of_id(alloc, "ExtentOrder", at),
        Fault::ExtentPlace(at) => places::of_id(alloc, "ExtentPlace", at),
        Fault::ExtentUncovered(at) => places::of_id(alloc, "ExtentUncovered", at),
        Fault::LinkTarget(at) => places::of_id(alloc, "LinkTarget", at),
        Fault::Stream(at) => places::of_id(alloc, "Stream", at),
        Fault::AttrOwner(at) => places::of_id(alloc, "AttrOwner", at),
        Fault::NameHash(at) => places::of_name(alloc, "NameHash", at),
        Fault::DataUnreached {
            slot,
            block,
            length,
        } => places::of_run(alloc, "DataUnreached", *slot, *block, *length),
        Fault::DataCount {
            slot,
            block,
            stored,
            streams,
        } => places::of_count(alloc, "DataCount", *slot, *block, *stored, *streams),
    }
}

/// The text of a fault that is named.
pub fn named_fault_text(alloc: Global, named: &Named) -> Result<Vec<u8>, AllocError>
    ensures { IfOk result (λ text. text.items ≡ texts.named_fault_text named.now) }
{
    match named {
        Named::InContainer(fault) => fault_text(alloc, fault),
        Named::InUsage { slot, xid } => places::of_view(alloc, "Usage", *slot, *xid),
        Named::InExport { slot, xid, id } => places::object(alloc, "Export", *slot, *xid, *id),
        Named::NoTable => places::plain(alloc, "Gpt NoTable"),
        Named::BadTable => places::plain(alloc, "Gpt BadTable"),
        Named::NoPartition => places::plain(alloc, "Gpt NoPartition"),
        Named::PartOutside { at } => {
            places::of_number(alloc, "Gpt PartOutside entry", u64::from(*at))
        }
    }
}
