// The reaper and its lists.
ghost use Rattle.std.specs.Prelude.{◌≡◌, ◌<◌, ◌≤◌, ◌++◌, ℕ, List, [], length, map, OnOk, IfErr, IsErrOf};
ghost use Rattle.std.specs.List.{range_with_len};
ghost use Rattle.obj_base.specs.Stops.{Tells};
ghost use Rattle.obj_base.specs.declared.stop.Stop.TheVariants.{ReadFault};
ghost use Rattle.reach_rules.specs.Features.{HasFeature};
ghost use Rattle.reach_rules.specs.Reached.{IsReachedFault};
ghost use Rattle.reach_gather.specs.Container.{reaper_naming};
ghost use Rattle.reach_gather.specs.Adds.{Adds};
ghost use Rattle.reach_gather.specs.Chain.{reap_at};

use crate::Gathered;
use crate::reaper_lists::reap;
use apfs_layout::{container, reaping};
use blk_source::NoMemory;
use nx_ring::Checkpoint;
use obj_base::Stop;
use reach_rules::{Expected, LookUp, Namer, Naming, Object, ReachFault};
use std::alloc::Global;

// The naming of the reaper, or of a list.
fn link(ids: &[u64], i: usize) -> Naming
    requires { i < length ids.now }
    ensures { result ≡ reap_at ids.now i }
{
    if i == 0 {
        return Naming {
            namer: Namer::Whole(Object::Newest),
            at: container::REAPER_OID as u64,
            expected: Expected::ReaperObject,
            how: LookUp::ByMapping,
            oid: ids[i],
        };
    }
    Naming {
        namer: Namer::Whole(Object::OfId(ids[i - 1])),
        at: if i == 1 {
            reaping::REAPER_HEAD as u64
        } else {
            reaping::LIST_NEXT as u64
        },
        expected: Expected::ReapList,
        how: LookUp::ByMapping,
        oid: ids[i],
    }
}

// The reaper and its lists, none of which owns a block.
fn note_links(ids: &[u64], out: &mut Gathered) -> Result<(), NoMemory>
    ensures namings { OnOk result (out.new.namings ≡ out.old.namings ++ map (reap_at ids.now) (range_with_len 0 (length ids.now))) }
    ensures owners { out.new.owners ≡ out.old.owners }
    ensures pool_owners { out.new.pool_owners ≡ out.old.pool_owners }
{
    for i in 0..ids.len() {
        out.note_id(link(ids, i))?;
    }
    Ok(())
}

/// Adds the reaper and its lists, where the superblock names a reaper. Nothing is read.
pub fn add_reaper(
    alloc: Global,
    cp: &Checkpoint,
    out: &mut Gathered,
) -> Result<(), Stop<ReachFault>>
    ensures clear { (image : List ℕ) → OnOk result (Adds image cp.now (reaper_naming cp.now.nx) [] out.old out.new) }
    ensures present { (image : List ℕ) → IfErr result (Tells (IsReachedFault image cp.now) (HasFeature image cp.now)) }
    ensures longer { OnOk result (length out.old.namings ≤ length out.new.namings) }
    ensures no_read { IsErrOf result ReadFault → ⊥ }
{
    let ids = match reap(alloc, cp) {
        Ok(ids) => ids,
        Err(stop) => return Err(stop),
    };
    note_links(ids.as_slice(), out)?;
    Ok(())
}
