// The chain of the reaper and its lists.
//
// Tests: each id of the chain is mapped, is named once, and its object is sound and without a feature. Gives: the ids. Rests on: the objects that a
// checkpoint maps, so nothing is read.
ghost use Rattle.std.specs.Prelude.{◌≡◌, ℕ, List, Bool, IfOk, IfErr, IsErrOf};
ghost use Rattle.obj_base.specs.Stops.{Tells, IsFree};
ghost use Rattle.obj_base.specs.declared.stop.Stop.TheVariants.{ReadFault};
ghost use Rattle.reach_rules.specs.declared.naming.LookUp.TheVariants.{ByMapping};
ghost use Rattle.reach_rules.specs.declared.naming.Namer.{Namer};
ghost use Rattle.reach_rules.specs.declared.naming.Expected.TheVariants.{ReaperObject, ReapList};
ghost use Rattle.reach_rules.specs.Naming.{naming};
ghost use Rattle.reach_rules.specs.Live.{IsLive};
ghost use Rattle.reach_rules.specs.Features.{HasFeature};
ghost use Rattle.reach_rules.specs.Reached.{IsReachedFault};
ghost use Rattle.reach_gather.specs.Namings.{IsPlainNaming};
ghost use Rattle.reach_gather.specs.Reaped.{IsLink, IsReaped, IsRightReaper, expected_at, next_at};

use crate::objects::sound_object;
use apfs_layout::kind;
use nx_block::{reap_list_read, reaper_read};
use nx_ring::Checkpoint;
use obj_base::{Feature, Stop, Within};
use reach_rules::ReachFault;
use std::alloc::Global;
use std::collections::BTreeSet;

// The flag of a reaper that is at work on an object (Reaper, NR_CONTINUE).
const CONTINUE: u32 = 2;

// The first list of the reaper of an id, 0 where it has none.
fn head(cp: &Checkpoint, oid: u64) -> Result<u64, Stop<ReachFault>>
    ensures clear { (image : List ℕ) (namer : Namer) (at : ℕ) → IfOk result (IsLink image cp.now (naming namer at ReaperObject ByMapping oid) 48) }
    ensures present { (image : List ℕ) (namer : Namer) (at : ℕ) → IsLive image cp.now (naming namer at ReaperObject ByMapping oid) → IfErr result (Tells (IsReachedFault image cp.now) (HasFeature image cp.now)) }
    ensures exact { (image : List ℕ) (namer : Namer) (at : ℕ) → IsPlainNaming image cp.now (naming namer at ReaperObject ByMapping oid) → IfErr result IsFree }
    ensures no_read { IsErrOf result ReadFault → ⊥ }
{
    let mapped = match sound_object(cp, kind::REAPER, oid) {
        Ok(mapped) => mapped,
        Err(stop) => return Err(stop),
    };
    let reaper = reaper_read(mapped.bytes);
    if reaper.flags() & CONTINUE == CONTINUE {
        return Err(Stop::Unsupported {
            feature: Feature::Reaper,
            block: mapped.block,
        });
    }
    Ok(reaper.head())
}

// The list after that of an id, 0 where it is the last.
fn after(cp: &Checkpoint, oid: u64) -> Result<u64, Stop<ReachFault>>
    ensures clear { (image : List ℕ) (namer : Namer) (at : ℕ) → IfOk result (IsLink image cp.now (naming namer at ReapList ByMapping oid) 32) }
    ensures present { (image : List ℕ) (namer : Namer) (at : ℕ) → IsLive image cp.now (naming namer at ReapList ByMapping oid) → IfErr result (Tells (IsReachedFault image cp.now) (HasFeature image cp.now)) }
    ensures exact { (image : List ℕ) (namer : Namer) (at : ℕ) → IsPlainNaming image cp.now (naming namer at ReapList ByMapping oid) → IfErr result IsFree }
    ensures no_read { IsErrOf result ReadFault → ⊥ }
{
    let mapped = match sound_object(cp, kind::REAP_LIST, oid) {
        Ok(mapped) => mapped,
        Err(stop) => return Err(stop),
    };
    let list = reap_list_read(mapped.bytes);
    if list.count() != 0 {
        return Err(Stop::Unsupported {
            feature: Feature::Reaper,
            block: mapped.block,
        });
    }
    Ok(list.next())
}

// The id that the object of an id names, the first of the chain or a further one; 0 where it names none.
fn further(cp: &Checkpoint, first: bool, oid: u64) -> Result<u64, Stop<ReachFault>>
    ensures clear { (image : List ℕ) (namer : Namer) (at : ℕ) → IfOk result (IsLink image cp.now (naming namer at (expected_at first) ByMapping oid) (next_at first)) }
    ensures present { (image : List ℕ) (namer : Namer) (at : ℕ) → IsLive image cp.now (naming namer at (expected_at first) ByMapping oid) → IfErr result (Tells (IsReachedFault image cp.now) (HasFeature image cp.now)) }
    ensures exact { (image : List ℕ) (namer : Namer) (at : ℕ) → IsPlainNaming image cp.now (naming namer at (expected_at first) ByMapping oid) → IfErr result IsFree }
    ensures no_read { IsErrOf result ReadFault → ⊥ }
{
    if first { head(cp, oid) } else { after(cp, oid) }
}

/// The ids of the reaper and of its lists, in the order of the chain; none where the superblock names no reaper. `Unnamed`, `Unsound` and
/// `Unsupported` tell of one of these objects, `NamedTwice` of an id that was met before, so that a chain that goes round is no endless one.
pub(crate) fn reap(alloc: Global, cp: &Checkpoint) -> Result<Vec<u64>, Stop<ReachFault>>
    ensures clear { (image : List ℕ) → IfOk result (λ ids. IsReaped image cp.now ids.items) }
    ensures present { (image : List ℕ) → IfErr result (Tells (IsReachedFault image cp.now) (HasFeature image cp.now)) }
    ensures exact { (image : List ℕ) → IsRightReaper image cp.now → IfErr result IsFree }
    ensures no_read { IsErrOf result ReadFault → ⊥ }
{
    let mut ids = Vec::new(alloc);
    let mut met = BTreeSet::new(alloc);
    let mut oid = cp.nx().reaper_oid();
    'chain: while oid != 0 {
        let fresh = met.insert(oid)?;
        if !fresh {
            return Err(Stop::Found(ReachFault::NamedTwice {
                within: Within::Ephemeral,
                oid,
                xid: cp.xid(),
            }));
        }
        let first = ids.is_empty();
        let then = match further(cp, first, oid) {
            Ok(then) => then,
            Err(stop) => return Err(stop),
        };
        ids.push(oid)?;
        oid = then;
    }
    Ok(ids)
}
