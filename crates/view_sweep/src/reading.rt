// Reading each record of a level once.
ghost use Rattle.std.specs.Prelude.{◌≡◌, ◌+◌, ◌≤◌, ◌++◌, ◌<◌, ℕ, List, Some, true, false, length, map, flat_map, IfOk, IfErr, IfSome, OnOk, IsErrOf, IsTrue};
ghost use Rattle.std.specs.List.Sorted.{IsSortedBy};
ghost use Rattle.apfs_model.specs.Blocks.{in_container};
ghost use Rattle.apfs_model.specs.Counts.{Rose};
ghost use Rattle.apfs_model.specs.Kept.{IsKept};
ghost use Rattle.obj_base.specs.Site.{IsSiteFor};
ghost use Rattle.obj_base.specs.Stops.{Tells, IsFree};
ghost use Rattle.obj_base.specs.declared.stop.Stop.TheVariants.{ReadFault};
ghost use Rattle.obj_base.specs.BlockSize.{is_accepted};
ghost use Rattle.apfs_model.specs.Lists.{In};
ghost use Rattle.view_sweep.specs.declared.used.Hit.{Hit as One};
ghost use Rattle.view_sweep.specs.Found.{used_of, bytes_at, tested_as, is_sound, wants_of};
ghost use Rattle.view_sweep.specs.Sets.{asked_with, AreNumbered};
ghost use Rattle.view_sweep.specs.Tests.{IsFaultOf, IsFeatureOf};
ghost use Rattle.view_sweep.specs.Here.{IsBadHit, IsRefusedHit};
ghost use Rattle.view_sweep.specs.Order.{is_hit_below};
ghost use Rattle.view_sweep.specs.Swept.{ArePlaced, AreSound, AreRead, IsTurned, hit_asks};

use crate::nodes::take;
use crate::used::{Hit, Used};
use crate::wanted::{Asked, Wanted};
use blk_read::read_block;
use blk_source::BlockSource;
use obj_base::{Site, Stop};
use reach_rules::ReachFault;
use std::alloc::{AllocError, Global};

// Whether the record that is held is this one.
fn is_held(held: &Option<Used>, used: &Used) -> bool
    ensures held { IsTrue result → held.now ≡ Some used.now }
    ensures other { result ≡ false → held.now ≡ Some used.now → ⊥ }
{
    match *held {
        Some(last) => last == *used,
        None => false,
    }
}

// Holds the block of a record, which is read where it isn't the one that is held.
fn turn<S: BlockSource>(
    src: &mut S,
    site: &Site,
    used: Used,
    held: &mut Option<Used>,
    block: &mut Vec<u8>,
    read: &mut Vec<Used>,
) -> Result<(), Stop<ReachFault>>
    requires site { IsSiteFor site.now (S.bytes_len src.old) }
    requires inside { in_container site.now.blocks used.mapping.paddr ≡ Some used.mapping.paddr }
    requires long { length block.old.items ≡ site.now.block_size }
    requires held { (image : List ℕ) → S.bytes src.old ≡ Some image → IfSome held.old (λ u. block.old.items ≡ bytes_at image site.now u.mapping) }
    ensures found { (image : List ℕ) → S.bytes src.old ≡ Some image → OnOk result (block.new.items ≡ bytes_at image site.now used.mapping) }
    ensures held { OnOk result (held.new ≡ Some used) }
    ensures turned { OnOk result (IsTurned held.old used read.old.items read.new.items) }
    ensures reads { OnOk result (S.reads src.new + length read.old.items ≤ S.reads src.old + length read.new.items) }
    ensures long { length block.new.items ≡ site.now.block_size }
    ensures free { IfErr result IsFree }
    ensures cause { IsErrOf result ReadFault → Rose (S.faults src.old) (S.faults src.new) }
    ensures kept { IsKept S.bytes S.bytes_len S.faults src.old src.new }
{
    if is_held(held, &used) {
        return Ok(());
    }
    read_block(src, used.mapping.paddr, block)?;
    *held = Some(used);
    read.push(used)?;
    Ok(())
}

// Asks for what is wanted of a view, of the set of a number.
fn ask(wants: &[Wanted], set: usize, out: &mut Vec<Asked>) -> Result<(), AllocError>
    ensures { OnOk result (out.new.items ≡ out.old.items ++ map (asked_with set) wants.now) }
{
    for wanted in wants {
        out.push(Asked {
            wanted: *wanted,
            set,
        })?;
    }
    Ok(())
}

// Tests what a record leads to, as it is wanted, and asks for what it wants in turn, of the views of the hit.
fn take_hit(
    alloc: Global,
    bytes: &[u8],
    site: &Site,
    hit: &Hit,
    out: &mut Vec<Asked>,
) -> Result<(), Stop<ReachFault>>
    requires accepted { is_accepted site.now.block_size ≡ true }
    requires long { length bytes.now ≡ site.now.block_size }
    ensures sound { OnOk result (is_sound site.now hit.now.wanted bytes.now ≡ true) }
    ensures added { OnOk result (out.new.items ≡ out.old.items ++ map (asked_with hit.now.set) (wants_of hit.now.wanted hit.now.mapping bytes.now)) }
    ensures stops { IfErr result (Tells (IsFaultOf hit.now.mapping.paddr (tested_as site.now hit.now.wanted bytes.now)) (IsFeatureOf hit.now.mapping.paddr (tested_as site.now hit.now.wanted bytes.now))) }
    ensures no_read { IsErrOf result ReadFault → ⊥ }
{
    let mut wants = Vec::new(alloc);
    match take(bytes, site, hit, &mut wants) {
        Ok(()) => {}
        Err(stop) => return Err(stop),
    }
    ask(&wants, hit.set, out)?;
    Ok(())
}

/// Reads each record of some hits once, tests what it leads to as each of them wants it, and asks for what these want in turn.
/// The hits of one record stand side by side.
pub(crate) fn read_hits<S: BlockSource>(
    alloc: Global,
    src: &mut S,
    site: &Site,
    hits: &[Hit],
    block: &mut Vec<u8>,
    out: &mut Vec<Asked>,
) -> Result<Vec<Used>, Stop<ReachFault>>
    requires site { IsSiteFor site.now (S.bytes_len src.old) }
    requires long { length block.old.items ≡ site.now.block_size }
    requires sorted { IsSortedBy is_hit_below hits.now }
    requires inside { ArePlaced site.now.blocks hits.now }
    ensures wants { (image : List ℕ) → S.bytes src.old ≡ Some image → OnOk result (out.new.items ≡ out.old.items ++ flat_map (hit_asks (bytes_at image site.now)) hits.now) }
    ensures sound { (image : List ℕ) → S.bytes src.old ≡ Some image → OnOk result (AreSound site.now (bytes_at image site.now) hits.now) }
    ensures stops { (image : List ℕ) → S.bytes src.old ≡ Some image → IfErr result (Tells (IsBadHit site.now (bytes_at image site.now) hits.now) (IsRefusedHit site.now (bytes_at image site.now) hits.now)) }
    ensures numbers { (n : ℕ) → ((h : One) → In h hits.now → h.set < n) → AreNumbered n out.old.items → OnOk result (AreNumbered n out.new.items) }
    ensures read { IfOk result (λ read. AreRead (map used_of hits.now) read.items) }
    ensures reads { IfOk result (λ read. S.reads src.new ≤ S.reads src.old + length read.items) }
    ensures long { length block.new.items ≡ site.now.block_size }
    ensures cause { IsErrOf result ReadFault → Rose (S.faults src.old) (S.faults src.new) }
    ensures kept { IsKept S.bytes S.bytes_len S.faults src.old src.new }
{
    let mut read = Vec::new(alloc);
    let mut held = None;
    for hit in hits {
        turn(src, site, hit.used(), &mut held, block, &mut read)?;
        match take_hit(alloc, block, site, hit, out) {
            Ok(()) => {}
            Err(stop) => return Err(stop),
        }
    }
    Ok(read)
}
