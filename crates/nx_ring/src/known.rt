// Which objects are sound, found out one block at a time.
//
// Tests: the header in the first block, then the sum over all blocks. Gives: whether a mapping finds its object. Rests
// on: placed mappings.
ghost use Rattle.std.specs.Prelude.{◌≡◌, ◌+◌, ◌≤◌, ◌<◌, ◌==◌, ◌&&◌, not, List, ℕ, Some, true, length, IfOk, OnOk, IfErr, IsErrOf};
ghost use Rattle.apfs_model.specs.Counts.{Rose};
ghost use Rattle.apfs_model.specs.Kept.{IsKept};
ghost use Rattle.apfs_model.specs.Bytes as bytes;
ghost use Rattle.apfs_model.specs.Lists.{passes};
ghost use Rattle.apfs_model.specs.Object.{flags_of};
ghost use Rattle.obj_base.specs.Stops.{IsFree};
ghost use Rattle.obj_base.specs.declared.stop.Stop.TheVariants.{ReadFault, NoMemory};
ghost use Rattle.std.specs.BTreeMap.{get};
ghost use Rattle.nx_ring.specs.declared.areas.Areas as declared;
ghost use Rattle.nx_ring.specs.Reading.{Fits};
ghost use Rattle.nx_ring.specs.Objects as objects;
ghost use Rattle.nx_ring.specs.Known as spec;
ghost use Rattle.nx_ring.specs.Known.{AreKnown};

use crate::RingFault;
use crate::areas::Areas;
use crate::mappings::Mapping;
use crate::objects::data_block;
use crate::running_sum::RunningSum;
use apfs_layout::object;
use blk_read::read_new;
use blk_source::BlockSource;
use obj_base::{ObjFlags, Stop, u32_at, u64_at};
use std::alloc::Global;
use std::collections::BTreeMap;

/// What a header says that a mapping also says, and the transaction.
#[derive(Clone, Copy, PartialEq, Eq)]
pub(crate) struct Head {
    pub kind: u16,
    pub oid: u64,
    pub xid: u64,
}

/// The objects that were read to their end, by first block and bytes: the header of each that is sound.
pub(crate) type Known = BTreeMap<(u64, u32), Option<Head>>;

// The header in the first block of an object.
#[tactic(auto, unfolding(apfs_model::specs::Object::oid_of, apfs_model::specs::Object::xid_of, apfs_model::specs::Object::type_of, crate::specs::Known::head_of))]
fn head_in(first: &[u8]) -> Head
    requires { 36 ≤ length first.now }
    ensures { result ≡ spec.head_of first.now }
{
    Head {
        kind: (u32_at(first, object::TYPE) % 0x1_0000) as u16,
        oid: u64_at(first, object::OID),
        xid: u64_at(first, object::XID),
    }
}

// Whether all bits of a flag are set in a word.
fn has_flag(word: u32, flag: u32) -> bool
    ensures { result ≡ bytes.has_flag word flag }
{
    word & flag == flag
}

// The flags of an object.
#[tactic(auto, unfolding(apfs_model::specs::Object::type_of))]
fn flags_in(first: &[u8]) -> u32
    requires { 36 ≤ length first.now }
    ensures { result ≡ flags_of first.now }
{
    u32_at(first, object::TYPE) & 0xffff_0000
}

// Whether an object is neither encrypted nor without a header.
#[tactic(auto, unfolding(crate::specs::Known::is_plain))]
fn is_plain(first: &[u8]) -> bool
    requires { 36 ≤ length first.now }
    ensures { result ≡ spec.is_plain first.now }
{
    let flags = flags_in(first);
    !has_flag(flags, ObjFlags::ENCRYPTED.bits) && !has_flag(flags, ObjFlags::NO_HEADER.bits)
}

// Whether a header is the one that a mapping tells of, of a transaction of at most `xid`.
fn is_expected(xid: u64, m: &Mapping, head: Head) -> bool
    ensures { result ≡ spec.is_expected xid m.now head }
{
    u32::from(head.kind) == m.type_bits % 0x1_0000 && head.oid == m.oid && head.xid <= xid
}

// Whether a mapping finds its object, by what is known of the place.
fn is_found(xid: u64, m: &Mapping, sound: Option<Head>) -> bool
    ensures { result ≡ passes sound (spec.is_expected xid m.now) }
{
    match sound {
        Some(head) => is_expected(xid, m, head),
        None => false,
    }
}

// Whether the stored sum of an object is that of its blocks, the first of which was read.
fn is_summed<S: BlockSource>(
    alloc: Global,
    src: &mut S,
    areas: &Areas,
    m: &Mapping,
    first: &[u8],
) -> Result<bool, Stop<RingFault>>
    requires fits { Fits areas.now (S.bytes_len src.old) }
    requires placed { objects.is_placed areas.now m.now ≡ true }
    requires whole { length first.now ≡ areas.now.size }
    ensures found { (image : List ℕ) → S.bytes src.old ≡ Some image → first.now ≡ objects.mapped_part image areas.now m.now 1 → IfOk result (λ summed. summed ≡ spec.is_summed (objects.mapped_bytes image areas.now m.now)) }
    ensures free { IfErr result IsFree }
    ensures cause { IsErrOf result ReadFault → Rose (S.faults src.old) (S.faults src.new) }
    ensures kept { IsKept S.bytes S.bytes_len S.faults src.old src.new }
    ensures reads { S.reads src.new + 1 ≤ S.reads src.old + objects.object_blocks areas.now m.now }
{
    let mut sum = RunningSum::new();
    sum.add(first, object::FIRST_WORD);
    'parts: for t in 1..m.size / areas.size {
        let block = read_new(alloc, src, data_block(areas, m.paddr, t), areas.size)?;
        sum.add(&block, 0);
    }
    Ok(u64_at(first, object::SUM) == sum.stored())
}

// What is known of the object at a mapping's place.
fn look_up(known: &Known, m: &Mapping) -> Option<Option<Head>>
    ensures { result ≡ get spec.place_cmp known.now (m.now.paddr, m.now.size) }
{
    known.get(&(m.paddr, m.size)).copied()
}

// Keeps what was found out about the object at a mapping's place.
fn keep(known: &mut Known, m: &Mapping, sound: Option<Head>) -> Result<(), Stop<RingFault>>
    ensures known { (image : List ℕ) (areas : declared.Areas) → AreKnown image areas known.old → sound ≡ spec.sound_head (spec.object_from image areas m.now.paddr m.now.size) → OnOk result (AreKnown image areas known.new) }
    ensures memory_only { IfErr result (λ stop. stop ≡ NoMemory) }
{
    known.insert((m.paddr, m.size), sound)?;
    Ok(())
}

// Reads a mapping's object as far as it is sound, and tells whether it is so to its end, which is kept.
fn judge<S: BlockSource>(
    alloc: Global,
    src: &mut S,
    areas: &Areas,
    xid: u64,
    m: &Mapping,
    known: &mut Known,
) -> Result<bool, Stop<RingFault>>
    requires fits { Fits areas.now (S.bytes_len src.old) }
    requires placed { objects.is_placed areas.now m.now ≡ true }
    ensures found { (image : List ℕ) → S.bytes src.old ≡ Some image → IfOk result (λ sound. sound ≡ objects.has_object image areas.now xid m.now) }
    ensures known { (image : List ℕ) → S.bytes src.old ≡ Some image → AreKnown image areas.now known.old → OnOk result (AreKnown image areas.now known.new) }
    ensures free { IfErr result IsFree }
    ensures cause { IsErrOf result ReadFault → Rose (S.faults src.old) (S.faults src.new) }
    ensures kept { IsKept S.bytes S.bytes_len S.faults src.old src.new }
    ensures reads { S.reads src.new ≤ S.reads src.old + objects.object_blocks areas.now m.now }
{
    let first = read_new(alloc, src, data_block(areas, m.paddr, 0), areas.size)?;
    let bytes = first.as_slice();
    let head = head_in(bytes);
    if !is_plain(bytes) {
        return Ok(false);
    }
    if !is_expected(xid, m, head) {
        return Ok(false);
    }
    let summed = is_summed(alloc, src, areas, m, bytes)?;
    keep(known, m, summed.then_some(head))?;
    Ok(summed)
}

// Whether a mapping finds a sound object of its kind and oid, of a transaction of at most `xid`. One that was read to
// its end before isn't read again.
pub(crate) fn has_object<S: BlockSource>(
    alloc: Global,
    src: &mut S,
    areas: &Areas,
    xid: u64,
    m: &Mapping,
    known: &mut Known,
) -> Result<bool, Stop<RingFault>>
    requires fits { Fits areas.now (S.bytes_len src.old) }
    requires placed { objects.is_placed areas.now m.now ≡ true }
    ensures found { (image : List ℕ) → S.bytes src.old ≡ Some image → AreKnown image areas.now known.old → IfOk result (λ sound. sound ≡ objects.has_object image areas.now xid m.now) }
    ensures known { (image : List ℕ) → S.bytes src.old ≡ Some image → AreKnown image areas.now known.old → OnOk result (AreKnown image areas.now known.new) }
    ensures free { IfErr result IsFree }
    ensures cause { IsErrOf result ReadFault → Rose (S.faults src.old) (S.faults src.new) }
    ensures kept { IsKept S.bytes S.bytes_len S.faults src.old src.new }
    ensures reads { S.reads src.new ≤ S.reads src.old + objects.object_blocks areas.now m.now }
{
    match look_up(known, m) {
        Some(sound) => Ok(is_found(xid, m, sound)),
        None => judge(alloc, src, areas, xid, m, known),
    }
}
