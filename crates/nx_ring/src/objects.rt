// The objects that a checkpoint maps, in the data area.
//
// Tests: a mapping has whole blocks in the data area, and a sound object of its kind and oid stands there. Gives: the
// object. Rests on: `sound`.
ghost use Rattle.std.specs.Prelude.{◌≡◌, ◌+◌, ◌*◌, ◌≤◌, ◌<◌, ◌/◌, ◌%◌, ◌^◌, List, ℕ, Some, None, true, length, IfOk, IfErr, IfSome, IsErrOf, if◌then◌else◌};
ghost use Rattle.apfs_model.specs.Counts.{Rose};
ghost use Rattle.apfs_model.specs.Kept.{IsKept};
ghost use Rattle.obj_base.specs.Stops.{IsFree};
ghost use Rattle.obj_base.specs.declared.stop.Stop.TheVariants.{ReadFault};
ghost use Rattle.nx_ring.specs.Reading.{Fits};
ghost use Rattle.nx_ring.specs.Objects as objects;
ghost use Rattle.nx_ring.specs.Reading as reading;

use crate::RingFault;
use crate::areas::Areas;
use crate::mappings::Mapping;
use blk_read::read_new;
use blk_source::BlockSource;
use obj_base::{Expect, Stop, sound};
use std::alloc::Global;
use std::marker::Model;

/// An object that a checkpoint maps. Contracts see its oid, its first block and its bytes.
#[derive(Drop)]
pub struct Object {
    oid: u64,
    block: u64,
    held: Vec<u8>,
}

impl Model for Object {
    ghost use Rattle.nx_ring.specs.Objects.{Place};
    ghost use Rattle.nx_ring.specs.Reading.{HasWholeBlocks};

    ghost Value = { Place };

    ghost view = { λ a. record { oid = a.oid; block = a.block; bytes = a.held.items } };

    ghost invariant = { λ a. HasWholeBlocks a.held.items };
}

impl Object {
    pub(crate) fn oid(&self) -> u64
        ensures { result ≡ self.now.oid }
    {
        self.oid
    }

    pub(crate) fn block(&self) -> u64
        ensures { result ≡ self.now.block }
    {
        self.block
    }

    pub(crate) fn bytes(&self) -> &[u8]
        ensures same { result.now ≡ self.now.bytes }
        ensures in_whole_blocks { reading.HasWholeBlocks result.now }
    {
        &self.held
    }
}

// Whether a mapping has one or more whole blocks, at most the data area, and starts in the data area.
#[tactic(auto, unfolding(crate::specs::Objects::is_placed))]
pub(crate) fn is_placed(areas: &Areas, m: &Mapping) -> bool
    requires { 0 < areas.now.size }
    ensures { result ≡ objects.is_placed areas.now m.now }
{
    let blocks = m.size / areas.size;
    1 <= blocks
        && areas.size * blocks == m.size
        && blocks <= areas.data_blocks
        && areas.data_base <= m.paddr
        && m.paddr - areas.data_base < u64::from(areas.data_blocks)
}

// The block that is so many blocks after a block of the data area, with wrap.
#[tactic(auto, unfolding(crate::specs::Objects::data_block))]
pub(crate) fn data_block(areas: &Areas, paddr: u64, t: u32) -> u64
    requires starts { areas.now.data_base ≤ paddr }
    requires inside { paddr < areas.now.data_base + areas.now.data_blocks }
    requires small { areas.now.data_base + areas.now.data_blocks < 2 ^ 64 }
    ensures here { result ≡ objects.data_block areas.now paddr t }
    ensures low { areas.now.data_base ≤ result }
    ensures high { result < areas.now.data_base + areas.now.data_blocks }
{
    areas.data_base + (paddr - areas.data_base + u64::from(t)) % u64::from(areas.data_blocks)
}

// Reads the bytes of a mapped object.
fn read_object<S: BlockSource>(
    alloc: Global,
    src: &mut S,
    areas: &Areas,
    m: &Mapping,
) -> Result<Vec<u8>, Stop<RingFault>>
    requires fits { Fits areas.now (S.bytes_len src.old) }
    requires placed { objects.is_placed areas.now m.now ≡ true }
    ensures found { (image : List ℕ) → S.bytes src.old ≡ Some image → IfOk result (λ bytes. bytes.items ≡ objects.mapped_bytes image areas.now m.now) }
    ensures len { IfOk result (λ bytes. length bytes.items ≡ m.now.size) }
    ensures free { IfErr result IsFree }
    ensures cause { IsErrOf result ReadFault → Rose (S.faults src.old) (S.faults src.new) }
    ensures kept { IsKept S.bytes S.bytes_len S.faults src.old src.new }
    ensures reads { S.reads src.new ≤ S.reads src.old + objects.object_blocks areas.now m.now }
{
    let mut bytes = Vec::with_capacity(alloc, m.size as usize)?;
    'parts: for t in 0..m.size / areas.size {
        let block = read_new(alloc, src, data_block(areas, m.paddr, t), areas.size)?;
        bytes.extend_from_slice(&block)?;
    }
    Ok(bytes)
}

// Whether bytes are a sound object of the mapping's kind and oid, of a transaction of at most `xid`.
#[tactic(auto, unfolding(crate::specs::Objects::is_mapped))]
fn is_mapped(xid: u64, m: &Mapping, bytes: &[u8]) -> bool
    requires whole { length bytes.now % 4 ≡ 0 }
    requires long { 36 ≤ length bytes.now }
    ensures { result ≡ objects.is_mapped xid m.now bytes.now }
{
    let expect = Expect {
        kind: (m.type_bits % 0x1_0000) as u16,
        subtype: None,
        oid: Some(m.oid),
        max_xid: xid,
    };
    match sound(bytes, &expect) {
        Ok(_) => true,
        Err(_) => false,
    }
}

// Reads a mapped object, and gives it where it is sound, of the mapping's kind and oid, and of a transaction of at most
// `xid`.
pub(crate) fn read_mapped<S: BlockSource>(
    alloc: Global,
    src: &mut S,
    areas: &Areas,
    xid: u64,
    m: &Mapping,
) -> Result<Option<Object>, Stop<RingFault>>
    requires fits { Fits areas.now (S.bytes_len src.old) }
    requires placed { objects.is_placed areas.now m.now ≡ true }
    ensures found { (image : List ℕ) → S.bytes src.old ≡ Some image → IfOk result (λ object. object ≡ (if objects.has_object image areas.now xid m.now then Some (objects.place_at image areas.now m.now) else None)) }
    ensures free { IfErr result IsFree }
    ensures cause { IsErrOf result ReadFault → Rose (S.faults src.old) (S.faults src.new) }
    ensures kept { IsKept S.bytes S.bytes_len S.faults src.old src.new }
    ensures reads { S.reads src.new ≤ S.reads src.old + objects.object_blocks areas.now m.now }
{
    let held = read_object(alloc, src, areas, m)?;
    if !is_mapped(xid, m, &held) {
        return Ok(None);
    }
    Ok(Some(Object {
        oid: m.oid,
        block: m.paddr,
        held,
    }))
}
