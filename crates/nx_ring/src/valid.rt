// Which candidates are valid.
//
// Tests: the checkpoint ends at its superblock, its maps are sound, its mappings are placed and apart, its objects are
// sound. Gives: its mappings, and by these its objects. Rests on: the areas of a right block 0.
ghost use Rattle.std.specs.Prelude.{◌≡◌, ◌+◌, ◌-◌, ◌≤◌, ◌<◌, ◌^◌, ◌++◌, List, ℕ, Some, None, true, false, length, map, nat_le, IfOk, OnOk, IfErr, IfSome, IsErrOf};
ghost use Rattle.std.specs.Option.{is_some};
ghost use Rattle.apfs_model.specs.Counts.{Rose};
ghost use Rattle.apfs_model.specs.Kept.{IsKept};
ghost use Rattle.apfs_model.specs.Lists.{is_distinct};
ghost use Rattle.obj_base.specs.Stops.{IsFree};
ghost use Rattle.obj_base.specs.declared.stop.Stop.TheVariants.{ReadFault, NoMemory};
ghost use Rattle.nx_ring.specs.Rising.{Rises, Halts};
ghost use Rattle.nx_ring.specs.Reading.{Fits};
ghost use Rattle.nx_ring.specs.Mappings.{mappings_in};
ghost use Rattle.nx_ring.specs.Objects.{mapped_blocks, place_at};
ghost use Rattle.nx_ring.specs.Objects as objects;
ghost use Rattle.nx_ring.specs.Known.{AreKnown};
ghost use Rattle.nx_ring.specs.Valid as valid;

use crate::areas::Areas;
use crate::known::{Known, has_object};
use crate::mappings::{Mapping, add_mappings, is_map};
use crate::objects::{Object, data_block, is_placed, read_mapped};
use crate::{RingFault, RingLine};
use blk_read::read_new;
use blk_source::BlockSource;
use obj_base::Stop;
use std::alloc::Global;

// The index of the descriptor area that is so many after the checkpoint's start, with wrap.
#[tactic(auto, unfolding(crate::specs::Valid::index_after))]
fn index_after(areas: &Areas, line: &RingLine, j: u32) -> u64
    requires { 0 < areas.now.desc_blocks }
    ensures here { result ≡ valid.index_after areas.now line.now j }
    ensures inside { result < areas.now.desc_blocks }
{
    (u64::from(line.desc_index) + u64::from(j)) % u64::from(areas.desc_blocks)
}

// Whether a checkpoint has one block or more, at most the area, and its superblock is its last.
#[tactic(auto, unfolding(crate::specs::Valid::ends_here))]
fn ends_here(areas: &Areas, line: &RingLine) -> bool
    requires { 0 < areas.now.desc_blocks }
    ensures here { result ≡ valid.ends_here areas.now line.now }
    ensures some { result ≡ true → 1 ≤ line.now.desc_len }
    ensures few { result ≡ true → line.now.desc_len ≤ areas.now.desc_blocks }
{
    1 <= line.desc_len
        && line.desc_len <= areas.desc_blocks
        && index_after(areas, line, line.desc_len - 1) == u64::from(line.index)
}

// Reads the block that is so many after the checkpoint's start, and adds its mappings where it is a sound map.
fn add_map<S: BlockSource>(
    alloc: Global,
    src: &mut S,
    areas: &Areas,
    line: &RingLine,
    j: u32,
    into: &mut Vec<Mapping>,
) -> Result<bool, Stop<RingFault>>
    requires { Fits areas.now (S.bytes_len src.old) }
    ensures found { (image : List ℕ) → S.bytes src.old ≡ Some image → IfOk result (λ sound. sound ≡ valid.is_map_after image areas.now line.now j) }
    ensures added { (image : List ℕ) → S.bytes src.old ≡ Some image → IfOk result (λ sound. sound ≡ true → into.new.items ≡ into.old.items ++ mappings_in (valid.map_block image areas.now line.now j)) }
    ensures free { IfErr result IsFree }
    ensures cause { IsErrOf result ReadFault → Rose (S.faults src.old) (S.faults src.new) }
    ensures kept { IsKept S.bytes S.bytes_len S.faults src.old src.new }
    ensures reads { S.reads src.new ≤ S.reads src.old + 1 }
{
    let block = areas.desc_base + index_after(areas, line, j);
    let held = read_new(alloc, src, block, areas.size)?;
    let bytes = held.as_slice();
    if !is_map(block, line.xid, bytes) {
        return Ok(false);
    }
    add_mappings(bytes, into)?;
    Ok(true)
}

// Reads a checkpoint's maps, and gives its mappings where all maps are sound.
fn read_maps<S: BlockSource>(
    alloc: Global,
    src: &mut S,
    areas: &Areas,
    line: &RingLine,
) -> Result<Option<Vec<Mapping>>, Stop<RingFault>>
    requires fits { Fits areas.now (S.bytes_len src.old) }
    requires some { 1 ≤ line.now.desc_len }
    ensures found { (image : List ℕ) → S.bytes src.old ≡ Some image → IfOk result (λ all. is_some all ≡ valid.has_maps image areas.now line.now) }
    ensures listed { (image : List ℕ) → S.bytes src.old ≡ Some image → IfOk result (λ all. IfSome all (λ mappings. mappings.items ≡ valid.mappings_of image areas.now line.now)) }
    ensures free { IfErr result IsFree }
    ensures cause { IsErrOf result ReadFault → Rose (S.faults src.old) (S.faults src.new) }
    ensures kept { IsKept S.bytes S.bytes_len S.faults src.old src.new }
    ensures reads { S.reads src.new ≤ S.reads src.old + (line.now.desc_len - 1) }
{
    let mut mappings = Vec::new(alloc);
    'maps: for j in 0..line.desc_len - 1 {
        if !add_map(alloc, src, areas, line, j, &mut mappings)? {
            return Ok(None);
        }
    }
    Ok(Some(mappings))
}

// Whether each mapping has whole blocks and starts in the data area.
#[tactic(auto, unfolding(crate::specs::Valid::are_placed))]
fn are_placed(areas: &Areas, mappings: &[Mapping]) -> bool
    requires { 0 < areas.now.size }
    ensures { result ≡ valid.are_placed areas.now mappings.now }
{
    'each: for m in mappings {
        if !is_placed(areas, m) {
            return false;
        }
    }
    true
}

// The oids of mappings.
fn ids_of(alloc: Global, mappings: &[Mapping]) -> Result<Vec<u64>, Stop<RingFault>>
    ensures found { IfOk result (λ ids. ids.items ≡ valid.ids_of mappings.now) }
    ensures memory_only { IfErr result (λ stop. stop ≡ NoMemory) }
{
    let mut ids = Vec::new(alloc);
    'each: for m in mappings {
        ids.push(m.oid)?;
    }
    Ok(ids)
}

// Adds the blocks of a mapping.
fn add_blocks(areas: &Areas, m: &Mapping, into: &mut Vec<u64>) -> Result<(), Stop<RingFault>>
    requires some { 0 < areas.now.size }
    requires placed { objects.is_placed areas.now m.now ≡ true }
    requires small { areas.now.data_base + areas.now.data_blocks < 2 ^ 64 }
    ensures added { OnOk result (into.new.items ≡ into.old.items ++ mapped_blocks areas.now m.now) }
    ensures memory_only { IfErr result (λ stop. stop ≡ NoMemory) }
{
    'each: for t in 0..m.size / areas.size {
        into.push(data_block(areas, m.paddr, t))?;
    }
    Ok(())
}

// The data blocks of mappings.
fn blocks_of(
    alloc: Global,
    areas: &Areas,
    mappings: &[Mapping],
) -> Result<Vec<u64>, Stop<RingFault>>
    requires some { 0 < areas.now.size }
    requires placed { valid.are_placed areas.now mappings.now ≡ true }
    requires small { areas.now.data_base + areas.now.data_blocks < 2 ^ 64 }
    ensures found { IfOk result (λ blocks. blocks.items ≡ valid.blocks_of areas.now mappings.now) }
    ensures memory_only { IfErr result (λ stop. stop ≡ NoMemory) }
{
    let mut blocks = Vec::new(alloc);
    'each: for m in mappings {
        add_blocks(areas, m, &mut blocks)?;
    }
    Ok(blocks)
}

// Whether mappings have at most as many blocks as the data area.
#[tactic(auto, using(crate::proofs::More::blocks_length, crate::proofs::More::blocks_part))]
fn are_few(areas: &Areas, mappings: &[Mapping]) -> bool
    requires some { 0 < areas.now.size }
    ensures { result ≡ nat_le (length (valid.blocks_of areas.now mappings.now)) areas.now.data_blocks }
{
    let mut count: u64 = 0;
    'each: for m in mappings {
        count += u64::from(m.size / areas.size);
        if count > u64::from(areas.data_blocks) {
            return false;
        }
    }
    true
}

// Whether each number is below the next.
fn is_rising(numbers: &[u64]) -> bool
    ensures yes { result ≡ true → Rises numbers.now }
    ensures otherwise { result ≡ false → Halts numbers.now }
{
    'pairs: for i in 1..numbers.len() {
        if numbers[i] <= numbers[i - 1] {
            return false;
        }
    }
    true
}

// Whether no number stands twice. Takes no memory.
fn are_distinct(mut numbers: Vec<u64>) -> bool
    ensures { result ≡ is_distinct numbers.items }
{
    numbers.sort_unstable();
    is_rising(numbers.as_slice())
}

// Whether no oid is mapped twice.
#[tactic(auto, unfolding(crate::specs::Valid::have_ids_once))]
fn have_ids_once(alloc: Global, mappings: &[Mapping]) -> Result<bool, Stop<RingFault>>
    ensures found { IfOk result (λ once. once ≡ valid.have_ids_once mappings.now) }
    ensures memory_only { IfErr result (λ stop. stop ≡ NoMemory) }
{
    let ids = ids_of(alloc, mappings)?;
    Ok(are_distinct(ids))
}

// Whether no data block is in two mappings. Memory is taken only where they have at most as many blocks as the data
// area.
#[tactic(auto, using(crate::proofs::Few::many_blocks), unfolding(crate::specs::Valid::have_blocks_once))]
fn have_blocks_once(
    alloc: Global,
    areas: &Areas,
    mappings: &[Mapping],
) -> Result<bool, Stop<RingFault>>
    requires some { 0 < areas.now.size }
    requires area { 0 < areas.now.data_blocks }
    requires placed { valid.are_placed areas.now mappings.now ≡ true }
    requires small { areas.now.data_base + areas.now.data_blocks < 2 ^ 64 }
    ensures found { IfOk result (λ once. once ≡ valid.have_blocks_once areas.now mappings.now) }
    ensures memory_only { IfErr result (λ stop. stop ≡ NoMemory) }
{
    if !are_few(areas, mappings) {
        return Ok(false);
    }
    let blocks = blocks_of(alloc, areas, mappings)?;
    Ok(are_distinct(blocks))
}

// Whether mappings are placed, each in blocks of its own, and of different oids.
#[tactic(auto, unfolding(crate::specs::Valid::are_apart))]
fn are_apart(alloc: Global, areas: &Areas, mappings: &[Mapping]) -> Result<bool, Stop<RingFault>>
    requires some { 0 < areas.now.size }
    requires area { 0 < areas.now.data_blocks }
    requires small { areas.now.data_base + areas.now.data_blocks < 2 ^ 64 }
    ensures found { IfOk result (λ apart. apart ≡ valid.are_apart areas.now mappings.now) }
    ensures memory_only { IfErr result (λ stop. stop ≡ NoMemory) }
{
    if !are_placed(areas, mappings) {
        return Ok(false);
    }
    let once = have_ids_once(alloc, mappings)?;
    if !once {
        return Ok(false);
    }
    have_blocks_once(alloc, areas, mappings)
}

// Reads the maps of a candidate, and gives its mappings where it ends at its superblock, its maps are sound, and its
// mappings are placed and apart.
fn read_mappings<S: BlockSource>(
    alloc: Global,
    src: &mut S,
    areas: &Areas,
    line: &RingLine,
) -> Result<Option<Vec<Mapping>>, Stop<RingFault>>
    requires { Fits areas.now (S.bytes_len src.old) }
    ensures found { (image : List ℕ) → S.bytes src.old ≡ Some image → IfOk result (λ all. is_some all ≡ valid.has_mappings image areas.now line.now) }
    ensures listed { (image : List ℕ) → S.bytes src.old ≡ Some image → IfOk result (λ all. IfSome all (λ mappings. mappings.items ≡ valid.mappings_of image areas.now line.now)) }
    ensures ends { IfOk result (λ all. IfSome all (λ mappings. 1 ≤ line.now.desc_len)) }
    ensures apart { IfOk result (λ all. IfSome all (λ mappings. valid.are_apart areas.now mappings.items ≡ true)) }
    ensures free { IfErr result IsFree }
    ensures cause { IsErrOf result ReadFault → Rose (S.faults src.old) (S.faults src.new) }
    ensures kept { IsKept S.bytes S.bytes_len S.faults src.old src.new }
    ensures reads { S.reads src.new + 1 ≤ S.reads src.old + areas.now.desc_blocks }
{
    if !ends_here(areas, line) {
        return Ok(None);
    }
    let Some(mappings) = read_maps(alloc, src, areas, line)? else {
        return Ok(None);
    };
    let apart = are_apart(alloc, areas, mappings.as_slice())?;
    if !apart {
        return Ok(None);
    }
    Ok(Some(mappings))
}

// Whether each mapping finds a sound object. No object is kept, and the first that isn't sound ends it.
fn have_objects<S: BlockSource>(
    alloc: Global,
    src: &mut S,
    areas: &Areas,
    xid: u64,
    mappings: &[Mapping],
    known: &mut Known,
) -> Result<bool, Stop<RingFault>>
    requires fits { Fits areas.now (S.bytes_len src.old) }
    requires placed { valid.are_placed areas.now mappings.now ≡ true }
    ensures found { (image : List ℕ) → S.bytes src.old ≡ Some image → AreKnown image areas.now known.old → IfOk result (λ sound. sound ≡ valid.have_objects image areas.now xid mappings.now) }
    ensures known { (image : List ℕ) → S.bytes src.old ≡ Some image → AreKnown image areas.now known.old → OnOk result (AreKnown image areas.now known.new) }
    ensures free { IfErr result IsFree }
    ensures cause { IsErrOf result ReadFault → Rose (S.faults src.old) (S.faults src.new) }
    ensures kept { IsKept S.bytes S.bytes_len S.faults src.old src.new }
    ensures reads { S.reads src.new ≤ S.reads src.old + length (valid.blocks_of areas.now mappings.now) }
{
    'each: for m in mappings {
        if !has_object(alloc, src, areas, xid, m, known)? {
            return Ok(false);
        }
    }
    Ok(true)
}

// Gives the mappings of a candidate where it is valid.
pub(crate) fn valid_mappings<S: BlockSource>(
    alloc: Global,
    src: &mut S,
    areas: &Areas,
    line: &RingLine,
    known: &mut Known,
) -> Result<Option<Vec<Mapping>>, Stop<RingFault>>
    requires { Fits areas.now (S.bytes_len src.old) }
    ensures found { (image : List ℕ) → S.bytes src.old ≡ Some image → AreKnown image areas.now known.old → IfOk result (λ all. is_some all ≡ valid.is_valid image areas.now line.now) }
    ensures known { (image : List ℕ) → S.bytes src.old ≡ Some image → AreKnown image areas.now known.old → OnOk result (AreKnown image areas.now known.new) }
    ensures listed { (image : List ℕ) → S.bytes src.old ≡ Some image → IfOk result (λ all. IfSome all (λ mappings. mappings.items ≡ valid.mappings_of image areas.now line.now)) }
    ensures ends { IfOk result (λ all. IfSome all (λ mappings. 1 ≤ line.now.desc_len)) }
    ensures placed { IfOk result (λ all. IfSome all (λ mappings. valid.are_placed areas.now mappings.items ≡ true)) }
    ensures free { IfErr result IsFree }
    ensures cause { IsErrOf result ReadFault → Rose (S.faults src.old) (S.faults src.new) }
    ensures kept { IsKept S.bytes S.bytes_len S.faults src.old src.new }
    ensures reads { S.reads src.new + 1 ≤ S.reads src.old + (areas.now.desc_blocks + areas.now.data_blocks) }
{
    let Some(mappings) = read_mappings(alloc, src, areas, line)? else {
        return Ok(None);
    };
    if !have_objects(alloc, src, areas, line.xid, mappings.as_slice(), known)? {
        return Ok(None);
    }
    Ok(Some(mappings))
}

// Reads the objects of mappings, and gives them where each is sound.
pub(crate) fn read_objects<S: BlockSource>(
    alloc: Global,
    src: &mut S,
    areas: &Areas,
    xid: u64,
    mappings: &[Mapping],
) -> Result<Option<Vec<Object>>, Stop<RingFault>>
    requires fits { Fits areas.now (S.bytes_len src.old) }
    requires placed { valid.are_placed areas.now mappings.now ≡ true }
    ensures found { (image : List ℕ) → S.bytes src.old ≡ Some image → IfOk result (λ all. is_some all ≡ valid.have_objects image areas.now xid mappings.now) }
    ensures listed { (image : List ℕ) → S.bytes src.old ≡ Some image → IfOk result (λ all. IfSome all (λ objects. objects.items ≡ map (place_at image areas.now) mappings.now)) }
    ensures free { IfErr result IsFree }
    ensures cause { IsErrOf result ReadFault → Rose (S.faults src.old) (S.faults src.new) }
    ensures kept { IsKept S.bytes S.bytes_len S.faults src.old src.new }
    ensures reads { S.reads src.new ≤ S.reads src.old + length (valid.blocks_of areas.now mappings.now) }
{
    let mut all = Vec::new(alloc);
    'each: for m in mappings {
        let Some(object) = read_mapped(alloc, src, areas, xid, m)? else {
            return Ok(None);
        };
        all.push(object)?;
    }
    Ok(Some(all))
}
