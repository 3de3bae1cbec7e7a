// The blocks that tell of chunks (Space Manager, cib_addr_block_t and chunk_info_block_t).
//
// Tests: each address block and each chunk-info block is one of the container, in the pool and sound, and has its index
// and its count. Gives: where they are, and the chunks. Rests on: a manager of the right shape.
ghost use Rattle.std.specs.Prelude.{◌≡◌, ◌≤◌, ◌<◌, ◌+◌, ◌*◌, ◌++◌, ◌&&◌, ◌==◌, ℕ, List, [], ◌∷◌, Some, length, map, true, OnOk, IfOk, IfErr, IsErrOf};
ghost use Rattle.std.specs.List.{range_with_len};
ghost use Rattle.apfs_model.specs.Blocks.{block_of};
ghost use Rattle.apfs_model.specs.Counts.{Rose};
ghost use Rattle.apfs_model.specs.Kept.{IsKept};
ghost use Rattle.obj_base.specs.Site.{IsSiteFor};
ghost use Rattle.obj_base.specs.Stops.{Tells, IsFree, raised};
ghost use Rattle.obj_base.specs.declared.stop.Stop.TheVariants.{ReadFault};
ghost use Rattle.space_map.specs.Fields.{cab_cibs_of, cabs_of, cibs_of, chunks_of};
ghost use Rattle.space_map.specs.Geometry.{is_shaped};
ghost use Rattle.space_map.specs.Blocks.{address_at, cab_address_at, cab_blocks, cib_block, info_index_of, info_count_of, is_info};
ghost use Rattle.space_map.specs.Tests.{is_in_pool};
ghost use Rattle.space_map.specs.Stops.{NamesInfo, NamesCib, IsFaultOf, IsInfoFeature, IsRightCab, IsRightCib};
ghost use Rattle.space_map.specs.Held.{unsound, first_cibs, first_chunks, AreRight, AreNamed};

use crate::chunk::add_chunks;
use crate::manager::{Manager, share};
use crate::{Chunk, SpaceFault};
use apfs_layout::{chunk_info, kind};
use blk_read::read_sound;
use blk_source::BlockSource;
use obj_base::{Expect, HeadFault, Site, Stop, Unsound, Within, u32_at, u64_at};
use std::alloc::Global;

// Why an object isn't sound, said of the space.
pub(crate) fn raise(stop: Stop<Unsound<HeadFault>>) -> Stop<SpaceFault>
    ensures { result ≡ raised unsound stop }
{
    stop.map(|Unsound { block, why }| SpaceFault::Unsound { block, why })
}

// Whether a block that tells of chunks has this index and this count.
#[tactic(auto, unfolding(crate::specs::Blocks::info_index_of, crate::specs::Blocks::info_count_of))]
fn has_count(bytes: &[u8], index: u32, count: u64) -> bool
    requires { 40 ≤ length bytes.now }
    ensures { result ≡ ((info_index_of bytes.now == index) && (info_count_of bytes.now == count)) }
{
    u32_at(bytes, chunk_info::CIB_INDEX) == index
        && u64::from(u32_at(bytes, chunk_info::CIB_COUNT)) == count
}

// Reads the object of a kind in a block that is named as telling of chunks.
fn read_info<S: BlockSource>(
    alloc: Global,
    src: &mut S,
    site: &Site,
    manager: &Manager<'_>,
    kind: u16,
    block: u64,
) -> Result<Vec<u8>, Stop<SpaceFault>>
    requires site { IsSiteFor site.now (S.bytes_len src.old) }
    ensures found { (image : List ℕ) → S.bytes src.old ≡ Some image → IfOk result (λ bytes. bytes.items ≡ block_of site.now.block_size image block) }
    ensures sound { (image : List ℕ) → S.bytes src.old ≡ Some image → OnOk result (is_info image site.now kind block ≡ true) }
    ensures placed { OnOk result (is_in_pool site.now manager.now block ≡ true) }
    ensures present { (image : List ℕ) → S.bytes src.old ≡ Some image → NamesInfo image site.now manager.now kind block → IfErr result (Tells (IsFaultOf image site.now manager.now) (IsInfoFeature image site.now manager.now)) }
    ensures long { IfOk result (λ bytes. length bytes.items ≡ site.now.block_size) }
    ensures cause { IsErrOf result ReadFault → Rose (S.faults src.old) (S.faults src.new) }
    ensures kept { IsKept S.bytes S.bytes_len S.faults src.old src.new }
    ensures reads { S.reads src.new ≤ S.reads src.old + 1 }
{
    if !site.has_block(block) {
        return Err(Stop::Found(SpaceFault::Unnamed {
            within: Within::Physical,
            oid: block,
        }));
    }
    if !manager.has_in_pool(site, block) {
        return Err(Stop::Found(SpaceFault::Place { block }));
    }
    let expect = Expect {
        kind,
        subtype: None,
        oid: Some(block),
        max_xid: site.max_xid,
    };
    match read_sound(alloc, src, site, block, &expect) {
        Ok(bytes) => Ok(bytes),
        Err(stop) => Err(raise(stop)),
    }
}

// Reads the chunk-info address block of an index.
fn read_cab<S: BlockSource>(
    alloc: Global,
    src: &mut S,
    site: &Site,
    manager: &Manager<'_>,
    index: u32,
) -> Result<Vec<u8>, Stop<SpaceFault>>
    requires site { IsSiteFor site.now (S.bytes_len src.old) }
    requires shaped { is_shaped site.now manager.now ≡ true }
    requires low { index < cabs_of manager.now }
    ensures found { (image : List ℕ) → S.bytes src.old ≡ Some image → IfOk result (λ cab. cab.items ≡ block_of site.now.block_size image (address_at manager.now index)) }
    ensures right { (image : List ℕ) → S.bytes src.old ≡ Some image → OnOk result (IsRightCab image site.now manager.now index) }
    ensures present { (image : List ℕ) → S.bytes src.old ≡ Some image → IfErr result (Tells (IsFaultOf image site.now manager.now) (IsInfoFeature image site.now manager.now)) }
    ensures long { IfOk result (λ cab. length cab.items ≡ site.now.block_size) }
    ensures cause { IsErrOf result ReadFault → Rose (S.faults src.old) (S.faults src.new) }
    ensures kept { IsKept S.bytes S.bytes_len S.faults src.old src.new }
    ensures reads { S.reads src.new ≤ S.reads src.old + 1 }
{
    let block = manager.address(index);
    let cab = match read_info(alloc, src, site, manager, kind::CHUNK_ADDRESSES, block) {
        Ok(cab) => cab,
        Err(stop) => return Err(stop),
    };
    let count = share(
        u64::from(manager.cibs()),
        u64::from(manager.cab_cibs()),
        u64::from(index),
    );
    if !has_count(&cab, index, count) {
        return Err(Stop::Found(SpaceFault::Cab { index }));
    }
    Ok(cab)
}

// Reads the chunk-info block of an index, which stands in a block.
fn read_cib<S: BlockSource>(
    alloc: Global,
    src: &mut S,
    site: &Site,
    manager: &Manager<'_>,
    index: u32,
    block: u64,
) -> Result<Vec<u8>, Stop<SpaceFault>>
    requires site { IsSiteFor site.now (S.bytes_len src.old) }
    ensures found { (image : List ℕ) → S.bytes src.old ≡ Some image → IfOk result (λ cib. cib.items ≡ block_of site.now.block_size image block) }
    ensures right { (image : List ℕ) → S.bytes src.old ≡ Some image → NamesCib image site.now manager.now index block → OnOk result (IsRightCib image site.now manager.now index) }
    ensures present { (image : List ℕ) → S.bytes src.old ≡ Some image → NamesCib image site.now manager.now index block → IfErr result (Tells (IsFaultOf image site.now manager.now) (IsInfoFeature image site.now manager.now)) }
    ensures long { IfOk result (λ cib. length cib.items ≡ site.now.block_size) }
    ensures cause { IsErrOf result ReadFault → Rose (S.faults src.old) (S.faults src.new) }
    ensures kept { IsKept S.bytes S.bytes_len S.faults src.old src.new }
    ensures reads { S.reads src.new ≤ S.reads src.old + 1 }
{
    let cib = match read_info(alloc, src, site, manager, kind::CHUNK_INFO, block) {
        Ok(cib) => cib,
        Err(stop) => return Err(stop),
    };
    let count = share(
        manager.chunks(),
        u64::from(manager.cib_chunks()),
        u64::from(index),
    );
    if !has_count(&cib, index, count) {
        return Err(Stop::Found(SpaceFault::Cib { index }));
    }
    Ok(cib)
}

// Puts so many addresses of a chunk-info address block after those of the blocks before.
#[tactic(auto, using(crate::proofs::Infos::addresses_more), unfolding(crate::specs::Blocks::cab_address_at))]
fn add_addresses(cab: &[u8], count: u64, cibs: &mut Vec<u64>) -> Result<(), Stop<SpaceFault>>
    requires { 40 + 8 * count ≤ length cab.now }
    ensures added { OnOk result (cibs.new.items ≡ cibs.old.items ++ map (cab_address_at cab.now) (range_with_len 0 count)) }
    ensures no_read { IsErrOf result ReadFault → ⊥ }
    ensures free { IfErr result IsFree }
{
    'addresses: for j in 0..count {
        let at = chunk_info::CAB_ADDRESSES + chunk_info::ADDRESS_LEN * j as usize;
        cibs.push(u64_at(cab, at))?;
    }
    Ok(())
}

/// Where the blocks that tell of chunks are, each kind by index.
#[derive(Drop)]
pub(crate) struct InfoBlocks {
    pub cabs: Vec<u64>,
    pub cibs: Vec<u64>,
}

// The chunk-info blocks whose addresses the manager has itself.
#[tactic(auto, using(crate::proofs::Infos::direct_more))]
fn direct(alloc: Global, site: &Site, manager: &Manager<'_>) -> Result<InfoBlocks, Stop<SpaceFault>>
    requires shaped { is_shaped site.now manager.now ≡ true }
    requires none { cabs_of manager.now ≡ 0 }
    ensures cabs { IfOk result (λ blocks. blocks.cabs.items ≡ cab_blocks manager.now) }
    ensures count { IfOk result (λ blocks. length blocks.cibs.items ≡ cibs_of manager.now) }
    ensures clear { (image : List ℕ) → IfOk result (λ blocks. AreNamed image site.now manager.now blocks.cibs.items) }
    ensures free { IfErr result IsFree }
    ensures no_read { IsErrOf result ReadFault → ⊥ }
{
    let cabs = Vec::new(alloc);
    let mut cibs = Vec::new(alloc);
    'cibs: for index in 0..manager.cibs() {
        cibs.push(manager.address(index))?;
    }
    Ok(InfoBlocks { cabs, cibs })
}

// The chunk-info address blocks, and the chunk-info blocks whose addresses these have.
fn by_cabs<S: BlockSource>(
    alloc: Global,
    src: &mut S,
    site: &Site,
    manager: &Manager<'_>,
) -> Result<InfoBlocks, Stop<SpaceFault>>
    requires site { IsSiteFor site.now (S.bytes_len src.old) }
    requires shaped { is_shaped site.now manager.now ≡ true }
    requires some { 1 ≤ cabs_of manager.now }
    ensures cabs { IfOk result (λ blocks. blocks.cabs.items ≡ cab_blocks manager.now) }
    ensures count { IfOk result (λ blocks. length blocks.cibs.items ≡ cibs_of manager.now) }
    ensures clear { (image : List ℕ) → S.bytes src.old ≡ Some image → IfOk result (λ blocks. AreNamed image site.now manager.now blocks.cibs.items) }
    ensures present { (image : List ℕ) → S.bytes src.old ≡ Some image → IfErr result (Tells (IsFaultOf image site.now manager.now) (IsInfoFeature image site.now manager.now)) }
    ensures cause { IsErrOf result ReadFault → Rose (S.faults src.old) (S.faults src.new) }
    ensures kept { IsKept S.bytes S.bytes_len S.faults src.old src.new }
    ensures reads { OnOk result (S.reads src.new ≤ S.reads src.old + cabs_of manager.now) }
{
    let mut cabs = Vec::new(alloc);
    let mut cibs = Vec::new(alloc);
    'cabs: for index in 0..manager.cabs() {
        let cab = match read_cab(alloc, src, site, manager, index) {
            Ok(cab) => cab,
            Err(stop) => return Err(stop),
        };
        let count = share(
            u64::from(manager.cibs()),
            u64::from(manager.cab_cibs()),
            u64::from(index),
        );
        add_addresses(&cab, count, &mut cibs)?;
        cabs.push(manager.address(index))?;
    }
    Ok(InfoBlocks { cabs, cibs })
}

/// Where the blocks that tell of chunks are: the address blocks are read and tested.
pub(crate) fn info_blocks<S: BlockSource>(
    alloc: Global,
    src: &mut S,
    site: &Site,
    manager: &Manager<'_>,
) -> Result<InfoBlocks, Stop<SpaceFault>>
    requires site { IsSiteFor site.now (S.bytes_len src.old) }
    requires shaped { is_shaped site.now manager.now ≡ true }
    ensures cabs { IfOk result (λ blocks. blocks.cabs.items ≡ cab_blocks manager.now) }
    ensures count { IfOk result (λ blocks. length blocks.cibs.items ≡ cibs_of manager.now) }
    ensures clear { (image : List ℕ) → S.bytes src.old ≡ Some image → IfOk result (λ blocks. AreNamed image site.now manager.now blocks.cibs.items) }
    ensures present { (image : List ℕ) → S.bytes src.old ≡ Some image → IfErr result (Tells (IsFaultOf image site.now manager.now) (IsInfoFeature image site.now manager.now)) }
    ensures cause { IsErrOf result ReadFault → Rose (S.faults src.old) (S.faults src.new) }
    ensures kept { IsKept S.bytes S.bytes_len S.faults src.old src.new }
    ensures reads { OnOk result (S.reads src.new ≤ S.reads src.old + cabs_of manager.now) }
{
    if manager.cabs() == 0 {
        direct(alloc, site, manager)
    } else {
        by_cabs(alloc, src, site, manager)
    }
}

/// The chunks, by number: the chunk-info blocks are read and tested, and each chunk is.
pub(crate) fn chunks<S: BlockSource>(
    alloc: Global,
    src: &mut S,
    site: &Site,
    manager: &Manager<'_>,
    cibs: &[u64],
) -> Result<Vec<Chunk>, Stop<SpaceFault>>
    requires site { IsSiteFor site.now (S.bytes_len src.old) }
    requires shaped { is_shaped site.now manager.now ≡ true }
    requires count { length cibs.now ≡ cibs_of manager.now }
    requires named { (image : List ℕ) → S.bytes src.old ≡ Some image → AreNamed image site.now manager.now cibs.now }
    ensures count { IfOk result (λ chunks. length chunks.items ≡ chunks_of manager.now) }
    ensures right { IfOk result (λ chunks. AreRight site.now manager.now chunks.items) }
    ensures found { (image : List ℕ) → S.bytes src.old ≡ Some image → IfOk result (λ chunks. chunks.items ≡ first_chunks image site.now manager.now (chunks_of manager.now)) }
    ensures clear { (image : List ℕ) → S.bytes src.old ≡ Some image → OnOk result ((i : ℕ) → i < cibs_of manager.now → IsRightCib image site.now manager.now i) }
    ensures present { (image : List ℕ) → S.bytes src.old ≡ Some image → IfErr result (Tells (IsFaultOf image site.now manager.now) (IsInfoFeature image site.now manager.now)) }
    ensures cause { IsErrOf result ReadFault → Rose (S.faults src.old) (S.faults src.new) }
    ensures kept { IsKept S.bytes S.bytes_len S.faults src.old src.new }
    ensures reads { OnOk result (S.reads src.new ≤ S.reads src.old + cibs_of manager.now) }
{
    let mut chunks = Vec::new(alloc);
    'cibs: for index in 0..manager.cibs() {
        let block = cibs[index as usize];
        let cib = match read_cib(alloc, src, site, manager, index, block) {
            Ok(cib) => cib,
            Err(stop) => return Err(stop),
        };
        match add_chunks(site, manager, index, &cib, &mut chunks) {
            Ok(()) => (),
            Err(stop) => return Err(stop),
        }
    }
    Ok(chunks)
}
