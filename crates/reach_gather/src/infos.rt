// The blocks that tell of chunks, and the bitmaps of chunks.
ghost use Rattle.std.specs.Prelude.{◌≡◌, ◌++◌, ◌==◌, map, slice_index, OnOk, if◌then◌else◌};
ghost use Rattle.space_map.specs.Fields.{cabs_of, cibs_of, addresses_of};
ghost use Rattle.reach_rules.specs.declared.owner.Who.TheVariants.{Bitmap};
ghost use Rattle.reach_rules.specs.Owners.{owner};
ghost use Rattle.reach_gather.specs.Infos.{room_of, known_cab, known_cib, known_cabs, known_cibs, bitmaps_from};
ghost use Rattle.reach_gather.specs.Steps.{block_owner};

use crate::Gathered;
use apfs_layout::{chunk_info, space_manager as layout};
use blk_source::NoMemory;
use obj_base::u32_at;
use reach_rules::{Expected, LookUp, Namer, Naming, Object, Owner, Who};
use space_map::{Chunk, Space};

// The number at an index, 0 past the end.
fn item(numbers: &[u64], i: u32) -> u64
    ensures { result ≡ slice_index numbers.now i }
{
    let i = i as usize;
    if i < numbers.len() { numbers[i] } else { 0 }
}

// How many chunk-info address blocks there are.
#[tactic(auto, unfolding(space_map::specs::Fields::cabs_of))]
fn cabs(space: &Space) -> u32
    ensures { result ≡ cabs_of space.now.manager }
{
    u32_at(space.manager(), layout::MAIN_CABS)
}

// How many chunk-info blocks there are.
#[tactic(auto, unfolding(space_map::specs::Fields::cibs_of))]
fn cibs(space: &Space) -> u32
    ensures { result ≡ cibs_of space.now.manager }
{
    u32_at(space.manager(), layout::MAIN_CIBS)
}

// Where the manager's addresses begin.
#[tactic(auto, unfolding(space_map::specs::Fields::addresses_of))]
fn addresses(space: &Space) -> u32
    ensures { result ≡ addresses_of space.now.manager }
{
    u32_at(space.manager(), layout::MAIN_ADDRESSES)
}

// How many chunk-info blocks an address block names, at least one.
#[tactic(auto, unfolding(space_map::specs::Fields::cab_cibs_of))]
fn room(space: &Space) -> u32
    ensures { result ≡ room_of space.now.manager }
{
    let most = u32_at(space.manager(), layout::CIBS_PER_CAB);
    if most == 0 { 1 } else { most }
}

// The naming of a chunk-info address block.
fn cab(space: &Space, oid: u64, i: u32) -> Naming
    ensures { result ≡ known_cab oid space.now i }
{
    Naming {
        namer: Namer::Whole(Object::OfId(oid)),
        at: u64::from(addresses(space)) + 8 * u64::from(i),
        expected: Expected::AddressBlock(u64::from(i)),
        how: LookUp::ByBlock,
        oid: item(space.cabs(), i),
    }
}

// The naming of a chunk-info block.
fn cib(space: &Space, oid: u64, i: u32) -> Naming
    ensures { result ≡ known_cib oid space.now i }
{
    let block = item(space.cibs(), i);
    if cabs(space) == 0 {
        return Naming {
            namer: Namer::Whole(Object::OfId(oid)),
            at: u64::from(addresses(space)) + 8 * u64::from(i),
            expected: Expected::InfoBlock(u64::from(i)),
            how: LookUp::ByBlock,
            oid: block,
        };
    }
    let room = room(space);
    Naming {
        namer: Namer::Whole(Object::InBlock(item(space.cabs(), i / room))),
        at: chunk_info::CAB_ADDRESSES as u64 + 8 * u64::from(i % room),
        expected: Expected::InfoBlock(u64::from(i)),
        how: LookUp::ByBlock,
        oid: block,
    }
}

// The chunk-info address blocks.
fn note_cabs(space: &Space, oid: u64, out: &mut Gathered) -> Result<(), NoMemory>
    ensures namings { OnOk result (out.new.namings ≡ out.old.namings ++ known_cabs oid space.now) }
    ensures owners { out.new.owners ≡ out.old.owners }
    ensures pool_owners { OnOk result (out.new.pool_owners ≡ out.old.pool_owners ++ map block_owner (known_cabs oid space.now)) }
{
    for i in 0..cabs(space) {
        out.note_info(cab(space, oid, i))?;
    }
    Ok(())
}

// The chunk-info blocks.
fn note_cibs(space: &Space, oid: u64, out: &mut Gathered) -> Result<(), NoMemory>
    ensures namings { OnOk result (out.new.namings ≡ out.old.namings ++ known_cibs oid space.now) }
    ensures owners { out.new.owners ≡ out.old.owners }
    ensures pool_owners { OnOk result (out.new.pool_owners ≡ out.old.pool_owners ++ map block_owner (known_cibs oid space.now)) }
{
    for i in 0..cibs(space) {
        out.note_info(cib(space, oid, i))?;
    }
    Ok(())
}

// The bitmap of the chunk of a number, without blocks where it has none.
fn bitmap(chunk: &Chunk, i: u64) -> Owner
    ensures { result ≡ owner (Bitmap i) chunk.now.bitmap (if chunk.now.bitmap == 0 then 0 else 1) }
{
    Owner {
        who: Who::Bitmap(i),
        first: chunk.bitmap,
        blocks: if chunk.bitmap == 0 { 0 } else { 1 },
    }
}

// The bitmaps of the chunks that have one.
fn tell_bitmaps(space: &Space, out: &mut Gathered) -> Result<(), NoMemory>
    ensures namings { out.new.namings ≡ out.old.namings }
    ensures owners { out.new.owners ≡ out.old.owners }
    ensures pool_owners { OnOk result (out.new.pool_owners ≡ out.old.pool_owners ++ bitmaps_from 0 space.now.chunks) }
{
    let chunks = space.chunks();
    for i in 0..chunks.len() {
        out.tell_pool(bitmap(&chunks[i], i as u64))?;
    }
    Ok(())
}

/// The blocks that tell of chunks, by the space manager of an id, with the bitmaps of the chunks of which they tell.
pub(crate) fn note_space(space: &Space, oid: u64, out: &mut Gathered) -> Result<(), NoMemory>
    ensures namings { OnOk result (out.new.namings ≡ (out.old.namings ++ known_cabs oid space.now) ++ known_cibs oid space.now) }
    ensures owners { out.new.owners ≡ out.old.owners }
    ensures pool_owners { OnOk result (out.new.pool_owners ≡ ((out.old.pool_owners ++ map block_owner (known_cabs oid space.now)) ++ map block_owner (known_cibs oid space.now)) ++ bitmaps_from 0 space.now.chunks) }
{
    note_cabs(space, oid, out)?;
    note_cibs(space, oid, out)?;
    tell_bitmaps(space, out)
}
