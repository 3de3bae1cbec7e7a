// Checkpoint maps and their mappings.
//
// Tests: a block is a sound checkpoint map whose mappings fit. Gives: its mappings. Rests on: `sound`.
ghost use Rattle.std.specs.Prelude.{◌≡◌, ◌+◌, ◌*◌, ◌≤◌, ◌++◌, length, true, OnOk, IfErr};
ghost use Rattle.obj_base.specs.BlockSize as sizes;
ghost use Rattle.obj_base.specs.declared.stop.Stop.TheVariants.{NoMemory};
ghost use Rattle.nx_ring.specs.Mappings as maps;

use crate::RingFault;
use apfs_layout::{checkpoint_map, kind};
use obj_base::{Expect, Stop, sound, u32_at, u64_at};

/// A mapping of an ephemeral object: its type, its size in bytes, its oid and its first block.
#[derive(Clone, Copy, PartialEq, Eq)]
pub struct Mapping {
    pub type_bits: u32,
    pub size: u32,
    pub oid: u64,
    pub paddr: u64,
}

// The mapping at byte `at` of a checkpoint map.
#[tactic(auto, unfolding(crate::specs::Mappings::mapping_at))]
fn mapping_at(bytes: &[u8], at: usize) -> Mapping
    requires { at + 40 ≤ length bytes.now }
    ensures { result ≡ maps.mapping_at bytes.now at }
{
    Mapping {
        type_bits: u32_at(bytes, at + checkpoint_map::MAPPING_TYPE),
        size: u32_at(bytes, at + checkpoint_map::MAPPING_SIZE),
        oid: u64_at(bytes, at + checkpoint_map::MAPPING_OID),
        paddr: u64_at(bytes, at + checkpoint_map::MAPPING_PADDR),
    }
}

// Whether a block is a sound checkpoint map of a transaction of at most `xid`, whose mappings fit.
#[tactic(auto, unfolding(crate::specs::Mappings::is_map, crate::specs::Mappings::has_count, crate::specs::Mappings::map_count_of))]
pub(crate) fn is_map(block: u64, xid: u64, bytes: &[u8]) -> bool
    requires { sizes.is_accepted (length bytes.now) ≡ true }
    ensures decides { result ≡ maps.is_map block xid bytes.now }
    ensures counted { result ≡ true → maps.has_count bytes.now ≡ true }
{
    let expect = Expect {
        kind: kind::CHECKPOINT_MAP,
        subtype: None,
        oid: Some(block),
        max_xid: xid,
    };
    match sound(bytes, &expect) {
        Ok(_) => {
            let count = u32_at(bytes, checkpoint_map::COUNT) as usize;
            checkpoint_map::MAPPINGS + checkpoint_map::MAPPING_LEN * count <= bytes.len()
        }
        Err(_) => false,
    }
}

// Adds the mappings of a checkpoint map.
pub(crate) fn add_mappings(bytes: &[u8], into: &mut Vec<Mapping>) -> Result<(), Stop<RingFault>>
    requires fits { maps.has_count bytes.now ≡ true }
    requires long { 40 ≤ length bytes.now }
    ensures added { OnOk result (into.new.items ≡ into.old.items ++ maps.mappings_in bytes.now) }
    ensures memory_only { IfErr result (λ stop. stop ≡ NoMemory) }
{
    'mappings: for i in 0..u32_at(bytes, checkpoint_map::COUNT) as usize {
        let at = checkpoint_map::MAPPINGS + checkpoint_map::MAPPING_LEN * i;
        into.push(mapping_at(bytes, at))?;
    }
    Ok(())
}
