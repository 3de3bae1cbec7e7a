// How many objects are named.
ghost use Rattle.std.specs.Prelude.{◌≡◌, ℕ, ◌↔◌, ◌+◌, ◌++◌, ◌^◌, ◌<◌, map, filter, flat_map, option_to_list, length, OnOk, IfOk};
ghost use Rattle.apfs_model.specs.Apart.{Apart};
ghost use Rattle.apfs_model.specs.Counts.{given};
ghost use Rattle.apfs_model.specs.Lists.{In, Lists};
ghost use Rattle.omap_map.specs.declared.records.OmapRecord.{OmapRecord};
ghost use Rattle.reach_rules.specs.declared.naming.Naming.{Naming};
ghost use Rattle.reach_rules.specs.Tally.{IsNumberOf};
ghost use Rattle.reach_gather.specs.Finished.{is_look, id_of, IsIdOf, IsObjectOf};
ghost use Rattle.reach_gather.specs.Kept.{namings_in};

use crate::gathered::Gathered;
use crate::keeping::Noted;
use crate::once::is_look;
use id_lists::distinct;
use omap_map::OmapRecord;
use reach_rules::{LookUp, Naming};
use std::alloc::{AllocError, Global};

// Adds the id of a naming, where there is one that is looked up so.
fn add_id(naming: Option<Naming>, how: LookUp, out: &mut Vec<u64>) -> Result<(), AllocError>
    ensures { OnOk result (out.new.items ≡ out.old.items ++ map id_of (filter (λ (n : Naming). is_look n.how how) (option_to_list naming))) }
{
    let Some(naming) = naming else {
        return Ok(());
    };
    if is_look(naming.how, how) {
        out.push(naming.oid)?;
    }
    Ok(())
}

// The ids of the namings that are looked up so.
fn ids_of(alloc: Global, noted: &[Noted], how: LookUp) -> Result<Vec<u64>, AllocError>
    ensures { IfOk result (λ v. v.items ≡ map id_of (filter (λ (n : Naming). is_look n.how how) (flat_map namings_in noted.now))) }
{
    let mut out = Vec::new(alloc);
    for one in noted {
        add_id(one.naming(), how, &mut out)?;
    }
    Ok(out)
}

// The ids of the namings that are looked up so, each once.
fn ids_once(alloc: Global, noted: &[Noted], how: LookUp) -> Result<Vec<u64>, AllocError>
    ensures lists { IfOk result (λ v. Lists v.items (IsIdOf how (flat_map namings_in noted.now))) }
    ensures apart { IfOk result (λ v. Apart v.items) }
{
    let mut ids = ids_of(alloc, noted, how)?;
    distinct(&mut ids);
    Ok(ids)
}

// One more than three numbers together.
fn all_of(ids: usize, blocks: usize, records: usize) -> u64
    ensures { result ≡ given (1 + ids + blocks + records) }
{
    1u64.saturating_add(ids as u64)
        .saturating_add(blocks as u64)
        .saturating_add(records as u64)
}

impl Gathered {
    /// How many objects are named: the newest superblock, those of the blocks and of the ephemeral ids that are named, and those of
    /// the records, each once. The records, each with the block of its map, are left each once.
    pub fn objects(
        &self,
        alloc: Global,
        records: &mut Vec<(u64, OmapRecord)>,
    ) -> Result<u64, AllocError>
        ensures count { IfOk result (IsNumberOf (IsObjectOf self.now.namings records.old.items)) }
        ensures same { IfOk result (λ _. (m : ℕ × OmapRecord) → In m records.old.items ↔ In m records.new.items) }
        ensures few { length self.now.namings < 2 ^ 63 }
    {
        let ids = ids_once(alloc, &self.noted, LookUp::ByMapping)?;
        let blocks = ids_once(alloc, &self.noted, LookUp::ByBlock)?;
        distinct(records);
        Ok(all_of(ids.len(), blocks.len(), records.len()))
    }
}
