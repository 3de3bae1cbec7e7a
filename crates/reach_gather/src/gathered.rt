// What is gathered of a container on the way.

use crate::keeping::Noted;
use blk_source::NoMemory;
use omap_map::OmapRecord;
use reach_rules::{Naming, Owner, Who};
use std::alloc::Global;
use std::marker::Model;

/// Namings, and the owners of one block or more that are met through them. What a container has is noted in one list, and what its pool has in another.
#[derive(Drop)]
pub struct Gathered {
    pub(crate) noted: Vec<Noted>,
    pub(crate) pool: Vec<Noted>,
}

impl Model for Gathered {
    ghost use Rattle.std.specs.Prelude.{flat_map};
    ghost use Rattle.reach_gather.specs.Held.{Held};
    ghost use Rattle.reach_gather.specs.Kept.{namings_in, owners_in};

    ghost Value = { Held };

    ghost view = { λ a. record { namings = flat_map namings_in a.noted.items; owners = flat_map owners_in a.noted.items; pool_owners = flat_map owners_in a.pool.items } };
}

impl Gathered {
    ghost use Rattle.std.specs.Prelude.{◌≡◌, ◌++◌, ◌∷◌, [], ◌==◌, OnOk, OnErr, if◌then◌else◌};
    ghost use Rattle.reach_gather.specs.Kept.{namings_in, owners_in};
    ghost use Rattle.reach_rules.specs.Owners as spec;
    ghost use Rattle.reach_rules.specs.declared.owner.Who.TheVariants as who;
    ghost use Rattle.reach_gather.specs.Held.{some_owners};

    /// Nothing yet.
    pub fn new(alloc: Global) -> Gathered
        ensures namings { result.namings ≡ [] }
        ensures owners { result.owners ≡ [] }
        ensures pool_owners { result.pool_owners ≡ [] }
    {
        Gathered {
            noted: Vec::new(alloc),
            pool: Vec::new(alloc),
        }
    }

    // Puts what is noted after the rest.
    fn put(&mut self, one: Noted) -> Result<(), NoMemory>
        ensures namings { OnOk result (self.new.namings ≡ self.old.namings ++ namings_in one) }
        ensures owners { OnOk result (self.new.owners ≡ self.old.owners ++ owners_in one) }
        ensures pool_owners { self.new.pool_owners ≡ self.old.pool_owners }
        ensures err { OnErr result (self.new ≡ self.old) }
    {
        self.noted.push(one)?;
        Ok(())
    }

    // Puts what is noted of the pool after the rest.
    fn put_pool(&mut self, one: Noted) -> Result<(), NoMemory>
        ensures namings { self.new.namings ≡ self.old.namings }
        ensures owners { self.new.owners ≡ self.old.owners }
        ensures pool_owners { OnOk result (self.new.pool_owners ≡ self.old.pool_owners ++ owners_in one) }
        ensures err { OnErr result (self.new ≡ self.old) }
    {
        self.pool.push(one)?;
        Ok(())
    }

    /// A naming of an ephemeral object, which owns nothing.
    pub fn note_id(&mut self, naming: Naming) -> Result<(), NoMemory>
        ensures namings { OnOk result (self.new.namings ≡ self.old.namings ++ naming ∷ []) }
        ensures owners { self.new.owners ≡ self.old.owners }
        ensures pool_owners { self.new.pool_owners ≡ self.old.pool_owners }
    {
        self.put(Noted::Named(naming))
    }

    /// A naming of a physical object, which owns its block.
    pub fn note_block(&mut self, naming: Naming) -> Result<(), NoMemory>
        ensures namings { OnOk result (self.new.namings ≡ self.old.namings ++ naming ∷ []) }
        ensures owners { OnOk result (self.new.owners ≡ self.old.owners ++ spec.owner (who.Named naming) naming.oid 1 ∷ []) }
        ensures pool_owners { self.new.pool_owners ≡ self.old.pool_owners }
    {
        self.put(Noted::Block(naming))
    }

    /// A naming of a block that tells of chunks, which is the pool's.
    pub fn note_info(&mut self, naming: Naming) -> Result<(), NoMemory>
        ensures namings { OnOk result (self.new.namings ≡ self.old.namings ++ naming ∷ []) }
        ensures owners { self.new.owners ≡ self.old.owners }
        ensures pool_owners { OnOk result (self.new.pool_owners ≡ self.old.pool_owners ++ spec.owner (who.Named naming) naming.oid 1 ∷ []) }
    {
        self.put(Noted::Named(naming))?;
        self.put_pool(Noted::Block(naming))
    }

    /// A naming that resolves to the record of the object map in a block, which owns its block.
    pub fn note_record(
        &mut self,
        naming: Naming,
        map: u64,
        mapping: OmapRecord,
    ) -> Result<(), NoMemory>
        ensures namings { OnOk result (self.new.namings ≡ self.old.namings ++ naming ∷ []) }
        ensures owners { OnOk result (self.new.owners ≡ self.old.owners ++ spec.owner (who.Recorded map mapping) mapping.paddr 1 ∷ []) }
        ensures pool_owners { self.new.pool_owners ≡ self.old.pool_owners }
    {
        self.put(Noted::Named(naming))?;
        self.put(Noted::One(Owner {
            who: Who::Recorded(map, mapping),
            first: mapping.paddr,
            blocks: 1,
        }))
    }

    /// An owner, with its range; one without blocks isn't kept.
    pub fn tell(&mut self, owner: Owner) -> Result<(), NoMemory>
        ensures namings { self.new.namings ≡ self.old.namings }
        ensures owners { OnOk result (self.new.owners ≡ self.old.owners ++ (if owner.blocks == 0 then [] else owner ∷ [])) }
        ensures pool_owners { self.new.pool_owners ≡ self.old.pool_owners }
    {
        if owner.blocks == 0 {
            return Ok(());
        }
        self.put(Noted::One(owner))
    }

    /// An owner of the pool, with its range; one without blocks isn't kept.
    pub fn tell_pool(&mut self, owner: Owner) -> Result<(), NoMemory>
        ensures namings { self.new.namings ≡ self.old.namings }
        ensures owners { self.new.owners ≡ self.old.owners }
        ensures pool_owners { OnOk result (self.new.pool_owners ≡ self.old.pool_owners ++ (if owner.blocks == 0 then [] else owner ∷ [])) }
    {
        if owner.blocks == 0 {
            return Ok(());
        }
        self.put_pool(Noted::One(owner))
    }

    /// The owners of the ranges of which the object of a naming tells, each by its place.
    pub fn tell_those(&mut self, naming: Naming, ranges: Vec<(u64, u64)>) -> Result<(), NoMemory>
        ensures namings { self.new.namings ≡ self.old.namings }
        ensures owners { OnOk result (self.new.owners ≡ self.old.owners ++ some_owners (spec.told_from naming 0 ranges.items)) }
        ensures pool_owners { self.new.pool_owners ≡ self.old.pool_owners }
    {
        if ranges.is_empty() {
            return Ok(());
        }
        self.put(Noted::Those(naming, ranges))
    }

    /// The owners of the ranges of the pool of which the object of a naming tells, each by its place.
    pub fn tell_those_pool(
        &mut self,
        naming: Naming,
        ranges: Vec<(u64, u64)>,
    ) -> Result<(), NoMemory>
        ensures namings { self.new.namings ≡ self.old.namings }
        ensures owners { self.new.owners ≡ self.old.owners }
        ensures pool_owners { OnOk result (self.new.pool_owners ≡ self.old.pool_owners ++ some_owners (spec.told_from naming 0 ranges.items)) }
    {
        if ranges.is_empty() {
            return Ok(());
        }
        self.put_pool(Noted::Those(naming, ranges))
    }
}
