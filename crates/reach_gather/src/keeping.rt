// Namings and owners, as they are kept.
ghost use Rattle.std.specs.Prelude.{◌≡◌, ◌++◌, ◌==◌, ◌∷◌, [], map, flat_map, option_to_list, OnOk, IfOk, if◌then◌else◌};
ghost use Rattle.reach_rules.specs.declared.owner.Who.TheVariants as who;
ghost use Rattle.reach_rules.specs.Owners.{owner, told_from};
ghost use Rattle.reach_rules.specs.Reached.{range_of};
ghost use Rattle.reach_gather.specs.Held.{some_owners};
ghost use Rattle.reach_gather.specs.Kept.{namings_in, owners_in, some_ranges};

use reach_rules::{Naming, Owner, Who};
use std::alloc::{AllocError, Global};

/// What was noted of a container. A naming of a physical object says who owns its block, so it stands for both. Of the ranges of which an object
/// tells there may be millions, so each is kept as its range alone: who owns it is asked only where two ranges begin at one block.
#[derive(Drop)]
pub(crate) enum Noted {
    /// A naming through which nothing is owned.
    Named(Naming),
    /// A naming of a physical object, which owns its block.
    Block(Naming),
    /// An owner.
    One(Owner),
    /// The owners of the ranges of which the object of a naming tells.
    Those(Naming, Vec<(u64, u64)>),
}

// Adds a range, if it has a block.
fn add_range(range: (u64, u64), out: &mut Vec<(u64, u64)>) -> Result<(), AllocError>
    ensures { OnOk result (out.new.items ≡ out.old.items ++ some_ranges (range ∷ [])) }
{
    if range.1 == 0 {
        return Ok(());
    }
    out.push(range)?;
    Ok(())
}

// Adds the ranges that have a block.
fn add_ranges(ranges: &[(u64, u64)], out: &mut Vec<(u64, u64)>) -> Result<(), AllocError>
    ensures { OnOk result (out.new.items ≡ out.old.items ++ some_ranges ranges.now) }
{
    for range in ranges {
        add_range(*range, out)?;
    }
    Ok(())
}

// Adds an owner, if it has a block.
fn add_owner(owner: Owner, out: &mut Vec<Owner>) -> Result<(), AllocError>
    ensures { OnOk result (out.new.items ≡ out.old.items ++ (if owner.blocks == 0 then [] else owner ∷ [])) }
{
    if owner.blocks == 0 {
        return Ok(());
    }
    out.push(owner)?;
    Ok(())
}

// Adds the owners of the ranges of which the object of a naming tells.
fn add_told(naming: Naming, ranges: &[(u64, u64)], out: &mut Vec<Owner>) -> Result<(), AllocError>
    ensures { OnOk result (out.new.items ≡ out.old.items ++ some_owners (told_from naming 0 ranges.now)) }
{
    for i in 0..ranges.len() {
        let (first, blocks) = ranges[i];
        let who = Who::Told(naming, i as u64);
        add_owner(Owner { first, blocks, who }, out)?;
    }
    Ok(())
}

// The owner of the block of a physical object.
fn owner_of_block(naming: &Naming) -> Owner
    ensures { result ≡ owner (who.Named naming.now) naming.now.oid 1 }
{
    Owner {
        who: Who::Named(*naming),
        first: naming.oid,
        blocks: 1,
    }
}

impl Noted {
    // Adds their ranges.
    fn add_ranges(&self, out: &mut Vec<(u64, u64)>) -> Result<(), AllocError>
        ensures { OnOk result (out.new.items ≡ out.old.items ++ map range_of (owners_in self.now)) }
    {
        match self {
            Noted::Named(_) => Ok(()),
            Noted::Block(naming) => {
                out.push((naming.oid, 1))?;
                Ok(())
            }
            Noted::One(owner) => {
                out.push((owner.first, owner.blocks))?;
                Ok(())
            }
            Noted::Those(_, ranges) => add_ranges(ranges.as_slice(), out),
        }
    }

    // Adds them, each for itself.
    fn add_owners(&self, out: &mut Vec<Owner>) -> Result<(), AllocError>
        ensures { OnOk result (out.new.items ≡ out.old.items ++ owners_in self.now) }
    {
        match self {
            Noted::Named(_) => Ok(()),
            Noted::Block(naming) => {
                out.push(owner_of_block(naming))?;
                Ok(())
            }
            Noted::One(owner) => {
                out.push(*owner)?;
                Ok(())
            }
            Noted::Those(naming, ranges) => add_told(*naming, ranges.as_slice(), out),
        }
    }

    /// The naming, where it is one.
    pub(crate) fn naming(&self) -> Option<Naming>
        ensures { option_to_list result ≡ namings_in self.now }
    {
        match self {
            Noted::Named(naming) => Some(*naming),
            Noted::Block(naming) => Some(*naming),
            Noted::One(_) => None,
            Noted::Those(_, _) => None,
        }
    }
}

/// The ranges of owners, in their order.
pub(crate) fn ranges_of(alloc: Global, kept: &[Noted]) -> Result<Vec<(u64, u64)>, AllocError>
    ensures { IfOk result (λ v. v.items ≡ map range_of (flat_map owners_in kept.now)) }
{
    let mut out = Vec::new(alloc);
    for one in kept {
        one.add_ranges(&mut out)?;
    }
    Ok(out)
}

/// The owners, in their order.
pub(crate) fn owners_of(alloc: Global, kept: &[Noted]) -> Result<Vec<Owner>, AllocError>
    ensures { IfOk result (λ v. v.items ≡ flat_map owners_in kept.now) }
{
    let mut out = Vec::new(alloc);
    for one in kept {
        one.add_owners(&mut out)?;
    }
    Ok(out)
}
