// Faults that the facts of a view show, in a module for each group of rules.
ghost use Rattle.std.specs.Prelude.{◌≡◌, IfOk};
ghost use Rattle.rule_breaks.specs.Faults as spec;

mod by_inode;
pub mod counts;
pub mod directories;
pub mod entries;
pub mod extents;
pub mod inodes;
pub mod names;
pub mod siblings;
pub mod ways;

use apfs_model::Bytes;
use blk_source::NoMemory;
use ext_ref::NewRange;
use obj_base::Site;
use std::alloc::Global;
use view_rules::{IdAt, NamedAt, Profile, TreeFault};
use vol_view::View;

/// Of which view the facts are, and what they are tested against.
#[derive(Clone, Copy)]
pub struct Asked<'a> {
    pub view: &'a View,
    pub site: &'a Site,
    /// The new ranges of the volume and of its snapshots.
    pub ranges: &'a [NewRange],
    pub profile: Profile,
}

// An object of a view.
fn id_at(view: &View, id: u64) -> IdAt
    ensures { result ≡ spec.id_at view.now id }
{
    IdAt {
        slot: view.slot,
        xid: view.xid,
        id,
    }
}

// The first of two faults, where memory was enough for both.
fn either(
    one: Result<Option<TreeFault>, NoMemory>,
    other: Result<Option<TreeFault>, NoMemory>,
) -> Result<Option<TreeFault>, NoMemory>
    ensures { result ≡ spec.either one other }
{
    let one = one?;
    let other = other?;
    Ok(one.or(other))
}

// A name of an object of a view.
fn named_at(alloc: Global, view: &View, id: u64, name: &str) -> Result<NamedAt, NoMemory>
    ensures { IfOk result (λ at. at ≡ spec.named_at view.now id name.now) }
{
    let name = Bytes::from_slice(alloc, name.as_bytes())?;
    Ok(NamedAt {
        slot: view.slot,
        xid: view.xid,
        id,
        name,
    })
}
