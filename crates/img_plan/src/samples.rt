// The plans that tests start from, made: a module for each image.
ghost use Rattle.std.specs.Prelude.{◌≡◌, IfOk, vec_len};
ghost use Rattle.img_plan.specs.declared.which.Sample.TheVariants.{S};
ghost use Rattle.img_plan.specs.Plans.{IsSmall, IsValid};
ghost use Rattle.img_plan.specs.Samples.{volumes_of};

mod common;
mod jump;
mod links;
mod small;
mod snapshots;
mod streams;
mod two;

use crate::checked::checked;
use crate::plan::{Plan, VolPlan};
use crate::which::Sample;
use apfs_model::NoMemory;
use common::container;
use std::alloc::{AllocError, Global};
use streams::{HELLO, HOLE, SHARED, volume_with};

// The plan of two volumes.
fn two_volumes(alloc: Global) -> Result<Plan, AllocError>
    ensures valid { IfOk result IsValid }
    ensures blocks { IfOk result (λ plan. plan.blocks ≡ 256) }
    ensures two_volumes { IfOk result (λ plan. vec_len plan.volumes ≡ 2) }
{
    checked(two::two(alloc)?)
}

// The volume of a sample of one.
fn volume(alloc: Global, which: Sample) -> Result<VolPlan, AllocError> {
    match which {
        Sample::S | Sample::J | Sample::T => small::small_volume(alloc),
        Sample::H => volume_with(alloc, &HELLO),
        Sample::P => volume_with(alloc, &HOLE),
        Sample::C => volume_with(alloc, &SHARED),
        Sample::V => snapshots::volume_with(alloc, snapshots::TWO),
        Sample::V2 => snapshots::volume_with(alloc, snapshots::EIGHT),
        Sample::L => links::links(alloc),
    }
}

// The checkpoint's transaction: that of the volume's last version, or the next one where that is a snapshot.
fn xid(which: Sample) -> u64 {
    match which {
        Sample::V => 5,
        Sample::V2 => 9,
        _ => 1,
    }
}

// The plan of a sample of one volume.
fn one_volume(alloc: Global, which: Sample) -> Result<Plan, AllocError>
    ensures valid { IfOk result IsValid }
    ensures blocks { IfOk result (λ plan. plan.blocks ≡ 256) }
    ensures one_volume { IfOk result (λ plan. vec_len plan.volumes ≡ 1) }
{
    let plan = match which {
        Sample::J => jump::jump(alloc),
        _ => container(alloc, xid(which), volume(alloc, which)?),
    };
    checked(plan?)
}

/// The plan of a sample, which `make` takes: a container of 256 blocks with times of 0.
pub fn sample(alloc: Global, which: Sample) -> Result<Plan, NoMemory>
    ensures valid { IfOk result IsValid }
    ensures blocks { IfOk result (λ plan. plan.blocks ≡ 256) }
    ensures volumes { IfOk result (λ plan. vec_len plan.volumes ≡ volumes_of which) }
    ensures small { which ≡ S → IfOk result IsSmall }
{
    let plan = match which {
        Sample::S => small::small(alloc),
        Sample::T => two_volumes(alloc),
        Sample::H | Sample::V | Sample::V2 | Sample::L | Sample::P | Sample::C | Sample::J =>
            one_volume(alloc, which),
    };
    match plan {
        Ok(plan) => Ok(plan),
        Err(_) => Err(NoMemory),
    }
}
