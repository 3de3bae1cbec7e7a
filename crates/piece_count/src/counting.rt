// How many blocks views have by pieces.
ghost use Rattle.std.specs.Prelude.{◌<◌, IfOk};
ghost use Rattle.piece_count.specs.Covered.{IsCount};

use crate::lone::{add_counts, count_lone, divide};
use crate::piece::{Holdings, by_first};
use crate::tally::Counts;
use apfs_model::NoMemory;
use std::alloc::Global;

/// How many blocks, of a container of so many, each of so many views has by pieces, how many no other has, and how many some view has.
/// Blocks and views beyond those aren't looked at. Time goes as the views of each set and of each piece that shares a block with
/// another, and as sorting the pieces; memory as sets and views.
///
/// # Errors
///
/// `NoMemory`: an allocation failed.
pub fn count(
    alloc: Global,
    mut held: Holdings,
    views: usize,
    blocks: u64,
) -> Result<Counts, NoMemory>
    requires { 0 < views }
    ensures { IfOk result (IsCount blocks views held) }
{
    by_first(&mut held.pieces);
    let mut all = divide(alloc, &held.sets, &held.pieces, views, blocks)?;
    let lone = count_lone(alloc, &held.sets, &all.lone, views, blocks)?;
    add_counts(&mut all.counts, &lone);
    Ok(all.counts)
}
