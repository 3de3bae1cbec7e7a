// Putting an extent after those that come before it in a stream.
ghost use Rattle.std.specs.Prelude.{◌≡◌, ◌++◌, ◌-◌, ◌<◌, ◌≤◌, ℕ, [], ◌∷◌, true, length, slice_get, Some, IfOk, IfErr, OnOk, IsTrue, MatchBool};
ghost use Rattle.obj_base.specs.declared.stop.Stop.TheVariants.{NoMemory};
ghost use Rattle.obj_base.specs.BlockSize.{is_accepted};
ghost use Rattle.fs_record.specs.StreamExtents.{extent_end, is_extent_even, is_extent_placed};
ghost use Rattle.fs_record.specs.declared.extents.FileExt.{FileExt};
ghost use Rattle.file_extent.specs.Laid.{AreLaid};
ghost use Rattle.file_extent.specs.Collected.{IsAddStop, IsMisordered, Follow};

use crate::StreamStop;
use fs_record::FileExt;
use obj_base::{Site, Stop};

// The greatest size of a stream in bytes (Data Streams, j_file_extent_val_t).
const MOST: u64 = 1 << 63;

// Whether an extent has a length, starts and ends at multiples of the block size, and ends at 2^63 at most.
#[tactic(auto, unfolding(fs_record::specs::StreamExtents::is_extent_even))]
fn is_even(site: &Site, extent: &FileExt) -> bool
    requires { is_accepted site.now.block_size ≡ true }
    ensures { result ≡ is_extent_even site.now.block_size extent.now }
{
    let size = site.block_size as u64;
    if extent.length == 0 || size * (extent.length / size) != extent.length {
        return false;
    }
    if size * (extent.logical / size) != extent.logical {
        return false;
    }
    extent.logical <= MOST && extent.length <= MOST - extent.logical
}

// Whether an extent is a hole, or its blocks lie in the container.
#[tactic(auto, unfolding(fs_record::specs::StreamExtents::is_extent_placed))]
fn is_placed(site: &Site, extent: &FileExt) -> bool
    requires size { is_accepted site.now.block_size ≡ true }
    requires fits { extent.now.length ≤ 9223372036854775808 }
    ensures { result ≡ is_extent_placed site.now.block_size site.now.blocks extent.now }
{
    if extent.block == 0 {
        return true;
    }
    let size = site.block_size as u64;
    let blocks = (extent.length + (size - 1)) / size;
    extent.block < MOST && blocks <= site.blocks && extent.block <= site.blocks - blocks
}

// Where an extent begins by the last of those before it.
enum Follows {
    // Where that one ends, or later.
    After,
    // The two have a byte in common.
    Over,
    // It ends where that one begins, or earlier.
    Before,
}

// How an extent follows those before it.
#[tactic(auto, using(crate::proofs::Lays::follows_none, crate::proofs::Lays::follows_after, crate::proofs::Lays::follows_over, crate::proofs::Lays::follows_before))]
fn follow(extents: &[FileExt], extent: &FileExt) -> Follows
    requires some { 0 < extent.now.length }
    requires ends { (e : FileExt) → slice_get extents.now (length extents.now - 1) ≡ Some e → (0 < e.length) × (extent_end e < 18446744073709551616) }
    requires end { extent_end extent.now < 18446744073709551616 }
    ensures { Follow extents.now extent.now result }
{
    match extents.last() {
        None => Follows::After,
        Some(last) => {
            if last.logical + last.length <= extent.logical {
                return Follows::After;
            }
            if last.logical < extent.logical + extent.length {
                return Follows::Over;
            }
            Follows::Before
        }
    }
}

// Puts an extent after the last one.
fn push(extents: &mut Vec<FileExt>, extent: FileExt) -> Result<(), Stop<StreamStop>>
    ensures put { OnOk result (extents.new.items ≡ extents.old.items ++ extent ∷ []) }
    ensures memory { IfErr result (λ stop. stop ≡ NoMemory) }
{
    extents.push(extent)?;
    Ok(())
}

/// Puts an extent after those before it. False where it begins before the last of them and has no byte in common with it,
/// which is so in no tree whose records are in order.
pub(crate) fn lay(
    site: &Site,
    extents: &mut Vec<FileExt>,
    extent: FileExt,
) -> Result<bool, Stop<StreamStop>>
    requires size { is_accepted site.now.block_size ≡ true }
    requires laid { AreLaid site.now extents.old.items }
    ensures put { IfOk result (λ more. MatchBool more (extents.new.items ≡ extents.old.items ++ extent ∷ []) (IsMisordered extents.old.items extent)) }
    ensures laid { IfOk result (λ more. IsTrue more → AreLaid site.now extents.new.items) }
    ensures present { IfErr result (IsAddStop site.now (extents.old.items ++ extent ∷ [])) }
{
    if !is_even(site, &extent) {
        return Err(Stop::Found(StreamStop::Order));
    }
    if !is_placed(site, &extent) {
        return Err(Stop::Found(StreamStop::Outside));
    }
    match follow(extents, &extent) {
        Follows::After => {
            push(extents, extent)?;
            Ok(true)
        }
        Follows::Over => Err(Stop::Found(StreamStop::Order)),
        Follows::Before => Ok(false),
    }
}
