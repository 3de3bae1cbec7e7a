// The pieces of the blocks that a view holds.
ghost use Rattle.std.specs.Prelude.{◌≡◌, ◌<◌, ◌==◌, ℕ, List, map, Some, false, true, OnOk, IfOk, IfErr, IsErrOf, IsTrue};
ghost use Rattle.apfs_model.specs.Counts.{Rose};
ghost use Rattle.apfs_model.specs.Lists.{In};
ghost use Rattle.apfs_model.specs.Kept.{IsKept};
ghost use Rattle.obj_base.specs.Site.{IsSiteFor};
ghost use Rattle.obj_base.specs.Stops.{Tells, IsFree, raised};
ghost use Rattle.obj_base.specs.declared.stop.Stop.TheVariants.{ReadFault};
ghost use Rattle.fs_record.specs.StreamExtents.{is_extent_placed};
ghost use Rattle.fs_record.specs.declared.extents.FileExt as stored;
ghost use Rattle.vol_view.specs.Views.{view_named, IsViewFeature};
ghost use Rattle.ext_ref.specs.Scanned.{blocks_by, IsExtFeature, is_right_tree};
ghost use Rattle.use_report.specs.Counted.{Grows};
ghost use Rattle.use_report.specs.Faults.{IsUseFaultIn};
ghost use Rattle.use_report.specs.Stops.{IsUseFeatureIn};
ghost use Rattle.use_report.specs.Files.{IsNamedBlock, IsOfExtent, IsCoveredBlock, IsMetadataBlock, LeavesOne};
ghost use Rattle.use_report.specs.Holding.{of_gather, of_extents, AddsFiles, IsFilesFault, AreRightFiles, AddsReferences, IsReferencesFault, IsHoldingOf, IsRightView};

use crate::UseFault;
use crate::files::walk_files;
use crate::kept::KeptView;
use crate::pieces::Pieces;
use apfs_model::NoMemory;
use blk_source::BlockSource;
use bt_cursor::{GatherFault, Namer, Step};
use ext_ref::{ExtScan, ExtStop, scan};
use fs_record::FileExt;
use obj_base::{Site, Stop};
use omap_map::At;
use std::alloc::Global;
use vol_view::{View, Volume};

// A first block of 2^63 or more is a negative one (General-Purpose Types, `prange_t`).
const NEGATIVE: u64 = 1 << 63;

// Adds the block that an id names in a view, where it names one.
fn add_named(
    held: &mut Pieces,
    volume: &Volume,
    view: &View,
    site: &Site,
    oid: u64,
) -> Result<(), NoMemory>
    ensures { OnOk result (Grows held.old held.new (λ block. view_named site.now volume.now view.now oid ≡ Some block)) }
{
    let namer = At {
        omap: &volume.omap,
        xid: view.xid,
        blocks: site.blocks,
    };
    match namer.block(oid) {
        Some(block) => held.add(block, 1),
        None => Ok(()),
    }
}

// The same for each of some ids.
fn add_nodes(
    held: &mut Pieces,
    volume: &Volume,
    view: &View,
    site: &Site,
    oids: &[u64],
) -> Result<(), NoMemory>
    ensures { OnOk result (Grows held.old held.new (IsNamedBlock site.now volume.now view.now oids.now)) }
{
    'oids: for oid in oids {
        add_named(held, volume, view, site, *oid)?;
    }
    Ok(())
}

// Adds the block of a view's extended metadata, where there are some.
fn add_metadata(
    held: &mut Pieces,
    volume: &Volume,
    kept: &KeptView,
    site: &Site,
) -> Result<(), NoMemory>
    ensures { OnOk result (Grows held.old held.new (IsMetadataBlock site.now volume.now kept.now)) }
{
    if kept.meta_ext == 0 {
        return Ok(());
    }
    add_named(held, volume, &kept.view, site, kept.meta_ext)
}

// Adds the children of some steps.
fn add_children(held: &mut Pieces, steps: &[Step]) -> Result<(), NoMemory>
    ensures { OnOk result (Grows held.old held.new (λ block. In block (map (λ step. step.child) steps.now))) }
{
    'each: for step in steps {
        held.add(step.child, 1)?;
    }
    Ok(())
}

// Adds the nodes of a tree by its root and its steps; none where the root is 0, since there is no tree then.
fn add_tree(held: &mut Pieces, root: u64, steps: &[Step]) -> Result<(), NoMemory>
    ensures { OnOk result (Grows held.old held.new (λ block. In block (blocks_by root steps.now))) }
{
    if root == 0 {
        return Ok(());
    }
    held.add(root, 1)?;
    add_children(held, steps)?;
    Ok(())
}

// Whether an extent that is no hole lies in the container.
#[tactic(auto, unfolding(fs_record::specs::StreamExtents::is_extent_placed))]
fn is_placed(site: &Site, extent: FileExt) -> bool
    requires size { 0 < site.now.block_size }
    requires some { (extent.block == 0) ≡ false }
    ensures { result ≡ is_extent_placed site.now.block_size site.now.blocks extent }
{
    if extent.block >= NEGATIVE {
        return false;
    }
    u128::from(extent.block) + u128::from(extent.blocks(site.block_size)) <= u128::from(site.blocks)
}

// Adds the blocks of an extent, unless it is a hole; false where it leaves the container.
pub(crate) fn add_extent(held: &mut Pieces, site: &Site, extent: FileExt) -> Result<bool, NoMemory>
    requires { 0 < site.now.block_size }
    ensures placed { IfOk result (λ placed. placed ≡ is_extent_placed site.now.block_size site.now.blocks extent) }
    ensures added { IfOk result (λ placed. IsTrue placed → Grows held.old held.new (IsOfExtent site.now extent)) }
{
    if extent.block == 0 {
        return Ok(true);
    }
    if !is_placed(site, extent) {
        return Ok(false);
    }
    held.add(extent.block, extent.blocks(site.block_size))?;
    Ok(true)
}

// The same for each of some extents; false where one of them leaves the container.
fn add_extents(held: &mut Pieces, site: &Site, extents: &[FileExt]) -> Result<bool, NoMemory>
    requires { 0 < site.now.block_size }
    ensures leaves { IfOk result (λ placed. placed ≡ false → LeavesOne site.now extents.now) }
    ensures added { IfOk result (λ placed. IsTrue placed → Grows held.old held.new (IsCoveredBlock site.now extents.now)) }
    ensures inside { IfOk result (λ placed. IsTrue placed → (e : stored.FileExt) → In e extents.now → is_extent_placed site.now.block_size site.now.blocks e ≡ true) }
{
    'extents: for extent in extents {
        let placed = add_extent(held, site, *extent)?;
        if !placed {
            return Ok(false);
        }
    }
    Ok(true)
}

// Why a view's files can't be gone through, said of the view.
fn of_files(xid: u64, stop: Stop<GatherFault>) -> Stop<UseFault>
    ensures { result ≡ raised (of_gather xid) stop }
{
    stop.map(|fault| match fault {
        GatherFault::Tree(why) => UseFault::Walk { xid, why },
        GatherFault::Refused { item } => UseFault::Value { xid, item },
    })
}

// Why a view's extent references can't be gone through, said of the view.
fn of_references(xid: u64, stop: Stop<ExtStop>) -> Stop<UseFault>
    ensures { result ≡ raised (of_extents xid) stop }
{
    stop.map(|fault| match fault {
        ExtStop::Walk(why) => UseFault::Walk { xid, why },
        ExtStop::Value { item } => UseFault::Value { xid, item },
    })
}

// Adds the nodes of a view's files, and the blocks of its extents.
fn add_files<S: BlockSource>(
    alloc: Global,
    src: &mut S,
    volume: &Volume,
    view: &View,
    site: &Site,
    held: &mut Pieces,
) -> Result<(), Stop<UseFault>>
    requires site { IsSiteFor site.now (S.bytes_len src.old) }
    ensures added { (image : List ℕ) → S.bytes src.old ≡ Some image → OnOk result (AddsFiles image site.now volume.now view.now held.old held.new) }
    ensures present { (image : List ℕ) → S.bytes src.old ≡ Some image → IfErr result (Tells (IsFilesFault image site.now volume.now view.now) (IsViewFeature image site.now volume.now view.now)) }
    ensures exact { (image : List ℕ) → S.bytes src.old ≡ Some image → AreRightFiles image site.now volume.now view.now → IfErr result IsFree }
    ensures cause { IsErrOf result ReadFault → Rose (S.faults src.old) (S.faults src.new) }
    ensures kept { IsKept S.bytes S.bytes_len S.faults src.old src.new }
{
    let files = match walk_files(alloc, src, volume, view, site) {
        Ok(files) => files,
        Err(stop) => return Err(of_files(view.xid, stop)),
    };
    add_named(held, volume, view, site, view.root_oid)?;
    add_nodes(held, volume, view, site, &files.below)?;
    let placed = add_extents(held, site, &files.extents)?;
    if !placed {
        return Err(Stop::Found(UseFault::Outside { xid: view.xid }));
    }
    Ok(())
}

// Adds the nodes of a view's extent reference tree.
pub(crate) fn add_references<S: BlockSource>(
    alloc: Global,
    src: &mut S,
    kept: &KeptView,
    site: &Site,
    held: &mut Pieces,
) -> Result<(), Stop<UseFault>>
    requires site { IsSiteFor site.now (S.bytes_len src.old) }
    ensures added { (image : List ℕ) → S.bytes src.old ≡ Some image → OnOk result (AddsReferences image site.now kept.now held.old held.new) }
    ensures present { (image : List ℕ) → S.bytes src.old ≡ Some image → IfErr result (Tells (IsReferencesFault image site.now kept.now) (IsExtFeature image site.now kept.now.extents_root)) }
    ensures exact { (image : List ℕ) → S.bytes src.old ≡ Some image → is_right_tree image site.now kept.now.extents_root ≡ true → IfErr result IsFree }
    ensures cause { IsErrOf result ReadFault → Rose (S.faults src.old) (S.faults src.new) }
    ensures kept { IsKept S.bytes S.bytes_len S.faults src.old src.new }
{
    match scan(alloc, src, kept.extents_root, site) {
        Ok(ExtScan { steps, ranges: _ }) => {
            add_tree(held, kept.extents_root, &steps)?;
            Ok(())
        }
        Err(stop) => Err(of_references(kept.view.xid, stop)),
    }
}

// Adds the block of a snapshot's superblock, where the view is a snapshot's.
pub(crate) fn add_super(held: &mut Pieces, kept: &KeptView) -> Result<(), NoMemory>
    ensures { OnOk result (Grows held.old held.new (λ block. kept.now.super_block ≡ Some block)) }
{
    match kept.super_block {
        Some(block) => held.add(block, 1),
        None => Ok(()),
    }
}

/// Adds the blocks that a view of a volume holds.
pub(crate) fn hold<S: BlockSource>(
    alloc: Global,
    src: &mut S,
    volume: &Volume,
    kept: &KeptView,
    site: &Site,
    held: &mut Pieces,
) -> Result<(), Stop<UseFault>>
    requires site { IsSiteFor site.now (S.bytes_len src.old) }
    ensures held { (image : List ℕ) → S.bytes src.old ≡ Some image → OnOk result (IsHoldingOf image site.now volume.now kept.now held.old held.new) }
    ensures present { (image : List ℕ) → S.bytes src.old ≡ Some image → IfErr result (Tells (IsUseFaultIn image site.now volume.now kept.now) (IsUseFeatureIn image site.now volume.now kept.now)) }
    ensures exact { (image : List ℕ) → S.bytes src.old ≡ Some image → IsRightView image site.now volume.now kept.now → IfErr result IsFree }
    ensures cause { IsErrOf result ReadFault → Rose (S.faults src.old) (S.faults src.new) }
    ensures kept { IsKept S.bytes S.bytes_len S.faults src.old src.new }
{
    match add_files(alloc, src, volume, &kept.view, site, held) {
        Ok(()) => {}
        Err(stop) => return Err(stop),
    }
    match add_references(alloc, src, kept, site, held) {
        Ok(()) => {}
        Err(stop) => return Err(stop),
    }
    add_metadata(held, volume, kept, site)?;
    add_super(held, kept)?;
    Ok(())
}
