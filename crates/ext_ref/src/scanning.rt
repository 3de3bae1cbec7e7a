// Going through an extent reference tree.
ghost use Rattle.std.specs.Prelude.{◌≡◌, ◌+◌, ◌≤◌, ◌==◌, ℕ, List, length, Some, true, false, OnOk, IfOk, IfErr, IsErrOf};
ghost use Rattle.std.specs.List.{list_any};
ghost use Rattle.apfs_model.specs.Counts.{Rose};
ghost use Rattle.apfs_model.specs.Kept.{IsKept};
ghost use Rattle.obj_base.specs.Stops.{Tells, IsFree, raised};
ghost use Rattle.obj_base.specs.declared.stop.Stop.TheVariants.{ReadFault};
ghost use Rattle.obj_base.specs.Site.{IsSiteFor};
ghost use Rattle.bt_cursor.specs.Faults.{HasFeature};
ghost use Rattle.ext_ref.specs.Ranges.{ext_tree, node_blocks_of};
ghost use Rattle.ext_ref.specs.Scanned.{ext_steps, IsExtFeature, IsScanned, is_right_tree};
ghost use Rattle.ext_ref.specs.Stops.{IsExtStop};
ghost use Rattle.ext_ref.specs.Gathered.{said};

use crate::keep::Kept;
use crate::{ExtScan, ExtStop, NewRange};
use blk_source::BlockSource;
use bt_cursor::{GatherFault, Physical, gather};
use bt_keys::ExtKey;
use obj_base::{Site, Stop};
use std::alloc::Global;

// Why a walk stops, said of an extent reference tree.
fn raise(stop: Stop<GatherFault>) -> Stop<ExtStop>
    ensures { result ≡ raised said stop }
{
    stop.map(|fault| match fault {
        GatherFault::Tree(why) => ExtStop::Walk(why),
        GatherFault::Refused { item } => ExtStop::Value { item },
    })
}

// Goes through the tree of a root that isn't 0.
fn scan_tree<S: BlockSource>(
    alloc: Global,
    src: &mut S,
    root: u64,
    site: &Site,
) -> Result<ExtScan, Stop<ExtStop>>
    requires site { IsSiteFor site.now (S.bytes_len src.old) }
    requires some { (root == 0) ≡ false }
    ensures clear { (image : List ℕ) → S.bytes src.old ≡ Some image → IfOk result (λ scan. IsScanned image site.now root scan.steps.items scan.ranges.items) }
    ensures present { (image : List ℕ) → S.bytes src.old ≡ Some image → IfErr result (Tells (IsExtStop image site.now root) (IsExtFeature image site.now root)) }
    ensures cause { IsErrOf result ReadFault → Rose (S.faults src.old) (S.faults src.new) }
    ensures kept { IsKept S.bytes S.bytes_len S.faults src.old src.new }
    ensures reads { (image : List ℕ) → S.bytes src.old ≡ Some image → OnOk result (S.reads src.new ≤ S.reads src.old + length (node_blocks_of image site.now root)) }
{
    let none = Kept {
        ranges: Vec::new(alloc),
        steps: Vec::new(alloc),
    };
    let namer = Physical {
        blocks: site.blocks,
    };
    match gather::<ExtKey, S, Physical, Kept>(alloc, src, namer, root, site, none) {
        Ok(Kept { ranges, steps }) => Ok(ExtScan { steps, ranges }),
        Err(stop) => Err(raise(stop)),
    }
}

/// The steps of an extent reference tree and its new ranges, where the tree with this root is whole and its
/// values can be read; nothing where the root is 0, since there is no tree then. `Walk` tells why the tree isn't whole, and
/// `Value` which item's value is too short.
pub fn scan<S: BlockSource>(
    alloc: Global,
    src: &mut S,
    root: u64,
    site: &Site,
) -> Result<ExtScan, Stop<ExtStop>>
    requires site { IsSiteFor site.now (S.bytes_len src.old) }
    ensures clear { (image : List ℕ) → S.bytes src.old ≡ Some image → IfOk result (λ scan. IsScanned image site.now root scan.steps.items scan.ranges.items) }
    ensures present { (image : List ℕ) → S.bytes src.old ≡ Some image → IfErr result (Tells (IsExtStop image site.now root) (IsExtFeature image site.now root)) }
    ensures exact { (image : List ℕ) → S.bytes src.old ≡ Some image → is_right_tree image site.now root ≡ true → IfErr result IsFree }
    ensures cause { IsErrOf result ReadFault → Rose (S.faults src.old) (S.faults src.new) }
    ensures kept { IsKept S.bytes S.bytes_len S.faults src.old src.new }
    ensures reads { (image : List ℕ) → S.bytes src.old ≡ Some image → OnOk result (S.reads src.new ≤ S.reads src.old + length (node_blocks_of image site.now root)) }
{
    if root == 0 {
        return Ok(ExtScan {
            steps: Vec::new(alloc),
            ranges: Vec::new(alloc),
        });
    }
    match scan_tree(alloc, src, root, site) {
        Ok(scan) => Ok(scan),
        Err(stop) => Err(stop),
    }
}

/// The new ranges of an extent reference tree, as `scan` has them.
pub fn new_ranges<S: BlockSource>(
    alloc: Global,
    src: &mut S,
    root: u64,
    site: &Site,
) -> Result<Vec<NewRange>, Stop<ExtStop>>
    requires site { IsSiteFor site.now (S.bytes_len src.old) }
    ensures clear { (image : List ℕ) → S.bytes src.old ≡ Some image → IfOk result (λ ranges. IsScanned image site.now root (ext_steps image site.now root) ranges.items) }
    ensures present { (image : List ℕ) → S.bytes src.old ≡ Some image → IfErr result (Tells (IsExtStop image site.now root) (IsExtFeature image site.now root)) }
    ensures exact { (image : List ℕ) → S.bytes src.old ≡ Some image → is_right_tree image site.now root ≡ true → IfErr result IsFree }
    ensures cause { IsErrOf result ReadFault → Rose (S.faults src.old) (S.faults src.new) }
    ensures kept { IsKept S.bytes S.bytes_len S.faults src.old src.new }
    ensures reads { (image : List ℕ) → S.bytes src.old ≡ Some image → OnOk result (S.reads src.new ≤ S.reads src.old + length (node_blocks_of image site.now root)) }
{
    match scan(alloc, src, root, site) {
        Ok(ExtScan { steps: _, ranges }) => Ok(ranges),
        Err(stop) => Err(stop),
    }
}
