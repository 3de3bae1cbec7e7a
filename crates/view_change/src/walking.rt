// A walk over the leaves of a tree, by the nodes above them.
ghost use Rattle.std.specs.Prelude.{◌≡◌, ℕ, ◌+◌, ◌≤◌, List, [], ◌∷◌, Some, length, All, IfOk, IfErr, IfSome, IsErrOf, IsTrue};
ghost use Rattle.apfs_model.specs.Counts.{Rose};
ghost use Rattle.apfs_model.specs.Kept.{IsKept};
ghost use Rattle.obj_base.specs.Site.{IsSiteFor};
ghost use Rattle.obj_base.specs.Stops.{IsFree};
ghost use Rattle.obj_base.specs.declared.stop.Stop.TheVariants.{ReadFault};
ghost use Rattle.bt_cursor.specs.Tree.{block_named, tree_in};
ghost use Rattle.bt_cursor.specs.Met.{nodes_of, places_of};
ghost use Rattle.view_change.specs.declared.outline.Separator.{Separator};
ghost use Rattle.view_change.specs.Leaves.{leaves_at, uppers_in};
ghost use Rattle.view_change.specs.Outline.{reads_in, leaves_in, IsOutlined, IsPassed};
ghost use Rattle.view_change.specs.Walked.{IsNamed, IsTaken};

use crate::Leaf;
use crate::leaf_taker::LeafTaker;
use crate::outline::{Outline, Separator, block_in, outline_of};
use crate::seen::Seen;
use apfs_model::NoMemory;
use blk_source::BlockSource;
use bt_cursor::Namer;
use bt_node::TreeKey;
use obj_base::{Site, Stop};
use std::alloc::Global;

// The block that an id names, which isn't looked up again if the leaf at a place among some has it.
fn block_again<N: Namer>(
    namer: &N,
    site: &Site,
    oid: u64,
    leaves: &[Leaf],
    at: usize,
) -> Option<u64>
    requires { All (IsNamed site.now (N.named namer.now)) leaves.now }
    ensures { result ≡ block_named site.now (N.named namer.now) oid }
{
    match leaves.get(at) {
        Some(leaf) if leaf.oid == oid => Some(leaf.block),
        _ => block_in(namer, site, oid),
    }
}

// Passes a separator and takes the leaf to which it leads, if it leads to one. None where one of them is out of order, where the root counts
// fewer, and where the leaf has no block or isn't taken.
fn pass<K: TreeKey, S: BlockSource, N: Namer, T: LeafTaker<K>>(
    src: &mut S,
    namer: &N,
    site: &Site,
    leaves: &[Leaf],
    at: usize,
    next: Separator,
    seen: Seen,
    taker: &mut T,
) -> Result<Option<Seen>, Stop<()>>
    requires site { IsSiteFor site.now (S.bytes_len src.old) }
    requires named { All (IsNamed site.now (N.named namer.now)) leaves.now }
    ensures passed { (start : T) (image : List ℕ) (root keys nodes begun : ℕ) (left : List Separator) → S.bytes src.old ≡ Some image → IsPassed K.shape site.now (N.named namer.now) image root keys nodes (T.holds start taker.old site.now image) begun (S.reads src.old) (next ∷ left) seen → IfOk result (λ found. IfSome found (IsPassed K.shape site.now (N.named namer.now) image root keys nodes (T.holds start taker.new site.now image) begun (S.reads src.new) left)) }
    ensures reads { S.reads src.new ≤ S.reads src.old + reads_in (next ∷ []) }
    ensures reads_new { (left : List Separator) (limit : ℕ) → T.goes_within taker.old (leaves_in site.now (N.named namer.now) (next ∷ left)) (S.reads src.old) limit → IfOk result (λ found. IfSome found (λ seen. T.goes_within taker.new (leaves_in site.now (N.named namer.now) left) (S.reads src.new) limit)) }
    ensures free { IfErr result IsFree }
    ensures cause { IsErrOf result ReadFault → Rose (S.faults src.old) (S.faults src.new) }
    ensures kept { IsKept S.bytes S.bytes_len S.faults src.old src.new }
{
    let Some(seen) = seen.after_separator::<K>(next.rank) else {
        return Ok(None);
    };
    let Some(oid) = next.child else {
        return Ok(Some(seen));
    };
    let Some(block) = block_again(namer, site, oid, leaves, at) else {
        return Ok(None);
    };
    let Some(ends) = taker.take(src, site, Leaf { oid, block })? else {
        return Ok(None);
    };
    Ok(seen.after_leaf::<K>(&ends))
}

// Takes the leaves of an outline, of which those that have a block are told; true where the tree is whole.
fn pass_all<K: TreeKey, S: BlockSource, N: Namer, T: LeafTaker<K>>(
    src: &mut S,
    namer: &N,
    site: &Site,
    outline: &Outline,
    leaves: &[Leaf],
    taker: &mut T,
) -> Result<bool, Stop<()>>
    requires site { IsSiteFor site.now (S.bytes_len src.old) }
    requires named { All (IsNamed site.now (N.named namer.now)) leaves.now }
    requires end { outline.now.level ≡ 0 }
    ensures taken { (start : T) (image : List ℕ) (root begun : ℕ) → S.bytes src.old ≡ Some image → IsOutlined (tree_in K.shape site.now (N.named namer.now) image) root begun (S.reads src.old) outline.now → T.holds start taker.old site.now image [] → IfOk result (λ whole. IsTrue whole → IsTaken K.shape site.now (N.named namer.now) image root (T.holds start taker.new site.now image)) }
    ensures reads { (start : T) (image : List ℕ) (root begun : ℕ) → S.bytes src.old ≡ Some image → IsOutlined (tree_in K.shape site.now (N.named namer.now) image) root begun (S.reads src.old) outline.now → T.holds start taker.old site.now image [] → IfOk result (λ whole. IsTrue whole → S.reads src.new ≤ begun + length (nodes_of (tree_in K.shape site.now (N.named namer.now) image) root)) }
    ensures reads_met { S.reads src.new ≤ S.reads src.old + reads_in outline.now.separators.items }
    ensures reads_new { (limit : ℕ) → T.goes_within taker.old (leaves_in site.now (N.named namer.now) outline.now.separators.items) (S.reads src.old) limit → IfOk result (λ whole. IsTrue whole → T.goes_within taker.new [] (S.reads src.new) limit) }
    ensures free { IfErr result IsFree }
    ensures cause { IsErrOf result ReadFault → Rose (S.faults src.old) (S.faults src.new) }
    ensures kept { IsKept S.bytes S.bytes_len S.faults src.old src.new }
{
    let Some(mut seen) = Seen::nothing::<K>(&outline.info) else {
        return Ok(false);
    };
    let mut at: usize = 0;
    'separators: for next in &outline.separators {
        let Some(more) = pass::<K, S, N, T>(src, namer, site, leaves, at, *next, seen, taker)?
        else {
            return Ok(false);
        };
        seen = more;
        if next.child.is_some() {
            at = at.saturating_add(1);
        }
    }
    Ok(seen.is_all())
}

// The leaves to which an outline leads, those without a block left out.
fn leaves_of<N: Namer>(
    alloc: Global,
    namer: &N,
    site: &Site,
    outline: &Outline,
) -> Result<Vec<Leaf>, NoMemory>
    ensures named { IfOk result (λ leaves. All (IsNamed site.now (N.named namer.now)) leaves.items) }
    ensures all { IfOk result (λ leaves. leaves.items ≡ leaves_in site.now (N.named namer.now) outline.now.separators.items) }
{
    let mut leaves = Vec::new(alloc);
    'separators: for next in &outline.separators {
        if let Some(oid) = next.child {
            if let Some(block) = block_in(namer, site, oid) {
                leaves.push(Leaf { oid, block })?;
            }
        }
    }
    Ok(leaves)
}

/// Hands the leaves of a tree below its root to `taker`, in their order, and gives it back where the tree is whole; no leaf is read but by the
/// taker. None where the root is a leaf, where a node isn't there, where something is out of order or counted wrong, and where a leaf isn't
/// taken. `root` is the id of the root. Whatever is answered, there is at most one read for each place that the walk meets. `reads_new`: with one for each
/// node above the leaves, no more than the limit that the taker stays within.
pub fn walk_leaves<K: TreeKey, S: BlockSource, N: Namer, T: LeafTaker<K>>(
    alloc: Global,
    src: &mut S,
    namer: &N,
    site: &Site,
    root: u64,
    taker: T,
) -> Result<Option<T>, Stop<()>>
    requires site { IsSiteFor site.now (S.bytes_len src.old) }
    ensures clear { (start : T) (image : List ℕ) → S.bytes src.old ≡ Some image → T.holds start taker site.now image [] → IfOk result (λ found. IfSome found (λ taker. IsTaken K.shape site.now (N.named namer.now) image root (T.holds start taker site.now image))) }
    ensures reads { (start : T) (image : List ℕ) → S.bytes src.old ≡ Some image → T.holds start taker site.now image [] → IfOk result (λ found. IfSome found (λ taker. S.reads src.new ≤ S.reads src.old + length (nodes_of (tree_in K.shape site.now (N.named namer.now) image) root))) }
    ensures reads_met { (image : List ℕ) → S.bytes src.old ≡ Some image → S.reads src.new ≤ S.reads src.old + length (places_of (tree_in K.shape site.now (N.named namer.now) image) root) }
    ensures reads_new { (image : List ℕ) (limit : ℕ) → S.bytes src.old ≡ Some image → T.begins_within taker (leaves_at site.now (N.named namer.now) (places_of (tree_in K.shape site.now (N.named namer.now) image) root)) (S.reads src.old + length (uppers_in (places_of (tree_in K.shape site.now (N.named namer.now) image) root))) limit → IfOk result (λ found. IfSome found (λ taker. T.goes_within taker [] (S.reads src.new) limit)) }
    ensures free { IfErr result IsFree }
    ensures cause { IsErrOf result ReadFault → Rose (S.faults src.old) (S.faults src.new) }
    ensures kept { IsKept S.bytes S.bytes_len S.faults src.old src.new }
{
    let mut taker = taker;
    let Some(outline) = outline_of::<K, S, N>(alloc, src, namer, site, root)? else {
        return Ok(None);
    };
    let leaves = leaves_of(alloc, namer, site, &outline)?;
    taker.foresee(&leaves);
    if pass_all::<K, S, N, T>(src, namer, site, &outline, &leaves, &mut taker)? {
        Ok(Some(taker))
    } else {
        Ok(None)
    }
}
