// Gathering what the items of a tree give, in one walk.
ghost use Rattle.std.specs.Prelude.{◌≡◌, ◌+◌, ◌≤◌, ◌<◌, ℕ, List, [], length, ◌∷◌, ◌++◌, Option, Some, Bool, true, false, not, option_map, IfOk, IfErr, IsErrOf, OnOk, IsTrue};
ghost use Rattle.std.specs.List.{list_any};
ghost use Rattle.apfs_model.specs.Counts.{Rose};
ghost use Rattle.apfs_model.specs.Kept.{IsKept};
ghost use Rattle.obj_base.specs.Stops.{Tells, IsFree, raised};
ghost use Rattle.obj_base.specs.declared.stop.Stop.TheVariants.{ReadFault, NoMemory};
ghost use Rattle.obj_base.specs.Site.{IsSiteFor};
ghost use Rattle.bt_cursor.specs.Tree.{tree_in};
ghost use Rattle.bt_cursor.specs.Line.{Item, line_of};
ghost use Rattle.bt_cursor.specs.WholeTree.{child_id, IsWhole};
ghost use Rattle.bt_cursor.specs.Met.{nodes_of};
ghost use Rattle.bt_cursor.specs.Faults.{HasFeature};
ghost use Rattle.bt_cursor.specs.Liners.{site_of, root_of, tree_of, seen_of, fuel_of};
ghost use Rattle.bt_cursor.specs.Gathered.{shown, IsGatherFault, RefusesOne, IsGathered, IsInOrder, SeesOrder, HasWalked, HasTaken, Takes};

use crate::fault::WalkFault;
use crate::liner::{LineItem, Liner};
use crate::namer::Namer;
use blk_source::{BlockSource, NoMemory};
use bt_node::TreeKey;
use obj_base::{Site, Stop};
use std::alloc::Global;

/// Why a tree can't be gathered.
#[derive(Clone, Copy, PartialEq, Eq)]
pub enum GatherFault {
    /// The tree isn't whole.
    Tree(WalkFault),
    /// The item of this number, counted from 0, is refused.
    Refused { item: u64 },
}

/// What is gathered of the items of a tree, one after the other.
pub trait Keeper<K: TreeKey>: Drop {
    /// Whether an item is refused.
    ghost refuses: { Item → Bool };

    /// It has gathered what these items give.
    ghost holds: { Self → List Item → Type 0 };

    /// Gathers what one more item gives; false where the item is refused.
    fn keep(&mut self, item: LineItem<'_, K>) -> Result<bool, NoMemory>
        requires key { K.shape.read item.pair.key_bytes.now ≡ Some item.pair.key }
        requires child { item.child ≡ child_id (shown item.node item.at item.level item.pair.key_bytes.now (option_map (λ value. value.now) item.pair.value)) }
        ensures refused { IfOk result (λ kept. kept ≡ not (refuses (shown item.entry.node item.entry.at item.entry.level item.entry.pair.key_bytes.now (option_map (λ value. value.now) item.entry.pair.value)))) }
        ensures held { (items : List Item) → holds self.old items → IfOk result (λ kept. IsTrue kept → holds self.new (items ++ shown item.entry.node item.entry.at item.entry.level item.entry.pair.key_bytes.now (option_map (λ value. value.now) item.entry.pair.value) ∷ [])) };
}

/// Gathers nothing: for a walk that only tells why a tree isn't whole.
#[derive(Drop)]
pub struct Nothing;

impl<K: TreeKey> Keeper<K> for Nothing {
    ghost refuses = { λ _. false };

    ghost holds = { λ _ _. Unit {0} };

    fn keep(&mut self, item: LineItem<'_, K>) -> Result<bool, NoMemory>
        requires key { K.shape.read item.pair.key_bytes.now ≡ Some item.pair.key }
        requires child { item.child ≡ child_id (shown item.node item.at item.level item.pair.key_bytes.now (option_map (λ value. value.now) item.pair.value)) }
        ensures refused { IfOk result (λ kept. kept ≡ true) }
        ensures held { (items : List Item) → Unit {0} → IfOk result (λ kept. IsTrue kept → Unit {0}) }
    {
        let _ = item;
        Ok(true)
    }
}

// Why a walk stops, said of what is gathered.
fn raise(stop: Stop<WalkFault>) -> Stop<GatherFault>
    ensures { result ≡ raised GatherFault.Tree stop }
{
    stop.map(GatherFault::Tree)
}

// Starts a walk over the tree of a root.
fn start<K: TreeKey, S: BlockSource, N: Namer>(
    alloc: Global,
    src: &mut S,
    namer: N,
    root: u64,
    site: &Site,
) -> Result<Liner<K, N>, Stop<GatherFault>>
    requires site { IsSiteFor site.now (S.bytes_len src.old) }
    ensures site { IfOk result (λ liner. site_of liner ≡ site.now) }
    ensures root { IfOk result (λ liner. root_of liner ≡ root) }
    ensures tree { IfOk result (λ liner. tree_of liner ≡ tree_in K.shape site.now (N.named namer)) }
    ensures order { IfOk result (λ liner. SeesOrder K.shape [] (seen_of liner)) }
    ensures walked { (image : List ℕ) → S.bytes src.old ≡ Some image → IfOk result (HasWalked image [] (S.reads src.old) (S.reads src.new)) }
    ensures present { (image : List ℕ) → S.bytes src.old ≡ Some image → IfErr result (Tells (IsGatherFault (tree_in K.shape site.now (N.named namer) image) root (λ _. false)) (HasFeature (tree_in K.shape site.now (N.named namer) image) root)) }
    ensures refused { IfErr result (RefusesOne (λ _. false)) }
    ensures cause { IsErrOf result ReadFault → Rose (S.faults src.old) (S.faults src.new) }
    ensures kept { IsKept S.bytes S.bytes_len S.faults src.old src.new }
{
    match Liner::<K, N>::new(alloc, src, namer, root, *site) {
        Ok(liner) => Ok(liner),
        Err(stop) => Err(raise(stop)),
    }
}

// Moves a walk on and gathers the item onto which it moved, whose number is handed in; false at the end of a whole tree.
fn take_next<K: TreeKey, S: BlockSource, N: Namer, P: Keeper<K>>(
    src: &mut S,
    liner: &mut Liner<K, N>,
    keeper: &mut P,
    number: u64,
) -> Result<bool, Stop<GatherFault>>
    requires site { IsSiteFor (site_of liner.old) (S.bytes_len src.old) }
    ensures site { site_of liner.new ≡ site_of liner.old }
    ensures root { root_of liner.new ≡ root_of liner.old }
    ensures tree { tree_of liner.new ≡ tree_of liner.old }
    ensures taken { (start : ℕ) → HasTaken (S.bytes src.old) (P.holds keeper.old) P.refuses number start (S.reads src.old) liner.old → IfOk result (Takes (S.bytes src.old) (P.holds keeper.new) P.refuses number start (S.reads src.new) liner.old liner.new) }
    ensures present { (start : ℕ) → HasTaken (S.bytes src.old) (P.holds keeper.old) P.refuses number start (S.reads src.old) liner.old → (image : List ℕ) → S.bytes src.old ≡ Some image → IfErr result (Tells (IsGatherFault (tree_of liner.old image) (root_of liner.old) P.refuses) (HasFeature (tree_of liner.old image) (root_of liner.old))) }
    ensures refused { IfErr result (RefusesOne P.refuses) }
    ensures fuel { IfOk result (λ more. IsTrue more → fuel_of liner.new < fuel_of liner.old) }
    ensures cause { IsErrOf result ReadFault → Rose (S.faults src.old) (S.faults src.new) }
    ensures kept { IsKept S.bytes S.bytes_len S.faults src.old src.new }
{
    let more = match liner.next(src) {
        Ok(more) => more,
        Err(stop) => return Err(raise(stop)),
    };
    if !more {
        return Ok(false);
    }
    let kept = keeper.keep(liner.item())?;
    if !kept {
        return Err(Stop::Found(GatherFault::Refused { item: number }));
    }
    Ok(true)
}

/// Walks over the whole tree of a root, whose id is `root`, and gathers what its items give, where the tree is whole and
/// no item is refused. `keeper` has gathered nothing. `Tree` tells why the tree isn't whole, `Refused` the first item that is
/// refused.
pub fn gather<K: TreeKey, S: BlockSource, N: Namer, P: Keeper<K>>(
    alloc: Global,
    src: &mut S,
    namer: N,
    root: u64,
    site: &Site,
    keeper: P,
) -> Result<P, Stop<GatherFault>>
    requires site { IsSiteFor site.now (S.bytes_len src.old) }
    requires none { P.holds keeper [] }
    ensures clear { (image : List ℕ) → S.bytes src.old ≡ Some image → IfOk result (λ keeper. IsGathered (tree_in K.shape site.now (N.named namer) image) root (P.holds keeper) P.refuses) }
    ensures ordered { IfOk result (λ keeper. IsInOrder K.shape (P.holds keeper)) }
    ensures present { (image : List ℕ) → S.bytes src.old ≡ Some image → IfErr result (Tells (IsGatherFault (tree_in K.shape site.now (N.named namer) image) root P.refuses) (HasFeature (tree_in K.shape site.now (N.named namer) image) root)) }
    ensures refused { IfErr result (RefusesOne P.refuses) }
    ensures exact { (image : List ℕ) → S.bytes src.old ≡ Some image → IsWhole (tree_in K.shape site.now (N.named namer) image) root → list_any P.refuses (line_of (tree_in K.shape site.now (N.named namer) image) root) ≡ false → IfErr result IsFree }
    ensures reads { (image : List ℕ) → S.bytes src.old ≡ Some image → OnOk result (S.reads src.new ≤ S.reads src.old + length (nodes_of (tree_in K.shape site.now (N.named namer) image) root)) }
    ensures cause { IsErrOf result ReadFault → Rose (S.faults src.old) (S.faults src.new) }
    ensures kept { IsKept S.bytes S.bytes_len S.faults src.old src.new }
{
    let mut keeper = keeper;
    let mut liner = match start(alloc, src, namer, root, site) {
        Ok(liner) => liner,
        Err(stop) => return Err(stop),
    };
    let mut number = 0u64;
    'walk: loop {
        let more = match take_next(src, &mut liner, &mut keeper, number) {
            Ok(more) => more,
            Err(stop) => return Err(stop),
        };
        if !more {
            return Ok(keeper);
        }
        number = number.saturating_add(1);
    }
}
