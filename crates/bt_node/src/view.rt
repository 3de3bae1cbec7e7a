// A node, over the block that is handed in.
ghost use Rattle.std.specs.Prelude.{◌≡◌, ◌↔◌, ◌<◌, length, true, option_map, IsOk, IfOk, slice_get};
ghost use Rattle.obj_base.specs.BlockSize as sizes;
ghost use Rattle.bt_node.specs.Node as fields;
ghost use Rattle.bt_node.specs.SoundNode as sound_node;
ghost use Rattle.bt_node.specs.Entries as spec;
ghost use Rattle.bt_node.specs.Soundness.{node_of};
ghost use Rattle.bt_node.specs.SoundNode.{IsNode, IsSoundNode};

use crate::{NodeAt, NodeFault, RootInfo, Site, TreeKey, entries, node, soundness};
use obj_base::Bad;
use std::marker::{Model, PhantomData};

/// An entry of a node; the slices are parts of the node's block.
#[derive(Drop)]
pub struct Entry<'a, K: TreeKey> {
    pub key: K,
    pub key_bytes: &'a [u8],
    /// None at an entry without a value.
    pub value: Option<&'a [u8]>,
}

/// A sound node (B-Trees, `btree_node_phys_t`), whose entries lie in the block that was handed in.
#[derive(Drop)]
pub struct NodeView<'a, K: TreeKey> {
    bytes: &'a [u8],
    kind: PhantomData<K>,
}

impl<'a, K: TreeKey> Model for NodeView<'a, K> {
    ghost use Rattle.std.specs.Prelude.{ℕ, List};
    ghost use Rattle.bt_node.specs.View.{IsLegible};

    ghost Value = { List ℕ };

    ghost view = { λ a. a.bytes.now };

    ghost invariant = { λ a. IsLegible K.shape a.bytes.now };
}

impl<'a, K: TreeKey> NodeView<'a, K> {
    /// The node in a block, or the first test that fails: the header's, `Sealed`, `NoHeader`, `Flags`, `Deep`, `Level`,
    /// `Size`, `Empty`, `Bounds`, `Ghost`, `Key`. The block size is one that is read, and the block has that many bytes.
    #[tactic(auto, using(crate::proofs::Laws::node_legible, crate::proofs::Laws::node_means, crate::proofs::Laws::means_node))]
    pub fn read(
        bytes: &'a [u8],
        at: &NodeAt,
        site: &Site,
    ) -> Result<NodeView<'a, K>, Bad<NodeFault>>
        requires accepted { sizes.is_accepted site.now.block_size ≡ true }
        requires whole { length bytes.now ≡ site.now.block_size }
        ensures first { result ≡ node_of K.shape at.now site.now bytes.now }
        ensures same { IfOk result (λ node. node ≡ bytes.now) }
        ensures decides { IsOk result ↔ IsSoundNode K.shape at.now site.now bytes.now }
    {
        match soundness::test::<K>(bytes, at, site) {
            Ok(()) => Ok(NodeView::kept(bytes, at, site)),
            Err(bad) => Err(bad),
        }
    }

    /// The view that `read` gives for these arguments, where it answers Ok, without its tests.
    #[tactic(auto, using(crate::proofs::Laws::node_legible))]
    pub fn kept(bytes: &'a [u8], at: &NodeAt, site: &Site) -> NodeView<'a, K>
        requires accepted { sizes.is_accepted site.now.block_size ≡ true }
        requires whole { length bytes.now ≡ site.now.block_size }
        requires node { IsNode K.shape at.now site.now bytes.now }
        ensures { result ≡ bytes.now }
    {
        NodeView {
            bytes,
            kind: PhantomData,
        }
    }

    /// The number of entries.
    #[tactic(auto, using(crate::proofs::Places::pairs_counted))]
    pub fn len(&self) -> usize
        ensures count { result ≡ fields.count_of self.now }
        ensures all { result ≡ length (spec.pairs_of K.shape self.now) }
    {
        node::count(self.bytes)
    }

    /// How far the node stands above the leaves, which have level 0.
    pub fn level(&self) -> u16
        ensures { result ≡ fields.level_of self.now }
    {
        node::level(self.bytes)
    }

    /// The key of entry `i`.
    #[tactic(auto, using(crate::proofs::Places::place_held))]
    pub fn key(&self, i: usize) -> K
        requires { i < fields.count_of self.now }
        ensures { K.shape.read (spec.pair_of K.shape self.now i).key ≡ Some result }
    {
        let place = entries::place_at::<K>(self.bytes, i);
        K::read(entries::key_in(self.bytes, place)).unwrap()
    }

    /// Entry `i`, in the order of the table of contents.
    pub fn entry(&self, i: usize) -> Entry<'a, K>
        requires { i < fields.count_of self.now }
        ensures key_bytes { result.key_bytes.now ≡ (spec.pair_of K.shape self.now i).key }
        ensures value_bytes { option_map (λ value. value.now) result.value ≡ (spec.pair_of K.shape self.now i).value }
        ensures key { K.shape.read result.key_bytes.now ≡ Some result.key }
        ensures listed { slice_get (spec.pairs_of K.shape self.now) i ≡ Some (spec.pair_of K.shape self.now i) }
    {
        self.entry_with(i, self.key(i))
    }

    /// Entry `i`, with its key, which is handed in and isn't read again.
    #[tactic(auto, using(crate::proofs::Places::place_held, crate::proofs::Ranges::item_listed))]
    pub fn entry_with(&self, i: usize, key: K) -> Entry<'a, K>
        requires inside { i < fields.count_of self.now }
        requires key { K.shape.read (spec.pair_of K.shape self.now i).key ≡ Some key }
        ensures key_bytes { result.key_bytes.now ≡ (spec.pair_of K.shape self.now i).key }
        ensures value_bytes { option_map (λ value. value.now) result.value ≡ (spec.pair_of K.shape self.now i).value }
        ensures key { K.shape.read result.key_bytes.now ≡ Some result.key }
        ensures listed { slice_get (spec.pairs_of K.shape self.now) i ≡ Some (spec.pair_of K.shape self.now i) }
    {
        let place = entries::place_at::<K>(self.bytes, i);
        Entry {
            key,
            key_bytes: entries::key_in(self.bytes, place),
            value: entries::value_in(self.bytes, place),
        }
    }

    /// The oid of the child that entry `i` names.
    #[tactic(auto, using(crate::proofs::Places::place_held, crate::proofs::Places::child_valued, crate::proofs::Ranges::item_listed))]
    pub fn child(&self, i: usize) -> u64
        requires inside { i < fields.count_of self.now }
        requires upper { 0 < fields.level_of self.now }
        ensures child { result ≡ spec.child_of K.shape self.now i }
        ensures listed { slice_get (spec.children_of K.shape self.now) i ≡ Some result }
    {
        let place = entries::place_at::<K>(self.bytes, i);
        entries::child_in(self.bytes, place)
    }

    /// What the root tells of its tree; None exactly at another node.
    pub fn info(&self) -> Option<RootInfo>
        ensures { result ≡ sound_node.info_of self.now }
    {
        node::info(self.bytes)
    }
}
