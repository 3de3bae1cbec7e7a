// What the keys of one kind of tree are.
ghost use Rattle.std.specs.Prelude.{◌≡◌, ℕ, Bool};
ghost use Rattle.bt_node.specs.Shape.{Shape};
ghost use Rattle.bt_node.specs.SoundNode.{IsLawful};
ghost use Rattle.bt_node.specs.Rank as ranks;
ghost use Rattle.bt_node.specs.declared.key.Layout as layouts;

/// How the entries of a tree lie in its nodes (B-Trees, `BTNODE_FIXED_KV_SIZE`).
#[derive(Clone, Copy, PartialEq, Eq)]
pub enum Layout {
    /// Keys and values have fixed lengths.
    Fixed,
    /// The table of contents gives each key's and each value's length.
    Variable,
    /// Each node says by its flag which of the two it has.
    Either,
}

/// A key's place in its tree's order: by `id`, then by `kind`, then by `sub`.
#[derive(Clone, Copy, PartialEq, Eq, PartialOrd, Ord)]
pub struct Rank {
    pub id: u64,
    pub kind: u64,
    pub sub: u64,
}

impl Rank {
    /// Whether this rank comes before the other; the same as `<`.
    pub fn is_below(&self, other: &Rank) -> bool
        ensures { result ≡ ranks.is_below self.now other.now }
    {
        self < other
    }
}

/// The keys of one kind of tree.
pub trait TreeKey: Copy {
    /// The subtype of the tree's nodes (Objects, Object Types).
    const SUBTYPE: u32;

    const LAYOUT: Layout;

    /// The length of a fixed key in bytes.
    const KEY_LEN: usize;

    /// The length of a fixed value in bytes, at level 0.
    const VALUE_LEN: usize;

    /// Whether an entry may have no value.
    const GHOSTS: bool;

    ghost SUBTYPE: { ℕ };

    ghost LAYOUT: { layouts.Layout };

    ghost KEY_LEN: { ℕ };

    ghost VALUE_LEN: { ℕ };

    ghost GHOSTS: { Bool };

    ghost shape: { Shape Self };

    /// The key in its bytes, or None where they hold no key of this kind.
    fn read(key: &[u8]) -> Option<Self>
        ensures { result ≡ shape.read key.now };

    /// The key's place in the tree's order.
    fn rank(&self) -> Rank
        ensures { result ≡ shape.rank self.now };

    /// Whether the tree has at most one key of this rank.
    fn strict(&self) -> bool
        ensures { result ≡ shape.strict self.now };

    ghost same_subtype: { shape.subtype ≡ SUBTYPE };

    ghost same_layout: { shape.layout ≡ LAYOUT };

    ghost same_key_len: { shape.key_len ≡ KEY_LEN };

    ghost same_value_len: { shape.value_len ≡ VALUE_LEN };

    ghost same_ghosts: { shape.ghosts ≡ GHOSTS };

    ghost lawful: { IsLawful shape };
}
