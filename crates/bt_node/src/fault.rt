// Why a node isn't sound.

use obj_base::HeadFault;

/// The test of a node that fails.
#[derive(Clone, Copy, PartialEq, Eq)]
pub enum NodeFault {
    /// A test of the header.
    Head(HeadFault),
    /// The level isn't the expected one.
    Level,
    /// The root, leaf or fixed flag is wrong.
    Flags,
    /// The table of contents, a key or a value lies outside its place.
    Bounds,
    /// The bytes of a key hold no key of the tree.
    Key,
    /// A node without entries that isn't a root of level 0.
    Empty,
    /// An entry without a value, above level 0 or in a tree in which each has one.
    Ghost,
}
