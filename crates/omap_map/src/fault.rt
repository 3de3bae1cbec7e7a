// Why an object map can't be loaded.

use bt_cursor::WalkFault;
use obj_base::HeadFault;

/// What is wrong with an object map.
#[derive(Clone, Copy, PartialEq, Eq)]
pub enum OmapFault {
    /// The object in this block isn't a sound object map.
    Head { block: u64, why: HeadFault },
    /// The tree with this root, of the map's records or of its snapshots, isn't whole.
    Tree { root: u64, why: WalkFault },
}
