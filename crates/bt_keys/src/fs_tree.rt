// What the keys of file-system trees have in common, with hashed names or without.
ghost use Rattle.std.specs.Prelude.{◌≡◌, Bool};
ghost use Rattle.bt_keys.specs.FsTree.{IsFsShape};

use crate::FsRecordKey;
use bt_node::TreeKey;

/// The keys of a file-system tree. What a key's kind adds lies inside each key that is read: the name of an entry or of
/// an attribute, the sibling of a link, the logical address of an extent.
pub trait FsTreeKey: TreeKey {
    /// Whether the names in the keys of entries are hashed.
    const HASHED: bool;

    ghost HASHED: { Bool };

    /// The id of the object that the record belongs to.
    fn id(&self) -> u64
        ensures { result ≡ (Self.shape.rank self.now).id };

    /// The kind of the record.
    fn kind(&self) -> u8
        ensures { result ≡ (Self.shape.rank self.now).kind };

    ghost of_tree: { IsFsShape HASHED Self.shape };
}

impl<const HASHED: bool> FsTreeKey for FsRecordKey<HASHED> {
    ghost use Rattle.bt_keys.specs.Laws.{fs_of_tree};

    const HASHED: bool = HASHED;

    ghost HASHED = { HASHED };

    ghost of_tree = { fs_of_tree HASHED };

    fn id(&self) -> u64 {
        self.id
    }

    fn kind(&self) -> u8 {
        self.kind
    }
}
