// What a path leads to.
use apfs_model::Bytes;

/// A file or a directory of a view.
#[derive(PartialEq, Drop)]
pub struct Target {
    pub id: u64,
    /// The name of the entry by which it was reached; that of the root is `/`.
    pub name: Bytes,
    /// The kind of its inode.
    pub kind: u16,
    /// The size of its stream, 0 without one.
    pub size: u64,
}
