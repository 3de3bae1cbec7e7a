// What is asked to be put into a folder, and what was.

/// A file or a directory of a view, as the row of a tree tells of it. What is put for it goes by the inode of its id.
#[derive(PartialEq, Drop)]
pub struct Item {
    /// Where it is put, as names joined by slashes.
    pub path: String,
    pub id: u64,
    /// The kind of its inode.
    pub kind: u16,
    /// The size of its stream, 0 without one.
    pub size: u64,
}

/// What was put into a folder. Each number stands at the greatest of 64 bits where it would pass it.
#[derive(PartialEq, Drop)]
pub struct Done {
    pub directories: u64,
    pub files: u64,
    /// The bytes of all files together.
    pub bytes: u64,
    /// The places of the items for which nothing was put.
    pub skipped: Vec<usize>,
}
