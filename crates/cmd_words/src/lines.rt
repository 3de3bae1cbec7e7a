//! What a line asks for.

/// A path, and the view in which it is looked up.
#[derive(Clone, Copy, PartialEq, Eq)]
pub struct Target<'a> {
    /// The path, as it stands.
    pub path: &'a str,
    /// The slot of the volume, from 0 to 99, where one is named.
    pub volume: Option<u8>,
    /// The name of the snapshot, as it stands, where one is named.
    pub snapshot: Option<&'a str>,
}

/// Which flags were said.
#[derive(Clone, Copy, PartialEq, Eq)]
pub struct Flags {
    /// The container isn't checked first.
    pub quick: bool,
    /// What is a note otherwise is a fault.
    pub strict: bool,
}

/// What a line asks for, with its words beside the image.
#[derive(Clone, Copy, PartialEq, Eq)]
pub enum Line<'a> {
    /// The candidates of the descriptor ring.
    Ring,
    /// The newest checkpoint.
    Info,
    /// The volumes.
    Volumes,
    /// The space that is in use and free.
    Space,
    /// Whether the container is well-formed, strictly where the flag is true.
    Check(bool),
    /// The snapshots of the volume in a slot, from 0 to 99, where one is named.
    Snapshots(Option<u8>),
    /// How many blocks each view of the volume in a slot, from 0 to 99, keeps from being freed, where one is named.
    Usage(Option<u8>),
    /// What a directory has.
    Ls(Flags, Target<'a>),
    /// What is under a directory.
    Tree(Flags, Target<'a>),
    /// The bytes of a file.
    Cat(Flags, Target<'a>),
    /// The extended attributes, or the bytes of the one that is named.
    Xattr(Flags, Target<'a>, Option<&'a str>),
    /// What a view has, put into a directory; the target's path is that of the root.
    Export(Target<'a>),
}
