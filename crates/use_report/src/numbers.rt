// The numbers of blocks that the views of a volume hold.

/// How many blocks a view holds.
#[derive(Clone, Copy, PartialEq, Eq)]
pub struct ViewUse {
    /// The view's transaction.
    pub xid: u64,
    /// The blocks that it holds.
    pub held: u64,
    /// Those that no other view of the volume holds.
    pub only: u64,
}

/// How many blocks the views of a volume hold: the live view, then the snapshots by transaction.
#[derive(Drop)]
pub struct Usage {
    pub views: Vec<ViewUse>,
    /// The blocks that some view holds.
    pub all: u64,
}
