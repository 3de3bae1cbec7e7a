// What is wrong with a view whose blocks are counted.

use bt_cursor::WalkFault;

/// What is wrong with a view, which is told by its transaction. Of a well-formed container nothing is.
#[derive(Clone, Copy, PartialEq, Eq)]
pub enum UseFault {
    /// A node of its files' tree, or of its extent reference tree, isn't right, or one of these trees is out of order.
    Walk { xid: u64, why: WalkFault },
    /// The record of this number in one of these trees, from 0, can't be read.
    Value { xid: u64, item: u64 },
    /// An extent leaves the container.
    Outside { xid: u64 },
}
