// What is told of a fault.
use apfs_check::Fault;

/// A fault that is named: of the container, of a view whose blocks can't be counted, of what can't be put into a folder, or of
/// the table of a disk's partitions.
#[derive(Drop)]
pub enum Named {
    /// One of the container.
    InContainer(Fault),
    /// One of the view of a transaction, of the volume in a slot, whose blocks can't be counted.
    InUsage { slot: u32, xid: u64 },
    /// One of what has an id in the view of a transaction, of the volume in a slot, so that it can't be put into a folder.
    InExport { slot: u32, xid: u64, id: u64 },
    /// No header of a table stands on the disk.
    NoTable,
    /// The table isn't right.
    BadTable,
    /// No partition holds a container.
    NoPartition,
    /// The partition of entry `at` doesn't lie in the disk.
    PartOutside { at: u32 },
}
