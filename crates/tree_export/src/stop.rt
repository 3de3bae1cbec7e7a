// Why a folder isn't filled.
use bt_cursor::WalkFault;
use file_extent::StreamStop;
use fs_record::RecFault;
use obj_base::Stop;

/// What is wrong with an item, which is told by its id. Of a view that meets its rules, and the items of its tree, nothing is.
#[derive(Clone, Copy, PartialEq, Eq)]
pub enum ExportFault {
    /// The stream of its inode isn't right.
    Stream { id: u64, why: StreamStop },
    /// The tree in which its inode is looked for isn't whole.
    Walk { id: u64, why: WalkFault },
    /// A record of its inode is refused.
    Value { id: u64, why: RecFault },
    /// No record is one of its inode.
    NoInode { id: u64 },
}

/// Why a folder isn't filled: a look at the view stops, or a call of the folder failed.
#[derive(PartialEq, Drop)]
pub enum ExportStop {
    Stopped(Stop<ExportFault>),
    WriteFault,
}
