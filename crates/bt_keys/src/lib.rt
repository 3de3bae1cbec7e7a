//! The keys and the values of the seven kinds of trees.
#![tactic(auto)]

mod fs_tree;
mod number_key;
mod record;
mod record_key;
mod values;

pub use fs_tree::FsTreeKey;
pub use number_key::{OmapKey, OmapSnapKey, QueueKey};
pub use record_key::{ExtKey, FsKey, FsPlainKey, FsRecordKey, SnapKey};
pub use values::{ExtValue, OmapValue, ext_value, omap_snap_flags, omap_value, queue_length};
