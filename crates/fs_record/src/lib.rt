//! Records of a file-system tree: inodes, directory entries, extended attributes, siblings and extents of streams.
#![tactic(auto)]

mod attribute;
mod attributes;
mod entries;
mod extents;
mod fault;
mod fields;
mod inode_view;
mod inodes;
mod kept;
mod refusals;
mod siblings;

pub use attribute::{Attr, AttrBody};
pub use attributes::attr;
pub use entries::{DirEntry, entry};
pub use extents::{FileExt, file_ext};
pub use fault::RecFault;
pub use inode_view::{Inode, StreamSize};
pub use inodes::inode;
pub use kept::KeptName;
pub use refusals::refused;
pub use siblings::{Sibling, sibling_link, sibling_map};
