// Keys and values of the trees of containers and volumes, a module for each family of records.

mod attributes;
mod entries;
mod fields;
mod inodes;
mod keys;
mod mappings;
mod names;
mod ranges;
mod siblings;
mod snapshots;
mod streams;

pub use attributes::{attribute, stream_attribute};
pub use entries::{EntryPlan, entry};
pub use inodes::{DIRECTORY_MODE, FILE_MODE, InodePlan, LINK_MODE, inode};
pub use keys::{Item, node_bytes, rank};
pub use mappings::{child, map_record, map_snapshot};
pub use ranges::{queue_record, range_record};
pub use siblings::{sibling_link, sibling_map};
pub use snapshots::{snapshot_name, snapshot_record};
pub use streams::{file_extent, stream_id};
