//! Disks with a GUID partition table: which of their partitions holds a container, and that partition as a source.
#![tactic(auto)]

mod finding;
mod law;
mod part;
mod partition_table;
mod slice;
mod table;

pub use finding::find_part;
pub use law::part_or_fault;
pub use part::{GptStop, Part};
pub use slice::{Origin, Slice};
