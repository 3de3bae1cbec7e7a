//! What a container holds that is made for a test: plans, their records, and the samples that tests start from.
#![tactic(auto)]

mod checked;
mod files;
mod generated;
mod packing;
mod plan;
pub mod records;
mod samples;
mod which;

pub use files::FileTree;
pub use generated::gen_plan;
pub use packing::pack;
pub use plan::{Leaf, NewRange, Plan, QueueEntry, Version, VolPlan};
pub use records::Item;
pub use samples::sample;
pub use which::Sample;
