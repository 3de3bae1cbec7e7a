//! The command line: what a run writes, and with which status it ends, which the contract of `run` says.
#![tactic(auto)]

mod in_partition;
mod new_container;
mod over_cache;
mod program;

pub use new_container::new_container_is_clean;
pub use program::{gen_report, report, run};
