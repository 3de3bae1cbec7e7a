//! What each view of a volume keeps from being freed: how many blocks it holds, and how many it alone.
#![tactic(auto)]

mod files;
mod heads;
mod holding;
mod keep;
mod kept;
mod leaves;
mod numbers;
mod pieces;
mod runs;
mod sharing;
mod stop;
mod volumes;

pub use numbers::{Usage, ViewUse};
pub use stop::UseFault;
pub use volumes::usage;
