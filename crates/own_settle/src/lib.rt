//! Whether the blocks of a container's owners settle with the bits that mark them, and those of its pool.
#![tactic(auto)]

mod chunks;
mod claims;
mod ordered;
mod pools;
mod settled;
mod whole;

pub use settled::settle;
pub use whole::Reached;
