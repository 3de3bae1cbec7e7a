//! A source that keeps the blocks that were read last of another source.
#![tactic(auto)]

mod cached;
mod part;
mod store;

pub use cached::Cached;
