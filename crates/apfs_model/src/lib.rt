//! The words that the contracts of all other crates are made of, in `specs/`, a text as its bytes, and the three answers of a failing world.
#![tactic(auto)]

mod bytes;
mod failed;

pub use bytes::Bytes;
pub use failed::{NoMemory, ReadFailed, WriteFailed};
