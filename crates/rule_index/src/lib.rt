//! What the rules of a view look up in its facts: by an id, or by numbers and a name.
#![tactic(auto)]

mod all;
pub mod chain;
mod counted;
pub mod counts;
pub mod digests;
mod homes;
pub mod ids;
mod index;
mod key;
mod key_counts;
pub mod keys;
mod kin;
mod looks;
mod namings;
mod near;
pub mod ordered;
mod pairs;
pub mod twins;

pub use index::Index;
pub use key::KeyRef;
pub use key_counts::KeyCounts;
pub use near::Near;
