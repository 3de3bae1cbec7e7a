//! Edits of made images: numbers and bytes in blocks, sums stored anew, blocks marked and freed.
#![tactic(auto)]

mod counts;
mod editing;
mod growing;
pub mod header;
pub mod node;
pub mod places;
mod seal;
mod writer;

pub use counts::{free, mark};
pub use editing::{edit, reseal_block, write};
pub use seal::reseal;
pub use writer::{put_bytes, put_u16, put_u32, put_u64};
