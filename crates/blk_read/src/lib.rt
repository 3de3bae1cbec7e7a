//! Reading blocks of an image from a source, and the objects that have to be sound in them.
#![tactic(auto)]

mod block;
mod object;

pub use block::{read_block, read_new};
pub use object::read_sound;
