//! A new container with one empty volume: which can be made, what each holds, byte by byte, and the call that writes it.
#![tactic(auto)]

mod blocks;
mod field;
mod files;
mod object;
mod places;
mod roots;
mod spec;
mod writing;

pub use spec::Spec;
pub use writing::{FormatStop, format};
