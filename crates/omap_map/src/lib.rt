//! Object maps: which block a virtual object has at a transaction, and whether a map is whole.
#![tactic(auto)]

mod fault;
mod keep;
mod namer;
mod object;
mod omap;
mod records;
mod trees;

pub use fault::OmapFault;
pub use namer::At;
pub use omap::Omap;
pub use records::{OmapRecord, Place};
