//! The whole check: whether a container is well-formed, and what is wrong with it where it isn't.
#![tactic(auto)]

mod checking;
mod data;
mod fault;
mod gathered;
mod loading;
mod notes;
mod raising;
mod ranges;
mod report;
mod theorem;
mod views;
mod volumes;

pub use checking::check;
pub use fault::Fault;
pub use raising::Raise;
pub use report::Report;
pub use theorem::well_formed_or_flawed;
