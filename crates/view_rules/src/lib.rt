//! The rules of a view: what its file-system tree must be, and what the records of that tree must say of one another.
#![tactic(auto)]

mod fault;
mod notes;
mod profile;
mod theorem;

pub use fault::{IdAt, NamedAt, TreeFault};
pub use notes::Note;
pub use profile::Profile;
pub use theorem::rules_or_flaw;
