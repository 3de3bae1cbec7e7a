//! What the records of a view say: its facts, gathered in one walk over its tree.
#![tactic(auto)]

mod adding;
mod alike;
mod contents;
mod facts;
mod gathering;
mod keep;
mod scope;
mod text;

pub use adding::add_record;
pub use alike::KeptFact;
pub use facts::{AttributeFact, EntryFact, ExtentFact, Facts, InodeFact, LinkFact, SiblingFact};
pub use gathering::{ViewFacts, fault_of, view_facts, view_files};
