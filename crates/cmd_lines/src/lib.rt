//! Orders, lines and statuses: what words ask for, and how a fault, a feature and an answer are written.
#![tactic(auto)]

pub mod fault_places;
mod fault_text;
mod fault_words;
mod named;
pub mod say;
mod shown;
mod stopped;
mod words;

pub use named::Named;
pub use shown::identifier;
pub use stopped::{Stopped, stopped_by};
pub use words::{Checks, Command, NewContainer, Order, asked};
