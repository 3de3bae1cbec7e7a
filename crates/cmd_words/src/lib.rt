//! The words of a command line: which are a line of the program, and what the line asks for.
#![tactic(auto)]

mod commands;
mod lines;
mod parts;
mod reading;

pub use lines::{Flags, Line, Target};
pub use reading::line_in;
