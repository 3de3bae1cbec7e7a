//! The texts of the commands: what each writes of a container, and why it stops if it has no text.
#![tactic(auto)]

pub mod commands;
mod meant;
mod meant_view;
mod on_path;
mod put;

pub use put::{Line, put_lines};
