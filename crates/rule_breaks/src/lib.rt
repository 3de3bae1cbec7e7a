//! The first fact of a view that breaks a rule, for each rule that is a test of one fact; and the faults that such facts show, by groups of rules.
#![tactic(auto)]

pub mod directories;
pub mod entries;
pub mod extents;
pub mod faults;
pub mod fellows;
pub mod inodes;
pub mod links;
pub mod names;
pub mod order;
pub mod repeats;
mod suspects;
