//! The cases of a check: made containers that are well-formed, and others that differ from these by one fact. For tests alone.
#![tactic(auto)]

#[cfg(test)]
mod tests;
