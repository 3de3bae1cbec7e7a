//! The volumes, streams and extent references of made containers, small object maps, and small rings of checkpoints. For tests alone.
#![tactic(auto)]

#[cfg(test)]
mod tests;
