//! Small blocks, nodes, records and trees that are written here. For tests alone.
#![tactic(auto)]

#[cfg(test)]
mod tests;
