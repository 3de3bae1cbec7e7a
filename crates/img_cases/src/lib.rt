//! Made images and plans, against what the format says of them. For tests alone.
#![tactic(auto)]

#[cfg(test)]
mod tests;
