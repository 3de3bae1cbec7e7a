//! The views and the accounts of made containers. For tests alone.
#![tactic(auto)]

#[cfg(test)]
mod tests;
