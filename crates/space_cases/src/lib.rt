//! The space, the pool and the marks of made containers. For tests alone.
#![tactic(auto)]

#[cfg(test)]
mod tests;
