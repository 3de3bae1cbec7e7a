//! The cases of a view's rules: small containers that break one rule, and others that just don't. For tests alone.
#![tactic(auto)]

#[cfg(test)]
mod tests;
