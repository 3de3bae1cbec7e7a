//! The cases of the program: what it is handed, what it writes and how it ends. For tests alone.
#![tactic(auto)]

#[cfg(test)]
mod tests;
