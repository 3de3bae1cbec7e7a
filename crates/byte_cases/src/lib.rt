//! Bytes, files, bits, names and lines of words: what no clause says of them. For tests alone.
#![tactic(auto)]

#[cfg(test)]
mod tests;
