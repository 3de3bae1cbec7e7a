//! What paths lead to in made containers, what files and attributes hold there, which blocks views hold, and what folders get of them. For tests alone.
#![tactic(auto)]

#[cfg(test)]
mod tests;
