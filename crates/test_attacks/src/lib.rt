//! Runs over a memory that an adversary changes by a script.
#![tactic(auto)]

#[cfg(test)]
mod tests;
