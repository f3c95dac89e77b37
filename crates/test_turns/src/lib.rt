//! The order of turns of a pair of runs.
#![tactic(auto)]

#[cfg(test)]
mod tests;
