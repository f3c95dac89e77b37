//! Reports of runs.
#![tactic(auto)]

#[cfg(test)]
mod tests;
