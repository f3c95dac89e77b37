//! Runs of programs on the plain machine and on protected memory: what they print, and how they end.
#![tactic(auto)]

#[cfg(test)]
mod tests;
