//! Runs on protected memory, their records and their reports.
#![tactic(auto)]

#[cfg(test)]
mod tests;
