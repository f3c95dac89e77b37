//! Checks of reports: those that pass, and each refusal.
#![tactic(auto)]

#[cfg(test)]
mod tests;
