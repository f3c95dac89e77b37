//! Generated programs.
#![tactic(auto)]

#[cfg(test)]
mod tests;
