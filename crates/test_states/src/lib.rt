//! State files.
#![tactic(auto)]

#[cfg(test)]
mod tests;
