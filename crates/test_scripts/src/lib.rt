//! Scripts of an adversary.
#![tactic(auto)]

#[cfg(test)]
mod tests;
