//! A protected memory over a bus that flips a bit at one read of one place.
#![tactic(auto)]

#[cfg(test)]
mod tests;
