//! Listings of programs, and their measurements.
#![tactic(auto)]

#[cfg(test)]
mod tests;
