//! The counters over the integrity tree.
#![tactic(auto)]

#[cfg(test)]
mod tests;
