//! Buses, and checked accesses of them.
#![tactic(auto)]

#[cfg(test)]
mod checks;
#[cfg(test)]
mod models;
