//! Pages of a protected memory: accesses, evictions, replays and want of memory.
#![tactic(auto)]

#[cfg(test)]
mod tests;
