//! Sets of ways, the cache of lines, and counter blocks.
#![tactic(auto)]

#[cfg(test)]
mod counter_blocks;
#[cfg(test)]
mod lines;
#[cfg(test)]
mod sets;
