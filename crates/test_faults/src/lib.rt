//! Reads and writes that fail, each in turn, sinks that take little of a piece, and files and sinks out of memory.
#![tactic(auto)]

#[cfg(test)]
mod forgetful;
#[cfg(test)]
mod tests;
