//! How files are read: the longest that are taken, in which order, and reads that fail.
#![tactic(auto)]

#[cfg(test)]
mod tests;
