//! The counters that the lines of all pages are encrypted under. They stand outside the chip, a block of counters for each
//! page, under a tree that shows whether a block is the last one. The most recently used blocks are cached on the chip, and
//! one that was changed is written only when it goes out.
#![tactic(auto)]

mod counters;

pub use counters::Counters;
