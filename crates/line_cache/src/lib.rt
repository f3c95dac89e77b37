//! A write-back cache of lines: a memory over any store of lines, which holds copies of at most 128 of them and writes
//! a changed one only when it goes out.
#![tactic(auto)]

mod fetch;
mod line_cache;

pub use line_cache::LineCache;
