//! The lines of the protected memory outside the chip: each is encrypted under its counter, tagged and checked. The
//! counters are split (Yan et al., ISCA 2006): where a line counter is used up, the whole page is encrypted anew. They
//! stand outside too, below a Bonsai Merkle tree (Rogers et al., MICRO 2007).
#![tactic(auto)]

mod account;
mod outside;
mod sealed_lines;

pub use account::Account;
pub use sealed_lines::SealedLines;
