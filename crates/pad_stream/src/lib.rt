//! Enciphers and deciphers lines of 64 bytes under their number and their counter, by counter mode over AES-128
//! (NIST SP 800-38A, 6.5), and keeps a list of all that it enciphered under. The list comes out only where the
//! engine is given up, so a chip that uses it can't decide by it.
#![tactic(auto)]

mod pad;
mod pad_engine;
#[cfg(test)]
mod tests;

pub use pad_engine::PadEngine;
