//! AES with a key of 128 bits (FIPS 197), one block at a time.
#![tactic(auto)]

mod inverse_rounds;
mod rounds;
mod schedule;
mod tables;
#[cfg(test)]
mod tests;
mod words;

ghost use Rattle.std.specs.Prelude.{◌≡◌, ℕ, List};
ghost use Rattle.aes128_block.specs.Word.{columns_state, IsBlock};
ghost use Rattle.aes128_block.specs.KeyExpansion.{key_expansion, encrypted};
ghost use Rattle.aes128_block.specs.InverseCipher.{decrypted};

use std::marker::Model;

/// A key of 16 bytes, kept as the words of its schedule. A contract sees the 16 bytes.
#[derive(Drop)]
pub struct Key {
    words: [u32; 44],
}

impl Model for Key {
    ghost Value = { List ℕ };

    ghost view = { λ k. columns_state k.words };

    ghost invariant = { λ k. k.words ≡ key_expansion (columns_state k.words) };
}

impl Key {
    /// The key of 16 bytes.
    pub fn new(key: &[u8; 16]) -> Key
        ensures { result ≡ key.now }
    {
        Key {
            words: schedule::expanded_key(key),
        }
    }

    /// The cipher of a block (FIPS 197, 5.1). Unequal blocks have unequal ciphers.
    pub fn encrypt(&self, block: &[u8; 16]) -> [u8; 16]
        ensures value { result ≡ encrypted self.now block.now }
        ensures undone { decrypted self.now result ≡ block.now }
        ensures distinct { (other : List ℕ) → IsBlock other → encrypted self.now other ≡ result →
            other ≡ block.now }
    {
        rounds::cipher_block(&self.words, block)
    }

    /// The block that a cipher is of (FIPS 197, 5.3).
    pub fn decrypt(&self, block: &[u8; 16]) -> [u8; 16]
        ensures value { result ≡ decrypted self.now block.now }
        ensures undone { encrypted self.now result ≡ block.now }
    {
        inverse_rounds::inv_cipher_block(&self.words, block)
    }
}
