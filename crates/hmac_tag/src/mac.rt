// HMAC with SHA-256.
ghost use Rattle.std.specs.Prelude.{◌≡◌, ◌≤◌, length, map, take, bit_xor};
ghost use Rattle.hmac_tag.specs.Hmac.{padded_key, block_key, hmac_of, hmac_under};

use sha2::{Digest, Sha256};
use std::marker::Model;

// A block of SHA-256, in bytes.
const BLOCK_LEN: usize = 64;

// The byte of ipad.
const INNER_PAD: u8 = 0x36;

// The byte of opad.
const OUTER_PAD: u8 = 0x5c;

// A key of at most a block, with zeros up to a block (FIPS 198-1, 4, steps 1 and 3).
fn padded(key: &[u8]) -> [u8; 64]
    requires { length key.now ≤ 64 }
    ensures { result ≡ padded_key key.now }
{
    let mut block = [0; BLOCK_LEN];
    block[..key.len()].copy_from_slice(key);
    block
}

// The key as one block, K0 (FIPS 198-1, 4, steps 1 to 3).
#[tactic(auto, unfolding(crate::specs::Hmac::block_key))]
fn block_of(key: &[u8]) -> [u8; 64]
    ensures { result ≡ block_key key.now }
{
    if key.len() > BLOCK_LEN {
        padded(&Sha256::digest(key))
    } else {
        padded(key)
    }
}

// Each byte of the block xor `pad`.
fn xor_each(block: &[u8; 64], pad: u8) -> [u8; 64]
    ensures { result ≡ map (λ byte. bit_xor byte pad) block.now }
{
    let mut xored = *block;
    'bytes: for byte in xored.iter_mut() {
        *byte ^= pad;
    }
    xored
}

/// A key of HMAC, ready for many texts: of both hashes the first block, which the key alone decides, is
/// hashed already. Contracts see the key as one block, K0 (FIPS 198-1, 4, steps 1 to 3).
#[derive(Drop)]
pub(crate) struct HmacKey {
    block: [u8; 64],
    inner: Sha256,
    outer: Sha256,
}

impl Model for HmacKey {
    ghost use Rattle.std.specs.Prelude.{List, ℕ};
    ghost use Rattle.sha2.specs.Hashers.{Holds256};
    ghost use Rattle.hmac_tag.specs.Hmac.{inner_block, outer_block};

    ghost Value = { List ℕ };

    ghost view = { λ key. key.block };

    ghost invariant = { λ key. Holds256 key.inner (inner_block key.block) × Holds256 key.outer (outer_block key.block) };
}

impl HmacKey {
    /// A key of any length.
    #[tactic(auto, unfolding(crate::specs::Hmac::inner_block, crate::specs::Hmac::outer_block))]
    pub(crate) fn new(key: &[u8]) -> HmacKey
        ensures { result ≡ block_key key.now }
    {
        let block = block_of(key);
        HmacKey {
            block,
            inner: Sha256::new_with_prefix(xor_each(&block, INNER_PAD)),
            outer: Sha256::new_with_prefix(xor_each(&block, OUTER_PAD)),
        }
    }

    /// The HMAC of a text (FIPS 198-1, 4, steps 4 to 9).
    #[tactic(auto, unfolding(crate::specs::Hmac::hmac_under))]
    pub(crate) fn mac(&self, text: &[u8]) -> [u8; 32]
        ensures { result ≡ hmac_under self.now text.now }
    {
        let mut inner = self.inner.clone().unwrap();
        inner.update(text);
        let mut outer = self.outer.clone().unwrap();
        outer.update(inner.finalize());
        outer.finalize()
    }
}

/// HMAC with SHA-256, of a text under a key, each of any length (FIPS 198-1, 4).
#[tactic(auto, unfolding(crate::specs::Hmac::hmac_of))]
pub fn hmac(key: &[u8], text: &[u8]) -> [u8; 32]
    ensures { result ≡ hmac_of key.now text.now }
{
    HmacKey::new(key).mac(text)
}

/// A digest cut to its leftmost 16 bytes (RFC 2104, 5).
pub(crate) fn first_16(digest: &[u8; 32]) -> [u8; 16]
    ensures { result ≡ take 16 digest.now }
{
    let mut first = [0; 16];
    first.copy_from_slice(&digest[..16]);
    first
}
