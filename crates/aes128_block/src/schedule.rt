//! The key schedule (FIPS 197, 5.2).

ghost use Rattle.std.specs.Prelude.{◌≡◌, ◌<◌, ◌≤◌};
ghost use Rattle.aes128_block.specs.KeyExpansion.{rot_word, sub_word, temp, round_constants, key_expansion};

use crate::tables::sub_byte;
use crate::words::{block_column, join_bytes, row_byte};

static ROUND_CONSTANTS: [u8; 10] = [0x01, 0x02, 0x04, 0x08, 0x10, 0x20, 0x40, 0x80, 0x1b, 0x36];

/// The first bytes of the round constants (5.2).
fn first_constants() -> &'static [u8; 10]
    ensures { result.now ≡ round_constants }
{
    &ROUND_CONSTANTS
}

/// ROTWORD (5.2).
fn rotated(word: u32) -> u32
    ensures { result ≡ rot_word word }
{
    join_bytes(
        row_byte(word, 1),
        row_byte(word, 2),
        row_byte(word, 3),
        row_byte(word, 0),
    )
}

/// SUBWORD (5.2).
fn substituted(word: u32) -> u32
    ensures { result ≡ sub_word word }
{
    let row_0 = sub_byte(row_byte(word, 0));
    let row_1 = sub_byte(row_byte(word, 1));
    let row_2 = sub_byte(row_byte(word, 2));
    let row_3 = sub_byte(row_byte(word, 3));
    join_bytes(row_0, row_1, row_2, row_3)
}

/// What word `n` is xored with, from the word before it (5.2).
fn change(n: usize, before: u32) -> u32
    requires low { 4 ≤ n }
    requires high { n < 44 }
    ensures { result ≡ temp n before }
{
    if n % 4 == 0 {
        substituted(rotated(before)) ^ u32::from(first_constants()[n / 4 - 1])
    } else {
        before
    }
}

/// KEYEXPANSION (5.2).
pub(crate) fn expanded_key(key: &[u8; 16]) -> [u32; 44]
    ensures { result ≡ key_expansion key.now }
{
    let mut words = [0; 44];
    words[0] = block_column(key, 0);
    words[1] = block_column(key, 1);
    words[2] = block_column(key, 2);
    words[3] = block_column(key, 3);
    for made in 0..40 {
        let n = made + 4;
        words[n] = words[n - 4] ^ change(n, words[n - 1]);
    }
    words
}
