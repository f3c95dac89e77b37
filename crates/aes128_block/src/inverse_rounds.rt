//! The inverse cipher on a state kept as four words, one for each column (FIPS 197, 5.3).

ghost use Rattle.std.specs.Prelude.{◌≡◌, ℕ, ◌<◌, map};
ghost use Rattle.aes128_block.specs.Field.{product};
ghost use Rattle.aes128_block.specs.Word.{byte, columns_state};
ghost use Rattle.aes128_block.specs.Cipher.{row_times, add_round_key};
ghost use Rattle.aes128_block.specs.InverseCipher.{inv_s_box, inv_shift_rows, inv_sub_bytes, inv_mix_row, inv_mix_columns, inv_cipher};
ghost use Rattle.aes128_block.specs.Tables.{boxed_byte};

use crate::rounds::{add_key, block_columns, state_bytes};
use crate::tables::inv_sub_byte;
use crate::words::{join_bytes, row_byte};

/// The product of a byte with 02 (4.2).
#[inline(always)]
fn doubled(byte: u8) -> u8
    ensures { result ≡ product 2 byte }
{
    byte << 1 ^ (byte >> 7) * 0x1b
}

/// The products of a byte with the places of INVMIXCOLUMNS' first row.
#[inline(always)]
fn inv_products(byte: u8) -> [u8; 4]
    ensures { result ≡ map (λ place. product place byte) inv_mix_row }
{
    let by_2 = doubled(byte);
    let by_4 = doubled(by_2);
    let by_8 = doubled(by_4);
    [
        by_8 ^ by_4 ^ by_2,
        by_8 ^ by_2 ^ byte,
        by_8 ^ by_4 ^ byte,
        by_8 ^ byte,
    ]
}

/// A column through INVMIXCOLUMNS (5.3.3).
#[inline(always)]
fn unmixed_column(column: u32) -> u32
    ensures { (r : ℕ) → r < 4 →
        byte r result ≡ row_times inv_mix_row r (byte 0 column) (byte 1 column) (byte 2 column)
        (byte 3 column) }
{
    let a = inv_products(row_byte(column, 0));
    let b = inv_products(row_byte(column, 1));
    let c = inv_products(row_byte(column, 2));
    let d = inv_products(row_byte(column, 3));
    join_bytes(
        a[0] ^ b[1] ^ c[2] ^ d[3],
        a[3] ^ b[0] ^ c[1] ^ d[2],
        a[2] ^ b[3] ^ c[0] ^ d[1],
        a[1] ^ b[2] ^ c[3] ^ d[0],
    )
}

/// A column through INVSUBBYTES, from the four columns that bring its rows, and then ADDROUNDKEY.
#[inline(always)]
fn unboxed_column(a: u32, b: u32, c: u32, d: u32, key: u32) -> u32
    ensures { (r : ℕ) → r < 4 → byte r result ≡ boxed_byte inv_s_box r a b c d key }
{
    let row_0 = inv_sub_byte(row_byte(a, 0));
    let row_1 = inv_sub_byte(row_byte(b, 1));
    let row_2 = inv_sub_byte(row_byte(c, 2));
    let row_3 = inv_sub_byte(row_byte(d, 3));
    join_bytes(row_0, row_1, row_2, row_3) ^ key
}

/// INVSHIFTROWS, INVSUBBYTES and ADDROUNDKEY (5.3).
#[inline(always)]
fn unboxed(state: &[u32; 4], words: &[u32; 44], round: usize) -> [u32; 4]
    requires { round < 11 }
    ensures { columns_state result
        ≡ add_round_key words.now round (inv_sub_bytes (inv_shift_rows (columns_state state.now))) }
{
    let (a, b, c, d) = (state[0], state[1], state[2], state[3]);
    let first = 4 * round;
    [
        unboxed_column(a, d, c, b, words[first]),
        unboxed_column(b, a, d, c, words[first + 1]),
        unboxed_column(c, b, a, d, words[first + 2]),
        unboxed_column(d, c, b, a, words[first + 3]),
    ]
}

/// INVMIXCOLUMNS (5.3.3).
#[inline(always)]
fn unmixed(state: &[u32; 4]) -> [u32; 4]
    ensures { columns_state result ≡ inv_mix_columns (columns_state state.now) }
{
    [
        unmixed_column(state[0]),
        unmixed_column(state[1]),
        unmixed_column(state[2]),
        unmixed_column(state[3]),
    ]
}

/// The state before a round with the matrix, and before SUBBYTES and SHIFTROWS after it (5.3).
fn before_round(state: &[u32; 4], words: &[u32; 44], round: usize) -> [u32; 4]
    requires { round < 11 }
    ensures { columns_state result
        ≡ inv_mix_columns (add_round_key words.now round
        (inv_sub_bytes (inv_shift_rows (columns_state state.now)))) }
{
    unmixed(&unboxed(state, words, round))
}

/// INVCIPHER of a block with the words of a key schedule (5.3).
pub(crate) fn inv_cipher_block(words: &[u32; 44], block: &[u8; 16]) -> [u8; 16]
    ensures { result ≡ inv_cipher words.now block.now }
{
    let last = add_key(&block_columns(block), words, 10);
    let before_9 = before_round(&last, words, 9);
    let before_8 = before_round(&before_9, words, 8);
    let before_7 = before_round(&before_8, words, 7);
    let before_6 = before_round(&before_7, words, 6);
    let before_5 = before_round(&before_6, words, 5);
    let before_4 = before_round(&before_5, words, 4);
    let before_3 = before_round(&before_4, words, 3);
    let before_2 = before_round(&before_3, words, 2);
    let before_1 = before_round(&before_2, words, 1);
    state_bytes(&unboxed(&before_1, words, 0))
}
