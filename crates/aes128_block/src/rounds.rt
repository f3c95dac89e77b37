//! The cipher on a state kept as four words, one for each column (FIPS 197, 5.1).

ghost use Rattle.std.specs.Prelude.{◌≡◌, ℕ, ◌+◌, ◌<◌};
ghost use Rattle.aes128_block.specs.SBox.{s_box};
ghost use Rattle.aes128_block.specs.Word.{byte, columns_state};
ghost use Rattle.aes128_block.specs.Cipher.{sub_bytes, shift_rows, mix_columns, add_round_key, cipher};
ghost use Rattle.aes128_block.specs.Tables.{round_byte, boxed_byte};

use crate::tables::{cipher_tables, sub_byte};
use crate::words::{block_column, join_bytes, row_byte};

/// A column after a round with the matrix, from the four columns that bring its rows and a key word.
#[inline(always)]
fn round_column(a: u32, b: u32, c: u32, d: u32, key: u32) -> u32
    ensures { (r : ℕ) → r < 4 → byte r result ≡ round_byte r a b c d key }
{
    let tables = cipher_tables();
    tables.round_0[usize::from(row_byte(a, 0))]
        ^ tables.round_1[usize::from(row_byte(b, 1))]
        ^ tables.round_2[usize::from(row_byte(c, 2))]
        ^ tables.round_3[usize::from(row_byte(d, 3))]
        ^ key
}

/// A column after the last round, likewise.
#[inline(always)]
fn last_round_column(a: u32, b: u32, c: u32, d: u32, key: u32) -> u32
    ensures { (r : ℕ) → r < 4 → byte r result ≡ boxed_byte s_box r a b c d key }
{
    let row_0 = sub_byte(row_byte(a, 0));
    let row_1 = sub_byte(row_byte(b, 1));
    let row_2 = sub_byte(row_byte(c, 2));
    let row_3 = sub_byte(row_byte(d, 3));
    join_bytes(row_0, row_1, row_2, row_3) ^ key
}

/// The columns of a block.
#[inline(always)]
pub(crate) fn block_columns(block: &[u8; 16]) -> [u32; 4]
    ensures { columns_state result ≡ block.now }
{
    [
        block_column(block, 0),
        block_column(block, 1),
        block_column(block, 2),
        block_column(block, 3),
    ]
}

/// ADDROUNDKEY with the four words of a round (5.1.4).
#[inline(always)]
pub(crate) fn add_key(state: &[u32; 4], words: &[u32; 44], round: usize) -> [u32; 4]
    requires { round < 11 }
    ensures { columns_state result ≡ add_round_key words.now round (columns_state state.now) }
{
    let first = 4 * round;
    [
        state[0] ^ words[first],
        state[1] ^ words[first + 1],
        state[2] ^ words[first + 2],
        state[3] ^ words[first + 3],
    ]
}

/// A round with the matrix (5.1).
#[inline(always)]
fn after_round(state: &[u32; 4], words: &[u32; 44], round: usize) -> [u32; 4]
    requires { round < 11 }
    ensures { columns_state result
        ≡ add_round_key words.now round
        (mix_columns (shift_rows (sub_bytes (columns_state state.now)))) }
{
    let (a, b, c, d) = (state[0], state[1], state[2], state[3]);
    let first = 4 * round;
    [
        round_column(a, b, c, d, words[first]),
        round_column(b, c, d, a, words[first + 1]),
        round_column(c, d, a, b, words[first + 2]),
        round_column(d, a, b, c, words[first + 3]),
    ]
}

/// The last round, which has no matrix (5.1).
#[inline(always)]
fn after_last_round(state: &[u32; 4], words: &[u32; 44]) -> [u32; 4]
    ensures { columns_state result
        ≡ add_round_key words.now 10 (shift_rows (sub_bytes (columns_state state.now))) }
{
    let (a, b, c, d) = (state[0], state[1], state[2], state[3]);
    [
        last_round_column(a, b, c, d, words[40]),
        last_round_column(b, c, d, a, words[41]),
        last_round_column(c, d, a, b, words[42]),
        last_round_column(d, a, b, c, words[43]),
    ]
}

/// The bytes of a state, column after column.
#[inline(always)]
pub(crate) fn state_bytes(state: &[u32; 4]) -> [u8; 16]
    ensures { result ≡ columns_state state.now }
{
    let (a, b, c, d) = (state[0], state[1], state[2], state[3]);
    [
        row_byte(a, 0),
        row_byte(a, 1),
        row_byte(a, 2),
        row_byte(a, 3),
        row_byte(b, 0),
        row_byte(b, 1),
        row_byte(b, 2),
        row_byte(b, 3),
        row_byte(c, 0),
        row_byte(c, 1),
        row_byte(c, 2),
        row_byte(c, 3),
        row_byte(d, 0),
        row_byte(d, 1),
        row_byte(d, 2),
        row_byte(d, 3),
    ]
}

/// CIPHER of a block with the words of a key schedule (5.1).
///
/// The rounds are written out: LLVM keeps the columns of a loop in a vector, which takes half as long again.
pub(crate) fn cipher_block(words: &[u32; 44], block: &[u8; 16]) -> [u8; 16]
    ensures { result ≡ cipher words.now block.now }
{
    let whitened = add_key(&block_columns(block), words, 0);
    let round_1 = after_round(&whitened, words, 1);
    let round_2 = after_round(&round_1, words, 2);
    let round_3 = after_round(&round_2, words, 3);
    let round_4 = after_round(&round_3, words, 4);
    let round_5 = after_round(&round_4, words, 5);
    let round_6 = after_round(&round_5, words, 6);
    let round_7 = after_round(&round_6, words, 7);
    let round_8 = after_round(&round_7, words, 8);
    let round_9 = after_round(&round_8, words, 9);
    state_bytes(&after_last_round(&round_9, words))
}
