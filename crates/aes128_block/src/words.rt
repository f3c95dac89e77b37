//! Words of four bytes, the first of them lowest (FIPS 197, 3.5).

ghost use Rattle.std.specs.Prelude.{◌≡◌, ◌<◌};
ghost use Rattle.aes128_block.specs.Word.{byte, word_of, column};

/// The byte of a word in a row.
#[inline(always)]
pub(crate) fn row_byte(word: u32, row: u32) -> u8
    requires { row < 4 }
    ensures { result ≡ byte row word }
{
    (word >> (8 * row) & 0xff) as u8
}

/// The word of four bytes, row by row.
#[inline(always)]
#[tactic(auto, unfolding(crate::specs::Word::word_of))]
pub(crate) fn join_bytes(a0: u8, a1: u8, a2: u8, a3: u8) -> u32
    ensures { result ≡ word_of a0 a1 a2 a3 }
{
    u32::from_le_bytes([a0, a1, a2, a3])
}

/// A column of a block.
#[inline(always)]
pub(crate) fn block_column(block: &[u8; 16], place: usize) -> u32
    requires { place < 4 }
    ensures { result ≡ column block.now place }
{
    let row_0 = 4 * place;
    join_bytes(
        block[row_0],
        block[1 + row_0],
        block[2 + row_0],
        block[3 + row_0],
    )
}
