// The pad of a line, and lines mixed with it.
ghost use Rattle.std.specs.Prelude.{◌≡◌};
ghost use Rattle.pad_stream.specs.Pad.{pad_input, pad_of, xor_of, cipher_of};

use aes128_block::Key;
use sec_base::{Counter, put};

/// A line mixed with the pad of its number and its counter, which is its cipher, or the line again where it was a
/// cipher.
#[tactic(auto, using(crate::proofs::Enciphering::cipher_of_twice), unfolding(crate::specs::Pad::cipher_of))]
pub(crate) fn mixed_line(key: &Key, line: u32, counter: Counter, bytes: &[u8; 64]) -> [u8; 64]
    ensures value { result ≡ cipher_of key.now line counter bytes.now }
    ensures undone { cipher_of key.now line counter result ≡ bytes.now }
{
    mixed(&line_pad(key, line, counter), bytes)
}

// The pad of a line under a counter: four blocks, each enciphered.
fn line_pad(key: &Key, line: u32, counter: Counter) -> [u8; 64]
    ensures { result ≡ pad_of key.now line counter }
{
    let mut pad = [0; 64];
    put(&mut pad, 0, &key.encrypt(&input_block(line, counter, 0)));
    put(&mut pad, 16, &key.encrypt(&input_block(line, counter, 1)));
    put(&mut pad, 32, &key.encrypt(&input_block(line, counter, 2)));
    put(&mut pad, 48, &key.encrypt(&input_block(line, counter, 3)));
    pad
}

// What a block of a pad is enciphered from: the line as u32 and the page's counter as u64, the lowest byte first, the
// line's own counter, the number of the block, and two zeros.
pub(crate) fn input_block(line: u32, counter: Counter, block: u8) -> [u8; 16]
    ensures { result ≡ pad_input line counter block }
{
    let mut input = [0; 16];
    put(&mut input, 0, &line.to_le_bytes());
    put(&mut input, 4, &counter.page.to_le_bytes());
    put(&mut input, 12, &[counter.line, block, 0, 0]);
    input
}

// Each byte of a line with that of the pad, by xor.
fn mixed(pad: &[u8; 64], bytes: &[u8; 64]) -> [u8; 64]
    ensures { result ≡ xor_of pad.now bytes.now }
{
    let mut mixed = [0; 64];
    for place in 0..64 {
        mixed[place] = pad[place] ^ bytes[place];
    }
    mixed
}
