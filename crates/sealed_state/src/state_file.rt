// State files: a chip seals its state in one, and has it back from one that is good.
ghost use Rattle.std.specs.Prelude.{◌≡◌, ◌↔◌, ◌<◌, ◌≤◌, IfOk, IsOk, OnErr, OnOk, length};
ghost use Rattle.std.specs.Result.{result_err};
ghost use Rattle.pad_stream.specs.PadEngine.{after_encrypt};
ghost use Rattle.sealed_state.specs.StateFile as spec;
ghost use Rattle.sealed_state.specs.StateFile.{IsGood, after_seal, cipher_of_block, cipher_of_blocks, first_state_fault, state_counter, state_file, state_file_body, state_line, state_or_fault};

use crate::chip_state::{ChipState, STATE_LEN, part, state_bytes, state_of_bytes, u64_at};
use crate::state_fault::StateFault;
use hmac_tag::hmac;
use pad_stream::PadEngine;
use sec_base::{Counter, NoMemory, put};

// The first byte of a state file.
const KIND: u8 = 0x53;

// Where the number begins, and the blocks.
const NUMBER_AT: usize = 1;

const BLOCKS_AT: usize = 9;

// A block, in bytes, and how many blocks a state has.
const BLOCK_LEN: usize = 64;

const BLOCKS: u64 = 3;

// The line that block 0 is enciphered for, above those of every memory. The next blocks are for the next lines.
const FIRST_LINE: u32 = 0xffff_ff00;

// How many bytes the HMAC is of; it stands behind them.
const BODY_LEN: usize = 201;

// How many bytes a state file has.
const FILE_LEN: usize = 233;

/// The file of a state under this number: the byte 53 in hexadecimal, the number as u64, the lowest byte first, the
/// state in three enciphered blocks, and the HMAC-SHA-256 of these 201 bytes under `key`, the state key. Fails only if
/// out of memory. It doesn't ask whether the number was used before.
pub fn seal(
    pads: &mut PadEngine,
    state: &ChipState,
    number: u64,
    key: &[u8; 32],
) -> Result<[u8; 233], NoMemory>
    ensures file { IfOk result (λ file. file ≡ state_file pads.old.key key.now number state.now) }
    ensures reread { IfOk result (λ file.
        state_or_fault pads.old.key key.now number file ≡ Ok state.now) }

    // Where memory runs out no entry is kept, so a file can be sealed under that number again.
    ensures used { OnOk result (pads.new ≡ after_seal number pads.old) }
    ensures refused { OnErr result (pads.new ≡ pads.old) }
{
    let cipher = encipher(pads, &state_bytes(state), number)?;
    let body = file_body(number, &cipher);
    let mut file = [0; FILE_LEN];
    put(&mut file, 0, &body);
    put(&mut file, BODY_LEN, &hmac(key, &body));
    Ok(file)
}

// What the HMAC is of.
fn file_body(number: u64, cipher: &[u8; 192]) -> [u8; 201]
    ensures { result ≡ state_file_body number cipher.now }
{
    let mut body = [0; BODY_LEN];
    put(&mut body, 0, &[KIND]);
    put(&mut body, NUMBER_AT, &number.to_le_bytes());
    put(&mut body, BLOCKS_AT, cipher);
    body
}

// The cipher of a state's bytes. The entries of all blocks are reserved first, so that none of them is refused.
fn encipher(pads: &mut PadEngine, bytes: &[u8; 192], number: u64) -> Result<[u8; 192], NoMemory>
    ensures cipher { IfOk result (λ cipher.
        cipher ≡ cipher_of_blocks pads.old.key number bytes.now) }
    ensures used { OnOk result (pads.new ≡ after_seal number pads.old) }
    ensures refused { OnErr result (pads.new ≡ pads.old) }
{
    pads.reserve(BLOCKS)?;
    let mut cipher = [0; STATE_LEN];
    put(&mut cipher, 0, &encipher_block(pads, bytes, number, 0)?);
    put(&mut cipher, 64, &encipher_block(pads, bytes, number, 1)?);
    put(&mut cipher, 128, &encipher_block(pads, bytes, number, 2)?);
    Ok(cipher)
}

// A block of them, enciphered for its line.
#[tactic(auto, unfolding(crate::specs::StateFile::cipher_of_block))]
fn encipher_block(
    pads: &mut PadEngine,
    bytes: &[u8; 192],
    number: u64,
    block: u8,
) -> Result<[u8; 64], NoMemory>
    requires { block < 3 }
    ensures cipher { IfOk result (λ cipher.
        cipher ≡ cipher_of_block pads.old.key number bytes.now block) }
    ensures used { OnOk result (
        pads.new ≡ after_encrypt (state_line block) (state_counter number) pads.old) }
    ensures sure { 0 < pads.old.room → IsOk result }
    ensures refused { OnErr result (pads.new ≡ pads.old) }
{
    let plain = part(bytes, BLOCK_LEN * usize::from(block));
    pads.encrypt(state_line(block), state_counter(number), &plain)
}

// The line that a block is enciphered for.
fn state_line(block: u8) -> u32
    requires { block < 3 }
    ensures { result ≡ state_line block }
{
    FIRST_LINE + u32::from(block)
}

// The counter that the file of this number is enciphered under.
fn state_counter(number: u64) -> Counter
    ensures { result ≡ state_counter number }
{
    Counter {
        page: number,
        line: 0,
    }
}

/// The state in a file that is good for `key`, the state key, and `number`, the chip's, or the first fault that holds.
/// `pads` has the AES key that the state was sealed under; under another one the state is another. Takes no memory.
pub fn unseal(
    pads: &PadEngine,
    file: &[u8],
    number: u64,
    key: &[u8; 32],
) -> Result<ChipState, StateFault>
    ensures opened { result ≡ state_or_fault pads.now.key key.now number file.now }

    // The four rules, whatever the AES key.
    ensures good { IsOk result ↔ IsGood key.now number file.now }
{
    check(file, number, key)?;
    let cipher = part(file, BLOCKS_AT);
    Ok(state_of_bytes(&decipher(pads, &cipher, number)))
}

// The first fault of a file that holds.
#[tactic(auto, unfolding(crate::specs::StateFile::first_state_fault))]
fn check(file: &[u8], number: u64, key: &[u8; 32]) -> Result<(), StateFault>
    ensures { result_err result ≡ first_state_fault key.now number file.now }
{
    if file.len() != FILE_LEN {
        return Err(StateFault::Length);
    }
    if file[0] != KIND {
        return Err(StateFault::Kind);
    }
    if !is_tagged(file, key) {
        return Err(StateFault::Tag);
    }
    if u64_at(file, NUMBER_AT) != number {
        return Err(StateFault::Number);
    }
    Ok(())
}

// Whether a file's last bytes are the HMAC of those before them.
#[tactic(auto, unfolding(crate::specs::StateFile::is_tagged))]
fn is_tagged(file: &[u8], key: &[u8; 32]) -> bool
    requires { length file.now ≡ 233 }
    ensures { result ≡ spec.is_tagged key.now file.now }
{
    let (body, tag) = file.split_at(BODY_LEN);
    tag == hmac(key, body).as_slice()
}

// The bytes that a cipher is of.
fn decipher(pads: &PadEngine, cipher: &[u8; 192], number: u64) -> [u8; 192]
    ensures { result ≡ cipher_of_blocks pads.now.key number cipher.now }
{
    let mut bytes = [0; STATE_LEN];
    put(&mut bytes, 0, &decipher_block(pads, cipher, number, 0));
    put(&mut bytes, 64, &decipher_block(pads, cipher, number, 1));
    put(&mut bytes, 128, &decipher_block(pads, cipher, number, 2));
    bytes
}

// A block of a cipher, deciphered.
#[tactic(auto, unfolding(crate::specs::StateFile::cipher_of_block))]
fn decipher_block(pads: &PadEngine, cipher: &[u8; 192], number: u64, block: u8) -> [u8; 64]
    requires { block < 3 }
    ensures { result ≡ cipher_of_block pads.now.key number cipher.now block }
{
    let bytes = part(cipher, BLOCK_LEN * usize::from(block));
    pads.decrypt(state_line(block), state_counter(number), &bytes)
}
