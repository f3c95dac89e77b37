//! The lines of a listing.

ghost use Rattle.rv32_listing.specs.Lines as spec;
ghost use Rattle.rv32_listing.specs.Lines.{bytes_lines};
ghost use Rattle.sec_base.specs.Hexadecimal.{hex_digits};
ghost use Rattle.sec_base.specs.Sink.{IsWritten};
ghost use Rattle.std.specs.Prelude.{◌≡◌, ◌+◌, ◌<◌, ◌≤◌, ◌^◌, ◌++◌, IfOk, codes, length, string_bytes, OnOk};

use rv32_text::write_word;
use sec_base::{NoMemory, Sink, SinkStop, write_all};
use std::alloc::Global;

// Writes the lines of bytes that stand at an address.
pub fn write_bytes<S: Sink>(
    alloc: Global,
    addr: u32,
    bytes: &[u8],
    out: &mut S,
) -> Result<(), SinkStop>
    requires { addr + length bytes.now < 2 ^ 32 }
    ensures listed { IsWritten (bytes_lines addr bytes.now) (S.state out.old) (S.state out.new)
        result }
    ensures faults { (S.state out.old).faults ≤ (S.state out.new).faults }
    ensures quiet { OnOk result ((S.state out.new).faults ≡ (S.state out.old).faults) }
{
    let mut address = addr;
    let mut rest = bytes;
    while !rest.is_empty() {
        if rest.len() < 4 {
            write_byte_line(alloc, address, rest[0], out)?;
            rest = &rest[1..];
            address += 1;
        } else {
            let word = u32::from_le_bytes([rest[0], rest[1], rest[2], rest[3]]);
            write_word_line(alloc, address, word, out)?;
            rest = &rest[4..];
            address += 4;
        }
    }
    Ok(())
}

fn write_word_line<S: Sink>(
    alloc: Global,
    address: u32,
    word: u32,
    out: &mut S,
) -> Result<(), SinkStop>
    ensures listed { IsWritten (spec.word_line address word) (S.state out.old) (S.state out.new)
        result }
    ensures faults { (S.state out.old).faults ≤ (S.state out.new).faults }
    ensures quiet { OnOk result ((S.state out.new).faults ≡ (S.state out.old).faults) }
{
    let line = word_line(alloc, address, word)?;
    write_all(out, &line)?;
    Ok(())
}

fn write_byte_line<S: Sink>(
    alloc: Global,
    address: u32,
    byte: u8,
    out: &mut S,
) -> Result<(), SinkStop>
    ensures listed { IsWritten (spec.byte_line address byte) (S.state out.old) (S.state out.new)
        result }
    ensures faults { (S.state out.old).faults ≤ (S.state out.new).faults }
    ensures quiet { OnOk result ((S.state out.new).faults ≡ (S.state out.old).faults) }
{
    let line = byte_line(alloc, address, byte)?;
    write_all(out, line.as_bytes())?;
    Ok(())
}

#[tactic(auto, unfolding(crate::specs::Lines::word_line))]
fn word_line(alloc: Global, address: u32, word: u32) -> Result<Vec<u8>, NoMemory>
    ensures { IfOk result (λ line. line.items ≡ spec.word_line address word) }
{
    let mut line = word_start(alloc, address, word)?.into_bytes();
    line.extend_from_slice(write_word(alloc, word, address)?.as_slice())?;
    line.push(b'\n')?;
    Ok(line)
}

fn word_start(alloc: Global, address: u32, word: u32) -> Result<String, NoMemory>
    ensures { IfOk result (λ start. string_bytes start
        ≡ hex_digits 8 address ++ codes " " ++ hex_digits 8 word ++ codes " ") }
{
    Ok(format!(in alloc; "{address:08x} {word:08x} ")?)
}

fn byte_line(alloc: Global, address: u32, byte: u8) -> Result<String, NoMemory>
    ensures { IfOk result (λ line. string_bytes line ≡ spec.byte_line address byte) }
{
    Ok(format!(in alloc; "{address:08x} {byte:02x} .byte 0x{byte:02x}\n")?)
}
