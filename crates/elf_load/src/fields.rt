// The numbers of a file, the lowest byte first.

ghost use Rattle.elf_load.specs.Format.{u16_at, u32_at};
ghost use Rattle.elf_load.specs.Spelling.{u16_bytes, u32_bytes};
ghost use Rattle.std.specs.Prelude.{OnErr, OnOk, length, ◌++◌, ◌+◌, ◌≡◌, ◌≤◌};

use byteorder::{ByteOrder, LittleEndian};

/// The number in two bytes, the lowest first.
#[tactic(auto, using(crate::proofs::LittleEndian::little_two), unfolding(crate::specs::Format::u16_at))]
pub fn u16_at(bytes: &[u8], at: usize) -> u16
    requires { at + 2 ≤ length bytes.now }
    ensures { result ≡ u16_at bytes.now at }
{
    LittleEndian::read_u16(&bytes[at..])
}

/// The number in four bytes, the lowest first.
#[tactic(auto, using(crate::proofs::LittleEndian::little_four), unfolding(crate::specs::Format::u32_at))]
pub fn u32_at(bytes: &[u8], at: usize) -> u32
    requires { at + 4 ≤ length bytes.now }
    ensures { result ≡ u32_at bytes.now at }
{
    LittleEndian::read_u32(&bytes[at..])
}

/// The two bytes of a number.
#[tactic(auto, unfolding(crate::specs::Spelling::u16_bytes))]
pub fn u16_bytes(n: u16) -> [u8; 2]
    ensures { result ≡ u16_bytes n }
{
    let mut bytes = [0; 2];
    LittleEndian::write_u16(&mut bytes, n);
    bytes
}

/// The four bytes of a number.
#[tactic(auto, unfolding(crate::specs::Spelling::u32_bytes))]
pub fn u32_bytes(n: u32) -> [u8; 4]
    ensures { result ≡ u32_bytes n }
{
    let mut bytes = [0; 4];
    LittleEndian::write_u32(&mut bytes, n);
    bytes
}
