// The state of a chip between two instructions, and its bytes.
ghost use Rattle.std.specs.Prelude.{◌≡◌, ◌+◌, ◌^◌, ◌<◌, ◌≤◌, ◌++◌, List, drop, length, slice_index, take, ℕ};
ghost use Rattle.std.specs.List.{flat_map};
ghost use Rattle.std.specs.Int.{w32, to_le_bytes};
ghost use Rattle.sealed_state.specs.ChipState as spec;
ghost use Rattle.sealed_state.specs.ChipState.{registers_in, u32_at, u64_at};

use sec_base::put;

/// What a chip knows of a run between two instructions, but for the memory, the program and the input.
#[derive(Clone, Copy, Debug, PartialEq, Eq)]
pub struct ChipState {
    /// The program counter.
    pub pc: u32,
    /// The registers x1 to x31.
    pub regs: [u32; 31],
    /// How many bytes of the input were read.
    pub position: u64,
    /// Where the program's break was at first.
    pub first_break: u32,
    /// Where it is now.
    pub brk: u32,
    /// How many instructions were retired.
    pub retired: u64,
}

/// How many bytes a state has.
pub(crate) const STATE_LEN: usize = 192;

// How many of them its fields have; those behind are zeros.
const FIELDS_LEN: usize = 152;

// Where each field begins.
const PC_AT: usize = 0;

const REGS_AT: usize = 4;

const POSITION_AT: usize = 128;

const FIRST_BREAK_AT: usize = 136;

const BRK_AT: usize = 140;

const RETIRED_AT: usize = 144;

/// The bytes of a state: those of its fields, and zeros.
#[tactic(auto, unfolding(crate::specs::ChipState::state_bytes))]
pub(crate) fn state_bytes(state: &ChipState) -> [u8; 192]
    ensures bytes { result ≡ spec.state_bytes state.now }
    ensures reread { spec.state_of_bytes result ≡ state.now }
{
    let mut bytes = [0; STATE_LEN];
    put(&mut bytes, 0, &field_bytes(state));
    bytes
}

// The bytes of the fields in their order, the lowest byte of a number first.
fn field_bytes(state: &ChipState) -> [u8; 152]
    ensures bytes { result ≡ spec.state_field_bytes state.now }
    ensures reread { (rest : List ℕ) → spec.state_of_bytes (result ++ rest) ≡ state.now }
{
    let ChipState {
        pc,
        regs,
        position,
        first_break,
        brk,
        retired,
    } = *state;
    let mut bytes = [0; FIELDS_LEN];
    put(&mut bytes, PC_AT, &pc.to_le_bytes());
    put(&mut bytes, REGS_AT, &register_bytes(&regs));
    put(&mut bytes, POSITION_AT, &position.to_le_bytes());
    put(&mut bytes, FIRST_BREAK_AT, &first_break.to_le_bytes());
    put(&mut bytes, BRK_AT, &brk.to_le_bytes());
    put(&mut bytes, RETIRED_AT, &retired.to_le_bytes());
    bytes
}

// The bytes of the registers.
fn register_bytes(regs: &[u32; 31]) -> [u8; 124]
    ensures bytes { result ≡ flat_map (to_le_bytes w32) regs.now }
    ensures fit { (k : ℕ) → slice_index regs.now k < 2 ^ 32 }
{
    let mut bytes = [0; 124];
    for (place, register) in regs.iter().enumerate() {
        put(&mut bytes, 4 * place, &register.to_le_bytes());
    }
    bytes
}

/// The state that bytes spell. Those behind its fields may be any.
#[tactic(auto, unfolding(crate::specs::ChipState::state_of_bytes))]
pub(crate) fn state_of_bytes(bytes: &[u8; 192]) -> ChipState
    ensures { result ≡ spec.state_of_bytes bytes.now }
{
    ChipState {
        pc: u32_at(bytes, PC_AT),
        regs: registers_in(bytes),
        position: u64_at(bytes, POSITION_AT),
        first_break: u32_at(bytes, FIRST_BREAK_AT),
        brk: u32_at(bytes, BRK_AT),
        retired: u64_at(bytes, RETIRED_AT),
    }
}

// The registers that they spell.
fn registers_in(bytes: &[u8; 192]) -> [u32; 31]
    ensures { result ≡ registers_in bytes.now }
{
    let mut regs = [0; 31];
    for place in 0..31 {
        regs[place] = u32_at(bytes, REGS_AT + 4 * place);
    }
    regs
}

// The number in four bytes, the lowest first.
fn u32_at(bytes: &[u8], at: usize) -> u32
    requires { at + 4 ≤ length bytes.now }
    ensures { result ≡ u32_at bytes.now at }
{
    u32::from_le_bytes(part(bytes, at))
}

/// The number in eight bytes, the lowest first.
pub(crate) fn u64_at(bytes: &[u8], at: usize) -> u64
    requires { at + 8 ≤ length bytes.now }
    ensures { result ≡ u64_at bytes.now at }
{
    u64::from_le_bytes(part(bytes, at))
}

/// A part of some bytes.
pub(crate) fn part<const N: usize>(bytes: &[u8], at: usize) -> [u8; N]
    requires { at + N ≤ length bytes.now }
    ensures { result ≡ take N (drop at bytes.now) }
{
    let mut part = [0; N];
    part.copy_from_slice(&bytes[at..at + N]);
    part
}
