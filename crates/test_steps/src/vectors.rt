// What single instructions do. The words are GNU as's (2.40) and the outcomes are qemu-riscv32's (7.2.22, Debian's
// qemu-user); bench/vectors.py prints the tables, and compares them with the manual's text.
ghost use Rattle.std.specs.Prelude.{◌≡◌, ◌≤◌, IfOk, length};
ghost use Rattle.sec_base.specs.Geometry.{IsMemorySize};

use plain_machine::run;
use sec_base::{Bytes, Ending, Image, MemorySink, Segment, Segments};
use std::alloc::{AllocError, Global};
use std::test::Fail;

// A word at its place, and what the program goes on with at the place where it is to go on. The operands and a cell
// of memory stand from 0x3f8 on; when the word is run t0 and a0 have the first operand, t1 the second.
#[derive(Drop)]
struct Case {
    word: u32,
    place: u32,
    first: u32,
    second: u32,
    cell: u32,
    next: u32,
    last: [u32; 2],
}

// Where the word stands: at the beginning, or with room on both sides.
const PLACE: u32 = 16;

const NEAR: u32 = 0x2c00;

// What is stored.
const STORED: u32 = 0x8899_aabb;

// lw t0, 0x3f8(zero)
const LOAD_FIRST: u32 = 0x3f80_2283;

// lw t1, 0x3fc(zero)
const LOAD_SECOND: u32 = 0x3fc0_2303;

// addi a0, t0, 0
const COPY_FIRST: u32 = 0x0002_8513;

// addi a7, zero, 93
const CHOOSE_EXIT: u32 = 0x05d0_0893;

// add a0, a0, zero; ecall
const EXIT: [u32; 2] = [0x0005_0533, 0x0000_0073];

// lw a0, 0x400(zero); ecall
const EXIT_WITH_CELL: [u32; 2] = [0x4000_2503, 0x0000_0073];

// ecall, and no instruction
const EXIT_AT_ONCE: [u32; 2] = [0x0000_0073, 0];

const SMALL: u32 = 16_384;

const LARGE: u32 = 4_194_304;

fn segment(alloc: Global, addr: u32, words: &[u32]) -> Result<Segment, AllocError>
    requires { length words.now ≤ 16 }
    ensures addr { IfOk result (λ segment. segment.addr ≡ addr) }
    ensures short { IfOk result (λ segment. segment.length ≤ 64) }
    ensures whole { IfOk result (λ segment. length segment.bytes ≤ segment.length) }
{
    let mut bytes = Vec::new(alloc);
    for word in words {
        bytes.extend_from_slice(&word.to_le_bytes())?;
    }
    Ok(Segment {
        addr,
        length: bytes.len() as u32,
        bytes: Bytes::from_vec(bytes),
    })
}

// How the case ends in a memory of this size.
fn ending(alloc: Global, size: u32, case: &Case) -> Result<Ending, Fail>
    requires memory { IsMemorySize size }
    requires room { 16384 ≤ size }
{
    let Case { place, next, .. } = *case;
    if place < 16 || place % 4 != 0 || place > size - 64 || next > size - 64 {
        return Err(Fail::from("a case is out of place"));
    }
    let entry = place - 16;
    let code = [LOAD_FIRST, LOAD_SECOND, COPY_FIRST, CHOOSE_EXIT, case.word];
    let mut items = Vec::new(alloc);
    items.push(segment(alloc, entry, &code)?)?;
    items.push(segment(alloc, next, &case.last)?)?;
    items.push(segment(alloc, 0x3f8, &[case.first, case.second, case.cell])?)?;
    let image = Image {
        entry,
        size,
        segments: Segments::from_vec(items),
    };
    let mut out = MemorySink::new(alloc, &[])?;
    Ok(run(alloc, &image, &[], 100, &mut out).ending)
}

// The word, the operands, and a0 after it.
#[test]
fn registers_and_immediates(rt: HostRuntime) -> Result<(), Fail> {
    for &(word, first, second, a0) in registers() {
        let case = Case {
            word,
            place: PLACE,
            first,
            second,
            cell: 0,
            next: PLACE + 4,
            last: EXIT,
        };
        let found = ending(rt.alloc(), SMALL, &case)?;
        assert_eq!(rt;
            found,
            Ending::Halted(a0),
            "{word:08x} of {first:08x} and {second:08x}"
        );
    }
    Ok(())
}

// The word, the operand, the cell at 0x400, and a0 after it.
#[test]
fn loads_of_each_width(rt: HostRuntime) -> Result<(), Fail> {
    for &(word, first, cell, a0) in loads() {
        let case = Case {
            word,
            place: PLACE,
            first,
            second: 0,
            cell,
            next: PLACE + 4,
            last: EXIT,
        };
        let found = ending(rt.alloc(), SMALL, &case)?;
        assert_eq!(rt;
            found,
            Ending::Halted(a0),
            "{word:08x} of {first:08x} from {cell:08x}"
        );
    }
    Ok(())
}

// The word, the first operand, the cell at 0x400, and the cell after it.
#[test]
fn stores_of_each_width(rt: HostRuntime) -> Result<(), Fail> {
    for &(word, first, cell, after) in stores() {
        let case = Case {
            word,
            place: PLACE,
            first,
            second: STORED,
            cell,
            next: PLACE + 4,
            last: EXIT_WITH_CELL,
        };
        let found = ending(rt.alloc(), SMALL, &case)?;
        assert_eq!(rt;
            found,
            Ending::Halted(after),
            "{word:08x} of {first:08x} over {cell:08x}"
        );
    }
    Ok(())
}

// The word, the operands, and the place where the program goes on. Only there is an ecall.
#[test]
fn branches_taken_and_not(rt: HostRuntime) -> Result<(), Fail> {
    for &(word, first, second, next) in branches() {
        let case = Case {
            word,
            place: NEAR,
            first,
            second,
            cell: 0,
            next,
            last: EXIT_AT_ONCE,
        };
        let found = ending(rt.alloc(), SMALL, &case)?;
        assert_eq!(rt;
            found,
            Ending::Halted(first),
            "{word:08x} of {first:08x} and {second:08x}"
        );
    }
    Ok(())
}

// The word, its place, the operand, the place where the program goes on, and a0 there.
type Jump = (u32, u32, u32, u32, u32);

fn jumps_rightly(alloc: Global, size: u32, jump: &Jump) -> Result<bool, Fail>
    requires memory { IsMemorySize size }
    requires room { 16384 ≤ size }
{
    let &(word, place, first, next, a0) = jump;
    let case = Case {
        word,
        place,
        first,
        second: 0,
        cell: 0,
        next,
        last: EXIT_AT_ONCE,
    };
    Ok(ending(alloc, size, &case)? == Ending::Halted(a0))
}

#[test]
fn near_jumps(rt: HostRuntime) -> Result<(), Fail> {
    for jump in jumps() {
        let right = jumps_rightly(rt.alloc(), SMALL, jump)?;
        assert!(rt; right, "{:08x} at {:08x} of {:08x}", jump.0, jump.1, jump.2);
    }
    Ok(())
}

#[test]
fn jumps_over_a_mebibyte(rt: HostRuntime) -> Result<(), Fail> {
    for jump in far_jumps() {
        let right = jumps_rightly(rt.alloc(), LARGE, jump)?;
        assert!(rt; right, "{:08x} at {:08x} of {:08x}", jump.0, jump.1, jump.2);
    }
    Ok(())
}

fn registers() -> &'static [(u32, u32, u32, u32)] {
    &REGISTERS
}

fn loads() -> &'static [(u32, u32, u32, u32)] {
    &LOADS
}

fn stores() -> &'static [(u32, u32, u32, u32)] {
    &STORES
}

fn branches() -> &'static [(u32, u32, u32, u32)] {
    &BRANCHES
}

fn jumps() -> &'static [Jump] {
    &JUMPS
}

fn far_jumps() -> &'static [Jump] {
    &FAR_JUMPS
}

static REGISTERS: [(u32, u32, u32, u32); 331] = [
    (0x0062_8533, 0x0000_0000, 0x0000_0000, 0x0000_0000), // add a0, t0, t1
    (0x0062_8533, 0x0000_0001, 0xffff_ffff, 0x0000_0000), // add a0, t0, t1
    (0x0062_8533, 0x7fff_ffff, 0x0000_0001, 0x8000_0000), // add a0, t0, t1
    (0x0062_8533, 0x8000_0000, 0x8000_0000, 0x0000_0000), // add a0, t0, t1
    (0x0062_8533, 0x8000_0000, 0xffff_ffff, 0x7fff_ffff), // add a0, t0, t1
    (0x0062_8533, 0xffff_ffff, 0xffff_ffff, 0xffff_fffe), // add a0, t0, t1
    (0x0062_8533, 0xaaaa_aaaa, 0x5555_5555, 0xffff_ffff), // add a0, t0, t1
    (0x0062_8533, 0x1234_5678, 0x9abc_def0, 0xacf1_3568), // add a0, t0, t1
    (0x4062_8533, 0x0000_0000, 0x0000_0000, 0x0000_0000), // sub a0, t0, t1
    (0x4062_8533, 0x0000_0001, 0xffff_ffff, 0x0000_0002), // sub a0, t0, t1
    (0x4062_8533, 0x7fff_ffff, 0x0000_0001, 0x7fff_fffe), // sub a0, t0, t1
    (0x4062_8533, 0x8000_0000, 0x8000_0000, 0x0000_0000), // sub a0, t0, t1
    (0x4062_8533, 0x8000_0000, 0xffff_ffff, 0x8000_0001), // sub a0, t0, t1
    (0x4062_8533, 0xffff_ffff, 0xffff_ffff, 0x0000_0000), // sub a0, t0, t1
    (0x4062_8533, 0xaaaa_aaaa, 0x5555_5555, 0x5555_5555), // sub a0, t0, t1
    (0x4062_8533, 0x1234_5678, 0x9abc_def0, 0x7777_7788), // sub a0, t0, t1
    (0x0062_a533, 0x0000_0000, 0x0000_0000, 0x0000_0000), // slt a0, t0, t1
    (0x0062_a533, 0x0000_0000, 0x0000_0001, 0x0000_0001), // slt a0, t0, t1
    (0x0062_a533, 0x0000_0001, 0x0000_0000, 0x0000_0000), // slt a0, t0, t1
    (0x0062_a533, 0x0000_0000, 0xffff_ffff, 0x0000_0000), // slt a0, t0, t1
    (0x0062_a533, 0xffff_ffff, 0x0000_0000, 0x0000_0001), // slt a0, t0, t1
    (0x0062_a533, 0xffff_ffff, 0xffff_ffff, 0x0000_0000), // slt a0, t0, t1
    (0x0062_a533, 0x8000_0000, 0x7fff_ffff, 0x0000_0001), // slt a0, t0, t1
    (0x0062_a533, 0x7fff_ffff, 0x8000_0000, 0x0000_0000), // slt a0, t0, t1
    (0x0062_a533, 0x8000_0000, 0x0000_0000, 0x0000_0001), // slt a0, t0, t1
    (0x0062_a533, 0x0000_0000, 0x8000_0000, 0x0000_0000), // slt a0, t0, t1
    (0x0062_b533, 0x0000_0000, 0x0000_0000, 0x0000_0000), // sltu a0, t0, t1
    (0x0062_b533, 0x0000_0000, 0x0000_0001, 0x0000_0001), // sltu a0, t0, t1
    (0x0062_b533, 0x0000_0001, 0x0000_0000, 0x0000_0000), // sltu a0, t0, t1
    (0x0062_b533, 0x0000_0000, 0xffff_ffff, 0x0000_0001), // sltu a0, t0, t1
    (0x0062_b533, 0xffff_ffff, 0x0000_0000, 0x0000_0000), // sltu a0, t0, t1
    (0x0062_b533, 0xffff_ffff, 0xffff_ffff, 0x0000_0000), // sltu a0, t0, t1
    (0x0062_b533, 0x8000_0000, 0x7fff_ffff, 0x0000_0000), // sltu a0, t0, t1
    (0x0062_b533, 0x7fff_ffff, 0x8000_0000, 0x0000_0001), // sltu a0, t0, t1
    (0x0062_b533, 0x8000_0000, 0x0000_0000, 0x0000_0000), // sltu a0, t0, t1
    (0x0062_b533, 0x0000_0000, 0x8000_0000, 0x0000_0001), // sltu a0, t0, t1
    (0x0062_c533, 0x0000_0000, 0x0000_0000, 0x0000_0000), // xor a0, t0, t1
    (0x0062_c533, 0x0000_0000, 0xffff_ffff, 0xffff_ffff), // xor a0, t0, t1
    (0x0062_c533, 0xffff_ffff, 0xffff_ffff, 0x0000_0000), // xor a0, t0, t1
    (0x0062_c533, 0xaaaa_aaaa, 0x5555_5555, 0xffff_ffff), // xor a0, t0, t1
    (0x0062_c533, 0xaaaa_aaaa, 0xffff_ffff, 0x5555_5555), // xor a0, t0, t1
    (0x0062_c533, 0x8000_0000, 0x7fff_ffff, 0xffff_ffff), // xor a0, t0, t1
    (0x0062_c533, 0xf0f0_f0f0, 0xff00_ff00, 0x0ff0_0ff0), // xor a0, t0, t1
    (0x0062_e533, 0x0000_0000, 0x0000_0000, 0x0000_0000), // or a0, t0, t1
    (0x0062_e533, 0x0000_0000, 0xffff_ffff, 0xffff_ffff), // or a0, t0, t1
    (0x0062_e533, 0xffff_ffff, 0xffff_ffff, 0xffff_ffff), // or a0, t0, t1
    (0x0062_e533, 0xaaaa_aaaa, 0x5555_5555, 0xffff_ffff), // or a0, t0, t1
    (0x0062_e533, 0xaaaa_aaaa, 0xffff_ffff, 0xffff_ffff), // or a0, t0, t1
    (0x0062_e533, 0x8000_0000, 0x7fff_ffff, 0xffff_ffff), // or a0, t0, t1
    (0x0062_e533, 0xf0f0_f0f0, 0xff00_ff00, 0xfff0_fff0), // or a0, t0, t1
    (0x0062_f533, 0x0000_0000, 0x0000_0000, 0x0000_0000), // and a0, t0, t1
    (0x0062_f533, 0x0000_0000, 0xffff_ffff, 0x0000_0000), // and a0, t0, t1
    (0x0062_f533, 0xffff_ffff, 0xffff_ffff, 0xffff_ffff), // and a0, t0, t1
    (0x0062_f533, 0xaaaa_aaaa, 0x5555_5555, 0x0000_0000), // and a0, t0, t1
    (0x0062_f533, 0xaaaa_aaaa, 0xffff_ffff, 0xaaaa_aaaa), // and a0, t0, t1
    (0x0062_f533, 0x8000_0000, 0x7fff_ffff, 0x0000_0000), // and a0, t0, t1
    (0x0062_f533, 0xf0f0_f0f0, 0xff00_ff00, 0xf000_f000), // and a0, t0, t1
    (0x0062_9533, 0x8000_0001, 0x0000_0000, 0x8000_0001), // sll a0, t0, t1
    (0x0062_9533, 0x8000_0001, 0x0000_0001, 0x0000_0002), // sll a0, t0, t1
    (0x0062_9533, 0x8000_0001, 0x0000_001f, 0x8000_0000), // sll a0, t0, t1
    (0x0062_9533, 0x8000_0001, 0x0000_0020, 0x8000_0001), // sll a0, t0, t1
    (0x0062_9533, 0x8000_0001, 0x0000_0021, 0x0000_0002), // sll a0, t0, t1
    (0x0062_9533, 0x8000_0001, 0x0000_003f, 0x8000_0000), // sll a0, t0, t1
    (0x0062_9533, 0x8000_0001, 0x8000_0000, 0x8000_0001), // sll a0, t0, t1
    (0x0062_9533, 0x8000_0001, 0xffff_ffff, 0x8000_0000), // sll a0, t0, t1
    (0x0062_9533, 0x7fff_ffff, 0x0000_001f, 0x8000_0000), // sll a0, t0, t1
    (0x0062_9533, 0xaaaa_aaaa, 0x0000_0004, 0xaaaa_aaa0), // sll a0, t0, t1
    (0x0062_9533, 0xffff_ffff, 0x0000_0010, 0xffff_0000), // sll a0, t0, t1
    (0x0062_9533, 0x0000_0000, 0x0000_001f, 0x0000_0000), // sll a0, t0, t1
    (0x0062_d533, 0x8000_0001, 0x0000_0000, 0x8000_0001), // srl a0, t0, t1
    (0x0062_d533, 0x8000_0001, 0x0000_0001, 0x4000_0000), // srl a0, t0, t1
    (0x0062_d533, 0x8000_0001, 0x0000_001f, 0x0000_0001), // srl a0, t0, t1
    (0x0062_d533, 0x8000_0001, 0x0000_0020, 0x8000_0001), // srl a0, t0, t1
    (0x0062_d533, 0x8000_0001, 0x0000_0021, 0x4000_0000), // srl a0, t0, t1
    (0x0062_d533, 0x8000_0001, 0x0000_003f, 0x0000_0001), // srl a0, t0, t1
    (0x0062_d533, 0x8000_0001, 0x8000_0000, 0x8000_0001), // srl a0, t0, t1
    (0x0062_d533, 0x8000_0001, 0xffff_ffff, 0x0000_0001), // srl a0, t0, t1
    (0x0062_d533, 0x7fff_ffff, 0x0000_001f, 0x0000_0000), // srl a0, t0, t1
    (0x0062_d533, 0xaaaa_aaaa, 0x0000_0004, 0x0aaa_aaaa), // srl a0, t0, t1
    (0x0062_d533, 0xffff_ffff, 0x0000_0010, 0x0000_ffff), // srl a0, t0, t1
    (0x0062_d533, 0x0000_0000, 0x0000_001f, 0x0000_0000), // srl a0, t0, t1
    (0x4062_d533, 0x8000_0001, 0x0000_0000, 0x8000_0001), // sra a0, t0, t1
    (0x4062_d533, 0x8000_0001, 0x0000_0001, 0xc000_0000), // sra a0, t0, t1
    (0x4062_d533, 0x8000_0001, 0x0000_001f, 0xffff_ffff), // sra a0, t0, t1
    (0x4062_d533, 0x8000_0001, 0x0000_0020, 0x8000_0001), // sra a0, t0, t1
    (0x4062_d533, 0x8000_0001, 0x0000_0021, 0xc000_0000), // sra a0, t0, t1
    (0x4062_d533, 0x8000_0001, 0x0000_003f, 0xffff_ffff), // sra a0, t0, t1
    (0x4062_d533, 0x8000_0001, 0x8000_0000, 0x8000_0001), // sra a0, t0, t1
    (0x4062_d533, 0x8000_0001, 0xffff_ffff, 0xffff_ffff), // sra a0, t0, t1
    (0x4062_d533, 0x7fff_ffff, 0x0000_001f, 0x0000_0000), // sra a0, t0, t1
    (0x4062_d533, 0xaaaa_aaaa, 0x0000_0004, 0xfaaa_aaaa), // sra a0, t0, t1
    (0x4062_d533, 0xffff_ffff, 0x0000_0010, 0xffff_ffff), // sra a0, t0, t1
    (0x4062_d533, 0x0000_0000, 0x0000_001f, 0x0000_0000), // sra a0, t0, t1
    (0x0262_8533, 0x0000_0000, 0xffff_ffff, 0x0000_0000), // mul a0, t0, t1
    (0x0262_8533, 0x0000_0001, 0xffff_ffff, 0xffff_ffff), // mul a0, t0, t1
    (0x0262_8533, 0xffff_ffff, 0x0000_0001, 0xffff_ffff), // mul a0, t0, t1
    (0x0262_8533, 0xffff_ffff, 0xffff_ffff, 0x0000_0001), // mul a0, t0, t1
    (0x0262_8533, 0x8000_0000, 0x8000_0000, 0x0000_0000), // mul a0, t0, t1
    (0x0262_8533, 0x8000_0000, 0xffff_ffff, 0x8000_0000), // mul a0, t0, t1
    (0x0262_8533, 0xffff_ffff, 0x8000_0000, 0x8000_0000), // mul a0, t0, t1
    (0x0262_8533, 0x8000_0000, 0x0000_0001, 0x8000_0000), // mul a0, t0, t1
    (0x0262_8533, 0x0000_0001, 0x8000_0000, 0x8000_0000), // mul a0, t0, t1
    (0x0262_8533, 0x7fff_ffff, 0x7fff_ffff, 0x0000_0001), // mul a0, t0, t1
    (0x0262_8533, 0x7fff_ffff, 0x8000_0000, 0x8000_0000), // mul a0, t0, t1
    (0x0262_8533, 0x8000_0000, 0x7fff_ffff, 0x8000_0000), // mul a0, t0, t1
    (0x0262_8533, 0xaaaa_aaaa, 0x5555_5555, 0x71c7_1c72), // mul a0, t0, t1
    (0x0262_8533, 0x0001_0000, 0x0001_0000, 0x0000_0000), // mul a0, t0, t1
    (0x0262_8533, 0x1234_5678, 0x9abc_def0, 0x242d_2080), // mul a0, t0, t1
    (0x0262_9533, 0x0000_0000, 0xffff_ffff, 0x0000_0000), // mulh a0, t0, t1
    (0x0262_9533, 0x0000_0001, 0xffff_ffff, 0xffff_ffff), // mulh a0, t0, t1
    (0x0262_9533, 0xffff_ffff, 0x0000_0001, 0xffff_ffff), // mulh a0, t0, t1
    (0x0262_9533, 0xffff_ffff, 0xffff_ffff, 0x0000_0000), // mulh a0, t0, t1
    (0x0262_9533, 0x8000_0000, 0x8000_0000, 0x4000_0000), // mulh a0, t0, t1
    (0x0262_9533, 0x8000_0000, 0xffff_ffff, 0x0000_0000), // mulh a0, t0, t1
    (0x0262_9533, 0xffff_ffff, 0x8000_0000, 0x0000_0000), // mulh a0, t0, t1
    (0x0262_9533, 0x8000_0000, 0x0000_0001, 0xffff_ffff), // mulh a0, t0, t1
    (0x0262_9533, 0x0000_0001, 0x8000_0000, 0xffff_ffff), // mulh a0, t0, t1
    (0x0262_9533, 0x7fff_ffff, 0x7fff_ffff, 0x3fff_ffff), // mulh a0, t0, t1
    (0x0262_9533, 0x7fff_ffff, 0x8000_0000, 0xc000_0000), // mulh a0, t0, t1
    (0x0262_9533, 0x8000_0000, 0x7fff_ffff, 0xc000_0000), // mulh a0, t0, t1
    (0x0262_9533, 0xaaaa_aaaa, 0x5555_5555, 0xe38e_38e3), // mulh a0, t0, t1
    (0x0262_9533, 0x0001_0000, 0x0001_0000, 0x0000_0001), // mulh a0, t0, t1
    (0x0262_9533, 0x1234_5678, 0x9abc_def0, 0xf8cc_93d6), // mulh a0, t0, t1
    (0x0262_a533, 0x0000_0000, 0xffff_ffff, 0x0000_0000), // mulhsu a0, t0, t1
    (0x0262_a533, 0x0000_0001, 0xffff_ffff, 0x0000_0000), // mulhsu a0, t0, t1
    (0x0262_a533, 0xffff_ffff, 0x0000_0001, 0xffff_ffff), // mulhsu a0, t0, t1
    (0x0262_a533, 0xffff_ffff, 0xffff_ffff, 0xffff_ffff), // mulhsu a0, t0, t1
    (0x0262_a533, 0x8000_0000, 0x8000_0000, 0xc000_0000), // mulhsu a0, t0, t1
    (0x0262_a533, 0x8000_0000, 0xffff_ffff, 0x8000_0000), // mulhsu a0, t0, t1
    (0x0262_a533, 0xffff_ffff, 0x8000_0000, 0xffff_ffff), // mulhsu a0, t0, t1
    (0x0262_a533, 0x8000_0000, 0x0000_0001, 0xffff_ffff), // mulhsu a0, t0, t1
    (0x0262_a533, 0x0000_0001, 0x8000_0000, 0x0000_0000), // mulhsu a0, t0, t1
    (0x0262_a533, 0x7fff_ffff, 0x7fff_ffff, 0x3fff_ffff), // mulhsu a0, t0, t1
    (0x0262_a533, 0x7fff_ffff, 0x8000_0000, 0x3fff_ffff), // mulhsu a0, t0, t1
    (0x0262_a533, 0x8000_0000, 0x7fff_ffff, 0xc000_0000), // mulhsu a0, t0, t1
    (0x0262_a533, 0xaaaa_aaaa, 0x5555_5555, 0xe38e_38e3), // mulhsu a0, t0, t1
    (0x0262_a533, 0x0001_0000, 0x0001_0000, 0x0000_0001), // mulhsu a0, t0, t1
    (0x0262_a533, 0x1234_5678, 0x9abc_def0, 0x0b00_ea4e), // mulhsu a0, t0, t1
    (0x0262_b533, 0x0000_0000, 0xffff_ffff, 0x0000_0000), // mulhu a0, t0, t1
    (0x0262_b533, 0x0000_0001, 0xffff_ffff, 0x0000_0000), // mulhu a0, t0, t1
    (0x0262_b533, 0xffff_ffff, 0x0000_0001, 0x0000_0000), // mulhu a0, t0, t1
    (0x0262_b533, 0xffff_ffff, 0xffff_ffff, 0xffff_fffe), // mulhu a0, t0, t1
    (0x0262_b533, 0x8000_0000, 0x8000_0000, 0x4000_0000), // mulhu a0, t0, t1
    (0x0262_b533, 0x8000_0000, 0xffff_ffff, 0x7fff_ffff), // mulhu a0, t0, t1
    (0x0262_b533, 0xffff_ffff, 0x8000_0000, 0x7fff_ffff), // mulhu a0, t0, t1
    (0x0262_b533, 0x8000_0000, 0x0000_0001, 0x0000_0000), // mulhu a0, t0, t1
    (0x0262_b533, 0x0000_0001, 0x8000_0000, 0x0000_0000), // mulhu a0, t0, t1
    (0x0262_b533, 0x7fff_ffff, 0x7fff_ffff, 0x3fff_ffff), // mulhu a0, t0, t1
    (0x0262_b533, 0x7fff_ffff, 0x8000_0000, 0x3fff_ffff), // mulhu a0, t0, t1
    (0x0262_b533, 0x8000_0000, 0x7fff_ffff, 0x3fff_ffff), // mulhu a0, t0, t1
    (0x0262_b533, 0xaaaa_aaaa, 0x5555_5555, 0x38e3_8e38), // mulhu a0, t0, t1
    (0x0262_b533, 0x0001_0000, 0x0001_0000, 0x0000_0001), // mulhu a0, t0, t1
    (0x0262_b533, 0x1234_5678, 0x9abc_def0, 0x0b00_ea4e), // mulhu a0, t0, t1
    (0x0262_c533, 0x0000_0000, 0x0000_0000, 0xffff_ffff), // div a0, t0, t1
    (0x0262_c533, 0x0000_0005, 0x0000_0000, 0xffff_ffff), // div a0, t0, t1
    (0x0262_c533, 0xffff_fffb, 0x0000_0000, 0xffff_ffff), // div a0, t0, t1
    (0x0262_c533, 0x8000_0000, 0x0000_0000, 0xffff_ffff), // div a0, t0, t1
    (0x0262_c533, 0xffff_ffff, 0x0000_0000, 0xffff_ffff), // div a0, t0, t1
    (0x0262_c533, 0x8000_0000, 0xffff_ffff, 0x8000_0000), // div a0, t0, t1
    (0x0262_c533, 0x8000_0000, 0x0000_0001, 0x8000_0000), // div a0, t0, t1
    (0x0262_c533, 0x8000_0000, 0x8000_0000, 0x0000_0001), // div a0, t0, t1
    (0x0262_c533, 0x8000_0000, 0x0000_0002, 0xc000_0000), // div a0, t0, t1
    (0x0262_c533, 0x7fff_ffff, 0xffff_ffff, 0x8000_0001), // div a0, t0, t1
    (0x0262_c533, 0xffff_ffff, 0x8000_0000, 0x0000_0000), // div a0, t0, t1
    (0x0262_c533, 0x7fff_ffff, 0x8000_0000, 0x0000_0000), // div a0, t0, t1
    (0x0262_c533, 0x8000_0000, 0x7fff_ffff, 0xffff_ffff), // div a0, t0, t1
    (0x0262_c533, 0x0000_0007, 0x0000_0002, 0x0000_0003), // div a0, t0, t1
    (0x0262_c533, 0xffff_fff9, 0x0000_0002, 0xffff_fffd), // div a0, t0, t1
    (0x0262_c533, 0x0000_0007, 0xffff_fffe, 0xffff_fffd), // div a0, t0, t1
    (0x0262_c533, 0xffff_fff9, 0xffff_fffe, 0x0000_0003), // div a0, t0, t1
    (0x0262_c533, 0x0000_0003, 0x0000_0005, 0x0000_0000), // div a0, t0, t1
    (0x0262_c533, 0xffff_fffd, 0x0000_0005, 0x0000_0000), // div a0, t0, t1
    (0x0262_c533, 0x0000_0000, 0x0000_0005, 0x0000_0000), // div a0, t0, t1
    (0x0262_c533, 0xaaaa_aaaa, 0x5555_5555, 0xffff_ffff), // div a0, t0, t1
    (0x0262_d533, 0x0000_0000, 0x0000_0000, 0xffff_ffff), // divu a0, t0, t1
    (0x0262_d533, 0x0000_0005, 0x0000_0000, 0xffff_ffff), // divu a0, t0, t1
    (0x0262_d533, 0xffff_fffb, 0x0000_0000, 0xffff_ffff), // divu a0, t0, t1
    (0x0262_d533, 0x8000_0000, 0x0000_0000, 0xffff_ffff), // divu a0, t0, t1
    (0x0262_d533, 0xffff_ffff, 0x0000_0000, 0xffff_ffff), // divu a0, t0, t1
    (0x0262_d533, 0x8000_0000, 0xffff_ffff, 0x0000_0000), // divu a0, t0, t1
    (0x0262_d533, 0x8000_0000, 0x0000_0001, 0x8000_0000), // divu a0, t0, t1
    (0x0262_d533, 0x8000_0000, 0x8000_0000, 0x0000_0001), // divu a0, t0, t1
    (0x0262_d533, 0x8000_0000, 0x0000_0002, 0x4000_0000), // divu a0, t0, t1
    (0x0262_d533, 0x7fff_ffff, 0xffff_ffff, 0x0000_0000), // divu a0, t0, t1
    (0x0262_d533, 0xffff_ffff, 0x8000_0000, 0x0000_0001), // divu a0, t0, t1
    (0x0262_d533, 0x7fff_ffff, 0x8000_0000, 0x0000_0000), // divu a0, t0, t1
    (0x0262_d533, 0x8000_0000, 0x7fff_ffff, 0x0000_0001), // divu a0, t0, t1
    (0x0262_d533, 0x0000_0007, 0x0000_0002, 0x0000_0003), // divu a0, t0, t1
    (0x0262_d533, 0xffff_fff9, 0x0000_0002, 0x7fff_fffc), // divu a0, t0, t1
    (0x0262_d533, 0x0000_0007, 0xffff_fffe, 0x0000_0000), // divu a0, t0, t1
    (0x0262_d533, 0xffff_fff9, 0xffff_fffe, 0x0000_0000), // divu a0, t0, t1
    (0x0262_d533, 0x0000_0003, 0x0000_0005, 0x0000_0000), // divu a0, t0, t1
    (0x0262_d533, 0xffff_fffd, 0x0000_0005, 0x3333_3332), // divu a0, t0, t1
    (0x0262_d533, 0x0000_0000, 0x0000_0005, 0x0000_0000), // divu a0, t0, t1
    (0x0262_d533, 0xaaaa_aaaa, 0x5555_5555, 0x0000_0002), // divu a0, t0, t1
    (0x0262_e533, 0x0000_0000, 0x0000_0000, 0x0000_0000), // rem a0, t0, t1
    (0x0262_e533, 0x0000_0005, 0x0000_0000, 0x0000_0005), // rem a0, t0, t1
    (0x0262_e533, 0xffff_fffb, 0x0000_0000, 0xffff_fffb), // rem a0, t0, t1
    (0x0262_e533, 0x8000_0000, 0x0000_0000, 0x8000_0000), // rem a0, t0, t1
    (0x0262_e533, 0xffff_ffff, 0x0000_0000, 0xffff_ffff), // rem a0, t0, t1
    (0x0262_e533, 0x8000_0000, 0xffff_ffff, 0x0000_0000), // rem a0, t0, t1
    (0x0262_e533, 0x8000_0000, 0x0000_0001, 0x0000_0000), // rem a0, t0, t1
    (0x0262_e533, 0x8000_0000, 0x8000_0000, 0x0000_0000), // rem a0, t0, t1
    (0x0262_e533, 0x8000_0000, 0x0000_0002, 0x0000_0000), // rem a0, t0, t1
    (0x0262_e533, 0x7fff_ffff, 0xffff_ffff, 0x0000_0000), // rem a0, t0, t1
    (0x0262_e533, 0xffff_ffff, 0x8000_0000, 0xffff_ffff), // rem a0, t0, t1
    (0x0262_e533, 0x7fff_ffff, 0x8000_0000, 0x7fff_ffff), // rem a0, t0, t1
    (0x0262_e533, 0x8000_0000, 0x7fff_ffff, 0xffff_ffff), // rem a0, t0, t1
    (0x0262_e533, 0x0000_0007, 0x0000_0002, 0x0000_0001), // rem a0, t0, t1
    (0x0262_e533, 0xffff_fff9, 0x0000_0002, 0xffff_ffff), // rem a0, t0, t1
    (0x0262_e533, 0x0000_0007, 0xffff_fffe, 0x0000_0001), // rem a0, t0, t1
    (0x0262_e533, 0xffff_fff9, 0xffff_fffe, 0xffff_ffff), // rem a0, t0, t1
    (0x0262_e533, 0x0000_0003, 0x0000_0005, 0x0000_0003), // rem a0, t0, t1
    (0x0262_e533, 0xffff_fffd, 0x0000_0005, 0xffff_fffd), // rem a0, t0, t1
    (0x0262_e533, 0x0000_0000, 0x0000_0005, 0x0000_0000), // rem a0, t0, t1
    (0x0262_e533, 0xaaaa_aaaa, 0x5555_5555, 0xffff_ffff), // rem a0, t0, t1
    (0x0262_f533, 0x0000_0000, 0x0000_0000, 0x0000_0000), // remu a0, t0, t1
    (0x0262_f533, 0x0000_0005, 0x0000_0000, 0x0000_0005), // remu a0, t0, t1
    (0x0262_f533, 0xffff_fffb, 0x0000_0000, 0xffff_fffb), // remu a0, t0, t1
    (0x0262_f533, 0x8000_0000, 0x0000_0000, 0x8000_0000), // remu a0, t0, t1
    (0x0262_f533, 0xffff_ffff, 0x0000_0000, 0xffff_ffff), // remu a0, t0, t1
    (0x0262_f533, 0x8000_0000, 0xffff_ffff, 0x8000_0000), // remu a0, t0, t1
    (0x0262_f533, 0x8000_0000, 0x0000_0001, 0x0000_0000), // remu a0, t0, t1
    (0x0262_f533, 0x8000_0000, 0x8000_0000, 0x0000_0000), // remu a0, t0, t1
    (0x0262_f533, 0x8000_0000, 0x0000_0002, 0x0000_0000), // remu a0, t0, t1
    (0x0262_f533, 0x7fff_ffff, 0xffff_ffff, 0x7fff_ffff), // remu a0, t0, t1
    (0x0262_f533, 0xffff_ffff, 0x8000_0000, 0x7fff_ffff), // remu a0, t0, t1
    (0x0262_f533, 0x7fff_ffff, 0x8000_0000, 0x7fff_ffff), // remu a0, t0, t1
    (0x0262_f533, 0x8000_0000, 0x7fff_ffff, 0x0000_0001), // remu a0, t0, t1
    (0x0262_f533, 0x0000_0007, 0x0000_0002, 0x0000_0001), // remu a0, t0, t1
    (0x0262_f533, 0xffff_fff9, 0x0000_0002, 0x0000_0001), // remu a0, t0, t1
    (0x0262_f533, 0x0000_0007, 0xffff_fffe, 0x0000_0007), // remu a0, t0, t1
    (0x0262_f533, 0xffff_fff9, 0xffff_fffe, 0xffff_fff9), // remu a0, t0, t1
    (0x0262_f533, 0x0000_0003, 0x0000_0005, 0x0000_0003), // remu a0, t0, t1
    (0x0262_f533, 0xffff_fffd, 0x0000_0005, 0x0000_0003), // remu a0, t0, t1
    (0x0262_f533, 0x0000_0000, 0x0000_0005, 0x0000_0000), // remu a0, t0, t1
    (0x0262_f533, 0xaaaa_aaaa, 0x5555_5555, 0x0000_0000), // remu a0, t0, t1
    (0x0002_8513, 0x0000_0000, 0x0000_0000, 0x0000_0000), // addi a0, t0, 0
    (0x0012_8513, 0xffff_ffff, 0x0000_0000, 0x0000_0000), // addi a0, t0, 1
    (0xfff2_8513, 0x0000_0000, 0x0000_0000, 0xffff_ffff), // addi a0, t0, -1
    (0x0012_8513, 0x7fff_ffff, 0x0000_0000, 0x8000_0000), // addi a0, t0, 1
    (0xfff2_8513, 0x8000_0000, 0x0000_0000, 0x7fff_ffff), // addi a0, t0, -1
    (0x7ff2_8513, 0x0000_0000, 0x0000_0000, 0x0000_07ff), // addi a0, t0, 2047
    (0x8002_8513, 0x0000_0000, 0x0000_0000, 0xffff_f800), // addi a0, t0, -2048
    (0x8002_8513, 0x0000_0800, 0x0000_0000, 0x0000_0000), // addi a0, t0, -2048
    (0x5552_8513, 0xaaaa_aaaa, 0x0000_0000, 0xaaaa_afff), // addi a0, t0, 1365
    (0x0002_a513, 0x0000_0000, 0x0000_0000, 0x0000_0000), // slti a0, t0, 0
    (0x0012_a513, 0x0000_0000, 0x0000_0000, 0x0000_0001), // slti a0, t0, 1
    (0xfff2_a513, 0x0000_0000, 0x0000_0000, 0x0000_0000), // slti a0, t0, -1
    (0x0002_a513, 0xffff_ffff, 0x0000_0000, 0x0000_0001), // slti a0, t0, 0
    (0xfff2_a513, 0xffff_ffff, 0x0000_0000, 0x0000_0000), // slti a0, t0, -1
    (0x8002_a513, 0x8000_0000, 0x0000_0000, 0x0000_0001), // slti a0, t0, -2048
    (0x7ff2_a513, 0x7fff_ffff, 0x0000_0000, 0x0000_0000), // slti a0, t0, 2047
    (0x8002_a513, 0xffff_f7ff, 0x0000_0000, 0x0000_0001), // slti a0, t0, -2048
    (0x7ff2_a513, 0x0000_07fe, 0x0000_0000, 0x0000_0001), // slti a0, t0, 2047
    (0x0002_b513, 0x0000_0000, 0x0000_0000, 0x0000_0000), // sltiu a0, t0, 0
    (0x0012_b513, 0x0000_0000, 0x0000_0000, 0x0000_0001), // sltiu a0, t0, 1
    (0x0012_b513, 0x0000_0001, 0x0000_0000, 0x0000_0000), // sltiu a0, t0, 1
    (0xfff2_b513, 0x0000_0000, 0x0000_0000, 0x0000_0001), // sltiu a0, t0, -1
    (0xfff2_b513, 0xffff_ffff, 0x0000_0000, 0x0000_0000), // sltiu a0, t0, -1
    (0xfff2_b513, 0xffff_fffe, 0x0000_0000, 0x0000_0001), // sltiu a0, t0, -1
    (0x8002_b513, 0xffff_f7ff, 0x0000_0000, 0x0000_0001), // sltiu a0, t0, -2048
    (0x8002_b513, 0xffff_f800, 0x0000_0000, 0x0000_0000), // sltiu a0, t0, -2048
    (0x7ff2_b513, 0x8000_0000, 0x0000_0000, 0x0000_0000), // sltiu a0, t0, 2047
    (0xfff2_c513, 0x0000_0000, 0x0000_0000, 0xffff_ffff), // xori a0, t0, -1
    (0xfff2_c513, 0xffff_ffff, 0x0000_0000, 0x0000_0000), // xori a0, t0, -1
    (0x5552_c513, 0xaaaa_aaaa, 0x0000_0000, 0xaaaa_afff), // xori a0, t0, 1365
    (0x0002_c513, 0x8000_0000, 0x0000_0000, 0x8000_0000), // xori a0, t0, 0
    (0x8002_c513, 0x0000_0000, 0x0000_0000, 0xffff_f800), // xori a0, t0, -2048
    (0x7ff2_c513, 0xffff_ffff, 0x0000_0000, 0xffff_f800), // xori a0, t0, 2047
    (0xfff2_e513, 0x0000_0000, 0x0000_0000, 0xffff_ffff), // ori a0, t0, -1
    (0x5552_e513, 0xaaaa_aaaa, 0x0000_0000, 0xaaaa_afff), // ori a0, t0, 1365
    (0x0002_e513, 0x8000_0000, 0x0000_0000, 0x8000_0000), // ori a0, t0, 0
    (0x8002_e513, 0x0000_0000, 0x0000_0000, 0xffff_f800), // ori a0, t0, -2048
    (0x7ff2_e513, 0x0000_0000, 0x0000_0000, 0x0000_07ff), // ori a0, t0, 2047
    (0xfff2_f513, 0xffff_ffff, 0x0000_0000, 0xffff_ffff), // andi a0, t0, -1
    (0x5552_f513, 0xaaaa_aaaa, 0x0000_0000, 0x0000_0000), // andi a0, t0, 1365
    (0x0002_f513, 0xffff_ffff, 0x0000_0000, 0x0000_0000), // andi a0, t0, 0
    (0x8002_f513, 0xffff_ffff, 0x0000_0000, 0xffff_f800), // andi a0, t0, -2048
    (0x7ff2_f513, 0xffff_ffff, 0x0000_0000, 0x0000_07ff), // andi a0, t0, 2047
    (0x0002_9513, 0x8000_0001, 0x0000_0000, 0x8000_0001), // slli a0, t0, 0
    (0x0012_9513, 0x8000_0001, 0x0000_0000, 0x0000_0002), // slli a0, t0, 1
    (0x01f2_9513, 0x8000_0001, 0x0000_0000, 0x8000_0000), // slli a0, t0, 31
    (0x0102_9513, 0xffff_ffff, 0x0000_0000, 0xffff_0000), // slli a0, t0, 16
    (0x0012_9513, 0x5555_5555, 0x0000_0000, 0xaaaa_aaaa), // slli a0, t0, 1
    (0x0002_d513, 0x8000_0001, 0x0000_0000, 0x8000_0001), // srli a0, t0, 0
    (0x0012_d513, 0x8000_0001, 0x0000_0000, 0x4000_0000), // srli a0, t0, 1
    (0x01f2_d513, 0x8000_0000, 0x0000_0000, 0x0000_0001), // srli a0, t0, 31
    (0x0102_d513, 0xffff_ffff, 0x0000_0000, 0x0000_ffff), // srli a0, t0, 16
    (0x01e2_d513, 0x7fff_ffff, 0x0000_0000, 0x0000_0001), // srli a0, t0, 30
    (0x4002_d513, 0x8000_0001, 0x0000_0000, 0x8000_0001), // srai a0, t0, 0
    (0x4012_d513, 0x8000_0001, 0x0000_0000, 0xc000_0000), // srai a0, t0, 1
    (0x41f2_d513, 0x8000_0000, 0x0000_0000, 0xffff_ffff), // srai a0, t0, 31
    (0x41f2_d513, 0xffff_ffff, 0x0000_0000, 0xffff_ffff), // srai a0, t0, 31
    (0x41e2_d513, 0x7fff_ffff, 0x0000_0000, 0x0000_0001), // srai a0, t0, 30
    (0x4042_d513, 0x8000_0000, 0x0000_0000, 0xf800_0000), // srai a0, t0, 4
    (0x4012_d513, 0xaaaa_aaaa, 0x0000_0000, 0xd555_5555), // srai a0, t0, 1
    (0x0000_0537, 0x0000_0000, 0x0000_0000, 0x0000_0000), // lui a0, 0x0
    (0x0000_1537, 0x0000_0000, 0x0000_0000, 0x0000_1000), // lui a0, 0x1
    (0x7fff_f537, 0x0000_0000, 0x0000_0000, 0x7fff_f000), // lui a0, 0x7ffff
    (0x8000_0537, 0x0000_0000, 0x0000_0000, 0x8000_0000), // lui a0, 0x80000
    (0xffff_f537, 0x0000_0000, 0x0000_0000, 0xffff_f000), // lui a0, 0xfffff
    (0x1234_5537, 0x0000_0000, 0x0000_0000, 0x1234_5000), // lui a0, 0x12345
    (0xaaaa_a537, 0x0000_0000, 0x0000_0000, 0xaaaa_a000), // lui a0, 0xaaaaa
    (0x0000_0517, 0x0000_0000, 0x0000_0000, 0x0000_0010), // auipc a0, 0x0
    (0x0000_1517, 0x0000_0000, 0x0000_0000, 0x0000_1010), // auipc a0, 0x1
    (0x7fff_f517, 0x0000_0000, 0x0000_0000, 0x7fff_f010), // auipc a0, 0x7ffff
    (0x8000_0517, 0x0000_0000, 0x0000_0000, 0x8000_0010), // auipc a0, 0x80000
    (0xffff_f517, 0x0000_0000, 0x0000_0000, 0xffff_f010), // auipc a0, 0xfffff
    (0x1234_5517, 0x0000_0000, 0x0000_0000, 0x1234_5010), // auipc a0, 0x12345
    (0xaaaa_a517, 0x0000_0000, 0x0000_0000, 0xaaaa_a010), // auipc a0, 0xaaaaa
    (0x0060_0533, 0x0000_0005, 0xffff_ffff, 0xffff_ffff), // add a0, zero, t1
    (0x4050_0533, 0x0000_0001, 0x0000_0000, 0xffff_ffff), // sub a0, zero, t0
    (0x0050_3533, 0x0000_0005, 0x0000_0000, 0x0000_0001), // sltu a0, zero, t0
    (0x0202_c533, 0x0000_0005, 0x0000_0005, 0xffff_ffff), // div a0, t0, zero
    (0x0260_3533, 0x0000_0005, 0xffff_ffff, 0x0000_0000), // mulhu a0, zero, t1
    (0x00a5_0533, 0x8000_0001, 0x0000_0000, 0x0000_0002), // add a0, a0, a0
    (0x40a3_0533, 0x0000_0001, 0x0000_0003, 0x0000_0002), // sub a0, t1, a0
    (0x4065_0533, 0x0000_0001, 0x0000_0003, 0xffff_fffe), // sub a0, a0, t1
    (0x00a5_4533, 0xaaaa_aaaa, 0x0000_0000, 0x0000_0000), // xor a0, a0, a0
    (0x4015_5513, 0x8000_0000, 0x0000_0000, 0xc000_0000), // srai a0, a0, 1
    (0x0062_8033, 0x0000_0005, 0x0000_0007, 0x0000_0005), // add zero, t0, t1
    (0x0012_8013, 0x0000_0005, 0x0000_0000, 0x0000_0005), // addi zero, t0, 1
    (0x4062_8033, 0x0000_0005, 0x0000_0007, 0x0000_0005), // sub zero, t0, t1
    (0xffff_f037, 0x0000_0005, 0x0000_0000, 0x0000_0005), // lui zero, 0xfffff
    (0x0000_1017, 0x0000_0005, 0x0000_0000, 0x0000_0005), // auipc zero, 1
    (0x0262_8033, 0x0000_0005, 0x0000_0007, 0x0000_0005), // mul zero, t0, t1
    (0x0202_d033, 0x0000_0005, 0x0000_0000, 0x0000_0005), // divu zero, t0, zero
    (0x0ff0_000f, 0x0000_0005, 0x0000_0007, 0x0000_0005), // fence
    (0x0000_100f, 0x0000_0005, 0x0000_0007, 0x0000_0005), // fence.i
    (0x0000_000f, 0x0000_0005, 0x0000_0007, 0x0000_0005), // .word 0x0000000f
];

static LOADS: [(u32, u32, u32, u32); 55] = [
    (0x0002_8503, 0x0000_0400, 0x80ff_7f01, 0x0000_0001), // lb a0, 0(t0)
    (0x0012_8503, 0x0000_0400, 0x80ff_7f01, 0x0000_007f), // lb a0, 1(t0)
    (0x0022_8503, 0x0000_0400, 0x80ff_7f01, 0xffff_ffff), // lb a0, 2(t0)
    (0x0032_8503, 0x0000_0400, 0x80ff_7f01, 0xffff_ff80), // lb a0, 3(t0)
    (0x0002_8503, 0x0000_0400, 0x7f01_80fe, 0xffff_fffe), // lb a0, 0(t0)
    (0x0012_8503, 0x0000_0400, 0x7f01_80fe, 0xffff_ff80), // lb a0, 1(t0)
    (0x0022_8503, 0x0000_0400, 0x7f01_80fe, 0x0000_0001), // lb a0, 2(t0)
    (0x0032_8503, 0x0000_0400, 0x7f01_80fe, 0x0000_007f), // lb a0, 3(t0)
    (0x8002_8503, 0x0000_0c00, 0x80ff_7f01, 0x0000_0001), // lb a0, -2048(t0)
    (0x7ff2_8503, 0xffff_fc01, 0x80ff_7f01, 0x0000_0001), // lb a0, 2047(t0)
    (0x0032_8503, 0x0000_0400, 0xffff_ffff, 0xffff_ffff), // lb a0, 3(t0)
    (0x0005_0503, 0x0000_0400, 0x80ff_7f01, 0x0000_0001), // lb a0, 0(a0)
    (0x0002_8003, 0x0000_0400, 0x80ff_7f01, 0x0000_0400), // lb zero, 0(t0)
    (0x0002_c503, 0x0000_0400, 0x80ff_7f01, 0x0000_0001), // lbu a0, 0(t0)
    (0x0012_c503, 0x0000_0400, 0x80ff_7f01, 0x0000_007f), // lbu a0, 1(t0)
    (0x0022_c503, 0x0000_0400, 0x80ff_7f01, 0x0000_00ff), // lbu a0, 2(t0)
    (0x0032_c503, 0x0000_0400, 0x80ff_7f01, 0x0000_0080), // lbu a0, 3(t0)
    (0x0002_c503, 0x0000_0400, 0x7f01_80fe, 0x0000_00fe), // lbu a0, 0(t0)
    (0x0012_c503, 0x0000_0400, 0x7f01_80fe, 0x0000_0080), // lbu a0, 1(t0)
    (0x0022_c503, 0x0000_0400, 0x7f01_80fe, 0x0000_0001), // lbu a0, 2(t0)
    (0x0032_c503, 0x0000_0400, 0x7f01_80fe, 0x0000_007f), // lbu a0, 3(t0)
    (0x8002_c503, 0x0000_0c00, 0x80ff_7f01, 0x0000_0001), // lbu a0, -2048(t0)
    (0x7ff2_c503, 0xffff_fc01, 0x80ff_7f01, 0x0000_0001), // lbu a0, 2047(t0)
    (0x0032_c503, 0x0000_0400, 0xffff_ffff, 0x0000_00ff), // lbu a0, 3(t0)
    (0x0005_4503, 0x0000_0400, 0x80ff_7f01, 0x0000_0001), // lbu a0, 0(a0)
    (0x0002_c003, 0x0000_0400, 0x80ff_7f01, 0x0000_0400), // lbu zero, 0(t0)
    (0x0002_9503, 0x0000_0400, 0x80ff_7f01, 0x0000_7f01), // lh a0, 0(t0)
    (0x0022_9503, 0x0000_0400, 0x80ff_7f01, 0xffff_80ff), // lh a0, 2(t0)
    (0x0002_9503, 0x0000_0400, 0x7f01_80fe, 0xffff_80fe), // lh a0, 0(t0)
    (0x0022_9503, 0x0000_0400, 0x7f01_80fe, 0x0000_7f01), // lh a0, 2(t0)
    (0x8002_9503, 0x0000_0c00, 0x80ff_7f01, 0x0000_7f01), // lh a0, -2048(t0)
    (0x7ff2_9503, 0xffff_fc01, 0x80ff_7f01, 0x0000_7f01), // lh a0, 2047(t0)
    (0x0022_9503, 0x0000_0400, 0xffff_ffff, 0xffff_ffff), // lh a0, 2(t0)
    (0x0005_1503, 0x0000_0400, 0x80ff_7f01, 0x0000_7f01), // lh a0, 0(a0)
    (0x0002_9003, 0x0000_0400, 0x80ff_7f01, 0x0000_0400), // lh zero, 0(t0)
    (0x0002_d503, 0x0000_0400, 0x80ff_7f01, 0x0000_7f01), // lhu a0, 0(t0)
    (0x0022_d503, 0x0000_0400, 0x80ff_7f01, 0x0000_80ff), // lhu a0, 2(t0)
    (0x0002_d503, 0x0000_0400, 0x7f01_80fe, 0x0000_80fe), // lhu a0, 0(t0)
    (0x0022_d503, 0x0000_0400, 0x7f01_80fe, 0x0000_7f01), // lhu a0, 2(t0)
    (0x8002_d503, 0x0000_0c00, 0x80ff_7f01, 0x0000_7f01), // lhu a0, -2048(t0)
    (0x7ff2_d503, 0xffff_fc01, 0x80ff_7f01, 0x0000_7f01), // lhu a0, 2047(t0)
    (0x0022_d503, 0x0000_0400, 0xffff_ffff, 0x0000_ffff), // lhu a0, 2(t0)
    (0x0005_5503, 0x0000_0400, 0x80ff_7f01, 0x0000_7f01), // lhu a0, 0(a0)
    (0x0002_d003, 0x0000_0400, 0x80ff_7f01, 0x0000_0400), // lhu zero, 0(t0)
    (0x0002_a503, 0x0000_0400, 0x80ff_7f01, 0x80ff_7f01), // lw a0, 0(t0)
    (0x0002_a503, 0x0000_0400, 0x7f01_80fe, 0x7f01_80fe), // lw a0, 0(t0)
    (0x8002_a503, 0x0000_0c00, 0x80ff_7f01, 0x80ff_7f01), // lw a0, -2048(t0)
    (0x7ff2_a503, 0xffff_fc01, 0x80ff_7f01, 0x80ff_7f01), // lw a0, 2047(t0)
    (0x0002_a503, 0x0000_0400, 0xffff_ffff, 0xffff_ffff), // lw a0, 0(t0)
    (0x0005_2503, 0x0000_0400, 0x80ff_7f01, 0x80ff_7f01), // lw a0, 0(a0)
    (0x0002_a003, 0x0000_0400, 0x80ff_7f01, 0x0000_0400), // lw zero, 0(t0)
    (0x4000_0503, 0x0000_0005, 0x80ff_7f01, 0x0000_0001), // lb a0, 1024(zero)
    (0x4000_2503, 0x0000_0005, 0x8000_0000, 0x8000_0000), // lw a0, 1024(zero)
    (0xffc2_a503, 0x0000_0404, 0x7fff_ffff, 0x7fff_ffff), // lw a0, -4(t0)
    (0xc002_a503, 0x0000_0800, 0xaaaa_aaaa, 0xaaaa_aaaa), // lw a0, -1024(t0)
];

static STORES: [(u32, u32, u32, u32); 37] = [
    (0x0062_8023, 0x0000_0400, 0x1122_3344, 0x1122_33bb), // sb t1, 0(t0)
    (0x0062_80a3, 0x0000_0400, 0x1122_3344, 0x1122_bb44), // sb t1, 1(t0)
    (0x0062_8123, 0x0000_0400, 0x1122_3344, 0x11bb_3344), // sb t1, 2(t0)
    (0x0062_81a3, 0x0000_0400, 0x1122_3344, 0xbb22_3344), // sb t1, 3(t0)
    (0x8062_8023, 0x0000_0c00, 0x1122_3344, 0x1122_33bb), // sb t1, -2048(t0)
    (0x7e62_8fa3, 0xffff_fc01, 0x1122_3344, 0x1122_33bb), // sb t1, 2047(t0)
    (0x0062_8223, 0x0000_0400, 0x1122_3344, 0x1122_3344), // sb t1, 4(t0)
    (0xfe62_8fa3, 0x0000_0400, 0x1122_3344, 0x1122_3344), // sb t1, -1(t0)
    (0xfe62_8fa3, 0x0000_0404, 0x1122_3344, 0xbb22_3344), // sb t1, -1(t0)
    (0x0052_8023, 0x0000_0400, 0x1122_3344, 0x1122_3300), // sb t0, 0(t0)
    (0x0002_8023, 0x0000_0400, 0xffff_ffff, 0xffff_ff00), // sb zero, 0(t0)
    (0x0062_8023, 0x0000_0400, 0x0000_0000, 0x0000_00bb), // sb t1, 0(t0)
    (0x0065_0023, 0x0000_0400, 0xffff_ffff, 0xffff_ffbb), // sb t1, 0(a0)
    (0x4060_0023, 0x0000_0005, 0x1122_3344, 0x1122_33bb), // sb t1, 1024(zero)
    (0x0062_9023, 0x0000_0400, 0x1122_3344, 0x1122_aabb), // sh t1, 0(t0)
    (0x0062_9123, 0x0000_0400, 0x1122_3344, 0xaabb_3344), // sh t1, 2(t0)
    (0x8062_9023, 0x0000_0c00, 0x1122_3344, 0x1122_aabb), // sh t1, -2048(t0)
    (0x7e62_9fa3, 0xffff_fc01, 0x1122_3344, 0x1122_aabb), // sh t1, 2047(t0)
    (0x0062_9223, 0x0000_0400, 0x1122_3344, 0x1122_3344), // sh t1, 4(t0)
    (0xfe62_9f23, 0x0000_0400, 0x1122_3344, 0x1122_3344), // sh t1, -2(t0)
    (0xfe62_9f23, 0x0000_0404, 0x1122_3344, 0xaabb_3344), // sh t1, -2(t0)
    (0x0052_9023, 0x0000_0400, 0x1122_3344, 0x1122_0400), // sh t0, 0(t0)
    (0x0002_9023, 0x0000_0400, 0xffff_ffff, 0xffff_0000), // sh zero, 0(t0)
    (0x0062_9023, 0x0000_0400, 0x0000_0000, 0x0000_aabb), // sh t1, 0(t0)
    (0x0065_1023, 0x0000_0400, 0xffff_ffff, 0xffff_aabb), // sh t1, 0(a0)
    (0x4060_1023, 0x0000_0005, 0x1122_3344, 0x1122_aabb), // sh t1, 1024(zero)
    (0x0062_a023, 0x0000_0400, 0x1122_3344, 0x8899_aabb), // sw t1, 0(t0)
    (0x8062_a023, 0x0000_0c00, 0x1122_3344, 0x8899_aabb), // sw t1, -2048(t0)
    (0x7e62_afa3, 0xffff_fc01, 0x1122_3344, 0x8899_aabb), // sw t1, 2047(t0)
    (0x0062_a223, 0x0000_0400, 0x1122_3344, 0x1122_3344), // sw t1, 4(t0)
    (0xfe62_ae23, 0x0000_0400, 0x1122_3344, 0x1122_3344), // sw t1, -4(t0)
    (0xfe62_ae23, 0x0000_0404, 0x1122_3344, 0x8899_aabb), // sw t1, -4(t0)
    (0x0052_a023, 0x0000_0400, 0x1122_3344, 0x0000_0400), // sw t0, 0(t0)
    (0x0002_a023, 0x0000_0400, 0xffff_ffff, 0x0000_0000), // sw zero, 0(t0)
    (0x0062_a023, 0x0000_0400, 0x0000_0000, 0x8899_aabb), // sw t1, 0(t0)
    (0x0065_2023, 0x0000_0400, 0xffff_ffff, 0x8899_aabb), // sw t1, 0(a0)
    (0x4060_2023, 0x0000_0005, 0x1122_3344, 0x8899_aabb), // sw t1, 1024(zero)
];

static BRANCHES: [(u32, u32, u32, u32); 69] = [
    (0x0062_8863, 0x0000_0000, 0x0000_0000, 0x2c10), // beq t0, t1, .+16
    (0xfe62_80e3, 0xffff_ffff, 0xffff_ffff, 0x2be0), // beq t0, t1, .-32
    (0x7e62_8ee3, 0xaaaa_aaaa, 0xaaaa_aaaa, 0x3bfc), // beq t0, t1, .+4092
    (0x8062_8063, 0x0000_0000, 0x0000_0001, 0x2c04), // beq t0, t1, .-4096
    (0x0062_80e3, 0x8000_0000, 0x0000_0000, 0x2c04), // beq t0, t1, .+2048
    (0x0062_8463, 0xaaaa_aaaa, 0x5555_5555, 0x2c04), // beq t0, t1, .+8
    (0x0062_9863, 0x0000_0000, 0x0000_0001, 0x2c10), // bne t0, t1, .+16
    (0xfe62_90e3, 0x8000_0000, 0x0000_0000, 0x2be0), // bne t0, t1, .-32
    (0x7e62_9ee3, 0xaaaa_aaaa, 0x5555_5555, 0x3bfc), // bne t0, t1, .+4092
    (0x8062_9063, 0x0000_0000, 0x0000_0000, 0x2c04), // bne t0, t1, .-4096
    (0x0062_90e3, 0xffff_ffff, 0xffff_ffff, 0x2c04), // bne t0, t1, .+2048
    (0x0062_9463, 0xaaaa_aaaa, 0xaaaa_aaaa, 0x2c04), // bne t0, t1, .+8
    (0x0062_c863, 0xffff_ffff, 0x0000_0000, 0x2c10), // blt t0, t1, .+16
    (0xfe62_c0e3, 0x8000_0000, 0x7fff_ffff, 0x2be0), // blt t0, t1, .-32
    (0x7e62_cee3, 0x8000_0000, 0xffff_ffff, 0x3bfc), // blt t0, t1, .+4092
    (0x8062_c063, 0xffff_fffe, 0xffff_ffff, 0x1c00), // blt t0, t1, .-4096
    (0x0062_c0e3, 0x0000_0000, 0x0000_0001, 0x3400), // blt t0, t1, .+2048
    (0x0062_c463, 0x0000_0000, 0xffff_ffff, 0x2c04), // blt t0, t1, .+8
    (0x8062_c0e3, 0x7fff_ffff, 0x8000_0000, 0x2c04), // blt t0, t1, .-2048
    (0x0062_c663, 0xffff_ffff, 0x8000_0000, 0x2c04), // blt t0, t1, .+12
    (0x0062_c863, 0xffff_ffff, 0xffff_fffe, 0x2c04), // blt t0, t1, .+16
    (0xfe62_c0e3, 0x0000_0001, 0x0000_0000, 0x2c04), // blt t0, t1, .-32
    (0x7e62_cee3, 0x8000_0000, 0x8000_0000, 0x2c04), // blt t0, t1, .+4092
    (0x8062_c063, 0xffff_ffff, 0xffff_ffff, 0x2c04), // blt t0, t1, .-4096
    (0x0062_c0e3, 0x0000_0000, 0x0000_0000, 0x2c04), // blt t0, t1, .+2048
    (0x0062_d863, 0xffff_ffff, 0x0000_0000, 0x2c04), // bge t0, t1, .+16
    (0xfe62_d0e3, 0x8000_0000, 0x7fff_ffff, 0x2c04), // bge t0, t1, .-32
    (0x7e62_dee3, 0x8000_0000, 0xffff_ffff, 0x2c04), // bge t0, t1, .+4092
    (0x8062_d063, 0xffff_fffe, 0xffff_ffff, 0x2c04), // bge t0, t1, .-4096
    (0x0062_d0e3, 0x0000_0000, 0x0000_0001, 0x2c04), // bge t0, t1, .+2048
    (0x0062_d463, 0x0000_0000, 0xffff_ffff, 0x2c08), // bge t0, t1, .+8
    (0x8062_d0e3, 0x7fff_ffff, 0x8000_0000, 0x2400), // bge t0, t1, .-2048
    (0x0062_d663, 0xffff_ffff, 0x8000_0000, 0x2c0c), // bge t0, t1, .+12
    (0x0062_d863, 0xffff_ffff, 0xffff_fffe, 0x2c10), // bge t0, t1, .+16
    (0xfe62_d0e3, 0x0000_0001, 0x0000_0000, 0x2be0), // bge t0, t1, .-32
    (0x7e62_dee3, 0x8000_0000, 0x8000_0000, 0x3bfc), // bge t0, t1, .+4092
    (0x8062_d063, 0xffff_ffff, 0xffff_ffff, 0x1c00), // bge t0, t1, .-4096
    (0x0062_d0e3, 0x0000_0000, 0x0000_0000, 0x3400), // bge t0, t1, .+2048
    (0x0062_e863, 0x0000_0000, 0xffff_ffff, 0x2c10), // bltu t0, t1, .+16
    (0xfe62_e0e3, 0x7fff_ffff, 0x8000_0000, 0x2be0), // bltu t0, t1, .-32
    (0x7e62_eee3, 0x8000_0000, 0xffff_ffff, 0x3bfc), // bltu t0, t1, .+4092
    (0x8062_e063, 0xffff_fffe, 0xffff_ffff, 0x1c00), // bltu t0, t1, .-4096
    (0x0062_e0e3, 0x0000_0000, 0x0000_0001, 0x3400), // bltu t0, t1, .+2048
    (0x0062_e463, 0xffff_ffff, 0x0000_0000, 0x2c04), // bltu t0, t1, .+8
    (0x8062_e0e3, 0x8000_0000, 0x7fff_ffff, 0x2c04), // bltu t0, t1, .-2048
    (0x0062_e663, 0xffff_ffff, 0x8000_0000, 0x2c04), // bltu t0, t1, .+12
    (0x0062_e863, 0xffff_ffff, 0xffff_fffe, 0x2c04), // bltu t0, t1, .+16
    (0xfe62_e0e3, 0x0000_0001, 0x0000_0000, 0x2c04), // bltu t0, t1, .-32
    (0x7e62_eee3, 0x8000_0000, 0x8000_0000, 0x2c04), // bltu t0, t1, .+4092
    (0x8062_e063, 0xffff_ffff, 0xffff_ffff, 0x2c04), // bltu t0, t1, .-4096
    (0x0062_e0e3, 0x0000_0000, 0x0000_0000, 0x2c04), // bltu t0, t1, .+2048
    (0x0062_f863, 0x0000_0000, 0xffff_ffff, 0x2c04), // bgeu t0, t1, .+16
    (0xfe62_f0e3, 0x7fff_ffff, 0x8000_0000, 0x2c04), // bgeu t0, t1, .-32
    (0x7e62_fee3, 0x8000_0000, 0xffff_ffff, 0x2c04), // bgeu t0, t1, .+4092
    (0x8062_f063, 0xffff_fffe, 0xffff_ffff, 0x2c04), // bgeu t0, t1, .-4096
    (0x0062_f0e3, 0x0000_0000, 0x0000_0001, 0x2c04), // bgeu t0, t1, .+2048
    (0x0062_f463, 0xffff_ffff, 0x0000_0000, 0x2c08), // bgeu t0, t1, .+8
    (0x8062_f0e3, 0x8000_0000, 0x7fff_ffff, 0x2400), // bgeu t0, t1, .-2048
    (0x0062_f663, 0xffff_ffff, 0x8000_0000, 0x2c0c), // bgeu t0, t1, .+12
    (0x0062_f863, 0xffff_ffff, 0xffff_fffe, 0x2c10), // bgeu t0, t1, .+16
    (0xfe62_f0e3, 0x0000_0001, 0x0000_0000, 0x2be0), // bgeu t0, t1, .-32
    (0x7e62_fee3, 0x8000_0000, 0x8000_0000, 0x3bfc), // bgeu t0, t1, .+4092
    (0x8062_f063, 0xffff_ffff, 0xffff_ffff, 0x1c00), // bgeu t0, t1, .-4096
    (0x0062_f0e3, 0x0000_0000, 0x0000_0000, 0x3400), // bgeu t0, t1, .+2048
    (0x0052_8463, 0x0000_0001, 0x0000_0002, 0x2c08), // beq t0, t0, .+8
    (0x0002_9463, 0x0000_0001, 0x0000_0000, 0x2c08), // bne t0, zero, .+8
    (0xfe60_60e3, 0x0000_0000, 0x0000_0001, 0x2be0), // bltu zero, t1, .-32
    (0x0062_8363, 0x0000_0000, 0x0000_0001, 0x2c04), // beq t0, t1, .+6
    (0x8062_f163, 0x0000_0000, 0x0000_0001, 0x2c04), // bgeu t0, t1, .-4094
];

static JUMPS: [Jump; 25] = [
    (0x0040_056f, 0x2c00, 0x0005, 0x2c04, 0x2c04), // jal a0, .+4
    (0x0080_056f, 0x2c00, 0x0005, 0x2c08, 0x2c04), // jal a0, .+8
    (0xfe1f_f56f, 0x2c00, 0x0005, 0x2be0, 0x2c04), // jal a0, .-32
    (0x0010_056f, 0x2c00, 0x0005, 0x3400, 0x2c04), // jal a0, .+2048
    (0x0000_156f, 0x2c00, 0x0005, 0x3c00, 0x2c04), // jal a0, .+4096
    (0x800f_f56f, 0x2c00, 0x0005, 0x1c00, 0x2c04), // jal a0, .-4096
    (0x2540_156f, 0x2c00, 0x0005, 0x3e54, 0x2c04), // jal a0, .+4692
    (0x0080_006f, 0x2c00, 0x0005, 0x2c08, 0x0005), // jal zero, .+8
    (0xfe1f_f0ef, 0x2c00, 0x0005, 0x2be0, 0x0005), // jal ra, .-32
    (0x0002_8567, 0x2c00, 0x2000, 0x2000, 0x2c04), // jalr a0, 0(t0)
    (0x0005_0567, 0x2c00, 0x2000, 0x2000, 0x2c04), // jalr a0, 0(a0)
    (0x7ff5_0567, 0x2c00, 0x2001, 0x2800, 0x2c04), // jalr a0, 2047(a0)
    (0x0012_8567, 0x2c00, 0x2000, 0x2000, 0x2c04), // jalr a0, 1(t0)
    (0x0002_8567, 0x2c00, 0x2001, 0x2000, 0x2c04), // jalr a0, 0(t0)
    (0xfff2_8567, 0x2c00, 0x2002, 0x2000, 0x2c04), // jalr a0, -1(t0)
    (0x0052_8567, 0x2c00, 0x2000, 0x2004, 0x2c04), // jalr a0, 5(t0)
    (0x7ff2_8567, 0x2c00, 0x1801, 0x2000, 0x2c04), // jalr a0, 2047(t0)
    (0x8002_8567, 0x2c00, 0x2800, 0x2000, 0x2c04), // jalr a0, -2048(t0)
    (0x7ff2_8567, 0x2c00, 0xffff_f901, 0x0100, 0x2c04), // jalr a0, 2047(t0)
    (0x0102_8567, 0x2c00, 0xffff_fff8, 0x0008, 0x2c04), // jalr a0, 16(t0)
    (0x0002_8067, 0x2c00, 0x2000, 0x2000, 0x2000), // jalr zero, 0(t0)
    (0xffd5_0067, 0x2c00, 0x2004, 0x2000, 0x2004), // jalr zero, -3(a0)
    (0x0042_80e7, 0x2c00, 0x2000, 0x2004, 0x2000), // jalr ra, 4(t0)
    (0x0042_82e7, 0x2c00, 0x2000, 0x2004, 0x2000), // jalr t0, 4(t0)
    (0x1000_0067, 0x2c00, 0x0005, 0x0100, 0x0005), // jalr zero, 256(zero)
];

static FAR_JUMPS: [Jump; 6] = [
    (0x7fdf_f56f, 0x0100, 0x0005, 0x0010_00fc, 0x0104), // jal a0, .+1048572
    (0x8000_056f, 0x0010_0100, 0x0005, 0x0100, 0x0010_0104), // jal a0, .-1048576
    (0x5545_506f, 0x0100, 0x0005, 0x0005_5654, 0x0005), // jal zero, .+0x55554
    (0xaada_a0ef, 0x0010_0100, 0x0005, 0x000a_abac, 0x0005), // jal ra, .-0x55554
    (0x8002_8567, 0x2c00, 0x0010_0800, 0x0010_0000, 0x2c04), // jalr a0, -2048(t0)
    (0x7ff5_0567, 0x0010_0100, 0x2001, 0x2800, 0x0010_0104), // jalr a0, 2047(a0)
];
