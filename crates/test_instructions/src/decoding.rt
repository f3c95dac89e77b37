// The words are those that LLVM's assembler for riscv32 with M makes of the text beside them.

use rv32_decode::{Inst, Op, decode, encode};
use std::process::Abort;

fn inst(op: Op, rd: u8, rs1: u8, rs2: u8, imm: i32) -> Inst {
    Inst {
        op,
        rd,
        rs1,
        rs2,
        imm,
    }
}

// The word is the instruction's, both ways.
fn expect(rt: &impl Abort, word: u32, expected: Inst) {
    let found = decode(word);
    assert_eq!(rt; found, Some(expected), "{word:08x}");
    if let Some(found) = found {
        assert_eq!(rt; encode(&found), word);
    }
}

#[test]
fn upper_and_jumps(rt: HostRuntime) {
    let table = [
        (0x0000_12b7, inst(Op::Lui, 5, 0, 0, 4096)), // lui t0, 1
        (0xffff_f2b7, inst(Op::Lui, 5, 0, 0, -4096)), // lui t0, 0xfffff
        (0x8000_0537, inst(Op::Lui, 10, 0, 0, -0x8000_0000)), // lui a0, 0x80000
        (0x1234_5197, inst(Op::Auipc, 3, 0, 0, 0x1234_5000)), // auipc gp, 0x12345
        (0x0010_00ef, inst(Op::Jal, 1, 0, 0, 2048)), // jal ra, 2048
        (0xffff_f06f, inst(Op::Jal, 0, 0, 0, -2)), // jal zero, -2
        (0x7fff_ffef, inst(Op::Jal, 31, 0, 0, 0xf_fffe)), // jal t6, 1048574
        (0x8000_0fef, inst(Op::Jal, 31, 0, 0, -0x10_0000)), // jal t6, -1048576
        (0x5545_50ef, inst(Op::Jal, 1, 0, 0, 0x5_5554)), // jal ra, 0x55554
        (0x0000_8067, inst(Op::Jalr, 0, 1, 0, 0)), // jalr zero, 0(ra)
        (0xfffd_8fe7, inst(Op::Jalr, 31, 27, 0, -1)), // jalr t6, -1(s11)
    ];
    for (word, expected) in table {
        expect(&rt, word, expected);
    }
}

#[test]
fn branches(rt: HostRuntime) {
    let table = [
        (0x0062_8863, inst(Op::Beq, 0, 5, 6, 16)), // beq t0, t1, 16
        (0x0062_80e3, inst(Op::Beq, 0, 5, 6, 2048)), // beq t0, t1, 2048
        (0xfe05_1ee3, inst(Op::Bne, 0, 10, 0, -4)), // bne a0, zero, -4
        (0x7ffd_cfe3, inst(Op::Blt, 0, 27, 31, 4094)), // blt s11, t6, 4094
        (0x81fd_d063, inst(Op::Bge, 0, 27, 31, -4096)), // bge s11, t6, -4096
        (0x54c5_ea63, inst(Op::Bltu, 0, 11, 12, 1364)), // bltu a1, a2, 0x554
        (0xfec5_f1e3, inst(Op::Bgeu, 0, 11, 12, -30)), // bgeu a1, a2, -30
    ];
    for (word, expected) in table {
        expect(&rt, word, expected);
    }
}

#[test]
fn loads_and_stores(rt: HostRuntime) {
    let table = [
        (0x0012_8503, inst(Op::Lb, 10, 5, 0, 1)), // lb a0, 1(t0)
        (0x0022_9503, inst(Op::Lh, 10, 5, 0, 2)), // lh a0, 2(t0)
        (0x0002_a503, inst(Op::Lw, 10, 5, 0, 0)), // lw a0, 0(t0)
        (0xffc2_a303, inst(Op::Lw, 6, 5, 0, -4)), // lw t1, -4(t0)
        (0x7ffd_af83, inst(Op::Lw, 31, 27, 0, 2047)), // lw t6, 2047(s11)
        (0x8002_c503, inst(Op::Lbu, 10, 5, 0, -2048)), // lbu a0, -2048(t0)
        (0x0062_d503, inst(Op::Lhu, 10, 5, 0, 6)), // lhu a0, 6(t0)
        (0x0062_81a3, inst(Op::Sb, 0, 5, 6, 3)), // sb t1, 3(t0)
        (0xfe62_9f23, inst(Op::Sh, 0, 5, 6, -2)), // sh t1, -2(t0)
        (0x0062_a023, inst(Op::Sw, 0, 5, 6, 0)), // sw t1, 0(t0)
        (0xfe62_ae23, inst(Op::Sw, 0, 5, 6, -4)), // sw t1, -4(t0)
        (0x81fd_a023, inst(Op::Sw, 0, 27, 31, -2048)), // sw t6, -2048(s11)
        (0x7ffd_afa3, inst(Op::Sw, 0, 27, 31, 2047)), // sw t6, 2047(s11)
    ];
    for (word, expected) in table {
        expect(&rt, word, expected);
    }
}

#[test]
fn immediates(rt: HostRuntime) {
    let table = [
        (0x0070_0513, inst(Op::Addi, 10, 0, 0, 7)), // addi a0, zero, 7
        (0x05d0_0893, inst(Op::Addi, 17, 0, 0, 93)), // addi a7, zero, 93
        (0xfff0_0513, inst(Op::Addi, 10, 0, 0, -1)), // addi a0, zero, -1
        (0x800f_8f93, inst(Op::Addi, 31, 31, 0, -2048)), // addi t6, t6, -2048
        (0xffb5_a513, inst(Op::Slti, 10, 11, 0, -5)), // slti a0, a1, -5
        (0x0015_b513, inst(Op::Sltiu, 10, 11, 0, 1)), // sltiu a0, a1, 1
        (0xfff5_c513, inst(Op::Xori, 10, 11, 0, -1)), // xori a0, a1, -1
        (0x00f5_e513, inst(Op::Ori, 10, 11, 0, 15)), // ori a0, a1, 15
        (0x0ff5_f513, inst(Op::Andi, 10, 11, 0, 255)), // andi a0, a1, 255
        (0x01f5_9513, inst(Op::Slli, 10, 11, 0, 31)), // slli a0, a1, 31
        (0x0015_d513, inst(Op::Srli, 10, 11, 0, 1)), // srli a0, a1, 1
        (0x4115_d513, inst(Op::Srai, 10, 11, 0, 17)), // srai a0, a1, 17
    ];
    for (word, expected) in table {
        expect(&rt, word, expected);
    }
}

#[test]
fn registers(rt: HostRuntime) {
    let table = [
        (0x00c5_8533, inst(Op::Add, 10, 11, 12, 0)), // add a0, a1, a2
        (0x40c5_8533, inst(Op::Sub, 10, 11, 12, 0)), // sub a0, a1, a2
        (0x00c5_9533, inst(Op::Sll, 10, 11, 12, 0)), // sll a0, a1, a2
        (0x00c5_a533, inst(Op::Slt, 10, 11, 12, 0)), // slt a0, a1, a2
        (0x00c5_b533, inst(Op::Sltu, 10, 11, 12, 0)), // sltu a0, a1, a2
        (0x00c5_c533, inst(Op::Xor, 10, 11, 12, 0)), // xor a0, a1, a2
        (0x00c5_d533, inst(Op::Srl, 10, 11, 12, 0)), // srl a0, a1, a2
        (0x40c5_d533, inst(Op::Sra, 10, 11, 12, 0)), // sra a0, a1, a2
        (0x00c5_e533, inst(Op::Or, 10, 11, 12, 0)), // or a0, a1, a2
        (0x00c5_f533, inst(Op::And, 10, 11, 12, 0)), // and a0, a1, a2
    ];
    for (word, expected) in table {
        expect(&rt, word, expected);
    }
}

#[test]
fn products(rt: HostRuntime) {
    let table = [
        (0x022d_8fb3, inst(Op::Mul, 31, 27, 2, 0)), // mul t6, s11, sp
        (0x022d_9fb3, inst(Op::Mulh, 31, 27, 2, 0)), // mulh t6, s11, sp
        (0x022d_afb3, inst(Op::Mulhsu, 31, 27, 2, 0)), // mulhsu t6, s11, sp
        (0x022d_bfb3, inst(Op::Mulhu, 31, 27, 2, 0)), // mulhu t6, s11, sp
        (0x022d_cfb3, inst(Op::Div, 31, 27, 2, 0)), // div t6, s11, sp
        (0x022d_dfb3, inst(Op::Divu, 31, 27, 2, 0)), // divu t6, s11, sp
        (0x022d_efb3, inst(Op::Rem, 31, 27, 2, 0)), // rem t6, s11, sp
        (0x022d_ffb3, inst(Op::Remu, 31, 27, 2, 0)), // remu t6, s11, sp
    ];
    for (word, expected) in table {
        expect(&rt, word, expected);
    }
}

#[test]
fn fences_and_system(rt: HostRuntime) {
    let table = [
        (0x0ff0_000f, inst(Op::Fence, 0, 0, 0, 255)), // fence
        (0x0210_000f, inst(Op::Fence, 0, 0, 0, 33)), // fence r, w
        (0x0000_100f, inst(Op::FenceI, 0, 0, 0, 0)), // fence.i
        (0x0000_0073, inst(Op::Ecall, 0, 0, 0, 0)), // ecall
        (0x0010_0073, inst(Op::Ebreak, 0, 0, 0, 0)), // ebreak
    ];
    for (word, expected) in table {
        expect(&rt, word, expected);
    }
}

// Shifts by more than 31, compressed code, CSR instructions, MRET, and codes that no row has.
#[test]
fn words_without_a_row(rt: HostRuntime) {
    for word in [
        0,
        0xffff_ffff,
        0x0200_1013,
        0x0000_4501,
        0x3000_2073,
        0x3020_0073,
        0x0000_00f3,
        0x0000_200f,
        0x0000_2063,
        0x0000_3003,
        0x0000_1067,
        0x4000_1033,
    ] {
        assert_eq!(rt; decode(word), None, "{word:08x}");
    }
}
