// The words are LLVM's for riscv32 with M. So are the texts without an address or an upper part, as its
// disassembler writes them without aliases; the others are worked out by hand.

use rv32_decode::decode;
use rv32_text::{write_inst, write_word};
use std::alloc::Global;
use std::process::Abort;
use std::test::Fail;

fn expect(rt: &impl Abort, alloc: Global, word: u32, pc: u32, expected: &str) {
    match write_word(alloc, word, pc) {
        Ok(text) => assert_eq!(rt; text.as_slice(), expected.as_bytes(), "{word:08x}"),
        Err(_) => assert!(rt; false, "no memory at {word:08x}"),
    }
}

#[test]
fn each_style(rt: HostRuntime) {
    let table = [
        (0x00c5_8533, "add a0, a1, a2"),
        (0x022d_afb3, "mulhsu t6, s11, sp"),
        (0x0070_0513, "addi a0, zero, 7"),
        (0x800f_8f93, "addi t6, t6, -2048"),
        (0x4115_d513, "srai a0, a1, 17"),
        (0x0002_a503, "lw a0, 0(t0)"),
        (0xffc2_a303, "lw t1, -4(t0)"),
        (0xfffd_8fe7, "jalr t6, -1(s11)"),
        (0xfe62_ae23, "sw t1, -4(t0)"),
        (0x1234_5197, "auipc gp, 0x12345"),
        (0x0000_12b7, "lui t0, 0x1"),
        (0xffff_f2b7, "lui t0, 0xfffff"),
        (0x0000_0037, "lui zero, 0x0"),
        (0x0000_0073, "ecall"),
        (0x0010_0073, "ebreak"),
    ];
    for (word, expected) in table {
        expect(&rt, rt.alloc(), word, 0x1000, expected);
    }
}

// The words of one program, one of each row, by GNU as; the texts are those of GNU objdump without aliases, with a
// blank behind each comma, targets in eight digits and shifts in decimal.
#[test]
fn each_row(rt: HostRuntime) {
    let table = [
        (0x1234_52b7, "lui t0, 0x12345"),
        (0xffff_fd97, "auipc s11, 0xfffff"),
        (0x0080_00ef, "jal ra, 0x00000010"),
        (0xffc8_84e7, "jalr s1, -4(a7)"),
        (0x0010_0863, "beq zero, ra, 0x00000020"),
        (0xfe31_1ce3, "bne sp, gp, 0x0000000c"),
        (0x0052_4263, "blt tp, t0, 0x0000001c"),
        (0x0073_50e3, "bge t1, t2, 0x0000081c"),
        (0x8094_60e3, "bltu s0, s1, 0xfffff820"),
        (0x00b5_7663, "bgeu a0, a1, 0x00000030"),
        (0xfff6_8603, "lb a2, -1(a3)"),
        (0x0027_9703, "lh a4, 2(a5)"),
        (0x7ff8_a803, "lw a6, 2047(a7)"),
        (0x0009_c903, "lbu s2, 0(s3)"),
        (0x800a_da03, "lhu s4, -2048(s5)"),
        (0x016b_80a3, "sb s6, 1(s7)"),
        (0xff8c_9f23, "sh s8, -2(s9)"),
        (0x01ad_a223, "sw s10, 4(s11)"),
        (0xff9e_8e13, "addi t3, t4, -7"),
        (0x005f_af13, "slti t5, t6, 5"),
        (0xfff1_3513, "sltiu a0, sp, -1"),
        (0x0ff1_c593, "xori a1, gp, 255"),
        (0xf002_6613, "ori a2, tp, -256"),
        (0x00f4_7693, "andi a3, s0, 15"),
        (0x01f4_9713, "slli a4, s1, 31"),
        (0x0019_5793, "srli a5, s2, 1"),
        (0x4109_d813, "srai a6, s3, 16"),
        (0x015a_08b3, "add a7, s4, s5"),
        (0x418b_8b33, "sub s6, s7, s8"),
        (0x01bd_1cb3, "sll s9, s10, s11"),
        (0x01ee_ae33, "slt t3, t4, t5"),
        (0x0010_3fb3, "sltu t6, zero, ra"),
        (0x0041_c133, "xor sp, gp, tp"),
        (0x0073_52b3, "srl t0, t1, t2"),
        (0x40a4_d433, "sra s0, s1, a0"),
        (0x00d6_65b3, "or a1, a2, a3"),
        (0x0107_f733, "and a4, a5, a6"),
        (0x0339_08b3, "mul a7, s2, s3"),
        (0x036a_9a33, "mulh s4, s5, s6"),
        (0x039c_2bb3, "mulhsu s7, s8, s9"),
        (0x03cd_bd33, "mulhu s10, s11, t3"),
        (0x03ff_4eb3, "div t4, t5, t6"),
        (0x02c5_d533, "divu a0, a1, a2"),
        (0x02f7_66b3, "rem a3, a4, a5"),
        (0x0288_f833, "remu a6, a7, s0"),
        (0x0ff0_000f, "fence"),
        (0x0000_100f, "fence.i"),
        (0x0000_0073, "ecall"),
        (0x0010_0073, "ebreak"),
    ];
    let mut pc: u32 = 0;
    for (word, expected) in table {
        expect(&rt, rt.alloc(), word, pc, expected);
        pc = pc.wrapping_add(4);
    }
}

// Addresses are modulo 2^32.
#[test]
fn targets(rt: HostRuntime) {
    let table = [
        (0x0062_8863, 0, "beq t0, t1, 0x00000010"),
        (0xfe05_1ee3, 4, "bne a0, zero, 0x00000000"),
        (0xfe05_1ee3, 0, "bne a0, zero, 0xfffffffc"),
        (0x0010_00ef, 0x0001_0000, "jal ra, 0x00010800"),
        (0x8000_0fef, 0x0010_0000, "jal t6, 0x00000000"),
        (0x7fff_ffef, 0xffff_fffc, "jal t6, 0x000ffffa"),
    ];
    for (word, pc, expected) in table {
        expect(&rt, rt.alloc(), word, pc, expected);
    }
}

#[test]
fn fences_and_data(rt: HostRuntime) {
    let table = [
        (0x0ff0_000f, "fence"),
        (0x0000_100f, "fence.i"),
        (0x0210_000f, ".word 0x0210000f"),
        (0x0ff0_008f, ".word 0x0ff0008f"),
        (0x0010_100f, ".word 0x0010100f"),
        (0x0000_000f, ".word 0x0000000f"),
        (0, ".word 0x00000000"),
        (0xffff_ffff, ".word 0xffffffff"),
        (0x3020_0073, ".word 0x30200073"),
    ];
    for (word, expected) in table {
        expect(&rt, rt.alloc(), word, 0, expected);
    }
}

#[test]
fn an_instruction(rt: HostRuntime) -> Result<(), Fail> {
    let inst = decode(0x81fd_d063).ok_or("no instruction")?;
    let text = write_inst(rt.alloc(), &inst, 0x2004).map_err(|_| "no memory")?;
    assert_eq!(rt; text.as_slice(), b"bge s11, t6, 0x00001004".as_slice());
    Ok(())
}
