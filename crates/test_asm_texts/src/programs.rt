// The words are GNU as's for rv32im, as far as it reads the text alike; `la`, `call` and `li` of upper parts alone were
// encoded by hand from the RISC-V unprivileged manual, and checked against GNU objdump. Bytes, entries and faults are
// worked out by hand from the language's rules.

use rv32_asm::{AsmError, AsmFault, assemble};
use rv32_text::write_word;
use std::alloc::Global;
use std::process::Abort;
use std::test::Fail;

const SIZE: u32 = 1_048_576;

// A byte is stored in lines of memory that a small cache would hold in one place, and then printed.
const STORE_AND_PRINT: &str = "
_start: li   t0, 0x140
        lui  t1, 0x1
        add  t1, t1, t0
        lui  t2, 0x2
        add  t2, t2, t0
        li   t3, 65
        sb   t3, 0(t0)
        sb   t3, 64(t0)
        sb   t3, 0(t1)
        sb   t3, 64(t1)
        sb   t3, 0(t2)
        sb   t3, 64(t2)
        li   a0, 1
        mv   a1, t2
        li   a2, 1
        li   a7, 64
        ecall
        lbu  a0, 0(t0)
        li   a7, 93
        ecall
";

// Three of those lines are stored again: what is read is the later byte.
const STORE_TWICE: &str = "
_start: li   t0, 0x140
        lui  t1, 0x1
        add  t1, t1, t0
        lui  t2, 0x2
        add  t2, t2, t0
        li   t3, 65
        li   t4, 2
again:  sb   t3, 0(t0)
        sb   t3, 0(t1)
        sb   t3, 0(t2)
        addi t3, t3, 1
        addi t4, t4, -1
        bnez t4, again
        lbu  a0, 0(t0)
        li   a7, 93
        ecall
";

// It prints A and then B, and exits with what the service answered.
const PRINT_TWICE: &str = "
_start: la   a1, text
        li   a2, 1
        li   a0, 1
        li   a7, 64
        ecall
        addi a1, a1, 1
        li   a0, 1
        ecall
        li   a7, 93
        ecall
text:   .ascii \"AB\"
";

// One line is stored 200 times.
const WEAR_ONE_LINE: &str = "
li t0, 0x1000
li t1, 200
again: sw t1, 0(t0)
addi t1, t1, -1
bnez t1, again
li a7, 93
ecall
";

// It reads pages that nothing was stored into.
const READ_UNTOUCHED: &str = "
li t0, 0x140
lui t1, 0x1
add t1, t1, t0
lui t2, 0x2
add t2, t2, t0
sb t0, 0(t0)
sb t0, 0(t1)
sb t0, 0(t2)
lui t1, 0x10
lui t2, 0x20
lbu a0, 128(t1)
lbu a0, 128(t2)
lbu a0, 0(t0)
li a7, 93
ecall
";

fn bytes_of(alloc: Global, words: &[u32]) -> Result<Vec<u8>, Fail> {
    let mut bytes = Vec::new(alloc);
    for word in words {
        bytes.extend_from_slice(&word.to_le_bytes())?;
    }
    Ok(bytes)
}

// A text gives one segment at 0 of these bytes, and this entry.
fn expect_at(rt: &impl Abort, alloc: Global, text: &[u8], entry: u32, bytes: &[u8]) {
    assert!(rt; text.len() < 1 << 32);
    match assemble(alloc, text, SIZE) {
        Ok(image) => {
            assert_eq!(rt; (image.entry, image.size), (entry, SIZE));
            assert_eq!(rt; image.segments.len(), 1);
            if let Some(segment) = image.segments.get(0) {
                assert_eq!(rt; segment.bytes.as_slice(), bytes);
                assert_eq!(rt; (segment.addr, segment.length as usize), (0, bytes.len()));
            }
        }
        Err(error) => assert!(rt; false, "{error}"),
    }
}

fn expect(rt: &impl Abort, alloc: Global, text: &str, bytes: &[u8]) {
    expect_at(rt, alloc, text.as_bytes(), 0, bytes);
}

fn expect_fault(rt: &impl Abort, alloc: Global, text: &[u8], line: u32, code: AsmFault) {
    assert!(rt; text.len() < 1 << 32);
    match assemble(alloc, text, SIZE) {
        Ok(_) => assert!(rt; false, "no fault, where line {line} has {code}"),
        Err(error) => assert_eq!(rt; error, AsmError::Fault { line, code }),
    }
}

#[test]
fn lines_may_end_with_a_carriage_return(rt: HostRuntime) {
    let bytes = [
        0x13, 0x05, 0x70, 0x00, 0x93, 0x08, 0xd0, 0x05, 0x73, 0x00, 0x00, 0x00,
    ];
    expect(&rt, rt.alloc(), "li a0, 7\nli a7, 93\necall\n", &bytes);
    expect(&rt, rt.alloc(), "li a0, 7\r\nli a7, 93\r\necall", &bytes);
}

#[test]
fn programs_have_their_words(rt: HostRuntime) -> Result<(), Fail> {
    let table: [(&str, &[u32]); 4] = [
        (
            STORE_AND_PRINT,
            &[
                0x1400_0293,
                0x0000_1337,
                0x0053_0333,
                0x0000_23b7,
                0x0053_83b3,
                0x0410_0e13,
                0x01c2_8023,
                0x05c2_8023,
                0x01c3_0023,
                0x05c3_0023,
                0x01c3_8023,
                0x05c3_8023,
                0x0010_0513,
                0x0003_8593,
                0x0010_0613,
                0x0400_0893,
                0x0000_0073,
                0x0002_c503,
                0x05d0_0893,
                0x0000_0073,
            ],
        ),
        (
            STORE_TWICE,
            &[
                0x1400_0293,
                0x0000_1337,
                0x0053_0333,
                0x0000_23b7,
                0x0053_83b3,
                0x0410_0e13,
                0x0020_0e93,
                0x01c2_8023,
                0x01c3_0023,
                0x01c3_8023,
                0x001e_0e13,
                0xfffe_8e93,
                0xfe0e_96e3,
                0x0002_c503,
                0x05d0_0893,
                0x0000_0073,
            ],
        ),
        (
            WEAR_ONE_LINE,
            &[
                0x0000_12b7,
                0x0002_8293,
                0x0c80_0313,
                0x0062_a023,
                0xfff3_0313,
                0xfe03_1ce3,
                0x05d0_0893,
                0x0000_0073,
            ],
        ),
        (
            READ_UNTOUCHED,
            &[
                0x1400_0293,
                0x0000_1337,
                0x0053_0333,
                0x0000_23b7,
                0x0053_83b3,
                0x0052_8023,
                0x0053_0023,
                0x0053_8023,
                0x0001_0337,
                0x0002_03b7,
                0x0803_4503,
                0x0803_c503,
                0x0002_c503,
                0x05d0_0893,
                0x0000_0073,
            ],
        ),
    ];
    for (text, words) in table {
        expect(&rt, rt.alloc(), text, &bytes_of(rt.alloc(), words)?);
    }
    Ok(())
}

#[test]
fn a_label_behind_the_code_is_its_address(rt: HostRuntime) -> Result<(), Fail> {
    let words = [
        0x0000_05b7,
        0x02c5_8593,
        0x0010_0613,
        0x0010_0513,
        0x0400_0893,
        0x0000_0073,
        0x0015_8593,
        0x0010_0513,
        0x0000_0073,
        0x05d0_0893,
        0x0000_0073,
    ];
    let mut bytes = bytes_of(rt.alloc(), &words)?;
    bytes.extend_from_slice(b"AB")?;
    expect(&rt, rt.alloc(), PRINT_TWICE, &bytes);
    Ok(())
}

// One word of each row, by GNU as. Their texts, line after line, are the words again.
#[test]
fn each_row_is_read_back(rt: HostRuntime) -> Result<(), Fail> {
    let words = [
        0x1234_52b7,
        0xffff_fd97,
        0x0080_00ef,
        0xffc8_84e7,
        0x0010_0863,
        0xfe31_1ce3,
        0x0052_4263,
        0x0073_50e3,
        0x8094_60e3,
        0x00b5_7663,
        0xfff6_8603,
        0x0027_9703,
        0x7ff8_a803,
        0x0009_c903,
        0x800a_da03,
        0x016b_80a3,
        0xff8c_9f23,
        0x01ad_a223,
        0xff9e_8e13,
        0x005f_af13,
        0xfff1_3513,
        0x0ff1_c593,
        0xf002_6613,
        0x00f4_7693,
        0x01f4_9713,
        0x0019_5793,
        0x4109_d813,
        0x015a_08b3,
        0x418b_8b33,
        0x01bd_1cb3,
        0x01ee_ae33,
        0x0010_3fb3,
        0x0041_c133,
        0x0073_52b3,
        0x40a4_d433,
        0x00d6_65b3,
        0x0107_f733,
        0x0339_08b3,
        0x036a_9a33,
        0x039c_2bb3,
        0x03cd_bd33,
        0x03ff_4eb3,
        0x02c5_d533,
        0x02f7_66b3,
        0x0288_f833,
        0x0ff0_000f,
        0x0000_100f,
        0x0000_0073,
        0x0010_0073,
    ];
    let mut text = Vec::new(rt.alloc());
    let mut address: u32 = 0;
    for word in words {
        let line = write_word(rt.alloc(), word, address).map_err(|_| "no memory")?;
        text.extend_from_slice(line.as_slice())?;
        text.push(b'\n')?;
        address = address.wrapping_add(4);
    }
    expect_at(&rt, rt.alloc(), &text, 0, &bytes_of(rt.alloc(), &words)?);
    Ok(())
}

#[test]
fn pseudoinstructions_are_their_instructions(rt: HostRuntime) -> Result<(), Fail> {
    let table: [(&str, &[u32]); 23] = [
        ("nop", &[0x0000_0013]),
        ("mv a0, s11", &[0x000d_8513]),
        ("li a0, 2047", &[0x7ff0_0513]),
        ("li a0, -2048", &[0x8000_0513]),
        ("li a0, 2048", &[0x0000_1537, 0x8005_0513]),
        ("li a0, -2049", &[0xffff_f537, 0x7ff5_0513]),
        ("li t6, 0x12345fff", &[0x1234_6fb7, 0xffff_8f93]),
        ("li t6, 0xfffff800", &[0x0000_0fb7, 0x800f_8f93]),
        ("li t6, 4294967295", &[0x0000_0fb7, 0xffff_8f93]),
        ("li t6, -2147483648", &[0x8000_0fb7, 0x000f_8f93]),
        ("la a0, 7", &[0x0000_0537, 0x0075_0513]),
        ("la a0, 0xffffffff", &[0x0000_0537, 0xfff5_0513]),
        ("here: la a0, here + 2048", &[0x0000_1537, 0x8005_0513]),
        ("j 16", &[0x0100_006f]),
        ("call 16", &[0x0100_00ef]),
        ("jr t0", &[0x0002_8067]),
        ("ret", &[0x0000_8067]),
        ("beqz a0, 8", &[0x0005_0463]),
        ("bnez a0, 8", &[0x0005_1463]),
        ("not a0, a1", &[0xfff5_c513]),
        ("neg a0, a1", &[0x40b0_0533]),
        ("seqz a0, a1", &[0x0015_b513]),
        ("snez a0, a1", &[0x00b0_3533]),
    ];
    for (text, words) in table {
        expect(&rt, rt.alloc(), text, &bytes_of(rt.alloc(), words)?);
    }
    Ok(())
}

// The ends of the ranges that are taken; those beyond are among the faults.
#[test]
fn the_ends_of_ranges_are_taken(rt: HostRuntime) -> Result<(), Fail> {
    let table = [
        ("addi a0, zero, 2047", 0x7ff0_0513),
        ("addi a0, zero, -2048", 0x8000_0513),
        ("lw a0, -2048(sp)", 0x8001_2503),
        ("sw a0, 2047(sp)", 0x7ea1_2fa3),
        ("slli a0, a0, 31", 0x01f5_1513),
        ("slli a0, a0, 0", 0x0005_1513),
        ("lui a0, 1048575", 0xffff_f537),
        ("auipc a0, 0", 0x0000_0517),
        ("beq a0, a1, 4094", 0x7eb5_0fe3),
        ("beq a0, a1, -4096", 0x80b5_0063),
        ("beq a0, a1, 0xfffff000", 0x80b5_0063),
        ("jal a0, 1048574", 0x7fff_f56f),
        ("jal a0, -1048576", 0x8000_056f),
        ("jal a0, 0xfff00000", 0x8000_056f),
    ];
    for (text, word) in table {
        expect(&rt, rt.alloc(), text, &bytes_of(rt.alloc(), &[word])?);
    }
    Ok(())
}

#[test]
fn directives_put_their_bytes(rt: HostRuntime) {
    let table: [(&str, &[u8]); 18] = [
        ("", b""),
        (" # nothing\n\n\t\n", b""),
        (".text\n.globl _start\n.globl elsewhere", b""),
        (".word 1, 0x80000000", b"\x01\0\0\0\0\0\0\x80"),
        (".word -1, end - 4\nend:", b"\xff\xff\xff\xff\x04\0\0\0"),
        (".half 65535, -32768, 1", b"\xff\xff\0\x80\x01\0"),
        (".byte 255, -128, 7", b"\xff\x80\x07"),
        (
            ".byte 9\nx: .byte x, x + 1, x - 1, x+ -1, x -0x1",
            b"\x09\x01\x02\0\0\0",
        ),
        (".ascii \"A#\\n\\t\\0\\\\\\\"\" # told", b"A#\n\t\0\\\""),
        (".ascii \"\"", b""),
        (".asciz \"hi\"", b"hi\0"),
        (".space 3\n.byte 1", b"\0\0\0\x01"),
        (".space 0", b""),
        (".byte 1\n.align 4\n.byte 2", b"\x01\0\0\0\x02"),
        (".byte 1\n.align 1\n.byte 2", b"\x01\x02"),
        (".half 1\n.align 2\n.byte 2", b"\x01\0\x02"),
        (".align 4096", b""),
        ("a: b:c:.byte a, b, c", b"\0\0\0"),
    ];
    for (text, bytes) in table {
        expect(&rt, rt.alloc(), text, bytes);
    }
}

#[test]
fn a_program_begins_at_its_label(rt: HostRuntime) {
    let table: [(&[u8], u32, &[u8]); 4] = [
        (b"start: .byte 1", 0, b"\x01"),
        (b"_start:", 0, b""),
        (b".space 4\n_start: .byte 1", 4, b"\0\0\0\0\x01"),
        (b".space 4\nx: y: _start: z:", 4, b"\0\0\0\0"),
    ];
    for (text, entry, bytes) in table {
        expect_at(&rt, rt.alloc(), text, entry, bytes);
    }
}

#[test]
fn a_program_may_begin_at_the_last_word(rt: HostRuntime) {
    match assemble(rt.alloc(), b".space 1048572\n_start:", SIZE) {
        Ok(image) => assert_eq!(rt; image.entry, 1_048_572),
        Err(error) => assert!(rt; false, "{error}"),
    }
    match assemble(rt.alloc(), b".space 1048576", SIZE) {
        Ok(image) => assert_eq!(rt; image.entry, 0),
        Err(error) => assert!(rt; false, "{error}"),
    }
}

#[test]
fn texts_of_errors(rt: HostRuntime) -> Result<(), Fail> {
    let refused = AsmError::Fault {
        line: 12,
        code: AsmFault::Missing,
    };
    assert_eq!(rt;
        format!(in rt.alloc(); "{refused}")?.as_str(),
        "line 12: Missing"
    );
    let stopped = AsmError::NoMemory;
    assert_eq!(rt; format!(in rt.alloc(); "{stopped}")?.as_str(), "no memory");
    Ok(())
}

#[test]
fn each_fault_is_told(rt: HostRuntime) {
    let table: [(&[u8], AsmFault); 37] = [
        (b"frob a0", AsmFault::Unknown),
        (b"a : nop", AsmFault::Unknown),
        (b"1a: nop", AsmFault::Unknown),
        (b"\x80", AsmFault::Unknown),
        (b"nop \x80", AsmFault::Unknown),
        (b"ADD a0, a0, a0", AsmFault::Unknown),
        (b"add a0, a1", AsmFault::Operand),
        (b"add a0, a1, a2, a3", AsmFault::Operand),
        (b"fence a0", AsmFault::Operand),
        (b"nop;", AsmFault::Operand),
        (b"li a0, b", AsmFault::Operand),
        (b".ascii \"a", AsmFault::Operand),
        (b".ascii \"\x80", AsmFault::Operand),
        (b".ascii \"\\r\"", AsmFault::Operand),
        (
            b".word 1111111111222222222233333333334444444444",
            AsmFault::Operand,
        ),
        (b".word 4294967296", AsmFault::Operand),
        (b".word -2147483649", AsmFault::Operand),
        (b".space 1 + 1", AsmFault::Operand),
        (b".align 3", AsmFault::Range),
        (b".align 0", AsmFault::Range),
        (b".align 8192", AsmFault::Range),
        (b".space -1", AsmFault::Range),
        (b".space 16777217", AsmFault::Range),
        (b"addi a0, zero, 2048", AsmFault::Range),
        (b"addi a0, zero, -2049", AsmFault::Range),
        (b"slli a0, a0, 32", AsmFault::Range),
        (b"lui a0, 1048576", AsmFault::Range),
        (b"lui a0, -1", AsmFault::Range),
        (b"beq a0, a1, 4096", AsmFault::Range),
        (b"beq a0, a1, 3", AsmFault::Range),
        (b"beq a0, a1, -4098", AsmFault::Range),
        (b"jal ra, 1048576", AsmFault::Range),
        (b"jal ra, -1048578", AsmFault::Range),
        (b".half 65536", AsmFault::Range),
        (b".byte -129", AsmFault::Range),
        (b"j b", AsmFault::Missing),
        (b".space 1048577", AsmFault::Large),
    ];
    for (text, code) in table {
        expect_fault(&rt, rt.alloc(), text, 1, code);
    }
}

#[test]
fn the_first_fault_is_told(rt: HostRuntime) {
    let table: [(&[u8], u32, AsmFault); 20] = [
        (b"a:\na:", 2, AsmFault::Twice),
        (b"a:\na: frob", 2, AsmFault::Twice),
        (b"a: a: frob", 1, AsmFault::Twice),
        (b"\n\n\xfffrob", 3, AsmFault::Unknown),
        (b".byte 1\nnop", 2, AsmFault::Range),
        (b".byte 1\nadd a0", 2, AsmFault::Operand),
        (b".byte 1\n.space 16777217", 2, AsmFault::Range),
        (b".space 1048574\nnop", 2, AsmFault::Range),
        (b".space 1048576\nnop", 2, AsmFault::Large),
        (b".space 4\nx: .word x + 4294967295", 2, AsmFault::Range),
        // The first pass goes before the second, and that before the entry.
        (b"addi a0, zero, 2048\nj b\nfrob", 3, AsmFault::Unknown),
        (b"j b\n.space 1048576", 2, AsmFault::Large),
        (b"addi a0, zero, 2048\nj b", 1, AsmFault::Range),
        (b"j b\naddi a0, zero, 2048", 1, AsmFault::Missing),
        (b".half 65536, b", 1, AsmFault::Missing),
        (b".half 1\n_start: .half b", 2, AsmFault::Missing),
        (b".half 1\n_start:\n.half 65536", 3, AsmFault::Range),
        (b".half 1\n_start:", 2, AsmFault::Range),
        (b".half 1\n_start:\n.half 2", 2, AsmFault::Range),
        (b".space 1048576\n\n_start:", 3, AsmFault::Range),
    ];
    for (text, line, code) in table {
        expect_fault(&rt, rt.alloc(), text, line, code);
    }
}
