// The statements are worked out by hand from the language's rules.

use rv32_asm_syntax::{AsmFault, Immediate, Instruction, LineError, Statement, statement_of};
use rv32_decode::Op;
use sec_base::Width;

// A row, rd, rs1, rs2, and the number of the immediate.
type Fields = (Op, u8, u8, u8, i64);

fn fields(instruction: &Instruction) -> Fields {
    let number = match instruction.immediate {
        Immediate::Whole(value) => value.number,
        Immediate::Upper(value) => value.number,
        Immediate::Lower(value) => value.number,
    };
    (
        instruction.op,
        instruction.rd,
        instruction.rs1,
        instruction.rs2,
        number,
    )
}

#[test]
fn operands_fill_the_fields(rt: HostRuntime) {
    let table: [(&str, Fields); 10] = [
        ("main: add a0, a1, a2", (Op::Add, 10, 11, 12, 0)),
        ("lw x31 , ( fp ) # above", (Op::Lw, 31, 8, 0, 0)),
        ("sw s0, -4(sp)", (Op::Sw, 0, 2, 8, -4)),
        ("\tlui\tt0, 0xFFfff", (Op::Lui, 5, 0, 0, 1_048_575)),
        ("fence", (Op::Fence, 0, 0, 0, 255)),
        ("fence.i", (Op::FenceI, 0, 0, 0, 0)),
        ("beqz a0, loop - 4", (Op::Beq, 0, 10, 0, -4)),
        ("not t6, zero", (Op::Xori, 31, 0, 0, -1)),
        ("li a0, 2047", (Op::Addi, 10, 0, 0, 2047)),
        ("li a0, -2048", (Op::Addi, 10, 0, 0, -2048)),
    ];
    for (line, expected) in table {
        match &statement_of(rt.alloc(), line.as_bytes()) {
            Ok(Statement::Instructions(all)) => {
                assert_eq!(rt; all.len(), 1, "{line}");
                assert_eq!(rt; fields(&all[0]), expected, "{line}");
            }
            _ => assert!(rt; false, "{line}"),
        }
    }
}

#[test]
fn large_numbers_are_two_instructions(rt: HostRuntime) {
    let table: [(&str, u8, i64); 4] = [
        ("li a0, 2048", 10, 2048),
        ("li ra, -2049", 1, -2049),
        ("li t6, 4294967295", 31, 4_294_967_295),
        ("la gp, data+0x10", 3, 16),
    ];
    for (line, rd, number) in table {
        match &statement_of(rt.alloc(), line.as_bytes()) {
            Ok(Statement::Instructions(all)) => {
                assert_eq!(rt; all.len(), 2, "{line}");
                assert_eq!(rt; fields(&all[0]), (Op::Lui, rd, 0, 0, number), "{line}");
                assert_eq!(rt; fields(&all[1]), (Op::Addi, rd, rd, 0, number), "{line}");
            }
            _ => assert!(rt; false, "{line}"),
        }
    }
}

#[test]
fn values_are_read_in_order(rt: HostRuntime) {
    match &statement_of(rt.alloc(), b".half 1, -1 ,here + 4") {
        Ok(Statement::Data(Width::Two, all)) => {
            assert_eq!(rt; all.len(), 3);
            assert_eq!(rt; (all[0].number, all[1].number, all[2].number), (1, -1, 4));
            assert!(rt; all[0].label.is_none() && all[2].label == Some(b"here".as_slice()));
        }
        _ => assert!(rt; false),
    }
}

#[test]
fn strings_have_their_escapes(rt: HostRuntime) {
    let table = [
        (".ascii \"\"", ""),
        (".ascii\"a#b\"# c", "a#b"),
        (".ascii \"no: label\"", "no: label"),
        (".asciz \"\\n\\t\\0\\\\\\\"\"", "\n\t\0\\\"\0"),
    ];
    for (line, expected) in table {
        match &statement_of(rt.alloc(), line.as_bytes()) {
            Ok(Statement::Bytes(bytes)) => assert_eq!(rt;
                bytes.as_slice(),
                expected.as_bytes(),
                "{line}"
            ),
            _ => assert!(rt; false, "{line}"),
        }
    }
}

#[test]
fn each_fault_is_told(rt: HostRuntime) {
    let table: [(&[u8], AsmFault); 10] = [
        (b"frob a0", AsmFault::Unknown),
        (b"a : nop", AsmFault::Unknown),
        (b"nop \xff", AsmFault::Unknown),
        (b".ascii \"\xff", AsmFault::Operand),
        (b".ascii \"a\" \"b\"", AsmFault::Operand),
        (b"add a0, a1", AsmFault::Operand),
        (b"li a0, here", AsmFault::Operand),
        (b".word 1, 2,", AsmFault::Operand),
        (b"lw a0, 4", AsmFault::Operand),
        (b"addi a0, a0, -0x10", AsmFault::Operand),
    ];
    for (line, expected) in table {
        match statement_of(rt.alloc(), line) {
            Err(LineError::Fault(fault)) => assert_eq!(rt; fault, expected, "{line:?}"),
            _ => assert!(rt; false, "{line:?}"),
        }
    }
}
