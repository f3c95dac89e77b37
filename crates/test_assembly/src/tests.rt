// Assembly texts. The bytes are put together by hand from the formats' tables, and so are the lines of the faults.
use chip_cases::{
    ASM, Call, EXIT_7_ELF, EXIT_7_TEXT, PRINT_TWICE, RUN_ELF, STORE_200_TIMES, STORE_AND_PRINT,
    STORE_TWICE, Shown, call_assembled, call_file, file, make_call, shows,
};
use sec_base::NoMemory;
use std::alloc::Global;
use std::process::Abort;
use std::test::Fail;

const ASM_SMALL: [&str; 5] = ["chip", "asm", "f", "--levels", "1"];

// One line is stored 200 times, and goes out each time: two others of its set are loaded behind each store.
const WEAR_ONE_LINE: &[u8] = b"li t0, 0x1140
li t1, 200
li t2, 0x2140
li t3, 0x3140
again: sw t1, 0(t0)
lw t4, 0(t2)
lw t4, 0(t3)
addi t1, t1, -1
bnez t1, again
li a7, 93
ecall
";

// It reads pages that nothing was stored into.
const READ_UNTOUCHED: &[u8] = b"li t0, 0x140
lui t1, 0x1
add t1, t1, t0
lui t2, 0x2
add t2, t2, t0
sb t0, 0(t0)
sb t0, 0(t1)
sb t0, 0(t2)
lui t1, 0x10
lui t2, 0x20
lbu a0, 128(t1)
lbu a0, 128(t2)
lbu a0, 0(t0)
li a7, 93
ecall
";

fn check_shown(rt: &impl Abort, shown: Shown<'_>, expected: Shown<'_>) {
    assert_eq!(rt; shown, expected);
}

// A call is made and compared here, so that no test holds one: that makes the proof of a test cheap.
fn check(
    rt: &impl Abort,
    alloc: Global,
    words: &[&str],
    text: &[u8],
    expected: Shown<'_>,
) -> Result<(), Fail> {
    let call = call_file(alloc, words, text)?;
    check_shown(rt, call.shown(), expected);
    Ok(())
}

// An empty text is one segment of length 0.
fn empty_elf(alloc: Global) -> Result<Vec<u8>, NoMemory> {
    let mut bytes = Vec::from_slice(alloc, &EXIT_7_ELF[..68])?;
    bytes.extend_from_slice(&[0, 0, 0, 0, 0, 0, 0, 0, 7, 0, 0, 0, 1, 0, 0, 0])?;
    Ok(bytes)
}

#[test]
fn texts_are_assembled(rt: HostRuntime) -> Result<(), Fail> {
    let expected = shows(&EXIT_7_ELF, b"", 0);
    check(&rt, rt.alloc(), &ASM, EXIT_7_TEXT, expected)?;
    let empty = empty_elf(rt.alloc())?;
    let expected = shows(empty.as_slice(), b"", 0);
    check(&rt, rt.alloc(), &ASM, b"", expected)
}

const PROGRAMS: [(&[u8], &[u8], &[u8]); 6] = [
    (STORE_AND_PRINT, b"A", b"halted 65\nretired 20\nlies 0\n"),
    (STORE_TWICE, b"", b"halted 66\nretired 22\nlies 0\n"),
    (PRINT_TWICE, b"AB", b"halted 1\nretired 11\nlies 0\n"),
    (STORE_200_TIMES, b"", b"halted 0\nretired 605\nlies 0\n"),
    (WEAR_ONE_LINE, b"", b"halted 0\nretired 1009\nlies 0\n"),
    (READ_UNTOUCHED, b"", b"halted 64\nretired 15\nlies 0\n"),
];

fn check_assembled(
    rt: &impl Abort,
    alloc: Global,
    words: &[&str],
    text: &[u8],
    expected: Shown<'_>,
) -> Result<(), Fail> {
    let call = call_assembled(alloc, words, text, &[])?;
    check_shown(rt, call.shown(), expected);
    Ok(())
}

#[test]
fn assembled_programs_run(rt: HostRuntime) -> Result<(), Fail> {
    for (text, printed, told) in PROGRAMS {
        check_assembled(&rt, rt.alloc(), &RUN_ELF, text, shows(printed, told, 0))?;
    }
    let call = call_assembled(rt.alloc(), &RUN_ELF, PRINT_TWICE, &[2])?;
    let told = b"write fault\nretired 8\nlies 0\n";
    check_shown(&rt, call.shown(), shows(b"A", told, 9));
    Ok(())
}

// 127 writes take the line's counter to 127, and the next one needs page counter 1: it is that of the 128th round's second
// load. A line that is not written needs none.
const LIMITS: [(&str, &[u8], &[u8], u8); 4] = [
    (
        "0",
        WEAR_ONE_LINE,
        b"spent page 1\nretired 644\nlies 0\n",
        6,
    ),
    ("1", WEAR_ONE_LINE, b"halted 0\nretired 1009\nlies 0\n", 0),
    ("0", STORE_200_TIMES, b"halted 0\nretired 605\nlies 0\n", 0),
    ("1", STORE_200_TIMES, b"halted 0\nretired 605\nlies 0\n", 0),
];

#[test]
fn a_page_is_spent_at_its_limit(rt: HostRuntime) -> Result<(), Fail> {
    for (limit, text, told, status) in LIMITS {
        let words = ["chip", "run", "f", "--page-limit", limit];
        let expected = shows(b"", told, status);
        check_assembled(&rt, rt.alloc(), &words, text, expected)?;
    }
    Ok(())
}

const REFUSED: [(&[u8], &[u8]); 15] = [
    (b"addi a0, zero, 2048\n", b"refused asm 1 3 Range\n"),
    (b"frob a0\n", b"refused asm 1 1 Unknown\n"),
    (b"add a0, a1\n", b"refused asm 1 2 Operand\n"),
    (b"a:\na:\n", b"refused asm 2 4 Twice\n"),
    (b"j b\n", b"refused asm 1 5 Missing\n"),
    (b".space 1048577\n", b"refused asm 1 6 Large\n"),
    (b".ascii \"a\n", b"refused asm 1 2 Operand\n"),
    (
        b".word 1234567890123456789012345678901234567890\n",
        b"refused asm 1 2 Operand\n",
    ),
    (b".align 3\n", b"refused asm 1 3 Range\n"),
    (b"lui a0, 1048576\n", b"refused asm 1 3 Range\n"),
    (b".byte 1\nnop\n", b"refused asm 2 3 Range\n"),
    (b".half 1\n_start:\n", b"refused asm 2 3 Range\n"),
    (b"\x80", b"refused asm 1 1 Unknown\n"),
    (b"# nothing\n\n\tfrob\n", b"refused asm 3 1 Unknown\n"),
    (b"j b\nfrob\n", b"refused asm 2 1 Unknown\n"),
];

#[test]
fn texts_are_refused(rt: HostRuntime) -> Result<(), Fail> {
    for (text, told) in REFUSED {
        check(&rt, rt.alloc(), &ASM, text, shows(b"", told, 3))?;
    }
    Ok(())
}

// How long the file is that is printed, and the status.
fn length_and_status(alloc: Global, text: &[u8]) -> Result<(usize, u8), NoMemory> {
    let call = call_file(alloc, &ASM_SMALL, text)?;
    Ok((call.out.bytes().len(), call.done.status))
}

#[test]
fn texts_fit_the_memory(rt: HostRuntime) -> Result<(), Fail> {
    let expected = shows(b"", b"refused asm 1 6 Large\n", 3);
    check(&rt, rt.alloc(), &ASM_SMALL, b".space 16385\n", expected)?;
    let (length, status) = length_and_status(rt.alloc(), b".space 16384\n")?;
    assert_eq!(rt; length, 16468);
    assert_eq!(rt; status, 0);
    Ok(())
}

// Three instructions, and then blanks.
fn text_of_limit(alloc: Global) -> Result<Vec<u8>, NoMemory> {
    let mut text = Vec::from_slice(alloc, EXIT_7_TEXT)?;
    text.resize(1048576, b' ')?;
    Ok(text)
}

#[test]
fn a_text_fills_its_limit(rt: HostRuntime) -> Result<(), Fail> {
    let text = text_of_limit(rt.alloc())?;
    let expected = shows(&EXIT_7_ELF, b"", 0);
    check(&rt, rt.alloc(), &ASM, text.as_slice(), expected)
}

// The text is assembled where the writes with these numbers fail.
fn call_cut(
    alloc: Global,
    text: &[u8],
    out_fails: &[u64],
    note_fails: &[u64],
) -> Result<Call, NoMemory> {
    let mut files = file(alloc, text, &[])?;
    make_call(alloc, &ASM, &mut files, out_fails, note_fails)
}

// The write that fails, and what stands then.
const CUTS: [(u64, &[u8], u8); 2] = [(1, b"", 9), (2, &EXIT_7_ELF, 0)];

fn check_cut_out(
    rt: &impl Abort,
    alloc: Global,
    fails: u64,
    expected: Shown<'_>,
) -> Result<(), Fail> {
    let call = call_cut(alloc, EXIT_7_TEXT, &[fails], &[])?;
    check_shown(rt, call.shown(), expected);
    Ok(())
}

#[test]
fn a_file_is_one_piece(rt: HostRuntime) -> Result<(), Fail> {
    for (fails, printed, status) in CUTS {
        check_cut_out(&rt, rt.alloc(), fails, shows(printed, b"", status))?;
    }
    Ok(())
}

const TOLD: [(u64, &[u8]); 2] = [(1, b""), (2, b"refused asm 1 1 Unknown\n")];

fn check_cut_note(
    rt: &impl Abort,
    alloc: Global,
    fails: u64,
    expected: Shown<'_>,
) -> Result<(), Fail> {
    let call = call_cut(alloc, b"frob\n", &[], &[fails])?;
    check_shown(rt, call.shown(), expected);
    Ok(())
}

#[test]
fn a_fault_of_note_keeps_a_refused_text(rt: HostRuntime) -> Result<(), Fail> {
    for (fails, told) in TOLD {
        check_cut_note(&rt, rt.alloc(), fails, shows(b"", told, 3))?;
    }
    Ok(())
}
