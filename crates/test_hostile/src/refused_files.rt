// Files and words that no parser takes. What is told is worked out by hand from the formats' tables.
use chip_cases::{
    ASM, EXIT_7_ELF, MEASURE_ELF, RUN_SMALL, VERIFY, call_zeros, file, make_call, shows,
};
use std::alloc::Global;
use std::process::Abort;
use std::test::Fail;

// What is told of a call on the file `f` and the script `s`, which are refused.
fn check_refused(
    rt: &impl Abort,
    alloc: Global,
    words: &[&str],
    bytes: &[u8],
    script: &[u8],
    told: &[u8],
) -> Result<(), Fail> {
    let mut files = file(alloc, bytes, &[])?;
    files.add("s", script)?;
    let call = make_call(alloc, words, &mut files, &[], &[])?;
    assert_eq!(rt; call.shown(), shows(b"", told, 3));
    assert!(rt; call.done.run.is_none());
    Ok(())
}

// An ELF file that is cut: in its header, in its table, or in what its one segment has of it.
fn told_of_front(length: usize) -> &'static [u8] {
    if length < 52 {
        b"refused elf 1 Short\n"
    } else if length < 84 {
        b"refused elf 7 Table\n"
    } else {
        b"refused elf 9 Segment\n"
    }
}

#[test]
fn each_front_of_an_elf_file_is_refused(rt: HostRuntime) -> Result<(), Fail> {
    for length in 0..96usize {
        let front = &EXIT_7_ELF[..length.min(96)];
        let told = told_of_front(length);
        check_refused(&rt, rt.alloc(), &MEASURE_ELF, front, b"", told)?;
    }
    Ok(())
}

// Flat files have no form but their length.
#[test]
fn a_flat_file_is_refused_for_its_length_alone(rt: HostRuntime) -> Result<(), Fail> {
    let call = call_zeros(rt.alloc(), &RUN_SMALL, 16_385)?;
    assert_eq!(rt; call.shown(), shows(b"", b"refused elf 9 Segment\n", 3));
    let call = call_zeros(rt.alloc(), &RUN_SMALL, 16_384)?;
    let told = b"trapped illegal pc 00000000\nretired 0\nlies 0\n";
    assert_eq!(rt; call.shown(), shows(b"", told, 1));
    Ok(())
}

// Each byte above 7f, and each control character but blanks, by itself: it is no word.
#[test]
fn an_assembly_text_of_one_odd_byte_is_refused(rt: HostRuntime) -> Result<(), Fail> {
    let told = b"refused asm 1 1 Unknown\n";
    for byte in 0x80..=0xffu8 {
        check_refused(&rt, rt.alloc(), &ASM, &[byte], b"", told)?;
    }
    for byte in [0x00u8, 0x01, 0x0b, 0x0c, 0x1b, 0x1f, 0x7f] {
        check_refused(&rt, rt.alloc(), &ASM, &[byte], b"", told)?;
    }
    Ok(())
}

// Numbers past their ranges, places outside the memory and bytes past a place's end.
const SCRIPTS: [(&[u8], &[u8]); 8] = [
    (
        b"access 18446744073709551616: saveall 0",
        b"refused script 1 2 Number\n",
    ),
    (
        b"access 1: flip node 256 0 0 01",
        b"refused script 1 2 Number\n",
    ),
    (
        b"access 1: flip node 5 0 0 01",
        b"refused script 1 3 Place\n",
    ),
    (
        b"access 1: flip data 0 79 0102",
        b"refused script 1 4 Span\n",
    ),
    (
        b"access 1: flip node 0 0 63 0102",
        b"refused script 1 4 Span\n",
    ),
    (
        b"access 1: swap data 5 node 0 0",
        b"refused script 1 4 Span\n",
    ),
    (b"access 1: restoreall 16", b"refused script 1 5 Register\n"),
    (b"access 1: saveall 0\n\x80", b"refused script 2 1 Word\n"),
];

#[test]
fn scripts_are_refused(rt: HostRuntime) -> Result<(), Fail> {
    let words = ["chip", "run", "f", "--flat", "--script", "s"];
    for (script, told) in SCRIPTS {
        check_refused(&rt, rt.alloc(), &words, b"", script, told)?;
    }
    Ok(())
}

// Of 318 digits one line feed is dropped and no second one, and no carriage return.
#[test]
fn a_report_of_another_length_is_refused(rt: HostRuntime) -> Result<(), Fail> {
    let told = b"refused report 1 Length\n";
    let ends: [&[u8]; 5] = [b"\n\n", b"\r\n", b" ", b"0", b"\n0"];
    for end in ends {
        let mut text = vec![in rt.alloc(); b'0'; 318]?;
        text.extend_from_slice(end)?;
        check_refused(&rt, rt.alloc(), &VERIFY, text.as_slice(), b"", told)?;
    }
    for length in (0..316usize).chain([317, 319]) {
        let text = vec![in rt.alloc(); b'0'; length]?;
        check_refused(&rt, rt.alloc(), &VERIFY, text.as_slice(), b"", told)?;
    }
    Ok(())
}
