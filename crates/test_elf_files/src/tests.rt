// Programs from ELF files, and ELF files that are refused. The bytes are put together by hand from the format's tables.
use chip_cases::{
    Call, Case, DIS_ELF, EXIT_7_ELF, LISTING, MEASURE_ELF, PLAIN, PLAIN_ELF, RUN_ELF, Shown,
    call_file, edited, shows,
};
use sec_base::NoMemory;
use std::alloc::Global;
use std::process::Abort;
use std::test::Fail;

// The program that exits with 7, and over its first word a segment with addi a0, zero, 8.
const OVERLAPPING_ELF: [u8; 132] = [
    0x7f, 0x45, 0x4c, 0x46, 1, 1, 1, 0, 0, 0, 0, 0, 0, 0, 0, 0, // ident
    2, 0, 243, 0, 1, 0, 0, 0, 0, 0, 0, 0, 52, 0, 0, 0, // kind, machine, version, entry, table
    0, 0, 0, 0, 0, 0, 0, 0, // sections, flags
    52, 0, 32, 0, 2, 0, 0, 0, 0, 0, 0, 0, // sizes and numbers of headers
    1, 0, 0, 0, 116, 0, 0, 0, 0, 0, 0, 0, 0, 0, 0, 0, // kind, offset, address twice
    12, 0, 0, 0, 12, 0, 0, 0, 7, 0, 0, 0, 1, 0, 0, 0, // lengths, flags, alignment
    1, 0, 0, 0, 128, 0, 0, 0, 0, 0, 0, 0, 0, 0, 0, 0, // kind, offset, address twice
    4, 0, 0, 0, 4, 0, 0, 0, 7, 0, 0, 0, 1, 0, 0, 0, // lengths, flags, alignment
    0x13, 0x05, 0x70, 0x00, 0x93, 0x08, 0xd0, 0x05, 0x73, 0x00, 0x00, 0x00, // the program
    0x13, 0x05, 0x80, 0x00,
];

// The later of two segments stays, and a listing has both.
const OVERLAPPING_LISTING: &[u8] = b"00000000 00700513 addi a0, zero, 7
00000004 05d00893 addi a7, zero, 93
00000008 00000073 ecall
00000000 00800513 addi a0, zero, 8
";

// The words of a call, and other bytes of its file.
type Row<'a> = (&'a [&'a str], &'a [(usize, u8)]);

const CASES: [Case<'static>; 6] = [
    Case {
        words: &RUN_ELF,
        bytes: &EXIT_7_ELF,
        printed: b"",
        told: b"halted 7\nretired 3\nlies 0\n",
        status: 0,
    },
    Case {
        words: &PLAIN_ELF,
        bytes: &EXIT_7_ELF,
        printed: b"",
        told: b"halted 7\nretired 3\n",
        status: 0,
    },
    Case {
        words: &DIS_ELF,
        bytes: &EXIT_7_ELF,
        printed: LISTING,
        told: b"",
        status: 0,
    },
    Case {
        words: &RUN_ELF,
        bytes: &OVERLAPPING_ELF,
        printed: b"",
        told: b"halted 8\nretired 3\nlies 0\n",
        status: 0,
    },
    Case {
        words: &DIS_ELF,
        bytes: &OVERLAPPING_ELF,
        printed: OVERLAPPING_LISTING,
        told: b"",
        status: 0,
    },
    // The words of the file header are no instructions.
    Case {
        words: &PLAIN,
        bytes: &EXIT_7_ELF,
        printed: b"",
        told: b"trapped illegal pc 00000000\nretired 0\n",
        status: 1,
    },
];

fn check_shown(rt: &impl Abort, row: Row<'_>, shown: Shown<'_>, expected: Shown<'_>) {
    let (words, edits) = row;
    assert_eq!(rt; shown, expected, "{words:?} {edits:?}");
}

// A call is made and compared here, so that no test holds one: that makes the proof of a test cheap.
fn check_case(rt: &impl Abort, alloc: Global, case: Case<'_>) -> Result<(), Fail> {
    let call = case.call(alloc)?;
    check_shown(rt, (case.words, &[]), call.shown(), case.shown());
    Ok(())
}

#[test]
fn elf_files_are_programs(rt: HostRuntime) -> Result<(), Fail> {
    for case in CASES {
        check_case(&rt, rt.alloc(), case)?;
    }
    Ok(())
}

// A call on the file with other bytes here and there.
fn call_edited(alloc: Global, row: Row<'_>) -> Result<Call, NoMemory> {
    let (words, edits) = row;
    let bytes = edited(alloc, &EXIT_7_ELF, edits)?;
    call_file(alloc, words, bytes.as_slice())
}

fn check_edited(
    rt: &impl Abort,
    alloc: Global,
    row: Row<'_>,
    expected: Shown<'_>,
) -> Result<(), Fail> {
    let call = call_edited(alloc, row)?;
    check_shown(rt, row, call.shown(), expected);
    Ok(())
}

// Other bytes of the file, and what is told. Where a number goes past the end of what it speaks of: a table and a segment at
// ffffffff, an entry at the size.
const FAULTS: [(&[(usize, u8)], &[u8]); 14] = [
    (&[(3, 0)], b"refused elf 2 Magic\n"),
    (&[(4, 2)], b"refused elf 3 Class\n"),
    (&[(16, 3)], b"refused elf 4 Kind\n"),
    (&[(18, 62)], b"refused elf 5 Machine\n"),
    (&[(36, 1)], b"refused elf 6 Compressed\n"),
    (&[(44, 65)], b"refused elf 7 Table\n"),
    (
        &[(28, 255), (29, 255), (30, 255), (31, 255)],
        b"refused elf 7 Table\n",
    ),
    (&[(52, 3)], b"refused elf 8 Interp\n"),
    (&[(72, 11)], b"refused elf 9 Segment\n"),
    (&[(56, 85)], b"refused elf 9 Segment\n"),
    (
        &[(60, 255), (61, 255), (62, 255), (63, 255), (68, 0), (72, 1)],
        b"refused elf 9 Segment\n",
    ),
    (&[(24, 2)], b"refused elf 10 Entry\n"),
    (&[(26, 16)], b"refused elf 10 Entry\n"),
    (&[(16, 3), (24, 2)], b"refused elf 4 Kind\n"),
];

#[test]
fn elf_files_are_refused(rt: HostRuntime) -> Result<(), Fail> {
    for (edits, told) in FAULTS {
        let row = (MEASURE_ELF.as_slice(), edits);
        check_edited(&rt, rt.alloc(), row, shows(b"", told, 3))?;
    }
    Ok(())
}

const COMMANDS: [&[&str]; 4] = [&RUN_ELF, &PLAIN_ELF, &DIS_ELF, &MEASURE_ELF];

#[test]
fn each_command_refuses_an_elf_file(rt: HostRuntime) -> Result<(), Fail> {
    for words in COMMANDS {
        let row = (words, [(24, 2)].as_slice());
        let told = b"refused elf 10 Entry\n";
        check_edited(&rt, rt.alloc(), row, shows(b"", told, 3))?;
        let short = Case {
            words,
            bytes: &EXIT_7_ELF[..51],
            printed: b"",
            told: b"refused elf 1 Short\n",
            status: 3,
        };
        check_case(&rt, rt.alloc(), short)?;
    }
    Ok(())
}

// An empty segment at the end of the memory; and an entry at its last word, which holds zeros.
const BOUNDS: [(&[&str], &[(usize, u8)], &[u8], u8); 2] = [
    (&DIS_ELF, &[(62, 16), (68, 0), (72, 0)], b"", 0),
    (
        &PLAIN_ELF,
        &[(24, 252), (25, 255), (26, 15)],
        b"trapped illegal pc 000ffffc\nretired 0\n",
        1,
    ),
];

#[test]
fn elf_files_at_their_bounds_are_taken(rt: HostRuntime) -> Result<(), Fail> {
    for (words, edits, told, status) in BOUNDS {
        let row = (words, edits);
        check_edited(&rt, rt.alloc(), row, shows(b"", told, status))?;
    }
    Ok(())
}

// Behind the segments there are zeros that no header speaks of, up to a length.
fn call_long(alloc: Global, length: usize) -> Result<Call, NoMemory> {
    let mut bytes = Vec::from_slice(alloc, &EXIT_7_ELF)?;
    bytes.resize(length, 0)?;
    call_file(alloc, &PLAIN_ELF, bytes.as_slice())
}

fn check_long(rt: &impl Abort, alloc: Global, length: usize) -> Result<(), Fail> {
    let call = call_long(alloc, length)?;
    let expected = shows(b"", b"halted 7\nretired 3\n", 0);
    check_shown(rt, (&PLAIN_ELF, &[(length, 0)]), call.shown(), expected);
    Ok(())
}

#[test]
fn long_elf_files_are_programs(rt: HostRuntime) -> Result<(), Fail> {
    for length in [1_048_577, 8_388_608] {
        check_long(&rt, rt.alloc(), length)?;
    }
    Ok(())
}
