// Runs over a bus that is recorded, and verdicts on what was written of them. Bytes and numbers of entries are from a model in
// Python (hmac, cryptography) and from the rules of the line cache, whose sets have two lines.
use crate::calls::{
    EXITED, FOLLOWS, Judged, NO_LIE_4, PRINTED, TRACE, check_call, check_judged, with_options,
};
use chip_cases::{
    Call, EXIT_7, PRINT_A, READ_UNTOUCHED, STORE_AND_PRINT, STORE_TWICE, attack_files,
    call_program, edited, make_call, shows,
};
use chip_device::RunBus;
use sec_base::NoMemory;
use std::alloc::Global;
use std::process::Abort;
use std::test::Fail;

// A run without accesses: its options, its program, a trace and where it has other bytes, what is told, and the status.
type Traced = (
    &'static [&'static str],
    &'static [u32],
    &'static [u8],
    &'static [(usize, u8)],
    &'static [u8],
    u8,
);

const EXIT_TOLD: &[u8] = b"halted 7\nretired 3\nlies 0\n";

const TRACED: [Traced; 6] = [
    (&[], &EXIT_7, EXITED, &[], EXIT_TOLD, 0),
    (&["--levels", "1"], &EXIT_7, EXITED, &[], EXIT_TOLD, 0),
    (&["--layout", "2"], &EXIT_7, EXITED, &[], EXIT_TOLD, 0),
    (
        &[],
        &PRINT_A,
        PRINTED,
        &[],
        b"halted 1\nretired 10\nlies 0\n",
        0,
    ),
    (
        &[],
        &[],
        EXITED,
        &[(13, 1), (14, 1), (18, 0)],
        b"trapped illegal pc 00000000\nretired 0\nlies 0\n",
        1,
    ),
    (
        &["--steps", "2"],
        &EXIT_7,
        EXITED,
        &[(13, 4), (14, 0), (18, 2)],
        b"out of steps\nretired 2\nlies 0\n",
        4,
    ),
];

fn call_traced(alloc: Global, options: &[&'static str], code: &[u32]) -> Result<Call, NoMemory> {
    let words = with_options(alloc, &TRACE, options)?;
    call_program(alloc, words.as_slice(), code, &[], &[])
}

// What the program prints is in its trace alone.
#[test]
fn a_run_that_keeps_its_lines_has_no_entry(rt: HostRuntime) -> Result<(), Fail> {
    for row in TRACED {
        let (options, code, trace, edits, told, status) = row;
        let trace = edited(rt.alloc(), trace, edits)?;
        let call = call_traced(rt.alloc(), options, code);
        check_call(&rt, call, shows(trace.as_slice(), told, status), &options)?;
    }
    Ok(())
}

// The trace of a program that stores to six lines, of which three share a set and so do the others. The third store of a set
// writes its first line out. Last line 5 is loaded: its set is full, so line 69 goes out before it is read.
const STORED: [u8; 375] = [
    0x52, 0x56, 0x54, 0x52, 1, // the letters RVTR, and the version
    1, 0, 0, 0, 0, 0, 0, 0, b'A', // printed
    0, 65, 0, 0, 0, // halted with 65
    20, 0, 0, 0, 0, 0, 0, 0, // retired
    4, 0, 0, 0, 0, 0, 0, 0, // entries
    1, 5, 0, 0, 0, // line 5 is written
    0x01, 0xd6, 0x92, 0xa4, 0x3d, 0x31, 0xe6, 0x98, 0x7e, 0xd5, 0xa4, 0x6d, 0xbf, 0x5b, 0xca, 0x39,
    0x03, 0x0d, 0x8b, 0x88, 0x1a, 0x9d, 0xf5, 0x22, 0x73, 0xbf, 0xfd, 0x77, 0x7d, 0x26, 0x66, 0xfe,
    0xf4, 0x34, 0x20, 0x5f, 0xde, 0x38, 0x11, 0x97, 0xf9, 0x09, 0x3d, 0x6e, 0x5d, 0x7d, 0x96, 0x3b,
    0xf4, 0x6e, 0x67, 0x1d, 0xe7, 0xef, 0xf1, 0xe8, 0xf4, 0x6c, 0x06, 0xf5, 0x51, 0xa3, 0x3e, 0x3d,
    0x01, 0xbb, 0x88, 0x99, 0xb1, 0x2f, 0x8e, 0xff, 0xca, 0x40, 0xe1, 0x5f, 0xd6, 0x42, 0xa2, 0x97,
    1, 6, 0, 0, 0, // line 6 is written
    0x1e, 0x4b, 0xd7, 0x1a, 0xa0, 0x74, 0x38, 0x0b, 0x9f, 0x3d, 0x11, 0xc7, 0xd4, 0x06, 0xab, 0x06,
    0xd3, 0x25, 0x2d, 0xfb, 0xf0, 0xbf, 0xc8, 0x26, 0x65, 0x4a, 0x1e, 0x39, 0x87, 0xca, 0x24, 0xd9,
    0x49, 0xad, 0xe1, 0xe4, 0xb7, 0xc4, 0xed, 0xd2, 0x23, 0x4b, 0xad, 0x81, 0xfe, 0x56, 0x10, 0xac,
    0x6c, 0xe5, 0x0c, 0x18, 0xda, 0x0d, 0x7c, 0xbf, 0x74, 0x57, 0x7a, 0x78, 0xb8, 0xcd, 0xed, 0x5d,
    0x01, 0x38, 0xe7, 0x6a, 0xeb, 0x51, 0xa8, 0x35, 0x54, 0x42, 0x42, 0xc5, 0x00, 0xae, 0x16, 0x63,
    1, 69, 0, 0, 0, // line 69 is written
    0x68, 0xdc, 0x9b, 0x38, 0x4d, 0xd3, 0xf8, 0x51, 0x8c, 0x9a, 0x8c, 0x0d, 0xe6, 0x95, 0xd9, 0x23,
    0x46, 0x15, 0xd1, 0x90, 0x9b, 0x0d, 0x7b, 0x5d, 0x0f, 0x2e, 0x74, 0xa2, 0xe3, 0xbc, 0x23, 0x14,
    0x9e, 0xe3, 0x33, 0x20, 0x00, 0xca, 0x2c, 0x28, 0x68, 0xc4, 0xbe, 0xea, 0x8e, 0xfb, 0x57, 0x80,
    0x11, 0x1d, 0x5c, 0x81, 0xb6, 0x0f, 0xd3, 0xc1, 0xed, 0xc1, 0xa6, 0x44, 0xd4, 0xb8, 0xa9, 0xb8,
    0xec, 0x83, 0x17, 0x6c, 0x8b, 0x32, 0xea, 0x50, 0x4b, 0x69, 0x46, 0x24, 0x2b, 0x56, 0xcf, 0xad,
    0, 5, 0, 0, 0, // line 5 is read
    0x01, 0xd6, 0x92, 0xa4, 0x3d, 0x31, 0xe6, 0x98, 0x7e, 0xd5, 0xa4, 0x6d, 0xbf, 0x5b, 0xca, 0x39,
    0x03, 0x0d, 0x8b, 0x88, 0x1a, 0x9d, 0xf5, 0x22, 0x73, 0xbf, 0xfd, 0x77, 0x7d, 0x26, 0x66, 0xfe,
    0xf4, 0x34, 0x20, 0x5f, 0xde, 0x38, 0x11, 0x97, 0xf9, 0x09, 0x3d, 0x6e, 0x5d, 0x7d, 0x96, 0x3b,
    0xf4, 0x6e, 0x67, 0x1d, 0xe7, 0xef, 0xf1, 0xe8, 0xf4, 0x6c, 0x06, 0xf5, 0x51, 0xa3, 0x3e, 0x3d,
    0x01, 0xbb, 0x88, 0x99, 0xb1, 0x2f, 0x8e, 0xff, 0xca, 0x40, 0xe1, 0x5f, 0xd6, 0x42, 0xa2, 0x97,
];

// In it the ending stands at 14, its code at 15, the retired count at 19, and the first byte that is read at 295: so it is
// where that read answers another byte.
const FLIPPED: &[(usize, u8)] = &[(14, 5), (15, 0), (19, 17), (295, 0)];

// An assembly text, options of its run, a script, the run's status, and the verdict on its trace.
#[derive(Clone, Copy)]
struct Row {
    text: &'static [u8],
    options: &'static [&'static str],
    script: &'static [u8],
    status: u8,
    judged: Judged<'static>,
}

const HMAC: &[&str] = &[];

const XOR: &[&str] = &["--tags", "xor"];

const FLIP: &[u8] = b"read data 5 1: flip data 5 0 01\n";

const FLIP_TWO_PIECES: &[u8] = b"read data 5 1: flip data 5 0 01
read data 5 1: flip data 5 16 01
";

const FLIP_BLOCK: &[u8] = b"read node 0 0 1: flip node 0 0 0 01
read node 0 0 1: flip node 0 0 16 01
";

// It stores to line 64 200 times, and loads from line 128 behind each store. Its code is line 0, in the same set, and used
// last: so line 64 goes out for each load.
const WRITE_200_TIMES: &[u8] = b"_start: lui  t0, 0x1
        lui  t2, 0x2
        li   t1, 200
again:  sw   t1, 0(t0)
        lw   t3, 0(t2)
        addi t1, t1, -1
        bnez t1, again
        li   a7, 93
        ecall
";

const ROWS: [Row; 13] = [
    Row {
        text: STORE_AND_PRINT,
        options: HMAC,
        script: b"",
        status: 0,
        judged: FOLLOWS,
    },
    // What is false ends the run.
    Row {
        text: STORE_AND_PRINT,
        options: HMAC,
        script: FLIP,
        status: 5,
        judged: FOLLOWS,
    },
    Row {
        text: STORE_AND_PRINT,
        options: HMAC,
        script: b"read data 5 1: swap data 5 data 6",
        status: 5,
        judged: FOLLOWS,
    },
    Row {
        text: STORE_TWICE,
        options: HMAC,
        script: b"write data 5 2: saveall 0\nread data 5 2: restoreall 0\n",
        status: 5,
        judged: FOLLOWS,
    },
    Row {
        text: STORE_TWICE,
        options: HMAC,
        script: b"",
        status: 0,
        judged: FOLLOWS,
    },
    // The bytes are as before.
    Row {
        text: STORE_AND_PRINT,
        options: HMAC,
        script: b"read data 5 1: flip data 5 0 01\nread data 5 1: flip data 5 0 01\n",
        status: 0,
        judged: FOLLOWS,
    },
    Row {
        text: STORE_AND_PRINT,
        options: HMAC,
        script: FLIP_TWO_PIECES,
        status: 5,
        judged: FOLLOWS,
    },
    // What is false passes: lines 5, 6 and 69 are written, and line 5 is read.
    Row {
        text: STORE_AND_PRINT,
        options: XOR,
        script: FLIP_TWO_PIECES,
        status: 7,
        judged: NO_LIE_4,
    },
    // No counter block is read.
    Row {
        text: STORE_AND_PRINT,
        options: XOR,
        script: FLIP_BLOCK,
        status: 0,
        judged: FOLLOWS,
    },
    Row {
        text: READ_UNTOUCHED,
        options: HMAC,
        script: b"",
        status: 0,
        judged: FOLLOWS,
    },
    Row {
        text: READ_UNTOUCHED,
        options: HMAC,
        script: FLIP_BLOCK,
        status: 5,
        judged: FOLLOWS,
    },
    // Line 5, its counter block and line 69 are written, and the block and line 5 are read. The block is false and passes, and
    // the run ends at the line, which is true.
    Row {
        text: READ_UNTOUCHED,
        options: XOR,
        script: FLIP_BLOCK,
        status: 7,
        judged: NO_LIE_4,
    },
    Row {
        text: WRITE_200_TIMES,
        options: &["--page-limit", "0"],
        script: b"",
        status: 6,
        judged: FOLLOWS,
    },
];

// A command on the row's program and script.
fn call_command(alloc: Global, command: &'static str, row: Row) -> Result<Call, NoMemory> {
    let mut files = attack_files(alloc, row.text, row.script)?;
    let words = with_options(alloc, &["chip", command, "p", "--script", "s"], row.options)?;
    make_call(alloc, words.as_slice(), &mut files, &[], &[])
}

// What was written of the row's run.
fn trace_of(alloc: Global, row: Row) -> Result<Vec<u8>, NoMemory> {
    let call = call_command(alloc, "trace", row)?;
    Ok(Vec::from_slice(alloc, call.out.bytes())?)
}

// The verdict on that.
fn call_judge_of(alloc: Global, row: Row) -> Result<Call, NoMemory> {
    let trace = trace_of(alloc, row)?;
    let mut files = attack_files(alloc, row.text, row.script)?;
    files.add("t", trace.as_slice())?;
    make_call(alloc, &["chip", "judge", "p", "t"], &mut files, &[], &[])
}

#[test]
fn traces_are_judged(rt: HostRuntime) -> Result<(), Fail> {
    for row in ROWS {
        let call = call_judge_of(rt.alloc(), row);
        check_judged(&rt, call, row.judged, &(row.options, row.status))?;
    }
    Ok(())
}

// A line's entry under layout 2 ends in eight zeros, since its tag has eight bytes.
fn call_layout_2(alloc: Global) -> Result<Call, NoMemory> {
    let mut files = attack_files(alloc, STORE_AND_PRINT, b"")?;
    let words = ["chip", "trace", "p", "--layout", "2"];
    let traced = make_call(alloc, &words, &mut files, &[], &[])?;
    files.add("t", traced.out.bytes())?;
    let words = ["chip", "judge", "p", "t", "--layout", "2"];
    make_call(alloc, &words, &mut files, &[], &[])
}

#[test]
fn a_trace_under_layout_2_is_judged(rt: HostRuntime) -> Result<(), Fail> {
    check_judged(&rt, call_layout_2(rt.alloc()), FOLLOWS, &"layout 2")?;
    Ok(())
}

// The row's run with evidence, whose trace is not written.
fn call_unwritten(alloc: Global) -> Result<Call, NoMemory> {
    let mut files = attack_files(alloc, STORE_AND_PRINT, FLIP_TWO_PIECES)?;
    let words = ["chip", "trace", "p", "--script", "s", "--tags", "xor"];
    make_call(alloc, &words, &mut files, &[1], &[])
}

#[test]
fn evidence_whose_trace_is_not_written_is_a_write_fault(rt: HostRuntime) -> Result<(), Fail> {
    let call = call_unwritten(rt.alloc())?;
    check_bytes(&rt, call.out.bytes(), b"");
    assert_eq!(rt; (call.done.status, call.done.lies), (9, 1));
    Ok(())
}

// A run that is recorded tells what one tells that isn't, and its report, and is handed out as it is.
fn check_same(rt: &impl Abort, traced: &Call, run: &Call, status: u8) {
    assert_eq!(rt; traced.note.bytes(), run.note.bytes());
    assert_eq!(rt; (traced.done.status, run.done.status), (status, status));
    assert_eq!(rt;
        (traced.ending(), traced.done.lies),
        (run.ending(), run.done.lies)
    );
    assert!(rt; matches!(traced.done.bus, Some(RunBus::Script(_))));
}

fn check_told(rt: &impl Abort, alloc: Global, row: Row) -> Result<(), NoMemory> {
    let run = call_command(alloc, "run", row)?;
    let traced = call_command(alloc, "trace", row)?;
    check_same(rt, &traced, &run, row.status);
    Ok(())
}

#[test]
fn a_run_that_is_recorded_is_told_as_it_is(rt: HostRuntime) -> Result<(), Fail> {
    for row in ROWS {
        check_told(&rt, rt.alloc(), row)?;
    }
    Ok(())
}

fn check_bytes(rt: &impl Abort, written: &[u8], expected: &[u8]) {
    assert_eq!(rt; written, expected);
}

// The first two rows.
#[test]
fn entries_are_written_as_they_were_answered(rt: HostRuntime) -> Result<(), Fail> {
    let [honest, flipped, ..] = ROWS;
    let written = trace_of(rt.alloc(), honest)?;
    check_bytes(&rt, written.as_slice(), &STORED);
    let written = trace_of(rt.alloc(), flipped)?;
    let expected = edited(rt.alloc(), &STORED, FLIPPED)?;
    check_bytes(&rt, written.as_slice(), expected.as_slice());
    Ok(())
}
