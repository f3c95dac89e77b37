// Verdicts on traces that are put together by hand. They follow from what the plain machine does, step by step.
use crate::calls::{
    Access, EXITED, FOLLOWS, JUDGE_ON_INPUT, Judged, NO_ENDING, NO_LIE_1, NO_LIE_2, NO_LIE_3,
    NO_OUTPUT, NO_RETIRED, PRINTED, call_judge, check_call, check_judged, judged_files,
    with_entries,
};
use chip_cases::{Call, EXIT_7, PRINT_A, edited, make_call, shows};
use sec_base::NoMemory;
use std::alloc::Global;
use std::test::Fail;

// Options, other bytes of a trace and where they stand, and the verdict.
type Edited = (
    &'static [&'static str],
    &'static [(usize, u8)],
    Judged<'static>,
);

// In the trace of the program that exits with 7 the ending stands at 13, its code at 14, and the retired count at 18.
const EXITS: [Edited; 12] = [
    (&[], &[], FOLLOWS),
    (&[], &[(14, 8)], NO_ENDING),
    (&[], &[(18, 2)], NO_ENDING),
    (&[], &[(18, 4)], NO_RETIRED),
    (&["--steps", "3"], &[], FOLLOWS),
    (&["--steps", "2"], &[], NO_RETIRED),
    // Out of steps after two, and with more steps left.
    (&["--steps", "2"], &[(13, 4), (14, 0), (18, 2)], FOLLOWS),
    (&[], &[(13, 4), (14, 0), (18, 2)], NO_ENDING),
    // Tampered where nothing is false, and spent.
    (&[], &[(13, 5), (14, 0), (18, 2)], NO_ENDING),
    (&[], &[(13, 6), (14, 0), (18, 2)], FOLLOWS),
    (&["--levels", "1"], &[], FOLLOWS),
    (&["--layout", "2"], &[], FOLLOWS),
];

// In that of the program that prints A the byte stands at 13, the ending at 14, its code at 15, and the count at 19.
const PRINTS: [Edited; 6] = [
    (&[], &[], FOLLOWS),
    (&[], &[(13, b'B')], NO_OUTPUT),
    (&[], &[(19, 7)], NO_OUTPUT),
    (&[], &[(19, 9)], NO_ENDING),
    // Spent in the instruction that prints, and in the one before it.
    (&[], &[(14, 6), (15, 0), (19, 7)], FOLLOWS),
    (&[], &[(14, 6), (15, 0), (19, 6)], NO_OUTPUT),
];

fn call_edited(
    alloc: Global,
    options: &[&'static str],
    code: &[u32],
    trace: &[u8],
    edits: &[(usize, u8)],
) -> Result<Call, NoMemory> {
    let trace = edited(alloc, trace, edits)?;
    call_judge(alloc, options, code, trace.as_slice())
}

#[test]
fn ends_are_judged(rt: HostRuntime) -> Result<(), Fail> {
    for (options, edits, judged) in EXITS {
        let call = call_edited(rt.alloc(), options, &EXIT_7, EXITED, edits);
        check_judged(&rt, call, judged, &(options, edits))?;
    }
    Ok(())
}

#[test]
fn what_was_printed_is_judged(rt: HostRuntime) -> Result<(), Fail> {
    for (options, edits, judged) in PRINTS {
        let call = call_edited(rt.alloc(), options, &PRINT_A, PRINTED, edits);
        check_judged(&rt, call, judged, &(options, edits))?;
    }
    Ok(())
}

// It reads five bytes of its input, prints three of them, and exits with what the service answered.
const PRINT_3: [u32; 11] = [
    0x0000_15b7, // lui a1, 0x1
    0x0000_0513, // addi a0, zero, 0
    0x0050_0613, // addi a2, zero, 5
    0x03f0_0893, // addi a7, zero, 63
    0x0000_0073, // ecall
    0x0010_0513, // addi a0, zero, 1
    0x0030_0613, // addi a2, zero, 3
    0x0400_0893, // addi a7, zero, 64
    0x0000_0073, // ecall
    0x05d0_0893, // addi a7, zero, 93
    0x0000_0073, // ecall
];

// Its trace, where the input began with these three bytes.
const HEL_PRINTED: &[u8] = b"RVTR\x01\
    \x03\0\0\0\0\0\0\0hel\
    \0\x03\0\0\0\
    \x0b\0\0\0\0\0\0\0\
    \0\0\0\0\0\0\0\0";

const INPUTS: [(&[u8], Judged<'static>); 4] = [
    (b"hello", FOLLOWS),
    (b"hel", FOLLOWS),
    (b"jello", NO_OUTPUT),
    (b"he", NO_OUTPUT),
];

fn call_on_input(alloc: Global, input: &[u8]) -> Result<Call, NoMemory> {
    let mut files = judged_files(alloc, &PRINT_3, HEL_PRINTED, &[])?;
    files.add("i", input)?;
    make_call(alloc, &JUDGE_ON_INPUT, &mut files, &[], &[])
}

#[test]
fn a_trace_is_judged_on_an_input(rt: HostRuntime) -> Result<(), Fail> {
    for (input, judged) in INPUTS {
        check_judged(&rt, call_on_input(rt.alloc(), input), judged, &input)?;
    }
    Ok(())
}

// The kind of an entry, and a line or a node.
const READ_LINE_0: &[u8] = b"\0\0\0\0\0";

const WRITE_LINE_0: &[u8] = b"\x01\0\0\0\0";

const READ_LINE_1: &[u8] = b"\0\x01\0\0\0";

const READ_LINE_256: &[u8] = b"\0\0\x01\0\0";

const READ_LINE_16384: &[u8] = b"\0\0\x40\0\0";

const READ_TOP: &[u8] = b"\x02\x04\0\0\0\0";

const WRITE_TOP: &[u8] = b"\x03\x04\0\0\0\0";

const READ_LEVEL_5: &[u8] = b"\x02\x05\0\0\0\0";

const KIND_4: &[u8] = b"\x04\0\0\0\0";

// Tampered after two instructions.
const TAMPERED: &[(usize, u8)] = &[(13, 5), (14, 0), (18, 2)];

// Entries, other bytes of the trace and where they stand, and the verdict.
type Answered = (&'static [Access], &'static [(usize, u8)], Judged<'static>);

const ENTRIES: [Answered; 11] = [
    (&[(READ_LINE_0, 0)], &[], FOLLOWS),
    (&[(READ_LINE_0, 1)], &[], NO_LIE_1),
    (&[(WRITE_LINE_0, 1), (READ_LINE_0, 1)], &[], FOLLOWS),
    (&[(WRITE_LINE_0, 1), (READ_LINE_1, 1)], &[], NO_LIE_2),
    (
        &[(WRITE_LINE_0, 1), (WRITE_LINE_0, 2), (READ_LINE_0, 1)],
        &[],
        NO_LIE_3,
    ),
    (&[(WRITE_TOP, 1), (READ_TOP, 1)], &[], FOLLOWS),
    (
        &[(READ_TOP, 0), (WRITE_LINE_0, 1), (READ_TOP, 1)],
        &[],
        NO_LIE_3,
    ),
    // The last answer alone may be false, where it ended the run.
    (&[(READ_LINE_0, 1)], TAMPERED, FOLLOWS),
    (&[(READ_LINE_0, 1), (READ_LINE_0, 0)], TAMPERED, NO_LIE_1),
    (&[(READ_LINE_0, 0)], TAMPERED, NO_ENDING),
    // A lie goes before all else that differs.
    (&[(READ_LINE_0, 1)], &[(14, 8), (18, 4)], NO_LIE_1),
];

fn call_on_entries(
    alloc: Global,
    options: &[&'static str],
    entries: &[Access],
    edits: &[(usize, u8)],
) -> Result<Call, NoMemory> {
    let trace = with_entries(alloc, entries, edits)?;
    call_judge(alloc, options, &EXIT_7, trace.as_slice())
}

#[test]
fn entries_are_judged(rt: HostRuntime) -> Result<(), Fail> {
    for (entries, edits, judged) in ENTRIES {
        let call = call_on_entries(rt.alloc(), &[], entries, edits);
        check_judged(&rt, call, judged, &(entries, edits))?;
    }
    Ok(())
}

// Options, entries, other bytes of the trace and where they stand, and what is told.
type Refused = (
    &'static [&'static str],
    &'static [Access],
    &'static [(usize, u8)],
    &'static [u8],
);

const REFUSED: [Refused; 10] = [
    (&[], &[], &[(0, b'r')], b"refused trace 2 Magic\n"),
    (&[], &[], &[(4, 2)], b"refused trace 2 Magic\n"),
    (&[], &[], &[(13, 2)], b"refused trace 3 Kind\n"),
    (&[], &[(KIND_4, 0)], &[], b"refused trace 3 Kind\n"),
    (
        &[],
        &[(READ_LINE_16384, 0)],
        &[],
        b"refused trace 4 Place\n",
    ),
    (&[], &[(READ_LEVEL_5, 0)], &[], b"refused trace 4 Place\n"),
    (
        &["--levels", "1"],
        &[(READ_LINE_256, 0)],
        &[],
        b"refused trace 4 Place\n",
    ),
    // One entry more than there is, one less, and an output that is longer than the file.
    (
        &[],
        &[(READ_LINE_0, 0)],
        &[(26, 2)],
        b"refused trace 1 Short\n",
    ),
    (
        &[],
        &[(READ_LINE_0, 0)],
        &[(26, 0)],
        b"refused trace 5 Rest\n",
    ),
    (&[], &[], &[(12, 1)], b"refused trace 1 Short\n"),
];

#[test]
fn files_that_are_no_traces_are_refused(rt: HostRuntime) -> Result<(), Fail> {
    for (options, entries, edits, told) in REFUSED {
        let call = call_on_entries(rt.alloc(), options, entries, edits);
        check_call(&rt, call, shows(b"", told, 3), &(entries, edits))?;
    }
    Ok(())
}

// A memory of one level has 256 lines under layout 1, and 512 under layout 2.
#[test]
fn a_trace_is_of_one_shape_of_memory(rt: HostRuntime) -> Result<(), Fail> {
    let options = ["--levels", "1", "--layout", "2"];
    let call = call_on_entries(rt.alloc(), &options, &[(READ_LINE_256, 0)], &[]);
    check_judged(&rt, call, FOLLOWS, &options)?;
    Ok(())
}

#[test]
fn each_cut_of_a_trace_is_short(rt: HostRuntime) -> Result<(), Fail> {
    for len in 0..EXITED.len() {
        let call = call_judge(rt.alloc(), &[], &EXIT_7, &EXITED[..len]);
        check_call(&rt, call, shows(b"", b"refused trace 1 Short\n", 3), &len)?;
    }
    Ok(())
}
