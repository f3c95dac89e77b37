// Calls on traces, and traces by their bytes, which are put together by hand from the format.
use chip_cases::{Call, Shown, edited, file, make_call, program, shows};
use sec_base::{MemoryFiles, NoMemory};
use std::alloc::Global;
use std::fmt::Debug;
use std::process::Abort;

/// Runs the flat file `f` over a bus that is recorded.
pub(crate) const TRACE: [&str; 4] = ["chip", "trace", "f", "--flat"];

/// Judges the trace `t` of the flat file `f`.
pub(crate) const JUDGE: [&str; 5] = ["chip", "judge", "f", "t", "--flat"];

/// The same of a run of two steps at most.
pub(crate) const JUDGE_ON_2_STEPS: [&str; 7] = [
    "chip", "judge", "f", "t", "--flat", "--steps", "2",
];

/// The same of a run on the input `i`.
pub(crate) const JUDGE_ON_INPUT: [&str; 7] = ["chip", "judge", "f", "t", "--flat", "--input", "i"];

/// What a judgement prints, and its status.
pub(crate) type Judged<'a> = (&'a [u8], u8);

pub(crate) const FOLLOWS: Judged<'static> = (b"judged follows\n", 0);

pub(crate) const NO_RETIRED: Judged<'static> = (b"judged no retired\n", 13);

pub(crate) const NO_OUTPUT: Judged<'static> = (b"judged no output\n", 13);

pub(crate) const NO_ENDING: Judged<'static> = (b"judged no ending\n", 13);

/// By the number of the entry that is the first false one.
pub(crate) const NO_LIE_1: Judged<'static> = (b"judged no lie 1\n", 13);

pub(crate) const NO_LIE_2: Judged<'static> = (b"judged no lie 2\n", 13);

pub(crate) const NO_LIE_3: Judged<'static> = (b"judged no lie 3\n", 13);

pub(crate) const NO_LIE_4: Judged<'static> = (b"judged no lie 4\n", 13);

/// The trace of the program that exits with 7: it prints nothing, halts with 7, retires 3 instructions, and its lines stay
/// on the chip.
pub(crate) const EXITED: &[u8; 34] = b"RVTR\x01\
    \0\0\0\0\0\0\0\0\
    \0\x07\0\0\0\
    \x03\0\0\0\0\0\0\0\
    \0\0\0\0\0\0\0\0";

/// Of the program that prints A: it halts with 1 after 10 instructions, the eighth of which prints.
pub(crate) const PRINTED: &[u8; 35] = b"RVTR\x01\
    \x01\0\0\0\0\0\0\0A\
    \0\x01\0\0\0\
    \x0a\0\0\0\0\0\0\0\
    \0\0\0\0\0\0\0\0";

// Where the number of entries stands in the trace of the program that exits with 7.
const COUNT_AT: usize = 26;

const ZEROS: [u8; 79] = [0; 79];

/// Words, and options behind them.
pub(crate) fn with_options(
    alloc: Global,
    words: &[&'static str],
    options: &[&'static str],
) -> Result<Vec<&'static str>, NoMemory> {
    let mut all = Vec::from_slice(alloc, words)?;
    all.extend_from_slice(options)?;
    Ok(all)
}

/// The program `f` and the trace `t`. Reads with these numbers fail.
pub(crate) fn judged_files(
    alloc: Global,
    code: &[u32],
    trace: &[u8],
    fails: &[u64],
) -> Result<MemoryFiles, NoMemory> {
    let bytes = program(alloc, code)?;
    let mut files = file(alloc, bytes.as_slice(), fails)?;
    files.add("t", trace)?;
    Ok(files)
}

/// A trace of a program is judged.
pub(crate) fn call_judge(
    alloc: Global,
    options: &[&'static str],
    code: &[u32],
    trace: &[u8],
) -> Result<Call, NoMemory> {
    let words = with_options(alloc, &JUDGE, options)?;
    let mut files = judged_files(alloc, code, trace, &[])?;
    make_call(alloc, words.as_slice(), &mut files, &[], &[])
}

/// An entry: its kind and place, and the first byte of what was read or written there, whose other bytes are zeros.
pub(crate) type Access = (&'static [u8], u8);

/// The trace of the program that exits with 7, with these entries, and then with other bytes here and there.
pub(crate) fn with_entries(
    alloc: Global,
    entries: &[Access],
    edits: &[(usize, u8)],
) -> Result<Vec<u8>, NoMemory> {
    let mut trace = Vec::from_slice(alloc, &EXITED[..COUNT_AT])?;
    trace.extend_from_slice(&(entries.len() as u64).to_le_bytes())?;
    for &(head, first) in entries {
        trace.extend_from_slice(head)?;
        trace.push(first)?;
        // A line has 80 bytes behind a head of five, and a node 64 behind one of six.
        let others = if head.len() == 5 { 79 } else { 63 };
        trace.extend_from_slice(&ZEROS[..others])?;
    }
    edited(alloc, trace.as_slice(), edits)
}

/// What a call shows. A call is dropped here alone, which makes the proof of a test cheap.
pub(crate) fn check_call<R>(
    rt: &impl Abort,
    call: Result<Call, NoMemory>,
    shown: Shown<'_>,
    row: &R,
) -> Result<(), NoMemory>
where
    R: Debug,
{
    let call = call?;
    assert_eq!(rt; call.shown(), shown, "{row:?}");
    Ok(())
}

/// What a judgement shows: it tells nothing.
pub(crate) fn check_judged<R>(
    rt: &impl Abort,
    call: Result<Call, NoMemory>,
    judged: Judged<'_>,
    row: &R,
) -> Result<(), NoMemory>
where
    R: Debug,
{
    let (printed, status) = judged;
    check_call(rt, call, shows(printed, b"", status), row)
}
