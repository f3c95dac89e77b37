// How the files of a judgement are read. What is told is worked out by hand from the limits of files and their order.
use crate::calls::{EXITED, JUDGE, JUDGE_ON_INPUT, check_call, judged_files};
use chip_cases::{Call, EXIT_7, EXIT_7_BYTES, file, make_call, shows};
use sec_base::NoMemory;
use std::alloc::Global;
use std::test::Fail;

const JUDGE_ELF: [&str; 4] = ["chip", "judge", "f", "t"];

const FAULT: &[u8] = b"read fault\n";

const SHORT: &[u8] = b"refused trace 1 Short\n";

// The words, the trace, the number of the read that fails, what is printed and told, and the status. The program is no ELF
// file.
type Order = (
    &'static [&'static str],
    &'static [u8],
    u64,
    &'static [u8],
    &'static [u8],
    u8,
);

const ORDERS: [Order; 10] = [
    (&JUDGE, EXITED, 1, b"", FAULT, 8),
    (&JUDGE, EXITED, 2, b"", FAULT, 8),
    (&JUDGE, EXITED, 3, b"judged follows\n", b"", 0),
    (&JUDGE_ON_INPUT, EXITED, 1, b"", FAULT, 8),
    (&JUDGE_ON_INPUT, EXITED, 2, b"", FAULT, 8),
    (&JUDGE_ON_INPUT, EXITED, 3, b"", FAULT, 8),
    (&JUDGE_ON_INPUT, EXITED, 4, b"judged follows\n", b"", 0),
    (&JUDGE_ON_INPUT, b"", 3, b"", FAULT, 8),
    (&JUDGE_ON_INPUT, b"", 4, b"", SHORT, 3),
    (&JUDGE_ELF, b"", 2, b"", b"refused elf 1 Short\n", 3),
];

// A call whose read of this number fails, on an input without a byte.
fn call_on_fault(
    alloc: Global,
    words: &[&str],
    trace: &[u8],
    fails: u64,
) -> Result<Call, NoMemory> {
    let mut files = judged_files(alloc, &EXIT_7, trace, &[fails])?;
    files.add("i", b"")?;
    make_call(alloc, words, &mut files, &[], &[])
}

#[test]
fn each_file_has_its_form_before_the_next_is_read(rt: HostRuntime) -> Result<(), Fail> {
    for (words, trace, fails, printed, told, status) in ORDERS {
        let call = call_on_fault(rt.alloc(), words, trace, fails);
        check_call(&rt, call, shows(printed, told, status), &fails)?;
    }
    Ok(())
}

// Words on a file that isn't there: the program is, and no trace or no input.
fn call_without_trace(alloc: Global, words: &[&str]) -> Result<Call, NoMemory> {
    let mut files = file(alloc, EXIT_7_BYTES, &[])?;
    make_call(alloc, words, &mut files, &[], &[])
}

#[test]
fn a_trace_that_is_not_there_is_a_fault(rt: HostRuntime) -> Result<(), Fail> {
    for words in [JUDGE.as_slice(), JUDGE_ON_INPUT.as_slice()] {
        let call = call_without_trace(rt.alloc(), words);
        check_call(&rt, call, shows(b"", FAULT, 8), &words)?;
    }
    Ok(())
}

// A call on an input that is too long. The third read would fail, and the trace is none.
fn call_long_input(alloc: Global) -> Result<Call, NoMemory> {
    let zeros = vec![in alloc; 0u8; 1_048_577]?;
    let mut files = judged_files(alloc, &EXIT_7, b"", &[3])?;
    files.add("i", zeros.as_slice())?;
    make_call(alloc, &JUDGE_ON_INPUT, &mut files, &[], &[])
}

#[test]
fn a_long_input_is_refused_before_the_trace_is_read(rt: HostRuntime) -> Result<(), Fail> {
    let call = call_long_input(rt.alloc());
    check_call(&rt, call, shows(b"", b"refused long\n", 3), &JUDGE_ON_INPUT)?;
    Ok(())
}

fn call_on_zeros(alloc: Global, length: usize) -> Result<Call, NoMemory> {
    let trace = vec![in alloc; 0u8; length]?;
    let mut files = judged_files(alloc, &EXIT_7, trace.as_slice(), &[])?;
    make_call(alloc, &JUDGE, &mut files, &[], &[])
}

#[test]
fn a_trace_may_be_longer_than_any_program(rt: HostRuntime) -> Result<(), Fail> {
    let call = call_on_zeros(rt.alloc(), 8_388_609);
    check_call(&rt, call, shows(b"", b"refused trace 2 Magic\n", 3), &JUDGE)?;
    Ok(())
}
