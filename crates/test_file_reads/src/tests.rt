// How files are read. What is told is worked out by hand from the limits of files and their order.
use chip_cases::{
    ASM, Call, DIS, DIS_ELF, EXIT_7_ELF, MEASURE, MEASURE_ELF, PLAIN, PLAIN_ON_INPUT, RUN,
    RUN_BY_ALL, RUN_ELF, RUN_SMALL, Shown, VERIFY, call_without_files, call_zeros, file, make_call,
    shows,
};
use sec_base::NoMemory;
use std::alloc::Global;
use std::fmt::Debug;
use std::process::Abort;
use std::test::Fail;

// What a call shows. It is the only function here that drops a call.
fn check_call<R>(
    rt: &impl Abort,
    call: Result<Call, NoMemory>,
    shown: Shown<'_>,
    row: &R,
) -> Result<(), NoMemory>
where
    R: Debug,
{
    let call = call?;
    assert_eq!(rt; call.shown(), shown, "{row:?}");
    Ok(())
}

// The words, how many zeros the flat file has, what is told, and the status.
const FLAT_LENGTHS: [(&[&str], usize, &[u8], u8); 7] = [
    (&RUN_SMALL, 16_385, b"refused elf 9 Segment\n", 3),
    (&RUN_SMALL, 1_048_576, b"refused elf 9 Segment\n", 3),
    (&RUN_SMALL, 1_048_577, b"refused long\n", 3),
    (&DIS, 1_048_577, b"refused long\n", 3),
    (&MEASURE, 1_048_577, b"refused long\n", 3),
    (&PLAIN, 1_048_577, b"refused long\n", 3),
    (
        &PLAIN,
        1_048_576,
        b"trapped illegal pc 00000000\nretired 0\n",
        1,
    ),
];

#[test]
fn flat_files_have_limits(rt: HostRuntime) -> Result<(), Fail> {
    for (words, length, told, status) in FLAT_LENGTHS {
        let call = call_zeros(rt.alloc(), words, length);
        check_call(&rt, call, shows(b"", told, status), &words)?;
    }
    Ok(())
}

// The same of ELF files, reports and assembly texts, which are refused.
const LENGTHS: [(&[&str], usize, &[u8]); 7] = [
    (&DIS_ELF, 1_048_577, b"refused elf 2 Magic\n"),
    (&RUN_ELF, 8_388_608, b"refused elf 2 Magic\n"),
    (&RUN_ELF, 8_388_609, b"refused long\n"),
    (&MEASURE_ELF, 8_388_609, b"refused long\n"),
    (&VERIFY, 1_048_576, b"refused report 1 Length\n"),
    (&VERIFY, 1_048_577, b"refused long\n"),
    (&ASM, 1_048_577, b"refused long\n"),
];

#[test]
fn other_files_have_limits(rt: HostRuntime) -> Result<(), Fail> {
    for (words, length, told) in LENGTHS {
        let call = call_zeros(rt.alloc(), words, length);
        check_call(&rt, call, shows(b"", told, 3), &words)?;
    }
    Ok(())
}

const PLAIN_ELF_ON_INPUT: [&str; 5] = ["chip", "plain", "f", "--input", "i"];

// The words, the program, how many zeros the input has, what is told, and the status.
const INPUTS: [(&[&str], &[u8], usize, &[u8], u8); 3] = [
    (
        &PLAIN_ELF_ON_INPUT,
        &EXIT_7_ELF,
        1_048_576,
        b"halted 7\nretired 3\n",
        0,
    ),
    (
        &PLAIN_ELF_ON_INPUT,
        &EXIT_7_ELF,
        1_048_577,
        b"refused long\n",
        3,
    ),
    (&PLAIN_ON_INPUT, b"", 1_048_577, b"refused long\n", 3),
];

// A call on the program `f` and the input `i` of so many zeros.
fn call_on_zeros(
    alloc: Global,
    words: &[&str],
    program: &[u8],
    length: usize,
) -> Result<Call, NoMemory> {
    let input = vec![in alloc; 0u8; length]?;
    let mut files = file(alloc, program, &[])?;
    files.add("i", input.as_slice())?;
    make_call(alloc, words, &mut files, &[], &[])
}

#[test]
fn an_input_has_a_limit(rt: HostRuntime) -> Result<(), Fail> {
    for (words, program, length, told, status) in INPUTS {
        let call = call_on_zeros(rt.alloc(), words, program, length);
        check_call(&rt, call, shows(b"", told, status), &words)?;
    }
    Ok(())
}

// The words, the program, the script, the number of the read that fails, what is told, and the status.
const ORDERS: [(&[&str], &[u8], &[u8], u64, &[u8], u8); 8] = [
    (&RUN, b"", b"", 1, b"read fault\n", 8),
    (&PLAIN_ON_INPUT, b"", b"", 2, b"read fault\n", 8),
    (
        &["chip", "run", "f", "--input", "i"],
        b"",
        b"",
        2,
        b"refused elf 1 Short\n",
        3,
    ),
    (&RUN_BY_ALL, b"", b"access", 1, b"read fault\n", 8),
    (&RUN_BY_ALL, b"", b"access", 2, b"read fault\n", 8),
    (
        &RUN_BY_ALL,
        b"",
        b"access",
        3,
        b"refused script 1 1 Word\n",
        3,
    ),
    (&RUN_BY_ALL, b"", b"", 3, b"read fault\n", 8),
    (
        &RUN_BY_ALL,
        b"",
        b"",
        4,
        b"trapped illegal pc 00000000\nretired 0\nlies 0\n",
        1,
    ),
];

// A call whose read of this number fails.
fn call_on_fault(
    alloc: Global,
    words: &[&str],
    program: &[u8],
    script: &[u8],
    fails: u64,
) -> Result<Call, NoMemory> {
    let mut files = file(alloc, program, &[fails])?;
    files.add("s", script)?;
    files.add("i", b"")?;
    make_call(alloc, words, &mut files, &[], &[])
}

// Each file has its form before the next one is read: the program, the script, and then the input.
#[test]
fn files_are_read_in_order(rt: HostRuntime) -> Result<(), Fail> {
    for (words, program, script, fails, told, status) in ORDERS {
        let call = call_on_fault(rt.alloc(), words, program, script, fails);
        check_call(&rt, call, shows(b"", told, status), &fails)?;
    }
    Ok(())
}

// A call on a program that is too long. The second read would fail.
fn call_long_program(alloc: Global) -> Result<Call, NoMemory> {
    let zeros = vec![in alloc; 0u8; 1_048_577]?;
    let mut files = file(alloc, zeros.as_slice(), &[2])?;
    make_call(alloc, &PLAIN_ON_INPUT, &mut files, &[], &[])
}

#[test]
fn a_long_program_is_refused_before_its_input_is_read(rt: HostRuntime) -> Result<(), Fail> {
    let call = call_long_program(rt.alloc());
    check_call(&rt, call, shows(b"", b"refused long\n", 3), &PLAIN_ON_INPUT)?;
    Ok(())
}

const ABSENT: [&[&str]; 3] = [&RUN, &RUN_ELF, &VERIFY];

#[test]
fn a_file_that_is_not_there_is_a_fault(rt: HostRuntime) -> Result<(), Fail> {
    for words in ABSENT {
        let call = call_without_files(rt.alloc(), words);
        check_call(&rt, call, shows(b"", b"read fault\n", 8), &words)?;
    }
    Ok(())
}
