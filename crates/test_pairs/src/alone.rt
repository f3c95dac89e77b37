// Each of two programs comes to what `run` makes of it alone, under its key: what it prints and all that is told of it, with
// its report.
use crate::calls::{PAIR_BY_ALL, both_printed, both_told, pair_files, with_options};
use crate::sides::{FLIP, Program};
use chip_cases::{
    Call, READ_UNTOUCHED, STORE_200_TIMES, STORE_AND_PRINT, STORE_FAR_APART, STORE_TWICE, make_call,
};
use sec_base::{MemoryFiles, NoMemory};
use std::alloc::{AllocError, Global};
use std::process::Abort;
use std::test::Fail;

const KEY: &str = "000102030405060708090a0b0c0d0e0f101112131415161718191a1b1c1d1e1f";

const KEY_2: &str = "202122232425262728292a2b2c2d2e2f303132333435363738393a3b3c3d3e3f";

const OTHER_KEY: &str = "FFFEFDFCFBFAF9F8F7F6F5F4F3F2F1F0EFEEEDECEBEAE9E8e7e6e5e4e3e2e1e0";

const HONEST: &[u8] = b"";

const REPLAY: &[u8] = b"write data 5 2: saveall 0\nread data 5 2: restoreall 0\n";

const SAVE: &[u8] = b"write data 5 2: saveall 0\n";

const RESTORE: &[u8] = b"read data 5 2: restoreall 0\n";

const SWAP: &[u8] = b"read data 5 1: swap data 5 data 6";

const FLIP_BLOCK: &[u8] = b"read node 0 0 1: flip node 0 0 0 01
read node 0 0 1: flip node 0 0 16 01
";

// The program makes five accesses, of which the fifth reads line 5.
const AT_5: &[u8] = b"access 5: flip data 5 0 01";

const AT_6: &[u8] = b"access 6: flip data 5 0 01";

const UNTOUCHED: &[u8] = READ_UNTOUCHED;

// Two programs with their keys and scripts, the order of their turns, and how many answers of each are false.
#[derive(Clone, Copy)]
struct Row {
    first: (&'static [u8], &'static [u8], &'static str),
    second: (&'static [u8], &'static [u8], &'static str),
    order: &'static [u8],
    lies: (u64, u64),
    status: u8,
}

const ROWS: [Row; 7] = [
    Row {
        first: (STORE_FAR_APART, HONEST, KEY),
        second: (STORE_TWICE, REPLAY, KEY_2),
        order: b"\0\x01",
        lies: (0, 1),
        status: 5,
    },
    Row {
        first: (UNTOUCHED, FLIP_BLOCK, KEY_2),
        second: (STORE_200_TIMES, HONEST, KEY),
        order: b"\x01\x01\0",
        lies: (1, 0),
        status: 5,
    },
    Row {
        first: (STORE_AND_PRINT, FLIP, OTHER_KEY),
        second: (STORE_AND_PRINT, SWAP, KEY_2),
        order: b"",
        lies: (1, 1),
        status: 5,
    },
    // Each bus counts its own accesses.
    Row {
        first: (UNTOUCHED, AT_6, KEY),
        second: (UNTOUCHED, AT_6, OTHER_KEY),
        order: b"\0\x01",
        lies: (0, 0),
        status: 0,
    },
    Row {
        first: (UNTOUCHED, AT_6, KEY),
        second: (UNTOUCHED, AT_5, KEY_2),
        order: b"\x01",
        lies: (0, 1),
        status: 5,
    },
    // What is saved of one memory is not put into the other.
    Row {
        first: (STORE_TWICE, SAVE, KEY),
        second: (STORE_TWICE, RESTORE, KEY_2),
        order: b"\0\0\x01",
        lies: (0, 0),
        status: 0,
    },
    Row {
        first: (STORE_200_TIMES, HONEST, KEY),
        second: (STORE_FAR_APART, HONEST, KEY_2),
        order: b"\0",
        lies: (0, 0),
        status: 0,
    },
];

fn row_files(alloc: Global, row: Row) -> Result<MemoryFiles, NoMemory> {
    let (text, script, _) = row.first;
    let first = Program { text, script };
    let (text, script, _) = row.second;
    pair_files(alloc, first, Program { text, script }, row.order)
}

fn call_row(alloc: Global, row: Row) -> Result<Call, NoMemory> {
    let (_, _, key) = row.first;
    let (_, _, key2) = row.second;
    let keys = ["--key", key, "--key2", key2];
    let words = with_options(alloc, &PAIR_BY_ALL, &keys)?;
    let mut files = row_files(alloc, row)?;
    make_call(alloc, words.as_slice(), &mut files, &[], &[])
}

fn call_alone(
    alloc: Global,
    row: Row,
    name: &str,
    script: &str,
    key: &str,
) -> Result<Call, NoMemory> {
    let mut files = row_files(alloc, row)?;
    let words = ["chip", "run", name, "--script", script, "--key", key];
    make_call(alloc, &words, &mut files, &[], &[])
}

// How many answers of the second one's bus were false.
fn second_lies(call: &Call) -> Option<u64> {
    match &call.done.second {
        Some(second) => Some(second.bus.lies()),
        None => None,
    }
}

fn check_texts(
    rt: &impl Abort,
    alloc: Global,
    both: &Call,
    first: &Call,
    second: &Call,
) -> Result<(), AllocError> {
    let printed = both_printed(alloc, first.out.bytes(), second.out.bytes())?;
    assert_eq!(rt; both.out.bytes(), printed.as_slice());
    let told = both_told(alloc, first.note.bytes(), second.note.bytes())?;
    assert_eq!(rt; both.note.bytes(), told.as_slice());
    Ok(())
}

fn calls_alone(alloc: Global, row: Row) -> Result<(Call, Call), NoMemory> {
    let (_, _, key) = row.first;
    let first = call_alone(alloc, row, "a", "s", key)?;
    let (_, _, key2) = row.second;
    let second = call_alone(alloc, row, "b", "t", key2)?;
    Ok((first, second))
}

fn check_answers(rt: &impl Abort, row: Row, both: &Call, first: &Call, second: &Call) {
    let (lies, lies2) = row.lies;
    assert_eq!(rt; (both.done.lies, first.done.lies), (lies, lies));
    assert_eq!(rt; (second_lies(both), second.done.lies), (Some(lies2), lies2));
    assert_eq!(rt;
        (both.done.status, both.ending()),
        (row.status, first.ending())
    );
}

fn check_beside(rt: &impl Abort, alloc: Global, row: Row, both: &Call) -> Result<(), NoMemory> {
    let (first, second) = calls_alone(alloc, row)?;
    check_answers(rt, row, both, &first, &second);
    check_texts(rt, alloc, both, &first, &second)?;
    Ok(())
}

fn check_row(rt: &impl Abort, alloc: Global, row: Row) -> Result<(), NoMemory> {
    let both = call_row(alloc, row)?;
    check_beside(rt, alloc, row, &both)
}

#[test]
fn each_program_comes_to_what_it_comes_to_alone(rt: HostRuntime) -> Result<(), Fail> {
    for row in ROWS {
        check_row(&rt, rt.alloc(), row)?;
    }
    Ok(())
}
