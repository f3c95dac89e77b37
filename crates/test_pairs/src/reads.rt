// How the files of two programs are read: which are asked for, in which order, and what is told of the first that has a fault.
// Texts are worked out by hand from the files' forms and limits.
use crate::calls::{PAIR, PAIR_BY_ALL};
use crate::noted_files::{Contents, NotedCall, call_noted};
use chip_cases::{EXIT_7_ELF, Shown, shows};
use sec_base::NoMemory;
use std::alloc::Global;
use std::fmt::Debug;
use std::process::Abort;
use std::test::Fail;

const FAULT: &[u8] = b"read fault\n";

const LONG: &[u8] = b"refused long\n";

// No program but zeros, an order whose third byte is none, and scripts with a wrong number and a wrong register.
const ZEROS: &[u8] = &[0; 96];

const TURNS: &[u8] = b"\0\x01";

const NO_TURNS: &[u8] = b"\0\x01\x02";

const WRONG_NUMBER: &[u8] = b"access 0: saveall 0";

const WRONG_REGISTER: &[u8] = b"access 1: saveall 16";

const GOOD: Contents<'static> = [&EXIT_7_ELF, &EXIT_7_ELF, TURNS, b"", b""];

// What a refused call tells and its status, and the names of the files that it asked for.
fn check_refused<R>(
    rt: &impl Abort,
    call: Result<NotedCall, NoMemory>,
    expected: Shown<'_>,
    names: &str,
    row: &R,
) -> Result<(), NoMemory>
where
    R: Debug,
{
    let call = call?;
    assert_eq!(rt; (call.shown(), call.names()), (expected, names), "{row:?}");
    Ok(())
}

// The status of a call, and the names of the files that it asked for.
fn check_names<R>(
    rt: &impl Abort,
    call: Result<NotedCall, NoMemory>,
    status: u8,
    names: &str,
    row: &R,
) -> Result<(), NoMemory>
where
    R: Debug,
{
    let call = call?;
    assert_eq!(rt; (call.status(), call.names()), (status, names), "{row:?}");
    Ok(())
}

// Words, and the names of the files that are asked for.
const ASKED: [(&[&str], &str); 8] = [
    (&["chip", "pair", "a", "b"], "a b "),
    (&["chip", "pair", "b", "a"], "b a "),
    (&["chip", "pair", "a", "a"], "a a "),
    (&["chip", "pair", "--order", "o", "a", "b"], "a b o "),
    (&["chip", "pair", "a", "--script2", "t", "b"], "a b t "),
    (
        &[
            "chip",
            "pair",
            "--script2",
            "t",
            "--script",
            "s",
            "a",
            "--order",
            "o",
            "b",
        ],
        "a b o s t ",
    ),
    (
        &["chip", "pair", "a", "b", "--script2", "s", "--script", "t"],
        "a b t s ",
    ),
    (
        &["chip", "pair", "a", "b", "--script", "s", "--script2", "s"],
        "a b s s ",
    ),
];

#[test]
fn files_are_asked_for_in_one_order(rt: HostRuntime) -> Result<(), Fail> {
    for (words, names) in ASKED {
        let call = call_noted(rt.alloc(), words, GOOD, &[]);
        check_names(&rt, call, 0, names, &words)?;
    }
    Ok(())
}

// Files of which each is mended in turn, what is told, and the names of those that were asked for.
const MENDED: [(Contents<'static>, &[u8], &str); 5] = [
    (
        [b"", ZEROS, NO_TURNS, WRONG_NUMBER, WRONG_REGISTER],
        b"refused elf 1 Short\n",
        "a ",
    ),
    (
        [&EXIT_7_ELF, ZEROS, NO_TURNS, WRONG_NUMBER, WRONG_REGISTER],
        b"refused elf 2 Magic\n",
        "a b ",
    ),
    (
        [
            &EXIT_7_ELF,
            &EXIT_7_ELF,
            NO_TURNS,
            WRONG_NUMBER,
            WRONG_REGISTER,
        ],
        b"refused order 2\n",
        "a b o ",
    ),
    (
        [
            &EXIT_7_ELF,
            &EXIT_7_ELF,
            TURNS,
            WRONG_NUMBER,
            WRONG_REGISTER,
        ],
        b"refused script 1 2 Number\n",
        "a b o s ",
    ),
    (
        [&EXIT_7_ELF, &EXIT_7_ELF, TURNS, b"", WRONG_REGISTER],
        b"refused script 1 5 Register\n",
        "a b o s t ",
    ),
];

#[test]
fn the_first_file_without_its_form_is_refused(rt: HostRuntime) -> Result<(), Fail> {
    for (contents, told, names) in MENDED {
        let call = call_noted(rt.alloc(), &PAIR_BY_ALL, contents, &[]);
        check_refused(&rt, call, shows(b"", told, 3), names, &names)?;
    }
    Ok(())
}

// The number of the read that fails, and the names of the files that were asked for. The next ones have no form.
const FAILING: [(u64, Contents<'static>, &str); 5] = [
    (1, [b"", b"", b"2", b"x", b"x"], "a "),
    (2, [&EXIT_7_ELF, b"", b"2", b"x", b"x"], "a b "),
    (3, [&EXIT_7_ELF, &EXIT_7_ELF, b"2", b"x", b"x"], "a b o "),
    (4, [&EXIT_7_ELF, &EXIT_7_ELF, TURNS, b"x", b"x"], "a b o s "),
    (
        5,
        [&EXIT_7_ELF, &EXIT_7_ELF, TURNS, b"", b"x"],
        "a b o s t ",
    ),
];

#[test]
fn each_read_fails_in_turn(rt: HostRuntime) -> Result<(), Fail> {
    for (fails, contents, names) in FAILING {
        let call = call_noted(rt.alloc(), &PAIR_BY_ALL, contents, &[fails]);
        check_refused(&rt, call, shows(b"", FAULT, 8), names, &fails)?;
    }
    let call = call_noted(rt.alloc(), &PAIR_BY_ALL, GOOD, &[6]);
    check_names(&rt, call, 0, "a b o s t ", &6)?;
    Ok(())
}

// Words of which the last file isn't there, and the names of the files that were asked for.
const ABSENT: [(&[&str], &str); 6] = [
    (&["chip", "pair", "c", "b"], "c "),
    (&["chip", "pair", "a", "c"], "a c "),
    (&["chip", "pair", "a", "b", "--order", "c"], "a b c "),
    (&["chip", "pair", "a", "b", "--script", "c"], "a b c "),
    (&["chip", "pair", "a", "b", "--script2", "c"], "a b c "),
    (
        &["chip", "pair", "a", "b", "--script2", "c", "--script", "s"],
        "a b s c ",
    ),
];

#[test]
fn a_file_that_is_not_there_is_a_fault(rt: HostRuntime) -> Result<(), Fail> {
    for (words, names) in ABSENT {
        let call = call_noted(rt.alloc(), words, GOOD, &[]);
        check_refused(&rt, call, shows(b"", FAULT, 8), names, &words)?;
    }
    Ok(())
}

// The order, and what is told: the place of the first byte that is neither 0 nor 1.
const NO_ORDERS: [(&[u8], &[u8]); 6] = [
    (b"\x02", b"refused order 0\n"),
    (b"01\n", b"refused order 0\n"),
    (b"\0\xff\x02\0", b"refused order 1\n"),
    (b"\0\x01\x02", b"refused order 2\n"),
    (b"\x01\x01\0\x03", b"refused order 3\n"),
    (b"\0\x01\0\x01\0\x01\0\x01\0\x01\n", b"refused order 10\n"),
];

#[test]
fn an_order_has_no_byte_but_0_and_1(rt: HostRuntime) -> Result<(), Fail> {
    for (order, told) in NO_ORDERS {
        let contents = [&EXIT_7_ELF, &EXIT_7_ELF, order, b"", b""];
        let call = call_noted(rt.alloc(), &PAIR_BY_ALL, contents, &[]);
        check_refused(&rt, call, shows(b"", told, 3), "a b o ", &order)?;
    }
    Ok(())
}

// An order and a first script of so many zeros.
fn call_on_zeros(alloc: Global, turns: usize, script: usize) -> Result<NotedCall, NoMemory> {
    let turns = vec![in alloc; 0u8; turns]?;
    let script = vec![in alloc; b'#'; script]?;
    let contents = [
        &EXIT_7_ELF,
        &EXIT_7_ELF,
        turns.as_slice(),
        script.as_slice(),
        WRONG_NUMBER,
    ];
    call_noted(alloc, &PAIR_BY_ALL, contents, &[])
}

// How long the order and the first script are, what is told, and the names of the files that were asked for.
const LENGTHS: [(usize, usize, &[u8], &str); 4] = [
    (1_048_577, 1_048_577, LONG, "a b o "),
    (1_048_576, 1_048_577, LONG, "a b o s "),
    (0, 1_048_577, LONG, "a b o s "),
    (2, 1, b"refused script 1 2 Number\n", "a b o s t "),
];

#[test]
fn orders_and_scripts_have_limits(rt: HostRuntime) -> Result<(), Fail> {
    for (turns, script, told, names) in LENGTHS {
        let call = call_on_zeros(rt.alloc(), turns, script);
        check_refused(&rt, call, shows(b"", told, 3), names, &(turns, script))?;
    }
    Ok(())
}

// A second program that is too long.
fn call_long_second(alloc: Global) -> Result<NotedCall, NoMemory> {
    let second = vec![in alloc; 0u8; 8_388_609]?;
    let contents = [&EXIT_7_ELF, second.as_slice(), NO_TURNS, b"", b""];
    call_noted(alloc, &PAIR, contents, &[])
}

#[test]
fn a_program_has_a_limit(rt: HostRuntime) -> Result<(), Fail> {
    let call = call_long_second(rt.alloc());
    check_refused(&rt, call, shows(b"", LONG, 3), "a b ", &PAIR)?;
    Ok(())
}

// The longest order, whose last byte is this one.
fn call_longest(alloc: Global, last: u8) -> Result<NotedCall, NoMemory> {
    let mut turns = vec![in alloc; 1u8; 1_048_575]?;
    turns.push(last)?;
    let contents = [&EXIT_7_ELF, &EXIT_7_ELF, turns.as_slice(), b"", b""];
    call_noted(
        alloc,
        &["chip", "pair", "a", "b", "--order", "o"],
        contents,
        &[],
    )
}

#[test]
fn the_longest_order_is_taken(rt: HostRuntime) -> Result<(), Fail> {
    check_names(&rt, call_longest(rt.alloc(), 0), 0, "a b o ", &0)?;
    let told = b"refused order 1048575\n";
    let call = call_longest(rt.alloc(), 2);
    check_refused(&rt, call, shows(b"", told, 3), "a b o ", &2)?;
    Ok(())
}
