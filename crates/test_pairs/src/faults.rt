// Sinks that fail, that find no memory, and that take little of a piece. What a program prints is one piece, and so is a line
// of what is told.
ghost use Rattle.std.specs.Prelude.{None};

use crate::calls::{PAIR, PAIR_BY_ALL, check_both, check_call, pair_files, told_of, with_options};
use crate::sides::Side::{self, Caught, Exits, Prints, Stores};
use chip_cases::{Call, EXIT_7_ELF, make_call, make_short_call, shows};
use chip_main::run_words;
use sec_base::{MemoryFiles, MemorySink, NoMemory, Sink, SinkStop};
use std::alloc::Global;
use std::process::Abort;
use std::test::Fail;

// So many lines of a text, from its beginning.
fn first_lines(text: &[u8], wanted: u64) -> &[u8] {
    let mut count = 0u64;
    let mut at = 0usize;
    for byte in text {
        if count >= wanted {
            break;
        }
        if *byte == b'\n' {
            count = count.saturating_add(1);
        }
        at = at.saturating_add(1);
    }
    &text[..at.min(text.len())]
}

// The second program, the numbers of the writes to `out` and to `note` that fail, what is printed, how many lines are told,
// and the status. The first program stores an A and prints it.
type Failing = (Side, u64, u64, &'static [u8], u64, u8);

// Of each program four lines are told, and one stands between them.
const FAILING: [Failing; 21] = [
    (Prints, 1, 0, b"", 9, 9),
    (Prints, 2, 0, b"A", 9, 9),
    (Prints, 3, 0, b"AAB", 9, 0),
    (Prints, 0, 1, b"AAB", 0, 9),
    (Prints, 0, 2, b"AAB", 1, 9),
    (Prints, 0, 3, b"AAB", 2, 9),
    (Prints, 0, 4, b"AAB", 3, 9),
    (Prints, 0, 5, b"AAB", 4, 9),
    (Prints, 0, 6, b"AAB", 5, 9),
    (Prints, 0, 7, b"AAB", 6, 9),
    (Prints, 0, 8, b"AAB", 7, 9),
    (Prints, 0, 9, b"AAB", 8, 9),
    (Prints, 0, 10, b"AAB", 9, 0),
    (Prints, 2, 3, b"A", 2, 9),
    // A fault goes before a side that was tampered with.
    (Caught, 1, 0, b"", 9, 9),
    (Caught, 2, 0, b"A", 9, 9),
    (Caught, 3, 0, b"AA", 9, 5),
    (Caught, 0, 1, b"AA", 0, 9),
    (Caught, 0, 6, b"AA", 5, 9),
    (Caught, 0, 9, b"AA", 8, 9),
    (Caught, 0, 10, b"AA", 9, 5),
];

fn call_failing(alloc: Global, second: Side, out: u64, note: u64) -> Result<Call, NoMemory> {
    let mut files = pair_files(alloc, Stores.program(), second.program(), b"")?;
    let words = with_options(alloc, &PAIR, &["--script2", "t"])?;
    make_call(alloc, words.as_slice(), &mut files, &[out], &[note])
}

#[test]
fn writes_fail(rt: HostRuntime) -> Result<(), Fail> {
    for (second, out, note, printed, lines, status) in FAILING {
        let told = told_of(rt.alloc(), Stores, second)?;
        let expected = shows(printed, first_lines(told.as_slice(), lines), status);
        let call = call_failing(rt.alloc(), second, out, note);
        check_call(&rt, call, expected, &(second, out, note))?;
    }
    Ok(())
}

// Where the first program prints nothing, the second one's bytes are the first piece.
fn call_silent(alloc: Global, out: u64) -> Result<Call, NoMemory> {
    let mut files = pair_files(alloc, Exits.program(), Prints.program(), b"")?;
    make_call(alloc, &PAIR, &mut files, &[out], &[])
}

#[test]
fn nothing_is_no_piece(rt: HostRuntime) -> Result<(), Fail> {
    let told = told_of(rt.alloc(), Exits, Prints)?;
    let expected = shows(b"", told.as_slice(), 9);
    check_call(&rt, call_silent(rt.alloc(), 1), expected, &1)?;
    let expected = shows(b"AB", told.as_slice(), 0);
    check_call(&rt, call_silent(rt.alloc(), 2), expected, &2)?;
    Ok(())
}

// Sinks that take so many bytes of a piece at most.
fn call_narrow(alloc: Global, most: usize) -> Result<Call, NoMemory> {
    let mut files = pair_files(alloc, Prints.program(), Caught.program(), b"\x01\0\0")?;
    make_short_call(alloc, &PAIR_BY_ALL, &mut files, most)
}

#[test]
fn narrow_sinks_get_the_same_bytes(rt: HostRuntime) -> Result<(), Fail> {
    for most in [1, 7] {
        let call = call_narrow(rt.alloc(), most);
        check_both(&rt, rt.alloc(), call, (Prints, Caught), 5, &most)?;
    }
    Ok(())
}

// Options, the order, what is told, and the status of a refusal, which is kept where it can't be told.
const REFUSED: [(&[&str], &[u8], &[u8], u8); 4] = [
    (
        &[
            "--key2",
            "000102030405060708090a0b0c0d0e0f101112131415161718191a1b1c1d1e1f",
        ],
        b"",
        b"usage keys\n",
        2,
    ),
    (&["--key2", "00"], b"", b"usage key\n", 2),
    (&["--order", "o"], b"\x02", b"refused order 0\n", 3),
    (&["--order", "absent"], b"", b"read fault\n", 8),
];

fn call_refused(
    alloc: Global,
    options: &[&'static str],
    order: &[u8],
    note: u64,
) -> Result<Call, NoMemory> {
    let words = with_options(alloc, &PAIR, options)?;
    let mut files = MemoryFiles::new(alloc, &[])?;
    files.add("a", &EXIT_7_ELF)?;
    files.add("b", &EXIT_7_ELF)?;
    files.add("o", order)?;
    make_call(alloc, words.as_slice(), &mut files, &[1], &[note])
}

#[test]
fn a_fault_of_note_keeps_a_refusal(rt: HostRuntime) -> Result<(), Fail> {
    for (options, order, told, status) in REFUSED {
        let call = call_refused(rt.alloc(), options, order, 1);
        check_call(&rt, call, shows(b"", b"", status), &options)?;
        let call = call_refused(rt.alloc(), options, order, 2);
        check_call(&rt, call, shows(b"", told, status), &options)?;
    }
    Ok(())
}

// A sink that finds no memory.
#[derive(Drop)]
struct Forgetful;

impl Sink for Forgetful {
    ghost state = { λ _. record { written = None; faults = 0 } };

    fn write(&mut self, piece: &[u8]) -> Result<usize, SinkStop> {
        if piece.is_empty() {
            return Ok(0);
        }
        Err(SinkStop::NoMemory)
    }
}

// What is told, and the status, where `out` finds no memory.
fn check_wanting_out(rt: &impl Abort, alloc: Global, second: Side) -> Result<(), NoMemory> {
    let mut files = pair_files(alloc, Stores.program(), second.program(), b"")?;
    let mut note = MemorySink::new(alloc, &[])?;
    let done = run_words(alloc, &PAIR_BY_ALL, &mut files, &mut Forgetful, &mut note);
    let told = told_of(alloc, Stores, second)?;
    assert_eq!(rt; (note.bytes(), done.status), (told.as_slice(), 10));
    Ok(())
}

// What is printed, and the status, where `note` finds no memory.
fn check_wanting_note(
    rt: &impl Abort,
    alloc: Global,
    second: Side,
    printed: &[u8],
) -> Result<(), NoMemory> {
    let mut files = pair_files(alloc, Stores.program(), second.program(), b"")?;
    let mut out = MemorySink::new(alloc, &[])?;
    let done = run_words(alloc, &PAIR_BY_ALL, &mut files, &mut out, &mut Forgetful);
    assert_eq!(rt; (out.bytes(), done.status), (printed, 10));
    Ok(())
}

// It goes before all else that ends a side.
#[test]
fn memory_is_wanted(rt: HostRuntime) -> Result<(), Fail> {
    check_wanting_out(&rt, rt.alloc(), Prints)?;
    check_wanting_out(&rt, rt.alloc(), Caught)?;
    check_wanting_note(&rt, rt.alloc(), Prints, b"AAB")?;
    check_wanting_note(&rt, rt.alloc(), Caught, b"AA")?;
    Ok(())
}
