// Sinks that fail, that find no memory, and that take little of a piece. A trace is one piece, and so is a verdict.
ghost use Rattle.std.specs.Prelude.{None};

use crate::calls::{EXITED, JUDGE, JUDGE_ON_2_STEPS, TRACE, check_call, judged_files};
use chip_cases::{Call, EXIT_7, make_call, make_short_call, shows, without_report};
use chip_main::run_words;
use sec_base::{MemorySink, NoMemory, Sink, SinkStop};
use std::alloc::Global;
use std::process::Abort;
use std::test::Fail;

const TOLD: &[u8] = b"halted 7\nretired 3\nlies 0\n";

// The words, the numbers of the writes to `out` and to `note` that fail, what is printed and told, and the status.
type Failing = (
    &'static [&'static str],
    u64,
    u64,
    &'static [u8],
    &'static [u8],
    u8,
);

// A run is told where its trace is not written. A verdict is not told.
const FAILING: [Failing; 9] = [
    (&TRACE, 1, 0, b"", TOLD, 9),
    (&TRACE, 2, 0, EXITED, TOLD, 0),
    (&TRACE, 0, 1, EXITED, b"", 9),
    (&TRACE, 0, 4, EXITED, TOLD, 9),
    (&TRACE, 1, 1, b"", b"", 9),
    (&JUDGE, 1, 0, b"", b"", 9),
    (&JUDGE, 0, 1, b"judged follows\n", b"", 0),
    (&JUDGE_ON_2_STEPS, 1, 0, b"", b"", 9),
    (&JUDGE_ON_2_STEPS, 0, 1, b"judged no retired\n", b"", 13),
];

fn call_failing(alloc: Global, words: &[&str], out: u64, note: u64) -> Result<Call, NoMemory> {
    let mut files = judged_files(alloc, &EXIT_7, EXITED, &[])?;
    make_call(alloc, words, &mut files, &[out], &[note])
}

#[test]
fn writes_fail(rt: HostRuntime) -> Result<(), Fail> {
    for (words, out, note, printed, told, status) in FAILING {
        let call = call_failing(rt.alloc(), words, out, note);
        check_call(&rt, call, shows(printed, told, status), &(words, out, note))?;
    }
    Ok(())
}

// Sinks that take so many bytes of a piece at most.
fn call_narrow(alloc: Global, words: &[&str], most: usize) -> Result<Call, NoMemory> {
    let mut files = judged_files(alloc, &EXIT_7, EXITED, &[])?;
    make_short_call(alloc, words, &mut files, most)
}

#[test]
fn narrow_sinks_get_the_same_bytes(rt: HostRuntime) -> Result<(), Fail> {
    for most in [1, 7] {
        let call = call_narrow(rt.alloc(), &TRACE, most);
        check_call(&rt, call, shows(EXITED, TOLD, 0), &most)?;
        let call = call_narrow(rt.alloc(), &JUDGE, most);
        check_call(&rt, call, shows(b"judged follows\n", b"", 0), &most)?;
    }
    Ok(())
}

// A sink that finds no memory.
#[derive(Drop)]
struct Forgetful;

impl Sink for Forgetful {
    ghost state = { λ _. record { written = None; faults = 0 } };

    fn write(&mut self, piece: &[u8]) -> Result<usize, SinkStop> {
        if piece.is_empty() {
            return Ok(0);
        }
        Err(SinkStop::NoMemory)
    }
}

// What a call tells whose `out` finds no memory, and its status.
fn check_wanting(
    rt: &impl Abort,
    alloc: Global,
    words: &[&str],
    told: &[u8],
) -> Result<(), NoMemory> {
    let mut files = judged_files(alloc, &EXIT_7, EXITED, &[])?;
    let mut note = MemorySink::new(alloc, &[])?;
    let done = run_words(alloc, words, &mut files, &mut Forgetful, &mut note);
    assert_eq!(rt; (without_report(note.bytes()), done.status), (told, 10));
    Ok(())
}

#[test]
fn memory_is_wanted(rt: HostRuntime) -> Result<(), Fail> {
    check_wanting(&rt, rt.alloc(), &TRACE, TOLD)?;
    check_wanting(&rt, rt.alloc(), &JUDGE, b"")?;
    Ok(())
}
