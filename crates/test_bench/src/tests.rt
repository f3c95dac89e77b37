// Generated programs. What each prints, and how often it writes, is from an independent model in Python.
use chip_cases::{Call, RUN, Shown, call_without_files, file, make_call, shows};
use chip_main::Done;
use sec_base::{Ending, MemoryFiles, NoMemory};
use std::alloc::Global;
use std::process::Abort;
use std::test::Fail;
use workload_gen::make;

// The number of a program, what is written of its run, its exit code, and how many messages are tagged: one for each line, counter
// block and node that goes out. The first has two of blocks and one of a node, the others some 13,000 of blocks.
const PROGRAMS: [(&str, &[u8], u32, u64); 3] = [
    (
        "0",
        b"number 0\nhalted 3\nretired 561533\noutput 03000000\n",
        3,
        1283,
    ),
    (
        "1",
        b"number 1\nhalted 51\nretired 561533\noutput 333a2b37\n",
        51,
        33614,
    ),
    (
        "4294967295",
        b"number 4294967295\nhalted 214\nretired 561533\noutput d6518576\n",
        214,
        33551,
    ),
];

fn check_shown(rt: &impl Abort, shown: Shown<'_>, expected: Shown<'_>) {
    assert_eq!(rt; shown, expected);
}

fn check_ending(rt: &impl Abort, ending: Option<Ending>, code: u32) {
    assert_eq!(rt; ending, Some(Ending::Halted(code)));
}

fn made(done: &Done) -> Option<u64> {
    match &done.run {
        Some(run) => Some(run.made.len()),
        None => None,
    }
}

fn check_made(rt: &impl Abort, made: Option<u64>, expected: u64) {
    assert_eq!(rt; made, Some(expected));
}

// There was a bus, and it was told no lies.
fn check_bus(rt: &impl Abort, has_bus: bool, lies: u64) {
    assert!(rt; has_bus);
    assert_eq!(rt; lies, 0);
}

// A call is made and compared here, so that no test holds one: that makes the proof of a test cheap.
fn check_summary(
    rt: &impl Abort,
    alloc: Global,
    number: &str,
    text: &[u8],
    code: u32,
    messages: u64,
) -> Result<(), Fail> {
    let call = call_without_files(alloc, &["chip", "bench", number])?;
    check_shown(rt, call.shown(), shows(text, b"", 0));
    check_ending(rt, call.ending(), code);
    check_made(rt, made(&call.done), messages);
    check_bus(rt, call.done.bus.is_some(), call.done.lies);
    Ok(())
}

#[test]
fn generated_programs_are_summed_up(rt: HostRuntime) -> Result<(), Fail> {
    for &(number, text, code, messages) in &PROGRAMS {
        check_summary(&rt, rt.alloc(), number, text, code, messages)?;
    }
    Ok(())
}

type Report = Option<[u8; 159]>;

fn report(done: &Done) -> Report {
    match &done.run {
        Some(run) => run.report,
        None => None,
    }
}

// The file `f` is program 1.
fn generated_file(alloc: Global) -> Result<MemoryFiles, Fail> {
    let image = make(alloc, 1)?;
    let segment = image.segments.get(0).ok_or("no segment")?;
    Ok(file(alloc, segment.bytes.as_slice(), &[])?)
}

fn report_of(alloc: Global, words: &[&str], files: &mut MemoryFiles) -> Result<Report, NoMemory> {
    let call = make_call(alloc, words, files, &[], &[])?;
    Ok(report(&call.done))
}

// Of the program as it is generated, and of a run of the file.
fn two_reports(alloc: Global) -> Result<(Report, Report), Fail> {
    let mut files = generated_file(alloc)?;
    let benched = report_of(alloc, &["chip", "bench", "1"], &mut files)?;
    let run = report_of(alloc, &RUN, &mut files)?;
    Ok((benched, run))
}

// A run of the same bytes that names no option has the same report: the defaults of the two are the same.
#[test]
fn generated_programs_run_on_the_defaults(rt: HostRuntime) -> Result<(), Fail> {
    let (benched, run) = two_reports(rt.alloc())?;
    assert!(rt; run.is_some());
    assert_eq!(rt; benched, run);
    Ok(())
}

fn call_cut(alloc: Global) -> Result<Call, NoMemory> {
    let mut files = MemoryFiles::new(alloc, &[])?;
    make_call(alloc, &["chip", "bench", "0"], &mut files, &[2], &[1])
}

// Its second line can't be written; nothing is told of it.
#[test]
fn a_fault_of_out_cuts_the_summary(rt: HostRuntime) -> Result<(), Fail> {
    let call = call_cut(rt.alloc())?;
    check_shown(&rt, call.shown(), shows(b"number 0\n", b"", 9));
    check_ending(&rt, call.ending(), 3);
    Ok(())
}
