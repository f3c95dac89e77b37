// Calls on two programs, and what they show.
use crate::sides::{Program, Side};
use chip_cases::{ASM, Call, Shown, call_file, make_call, shows};
use sec_base::{MemoryFiles, NoMemory};
use std::alloc::{AllocError, Global};
use std::fmt::Debug;
use std::process::Abort;

/// Runs the programs `a` and `b`.
pub(crate) const PAIR: [&str; 4] = ["chip", "pair", "a", "b"];

/// The same in the order `o` by the scripts `s` and `t`.
pub(crate) const PAIR_BY_ALL: [&str; 10] = [
    "chip",
    "pair",
    "a",
    "b",
    "--order",
    "o",
    "--script",
    "s",
    "--script2",
    "t",
];

/// Words, and options behind them.
pub(crate) fn with_options(
    alloc: Global,
    words: &[&'static str],
    options: &[&'static str],
) -> Result<Vec<&'static str>, NoMemory> {
    let mut all = Vec::from_slice(alloc, words)?;
    all.extend_from_slice(options)?;
    Ok(all)
}

// The ELF file of an assembly text.
fn elf_file(alloc: Global, text: &[u8]) -> Result<Vec<u8>, NoMemory> {
    let call = call_file(alloc, &ASM, text)?;
    Ok(Vec::from_slice(alloc, call.out.bytes())?)
}

/// The programs `a` and `b`, the order `o`, and the programs' scripts `s` and `t`.
pub(crate) fn pair_files(
    alloc: Global,
    first: Program<'_>,
    second: Program<'_>,
    order: &[u8],
) -> Result<MemoryFiles, NoMemory> {
    let a = elf_file(alloc, first.text)?;
    let b = elf_file(alloc, second.text)?;
    let mut files = MemoryFiles::new(alloc, &[])?;
    files.add("a", a.as_slice())?;
    files.add("b", b.as_slice())?;
    files.add("o", order)?;
    files.add("s", first.script)?;
    files.add("t", second.script)?;
    Ok(files)
}

/// Two programs run, with these options.
pub(crate) fn call_pair(
    alloc: Global,
    options: &[&'static str],
    first: Side,
    second: Side,
    order: &[u8],
) -> Result<Call, NoMemory> {
    let words = with_options(alloc, &PAIR, options)?;
    let mut files = pair_files(alloc, first.program(), second.program(), order)?;
    make_call(alloc, words.as_slice(), &mut files, &[], &[])
}

/// What both print.
pub(crate) fn both_printed(
    alloc: Global,
    first: &[u8],
    second: &[u8],
) -> Result<Vec<u8>, AllocError> {
    let mut printed = first.to_vec(alloc)?;
    printed.extend_from_slice(second)?;
    Ok(printed)
}

/// What is told of both.
pub(crate) fn both_told(alloc: Global, first: &[u8], second: &[u8]) -> Result<Vec<u8>, AllocError> {
    let mut told = first.to_vec(alloc)?;
    told.extend_from_slice(b"second\n")?;
    told.extend_from_slice(second)?;
    Ok(told)
}

/// What is told of these two.
pub(crate) fn told_of(alloc: Global, first: Side, second: Side) -> Result<Vec<u8>, AllocError> {
    let (first, second) = (first.outcome(), second.outcome());
    both_told(alloc, first.told_first, second.told_second)
}

/// What a call shows, with the lines of reports. A call is dropped here alone, which makes the proof of a test cheap.
pub(crate) fn check_call<R>(
    rt: &impl Abort,
    call: Result<Call, NoMemory>,
    expected: Shown<'_>,
    row: &R,
) -> Result<(), NoMemory>
where
    R: Debug,
{
    let call = call?;
    let shown = shows(call.out.bytes(), call.note.bytes(), call.done.status);
    assert_eq!(rt; shown, expected, "{row:?}");
    Ok(())
}

/// Each program comes to what its side says.
pub(crate) fn check_both<R>(
    rt: &impl Abort,
    alloc: Global,
    call: Result<Call, NoMemory>,
    sides: (Side, Side),
    status: u8,
    row: &R,
) -> Result<(), NoMemory>
where
    R: Debug,
{
    let (first, second) = sides;
    let printed = both_printed(alloc, first.outcome().printed, second.outcome().printed)?;
    let told = told_of(alloc, first, second)?;
    let expected = shows(printed.as_slice(), told.as_slice(), status);
    check_call(rt, call, expected, row)
}
