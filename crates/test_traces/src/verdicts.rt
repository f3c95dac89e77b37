// What a judge says of traces. The verdicts follow from the words on them alone, by a model in another language.
use bus_trace::{Difference, Entries, Entry, Trace, Verdict, judge};
use elf_load::flat;
use sec_base::{Bytes, Sealed};
use std::alloc::Global;
use std::process::Abort;
use std::test::Fail;

// The memory of a tree of one level.
const SIZE: u32 = 16_384;

const BUDGET: u64 = 10_000_000;

// Exits with code 7, as its third instruction.
const EXIT_7: [u32; 3] = [0x0070_0513, 0x05d0_0893, 0x0000_0073];

// Prints `A` as its 17th instruction, and exits with code 65 as its 20th.
const PRINT_A: [u32; 20] = [
    0x1400_0293,
    0x0000_1337,
    0x0053_0333,
    0x0000_23b7,
    0x0053_83b3,
    0x0410_0e13,
    0x01c2_8023,
    0x05c2_8023,
    0x01c3_0023,
    0x05c3_0023,
    0x01c3_8023,
    0x05c3_8023,
    0x0010_0513,
    0x0003_8593,
    0x0010_0613,
    0x0400_0893,
    0x0000_0073,
    0x0002_c503,
    0x05d0_0893,
    0x0000_0073,
];

// What a trace tells of the end of its run.
#[derive(Clone, Copy)]
struct Told {
    output: &'static [u8],
    ending: u8,
    code: u32,
    retired: u64,
}

// A run that printed nothing.
fn silent(ending: u8, code: u32, retired: u64) -> Told {
    Told {
        output: b"",
        ending,
        code,
        retired,
    }
}

fn printed(output: &'static [u8], ending: u8, code: u32, retired: u64) -> Told {
    Told {
        output,
        ending,
        code,
        retired,
    }
}

// The verdict on a trace of this program is this one.
fn expect_verdict(
    rt: &impl Abort,
    alloc: Global,
    words: &[u32],
    budget: u64,
    told: Told,
    entries: &[Entry],
    verdict: Verdict,
) -> Result<(), Fail> {
    let mut code = Vec::new(alloc);
    for word in words {
        code.extend_from_slice(&word.to_le_bytes())?;
    }
    let image = flat(alloc, &code, SIZE)?;
    let trace = Trace {
        output: Bytes::from_slice(alloc, told.output)?,
        ending: told.ending,
        code: told.code,
        retired: told.retired,
        entries: Entries::from_vec(Vec::from_slice(alloc, entries)?),
    };
    assert_eq!(rt; judge(alloc, &image, &[], budget, &trace), verdict);
    Ok(())
}

// The bytes of a line's place, of which the first one may not be zero.
fn sealed(first: u8) -> Sealed {
    let mut cipher = [0; 64];
    cipher[0] = first;
    Sealed {
        cipher,
        tag: [0; 16],
    }
}

fn read(line: u32, first: u8) -> Entry {
    Entry::ReadLine {
        line,
        sealed: sealed(first),
    }
}

fn write(line: u32, first: u8) -> Entry {
    Entry::WriteLine {
        line,
        sealed: sealed(first),
    }
}

fn read_node(first: u8) -> Entry {
    let mut block = [0; 64];
    block[0] = first;
    Entry::ReadNode {
        level: 0,
        index: 1,
        block,
    }
}

fn write_node(first: u8) -> Entry {
    let mut block = [0; 64];
    block[0] = first;
    Entry::WriteNode {
        level: 0,
        index: 1,
        block,
    }
}

const RETIRED: Verdict = Verdict::No(Difference::Retired);

const OUTPUT: Verdict = Verdict::No(Difference::Output);

const ENDING: Verdict = Verdict::No(Difference::Ending);

fn lie(number: u64) -> Verdict {
    Verdict::No(Difference::Lie(number))
}

#[test]
fn the_end_of_a_run(rt: HostRuntime) -> Result<(), Fail> {
    let alloc = rt.alloc();
    let cases = [
        (BUDGET, silent(0, 7, 3), Verdict::Follows),
        (3, silent(0, 7, 3), Verdict::Follows),
        (BUDGET, silent(0, 8, 3), ENDING),
        (BUDGET, silent(0, 7, 2), ENDING),
        (BUDGET, silent(0, 7, 4), RETIRED),
        (BUDGET, silent(0, 7, u64::MAX), RETIRED),
        (2, silent(0, 7, 3), RETIRED),
        (BUDGET, printed(b"a", 0, 7, 3), OUTPUT),
        (BUDGET, printed(b"a", 0, 8, 3), OUTPUT),
        (BUDGET, printed(b"a", 0, 7, 4), RETIRED),
        (BUDGET, silent(1, 1, 2), ENDING),
        (2, silent(4, 0, 2), Verdict::Follows),
        (2, silent(4, 1, 2), ENDING),
        (2, silent(6, 0, 2), Verdict::Follows),
        (3, silent(4, 0, 2), ENDING),
        (3, silent(4, 0, 3), ENDING),
        (BUDGET, silent(6, 0, 2), Verdict::Follows),
        (BUDGET, silent(6, 1, 2), ENDING),
        (BUDGET, silent(6, 0, 3), ENDING),
        (BUDGET, silent(5, 0, 2), ENDING),
        (BUDGET, silent(2, 7, 3), ENDING),
        (BUDGET, silent(255, 7, 3), ENDING),
    ];
    for (budget, told, verdict) in cases {
        expect_verdict(&rt, alloc, &EXIT_7, budget, told, &[], verdict)?;
    }
    Ok(())
}

// An empty memory traps as illegal at once.
#[test]
fn a_trap(rt: HostRuntime) -> Result<(), Fail> {
    let alloc = rt.alloc();
    let cases = [
        (BUDGET, silent(1, 1, 0), Verdict::Follows),
        (1, silent(1, 1, 0), Verdict::Follows),
        (BUDGET, silent(1, 4, 0), ENDING),
        (BUDGET, silent(0, 1, 0), ENDING),
        (0, silent(1, 1, 0), ENDING),
        (0, silent(4, 0, 0), Verdict::Follows),
        (BUDGET, silent(1, 1, 1), RETIRED),
        (u64::MAX, silent(4, 0, u64::MAX), RETIRED),
    ];
    for (budget, told, verdict) in cases {
        expect_verdict(&rt, alloc, &[], budget, told, &[], verdict)?;
    }
    Ok(())
}

#[test]
fn what_a_run_printed(rt: HostRuntime) -> Result<(), Fail> {
    let alloc = rt.alloc();
    let cases = [
        (printed(b"A", 0, 65, 20), Verdict::Follows),
        (silent(0, 65, 20), OUTPUT),
        (printed(b"B", 0, 65, 20), OUTPUT),
        (printed(b"AA", 0, 65, 20), OUTPUT),
        (printed(b"B", 0, 65, 21), RETIRED),
        (printed(b"A", 6, 0, 17), Verdict::Follows),
        (printed(b"A", 6, 0, 16), Verdict::Follows),
        (silent(6, 0, 16), Verdict::Follows),
        (printed(b"B", 6, 0, 16), OUTPUT),
        (printed(b"AA", 6, 0, 16), OUTPUT),
        (printed(b"A", 6, 0, 15), OUTPUT),
        (silent(6, 0, 17), OUTPUT),
        (printed(b"A", 1, 1, 16), OUTPUT),
        (silent(1, 1, 16), ENDING),
    ];
    for (told, verdict) in cases {
        expect_verdict(&rt, alloc, &PRINT_A, BUDGET, told, &[], verdict)?;
    }
    Ok(())
}

// The bytes 13 and 05 are printed by one instruction, the 5th, and an illegal one follows.
#[test]
fn a_part_of_what_an_instruction_prints(rt: HostRuntime) -> Result<(), Fail> {
    let alloc = rt.alloc();
    let words = [
        0x0010_0513,
        0x0000_0593,
        0x0020_0613,
        0x0400_0893,
        0x0000_0073,
    ];
    let cases = [
        (printed(b"\x13", 6, 0, 4), Verdict::Follows),
        (printed(b"\x13\x05", 6, 0, 4), Verdict::Follows),
        (printed(b"\x13\x05\x10", 6, 0, 4), OUTPUT),
        (printed(b"\x13\x05", 1, 1, 5), Verdict::Follows),
        (printed(b"\x13", 1, 1, 5), OUTPUT),
        (printed(b"\x13", 6, 0, 5), OUTPUT),
    ];
    for (told, verdict) in cases {
        expect_verdict(&rt, alloc, &words, BUDGET, told, &[], verdict)?;
    }
    Ok(())
}

// `ebreak` is the second instruction.
#[test]
fn a_breakpoint(rt: HostRuntime) -> Result<(), Fail> {
    let alloc = rt.alloc();
    let words = [0x0070_0513, 0x0010_0073];
    let cases = [
        (silent(1, 5, 1), Verdict::Follows),
        (silent(1, 1, 1), ENDING),
    ];
    for (told, verdict) in cases {
        expect_verdict(&rt, alloc, &words, BUDGET, told, &[], verdict)?;
    }
    Ok(())
}

// The verdict on a trace of a run that halted with code 7, or of one that told another end.
fn expect_of_entries(
    rt: &impl Abort,
    alloc: Global,
    entries: &[Entry],
    verdict: Verdict,
) -> Result<(), Fail> {
    expect_verdict(
        rt,
        alloc,
        &EXIT_7,
        BUDGET,
        silent(0, 7, 3),
        entries,
        verdict,
    )
}

fn expect_of_end(
    rt: &impl Abort,
    alloc: Global,
    told: Told,
    entries: &[Entry],
    verdict: Verdict,
) -> Result<(), Fail> {
    expect_verdict(rt, alloc, &EXIT_7, BUDGET, told, entries, verdict)
}

#[test]
fn entries_that_are_true_or_false(rt: HostRuntime) -> Result<(), Fail> {
    let rt = &rt;
    let alloc = rt.alloc();
    expect_of_entries(rt, alloc, &[read(0, 0)], Verdict::Follows)?;
    expect_of_entries(rt, alloc, &[read(0, 1)], lie(1))?;
    expect_of_entries(rt, alloc, &[write(0, 1), read(0, 1)], Verdict::Follows)?;
    expect_of_entries(rt, alloc, &[read(0, 1), write(0, 1)], lie(1))?;
    expect_of_entries(rt, alloc, &[write(0, 1), read(0, 0)], lie(2))?;
    expect_of_entries(rt, alloc, &[read_node(0), write(0, 1), read(0, 0)], lie(3))?;
    expect_of_entries(rt, alloc, &[write(0, 1), write(0, 2), read(0, 1)], lie(3))?;
    expect_of_entries(
        rt,
        alloc,
        &[write(0, 1), write(0, 0), read(0, 0)],
        Verdict::Follows,
    )?;
    expect_of_entries(
        rt,
        alloc,
        &[write(0, 1), read(1, 0), read(0, 1)],
        Verdict::Follows,
    )?;
    expect_of_entries(
        rt,
        alloc,
        &[write_node(1), read(1, 0), read_node(1)],
        Verdict::Follows,
    )?;
    expect_of_entries(rt, alloc, &[write(1, 1), read_node(1)], lie(2))?;
    expect_of_entries(rt, alloc, &[read(0, 1), read_node(1)], lie(1))
}

// The last entry alone may be false, where the run ended as tampered.
#[test]
fn a_run_that_ended_as_tampered(rt: HostRuntime) -> Result<(), Fail> {
    let rt = &rt;
    let alloc = rt.alloc();
    expect_of_end(rt, alloc, silent(5, 0, 2), &[read(0, 1)], Verdict::Follows)?;
    expect_of_end(
        rt,
        alloc,
        silent(5, 0, 2),
        &[write(0, 1), read(0, 0)],
        Verdict::Follows,
    )?;
    expect_of_end(
        rt,
        alloc,
        silent(5, 0, 2),
        &[read(0, 1), read(0, 0)],
        lie(1),
    )?;
    expect_of_end(rt, alloc, silent(5, 0, 2), &[read(0, 0)], ENDING)?;
    expect_of_end(rt, alloc, silent(5, 1, 2), &[read(0, 1)], ENDING)?;
    expect_of_end(rt, alloc, silent(5, 0, 3), &[read(0, 1)], ENDING)?;
    expect_of_end(rt, alloc, silent(5, 0, 4), &[read(0, 1)], RETIRED)?;
    expect_of_end(rt, alloc, printed(b"a", 5, 0, 2), &[read(0, 1)], OUTPUT)?;
    expect_of_end(rt, alloc, silent(6, 0, 2), &[read(0, 1)], lie(1))?;
    expect_of_end(rt, alloc, silent(4, 0, 4), &[read(0, 1)], lie(1))
}
