// What programs come to over a bus that tells the truth.
ghost use Rattle.std.specs.Prelude.{◌+◌, ◌≤◌, length};

use super::programs::{EXIT_7, EXIT_WITH_FIRST, EXIT_WITH_SECOND, PRINT_8, PRINT_A};
use super::{honest, outcome};
use sec_base::{Ending, MemorySink};
use std::alloc::Global;
use std::process::Abort;
use std::test::Fail;

// How many instructions were retired, and how it ended.
fn ended(
    alloc: Global,
    words: &[u32],
    second: (u32, &[u8]),
    third: (u32, &[u8]),
    budget: u64,
) -> Result<(u64, Ending), Fail>
    requires words { length words.now ≤ 16 }
    requires second { second.0 + 8 ≤ 16384 }
    requires second_bytes { length second.1.now ≤ 8 }
    requires third { third.0 + 4 ≤ 16384 }
    requires third_bytes { length third.1.now ≤ 4 }
{
    let mut out = MemorySink::new(alloc, &[])?;
    let done = outcome(alloc, words, second, third, budget, &mut out)?;
    Ok((done.retired, done.ending))
}

#[test]
fn the_budget_ends_a_run(rt: HostRuntime) -> Result<(), Fail> {
    let rows = [
        (0, 0, Ending::OutOfSteps),
        (2, 2, Ending::OutOfSteps),
        (3, 3, Ending::Halted(7)),
        (4, 3, Ending::Halted(7)),
    ];
    for (budget, retired, ending) in rows {
        let end = ended(rt.alloc(), &EXIT_7, (4096, &[]), (4096, &[]), budget)?;
        assert_eq!(rt; end, (retired, ending), "budget {budget}");
    }
    Ok(())
}

#[test]
fn later_segments_lie_over_earlier_ones(rt: HostRuntime) -> Result<(), Fail> {
    let alloc = rt.alloc();
    let whole = [1, 2, 3, 4, 5, 0, 0, 0];
    let (_, ending) = ended(alloc, &EXIT_WITH_FIRST, (4096, &whole), (4096, &[65]), 9)?;
    assert_eq!(rt; ending, Ending::Halted(65));
    let (_, ending) = ended(alloc, &EXIT_WITH_SECOND, (4096, &whole), (4096, &[65]), 9)?;
    assert_eq!(rt; ending, Ending::Halted(5));
    let (_, ending) = ended(alloc, &EXIT_WITH_FIRST, (4096, &[65]), (4097, &[]), 9)?;
    assert_eq!(rt; ending, Ending::Halted(65));
    Ok(())
}

// How it ends where the writes with these numbers fail, and that this is printed.
fn prints(
    rt: &impl Abort,
    alloc: Global,
    fails: &[u64],
    printed: &[u8],
) -> Result<(u64, Ending), Fail> {
    let mut out = MemorySink::new(alloc, fails)?;
    let done = outcome(
        alloc,
        &PRINT_8,
        (0x0ffc, b"ABCDEFGH"),
        (0x2000, &[]),
        99,
        &mut out,
    )?;
    assert_eq!(rt; out.bytes(), printed);
    Ok((done.retired, done.ending))
}

// A piece ends at a multiple of 64, and a write that fails ends the run.
#[test]
fn a_program_prints_in_pieces(rt: HostRuntime) -> Result<(), Fail> {
    let rows: [(&[u64], &[u8], Ending, u64); 3] = [
        (&[], b"ABCDEFGH", Ending::Halted(8), 8),
        (&[1], b"", Ending::WriteFault, 5),
        (&[2], b"ABCD", Ending::WriteFault, 5),
    ];
    for (fails, printed, ending, retired) in rows {
        let end = prints(&rt, rt.alloc(), fails, printed)?;
        assert_eq!(rt; end, (retired, ending));
    }
    Ok(())
}

#[test]
fn a_program_prints_over_an_honest_bus(rt: HostRuntime) -> Result<(), Fail> {
    let mut out = MemorySink::new(rt.alloc(), &[])?;
    let (done, _) = honest(rt.alloc(), &PRINT_A, u64::MAX, &mut out)?;
    assert_eq!(rt; out.bytes(), b"A".as_slice());
    assert_eq!(rt; (done.ending, done.retired), (Ending::Halted(1), 10));
    Ok(())
}
