// How many accesses calls make.
use page_cases::{Memory, SomeBytes, booted};
use sec_base::Place;
use std::alloc::Global;
use std::process::Abort;
use std::test::Fail;

// How many messages were made and how many accesses there were, from boot on to so many writes and then reads of line 5.
fn made_and_accesses(
    rt: &impl Abort,
    alloc: Global,
    levels: u8,
    writes: u32,
    reads: u32,
) -> Result<(u64, u64), Fail> {
    let mut memory = booted(alloc, SomeBytes, levels, u64::MAX, Place::Line(0), 0, 0)?;
    assert_eq!(rt; memory.wear(5, writes, 1), Ok(()));
    for _ in 0..reads {
        assert!(rt; memory.read(5).is_ok());
    }
    let (account, bus) = memory.finish();
    Ok((account.made.len(), bus.asked()))
}

// Boot makes no access, nor does a call that needs a path that was never made: at each level the path of one page stays on the
// chip. A line is read by one access, unless it was never written, and written by one, with one message.
#[test]
fn accesses_are_those_of_lines_that_were_written(rt: HostRuntime) -> Result<(), Fail> {
    let rows = [
        (1, 0, 0, 0, 0),
        (1, 0, 2, 0, 0),
        (1, 1, 0, 1, 1),
        (1, 1, 1, 1, 2),
        (1, 2, 2, 2, 4),
        (2, 0, 2, 0, 0),
        (2, 1, 1, 1, 2),
        (4, 0, 0, 0, 0),
        (4, 0, 2, 0, 0),
        (4, 1, 0, 1, 1),
        (4, 2, 2, 2, 4),
    ];
    for (levels, writes, reads, made, accesses) in rows {
        assert_eq!(rt;
            made_and_accesses(&rt, rt.alloc(), levels, writes, reads)?,
            (made, accesses),
            "levels {levels}, writes {writes}, reads {reads}"
        );
    }
    Ok(())
}

// The first overflow of a page where no other line was written writes 64 lines. The second reads the 63 others too.
#[test]
fn an_overflow_reads_a_line_once_at_most(rt: HostRuntime) -> Result<(), Fail> {
    let rows = [
        (127, 127, 127),
        (128, 127 + 64, 127 + 64),
        (256, 254 + 2 * 64, 254 + 64 + 127),
    ];
    for (writes, made, accesses) in rows {
        assert_eq!(rt;
            made_and_accesses(&rt, rt.alloc(), 1, writes, 0)?,
            (made, accesses),
            "writes {writes}"
        );
    }
    Ok(())
}
