// Pages whose counter blocks share a set of two ways: one goes out for another, and comes back.
ghost use Rattle.std.specs.Prelude.{◌<◌};
ghost use Rattle.sec_base.specs.Geometry.{one};
ghost use Rattle.sec_base.specs.Place.{stored_size};

use fakes::CountingBus;
use page_cases::{Memory, SomeBytes, booted, once};
use sec_base::{Counter, Geometry, MemStop, Place};
use std::alloc::Global;
use std::test::Fail;

// The first lines of pages 1, 17 and 33.
const FIRST: u32 = 64;

const SECOND: u32 = 17 * 64;

const THIRD: u32 = 33 * 64;

// So many of these calls: a line is filled with a byte, or where that is 0 read.
fn call(memory: &mut Memory<SomeBytes>, count: usize) -> Result<(), MemStop> {
    let calls = [
        (FIRST, 1),
        (SECOND, 2),
        (THIRD, 0),
        (FIRST, 3),
        (FIRST, 0),
        (SECOND, 0),
    ];
    for (number, step) in calls.iter().enumerate() {
        let (line, byte) = *step;
        if number < count && byte == 0 {
            memory.read(line)?;
        }
        if number < count && byte > 0 {
            memory.fill(line, byte)?;
        }
    }
    Ok(())
}

fn three_levels(alloc: Global, place: Place, k: u64) -> Result<Memory<SomeBytes>, Fail>
    requires { 0 < stored_size (one 3) place }
{
    booted(alloc, SomeBytes, 3, u64::MAX, place, k, 0)
}

// Of the nodes above level 0 none goes out. Each write of a line is an access. For page 33, whose block was never made, the block
// of page 1 goes out, which was changed: it is written. The block of page 17 goes out for that of page 1 to come back, and has to
// be written; that of page 1 is read. That of page 33 was not changed, and goes out without an access for that of page 17, which is
// read.
#[test]
fn a_changed_counter_block_is_written_when_it_goes_out(rt: HostRuntime) -> Result<(), Fail> {
    let rows = [
        (0, 0, 0),
        (1, 1, 1),
        (2, 2, 2),
        (3, 3, 3),
        (4, 5, 6),
        (5, 5, 7),
        (6, 5, 9),
    ];
    for (count, made, accesses) in rows {
        let mut memory = three_levels(rt.alloc(), Place::Line(0), 0)?;
        assert_eq!(rt; call(&mut memory, count), Ok(()), "{count} calls");
        let (account, bus) = memory.finish();
        let counts = (account.made.len(), bus.asked());
        assert_eq!(rt; counts, (made, accesses), "{count} calls");
    }
    Ok(())
}

#[test]
fn what_comes_back_is_what_went_out(rt: HostRuntime) -> Result<(), Fail> {
    let mut memory = three_levels(rt.alloc(), Place::Line(0), 0)?;
    assert_eq!(rt; call(&mut memory, 6), Ok(()));
    assert_eq!(rt; memory.read(FIRST), Ok([3; 64]));
    assert_eq!(rt; memory.read(SECOND), Ok([2; 64]));
    assert_eq!(rt; memory.read(THIRD), Ok([0; 64]));
    assert_eq!(rt; memory.fill(SECOND, 4), Ok(()));
    let (account, _bus) = memory.finish();
    let wanted = [
        once(FIRST),
        once(SECOND),
        (FIRST, Counter { page: 0, line: 2 }),
        (SECOND, Counter { page: 0, line: 2 }),
    ];
    assert_eq!(rt; account.used.as_slice(), wanted.as_slice());
    Ok(())
}

// The counters of page 1 come back for the fourth call, and those of page 17 for the sixth, each by its first read. Those of page 33
// and the nodes above are never read.
#[test]
fn what_comes_back_is_checked_again(rt: HostRuntime) -> Result<(), Fail> {
    let rows = [
        (0, 1, 1, 3),
        (0, 1, 2, 6),
        (0, 17, 1, 5),
        (0, 33, 1, 6),
        (1, 0, 1, 6),
        (1, 4, 1, 6),
        (3, 0, 1, 6),
    ];
    for (level, index, k, answered) in rows {
        let place = Place::Node { level, index };
        for count in 0..=6usize {
            let mut memory = three_levels(rt.alloc(), place, k)?;
            let tampered = if count <= answered {
                Ok(())
            } else {
                Err(MemStop::Tampered(place))
            };
            assert_eq!(rt;
                call(&mut memory, count),
                tampered,
                "read {k} of {place}, {count} calls"
            );
        }
    }
    Ok(())
}

// The page's counters went out at the end of the line's counter, and come back for the write that encrypts the page.
#[test]
fn a_page_whose_counters_went_out_is_encrypted_anew(rt: HostRuntime) -> Result<(), Fail> {
    let mut memory = three_levels(rt.alloc(), Place::Line(0), 0)?;
    assert_eq!(rt; memory.fill(FIRST + 1, 9), Ok(()));
    assert_eq!(rt; memory.wear(FIRST, 127, 1), Ok(()));
    assert_eq!(rt; memory.read(SECOND), Ok([0; 64]));
    assert_eq!(rt; memory.read(THIRD), Ok([0; 64]));
    assert_eq!(rt; memory.fill(FIRST, 2), Ok(()));
    assert_eq!(rt; memory.read(SECOND), Ok([0; 64]));
    assert_eq!(rt; memory.read(THIRD), Ok([0; 64]));
    assert_eq!(rt; memory.read(FIRST), Ok([2; 64]));
    assert_eq!(rt; memory.read(FIRST + 1), Ok([9; 64]));
    let (account, _bus) = memory.finish();
    let counts = (account.used.len(), account.made.len());
    assert_eq!(rt; counts, (128 + 64, 128 + 64 + 2));
    for place in 0..64u32 {
        let entry = account.used.get(128 + u64::from(place));
        let anew = Counter { page: 1, line: 0 };
        assert_eq!(rt; entry, Some((FIRST + place, anew)), "place {place}");
    }
    Ok(())
}

// The fourth call writes the block of page 17, reads that of page 1, and writes the line. The messages of the block and of
// the line were made.
#[test]
fn a_block_that_cannot_go_out_stops_the_call(rt: HostRuntime) -> Result<(), Fail> {
    let geometry = Geometry::new(3).ok_or("no geometry")?;
    for (refused, used, made) in [(4, 2, 4), (5, 2, 4), (6, 3, 5)] {
        let bus = CountingBus::refusing(rt.alloc(), geometry, refused)?;
        let mut memory = Memory::over(rt.alloc(), bus, SomeBytes, geometry, u64::MAX)?;
        let stops = [
            call(&mut memory, 3),
            memory.fill(FIRST, 3),
            memory.read(FIRST).map(drop),
            memory.fill(SECOND, 5),
        ];
        let refusal = Err(MemStop::NoMemory);
        let wanted = [Ok(()), refusal, refusal, refusal];
        assert_eq!(rt; stops, wanted, "access {refused}");
        let (account, bus) = memory.finish();
        let counts = (account.used.len(), account.made.len(), bus.asked());
        assert_eq!(rt; counts, (used, made, refused), "access {refused}");
    }
    Ok(())
}
