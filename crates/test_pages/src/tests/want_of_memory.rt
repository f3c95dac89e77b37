// A bus that refuses one access.
use fakes::CountingBus;
use page_cases::{Memory, SomeBytes};
use sec_base::{Geometry, MemStop};
use std::alloc::Global;
use std::process::Abort;
use std::test::Fail;

// Line 5 was written so often before, and the counter block of its page went out for those of pages 16 and 32, which were never
// made: so many accesses, and one.
fn worn(
    rt: &impl Abort,
    alloc: Global,
    writes: u32,
    refused: u64,
) -> Result<Memory<SomeBytes>, Fail> {
    let geometry = Geometry::new(3).ok_or("no geometry")?;
    let bus = CountingBus::refusing(alloc, geometry, refused)?;
    let mut memory = Memory::over(alloc, bus, SomeBytes, geometry, u64::MAX)?;
    assert_eq!(rt; memory.wear(5, writes, 1), Ok(()), "access {refused}");
    assert_eq!(rt; memory.read(64 * 16), Ok([0; 64]), "access {refused}");
    assert_eq!(rt; memory.read(64 * 32), Ok([0; 64]), "access {refused}");
    Ok(memory)
}

// It reads the counter block and the line. All calls that follow are refused.
#[test]
fn a_read_that_is_refused_changes_nothing(rt: HostRuntime) -> Result<(), Fail> {
    for (writes, refused) in [(1, 3), (1, 4), (127, 129), (127, 130u64)] {
        let mut memory = worn(&rt, rt.alloc(), writes, refused)?;
        let stops = [
            memory.read(5).err(),
            memory.read(5).err(),
            memory.fill(5, 2).err(),
            memory.lines.stopped(),
        ];
        assert_eq!(rt; stops, [Some(MemStop::NoMemory); 4], "access {refused}");
        let (account, bus) = memory.finish();
        let counts = (account.used.len(), account.made.len(), bus.asked());
        let wanted = (u64::from(writes), u64::from(writes) + 1, refused);
        assert_eq!(rt; counts, wanted, "access {refused}");
    }
    Ok(())
}

// A write reads the counter block, and then writes lines: one, or at the end of its counter the 64 of the page. The message of a
// write that is refused was made.
#[test]
fn a_write_that_is_refused_was_done_in_part(rt: HostRuntime) -> Result<(), Fail> {
    for (writes, accesses) in [(1, 2u64), (127, 65)] {
        for at in 1..=accesses {
            let refused = u64::from(writes) + 1 + at;
            let mut memory = worn(&rt, rt.alloc(), writes, refused)?;
            let stops = [
                memory.fill(5, 2).err(),
                memory.fill(5, 2).err(),
                memory.read(5).err(),
                memory.lines.stopped(),
            ];
            assert_eq!(rt; stops, [Some(MemStop::NoMemory); 4], "access {refused}");
            let (account, bus) = memory.finish();
            let counts = (account.used.len(), account.made.len(), bus.asked());
            let made = u64::from(writes).saturating_add(at);
            assert_eq!(rt;
                counts,
                (made.saturating_sub(1), made, refused),
                "access {refused}"
            );
        }
    }
    Ok(())
}
