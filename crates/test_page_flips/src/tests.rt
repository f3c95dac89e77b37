// A bit that is flipped at one read of one place.
ghost use Rattle.std.specs.Prelude.{◌<◌};
ghost use Rattle.sec_base.specs.Geometry.{one};
ghost use Rattle.sec_base.specs.Place.{stored_size};

use page_cases::{Memory, NodesAlike, SomeBytes, booted, flipped};
use sec_base::{Evidence, MemStop, Place};
use std::alloc::Global;
use std::process::Abort;
use std::test::Fail;

// Lines 3 and 9 were written once and line 5 up to the end of its counter: two and 127 entries, before the page is
// encrypted.
fn before_an_overflow(alloc: Global, line: u32, offset: u8) -> Result<Memory<SomeBytes>, Fail>
    requires { offset < 80 }
{
    let mut memory = flipped(alloc, u64::MAX, line, 1, offset)?;
    memory.fill(3, 30).ok().ok_or("line 3 is refused")?;
    memory.fill(9, 90).ok().ok_or("line 9 is refused")?;
    memory.wear(5, 127, 1).ok().ok_or("line 5 is refused")?;
    Ok(memory)
}

// The lines before the one that fails its check were encrypted. The place of a line that was never written is read in
// the second overflow.
#[test]
fn a_bit_flipped_in_an_overflow_ends_it(rt: HostRuntime) -> Result<(), Fail> {
    let rows = [
        ("before the written place", 3, 0, 129 + 3),
        ("behind the written place", 9, 0, 129 + 9),
        ("in the tag", 9, 79, 129 + 9),
        ("in a line that was never written", 7, 0, 129 + 64 + 127 + 7),
    ];
    for (case, line, offset, entries) in rows {
        let mut memory = before_an_overflow(rt.alloc(), line, offset)?;
        let tampered = MemStop::Tampered(Place::Line(line));
        assert_eq!(rt; memory.wear(5, 129, 2), Err(tampered), "{case}");
        assert_eq!(rt; memory.lines.stopped(), Some(tampered), "{case}");
        assert_eq!(rt; memory.fill(5, 3), Err(tampered), "{case}");
        assert_eq!(rt; memory.fill(64, 3), Err(tampered), "{case}");
        assert_eq!(rt; memory.read(line), Err(tampered), "{case}");
        assert_eq!(rt; memory.read(200), Err(tampered), "{case}");
        let (account, bus) = memory.finish();
        assert_eq!(rt; account.used.len(), entries, "{case}");
        assert_eq!(rt; account.made.len(), entries, "{case}");
        assert_eq!(rt; account.evidence, None, "{case}");
        assert_eq!(rt; bus.lies(), 1, "{case}");
    }
    Ok(())
}

// The overflow reads the written line no more, and no line that was never written. What passes is encrypted as it was
// decrypted.
#[test]
fn a_flipped_bit_may_be_met_later_or_pass(rt: HostRuntime) -> Result<(), Fail> {
    let mut passed = [90; 64];
    passed[2] = 91;
    let rows = [
        ("the written line", 5, 0, [90; 64], 0),
        ("a line that was never written", 7, 0, [90; 64], 0),
        ("a byte that the tag leaves out", 9, 2, passed, 1),
    ];
    for (case, line, offset, held, lies) in rows {
        let mut memory = before_an_overflow(rt.alloc(), line, offset)?;
        assert_eq!(rt; memory.fill(5, 2), Ok(()), "{case}");
        assert_eq!(rt; memory.read(9), Ok(held), "{case}");
        assert_eq!(rt; memory.lines.stopped(), None, "{case}");
        let (account, bus) = memory.finish();
        assert_eq!(rt; account.used.len(), 129 + 64, "{case}");
        assert_eq!(rt; account.evidence.is_some(), lies == 1, "{case}");
        assert_eq!(rt; bus.lies(), lies, "{case}");
    }
    Ok(())
}

#[test]
fn a_flipped_bit_is_tampering_that_stays_or_evidence(rt: HostRuntime) -> Result<(), Fail> {
    let tampered = Err(MemStop::Tampered(Place::Line(64)));
    let mut left_out = [6; 64];
    left_out[2] = 7;
    let mut always_set = [6; 64];
    always_set[1] = 7;
    let rows = [
        ("the first byte", 0, tampered, tampered, false),
        (
            "one that the tag leaves out",
            2,
            Ok(left_out),
            Ok([6; 64]),
            true,
        ),
        (
            "a bit that every tag has set",
            1,
            Ok(always_set),
            Ok([6; 64]),
            true,
        ),
        ("the last of the tag", 79, tampered, tampered, false),
    ];
    for (case, offset, first, second, shown) in rows {
        let mut memory = flipped(rt.alloc(), u64::MAX, 64, 1, offset)?;
        assert_eq!(rt; memory.read(64), Ok([0; 64]), "{case}");
        assert_eq!(rt; memory.fill(64, 6), Ok(()), "{case}");
        assert_eq!(rt; memory.read(64), first, "{case}");
        assert_eq!(rt; memory.read(64), second, "{case}");
        assert_eq!(rt; memory.lines.stopped(), first.err(), "{case}");
        let (account, bus) = memory.finish();
        assert_eq!(rt; account.evidence.is_some(), shown, "{case}");
        assert_eq!(rt; bus.lies(), 1, "{case}");
    }
    Ok(())
}

// Line 69, at place 5 of page 1, was written once. Then lines of pages 33, 65 and 97 are read, which were never written: the
// counter block of page 1 goes out for them, and node (1, 0).
fn before_a_false_node(alloc: Global, place: Place) -> Result<Memory<SomeBytes>, Fail>
    requires { 0 < stored_size (one 4) place }
{
    let mut memory = booted(alloc, SomeBytes, 4, u64::MAX, place, 1, 0)?;
    memory.fill(69, 1).ok().ok_or("line 69 is refused")?;
    for line in [64 * 33, 64 * 65, 64 * 97] {
        memory.read(line).ok().ok_or("a line is refused")?;
    }
    Ok(memory)
}

// A read and a write read the node and the counter block once.
fn stays_tampered(
    rt: &impl Abort,
    alloc: Global,
    place: Place,
    in_a_write: bool,
) -> Result<(), Fail>
    requires { 0 < stored_size (one 4) place }
{
    let mut memory = before_a_false_node(alloc, place)?;
    let first = if in_a_write {
        memory.fill(69, 1).err()
    } else {
        memory.read(69).err()
    };
    let stops = [
        first,
        memory.lines.stopped(),
        memory.read(69).err(),
        memory.read(200).err(),
        memory.fill(200, 2).err(),
    ];
    let tampered = Some(MemStop::Tampered(place));
    assert_eq!(rt; stops, [tampered; 5], "{place}, in a write {in_a_write}");
    let (account, bus) = memory.finish();
    let counts = (account.used.len(), account.made.len(), bus.lies());
    assert_eq!(rt; counts, (1, 3, 1), "{place}, in a write {in_a_write}");
    assert_eq!(rt; account.evidence, None, "{place}, in a write {in_a_write}");
    Ok(())
}

#[test]
fn a_flipped_node_is_tampering_that_stays(rt: HostRuntime) -> Result<(), Fail> {
    for (level, index) in [(0, 1), (1, 0)] {
        let place = Place::Node { level, index };
        stays_tampered(&rt, rt.alloc(), place, false)?;
        stays_tampered(&rt, rt.alloc(), place, true)?;
    }
    Ok(())
}

// The counter block of page 1 where the line at its place 8 was written once, and another bit is set or that one is not.
fn off_by_a_bit(offset: u8) -> [u8; 64]
    requires { offset < 64 }
{
    let mut block = [0; 64];
    block[15] = 1;
    block[offset as usize] ^= 1;
    block
}

// The block went out for those of pages 17 and 33. The counters are used as they were answered: where the page counter reads 1,
// the line was written under another counter, and where its own reads 0, it counts as never written.
#[test]
fn a_flipped_counter_block_that_passes_is_a_collision(rt: HostRuntime) -> Result<(), Fail> {
    let tampered = Err(MemStop::Tampered(Place::Line(72)));
    let rows = [
        ("the page counter", 0, tampered),
        ("the counter of place 0", 8, Ok([3; 64])),
        ("the counter of the line", 15, Ok([0; 64])),
    ];
    for (case, offset, wanted) in rows {
        let place = Place::Node { level: 0, index: 1 };
        let accepted = off_by_a_bit(offset);
        let mut memory = booted(rt.alloc(), NodesAlike, 3, u64::MAX, place, 1, offset)?;
        assert_eq!(rt; memory.fill(72, 3), Ok(()), "{case}");
        assert_eq!(rt; memory.read(64 * 17), Ok([0; 64]), "{case}");
        assert_eq!(rt; memory.read(64 * 33), Ok([0; 64]), "{case}");
        assert_eq!(rt; memory.read(72), wanted, "{case}");
        let (account, bus) = memory.finish();
        let collision = Evidence::Collision {
            level: 0,
            index: 1,
            made_at: 1,
            accepted,
            tag: [0, 0, 0, 0, 0, 0, 0, 0, 0, 0, 0, 0, 0, 0, 0, 1],
        };
        assert_eq!(rt; account.evidence, Some(collision), "{case}");
        assert_eq!(rt; (account.made.len(), bus.lies()), (2, 1), "{case}");
    }
    Ok(())
}

// Lines of pages 6, 38 and 70 of a memory of four levels: their counter blocks are in one set of two ways, and so are the nodes
// above them, (1, 1), (1, 9) and (1, 17).
const FIRST: u32 = 64 * 6 + 5;

const SECOND: u32 = 64 * 38 + 4;

const THIRD: u32 = 64 * 70 + 3;

// What stops each of these calls.
fn calls(rt: &impl Abort, memory: &mut Memory<SomeBytes>) -> [Option<MemStop>; 8] {
    [
        read_stop(rt, memory, FIRST, 0),
        memory.fill(FIRST, 1).err(),
        memory.fill(SECOND, 2).err(),
        memory.fill(THIRD, 3).err(),
        read_stop(rt, memory, FIRST, 1),
        read_stop(rt, memory, SECOND, 2),
        read_stop(rt, memory, FIRST, 1),
        read_stop(rt, memory, THIRD, 3),
    ]
}

// What stops a read of a line that is the byte 64 times.
fn read_stop(
    rt: &impl Abort,
    memory: &mut Memory<SomeBytes>,
    line: u32,
    byte: u8,
) -> Option<MemStop> {
    match memory.read(line) {
        Ok(bytes) => {
            assert_eq!(rt; bytes, [byte; 64], "line {line}");
            None
        }
        Err(stop) => Some(stop),
    }
}

// So many calls are answered. All others are tampering of the place, whose answer was false.
fn assert_answered(rt: &impl Abort, memory: Memory<SomeBytes>, place: Place, answered: usize) {
    let mut memory = memory;
    let tampered = Some(MemStop::Tampered(place));
    for (call, stop) in calls(rt, &mut memory).iter().enumerate() {
        let wanted = if call < answered { None } else { tampered };
        assert_eq!(rt; *stop, wanted, "{place}, {answered} answered, call {call}");
    }
    let (account, bus) = memory.finish();
    let shown = (account.evidence.is_some(), bus.lies() == 1);
    assert_eq!(rt;
        shown,
        (false, answered < 8),
        "{place}, {answered} answered"
    );
}

// Each line with the number of calls before its first read and before its second: all 8 where it is never read.
#[test]
fn each_line_is_checked_at_each_read_or_never_read(rt: HostRuntime) -> Result<(), Fail> {
    let rows = [
        (FIRST, 4, 6),
        (SECOND, 5, 8),
        (THIRD, 7, 8),
        (FIRST + 1, 8, 8),
        (0, 8, 8),
    ];
    for (line, first, second) in rows {
        for (k, answered) in [(1, first), (2, second)] {
            let place = Place::Line(line);
            let memory = booted(rt.alloc(), SomeBytes, 4, u64::MAX, place, k, 0)?;
            assert_answered(&rt, memory, place, answered);
        }
    }
    Ok(())
}

// The like of nodes. One is read once, as it comes back, where it was made: node (1, 17) has its copy to the end.
#[test]
fn each_node_is_checked_as_it_comes_back_or_never_read(rt: HostRuntime) -> Result<(), Fail> {
    let rows = [
        (0, 6, 4),
        (0, 38, 5),
        (0, 70, 7),
        (0, 102, 8),
        (1, 1, 4),
        (1, 9, 5),
        (1, 17, 8),
        (1, 0, 8),
        (2, 0, 8),
        (4, 0, 8),
    ];
    for (level, index, first) in rows {
        for (k, answered) in [(1, first), (2, 8)] {
            let place = Place::Node { level, index };
            let memory = booted(rt.alloc(), SomeBytes, 4, u64::MAX, place, k, 0)?;
            assert_answered(&rt, memory, place, answered);
        }
    }
    Ok(())
}
