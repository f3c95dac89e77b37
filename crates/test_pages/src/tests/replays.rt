// What stood there before the last write is answered again.
ghost use Rattle.std.specs.Prelude.{◌<◌, ◌≤◌};

use super::layout_two::FewBytes;
use fakes::{Replay, ReplayBus};
use page_cases::SomeBytes;
use page_reencrypt::SealedLines;
use sec_base::{Geometry, Layout, LineStore, MemStop, Place, Tagger};
use std::alloc::Global;
use std::process::Abort;
use std::test::Fail;

// A line that is replayed, if so said, with the nodes on its path below a level, and the place that fails its check.
#[derive(Clone, Copy)]
struct Replayed {
    line: u32,
    with_line: bool,
    below: u8,
    place: Place,
}

// Over a bus that replays from the line's second write on.
fn replaying<T: Tagger>(
    alloc: Global,
    tagger: T,
    geometry: Geometry,
    replayed: Replayed,
) -> Result<SealedLines<ReplayBus, T>, Fail> {
    let Replayed {
        line,
        with_line,
        below,
        ..
    } = replayed;
    let replay = Replay {
        line,
        with_line,
        below,
        start: Place::Line(line),
        writes: 2,
    };
    let bus = ReplayBus::new(alloc, geometry, replay)?;
    let lines = SealedLines::boot(alloc, bus, tagger, &[7; 16], geometry, u64::MAX);
    Ok(lines.ok().ok_or("no memory")?)
}

// Reads the first lines of the three pages that are so many apart from a line's, as far as there are so many: they share sets
// with its counter block and with the node above it. After that neither has a copy.
fn push_out<T: Tagger>(
    lines: &mut SealedLines<ReplayBus, T>,
    line: u32,
    apart: u32,
) -> Result<(), MemStop>
    requires line { line < 8192 }
    requires apart { apart ≤ 64 }
{
    for at in 1..=3u32 {
        let other = 64 * (line / 64 + apart * at);
        if other < lines.lines() {
            lines.read_line(other)?;
        }
    }
    Ok(())
}

// What stops a write of a line that is a byte 64 times, and what stops a read.
fn write_stop<T: Tagger>(
    rt: &impl Abort,
    lines: &mut SealedLines<ReplayBus, T>,
    line: u32,
    byte: u8,
) -> Option<MemStop> {
    assert!(rt; line < lines.lines());
    lines.write_line(line, &[byte; 64]).err()
}

fn read_stop<T: Tagger>(
    rt: &impl Abort,
    lines: &mut SealedLines<ReplayBus, T>,
    line: u32,
) -> Option<MemStop> {
    assert!(rt; line < lines.lines());
    lines.read_line(line).err()
}

// The line is written twice, and each time its counter block and the node above it leave the chip, where pages share sets with
// its own.
fn assert_tampering<T: Tagger + Drop>(
    rt: &impl Abort,
    alloc: Global,
    tagger: T,
    geometry: Geometry,
    apart: u32,
    replayed: Replayed,
) -> Result<(), Fail>
    requires { apart ≤ 64 }
{
    let Replayed { line, place, .. } = replayed;
    assert!(rt; line < 8192);
    let mut lines = replaying(alloc, tagger, geometry, replayed)?;
    let stops = [
        write_stop(rt, &mut lines, line, 1),
        push_out(&mut lines, line, apart).err(),
        write_stop(rt, &mut lines, line, 2),
        push_out(&mut lines, line, apart).err(),
        read_stop(rt, &mut lines, line),
        lines.stopped(),
    ];
    let tampered = Some(MemStop::Tampered(place));
    let wanted = [None, None, None, None, tampered, tampered];
    assert_eq!(rt; stops, wanted, "{place}, below {}", replayed.below);
    let (account, _bus) = lines.finish();
    assert_eq!(rt; account.evidence, None, "{place}");
    Ok(())
}

const fn replay_of(line: u32, with_line: bool, below: u8, place: Place) -> Replayed {
    Replayed {
        line,
        with_line,
        below,
        place,
    }
}

const fn node(level: u8, index: u32) -> Place {
    Place::Node { level, index }
}

// What the places of a line of page 0 and of one of page 8 held after the first write fits together, up to the node of level 2,
// which has a copy.
#[test]
fn what_was_replaced_is_tampering(rt: HostRuntime) -> Result<(), Fail> {
    let rows = [
        replay_of(5, true, 0, Place::Line(5)),
        replay_of(5, false, 1, node(0, 0)),
        replay_of(5, true, 1, node(0, 0)),
        replay_of(5, false, 2, node(1, 0)),
        replay_of(5, true, 2, node(1, 0)),
        replay_of(517, true, 0, Place::Line(517)),
        replay_of(517, true, 1, node(0, 8)),
        replay_of(517, true, 2, node(1, 2)),
    ];
    let geometry = Geometry::new(4).ok_or("no geometry")?;
    for row in rows {
        assert_tampering(&rt, rt.alloc(), SomeBytes, geometry, 32, row)?;
    }
    Ok(())
}

// The same below nodes of eight children, by the number of levels and how far apart pages share sets: with one level all counter
// blocks stay on the chip, with two the node above them.
#[test]
fn what_was_replaced_below_eight_children_is_tampering(rt: HostRuntime) -> Result<(), Fail> {
    let rows = [
        (1u8, 16u32, replay_of(5, true, 0, Place::Line(5))),
        (1, 16, replay_of(453, true, 0, Place::Line(453))),
        (2, 16, replay_of(5, true, 0, Place::Line(5))),
        (2, 16, replay_of(5, false, 1, node(0, 0))),
        (2, 16, replay_of(517, true, 1, node(0, 8))),
        (3, 64, replay_of(5, true, 0, Place::Line(5))),
        (3, 64, replay_of(5, true, 1, node(0, 0))),
        (3, 64, replay_of(5, false, 2, node(1, 0))),
        (3, 64, replay_of(517, true, 2, node(1, 1))),
    ];
    for (levels, apart, row) in rows {
        let geometry = Geometry::with(Layout::Two, levels).ok_or("no geometry")?;
        assert!(rt; apart <= 64);
        assert_tampering(&rt, rt.alloc(), FewBytes, geometry, apart, row)?;
    }
    Ok(())
}
