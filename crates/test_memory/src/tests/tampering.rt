// A bit of what stands outside is flipped, or what stood there before is answered again: each is told at its place.
ghost use Rattle.std.specs.Prelude.{◌≡◌, ◌<◌, ◌≤◌};
ghost use Rattle.sec_base.specs.Place.{stored_size};
ghost use Rattle.bus_model.specs.BusHistory.{NothingWritten};

use bus_model::Bus;
use fakes::{CountingBus, Replay, ReplayBus};
use hmac_tag::{HmacTagger, derive};
use sec_base::{Geometry, Layout, MemStop, Place, Ram, Width};
use secure_memory::SecureRam;
use std::alloc::Global;
use std::process::Abort;
use std::test::Fail;

fn booted<B: Bus + Drop>(
    alloc: Global,
    bus: B,
    geometry: Geometry,
) -> Result<SecureRam<B, HmacTagger>, Fail>
    requires geometry { (B.history bus).geometry ≡ geometry }
    requires nothing_written { NothingWritten (B.history bus) }
{
    let keys = derive(&[0; 32]);
    let tagger = HmacTagger::new(&keys);
    match SecureRam::boot(alloc, bus, tagger, &keys, geometry, u64::MAX) {
        Ok(memory) => Ok(memory),
        Err(_) => Err(Fail::from("no memory")),
    }
}

// Whether there is a copy of a line.
fn is_held<B: Bus>(rt: &impl Abort, memory: &SecureRam<B, HmacTagger>, line: u32) -> bool {
    assert!(rt; line < memory.size() / 64);
    memory.held(line)
}

// What stops a store to a line's first four bytes.
fn store_stop(rt: &impl Abort, memory: &mut impl Ram, line: u32, value: u32) -> Option<MemStop> {
    assert!(rt; line < memory.size() / 64);
    memory.store(64 * line, Width::Four, value).err()
}

// A load of a line's first four bytes.
fn load(rt: &impl Abort, memory: &mut impl Ram, line: u32) -> Result<u32, MemStop> {
    assert!(rt; line < memory.size() / 64);
    memory.load(64 * line, Width::Four)
}

// Loads from the lines at a line's place of the next four pages that are so many apart, as far as there are so many. They share
// its set, their counter blocks that of its page, and the nodes above these too, where there are more than a cache has room for.
// The line goes out at the second, its counter block at the third, and the node above that at the fourth.
fn send_out(memory: &mut impl Ram, line: u32, apart: u32) -> Result<(), MemStop>
    requires line { line < 32768 }
    requires apart { apart ≤ 64 }
{
    for at in 1..=4u32 {
        let other = line + 64 * apart * at;
        if other < memory.size() / 64 {
            memory.load(64 * other, Width::Four)?;
        }
    }
    Ok(())
}

// A line that is stored to so often, how many pages apart pages share sets with its own, and the place that is told in the end.
#[derive(Clone, Copy, Debug)]
struct Told {
    line: u32,
    stores: u32,
    apart: u32,
    place: Place,
}

// After each store the line goes out. Its next load is stopped, and so is each call after that.
fn assert_told<B: Bus + Drop>(
    rt: &impl Abort,
    mut memory: SecureRam<B, HmacTagger>,
    told: Told,
) -> B {
    let Told { line, apart, .. } = told;
    assert!(rt; line < 32768);
    assert!(rt; apart <= 64);
    for value in 1..=told.stores {
        assert_eq!(rt; store_stop(rt, &mut memory, line, value), None, "{told:?}");
        assert!(rt; is_held(rt, &memory, line), "{told:?}");
        assert_eq!(rt; load(rt, &mut memory, line), Ok(value), "{told:?}");
        assert_eq!(rt; send_out(&mut memory, line, apart), Ok(()), "{told:?}");
        assert!(rt; !is_held(rt, &memory, line), "{told:?}");
        assert_eq!(rt; memory.held_count(), 2, "{told:?}");
    }
    let tampered = MemStop::Tampered(told.place);
    assert_eq!(rt; load(rt, &mut memory, line), Err(tampered), "{told:?}");
    assert_eq!(rt; load(rt, &mut memory, 0), Err(tampered), "{told:?}");
    assert_eq!(rt;
        store_stop(rt, &mut memory, 0, 9),
        Some(tampered),
        "{told:?}"
    );
    let (account, bus) = memory.finish();
    assert_eq!(rt; account.evidence, None, "{told:?}");
    bus
}

const fn node(level: u8, index: u32) -> Place {
    Place::Node { level, index }
}

// How many bytes a place holds that may be other than zeros.
fn stored_len(geometry: Geometry, place: Place) -> usize
    ensures { result ≡ stored_size geometry place }
{
    match (place, geometry.layout()) {
        (Place::Line(_), Layout::One) => 80,
        (Place::Line(_), Layout::Two) => 72,
        (Place::Node { .. }, _) => 64,
    }
}

// By layout, levels, and how many pages apart pages share sets: the lowest bit of a byte is flipped as its place is read for the
// first time. That is at the last load: as the line comes in, none of its path was ever written. At one level of layout 2 the chip
// has room for the counter blocks of all 8 pages, and at two for all 8 nodes of level 1, so these stay.
#[test]
fn a_flipped_bit_is_tampering(rt: HostRuntime) -> Result<(), Fail> {
    let rows = [
        (Layout::One, 5, 32, Place::Line(1), 0),
        (Layout::One, 5, 32, Place::Line(1), 79),
        (Layout::One, 5, 32, node(0, 0), 0),
        (Layout::One, 5, 32, node(1, 0), 0),
        (Layout::Two, 1, 1, Place::Line(1), 0),
        (Layout::Two, 1, 1, Place::Line(1), 63),
        (Layout::Two, 1, 1, Place::Line(1), 64),
        (Layout::Two, 1, 1, Place::Line(1), 71),
        (Layout::Two, 2, 16, Place::Line(1), 0),
        (Layout::Two, 2, 16, Place::Line(1), 63),
        (Layout::Two, 2, 16, Place::Line(1), 64),
        (Layout::Two, 2, 16, Place::Line(1), 71),
        (Layout::Two, 2, 16, node(0, 0), 0),
        (Layout::Two, 2, 16, node(0, 0), 63),
        (Layout::Two, 3, 64, Place::Line(1), 0),
        (Layout::Two, 3, 64, Place::Line(1), 71),
        (Layout::Two, 3, 64, node(0, 0), 0),
        (Layout::Two, 3, 64, node(0, 0), 63),
        (Layout::Two, 3, 64, node(1, 0), 0),
        (Layout::Two, 3, 64, node(1, 0), 63),
    ];
    for (layout, levels, apart, place, offset) in rows {
        let geometry = Geometry::with(layout, levels).ok_or("no geometry")?;
        assert!(rt; usize::from(offset) < stored_len(geometry, place));
        let bus = CountingBus::flipping(rt.alloc(), geometry, place, 1, offset)?;
        let memory = booted(rt.alloc(), bus, geometry)?;
        let told = Told {
            line: 1,
            stores: 1,
            apart,
            place,
        };
        let bus = assert_told(&rt, memory, told);
        assert_eq!(rt; bus.lies(), 1, "{told:?}, byte {offset}");
    }
    Ok(())
}

// By the number of levels of layout 2, and how many pages apart pages share sets: a line is replayed, if so said, with the nodes on
// its path below a level. The highest of these places is told. The replay begins as that is written for the second time, as all
// below it were by then. Line 255 is the last of page 3, line 517 is in page 8, and lines 1023 and 16383 are the last of pages 15
// and 255. Eight pages have one node of level 1.
#[test]
fn what_was_replaced_is_tampering(rt: HostRuntime) -> Result<(), Fail> {
    let rows = [
        (1, 1, 1, true, 0, Place::Line(1)),
        (1, 1, 255, true, 0, Place::Line(255)),
        (2, 16, 1, true, 0, Place::Line(1)),
        (2, 16, 1, false, 1, node(0, 0)),
        (2, 16, 1, true, 1, node(0, 0)),
        (2, 16, 1023, true, 0, Place::Line(1023)),
        (2, 16, 1023, true, 1, node(0, 15)),
        (3, 64, 1, true, 0, Place::Line(1)),
        (3, 64, 1, false, 1, node(0, 0)),
        (3, 64, 517, true, 1, node(0, 8)),
        (3, 64, 1, false, 2, node(1, 0)),
        (3, 64, 517, true, 2, node(1, 1)),
        (3, 64, 16383, true, 2, node(1, 31)),
    ];
    for (levels, apart, line, with_line, below, place) in rows {
        let geometry = Geometry::with(Layout::Two, levels).ok_or("no geometry")?;
        let replay = Replay {
            line,
            with_line,
            below,
            start: place,
            writes: 2,
        };
        let bus = ReplayBus::new(rt.alloc(), geometry, replay)?;
        let memory = booted(rt.alloc(), bus, geometry)?;
        let told = Told {
            line,
            stores: 2,
            apart,
            place,
        };
        let bus = assert_told(&rt, memory, told);
        assert_eq!(rt; bus.lies(), 1, "{told:?}, below {below}");
    }
    Ok(())
}
