// The memory over a bus that tells the truth and over one that does not. Accesses were counted by an independent model in Python.
ghost use Rattle.std.specs.Prelude.{◌≡◌, ◌+◌, ◌*◌, ◌%◌, ◌^◌, ◌<◌, ◌≤◌, IfOk};
ghost use Rattle.sec_base.specs.Geometry.{one};
ghost use Rattle.sec_base.specs.Place.{stored_size};
ghost use Rattle.bus_model.specs.BusHistory.{new_history};
ghost use Rattle.secure_memory.specs.SecureRam.{lines_of};

mod tampering;

use bus_model::{Bus, FlipBus, HonestBus};
use fakes::CountingBus;
use hmac_tag::{HmacTagger, derive};
use sec_base::{Geometry, Layout, MemStop, Place, Ram, Width};
use secure_memory::SecureRam;
use std::alloc::Global;
use std::process::Abort;
use std::test::Fail;

// The smallest memory, of 256 lines.
fn smallest() -> Result<Geometry, Fail>
    ensures { IfOk result (λ geometry. geometry ≡ one 1) }
{
    Ok(Geometry::new(1).ok_or("no geometry")?)
}

// Over a bus, under the keys of a device key of zeros.
fn over<B: Bus + Drop>(
    alloc: Global,
    bus: B,
    geometry: Geometry,
    page_limit: u64,
) -> Result<SecureRam<B, HmacTagger>, Fail>
    requires bus { B.history bus ≡ new_history geometry }
    requires smallest { geometry ≡ one 1 }
    ensures { IfOk result (λ memory. lines_of memory ≡ 256) }
{
    let keys = derive(&[0; 32]);
    let tagger = HmacTagger::new(&keys);
    match SecureRam::boot(alloc, bus, tagger, &keys, geometry, page_limit) {
        Ok(memory) => Ok(memory),
        Err(_) => Err(Fail::from("no memory")),
    }
}

#[test]
fn a_number_is_stored_with_its_lowest_byte_first(rt: HostRuntime) -> Result<(), Fail> {
    let geometry = smallest()?;
    let bus = HonestBus::new(rt.alloc(), geometry)?;
    let mut memory = over(rt.alloc(), bus, geometry, u64::MAX)?;
    assert_eq!(rt; memory.size(), 16384);
    assert_eq!(rt; memory.store(64, Width::Four, 0x89ab_cdef), Ok(()));
    assert_eq!(rt; memory.load(64, Width::Four), Ok(0x89ab_cdef));
    assert_eq!(rt; memory.load(64, Width::Two), Ok(0xcdef));
    assert_eq!(rt; memory.load(67, Width::One), Ok(0x89));
    assert_eq!(rt; memory.load(60, Width::Four), Ok(0));
    Ok(())
}

#[test]
fn a_store_changes_as_many_bytes_as_its_width(rt: HostRuntime) -> Result<(), Fail> {
    let geometry = smallest()?;
    let bus = HonestBus::new(rt.alloc(), geometry)?;
    let mut memory = over(rt.alloc(), bus, geometry, u64::MAX)?;
    assert_eq!(rt; memory.store(16380, Width::Two, 0x1_2345), Ok(()));
    assert_eq!(rt; memory.store(16383, Width::One, 0x1ff), Ok(()));
    assert_eq!(rt; memory.load(16380, Width::Four), Ok(0xff00_2345));
    let (account, _bus) = memory.finish();
    assert_eq!(rt; account.made.len(), 0);
    assert_eq!(rt; account.used.len(), 0);
    assert_eq!(rt; account.evidence, None);
    Ok(())
}

// Loads from the two other lines of its set, of which the second makes a line go out that was used just before.
fn send_out<B: Bus>(memory: &mut SecureRam<B, HmacTagger>, line: u32) -> Result<(), MemStop>
    requires inside { 64 * (line + 129) ≤ 64 * lines_of memory.old }
    requires fits { 64 * (line + 129) < 2 ^ 32 }
    ensures extent { lines_of memory.new ≡ lines_of memory.old }
{
    memory.load(64 * (line + 64), Width::Four)?;
    memory.load(64 * (line + 128), Width::Four)?;
    Ok(())
}

// A memory whose line 5 is stored to, and goes out, again and again.
#[derive(Drop)]
struct Worn {
    memory: SecureRam<FlipBus, HmacTagger>,
    ghost small: { 64 * lines_of memory ≡ 16384 },
}

impl Worn {
    // Over a bus that flips a bit at the `k`-th read of a line.
    fn new(alloc: Global, page_limit: u64, line: u32, k: u64) -> Result<Worn, Fail> {
        let geometry = smallest()?;
        let bus = FlipBus::new(alloc, geometry, Place::Line(line), k, 0, 1)?;
        let memory = over(alloc, bus, geometry, page_limit)?;
        Ok(Worn { memory })
    }

    fn store(&mut self, value: u32) -> Result<(), MemStop> {
        self.memory.store(320, Width::Four, value)?;
        send_out(&mut self.memory, 5)
    }

    // Stores 1, 2, and so on to the last.
    fn count_to(&mut self, last: u32) -> Result<(), MemStop> {
        for value in 1..=last {
            self.store(value)?;
        }
        Ok(())
    }
}

// The page's counters and the node above them stay on the chip, so no node is tagged.
#[test]
fn a_page_that_is_encrypted_anew_keeps_its_numbers(rt: HostRuntime) -> Result<(), Fail> {
    for (last, entries) in [(126, 128), (127, 192), (128, 193)] {
        let mut worn = Worn::new(rt.alloc(), u64::MAX, 0, 0)?;
        assert_eq!(rt;
            worn.memory.store(252, Width::Four, 4),
            Ok(()),
            "up to {last}"
        );
        assert_eq!(rt; send_out(&mut worn.memory, 3), Ok(()), "up to {last}");
        assert_eq!(rt;
            worn.memory.store(324, Width::Four, 5),
            Ok(()),
            "up to {last}"
        );
        assert_eq!(rt; send_out(&mut worn.memory, 5), Ok(()), "up to {last}");
        assert_eq!(rt; worn.count_to(last), Ok(()), "up to {last}");
        assert_eq!(rt; worn.memory.load(252, Width::Four), Ok(4), "up to {last}");
        assert_eq!(rt;
            worn.memory.load(320, Width::Four),
            Ok(last),
            "up to {last}"
        );
        assert_eq!(rt; worn.memory.load(324, Width::Four), Ok(5), "up to {last}");
        assert_eq!(rt; worn.memory.load(384, Width::Four), Ok(0), "up to {last}");
        assert_eq!(rt; worn.memory.stopped(), None, "up to {last}");
        let (account, _bus) = worn.memory.finish();
        assert_eq!(rt; account.used.len(), entries, "up to {last}");
        assert_eq!(rt; account.made.len(), entries, "up to {last}");
    }
    Ok(())
}

#[test]
fn the_first_stop_is_answered_again(rt: HostRuntime) -> Result<(), Fail> {
    let rows = [
        (0, 0, 0, MemStop::Spent(0), 128),
        (1, 9, 1, MemStop::Tampered(Place::Line(9)), 128 + 9),
    ];
    for (page_limit, line, k, stop, entries) in rows {
        let mut worn = Worn::new(rt.alloc(), page_limit, line, k)?;
        assert_eq!(rt; worn.memory.store(576, Width::Four, 9), Ok(()), "{stop:?}");
        assert_eq!(rt; send_out(&mut worn.memory, 9), Ok(()), "{stop:?}");
        assert_eq!(rt; worn.count_to(127), Ok(()), "{stop:?}");
        assert_eq!(rt; worn.memory.stopped(), None, "{stop:?}");
        assert_eq!(rt; worn.store(128), Err(stop), "{stop:?}");
        assert_eq!(rt; worn.store(128), Err(stop), "{stop:?}");
        assert_eq!(rt; worn.memory.load(320, Width::Four), Err(stop), "{stop:?}");
        assert_eq!(rt; worn.memory.load(8192, Width::One), Err(stop), "{stop:?}");
        assert_eq!(rt;
            worn.memory.store(8192, Width::One, 1),
            Err(stop),
            "{stop:?}"
        );
        assert_eq!(rt; worn.memory.stopped(), Some(stop), "{stop:?}");
        let (account, bus) = worn.memory.finish();
        assert_eq!(rt; account.used.len(), entries, "{stop:?}");
        assert_eq!(rt; bus.lies(), k, "{stop:?}");
    }
    Ok(())
}

// A memory over a bus that counts, whose line 5 is used.
#[derive(Drop)]
struct Counted {
    memory: SecureRam<CountingBus, HmacTagger>,
    ghost large: { 16384 ≤ 64 * lines_of memory },
}

impl Counted {
    // Over a bus that refuses one access, by its number from 1 on.
    fn new(alloc: Global, layout: Layout, levels: u8, refused: u64) -> Result<Counted, Fail> {
        let geometry = Geometry::with(layout, levels).ok_or("no geometry")?;
        let bus = CountingBus::refusing(alloc, geometry, refused)?;
        let keys = derive(&[0; 32]);
        let tagger = HmacTagger::new(&keys);
        let Ok(memory) = SecureRam::boot(alloc, bus, tagger, &keys, geometry, u64::MAX) else {
            return Err(Fail::from("no memory"));
        };
        if memory.size() < 16384 {
            return Err(Fail::from("small"));
        }
        Ok(Counted { memory })
    }

    // So often a number is stored, and the line goes out.
    fn store(&mut self, count: u32) -> Result<(), MemStop> {
        for value in 0..count {
            self.memory.store(320, Width::Four, value)?;
            send_out(&mut self.memory, 5)?;
        }
        Ok(())
    }

    fn load(&mut self) -> Result<u32, MemStop> {
        self.memory.load(320, Width::Four)
    }

    // The address of the line at place 5 of a page.
    fn line_at(&self, rt: &impl Abort, page: u32) -> u32
        ensures inside { result + 4 ≤ 64 * lines_of self.now.memory }
        ensures aligned { result % 4 ≡ 0 }
    {
        assert!(rt; page < 65536);
        let addr = 4096 * page + 320;
        assert!(rt; addr % 4 == 0);
        assert!(rt; addr + 4 <= self.memory.size());
        addr
    }

    // Loads from the line at place 5 of each page, so many in all.
    fn load_zeros(&mut self, rt: &impl Abort, pages: u32) {
        for page in 0..pages {
            let addr = self.line_at(rt, page);
            assert_eq!(rt; (page, self.memory.load(addr, Width::Four)), (page, Ok(0)));
        }
    }

    // So often a number is stored at four places, and then so often the four are loaded. Their pages are so many apart.
    fn go_round(
        &mut self,
        rt: &impl Abort,
        apart: u32,
        stores: u32,
        loads: u32,
    ) -> Result<(), MemStop> {
        assert!(rt; apart <= 16384);
        for value in 0..stores {
            for at in 0..4 {
                let addr = self.line_at(rt, apart * at);
                self.memory.store(addr, Width::Four, value)?;
            }
        }
        for _ in 0..loads {
            for at in 0..4 {
                let addr = self.line_at(rt, apart * at);
                self.memory.load(addr, Width::Four)?;
            }
        }
        Ok(())
    }
}

// How many accesses so many stores and a load make in all.
fn accesses(alloc: Global, layout: Layout, levels: u8, stores: u32) -> Result<u64, Fail> {
    let mut counted = Counted::new(alloc, layout, levels, 0)?;
    counted.store(stores).ok().ok_or("a store is refused")?;
    counted.load().ok().ok_or("the load is refused")?;
    let Counted { memory } = counted;
    let (_account, bus) = memory.finish();
    Ok(bus.asked())
}

// The first access of a bus that refuses it would be a stop.
#[test]
fn a_load_of_a_line_that_was_never_written_makes_no_access(rt: HostRuntime) -> Result<(), Fail> {
    let rows = [
        (Layout::One, 1, 4),
        (Layout::One, 2, 16),
        (Layout::One, 3, 64),
        (Layout::One, 4, 256),
        (Layout::Two, 1, 8),
        (Layout::Two, 2, 64),
        (Layout::Two, 3, 512),
    ];
    for (layout, levels, pages) in rows {
        let mut counted = Counted::new(rt.alloc(), layout, levels, 1)?;
        counted.load_zeros(&rt, pages);
        let Counted { memory } = counted;
        assert_eq!(rt; memory.stopped(), None, "{levels} levels");
        let (account, bus) = memory.finish();
        let counts = (bus.asked(), account.made.len(), account.used.len());
        assert_eq!(rt; counts, (0, 0, 0), "{levels} levels");
    }
    Ok(())
}

fn assert_accesses(rt: &impl Abort, alloc: Global, layout: Layout, levels: u8) -> Result<(), Fail> {
    for (stores, made) in [(0, 0), (1, 2), (2, 4), (127, 254), (128, 256 + 63)] {
        let accesses = accesses(alloc, layout, levels, stores)?;
        assert_eq!(rt; accesses, made, "{stores} stores at {levels} of {layout:?}");
    }
    Ok(())
}

// The counters stay on the chip, and so do the nodes above them: a line comes in by its own read, if it was written, and goes
// out by its own write. In an overflow the other 63 lines, which were never written, are written too.
#[test]
fn calls_make_so_many_accesses_at_each_level(rt: HostRuntime) -> Result<(), Fail> {
    for levels in 1..=8u8 {
        assert_accesses(&rt, rt.alloc(), Layout::One, levels)?;
    }
    for levels in 1..=5u8 {
        assert_accesses(&rt, rt.alloc(), Layout::Two, levels)?;
    }
    Ok(())
}

// How many accesses so many rounds over four pages make, a quarter of the memory apart.
fn rounds(
    rt: &impl Abort,
    alloc: Global,
    geometry: (Layout, u8),
    apart: u32,
    stores: u32,
    loads: u32,
) -> Result<u64, Fail> {
    let mut counted = Counted::new(alloc, geometry.0, geometry.1, 0)?;
    counted
        .go_round(rt, apart, stores, loads)
        .ok()
        .ok_or("a call is refused")?;
    let Counted { memory } = counted;
    let (_account, bus) = memory.finish();
    Ok(bus.asked())
}

// Each of the four lines pushes out another one, and with it the counter block of that line's page and the nodes above it, but
// for those of the highest levels, which have room for all. Loads of what was never written make no access. Three rounds of
// stores make so many; and from then on, where all of them are changed, a call writes and reads as many as it must; where none is,
// it reads the path as far as it is gone, and the line.
#[test]
fn calls_over_distant_pages_make_so_many_accesses(rt: HostRuntime) -> Result<(), Fail> {
    let rows = [
        ((Layout::One, 1), 1, 18, 2u64, 1u64),
        ((Layout::One, 2), 4, 18, 2, 1),
        ((Layout::One, 3), 16, 41, 5, 2),
        ((Layout::One, 4), 64, 64, 8, 3),
        ((Layout::One, 5), 256, 91, 12, 4),
        ((Layout::One, 6), 1024, 118, 16, 5),
        ((Layout::One, 7), 4096, 140, 20, 6),
        ((Layout::One, 8), 16384, 165, 25, 7),
        ((Layout::Two, 1), 2, 18, 2, 1),
        ((Layout::Two, 2), 16, 41, 5, 2),
        ((Layout::Two, 3), 128, 64, 8, 3),
        ((Layout::Two, 4), 1024, 91, 12, 4),
        ((Layout::Two, 5), 8192, 118, 16, 5),
    ];
    for (geometry, apart, thrice, store, load) in rows {
        let fresh = rounds(&rt, rt.alloc(), geometry, apart, 0, 2)?;
        let stored = rounds(&rt, rt.alloc(), geometry, apart, 3, 0)?;
        assert_eq!(rt; (fresh, stored), (0, thrice), "{geometry:?}");
        let once_more = rounds(&rt, rt.alloc(), geometry, apart, 4, 0)?;
        assert_eq!(rt;
            stored.saturating_add(store.saturating_mul(4)),
            once_more,
            "{geometry:?}"
        );
        let loaded = rounds(&rt, rt.alloc(), geometry, apart, 4, 4)?;
        let once_more = rounds(&rt, rt.alloc(), geometry, apart, 4, 5)?;
        assert_eq!(rt;
            loaded.saturating_add(load.saturating_mul(4)),
            once_more,
            "{geometry:?}"
        );
    }
    Ok(())
}

// Each store but the first makes two accesses: it reads the line, and as that goes out writes it.
#[test]
fn out_of_memory_a_line_is_written_in_part(rt: HostRuntime) -> Result<(), Fail> {
    for (refused, before, entries) in [(1, 0, 1), (2, 1, 1), (3, 1, 2), (4, 2, 2)] {
        let mut counted = Counted::new(rt.alloc(), Layout::One, 1, refused)?;
        assert_eq!(rt; counted.store(before), Ok(()), "access {refused}");
        assert_eq!(rt;
            counted.store(1),
            Err(MemStop::NoMemory),
            "access {refused}"
        );
        assert_eq!(rt; counted.load(), Err(MemStop::NoMemory), "access {refused}");
        let Counted { memory } = counted;
        let (account, bus) = memory.finish();
        assert_eq!(rt; account.made.len(), entries, "access {refused}");
        assert_eq!(rt; account.used.len(), entries, "access {refused}");
        assert_eq!(rt; account.evidence, None, "access {refused}");
        assert_eq!(rt; bus.asked(), refused, "access {refused}");
    }
    Ok(())
}

// The line goes out once, and is read once as it comes back.
#[test]
fn a_line_that_is_held_makes_no_access(rt: HostRuntime) -> Result<(), Fail> {
    let mut counted = Counted::new(rt.alloc(), Layout::One, 1, 0)?;
    assert_eq!(rt; counted.store(1), Ok(()));
    assert_eq!(rt; counted.load(), Ok(0));
    assert_eq!(rt; counted.memory.store(320, Width::Four, 2), Ok(()));
    assert_eq!(rt; counted.memory.store(320, Width::Four, 3), Ok(()));
    assert_eq!(rt; counted.load(), Ok(3));
    let Counted { memory } = counted;
    let (account, bus) = memory.finish();
    assert_eq!(rt; bus.asked(), 2);
    assert_eq!(rt; account.made.len(), 1);
    Ok(())
}
