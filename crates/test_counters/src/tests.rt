// Each public call over a bus that counts, and that flips a bit at one read of one counter block or none: the number of
// accesses, false answers, and want of memory. Accesses were counted by an independent model in Python.
ghost use Rattle.std.specs.Prelude.{◌≡◌, ◌<◌, ◌≤◌, length};
ghost use Rattle.bus_model.specs.FlipBus.{flip_history};

use counter_cache::Counters;
use fakes::{Access, CountingBus, PrefixTagger, ZeroTagger};
use sec_base::{Counter, Evidence, Geometry, Layout, MemStop, Place, Tagger};
use split_counter::{Bumped, CounterBlock, LAST_LINE_COUNTER};
use std::alloc::Global;
use std::process::Abort;
use std::test::Fail;
use tag_engine::TagEngine;

// Counters with their bus and their tag engine.
#[derive(Drop)]
struct Memory<T: Tagger> {
    geometry: Geometry,
    bus: CountingBus,
    tags: TagEngine<T>,
    counters: Counters,
    ghost bus_fits: { (flip_history bus).geometry ≡ geometry },
    ghost engine_fits: { tags.geometry ≡ geometry },
    ghost counters_fit: { counters.tree.geometry ≡ geometry },
}

impl<T: Tagger> Memory<T> {
    fn get(&mut self, rt: &impl Abort, page: u32) -> Result<CounterBlock, MemStop> {
        assert!(rt; page < self.geometry.pages());
        self.counters.get(&mut self.bus, &mut self.tags, page)
    }

    fn bump(&mut self, rt: &impl Abort, page: u32, place: u8, limit: u64) -> Result<Bumped, MemStop>
        requires { place < 64 }
    {
        assert!(rt; page < self.geometry.pages());
        self.counters
            .bump(&mut self.bus, &mut self.tags, page, place, limit)
    }

    // Counts one write of the line at place 0 of a page, which was written so often by then.
    fn write(&mut self, rt: &impl Abort, page: u32, line: u8) {
        let counter = Counter { page: 0, line };
        let bumped = self.bump(rt, page, 0, 0);
        assert_eq!(rt; (page, bumped), (page, Ok(Bumped::Line(counter))));
    }

    // All 127 writes of a line up to the end of its counter.
    fn wear(&mut self, rt: &impl Abort, page: u32, place: u8)
        requires { place < 64 }
    {
        for line in 1..=LAST_LINE_COUNTER {
            let counter = Counter { page: 0, line };
            assert_eq!(rt; self.bump(rt, page, place, 0), Ok(Bumped::Line(counter)));
        }
    }

    // The line at place 0 of a page was written so often, and no other one. So many accesses say so.
    fn holds(&mut self, rt: &impl Abort, page: u32, writes: u8, accesses: u64) {
        assert_eq!(rt; (page, self.get(rt, page)), (page, Ok(written(writes))));
        assert_eq!(rt; (page, self.accesses()), (page, accesses));
    }

    // How many accesses there were since the last call of it.
    fn accesses(&mut self) -> u64 {
        let count = self.bus.log().len() as u64;
        self.bus.clear_log();
        count
    }

    // How many of them read a counter block.
    fn block_reads(&self) -> u64 {
        let mut count = 0u64;
        for access in self.bus.log() {
            if matches!(access, Access::ReadNode(0, _)) {
                count = count.saturating_add(1);
            }
        }
        count
    }

    // How many messages were made, and the evidence.
    fn finish(self) -> (u64, Option<Evidence>) {
        let Memory {
            geometry: _,
            bus: _bus,
            tags,
            counters: _counters,
        } = self;
        let (made, evidence) = tags.finish();
        (made.len(), evidence)
    }
}

// Booted over a bus that flips the lowest bit of a byte at the `k`-th read of a page's counter block.
fn flipped<T: Tagger>(
    alloc: Global,
    tagger: T,
    layout: Layout,
    levels: u8,
    page: u32,
    k: u64,
    offset: u8,
) -> Result<Memory<T>, Fail>
    requires { offset < 64 }
{
    let geometry = Geometry::with(layout, levels).ok_or("no geometry")?;
    let place = Place::Node {
        level: 0,
        index: page,
    };
    let mut bus = CountingBus::flipping(alloc, geometry, place, k, offset)?;
    let mut tags = TagEngine::new(alloc, tagger, geometry)?;
    let counters = Counters::boot(alloc, geometry, &mut bus, &mut tags)?;
    Ok(Memory {
        geometry,
        bus,
        tags,
        counters,
    })
}

// Booted over a bus that tells the truth.
fn honest(alloc: Global, layout: Layout, levels: u8) -> Result<Memory<PrefixTagger>, Fail> {
    flipped(alloc, PrefixTagger, layout, levels, 0, 0, 0)
}

// The counters of a page whose line at place 0 was written so often, and no other: byte 8 has the line counter of place 0.
fn written(writes: u8) -> CounterBlock {
    let mut bytes = [0; 64];
    bytes[8] = writes;
    CounterBlock::from_bytes(&bytes)
}

// Each layout with so many levels that a memory has 64 pages: more than have copies, while the nodes above them all have one.
const SMALL: [(Layout, u8); 2] = [(Layout::One, 3), (Layout::Two, 2)];

fn zero_after_boot<T: Tagger>(rt: &impl Abort, memory: &mut Memory<T>) {
    for page in 0..memory.geometry.pages() {
        let counters = memory.get(rt, page);
        assert_eq!(rt; (page, counters), (page, Ok(CounterBlock::new())));
    }
}

// Over a bus that refuses each access.
#[test]
fn all_counters_are_zero_after_boot_without_an_access(rt: HostRuntime) -> Result<(), Fail> {
    for (layout, most) in [(Layout::One, 4), (Layout::Two, 3)] {
        for levels in 1..=most {
            let mut memory = honest(rt.alloc(), layout, levels)?;
            assert_eq!(rt; memory.accesses(), 0);
            memory.bus.refuse_after(0);
            zero_after_boot(&rt, &mut memory);
            assert_eq!(rt; memory.finish(), (0, None));
        }
    }
    Ok(())
}

fn bump_one_line<T: Tagger>(rt: &impl Abort, memory: &mut Memory<T>) {
    let first = Counter { page: 0, line: 1 };
    assert_eq!(rt; memory.bump(rt, 5, 63, 0), Ok(Bumped::Line(first)));
    let mut wanted = CounterBlock::new();
    let _ = wanted.bump(63, 0);
    for page in 0..16 {
        let block = if page == 5 {
            wanted
        } else {
            CounterBlock::new()
        };
        assert_eq!(rt; (page, memory.get(rt, page)), (page, Ok(block)));
    }
    let second = Counter { page: 0, line: 2 };
    assert_eq!(rt; memory.bump(rt, 5, 63, 0), Ok(Bumped::Line(second)));
    assert_eq!(rt; memory.bump(rt, 5, 0, 0), Ok(Bumped::Line(first)));
    assert_eq!(rt; memory.bump(rt, 15, 63, 0), Ok(Bumped::Line(first)));
}

#[test]
fn a_bump_counts_one_write_of_one_line(rt: HostRuntime) -> Result<(), Fail> {
    for layout in [Layout::One, Layout::Two] {
        let mut memory = honest(rt.alloc(), layout, 2)?;
        bump_one_line(&rt, &mut memory);
    }
    Ok(())
}

// The last page and the one before it.
fn bump_last<T: Tagger>(rt: &impl Abort, memory: &mut Memory<T>, last: u32) {
    assert_eq!(rt; memory.geometry.pages().saturating_sub(1), last);
    memory.write(rt, last, 1);
    memory.write(rt, last, 2);
    memory.holds(rt, last, 2, 0);
    memory.holds(rt, last.saturating_sub(1), 0, 0);
}

#[test]
fn the_last_page_counts_its_writes(rt: HostRuntime) -> Result<(), Fail> {
    let rows = [
        (Layout::One, 1, 3),
        (Layout::One, 3, 63),
        (Layout::Two, 1, 7),
        (Layout::Two, 2, 63),
        (Layout::Two, 3, 511),
    ];
    for (layout, levels, last) in rows {
        let mut memory = honest(rt.alloc(), layout, levels)?;
        bump_last(&rt, &mut memory, last);
    }
    Ok(())
}

fn raise_page<T: Tagger>(rt: &impl Abort, memory: &mut Memory<T>) {
    let first = Counter { page: 0, line: 1 };
    assert_eq!(rt; memory.bump(rt, 1, 9, 1), Ok(Bumped::Line(first)));
    memory.wear(rt, 1, 63);
    assert_eq!(rt; memory.bump(rt, 1, 63, 1), Ok(Bumped::Page(1)));
    let mut bytes = [0; 64];
    bytes[0] = 1;
    let next_page = CounterBlock::from_bytes(&bytes);
    assert_eq!(rt; memory.get(rt, 1), Ok(next_page));
    assert_eq!(rt; memory.get(rt, 0), Ok(CounterBlock::new()));
    let after = Counter { page: 1, line: 1 };
    assert_eq!(rt; memory.bump(rt, 1, 63, 1), Ok(Bumped::Line(after)));
}

#[test]
fn the_next_write_after_127_raises_the_page_counter(rt: HostRuntime) -> Result<(), Fail> {
    for layout in [Layout::One, Layout::Two] {
        let mut memory = honest(rt.alloc(), layout, 1)?;
        raise_page(&rt, &mut memory);
    }
    Ok(())
}

// Its page's block stays as it is. The lines beside it still serve.
fn spend<T: Tagger>(rt: &impl Abort, memory: &mut Memory<T>) {
    memory.wear(rt, 3, 0);
    let block = memory.get(rt, 3);
    assert_eq!(rt; memory.bump(rt, 3, 0, 0), Ok(Bumped::Spent));
    assert_eq!(rt; memory.get(rt, 3), block);
    let first = Counter { page: 0, line: 1 };
    assert_eq!(rt; memory.bump(rt, 3, 1, 0), Ok(Bumped::Line(first)));
}

#[test]
fn a_line_at_the_limit_is_spent(rt: HostRuntime) -> Result<(), Fail> {
    for layout in [Layout::One, Layout::Two] {
        let mut memory = honest(rt.alloc(), layout, 1)?;
        spend(&rt, &mut memory);
    }
    Ok(())
}

// Page 0 was written, and its block goes out for those of pages 16 and 32, which were never made. It is read once. A block that
// has a copy makes no access, and one that was never made makes none either: that of page 1 is below the same node.
fn read_once<T: Tagger>(rt: &impl Abort, memory: &mut Memory<T>) {
    go_out(rt, memory);
    assert_eq!(rt; memory.get(rt, 0), Ok(written(1)));
    let reads = memory.block_reads();
    assert_eq!(rt; (reads, memory.accesses()), (1, 1));
    memory.holds(rt, 0, 1, 0);
    memory.write(rt, 0, 2);
    memory.holds(rt, 0, 2, 0);
    memory.holds(rt, 1, 0, 0);
}

// Page 0 is written, and its block goes out: pages 0, 16 and 32 are in one set of two ways.
fn go_out<T: Tagger>(rt: &impl Abort, memory: &mut Memory<T>) {
    memory.write(rt, 0, 1);
    memory.holds(rt, 16, 0, 0);
    memory.holds(rt, 32, 0, 1);
}

#[test]
fn a_block_that_went_out_is_read_once(rt: HostRuntime) -> Result<(), Fail> {
    let shapes = [
        (Layout::One, 3),
        (Layout::One, 4),
        (Layout::One, 5),
        (Layout::Two, 2),
        (Layout::Two, 3),
    ];
    for (layout, levels) in shapes {
        let mut memory = honest(rt.alloc(), layout, levels)?;
        read_once(&rt, &mut memory);
        assert_eq!(rt; memory.finish(), (1, None));
    }
    Ok(())
}

// The least recently used one of them goes out, and is written first where it was changed. It is read where it was ever written.
fn push_out<T: Tagger>(rt: &impl Abort, memory: &mut Memory<T>) {
    memory.write(rt, 0, 1);
    memory.holds(rt, 16, 0, 0);
    memory.holds(rt, 0, 1, 0);
    memory.write(rt, 32, 1);
    assert_eq!(rt; memory.accesses(), 0);
    memory.holds(rt, 16, 0, 1);
    memory.holds(rt, 0, 1, 2);
    memory.holds(rt, 32, 1, 1);
    memory.holds(rt, 0, 1, 0);
}

#[test]
fn a_changed_block_is_written_when_it_goes_out(rt: HostRuntime) -> Result<(), Fail> {
    for (layout, levels) in SMALL {
        let mut memory = honest(rt.alloc(), layout, levels)?;
        push_out(&rt, &mut memory);
        assert_eq!(rt; memory.finish(), (2, None));
    }
    Ok(())
}

// Five gets and bumps of some pages, as the digits of a number say, are those of a list of counts.
fn follow<T: Tagger>(rt: &impl Abort, memory: &mut Memory<T>, pages: &[u32], calls: u32)
    requires some { 0 < length pages.now }
    requires few { length pages.now ≤ 6 }
{
    let mut writes = [0u8; 6];
    let mut left = calls;
    for call in 0..5u32 {
        let at = left as usize % pages.len();
        let bumps = left / pages.len() as u32 % 2 == 1;
        left = left / pages.len() as u32 / 2;
        if bumps {
            writes[at] = writes[at].saturating_add(1);
            memory.write(rt, pages[at], writes[at]);
        } else {
            let counters = memory.get(rt, pages[at]);
            assert_eq!(rt;
                (calls, call, counters),
                (calls, call, Ok(written(writes[at])))
            );
        }
    }
    for (page, writes) in pages.iter().zip(writes.iter()) {
        let counters = memory.get(rt, *page);
        assert_eq!(rt; (calls, counters), (calls, Ok(written(*writes))));
    }
}

// The same in new counters. How many accesses there were.
fn follow_anew(
    rt: &impl Abort,
    alloc: Global,
    layout: Layout,
    levels: u8,
    pages: &[u32],
    calls: u32,
) -> Result<u64, Fail>
    requires some { 0 < length pages.now }
    requires few { length pages.now ≤ 6 }
{
    let mut memory = honest(alloc, layout, levels)?;
    follow(rt, &mut memory, pages, calls);
    Ok(memory.accesses())
}

// The blocks of three pages stay on the chip.
#[test]
fn five_calls_on_few_pages_make_no_access(rt: HostRuntime) -> Result<(), Fail> {
    for calls in 0..6u32.pow(5) {
        let accesses = follow_anew(&rt, rt.alloc(), Layout::One, 1, &[0, 1, 2], calls)?;
        assert_eq!(rt; (calls, accesses), (calls, 0));
    }
    Ok(())
}

// The three pages are in one set of two ways, and the first call counts a write in the first of them. So many accesses there are
// in all.
#[test]
fn five_calls_that_evict_are_those_of_a_list_of_counts(rt: HostRuntime) -> Result<(), Fail> {
    let mut accesses = 0u64;
    for calls in 0..1_296u32 {
        let calls = 6 * calls + 3;
        let more = follow_anew(&rt, rt.alloc(), Layout::One, 3, &[0, 16, 32], calls)?;
        accesses = accesses.saturating_add(more);
    }
    assert_eq!(rt; accesses, 3_922);
    Ok(())
}

// A page that is asked for or counted in, by a number that goes on.
fn after(number: u32) -> u32 {
    number.wrapping_mul(1_664_525).wrapping_add(1_013_904_223)
}

// Calls over all pages, of which `writes` counts those that count. How many accesses there are in all, and in one call at most.
fn in_no_order<T: Tagger>(
    rt: &impl Abort,
    memory: &mut Memory<T>,
    writes: &mut [u8],
) -> (u64, u64) {
    let pages = memory.geometry.pages();
    assert!(rt; pages > 0);
    let mut number = 7;
    let mut total = 0u64;
    let mut greatest = 0u64;
    for call in 0..900u32 {
        number = after(number);
        let page = (number >> 8) % pages;
        let at = page as usize;
        assert!(rt; at < writes.len());
        if number % 3 == 0 {
            let counters = memory.get(rt, page);
            assert_eq!(rt; (call, counters), (call, Ok(written(writes[at]))));
        } else {
            writes[at] = writes[at].saturating_add(1);
            memory.write(rt, page, writes[at]);
        }
        let accesses = memory.accesses();
        total = total.saturating_add(accesses);
        greatest = greatest.max(accesses);
    }
    (total, greatest)
}

// In a memory of 16 pages or fewer all blocks stay on the chip. Where level 1 has more than 16 nodes, nodes go out as well.
#[test]
fn calls_in_no_order_are_those_of_a_list_of_counts(rt: HostRuntime) -> Result<(), Fail> {
    let rows = [
        (Layout::One, 2, 0, 0),
        (Layout::One, 3, 752, 2),
        (Layout::One, 4, 2289, 6),
        (Layout::One, 5, 3551, 11),
        (Layout::Two, 1, 0, 0),
        (Layout::Two, 2, 752, 2),
        (Layout::Two, 3, 2226, 6),
    ];
    for (layout, levels, in_all, most) in rows {
        let mut memory = honest(rt.alloc(), layout, levels)?;
        let pages = memory.geometry.pages();
        let mut writes = vec![in rt.alloc(); 0u8; pages as usize]?;
        let accesses = in_no_order(&rt, &mut memory, writes.as_mut_slice());
        assert_eq!(rt;
            (layout, levels, accesses),
            (layout, levels, (in_all, most))
        );
    }
    Ok(())
}

// Pages 0, 32 and 64 of a tree of four levels are in one set, and so are the nodes above them, (1, 0), (1, 8) and (1, 16). The
// block of page 64 went out, and that of page 0 is changed. So a call for page 64 writes (1, 16), writes (0, 0), and reads (1, 16)
// and (0, 64). Whichever access is refused, no counter changes, and the next call answers.
fn refuse<T: Tagger>(rt: &impl Abort, memory: &mut Memory<T>, most: u64, bumps: bool) {
    memory.write(rt, 64, 1);
    memory.write(rt, 0, 1);
    memory.holds(rt, 32, 0, 1);
    memory.bus.refuse_after(most);
    let stop = if bumps {
        memory.bump(rt, 64, 0, 0).err()
    } else {
        memory.get(rt, 64).err()
    };
    assert_eq!(rt; (most, stop), (most, Some(MemStop::NoMemory)));
    memory.holds(rt, 32, 0, most.saturating_add(1));
    memory.bus.refuse_none();
    assert_eq!(rt; (most, memory.get(rt, 0)), (most, Ok(written(1))));
    assert_eq!(rt; (most, memory.get(rt, 64)), (most, Ok(written(1))));
}

#[test]
fn each_access_that_is_refused_is_want_of_memory(rt: HostRuntime) -> Result<(), Fail> {
    for most in 0..4u64 {
        for bumps in [false, true] {
            let mut memory = honest(rt.alloc(), Layout::One, 4)?;
            refuse(&rt, &mut memory, most, bumps);
            let (_, evidence) = memory.finish();
            assert_eq!(rt; (most, evidence), (most, None));
        }
    }
    Ok(())
}

const TAMPERED: MemStop = MemStop::Tampered(Place::Node { level: 0, index: 0 });

// The block of page 0 went out after one write, and a bit of it is flipped as it is read.
fn false_block<T: Tagger>(
    rt: &impl Abort,
    alloc: Global,
    tagger: T,
    shape: (Layout, u8),
    offset: u8,
) -> Result<Memory<T>, Fail>
    requires { offset < 64 }
{
    let mut memory = flipped(alloc, tagger, shape.0, shape.1, 0, 1, offset)?;
    go_out(rt, &mut memory);
    Ok(memory)
}

// It is read again, and then the bus tells the truth.
fn flipped_get(rt: &impl Abort, alloc: Global, shape: (Layout, u8), offset: u8) -> Result<(), Fail>
    requires { offset < 64 }
{
    let mut memory = false_block(rt, alloc, PrefixTagger, shape, offset)?;
    assert_eq!(rt; (offset, memory.get(rt, 0)), (offset, Err(TAMPERED)));
    assert_eq!(rt; (offset, memory.bus.lies()), (offset, 1));
    assert_eq!(rt; (offset, memory.get(rt, 0)), (offset, Ok(written(1))));
    assert_eq!(rt; (offset, memory.finish()), (offset, (1, None)));
    Ok(())
}

fn flipped_bump(rt: &impl Abort, alloc: Global, shape: (Layout, u8), offset: u8) -> Result<(), Fail>
    requires { offset < 64 }
{
    let mut memory = false_block(rt, alloc, PrefixTagger, shape, offset)?;
    assert_eq!(rt; (offset, memory.bump(rt, 0, 0, 0)), (offset, Err(TAMPERED)));
    assert_eq!(rt; (offset, memory.accesses()), (offset, 1));
    assert_eq!(rt; (offset, memory.finish()), (offset, (1, None)));
    Ok(())
}

// A tag of layout One covers a block's first ten bytes, and one of layout Two its first two: of the last of them all bits but the
// lowest, which is set in every tag.
#[test]
fn a_flipped_counter_is_tampering(rt: HostRuntime) -> Result<(), Fail> {
    let rows = [
        ((Layout::One, 3), 0),
        ((Layout::One, 3), 7),
        ((Layout::One, 3), 8),
        ((Layout::Two, 2), 0),
        ((Layout::Two, 3), 0),
    ];
    for (shape, offset) in rows {
        flipped_get(&rt, rt.alloc(), shape, offset)?;
        flipped_bump(&rt, rt.alloc(), shape, offset)?;
    }
    Ok(())
}

// A block that passes is used as it was answered, then and from its copy.
fn passes<T: Tagger>(
    rt: &impl Abort,
    alloc: Global,
    tagger: T,
    shape: (Layout, u8),
    offset: u8,
    tag: [u8; 16],
) -> Result<(), Fail>
    requires { offset < 64 }
{
    let mut memory = false_block(rt, alloc, tagger, shape, offset)?;
    let mut accepted = written(1).to_bytes();
    accepted[offset as usize] ^= 1;
    let block = CounterBlock::from_bytes(&accepted);
    assert_eq!(rt;
        (memory.get(rt, 0), memory.get(rt, 0)),
        (Ok(block), Ok(block))
    );
    assert_eq!(rt; memory.bus.lies(), 1);
    let collision = Evidence::Collision {
        level: 0,
        index: 0,
        made_at: 0,
        accepted,
        tag,
    };
    assert_eq!(rt; memory.finish(), (1, Some(collision)));
    Ok(())
}

// All tags of one tagger are alike, and that of the other leaves out the lowest bit of byte 9, or of byte 1 under layout Two, and all
// bytes behind it.
#[test]
fn a_block_that_passes_is_used_and_shown(rt: HostRuntime) -> Result<(), Fail> {
    let alike = [0, 0, 0, 0, 0, 0, 0, 0, 0, 0, 0, 0, 0, 0, 0, 1];
    let of_bytes = [0x4e, 0, 0, 0, 0, 0, 0, 0, 0, 0, 0, 0, 0, 0, 1, 1];
    let one = (Layout::One, 3);
    passes(&rt, rt.alloc(), ZeroTagger, one, 8, alike)?;
    passes(&rt, rt.alloc(), ZeroTagger, one, 0, alike)?;
    passes(&rt, rt.alloc(), PrefixTagger, one, 9, of_bytes)
}

#[test]
fn a_block_that_passes_under_layout_two_is_used_and_shown(rt: HostRuntime) -> Result<(), Fail> {
    let alike = [0, 0, 0, 0, 0, 0, 0, 1, 0, 0, 0, 0, 0, 0, 0, 0];
    let of_bytes = [0x4e, 0, 0, 0, 0, 0, 0, 1, 0, 0, 0, 0, 0, 0, 0, 0];
    passes(&rt, rt.alloc(), ZeroTagger, (Layout::Two, 2), 0, alike)?;
    for levels in [2, 3u8] {
        for offset in [1, 2, 8, 63u8] {
            let shape = (Layout::Two, levels);
            passes(&rt, rt.alloc(), PrefixTagger, shape, offset, of_bytes)?;
        }
    }
    Ok(())
}
