// Lines of memories whose tree has nodes of eight children.
ghost use Rattle.std.specs.Prelude.{◌<◌, ◌∷◌, [], refl, replicate, slice_index};
ghost use Rattle.sec_base.specs.Geometry.{two};
ghost use Rattle.sec_base.specs.Place.{stored_size};

use fakes::CountingBus;
use page_cases::{Memory, once};
use sec_base::{Counter, Geometry, Layout, LineStore, MemStop, Place, Tagger};
use std::alloc::Global;
use std::process::Abort;
use std::test::Fail;

// Gives the two counters of a line, each by its lowest byte, and its first byte; of a node its level, the lowest byte of its
// index, and of its block the first byte, one with a part of the counter at place 5, and that in which a child's tag has this.
// What stands behind the first eight bytes is left out of a slot.
#[derive(Drop)]
pub struct FewBytes;

impl Tagger for FewBytes {
    ghost data_tag_of = { λ _ m. slice_index m 5 ∷ slice_index m 13 ∷ slice_index m 14 ∷ replicate 13 255 };

    ghost node_tag_of = { λ _ m. slice_index m 1 ∷ slice_index m 2 ∷ slice_index m 6 ∷ slice_index m 18 ∷ slice_index m 9
        ∷ replicate 11 255 };

    ghost data_tag_long = { λ _ _. refl };

    ghost node_tag_long = { λ _ _. refl };

    fn data_tag(&self, m: &[u8; 78]) -> [u8; 16] {
        [
            m[5], m[13], m[14], 255, 255, 255, 255, 255, 255, 255, 255, 255, 255, 255, 255, 255,
        ]
    }

    fn node_tag(&self, m: &[u8; 70]) -> [u8; 16] {
        [
            m[1], m[2], m[6], m[18], m[9], 255, 255, 255, 255, 255, 255, 255, 255, 255, 255, 255,
        ]
    }
}

// Over a bus that flips a bit at the `k`-th read of a place.
fn flipping(
    alloc: Global,
    levels: u8,
    place: Place,
    k: u64,
    offset: u8,
) -> Result<Memory<FewBytes>, Fail>
    requires { offset < stored_size (two levels) place }
{
    let geometry = Geometry::with(Layout::Two, levels).ok_or("no geometry")?;
    let bus = CountingBus::flipping(alloc, geometry, place, k, offset)?;
    Memory::over(alloc, bus, FewBytes, geometry, u64::MAX)
}

// The counter block of page 1 goes out for that of page 33, and comes back.
#[test]
fn eight_children_a_node_keep_what_was_written_last(rt: HostRuntime) -> Result<(), Fail> {
    let mut memory = flipping(rt.alloc(), 2, Place::Line(0), 0, 0)?;
    assert_eq!(rt; memory.lines.lines(), 4096);
    assert_eq!(rt; memory.fill(64, 1), Ok(()));
    assert_eq!(rt; memory.fill(64, 2), Ok(()));
    assert_eq!(rt; memory.fill(4095, 3), Ok(()));
    assert_eq!(rt; memory.read(64 * 17), Ok([0; 64]));
    assert_eq!(rt; memory.read(64 * 33), Ok([0; 64]));
    assert_eq!(rt; memory.read(64), Ok([2; 64]));
    assert_eq!(rt; memory.read(4095), Ok([3; 64]));
    let (account, bus) = memory.finish();
    let again = (64, Counter { page: 0, line: 2 });
    let wanted = [once(64), again, once(4095)];
    assert_eq!(rt; account.used.as_slice(), wanted.as_slice());
    assert_eq!(rt; (account.made.len(), bus.asked()), (4, 7));
    assert_eq!(rt; account.evidence, None);
    Ok(())
}

// Line 64 is written, and the first lines of these pages are read: as many messages as there are levels were made by then, of the
// line, of its counter block and of the node above it.
fn assert_caught(
    rt: &impl Abort,
    alloc: Global,
    levels: u8,
    pages: &[u32],
    place: Place,
    offset: u8,
) -> Result<(), Fail>
    requires { offset < stored_size (two levels) place }
{
    let mut memory = flipping(alloc, levels, place, 1, offset)?;
    assert_eq!(rt; memory.fill(64, 1), Ok(()), "{place}");
    for page in pages {
        let line = page.saturating_mul(64);
        assert_eq!(rt; memory.read(line), Ok([0; 64]), "{place}");
    }
    let tampered = Err(MemStop::Tampered(place));
    assert_eq!(rt; memory.read(64), tampered, "{place}");
    assert_eq!(rt; memory.read(64), tampered, "{place}");
    let (account, bus) = memory.finish();
    let counts = (account.made.len(), bus.lies());
    assert_eq!(rt; counts, (u64::from(levels), 1), "{place}");
    assert_eq!(rt; account.evidence, None, "{place}");
    Ok(())
}

// A line's first byte, the last byte of its tag, and the first byte of each node on its path that leaves the chip.
#[test]
fn a_flipped_bit_below_eight_children_is_tampering(rt: HostRuntime) -> Result<(), Fail> {
    let line = Place::Line(64);
    let block = Place::Node { level: 0, index: 1 };
    let node = Place::Node { level: 1, index: 0 };
    assert_caught(&rt, rt.alloc(), 1, &[], line, 0)?;
    assert_caught(&rt, rt.alloc(), 1, &[], line, 71)?;
    assert_caught(&rt, rt.alloc(), 2, &[17, 33], line, 0)?;
    assert_caught(&rt, rt.alloc(), 2, &[17, 33], line, 71)?;
    assert_caught(&rt, rt.alloc(), 2, &[17, 33], block, 0)?;
    assert_caught(&rt, rt.alloc(), 3, &[65, 129, 193], line, 0)?;
    assert_caught(&rt, rt.alloc(), 3, &[65, 129, 193], line, 71)?;
    assert_caught(&rt, rt.alloc(), 3, &[65, 129, 193], block, 0)?;
    assert_caught(&rt, rt.alloc(), 3, &[65, 129, 193], node, 0)?;
    Ok(())
}
