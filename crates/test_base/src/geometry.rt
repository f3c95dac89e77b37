// The shapes of memories. The numbers were worked out by hand from the powers of 4 and 8: a level has as many nodes as the
// layout's number of children to the power of the levels above it, a page has 64 lines of 64 bytes, and a node's number is
// that of its level's nodes and its index.
use sec_base::{Geometry, Layout, Place};
use std::test::Fail;

// Layout, levels, pages, lines, bytes, and the length of a list of the nodes.
const SHAPES: [(Layout, u8, u32, u32, u32, u32); 13] = [
    (Layout::One, 1, 4, 256, 16384, 8),
    (Layout::One, 2, 16, 1024, 65536, 32),
    (Layout::One, 3, 64, 4096, 262144, 128),
    (Layout::One, 4, 256, 16384, 1048576, 512),
    (Layout::One, 5, 1024, 65536, 4194304, 2048),
    (Layout::One, 6, 4096, 262144, 16777216, 8192),
    (Layout::One, 7, 16384, 1048576, 67108864, 32768),
    (Layout::One, 8, 65536, 4194304, 268435456, 131072),
    (Layout::Two, 1, 8, 512, 32768, 16),
    (Layout::Two, 2, 64, 4096, 262144, 128),
    (Layout::Two, 3, 512, 32768, 2097152, 1024),
    (Layout::Two, 4, 4096, 262144, 16777216, 8192),
    (Layout::Two, 5, 32768, 2097152, 134217728, 65536),
];

#[test]
fn trees_have_one_to_eight_levels_or_five(rt: HostRuntime) {
    for levels in 0..=u8::MAX {
        let by_new = Geometry::new(levels);
        let one = Geometry::with(Layout::One, levels);
        let two = Geometry::with(Layout::Two, levels);
        assert_eq!(rt; by_new.is_some(), levels >= 1 && levels <= 8, "at {levels}");
        assert_eq!(rt; one, by_new, "at {levels}");
        assert_eq!(rt; two.is_some(), levels >= 1 && levels <= 5, "at {levels}");
    }
}

#[test]
fn sizes_grow_by_four_or_eight(rt: HostRuntime) -> Result<(), Fail> {
    for (layout, levels, pages, lines, size, end) in SHAPES {
        let geometry = Geometry::with(layout, levels).ok_or("no geometry")?;
        assert_eq!(rt; (geometry.layout(), geometry.levels()), (layout, levels));
        assert_eq!(rt; geometry.pages(), pages, "pages of {geometry:?}");
        assert_eq!(rt; geometry.lines(), lines, "lines of {geometry:?}");
        assert_eq!(rt; geometry.size(), size, "size of {geometry:?}");
        assert_eq!(rt; geometry.node_end(), end, "nodes of {geometry:?}");
    }
    Ok(())
}

#[test]
fn a_layout_has_its_slots(rt: HostRuntime) -> Result<(), Fail> {
    for (layout, levels, ..) in SHAPES {
        let geometry = Geometry::with(layout, levels).ok_or("no geometry")?;
        let slots = match layout {
            Layout::One => (4, 16),
            Layout::Two => (8, 8),
        };
        assert_eq!(rt;
            (geometry.arity(), geometry.slot_len()),
            slots,
            "{geometry:?}"
        );
    }
    Ok(())
}

#[test]
fn places_end_at_the_borders(rt: HostRuntime) -> Result<(), Fail> {
    for (layout, levels, pages, lines, ..) in SHAPES {
        let geometry = Geometry::with(layout, levels).ok_or("no geometry")?;
        let last_line = Place::Line(lines.saturating_sub(1));
        let last_page = Place::Node {
            level: 0,
            index: pages.saturating_sub(1),
        };
        let top = Place::Node {
            level: levels,
            index: 0,
        };
        for place in [Place::Line(0), last_line, last_page, top] {
            assert!(rt; geometry.contains(place), "{place:?} of {geometry:?}");
        }
        let next_page = Place::Node {
            level: 0,
            index: pages,
        };
        let beside = Place::Node {
            level: levels,
            index: 1,
        };
        let above = Place::Node {
            level: levels.saturating_add(1),
            index: 0,
        };
        for place in [Place::Line(lines), next_page, beside, above] {
            assert!(rt; !geometry.contains(place), "{place:?} of {geometry:?}");
        }
    }
    Ok(())
}

// The number of nodes of a level, where there is such a level.
fn width_of(geometry: &Geometry, level: u8) -> Option<u32> {
    if level > geometry.levels() {
        return None;
    }
    Some(geometry.width(level))
}

// Layout, levels, and the number of nodes of each level from the lowest on.
const WIDTHS: [(Layout, u8, &[u32]); 13] = [
    (Layout::One, 1, &[4, 1]),
    (Layout::One, 2, &[16, 4, 1]),
    (Layout::One, 3, &[64, 16, 4, 1]),
    (Layout::One, 4, &[256, 64, 16, 4, 1]),
    (Layout::One, 5, &[1024, 256, 64, 16, 4, 1]),
    (Layout::One, 6, &[4096, 1024, 256, 64, 16, 4, 1]),
    (Layout::One, 7, &[16384, 4096, 1024, 256, 64, 16, 4, 1]),
    (
        Layout::One,
        8,
        &[65536, 16384, 4096, 1024, 256, 64, 16, 4, 1],
    ),
    (Layout::Two, 1, &[8, 1]),
    (Layout::Two, 2, &[64, 8, 1]),
    (Layout::Two, 3, &[512, 64, 8, 1]),
    (Layout::Two, 4, &[4096, 512, 64, 8, 1]),
    (Layout::Two, 5, &[32768, 4096, 512, 64, 8, 1]),
];

#[test]
fn levels_have_their_widths(rt: HostRuntime) -> Result<(), Fail> {
    for (layout, levels, widths) in WIDTHS {
        let geometry = Geometry::with(layout, levels).ok_or("no geometry")?;
        assert_eq!(rt; widths.len(), usize::from(levels) + 1);
        for (level, width) in (0..=levels).zip(widths) {
            assert_eq!(rt;
                width_of(&geometry, level),
                Some(*width),
                "{level} of {geometry:?}"
            );
        }
        assert_eq!(rt; width_of(&geometry, levels.saturating_add(1)), None);
    }
    Ok(())
}

// The number of a node, where it is one of the tree's.
fn number_of(geometry: &Geometry, level: u8, index: u32) -> Option<u32> {
    if !geometry.contains(Place::Node { level, index }) {
        return None;
    }
    Some(geometry.node_number(level, index))
}

// A node's parent, and the node's slot there, where it has one.
fn parent_of(geometry: &Geometry, level: u8, index: u32) -> Option<((u8, u32), u32)> {
    if level >= geometry.levels() || !geometry.contains(Place::Node { level, index }) {
        return None;
    }
    Some((geometry.parent(level, index), geometry.slot(index)))
}

// The index of a node's child, where it has one in this slot.
fn child_of(geometry: &Geometry, level: u8, index: u32, slot: u32) -> Option<u32> {
    if level == 0 || slot >= geometry.arity() || !geometry.contains(Place::Node { level, index }) {
        return None;
    }
    Some(geometry.child(level, index, slot))
}

// Layout, levels, the level and the index of a node, its number, its parent, and its slot there.
const NODES: [(Layout, u8, (u8, u32), u32, (u8, u32), u32); 22] = [
    (Layout::One, 1, (0, 3), 7, (1, 0), 3),
    (Layout::One, 2, (0, 13), 29, (1, 3), 1),
    (Layout::One, 2, (1, 3), 7, (2, 0), 3),
    (Layout::One, 3, (1, 10), 26, (2, 2), 2),
    (Layout::One, 4, (0, 254), 510, (1, 63), 2),
    (Layout::One, 5, (2, 63), 127, (3, 15), 3),
    (Layout::One, 6, (0, 4095), 8191, (1, 1023), 3),
    (Layout::One, 7, (1, 2049), 6145, (2, 512), 1),
    (Layout::One, 8, (0, 65535), 131071, (1, 16383), 3),
    (Layout::One, 8, (0, 27), 65563, (1, 6), 3),
    (Layout::One, 8, (3, 1000), 2024, (4, 250), 0),
    (Layout::One, 8, (7, 2), 6, (8, 0), 2),
    (Layout::Two, 1, (0, 7), 15, (1, 0), 7),
    (Layout::Two, 2, (0, 13), 77, (1, 1), 5),
    (Layout::Two, 3, (0, 511), 1023, (1, 63), 7),
    (Layout::Two, 3, (1, 42), 106, (2, 5), 2),
    (Layout::Two, 4, (0, 4095), 8191, (1, 511), 7),
    (Layout::Two, 4, (2, 20), 84, (3, 2), 4),
    (Layout::Two, 5, (0, 32767), 65535, (1, 4095), 7),
    (Layout::Two, 5, (0, 27), 32795, (1, 3), 3),
    (Layout::Two, 5, (3, 50), 114, (4, 6), 2),
    (Layout::Two, 5, (4, 6), 14, (5, 0), 6),
];

#[test]
fn nodes_have_parents_and_numbers(rt: HostRuntime) -> Result<(), Fail> {
    for (layout, levels, node, number, parent, slot) in NODES {
        let geometry = Geometry::with(layout, levels).ok_or("no geometry")?;
        let (level, index) = node;
        let (above, at) = parent;
        let found = parent_of(&geometry, level, index);
        assert_eq!(rt; found, Some((parent, slot)), "{node:?} of {geometry:?}");
        let found = child_of(&geometry, above, at, slot);
        assert_eq!(rt; found, Some(index), "{node:?} of {geometry:?}");
        let found = number_of(&geometry, level, index);
        assert_eq!(rt; found, Some(number), "{node:?} of {geometry:?}");
    }
    Ok(())
}

#[test]
fn the_top_node_has_number_1_and_no_parent(rt: HostRuntime) -> Result<(), Fail> {
    for (layout, levels, pages, ..) in SHAPES {
        let geometry = Geometry::with(layout, levels).ok_or("no geometry")?;
        assert_eq!(rt; number_of(&geometry, levels, 0), Some(1), "{geometry:?}");
        assert_eq!(rt; parent_of(&geometry, levels, 0), None, "{geometry:?}");
        assert_eq!(rt; number_of(&geometry, 0, 0), Some(pages), "{geometry:?}");
        assert_eq!(rt; child_of(&geometry, 0, 0, 0), None, "{geometry:?}");
    }
    Ok(())
}
