// Each node with a bit that is flipped.
use super::counted::{Quarters, flipped, shape};
use sec_base::{Geometry, Layout};
use std::alloc::Global;
use std::process::Abort;
use std::test::Fail;

// Where the flipped bit is met of a node that is false at its `k`-th read.
fn caught(
    rt: &impl Abort,
    alloc: Global,
    geometry: Geometry,
    node: (u8, u32),
    k: u64,
) -> Result<Option<(u8, u32)>, Fail> {
    let mut tree = flipped(alloc, geometry, node, k, 0, Quarters)?;
    Ok(tree.caught_at(rt, node.0, node.1))
}

// Each node of a level, which stands above so many pages, is false at its first read, and in another tree at its second. In which pass
// the first is met, for the first page below the node; the second is never met.
fn each_caught(
    rt: &impl Abort,
    alloc: Global,
    geometry: Geometry,
    level: u8,
    pages: u32,
    first: Option<u8>,
) -> Result<(), Fail> {
    assert!(rt; level <= geometry.levels());
    for index in 0..geometry.width(level) {
        assert!(rt; index <= 512 && pages <= 512);
        let page = index * pages;
        for (k, pass) in [(1, first), (2, None)] {
            let caught = caught(rt, alloc, geometry, (level, index), k)?;
            assert_eq!(rt;
                caught,
                pass.map(|pass| (pass, page)),
                "node {level} {index} of {geometry:?}, read {k}"
            );
        }
    }
    Ok(())
}

// A node of level k stands above 4^k pages, and is read for the first of them, when that is fetched: where it was made. So are all
// counter blocks; the 64 nodes of level 1 of a tree of four levels have gone out by then, and those above stay on the chip.
#[test]
fn each_node_that_is_flipped_is_tampering_at_that_read(rt: HostRuntime) -> Result<(), Fail> {
    let rows = [
        (1, 0, 1, Some(1)),
        (1, 1, 4, None),
        (3, 0, 1, Some(1)),
        (3, 1, 4, None),
        (4, 1, 4, Some(1)),
        (4, 2, 16, None),
        (4, 4, 256, None),
    ];
    for (levels, level, pages, first) in rows {
        let geometry = shape(Layout::One, levels)?;
        each_caught(&rt, rt.alloc(), geometry, level, pages, first)?;
    }
    Ok(())
}

// Under layout Two a node of level k stands above 8^k pages, and the 64 nodes of level 1 are those of a tree of three levels.
#[test]
fn so_is_each_of_layout_two(rt: HostRuntime) -> Result<(), Fail> {
    let rows = [
        (1, 0, 1, Some(1)),
        (1, 1, 8, None),
        (2, 0, 1, Some(1)),
        (2, 1, 8, None),
        (3, 1, 8, Some(1)),
        (3, 2, 64, None),
        (3, 3, 512, None),
    ];
    for (levels, level, pages, first) in rows {
        let geometry = shape(Layout::Two, levels)?;
        each_caught(&rt, rt.alloc(), geometry, level, pages, first)?;
    }
    Ok(())
}
