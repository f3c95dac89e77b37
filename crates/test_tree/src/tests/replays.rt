// Nodes that stood there before.
use super::counted::{TALL, booted, shape};
use sec_base::{Layout, MemStop, Place};
use std::alloc::Global;
use std::process::Abort;
use std::test::Fail;

// Page 0 gets a block, and then another; each time the nodes above it go out. The bus then answers the first block again, with the
// node above it or without.
fn replayed(
    rt: &impl Abort,
    alloc: Global,
    tall: (Layout, u8, u32),
    with_parent: bool,
) -> Result<Result<[u8; 64], MemStop>, Fail> {
    let (layout, levels, step) = tall;
    assert!(rt; step <= 64);
    let mut tree = booted(alloc, shape(layout, levels)?)?;
    tree.update(rt, 0, &[1; 64])?;
    tree.fetch(rt, step)?;
    tree.fetch(rt, 2 * step)?;
    let block = tree.stored(rt, 0, 0)?;
    let parent = tree.stored(rt, 1, 0)?;
    tree.update(rt, 0, &[2; 64])?;
    tree.fetch(rt, step)?;
    tree.fetch(rt, 2 * step)?;
    tree.store(rt, 0, 0, &block)?;
    if with_parent {
        tree.store(rt, 1, 0, &parent)?;
    }
    Ok(tree.fetch(rt, 0))
}

#[test]
fn old_nodes_are_tampering_of_the_highest(rt: HostRuntime) -> Result<(), Fail> {
    let highest = |level| Err(MemStop::Tampered(Place::Node { level, index: 0 }));
    for tall in TALL {
        assert_eq!(rt; replayed(&rt, rt.alloc(), tall, false)?, highest(0));
        assert_eq!(rt; replayed(&rt, rt.alloc(), tall, true)?, highest(1));
    }
    Ok(())
}
