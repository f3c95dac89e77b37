// Nodes that go out and come back.
use super::counted::{Counted, TALL, booted, shape};
use fakes::Access;
use sec_base::{Layout, Tagger};
use std::process::Abort;
use std::test::Fail;

// What was never made comes without an access; node (1, 0), which was changed, goes out for (1, 16), and is read as it comes back.
pub(crate) fn push_out<T: Tagger>(rt: &impl Abort, tree: &mut Counted<T>, step: u32) {
    assert!(rt; step <= 64);
    tree.updates(rt, 0, 9, &[Access::WriteNode(0, 0)]);
    tree.fetches(rt, 1, 0, &[]);
    tree.fetches(rt, step, 0, &[]);
    tree.fetches(rt, 2 * step, 0, &[Access::WriteNode(1, 0)]);
    tree.fetches(rt, 0, 9, &[Access::ReadNode(1, 0), Access::ReadNode(0, 0)]);
    tree.fetches(rt, 1, 0, &[]);
}

#[test]
fn a_changed_node_is_written_when_it_goes_out(rt: HostRuntime) -> Result<(), Fail> {
    for (layout, levels, step) in TALL {
        let mut tree = booted(rt.alloc(), shape(layout, levels)?)?;
        push_out(&rt, &mut tree, step);
    }
    Ok(())
}

// The last page below the first node of level 1 under layout Two has the last slot of it, and the page behind it the first slot of
// the next one.
#[test]
fn a_node_of_layout_two_stands_above_eight_pages(rt: HostRuntime) -> Result<(), Fail> {
    let mut tree = booted(rt.alloc(), shape(Layout::Two, 3)?)?;
    for page in 0..9u8 {
        tree.updates(
            &rt,
            u32::from(page),
            page + 1,
            &[Access::WriteNode(0, u32::from(page))],
        );
    }
    tree.fetches(&rt, 64, 0, &[]);
    tree.fetches(&rt, 128, 0, &[Access::WriteNode(1, 0)]);
    tree.fetches(&rt, 7, 8, &[Access::ReadNode(1, 0), Access::ReadNode(0, 7)]);
    for page in 0..9u8 {
        tree.fetches(
            &rt,
            u32::from(page),
            page + 1,
            &[Access::ReadNode(0, u32::from(page))],
        );
    }
    assert_eq!(rt; tree.finish(), (10, None));
    Ok(())
}

// Each child's tag has eight bytes of a node of layout Two: of `Quarters` the first byte of each quarter of the child's block, its
// level, the lowest byte of its index, a zero, and the bit that each tag has.
#[test]
fn a_slot_of_layout_two_has_eight_bytes(rt: HostRuntime) -> Result<(), Fail> {
    let mut tree = booted(rt.alloc(), shape(Layout::Two, 3)?)?;
    for page in [1, 7] {
        tree.updates(&rt, page, 9, &[Access::WriteNode(0, page)]);
    }
    tree.fetches(&rt, 64, 0, &[]);
    tree.fetches(&rt, 128, 0, &[Access::WriteNode(1, 0)]);
    let mut block = [0; 64];
    block[8..16].copy_from_slice(&[9, 9, 9, 9, 0, 1, 0, 1]);
    block[56..64].copy_from_slice(&[9, 9, 9, 9, 0, 7, 0, 1]);
    assert_eq!(rt; tree.stored(&rt, 1, 0)?, block);
    Ok(())
}
