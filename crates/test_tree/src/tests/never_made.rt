// Nodes that were never made: their places are not read.
use super::counted::{Counted, TALL, booted, refusing, shape};
use super::evictions::push_out;
use fakes::Access;
use sec_base::{Layout, MemStop, NoMemory, Place, Tagger};
use std::process::Abort;
use std::test::Fail;

// A bus that refuses whatever it is asked for is asked for nothing.
#[test]
fn boot_and_a_fetch_of_what_was_never_made_make_no_access(rt: HostRuntime) -> Result<(), Fail> {
    for (layout, most) in [(Layout::One, 4), (Layout::Two, 3)] {
        for levels in 1..=most {
            let mut tree = refusing(rt.alloc(), shape(layout, levels)?)?;
            assert!(rt; tree.asked(&[]), "{layout:?}, {levels} levels");
            tree.fetches_zeros(&rt);
            assert_eq!(rt; tree.finish(), (0, None), "{layout:?}, {levels} levels");
        }
    }
    Ok(())
}

// Other bytes at places of nodes.
fn litter<T: Tagger>(
    rt: &impl Abort,
    tree: &mut Counted<T>,
    places: &[(u8, u32)],
) -> Result<(), NoMemory> {
    for (level, index) in places {
        tree.store(rt, *level, *index, &[3; 64])?;
    }
    tree.bus.clear_log();
    Ok(())
}

// Nodes that are never made, beside and above which nodes go out.
const UNMADE_OF_FOUR: [(u8, u32); 10] = [
    (0, 1),
    (0, 32),
    (0, 64),
    (1, 8),
    (1, 16),
    (2, 0),
    (2, 2),
    (2, 4),
    (3, 0),
    (4, 0),
];

const UNMADE_OF_EIGHT: [(u8, u32); 9] = [
    (0, 1),
    (0, 64),
    (0, 128),
    (1, 8),
    (1, 16),
    (2, 0),
    (2, 1),
    (2, 2),
    (3, 0),
];

// It goes on as without them.
#[test]
fn the_place_of_a_node_that_was_never_made_is_not_read(rt: HostRuntime) -> Result<(), Fail> {
    let [(_, levels, step), (two, levels_of_two, step_of_two)] = TALL;
    let mut tree = booted(rt.alloc(), shape(Layout::One, levels)?)?;
    litter(&rt, &mut tree, &UNMADE_OF_FOUR)?;
    push_out(&rt, &mut tree, step);
    let mut tree = booted(rt.alloc(), shape(two, levels_of_two)?)?;
    litter(&rt, &mut tree, &UNMADE_OF_EIGHT)?;
    push_out(&rt, &mut tree, step_of_two);
    Ok(())
}

// Of a block of zeros of page 0 `Quarters` gives zeros.
#[test]
fn a_block_of_zeros_that_was_made_is_read(rt: HostRuntime) -> Result<(), Fail> {
    for layout in [Layout::One, Layout::Two] {
        let mut tree = booted(rt.alloc(), shape(layout, 1)?)?;
        tree.updates(&rt, 0, 0, &[Access::WriteNode(0, 0)]);
        tree.fetches(&rt, 0, 0, &[Access::ReadNode(0, 0)]);
        tree.fetches(&rt, 1, 0, &[]);
        tree.store(&rt, 0, 0, &[1; 64])?;
        let tampered = MemStop::Tampered(Place::Node { level: 0, index: 0 });
        assert_eq!(rt; tree.fetch(&rt, 0), Err(tampered), "{layout:?}");
    }
    Ok(())
}
