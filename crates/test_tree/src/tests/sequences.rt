// Many calls one after another, beside a list of blocks.
use super::counted::{Counted, TALL, booted, shape};
use sec_base::{Geometry, Layout, Tagger};
use std::alloc::Global;
use std::process::Abort;
use std::test::Fail;

// A page that is asked for or gets a block, by a number that goes on.
fn after(number: u32) -> u32 {
    number.wrapping_mul(1_664_525).wrapping_add(1_013_904_223)
}

// So many accesses there are in 600 calls over these pages, and in one call at most.
fn in_no_order(
    rt: &impl Abort,
    alloc: Global,
    geometry: Geometry,
    pages: u32,
    step: u32,
) -> Result<(usize, usize), Fail> {
    assert!(rt; 0 < pages && pages <= 16 && step <= 4096);
    let mut tree = booted(alloc, geometry)?;
    let mut blocks = [0u8; 16];
    let mut number = 7;
    let mut total = 0usize;
    let mut greatest = 0usize;
    for call in 0..600u32 {
        number = after(number);
        let at = (number >> 8) % pages;
        let byte = (call % 251) as u8;
        let update = if number % 3 == 0 { None } else { Some(byte) };
        blocks[at as usize] = tree.follow(rt, at * step, blocks[at as usize], update);
        let accesses = tree.accesses();
        total = total.wrapping_add(accesses);
        greatest = greatest.max(accesses);
    }
    Ok((total, greatest))
}

// In trees of four levels and more, of layout Two of three and more, the nodes above these eight pages share a set of each level
// that has one too small: nodes of level 1 go out there, with a level more also those of level 2, and with two more those of level
// 3. So many accesses there are in all, and in one call at most.
#[test]
fn calls_in_no_order_are_those_of_a_list_of_blocks(rt: HostRuntime) -> Result<(), Fail> {
    let rows = [
        (Layout::One, 1, 4, 1, 595, 1),
        (Layout::One, 2, 16, 1, 590, 1),
        (Layout::One, 3, 16, 4, 590, 1),
        (Layout::One, 4, 8, 32, 1372, 3),
        (Layout::One, 5, 8, 128, 2341, 7),
        (Layout::One, 6, 8, 512, 3353, 11),
        (Layout::Two, 1, 8, 1, 594, 1),
        (Layout::Two, 2, 16, 4, 590, 1),
        (Layout::Two, 3, 8, 64, 1372, 3),
        (Layout::Two, 4, 8, 512, 2341, 7),
        (Layout::Two, 5, 8, 4096, 3353, 11),
    ];
    for (layout, levels, pages, step, in_all, most) in rows {
        let accesses = in_no_order(&rt, rt.alloc(), shape(layout, levels)?, pages, step)?;
        assert_eq!(rt; accesses, (in_all, most), "{layout:?}, {levels}");
    }
    Ok(())
}

// A sequence is a number, and each of its digits says a page and whether that is fetched or gets a block.
fn five_calls<T: Tagger>(
    rt: &impl Abort,
    tree: &mut Counted<T>,
    blocks: &mut [u8; 6],
    sequence: u32,
    pages: u32,
    step: u32,
) {
    assert!(rt; 0 < pages && pages <= 6 && step <= 64 && sequence < 1_000_000);
    let mut rest = sequence;
    for call in 0..5u32 {
        let at = rest % pages;
        rest /= pages;
        let byte = ((sequence + call) % 251) as u8;
        let update = if rest % 2 == 0 { None } else { Some(byte) };
        blocks[at as usize] = tree.follow(rt, at * step, blocks[at as usize], update);
        rest /= 2;
    }
}

// All sequences over some pages, one after another, each of which makes so many accesses at most.
fn sequences(
    rt: &impl Abort,
    alloc: Global,
    geometry: Geometry,
    pages: u32,
    step: u32,
    sequences: u32,
    most: usize,
) -> Result<(), Fail> {
    let mut tree = booted(alloc, geometry)?;
    let mut blocks = [0u8; 6];
    for sequence in 0..sequences {
        five_calls(rt, &mut tree, &mut blocks, sequence, pages, step);
        assert!(rt; tree.accesses() <= most, "{geometry:?}, {sequence}");
    }
    Ok(())
}

// All sequences of five calls over four pages of one level, where only the pages' blocks reach the bus, and over three pages whose
// nodes of level 1 share a set of two ways.
#[test]
fn all_sequences_of_five_calls_are_those_of_a_list_of_blocks(rt: HostRuntime) -> Result<(), Fail> {
    for (layout, levels, step) in TALL {
        sequences(&rt, rt.alloc(), shape(layout, 1)?, 4, 1, 32_768, 5)?;
        sequences(&rt, rt.alloc(), shape(layout, levels)?, 3, step, 7_776, 11)?;
    }
    Ok(())
}
