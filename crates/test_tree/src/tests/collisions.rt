// Nodes that are false and pass, since all tags are one.
ghost use Rattle.std.specs.Prelude.{◌<◌};

use super::counted::{TALL, flipped, shape};
use fakes::ZeroTagger;
use sec_base::{Evidence, Layout, MemStop, Message, Place};
use std::alloc::Global;
use std::process::Abort;
use std::test::Fail;

// What was made of page 3.
const SIXES: [u8; 64] = [6; 64];

// A tag whose last byte that a slot keeps is 1: all tags are this one where the tagger gives zeros.
fn mark(layout: Layout) -> [u8; 16] {
    let mut tag = [0; 16];
    match layout {
        Layout::One => tag[15] = 1,
        Layout::Two => tag[7] = 1,
    }
    tag
}

// What was made of the node above page 3, where that alone was made of its children.
fn parent(layout: Layout) -> [u8; 64] {
    let mut block = [0; 64];
    match layout {
        Layout::One => block[63] = 1,
        Layout::Two => block[31] = 1,
    }
    block
}

// A block whose byte at an offset has another lowest bit.
fn off_by_a_bit(block: [u8; 64], offset: u8) -> [u8; 64]
    requires { offset < 64 }
{
    let mut block = block;
    block[offset as usize] ^= 1;
    block
}

// What is answered, by how many accesses; the evidence, and a message.
#[derive(Debug, Drop, PartialEq, Eq)]
struct Collided {
    answer: Result<[u8; 64], MemStop>,
    accesses: usize,
    evidence: Option<Evidence>,
    message: Option<Message>,
}

// Page 3 gets its block, and the node above it goes out. Then a page is fetched, where a bit of a node is flipped. The message is
// that of the node: its number is the level's.
fn with_false_node(
    rt: &impl Abort,
    alloc: Global,
    tall: (Layout, u8, u32),
    node: (u8, u32),
    offset: u8,
    page: u32,
) -> Result<Collided, Fail>
    requires { offset < 64 }
{
    let (layout, levels, step) = tall;
    assert!(rt; step <= 64);
    let mut tree = flipped(alloc, shape(layout, levels)?, node, 1, offset, ZeroTagger)?;
    tree.update(rt, 3, &SIXES)?;
    tree.fetch(rt, step)?;
    tree.fetch(rt, 2 * step)?;
    tree.bus.clear_log();
    let answer = tree.fetch(rt, page);
    let accesses = tree.accesses();
    let (evidence, message) = tree.shown(u64::from(node.0));
    Ok(Collided {
        answer,
        accesses,
        evidence,
        message,
    })
}

// A collision of a node's block and the one that is off by a bit.
fn collision(
    layout: Layout,
    node: (u8, u32),
    offset: u8,
    answer: Result<[u8; 64], MemStop>,
    accesses: usize,
) -> Collided
    requires { offset < 64 }
{
    let (level, index) = node;
    let block = if level == 0 { SIXES } else { parent(layout) };
    let evidence = Evidence::Collision {
        level,
        index,
        made_at: u64::from(level),
        accepted: off_by_a_bit(block, offset),
        tag: mark(layout),
    };
    let message = Message::Node {
        level,
        index,
        block,
    };
    Collided {
        answer,
        accesses,
        evidence: Some(evidence),
        message: Some(message),
    }
}

// What passes is used. A page whose slot is zeros then counts as never made, though it was; one whose slot is not, as made: where
// that is no tag of its block, as tampering. Of the node above page 3 the slot of page 0 ends at byte 15, and under layout Two at
// byte 7, where byte 15 is the end of page 1's.
#[test]
fn two_blocks_with_one_tag_are_a_collision(rt: HostRuntime) -> Result<(), Fail> {
    let tampered = |index| Err(MemStop::Tampered(Place::Node { level: 0, index }));
    let [one, two] = TALL;
    let rows = [
        (one, (0, 3), 63, 3, Ok(off_by_a_bit(SIXES, 63)), 2),
        (one, (1, 0), 63, 3, Ok([0; 64]), 1),
        (one, (1, 0), 62, 3, tampered(3), 2),
        (one, (1, 0), 0, 0, tampered(0), 2),
        (one, (1, 0), 15, 0, Ok([0; 64]), 2),
        (one, (1, 0), 15, 1, Ok([0; 64]), 1),
        (two, (0, 3), 63, 3, Ok(off_by_a_bit(SIXES, 63)), 2),
        (two, (1, 0), 31, 3, Ok([0; 64]), 1),
        (two, (1, 0), 30, 3, tampered(3), 2),
        (two, (1, 0), 0, 0, tampered(0), 2),
        (two, (1, 0), 7, 0, Ok([0; 64]), 2),
        (two, (1, 0), 15, 0, Ok([0; 64]), 1),
        (two, (1, 0), 15, 1, Ok([0; 64]), 2),
        (two, (1, 0), 63, 7, Ok([0; 64]), 2),
    ];
    for (tall, node, offset, page, answer, accesses) in rows {
        assert!(rt; offset < 64);
        let met = with_false_node(&rt, rt.alloc(), tall, node, offset, page)?;
        let wanted = collision(tall.0, node, offset, answer, accesses);
        assert_eq!(rt; (offset, page, met), (offset, page, wanted));
    }
    Ok(())
}
