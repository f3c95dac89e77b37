// Each tag is the tagger's as far as a slot of the layout holds it, with the lowest bit of its last byte set, so none is zeros, and
// with zeros behind: of both taggers and both kinds of messages. The tags are from Python's `hmac` and `hashlib`.
use crate::macs::{counting, digits};
use fakes::ZeroTagger;
use hmac_tag::{HmacTagger, Keys, XorTagger, derive};
use sec_base::{Counter, Geometry, Layout, Place, Sealed, Tagger, data_message, node_message};
use std::alloc::Global;
use std::process::Abort;
use std::test::Fail;
use tag_engine::TagEngine;

const FIRST: Counter = Counter { page: 0, line: 1 };

// Zeros but for two bytes. One of them is at place 15 of a line's message, and the other of a node's: `xor` gives it in byte 15.
fn bytes_of(byte: u8) -> [u8; 64] {
    let mut bytes = [0; 64];
    bytes[1] = byte;
    bytes[9] = byte;
    bytes
}

// The tags of line 5 and of node 3 of level 0 in a memory of this layout.
fn two_tags<T: Tagger>(
    rt: &impl Abort,
    alloc: Global,
    layout: Layout,
    tagger: T,
    byte: u8,
) -> Result<([u8; 16], [u8; 16]), Fail> {
    let geometry = Geometry::with(layout, 1).ok_or("no geometry")?;
    let node = Place::Node { level: 0, index: 3 };
    assert!(rt; geometry.contains(Place::Line(5)) && geometry.contains(node));
    let mut engine = TagEngine::new(alloc, tagger, geometry)?;
    let line = engine.make_data(5, FIRST, &bytes_of(byte))?;
    let node = engine.make_node(0, 3, &bytes_of(byte))?;
    Ok((line, node))
}

// Keys of zeros.
fn no_keys() -> Keys {
    Keys {
        enc_key: [0; 16],
        line_key: [0; 32],
        tree_key: [0; 32],
        report_key: [0; 32],
    }
}

// Keys under which `xor` gives these bytes for line 5 and for node 3, both of them zeros.
fn keys_for(bytes: [u8; 16]) -> Keys {
    let mut keys = no_keys();
    keys.line_key[..16].copy_from_slice(&bytes);
    keys.line_key[0] ^= 0x44;
    keys.line_key[1] ^= 5;
    keys.line_key[13] ^= 1;
    keys.tree_key[..16].copy_from_slice(&bytes);
    keys.tree_key[0] ^= 0x4e;
    keys.tree_key[2] ^= 3;
    keys
}

#[test]
fn a_tag_has_as_many_bytes_as_a_slot(rt: HostRuntime) -> Result<(), Fail> {
    let rows = [
        (Layout::One, counting(), "000102030405060708090a0b0c0d0e0f"),
        (Layout::Two, counting(), "00010203040506070000000000000000"),
        (Layout::One, [0xff; 16], "ffffffffffffffffffffffffffffffff"),
        (Layout::Two, [0xff; 16], "ffffffffffffffff0000000000000000"),
        (Layout::One, [0xfe; 16], "fefefefefefefefefefefefefefefeff"),
        (Layout::Two, [0xfe; 16], "fefefefefefefeff0000000000000000"),
        (Layout::One, [0; 16], "00000000000000000000000000000001"),
        (Layout::Two, [0; 16], "00000000000000010000000000000000"),
    ];
    for (layout, bytes, wanted) in rows {
        let tagger = XorTagger::new(&keys_for(bytes));
        let (of_line, of_node) = two_tags(&rt, rt.alloc(), layout, tagger, 0)?;
        assert_eq!(rt; digits(&rt, &of_line)?.as_str(), wanted);
        assert_eq!(rt; digits(&rt, &of_node)?.as_str(), wanted);
    }
    Ok(())
}

// The device key 00 01 02 .. 1f.
#[test]
fn a_tag_of_hmac_is_cut_to_a_slot(rt: HostRuntime) -> Result<(), Fail> {
    let keys = derive(&counting());
    let rows = [
        (
            0,
            "502468e4330029490000000000000000",
            "e00d8b1bdacbbeeb0000000000000000",
        ),
        (
            1,
            "e6ac37542dc901250000000000000000",
            "8c46226cc114d3c70000000000000000",
        ),
    ];
    for (byte, line, node) in rows {
        let tagger = HmacTagger::new(&keys);
        let (of_line, of_node) = two_tags(&rt, rt.alloc(), Layout::Two, tagger, byte)?;
        assert_eq!(rt; digits(&rt, &of_line)?.as_str(), line);
        assert_eq!(rt; digits(&rt, &of_node)?.as_str(), node);
    }
    Ok(())
}

// The tags of line 5 and of node 3, both of them zeros, under the device key 00 01 02 .. 1f in a memory of layout Two.
const LINE_TAG: [u8; 16] = [
    0x50, 0x24, 0x68, 0xe4, 0x33, 0, 0x29, 0x49, 0, 0, 0, 0, 0, 0, 0, 0,
];

const NODE_TAG: [u8; 16] = [
    0xe0, 0x0d, 0x8b, 0x1b, 0xda, 0xcb, 0xbe, 0xeb, 0, 0, 0, 0, 0, 0, 0, 0,
];

// Whether line 5 and node 3 pass under these tags.
fn passes(
    rt: &impl Abort,
    alloc: Global,
    line_tag: [u8; 16],
    node_tag: [u8; 16],
) -> Result<(bool, bool), Fail> {
    let geometry = Geometry::with(Layout::Two, 1).ok_or("no geometry")?;
    let tagger = HmacTagger::new(&derive(&counting()));
    let mut engine = TagEngine::new(alloc, tagger, geometry)?;
    engine.make_data(5, FIRST, &[0; 64])?;
    engine.make_node(0, 3, &[0; 64])?;
    let sealed = Sealed {
        cipher: [0; 64],
        tag: line_tag,
    };
    let line = engine.check_data(5, FIRST, &sealed);
    let node = engine.check_node(0, 3, &[0; 64], &node_tag);
    let (_made, evidence) = engine.finish();
    assert_eq!(rt; evidence, None);
    Ok((line, node))
}

// The tag with another bit of a byte.
fn with_bit(tag: [u8; 16], at: usize, bit: u8) -> [u8; 16] {
    let mut other = tag;
    if at < 16 {
        other[at] ^= bit;
    }
    other
}

// Also the zeros behind the eight bytes that a slot holds.
#[test]
fn each_byte_of_a_cut_tag_counts(rt: HostRuntime) -> Result<(), Fail> {
    assert_eq!(rt; passes(&rt, rt.alloc(), LINE_TAG, NODE_TAG)?, (true, true));
    for at in 0..16 {
        for bit in [1, 0x80] {
            let line = with_bit(LINE_TAG, at, bit);
            let node = with_bit(NODE_TAG, at, bit);
            let passed = passes(&rt, rt.alloc(), line, node)?;
            assert_eq!(rt; (at, bit, passed), (at, bit, (false, false)));
        }
    }
    Ok(())
}

// The right eight bytes, and behind them those of the tag under layout One.
#[test]
fn a_whole_tag_is_refused_where_it_is_cut(rt: HostRuntime) -> Result<(), Fail> {
    let line = [
        0x50, 0x24, 0x68, 0xe4, 0x33, 0, 0x29, 0x49, 0x5e, 0xc3, 0xfe, 0xa6, 0xe7, 0x42, 0x89, 0xb5,
    ];
    let node = [
        0xe0, 0x0d, 0x8b, 0x1b, 0xda, 0xcb, 0xbe, 0xeb, 0x6c, 0x25, 0x4f, 0x90, 0x18, 0x91, 0x60,
        0x35,
    ];
    assert_eq!(rt; passes(&rt, rt.alloc(), line, node)?, (false, false));
    Ok(())
}

// The device key 00 01 02 .. 1f.
#[test]
fn a_tag_of_hmac_has_its_last_bit_set(rt: HostRuntime) -> Result<(), Fail> {
    let keys = derive(&counting());
    let rows = [
        (
            0,
            "502468e4330029485ec3fea6e74289b5",
            "e00d8b1bdacbbeea6c254f9018916035",
        ),
        (
            1,
            "e6ac37542dc90125efb7555fac2ced41",
            "8c46226cc114d3c75915efe38506f43b",
        ),
    ];
    for (byte, line, node) in rows {
        let (of_line, of_node) = two_tags(
            &rt,
            rt.alloc(),
            Layout::One,
            HmacTagger::new(&keys),
            byte,
        )?;
        assert_eq!(rt; digits(&rt, &of_line)?.as_str(), line);
        assert_eq!(rt; digits(&rt, &of_node)?.as_str(), node);
    }
    Ok(())
}

#[test]
fn a_tag_of_xor_has_its_last_bit_set(rt: HostRuntime) -> Result<(), Fail> {
    let rows = [
        (
            0,
            "44050000000000000000000000010001",
            "4e000300000000000000000000000001",
        ),
        (
            2,
            "44050000000000020000000000010003",
            "4e000300000000020000000000000003",
        ),
        (
            255,
            "44050000000000ff00000000000100ff",
            "4e000300000000ff00000000000000ff",
        ),
    ];
    for (byte, line, node) in rows {
        let (of_line, of_node) = two_tags(
            &rt,
            rt.alloc(),
            Layout::One,
            XorTagger::new(&no_keys()),
            byte,
        )?;
        assert_eq!(rt; digits(&rt, &of_line)?.as_str(), line);
        assert_eq!(rt; digits(&rt, &of_node)?.as_str(), node);
    }
    Ok(())
}

#[test]
fn where_a_tagger_gives_zeros_the_tag_is_not(rt: HostRuntime) -> Result<(), Fail> {
    let (of_line, of_node) = two_tags(&rt, rt.alloc(), Layout::One, ZeroTagger, 0)?;
    let marked = [0, 0, 0, 0, 0, 0, 0, 0, 0, 0, 0, 0, 0, 0, 0, 1];
    assert_eq!(rt; of_line, marked);
    assert_eq!(rt; of_node, marked);
    Ok(())
}

// The tags of one tagger are those of another, which has the same keys, with the bit set.
fn check_marked<T: Tagger>(
    rt: &impl Abort,
    alloc: Global,
    tagger: T,
    same: &T,
    byte: u8,
) -> Result<(), Fail> {
    let (of_line, of_node) = two_tags(rt, alloc, Layout::One, tagger, byte)?;
    let mut line = same.data_tag(&data_message(5, FIRST, &bytes_of(byte)));
    let mut node = same.node_tag(&node_message(0, 3, &bytes_of(byte)));
    line[15] |= 1;
    node[15] |= 1;
    assert_eq!(rt; (byte, of_line), (byte, line));
    assert_eq!(rt; (byte, of_node), (byte, node));
    Ok(())
}

#[test]
fn every_tag_has_its_last_bit_set(rt: HostRuntime) -> Result<(), Fail> {
    let keys = derive(&counting());
    let hmac = HmacTagger::new(&keys);
    let xor = XorTagger::new(&keys);
    for byte in 0..64u8 {
        check_marked(&rt, rt.alloc(), HmacTagger::new(&keys), &hmac, byte)?;
        check_marked(&rt, rt.alloc(), XorTagger::new(&keys), &xor, byte)?;
    }
    Ok(())
}
