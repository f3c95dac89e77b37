// Each public call once with ample memory. The tag that is wanted is the message's first 16 bytes, with the lowest bit of the last one
// set, put together by hand: of a line 44, the line and the page's counter, the lowest byte first, and the line's own counter; of a
// node 4e, its level, its index, the lowest byte first, and ten bytes of its block.
use fakes::{PrefixTagger, ZeroTagger};
use sec_base::{Counter, Evidence, Geometry, Message, Sealed};
use std::test::Fail;
use tag_engine::TagEngine;

#[test]
fn a_tag_is_that_of_the_messages_bytes(rt: HostRuntime) -> Result<(), Fail> {
    let rows = [
        (
            1,
            255,
            Counter { page: 0, line: 1 },
            [0; 64],
            [0x44, 255, 0, 0, 0, 0, 0, 0, 0, 0, 0, 0, 0, 1, 0, 1],
        ),
        (
            6,
            0x0003_0201,
            Counter {
                page: 0x0b0a_0908_0706_0504,
                line: 12,
            },
            [13; 64],
            [0x44, 1, 2, 3, 0, 4, 5, 6, 7, 8, 9, 10, 11, 12, 13, 13],
        ),
    ];
    for (levels, line, counter, cipher, wanted) in rows {
        let geometry = Geometry::new(levels).ok_or("no geometry")?;
        let mut engine = TagEngine::new(rt.alloc(), PrefixTagger, geometry)?;
        let tag = engine.make_data(line, counter, &cipher)?;
        assert_eq!(rt; tag, wanted, "line {line}");
        assert!(rt; engine.check_data(line, counter, &Sealed { cipher, tag }));
        let (made, evidence) = engine.finish();
        assert_eq!(rt; made.len(), 1);
        assert_eq!(rt;
            made.get(0),
            Some(Message::Line {
                line,
                counter,
                cipher
            })
        );
        assert_eq!(rt; evidence, None);
    }
    Ok(())
}

// The tag of each message where the tagger gives zeros.
const MARK: [u8; 16] = [0, 0, 0, 0, 0, 0, 0, 0, 0, 0, 0, 0, 0, 0, 0, 1];

// A sealed line of one byte repeated, with that tag.
fn filled(byte: u8) -> Sealed {
    Sealed {
        cipher: [byte; 64],
        tag: MARK,
    }
}

#[test]
fn the_first_message_never_made_comes_at_the_end(rt: HostRuntime) -> Result<(), Fail> {
    let geometry = Geometry::new(1).ok_or("no geometry")?;
    let first = Counter { page: 1, line: 0 };
    let second = Counter { page: 2, line: 0 };
    let mut engine = TagEngine::new(rt.alloc(), ZeroTagger, geometry)?;
    engine.reserve(2)?;
    assert_eq!(rt; engine.make_data(64, first, &[7; 64])?, MARK);
    assert_eq!(rt; engine.make_data(64, second, &[8; 64])?, MARK);
    let rows = [
        ("the last one of the line", second, filled(8), true),
        ("one before it", first, filled(7), true),
        (
            "another tag",
            second,
            Sealed {
                cipher: [9; 64],
                tag: [1; 16],
            },
            false,
        ),
        (
            "the tagger's own tag",
            second,
            Sealed {
                cipher: [8; 64],
                tag: [0; 16],
            },
            false,
        ),
        ("other bytes", second, filled(9), true),
        (
            "a counter never used",
            Counter { page: 3, line: 0 },
            filled(8),
            true,
        ),
    ];
    for (case, counter, sealed, passes) in rows {
        assert_eq!(rt; engine.check_data(64, counter, &sealed), passes, "{case}");
    }
    let sevens = Message::Line {
        line: 64,
        counter: first,
        cipher: [7; 64],
    };
    let eights = Message::Line {
        line: 64,
        counter: second,
        cipher: [8; 64],
    };
    let (made, evidence) = engine.finish();
    assert_eq!(rt; made.len(), 2);
    assert_eq!(rt; made.get(0), Some(sevens));
    assert_eq!(rt; made.get(1), Some(eights));
    let forgery = Evidence::Forgery {
        line: 64,
        counter: second,
        sealed: filled(9),
        made_count: 2,
    };
    assert_eq!(rt; evidence, Some(forgery));
    Ok(())
}

#[test]
fn a_tag_is_that_of_the_nodes_bytes(rt: HostRuntime) -> Result<(), Fail> {
    let rows = [
        (
            2,
            1,
            2,
            [7; 64],
            [0x4e, 1, 2, 0, 0, 0, 7, 7, 7, 7, 7, 7, 7, 7, 7, 7],
        ),
        (
            5,
            0,
            0x0102,
            [9; 64],
            [0x4e, 0, 2, 1, 0, 0, 9, 9, 9, 9, 9, 9, 9, 9, 9, 9],
        ),
    ];
    for (levels, level, index, block, wanted) in rows {
        let geometry = Geometry::new(levels).ok_or("no geometry")?;
        let mut engine = TagEngine::new(rt.alloc(), PrefixTagger, geometry)?;
        let tag = engine.make_node(level, index, &block)?;
        assert_eq!(rt; tag, wanted, "node {level} {index}");
        assert!(rt; engine.check_node(level, index, &block, &tag));
        assert!(rt; !engine.check_node(level, index, &[8; 64], &tag));
        let (made, evidence) = engine.finish();
        assert_eq!(rt; made.len(), 1);
        assert_eq!(rt;
            made.get(0),
            Some(Message::Node {
                level,
                index,
                block
            })
        );
        assert_eq!(rt; evidence, None);
    }
    Ok(())
}

// A block of one byte repeated, the last of which is another one: a tag of `PrefixTagger` leaves it out.
fn ends_in(byte: u8, last: u8) -> [u8; 64] {
    let mut block = [byte; 64];
    block[63] = last;
    block
}

#[test]
fn the_first_collision_comes_at_the_end(rt: HostRuntime) -> Result<(), Fail> {
    let geometry = Geometry::new(2).ok_or("no geometry")?;
    let mut engine = TagEngine::new(rt.alloc(), PrefixTagger, geometry)?;
    engine.reserve(4)?;
    let sixes = engine.make_node(1, 2, &[6; 64])?;
    engine.make_data(2, Counter { page: 1, line: 0 }, &[7; 64])?;
    let sevens = engine.make_node(1, 2, &[7; 64])?;
    let beside = engine.make_node(1, 3, &[7; 64])?;
    let rows = [
        ("the last block", [7; 64], sevens, true),
        (
            "one before it, with its own tag",
            ends_in(6, 1),
            sixes,
            true,
        ),
        ("the tag of the node beside", [7; 64], beside, false),
        ("another tag", ends_in(7, 1), sixes, false),
        ("the last block's tag", ends_in(7, 1), sevens, true),
        ("once more", ends_in(7, 2), sevens, true),
    ];
    for (case, block, tag, passes) in rows {
        assert_eq!(rt; engine.check_node(1, 2, &block, &tag), passes, "{case}");
    }
    let (made, evidence) = engine.finish();
    assert_eq!(rt; made.len(), 4);
    let collision = Evidence::Collision {
        level: 1,
        index: 2,
        made_at: 2,
        accepted: ends_in(7, 1),
        tag: sevens,
    };
    assert_eq!(rt; evidence, Some(collision));
    Ok(())
}
