// The lines and the faults are worked out by hand from the language of scripts (docs/FORMATS.md). The memory has 16,384
// data lines, and nodes of the levels 0 to 4: 256, 64, 16, 4 and 1.

use adversary_script::{Action, PlaceBytes, ScriptError, ScriptFault, ScriptLine, Trigger, parse};
use arrayvec::ArrayVec;
use sec_base::{Geometry, Layout, Place};
use std::alloc::Global;
use std::process::Abort;
use std::test::Fail;

// A text says just these lines.
fn expect(rt: &impl Abort, alloc: Global, text: &str, lines: &[ScriptLine]) -> Result<(), Fail> {
    expect_with(
        rt,
        alloc,
        Geometry::new(4).ok_or("no geometry")?,
        text,
        lines,
    )
}

// It does for a memory of this geometry.
fn expect_with(
    rt: &impl Abort,
    alloc: Global,
    geometry: Geometry,
    text: &str,
    lines: &[ScriptLine],
) -> Result<(), Fail> {
    assert!(rt; text.len() < 1 << 32);
    let script = parse(alloc, text.as_bytes(), geometry)?;
    assert_eq!(rt; script.len(), lines.len() as u64);
    assert_eq!(rt; script.is_empty(), lines.is_empty());
    assert_eq!(rt; script.as_slice(), lines);
    for (at, line) in lines.iter().enumerate() {
        assert_eq!(rt; script.get(at as u64), Some(line));
    }
    Ok(())
}

// A text says one line.
fn expect_line(
    rt: &impl Abort,
    alloc: Global,
    text: &str,
    trigger: Trigger,
    action: Action,
) -> Result<(), Fail> {
    expect(rt, alloc, text, &[ScriptLine { trigger, action }])
}

// The bytes of an action.
fn bytes_of(bytes: &[u8]) -> Result<PlaceBytes, Fail> {
    Ok(ArrayVec::try_from(bytes).ok().ok_or("full")?)
}

// A text is refused.
fn expect_fault(
    rt: &impl Abort,
    alloc: Global,
    text: &[u8],
    line: u32,
    code: ScriptFault,
) -> Result<(), Fail> {
    expect_fault_with(
        rt,
        alloc,
        Geometry::new(4).ok_or("no geometry")?,
        text,
        line,
        code,
    )
}

// It is for a memory of this geometry.
fn expect_fault_with(
    rt: &impl Abort,
    alloc: Global,
    geometry: Geometry,
    text: &[u8],
    line: u32,
    code: ScriptFault,
) -> Result<(), Fail> {
    assert!(rt; text.len() < 1 << 32);
    match parse(alloc, text, geometry) {
        Ok(_) => assert!(rt; false, "no fault, where line {line} has {code}"),
        Err(error) => assert_eq!(rt; error, ScriptError::Fault { line, code }),
    }
    Ok(())
}

// Each of these lines has this fault.
fn expect_faults(
    rt: &impl Abort,
    alloc: Global,
    lines: &[&str],
    code: ScriptFault,
) -> Result<(), Fail> {
    let geometry = Geometry::new(4).ok_or("no geometry")?;
    expect_faults_with(rt, alloc, geometry, lines, 1, code)
}

// Each of these texts has this fault at that line, for a memory of this geometry.
fn expect_faults_with(
    rt: &impl Abort,
    alloc: Global,
    geometry: Geometry,
    texts: &[&str],
    line: u32,
    code: ScriptFault,
) -> Result<(), Fail> {
    for text in texts {
        expect_fault_with(rt, alloc, geometry, text.as_bytes(), line, code)?;
    }
    Ok(())
}

#[test]
fn triggers(rt: HostRuntime) -> Result<(), Fail> {
    let cases = [
        ("access 1: saveall 0", Trigger::Access(1)),
        (
            "access 18446744073709551615: saveall 0",
            Trigger::Access(u64::MAX),
        ),
        (
            "read data 16383 1: saveall 0",
            Trigger::Read(Place::Line(16_383), 1),
        ),
        (
            "read node 0 255 2: saveall 0",
            Trigger::Read(
                Place::Node {
                    level: 0,
                    index: 255,
                },
                2,
            ),
        ),
        (
            "write data 0 7: saveall 0",
            Trigger::Write(Place::Line(0), 7),
        ),
        (
            "write node 4 0 1: saveall 0",
            Trigger::Write(Place::Node { level: 4, index: 0 }, 1),
        ),
    ];
    for (text, trigger) in cases {
        expect_line(&rt, rt.alloc(), text, trigger, Action::SaveAll(0))?;
    }
    Ok(())
}

// The digits of the bytes 0 to 63.
const DIGITS: &str =
    "000102030405060708090a0b0c0d0e0f101112131415161718191a1b1c1d1e1f202122232425262728292a2b2c2d2e2f303132333435363738393a3b3c3d3e3f";

#[test]
fn bytes_are_set_and_flipped(rt: HostRuntime) -> Result<(), Fail> {
    let set = Action::Set {
        place: Place::Line(5),
        offset: 78,
        bytes: bytes_of(&[0x00, 0xff])?,
    };
    let text = "access 9: set data 5 78 00ff";
    expect_line(&rt, rt.alloc(), text, Trigger::Access(9), set)?;
    let flip = Action::Flip {
        place: Place::Node { level: 1, index: 2 },
        offset: 63,
        mask: bytes_of(&[0x80])?,
    };
    let text = "access 9: flip node 1 2 63 80";
    expect_line(&rt, rt.alloc(), text, Trigger::Access(9), flip)
}

#[test]
fn places_are_swapped(rt: HostRuntime) -> Result<(), Fail> {
    let lines = (Place::Line(5), Place::Line(6));
    let nodes = (
        Place::Node { level: 1, index: 2 },
        Place::Node { level: 0, index: 0 },
    );
    let cases = [
        ("access 9: swap data 5 data 6", lines),
        ("access 9: swap node 1 2 node 0 0", nodes),
    ];
    for (text, (first, second)) in cases {
        let action = Action::Swap { first, second };
        expect_line(&rt, rt.alloc(), text, Trigger::Access(9), action)?;
    }
    Ok(())
}

#[test]
fn registers(rt: HostRuntime) -> Result<(), Fail> {
    let node = Place::Node { level: 1, index: 2 };
    let cases = [
        (
            "access 9: save 0 data 5",
            Action::Save {
                register: 0,
                place: Place::Line(5),
            },
        ),
        (
            "access 9: restore 15 node 1 2",
            Action::Restore {
                register: 15,
                place: node,
            },
        ),
        ("access 9: saveall 3", Action::SaveAll(3)),
        ("access 9: restoreall 00015", Action::RestoreAll(15)),
    ];
    for (text, action) in cases {
        expect_line(&rt, rt.alloc(), text, Trigger::Access(9), action)?;
    }
    Ok(())
}

#[test]
fn whole_places(rt: HostRuntime) -> Result<(), Fail> {
    let mut bytes = [0; 80];
    for (at, byte) in bytes.iter_mut().enumerate() {
        *byte = at as u8 % 64;
    }
    let mut text = String::new(rt.alloc());
    text.push_str("access 9: put node 1 2 ")?;
    text.push_str(DIGITS)?;
    let node = Action::Put {
        place: Place::Node { level: 1, index: 2 },
        bytes: bytes_of(bytes.get(..64).ok_or("short")?)?,
    };
    expect_line(&rt, rt.alloc(), text.as_str(), Trigger::Access(9), node)?;
    let mut text = String::new(rt.alloc());
    text.push_str("access 9: put data 5 ")?;
    text.push_str(DIGITS)?;
    text.push_str("000102030405060708090A0B0C0D0E0F")?;
    let line = Action::Put {
        place: Place::Line(5),
        bytes: ArrayVec::from(bytes),
    };
    expect_line(&rt, rt.alloc(), text.as_str(), Trigger::Access(9), line)
}

#[test]
fn digits_of_bytes_are_of_either_case(rt: HostRuntime) -> Result<(), Fail> {
    let action = Action::Set {
        place: Place::Line(5),
        offset: 0,
        bytes: bytes_of(&[0xab, 0xcd, 0xef])?,
    };
    let text = "access 1: set data 5 0 aBCdEf";
    expect_line(&rt, rt.alloc(), text, Trigger::Access(1), action)
}

#[test]
fn blanks_comments_and_ends_of_lines(rt: HostRuntime) -> Result<(), Fail> {
    let texts = [
        "access 1:saveall 0",
        "access 1 :saveall 0",
        "\t access\t1\t:\tsaveall\t0 \t",
        "access 1: saveall 0\n",
        "access 1: saveall 0\r\n",
        "access 1: saveall 0# saveall 1",
        "\n\r\n  \n# a comment: 1\naccess 1: saveall 0\n#\n\n",
        "access 0001: saveall 00",
        "access 1: saveall 0 # caf\u{e9}",
    ];
    for text in texts {
        let action = Action::SaveAll(0);
        expect_line(&rt, rt.alloc(), text, Trigger::Access(1), action)?;
    }
    Ok(())
}

#[test]
fn lines_in_order(rt: HostRuntime) -> Result<(), Fail> {
    let lines = [
        ScriptLine {
            trigger: Trigger::Write(Place::Line(5), 2),
            action: Action::SaveAll(0),
        },
        ScriptLine {
            trigger: Trigger::Read(Place::Line(5), 2),
            action: Action::RestoreAll(0),
        },
    ];
    let text = "write data 5 2: saveall 0\nread data 5 2: restoreall 0";
    expect(&rt, rt.alloc(), text, &lines)
}

#[test]
fn texts_without_lines(rt: HostRuntime) -> Result<(), Fail> {
    for text in ["", "\n", " \t\r\n", "# access 1: saveall 0"] {
        expect(&rt, rt.alloc(), text, &[])?;
    }
    Ok(())
}

#[test]
fn wrong_words(rt: HostRuntime) -> Result<(), Fail> {
    let lines = [
        // the first word
        "frob 1: saveall 0",
        "Access 1: saveall 0",
        ": saveall 0",
        ":",
        // a word between
        "read frob 5 1: saveall 0",
        "access: saveall 0",
        "access 1 saveall 0",
        "access 1 2: saveall 0",
        "access 1:: saveall 0",
        "access 1: frob 0",
        "access 1: swap data 5 frob 6",
        "access 1: swap data 5 : 6",
        // the last word
        "access",
        "access 1",
        "access 1:",
        "access 1: saveall",
        "access 1: saveall 0 0",
        "access 1: saveall 0:",
        "access 1: set data 5 0",
        "access 1: save 0 data",
        "access 1: save 0 node 1",
    ];
    expect_faults(&rt, rt.alloc(), &lines, ScriptFault::Word)
}

#[test]
fn wrong_numbers(rt: HostRuntime) -> Result<(), Fail> {
    let lines = [
        // the first number
        "access 0: saveall 0",
        "access x: saveall 0",
        "access 18446744073709551616: saveall 0",
        "access 340282366920938463463374607431768211457: saveall 0",
        "read data 4294967296 1: saveall 0",
        "read node 256 0 1: saveall 0",
        // a number between
        "read data 5 0: saveall 0",
        "read node 5 x 1: saveall 0",
        "write node 0 4294967296 1: saveall 0",
        "access 1: set data 5 4294967296 00",
        "access 1: set data 5 +0 00",
        "access 1: flip data 5 -1 00",
        "access 1: save 0x1 data 5",
        // the last word
        "access 1: saveall x",
        "access 1: restore 0 data 5a",
        "access 1: save 0 node 0 -1",
        "access 1: saveall 0\r",
    ];
    expect_faults(&rt, rt.alloc(), &lines, ScriptFault::Number)
}

#[test]
fn places_outside_the_memory(rt: HostRuntime) -> Result<(), Fail> {
    let lines = [
        // the first place
        "read data 16384 1: saveall 0",
        "read data 4294967295 1: saveall 0",
        "write node 5 0 1: saveall 0",
        "write node 255 0 1: saveall 0",
        "read node 0 256 1: saveall 0",
        // a place between
        "access 1: set data 16384 0 00",
        "access 1: flip node 5 0 0 01",
        "access 1: swap data 16384 data 5",
        // the last word
        "access 1: swap data 5 data 16384",
        "access 1: save 0 data 16384",
        "access 1: restore 0 node 1 64",
        "access 1: restore 0 node 4 1",
    ];
    expect_faults(&rt, rt.alloc(), &lines, ScriptFault::Place)
}

#[test]
fn bytes_that_do_not_fit(rt: HostRuntime) -> Result<(), Fail> {
    let lines = [
        // the second of two kinds, also where its place is outside
        "access 1: swap data 5 node 0 0",
        "access 1: swap node 0 0 data 5",
        "access 1: swap data 5 node 9 9",
        "access 1: swap data 5 node",
        // digits
        "access 1: set data 5 0 0",
        "access 1: set data 5 0 012",
        "access 1: set data 5 0 0g",
        "access 1: set data 5 0 g0",
        "access 1: set data 5 0 0x01",
        // past the end of the place
        "access 1: flip data 5 80 01",
        "access 1: flip data 5 79 0102",
        "access 1: set node 0 0 64 01",
        "access 1: set node 0 0 63 0102",
        "access 1: set data 5 256 01",
        "access 1: set data 5 4294967295 01",
        // another length
        "access 1: put data 5 00",
        "access 1: put node 0 0 00",
    ];
    expect_faults(&rt, rt.alloc(), &lines, ScriptFault::Span)
}

#[test]
fn a_place_of_one_byte_more_or_less(rt: HostRuntime) -> Result<(), Fail> {
    for (place, digits) in [
        ("node 0 0 ", "00"),
        ("data 5 ", "000102030405060708090a0b0c0d0e"),
        ("data 5 ", "000102030405060708090a0b0c0d0e0f10"),
    ] {
        let mut text = String::new(rt.alloc());
        text.push_str("access 1: put ")?;
        text.push_str(place)?;
        text.push_str(DIGITS)?;
        text.push_str(digits)?;
        expect_fault(
            &rt,
            rt.alloc(),
            text.as_str().as_bytes(),
            1,
            ScriptFault::Span,
        )?;
    }
    Ok(())
}

#[test]
fn wrong_registers(rt: HostRuntime) -> Result<(), Fail> {
    let lines = [
        "access 1: save 16 data 5",
        "access 1: restore 16 frob",
        "access 1: saveall 16",
        "access 1: restoreall 18446744073709551616",
        "access 1: saveall 340282366920938463463374607431768211456",
    ];
    expect_faults(&rt, rt.alloc(), &lines, ScriptFault::Register)
}

#[test]
fn the_first_fault_is_told(rt: HostRuntime) -> Result<(), Fail> {
    let cases = [
        ("access 0: frob\naccess", 1, ScriptFault::Number),
        ("\n# access\naccess 1 2\naccess 0", 3, ScriptFault::Word),
        (
            "access 1: saveall 0\r\naccess 1: saveall 16\r\n",
            2,
            ScriptFault::Register,
        ),
        ("read data 16384 0: saveall 16", 1, ScriptFault::Place),
        ("read data 16384 1 saveall 0", 1, ScriptFault::Place),
        ("access 1: set data 5 4294967296 0", 1, ScriptFault::Number),
        ("access 1: set data 5 80 01 02", 1, ScriptFault::Span),
        ("access 1: saveall 16 0", 1, ScriptFault::Register),
    ];
    for (text, line, code) in cases {
        expect_fault(&rt, rt.alloc(), text.as_bytes(), line, code)?;
    }
    Ok(())
}

#[test]
fn bytes_above_7f(rt: HostRuntime) -> Result<(), Fail> {
    let cases: [(&[u8], ScriptFault); 7] = [
        (b"\x80", ScriptFault::Word),
        (b"access 1\xff: saveall 0", ScriptFault::Word),
        (b"access 1: set data 5 0 \x80\x80", ScriptFault::Word),
        (b"access 1: saveall \xc3\xa9", ScriptFault::Word),
        (b"access 1: saveall 0 \x80", ScriptFault::Word),
        (b"access 0: saveall \x80", ScriptFault::Number),
        (b"access 1: saveall 16 \x80", ScriptFault::Register),
    ];
    for (text, code) in cases {
        expect_fault(&rt, rt.alloc(), text, 1, code)?;
    }
    Ok(())
}

#[test]
fn numbers_and_names_of_faults(rt: HostRuntime) -> Result<(), Fail> {
    let cases = [
        (ScriptFault::Word, 1, "Word", "line 7: Word"),
        (ScriptFault::Number, 2, "Number", "line 7: Number"),
        (ScriptFault::Place, 3, "Place", "line 7: Place"),
        (ScriptFault::Span, 4, "Span", "line 7: Span"),
        (ScriptFault::Register, 5, "Register", "line 7: Register"),
    ];
    for (code, number, name, shown) in cases {
        assert_eq!(rt; code.code(), number);
        assert_eq!(rt; code.name(), name);
        let error = ScriptError::Fault { line: 7, code };
        assert_eq!(rt; error.to_string(rt.alloc())?.as_str(), shown);
    }
    Ok(())
}

const LAST_LINE_OF_8_LEVELS: Place = Place::Line(4_194_303);

const LAST_NODE_OF_8_LEVELS: Place = Place::Node {
    level: 0,
    index: 65_535,
};

// A text says one line for a memory with 8 levels.
fn expect_at_8_levels(
    rt: &impl Abort,
    alloc: Global,
    text: &str,
    action: Action,
) -> Result<(), Fail> {
    let geometry = Geometry::new(8).ok_or("no geometry")?;
    let trigger = Trigger::Access(1);
    expect_with(rt, alloc, geometry, text, &[ScriptLine { trigger, action }])
}

#[test]
fn the_last_places_of_8_levels_are_swapped(rt: HostRuntime) -> Result<(), Fail> {
    let cases = [
        (
            "access 1: swap data 4194303 data 4194303",
            LAST_LINE_OF_8_LEVELS,
        ),
        (
            "access 1: swap node 0 65535 node 0 65535",
            LAST_NODE_OF_8_LEVELS,
        ),
    ];
    for (text, place) in cases {
        let action = Action::Swap {
            first: place,
            second: place,
        };
        expect_at_8_levels(&rt, rt.alloc(), text, action)?;
    }
    Ok(())
}

#[test]
fn the_last_places_of_8_levels_are_saved(rt: HostRuntime) -> Result<(), Fail> {
    let cases = [
        ("access 1: save 0 data 4194303", LAST_LINE_OF_8_LEVELS),
        ("access 1: save 0 node 0 65535", LAST_NODE_OF_8_LEVELS),
    ];
    for (text, place) in cases {
        let action = Action::Save { register: 0, place };
        expect_at_8_levels(&rt, rt.alloc(), text, action)?;
    }
    Ok(())
}

#[test]
fn the_last_places_of_8_levels_are_restored(rt: HostRuntime) -> Result<(), Fail> {
    let cases = [
        ("access 1: restore 0 data 4194303", LAST_LINE_OF_8_LEVELS),
        ("access 1: restore 0 node 0 65535", LAST_NODE_OF_8_LEVELS),
    ];
    for (text, place) in cases {
        let action = Action::Restore { register: 0, place };
        expect_at_8_levels(&rt, rt.alloc(), text, action)?;
    }
    Ok(())
}

#[test]
fn places_outside_a_memory_with_8_levels(rt: HostRuntime) -> Result<(), Fail> {
    let geometry = Geometry::new(8).ok_or("no geometry")?;
    let lines = [
        "access 1: save 0 data 4194304",
        "access 1: save 0 node 0 65536",
        "access 1: save 0 node 8 1",
        "access 1: save 0 node 9 0",
    ];
    expect_faults_with(&rt, rt.alloc(), geometry, &lines, 1, ScriptFault::Place)
}

#[test]
fn data_places_of_layout_two_have_72_bytes(rt: HostRuntime) -> Result<(), Fail> {
    let geometry = Geometry::with(Layout::Two, 5).ok_or("no geometry")?;
    let action = Action::Set {
        place: Place::Line(2_097_151),
        offset: 71,
        bytes: bytes_of(&[0xff])?,
    };
    let line = ScriptLine {
        trigger: Trigger::Access(1),
        action,
    };
    let text = "access 1: set data 2097151 71 ff";
    expect_with(&rt, rt.alloc(), geometry, text, &[line])?;
    let long = [
        "access 1: set data 0 72 ff",
        "access 1: set data 0 71 ffff",
        "access 1: flip data 0 72 ff",
        "access 1: set node 0 0 64 ff",
    ];
    expect_faults_with(&rt, rt.alloc(), geometry, &long, 1, ScriptFault::Span)
}

#[test]
fn places_outside_a_memory_of_layout_two(rt: HostRuntime) -> Result<(), Fail> {
    let geometry = Geometry::with(Layout::Two, 5).ok_or("no geometry")?;
    let texts = [
        "access 1: saveall 0\naccess 1: save 0 data 2097152",
        "\naccess 1: save 0 node 6 0",
    ];
    expect_faults_with(&rt, rt.alloc(), geometry, &texts, 2, ScriptFault::Place)
}

// Where a data place is put with these digits behind the 64 bytes of the line, under layout Two.
fn put_under_two(alloc: Global, digits: &str) -> Result<String, Fail> {
    let mut text = String::new(alloc);
    text.push_str("access 1: put data 0 ")?;
    text.push_str(DIGITS)?;
    text.push_str(digits)?;
    Ok(text)
}

#[test]
fn a_put_of_layout_two_has_72_bytes(rt: HostRuntime) -> Result<(), Fail> {
    let geometry = Geometry::with(Layout::Two, 1).ok_or("no geometry")?;
    let mut bytes = [0; 72];
    for (at, byte) in bytes.iter_mut().enumerate() {
        *byte = at as u8 % 64;
    }
    let action = Action::Put {
        place: Place::Line(0),
        bytes: bytes_of(&bytes)?,
    };
    let line = ScriptLine {
        trigger: Trigger::Access(1),
        action,
    };
    let text = put_under_two(rt.alloc(), "0001020304050607")?;
    expect_with(&rt, rt.alloc(), geometry, text.as_str(), &[line])?;
    let others = [
        "",
        "00010203040506",
        "000102030405060708",
        "000102030405060708090a0b0c0d0e0f",
    ];
    for digits in others {
        let text = put_under_two(rt.alloc(), digits)?;
        expect_fault_with(
            &rt,
            rt.alloc(),
            geometry,
            text.as_str().as_bytes(),
            1,
            ScriptFault::Span,
        )?;
    }
    Ok(())
}
