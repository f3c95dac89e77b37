// The parts of lines are worked out by hand from the language's rules.

use rv32_asm_syntax::{first_label, first_line, without_comment};

#[test]
fn a_line_feed_ends_a_line(rt: HostRuntime) {
    let table: [(&str, &str, Option<&str>); 9] = [
        ("", "", None),
        ("nop", "nop", None),
        ("nop\r", "nop\r", None),
        ("nop\n", "nop", Some("")),
        ("nop\r\nret", "nop", Some("ret")),
        ("nop\r\r\nret\n", "nop\r", Some("ret\n")),
        ("no\rp\nret", "no\rp", Some("ret")),
        ("nop\n\n\nret", "nop", Some("\n\nret")),
        ("\n nop", "", Some(" nop")),
    ];
    for (text, line, rest) in table {
        let (found, left) = first_line(text.as_bytes());
        assert_eq!(rt; found, line.as_bytes(), "{text:?}");
        assert!(rt; left == rest.map(str::as_bytes), "{text:?}");
    }
}

#[test]
fn a_hash_outside_strings_begins_a_comment(rt: HostRuntime) {
    let table = [
        ("nop", "nop"),
        ("#", ""),
        ("nop # one # two", "nop "),
        (".ascii \"a#b\" # c", ".ascii \"a#b\" "),
        (".ascii \"a\\\"#b\"#c", ".ascii \"a\\\"#b\""),
        (".ascii \"a\\\\\"#b\"", ".ascii \"a\\\\\""),
        (".ascii \"a#b", ".ascii \"a#b"),
    ];
    for (line, expected) in table {
        assert_eq!(rt;
            without_comment(line.as_bytes()),
            expected.as_bytes(),
            "{line}"
        );
    }
}

#[test]
fn a_name_before_a_colon_is_a_label(rt: HostRuntime) {
    let table: [(&str, Option<(&str, &str)>); 10] = [
        ("a: b:c", Some(("a", " b:c"))),
        (" b:c", Some(("b", "c"))),
        ("\t _x9:", Some(("_x9", ""))),
        ("a::", Some(("a", ":"))),
        ("loop:\tnop ", Some(("loop", "\tnop "))),
        ("nop", None),
        ("", None),
        (": nop", None),
        ("a : nop", None),
        ("9a: nop", None),
    ];
    for (text, expected) in table {
        let found = first_label(text.as_bytes());
        assert!(rt;
            found == expected.map(|(name, rest)| (name.as_bytes(), rest.as_bytes())),
            "{text}"
        );
    }
}
