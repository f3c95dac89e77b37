// Lines that go out and come in again, and lines that are held.
ghost use Rattle.std.specs.Prelude.{◌≤◌, length};

use super::programs::{
    COUNT_DOWN, EXIT_65, EXIT_WITH_65_AGAIN, OVER_130_LINES, STORE_65_TWICE, WEAR_LINE_64,
};
use super::{
    CIPHER_65, CIPHER_65_AGAIN, LINE_64, ends, far_apart, flipped_under_keys, honest, keys, written,
};
use hmac_tag::HmacTagger;
use sec_base::{Counter, Ending, MemorySink, Message, Messages, Place};
use std::alloc::Global;
use std::process::Abort;
use std::test::Fail;

// Lines 0 and 64 are stored into, and neither leaves the chip. So nothing is tagged.
#[test]
fn what_is_held_is_not_tagged(rt: HostRuntime) -> Result<(), Fail> {
    let (told, outside) = ends(rt.alloc(), &EXIT_65, u64::MAX)?;
    assert_eq!(rt; (told.ending, told.retired), (Ending::Halted(65), 6));
    assert_eq!(rt; (told.made, told.used), (0, 0));
    assert_eq!(rt; outside, [0; 64]);
    Ok(())
}

fn check_messages(rt: &impl Abort, made: &Messages) {
    let first = Message::Line {
        line: 64,
        counter: written(1),
        cipher: CIPHER_65,
    };
    assert_eq!(rt; made.get(0), Some(first));
    let second = Message::Line {
        line: 64,
        counter: written(2),
        cipher: CIPHER_65_AGAIN,
    };
    assert_eq!(rt; made.get(1), Some(second));
    assert_eq!(rt; made.len(), 2);
}

// Line 64 goes out twice, and is tagged each time. Its page's counters and the node above them stay on the chip, so they are not
// tagged. Line 0 has the code, and stays; line 128 goes out unchanged.
#[test]
fn each_write_is_tagged(rt: HostRuntime) -> Result<(), Fail> {
    let mut out = MemorySink::new(rt.alloc(), &[])?;
    let (done, _) = honest(rt.alloc(), &STORE_65_TWICE, u64::MAX, &mut out)?;
    check_messages(&rt, &done.made);
    let told = (done.ending, done.retired, done.evidence);
    assert_eq!(rt; told, (Ending::Halted(65), 10, None));
    Ok(())
}

// The level of a node, or none of a line, and its number.
type Written = (Option<u8>, u32);

fn written_as(message: Option<Message>) -> Option<Written> {
    match message {
        Some(Message::Line { line, .. }) => Some((None, line)),
        Some(Message::Node { level, index, .. }) => Some((Some(level), index)),
        None => None,
    }
}

// The writes of a program that stores far apart, by the rules of the caches, from a model in Python: a counter block goes out
// after a line that was counted in it, and a node after a block whose tag it has.
const WRITES: [Written; 21] = [
    (None, 2053),
    (Some(0), 32),
    (None, 4101),
    (Some(0), 64),
    (Some(1), 8),
    (None, 6149),
    (Some(0), 96),
    (Some(1), 16),
    (None, 2053),
    (Some(0), 32),
    (Some(1), 24),
    (None, 4101),
    (Some(0), 64),
    (Some(1), 8),
    (None, 6149),
    (Some(0), 96),
    (Some(1), 16),
    (None, 2053),
    (Some(0), 32),
    (Some(1), 24),
    (None, 4101),
];

fn check_writes(rt: &impl Abort, made: &Messages) {
    for (at, written) in WRITES.iter().enumerate() {
        let message = written_as(made.get(at as u64));
        assert_eq!(rt; (at, message), (at, Some(*written)));
    }
    assert_eq!(rt; made.len(), 21);
}

// Nodes and counter blocks are tagged as they go out, and at no other time: those of page 0, and the nodes of levels 2 to 4, stay
// on the chip.
#[test]
fn a_node_is_tagged_as_it_goes_out(rt: HostRuntime) -> Result<(), Fail> {
    let tagger = HmacTagger::new(&keys());
    let (done, _) = far_apart(rt.alloc(), Place::Line(0), 1, tagger)?;
    check_writes(&rt, &done.made);
    Ok(())
}

// How many lines were encrypted, and the first two of them.
type Encrypted = (u64, Option<(u32, Counter)>, Option<(u32, Counter)>);

// How a program of a few words ends, which lines were encrypted, and what stands there for line 64.
fn encrypted(alloc: Global, words: &[u32]) -> Result<(Ending, Encrypted, [u8; 64]), Fail>
    requires { length words.now ≤ 16 }
{
    let mut out = MemorySink::new(alloc, &[])?;
    let (done, outside) = honest(alloc, words, u64::MAX, &mut out)?;
    let used = (done.used.len(), done.used.get(0), done.used.get(1));
    Ok((done.ending, used, outside))
}

// Line 64 is enciphered once, under its first counter.
#[test]
fn each_encryption_is_listed(rt: HostRuntime) -> Result<(), Fail> {
    let (_, used, _) = encrypted(rt.alloc(), &EXIT_WITH_65_AGAIN)?;
    assert_eq!(rt; used, (1, Some((64, written(1))), None));
    Ok(())
}

#[test]
fn equal_bytes_are_enciphered_anew_by_each_write(rt: HostRuntime) -> Result<(), Fail> {
    let (_, _, once) = encrypted(rt.alloc(), &EXIT_WITH_65_AGAIN)?;
    let (ending, used, twice) = encrypted(rt.alloc(), &STORE_65_TWICE)?;
    assert_eq!(rt; ending, Ending::Halted(65));
    assert_eq!(rt; used, (2, Some((64, written(1))), Some((64, written(2)))));
    assert!(rt; once != twice);
    assert_eq!(rt; (once, twice), (CIPHER_65, CIPHER_65_AGAIN));
    Ok(())
}

// The second store of line 64 reads what went out after the first one, and the load reads it once more. That is all: a
// third read would be false, and there is none.
#[test]
fn a_line_is_read_as_it_comes_in(rt: HostRuntime) -> Result<(), Fail> {
    let rows = [
        (1, Ending::Tampered(LINE_64), 5, 1),
        (2, Ending::Tampered(LINE_64), 7, 1),
        (3, Ending::Halted(65), 10, 0),
    ];
    for (k, ending, retired, false_answers) in rows {
        let (told, lies) = flipped_under_keys(rt.alloc(), &STORE_65_TWICE, LINE_64, k)?;
        let end = (k, told.ending, told.retired, lies);
        assert_eq!(rt; end, (k, ending, retired, false_answers));
    }
    Ok(())
}

// The load finds the line that was stored into on the chip: its place is not read.
#[test]
fn a_line_that_is_held_is_not_read(rt: HostRuntime) -> Result<(), Fail> {
    let (told, lies) = flipped_under_keys(rt.alloc(), &EXIT_65, LINE_64, 1)?;
    assert_eq!(rt;
        (told.ending, told.retired, lies),
        (Ending::Halted(65), 6, 0)
    );
    Ok(())
}

// 130 lines turn over twice what a chip may hold of them: the second load of line 64 comes from the bus too.
#[test]
fn lines_past_what_a_chip_may_hold_are_read_again(rt: HostRuntime) -> Result<(), Fail> {
    let (told, _) = ends(rt.alloc(), &OVER_130_LINES, u64::MAX)?;
    assert_eq!(rt; (told.ending, told.retired), (Ending::Halted(0), 1183));
    for (k, retired) in [(1, 396), (2, 789)] {
        let (told, lies) = flipped_under_keys(rt.alloc(), &OVER_130_LINES, LINE_64, k)?;
        let end = (k, told.ending, told.retired, lies);
        assert_eq!(rt; end, (k, Ending::Tampered(LINE_64), retired, 1));
    }
    Ok(())
}

// Line 64 goes out behind each store. The 128th write encrypts its page, and 72 more follow; or it is refused while line 128
// is loaded, and 127 are done. No node is tagged.
#[test]
fn a_line_is_written_as_often_as_the_limit_allows(rt: HostRuntime) -> Result<(), Fail> {
    let rows = [
        (0, 512, Ending::Spent(1), 127),
        (1, 805, Ending::Halted(0), 127 + 64 + 72),
        (u64::MAX, 805, Ending::Halted(0), 127 + 64 + 72),
    ];
    for (page_limit, retired, ending, entries) in rows {
        let (told, _) = ends(rt.alloc(), &WEAR_LINE_64, page_limit)?;
        assert_eq!(rt;
            (told.ending, told.retired),
            (ending, retired),
            "limit {page_limit}"
        );
        let counts = (told.used, told.made, told.evidence);
        assert_eq!(rt; counts, (entries, entries, None), "limit {page_limit}");
    }
    Ok(())
}

// The line is held all along, so no write of it is counted.
#[test]
fn stores_into_a_line_that_is_held_wear_out_nothing(rt: HostRuntime) -> Result<(), Fail> {
    for page_limit in [0, 1, u64::MAX] {
        let (told, _) = ends(rt.alloc(), &COUNT_DOWN, page_limit)?;
        let end = (told.ending, told.retired, told.used, told.made);
        assert_eq!(rt; end, (Ending::Halted(0), 605, 0, 0), "limit {page_limit}");
    }
    Ok(())
}
