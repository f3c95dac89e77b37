// Words for two programs that are no request. No file is read then.
use crate::calls::{PAIR, with_options};
use crate::noted_files::{Contents, NotedCall, call_noted};
use chip_cases::{EXIT_7_ELF, shows};
use sec_base::NoMemory;
use std::alloc::Global;
use std::process::Abort;
use std::test::Fail;

// They would run.
const GOOD: Contents<'static> = [&EXIT_7_ELF, &EXIT_7_ELF, b"\0\x01", b"", b""];

// Of 63 and of 65 digits, and of 64 of which the last is none.
const SHORT: &str = "202122232425262728292a2b2c2d2e2f303132333435363738393a3b3c3d3e3";

const LONG: &str = "202122232425262728292a2b2c2d2e2f303132333435363738393a3b3c3d3e3f4";

const NO_DIGIT: &str = "202122232425262728292a2b2c2d2e2f303132333435363738393a3b3c3d3e3g";

// The keys where none is named.
const KEY: &str = "000102030405060708090a0b0c0d0e0f101112131415161718191a1b1c1d1e1f";

const KEY_2: &str = "202122232425262728292a2b2c2d2e2f303132333435363738393a3b3c3d3e3f";

// The second of these again in another case of letters, and one that differs in its last digit.
const KEY_2_CAPITAL: &str = "202122232425262728292A2B2C2D2E2F303132333435363738393A3B3C3D3E3F";

const KEY_2_CHANGED: &str = "202122232425262728292a2b2c2d2e2f303132333435363738393a3b3c3d3e3e";

// Options, and what is told. Keys are compared where both have their form.
const WRONG_KEYS: [(&[&str], &[u8]); 17] = [
    (&["--key", SHORT], b"usage key\n"),
    (&["--key", LONG], b"usage key\n"),
    (&["--key", NO_DIGIT], b"usage key\n"),
    (&["--key="], b"usage key\n"),
    (&["--key2", SHORT], b"usage key\n"),
    (&["--key2", LONG], b"usage key\n"),
    (&["--key2", NO_DIGIT], b"usage key\n"),
    (&["--key2="], b"usage key\n"),
    (&["--key", SHORT, "--key2", SHORT], b"usage key\n"),
    (&["--key", SHORT, "--key2", KEY], b"usage key\n"),
    (&["--key", KEY_2, "--key2", NO_DIGIT], b"usage key\n"),
    (&["--key", KEY_2], b"usage keys\n"),
    (&["--key", KEY_2_CAPITAL], b"usage keys\n"),
    (&["--key2", KEY], b"usage keys\n"),
    (&["--key", KEY, "--key2", KEY], b"usage keys\n"),
    (&["--key2", KEY_2, "--key", KEY_2], b"usage keys\n"),
    (&["--key", KEY_2_CAPITAL, "--key2", KEY_2], b"usage keys\n"),
];

fn call_with(alloc: Global, options: &[&'static str]) -> Result<NotedCall, NoMemory> {
    let words = with_options(alloc, &PAIR, options)?;
    call_noted(alloc, words.as_slice(), GOOD, &[])
}

// A call is dropped in functions such as this one alone, which makes the proof of a test cheap.
fn check_told(
    rt: &impl Abort,
    call: Result<NotedCall, NoMemory>,
    told: &[u8],
    options: &[&str],
) -> Result<(), NoMemory> {
    let call = call?;
    let answer = (call.shown(), call.names());
    assert_eq!(rt; answer, (shows(b"", told, 2), ""), "{options:?}");
    Ok(())
}

#[test]
fn keys_have_their_form_and_differ(rt: HostRuntime) -> Result<(), Fail> {
    for (options, told) in WRONG_KEYS {
        check_told(&rt, call_with(rt.alloc(), options), told, options)?;
    }
    Ok(())
}

// Keys that differ.
const KEYS: [&[&str]; 5] = [
    &[],
    &["--key", KEY, "--key2", KEY_2_CAPITAL],
    &["--key", KEY_2, "--key2", KEY],
    &["--key", KEY_2_CHANGED],
    &["--key2", KEY_2_CHANGED, "--key", KEY_2],
];

fn check_taken(
    rt: &impl Abort,
    call: Result<NotedCall, NoMemory>,
    options: &[&str],
) -> Result<(), NoMemory> {
    let call = call?;
    assert_eq!(rt; (call.status(), call.names()), (0, "a b "), "{options:?}");
    Ok(())
}

#[test]
fn keys_that_differ_are_taken(rt: HostRuntime) -> Result<(), Fail> {
    for options in KEYS {
        check_taken(&rt, call_with(rt.alloc(), options), options)?;
    }
    Ok(())
}

const OTHER_WORDS: [&[&str]; 20] = [
    &["chip", "pair", "a"],
    &["chip", "pair", "a", "--order", "o"],
    &["chip", "pair", "a", "b", "a"],
    &["chip", "pair", "a", "b", "--input", "o"],
    &["chip", "pair", "a", "b", "--input2", "o"],
    &["chip", "pair", "a", "b", "--steps", "3"],
    &["chip", "pair", "a", "b", "--flat"],
    &["chip", "pair", "a", "b", "--layout", "1"],
    &["chip", "pair", "a", "b", "--levels", "4"],
    &["chip", "pair", "a", "b", "--tags", "hmac"],
    &["chip", "pair", "a", "b", "--page-limit", "1"],
    &["chip", "pair", "a", "b", "--nonce", "00"],
    &["chip", "pair", "a", "b", "--script1", "s"],
    &["chip", "pair", "a", "b", "--key1", KEY],
    &["chip", "pair", "a", "b", "--order"],
    &["chip", "pair", "a", "b", "--order", "o", "--order", "o"],
    &["chip", "pair", "a", "b", "--key", KEY, "--key", KEY],
    &["chip", "pair", "a", "b", "--key", KEY_2, "--flat"],
    &["chip", "run", "a", "--key2", KEY_2],
    &["chip", "run", "a", "--order", "o"],
];

fn check_usage(
    rt: &impl Abort,
    call: Result<NotedCall, NoMemory>,
    words: &[&str],
) -> Result<(), NoMemory> {
    let call = call?;
    assert_eq!(rt; (call.is_usage(), call.names()), (true, ""), "{words:?}");
    Ok(())
}

#[test]
fn other_words_are_usage(rt: HostRuntime) -> Result<(), Fail> {
    for words in OTHER_WORDS {
        check_usage(&rt, call_noted(rt.alloc(), words, GOOD, &[]), words)?;
    }
    Ok(())
}
