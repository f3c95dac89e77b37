// Words that are no request. What is told is worked out by hand, and of `clap` it is its own text.
use chip_cases::{Call, Shown, call_without_files, make_call, shows};
use sec_base::{MemoryFiles, NoMemory};
use std::alloc::Global;
use std::process::Abort;
use std::test::Fail;

const OTHER_WORDS: [&[&str]; 21] = [
    &[],
    &["chip"],
    &["run", "f", "--flat"],
    &["chip", "--help"],
    &["chip", "help", "run"],
    &["chip", "run"],
    &["chip", "run", "f", "--flat", "x"],
    &["chip", "run", "f", "--flat", "--levels", "9"],
    &["chip", "run", "f", "--page-limit", "18446744073709551616"],
    &["chip", "plain", "f", "--page-limit", "1"],
    &["chip", "dis", "f", "--flat", "--steps", "3"],
    &["chip", "asm"],
    &["chip", "asm", "f", "--flat"],
    &["chip", "measure", "f", "--input", "i"],
    &["chip", "bench"],
    &["chip", "bench", "4294967296"],
    &["chip", "bench", "-1"],
    &["chip", "bench", "0", "--flat"],
    &["chip", "bench", "0", "--layout", "2"],
    &["chip", "verify", "f", "--layout", "2"],
    &["chip", "run", "f", "--flat", "--layout", "3"],
];

fn call_is_usage(alloc: Global, words: &[&str]) -> Result<bool, NoMemory> {
    let call = call_without_files(alloc, words)?;
    Ok(call.is_usage())
}

#[test]
fn other_words_are_usage(rt: HostRuntime) -> Result<(), Fail> {
    for words in OTHER_WORDS {
        let is_usage = call_is_usage(rt.alloc(), words)?;
        assert!(rt; is_usage, "{words:?}");
    }
    Ok(())
}

fn tells_first(alloc: Global, words: &[&str], told: &[u8]) -> Result<bool, NoMemory> {
    let call = call_without_files(alloc, words)?;
    Ok(call.is_usage() && call.note.bytes().starts_with(told))
}

// The lines that stand first where `clap` refuses a number of levels; the text is one piece behind `usage`.
const NO_LEVELS: [(&str, &[u8]); 2] = [
    (
        "9",
        b"usage\nerror: invalid value '9' for '--levels <L>': 9 is not in 1..=8\n",
    ),
    (
        "0",
        b"usage\nerror: invalid value '0' for '--levels <L>': 0 is not in 1..=8\n",
    ),
];

fn check_levels(rt: &impl Abort, alloc: Global, command: &str) -> Result<(), NoMemory> {
    for (levels, told) in NO_LEVELS {
        let words = ["chip", command, "f", "--levels", levels];
        let is_told = tells_first(alloc, &words, told)?;
        assert!(rt; is_told, "{command} {levels}");
    }
    Ok(())
}

// Of each command with a memory.
#[test]
fn usage_says_what_is_wrong(rt: HostRuntime) -> Result<(), Fail> {
    for command in ["run", "plain", "asm", "dis", "measure"] {
        check_levels(&rt, rt.alloc(), command)?;
    }
    Ok(())
}

fn check_shown(rt: &impl Abort, words: &[&str], shown: Shown<'_>, expected: Shown<'_>) {
    assert_eq!(rt; shown, expected, "{words:?}");
}

// The write to `note` with this number fails.
fn call_cut(alloc: Global, words: &[&str], fails: u64) -> Result<Call, NoMemory> {
    let mut files = MemoryFiles::new(alloc, &[])?;
    make_call(alloc, words, &mut files, &[], &[fails])
}

// A call is made and compared here, so that no test holds one: that makes the proof of a test cheap.
fn check_cut(
    rt: &impl Abort,
    alloc: Global,
    words: &[&str],
    fails: u64,
    told: &[u8],
) -> Result<(), Fail> {
    let call = call_cut(alloc, words, fails)?;
    check_shown(rt, words, call.shown(), shows(b"", told, 2));
    Ok(())
}

// The write to `note` that fails, and what is told before it: `usage` by a line, and the text behind it by one piece.
const CUTS: [(&[&str], u64, &[u8]); 4] = [
    (&["chip"], 1, b""),
    (&["chip", "asm", "f", "--flat"], 1, b""),
    (&["chip", "run", "f", "--levels", "9"], 1, b""),
    (&["chip", "run", "f", "--levels", "9"], 2, b"usage\n"),
];

#[test]
fn a_fault_of_note_keeps_a_refusal(rt: HostRuntime) -> Result<(), Fail> {
    for (words, fails, told) in CUTS {
        check_cut(&rt, rt.alloc(), words, fails, told)?;
    }
    Ok(())
}

// A key of 63 digits, and no nonce's 32.
const ZEROS: &str = "000000000000000000000000000000000000000000000000000000000000000";

const OTHER_VALUES: [(&[&str], &[u8]); 13] = [
    (&["chip", "run", "p", "--tags", "md5"], b"usage tags\n"),
    (&["chip", "run", "p", "--key", "00"], b"usage key\n"),
    (&["chip", "run", "p", "--key", ZEROS], b"usage key\n"),
    (&["chip", "run", "p", "--nonce", ZEROS], b"usage nonce\n"),
    (&["chip", "verify", "p", "--key", ZEROS], b"usage key\n"),
    (
        &["chip", "run", "p", "--nonce", "0", "--key", "0"],
        b"usage key\n",
    ),
    (
        &["chip", "run", "p", "--key", "0", "--tags", "md5"],
        b"usage tags\n",
    ),
    (
        &[
            "chip", "run", "p", "--tags", "md5", "--layout", "2", "--levels", "8",
        ],
        b"usage levels\n",
    ),
    (
        &["chip", "run", "p", "--layout", "2", "--levels", "6"],
        b"usage levels\n",
    ),
    (
        &["chip", "plain", "p", "--layout", "2", "--levels", "6"],
        b"usage levels\n",
    ),
    (
        &["chip", "asm", "p", "--layout", "2", "--levels", "7"],
        b"usage levels\n",
    ),
    (
        &["chip", "dis", "p", "--layout", "2", "--levels", "8"],
        b"usage levels\n",
    ),
    (
        &["chip", "measure", "p", "--layout", "2", "--levels", "6"],
        b"usage levels\n",
    ),
];

fn check(rt: &impl Abort, alloc: Global, words: &[&str], told: &[u8]) -> Result<(), Fail> {
    let call = call_without_files(alloc, words)?;
    check_shown(rt, words, call.shown(), shows(b"", told, 2));
    Ok(())
}

// The first of levels, tags, key and nonce is told, before any file is read: there is none.
#[test]
fn levels_tags_keys_and_nonces_are_checked(rt: HostRuntime) -> Result<(), Fail> {
    for (words, told) in OTHER_VALUES {
        check(&rt, rt.alloc(), words, told)?;
    }
    Ok(())
}
