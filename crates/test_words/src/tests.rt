// Lines of words. What each asks for is worked out by hand from the commands' arguments and from clap's rules: an option
// stands anywhere behind its command, its value stands in the next word or behind `=`, after `--` no word is an option,
// and no option stands twice.
use self::Shape::{Refused, Tree, WrongLevels};
use bus_trace::Difference;
use chip_words::ProgramForm::{AssemblyText, ElfFile, FlatFile};
use chip_words::{
    Execution, PairRun, ProgramFile, ProgramForm, Request, Tags, ValueFault, WordsError,
    default_run, difference_line, follows_line, order_fault_line, read_words, second_line,
    trace_fault_line,
};
use sec_base::Layout::{One, Two};
use sec_base::{Geometry, Layout};
use std::alloc::{AllocError, Global};
use std::test::Fail;

// The command, the program's file, its form, the input's file, the levels and the steps, which are 0 where nothing is
// run.
type Parts<'a> = (&'a str, &'a str, ProgramForm, Option<&'a str>, u8, u64);

fn parts<'a>(request: &Request<'a>) -> Option<Parts<'a>> {
    match request {
        Request::Run(run) => Some(execution_parts("run", &run.execution)),
        Request::Plain(execution) => Some(execution_parts("plain", execution)),
        Request::Asm(file) => Some(file_parts("asm", file)),
        Request::Dis(file) => Some(file_parts("dis", file)),
        Request::Measure(file) => Some(file_parts("measure", file)),
        Request::Trace(run) => Some(execution_parts("trace", &run.execution)),
        Request::Judge(judged) => Some(execution_parts("judge", &judged.execution)),
        Request::Verify(_) | Request::Bench(_) | Request::Pair(_) => None,
    }
}

fn execution_parts<'a>(command: &'a str, execution: &Execution<'a>) -> Parts<'a> {
    let (command, name, form, _, levels, _) = file_parts(command, &execution.file);
    (
        command,
        name,
        form,
        execution.input,
        levels,
        execution.steps,
    )
}

fn file_parts<'a>(command: &'a str, file: &ProgramFile<'a>) -> Parts<'a> {
    let levels = file.geometry.levels();
    (command, file.name, file.form, None, levels, 0)
}

fn asks_for(alloc: Global, line: &str, expected: Parts<'_>) -> Result<bool, AllocError> {
    let words: Vec<&str> = line.split_whitespace().collect(alloc)?;
    let Ok(request) = read_words(alloc, words.as_slice()) else {
        return Ok(false);
    };
    Ok(parts(&request) == Some(expected))
}

fn usage(alloc: Global, line: &str) -> Result<Option<String>, AllocError> {
    let words: Vec<&str> = line.split_whitespace().collect(alloc)?;
    let text = match read_words(alloc, words.as_slice()) {
        Err(WordsError::Usage(text)) => Some(text),
        Ok(_) | Err(WordsError::WrongValue(_) | WordsError::NoMemory) => None,
    };
    Ok(text)
}

fn is_refused(alloc: Global, line: &str) -> Result<bool, AllocError> {
    let text = usage(alloc, line)?;
    Ok(text.is_some())
}

#[test]
fn requests(rt: HostRuntime) -> Result<(), Fail> {
    let rows: [(&str, Parts<'_>); 22] = [
        ("chip run p", ("run", "p", ElfFile, None, 4, 10_000_000)),
        (
            "chip run p --flat",
            ("run", "p", FlatFile, None, 4, 10_000_000),
        ),
        (
            "chip run --flat p",
            ("run", "p", FlatFile, None, 4, 10_000_000),
        ),
        (
            "other run p --input i --steps 3 --levels 2 --flat",
            ("run", "p", FlatFile, Some("i"), 2, 3),
        ),
        (
            "chip run --flat --levels=2 --steps=3 --input=i p",
            ("run", "p", FlatFile, Some("i"), 2, 3),
        ),
        (
            "chip run help --levels 1",
            ("run", "help", ElfFile, None, 1, 10_000_000),
        ),
        (
            "chip run -- --flat",
            ("run", "--flat", ElfFile, None, 4, 10_000_000),
        ),
        ("chip run p --steps +5", ("run", "p", ElfFile, None, 4, 5)),
        ("chip run --steps 007 p", ("run", "p", ElfFile, None, 4, 7)),
        (
            "chip run p --steps 18446744073709551615 --levels 8",
            ("run", "p", ElfFile, None, 8, u64::MAX),
        ),
        ("chip plain p", ("plain", "p", ElfFile, None, 4, 10_000_000)),
        (
            "chip plain --levels 2 p --input i --flat --steps 3",
            ("plain", "p", FlatFile, Some("i"), 2, 3),
        ),
        ("chip dis p", ("dis", "p", ElfFile, None, 4, 0)),
        (
            "chip dis --flat p --levels +08",
            ("dis", "p", FlatFile, None, 8, 0),
        ),
        ("chip measure p", ("measure", "p", ElfFile, None, 4, 0)),
        (
            "chip measure --levels=1 --flat p",
            ("measure", "p", FlatFile, None, 1, 0),
        ),
        ("chip asm p", ("asm", "p", AssemblyText, None, 4, 0)),
        (
            "chip asm --levels 2 measure",
            ("asm", "measure", AssemblyText, None, 2, 0),
        ),
        ("chip trace p", ("trace", "p", ElfFile, None, 4, 10_000_000)),
        (
            "chip trace --levels 2 judge --input i --flat --steps 3",
            ("trace", "judge", FlatFile, Some("i"), 2, 3),
        ),
        (
            "chip judge p t",
            ("judge", "p", ElfFile, None, 4, 10_000_000),
        ),
        (
            "chip judge --levels 2 p --input i --flat t --steps 3",
            ("judge", "p", FlatFile, Some("i"), 2, 3),
        ),
    ];
    for (line, expected) in rows {
        assert!(rt; asks_for(rt.alloc(), line, expected)?, "{line}");
    }
    Ok(())
}

// What the options of a line come to: a tree of this layout with so many levels, levels that the layout doesn't have, or
// words that clap doesn't take.
#[derive(Clone, Copy, Debug, PartialEq, Eq)]
enum Shape {
    Tree(Layout, u8),
    WrongLevels,
    Refused,
}

fn geometry(request: &Request<'_>) -> Option<Geometry> {
    match request {
        Request::Run(run) | Request::Trace(run) => Some(run.execution.file.geometry),
        Request::Judge(judged) => Some(judged.execution.file.geometry),
        Request::Plain(execution) => Some(execution.file.geometry),
        Request::Asm(file) | Request::Dis(file) | Request::Measure(file) => Some(file.geometry),
        Request::Verify(_) | Request::Bench(_) | Request::Pair(_) => None,
    }
}

fn tree_of(request: &Request<'_>) -> Option<Shape> {
    let tree = geometry(request)?;
    Some(Tree(tree.layout(), tree.levels()))
}

fn refusal_of(error: &WordsError) -> Option<Shape> {
    match error {
        WordsError::WrongValue(ValueFault::Levels) => Some(WrongLevels),
        WordsError::Usage(_) => Some(Refused),
        WordsError::WrongValue(_) | WordsError::NoMemory => None,
    }
}

fn shape_of(alloc: Global, line: &str) -> Result<Option<Shape>, AllocError> {
    let words: Vec<&str> = line.split_whitespace().collect(alloc)?;
    match read_words(alloc, words.as_slice()) {
        Ok(request) => Ok(tree_of(&request)),
        Err(error) => Ok(refusal_of(&error)),
    }
}

// Whether the options come to this shape behind each command that takes a program.
fn comes_to(alloc: Global, options: &str, expected: Shape) -> Result<bool, AllocError> {
    let commands = [
        "run p",
        "plain p",
        "asm p",
        "dis p",
        "measure p",
        "trace p",
        "judge p t",
    ];
    for command in commands {
        let line = format!(in alloc; "chip {command} {options}")?;
        if shape_of(alloc, line.as_str())? != Some(expected) {
            return Ok(false);
        }
    }
    Ok(true)
}

// Layout 1 has 1 to 8 levels, by default 4, and layout 2 has 1 to 5, by default 3. clap takes levels from 1 to 8.
const SHAPES: [(&str, Shape); 33] = [
    ("", Tree(One, 4)),
    ("--levels 0", Refused),
    ("--levels 1", Tree(One, 1)),
    ("--levels 2", Tree(One, 2)),
    ("--levels 3", Tree(One, 3)),
    ("--levels 4", Tree(One, 4)),
    ("--levels 5", Tree(One, 5)),
    ("--levels 6", Tree(One, 6)),
    ("--levels 7", Tree(One, 7)),
    ("--levels 8", Tree(One, 8)),
    ("--levels 9", Refused),
    ("--layout 1", Tree(One, 4)),
    ("--layout 1 --levels 0", Refused),
    ("--layout 1 --levels 1", Tree(One, 1)),
    ("--layout 1 --levels 2", Tree(One, 2)),
    ("--layout 1 --levels 3", Tree(One, 3)),
    ("--layout 1 --levels 4", Tree(One, 4)),
    ("--layout 1 --levels 5", Tree(One, 5)),
    ("--layout 1 --levels 6", Tree(One, 6)),
    ("--layout 1 --levels 7", Tree(One, 7)),
    ("--layout 1 --levels 8", Tree(One, 8)),
    ("--layout 1 --levels 9", Refused),
    ("--layout 2", Tree(Two, 3)),
    ("--layout 2 --levels 0", Refused),
    ("--layout 2 --levels 1", Tree(Two, 1)),
    ("--layout 2 --levels 2", Tree(Two, 2)),
    ("--layout 2 --levels 3", Tree(Two, 3)),
    ("--layout 2 --levels 4", Tree(Two, 4)),
    ("--layout 2 --levels 5", Tree(Two, 5)),
    ("--layout 2 --levels 6", WrongLevels),
    ("--layout 2 --levels 7", WrongLevels),
    ("--layout 2 --levels 8", WrongLevels),
    ("--layout 2 --levels 9", Refused),
];

#[test]
fn layouts_and_levels(rt: HostRuntime) -> Result<(), Fail> {
    for (options, expected) in SHAPES {
        assert!(rt; comes_to(rt.alloc(), options, expected)?, "{options}");
    }
    Ok(())
}

// A layout is a number as others are, from 1 to 2.
const SPELLINGS: [(&str, Shape); 18] = [
    ("--layout=2", Tree(Two, 3)),
    ("--layout +2", Tree(Two, 3)),
    ("--layout 02", Tree(Two, 3)),
    ("--layout +01", Tree(One, 4)),
    ("--levels +05 --layout 002", Tree(Two, 5)),
    ("--levels=06 --layout=2", WrongLevels),
    ("--levels 6 --layout +1", Tree(One, 6)),
    ("--layout 0", Refused),
    ("--layout 3", Refused),
    ("--layout -1", Refused),
    ("--layout=-2", Refused),
    ("--layout", Refused),
    ("--layout=", Refused),
    ("--layout two", Refused),
    ("--layout 18446744073709551617", Refused),
    ("--layout 2 --layout 2", Refused),
    ("--layout 1 --levels 4 --layout 2", Refused),
    ("--layout 2 --levels 6 --levels 6", Refused),
];

#[test]
fn layouts_are_numbers(rt: HostRuntime) -> Result<(), Fail> {
    for (options, expected) in SPELLINGS {
        assert!(rt; comes_to(rt.alloc(), options, expected)?, "{options}");
    }
    Ok(())
}

fn page_limit(alloc: Global, line: &str) -> Result<Option<u64>, AllocError> {
    let words: Vec<&str> = line.split_whitespace().collect(alloc)?;
    let Ok(Request::Run(run)) = read_words(alloc, words.as_slice()) else {
        return Ok(None);
    };
    Ok(Some(run.terms.page_limit))
}

#[test]
fn default_runs(rt: HostRuntime) -> Result<(), Fail> {
    let run = default_run("p");
    assert_eq!(rt;
        execution_parts("run", &run.execution),
        ("run", "p", ElfFile, None, 4, 10_000_000)
    );
    assert_eq!(rt; run.script, None);
    assert_eq!(rt; run.terms.tags, Tags::Hmac);
    assert_eq!(rt; run.terms.page_limit, u64::MAX);
    Ok(())
}

#[test]
fn page_limits(rt: HostRuntime) -> Result<(), Fail> {
    let rows = [
        ("chip run p", u64::MAX),
        ("chip run p --steps 3", u64::MAX),
        ("chip run p --page-limit 0", 0),
        ("chip run p --page-limit 18446744073709551615", u64::MAX),
        ("chip run --page-limit=2 p --steps 3 --levels 1", 2),
        ("chip run --page-limit +007 --steps 3 -- p", 7),
    ];
    for (line, expected) in rows {
        assert_eq!(rt; page_limit(rt.alloc(), line)?, Some(expected), "{line}");
    }
    Ok(())
}

// Whether a line of words asks for a run with this script and these tags.
fn runs_with(
    alloc: Global,
    line: &str,
    script: Option<&str>,
    tags: Tags,
) -> Result<bool, AllocError> {
    let words: Vec<&str> = line.split_whitespace().collect(alloc)?;
    let Ok(Request::Run(run)) = read_words(alloc, words.as_slice()) else {
        return Ok(false);
    };
    Ok((run.script, run.terms.tags) == (script, tags))
}

#[test]
fn scripts_and_tags(rt: HostRuntime) -> Result<(), Fail> {
    let rows = [
        ("chip run p", None, Tags::Hmac),
        ("chip run p --script s", Some("s"), Tags::Hmac),
        ("chip run p --tags hmac --input i", None, Tags::Hmac),
        ("chip run p --tags=xor --levels 1", None, Tags::Xor),
        ("chip run --tags xor --script=p -- p", Some("p"), Tags::Xor),
        ("chip run p --input s --script i", Some("i"), Tags::Hmac),
    ];
    for (line, script, tags) in rows {
        assert!(rt; runs_with(rt.alloc(), line, script, tags)?, "{line}");
    }
    Ok(())
}

// The value of a line that doesn't have its form.
fn wrong_value(alloc: Global, line: &str) -> Result<Option<ValueFault>, AllocError> {
    let words: Vec<&str> = line.split_whitespace().collect(alloc)?;
    match read_words(alloc, words.as_slice()) {
        Err(WordsError::WrongValue(fault)) => Ok(Some(fault)),
        _ => Ok(None),
    }
}

// A value is tested where `clap` has no fault to find.
#[test]
fn wrong_values(rt: HostRuntime) -> Result<(), Fail> {
    let rows = [
        ("chip run p --tags md5", Some(ValueFault::Tags)),
        ("chip run p --tags Hmac", Some(ValueFault::Tags)),
        ("chip run p --tags hmacs --script s", Some(ValueFault::Tags)),
        ("chip run p --tags xo", Some(ValueFault::Tags)),
        ("chip run p --tags=", Some(ValueFault::Tags)),
        ("chip run p --tags xor", None),
        ("chip run p --tags md5 --levels 9", None),
        ("chip plain p --tags md5", None),
        ("chip run p --key 00", Some(ValueFault::Key)),
        ("chip run p --key=", Some(ValueFault::Key)),
        ("chip run p --nonce 00 --levels 2", Some(ValueFault::Nonce)),
        ("chip run p --nonce=", Some(ValueFault::Nonce)),
        ("chip verify r --key 00", Some(ValueFault::Key)),
        ("chip trace p --tags md5", Some(ValueFault::Tags)),
        ("chip trace p --key 00", Some(ValueFault::Key)),
        ("chip trace p --nonce 00", Some(ValueFault::Nonce)),
        ("chip judge p t --tags md5", None),
        ("chip pair a b", None),
        ("chip pair a b --key 00", Some(ValueFault::Key)),
        ("chip pair a b --key2 00", Some(ValueFault::Key)),
        ("chip pair a b --key2=", Some(ValueFault::Key)),
        ("chip pair a b --key2 00 --key 00", Some(ValueFault::Key)),
        ("chip pair a b --key 00 --key2 00 --flat", None),
        ("chip run p --layout 2 --levels 6", Some(ValueFault::Levels)),
        (
            "chip trace p --layout 2 --levels 6 --tags md5",
            Some(ValueFault::Levels),
        ),
        (
            "chip judge p t --layout 2 --levels 6",
            Some(ValueFault::Levels),
        ),
        (
            "chip measure p --layout 2 --levels 8",
            Some(ValueFault::Levels),
        ),
        // The first of levels, tags, key and nonce is told, wherever it stands.
        (
            "chip run p --nonce 0 --tags md5 --key 00 --levels 8 --layout 2",
            Some(ValueFault::Levels),
        ),
        (
            "chip run p --layout 2 --levels 8 --tags md5 --key 00",
            Some(ValueFault::Levels),
        ),
        (
            "chip run p --layout 2 --levels 5 --tags md5 --key 00",
            Some(ValueFault::Tags),
        ),
        (
            "chip run p --layout 2 --levels 6 --nonce 0",
            Some(ValueFault::Levels),
        ),
        ("chip run p --layout 2 --levels 9 --tags md5", None),
        ("chip run p --layout 2 --levels 6 --steps x", None),
        (
            "chip run p --nonce 0 --key 0 --tags x",
            Some(ValueFault::Tags),
        ),
        ("chip run p --nonce 0 --key 0", Some(ValueFault::Key)),
        ("chip run p --nonce 0 --key 0 --steps x", None),
        ("chip verify r --nonce 0 --key 0", None),
    ];
    for (line, fault) in rows {
        assert_eq!(rt; wrong_value(rt.alloc(), line)?, fault, "{line}");
    }
    assert_eq!(rt; ValueFault::Levels.name(), "levels");
    assert_eq!(rt; ValueFault::Tags.name(), "tags");
    assert_eq!(rt; ValueFault::Key.name(), "key");
    assert_eq!(rt; ValueFault::Nonce.name(), "nonce");
    assert_eq!(rt; ValueFault::Keys.name(), "keys");
    Ok(())
}

// A line of words with digits behind them.
fn with_digits(alloc: Global, line: &str, digits: &str) -> Result<String, AllocError> {
    format!(in alloc; "{line} {digits}")
}

const KEY_DIGITS: &str = "fffefdfcfbfaf9f8f7f6f5f4f3f2f1f0efeeedecebeae9e8e7e6e5e4e3e2e1e0";

const NONCE_DIGITS: &str = "101112131415161718191a1b1c1d1e1f";

// A line of words, how many zeros stand behind it, and the value that doesn't have its form.
const LENGTHS: [(&str, usize, Option<ValueFault>); 18] = [
    ("chip run p --key", 62, Some(ValueFault::Key)),
    ("chip run p --key", 63, Some(ValueFault::Key)),
    ("chip run p --key", 64, None),
    ("chip run p --key", 65, Some(ValueFault::Key)),
    ("chip run p --key", 66, Some(ValueFault::Key)),
    ("chip verify r --key", 63, Some(ValueFault::Key)),
    ("chip verify r --key", 64, None),
    ("chip verify r --key", 65, Some(ValueFault::Key)),
    ("chip run p --nonce", 31, Some(ValueFault::Nonce)),
    ("chip run p --nonce", 32, None),
    ("chip run p --nonce", 33, Some(ValueFault::Nonce)),
    ("chip run p --nonce", 64, Some(ValueFault::Nonce)),
    ("chip pair a b --key", 63, Some(ValueFault::Key)),
    ("chip pair a b --key", 64, None),
    ("chip pair a b --key", 65, Some(ValueFault::Key)),
    ("chip pair a b --key2", 63, Some(ValueFault::Key)),
    ("chip pair a b --key2", 64, None),
    ("chip pair a b --key2", 65, Some(ValueFault::Key)),
];

#[test]
fn keys_and_nonces_have_their_length(rt: HostRuntime) -> Result<(), Fail> {
    for (line, count, fault) in LENGTHS {
        let mut digits = String::new(rt.alloc());
        for _ in 0..count {
            digits.push('0')?;
        }
        let words = with_digits(rt.alloc(), line, digits.as_str())?;
        assert_eq!(rt; wrong_value(rt.alloc(), words.as_str())?, fault, "{words}");
    }
    Ok(())
}

#[test]
fn other_letters_are_no_digits(rt: HostRuntime) -> Result<(), Fail> {
    let wrong = "gffefdfcfbfaf9f8f7f6f5f4f3f2f1f0efeeedecebeae9e8e7e6e5e4e3e2e1e0";
    let words = with_digits(rt.alloc(), "chip run p --key", wrong)?;
    let fault = wrong_value(rt.alloc(), words.as_str())?;
    assert_eq!(rt; fault, Some(ValueFault::Key));
    let wrong = "101112131415161718191a1b1c1d1e1:";
    let words = with_digits(rt.alloc(), "chip run p --nonce", wrong)?;
    let fault = wrong_value(rt.alloc(), words.as_str())?;
    assert_eq!(rt; fault, Some(ValueFault::Nonce));
    Ok(())
}

// Digits of either case are the same key and the same nonce.
#[test]
fn keys_and_nonces_are_read(rt: HostRuntime) -> Result<(), Fail> {
    let words = [
        "chip",
        "run",
        "p",
        "--key",
        KEY_DIGITS,
        "--nonce",
        NONCE_DIGITS,
    ];
    let capitals = [
        "chip",
        "run",
        "p",
        "--nonce=101112131415161718191A1B1C1D1E1F",
        "--key=FFFEFDFCFBFAF9F8F7F6F5F4F3F2F1F0EFEEEDECEBEAE9E8E7E6E5E4E3E2E1E0",
    ];
    let lines: [&[&str]; 2] = [&words, &capitals];
    for line in lines {
        let Ok(Request::Run(run)) = read_words(rt.alloc(), line) else {
            return Err(Fail::from("no run"));
        };
        for (byte, expected) in run.terms.device_key.iter().zip((0xe0..=0xff).rev()) {
            assert_eq!(rt; *byte, expected);
        }
        for (byte, expected) in run.terms.nonce.iter().zip(0x10..=0x1f) {
            assert_eq!(rt; *byte, expected);
        }
    }
    Ok(())
}

// A report's file and the device's key, which is the bytes 00 to 1f where none is named.
#[test]
fn reports_to_check(rt: HostRuntime) -> Result<(), Fail> {
    let Ok(Request::Verify(report)) = read_words(rt.alloc(), &["chip", "verify", "r"]) else {
        return Err(Fail::from("no report"));
    };
    assert_eq!(rt; report.name, "r");
    for (byte, expected) in report.device_key.iter().zip(0..32) {
        assert_eq!(rt; *byte, expected);
    }
    let words = ["chip", "verify", "--key", KEY_DIGITS, "--", "--key"];
    let Ok(Request::Verify(report)) = read_words(rt.alloc(), &words) else {
        return Err(Fail::from("no report"));
    };
    assert_eq!(rt; report.name, "--key");
    for (byte, expected) in report.device_key.iter().zip((0xe0..=0xff).rev()) {
        assert_eq!(rt; *byte, expected);
    }
    Ok(())
}

// A run that is traced has every option of a run.
#[test]
fn traced_runs(rt: HostRuntime) -> Result<(), Fail> {
    let words = [
        "chip",
        "trace",
        "p",
        "--script",
        "s",
        "--tags",
        "xor",
        "--page-limit",
        "7",
        "--key",
        KEY_DIGITS,
        "--nonce",
        NONCE_DIGITS,
    ];
    let Ok(Request::Trace(run)) = read_words(rt.alloc(), &words) else {
        return Err(Fail::from("no trace"));
    };
    assert_eq!(rt; run.script, Some("s"));
    assert_eq!(rt; run.terms.tags, Tags::Xor);
    assert_eq!(rt; run.terms.page_limit, 7);
    for (byte, expected) in run.terms.device_key.iter().zip((0xe0..=0xff).rev()) {
        assert_eq!(rt; *byte, expected);
    }
    for (byte, expected) in run.terms.nonce.iter().zip(0x10..=0x1f) {
        assert_eq!(rt; *byte, expected);
    }
    Ok(())
}

// Whether a line of words asks to judge this trace of this program.
fn judges(alloc: Global, line: &str, program: &str, trace: &str) -> Result<bool, AllocError> {
    let words: Vec<&str> = line.split_whitespace().collect(alloc)?;
    let Ok(Request::Judge(judged)) = read_words(alloc, words.as_slice()) else {
        return Ok(false);
    };
    Ok((judged.execution.file.name, judged.trace) == (program, trace))
}

// The first word that is no option and no option's value is the program, and the second is the trace.
#[test]
fn traces_to_judge(rt: HostRuntime) -> Result<(), Fail> {
    let rows = [
        ("chip judge p t", "p", "t"),
        ("chip judge t p", "t", "p"),
        ("chip judge p p", "p", "p"),
        ("chip judge --steps 3 p --input i t", "p", "t"),
        ("chip judge p --flat t --levels 2 --layout 2", "p", "t"),
        ("chip judge -- --flat --steps", "--flat", "--steps"),
        ("chip judge p -- --flat", "p", "--flat"),
    ];
    for (line, program, trace) in rows {
        assert!(rt; judges(rt.alloc(), line, program, trace)?, "{line}");
    }
    Ok(())
}

#[test]
fn lines_of_judged_traces(rt: HostRuntime) -> Result<(), Fail> {
    assert_eq!(rt; follows_line(), "judged follows\n");
    let rows = [
        (Difference::Lie(1), "judged no lie 1\n"),
        (
            Difference::Lie(u64::MAX),
            "judged no lie 18446744073709551615\n",
        ),
        (Difference::Retired, "judged no retired\n"),
        (Difference::Output, "judged no output\n"),
        (Difference::Ending, "judged no ending\n"),
    ];
    for (difference, expected) in rows {
        let line = difference_line(rt.alloc(), difference)?;
        assert_eq!(rt; line.as_str(), expected);
    }
    let line = trace_fault_line(rt.alloc(), 7, "tail")?;
    assert_eq!(rt; line.as_str(), "refused trace 7 tail\n");
    Ok(())
}

// The first program and the second one, the order of their turns, and the script of each.
type Sides<'a> = (
    &'a str,
    &'a str,
    Option<&'a str>,
    Option<&'a str>,
    Option<&'a str>,
);

fn sides<'a>(pair: &PairRun<'a>) -> Sides<'a> {
    (
        pair.first.name,
        pair.second.name,
        pair.order,
        pair.first.script,
        pair.second.script,
    )
}

// Whether a line of words asks for these two programs.
fn pairs(alloc: Global, line: &str, expected: Sides<'_>) -> Result<bool, AllocError> {
    let words: Vec<&str> = line.split_whitespace().collect(alloc)?;
    let Ok(Request::Pair(pair)) = read_words(alloc, words.as_slice()) else {
        return Ok(false);
    };
    Ok(sides(&pair) == expected)
}

// The first word that is no option and no option's value is the first program, and the second is the second one.
#[test]
fn pairs_of_programs(rt: HostRuntime) -> Result<(), Fail> {
    let rows: [(&str, Sides<'_>); 9] = [
        ("chip pair a b", ("a", "b", None, None, None)),
        ("chip pair b a", ("b", "a", None, None, None)),
        ("chip pair a a", ("a", "a", None, None, None)),
        ("chip pair a b --order o", ("a", "b", Some("o"), None, None)),
        (
            "chip pair a --script s b",
            ("a", "b", None, Some("s"), None),
        ),
        (
            "chip pair --script2=s a b",
            ("a", "b", None, None, Some("s")),
        ),
        (
            "chip pair --script2 t a --order=o b --script s",
            ("a", "b", Some("o"), Some("s"), Some("t")),
        ),
        (
            "chip pair --script s --script2 s a --order s s",
            ("a", "s", Some("s"), Some("s"), Some("s")),
        ),
        (
            "chip pair -- --order --script2",
            ("--order", "--script2", None, None, None),
        ),
    ];
    for (line, expected) in rows {
        assert!(rt; pairs(rt.alloc(), line, expected)?, "{line}");
    }
    Ok(())
}

// What else stands in the words of two programs, and the first byte of each key. The next bytes count up from there.
const PAIR_KEYS: [(&[&str], u8, u8); 4] = [
    (&[], 0x00, 0x20),
    (&["--key", HIGH_DIGITS], 0xc0, 0x20),
    (&["--key2", HIGH_DIGITS], 0x00, 0xc0),
    (
        &["--key2", DEFAULT_DIGITS, "--key", SECOND_DIGITS],
        0x20,
        0x00,
    ),
];

const HIGH_DIGITS: &str = "C0C1C2C3C4C5C6C7C8C9CACBCCCDCECFD0D1D2D3D4D5D6D7d8d9dadbdcdddedf";

const HIGH_IN_OTHER_CASE: &str = "c0c1c2c3c4c5c6c7c8c9cacbcccdcecfd0d1d2d3d4d5d6d7D8D9DADBDCDDDEDF";

const DEFAULT_DIGITS: &str = "000102030405060708090a0b0c0d0e0f101112131415161718191a1b1c1d1e1f";

const SECOND_DIGITS: &str = "202122232425262728292a2b2c2d2e2f303132333435363738393a3b3c3d3e3f";

// Whether a key's bytes count up from this one.
fn counts_from(key: &[u8; 32], first: u8) -> bool {
    let mut next = first;
    for byte in key {
        if *byte != next {
            return false;
        }
        next = next.wrapping_add(1);
    }
    true
}

// Whether words ask for two programs under the keys that count up from these bytes.
fn have_keys(alloc: Global, words: &[&str], first: u8, second: u8) -> bool {
    let Ok(Request::Pair(pair)) = read_words(alloc, words) else {
        return false;
    };
    counts_from(&pair.first.device_key, first) && counts_from(&pair.second.device_key, second)
}

#[test]
fn keys_of_pairs(rt: HostRuntime) -> Result<(), Fail> {
    for (options, first, second) in PAIR_KEYS {
        let mut words = Vec::from_slice(rt.alloc(), &["chip", "pair", "a", "b"])?;
        words.extend_from_slice(options)?;
        let holds = have_keys(rt.alloc(), words.as_slice(), first, second);
        assert!(rt; holds, "{options:?}");
    }
    Ok(())
}

// The value that is refused, where keys are equal or lack their form.
#[test]
fn equal_keys(rt: HostRuntime) -> Result<(), Fail> {
    let rows = [
        ("", DEFAULT_DIGITS, Some(ValueFault::Keys)),
        (SECOND_DIGITS, "", Some(ValueFault::Keys)),
        (HIGH_DIGITS, HIGH_DIGITS, Some(ValueFault::Keys)),
        (HIGH_DIGITS, HIGH_IN_OTHER_CASE, Some(ValueFault::Keys)),
        (HIGH_DIGITS, SECOND_DIGITS, None),
        (SECOND_DIGITS, DEFAULT_DIGITS, None),
        ("00", "00", Some(ValueFault::Key)),
    ];
    for (first, second, fault) in rows {
        let words = pair_line(rt.alloc(), first, second)?;
        assert_eq!(rt; wrong_value(rt.alloc(), words.as_str())?, fault, "{words}");
    }
    Ok(())
}

// A line of words for two programs with these keys, where they are not empty.
fn pair_line(alloc: Global, first: &str, second: &str) -> Result<String, AllocError> {
    if first.is_empty() {
        format!(in alloc; "chip pair a b --key2 {second}")
    } else if second.is_empty() {
        format!(in alloc; "chip pair a b --key {first}")
    } else {
        format!(in alloc; "chip pair a b --key2 {second} --key {first}")
    }
}

#[test]
fn lines_of_pairs(rt: HostRuntime) -> Result<(), Fail> {
    assert_eq!(rt; second_line(), "second\n");
    let rows = [
        (0, "refused order 0\n"),
        (1_048_575, "refused order 1048575\n"),
        (usize::MAX, "refused order 18446744073709551615\n"),
    ];
    for (place, expected) in rows {
        let line = order_fault_line(rt.alloc(), place)?;
        assert_eq!(rt; line.as_str(), expected);
    }
    Ok(())
}

// The number of the generated program that a line of words asks for.
fn workload(alloc: Global, line: &str) -> Result<Option<u32>, AllocError> {
    let words: Vec<&str> = line.split_whitespace().collect(alloc)?;
    let Ok(Request::Bench(number)) = read_words(alloc, words.as_slice()) else {
        return Ok(None);
    };
    Ok(Some(number))
}

#[test]
fn numbers_of_generated_programs(rt: HostRuntime) -> Result<(), Fail> {
    let rows = [
        ("chip bench 0", 0),
        ("chip bench 4294967295", u32::MAX),
        ("chip bench +5", 5),
        ("chip bench 007", 7),
        ("chip bench -- 12", 12),
    ];
    for (line, expected) in rows {
        assert_eq!(rt; workload(rt.alloc(), line)?, Some(expected), "{line}");
    }
    Ok(())
}

// The device's key is the bytes 00 to 1f, tags are HMACs, a page counter may be any number of 64 bits, and the nonce is
// zeros.
#[test]
fn terms_of_a_run(rt: HostRuntime) -> Result<(), Fail> {
    let Ok(Request::Run(run)) = read_words(rt.alloc(), &["chip", "run", "p"]) else {
        return Err(Fail::from("no run"));
    };
    for (place, byte) in run.terms.device_key.iter().enumerate() {
        assert_eq!(rt; usize::from(*byte), place);
    }
    assert_eq!(rt; run.terms.tags, Tags::Hmac);
    assert_eq!(rt; run.terms.page_limit, u64::MAX);
    assert_eq!(rt; run.terms.nonce, [0; 16]);
    Ok(())
}

#[test]
fn refusals(rt: HostRuntime) -> Result<(), Fail> {
    let lines = [
        "",
        "chip",
        "chip run",
        "chip run --flat",
        "chip run a b",
        "chip run p --levels 0",
        "chip run p --levels 9",
        "chip run p --layout 2 --levels 9",
        "chip run p --levels=-0",
        "chip run p --levels x",
        "chip run p --levels",
        "chip run p --levels 2 --levels 2",
        "chip run p --flat --flat",
        "chip run p --flat=true",
        "chip run p --steps -0",
        "chip run p --steps 18446744073709551616",
        "chip run p --page-limit 18446744073709551616",
        "chip run p --page-limit x",
        "chip run p --page-limit -1",
        "chip run p --page-limit=-1",
        "chip run p --page-limit 1 --page-limit 1",
        "chip run p --page-limit",
        "chip run p --page-limit=",
        "chip run p --page_limit 1",
        "chip run p --input --flat",
        "chip run p --key",
        "chip run p --key 00 --key 00",
        "chip run p --nonce",
        "chip run p --nonce 00 --nonce 00",
        "chip plain p --key 00",
        "chip plain p --nonce 00",
        "chip run p -f",
        "chip plain p -- --flat",
        "chip plain p --levels 9",
        "chip plain p --page-limit 1",
        "chip plain p --script s",
        "chip plain p --tags xor",
        "chip run p --script",
        "chip run p --tags",
        "chip run p --tags xor --tags xor",
        "chip dis p --levels 9",
        "chip dis p --steps 3",
        "chip dis p --input i",
        "chip dis p --page-limit 1",
        "chip asm",
        "chip asm p --flat",
        "chip asm p --input i",
        "chip asm p --levels 9",
        "chip asm p --page-limit 1",
        "chip measure",
        "chip measure p q",
        "chip measure p --levels 9",
        "chip measure p --steps 3",
        "chip measure p --page-limit 1",
        "chip measure p --key 00",
        "chip verify",
        "chip verify r s",
        "chip verify r --levels 1",
        "chip verify r --layout 1",
        "chip verify r --layout 2",
        "chip verify r --flat",
        "chip verify r --nonce 00",
        "chip verify r --key",
        "chip bench",
        "chip bench 4294967296",
        "chip bench 18446744073709551616",
        "chip bench -1",
        "chip bench -- -1",
        "chip bench -- -0",
        "chip bench x",
        "chip bench 0x10",
        "chip bench 1 2",
        "chip bench 1 --levels 4",
        "chip bench 0 --layout 1",
        "chip bench 0 --layout 2",
        "chip bench 1 --flat",
        "chip trace",
        "chip trace --flat",
        "chip trace p t",
        "chip trace p --levels 9",
        "chip trace p --key 00 --key 00",
        "chip judge",
        "chip judge p",
        "chip judge --flat p",
        "chip judge p t u",
        "chip judge p t --script s",
        "chip judge p t --key 00",
        "chip judge p t --nonce 00",
        "chip judge p t --tags xor",
        "chip judge p t --page-limit 1",
        "chip judge p --trace t",
        "chip judge p t --levels 9",
        "chip judge p t --steps",
        "chip pair",
        "chip pair a",
        "chip pair --order a b",
        "chip pair a b c",
        "chip pair a b --flat",
        "chip pair a b --input i",
        "chip pair a b --steps 3",
        "chip pair a b --levels 4",
        "chip pair a b --layout 1",
        "chip pair a b --nonce 00",
        "chip pair a b --tags hmac",
        "chip pair a b --page-limit 1",
        "chip pair a b --input2 i",
        "chip pair a b --order",
        "chip pair a b --script2",
        "chip pair a b --key2",
        "chip pair a b --order o --order o",
        "chip pair a b --script2 s --script2 s",
        "chip pair a b --key2 00 --key2 00",
        "chip run p --order o",
        "chip run p --script2 s",
        "chip run p --key2 00",
        "chip trace p --order o",
        "chip judge p t --order o",
        "chip verify r --key2 00",
        "chip assemble p",
        "chip --flat run p",
        "chip frob",
        "chip p",
        "chip --help",
        "chip -h",
        "chip help",
        "chip help run",
        "chip run p --help",
        "chip --version",
    ];
    for line in lines {
        assert!(rt; is_refused(rt.alloc(), line)?, "{line}");
    }
    Ok(())
}

#[test]
fn text_of_a_refusal(rt: HostRuntime) -> Result<(), Fail> {
    let text = usage(rt.alloc(), "chip run p --levels 9")?.ok_or("no text")?;
    let first = "error: invalid value '9' for '--levels <L>': 9 is not in 1..=8\n";
    assert!(rt; text.as_str().starts_with(first), "{text}");
    let text = usage(rt.alloc(), "chip dis p --layout 3")?.ok_or("no text")?;
    let first = "error: invalid value '3' for '--layout <1|2>': 3 is not in 1..=2\n";
    assert!(rt; text.as_str().starts_with(first), "{text}");
    Ok(())
}

// An option with a default is told with it.
const ASM_HELP: &str = "\
Makes the ELF file of an assembly text

Usage: chip asm [OPTIONS] <FILE>

Arguments:
  <FILE>  The assembly text

Options:
      --layout <1|2>  The layout of the memory's tree: 1, of four children a node, or 2, of eight [default: 1]
      --levels <L>    The levels of the memory's tree: 1 to 8, by default 4; of layout 2 1 to 5, by default 3
  -h, --help          Print help
";

// The program stands before the trace.
const JUDGE_HELP: &str = "\
Judges a trace

Usage: chip judge [OPTIONS] <FILE> <TRACE>

Arguments:
  <FILE>   The program
  <TRACE>  The trace

Options:
      --flat          FILE has the program's bytes and nothing else; without this it is an ELF file
      --layout <1|2>  The layout of the memory's tree: 1, of four children a node, or 2, of eight [default: 1]
      --levels <L>    The levels of the memory's tree: 1 to 8, by default 4; of layout 2 1 to 5, by default 3
      --input <F>     The program's input, empty by default
      --steps <N>     How many instructions may be retired [default: 10000000]
  -h, --help          Print help
";

// Two programs, and the defaults of both keys.
const PAIR_HELP: &str = "\
Runs two programs that share the core

Usage: chip pair [OPTIONS] <FILE1> <FILE2>

Arguments:
  <FILE1>  The first program
  <FILE2>  The second program

Options:
      --order <F>    Whose turn it is, over and over: a byte 00 or 01 for each; 00 01 by default
      --script <F>   What an adversary does to the memory outside the chip, nothing by default
      --script2 <F>  What an adversary does to the second program's memory, nothing by default
      --key <HEX>    The key of the device, of 64 digits [default: 000102030405060708090a0b0c0d0e0f101112131415161718191a1b1c1d1e1f]
      --key2 <HEX>   The key of the second program's device, of 64 digits [default: 202122232425262728292a2b2c2d2e2f303132333435363738393a3b3c3d3e3f]
  -h, --help         Print help
";

#[test]
fn help_of_a_command(rt: HostRuntime) -> Result<(), Fail> {
    let text = usage(rt.alloc(), "chip asm --help")?.ok_or("no text")?;
    assert_eq!(rt; text.as_str(), ASM_HELP);
    let text = usage(rt.alloc(), "chip judge --help")?.ok_or("no text")?;
    assert_eq!(rt; text.as_str(), JUDGE_HELP);
    let text = usage(rt.alloc(), "chip pair --help")?.ok_or("no text")?;
    assert_eq!(rt; text.as_str(), PAIR_HELP);
    let text = usage(rt.alloc(), "chip trace --help")?.ok_or("no text")?;
    let first = "Runs a program on protected memory, and writes down what its bus saw\n";
    assert!(rt; text.as_str().starts_with(first), "{text}");
    Ok(())
}
