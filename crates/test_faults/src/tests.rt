// Reads and writes that fail, each in turn. What is written whole is worked out by hand from the words and the machine's
// rules, and digests and the report by another program (hashlib, hmac in Python); each line is one piece.
use crate::forgetful::{ForgetfulFiles, ForgetfulSink};
use chip_cases::{
    ASM, Call, DIGEST, DIS, EXIT_7, EXIT_7_BYTES, EXIT_7_ELF, EXIT_7_TEXT, FIELDS, LISTING,
    MEASURE, PLAIN, PLAIN_ON_INPUT, PRINT_A, REPORT, RUN, RUN_BY_ALL, RUN_SMALL, Shown, VERIFY,
    call_program, file, make_call, make_short_call, program, shows, without_report,
};
use chip_main::run_words;
use sec_base::{Ending, MemoryFiles, NoMemory};
use std::alloc::Global;
use std::process::Abort;
use std::test::Fail;

// What is told of a run of the program that exits with 7, with the line of its report.
const TOLD: &[u8] = b"halted 7\nretired 3\nlies 0\n\
    report \
    020116f50c65e5d32ef308c297c15f9cdae14c3f482dd9e03853348a497b7abe0a1a\
    e3b0c44298fc1c149afbf4c8996fb92427ae41e4649b934ca495991b7852b855\
    e3b0c44298fc1c149afbf4c8996fb92427ae41e4649b934ca495991b7852b855\
    0300000000000000000700000000000000000000000000000000000000\
    81e559c48eb173a699be68f86f6a16eaf31a8f353212150f6009039db0c6161c\n";

// A command, the file `f`, how many files it reads, and what it prints and tells whole, with status 0.
#[derive(Clone, Copy)]
struct Command<'a> {
    words: &'a [&'a str],
    bytes: &'a [u8],
    reads: u64,
    printed: &'a [u8],
    told: &'a [u8],
}

const PLAIN_RUN: Command<'static> = Command {
    words: &PLAIN_ON_INPUT,
    bytes: EXIT_7_BYTES,
    reads: 2,
    printed: b"",
    told: b"halted 7\nretired 3\n",
};

const LISTED: Command<'static> = Command {
    words: &DIS,
    bytes: EXIT_7_BYTES,
    reads: 1,
    printed: LISTING,
    told: b"",
};

const COMMANDS: [Command<'static>; 7] = [
    Command {
        words: &RUN,
        bytes: EXIT_7_BYTES,
        reads: 1,
        printed: b"",
        told: TOLD,
    },
    Command {
        words: &RUN_BY_ALL,
        bytes: EXIT_7_BYTES,
        reads: 3,
        printed: b"",
        told: TOLD,
    },
    PLAIN_RUN,
    LISTED,
    Command {
        words: &MEASURE,
        bytes: EXIT_7_BYTES,
        reads: 1,
        printed: DIGEST,
        told: b"",
    },
    Command {
        words: &ASM,
        bytes: EXIT_7_TEXT,
        reads: 1,
        printed: &EXIT_7_ELF,
        told: b"",
    },
    Command {
        words: &VERIFY,
        bytes: REPORT,
        reads: 1,
        printed: FIELDS,
        told: b"",
    },
];

// More bytes than a piece has.
const WHOLE: usize = 1_000_000;

// A script and an input without a byte.
fn add_empty(files: &mut MemoryFiles) -> Result<(), NoMemory> {
    files.add("s", b"")?;
    files.add("i", b"")
}

// These beside the file `f`. Reads with these numbers fail.
fn files_of(alloc: Global, bytes: &[u8], fails: &[u64]) -> Result<MemoryFiles, NoMemory> {
    let mut files = file(alloc, bytes, fails)?;
    add_empty(&mut files)?;
    Ok(files)
}

// How many pieces a text is: its lines, of which the last may end with the text.
fn pieces(text: &[u8]) -> u64 {
    let mut count = 0u64;
    for byte in text {
        if *byte == b'\n' {
            count = count.saturating_add(1);
        }
    }
    if text.is_empty() || text.ends_with(b"\n") {
        count
    } else {
        count.saturating_add(1)
    }
}

fn first_bytes(text: &[u8], count: usize) -> &[u8] {
    &text[..count.min(text.len())]
}

// So many pieces of a text, from its beginning.
fn first_pieces(text: &[u8], wanted: u64) -> &[u8] {
    let mut count = 0u64;
    let mut at = 0usize;
    for byte in text {
        if count >= wanted {
            break;
        }
        if *byte == b'\n' {
            count = count.saturating_add(1);
        }
        at = at.saturating_add(1);
    }
    first_bytes(text, at)
}

// The number of the read, and of the writes to `out` and to `note`, that comes to nothing: 0 is none.
#[derive(Clone, Copy)]
struct At {
    read: u64,
    out: u64,
    note: u64,
}

const NEVER: At = At {
    read: 0,
    out: 0,
    note: 0,
};

// A command where these fail.
fn call_failing(alloc: Global, command: Command<'_>, at: At) -> Result<Call, NoMemory> {
    let mut files = files_of(alloc, command.bytes, &[at.read])?;
    make_call(alloc, command.words, &mut files, &[at.out], &[at.note])
}

// What a call wrote, with the line of a report, and its status.
fn assert_whole(rt: &impl Abort, call: &Call, expected: Shown<'_>) {
    let shown = shows(call.out.bytes(), call.note.bytes(), call.done.status);
    assert_eq!(rt; shown, expected);
}

// What a command comes to where these fail.
fn check_failing(
    rt: &impl Abort,
    alloc: Global,
    command: Command<'_>,
    at: At,
    expected: Shown<'_>,
) -> Result<(), Fail> {
    let call = call_failing(alloc, command, at)?;
    assert_whole(rt, &call, expected);
    Ok(())
}

// What a call wrote, and its status.
#[derive(Drop)]
struct Wanting {
    out: ForgetfulSink,
    note: ForgetfulSink,
    status: u8,
}

impl Wanting {
    // Sinks of which these writes find no memory, and that take so many bytes of a piece at most.
    fn new(alloc: Global, at: At, most: usize) -> Result<Wanting, NoMemory> {
        let out = ForgetfulSink::new(alloc, most, at.out)?;
        let note = ForgetfulSink::new(alloc, most, at.note)?;
        Ok(Wanting {
            out,
            note,
            status: 0,
        })
    }

    fn run(&mut self, alloc: Global, words: &[&str], files: &mut ForgetfulFiles) {
        let done = run_words(alloc, words, files, &mut self.out, &mut self.note);
        self.status = done.status;
    }

    fn shown(&self) -> Shown<'_> {
        shows(self.out.bytes(), self.note.bytes(), self.status)
    }
}

// A call where these find no memory, and the sinks take so many bytes of a piece at most.
fn call_wanting(
    alloc: Global,
    words: &[&str],
    files: MemoryFiles,
    at: At,
    most: usize,
) -> Result<Wanting, NoMemory> {
    let mut files = ForgetfulFiles::new(files, at.read);
    let mut wanting = Wanting::new(alloc, at, most)?;
    wanting.run(alloc, words, &mut files);
    Ok(wanting)
}

// What a command comes to then.
fn check_wanting(
    rt: &impl Abort,
    alloc: Global,
    command: Command<'_>,
    at: At,
    most: usize,
    expected: Shown<'_>,
) -> Result<(), Fail> {
    let files = files_of(alloc, command.bytes, &[])?;
    let call = call_wanting(alloc, command.words, files, at, most)?;
    assert_eq!(rt; call.shown(), expected);
    Ok(())
}

// Where a number is past those that there are, a command comes to what it does without.
fn check_past(rt: &impl Abort, alloc: Global, command: Command<'_>, at: At) -> Result<(), Fail> {
    let whole = shows(command.printed, command.told, 0);
    check_failing(rt, alloc, command, at, whole)?;
    check_wanting(rt, alloc, command, at, WHOLE, whole)
}

// Each file that is read: nothing is printed. That memory was wanted is not told.
fn check_reads(rt: &impl Abort, alloc: Global, command: Command<'_>) -> Result<(), Fail> {
    for before in 0..command.reads {
        let read = before.saturating_add(1);
        let at = At { read, ..NEVER };
        check_failing(rt, alloc, command, at, shows(b"", b"read fault\n", 8))?;
        check_wanting(rt, alloc, command, at, WHOLE, shows(b"", b"", 10))?;
    }
    let read = command.reads.saturating_add(1);
    check_past(rt, alloc, command, At { read, ..NEVER })
}

#[test]
fn each_read_fails_in_turn(rt: HostRuntime) -> Result<(), Fail> {
    for command in COMMANDS {
        check_reads(&rt, rt.alloc(), command)?;
    }
    Ok(())
}

// What is printed stands up to the piece that fails, and nothing is told.
fn check_printed(rt: &impl Abort, alloc: Global, command: Command<'_>) -> Result<(), Fail> {
    let count = pieces(command.printed);
    for before in 0..count {
        let out = before.saturating_add(1);
        let at = At { out, ..NEVER };
        let printed = first_pieces(command.printed, before);
        check_failing(rt, alloc, command, at, shows(printed, b"", 9))?;
        check_wanting(rt, alloc, command, at, WHOLE, shows(printed, b"", 10))?;
    }
    let out = count.saturating_add(1);
    check_past(rt, alloc, command, At { out, ..NEVER })
}

#[test]
fn each_write_to_out_fails_in_turn(rt: HostRuntime) -> Result<(), Fail> {
    for command in COMMANDS {
        check_printed(&rt, rt.alloc(), command)?;
    }
    Ok(())
}

// What is told stands up to the line that fails. Of a run on protected memory there are four.
fn check_told(rt: &impl Abort, alloc: Global, command: Command<'_>) -> Result<(), Fail> {
    let count = pieces(command.told);
    for before in 0..count {
        let note = before.saturating_add(1);
        let at = At { note, ..NEVER };
        let told = first_pieces(command.told, before);
        let expected = shows(command.printed, told, 9);
        check_failing(rt, alloc, command, at, expected)?;
        let expected = shows(command.printed, told, 10);
        check_wanting(rt, alloc, command, at, WHOLE, expected)?;
    }
    let note = count.saturating_add(1);
    check_past(rt, alloc, command, At { note, ..NEVER })
}

#[test]
fn each_write_to_note_fails_in_turn(rt: HostRuntime) -> Result<(), Fail> {
    for command in COMMANDS {
        check_told(&rt, rt.alloc(), command)?;
    }
    Ok(())
}

// A command whose sinks take so many bytes of a piece at most.
fn call_narrow(alloc: Global, command: Command<'_>, most: usize) -> Result<Call, NoMemory> {
    let mut files = files_of(alloc, command.bytes, &[])?;
    make_short_call(alloc, command.words, &mut files, most)
}

fn check_narrow(
    rt: &impl Abort,
    alloc: Global,
    command: Command<'_>,
    most: usize,
) -> Result<(), Fail> {
    let call = call_narrow(alloc, command, most)?;
    assert_whole(rt, &call, shows(command.printed, command.told, 0));
    Ok(())
}

// Sinks that take little of a piece get the same bytes.
#[test]
fn narrow_sinks_get_the_same_bytes(rt: HostRuntime) -> Result<(), Fail> {
    for command in COMMANDS {
        for most in [1, 7, 64] {
            check_narrow(&rt, rt.alloc(), command, most)?;
        }
    }
    Ok(())
}

// Those that take one byte at a time find no memory at each byte in turn: of what is told of a run on the plain machine, and
// of a listing.
#[test]
fn each_byte_finds_no_memory_in_turn(rt: HostRuntime) -> Result<(), Fail> {
    let told = PLAIN_RUN.told;
    for before in 0..told.len() {
        let note = (before as u64).saturating_add(1);
        let at = At { note, ..NEVER };
        let expected = shows(b"", first_bytes(told, before), 10);
        check_wanting(&rt, rt.alloc(), PLAIN_RUN, at, 1, expected)?;
    }
    for before in 0..LISTING.len() {
        let out = (before as u64).saturating_add(1);
        let at = At { out, ..NEVER };
        let expected = shows(first_bytes(LISTING, before), b"", 10);
        check_wanting(&rt, rt.alloc(), LISTED, at, 1, expected)?;
    }
    Ok(())
}

// It prints A and then B, and exits with what the last service answered, which is 1.
const PRINT_A_AND_B: [u32; 12] = [
    0x0000_05b7, // lui a1, 0x0
    0x02c5_8593, // addi a1, a1, 44
    0x0010_0613, // addi a2, zero, 1
    0x0010_0513, // addi a0, zero, 1
    0x0400_0893, // addi a7, zero, 64
    0x0000_0073, // ecall
    0x0015_8593, // addi a1, a1, 1
    0x0010_0513, // addi a0, zero, 1
    0x0000_0073, // ecall
    0x05d0_0893, // addi a7, zero, 93
    0x0000_0073, // ecall
    0x0000_4241, // "AB"
];

// What is printed and told of that program on protected memory where a write of it fails, or finds no memory, and the
// status.
#[derive(Clone, Copy)]
struct Cut<'a> {
    out: u64,
    printed: &'a [u8],
    failing: (&'a [u8], u8),
    wanting: (&'a [u8], u8),
}

const CUTS: [Cut<'static>; 3] = [
    Cut {
        out: 1,
        printed: b"",
        failing: (b"write fault\nretired 5\nlies 0\n", 9),
        wanting: (b"no memory\nretired 5\nlies 0\n", 10),
    },
    Cut {
        out: 2,
        printed: b"A",
        failing: (b"write fault\nretired 8\nlies 0\n", 9),
        wanting: (b"no memory\nretired 8\nlies 0\n", 10),
    },
    Cut {
        out: 3,
        printed: b"AB",
        failing: (b"halted 1\nretired 11\nlies 0\n", 0),
        wanting: (b"halted 1\nretired 11\nlies 0\n", 0),
    },
];

// The program's files, where no read fails.
fn printing_files(alloc: Global) -> Result<MemoryFiles, NoMemory> {
    let bytes = program(alloc, &PRINT_A_AND_B)?;
    files_of(alloc, bytes.as_slice(), &[])
}

// What a run of the program comes to where a write to `out` finds no memory.
fn check_printing(
    rt: &impl Abort,
    alloc: Global,
    words: &[&str],
    out: u64,
    expected: Shown<'_>,
) -> Result<(), Fail> {
    let files = printing_files(alloc)?;
    let call = call_wanting(alloc, words, files, At { out, ..NEVER }, 1)?;
    let told = without_report(call.note.bytes());
    assert_eq!(rt; shows(call.out.bytes(), told, call.status), expected);
    Ok(())
}

// What a run of the program comes to where a write to `out` fails.
fn check_cut(
    rt: &impl Abort,
    alloc: Global,
    words: &[&str],
    out: u64,
    expected: Shown<'_>,
) -> Result<(), Fail> {
    let call = call_program(alloc, words, &PRINT_A_AND_B, &[out], &[])?;
    assert_eq!(rt; call.shown(), expected);
    Ok(())
}

// On the plain machine all is told but the last line.
#[test]
fn a_run_ends_where_its_output_fails(rt: HostRuntime) -> Result<(), Fail> {
    for cut in CUTS {
        let (told, status) = cut.failing;
        let whole = shows(cut.printed, told, status);
        check_cut(&rt, rt.alloc(), &RUN, cut.out, whole)?;
        let plain = shows(cut.printed, first_pieces(told, 2), status);
        check_cut(&rt, rt.alloc(), &PLAIN, cut.out, plain)?;
    }
    Ok(())
}

#[test]
fn a_run_ends_where_its_output_finds_no_memory(rt: HostRuntime) -> Result<(), Fail> {
    for cut in CUTS {
        let (told, status) = cut.wanting;
        let whole = shows(cut.printed, told, status);
        check_printing(&rt, rt.alloc(), &RUN, cut.out, whole)?;
        let plain = shows(cut.printed, first_pieces(told, 2), status);
        check_printing(&rt, rt.alloc(), &PLAIN, cut.out, plain)?;
    }
    Ok(())
}

// The run of the program whose sinks take one byte of a piece.
fn print_narrow(alloc: Global) -> Result<Call, NoMemory> {
    let mut files = printing_files(alloc)?;
    make_short_call(alloc, &RUN, &mut files, 1)
}

#[test]
fn a_run_prints_the_same_to_narrow_sinks(rt: HostRuntime) -> Result<(), Fail> {
    let call = print_narrow(rt.alloc())?;
    let told = b"halted 1\nretired 11\nlies 0\n";
    assert_eq!(rt; call.shown(), shows(b"AB", told, 0));
    Ok(())
}

// A run of which a sink fails, where nothing is printed: the writes that fail, and what is told of it.
#[derive(Clone, Copy)]
struct Kept<'a> {
    words: &'a [&'a str],
    code: &'a [u32],
    out_fails: &'a [u64],
    note_fails: &'a [u64],
    told: &'a [u8],
    ending: Ending,
}

const KEPT: [Kept<'static>; 2] = [
    Kept {
        words: &RUN,
        code: &EXIT_7,
        out_fails: &[],
        note_fails: &[1],
        told: b"",
        ending: Ending::Halted(7),
    },
    Kept {
        words: &RUN_SMALL,
        code: &PRINT_A,
        out_fails: &[1],
        note_fails: &[],
        told: b"write fault\nretired 7\nlies 0\n",
        ending: Ending::WriteFault,
    },
];

fn check_kept(rt: &impl Abort, alloc: Global, kept: Kept<'_>) -> Result<(), Fail> {
    let (out_fails, note_fails) = (kept.out_fails, kept.note_fails);
    let call = call_program(alloc, kept.words, kept.code, out_fails, note_fails)?;
    let came = (call.shown(), call.ending());
    assert_eq!(rt; came, (shows(b"", kept.told, 9), Some(kept.ending)));
    Ok(())
}

// The run is handed back where nothing can be told of it, and where its output ended it.
#[test]
fn a_fault_of_a_sink_keeps_the_run(rt: HostRuntime) -> Result<(), Fail> {
    for kept in KEPT {
        check_kept(&rt, rt.alloc(), kept)?;
    }
    Ok(())
}

// A call of which one line is told: its words, the file `f` and the script `s`, the line, the status, and the status where
// the line fails. A refusal was met before; that a report's tag differs is a result.
#[derive(Clone, Copy)]
struct OneLine<'a> {
    words: &'a [&'a str],
    bytes: &'a [u8],
    script: &'a [u8],
    told: &'a [u8],
    status: u8,
    untold: u8,
}

// A report's 316 digits, of version 1, whose tag is zeros.
const ZERO_REPORT: &[u8] = b"01\
    00000000000000000000000000000000000000000000000000000000000000000000000000000000\
    00000000000000000000000000000000000000000000000000000000000000000000000000000000\
    00000000000000000000000000000000000000000000000000000000000000000000000000000000\
    00000000000000000000000000000000000000000000000000000000000000000000000000";

const ONE_LINES: [OneLine<'static>; 10] = [
    OneLine {
        words: &["chip", "plain", "f", "--layout", "2", "--levels", "6"],
        bytes: b"",
        script: b"",
        told: b"usage levels\n",
        status: 2,
        untold: 2,
    },
    OneLine {
        words: &["chip", "run", "f", "--tags", "md5"],
        bytes: b"",
        script: b"",
        told: b"usage tags\n",
        status: 2,
        untold: 2,
    },
    OneLine {
        words: &["chip", "verify", "f", "--key", "00"],
        bytes: b"",
        script: b"",
        told: b"usage key\n",
        status: 2,
        untold: 2,
    },
    OneLine {
        words: &["chip", "run", "f", "--nonce", "00"],
        bytes: b"",
        script: b"",
        told: b"usage nonce\n",
        status: 2,
        untold: 2,
    },
    OneLine {
        words: &["chip", "run", "absent"],
        bytes: b"",
        script: b"",
        told: b"read fault\n",
        status: 8,
        untold: 8,
    },
    OneLine {
        words: &["chip", "measure", "f"],
        bytes: b"",
        script: b"",
        told: b"refused elf 1 Short\n",
        status: 3,
        untold: 3,
    },
    OneLine {
        words: &ASM,
        bytes: b"frob\n",
        script: b"",
        told: b"refused asm 1 1 Unknown\n",
        status: 3,
        untold: 3,
    },
    OneLine {
        words: &RUN_BY_ALL,
        bytes: EXIT_7_BYTES,
        script: b"access\n",
        told: b"refused script 1 1 Word\n",
        status: 3,
        untold: 3,
    },
    OneLine {
        words: &VERIFY,
        bytes: b"",
        script: b"",
        told: b"refused report 1 Length\n",
        status: 3,
        untold: 3,
    },
    OneLine {
        words: &VERIFY,
        bytes: ZERO_REPORT,
        script: b"",
        told: b"report tag differs\n",
        status: 11,
        untold: 9,
    },
];

fn line_files(alloc: Global, line: OneLine<'_>) -> Result<MemoryFiles, NoMemory> {
    let mut files = files_of(alloc, line.bytes, &[])?;
    files.add("s", line.script)?;
    Ok(files)
}

fn call_line(alloc: Global, line: OneLine<'_>, note: u64) -> Result<Call, NoMemory> {
    let mut files = line_files(alloc, line)?;
    make_call(alloc, line.words, &mut files, &[1], &[note])
}

// What is told, with this status, where the write to `note` with a number fails.
fn check_line_failing(
    rt: &impl Abort,
    alloc: Global,
    line: OneLine<'_>,
    note: u64,
    expected: Shown<'_>,
) -> Result<(), Fail> {
    let call = call_line(alloc, line, note)?;
    assert_eq!(rt; call.shown(), expected);
    Ok(())
}

// The same where it finds no memory.
fn check_line_wanting(
    rt: &impl Abort,
    alloc: Global,
    line: OneLine<'_>,
    note: u64,
    expected: Shown<'_>,
) -> Result<(), Fail> {
    let at = At {
        read: 0,
        out: 1,
        note,
    };
    let call = call_wanting(alloc, line.words, line_files(alloc, line)?, at, WHOLE)?;
    assert_eq!(rt; call.shown(), expected);
    Ok(())
}

// The line is one piece, so that a second write is none.
fn check_one_piece(rt: &impl Abort, alloc: Global, line: OneLine<'_>) -> Result<(), Fail> {
    let untold = shows(b"", b"", line.untold);
    check_line_failing(rt, alloc, line, 1, untold)?;
    check_line_wanting(rt, alloc, line, 1, shows(b"", b"", 10))?;
    let told = shows(b"", line.told, line.status);
    check_line_failing(rt, alloc, line, 2, told)?;
    check_line_wanting(rt, alloc, line, 2, told)
}

#[test]
fn one_line_is_one_piece(rt: HostRuntime) -> Result<(), Fail> {
    for line in ONE_LINES {
        check_one_piece(&rt, rt.alloc(), line)?;
    }
    Ok(())
}

// The same of a file of so many zeros.
fn check_long(rt: &impl Abort, alloc: Global, length: usize, told: &[u8]) -> Result<(), Fail> {
    let bytes = vec![in alloc; 0u8; length]?;
    let line = OneLine {
        words: &RUN_SMALL,
        bytes: bytes.as_slice(),
        script: b"",
        told,
        status: 3,
        untold: 3,
    };
    check_one_piece(rt, alloc, line)
}

// Files that are too long: for any program, and for the memory.
#[test]
fn the_line_of_a_long_file_is_one_piece(rt: HostRuntime) -> Result<(), Fail> {
    check_long(&rt, rt.alloc(), 1_048_577, b"refused long\n")?;
    check_long(&rt, rt.alloc(), 16_385, b"refused elf 9 Segment\n")
}
