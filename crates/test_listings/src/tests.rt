// Listings of programs, and their measurements. Each digest is worked out by another program.
use chip_cases::{
    Call, Case, DIGEST, DIS, DIS_ELF, EXIT_7_BYTES, EXIT_7_ELF, LISTING, MEASURE, MEASURE_ELF,
    Shown, file, make_call, shows,
};
use sec_base::NoMemory;
use std::alloc::Global;
use std::process::Abort;
use std::test::Fail;

// In 16 KiB of memory.
const DIGEST_SMALL: &[u8] = b"16f7bfdd45a5acd592864f31537f995066d1d163ad715d1d9d9d83c121daa865\n";

// In 256 MiB.
const DIGEST_LARGEST: &[u8] = b"028306c0ef998a7844b921aa32c3cd5fd3a86d5a5de085b93c33ad2d7f625d6a\n";

// In the 2 MiB of three levels of layout 2.
const DIGEST_OF_LAYOUT_2: &[u8] =
    b"8d5b9b9e535a63c6ce074ea6855f02a73af1b973c7494775a3a55423c9e6e1bf\n";

const CASES: [Case<'static>; 11] = [
    Case {
        words: &DIS,
        bytes: EXIT_7_BYTES,
        printed: LISTING,
        told: b"",
        status: 0,
    },
    Case {
        words: &DIS_ELF,
        bytes: &EXIT_7_ELF,
        printed: LISTING,
        told: b"",
        status: 0,
    },
    Case {
        words: &MEASURE,
        bytes: EXIT_7_BYTES,
        printed: DIGEST,
        told: b"",
        status: 0,
    },
    Case {
        words: &["chip", "measure", "f", "--flat", "--levels", "1"],
        bytes: EXIT_7_BYTES,
        printed: DIGEST_SMALL,
        told: b"",
        status: 0,
    },
    Case {
        words: &["chip", "measure", "f", "--flat", "--levels", "8"],
        bytes: EXIT_7_BYTES,
        printed: DIGEST_LARGEST,
        told: b"",
        status: 0,
    },
    Case {
        words: &["chip", "measure", "f", "--flat", "--layout", "2"],
        bytes: EXIT_7_BYTES,
        printed: DIGEST_OF_LAYOUT_2,
        told: b"",
        status: 0,
    },
    Case {
        words: &["chip", "dis", "f", "--layout", "2", "--levels", "1"],
        bytes: &EXIT_7_ELF,
        printed: LISTING,
        told: b"",
        status: 0,
    },
    Case {
        words: &["chip", "dis", "f", "--levels", "8"],
        bytes: &EXIT_7_ELF,
        printed: LISTING,
        told: b"",
        status: 0,
    },
    Case {
        words: &MEASURE_ELF,
        bytes: &EXIT_7_ELF,
        printed: DIGEST,
        told: b"",
        status: 0,
    },
    // A flat file is no ELF file.
    Case {
        words: &DIS_ELF,
        bytes: EXIT_7_BYTES,
        printed: b"",
        told: b"refused elf 1 Short\n",
        status: 3,
    },
    Case {
        words: &MEASURE_ELF,
        bytes: EXIT_7_BYTES,
        printed: b"",
        told: b"refused elf 1 Short\n",
        status: 3,
    },
];

fn check_shown(rt: &impl Abort, words: &[&str], shown: Shown<'_>, expected: Shown<'_>) {
    assert_eq!(rt; shown, expected, "{words:?}");
}

// A call is made and compared here, so that no test holds one: that makes the proof of a test cheap.
fn check_case(rt: &impl Abort, alloc: Global, case: Case<'_>) -> Result<(), Fail> {
    let call = case.call(alloc)?;
    check_shown(rt, case.words, call.shown(), case.shown());
    Ok(())
}

#[test]
fn programs_are_listed_and_measured(rt: HostRuntime) -> Result<(), Fail> {
    for case in CASES {
        check_case(&rt, rt.alloc(), case)?;
    }
    Ok(())
}

// The write to `out` with this number fails.
fn call_cut(alloc: Global, words: &[&str], fails: u64) -> Result<Call, NoMemory> {
    let mut files = file(alloc, EXIT_7_BYTES, &[])?;
    make_call(alloc, words, &mut files, &[fails], &[])
}

fn check_cut(
    rt: &impl Abort,
    alloc: Global,
    words: &[&str],
    fails: u64,
    expected: Shown<'_>,
) -> Result<(), Fail> {
    let call = call_cut(alloc, words, fails)?;
    check_shown(rt, words, call.shown(), expected);
    Ok(())
}

// The words, the write to `out` that fails, what is printed, and the status.
const CUTS: [(&[&str], u64, &[u8], u8); 4] = [
    (&DIS, 2, b"00000000 00700513 addi a0, zero, 7\n", 9),
    (&DIS, 4, LISTING, 0),
    (&MEASURE, 1, b"", 9),
    (&MEASURE, 2, DIGEST, 0),
];

#[test]
fn a_line_is_one_piece(rt: HostRuntime) -> Result<(), Fail> {
    for (words, fails, printed, status) in CUTS {
        check_cut(&rt, rt.alloc(), words, fails, shows(printed, b"", status))?;
    }
    Ok(())
}
