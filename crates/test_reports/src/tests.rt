// Reports of runs, from an independent model in Python (hashlib, hmac, cryptography).
use chip_cases::{
    Call, EXIT_7, MEASURE, PLAIN, PRINT_A, REPORT, REPORT_OF_KEY, REPORT_OF_LAYOUT_2,
    REPORT_TARGET, RUN, RUN_SMALL, Shown, call_program, file, make_call, program, shows,
};
use sec_base::{MemoryFiles, NoMemory};
use std::alloc::{AllocError, Global};
use std::process::Abort;
use std::test::Fail;

// Of the program that exits with 7 in 16 KiB; of an empty program; of one that prints the front of its input.
const REPORT_SMALL: &[u8; 318] = b"\
    020116f7bfdd45a5acd592864f31537f995066d1d163ad715d1d9d9d83c121daa865\
    e3b0c44298fc1c149afbf4c8996fb92427ae41e4649b934ca495991b7852b855\
    e3b0c44298fc1c149afbf4c8996fb92427ae41e4649b934ca495991b7852b855\
    0300000000000000000700000000000000000000000000000000000000\
    a25541ec785f4c965cb7ff7514bf8ab1b867002c54fb8ebc875a48dc886e848d";

const REPORT_EMPTY: &[u8; 318] = b"\
    0201a1deabe0422101391ed98c8ceacd6eae5782cd909615ce05a75886f1ee8c9475\
    e3b0c44298fc1c149afbf4c8996fb92427ae41e4649b934ca495991b7852b855\
    e3b0c44298fc1c149afbf4c8996fb92427ae41e4649b934ca495991b7852b855\
    0000000000000000010100000000000000000000000000000000000000\
    1619c18c3c9ac07ba7d2bf3b4a9a25565d3e1231b4c68fc8c00724261a7bf657";

const REPORT_INPUT: &[u8; 318] = b"\
    0201edcc053922037030c8b33979f1e0c75d28be107672d0167931650e51872c53f6\
    09ca7e4eaa6e8ae9c7d261167129184883644d07dfba7cbfbc4c8a2e08360d5b\
    d6a81f224bbf2f7c22baddbd5d40730eb20cfb0b3d74e10cab61788214caceb1\
    0d00000000000000007856341200112233445566778899aabbccddeeff\
    578f74c77c347c9de346ce8263d219f7ab34eb1bbcb5e6cda3e1415b31db88ed";

const REPORT_OUT_OF_STEPS: &[u8; 318] = b"\
    020116f7bfdd45a5acd592864f31537f995066d1d163ad715d1d9d9d83c121daa865\
    e3b0c44298fc1c149afbf4c8996fb92427ae41e4649b934ca495991b7852b855\
    e3b0c44298fc1c149afbf4c8996fb92427ae41e4649b934ca495991b7852b855\
    0200000000000000040000000000000000000000000000000000000000\
    1628c60bf717ba0c4ad955a5e9a72166b417980e706edab3507d6a7d5292395b";

const REPORT_SPENT: &[u8; 318] = b"\
    0201ad7cddc78d019d545d3b9f7243321c2f4becb979c95ff736b06c30abba952a2c\
    e3b0c44298fc1c149afbf4c8996fb92427ae41e4649b934ca495991b7852b855\
    e3b0c44298fc1c149afbf4c8996fb92427ae41e4649b934ca495991b7852b855\
    0002000000000000060000000000000000000000000000000000000000\
    fffebb2bafff5a9b2249ce2b43d890092ff4ec604045c20ab3826f7342b4bef6";

const REPORT_TAMPERED: &[u8; 318] = b"\
    0201ad7cddc78d019d545d3b9f7243321c2f4becb979c95ff736b06c30abba952a2c\
    e3b0c44298fc1c149afbf4c8996fb92427ae41e4649b934ca495991b7852b855\
    e3b0c44298fc1c149afbf4c8996fb92427ae41e4649b934ca495991b7852b855\
    0700000000000000050000000000000000000000000000000000000000\
    79694a7f543f057eedfd5f5625679018b2b2245f43d114de80704a530051d56e";

// It reads five bytes of its input, prints three of them, and exits with 0x12345678.
const PRINT_3: [u32; 13] = [
    0x0000_15b7, // lui a1, 0x1
    0x0000_0513, // addi a0, zero, 0
    0x0050_0613, // addi a2, zero, 5
    0x03f0_0893, // addi a7, zero, 63
    0x0000_0073, // ecall
    0x0010_0513, // addi a0, zero, 1
    0x0030_0613, // addi a2, zero, 3
    0x0400_0893, // addi a7, zero, 64
    0x0000_0073, // ecall
    0x1234_5537, // lui a0, 0x12345
    0x6785_0513, // addi a0, a0, 0x678
    0x05d0_0893, // addi a7, zero, 93
    0x0000_0073, // ecall
];

// It stores to line 64 200 times, and loads from line 128 behind each store. Its code is line 0, in the same set, and used
// last: so line 64 goes out for each load.
const WRITE_200_TIMES: [u32; 9] = [
    0x0000_12b7, // lui t0, 0x1
    0x0000_23b7, // lui t2, 0x2
    0x0c80_0313, // addi t1, zero, 200
    0x0062_a023, // sw t1, 0(t0)
    0x0003_ae03, // lw t3, 0(t2)
    0xfff3_0313, // addi t1, t1, -1
    0xfe03_1ae3, // bne t1, zero, -12
    0x05d0_0893, // addi a7, zero, 93
    0x0000_0073, // ecall
];

// The options of a run, its program, what that prints, what is told before its report, the report's digits, and the
// status.
#[derive(Clone, Copy)]
struct Reported<'a> {
    options: &'a [&'a str],
    code: &'a [u32],
    printed: &'a [u8],
    told: &'a [u8],
    report: &'a [u8; 318],
    status: u8,
}

const REPORTED: [Reported<'static>; 10] = [
    Reported {
        options: &[],
        code: &EXIT_7,
        printed: b"",
        told: b"halted 7\nretired 3\nlies 0\n",
        report: REPORT,
        status: 0,
    },
    Reported {
        options: &[
            "--key",
            "FFFEFDFCFBFAF9F8F7F6F5F4F3F2F1F0EFEEEDECEBEAE9E8e7e6e5e4e3e2e1e0",
            "--nonce=101112131415161718191a1b1c1d1e1f",
        ],
        code: &EXIT_7,
        printed: b"",
        told: b"halted 7\nretired 3\nlies 0\n",
        report: REPORT_OF_KEY,
        status: 0,
    },
    Reported {
        options: &["--layout", "2"],
        code: &EXIT_7,
        printed: b"",
        told: b"halted 7\nretired 3\nlies 0\n",
        report: REPORT_OF_LAYOUT_2,
        status: 0,
    },
    Reported {
        options: &["--levels", "1"],
        code: &EXIT_7,
        printed: b"",
        told: b"halted 7\nretired 3\nlies 0\n",
        report: REPORT_SMALL,
        status: 0,
    },
    Reported {
        options: &[],
        code: &[],
        printed: b"",
        told: b"trapped illegal pc 00000000\nretired 0\nlies 0\n",
        report: REPORT_EMPTY,
        status: 1,
    },
    Reported {
        options: &[
            "--levels",
            "1",
            "--input",
            "i",
            "--nonce",
            "00112233445566778899aabbccddeeff",
        ],
        code: &PRINT_3,
        printed: b"hel",
        told: b"halted 305419896\nretired 13\nlies 0\n",
        report: REPORT_INPUT,
        status: 0,
    },
    Reported {
        options: &["--levels", "1"],
        code: &[
            0x0020_0093, // addi ra, zero, 2
            0x0000_8167, // jalr sp, 0(ra)
        ],
        printed: b"",
        told: b"trapped misaligned target pc 00000004\nretired 1\nlies 0\n",
        report: REPORT_TARGET,
        status: 1,
    },
    Reported {
        options: &["--levels", "1", "--steps", "2"],
        code: &EXIT_7,
        printed: b"",
        told: b"out of steps\nretired 2\nlies 0\n",
        report: REPORT_OUT_OF_STEPS,
        status: 4,
    },
    Reported {
        options: &["--levels", "1", "--page-limit", "0"],
        code: &WRITE_200_TIMES,
        printed: b"",
        told: b"spent page 1\nretired 512\nlies 0\n",
        report: REPORT_SPENT,
        status: 6,
    },
    Reported {
        options: &["--levels", "1", "--script", "s"],
        code: &WRITE_200_TIMES,
        printed: b"",
        told: b"tampered data 64\nretired 7\nlies 1\n",
        report: REPORT_TAMPERED,
        status: 5,
    },
];

// The program `f`, the input `i` and the script `s`.
fn run_files(alloc: Global, code: &[u32]) -> Result<MemoryFiles, NoMemory> {
    let bytes = program(alloc, code)?;
    let mut files = file(alloc, bytes.as_slice(), &[])?;
    files.add("i", b"hello, world")?;
    files.add("s", b"read data 64 1: flip data 64 0 01")?;
    Ok(files)
}

// A text with the line of a report at its end.
fn with_report(alloc: Global, told: &[u8], report: &[u8; 318]) -> Result<Vec<u8>, AllocError> {
    let mut text = told.to_vec(alloc)?;
    text.extend_from_slice(b"report ")?;
    text.extend_from_slice(report)?;
    text.push(b'\n')?;
    Ok(text)
}

fn call_run(alloc: Global, run: Reported<'static>) -> Result<Call, NoMemory> {
    let mut files = run_files(alloc, run.code)?;
    let mut words = Vec::from_slice(alloc, &RUN)?;
    words.extend_from_slice(run.options)?;
    make_call(alloc, words.as_slice(), &mut files, &[], &[])
}

// All that a call tells, a report too. It is the only function here that drops a call.
fn check_call(
    rt: &impl Abort,
    call: Result<Call, NoMemory>,
    shown: Shown<'_>,
) -> Result<(), NoMemory> {
    let call = call?;
    let answer = shows(call.out.bytes(), call.note.bytes(), call.done.status);
    assert_eq!(rt; answer, shown);
    Ok(())
}

fn check_run(rt: &impl Abort, alloc: Global, run: Reported<'static>) -> Result<(), NoMemory> {
    let told = with_report(alloc, run.told, run.report)?;
    let shown = shows(run.printed, told.as_slice(), run.status);
    check_call(rt, call_run(alloc, run), shown)
}

#[test]
fn runs_are_reported(rt: HostRuntime) -> Result<(), Fail> {
    for run in REPORTED {
        check_run(&rt, rt.alloc(), run)?;
    }
    Ok(())
}

// A run on the plain machine, one whose output fails, and one whose record is told in part.
#[test]
fn no_report_is_told(rt: HostRuntime) -> Result<(), Fail> {
    let call = call_program(rt.alloc(), &PLAIN, &EXIT_7, &[], &[]);
    check_call(&rt, call, shows(b"", b"halted 7\nretired 3\n", 0))?;
    let call = call_program(rt.alloc(), &RUN_SMALL, &PRINT_A, &[1], &[]);
    let told = b"write fault\nretired 7\nlies 0\n";
    check_call(&rt, call, shows(b"", told, 9))?;
    let call = call_program(rt.alloc(), &RUN, &EXIT_7, &[], &[4]);
    let told = b"halted 7\nretired 3\nlies 0\n";
    check_call(&rt, call, shows(b"", told, 9))?;
    Ok(())
}

// The digits of a measurement in a report, with a line feed.
fn measurement_in(alloc: Global, report: &[u8; 318]) -> Result<Vec<u8>, AllocError> {
    let report = report.as_slice();
    let mut digits = report[4..68].to_vec(alloc)?;
    digits.push(b'\n')?;
    Ok(digits)
}

// The 64 digits of a measurement are those that a report has behind its version and its layout.
#[test]
fn a_measurement_is_that_of_the_report(rt: HostRuntime) -> Result<(), Fail> {
    let digits = measurement_in(rt.alloc(), REPORT)?;
    let call = call_program(rt.alloc(), &MEASURE, &EXIT_7, &[], &[]);
    check_call(&rt, call, shows(digits.as_slice(), b"", 0))?;
    Ok(())
}
