// Programs that end by themselves, by a trap or by a limit. Each expected text and status is worked out by hand from the words
// and the machine's rules.
use bus_model::{Bus, HonestBus};
use chip_cases::{
    Call, EXIT_7, EXIT_7_TEXT, EXIT_65, PLAIN_ON_INPUT, PRINT_A, READ_UNTOUCHED, RUN, RUN_ON_INPUT,
    RUN_SMALL, STORE_AND_PRINT, Shown, call_assembled, call_program, file, make_call, program,
    shows,
};
use chip_device::RunBus;
use sec_base::{Ending, Geometry, NoMemory, Sealed};
use std::alloc::{AllocError, Global};
use std::process::Abort;
use std::test::Fail;

// It exits with its stack pointer.
const EXIT_STACK: [u32; 3] = [
    0x0001_0513, // addi a0, sp, 0
    0x05d0_0893, // addi a7, zero, 93
    0x0000_0073, // ecall
];

// It reads at most four bytes of its input to 1000, prints them, and exits with their number.
const COPY_4: [u32; 11] = [
    0x0000_0513, // addi a0, zero, 0
    0x0000_15b7, // lui a1, 0x1
    0x0040_0613, // addi a2, zero, 4
    0x03f0_0893, // addi a7, zero, 63
    0x0000_0073, // ecall
    0x0005_0613, // addi a2, a0, 0
    0x0010_0513, // addi a0, zero, 1
    0x0400_0893, // addi a7, zero, 64
    0x0000_0073, // ecall
    0x05d0_0893, // addi a7, zero, 93
    0x0000_0073, // ecall
];

// It writes a byte past 16 KiB to descriptor 3, and exits with what the service answered: -9, since the descriptor is
// tested before the range.
const WRITE_TO_3: [u32; 7] = [
    0x0030_0513, // addi a0, zero, 3
    0x0000_45b7, // lui a1, 0x4
    0x0010_0613, // addi a2, zero, 1
    0x0400_0893, // addi a7, zero, 64
    0x0000_0073, // ecall
    0x05d0_0893, // addi a7, zero, 93
    0x0000_0073, // ecall
];

// The same of a read.
const READ_FROM_3: [u32; 7] = [
    0x0030_0513, // addi a0, zero, 3
    0x0000_45b7, // lui a1, 0x4
    0x0010_0613, // addi a2, zero, 1
    0x03f0_0893, // addi a7, zero, 63
    0x0000_0073, // ecall
    0x05d0_0893, // addi a7, zero, 93
    0x0000_0073, // ecall
];

// It stores a byte at the end of the stack's line, and exits with the last byte of 256 MiB.
const LAST_BYTE: [u32; 6] = [
    0x1000_02b7, // lui t0, 0x10000
    0x0410_0313, // addi t1, zero, 65
    0x0261_0fa3, // sb t1, 63(sp)
    0xfff2_c503, // lbu a0, -1(t0)
    0x05d0_0893, // addi a7, zero, 93
    0x0000_0073, // ecall
];

// addi zero, zero, 0
const NOTHING: u32 = 0x0000_0013;

// A program with an option, and what it prints, what it tells and its status.
#[derive(Clone, Copy)]
struct Case<'a> {
    option: [&'a str; 2],
    code: &'a [u32],
    printed: &'a [u8],
    told: &'a [u8],
    status: u8,
}

// What a call shows, and whether its bus is handed back.
fn check_call(
    rt: &impl Abort,
    call: Result<Call, NoMemory>,
    shown: Shown<'_>,
    has_bus: bool,
) -> Result<(), NoMemory> {
    let call = call?;
    let answer = (call.shown(), call.done.bus.is_some());
    assert_eq!(rt; answer, (shown, has_bus));
    Ok(())
}

// What a run on protected memory tells where the plain machine tells this.
fn without_lies(alloc: Global, told: &[u8]) -> Result<Vec<u8>, AllocError> {
    let mut text = told.to_vec(alloc)?;
    text.extend_from_slice(b"lies 0\n")?;
    Ok(text)
}

// The same on the plain machine and on protected memory.
fn check_program(rt: &impl Abort, alloc: Global, case: Case<'_>) -> Result<(), NoMemory> {
    let [name, value] = case.option;
    let words = ["chip", "plain", "f", "--flat", name, value];
    let call = call_program(alloc, &words, case.code, &[], &[]);
    let shown = shows(case.printed, case.told, case.status);
    check_call(rt, call, shown, false)?;

    let told = without_lies(alloc, case.told)?;
    let words = ["chip", "run", "f", "--flat", name, value];
    let call = call_program(alloc, &words, case.code, &[], &[]);
    let shown = shows(case.printed, told.as_slice(), case.status);
    check_call(rt, call, shown, true)
}

const ENDS: [Case<'static>; 13] = [
    Case {
        option: ["--levels", "4"],
        code: &EXIT_7,
        printed: b"",
        told: b"halted 7\nretired 3\n",
        status: 0,
    },
    Case {
        option: ["--levels", "7"],
        code: &EXIT_7,
        printed: b"",
        told: b"halted 7\nretired 3\n",
        status: 0,
    },
    Case {
        option: ["--levels", "8"],
        code: &EXIT_7,
        printed: b"",
        told: b"halted 7\nretired 3\n",
        status: 0,
    },
    Case {
        option: ["--steps", "3"],
        code: &EXIT_7,
        printed: b"",
        told: b"halted 7\nretired 3\n",
        status: 0,
    },
    Case {
        option: ["--steps", "2"],
        code: &EXIT_7,
        printed: b"",
        told: b"out of steps\nretired 2\n",
        status: 4,
    },
    Case {
        option: ["--steps", "0"],
        code: &EXIT_7,
        printed: b"",
        told: b"out of steps\nretired 0\n",
        status: 4,
    },
    Case {
        option: ["--levels", "1"],
        code: &EXIT_65,
        printed: b"",
        told: b"halted 65\nretired 6\n",
        status: 0,
    },
    Case {
        option: ["--levels", "1"],
        code: &PRINT_A,
        printed: b"A",
        told: b"halted 1\nretired 10\n",
        status: 0,
    },
    Case {
        option: ["--levels", "1"],
        code: &WRITE_TO_3,
        printed: b"",
        told: b"halted 4294967287\nretired 7\n",
        status: 0,
    },
    Case {
        option: ["--levels", "1"],
        code: &READ_FROM_3,
        printed: b"",
        told: b"halted 4294967287\nretired 7\n",
        status: 0,
    },
    // The stack begins 64 bytes below the end of the memory.
    Case {
        option: ["--levels", "1"],
        code: &EXIT_STACK,
        printed: b"",
        told: b"halted 16320\nretired 3\n",
        status: 0,
    },
    Case {
        option: ["--steps", "9"],
        code: &EXIT_STACK,
        printed: b"",
        told: b"halted 1048512\nretired 3\n",
        status: 0,
    },
    Case {
        option: ["--levels", "8"],
        code: &LAST_BYTE,
        printed: b"",
        told: b"halted 65\nretired 6\n",
        status: 0,
    },
];

#[test]
fn programs_end(rt: HostRuntime) -> Result<(), Fail> {
    for case in ENDS {
        check_program(&rt, rt.alloc(), case)?;
    }
    Ok(())
}

// The levels of the memory, a program, and how it traps.
const TRAPS: [(&str, &[u32], &[u8]); 10] = [
    // Nothing at all; three instructions and then no more; a word without a row.
    ("4", &[], b"trapped illegal pc 00000000\nretired 0\n"),
    (
        "1",
        &[NOTHING; 3],
        b"trapped illegal pc 0000000c\nretired 3\n",
    ),
    (
        "1",
        &[0x3000_1073],
        b"trapped illegal pc 00000000\nretired 0\n",
    ),
    // A jump to 2; a load at address 1, and one at 4001, which is outside too; a breakpoint.
    (
        "1",
        &[
            0x0020_0093, // addi ra, zero, 2
            0x0000_8167, // jalr sp, 0(ra)
        ],
        b"trapped misaligned target pc 00000004\nretired 1\n",
    ),
    (
        "1",
        &[0x0010_2503], // lw a0, 1(zero)
        b"trapped misaligned data pc 00000000\nretired 0\n",
    ),
    (
        "1",
        &[
            0x0000_42b7, // lui t0, 0x4
            0x0012_a503, // lw a0, 1(t0)
        ],
        b"trapped misaligned data pc 00000004\nretired 1\n",
    ),
    (
        "1",
        &[0x0010_0073], // ebreak
        b"trapped breakpoint pc 00000000\nretired 0\n",
    ),
    // A load of the last word of 1 MiB, and one past it.
    (
        "4",
        &[
            0x0010_02b7, // lui t0, 0x100
            0xffc2_a303, // lw t1, -4(t0)
            0x0002_a303, // lw t1, 0(t0)
        ],
        b"trapped outside memory pc 00000008\nretired 2\n",
    ),
    // A store past 64 MiB. Of 256 MiB the last byte is stored and loaded, the last word loaded, and then a byte past it.
    (
        "7",
        &[
            0x0400_02b7, // lui t0, 0x4000
            0xffc2_a303, // lw t1, -4(t0)
            0x0052_8023, // sb t0, 0(t0)
        ],
        b"trapped outside memory pc 00000008\nretired 2\n",
    ),
    (
        "8",
        &[
            0x1000_02b7, // lui t0, 0x10000
            0xfe52_8fa3, // sb t0, -1(t0)
            0xfff2_c303, // lbu t1, -1(t0)
            0xffc2_a303, // lw t1, -4(t0)
            0x0002_c303, // lbu t1, 0(t0)
        ],
        b"trapped outside memory pc 00000010\nretired 4\n",
    ),
];

#[test]
fn programs_trap(rt: HostRuntime) -> Result<(), Fail> {
    for (levels, code, told) in TRAPS {
        let case = Case {
            option: ["--levels", levels],
            code,
            printed: b"",
            told,
            status: 1,
        };
        check_program(&rt, rt.alloc(), case)?;
    }
    Ok(())
}

// How many accesses the run of an assembly text in the largest memory makes of a bus that tells the truth.
fn check_accesses(
    rt: &impl Abort,
    alloc: Global,
    text: &[u8],
    printed: &[u8],
    told: &[u8],
    accesses: u64,
) -> Result<(), NoMemory> {
    let words = ["chip", "run", "f", "--levels", "8"];
    let call = call_assembled(alloc, &words, text, &[])?;
    let made = match &call.done.bus {
        Some(RunBus::Honest(bus)) => Some(bus.accesses()),
        _ => None,
    };
    assert_eq!(rt;
        (call.shown(), made),
        (shows(printed, told, 0), Some(accesses))
    );
    Ok(())
}

// A program, what it prints and tells, and its accesses. The first has one line, and boot makes none. The second evicts three
// lines that it stored, 5, 6 and 69, and reads line 5 again. The third evicts 5, the counter block of page 0, and 69, and reads
// the block and line 5 again. No level above has more nodes in a set than two. So say bench/accesses.py and the rules by hand.
const COUNTED: [(&[u8], &[u8], &[u8], u64); 3] = [
    (EXIT_7_TEXT, b"", b"halted 7\nretired 3\nlies 0\n", 0),
    (STORE_AND_PRINT, b"A", b"halted 65\nretired 20\nlies 0\n", 4),
    (READ_UNTOUCHED, b"", b"halted 64\nretired 15\nlies 0\n", 5),
];

#[test]
fn programs_make_as_many_accesses_of_8_levels(rt: HostRuntime) -> Result<(), Fail> {
    for (text, printed, told, accesses) in COUNTED {
        check_accesses(&rt, rt.alloc(), text, printed, told, accesses)?;
    }
    Ok(())
}

#[test]
fn a_run_is_handed_back(rt: HostRuntime) -> Result<(), Fail> {
    let call = call_program(rt.alloc(), &RUN, &EXIT_7, &[], &[])?;
    let answer = (call.shown(), call.ending(), call.done.lies);
    let shown = shows(b"", b"halted 7\nretired 3\nlies 0\n", 0);
    assert_eq!(rt; answer, (shown, Some(Ending::Halted(7)), 0));
    Ok(())
}

// Limits that no line comes near.
#[test]
fn a_run_has_a_page_limit(rt: HostRuntime) -> Result<(), Fail> {
    for limit in ["1000", "18446744073709551615"] {
        let words = ["chip", "run", "f", "--flat", "--page-limit", limit];
        let call = call_program(rt.alloc(), &words, &EXIT_65, &[], &[]);
        let told = b"halted 65\nretired 6\nlies 0\n";
        check_call(&rt, call, shows(b"", told, 0), true)?;
    }
    Ok(())
}

// A call on the program that copies its input.
fn call_on_input(alloc: Global, words: &[&str], input: &[u8]) -> Result<Call, NoMemory> {
    let code = program(alloc, &COPY_4)?;
    let mut files = file(alloc, code.as_slice(), &[])?;
    files.add("i", input)?;
    make_call(alloc, words, &mut files, &[], &[])
}

// What it prints and tells.
fn check_input(
    rt: &impl Abort,
    alloc: Global,
    input: &[u8],
    printed: &[u8],
    told: &[u8],
) -> Result<(), NoMemory> {
    let call = call_on_input(alloc, &PLAIN_ON_INPUT, input);
    check_call(rt, call, shows(printed, told, 0), false)?;

    let told = without_lies(alloc, told)?;
    let call = call_on_input(alloc, &RUN_ON_INPUT, input);
    check_call(rt, call, shows(printed, told.as_slice(), 0), true)
}

#[test]
fn programs_read_their_input(rt: HostRuntime) -> Result<(), Fail> {
    let alloc = rt.alloc();
    check_input(&rt, alloc, b"", b"", b"halted 0\nretired 11\n")?;
    check_input(&rt, alloc, b"hi\n", b"hi\n", b"halted 3\nretired 11\n")?;
    check_input(&rt, alloc, b"abcde", b"abcd", b"halted 4\nretired 11\n")?;
    Ok(())
}

// A call on a program that does nothing and fills 16 KiB.
fn call_full(alloc: Global) -> Result<Call, NoMemory> {
    let code = vec![in alloc; NOTHING; 4096]?;
    call_program(alloc, &RUN_SMALL, code.as_slice(), &[], &[])
}

#[test]
fn a_program_fills_the_memory(rt: HostRuntime) -> Result<(), Fail> {
    let told = b"trapped outside memory pc 00004000\nretired 4096\nlies 0\n";
    check_call(&rt, call_full(rt.alloc()), shows(b"", told, 1), true)?;
    Ok(())
}

const SEALED: Sealed = Sealed {
    cipher: [1; 64],
    tag: [2; 16],
};

#[test]
fn a_run_bus_answers_what_was_written(rt: HostRuntime) -> Result<(), Fail> {
    let geometry = Geometry::new(1).ok_or("no geometry")?;
    let mut bus = RunBus::Honest(HonestBus::new(rt.alloc(), geometry)?);
    let writes = [bus.write_data(255, &SEALED), bus.write_node(1, 0, &[3; 64])];
    let line = bus.read_data(255);
    let nodes = [bus.read_node(1, 0), bus.read_node(0, 0)];
    let answers = (writes, line, nodes, bus.lies());
    let expected = ([Ok(()); 2], Ok(SEALED), [Ok([3; 64]), Ok([0; 64])], 0);
    assert_eq!(rt; answers, expected);
    Ok(())
}
