// Runs over a memory that an adversary changes by a script. Each expected text and status is that of an independent model
// in Python (hashlib, hmac, cryptography).
use chip_cases::{
    Attack, Call, EXIT_7, READ_UNTOUCHED, STORE_AND_PRINT, STORE_TWICE, Shown, attack_files,
    call_attack, call_by_script, make_call, shows,
};
use chip_device::RunBus;
use sec_base::NoMemory;
use std::alloc::Global;
use std::process::Abort;
use std::test::Fail;

const FLIP: &[u8] = b"read data 5 1: flip data 5 0 01\n";

const FLIP_TWICE: &[u8] = b"read data 5 1: flip data 5 0 01
read data 5 1: flip data 5 0 01
";

const FLIP_TWO_PIECES: &[u8] = b"read data 5 1: flip data 5 0 01
read data 5 1: flip data 5 16 01
";

// Byte 1 of a ciphertext counts in byte 15 of the tag `xor`, whose lowest bit is set in every tag.
const FLIP_UNTAGGED: &[u8] = b"read data 5 1: flip data 5 1 01\n";

const FLIP_BLOCK: &[u8] = b"read node 0 0 1: flip node 0 0 0 01
read node 0 0 1: flip node 0 0 16 01
";

const ATTACKS: [Attack<'static>; 14] = [
    Attack {
        text: STORE_AND_PRINT,
        tags: "hmac",
        script: b"",
        printed: b"A",
        told: b"halted 65\nretired 20\nlies 0\n",
        status: 0,
    },
    Attack {
        text: STORE_AND_PRINT,
        tags: "hmac",
        script: FLIP,
        printed: b"A",
        told: b"tampered data 5\nretired 17\nlies 1\n",
        status: 5,
    },
    Attack {
        text: STORE_AND_PRINT,
        tags: "hmac",
        script: b"read data 5 1: swap data 5 data 6",
        printed: b"A",
        told: b"tampered data 5\nretired 17\nlies 1\n",
        status: 5,
    },
    Attack {
        text: STORE_TWICE,
        tags: "hmac",
        script: b"write data 5 2: saveall 0\nread data 5 2: restoreall 0\n",
        printed: b"",
        told: b"tampered data 5\nretired 19\nlies 1\n",
        status: 5,
    },
    Attack {
        text: STORE_TWICE,
        tags: "hmac",
        script: b"# nothing\r\n\n",
        printed: b"",
        told: b"halted 66\nretired 22\nlies 0\n",
        status: 0,
    },
    // The line is read once.
    Attack {
        text: STORE_AND_PRINT,
        tags: "hmac",
        script: b"read data 5 2: flip data 5 0 01",
        printed: b"A",
        told: b"halted 65\nretired 20\nlies 0\n",
        status: 0,
    },
    // The bytes are as before.
    Attack {
        text: STORE_AND_PRINT,
        tags: "hmac",
        script: FLIP_TWICE,
        printed: b"A",
        told: b"halted 65\nretired 20\nlies 0\n",
        status: 0,
    },
    Attack {
        text: STORE_AND_PRINT,
        tags: "hmac",
        script: FLIP_TWO_PIECES,
        printed: b"A",
        told: b"tampered data 5\nretired 17\nlies 1\n",
        status: 5,
    },
    Attack {
        text: STORE_AND_PRINT,
        tags: "xor",
        script: FLIP_TWO_PIECES,
        printed: b"A",
        told: b"halted 64
retired 20
lies 1
evidence forgery data 5
counter 0 1
cipher 00d692a43d31e6987ed5a46dbf5bca39020d8b881a9df52273bffd777d2666fef434205fde381197f9093d6e5d7d963bf46e671de7eff1e8f46c06f551a33e3d
tag 87bc91d898e3c33de19e7c2399ceb9c3
",
        status: 7,
    },
    Attack {
        text: STORE_AND_PRINT,
        tags: "hmac",
        script: FLIP_UNTAGGED,
        printed: b"A",
        told: b"tampered data 5\nretired 17\nlies 1\n",
        status: 5,
    },
    Attack {
        text: STORE_AND_PRINT,
        tags: "xor",
        script: FLIP_UNTAGGED,
        printed: b"A",
        told: b"halted 65
retired 20
lies 1
evidence forgery data 5
counter 0 1
cipher 01d792a43d31e6987ed5a46dbf5bca39030d8b881a9df52273bffd777d2666fef434205fde381197f9093d6e5d7d963bf46e671de7eff1e8f46c06f551a33e3d
tag 87bc91d898e3c33de19e7c2399ceb9c3
",
        status: 7,
    },
    Attack {
        text: READ_UNTOUCHED,
        tags: "hmac",
        script: b"",
        printed: b"",
        told: b"halted 64\nretired 15\nlies 0\n",
        status: 0,
    },
    Attack {
        text: READ_UNTOUCHED,
        tags: "hmac",
        script: FLIP_BLOCK,
        printed: b"",
        told: b"tampered node 0 0\nretired 12\nlies 1\n",
        status: 5,
    },
    // The page counter is read as 1, so that line 5 is checked under another counter than it was tagged under.
    Attack {
        text: READ_UNTOUCHED,
        tags: "xor",
        script: FLIP_BLOCK,
        printed: b"",
        told: b"tampered data 5
retired 12
lies 1
evidence collision node 0 0
made 00000000000000000000000008000000000000000000000000000000000000000000000000000000000000000000000000000000000000000000000000000000
accepted 01000000000000000000000008000000010000000000000000000000000000000000000000000000000000000000000000000000000000000000000000000000
tag cdd9b52ef93fe00084eb9f1953edd103
",
        status: 7,
    },
];

fn check_shown(rt: &impl Abort, shown: Shown<'_>, expected: Shown<'_>) {
    assert_eq!(rt; shown, expected);
}

fn check_true(rt: &impl Abort, holds: bool) {
    assert!(rt; holds);
}

// A call is made and compared here, so that no test holds one: that makes the proof of a test cheap.
fn check_attack(rt: &impl Abort, alloc: Global, attack: Attack<'_>) -> Result<(), Fail> {
    let call = call_attack(alloc, attack)?;
    check_shown(rt, call.shown(), attack.shown());
    check_true(rt, matches!(call.done.bus, Some(RunBus::Script(_))));
    Ok(())
}

#[test]
fn attacks_come_to_what_they_do(rt: HostRuntime) -> Result<(), Fail> {
    for attack in &ATTACKS {
        check_attack(&rt, rt.alloc(), *attack)?;
    }
    Ok(())
}

// The program makes five accesses: line 5 and the counter block of page 0 are written, then line 69, and the block and line 5 are
// read. What is done before a write of a place is written over, and what is done behind its last read is never met.
const ACCESSES: [(&[u8], &[u8], u8); 8] = [
    (
        b"access 1: flip data 5 0 01",
        b"halted 64\nretired 15\nlies 0\n",
        0,
    ),
    (
        b"access 2: flip data 5 0 01",
        b"tampered data 5\nretired 12\nlies 1\n",
        5,
    ),
    (
        b"access 2: flip node 0 0 0 01",
        b"halted 64\nretired 15\nlies 0\n",
        0,
    ),
    (
        b"access 3: flip node 0 0 0 01",
        b"tampered node 0 0\nretired 12\nlies 1\n",
        5,
    ),
    (
        b"access 4: flip node 0 0 0 01",
        b"tampered node 0 0\nretired 12\nlies 1\n",
        5,
    ),
    (
        b"access 5: flip node 0 0 0 01",
        b"halted 64\nretired 15\nlies 0\n",
        0,
    ),
    (
        b"access 5: flip data 5 0 01",
        b"tampered data 5\nretired 12\nlies 1\n",
        5,
    ),
    (
        b"access 6: flip data 5 0 01",
        b"halted 64\nretired 15\nlies 0\n",
        0,
    ),
];

fn check_lies(rt: &impl Abort, lies: u64, expected: u64) {
    assert_eq!(rt; lies, expected);
}

fn check_access(
    rt: &impl Abort,
    alloc: Global,
    script: &[u8],
    told: &[u8],
    status: u8,
) -> Result<(), Fail> {
    let attack = Attack {
        text: READ_UNTOUCHED,
        tags: "hmac",
        script,
        printed: b"",
        told,
        status,
    };
    let call = call_attack(alloc, attack)?;
    check_shown(rt, call.shown(), attack.shown());
    check_lies(rt, call.done.lies, u64::from(status == 5));
    Ok(())
}

#[test]
fn accesses_are_counted_from_the_first_write_on(rt: HostRuntime) -> Result<(), Fail> {
    for &(script, told, status) in &ACCESSES {
        check_access(&rt, rt.alloc(), script, told, status)?;
    }
    Ok(())
}

const SMALL_RUN_BY_SCRIPT: [&str; 8] = [
    "chip", "run", "f", "--flat", "--levels", "1", "--script", "s",
];

// Changes of nodes before an access, and before they are read: none is due.
const UNTOUCHED: [&[u8]; 3] = [
    b"access 6: flip node 1 0 0 01",
    b"access 1: flip node 1 0 0 01\naccess 1: flip node 0 0 0 01\n",
    b"read node 1 0 1: flip node 1 0 0 01\nread node 0 0 1: flip node 0 0 0 01\n",
];

fn check_untouched(rt: &impl Abort, alloc: Global, script: &[u8]) -> Result<(), Fail> {
    let call = call_by_script(alloc, &SMALL_RUN_BY_SCRIPT, &EXIT_7, script)?;
    check_shown(
        rt,
        call.shown(),
        shows(b"", b"halted 7\nretired 3\nlies 0\n", 0),
    );
    check_lies(rt, call.done.lies, 0);
    Ok(())
}

// A program whose lines stay on the chip makes no access, and neither does boot.
#[test]
fn a_run_that_keeps_its_lines_reads_no_place(rt: HostRuntime) -> Result<(), Fail> {
    for script in &UNTOUCHED {
        check_untouched(&rt, rt.alloc(), script)?;
    }
    Ok(())
}

const RUN_BY_SCRIPT: [&str; 6] = ["chip", "run", "f", "--flat", "--script", "s"];

const REFUSED: [(&[u8], &[u8]); 8] = [
    (b"access 0: saveall 0", b"refused script 1 2 Number\n"),
    (
        b"read data 16384 1: saveall 0",
        b"refused script 1 3 Place\n",
    ),
    (b"access 1: flip data 5 80 01", b"refused script 1 4 Span\n"),
    (b"access 1: saveall 16", b"refused script 1 5 Register\n"),
    (b"access 1 saveall 0", b"refused script 1 1 Word\n"),
    // The first fault is told: of a line the first word from the left, and of the text the first line.
    (
        b"read data 16384 0: saveall 0",
        b"refused script 1 3 Place\n",
    ),
    (
        b"# one\n\naccess 1: saveall 16\naccess 0: saveall 0\n",
        b"refused script 3 5 Register\n",
    ),
    (
        b"access 1: swap data 5 node 0 0\n",
        b"refused script 1 4 Span\n",
    ),
];

fn check_run(
    rt: &impl Abort,
    alloc: Global,
    script: &[u8],
    expected: Shown<'_>,
    is_run: bool,
) -> Result<(), Fail> {
    let call = call_by_script(alloc, &RUN_BY_SCRIPT, &EXIT_7, script)?;
    check_shown(rt, call.shown(), expected);
    check_true(rt, call.done.run.is_some() == is_run);
    Ok(())
}

#[test]
fn scripts_are_refused(rt: HostRuntime) -> Result<(), Fail> {
    for (script, told) in REFUSED {
        check_run(&rt, rt.alloc(), script, shows(b"", told, 3), false)?;
    }
    Ok(())
}

// How long a comment is, what is told, and the status.
const LENGTHS: [(usize, &[u8], u8); 2] = [
    (1_048_576, b"halted 7\nretired 3\nlies 0\n", 0),
    (1_048_577, b"refused long\n", 3),
];

#[test]
fn a_script_has_a_limit(rt: HostRuntime) -> Result<(), Fail> {
    for (length, told, status) in LENGTHS {
        let comment = vec![in rt.alloc(); b'#'; length]?;
        let expected = shows(b"", told, status);
        check_run(&rt, rt.alloc(), comment.as_slice(), expected, status == 0)?;
    }
    Ok(())
}

// The sixth write to `note` fails.
fn call_cut(alloc: Global) -> Result<Call, NoMemory> {
    let mut files = attack_files(alloc, STORE_AND_PRINT, FLIP_TWO_PIECES)?;
    let words = ["chip", "run", "p", "--script", "s", "--tags", "xor"];
    make_call(alloc, &words, &mut files, &[], &[6])
}

// A line of evidence is one piece.
#[test]
fn a_fault_of_note_cuts_evidence(rt: HostRuntime) -> Result<(), Fail> {
    let call = call_cut(rt.alloc())?;
    let told = b"halted 64\nretired 20\nlies 1\nevidence forgery data 5\ncounter 0 1\n";
    check_shown(&rt, call.shown(), shows(b"A", told, 9));
    Ok(())
}
