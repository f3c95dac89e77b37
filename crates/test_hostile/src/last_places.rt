// Attacks on the last line and the last counter block of the largest memory, which has 8 levels: line 4194303 and node 0 65535. A
// program stores three times into the last byte of memory and into two bytes far below it: the lines share a set, and so do their
// counter blocks and the nodes above up to level 5. It makes 75 accesses. Each expected text is that of an independent model in
// Python (bench/attacks.py: hashlib, hmac, cryptography).
use crate::scripts::{Mended, Target, check_attack};
use chip_cases::{Attack, READ_UNTOUCHED, STORE_AND_PRINT};
use std::test::Fail;

const STORE_LAST: &[u8] = b"_start: lui  t0, 0x10000
        lui  t1, 0xc000
        lui  t2, 0x8000
        li   t3, 65
        li   t4, 3
again:  sb   t3, -1(t0)
        sb   t3, -1(t1)
        sb   t3, -1(t2)
        addi t3, t3, 1
        addi t4, t4, -1
        bnez t4, again
        lbu  a0, -1(t0)
        li   a7, 93
        ecall
";

const TARGET: Target<'static> = Target {
    text: STORE_LAST,
    levels: "8",
    told: b"halted 67\nretired 26\nlies 0\n",
};

// Scripts that mend no tag, and what is told.
const CAUGHT: [(&[u8], &[u8]); 11] = [
    (
        b"read data 4194303 1: flip data 4194303 63 80\n",
        b"tampered data 4194303\nretired 11\nlies 1\n",
    ),
    (
        b"read data 4194303 1: put data 4194303 0000000000000000000000000000000000000000000000000000000000000000000000000000000000000000000000000000000000000000000000000000000000000000000000000000000000000000\n",
        b"tampered data 4194303\nretired 11\nlies 1\n",
    ),
    // Nothing was written to the line before.
    (
        b"read data 4194303 1: swap data 4194303 data 4194302\n",
        b"tampered data 4194303\nretired 11\nlies 1\n",
    ),
    // What the line's second write replaced.
    (
        b"write data 4194303 2: save 0 data 4194303\nread data 4194303 2: restore 0 data 4194303\n",
        b"tampered data 4194303\nretired 17\nlies 1\n",
    ),
    (
        b"access 75: set data 4194303 79 00\n",
        b"tampered data 4194303\nretired 23\nlies 1\n",
    ),
    (
        b"read node 0 65535 1: flip node 0 65535 63 80\n",
        b"tampered node 0 65535\nretired 11\nlies 1\n",
    ),
    (
        b"read node 0 65535 1: set node 0 65535 0 01\n",
        b"tampered node 0 65535\nretired 11\nlies 1\n",
    ),
    (
        b"read node 0 65535 1: put node 0 65535 00000000000000000000000000000000000000000000000000000000000000000000000000000000000000000000000000000000000000000000000000000000\n",
        b"tampered node 0 65535\nretired 11\nlies 1\n",
    ),
    (
        b"read node 0 65535 1: swap node 0 65535 node 0 65534\n",
        b"tampered node 0 65535\nretired 11\nlies 1\n",
    ),
    // What the block's second write replaced, and all of the memory as it was then.
    (
        b"write node 0 65535 2: save 15 node 0 65535\nread node 0 65535 3: restore 15 node 0 65535\n",
        b"tampered node 0 65535\nretired 17\nlies 1\n",
    ),
    (
        b"write node 0 65535 2: saveall 0\nread node 0 65535 3: restoreall 0\n",
        b"tampered node 0 65535\nretired 17\nlies 1\n",
    ),
];

#[test]
fn the_last_places_that_are_changed_are_caught(rt: HostRuntime) -> Result<(), Fail> {
    for &(script, told) in &CAUGHT {
        TARGET.check_caught(&rt, rt.alloc(), script, told)?;
    }
    Ok(())
}

const UNSEEN: [&[u8]; 6] = [
    // Behind the last access.
    b"access 76: flip data 4194303 63 04\n",
    // What stands there before a write, which replaces it.
    b"access 1: set data 4194303 0 ff\naccess 1: set node 0 65535 0 ff\n",
    b"write data 4194303 2: flip data 4194303 0 01\nwrite node 0 65535 2: flip node 0 65535 0 01\n",
    // Triggers of places that are never read or written.
    b"read data 4194302 1: set data 4194303 0 ff\nwrite node 0 65534 1: set data 4194303 0 ff\nread node 8 0 1: set node 0 65535 0 ff\n",
    // Places that are never read.
    b"access 1: set data 4194302 0 ff\naccess 1: set node 0 65534 0 ff\naccess 1: set node 8 0 0 ff\n",
    // One line of either page was written once: the blocks are equal.
    b"read node 0 49151 1: swap node 0 49151 node 0 65535\n",
];

#[test]
fn the_last_places_are_changed_and_nobody_reads_it(rt: HostRuntime) -> Result<(), Fail> {
    for script in &UNSEEN {
        TARGET.check_unseen(&rt, rt.alloc(), script)?;
    }
    Ok(())
}

// Scripts that mend the tag `xor`.
const MENDED: [Mended<'static>; 3] = [
    // The byte that the program exits with.
    Mended {
        script: b"read data 4194303 3: flip data 4194303 63 04\nread data 4194303 3: flip data 4194303 47 04\n",
        caught: b"tampered data 4194303\nretired 23\nlies 1\n",
        passed: b"halted 71
retired 26
lies 1
evidence forgery data 4194303
counter 0 3
cipher c75b90f2e9b1d6a1d6901ace758a6c7cec6872136b1b366089d6ba70272112cb8d71d65c6741e6b4e632ec98465083c0d84c1ebae4c54a8d55630892aefe6890
tag f32f71b227de2f25c7ab088508eac54d
",
        lies: 1,
    },
    // The page counter is read as 1, so that the line is checked under another counter than it was tagged under.
    Mended {
        script: b"read node 0 65535 1: flip node 0 65535 0 01\nread node 0 65535 1: flip node 0 65535 16 01\n",
        caught: b"tampered node 0 65535\nretired 11\nlies 1\n",
        passed: b"tampered data 4194303
retired 11
lies 1
evidence collision node 0 65535
made 00000000000000000000000000000000000000000000000000000000000000000000000000000000000000000000000000000000000000000000000000000002
accepted 01000000000000000000000000000000010000000000000000000000000000000000000000000000000000000000000000000000000000000000000000000002
tag cdd942d1f93de00084eb9f1953edd103
",
        lies: 1,
    },
    // Byte 9 of a counter block counts in byte 15 of its tag, whose lowest bit is set in any case.
    Mended {
        script: b"read node 0 65535 5: flip node 0 65535 9 01\n",
        caught: b"tampered node 0 65535\nretired 23\nlies 1\n",
        passed: b"halted 67
retired 26
lies 1
evidence collision node 0 65535
made 00000000000000000000000000000000000000000000000000000000000000000000000000000000000000000000000000000000000000000000000000000006
accepted 00000000000000000001000000000000000000000000000000000000000000000000000000000000000000000000000000000000000000000000000000000006
tag cdd942d1f939e00084eb9f1953edd103
",
        lies: 1,
    },
];

#[test]
fn the_last_places_with_weak_tags_pass(rt: HostRuntime) -> Result<(), Fail> {
    for mended in &MENDED {
        TARGET.check_mended(&rt, rt.alloc(), *mended)?;
    }
    Ok(())
}

// Programs that use the first pages: of the four accesses of the first the last reads line 5, and of the five of the second the
// last two read the counter block of page 0 and line 5, as in a memory of four levels.
const SMALL: [Attack<'static>; 7] = [
    Attack {
        text: STORE_AND_PRINT,
        tags: "hmac",
        script: b"access 4: flip data 5 0 01\n",
        printed: b"A",
        told: b"tampered data 5\nretired 17\nlies 1\n",
        status: 5,
    },
    Attack {
        text: STORE_AND_PRINT,
        tags: "hmac",
        script: b"access 5: flip data 5 0 01\n",
        printed: b"A",
        told: b"halted 65\nretired 20\nlies 0\n",
        status: 0,
    },
    Attack {
        text: READ_UNTOUCHED,
        tags: "hmac",
        script: b"access 4: flip node 0 0 0 01\n",
        printed: b"",
        told: b"tampered node 0 0\nretired 12\nlies 1\n",
        status: 5,
    },
    Attack {
        text: READ_UNTOUCHED,
        tags: "hmac",
        script: b"access 5: flip node 0 0 0 01\n",
        printed: b"",
        told: b"halted 64\nretired 15\nlies 0\n",
        status: 0,
    },
    Attack {
        text: READ_UNTOUCHED,
        tags: "hmac",
        script: b"access 5: flip data 5 0 01\n",
        printed: b"",
        told: b"tampered data 5\nretired 12\nlies 1\n",
        status: 5,
    },
    Attack {
        text: READ_UNTOUCHED,
        tags: "hmac",
        script: b"access 6: flip data 5 0 01\n",
        printed: b"",
        told: b"halted 64\nretired 15\nlies 0\n",
        status: 0,
    },
    Attack {
        text: READ_UNTOUCHED,
        tags: "xor",
        script: b"read node 0 0 1: flip node 0 0 0 01\nread node 0 0 1: flip node 0 0 16 01\n",
        printed: b"",
        told: b"tampered data 5
retired 12
lies 1
evidence collision node 0 0
made 00000000000000000000000008000000000000000000000000000000000000000000000000000000000000000000000000000000000000000000000000000000
accepted 01000000000000000000000008000000010000000000000000000000000000000000000000000000000000000000000000000000000000000000000000000000
tag cdd9b52ef93fe00084eb9f1953edd103
",
        status: 7,
    },
];

#[test]
fn small_programs_are_attacked_as_in_a_small_memory(rt: HostRuntime) -> Result<(), Fail> {
    for attack in &SMALL {
        let lies = u64::from(attack.status != 0);
        check_attack(&rt, rt.alloc(), "8", *attack, lies)?;
    }
    Ok(())
}
