// Attacks one by one. Each expected text and status is that of an independent model in Python (hashlib, hmac, cryptography).
use crate::scripts::check_attack;
use chip_cases::{Attack, READ_UNTOUCHED, STORE_AND_PRINT};
use std::alloc::Global;
use std::test::Fail;

// An access that is never made, and a node that is never read; a write, which replaces what was changed; and a counter block that
// stays on the chip, so that nothing is put back.
const NO_LIES: [&[u8]; 4] = [
    b"access 342: flip node 4 0 0 01\n",
    b"access 1: flip node 4 0 0 01\n",
    b"write data 5 1: flip data 5 0 ff\n",
    b"write node 0 0 1: saveall 3\nread node 0 0 1: restoreall 3\n",
];

#[test]
fn what_is_not_read_or_is_written_over_is_no_lie(rt: HostRuntime) -> Result<(), Fail> {
    for script in &NO_LIES {
        let attack = Attack {
            text: STORE_AND_PRINT,
            tags: "hmac",
            script,
            printed: b"A",
            told: b"halted 65\nretired 20\nlies 0\n",
            status: 0,
        };
        check_attack(&rt, rt.alloc(), "4", attack, 0)?;
    }
    Ok(())
}

// The same memory is put back where the counter block does go out: it is what stood there before its write.
#[test]
fn what_is_put_back_of_a_block_that_is_read_is_caught(rt: HostRuntime) -> Result<(), Fail> {
    let attack = Attack {
        text: READ_UNTOUCHED,
        tags: "hmac",
        script: b"write node 0 0 1: saveall 3\nread node 0 0 1: restoreall 3\n",
        printed: b"",
        told: b"tampered node 0 0\nretired 12\nlies 1\n",
        status: 5,
    };
    check_attack(&rt, rt.alloc(), "4", attack, 1)
}

// A line that flips a bit, so many times over, and as many lines that act before the first access and change nothing.
fn flips(alloc: Global, count: usize) -> Result<Vec<u8>, Fail> {
    let mut script = Vec::new(alloc);
    for _ in 0..count {
        script.extend_from_slice(b"access 1: swap data 5 data 6\n")?;
        script.extend_from_slice(b"read data 5 1: flip data 5 0 01\n")?;
    }
    Ok(script)
}

// All 1,000 lines act. An even number of flips leaves the line as it was, and one more is a lie.
#[test]
fn a_long_script_acts_by_every_line(rt: HostRuntime) -> Result<(), Fail> {
    let script = flips(rt.alloc(), 500)?;
    let attack = Attack {
        text: STORE_AND_PRINT,
        tags: "hmac",
        script: script.as_slice(),
        printed: b"A",
        told: b"halted 65\nretired 20\nlies 0\n",
        status: 0,
    };
    check_attack(&rt, rt.alloc(), "4", attack, 0)?;
    let script = flips(rt.alloc(), 501)?;
    let attack = Attack {
        script: script.as_slice(),
        told: b"tampered data 5\nretired 17\nlies 1\n",
        status: 5,
        ..attack
    };
    check_attack(&rt, rt.alloc(), "4", attack, 1)
}

// It stores A in a line that goes out, reads it, stores the next letter beside it, prints both from the line, which was out
// again, and exits with another byte of the line, which is 0.
const COPY_BESIDE: &[u8] = b"_start: li   t0, 0x140
        lui  t1, 0x1
        add  t1, t1, t0
        lui  t2, 0x2
        add  t2, t2, t0
        li   t3, 65
        sb   t3, 0(t0)
        lbu  t4, 0(t1)
        lbu  t4, 0(t2)
        lbu  t3, 0(t0)
        addi t3, t3, 1
        sb   t3, 1(t0)
        lbu  t4, 0(t1)
        lbu  t4, 0(t2)
        li   a0, 1
        mv   a1, t0
        li   a2, 2
        li   a7, 64
        ecall
        lbu  a0, 16(t0)
        li   a7, 93
        ecall
";

// A becomes G, and the byte that is 16 bytes on becomes 6: under the tags `xor` the tag is the same.
const FORGE: &[u8] = b"read data 5 1: flip data 5 0 06\nread data 5 1: flip data 5 16 06\n";

// What the tags, a script and the program come to: what is printed and told, the status, and how many lies there were.
const FORGED: [(&str, &[u8], &[u8], &[u8], u8, u64); 3] = [
    ("xor", b"", b"AB", b"halted 0\nretired 22\nlies 0\n", 0, 0),
    (
        "hmac",
        FORGE,
        b"",
        b"tampered data 5\nretired 9\nlies 1\n",
        5,
        1,
    ),
    (
        "xor",
        FORGE,
        b"GH",
        b"halted 6
retired 22
lies 1
evidence forgery data 5
counter 0 1
cipher 07d692a43d31e6987ed5a46dbf5bca39050d8b881a9df52273bffd777d2666fef434205fde381197f9093d6e5d7d963bf46e671de7eff1e8f46c06f551a33e3d
tag 87bc91d898e3c33de19e7c2399ceb9c3
",
        7,
        1,
    ),
];

// The program sees the forged line: what it counts up, stores, prints and exits with comes of it.
#[test]
fn a_forged_line_is_what_the_program_sees(rt: HostRuntime) -> Result<(), Fail> {
    for (tags, script, printed, told, status, lies) in FORGED {
        let attack = Attack {
            text: COPY_BESIDE,
            tags,
            script,
            printed,
            told,
            status,
        };
        check_attack(&rt, rt.alloc(), "4", attack, lies)?;
    }
    Ok(())
}
