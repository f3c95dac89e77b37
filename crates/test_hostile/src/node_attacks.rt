// Attacks on counter blocks and nodes, over a program that stores three times into three lines. The counter blocks of these lines
// share a set, and so do the nodes above: blocks and nodes of level 1 go out and come in again. It makes 45 accesses. Each
// expected text is that of an independent model in Python (bench/attacks.py: hashlib, hmac, cryptography).
use crate::scripts::{Mended, Target};
use chip_cases::STORE_FAR_APART;
use std::test::Fail;

const TARGET: Target<'static> = Target {
    text: STORE_FAR_APART,
    levels: "4",
    told: b"halted 67\nretired 26\nlies 0\n",
};

// Scripts that mend no tag, and what is told.
const CAUGHT: [(&[u8], &[u8]); 9] = [
    (
        b"read node 1 8 1: flip node 1 8 0 01\n",
        b"tampered node 1 8\nretired 13\nlies 1\n",
    ),
    (
        b"read node 1 8 1: swap node 1 8 node 1 16\n",
        b"tampered node 1 8\nretired 13\nlies 1\n",
    ),
    // What stands at the place of a node that was never made is zeros.
    (
        b"read node 1 8 1: swap node 1 8 node 1 9\n",
        b"tampered node 1 8\nretired 13\nlies 1\n",
    ),
    (
        b"read node 1 8 1: put node 1 8 00000000000000000000000000000000000000000000000000000000000000000000000000000000000000000000000000000000000000000000000000000000\n",
        b"tampered node 1 8\nretired 13\nlies 1\n",
    ),
    // The memory of before any access, and that of before the node's first write, which is access 7.
    (
        b"access 1: saveall 0\nread node 1 8 1: restoreall 0\n",
        b"tampered node 1 8\nretired 13\nlies 1\n",
    ),
    (
        b"access 7: saveall 0\nread node 1 8 1: restoreall 0\n",
        b"tampered node 1 8\nretired 13\nlies 1\n",
    ),
    // What the node's second write replaced.
    (
        b"write node 1 8 2: save 0 node 1 8\nread node 1 8 2: restore 0 node 1 8\n",
        b"tampered node 1 8\nretired 19\nlies 1\n",
    ),
    // Page 64 has no counter block there yet.
    (
        b"read node 0 32 1: swap node 0 32 node 0 64\n",
        b"tampered node 0 32\nretired 11\nlies 1\n",
    ),
    // The node's write replaces nothing of the block below.
    (
        b"write node 1 8 2: flip node 0 32 0 01\n",
        b"tampered node 0 32\nretired 19\nlies 1\n",
    ),
];

#[test]
fn a_node_that_is_changed_or_older_than_its_parent_is_caught(rt: HostRuntime) -> Result<(), Fail> {
    for &(script, told) in &CAUGHT {
        TARGET.check_caught(&rt, rt.alloc(), script, told)?;
    }
    Ok(())
}

const UNSEEN: [&[u8]; 5] = [
    // No accesses of a page that is not used, of the top node, and none behind the last one.
    b"read node 0 33 1: set node 0 32 0 ff\nwrite node 0 33 1: set node 0 32 0 ff\n",
    b"read node 4 0 1: set node 1 8 0 ff\nwrite node 4 0 1: set node 1 8 0 ff\n",
    b"read node 1 8 3: set node 1 8 0 ff\naccess 46: set node 1 8 0 ff\n",
    // What stands there before the first write, which replaces it.
    b"access 1: set node 1 8 0 ff\nwrite node 1 8 1: set node 1 8 0 ff\n",
    // Places that are never read.
    b"access 1: set node 0 33 0 ff\naccess 1: set node 1 9 0 ff\naccess 1: set node 2 2 0 ff\naccess 1: set node 4 0 0 ff\n",
];

#[test]
fn what_is_never_read_or_written_first_does_nothing(rt: HostRuntime) -> Result<(), Fail> {
    for script in &UNSEEN {
        TARGET.check_unseen(&rt, rt.alloc(), script)?;
    }
    Ok(())
}

// Scripts that mend the tag `xor`.
const MENDED: [Mended<'static>; 4] = [
    // The slot that is in use is false now: the block below is found out.
    Mended {
        script: b"read node 1 8 1: flip node 1 8 0 01\nread node 1 8 1: flip node 1 8 16 01\n",
        caught: b"tampered node 1 8\nretired 13\nlies 1\n",
        passed: b"tampered node 0 32
retired 13
lies 1
evidence collision node 1 8
made cdd9952ef93fe00084eb9f1953edd103000000000000000000000000000000000000000000000000000000000000000000000000000000000000000000000000
accepted ccd9952ef93fe00084eb9f1953edd103010000000000000000000000000000000000000000000000000000000000000000000000000000000000000000000000
tag 52c1e6c3283c2dd911c56626b3ed55e9
",
        lies: 1,
    },
    // The two slots are of pages that are never used.
    Mended {
        script: b"read node 1 8 1: flip node 1 8 16 01\nread node 1 8 1: flip node 1 8 32 01\n",
        caught: b"tampered node 1 8\nretired 13\nlies 1\n",
        passed: b"halted 67
retired 26
lies 1
evidence collision node 1 8
made cdd9952ef93fe00084eb9f1953edd103000000000000000000000000000000000000000000000000000000000000000000000000000000000000000000000000
accepted cdd9952ef93fe00084eb9f1953edd103010000000000000000000000000000000100000000000000000000000000000000000000000000000000000000000000
tag 52c1e6c3283c2dd911c56626b3ed55e9
",
        lies: 1,
    },
    // Byte 25 of a node counts in byte 15 of its tag, whose lowest bit is set in any case.
    Mended {
        script: b"read node 1 8 1: flip node 1 8 25 01\n",
        caught: b"tampered node 1 8\nretired 13\nlies 1\n",
        passed: b"halted 67
retired 26
lies 1
evidence collision node 1 8
made cdd9952ef93fe00084eb9f1953edd103000000000000000000000000000000000000000000000000000000000000000000000000000000000000000000000000
accepted cdd9952ef93fe00084eb9f1953edd103000000000000000000010000000000000000000000000000000000000000000000000000000000000000000000000000
tag 52c1e6c3283c2dd911c56626b3ed55e9
",
        lies: 1,
    },
    // So does byte 9 of a counter block. The block is read twice before it is written again.
    Mended {
        script: b"read node 0 32 1: flip node 0 32 9 01\n",
        caught: b"tampered node 0 32\nretired 11\nlies 1\n",
        passed: b"halted 67
retired 26
lies 2
evidence collision node 0 32
made 00000000000000000000000008000000000000000000000000000000000000000000000000000000000000000000000000000000000000000000000000000000
accepted 00000000000000000001000008000000000000000000000000000000000000000000000000000000000000000000000000000000000000000000000000000000
tag cdd9952ef93fe00084eb9f1953edd103
",
        lies: 2,
    },
];

#[test]
fn a_node_whose_weak_tag_is_mended_passes(rt: HostRuntime) -> Result<(), Fail> {
    for mended in &MENDED {
        TARGET.check_mended(&rt, rt.alloc(), *mended)?;
    }
    Ok(())
}
