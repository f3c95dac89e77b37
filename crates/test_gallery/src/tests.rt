// The gallery of attacks: each script of examples/attacks by its own text, on the program and with the tags that the page
// there tries it with. What is told is that of an independent model in Python (hashlib, hmac, cryptography).
use chip_cases::{
    Attack, READ_UNTOUCHED, STORE_AND_PRINT, STORE_FAR_APART, STORE_TWICE, call_attack_under,
};
use std::alloc::Global;
use std::process::Abort;
use std::test::Fail;

// It exits with 7, and its code is evicted before its first fetch.
const COLD_EXIT_7: &[u8] = b"_start: li   a0, 7
        li   a7, 93
        ecall
        .space 8192
";

// It prints a byte three times, from a line that is evicted before the first time and before the third.
const READ_AGAIN: &[u8] = b"_start: li   t0, 0x140
        lui  t1, 0x1
        add  t1, t1, t0
        lui  t2, 0x2
        add  t2, t2, t0
        li   t3, 65
        sb   t3, 0(t0)
        sb   t3, 64(t0)
        lbu  t4, 0(t1)
        lbu  t4, 64(t1)
        lbu  t4, 0(t2)
        li   a0, 1
        mv   a1, t0
        li   a2, 1
        li   a7, 64
        ecall
        lbu  t4, 64(t2)
        ecall
        lbu  t4, 0(t1)
        lbu  t4, 0(t2)
        ecall
        li   a7, 93
        ecall
";

// It stores a balance of 100, pays 30 of it, and exits with the 70 that it reads back; both balances are written back.
const BANK: &[u8] = b"_start: lui  t1, 0x1
        lui  t2, 0x2
        li   t3, 100
        sb   t3, 320(zero)
        lbu  t4, 320(t1)
        lbu  t4, 320(t2)
        lbu  a0, 320(zero)
        addi a0, a0, -30
        sb   a0, 320(zero)
        lbu  t4, 320(t1)
        lbu  t4, 320(t2)
        lbu  a0, 320(zero)
        li   a7, 93
        ecall
";

const PATCH_CODE: &[u8] = b"# Changes an instruction of cold_exit7 as it is fetched.
#
# The first word is `li a0, 7`, bytes 13 05 70 00. In counter mode a bit that is
# flipped in the ciphertext is flipped in the line, so 70 becomes 60: `li a0, 6`.
# Byte 18 stands behind the program; flipping it there is for the tags `xor`,
# whose sum of pieces of 16 bytes then stays the same.
#
# Line 0 is evicted while the program is stored. The first fetch reads it, and the
# others hit.
read data 0 1: flip data 0 2 10
read data 0 1: flip data 0 18 10
";

pub(crate) const FLIP: &[u8] = b"# Flips one bit of line 5 as store_and_print reads it back.
read data 5 1: flip data 5 0 01
";

const SPLICE_LINES: &[u8] =
    b"# Answers line 5 with line 6, with the tag of line 6: both hold the letter A and
# zeros, and both were written once.
read data 5 1: swap data 5 data 6
";

pub(crate) const SPLICE_NODES: &[u8] =
    b"# Swaps two nodes of the tree while the chip has a copy of neither: the node with
# the tags of counter blocks 32 to 35 and the one with those of blocks 64 to 67.
# Both were written once.
read node 1 8 1: swap node 1 8 node 1 16
";

const FORGET_PAGE: &[u8] =
    b"# Clears the counters of page 32 in store_far_apart, so that its line 2053 would
# count as never written and be read as zeros. The block is first read at the miss
# of the second store into that line: before its first write it is not read.
read node 0 32 1: put node 0 32 00000000000000000000000000000000000000000000000000000000000000000000000000000000000000000000000000000000000000000000000000000000
";

const TRUE_THEN_FALSE: &[u8] =
    b"# Answers truly when store_far_apart asks for the counters of page 32 to read line
# 2053, and falsely when it asks again, as the line is evicted (time of check,
# time of use).
read node 0 32 2: flip node 0 32 12 18
";

const REPLAY_LINE: &[u8] =
    b"# Gives store_far_apart line 2053 as it was written first: the letter A, with the
# tag that the chip made for it. It is put back after its second write, as line
# 4101 is written back before the third store.
write data 6149 1: save 0 data 2053
write data 4101 2: restore 0 data 2053
";

const REPLAY_LINE_AND_COUNTER: &[u8] =
    b"# The same with the counter block of page 32, as it was written first.
write data 6149 1: save 0 data 2053
write data 6149 1: save 1 node 0 32
write data 4101 2: restore 0 data 2053
write data 4101 2: restore 1 node 0 32
";

pub(crate) const REPLAY_BRANCH: &[u8] =
    b"# The same with the node above the block. They are put back once that node was
# written twice, as line 6149 is written back before the third store.
write data 6149 1: save 0 data 2053
write data 6149 1: save 1 node 0 32
write data 6149 1: save 2 node 1 8
write data 6149 2: restore 0 data 2053
write data 6149 2: restore 1 node 0 32
write data 6149 2: restore 2 node 1 8
";

const REPLAY_EVERYTHING: &[u8] =
    b"# The same with all of the memory: lines, tags, counter blocks and tree.
write data 6149 1: saveall 0
write data 6149 2: restoreall 0
";

const ROLL_BACK_THE_BALANCE: &[u8] =
    b"# The textbook rollback: keeps all of the memory while it has bank's balance of
# 100, and puts it back once the balance there is 70.
read data 5 1: saveall 0
read data 5 2: restoreall 0
";

const ATTACK_THAT_WAITS: &[u8] =
    b"# Flips a bit of line 5 in read_again while the chip holds a clean copy of it: as
# line 6 is written back, between the first print and the second.
write data 6 1: flip data 5 0 01
";

pub(crate) const JUNK_AT_POWER_ON: &[u8] =
    b"# Fills places with junk before the chip's first access.
access 1: set data 5 0 deadbeef
access 1: set data 100 0 deadbeef
access 1: set node 0 0 0 deadbeef
access 1: set node 4 0 0 deadbeef
";

const REPAIRED_BY_A_WRITE: &[u8] =
    b"# Flips a bit of line 5 while store_twice holds it dirty, after its second store:
# as line 133 is written back.
write data 133 1: flip data 5 0 01
";

const NEVER_READ_AGAIN: &[u8] =
    b"# Flips a bit of line 6 of store_and_print after its only write, as line 69 is
# written back.
write data 69 1: flip data 6 0 01
";

const SWAP_OF_EQUALS: &[u8] =
    b"# Swaps the counter blocks of pages 32 and 64 in store_far_apart, when one line of
# each was written back once, at the same place in its page, and then the block.
read node 0 32 2: swap node 0 32 node 0 64
";

const COLLISION: &[u8] =
    b"# Flips the lowest bit of the page counter of page 0 as read_untouched reads its
# block, so that all its lines count as written, and the same bit 16 bytes on: for
# the tags `xor`, whose sum of pieces of 16 bytes then stays the same.
read node 0 0 1: flip node 0 0 0 01
read node 0 0 1: flip node 0 0 16 01
";

const REPEAT_A_PAD: &[u8] =
    b"# Sets the counter of line 2053 in store_far_apart from 1 back to 0, as the line is
# read for its second store. When it is evicted, the chip would count up to 1 again
# and use a keystream twice. The counter is bits 35 to 41 behind the page counter:
# bit 3 of byte 12 is its lowest. Byte 28 is for the tags `xor`, as 16 bytes on; it
# makes the counter of line 2071 a 4, which is never used.
read node 0 32 1: flip node 0 32 12 08
read node 0 32 1: flip node 0 32 28 08
";

const FORGET_BRANCH: &[u8] =
    b"# Makes the counter block of page 32 look never made in store_far_apart, as the node
# above it is read for the first time: slot 0, which has the block's tag, becomes
# zeros. The tag goes into slot 1, of page 33, which is never used: for the tags
# `xor`, whose sum of pieces of 16 bytes then stays the same.
read node 1 8 1: flip node 1 8 0 cdd9952ef93fe00084eb9f1953edd103
read node 1 8 1: flip node 1 8 16 cdd9952ef93fe00084eb9f1953edd103
";

pub(crate) const EARLIER_RUN: &[u8] =
    b"# Answers line 5 of store_and_print with what an earlier run of bank wrote there
# under the same device key: ciphertext and tag of the balance 100.
read data 5 1: put data 5 24d692a43d31e6987ed5a46dbf5bca39030d8b881a9df52273bffd777d2666fef434205fde381197f9093d6e5d7d963bf46e671de7eff1e8f46c06f551a33e3ded36f8f697f8326475f7c28ad3dc5363
";

const CAUGHT: [Attack<'static>; 10] = [
    Attack {
        text: COLD_EXIT_7,
        tags: "hmac",
        script: PATCH_CODE,
        printed: b"",
        told: b"tampered data 0\nretired 0\nlies 1\n",
        status: 5,
    },
    Attack {
        text: STORE_AND_PRINT,
        tags: "hmac",
        script: FLIP,
        printed: b"A",
        told: b"tampered data 5\nretired 17\nlies 1\n",
        status: 5,
    },
    Attack {
        text: READ_AGAIN,
        tags: "hmac",
        script: ATTACK_THAT_WAITS,
        printed: b"AA",
        told: b"tampered data 5\nretired 20\nlies 1\n",
        status: 5,
    },
    Attack {
        text: STORE_AND_PRINT,
        tags: "hmac",
        script: SPLICE_LINES,
        printed: b"A",
        told: b"tampered data 5\nretired 17\nlies 1\n",
        status: 5,
    },
    Attack {
        text: STORE_FAR_APART,
        tags: "hmac",
        script: SPLICE_NODES,
        printed: b"",
        told: b"tampered node 1 8\nretired 13\nlies 1\n",
        status: 5,
    },
    Attack {
        text: STORE_FAR_APART,
        tags: "hmac",
        script: FORGET_PAGE,
        printed: b"",
        told: b"tampered node 0 32\nretired 11\nlies 1\n",
        status: 5,
    },
    Attack {
        text: STORE_FAR_APART,
        tags: "hmac",
        script: TRUE_THEN_FALSE,
        printed: b"",
        told: b"tampered node 0 32\nretired 13\nlies 1\n",
        status: 5,
    },
    Attack {
        text: READ_UNTOUCHED,
        tags: "hmac",
        script: COLLISION,
        printed: b"",
        told: b"tampered node 0 0\nretired 12\nlies 1\n",
        status: 5,
    },
    Attack {
        text: STORE_FAR_APART,
        tags: "hmac",
        script: REPEAT_A_PAD,
        printed: b"",
        told: b"tampered node 0 32\nretired 11\nlies 1\n",
        status: 5,
    },
    Attack {
        text: STORE_FAR_APART,
        tags: "hmac",
        script: FORGET_BRANCH,
        printed: b"",
        told: b"tampered node 1 8\nretired 13\nlies 1\n",
        status: 5,
    },
];

const REPLAYS: [Attack<'static>; 5] = [
    Attack {
        text: STORE_FAR_APART,
        tags: "hmac",
        script: REPLAY_LINE,
        printed: b"",
        told: b"tampered data 2053\nretired 17\nlies 1\n",
        status: 5,
    },
    Attack {
        text: STORE_FAR_APART,
        tags: "hmac",
        script: REPLAY_LINE_AND_COUNTER,
        printed: b"",
        told: b"tampered node 0 32\nretired 17\nlies 1\n",
        status: 5,
    },
    Attack {
        text: STORE_FAR_APART,
        tags: "hmac",
        script: REPLAY_BRANCH,
        printed: b"",
        told: b"tampered node 1 8\nretired 19\nlies 1\n",
        status: 5,
    },
    Attack {
        text: STORE_FAR_APART,
        tags: "hmac",
        script: REPLAY_EVERYTHING,
        printed: b"",
        told: b"tampered node 0 64\nretired 18\nlies 1\n",
        status: 5,
    },
    Attack {
        text: BANK,
        tags: "hmac",
        script: ROLL_BACK_THE_BALANCE,
        printed: b"",
        told: b"tampered data 5\nretired 11\nlies 1\n",
        status: 5,
    },
];

const UNSEEN: [Attack<'static>; 4] = [
    Attack {
        text: STORE_AND_PRINT,
        tags: "hmac",
        script: JUNK_AT_POWER_ON,
        printed: b"A",
        told: b"halted 65\nretired 20\nlies 0\n",
        status: 0,
    },
    Attack {
        text: STORE_TWICE,
        tags: "hmac",
        script: REPAIRED_BY_A_WRITE,
        printed: b"",
        told: b"halted 66\nretired 22\nlies 0\n",
        status: 0,
    },
    Attack {
        text: STORE_AND_PRINT,
        tags: "hmac",
        script: NEVER_READ_AGAIN,
        printed: b"A",
        told: b"halted 65\nretired 20\nlies 0\n",
        status: 0,
    },
    Attack {
        text: STORE_FAR_APART,
        tags: "hmac",
        script: SWAP_OF_EQUALS,
        printed: b"",
        told: b"halted 67\nretired 26\nlies 0\n",
        status: 0,
    },
];

const PASSES: [Attack<'static>; 5] = [
    Attack {
        text: COLD_EXIT_7,
        tags: "xor",
        script: PATCH_CODE,
        printed: b"",
        told: b"halted 6
retired 3
lies 1
evidence forgery data 0
counter 0 1
cipher 92c918401038941890ec7cd99e676abeaf910a44135dcd3e6d71ce824cac4260657186c64b81eb517fa5541126abd07bbd2b6336a4e1b47f063173fb9a2430cc
tag 2e2363a66d2e473b16aedcc455665e41
",
        status: 7,
    },
    Attack {
        text: READ_UNTOUCHED,
        tags: "xor",
        script: COLLISION,
        printed: b"",
        told: b"tampered data 5
retired 12
lies 1
evidence collision node 0 0
made 00000000000000000000000008000000000000000000000000000000000000000000000000000000000000000000000000000000000000000000000000000000
accepted 01000000000000000000000008000000010000000000000000000000000000000000000000000000000000000000000000000000000000000000000000000000
tag cdd9b52ef93fe00084eb9f1953edd103
",
        status: 7,
    },
    Attack {
        text: STORE_FAR_APART,
        tags: "xor",
        script: REPEAT_A_PAD,
        printed: b"",
        told: b"halted 67
retired 26
lies 2
evidence collision node 0 32
made 00000000000000000000000008000000000000000000000000000000000000000000000000000000000000000000000000000000000000000000000000000000
accepted 00000000000000000000000000000000000000000000000000000000080000000000000000000000000000000000000000000000000000000000000000000000
tag cdd9952ef93fe00084eb9f1953edd103
",
        status: 7,
    },
    Attack {
        text: STORE_FAR_APART,
        tags: "xor",
        script: FORGET_BRANCH,
        printed: b"",
        told: b"halted 67
retired 26
lies 1
evidence collision node 1 8
made cdd9952ef93fe00084eb9f1953edd103000000000000000000000000000000000000000000000000000000000000000000000000000000000000000000000000
accepted 00000000000000000000000000000000cdd9952ef93fe00084eb9f1953edd1030000000000000000000000000000000000000000000000000000000000000000
tag 52c1e6c3283c2dd911c56626b3ed55e9
",
        status: 7,
    },
    Attack {
        text: STORE_AND_PRINT,
        tags: "hmac",
        script: EARLIER_RUN,
        printed: b"A",
        told: b"halted 100
retired 20
lies 1
evidence forgery data 5
counter 0 1
cipher 24d692a43d31e6987ed5a46dbf5bca39030d8b881a9df52273bffd777d2666fef434205fde381197f9093d6e5d7d963bf46e671de7eff1e8f46c06f551a33e3d
tag ed36f8f697f8326475f7c28ad3dc5363
",
        status: 7,
    },
];

// What each attack comes to under a layout.
pub(crate) fn check_attacks(
    rt: &impl Abort,
    alloc: Global,
    layout: &str,
    attacks: &[Attack<'_>],
) -> Result<(), Fail> {
    for attack in attacks {
        let call = call_attack_under(alloc, layout, *attack)?;
        assert_eq!(rt; call.shown(), attack.shown());
    }
    Ok(())
}

#[test]
fn what_is_changed_or_spliced_is_caught(rt: HostRuntime) -> Result<(), Fail> {
    check_attacks(&rt, rt.alloc(), "1", &CAUGHT)
}

#[test]
fn replays_are_caught_where_the_parent_is_newer(rt: HostRuntime) -> Result<(), Fail> {
    check_attacks(&rt, rt.alloc(), "1", &REPLAYS)
}

#[test]
fn what_the_chip_never_reads_does_nothing(rt: HostRuntime) -> Result<(), Fail> {
    check_attacks(&rt, rt.alloc(), "1", &UNSEEN)
}

#[test]
fn what_passes_is_handed_out(rt: HostRuntime) -> Result<(), Fail> {
    check_attacks(&rt, rt.alloc(), "1", &PASSES)
}
