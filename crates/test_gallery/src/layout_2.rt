// Scripts of the gallery that come to something else under layout 2: what the half of a tag that is cut off covers alone passes, a
// place ends at 72 bytes, and nodes of level 1 stay on the chip. What is told is that of an independent model in Python.
use crate::tests::{
    EARLIER_RUN, FLIP, JUNK_AT_POWER_ON, REPLAY_BRANCH, SPLICE_NODES, check_attacks,
};
use chip_cases::{Attack, STORE_AND_PRINT, STORE_FAR_APART};
use std::test::Fail;

// The line of an earlier run with what layout 2 keeps of its tag.
const EARLIER_RUN_CUT: &[u8] = b"read data 5 1: put data 5 \
24d692a43d31e6987ed5a46dbf5bca39030d8b881a9df52273bffd777d2666fe\
f434205fde381197f9093d6e5d7d963bf46e671de7eff1e8f46c06f551a33e3d\
ed36f8f697f83265
";

const CHANGED: [Attack<'static>; 6] = [
    Attack {
        text: STORE_AND_PRINT,
        tags: "hmac",
        script: FLIP,
        printed: b"A",
        told: b"tampered data 5\nretired 17\nlies 1\n",
        status: 5,
    },
    Attack {
        text: STORE_AND_PRINT,
        tags: "hmac",
        script: b"read data 5 1: flip data 5 71 80\n",
        printed: b"A",
        told: b"tampered data 5\nretired 17\nlies 1\n",
        status: 5,
    },
    Attack {
        text: STORE_FAR_APART,
        tags: "hmac",
        script: REPLAY_BRANCH,
        printed: b"",
        told: b"tampered node 0 32\nretired 19\nlies 1\n",
        status: 5,
    },
    Attack {
        text: STORE_FAR_APART,
        tags: "hmac",
        script: SPLICE_NODES,
        printed: b"",
        told: b"halted 67\nretired 26\nlies 0\n",
        status: 0,
    },
    Attack {
        text: STORE_AND_PRINT,
        tags: "xor",
        script: FLIP,
        printed: b"A",
        told: b"halted 64
retired 20
lies 1
evidence forgery data 5
counter 0 1
cipher 00d692a43d31e6987ed5a46dbf5bca39030d8b881a9df52273bffd777d2666fef434205fde381197f9093d6e5d7d963bf46e671de7eff1e8f46c06f551a33e3d
tag 87bc91d898e3c33d0000000000000000
",
        status: 7,
    },
    Attack {
        text: STORE_AND_PRINT,
        tags: "hmac",
        script: EARLIER_RUN_CUT,
        printed: b"A",
        told: b"halted 100
retired 20
lies 1
evidence forgery data 5
counter 0 1
cipher 24d692a43d31e6987ed5a46dbf5bca39030d8b881a9df52273bffd777d2666fef434205fde381197f9093d6e5d7d963bf46e671de7eff1e8f46c06f551a33e3d
tag ed36f8f697f832650000000000000000
",
        status: 7,
    },
];

// Places beyond the end of a line and of the tree.
const REFUSED: [(&[u8], &[u8]); 3] = [
    (
        b"read data 5 1: flip data 5 72 80\n",
        b"refused script 1 4 Span\n",
    ),
    (EARLIER_RUN, b"refused script 3 4 Span\n"),
    (JUNK_AT_POWER_ON, b"refused script 5 3 Place\n"),
];

#[test]
fn layout_2_comes_to_something_else(rt: HostRuntime) -> Result<(), Fail> {
    check_attacks(&rt, rt.alloc(), "2", &CHANGED)
}

#[test]
fn layout_2_refuses_places_that_it_lacks(rt: HostRuntime) -> Result<(), Fail> {
    for (script, told) in REFUSED {
        let attack = Attack {
            text: STORE_AND_PRINT,
            tags: "hmac",
            script,
            printed: b"",
            told,
            status: 3,
        };
        check_attacks(&rt, rt.alloc(), "2", &[attack])?;
    }
    Ok(())
}
