// Memories of 1 to 8 levels L: they have 64 * 4^L lines. A program stores into three pages, which are apart by a quarter of the
// memory. From three levels on their counter blocks share a set, and so do the nodes above them up to level L - 3: these
// go out and are read again. No node above them is, and in memory of one level or two none at all. What is told is that of an
// independent model in Python.
use chip_cases::{call_by_script, call_program, shows};
use std::alloc::{AllocError, Global};
use std::process::Abort;
use std::test::Fail;

// The levels; the addresses of the three pages; a change of the highest node that is read, or may be, and what comes of it; one
// of the node above that, which comes to nothing.
#[derive(Clone, Copy)]
struct Size<'a> {
    levels: &'a str,
    apart: [u32; 3],
    read: &'a [u8],
    told: &'a [u8],
    status: u8,
    unread: &'a [u8],
    // Places at the ends of the memory, and the first places outside of it.
    inside: &'a [u8],
    outside: [&'a [u8]; 4],
}

// Each begins with the words of `lui t0`, `lui t1` and `lui t2`.
const SIZES: [Size<'static>; 8] = [
    Size {
        levels: "1",
        apart: [0x0000_12b7, 0x0000_2337, 0x0000_33b7],
        read: b"read node 0 1 1: flip node 0 1 63 80\n",
        told: b"halted 67\nretired 26\nlies 0\n",
        status: 0,
        unread: b"read node 1 0 1: flip node 1 0 63 80\n",
        inside: b"access 1: swap data 0 data 255\naccess 1: swap node 0 0 node 0 3\naccess 1: save 0 node 1 0\n",
        outside: [b"data 256", b"node 0 4", b"node 1 1", b"node 2 0"],
    },
    Size {
        levels: "2",
        apart: [0x0000_42b7, 0x0000_8337, 0x0000_c3b7],
        read: b"read node 0 4 1: flip node 0 4 63 80\n",
        told: b"halted 67\nretired 26\nlies 0\n",
        status: 0,
        unread: b"read node 1 1 1: flip node 1 1 63 80\n",
        inside: b"access 1: swap data 0 data 1023\naccess 1: swap node 0 0 node 0 15\naccess 1: save 0 node 2 0\n",
        outside: [b"data 1024", b"node 0 16", b"node 2 1", b"node 3 0"],
    },
    Size {
        levels: "3",
        apart: [0x0001_02b7, 0x0002_0337, 0x0003_03b7],
        read: b"read node 0 16 1: flip node 0 16 63 80\n",
        told: b"tampered node 0 16\nretired 11\nlies 1\n",
        status: 5,
        unread: b"read node 1 4 1: flip node 1 4 63 80\n",
        inside: b"access 1: swap data 0 data 4095\naccess 1: swap node 0 0 node 0 63\naccess 1: save 0 node 3 0\n",
        outside: [b"data 4096", b"node 0 64", b"node 3 1", b"node 4 0"],
    },
    Size {
        levels: "4",
        apart: [0x0004_02b7, 0x0008_0337, 0x000c_03b7],
        read: b"read node 1 16 1: flip node 1 16 63 80\n",
        told: b"tampered node 1 16\nretired 13\nlies 1\n",
        status: 5,
        unread: b"read node 2 4 1: flip node 2 4 63 80\n",
        inside: b"access 1: swap data 0 data 16383\naccess 1: swap node 0 0 node 0 255\naccess 1: save 0 node 4 0\n",
        outside: [b"data 16384", b"node 0 256", b"node 4 1", b"node 5 0"],
    },
    Size {
        levels: "5",
        apart: [0x0010_02b7, 0x0020_0337, 0x0030_03b7],
        read: b"read node 2 16 1: flip node 2 16 63 80\n",
        told: b"tampered node 2 16\nretired 13\nlies 1\n",
        status: 5,
        unread: b"read node 3 4 1: flip node 3 4 63 80\n",
        inside: b"access 1: swap data 0 data 65535\naccess 1: swap node 0 0 node 0 1023\naccess 1: save 0 node 5 0\n",
        outside: [b"data 65536", b"node 0 1024", b"node 5 1", b"node 6 0"],
    },
    Size {
        levels: "6",
        apart: [0x0040_02b7, 0x0080_0337, 0x00c0_03b7],
        read: b"read node 3 16 1: flip node 3 16 63 80\n",
        told: b"tampered node 3 16\nretired 18\nlies 1\n",
        status: 5,
        unread: b"read node 4 4 1: flip node 4 4 63 80\n",
        inside: b"access 1: swap data 0 data 262143\naccess 1: swap node 0 0 node 0 4095\naccess 1: save 0 node 6 0\n",
        outside: [b"data 262144", b"node 0 4096", b"node 6 1", b"node 7 0"],
    },
    Size {
        levels: "7",
        apart: [0x0100_02b7, 0x0200_0337, 0x0300_03b7],
        read: b"read node 4 16 1: flip node 4 16 63 80\n",
        told: b"tampered node 4 16\nretired 18\nlies 1\n",
        status: 5,
        unread: b"read node 5 4 1: flip node 5 4 63 80\n",
        inside: b"access 1: swap data 0 data 1048575\naccess 1: swap node 0 0 node 0 16383\naccess 1: save 0 node 7 0\n",
        outside: [b"data 1048576", b"node 0 16384", b"node 7 1", b"node 8 0"],
    },
    Size {
        levels: "8",
        apart: [0x0400_02b7, 0x0800_0337, 0x0c00_03b7],
        read: b"read node 5 16 1: flip node 5 16 63 80\n",
        told: b"tampered node 5 16\nretired 23\nlies 1\n",
        status: 5,
        unread: b"read node 6 4 1: flip node 6 4 63 80\n",
        inside: b"access 1: swap data 0 data 4194303\naccess 1: swap node 0 0 node 0 65535\naccess 1: save 0 node 8 0\n",
        outside: [b"data 4194304", b"node 0 65536", b"node 8 1", b"node 9 0"],
    },
];

// It stores 65 into the sixth line of each page, then 66 and then 67, and exits with the byte of the first page.
const STORES: [u32; 11] = [
    0x0410_0e13, // addi t3, zero, 65
    0x0030_0e93, // addi t4, zero, 3
    0x15c2_8023, // sb t3, 320(t0)
    0x15c3_0023, // sb t3, 320(t1)
    0x15c3_8023, // sb t3, 320(t2)
    0x001e_0e13, // addi t3, t3, 1
    0xfffe_8e93, // addi t4, t4, -1
    0xfe0e_96e3, // bne t4, zero, -20
    0x1402_c503, // lbu a0, 320(t0)
    0x05d0_0893, // addi a7, zero, 93
    0x0000_0073, // ecall
];

const HALTED: &[u8] = b"halted 67\nretired 26\nlies 0\n";

fn code_of(alloc: Global, size: Size<'_>) -> Result<Vec<u32>, AllocError> {
    let mut code = Vec::from_slice(alloc, &size.apart)?;
    code.extend_from_slice(&STORES)?;
    Ok(code)
}

// What is told of a run by a script in a memory of this size.
fn check_script(
    rt: &impl Abort,
    alloc: Global,
    size: Size<'_>,
    script: &[u8],
    told: &[u8],
    status: u8,
) -> Result<(), Fail> {
    let levels = size.levels;
    let words = [
        "chip", "run", "f", "--flat", "--levels", levels, "--script", "s",
    ];
    let code = code_of(alloc, size)?;
    let call = call_by_script(alloc, &words, code.as_slice(), script)?;
    assert_eq!(rt; call.shown(), shows(b"", told, status), "levels {levels}");
    Ok(())
}

fn check_run(rt: &impl Abort, alloc: Global, size: Size<'_>) -> Result<(), Fail> {
    let levels = size.levels;
    let words = ["chip", "run", "f", "--flat", "--levels", levels];
    let code = code_of(alloc, size)?;
    let call = call_program(alloc, &words, code.as_slice(), &[], &[])?;
    assert_eq!(rt; call.shown(), shows(b"", HALTED, 0), "levels {levels}");
    Ok(())
}

#[test]
fn a_program_runs_in_memory_of_each_size(rt: HostRuntime) -> Result<(), Fail> {
    for size in &SIZES {
        check_run(&rt, rt.alloc(), *size)?;
    }
    Ok(())
}

#[test]
fn nodes_are_read_below_a_level_of_each_memory(rt: HostRuntime) -> Result<(), Fail> {
    for size in &SIZES {
        check_script(&rt, rt.alloc(), *size, size.read, size.told, size.status)?;
        check_script(&rt, rt.alloc(), *size, size.unread, HALTED, 0)?;
    }
    Ok(())
}

#[test]
fn a_script_names_each_place_of_the_memory(rt: HostRuntime) -> Result<(), Fail> {
    for size in &SIZES {
        check_script(&rt, rt.alloc(), *size, size.inside, HALTED, 0)?;
    }
    Ok(())
}

fn check_outside(rt: &impl Abort, alloc: Global, size: Size<'_>) -> Result<(), Fail> {
    for place in &size.outside {
        let mut script = Vec::from_slice(alloc, b"access 1: save 0 ")?;
        script.extend_from_slice(place)?;
        let told = b"refused script 1 3 Place\n";
        check_script(rt, alloc, size, script.as_slice(), told, 3)?;
    }
    Ok(())
}

#[test]
fn a_place_outside_memory_of_each_size_is_refused(rt: HostRuntime) -> Result<(), Fail> {
    for size in &SIZES {
        check_outside(&rt, rt.alloc(), *size)?;
    }
    Ok(())
}
