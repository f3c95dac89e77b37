// Traces as files. The bytes and the faults follow from the words on the format alone.
use bus_trace::{Entries, Entry, Trace, TraceError, TraceFault, parse, write};
use sec_base::{Bytes, Geometry, Layout, Sealed};
use std::alloc::{AllocError, Global};
use std::process::Abort;
use std::test::Fail;

// A run that printed nothing, halted with code 7, retired 3 instructions, and made no access.
const NO_ACCESS: [u8; 34] = [
    0x52, 0x56, 0x54, 0x52, 0x01, 0, 0, 0, 0, 0, 0, 0, 0, 0, 7, 0, 0, 0, 3, 0, 0, 0, 0, 0, 0, 0, 0,
    0, 0, 0, 0, 0, 0, 0,
];

// Where the ending and the number of entries stand in it.
const ENDING_AT: usize = 13;

const COUNT_AT: usize = 26;

const ZEROS: Sealed = Sealed {
    cipher: [0; 64],
    tag: [0; 16],
};

// The same run with so many entries, fewer than 256, of these bytes.
fn file_of(alloc: Global, count: u8, entries: &[u8]) -> Result<Vec<u8>, AllocError> {
    let mut file = Vec::from_slice(alloc, &NO_ACCESS[..COUNT_AT])?;
    file.push(count)?;
    file.extend_from_slice(&[0; 7])?;
    file.extend_from_slice(entries)?;
    Ok(file)
}

// An access of each kind, in a tree of one level, behind an output of two bytes.
fn four_kinds(alloc: Global) -> Result<Vec<u8>, AllocError> {
    let mut file = Vec::from_slice(alloc, b"RVTR\x01\x02\0\0\0\0\0\0\0hi")?;
    file.extend_from_slice(&[
        5, 0, 0, 0, 0, 0, 1, 0, 0, 0, 0, 0, 0, 4, 0, 0, 0, 0, 0, 0, 0,
    ])?;
    file.extend_from_slice(&[0, 255, 0, 0, 0])?;
    file.extend_from_slice(&[0x11; 80])?;
    file.extend_from_slice(&[1, 3, 0, 0, 0])?;
    file.extend_from_slice(&[0x22; 80])?;
    file.extend_from_slice(&[2, 0, 3, 0, 0, 0])?;
    file.extend_from_slice(&[0x33; 64])?;
    file.extend_from_slice(&[3, 1, 0, 0, 0, 0])?;
    file.extend_from_slice(&[0x44; 64])?;
    Ok(file)
}

// Whether a file is a trace.
fn check(alloc: Global, file: &[u8], geometry: Geometry) -> Result<(), TraceError> {
    let _trace = parse(alloc, file, geometry)?;
    Ok(())
}

// Such a file is refused so, for a tree of four levels.
fn expect_fault(
    rt: &impl Abort,
    alloc: Global,
    file: &[u8],
    fault: TraceFault,
) -> Result<(), Fail> {
    let geometry = Geometry::new(4).ok_or("no geometry")?;
    assert_eq!(rt; check(alloc, file, geometry), Err(TraceError::Fault(fault)));
    Ok(())
}

// So is one with an entry that begins with these bytes.
fn expect_entry_fault(
    rt: &impl Abort,
    alloc: Global,
    entry: &[u8],
    fault: TraceFault,
) -> Result<(), Fail> {
    let file = file_of(alloc, 1, entry)?;
    expect_fault(rt, alloc, &file, fault)
}

#[test]
fn a_run_without_accesses(rt: HostRuntime) -> Result<(), Fail> {
    let alloc = rt.alloc();
    let geometry = Geometry::new(4).ok_or("no geometry")?;
    let trace = parse(alloc, &NO_ACCESS, geometry)?;
    assert!(rt; trace.output.is_empty());
    assert_eq!(rt; (trace.ending, trace.code, trace.retired), (0, 7, 3));
    assert!(rt; trace.entries.is_empty());
    assert_eq!(rt; write(alloc, &trace)?.as_slice(), NO_ACCESS.as_slice());
    Ok(())
}

#[test]
fn a_read_of_line_0(rt: HostRuntime) -> Result<(), Fail> {
    let alloc = rt.alloc();
    let geometry = Geometry::new(4).ok_or("no geometry")?;
    let mut entry = [0; 85];
    entry[5] = 1;
    let file = file_of(alloc, 1, &entry)?;
    assert_eq!(rt; file.len(), 119);
    let trace = parse(alloc, &file, geometry)?;
    let mut sealed = ZEROS;
    sealed.cipher[0] = 1;
    assert_eq!(rt;
        trace.entries.as_slice(),
        [Entry::ReadLine { line: 0, sealed }].as_slice()
    );
    assert_eq!(rt; write(alloc, &trace)?.as_slice(), file.as_slice());
    Ok(())
}

#[test]
fn an_access_of_each_kind(rt: HostRuntime) -> Result<(), Fail> {
    let alloc = rt.alloc();
    let geometry = Geometry::new(1).ok_or("no geometry")?;
    let file = four_kinds(alloc)?;
    let trace = parse(alloc, &file, geometry)?;
    let read = Sealed {
        cipher: [0x11; 64],
        tag: [0x11; 16],
    };
    let written = Sealed {
        cipher: [0x22; 64],
        tag: [0x22; 16],
    };
    let entries = [
        Entry::ReadLine {
            line: 255,
            sealed: read,
        },
        Entry::WriteLine {
            line: 3,
            sealed: written,
        },
        Entry::ReadNode {
            level: 0,
            index: 3,
            block: [0x33; 64],
        },
        Entry::WriteNode {
            level: 1,
            index: 0,
            block: [0x44; 64],
        },
    ];
    assert_eq!(rt; trace.output.as_slice(), b"hi".as_slice());
    assert_eq!(rt; (trace.ending, trace.code, trace.retired), (5, 0, 256));
    assert_eq!(rt; trace.entries.as_slice(), entries.as_slice());
    assert_eq!(rt; write(alloc, &trace)?.as_slice(), file.as_slice());
    Ok(())
}

#[test]
fn entries_are_made_of_a_vector_and_given_back(rt: HostRuntime) -> Result<(), Fail> {
    let entry = Entry::WriteLine {
        line: 7,
        sealed: ZEROS,
    };
    let entries = Entries::from_vec(vec![in rt.alloc(); entry]?);
    assert_eq!(rt; entries.len(), 1);
    assert!(rt; !entries.is_empty());
    assert_eq!(rt; entries.into_vec().as_slice(), [entry].as_slice());
    Ok(())
}

#[test]
fn the_first_fault_of_the_head(rt: HostRuntime) -> Result<(), Fail> {
    let rt = &rt;
    let alloc = rt.alloc();
    expect_fault(rt, alloc, b"", TraceFault::Short)?;
    expect_fault(rt, alloc, b"abcd", TraceFault::Short)?;
    expect_fault(rt, alloc, b"abcde", TraceFault::Magic)?;
    expect_fault(rt, alloc, b"RVTR\x02", TraceFault::Magic)?;
    expect_fault(rt, alloc, b"RVTR\x01\x01\0\0\0\0\0\0\0", TraceFault::Short)?;
    expect_fault(rt, alloc, &NO_ACCESS[..33], TraceFault::Short)?;
    for ending in [2, 3, 7, 255] {
        let mut file = NO_ACCESS;
        file[ENDING_AT] = ending;
        expect_fault(rt, alloc, &file, TraceFault::Kind)?;
        expect_fault(rt, alloc, &file[..ENDING_AT + 1], TraceFault::Kind)?;
    }
    Ok(())
}

#[test]
fn the_first_fault_of_an_entry(rt: HostRuntime) -> Result<(), Fail> {
    let rt = &rt;
    let alloc = rt.alloc();
    expect_entry_fault(rt, alloc, &[], TraceFault::Short)?;
    expect_entry_fault(rt, alloc, &[4], TraceFault::Kind)?;
    expect_entry_fault(rt, alloc, &[0, 0, 0x40, 0], TraceFault::Short)?;
    expect_entry_fault(rt, alloc, &[0, 0, 0x40, 0, 0], TraceFault::Place)?;
    expect_entry_fault(rt, alloc, &[1, 0xff, 0x3f, 0, 0], TraceFault::Short)?;
    expect_entry_fault(rt, alloc, &[2, 5, 0, 0, 0], TraceFault::Short)?;
    expect_entry_fault(rt, alloc, &[2, 5, 0, 0, 0, 0], TraceFault::Place)?;
    expect_entry_fault(rt, alloc, &[2, 4, 1, 0, 0, 0], TraceFault::Place)?;
    expect_entry_fault(rt, alloc, &[3, 4, 0, 0, 0, 0], TraceFault::Short)?;
    expect_entry_fault(rt, alloc, &[3, 0, 0, 1, 0, 0], TraceFault::Place)?;
    expect_entry_fault(rt, alloc, &[0; 84], TraceFault::Short)?;
    expect_entry_fault(rt, alloc, &[0; 86], TraceFault::Rest)
}

// A length or a number of entries is no more than a number, whatever it says.
#[test]
fn lengths_past_the_file(rt: HostRuntime) -> Result<(), Fail> {
    let rt = &rt;
    let alloc = rt.alloc();
    for at in [5, COUNT_AT] {
        let mut file = NO_ACCESS;
        file[at..at + 8].copy_from_slice(&[0xff; 8]);
        expect_fault(rt, alloc, &file, TraceFault::Short)?;
    }
    let mut file = Vec::from_slice(alloc, &NO_ACCESS[..COUNT_AT])?;
    file.extend_from_slice(&[0xff; 8])?;
    file.extend_from_slice(&[0; 85])?;
    expect_fault(rt, alloc, &file, TraceFault::Short)?;
    file.push(4)?;
    expect_fault(rt, alloc, &file, TraceFault::Kind)
}

// Its lines are those of a tree of one level, of which layout Two has twice as many.
#[test]
fn a_trace_of_another_geometry(rt: HostRuntime) -> Result<(), Fail> {
    let alloc = rt.alloc();
    let mut entry = [0x55; 85];
    entry[..5].copy_from_slice(&[0, 0, 1, 0, 0]);
    let file = file_of(alloc, 1, &entry)?;
    let one = Geometry::new(1).ok_or("no geometry")?;
    let two = Geometry::with(Layout::Two, 1).ok_or("no geometry")?;
    assert_eq!(rt;
        check(alloc, &file, one),
        Err(TraceError::Fault(TraceFault::Place))
    );
    assert_eq!(rt; check(alloc, &file, two), Ok(()));
    Ok(())
}

#[test]
fn each_cut_is_refused(rt: HostRuntime) -> Result<(), Fail> {
    let alloc = rt.alloc();
    let geometry = Geometry::new(1).ok_or("no geometry")?;
    let file = four_kinds(alloc)?;
    for len in 0..file.len() {
        assert_eq!(rt;
            check(alloc, &file[..len], geometry),
            Err(TraceError::Fault(TraceFault::Short))
        );
    }
    Ok(())
}

// A changed file is refused, or is the bytes of the trace that it is.
fn expect_fault_or_trace(
    rt: &impl Abort,
    alloc: Global,
    file: &[u8],
    geometry: Geometry,
) -> Result<(), Fail> {
    match parse(alloc, file, geometry) {
        Ok(trace) => assert_eq!(rt; write(alloc, &trace)?.as_slice(), file),
        Err(error) => assert!(rt; error != TraceError::NoMemory),
    }
    Ok(())
}

#[test]
fn each_change_of_a_byte(rt: HostRuntime) -> Result<(), Fail> {
    let alloc = rt.alloc();
    let geometry = Geometry::new(1).ok_or("no geometry")?;
    let mut file = four_kinds(alloc)?;
    for at in 0..file.len() {
        for mask in 1..=255 {
            file[at] ^= mask;
            expect_fault_or_trace(&rt, alloc, &file, geometry)?;
            file[at] ^= mask;
        }
    }
    Ok(())
}

#[test]
fn numbers_and_names_of_faults(rt: HostRuntime) -> Result<(), Fail> {
    for (fault, code, name) in [
        (TraceFault::Short, 1, "Short"),
        (TraceFault::Magic, 2, "Magic"),
        (TraceFault::Kind, 3, "Kind"),
        (TraceFault::Place, 4, "Place"),
        (TraceFault::Rest, 5, "Rest"),
    ] {
        assert_eq!(rt; fault.code(), code);
        assert_eq!(rt; fault.name(), name);
        let text = format!(in rt.alloc(); "{}", TraceError::Fault(fault))?;
        assert_eq!(rt; text.as_str(), name);
    }
    Ok(())
}

// A trace that is put together by hand.
#[test]
fn a_trace_with_an_output(rt: HostRuntime) -> Result<(), Fail> {
    let alloc = rt.alloc();
    let trace = Trace {
        output: Bytes::from_slice(alloc, b"A")?,
        ending: 1,
        code: 0x01020304,
        retired: 0x0102030405060708,
        entries: Entries::from_vec(Vec::new(alloc)),
    };
    let file =
        b"RVTR\x01\x01\0\0\0\0\0\0\0A\x01\x04\x03\x02\x01\x08\x07\x06\x05\x04\x03\x02\x01\0\0\0\0\0\0\0\0";
    assert_eq!(rt; write(alloc, &trace)?.as_slice(), file.as_slice());
    Ok(())
}
