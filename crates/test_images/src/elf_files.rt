// The files were spelled, and the digests of the records computed, by Python's `struct` and `hashlib`.
ghost use Rattle.std.specs.Prelude.{◌<◌, ◌^◌, IsTrue};
ghost use Rattle.sec_base.specs.Segment.{segment_bytes};

use byteorder::{ByteOrder, LittleEndian};
use elf_load::{ElfError, ElfFault, flat, measure, parse, write};
use sec_base::{Bytes, Image, Segment};
use sha2::{Digest, Sha256};
use std::alloc::Global;
use std::fmt::Write;
use std::test::Fail;

const SIZE: u32 = 1_048_576;

// `li a0, 7`, `li a7, 93` and `ecall`, which is all that the flat file has.
const EXIT_7: [u8; 12] = [
    0x13, 0x05, 0x70, 0x00, 0x93, 0x08, 0xd0, 0x05, 0x73, 0x00, 0x00, 0x00,
];

const EXIT_7_FILE: [u8; 96] = [
    0x7f, 0x45, 0x4c, 0x46, 0x01, 0x01, 0x01, 0x00, 0x00, 0x00, 0x00, 0x00, 0x00, 0x00, 0x00, 0x00,
    0x02, 0x00, 0xf3, 0x00, 0x01, 0x00, 0x00, 0x00, 0x00, 0x00, 0x00, 0x00, 0x34, 0x00, 0x00, 0x00,
    0x00, 0x00, 0x00, 0x00, 0x00, 0x00, 0x00, 0x00, 0x34, 0x00, 0x20, 0x00, 0x01, 0x00, 0x00, 0x00,
    0x00, 0x00, 0x00, 0x00, 0x01, 0x00, 0x00, 0x00, 0x54, 0x00, 0x00, 0x00, 0x00, 0x00, 0x00, 0x00,
    0x00, 0x00, 0x00, 0x00, 0x0c, 0x00, 0x00, 0x00, 0x0c, 0x00, 0x00, 0x00, 0x07, 0x00, 0x00, 0x00,
    0x01, 0x00, 0x00, 0x00, 0x13, 0x05, 0x70, 0x00, 0x93, 0x08, 0xd0, 0x05, 0x73, 0x00, 0x00, 0x00,
];

// At 0 the letter a 8 times and 8 zeros, and at 4 the letter b 4 times. It begins at 4.
const OVERLAPPING: [u8; 128] = [
    0x7f, 0x45, 0x4c, 0x46, 0x01, 0x01, 0x01, 0x00, 0x00, 0x00, 0x00, 0x00, 0x00, 0x00, 0x00, 0x00,
    0x02, 0x00, 0xf3, 0x00, 0x01, 0x00, 0x00, 0x00, 0x04, 0x00, 0x00, 0x00, 0x34, 0x00, 0x00, 0x00,
    0x00, 0x00, 0x00, 0x00, 0x00, 0x00, 0x00, 0x00, 0x34, 0x00, 0x20, 0x00, 0x02, 0x00, 0x00, 0x00,
    0x00, 0x00, 0x00, 0x00, 0x01, 0x00, 0x00, 0x00, 0x74, 0x00, 0x00, 0x00, 0x00, 0x00, 0x00, 0x00,
    0x00, 0x00, 0x00, 0x00, 0x08, 0x00, 0x00, 0x00, 0x10, 0x00, 0x00, 0x00, 0x07, 0x00, 0x00, 0x00,
    0x01, 0x00, 0x00, 0x00, 0x01, 0x00, 0x00, 0x00, 0x7c, 0x00, 0x00, 0x00, 0x04, 0x00, 0x00, 0x00,
    0x04, 0x00, 0x00, 0x00, 0x04, 0x00, 0x00, 0x00, 0x04, 0x00, 0x00, 0x00, 0x07, 0x00, 0x00, 0x00,
    0x01, 0x00, 0x00, 0x00, 0x61, 0x61, 0x61, 0x61, 0x61, 0x61, 0x61, 0x61, 0x62, 0x62, 0x62, 0x62,
];

// The bytes as digits, two for each.
fn digits(rt: &HostRuntime, bytes: &[u8]) -> Result<String, Fail> {
    let mut text = String::new(rt.alloc());
    for byte in bytes {
        write!(text, "{byte:02x}")?;
    }
    Ok(text)
}

// Whether the segments have fewer than 2^31 bytes together.
fn are_small(segments: &[Segment]) -> bool
    ensures { IsTrue result → segment_bytes segments.now < 2 ^ 31 }
{
    let mut left = 0x8000_0000;
    for segment in segments {
        let length = segment.bytes.len();
        if length >= left {
            return false;
        }
        left -= length;
    }
    true
}

// The ELF file of a program.
fn written(alloc: Global, image: &Image) -> Result<Bytes, Fail> {
    if !are_small(image.segments.as_slice()) {
        return Err(Fail::from("too many bytes"));
    }
    let file = write(alloc, image).ok().ok_or("no memory")?;
    Ok(file)
}

#[test]
fn a_file_and_its_program(rt: HostRuntime) -> Result<(), Fail> {
    let image = parse(rt.alloc(), &EXIT_7_FILE, SIZE)?;
    assert_eq!(rt; image.entry, 0);
    assert_eq!(rt; image.size, SIZE);
    assert_eq!(rt; image.segments.len(), 1);
    let segment = image.segments.get(0).ok_or("no segment")?;
    assert_eq!(rt; (segment.addr, segment.length), (0, 12));
    assert_eq!(rt; segment.bytes.as_slice(), EXIT_7.as_slice());
    let file = written(rt.alloc(), &image)?;
    assert_eq!(rt; file.as_slice(), EXIT_7_FILE.as_slice());
    let digest = "16f50c65e5d32ef308c297c15f9cdae14c3f482dd9e03853348a497b7abe0a1a";
    assert_eq!(rt; digits(&rt, &measure(&image))?.as_str(), digest);
    let flat = flat(rt.alloc(), &EXIT_7, SIZE)?;
    assert_eq!(rt; digits(&rt, &measure(&flat))?.as_str(), digest);
    Ok(())
}

// Its entry, the size, one segment; the segment's address, its lengths and its bytes.
const EXIT_7_RECORD: [u8; 36] = [
    0x00, 0x00, 0x00, 0x00, 0x00, 0x00, 0x10, 0x00, 0x01, 0x00, 0x00, 0x00, 0x00, 0x00, 0x00, 0x00,
    0x0c, 0x00, 0x00, 0x00, 0x0c, 0x00, 0x00, 0x00, 0x13, 0x05, 0x70, 0x00, 0x93, 0x08, 0xd0, 0x05,
    0x73, 0x00, 0x00, 0x00,
];

#[test]
fn a_measurement_is_the_digest_of_the_record(rt: HostRuntime) -> Result<(), Fail> {
    let image = flat(rt.alloc(), &EXIT_7, SIZE)?;
    let mut hasher = Sha256::new();
    hasher.update(EXIT_7_RECORD);
    assert_eq!(rt; measure(&image), hasher.finalize());
    Ok(())
}

#[test]
fn segments_that_overlap_stay_in_order(rt: HostRuntime) -> Result<(), Fail> {
    let image = parse(rt.alloc(), &OVERLAPPING, 16384)?;
    assert_eq!(rt; image.entry, 4);
    assert_eq!(rt; image.segments.len(), 2);
    let expected: [(u32, u32, &[u8]); 2] = [(0, 16, b"aaaaaaaa"), (4, 4, b"bbbb")];
    for (at, (addr, length, bytes)) in expected.into_iter().enumerate() {
        let segment = image.segments.get(at as u64).ok_or("no segment")?;
        assert_eq!(rt; (segment.addr, segment.length), (addr, length));
        assert_eq!(rt; segment.bytes.as_slice(), bytes);
    }
    let file = written(rt.alloc(), &image)?;
    assert_eq!(rt; file.as_slice(), OVERLAPPING.as_slice());
    assert_eq!(rt;
        digits(&rt, &measure(&image))?.as_str(),
        "84c7073c480ebd26f8d12ce7b4637861350afadecb6ed041cacd0ea6f30fa88f"
    );
    Ok(())
}

// How many segments the file of `EXIT_7` has, where it is cut to a length and these numbers of four bytes are put
// at these places.
fn segments_with(rt: &HostRuntime, length: usize, edits: &[(u8, u32)]) -> Result<u64, ElfError> {
    let mut file = EXIT_7_FILE;
    for (at, word) in edits {
        let at = usize::from(*at);
        if at + 4 <= file.len() {
            LittleEndian::write_u32(&mut file[at..], *word);
        }
    }
    let image = parse(rt.alloc(), &file[..length.min(file.len())], SIZE)?;
    Ok(image.segments.len())
}

// Case, length, edits, and the number of segments or the refusal.
const ROWS: [(&str, usize, &[(u8, u32)], Result<u64, ElfFault>); 21] = [
    ("51 bytes", 51, &[], Err(ElfFault::Short)),
    ("letters ELG", 96, &[(0, 0x474c_457f)], Err(ElfFault::Magic)),
    ("64 bits", 96, &[(4, 0x0001_0102)], Err(ElfFault::Class)),
    (
        "shared object",
        96,
        &[(16, 0x00f3_0003)],
        Err(ElfFault::Kind),
    ),
    (
        "machine 62",
        96,
        &[(16, 0x003e_0002)],
        Err(ElfFault::Machine),
    ),
    ("flags 1", 96, &[(36, 1)], Err(ElfFault::Compressed)),
    ("flags 2", 96, &[(36, 2)], Ok(1)),
    ("number 65", 96, &[(44, 65)], Err(ElfFault::Table)),
    (
        "table at ffffffff",
        96,
        &[(28, 0xffff_ffff)],
        Err(ElfFault::Table),
    ),
    (
        "the same, number 0",
        96,
        &[(28, 0xffff_ffff), (42, 0)],
        Ok(0),
    ),
    ("interpreter", 96, &[(52, 3)], Err(ElfFault::Interp)),
    (
        "bytes longer than memory",
        96,
        &[(72, 11)],
        Err(ElfFault::Segment),
    ),
    (
        "bytes from fffffffc on",
        96,
        &[(56, 0xffff_fffc)],
        Err(ElfFault::Segment),
    ),
    (
        "one byte at ffffffff",
        96,
        &[(60, 0xffff_ffff), (68, 0), (72, 1)],
        Err(ElfFault::Segment),
    ),
    (
        "no bytes, past the file",
        96,
        &[(56, 0xffff_ffff), (68, 0)],
        Ok(1),
    ),
    (
        "nothing at the size",
        96,
        &[(60, SIZE), (68, 0), (72, 0)],
        Ok(1),
    ),
    ("entry 2", 96, &[(24, 2)], Err(ElfFault::Entry)),
    ("entry the size", 96, &[(24, SIZE)], Err(ElfFault::Entry)),
    (
        "entry fffffffc",
        96,
        &[(24, 0xffff_fffc)],
        Err(ElfFault::Entry),
    ),
    ("entry the size - 4", 96, &[(24, SIZE - 4)], Ok(1)),
    (
        "entry 2 and a misfit",
        96,
        &[(24, 2), (72, 11)],
        Err(ElfFault::Segment),
    ),
];

#[test]
fn a_file_is_taken_or_refused_by_its_first_fault(rt: HostRuntime) {
    for (case, length, edits, expected) in &ROWS {
        let expected = expected.map_err(ElfError::Fault);
        assert_eq!(rt; segments_with(&rt, *length, edits), expected, "{case}");
    }
}

#[test]
fn texts_of_errors(rt: HostRuntime) -> Result<(), Fail> {
    let refused = ElfError::Fault(ElfFault::Machine);
    assert_eq!(rt; format!(in rt.alloc(); "{refused}")?.as_str(), "Machine");
    let stopped = ElfError::NoMemory;
    assert_eq!(rt; format!(in rt.alloc(); "{stopped}")?.as_str(), "no memory");
    Ok(())
}

#[test]
fn flat_files_up_to_the_size(rt: HostRuntime) -> Result<(), Fail> {
    let file = [0; 16385];
    let image = flat(rt.alloc(), &file[1..], 16384)?;
    assert_eq!(rt; (image.entry, image.segments.len()), (0, 1));
    let refusal = flat(rt.alloc(), &file, 16384).err();
    assert_eq!(rt; refusal, Some(ElfError::Fault(ElfFault::Segment)));
    assert_eq!(rt;
        format!(in rt.alloc(); "{}", ElfFault::Segment)?.as_str(),
        "Segment"
    );
    assert_eq!(rt; ElfFault::Segment.code(), 9);
    Ok(())
}
