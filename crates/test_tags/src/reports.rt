// The texts are from Python 3.11: its `struct`, `hashlib` and `hmac`.
ghost use Rattle.std.specs.Prelude.{◌≤◌};

use attest_report::{
    Report, ReportError, Signed, ending_and_code, layout_number, report_bytes, report2_bytes,
    verify, write_report, write_report2,
};
use sec_base::{Cause, Ending, Layout, Place};
use std::test::Fail;

// The HMAC of `report` under the device key 00 01 02 .. 1f.
const KEY: [u8; 32] = [
    0xf3, 0x5a, 0x46, 0xdc, 0x46, 0x4f, 0xfa, 0xe9, 0x3b, 0x3f, 0xbe, 0xe6, 0x78, 0x96, 0xfe, 0x72,
    0x5f, 0x54, 0x07, 0x3e, 0x89, 0x92, 0x07, 0xcd, 0x31, 0x98, 0x16, 0x35, 0x34, 0xa0, 0x66, 0x83,
];

// The SHA-256 of nothing.
const EMPTY: [u8; 32] = [
    0xe3, 0xb0, 0xc4, 0x42, 0x98, 0xfc, 0x1c, 0x14, 0x9a, 0xfb, 0xf4, 0xc8, 0x99, 0x6f, 0xb9, 0x24,
    0x27, 0xae, 0x41, 0xe4, 0x64, 0x9b, 0x93, 0x4c, 0xa4, 0x95, 0x99, 0x1b, 0x78, 0x52, 0xb8, 0x55,
];

// A run of `li a0, 7`, `li a7, 93` and `ecall` in 1 MiB, with no input and the nonce 0.
const EXIT_7: Report = Report {
    measurement: [
        0x16, 0xf5, 0x0c, 0x65, 0xe5, 0xd3, 0x2e, 0xf3, 0x08, 0xc2, 0x97, 0xc1, 0x5f, 0x9c, 0xda,
        0xe1, 0x4c, 0x3f, 0x48, 0x2d, 0xd9, 0xe0, 0x38, 0x53, 0x34, 0x8a, 0x49, 0x7b, 0x7a, 0xbe,
        0x0a, 0x1a,
    ],
    input_digest: EMPTY,
    output_digest: EMPTY,
    retired: 3,
    ending: 0,
    code: 7,
    nonce: [0; 16],
};

const EXIT_7_TEXT: &[u8; 316] = b"\
    0116f50c65e5d32ef308c297c15f9cdae14c3f482dd9e03853348a497b7abe0a1a\
    e3b0c44298fc1c149afbf4c8996fb92427ae41e4649b934ca495991b7852b855\
    e3b0c44298fc1c149afbf4c8996fb92427ae41e4649b934ca495991b7852b855\
    0300000000000000000700000000000000000000000000000000000000\
    a479401f853b37d1c441ce4553c6f3583bba91d772f3dcafbc7b506825d4dd77";

// The same run, whose tree has layout One.
const EXIT_7_ONE_TEXT: &[u8; 318] = b"\
    020116f50c65e5d32ef308c297c15f9cdae14c3f482dd9e03853348a497b7abe0a1a\
    e3b0c44298fc1c149afbf4c8996fb92427ae41e4649b934ca495991b7852b855\
    e3b0c44298fc1c149afbf4c8996fb92427ae41e4649b934ca495991b7852b855\
    0300000000000000000700000000000000000000000000000000000000\
    81e559c48eb173a699be68f86f6a16eaf31a8f353212150f6009039db0c6161c";

// The same program in 2 MiB, whose tree has layout Two.
const EXIT_7_IN_2_MIB: Report = Report {
    measurement: [
        0x8d, 0x5b, 0x9b, 0x9e, 0x53, 0x5a, 0x63, 0xc6, 0xce, 0x07, 0x4e, 0xa6, 0x85, 0x5f, 0x02,
        0xa7, 0x3a, 0xf1, 0xb9, 0x73, 0xc7, 0x49, 0x47, 0x75, 0xa3, 0xa5, 0x54, 0x23, 0xc9, 0xe6,
        0xe1, 0xbf,
    ],
    input_digest: EMPTY,
    output_digest: EMPTY,
    retired: 3,
    ending: 0,
    code: 7,
    nonce: [0; 16],
};

const EXIT_7_TWO_TEXT: &[u8; 318] = b"\
    02028d5b9b9e535a63c6ce074ea6855f02a73af1b973c7494775a3a55423c9e6e1bf\
    e3b0c44298fc1c149afbf4c8996fb92427ae41e4649b934ca495991b7852b855\
    e3b0c44298fc1c149afbf4c8996fb92427ae41e4649b934ca495991b7852b855\
    0300000000000000000700000000000000000000000000000000000000\
    c386227183193f3eb02daa84dbd2c05eaa81f4005bbf52481d54c288b6c0d6da";

// A report of version 1.
fn first_version(report: Report) -> Signed {
    Signed {
        report,
        layout: None,
    }
}

// A report of version 2.
fn second_version(report: Report, layout: Layout) -> Signed {
    Signed {
        report,
        layout: Some(layout),
    }
}

// The bytes `first`, `first` + 1 and so on.
fn counting<const N: usize>(first: u8) -> [u8; N]
    requires { N ≤ 256 }
{
    let mut bytes = [0; N];
    for i in 0..N {
        bytes[i] = first.wrapping_add(i as u8);
    }
    bytes
}

// The text of a report's bytes of version 1.
fn written(rt: &HostRuntime, bytes: &[u8; 158]) -> Result<Vec<u8>, Fail> {
    let text = write_report(rt.alloc(), bytes).ok().ok_or("no memory")?;
    Ok(text.into_vec())
}

// The text of a report's bytes of version 2.
fn written2(rt: &HostRuntime, bytes: &[u8; 159]) -> Result<Vec<u8>, Fail> {
    let text = write_report2(rt.alloc(), bytes).ok().ok_or("no memory")?;
    Ok(text.into_vec())
}

#[test]
fn a_run_that_exits_with_7(rt: HostRuntime) -> Result<(), Fail> {
    let text = written(&rt, &report_bytes(&EXIT_7, &KEY))?;
    assert_eq!(rt; text.as_slice(), EXIT_7_TEXT.as_slice());
    assert_eq!(rt; verify(EXIT_7_TEXT, &KEY), Ok(first_version(EXIT_7)));
    Ok(())
}

#[test]
fn version_2_names_the_layout(rt: HostRuntime) -> Result<(), Fail> {
    let cases = [
        (EXIT_7, Layout::One, EXIT_7_ONE_TEXT),
        (EXIT_7_IN_2_MIB, Layout::Two, EXIT_7_TWO_TEXT),
    ];
    for (report, layout, expected) in cases {
        let text = written2(&rt, &report2_bytes(&report, layout, &KEY))?;
        assert_eq!(rt; text.as_slice(), expected.as_slice());
        assert_eq!(rt; verify(expected, &KEY), Ok(second_version(report, layout)));
    }
    Ok(())
}

// No two bytes of the fields are the same.
#[test]
fn each_field_has_its_place(rt: HostRuntime) -> Result<(), Fail> {
    let report = Report {
        measurement: counting(0x10),
        input_digest: counting(0x30),
        output_digest: counting(0x50),
        retired: 0x7776_7574_7372_7170,
        ending: 0x78,
        code: 0x7c7b_7a79,
        nonce: counting(0x80),
    };
    let key = counting(0xe0);
    let expected = b"\
        01101112131415161718191a1b1c1d1e1f202122232425262728292a2b2c2d2e2f\
        303132333435363738393a3b3c3d3e3f404142434445464748494a4b4c4d4e4f\
        505152535455565758595a5b5c5d5e5f606162636465666768696a6b6c6d6e6f\
        707172737475767778797a7b7c808182838485868788898a8b8c8d8e8f\
        1292a4a06a71ddf3ed7fef377ee3a82353a2be49115f6a6e6dd4f5ec27e0f8f7";
    let text = written(&rt, &report_bytes(&report, &key))?;
    assert_eq!(rt; text.as_slice(), expected.as_slice());
    assert_eq!(rt; verify(expected, &key), Ok(first_version(report)));
    Ok(())
}

// The text in capitals and with a line feed.
fn shouted(rt: &HostRuntime, text: &[u8]) -> Result<Vec<u8>, Fail> {
    let mut shouted = Vec::from_slice(rt.alloc(), text)?;
    shouted.push(b'\n')?;
    for digit in shouted.iter_mut() {
        *digit = digit.to_ascii_uppercase();
    }
    Ok(shouted)
}

#[test]
fn capitals_and_one_line_feed_are_taken(rt: HostRuntime) -> Result<(), Fail> {
    let text = shouted(&rt, EXIT_7_TEXT)?;
    assert_eq!(rt; verify(text.as_slice(), &KEY), Ok(first_version(EXIT_7)));
    let text = shouted(&rt, EXIT_7_ONE_TEXT)?;
    assert_eq!(rt;
        verify(text.as_slice(), &KEY),
        Ok(second_version(EXIT_7, Layout::One))
    );
    Ok(())
}

// The text with another digit at a place.
fn with_digit(rt: &HostRuntime, text: &[u8], at: usize, digit: u8) -> Result<Vec<u8>, Fail> {
    let mut text = Vec::from_slice(rt.alloc(), text)?;
    if at < text.len() {
        text[at] = digit;
    }
    Ok(text)
}

// The text and what stands behind it.
fn with_end(rt: &HostRuntime, text: &[u8], end: &[u8]) -> Result<Vec<u8>, Fail> {
    let mut longer = Vec::from_slice(rt.alloc(), text)?;
    longer.extend_from_slice(end)?;
    Ok(longer)
}

#[test]
fn other_lengths_are_refused(rt: HostRuntime) -> Result<(), Fail> {
    let cases: [(&[u8], &[u8]); 11] = [
        (b"", b""),
        (b"", b"\n"),
        (b"", b"g"),
        (&EXIT_7_TEXT[..315], b""),
        // The last digit is a line feed, which is dropped.
        (&EXIT_7_TEXT[..315], b"\n"),
        (EXIT_7_TEXT, b"\n\n"),
        (EXIT_7_TEXT, b"0"),
        (&EXIT_7_ONE_TEXT[..317], b""),
        (&EXIT_7_ONE_TEXT[..317], b"\n"),
        (EXIT_7_ONE_TEXT, b"\n\n"),
        (EXIT_7_ONE_TEXT, b"0"),
    ];
    for (text, end) in cases {
        let text = with_end(&rt, text, end)?;
        assert_eq!(rt; verify(text.as_slice(), &KEY), Err(ReportError::Length));
    }
    Ok(())
}

#[test]
fn the_first_refusal_is_told(rt: HostRuntime) -> Result<(), Fail> {
    let cases: [(&[u8], usize, u8, ReportError); 16] = [
        (EXIT_7_TEXT, 315, b'g', ReportError::Digit),
        (EXIT_7_TEXT, 1, b'/', ReportError::Digit),
        (EXIT_7_TEXT, 0, b'\n', ReportError::Digit),
        (EXIT_7_TEXT, 1, b'2', ReportError::Version),
        (EXIT_7_TEXT, 0, b'8', ReportError::Version),
        (EXIT_7_TEXT, 315, b'6', ReportError::Tag),
        (EXIT_7_ONE_TEXT, 317, b'g', ReportError::Digit),
        (EXIT_7_ONE_TEXT, 3, b'g', ReportError::Digit),
        (EXIT_7_ONE_TEXT, 1, b'1', ReportError::Version),
        (EXIT_7_ONE_TEXT, 1, b'3', ReportError::Version),
        (EXIT_7_ONE_TEXT, 3, b'0', ReportError::Version),
        (EXIT_7_ONE_TEXT, 3, b'3', ReportError::Version),
        (EXIT_7_ONE_TEXT, 2, b'1', ReportError::Version),
        (EXIT_7_ONE_TEXT, 3, b'2', ReportError::Tag),
        (EXIT_7_ONE_TEXT, 317, b'd', ReportError::Tag),
        // The first 316 digits begin with 02.
        (&EXIT_7_ONE_TEXT[..316], 1, b'2', ReportError::Version),
    ];
    for (text, at, digit, refusal) in cases {
        let text = with_digit(&rt, text, at, digit)?;
        assert_eq!(rt; verify(text.as_slice(), &KEY), Err(refusal));
    }
    assert_eq!(rt; verify(EXIT_7_TEXT, &EMPTY), Err(ReportError::Tag));
    Ok(())
}

#[test]
fn each_byte_of_version_1_counts(rt: HostRuntime) -> Result<(), Fail> {
    let bytes = report_bytes(&EXIT_7, &KEY);
    for at in 0..158 {
        let mut changed = bytes;
        changed[at] ^= 1;
        let text = written(&rt, &changed)?;
        let refusal = if at == 0 {
            ReportError::Version
        } else {
            ReportError::Tag
        };
        assert_eq!(rt; verify(text.as_slice(), &KEY), Err(refusal));
    }
    Ok(())
}

#[test]
fn each_byte_of_version_2_counts(rt: HostRuntime) -> Result<(), Fail> {
    let bytes = report2_bytes(&EXIT_7, Layout::One, &KEY);
    for at in 0..159 {
        let mut changed = bytes;
        changed[at] ^= 1;
        let text = written2(&rt, &changed)?;
        let refusal = if at < 2 {
            ReportError::Version
        } else {
            ReportError::Tag
        };
        assert_eq!(rt; verify(text.as_slice(), &KEY), Err(refusal));
    }
    Ok(())
}

#[test]
fn refusals_have_numbers_and_names(rt: HostRuntime) {
    let cases = [
        (ReportError::Length, 1, "Length"),
        (ReportError::Digit, 2, "Digit"),
        (ReportError::Version, 3, "Version"),
        (ReportError::Tag, 4, "Tag"),
    ];
    for (refusal, code, name) in cases {
        assert_eq!(rt; refusal.code(), code);
        assert_eq!(rt; refusal.name(), name);
    }
}

#[test]
fn layouts_have_numbers(rt: HostRuntime) {
    assert_eq!(rt; layout_number(Layout::One), 1);
    assert_eq!(rt; layout_number(Layout::Two), 2);
}

fn trapped(cause: Cause) -> Ending {
    Ending::Trapped { cause, pc: 64 }
}

#[test]
fn endings_have_numbers_and_codes(rt: HostRuntime) {
    let cases = [
        (Ending::Halted(7), Some((0, 7))),
        (trapped(Cause::Illegal), Some((1, 1))),
        (trapped(Cause::MisalignedTarget), Some((1, 2))),
        (trapped(Cause::MisalignedData), Some((1, 3))),
        (trapped(Cause::OutsideMemory), Some((1, 4))),
        (trapped(Cause::Breakpoint), Some((1, 5))),
        (Ending::OutOfSteps, Some((4, 0))),
        (Ending::Tampered(Place::Line(9)), Some((5, 0))),
        (Ending::Spent(9), Some((6, 0))),
        (Ending::WriteFault, None),
        (Ending::NoMemory, None),
    ];
    for (ending, told) in cases {
        assert_eq!(rt; ending_and_code(ending), told, "{ending}");
    }
}
