// Checks of reports. The reports are from an independent model in Python (hashlib, hmac, cryptography).
use chip_cases::{
    Call, Case, FIELDS, REPORT, REPORT_OF_KEY, REPORT_OF_LAYOUT_2, REPORT_OF_VERSION_1,
    REPORT_TARGET, Shown, VERIFY, call_file, edited, shows,
};
use sec_base::NoMemory;
use std::alloc::Global;
use std::fmt::Debug;
use std::process::Abort;
use std::test::Fail;

// What a call shows. A check of a report runs nothing. It is the only function here that drops a call.
fn check_call<R>(
    rt: &impl Abort,
    call: Result<Call, NoMemory>,
    shown: Shown<'_>,
    row: &R,
) -> Result<(), NoMemory>
where
    R: Debug,
{
    let call = call?;
    let answer = (call.shown(), call.done.run.is_none());
    assert_eq!(rt; answer, (shown, true), "{row:?}");
    Ok(())
}

const FIELDS_OF_TRAP: &[u8] = b"\
measurement 62d39fefb0b76f925ef988ba3f0e3bb96ab2a99b5d9d8f68670621fb0a7e2333
input e3b0c44298fc1c149afbf4c8996fb92427ae41e4649b934ca495991b7852b855
output e3b0c44298fc1c149afbf4c8996fb92427ae41e4649b934ca495991b7852b855
retired 1
ending 1 code 2
nonce 00000000000000000000000000000000
layout 1
";

const VERIFY_UNDER_KEY: [&str; 5] = [
    "chip",
    "verify",
    "f",
    "--key",
    "fffefdfcfbfaf9f8f7f6f5f4f3f2f1f0efeeedecebeae9e8e7e6e5e4e3e2e1e0",
];

const FIELDS_OF_KEY: &[u8] = b"\
measurement 16f50c65e5d32ef308c297c15f9cdae14c3f482dd9e03853348a497b7abe0a1a
input e3b0c44298fc1c149afbf4c8996fb92427ae41e4649b934ca495991b7852b855
output e3b0c44298fc1c149afbf4c8996fb92427ae41e4649b934ca495991b7852b855
retired 3
ending 0 code 7
nonce 101112131415161718191a1b1c1d1e1f
layout 1
";

// The memory of three levels under layout 2 has twice the bytes of one of four under layout 1, so it is measured otherwise.
const FIELDS_OF_LAYOUT_2: &[u8] = b"\
measurement 8d5b9b9e535a63c6ce074ea6855f02a73af1b973c7494775a3a55423c9e6e1bf
input e3b0c44298fc1c149afbf4c8996fb92427ae41e4649b934ca495991b7852b855
output e3b0c44298fc1c149afbf4c8996fb92427ae41e4649b934ca495991b7852b855
retired 3
ending 0 code 7
nonce 00000000000000000000000000000000
layout 2
";

// A report of version 1 names no layout.
const FIELDS_OF_VERSION_1: &[u8] = b"\
measurement 16f50c65e5d32ef308c297c15f9cdae14c3f482dd9e03853348a497b7abe0a1a
input e3b0c44298fc1c149afbf4c8996fb92427ae41e4649b934ca495991b7852b855
output e3b0c44298fc1c149afbf4c8996fb92427ae41e4649b934ca495991b7852b855
retired 3
ending 0 code 7
nonce 00000000000000000000000000000000
";

const CASES: [Case<'static>; 8] = [
    Case {
        words: &VERIFY,
        bytes: REPORT,
        printed: FIELDS,
        told: b"",
        status: 0,
    },
    Case {
        words: &VERIFY,
        bytes: REPORT_OF_LAYOUT_2,
        printed: FIELDS_OF_LAYOUT_2,
        told: b"",
        status: 0,
    },
    Case {
        words: &VERIFY,
        bytes: REPORT_OF_VERSION_1,
        printed: FIELDS_OF_VERSION_1,
        told: b"",
        status: 0,
    },
    Case {
        words: &VERIFY,
        bytes: REPORT_TARGET,
        printed: FIELDS_OF_TRAP,
        told: b"",
        status: 0,
    },
    Case {
        words: &VERIFY_UNDER_KEY,
        bytes: REPORT_OF_KEY,
        printed: FIELDS_OF_KEY,
        told: b"",
        status: 0,
    },
    Case {
        words: &VERIFY,
        bytes: REPORT_OF_KEY,
        printed: b"",
        told: b"report tag differs\n",
        status: 11,
    },
    Case {
        words: &VERIFY_UNDER_KEY,
        bytes: REPORT,
        printed: b"",
        told: b"report tag differs\n",
        status: 11,
    },
    Case {
        words: &VERIFY,
        bytes: b"",
        printed: b"",
        told: b"refused report 1 Length\n",
        status: 3,
    },
];

#[test]
fn reports_are_checked(rt: HostRuntime) -> Result<(), Fail> {
    for case in CASES {
        check_call(&rt, case.call(rt.alloc()), case.shown(), &case.words)?;
    }
    Ok(())
}

// A digit of the report, what stands there in its place, what is told, and the status.
const EDITS: [((usize, u8), &[u8], u8); 7] = [
    ((317, b'g'), b"refused report 2 Digit\n", 3),
    ((1, b'1'), b"refused report 3 Version\n", 3),
    ((3, b'0'), b"refused report 3 Version\n", 3),
    ((3, b'3'), b"refused report 3 Version\n", 3),
    ((3, b'2'), b"report tag differs\n", 11),
    ((317, b'8'), b"report tag differs\n", 11),
    ((4, b'2'), b"report tag differs\n", 11),
];

fn call_edited(alloc: Global, edit: (usize, u8)) -> Result<Call, NoMemory> {
    let text = edited(alloc, REPORT, &[edit])?;
    call_file(alloc, &VERIFY, text.as_slice())
}

#[test]
fn each_digit_is_checked(rt: HostRuntime) -> Result<(), Fail> {
    for (edit, told, status) in EDITS {
        let call = call_edited(rt.alloc(), edit);
        check_call(&rt, call, shows(b"", told, status), &edit)?;
    }
    Ok(())
}

// A call on the report in upper case and with one line feed.
fn call_upper(alloc: Global) -> Result<Call, NoMemory> {
    let mut text = REPORT.as_slice().to_ascii_uppercase(alloc)?;
    text.push(b'\n')?;
    call_file(alloc, &VERIFY, text.as_slice())
}

// So it is the same report; with its last digit cut off it is none.
#[test]
fn a_report_has_its_form(rt: HostRuntime) -> Result<(), Fail> {
    let call = call_upper(rt.alloc());
    check_call(&rt, call, shows(FIELDS, b"", 0), &"upper case")?;
    let report = REPORT.as_slice();
    let call = call_file(rt.alloc(), &VERIFY, &report[..317]);
    let told = b"refused report 1 Length\n";
    check_call(&rt, call, shows(b"", told, 3), &"cut off")?;
    Ok(())
}
