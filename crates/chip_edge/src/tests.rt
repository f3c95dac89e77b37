// The adapters on what every Linux has, on writers that fail, and on words that are given in place of a process's.
use crate::process::{answer_read, words};
use crate::real_files::RealFiles;
use crate::stream::Stream;
use sec_base::{Bytes, Files, MemorySink, NoMemory, ReadStop, Sink, SinkStop};
use std::env::{Env, FillError};
use std::io;
use std::io::Write;
use std::test::Fail;

// A writer that takes at most so many bytes of a piece, and fails where it would take none.
#[derive(Drop)]
struct Taking {
    most: usize,
    fails: bool,
}

impl Write for Taking {
    fn write(&mut self, buf: &[u8]) -> io::Result<usize> {
        if self.fails {
            return Err(io::Error::from(io::ErrorKind::Other));
        }
        Ok(self.most.min(buf.len()))
    }

    fn flush(&mut self) -> io::Result<()> {
        Ok(())
    }
}

#[test]
fn writes_are_taken_in_part_or_fail(rt: HostRuntime) {
    let rows = [
        (9, false, Ok(3)),
        (2, false, Ok(2)),
        (0, false, Err(SinkStop::Failed)),
        (9, true, Err(SinkStop::Failed)),
    ];
    for (most, fails, answer) in rows {
        let mut stream = Stream::new(Taking { most, fails });
        assert_eq!(rt; stream.write(b"abc"), answer, "at most {most}");
        assert_eq!(rt; stream.write(b""), Ok(0), "nothing");
    }
}

fn length(answer: Result<Bytes, ReadStop>) -> Result<usize, ReadStop> {
    answer.map(|bytes| bytes.len())
}

#[test]
fn files_are_read_up_to_a_limit(rt: HostRuntime) {
    let rows = [
        ("/dev/null", 0, Ok(0)),
        ("/dev/zero", 100, Err(ReadStop::Long)),
        ("/", 100, Err(ReadStop::Failed)),
        ("/dev/null/absent", 100, Err(ReadStop::Failed)),
        ("/absent/name", 100, Err(ReadStop::Failed)),
        ("/proc/self/exe", 4_096, Err(ReadStop::Long)),
        ("/proc/self/exe", 100_000, Err(ReadStop::Long)),
    ];
    let mut files = RealFiles::new(&rt);
    for (name, limit, answer) in rows {
        assert_eq!(rt;
            length(files.read(rt.alloc(), name, limit)),
            answer,
            "{name}"
        );
    }
}

// A run of an empty file, with each of its options.
const RUN: [&[u8]; 22] = [
    b"chip",
    b"run",
    b"/dev/null",
    b"--flat",
    b"--layout",
    b"1",
    b"--levels",
    b"1",
    b"--steps",
    b"3",
    b"--input",
    b"/dev/null",
    b"--script",
    b"/dev/null",
    b"--tags",
    b"xor",
    b"--key",
    b"202122232425262728292a2b2c2d2e2f303132333435363738393a3b3c3d3e3f",
    b"--nonce",
    b"404142434445464748494a4b4c4d4e4f",
    b"--page-limit",
    b"5",
];

// The words of a process, the program's name first.
#[derive(Clone, Copy)]
struct Given<'a> {
    words: &'a [&'a [u8]],
}

impl Env for Given<'_> {
    fn arg(&self, i: usize, buf: &mut [u8]) -> Result<usize, FillError> {
        if i >= self.words.len() {
            return Err(FillError::NotPresent);
        }
        let word = self.words[i];
        if word.len() > buf.len() {
            return Err(FillError::TooLong);
        }
        buf[..word.len()].copy_from_slice(word);
        Ok(word.len())
    }

    fn var(&self, _name: &str, _buf: &mut [u8]) -> Result<usize, FillError> {
        Err(FillError::NotPresent)
    }

    fn var_at(&self, _i: usize, _buf: &mut [u8]) -> Result<usize, FillError> {
        Err(FillError::NotPresent)
    }
}

#[test]
fn each_word_is_read(rt: HostRuntime) -> Result<(), Fail> {
    let process = (Given { words: &RUN }, rt.alloc());
    let read = words(&process)?;
    assert_eq!(rt; read.len(), RUN.len());
    for (word, given) in read.iter().zip(RUN) {
        assert_eq!(rt; word.as_bytes(), given);
    }
    Ok(())
}

// The status of a process of these words, and what it tells.
fn answered(rt: &HostRuntime, given: &[&[u8]]) -> Result<(u8, MemorySink), NoMemory> {
    let process = (Given { words: given }, rt.alloc());
    let mut out = MemorySink::new(rt.alloc(), &[])?;
    let mut note = MemorySink::new(rt.alloc(), &[])?;
    let status = answer_read(rt, words(&process), &mut out, &mut note);
    Ok((status, note))
}

// Memory of zeros traps at its first word, which is no instruction.
#[test]
fn each_option_is_answered(rt: HostRuntime) -> Result<(), Fail> {
    let (status, note) = answered(&rt, &RUN)?;
    assert_eq!(rt; status, 1);
    assert!(rt;
        note.bytes()
            .starts_with(b"trapped illegal pc 00000000\nretired 0\nlies 0\nreport ")
    );
    let mut wrong = RUN;
    wrong[21] = b"none".as_slice();
    let (status, note) = answered(&rt, &wrong)?;
    assert_eq!(rt; status, 2);
    assert!(rt;
        note.bytes().starts_with(b"usage\nerror: invalid value 'none' for '--page-limit <N>'")
    );
    Ok(())
}

#[test]
fn words_that_are_no_text_are_no_request(rt: HostRuntime) -> Result<(), Fail> {
    let given: [&[u8]; 3] = [b"chip", b"run", b"\xff"];
    let (status, note) = answered(&rt, &given)?;
    assert_eq!(rt; status, 2);
    assert_eq!(rt; note.bytes(), b"usage\n".as_slice());
    Ok(())
}
