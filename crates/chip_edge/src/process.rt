// What a process does with its words.
ghost use Rattle.std.specs.Prelude.{◌≡◌, ◌≢◌, List, ℕ, map, IfErr, IfOk, OnErr, string_bytes};
ghost use Rattle.std.specs.IoError.{error_kind};
ghost use Rattle.std.specs.Process.{exit_status};
ghost use Rattle.std.specs.declared.io.ErrorKind.TheVariants.{OutOfMemory};
ghost use Rattle.sec_base.specs.Sink.{IsSilent};
ghost use Rattle.chip_edge.specs.Process.{AreNoText, EndsProcess, IsAnswered, IsOutOfMemory};
ghost use Rattle.chip_words.specs.Words.{texts as texts_of};

use crate::real_files::RealFiles;
use crate::stream::Stream;
use chip_main::{Status, run_words};
use sec_base::{Sink, write_all};
use std::alloc::{AllocError, Global};
use std::process::ExitCode;
use std::rt::{Env, Files};
use std::{env, io};

/// The program: what the words of its process ask for, over real files, standard output and standard error. Its exit
/// code is the status.
pub fn run_main(rt: &HostRuntime) -> ExitCode
    ensures { EndsProcess (exit_status result) }
{
    let mut out = Stream::new(rt.stdout());
    let mut note = Stream::new(rt.stderr());
    ExitCode::from(answer_read(rt, words(rt), &mut out, &mut note))
}

/// The words of a process, the program's name first, where they are text.
pub fn words<R: Env + AllocGlobal>(rt: &R) -> io::Result<Vec<String>> {
    let words = env::args(rt)?.collect(rt.alloc())?;
    Ok(words)
}

/// Answers what was read as the words of a process, by its status. Words that are no text are no request.
pub fn answer_read<R: Files + AllocGlobal, O: Sink, N: Sink>(
    rt: &R,
    read: io::Result<Vec<String>>,
    out: &mut O,
    note: &mut N,
) -> u8
    ensures words { IfOk read (λ words. IsAnswered (map string_bytes words.items)
        (O.state out.old) (O.state out.new) (N.state note.old) (N.state note.new) result) }
    ensures no_memory { IfErr read (λ error. error_kind error ≡ OutOfMemory →
        IsOutOfMemory (O.state out.old) (O.state out.new) (N.state note.old) (N.state note.new)
        result) }
    ensures no_text { IfErr read (λ error. error_kind error ≢ OutOfMemory →
        AreNoText (O.state out.old) (O.state out.new) (N.state note.old) (N.state note.new)
        result) }
    ensures refused { OnErr read (IsSilent (O.state out.old) (O.state out.new)) }
{
    match read {
        Ok(words) => answer(rt, words.as_slice(), out, note),
        Err(error) if error.kind() == io::ErrorKind::OutOfMemory => Status::NoMemory.code(),
        Err(_) => {
            let _ = write_all(note, b"usage\n");
            Status::Usage.code()
        }
    }
}

/// Does what these words ask for over the files of the file system, and answers the status.
pub fn answer<R: Files + AllocGlobal, O: Sink, N: Sink>(
    rt: &R,
    words: &[String],
    out: &mut O,
    note: &mut N,
) -> u8
    ensures { IsAnswered (map string_bytes words.now)
        (O.state out.old) (O.state out.new) (N.state note.old) (N.state note.new) result }
{
    let Ok(texts) = texts(rt.alloc(), words) else {
        return Status::NoMemory.code();
    };
    let mut files = RealFiles::new(rt);
    run_words(rt.alloc(), texts.as_slice(), &mut files, out, note).status
}

// The words as texts.
fn texts<'a>(alloc: Global, words: &'a [String]) -> Result<Vec<&'a str>, AllocError>
    ensures { IfOk result (λ texts. texts_of texts.items ≡ map string_bytes words.now) }
{
    let mut texts = Vec::new(alloc);
    for word in words {
        texts.push(word.as_str())?;
    }
    Ok(texts)
}
