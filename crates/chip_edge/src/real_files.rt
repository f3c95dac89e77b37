// The files of the file system.
ghost use Rattle.std.specs.Prelude.{◌≡◌, ◌≢◌, ◌<◌, ◌≤◌, ◌++◌, ◌∷◌, [], Err, None, length, IfErr, IfOk, IfSome, IsErr, OnOk, OnErr};
ghost use Rattle.std.specs.IoError.{error_kind};
ghost use Rattle.std.specs.declared.io.ErrorKind.TheVariants.{OutOfMemory};
ghost use Rattle.sec_base.specs.Count.{top};
ghost use Rattle.sec_base.specs.declared.files.ReadStop.TheVariants.{Failed, Long, NoMemory as no_memory};

use sec_base::{Bytes, NoMemory, ReadStop};
use std::alloc::Global;
use std::io::Read;
use std::rt::Files;
use std::{fs, io};

/// The files of the file system, whose bytes aren't told. Each read that fails is a fault.
#[derive(Drop)]
pub struct RealFiles<'a, R> {
    rt: &'a R,
    faults: u64,
    taken: u64,
    asked: Vec<Bytes>,
}

impl<'a, R: Files + AllocGlobal> RealFiles<'a, R> {
    /// Nothing was asked of them yet.
    pub fn new(rt: &'a R) -> Self
        ensures faults { result.faults ≡ 0 }
        ensures taken { result.taken ≡ 0 }
        ensures asked { result.asked.items ≡ [] }
    {
        RealFiles {
            rt,
            faults: 0,
            taken: 0,
            asked: Vec::new(rt.alloc()),
        }
    }
}

impl<R: Files> sec_base::Files for RealFiles<'_, R> {
    ghost state = { λ files. record {
      held = None;
      faults = files.faults;
      taken = files.taken;
      asked = files.asked.items;
    } };

    fn read(&mut self, alloc: Global, name: &str, limit: u64) -> Result<Bytes, ReadStop> {
        if ask(&mut self.asked, alloc, name).is_err() {
            return Err(ReadStop::NoMemory);
        }
        match read_file(self.rt, alloc, name, limit) {
            Ok(bytes) => {
                self.taken = self.taken.saturating_add(bytes.len() as u64);
                Ok(bytes)
            }
            Err(ReadStop::Failed) => {
                self.faults = self.faults.saturating_add(1);
                Err(ReadStop::Failed)
            }
            Err(ReadStop::Long) => {
                self.taken = self.taken.saturating_add(limit).saturating_add(1);
                Err(ReadStop::Long)
            }
            Err(ReadStop::NoMemory) => Err(ReadStop::NoMemory),
        }
    }
}

// One more name was asked for.
fn ask(asked: &mut Vec<Bytes>, alloc: Global, name: &str) -> Result<(), NoMemory>
    ensures ok { OnOk result (asked.new.items ≡ asked.old.items ++ name.now ∷ []) }
    ensures err { OnErr result (asked.new.items ≡ asked.old.items) }
{
    let name = Bytes::from_slice(alloc, name.as_bytes())?;
    asked.push(name)?;
    Ok(())
}

fn read_file<R: Files>(rt: &R, alloc: Global, name: &str, limit: u64) -> Result<Bytes, ReadStop>
    ensures { IfOk result (λ bytes. length bytes ≤ limit) }
{
    read_opened(alloc, fs::open(rt, name), limit)
}

/// All that an opened file has left, as `read_all` gives it; or why there is no opened file.
pub fn read_opened<F: Read + Drop>(
    alloc: Global,
    opened: io::Result<F>,
    limit: u64,
) -> Result<Bytes, ReadStop>
    ensures bytes { limit < top → IfOk opened (λ file.
        IfOk result (λ bytes. IfSome (F.remaining file) (λ left. bytes ≡ left))) }
    ensures long { limit < top → result ≡ Err Long →
        IfOk opened (λ file. IfSome (F.remaining file) (λ left. limit < length left)) }
    ensures within { IfOk result (λ bytes. length bytes ≤ limit) }

    ensures failed { IfErr opened (λ error. error_kind error ≢ OutOfMemory → result ≡ Err Failed) }
    ensures no_memory { IfErr opened (λ error. error_kind error ≡ OutOfMemory →
        result ≡ Err no_memory) }
    ensures not_long { OnErr opened (result ≢ Err Long) }
    ensures refused { OnErr opened (IsErr result) }
{
    match opened {
        Ok(file) => read_all(alloc, file, limit),
        Err(error) => Err(stop_of(&error)),
    }
}

/// All that a reader has left, which is at most `limit` bytes. At most one byte more is read.
pub fn read_all<R: Read + Drop>(alloc: Global, reader: R, limit: u64) -> Result<Bytes, ReadStop>
    ensures bytes { limit < top →
        IfOk result (λ bytes. IfSome (R.remaining reader) (λ left. bytes ≡ left)) }
    ensures long { limit < top → result ≡ Err Long →
        IfSome (R.remaining reader) (λ left. limit < length left) }
    ensures within { IfOk result (λ bytes. length bytes ≤ limit) }
{
    let mut bytes = Vec::new(alloc);
    match reader.take(limit.saturating_add(1)).read_to_end(&mut bytes) {
        Ok(_) if bytes.len() as u64 > limit => Err(ReadStop::Long),
        Ok(_) => Ok(Bytes::from_vec(bytes)),
        Err(error) => Err(stop_of(&error)),
    }
}

// Why nothing was read, by the error.
fn stop_of(error: &io::Error) -> ReadStop
    ensures failed { error_kind error.now ≢ OutOfMemory → result ≡ Failed }
    ensures no_memory { error_kind error.now ≡ OutOfMemory → result ≡ no_memory }
    ensures not_long { result ≢ Long }
{
    match error.kind() {
        io::ErrorKind::OutOfMemory => ReadStop::NoMemory,
        _ => ReadStop::Failed,
    }
}
