// Where a run writes.
ghost use Rattle.std.specs.Prelude.{◌≡◌, ◌≢◌, ◌<◌, ◌≤◌, [], Ok, Err, length, take, IfOk, OnErr};
ghost use Rattle.sec_base.specs.Count.{Rose};
ghost use Rattle.sec_base.specs.Sink.{SinkState, Gains, IsSilent, IsWritten};
ghost use Rattle.sec_base.specs.declared.sink.SinkStop.TheVariants.{Failed, NoMemory as no_memory};

use crate::stop::NoMemory;
use std::alloc::AllocError;

/// Why a sink took nothing.
#[derive(Clone, Copy, Debug, PartialEq, Eq)]
pub enum SinkStop {
    /// The write failed.
    Failed,
    /// The emulator itself is out of memory.
    NoMemory,
}

impl From<NoMemory> for SinkStop {
    ghost from_gives = { λ _ stop. stop ≡ no_memory };

    fn from(_: NoMemory) -> Self {
        SinkStop::NoMemory
    }
}

impl From<AllocError> for SinkStop {
    ghost from_gives = { λ _ stop. stop ≡ no_memory };

    fn from(_: AllocError) -> Self {
        SinkStop::NoMemory
    }
}

/// Something that bytes are written to.
pub trait Sink {
    /// What was written and how often a write failed.
    ghost state: { Self → SinkState };

    /// Writes the first bytes of a piece, and answers how many.
    fn write(&mut self, piece: &[u8]) -> Result<usize, SinkStop>
        ensures taken { IfOk result
            (λ n. Gains (state self.old) (take n piece.now) (state self.new)) }
        ensures most { IfOk result (λ n. n ≤ length piece.now) }
        ensures least { IfOk result (λ n. 0 < length piece.now → 0 < n) }
        ensures empty { piece.now ≡ [] → result ≡ Ok 0 }
        ensures err { OnErr result (IsSilent (state self.old) (state self.new)) }

        ensures failed { result ≡ Err Failed →
            Rose (state self.old).faults (state self.new).faults }
        ensures quiet { result ≢ Err Failed → (state self.new).faults ≡ (state self.old).faults }
        ensures faults { (state self.old).faults ≤ (state self.new).faults };
}

/// Writes all of a piece, in as many writes as the sink takes. After an error a front part of it was written.
pub fn write_all<S: Sink>(out: &mut S, piece: &[u8]) -> Result<(), SinkStop>
    ensures written { IsWritten piece.now (S.state out.old) (S.state out.new) result }
    ensures empty { piece.now ≡ [] → result ≡ Ok tt }
    ensures quiet { result ≢ Err Failed → (S.state out.new).faults ≡ (S.state out.old).faults }
    ensures faults { (S.state out.old).faults ≤ (S.state out.new).faults }
{
    let mut rest = piece;
    while !rest.is_empty() {
        let taken = out.write(rest)?;
        rest = &rest[taken..];
    }
    Ok(())
}
