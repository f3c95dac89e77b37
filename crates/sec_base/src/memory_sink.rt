// A sink in memory, for tests.
ghost use Rattle.std.specs.Prelude.{◌≡◌, ◌↔◌, ◌≤◌, ◌<◌, [], Ok, Err, length, min, take, IsTrue, IfOk};
ghost use Rattle.sec_base.specs.MemorySink.{new_sink, short_sink, sink_state, sink_fails, sink_after_write, sink_after_failure, sink_after_call};
ghost use Rattle.sec_base.specs.declared.sink.SinkStop.TheVariants.{Failed, NoMemory as no_memory};

use crate::failing_calls::contains_number;
use crate::sink::{Sink, SinkStop};
use crate::stop::NoMemory;
use std::alloc::Global;
use std::marker::Model;

/// A sink in memory, which keeps what is written. It may take few bytes at a time, and some of its writes may fail.
#[derive(Debug, Drop)]
pub struct MemorySink {
    bytes: Vec<u8>,
    most: usize,
    fails: Vec<u64>,
    calls: u64,
    faults: u64,
}

impl Model for MemorySink {
    ghost use Rattle.std.specs.Prelude.{◌<◌};
    ghost use Rattle.sec_base.specs.MemorySink.{MemorySinkView};

    ghost Value = { MemorySinkView };

    ghost view = { λ sink. record {
      bytes = sink.bytes.items;
      most = sink.most;
      fails = sink.fails.items;
      calls = sink.calls;
      faults = sink.faults;
    } };

    ghost invariant = { λ sink. 0 < sink.most };
}

impl MemorySink {
    /// Nothing written yet. `fails` are the numbers of the calls that are to fail, from 1. Fails only if out of
    /// memory.
    pub fn new(alloc: Global, fails: &[u64]) -> Result<MemorySink, NoMemory>
        ensures { IfOk result (λ sink. sink ≡ new_sink fails.now) }
    {
        Ok(MemorySink {
            bytes: Vec::new(alloc),
            most: usize::MAX,
            fails: Vec::from_slice(alloc, fails)?,
            calls: 0,
            faults: 0,
        })
    }

    /// Nothing written yet. A write takes the first `most` bytes of a longer piece, and none fails. Fails only if out
    /// of memory.
    pub fn short(alloc: Global, most: usize) -> Result<MemorySink, NoMemory>
        requires some { 0 < most }
        ensures { IfOk result (λ sink. sink ≡ short_sink most) }
    {
        Ok(MemorySink {
            bytes: Vec::new(alloc),
            most,
            fails: Vec::new(alloc),
            calls: 0,
            faults: 0,
        })
    }

    /// What was written.
    pub fn bytes(&self) -> &[u8]
        ensures { result.now ≡ self.now.bytes }
    {
        self.bytes.as_slice()
    }
}

impl Sink for MemorySink {
    ghost state = { sink_state };

    /// Writes as much of a piece as a call takes, where the call isn't one that is to fail. An empty piece is no call.
    fn write(&mut self, piece: &[u8]) -> Result<usize, SinkStop>
        ensures failed { (result ≡ Err Failed) ↔ IsTrue (sink_fails self.old piece.now) }
        ensures taken { IfOk result (λ n. n ≡ min self.old.most (length piece.now)) }
        ensures least { IfOk result (λ n. 0 < length piece.now → 0 < n) }

        ensures wrote { IfOk result (λ n. self.new ≡ sink_after_write (take n piece.now) self.old) }
        ensures after_failed { result ≡ Err Failed → self.new ≡ sink_after_failure self.old }
        ensures after_no_memory { result ≡ Err no_memory → self.new ≡ sink_after_call self.old }

        ensures empty { piece.now ≡ [] → result ≡ Ok 0 }
        ensures idle { piece.now ≡ [] → self.new ≡ self.old }
        ensures faults { self.old.faults ≤ self.new.faults }
    {
        if piece.is_empty() {
            return Ok(0);
        }
        self.calls = self.calls.saturating_add(1);
        if contains_number(&self.fails, self.calls) {
            self.faults = self.faults.saturating_add(1);
            return Err(SinkStop::Failed);
        }
        let taken = piece.len().min(self.most);
        if self.bytes.extend_from_slice(&piece[..taken]).is_err() {
            return Err(SinkStop::NoMemory);
        }
        Ok(taken)
    }
}
