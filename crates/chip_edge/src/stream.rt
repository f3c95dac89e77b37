// Standard output and standard error as sinks.
ghost use Rattle.std.specs.Prelude.{◌≡◌, ◌≢◌, ◌<◌, ◌≤◌, [], Ok, Err, length, take, IfOk, OnErr};
ghost use Rattle.std.specs.Io.KnownBytes.{WriteAppends};
ghost use Rattle.sec_base.specs.Count.{Rose};
ghost use Rattle.sec_base.specs.declared.sink.SinkStop.TheVariants.{Failed};
ghost use Rattle.chip_edge.specs.Stream.{stream_state};

use sec_base::{Sink, SinkStop};
use std::io::Write;

/// A writer as a sink that doesn't tell what was written. It counts a fault at each write that fails, and at
/// each that takes nothing of a piece that isn't empty.
#[derive(Drop)]
pub struct Stream<W> {
    writer: W,
    faults: u64,
}

impl<W: Write> Stream<W> {
    /// No write of it failed yet.
    pub fn new(writer: W) -> Self
        ensures writer { result.writer ≡ writer }
        ensures faults { result.faults ≡ 0 }
    {
        Stream { writer, faults: 0 }
    }
}

impl<W: Write> Sink for Stream<W> {
    ghost state = { stream_state };

    /// The writer gains the first bytes of the piece, as many as are answered, or nothing.
    fn write(&mut self, piece: &[u8]) -> Result<usize, SinkStop>
        ensures writes { WriteAppends (W.contents self.old.writer) (W.contents self.new.writer)
            result piece.now }

        ensures most { IfOk result (λ n. n ≤ length piece.now) }
        ensures least { IfOk result (λ n. 0 < length piece.now → 0 < n) }
        ensures empty { piece.now ≡ [] → result ≡ Ok 0 }
        ensures failed { result ≡ Err Failed → Rose self.old.faults self.new.faults }
        ensures faults { self.old.faults ≤ self.new.faults }
        ensures quiet { result ≢ Err Failed → self.new.faults ≡ self.old.faults }
    {
        if piece.is_empty() {
            return Ok(0);
        }
        match self.writer.write(piece) {
            Ok(count) if count > 0 => Ok(count),
            _ => {
                self.faults = self.faults.saturating_add(1);
                Err(SinkStop::Failed)
            }
        }
    }
}
