// A sink that compares.
ghost use Rattle.std.specs.Prelude.{◌≡◌, ◌≢◌, ◌<◌, ◌≤◌, length, take, drop, slice_index, None, IsTrue};
ghost use Rattle.bus_trace.specs.Comparison.{IsPrinted, compared, taken_by};

use sec_base::{Sink, SinkStop};
use std::marker::Model;

/// How what was printed compares with what was expected.
#[derive(Clone, Copy, Debug, PartialEq, Eq)]
pub(crate) struct Printed {
    /// It is a front part of it, or all of it.
    pub front: bool,
    /// It goes on from it, or is all of it.
    pub whole: bool,
}

/// A sink that compares what is written to it with the bytes that are expected, and keeps no copy. It takes the first byte
/// that differs, or that comes behind them all, and fails from then on.
#[derive(Drop)]
pub(crate) struct Comparison<'a> {
    expected: &'a [u8],
    agreed: usize,
    wrong: Option<u8>,
    faults: u64,
}

impl<'a> Model for Comparison<'a> {
    ghost use Rattle.std.specs.Prelude.{◌≡◌, None};
    ghost use Rattle.bus_trace.specs.Comparison.{Agrees, ComparisonView};

    ghost Value = { ComparisonView };

    ghost view = { λ sink. record {
      expected = sink.expected.now;
      agreed = sink.agreed;
      wrong = sink.wrong;
      faults = sink.faults;
    } };

    ghost invariant = { λ sink.
        Agrees sink.expected.now sink.agreed sink.wrong × (sink.wrong ≡ None → sink.faults ≡ 0) };
}

impl<'a> Comparison<'a> {
    /// Nothing was written yet.
    pub(crate) fn new(expected: &'a [u8]) -> Comparison<'a>
        ensures { result
            ≡ record { expected = expected.now; agreed = 0; wrong = None; faults = 0 } }
    {
        Comparison {
            expected,
            agreed: 0,
            wrong: None,
            faults: 0,
        }
    }

    /// How all that was written compares.
    pub(crate) fn printed(&self) -> Printed
        ensures tests { IsPrinted self.now.expected (taken_by self.now) result }
        ensures failed { 0 < self.now.faults → ¬ IsTrue result.front }
    {
        Printed {
            front: self.wrong.is_none(),
            whole: self.agreed == self.expected.len(),
        }
    }
}

impl<'a> Sink for Comparison<'a> {
    ghost state = { compared };

    fn write(&mut self, piece: &[u8]) -> Result<usize, SinkStop> {
        if piece.is_empty() {
            return Ok(0);
        }
        if self.wrong.is_some() {
            self.faults = self.faults.saturating_add(1);
            return Err(SinkStop::Failed);
        }
        let same = common_len(piece, &self.expected[self.agreed..]);
        self.agreed += same;
        if same == piece.len() {
            return Ok(same);
        }
        self.wrong = Some(piece[same]);
        Ok(same + 1)
    }
}

// How many bytes two lists begin with that are the same.
fn common_len(first: &[u8], second: &[u8]) -> usize
    ensures first { result ≤ length first.now }
    ensures second { result ≤ length second.now }
    ensures same { take result first.now ≡ take result second.now }
    ensures differs { result < length first.now → result < length second.now →
        slice_index first.now result ≢ slice_index second.now result }
{
    let mut len = 0;
    while len < first.len() && len < second.len() && first[len] == second[len] {
        len += 1;
    }
    len
}

/// A sink that takes everything and keeps nothing.
#[derive(Drop)]
pub(crate) struct Unread;

impl Sink for Unread {
    ghost state = { λ _. record { written = None; faults = 0 } };

    fn write(&mut self, piece: &[u8]) -> Result<usize, SinkStop> {
        Ok(piece.len())
    }
}
