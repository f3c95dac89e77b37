// What a program printed, kept in memory.
ghost use Rattle.std.specs.Prelude.{◌≡◌, []};
ghost use Rattle.chip_device.specs.Printed.{gathered};

use sec_base::{Bytes, Sink, SinkStop};
use std::alloc::Global;
use std::marker::Model;

/// What a program printed, kept in memory.
#[derive(Debug, Drop)]
pub struct Printed {
    bytes: Vec<u8>,
}

impl Model for Printed {
    ghost use Rattle.std.specs.Prelude.{List, ℕ};

    ghost Value = { List ℕ };

    ghost view = { λ printed. printed.bytes.items };
}

impl Printed {
    /// Nothing yet.
    pub fn new(alloc: Global) -> Self
        ensures { result ≡ [] }
    {
        Printed {
            bytes: Vec::new(alloc),
        }
    }

    /// All bytes, in order.
    pub fn as_slice(&self) -> &[u8]
        ensures { result.now ≡ self.now }
    {
        self.bytes.as_slice()
    }

    /// All bytes, in order, which takes no memory.
    pub fn into_bytes(self) -> Bytes
        ensures { result ≡ self }
    {
        let Printed { bytes } = self;
        Bytes::from_vec(bytes)
    }
}

impl Sink for Printed {
    ghost state = { gathered };

    fn write(&mut self, piece: &[u8]) -> Result<usize, SinkStop> {
        if piece.is_empty() {
            return Ok(0);
        }
        self.bytes.extend_from_slice(piece)?;
        Ok(piece.len())
    }
}
