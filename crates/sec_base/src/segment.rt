// The parts of a program.
ghost use Rattle.std.specs.Prelude.{◌≡◌, ◌↔◌, ◌<◌, ◌^◌, [], length, IsTrue, IfOk};
ghost use Rattle.std.specs.Option.{option_copied};
ghost use Rattle.std.specs.List.{slice_get};
ghost use Rattle.sec_base.specs.Segment.{from_zero};

use crate::bytes::Bytes;
use crate::stop::NoMemory;
use std::alloc::Global;
use std::marker::Model;

/// A part of a program: `length` bytes of memory from `addr` on, which begin with `bytes` and go on with zeros.
#[derive(Debug, Drop)]
pub struct Segment {
    pub addr: u32,
    pub length: u32,
    pub bytes: Bytes,
}

/// Segments, which contracts see as a list.
#[derive(Debug, Drop)]
pub struct Segments {
    items: Vec<Segment>,
}

impl Model for Segments {
    ghost use Rattle.std.specs.Prelude.{List};
    ghost use Rattle.sec_base.specs.declared.segment.Segment.{Segment};

    ghost Value = { List Segment };

    ghost view = { λ segments. segments.items.items };
}

impl Segments {
    /// The segments of a vector, which takes no memory.
    pub fn from_vec(items: Vec<Segment>) -> Self
        ensures { result ≡ items.items }
    {
        Segments { items }
    }

    /// One segment, which has these bytes from address 0 on. Fails only if out of memory.
    pub fn from_zero(alloc: Global, bytes: Bytes) -> Result<Self, NoMemory>
        requires { length bytes < 2 ^ 32 }
        ensures { IfOk result (λ segments. segments ≡ from_zero bytes) }
    {
        let mut items = Vec::new(alloc);
        items.push(Segment {
            addr: 0,
            length: bytes.len() as u32,
            bytes,
        })?;
        Ok(Segments { items })
    }

    /// The vector, which takes no memory.
    pub fn into_vec(self) -> Vec<Segment>
        ensures { result.items ≡ self }
    {
        let Segments { items } = self;
        items
    }

    /// How many there are.
    pub fn len(&self) -> u64
        ensures { result ≡ length self.now }
    {
        self.items.len() as u64
    }

    /// Whether there are no segments.
    pub fn is_empty(&self) -> bool
        ensures { IsTrue result ↔ (self.now ≡ []) }
    {
        self.items.is_empty()
    }

    /// The segment at a place, `None` from the length on.
    pub fn get(&self, at: u64) -> Option<&Segment>
        ensures { option_copied result ≡ slice_get self.now at }
    {
        self.items.get(at as usize)
    }

    /// All segments, in order.
    pub fn as_slice(&self) -> &[Segment]
        ensures { result.now ≡ self.now }
    {
        self.items.as_slice()
    }
}
