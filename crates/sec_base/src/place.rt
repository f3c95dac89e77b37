// The places of the memory outside the chip.
use std::fmt;

/// A place of the memory outside the chip.
#[derive(Clone, Copy, Debug, PartialEq, Eq)]
pub enum Place {
    /// A data line, by its number.
    Line(u32),
    /// A node of the tree. Level 0 has the counter block of each page.
    Node { level: u8, index: u32 },
}

impl fmt::Display for Place {
    ghost use Rattle.std.specs.Prelude.{Some};
    ghost use Rattle.sec_base.specs.Place.{place_text};

    ghost output = { λ place. Some (place_text place) };

    fn fmt<W: fmt::Write>(&self, f: &mut fmt::Formatter<W>) -> fmt::Result {
        match self {
            Place::Line(line) => write!(f, "data {line}"),
            Place::Node { level, index } => write!(f, "node {level} {index}"),
        }
    }
}
