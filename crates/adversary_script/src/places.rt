// Places: `data LINE` or `node LEVEL INDEX`.

ghost use Rattle.adversary_script.specs.Grammar as spec;
ghost use Rattle.adversary_script.specs.Grammar.{is_of_kind, is_place, kind_named};
ghost use Rattle.adversary_script.specs.Parts.{with_left};
ghost use Rattle.sec_base.specs.Place.{IsPlace, stored_size};
ghost use Rattle.std.specs.Prelude.{IfOk, ◌≡◌, ◌≤◌};

use crate::fault::ScriptFault;
use crate::numbers::number_below;
use crate::words::Words;
use sec_base::{Geometry, LINE_LEN, Place};

/// The two kinds of places.
#[derive(Clone, Copy, Debug, PartialEq, Eq)]
pub enum Kind {
    /// Data lines.
    Line,
    /// Nodes of the tree.
    Node,
}

/// A place of the memory.
pub fn place(words: &mut Words, geometry: Geometry) -> Result<Place, ScriptFault>
    ensures value { with_left result words.new ≡ spec.place geometry words.old }
    ensures inside { IfOk result (IsPlace geometry) }
{
    let kind = kind_word(words)?;
    place_of_kind(words, geometry, kind)
}

/// A kind of places, by its word.
pub fn kind_word(words: &mut Words) -> Result<Kind, ScriptFault>
    ensures { with_left result words.new ≡ spec.kind_word words.old }
{
    match kind_named(words.word()?) {
        Some(kind) => Ok(kind),
        None => Err(ScriptFault::Word),
    }
}

// The kind of places that a word names.
fn kind_named(name: &[u8]) -> Option<Kind>
    ensures { result ≡ kind_named name.now }
{
    if name == b"data".as_slice() {
        Some(Kind::Line)
    } else if name == b"node".as_slice() {
        Some(Kind::Node)
    } else {
        None
    }
}

/// A place of the memory, whose kind is known.
pub fn place_of_kind(
    words: &mut Words,
    geometry: Geometry,
    kind: Kind,
) -> Result<Place, ScriptFault>
    ensures value { with_left result words.new ≡ spec.place_of_kind geometry kind words.old }
    ensures inside { IfOk result (IsPlace geometry) }
{
    let place = match kind {
        Kind::Line => Place::Line(number_below(words, 1 << 32)? as u32),
        Kind::Node => {
            let level = number_below(words, 256)? as u8;
            let index = number_below(words, 1 << 32)? as u32;
            Place::Node { level, index }
        }
    };
    if geometry.contains(place) {
        Ok(place)
    } else {
        Err(ScriptFault::Place)
    }
}

/// Whether a place is of this kind.
pub fn is_of_kind(place: Place, kind: Kind) -> bool
    ensures { result ≡ is_of_kind place kind }
{
    match place {
        Place::Line(_) => kind == Kind::Line,
        Place::Node { .. } => kind == Kind::Node,
    }
}

/// How many bytes of a place may be set.
#[tactic(auto, using(sec_base::proofs::Slots::slot_short))]
pub fn place_len(geometry: Geometry, place: Place) -> usize
    ensures len { result ≡ stored_size geometry place }
    ensures most { result ≤ 80 }
{
    match place {
        Place::Line(_) => LINE_LEN as usize + geometry.slot_len(),
        Place::Node { .. } => LINE_LEN as usize,
    }
}
