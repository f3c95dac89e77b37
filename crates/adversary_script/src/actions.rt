// Actions, each by its first word.

ghost use Rattle.adversary_script.specs.Grammar as spec;
ghost use Rattle.adversary_script.specs.Parts.{with_left};
ghost use Rattle.adversary_script.specs.Script.{Fits};
ghost use Rattle.sec_base.specs.Place.{IsPlace, stored_size};
ghost use Rattle.std.specs.Prelude.{IfOk, length, ◌+◌, ◌≡◌, ◌≤◌};

use crate::bytes::{bytes_of_len, bytes_within};
use crate::fault::ScriptFault;
use crate::numbers::{number_below, register};
use crate::places::{is_of_kind, kind_word, place, place_len, place_of_kind};
use crate::script::{Action, PlaceBytes};
use crate::words::Words;
use sec_base::{Geometry, Place};

/// An action.
pub fn action(words: &mut Words, geometry: Geometry) -> Result<Action, ScriptFault>
    ensures value { with_left result words.new ≡ spec.action geometry words.old }
    ensures fits { IfOk result (Fits geometry) }
{
    let name = words.word()?;
    if name == b"set".as_slice() {
        set_action(words, geometry)
    } else if name == b"flip".as_slice() {
        flip_action(words, geometry)
    } else if name == b"swap".as_slice() {
        swap_action(words, geometry)
    } else if name == b"put".as_slice() {
        put_action(words, geometry)
    } else if name == b"save".as_slice() {
        save_action(words, geometry)
    } else if name == b"restore".as_slice() {
        restore_action(words, geometry)
    } else if name == b"saveall".as_slice() {
        Ok(Action::SaveAll(register(words)?))
    } else if name == b"restoreall".as_slice() {
        Ok(Action::RestoreAll(register(words)?))
    } else {
        Err(ScriptFault::Word)
    }
}

// Bytes are put at a place from an offset on.
fn set_action(words: &mut Words, geometry: Geometry) -> Result<Action, ScriptFault>
    ensures value { with_left result words.new ≡ spec.set_action geometry words.old }
    ensures fits { IfOk result (Fits geometry) }
{
    let (place, offset, bytes) = span(words, geometry)?;
    Ok(Action::Set {
        place,
        offset,
        bytes,
    })
}

// Bytes are xored at a place from an offset on.
fn flip_action(words: &mut Words, geometry: Geometry) -> Result<Action, ScriptFault>
    ensures value { with_left result words.new ≡ spec.flip_action geometry words.old }
    ensures fits { IfOk result (Fits geometry) }
{
    let (place, offset, mask) = span(words, geometry)?;
    Ok(Action::Flip {
        place,
        offset,
        mask,
    })
}

// A place, an offset and bytes, which end inside the place.
fn span(words: &mut Words, geometry: Geometry) -> Result<(Place, u8, PlaceBytes), ScriptFault>
    ensures value { with_left result words.new ≡ spec.span geometry words.old }
    ensures inside { IfOk result (λ span. IsPlace geometry span.0) }
    ensures fits { IfOk result (λ span. span.1 + length span.2.items
        ≤ stored_size geometry span.0) }
{
    let place = place(words, geometry)?;
    let offset = number_below(words, 1 << 32)? as usize;
    let bytes = bytes_within(words, place_len(geometry, place).saturating_sub(offset))?;
    Ok((place, offset as u8, bytes))
}

// Two places of one kind change their bytes.
fn swap_action(words: &mut Words, geometry: Geometry) -> Result<Action, ScriptFault>
    ensures value { with_left result words.new ≡ spec.swap_action geometry words.old }
    ensures fits { IfOk result (Fits geometry) }
{
    let first = place(words, geometry)?;
    let kind = kind_word(words)?;
    if !is_of_kind(first, kind) {
        return Err(ScriptFault::Span);
    }
    let second = place_of_kind(words, geometry, kind)?;
    Ok(Action::Swap { first, second })
}

// All bytes are put that the place may store.
fn put_action(words: &mut Words, geometry: Geometry) -> Result<Action, ScriptFault>
    ensures value { with_left result words.new ≡ spec.put_action geometry words.old }
    ensures fits { IfOk result (Fits geometry) }
{
    let place = place(words, geometry)?;
    let bytes = bytes_of_len(words, place_len(geometry, place))?;
    Ok(Action::Put { place, bytes })
}

// A register keeps a place's bytes.
fn save_action(words: &mut Words, geometry: Geometry) -> Result<Action, ScriptFault>
    ensures value { with_left result words.new ≡ spec.save_action geometry words.old }
    ensures fits { IfOk result (Fits geometry) }
{
    let register = register(words)?;
    let place = place(words, geometry)?;
    Ok(Action::Save { register, place })
}

// A register's bytes are put into a place.
fn restore_action(words: &mut Words, geometry: Geometry) -> Result<Action, ScriptFault>
    ensures value { with_left result words.new ≡ spec.restore_action geometry words.old }
    ensures fits { IfOk result (Fits geometry) }
{
    let register = register(words)?;
    let place = place(words, geometry)?;
    Ok(Action::Restore { register, place })
}
