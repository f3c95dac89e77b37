// Triggers: `access N`, `read PLACE K` or `write PLACE K`.

ghost use Rattle.adversary_script.specs.Grammar as spec;
ghost use Rattle.adversary_script.specs.Parts.{with_left};
ghost use Rattle.std.specs.Prelude.{◌≡◌};

use crate::fault::ScriptFault;
use crate::numbers::ordinal;
use crate::places::place;
use crate::script::Trigger;
use crate::words::Words;
use sec_base::Geometry;

/// A trigger.
pub fn trigger(words: &mut Words, geometry: Geometry) -> Result<Trigger, ScriptFault>
    ensures { with_left result words.new ≡ spec.trigger geometry words.old }
{
    let name = words.word()?;
    if name == b"access".as_slice() {
        Ok(Trigger::Access(ordinal(words)?))
    } else if name == b"read".as_slice() {
        let place = place(words, geometry)?;
        Ok(Trigger::Read(place, ordinal(words)?))
    } else if name == b"write".as_slice() {
        let place = place(words, geometry)?;
        Ok(Trigger::Write(place, ordinal(words)?))
    } else {
        Err(ScriptFault::Word)
    }
}
