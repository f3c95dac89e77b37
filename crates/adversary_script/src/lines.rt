// The lines of a script.

ghost use Rattle.adversary_script.specs.Grammar as grammar;
ghost use Rattle.adversary_script.specs.Parts.{with_left};
ghost use Rattle.adversary_script.specs.Script.{FitScript, Fits, script_of};
ghost use Rattle.adversary_script.specs.declared.fault.ScriptError.TheVariants as error;
ghost use Rattle.adversary_script.specs.declared.fault.ScriptFault.{ScriptFault};
ghost use Rattle.std.specs.Option.{option_to_list};
ghost use Rattle.std.specs.Prelude.{Err, IfOk, IfSome, Ok, OnOk, length, ℕ, ◌++◌, ◌<◌, ◌^◌, ◌≡◌};

use crate::actions::action;
use crate::fault::{ScriptError, ScriptFault};
use crate::script::{Script, ScriptLine};
use crate::triggers::trigger;
use crate::words::Words;
use rv32_asm_syntax::first_line;
use sec_base::{Geometry, NoMemory};
use std::alloc::Global;

/// The script of a text, for a memory of this geometry. An error tells the first line that has a fault, and there the
/// fault of the first word from the left that has one. `NoMemory` may come at any text.
pub fn parse(alloc: Global, text: &[u8], geometry: Geometry) -> Result<Script, ScriptError>
    requires short { length text.now < 2 ^ 32 }
    ensures script { IfOk result (λ script. script_of geometry text.now ≡ Ok script) }
    ensures fits { IfOk result (FitScript geometry) }
    ensures refused { (line : ℕ) (code : ScriptFault) → result ≡ Err (error.Fault line code) →
        script_of geometry text.now ≡ Err (record { line = line; code = code }) }
{
    let mut lines = Vec::new(alloc);
    let mut rest = text;
    let mut number = 0;
    while !rest.is_empty() {
        let (line, behind) = first_line(rest);
        number += 1;
        let said = match line_of(line, geometry) {
            Ok(said) => said,
            Err(code) => return Err(ScriptError::Fault { line: number, code }),
        };
        put(&mut lines, said)?;
        rest = behind.unwrap_or(&[]);
    }
    Ok(Script::from_vec(lines))
}

// Adds what a line says, where it says something.
fn put(lines: &mut Vec<ScriptLine>, said: Option<ScriptLine>) -> Result<(), NoMemory>
    ensures { OnOk result (lines.new.items ≡ lines.old.items ++ option_to_list said) }
{
    if let Some(line) = said {
        lines.push(line)?;
    }
    Ok(())
}

// What a line says, where it says something.
fn line_of(line: &[u8], geometry: Geometry) -> Result<Option<ScriptLine>, ScriptFault>
    ensures value { result ≡ grammar.line_of geometry line.now }
    ensures fits { IfOk result (λ said. IfSome said (λ line. Fits geometry line.action)) }
{
    let mut words = Words::new(line);
    if words.is_empty() {
        return Ok(None);
    }
    Ok(Some(script_line(&mut words, geometry)?))
}

// A trigger and its action, and no word behind them.
fn script_line(words: &mut Words, geometry: Geometry) -> Result<ScriptLine, ScriptFault>
    ensures value { with_left result words.new ≡ grammar.script_line geometry words.old }
    ensures fits { IfOk result (λ line. Fits geometry line.action) }
{
    let trigger = trigger(words, geometry)?;
    words.colon()?;
    let action = action(words, geometry)?;
    if !words.is_empty() {
        return Err(ScriptFault::Word);
    }
    Ok(ScriptLine { trigger, action })
}
