// Strings in quotation marks.

ghost use Rattle.rv32_asm_syntax.specs.Characters.{backslash, quotation_mark};
ghost use Rattle.rv32_asm_syntax.specs.Parts.{string_from};
ghost use Rattle.rv32_asm_syntax.specs.Reading as spec;
ghost use Rattle.std.specs.Prelude.{IfOk, IfSome, [], length, option_map, ◌<◌, ◌∷◌, ◌≡◌, ◌≢◌};

use sec_base::NoMemory;
use std::alloc::Global;

/// The bytes of a string in quotation marks, or `None` where a text is none.
#[tactic(auto, using(crate::proofs::Quotes::no_string), unfolding(crate::specs::Reading::string_of))]
pub fn string_of(alloc: Global, text: &[u8]) -> Result<Option<Vec<u8>>, NoMemory>
    ensures { IfOk result (λ string. option_map (λ bytes. bytes.items) string
        ≡ spec.string_of text.now) }
{
    let [b'"', rest @ ..] = text else {
        return Ok(None);
    };
    let mut left = rest;
    let mut bytes = Vec::new(alloc);
    while left != b"\"".as_slice() {
        let Some(character) = first_character(left) else {
            return Ok(None);
        };
        bytes.push(character.meaning)?;
        left = character.rest;
    }
    Ok(Some(bytes))
}

// The byte that a character of a string means, and what stands behind the character.
#[derive(Clone, Copy)]
struct Character<'a> {
    meaning: u8,
    rest: &'a [u8],
}

// The byte that the first character of a string means, and what stands behind the character.
#[tactic(auto, using(crate::proofs::Quotes::plain, crate::proofs::Quotes::quoted))]
fn first_character(text: &[u8]) -> Option<Character<'_>>
    ensures character { text.now ≢ quotation_mark ∷ [] →
        spec.string_after text.now ≡ string_from result }
    ensures shorter { IfSome result (λ c. length c.rest.now < length text.now) }
{
    match text {
        [] | [b'"', ..] => None,
        [b'\\', rest @ ..] => escaped_character(rest),
        [byte, rest @ ..] => Some(Character {
            meaning: *byte,
            rest,
        }),
    }
}

// The byte that a character behind a backslash means, and what stands behind the character.
#[tactic(auto, using(crate::proofs::Quotes::escaped, crate::proofs::Quotes::unknown))]
fn escaped_character(text: &[u8]) -> Option<Character<'_>>
    ensures character { spec.string_after (backslash ∷ text.now) ≡ string_from result }
    ensures shorter { IfSome result (λ c. length c.rest.now < length text.now) }
{
    let [escape, rest @ ..] = text else {
        return None;
    };
    let meaning = escape_of(*escape)?;
    Some(Character { meaning, rest })
}

/// The byte that a character behind a backslash means.
pub fn escape_of(byte: u8) -> Option<u8>
    ensures { result ≡ spec.escape_of byte }
{
    match byte {
        b'n' => Some(b'\n'),
        b't' => Some(b'\t'),
        b'0' => Some(0),
        b'\\' => Some(b'\\'),
        b'"' => Some(b'"'),
        _ => None,
    }
}
