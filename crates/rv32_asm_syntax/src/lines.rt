// An assembly text cut into lines, and a line without its comment.

ghost use Rattle.rv32_asm_syntax.specs.Characters as characters;
ghost use Rattle.rv32_asm_syntax.specs.Characters.{colon};
ghost use Rattle.rv32_asm_syntax.specs.Lines as spec;
ghost use Rattle.rv32_asm_syntax.specs.Parts as parts;
ghost use Rattle.rv32_asm_syntax.specs.Parts.{IsFirstLabel, IsLineCut, lines_left};
ghost use Rattle.rv32_asm_syntax.specs.Seen.{seen_quoting};
ghost use Rattle.std.specs.Prelude.{IfSome, length, true, ◌++◌, ◌<◌, ◌∷◌, ◌≡◌};

use crate::characters::{is_name, len_before, skip_blanks, trim_blanks};

/// Where a byte of a line stands: outside the strings, in one, or behind a backslash in one.
#[derive(Clone, Copy)]
pub enum Quoting {
    Outside,
    Inside,
    Escaped,
}

impl Quoting {
    // Where the byte after this one stands.
    fn after(self, byte: u8) -> Self
        ensures { seen_quoting result ≡ spec.quoting_after (seen_quoting self) byte }
    {
        match self {
            Quoting::Outside => {
                if byte == b'"' {
                    Quoting::Inside
                } else {
                    Quoting::Outside
                }
            }
            Quoting::Inside => match byte {
                b'"' => Quoting::Outside,
                b'\\' => Quoting::Escaped,
                _ => Quoting::Inside,
            },
            Quoting::Escaped => Quoting::Inside,
        }
    }

    fn is_outside(self) -> bool
        ensures { result ≡ spec.is_outside (seen_quoting self) }
    {
        matches!(self, Quoting::Outside)
    }
}

/// Whether a byte above 7f stands outside the strings.
pub fn has_non_ascii(line: &[u8]) -> bool
    ensures { result ≡ spec.has_non_ascii spec.Outside line.now }
{
    let mut quoting = Quoting::Outside;
    for byte in line {
        if quoting.is_outside() && *byte > 0x7f {
            return true;
        }
        quoting = quoting.after(*byte);
    }
    false
}

/// The first line of a text, without the line feed, or carriage return and line feed, that ends it, and what stands
/// behind that line feed, where there is one.
#[tactic(auto, using(crate::proofs::Cuts::first_cut, crate::proofs::Cuts::last_line, crate::proofs::Cuts::no_feed))]
pub fn first_line(text: &[u8]) -> (&[u8], Option<&[u8]>)
    ensures cut { IsLineCut text.now result.0.now result.1 }
    ensures lines { spec.lines_of text.now ≡ result.0.now ∷ lines_left result.1 }
    ensures shorter { IfSome result.1 (λ rest. length rest.now < length text.now) }
{
    let len = len_before(b'\n', text);
    if len < text.len() {
        (without_return(&text[..len]), Some(&text[len + 1..]))
    } else {
        (text, None)
    }
}

// The line without the carriage return that it may end with.
fn without_return(line: &[u8]) -> &[u8]
    ensures { result.now ≡ parts.without_return line.now }
{
    line.strip_suffix(b"\r").unwrap_or(line)
}

/// The text of a line's statement: what stands behind its labels, without its comment and the blanks at its ends.
#[tactic(auto, unfolding(crate::specs::Lines::statement_text))]
pub fn statement_text(line: &[u8]) -> &[u8]
    ensures { result.now ≡ spec.statement_text line.now }
{
    let mut left = without_comment(line);
    while let Some((_, rest)) = first_label(left) {
        left = rest;
    }
    trim_blanks(left)
}

/// The line up to its comment.
#[tactic(auto, using(crate::proofs::Comments::goes_on, crate::proofs::Comments::stops, crate::proofs::Comments::ends), unfolding(crate::specs::Lines::without_comment))]
pub fn without_comment(line: &[u8]) -> &[u8]
    ensures { result.now ≡ spec.without_comment line.now }
{
    let mut quoting = Quoting::Outside;
    let mut end = 0;
    while end < line.len() {
        let byte = line[end];
        if quoting.is_outside() && byte == b'#' {
            break;
        }
        quoting = quoting.after(byte);
        end += 1;
    }
    &line[..end]
}

/// The first label of a line without its comment, which blanks may stand before, and all that stands behind the label's
/// colon.
pub fn first_label(text: &[u8]) -> Option<(&[u8], &[u8])>
    ensures cut { IfSome result (λ label. characters.skip_blanks text.now
        ≡ label.0.now ++ colon ∷ label.1.now) }
    ensures named { IfSome result (λ label. characters.is_name label.0.now ≡ true) }
    ensures labels { IsFirstLabel text.now result }
{
    let len = len_before(b':', text);
    if len == text.len() {
        return None;
    }
    let name = skip_blanks(&text[..len]);
    if is_name(name) {
        Some((name, &text[len + 1..]))
    } else {
        None
    }
}
