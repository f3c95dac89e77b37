// Expressions: a number, a label, or a label plus or minus a number.

ghost use Rattle.rv32_asm_syntax.specs.Expressions as spec;
ghost use Rattle.rv32_asm_syntax.specs.Seen.{seen_expression};
ghost use Rattle.std.specs.Prelude.{option_map, ◌≡◌};

use crate::characters::{begins_as_name, name_len, skip_blanks};
use crate::numbers::number_of;
use crate::statements::Expression;

/// The expression that a text without blanks at its ends is.
#[tactic(auto, using(crate::proofs::Words::front_taken), unfolding(crate::specs::Expressions::expression_of))]
pub fn expression_of(text: &[u8]) -> Option<Expression<'_>>
    ensures { option_map seen_expression result ≡ spec.expression_of text.now }
{
    if begins_as_name(text) {
        let len = name_len(text);
        with_sum(&text[..len], skip_blanks(&text[len..]))
    } else {
        let number = number_of(text)?;
        Some(Expression::number_alone(number))
    }
}

// A label and what stands behind it, without the blanks between.
fn with_sum<'a>(name: &'a [u8], rest: &[u8]) -> Option<Expression<'a>>
    ensures { option_map seen_expression result ≡ spec.with_sum name.now rest.now }
{
    match rest {
        [] => Some(Expression::from_label(name, 0)),
        [b'+', number @ ..] => {
            let number = number_of(skip_blanks(number))?;
            Some(Expression::from_label(name, number))
        }
        [b'-', number @ ..] => {
            let number = number_of(skip_blanks(number))?;
            Some(Expression::from_label(name, -number))
        }
        _ => None,
    }
}
