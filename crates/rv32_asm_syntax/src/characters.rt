// The characters of an assembly text: blanks, names and words.

ghost use Rattle.rv32_asm_syntax.specs.Characters as spec;
ghost use Rattle.std.specs.List.{position_or_len, prefix_len};
ghost use Rattle.std.specs.Prelude.{length, ◌==◌, ◌≡◌, ◌≤◌};

/// How many bytes at the front a name may have.
pub fn name_len(text: &[u8]) -> usize
    ensures counted { result ≡ prefix_len spec.is_in_names text.now }
    ensures within { result ≤ length text.now }
{
    text.iter().take_while(|byte| is_in_names(**byte)).count()
}

/// How many bytes at the front the word of a statement may have.
pub fn word_len(text: &[u8]) -> usize
    ensures counted { result ≡ prefix_len spec.is_in_words text.now }
    ensures within { result ≤ length text.now }
{
    text.iter().take_while(|byte| is_in_words(**byte)).count()
}

/// Whether the word of a statement may have this byte.
pub fn is_in_words(byte: u8) -> bool
    ensures { result ≡ spec.is_in_words byte }
{
    is_in_names(byte) || byte == b'.'
}

/// How many bytes stand before the first one of this value.
pub fn len_before(wanted: u8, text: &[u8]) -> usize
    ensures counted { result ≡ position_or_len (λ byte. byte == wanted) text.now }
    ensures within { result ≤ length text.now }
{
    text.iter()
        .position(|byte| *byte == wanted)
        .unwrap_or(text.len())
}

/// Whether a text is a name.
pub fn is_name(text: &[u8]) -> bool
    ensures { result ≡ spec.is_name text.now }
{
    begins_as_name(text) && text.iter().all(|byte| is_in_names(*byte))
}

/// Whether a text begins as a name does.
pub fn begins_as_name(text: &[u8]) -> bool
    ensures { result ≡ spec.begins_as_name text.now }
{
    match text {
        [first, ..] => begins_names(*first),
        [] => false,
    }
}

/// Whether a name may go on with this byte.
pub fn is_in_names(byte: u8) -> bool
    ensures { result ≡ spec.is_in_names byte }
{
    begins_names(byte) || byte.is_ascii_digit()
}

/// Whether a name may begin with this byte.
pub fn begins_names(byte: u8) -> bool
    ensures { result ≡ spec.begins_names byte }
{
    byte.is_ascii_alphabetic() || byte == b'_'
}

/// The text without the blanks at its ends.
#[tactic(auto, unfolding(crate::specs::Characters::trim_blanks))]
pub fn trim_blanks(text: &[u8]) -> &[u8]
    ensures { result.now ≡ spec.trim_blanks text.now }
{
    drop_end_blanks(skip_blanks(text))
}

/// The text without the blanks that it ends with.
#[tactic(auto, using(crate::proofs::Fronts::end_goes_on, crate::proofs::Fronts::end_stops))]
pub fn drop_end_blanks(text: &[u8]) -> &[u8]
    ensures { result.now ≡ spec.drop_end_blanks text.now }
{
    let mut end = text.len();
    while end > 0 && is_blank(text[end - 1]) {
        end -= 1;
    }
    &text[..end]
}

/// The text without the blanks that it begins with.
#[tactic(auto, using(crate::proofs::Fronts::blanks_go_on, crate::proofs::Fronts::blanks_end))]
pub fn skip_blanks(text: &[u8]) -> &[u8]
    ensures { result.now ≡ spec.skip_blanks text.now }
{
    let mut start = 0;
    while start < text.len() && is_blank(text[start]) {
        start += 1;
    }
    &text[start..]
}

/// Whether a byte is a space or a tab.
pub fn is_blank(byte: u8) -> bool
    ensures { result ≡ spec.is_blank byte }
{
    byte == b' ' || byte == b'\t'
}
