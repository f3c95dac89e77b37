// A line cut into its words, which are read in order from the left.

ghost use Rattle.adversary_script.specs.Parts.{front_len, text_of, with_left};
ghost use Rattle.adversary_script.specs.Reading as spec;
ghost use Rattle.adversary_script.specs.Words as words;
ghost use Rattle.adversary_script.specs.Words.{without_comment, words_of};
ghost use Rattle.rv32_asm_syntax.specs.Characters as characters;
ghost use Rattle.std.specs.List.{position_or_len, prefix_len};
ghost use Rattle.std.specs.Prelude.{IfSome, IsTrue, None, [], length, ◌==◌, ◌<◌, ◌∷◌, ◌≡◌, ◌≤◌, ◌↔◌};

use crate::fault::ScriptFault;
use std::marker::Model;

/// The words of a line that are left, which contracts see as a list.
#[derive(Drop)]
pub struct Words<'a> {
    rest: &'a [u8],
}

impl<'a> Model for Words<'a> {
    ghost use Rattle.adversary_script.specs.Words.{words_of};
    ghost use Rattle.std.specs.Prelude.{List, ℕ};

    ghost Value = { List (List ℕ) };

    ghost view = { λ words. words_of words.rest.now };
}

impl<'a> Words<'a> {
    /// The words of a line before its comment.
    pub fn new(line: &'a [u8]) -> Self
        ensures { result ≡ words_of (without_comment line.now) }
    {
        Words {
            rest: before_comment(line),
        }
    }

    /// Whether none is left.
    pub fn is_empty(&self) -> bool
        ensures { IsTrue result ↔ (self.now ≡ []) }
    {
        skip_blanks(self.rest).is_empty()
    }

    // The next word, where one is left, which may be a colon.
    fn next(&mut self) -> Option<&'a [u8]>
        ensures some { IfSome result (λ word. self.old ≡ word.now ∷ self.new) }
        ensures none { result ≡ None → self.old ≡ [] }
    {
        let text = skip_blanks(self.rest);
        if text.is_empty() {
            return None;
        }
        let (word, rest) = text.split_at(front_len(text));
        self.rest = rest;
        Some(word)
    }

    /// The next word, which isn't a colon and has no byte above 7f.
    pub fn word(&mut self) -> Result<&'a [u8], ScriptFault>
        ensures { with_left (text_of result) self.new ≡ spec.word self.old }
    {
        match self.next() {
            Some(word) if is_plain(word) => Ok(word),
            _ => Err(ScriptFault::Word),
        }
    }

    /// The colon between a trigger and its action.
    pub fn colon(&mut self) -> Result<&'a [u8], ScriptFault>
        ensures { with_left (text_of result) self.new ≡ spec.colon_word self.old }
    {
        match self.next() {
            Some(word) if word == b":".as_slice() => Ok(word),
            _ => Err(ScriptFault::Word),
        }
    }
}

// Whether a word isn't a colon, and has no byte above 7f.
fn is_plain(word: &[u8]) -> bool
    ensures { result ≡ spec.is_plain word.now }
{
    word.iter().all(|byte| *byte < 0x80 && *byte != b':')
}

// How many bytes the word has that a text begins with, which doesn't begin with a blank.
#[tactic(auto, using(crate::proofs::Cuts::within_text))]
fn front_len(text: &[u8]) -> usize
    requires { 0 < length text.now }
    ensures len { result ≡ front_len text.now }
    ensures within { result ≤ length text.now }
{
    len_in_words(text).max(1)
}

// How many bytes at the front words have.
fn len_in_words(text: &[u8]) -> usize
    ensures counted { result ≡ prefix_len words.is_in_words text.now }
    ensures within { result ≤ length text.now }
{
    text.iter().take_while(|byte| is_in_words(**byte)).count()
}

// Whether words have this byte.
fn is_in_words(byte: u8) -> bool
    ensures { result ≡ words.is_in_words byte }
{
    !is_blank(byte) && byte != b':'
}

// The line up to its comment.
fn before_comment(line: &[u8]) -> &[u8]
    ensures { result.now ≡ without_comment line.now }
{
    &line[..comment_start(line)]
}

// Where the comment of a line begins, or its end.
fn comment_start(line: &[u8]) -> usize
    ensures counted { result ≡ position_or_len (λ byte. byte == characters.hash) line.now }
    ensures within { result ≤ length line.now }
{
    line.iter()
        .position(|byte| *byte == b'#')
        .unwrap_or(line.len())
}

// The text without the blanks that it begins with.
#[tactic(auto, using(rv32_asm_syntax::proofs::Fronts::blanks_go_on, rv32_asm_syntax::proofs::Fronts::blanks_end))]
fn skip_blanks(text: &[u8]) -> &[u8]
    ensures { result.now ≡ characters.skip_blanks text.now }
{
    let mut start = 0;
    while start < text.len() && is_blank(text[start]) {
        start += 1;
    }
    &text[start..]
}

// Whether a byte is a space or a tab.
fn is_blank(byte: u8) -> bool
    ensures { result ≡ characters.is_blank byte }
{
    byte == b' ' || byte == b'\t'
}
