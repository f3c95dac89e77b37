//! Programs from assembly texts, in this project's assembly language (docs/FORMATS.md), which is mostly GNU as's.
#![tactic(auto)]

ghost use Rattle.rv32_asm.specs.Law.{ListingsAreProgram, PartsMakeWord, TextsAreInstructions, TextsAreProgram, TextsAreWords};
ghost use Rattle.sec_base.specs.Geometry.{IsMemorySize};
ghost use Rattle.std.specs.Prelude.{ℕ, ◌<◌, ◌^◌};

mod emission;
mod encoding;
mod fault;
mod labels;
mod layout;
mod passes;
mod program;
mod values;

pub use fault::AsmError;
pub use program::assemble;
pub use rv32_asm_syntax::AsmFault;

/// The texts of words, one line after another, are the program of these words, and the texts in a listing of bytes at 0
/// are the program of these bytes; a line that is the text of a word at the line's own address is read back as the word,
/// and the text of an instruction as the instruction's word. It does nothing: its contract is a theorem over all words,
/// bytes and instructions, and all memories and addresses where they can stand.
pub fn texts_are_words()
    ensures programs { (size : ℕ) → TextsAreProgram size }
    ensures listings { (size : ℕ) → IsMemorySize size → ListingsAreProgram size }
    ensures lines { (size : ℕ) → TextsAreWords size }
    ensures instructions { (size : ℕ) → TextsAreInstructions size }
{}

/// The upper part that LUI takes and the lower part that ADDI takes, where `li` and `la` stand for the two, make the
/// word, modulo 2^32: 4096 times the one plus the other, which is signed. It does nothing: its contract is a theorem over
/// all words.
pub fn parts_make_words()
    ensures { (word : ℕ) → word < 2 ^ 32 → PartsMakeWord word }
{}
