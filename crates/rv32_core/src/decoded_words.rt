// Words that were decoded before, each beside its instruction.
ghost use Rattle.std.specs.Prelude.{◌≡◌, Some, IfSome};
ghost use Rattle.rv32_decode.specs.Decoding.{instruction_of};
ghost use Rattle.rv32_decode.specs.Encoding.{IsInst};

use rv32_decode::{Inst, decode};

const PLACES: usize = 256;

// addi zero, zero, 0
const NOTHING: u32 = 0x0000_0013;

// A word and its instruction.
#[derive(Clone, Copy)]
struct DecodedWord {
    word: u32,
    inst: Inst,
    ghost decoded: { instruction_of word ≡ Some inst },
}

/// The word that was decoded last at each of 256 places, which addresses share.
#[derive(Drop)]
pub(crate) struct DecodedWords {
    places: [DecodedWord; PLACES],
}

impl DecodedWords {
    pub(crate) fn new() -> DecodedWords {
        let word = NOTHING;
        match decode(word) {
            Some(inst) => DecodedWords {
                places: [DecodedWord { word, inst }; PLACES],
            },
            None => unreachable!(),
        }
    }

    /// The instruction of a word, or None where no row of the table matches it. It is looked up at the address that the word
    /// was fetched from, where it most likely stands since the last time.
    #[inline(always)]
    pub(crate) fn decode(&mut self, address: u32, word: u32) -> Option<Inst>
        ensures row { result ≡ instruction_of word }
        ensures fields { IfSome result IsInst }
    {
        let at = (address / 4) as usize % PLACES;
        let kept = self.places[at];
        if kept.word == word {
            return Some(kept.inst);
        }
        let inst = decode(word)?;
        self.places[at] = DecodedWord { word, inst };
        Some(inst)
    }
}
