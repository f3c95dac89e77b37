// A tagger whose tags are all alike.
ghost use Rattle.std.specs.Prelude.{refl, replicate};

use sec_base::Tagger;

/// Tags every message with zeros.
#[derive(Drop)]
pub struct ZeroTagger;

impl Tagger for ZeroTagger {
    ghost data_tag_of = { λ _ _. replicate 16 0 };

    ghost node_tag_of = { λ _ _. replicate 16 0 };

    ghost data_tag_long = { λ _ _. refl };

    ghost node_tag_long = { λ _ _. refl };

    fn data_tag(&self, _: &[u8; 78]) -> [u8; 16] {
        [0; 16]
    }

    fn node_tag(&self, _: &[u8; 70]) -> [u8; 16] {
        [0; 16]
    }
}
