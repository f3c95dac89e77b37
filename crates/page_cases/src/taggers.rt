// Taggers that give bytes of the message.
ghost use Rattle.std.specs.Prelude.{[], ◌∷◌, refl, slice_index, replicate};
ghost use Rattle.fakes.specs.PrefixTagger.{prefix_of};

use fakes::prefix;
use sec_base::Tagger;

/// Gives the first 16 bytes of a line's message. Of a node's message it gives the first seven, up to the lowest byte of a
/// page counter, and four of its block: one in each quarter, the first of which has a part of the counter at place 5.
#[derive(Drop)]
pub struct SomeBytes;

impl Tagger for SomeBytes {
    ghost data_tag_of = { λ _ m. prefix_of m };

    ghost node_tag_of = { λ _ m. slice_index m 0 ∷ slice_index m 1 ∷ slice_index m 2 ∷ slice_index m 3 ∷ slice_index m 4
        ∷ slice_index m 5 ∷ slice_index m 6 ∷ 0 ∷ 0 ∷ 0 ∷ 0 ∷ 0 ∷ slice_index m 18 ∷ slice_index m 34 ∷ slice_index m 50
        ∷ slice_index m 66 ∷ [] };

    ghost data_tag_long = { λ _ _. refl };

    ghost node_tag_long = { λ _ _. refl };

    fn data_tag(&self, m: &[u8; 78]) -> [u8; 16] {
        prefix(m)
    }

    fn node_tag(&self, m: &[u8; 70]) -> [u8; 16] {
        [
            m[0], m[1], m[2], m[3], m[4], m[5], m[6], 0, 0, 0, 0, 0, m[18], m[34], m[50], m[66],
        ]
    }
}

/// Gives the first 16 bytes of a line's message, and zeros for a node.
#[derive(Drop)]
pub struct NodesAlike;

impl Tagger for NodesAlike {
    ghost data_tag_of = { λ _ m. prefix_of m };

    ghost node_tag_of = { λ _ _. replicate 16 0 };

    ghost data_tag_long = { λ _ _. refl };

    ghost node_tag_long = { λ _ _. refl };

    fn data_tag(&self, m: &[u8; 78]) -> [u8; 16] {
        prefix(m)
    }

    fn node_tag(&self, _: &[u8; 70]) -> [u8; 16] {
        [0; 16]
    }
}
