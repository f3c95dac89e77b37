// Tags of messages by HMAC.
ghost use Rattle.std.specs.Prelude.{◌≡◌};
ghost use Rattle.hmac_tag.specs.TagLengths.{length-tag_of};
ghost use Rattle.hmac_tag.specs.Tags.{tag_of};

use crate::derivation::Keys;
use crate::mac::{HmacKey, first_16};
use sec_base::Tagger;
use std::marker::Model;

/// Tags messages by HMAC with SHA-256, data lines under one key and nodes under another.
#[derive(Drop)]
pub struct HmacTagger {
    line: HmacKey,
    tree: HmacKey,
}

impl Model for HmacTagger {
    ghost use Rattle.std.specs.Prelude.{◌≡◌, take};
    ghost use Rattle.hmac_tag.specs.Hmac.{block_key};
    ghost use Rattle.hmac_tag.specs.Tags.{TagKeys};

    ghost Value = { TagKeys };

    ghost view = { λ tagger. record { line_key = take 32 tagger.line; tree_key = take 32 tagger.tree } };

    ghost invariant = { λ tagger. (block_key (take 32 tagger.line) ≡ tagger.line) × (block_key (take 32 tagger.tree) ≡ tagger.tree) };
}

impl HmacTagger {
    /// A tagger under the line key and the tree key.
    pub fn new(keys: &Keys) -> HmacTagger
        ensures { result ≡ record { line_key = keys.now.line_key; tree_key = keys.now.tree_key } }
    {
        HmacTagger {
            line: HmacKey::new(&keys.line_key),
            tree: HmacKey::new(&keys.tree_key),
        }
    }
}

impl Tagger for HmacTagger {
    ghost data_tag_of = { λ tagger message. tag_of tagger.line_key message };

    ghost node_tag_of = { λ tagger message. tag_of tagger.tree_key message };

    ghost data_tag_long = { λ tagger message. length-tag_of tagger.line_key message };

    ghost node_tag_long = { λ tagger message. length-tag_of tagger.tree_key message };

    /// The tag of a data line's message, under the line key.
    fn data_tag(&self, message: &[u8; 78]) -> [u8; 16] {
        first_16(&self.line.mac(message))
    }

    /// The tag of a node's message, under the tree key.
    fn node_tag(&self, message: &[u8; 70]) -> [u8; 16] {
        first_16(&self.tree.mac(message))
    }
}
