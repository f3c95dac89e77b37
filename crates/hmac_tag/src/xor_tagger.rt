// Tags of messages by xor, for teaching alone.
ghost use Rattle.std.specs.Prelude.{◌≡◌, ◌≤◌, length};
ghost use Rattle.hmac_tag.specs.TagLengths.{length-xor_tag_of};
ghost use Rattle.hmac_tag.specs.Tags.{padded_piece, xor_of_pieces, xor_tag_of};

use crate::derivation::Keys;
use crate::mac::first_16;
use sec_base::Tagger;
use std::marker::Model;

// A piece of a message, in bytes, as long as a tag.
const PIECE_LEN: usize = 16;

/// The teaching tag, which anyone can forge: messages tagged by xor, data lines under one key and nodes under another.
/// It protects nothing. Whoever flips the same bit in two pieces of a message keeps its tag, and one message with its
/// tag shows all of the key that counts.
#[derive(Drop)]
pub struct XorTagger {
    line_key: [u8; 32],
    tree_key: [u8; 32],
}

impl Model for XorTagger {
    ghost use Rattle.hmac_tag.specs.Tags.{TagKeys};

    ghost Value = { TagKeys };

    ghost view = { λ tagger. record { line_key = tagger.line_key; tree_key = tagger.tree_key } };
}

impl XorTagger {
    /// A tagger under the line key and the tree key, of each of which the first 16 bytes count.
    pub fn new(keys: &Keys) -> XorTagger
        ensures { result ≡ record { line_key = keys.now.line_key; tree_key = keys.now.tree_key } }
    {
        XorTagger {
            line_key: keys.line_key,
            tree_key: keys.tree_key,
        }
    }
}

impl Tagger for XorTagger {
    ghost data_tag_of = { λ tagger message. xor_tag_of tagger.line_key message };

    ghost node_tag_of = { λ tagger message. xor_tag_of tagger.tree_key message };

    ghost data_tag_long = { λ tagger message. length-xor_tag_of tagger.line_key message };

    ghost node_tag_long = { λ tagger message. length-xor_tag_of tagger.tree_key message };

    /// The tag of a data line's message, under the line key.
    fn data_tag(&self, message: &[u8; 78]) -> [u8; 16] {
        xor_tag(&self.line_key, message)
    }

    /// The tag of a node's message, under the tree key.
    fn node_tag(&self, message: &[u8; 70]) -> [u8; 16] {
        xor_tag(&self.tree_key, message)
    }
}

// The first 16 bytes of the key and the pieces of the message, xored together.
fn xor_tag(key: &[u8; 32], message: &[u8]) -> [u8; 16]
    ensures { result ≡ xor_tag_of key.now message.now }
{
    let mut tag = first_16(key);
    for piece in message.chunks(PIECE_LEN) {
        tag = xor_piece(&tag, piece);
    }
    tag
}

// A tag and a piece, with zeros up to 16 bytes, xored byte by byte.
fn xor_piece(tag: &[u8; 16], piece: &[u8]) -> [u8; 16]
    requires { length piece.now ≤ 16 }
    ensures { result ≡ xor_of_pieces tag.now (padded_piece piece.now) }
{
    let mut xored = *tag;
    for (place, byte) in piece.iter().enumerate() {
        xored[place] ^= *byte;
    }
    xored
}
