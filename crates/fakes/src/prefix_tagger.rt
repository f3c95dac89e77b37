// A tagger whose tags are the first bytes of messages.
ghost use Rattle.std.specs.Prelude.{◌≡◌, ◌≤◌, refl, length};
ghost use Rattle.fakes.specs.PrefixTagger.{prefix_of};

use sec_base::Tagger;

/// Tags a message with its first 16 bytes: of a line 0x44, the line, the page's and the line's counter, and two bytes of
/// its ciphertext; of a node 0x4e, its level, its index, and ten bytes of its block.
#[derive(Drop)]
pub struct PrefixTagger;

impl Tagger for PrefixTagger {
    ghost data_tag_of = { λ _ message. prefix_of message };

    ghost node_tag_of = { λ _ message. prefix_of message };

    ghost data_tag_long = { λ _ _. refl };

    ghost node_tag_long = { λ _ _. refl };

    fn data_tag(&self, message: &[u8; 78]) -> [u8; 16] {
        prefix(message)
    }

    fn node_tag(&self, message: &[u8; 70]) -> [u8; 16] {
        prefix(message)
    }
}

/// The first 16 bytes of a message.
pub fn prefix(message: &[u8]) -> [u8; 16]
    requires { 16 ≤ length message.now }
    ensures { result ≡ prefix_of message.now }
{
    let m = message;
    [
        m[0], m[1], m[2], m[3], m[4], m[5], m[6], m[7], m[8], m[9], m[10], m[11], m[12], m[13],
        m[14], m[15],
    ]
}
