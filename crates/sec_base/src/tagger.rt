// How messages are tagged.
ghost use Rattle.std.specs.Prelude.{◌≡◌, ℕ, List, length};

/// Gives tags to messages. A tag depends on the message's bytes and on the key that the tagger holds, and on
/// nothing else.
pub trait Tagger: Drop {
    /// The tag of the message of a data line, by its bytes.
    ghost data_tag_of: { Self → List ℕ → List ℕ };

    /// The tag of the message of a node, by its bytes.
    ghost node_tag_of: { Self → List ℕ → List ℕ };

    /// The tag of a data line's message, as `data_message` makes it.
    fn data_tag(&self, message: &[u8; 78]) -> [u8; 16]
        ensures { result ≡ data_tag_of self.now message.now };

    /// The tag of a node's message, as `node_message` makes it.
    fn node_tag(&self, message: &[u8; 70]) -> [u8; 16]
        ensures { result ≡ node_tag_of self.now message.now };

    /// A tag has 16 bytes.
    ghost data_tag_long: { (tagger : Self) (message : List ℕ) → length (data_tag_of tagger message) ≡ 16 };

    /// A tag has 16 bytes.
    ghost node_tag_long: { (tagger : Self) (message : List ℕ) → length (node_tag_of tagger message) ≡ 16 };
}
