// The calls that are timed, and what they are made on.
ghost use Rattle.std.specs.Prelude.{◌≡◌, slice_index_or};
ghost use Rattle.sec_base.specs.Message.{data_bytes};
ghost use Rattle.aes128_block.specs.KeyExpansion.{encrypted};
ghost use Rattle.hmac_tag.specs.Hmac.{hmac_of};
ghost use Rattle.hmac_tag.specs.Tags.{tag_of};

use crate::lines::TimedLines;
use aes128_block::Key;
use hmac_tag::{HmacTagger, derive, hmac};
use sec_base::{Counter, MemStop, NoMemory, Tagger, data_message};
use std::alloc::Global;
use std::fmt;

/// A call that is timed.
#[derive(Clone, Copy, Debug)]
pub(crate) enum Call {
    /// The tag of a data line's message.
    Tag,
    /// The HMAC of the same message, whose key is hashed each time.
    Hmac,
    /// The cipher of a block.
    Block,
    /// A line that is enciphered, tagged and put outside.
    Write,
    /// A line that is fetched, checked and deciphered.
    Read,
    /// A write of one line, whose page is enciphered anew by every 128th of them.
    Wear,
}

impl Call {
    /// All of them. The line is written before it is read.
    pub(crate) const ALL: [Call; 6] = [
        Call::Tag,
        Call::Hmac,
        Call::Block,
        Call::Write,
        Call::Read,
        Call::Wear,
    ];
}

impl fmt::Display for Call {
    fn fmt<W: fmt::Write>(&self, f: &mut fmt::Formatter<W>) -> fmt::Result {
        f.write_str(match self {
            Call::Tag => "HMAC tag",
            Call::Hmac => "HMAC with its key",
            Call::Block => "AES block",
            Call::Write => "line write",
            Call::Read => "line read",
            Call::Wear => "worn line write",
        })
    }
}

/// What the calls are made on. Each call takes what the one before it gave, so none can be left out.
#[derive(Drop)]
pub(crate) struct Parts {
    tagged: Tagged,
    hashed: Hashed,
    block: Block,
    lines: TimedLines,
}

impl Parts {
    pub(crate) fn new(alloc: Global) -> Result<Parts, NoMemory> {
        let keys = derive(&[0; 32]);
        Ok(Parts {
            tagged: Tagged {
                tagger: HmacTagger::new(&keys),
                tag: [0; 16],
            },
            hashed: Hashed {
                key: keys.line_key,
                digest: [0; 32],
            },
            block: Block {
                key: Key::new(&keys.enc_key),
                bytes: [0; 16],
            },
            lines: TimedLines::new(alloc, &keys)?,
        })
    }

    /// Makes one call, of one round after another.
    pub(crate) fn make(&mut self, call: Call, round: u64) -> Result<(), MemStop> {
        match call {
            Call::Tag => self.tagged.advance(),
            Call::Hmac => self.hashed.advance(),
            Call::Block => self.block.advance(),
            Call::Write => return self.lines.write(round),
            Call::Read => return self.lines.read(),
            Call::Wear => return self.lines.wear(),
        }
        Ok(())
    }

    /// The last byte of the tag, of the HMAC, of the block and of the line.
    pub(crate) fn last_bytes(&self) -> [u8; 4] {
        [
            self.tagged.tag[15],
            self.hashed.digest[31],
            self.block.bytes[15],
            self.lines.last_byte(),
        ]
    }
}

// A tag, and what gives the next one.
#[derive(Drop)]
pub(crate) struct Tagged {
    pub(crate) tagger: HmacTagger,
    pub(crate) tag: [u8; 16],
}

impl Tagged {
    // Tags the message of a line whose number goes by the tag.
    pub(crate) fn advance(&mut self)
        ensures { self.new.tag
            ≡ tag_of self.old.tagger.line_key (data_bytes (slice_index_or self.old.tag 0 0) COUNTER
            LINE) }
    {
        let message = data_message(u32::from(self.tag[0]), COUNTER, &LINE);
        self.tag = self.tagger.data_tag(&message);
    }
}

// An HMAC, and the key that makes the next one.
#[derive(Drop)]
pub(crate) struct Hashed {
    pub(crate) key: [u8; 32],
    pub(crate) digest: [u8; 32],
}

impl Hashed {
    // Takes the HMAC of the message of a line whose number goes by the last one.
    pub(crate) fn advance(&mut self)
        ensures digest { self.new.digest
            ≡ hmac_of self.old.key (data_bytes (slice_index_or self.old.digest 0 0) COUNTER LINE) }
        ensures key { self.new.key ≡ self.old.key }
    {
        let message = data_message(u32::from(self.digest[0]), COUNTER, &LINE);
        self.digest = hmac(&self.key, &message);
    }
}

// The counter and the bytes of the line whose message is tagged.
const COUNTER: Counter = Counter { page: 1, line: 0 };

const LINE: [u8; 64] = [0; 64];

// A block, and the key that makes the next one of it.
#[derive(Drop)]
pub(crate) struct Block {
    pub(crate) key: Key,
    pub(crate) bytes: [u8; 16],
}

impl Block {
    // Enciphers the block.
    pub(crate) fn advance(&mut self)
        ensures bytes { self.new.bytes ≡ encrypted self.old.key self.old.bytes }
        ensures key { self.new.key ≡ self.old.key }
    {
        self.bytes = self.key.encrypt(&self.bytes);
    }
}
