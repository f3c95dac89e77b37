// The messages that are tagged, and the bytes that their tags are computed of.
ghost use Rattle.std.specs.Prelude.{◌≡◌, ◌↔◌, ◌≤◌, [], length, IsTrue, IsNone};
ghost use Rattle.std.specs.List.{slice_get};
ghost use Rattle.sec_base.specs.declared.message.Message.{Message};
ghost use Rattle.sec_base.specs.Message.{data_bytes, node_bytes, message_bytes, IsMessage};

use crate::bytes::put;
use crate::counter::Counter;
use std::marker::Model;

/// A message that was given a tag.
#[derive(Clone, Copy, Debug, PartialEq, Eq)]
pub enum Message {
    /// The 64 bytes of a data line, sealed under its counter.
    Line {
        line: u32,
        counter: Counter,
        cipher: [u8; 64],
    },
    /// The 64 bytes of a node of the tree.
    Node {
        level: u8,
        index: u32,
        block: [u8; 64],
    },
}

/// Messages in the order in which they were tagged, which contracts see as a list.
#[derive(Debug, Drop)]
pub struct Messages {
    items: Vec<Message>,
}

impl Model for Messages {
    ghost use Rattle.std.specs.Prelude.{List};
    ghost use Rattle.sec_base.specs.declared.message.Message.{Message};

    ghost Value = { List Message };

    ghost view = { λ messages. messages.items.items };
}

impl Messages {
    /// The messages of a vector, which takes no memory.
    pub fn from_vec(items: Vec<Message>) -> Self
        ensures { result ≡ items.items }
    {
        Messages { items }
    }

    /// The vector, which takes no memory.
    pub fn into_vec(self) -> Vec<Message>
        ensures { result.items ≡ self }
    {
        let Messages { items } = self;
        items
    }

    /// How many there are.
    pub fn len(&self) -> u64
        ensures { result ≡ length self.now }
    {
        self.items.len() as u64
    }

    /// Whether there are no messages.
    pub fn is_empty(&self) -> bool
        ensures { IsTrue result ↔ (self.now ≡ []) }
    {
        self.items.is_empty()
    }

    /// The message at a place, `None` from the length on.
    pub fn get(&self, at: u64) -> Option<Message>
        ensures item { result ≡ slice_get self.now at }
        ensures none { IsNone result ↔ (length self.now ≤ at) }
    {
        self.items.get(at as usize).copied()
    }

    /// All messages, in order.
    pub fn as_slice(&self) -> &[Message]
        ensures { result.now ≡ self.now }
    {
        self.items.as_slice()
    }
}

/// The message of a data line: the byte 44, the line as u32 and the page's counter as u64, the lowest byte first,
/// the line's own counter, and its 64 bytes.
pub fn data_message(line: u32, counter: Counter, cipher: &[u8; 64]) -> [u8; 78]
    ensures { result ≡ data_bytes line counter cipher.now }
{
    let mut message = [0; 78];
    put(&mut message, 0, &[0x44]);
    put(&mut message, 1, &line.to_le_bytes());
    put(&mut message, 5, &counter.page.to_le_bytes());
    put(&mut message, 13, &[counter.line]);
    put(&mut message, 14, cipher);
    message
}

/// The message of a node: the byte 4e, the level, the index as u32, the lowest byte first, and its 64 bytes.
pub fn node_message(level: u8, index: u32, block: &[u8; 64]) -> [u8; 70]
    ensures { result ≡ node_bytes level index block.now }
{
    let mut message = [0; 70];
    put(&mut message, 0, &[0x4e, level]);
    put(&mut message, 2, &index.to_le_bytes());
    put(&mut message, 6, block);
    message
}

/// Two messages with the same bytes are one. It does nothing: its contract is a theorem over all messages.
pub fn messages_are_told_apart()
    ensures { (first second : Message) → IsMessage first → IsMessage second →
        message_bytes first ≡ message_bytes second → first ≡ second }
{}
