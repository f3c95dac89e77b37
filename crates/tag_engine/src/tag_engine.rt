// The engine that tags and checks the messages of one memory.
ghost use Rattle.std.specs.Prelude.{true, ◌≡◌, ◌↔◌, ◌<◌, ℕ, List, IsTrue, IsOk, IfOk, IfSome, None, Some, OnOk, OnErr, Contains, length};
ghost use Rattle.sec_base.specs.Evidence.{IsEvidence};
ghost use Rattle.sec_base.specs.Geometry.{IsNode, line_count};
ghost use Rattle.sec_base.specs.LastMessage.{last_at, last_node, node_part};
ghost use Rattle.sec_base.specs.declared.message.Message.TheVariants.{Line, Node};
ghost use Rattle.tag_engine.specs.Tag.{marked};
ghost use Rattle.tag_engine.specs.TagEngine.{after_check_data, after_check_node, after_make, collision_of, forgery_of, new_engine, tags_of, with_room};

use crate::last_place::LastPlace;
use sec_base::{
    Counter, Evidence, Geometry, Layout, Message, Messages, NoMemory, Sealed, Tagger, data_message,
    node_message, put,
};
use std::alloc::Global;
use std::marker::Model;

/// Tags the messages of one memory, and checks their tags.
#[derive(Drop)]
pub struct TagEngine<T: Tagger> {
    tagger: T,
    geometry: Geometry,
    made: Vec<Message>,
    // Where the last message of each line stands, and that of each node, by the node's number.
    line_places: Vec<LastPlace>,
    node_places: Vec<LastPlace>,
    evidence: Option<Evidence>,
    room: u64,
}

impl<T: Tagger> Model for TagEngine<T> {
    ghost use Rattle.std.specs.Vec.{vec_capacity};
    ghost use Rattle.tag_engine.specs.TagEngine.{TagEngineView, tags_of};

    ghost Value = { TagEngineView T };

    ghost use Rattle.tag_engine.specs.Invariant.{engine_view, IsTagEngine};

    ghost view = { engine_view };

    ghost invariant = { λ inside. IsTagEngine (tags_of T.data_tag_of T.node_tag_of (engine_view inside))
        inside.line_places.items inside.node_places.items (vec_capacity inside.made) (engine_view inside) };
}

impl<T: Tagger> TagEngine<T> {
    /// An engine for a memory of this geometry that tagged nothing. Out of memory, the tagger is dropped.
    pub fn new(alloc: Global, tagger: T, geometry: Geometry) -> Result<TagEngine<T>, NoMemory>
        ensures { IfOk result (λ engine. engine ≡ new_engine tagger geometry) }
    {
        Ok(TagEngine {
            tagger,
            geometry,
            made: Vec::new(alloc),
            line_places: vec![in alloc; LastPlace::none(); geometry.lines() as usize]?,
            node_places: vec![in alloc; LastPlace::none(); geometry.node_end() as usize]?,
            evidence: None,
            room: 0,
        })
    }

    /// Takes memory for the next `n` messages, so that none of them is refused.
    pub fn reserve(&mut self, n: u64) -> Result<(), NoMemory>
        ensures taken { OnOk result (self.new ≡ with_room n self.old) }
        ensures refused { OnErr result (self.new ≡ self.old) }
    {
        self.made.reserve(n as usize)?;
        self.room = self.room.max(n);
        Ok(())
    }

    /// Puts the message of a data line in the list of those that were tagged, and returns its tag.
    pub fn make_data(
        &mut self,
        line: u32,
        counter: Counter,
        cipher: &[u8; 64],
    ) -> Result<[u8; 16], NoMemory>
        requires inside { line < line_count self.old.geometry }

        ensures tag { IfOk result (λ tag.
            tag ≡ tags_of T.data_tag_of T.node_tag_of self.old (Line line counter cipher.now)) }
        ensures made { OnOk result (self.new ≡ after_make (Line line counter cipher.now) self.old) }

        ensures sure { 0 < self.old.room → IsOk result }
        ensures refused { OnErr result (self.new ≡ self.old) }
    {
        let tag = self.line_tag(line, counter, cipher);
        let message = Message::Line {
            line,
            counter,
            cipher: *cipher,
        };
        self.made.push(message)?;
        self.line_places[line as usize] = LastPlace::last_of(self.made.len());
        self.room = self.room.saturating_sub(1);
        Ok(tag)
    }

    /// Puts the message of a node in the list of those that were tagged, and returns its tag.
    pub fn make_node(
        &mut self,
        level: u8,
        index: u32,
        block: &[u8; 64],
    ) -> Result<[u8; 16], NoMemory>
        requires inside { IsNode self.old.geometry level index }

        ensures tag { IfOk result (λ tag.
            tag ≡ tags_of T.data_tag_of T.node_tag_of self.old (Node level index block.now)) }
        ensures made { OnOk result (self.new ≡ after_make (Node level index block.now) self.old) }

        ensures sure { 0 < self.old.room → IsOk result }
        ensures refused { OnErr result (self.new ≡ self.old) }
    {
        let tag = self.node_tag(level, index, block);
        let message = Message::Node {
            level,
            index,
            block: *block,
        };
        let number = self.geometry.node_number(level, index);
        self.made.push(message)?;
        self.node_places[number as usize] = LastPlace::last_of(self.made.len());
        self.room = self.room.saturating_sub(1);
        Ok(tag)
    }

    /// Whether a data line has the tag of its message. The first that has it and was never tagged is kept. A check
    /// takes no memory.
    pub fn check_data(&mut self, line: u32, counter: Counter, sealed: &Sealed) -> bool
        requires inside { line < line_count self.old.geometry }

        ensures passes { IsTrue result ↔ (sealed.now.tag
            ≡ tags_of T.data_tag_of T.node_tag_of self.old (Line line counter sealed.now.cipher)) }
        ensures state { self.new ≡ after_check_data line counter sealed.now result self.old }

        // What passes and leaves no evidence was made.
        ensures known { IsTrue result → self.new.evidence ≡ None →
            Contains self.old.made (Line line counter sealed.now.cipher) }
        ensures genuine { IfSome self.new.evidence
            (IsEvidence (tags_of T.data_tag_of T.node_tag_of self.new) self.new.made) }
    {
        if self.line_tag(line, counter, &sealed.cipher) != sealed.tag {
            return false;
        }
        if self.evidence.is_none() {
            self.evidence = forgery(
                &self.made,
                self.line_places[line as usize].get(),
                line,
                counter,
                sealed,
            );
        }
        true
    }

    /// Whether the message of a node has this tag. The first block that has the tag of the node's last one, and is
    /// another, is kept. A check takes no memory.
    pub fn check_node(&mut self, level: u8, index: u32, block: &[u8; 64], tag: &[u8; 16]) -> bool
        requires inside { IsNode self.old.geometry level index }

        ensures passes { IsTrue result ↔ (tag.now
            ≡ tags_of T.data_tag_of T.node_tag_of self.old (Node level index block.now)) }
        ensures state { self.new ≡ after_check_node (tags_of T.data_tag_of T.node_tag_of self.old)
            level index block.now tag.now result self.old }

        // What passes against the tag of the last block and leaves no evidence is that block.
        ensures known { (last : List ℕ) → IsTrue result → self.new.evidence ≡ None →
            last_node level index self.old.made ≡ Some last →
            tag.now ≡ tags_of T.data_tag_of T.node_tag_of self.old (Node level index last) →
            block.now ≡ last }
        ensures genuine { IfSome self.new.evidence
            (IsEvidence (tags_of T.data_tag_of T.node_tag_of self.new) self.new.made) }
    {
        if self.node_tag(level, index, block) != *tag {
            return false;
        }
        if self.evidence.is_none() {
            self.evidence = self.collision(level, index, block, tag);
        }
        true
    }

    /// Drops the tagger, and returns the messages that were tagged, in order, and the first evidence that a check showed.
    pub fn finish(self) -> (Messages, Option<Evidence>)
        ensures made { result.0 ≡ self.made }
        ensures evidence { result.1 ≡ self.evidence }
        ensures genuine { IfSome result.1
            (IsEvidence (tags_of T.data_tag_of T.node_tag_of self) result.0) }
    {
        let TagEngine {
            tagger: _tagger,
            geometry: _,
            made,
            line_places: _line_places,
            node_places: _node_places,
            evidence,
            room: _,
        } = self;
        (Messages::from_vec(made), evidence)
    }

    // The tag of a data line's message.
    #[tactic(auto, unfolding(crate::specs::Tag::engine_tag))]
    fn line_tag(&self, line: u32, counter: Counter, cipher: &[u8; 64]) -> [u8; 16]
        ensures { result ≡ tags_of T.data_tag_of T.node_tag_of self.now
            (Line line counter cipher.now) }
    {
        let bytes = self.tagger.data_tag(&data_message(line, counter, cipher));
        mark(self.geometry.layout(), bytes)
    }

    // The tag of a node's message.
    #[tactic(auto, unfolding(crate::specs::Tag::engine_tag))]
    fn node_tag(&self, level: u8, index: u32, block: &[u8; 64]) -> [u8; 16]
        ensures { result ≡ tags_of T.data_tag_of T.node_tag_of self.now
            (Node level index block.now) }
    {
        let bytes = self.tagger.node_tag(&node_message(level, index, block));
        mark(self.geometry.layout(), bytes)
    }

    // What a check shows that a node passed: that its block is not the last one, and has the same tag.
    fn collision(&self, level: u8, index: u32, block: &[u8; 64], tag: &[u8; 16]) -> Option<Evidence>
        requires { IsNode self.now.geometry level index }
        ensures { result ≡ collision_of (tags_of T.data_tag_of T.node_tag_of self.now) self.now.made
            level index block.now tag.now true }
    {
        let (made_at, last) = self.last_block(level, index)?;
        if last == *block {
            return None;
        }
        if self.node_tag(level, index, &last) != *tag {
            return None;
        }
        Some(Evidence::Collision {
            level,
            index,
            made_at: made_at as u64,
            accepted: *block,
            tag: *tag,
        })
    }

    // Where the last message of a node stands, and its block.
    fn last_block(&self, level: u8, index: u32) -> Option<(usize, [u8; 64])>
        requires { IsNode self.now.geometry level index }
        ensures { result ≡ last_at (node_part level index) self.now.made }
    {
        let at = self.node_places[self.geometry.node_number(level, index) as usize].get()?;
        match self.made[at] {
            Message::Node { block, .. } => Some((at, block)),
            Message::Line { .. } => None,
        }
    }
}

// A tagger's bytes as the layout keeps them, with a bit set, so that no tag is zeros.
fn mark(layout: Layout, bytes: [u8; 16]) -> [u8; 16]
    ensures { result ≡ marked layout bytes }
{
    let mut tag = bytes;
    match layout {
        Layout::One => tag[15] |= 1,
        Layout::Two => {
            tag[7] |= 1;
            put(&mut tag, 8, &[0; 8]);
        }
    }
    tag
}

// What a check shows that a sealed line passed: that its message is none of those made.
#[tactic(auto, using(crate::proofs::Forgeries::no_forgery, crate::proofs::Forgeries::a_forgery))]
fn forgery(
    made: &[Message],
    last: Option<usize>,
    line: u32,
    counter: Counter,
    sealed: &Sealed,
) -> Option<Evidence>
    requires { IfSome last (λ at. at < length made.now) }
    ensures { result ≡ forgery_of made.now line counter sealed.now true }
{
    let message = Message::Line {
        line,
        counter,
        cipher: sealed.cipher,
    };
    if was_made(made, last, &message) {
        return None;
    }
    Some(Evidence::Forgery {
        line,
        counter,
        sealed: *sealed,
        made_count: made.len() as u64,
    })
}

// Whether a message is one of those made, of which the last one of its line is looked at first.
fn was_made(made: &[Message], last: Option<usize>, message: &Message) -> bool
    requires { IfSome last (λ at. at < length made.now) }
    ensures { IsTrue result ↔ Contains made.now message.now }
{
    if let Some(at) = last {
        if made[at] == *message {
            return true;
        }
    }
    made.contains(message)
}
