// One read and one write of a node.
ghost use Rattle.std.specs.Prelude.{◌≡◌, ◌<◌, List, IfOk, length};
ghost use Rattle.sec_base.specs.Geometry.{IsNode};
ghost use Rattle.sec_base.specs.Place.{IsPlace};
ghost use Rattle.sec_base.specs.declared.message.Message.TheVariants.{Node};
ghost use Rattle.sec_base.specs.declared.place.Place.TheVariants.{Node as node_place};
ghost use Rattle.bus_model.specs.Access.{Access};
ghost use Rattle.tag_engine.specs.TagEngine.{after_make, tags_of};
ghost use Rattle.checked_bus.specs.Makes.{ReadsNode, WritesMessage, access_of, if_done};

use bus_model::Bus;
use sec_base::{MemStop, NoMemory, Place, Tagger};
use tag_engine::TagEngine;

/// The block of a node, read from its place and checked at once against this tag. It is refused as tampering where it has
/// another tag, and out of memory, where nothing was read.
pub fn read_node<B: Bus, T: Tagger>(
    bus: &mut B,
    tags: &mut TagEngine<T>,
    level: u8,
    index: u32,
    tag: &[u8; 16],
) -> Result<[u8; 64], MemStop>
    requires place { IsPlace (B.history bus.old).geometry (node_place level index) }
    requires node { IsNode tags.old.geometry level index }

    // One access, or none where memory was refused: what was answered, and what the check made of the engine and shows.
    ensures reads { (accesses : List Access) × B.moved bus.old accesses bus.new
        × ReadsNode (tags_of T.data_tag_of T.node_tag_of tags.old) level index tag.now
        (B.history bus.old) tags.old (B.history bus.new) tags.new accesses result }
{
    let block = bus.read_node(level, index)?;
    if !tags.check_node(level, index, &block, tag) {
        return Err(MemStop::Tampered(Place::Node { level, index }));
    }
    Ok(block)
}

/// Tags a node's block, puts it at the node's place and returns the tag. There is memory for the message. Out of memory
/// for the write itself, the message is made and nothing is written.
pub fn write_node<B: Bus, T: Tagger>(
    bus: &mut B,
    tags: &mut TagEngine<T>,
    level: u8,
    index: u32,
    block: &[u8; 64],
) -> Result<[u8; 16], NoMemory>
    requires place { IsPlace (B.history bus.old).geometry (node_place level index) }
    requires node { IsNode tags.old.geometry level index }
    requires room { 0 < tags.old.room }

    ensures made { tags.new ≡ after_make (Node level index block.now) tags.old }
    ensures tag { IfOk result (λ tag.
        (tag ≡ tags_of T.data_tag_of T.node_tag_of tags.old (Node level index block.now))
        × (length tag ≡ 16)) }

    // One access, or none where memory was refused: a write of the message, so that no answer was false.
    ensures makes { B.moved bus.old
        (if_done result (access_of (tags_of T.data_tag_of T.node_tag_of tags.old)
        (Node level index block.now))) bus.new
        × WritesMessage (tags_of T.data_tag_of T.node_tag_of tags.old) (Node level index block.now)
        (B.history bus.old) tags.old (B.history bus.new) tags.new result }
{
    let tag = tags.make_node(level, index, block)?;
    bus.write_node(level, index, block)?;
    Ok(tag)
}
