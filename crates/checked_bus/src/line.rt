// One read and one write of a data line.
ghost use Rattle.std.specs.Prelude.{◌≡◌, ◌<◌, List};
ghost use Rattle.sec_base.specs.Geometry.{line_count};
ghost use Rattle.sec_base.specs.Place.{IsPlace};
ghost use Rattle.sec_base.specs.declared.message.Message.TheVariants.{Line};
ghost use Rattle.sec_base.specs.declared.place.Place.TheVariants.{Line as line_place};
ghost use Rattle.bus_model.specs.Access.{Access};
ghost use Rattle.tag_engine.specs.TagEngine.{after_make, tags_of};
ghost use Rattle.checked_bus.specs.Makes.{ReadsLine, WritesMessage, access_of, if_done};

use bus_model::Bus;
use sec_base::{Counter, MemStop, NoMemory, Place, Sealed, Tagger};
use tag_engine::TagEngine;

/// The ciphertext of a line, read from its place and checked against the tag of its message under this counter. It is
/// refused as tampering where it has another tag, and out of memory, where nothing was read.
pub fn read_line<B: Bus, T: Tagger>(
    bus: &mut B,
    tags: &mut TagEngine<T>,
    line: u32,
    counter: Counter,
) -> Result<[u8; 64], MemStop>
    requires place { IsPlace (B.history bus.old).geometry (line_place line) }
    requires line { line < line_count tags.old.geometry }

    // One access, or none where memory was refused: what was answered, and what the check made of the engine and shows.
    ensures reads { (accesses : List Access) × B.moved bus.old accesses bus.new
        × ReadsLine (tags_of T.data_tag_of T.node_tag_of tags.old) line counter
        (B.history bus.old) tags.old (B.history bus.new) tags.new accesses result }
{
    let sealed = bus.read_data(line)?;
    if !tags.check_data(line, counter, &sealed) {
        return Err(MemStop::Tampered(Place::Line(line)));
    }
    Ok(sealed.cipher)
}

/// Tags a line's ciphertext under a counter and puts both at the line's place. There is memory for the message. Out of
/// memory for the write itself, the message is made and nothing is written.
pub fn write_line<B: Bus, T: Tagger>(
    bus: &mut B,
    tags: &mut TagEngine<T>,
    line: u32,
    counter: Counter,
    cipher: &[u8; 64],
) -> Result<(), NoMemory>
    requires bus { (B.history bus.old).geometry ≡ tags.old.geometry }
    requires line { line < line_count tags.old.geometry }
    requires room { 0 < tags.old.room }

    ensures made { tags.new ≡ after_make (Line line counter cipher.now) tags.old }

    // One access, or none where memory was refused: a write of the message, so that no answer was false.
    ensures makes { B.moved bus.old
        (if_done result (access_of (tags_of T.data_tag_of T.node_tag_of tags.old)
        (Line line counter cipher.now))) bus.new
        × WritesMessage (tags_of T.data_tag_of T.node_tag_of tags.old)
        (Line line counter cipher.now)
        (B.history bus.old) tags.old (B.history bus.new) tags.new result }
{
    let tag = tags.make_data(line, counter, cipher)?;
    let sealed = Sealed {
        cipher: *cipher,
        tag,
    };
    bus.write_data(line, &sealed)
}
