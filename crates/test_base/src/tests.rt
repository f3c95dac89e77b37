// Each public call once with ample memory, but those of a geometry. The page of a line is that of Python's
// divmod(line, 64). The texts of endings are those of docs/FORMATS.md, with hexadecimal digits of Python's
// format(pc, '08x').
ghost use Rattle.std.specs.Prelude.{IfOk, replicate, refl};
ghost use Rattle.sec_base.specs.Image.{IsImage};

use sec_base::{
    Bytes, Cause, Counter, Ending, Files, Image, MemoryFiles, MemorySink, Message, Messages, Pads,
    Place, ReadStop, Segment, Segments, Sink, SinkStop, Tagger, Width, data_message, is_entry,
    node_message, page_of, put, write_all,
};
use std::alloc::{AllocError, Global};
use std::test::Fail;

#[test]
fn a_line_stands_in_its_page(rt: HostRuntime) {
    for (line, page) in [(0, 0), (63, 0), (64, 1), (16383, 255), (4194303, 65535)] {
        assert_eq!(rt; page_of(line), page, "at {line}");
    }
}

#[test]
fn an_entry_is_a_word_inside_the_memory(rt: HostRuntime) {
    let rows = [
        (0, true),
        (2, false),
        (16380, true),
        (16381, false),
        (16384, false),
        (0xffff_fffc, false),
    ];
    for (address, fits) in rows {
        assert_eq!(rt; is_entry(16384, address), fits, "at {address}");
    }
}

#[test]
fn numbers_stand_lowest_byte_first(rt: HostRuntime) {
    let mut bytes = [9; 6];
    Width::Four.write(&mut bytes, 1, 0x1122_3344);
    assert_eq!(rt; bytes, [9, 0x44, 0x33, 0x22, 0x11, 9]);
    assert_eq!(rt; Width::One.read(&bytes, 1), 0x44);
    assert_eq!(rt; Width::Two.read(&bytes, 1), 0x3344);
    assert_eq!(rt; Width::Four.read(&bytes, 1), 0x1122_3344);
    Width::Two.write(&mut bytes, 4, 0x5566_7788);
    assert_eq!(rt; bytes, [9, 0x44, 0x33, 0x22, 0x88, 0x77]);
    Width::One.write(&mut bytes, 0, 0x99aa_bbcc);
    assert_eq!(rt; bytes, [0xcc, 0x44, 0x33, 0x22, 0x88, 0x77]);
    for (width, len) in [(Width::One, 1), (Width::Two, 2), (Width::Four, 4)] {
        assert_eq!(rt; width.bytes(), len, "at {width:?}");
    }
}

#[test]
fn a_piece_is_put_at_its_place(rt: HostRuntime) {
    let mut bytes = [0; 6];
    put(&mut bytes, 2, &[7, 8]);
    assert_eq!(rt; bytes, [0, 0, 7, 8, 0, 0]);
}

#[test]
fn bytes_keep_their_items(rt: HostRuntime) -> Result<(), Fail> {
    let none = Bytes::new(rt.alloc());
    assert!(rt; none.is_empty());
    let bytes = Bytes::from_vec([7, 8, 9].to_vec(rt.alloc())?);
    assert_eq!(rt; bytes.len(), 3);
    assert!(rt; !bytes.is_empty());
    assert_eq!(rt; bytes.as_slice(), [7, 8, 9].as_slice());
    let copy = Bytes::from_slice(rt.alloc(), bytes.as_slice())?;
    assert_eq!(rt; copy.as_slice(), [7, 8, 9].as_slice());
    assert_eq!(rt; bytes.into_vec().as_slice(), [7, 8, 9].as_slice());
    Ok(())
}

// One segment at 0, with the word of `addi x0, x0, 0` and a word of zeros.
fn one_segment(alloc: Global) -> Result<Segments, AllocError>
    ensures { IfOk result (λ segments. IsImage 4 16384 segments) }
{
    let bytes = Bytes::from_vec([0x13, 0, 0, 0].to_vec(alloc)?);
    let mut items = Vec::new(alloc);
    items.push(Segment {
        addr: 0,
        length: 8,
        bytes,
    })?;
    Ok(Segments::from_vec(items))
}

#[test]
fn segments_are_got_by_their_place(rt: HostRuntime) -> Result<(), Fail> {
    let segments = one_segment(rt.alloc())?;
    assert_eq!(rt; segments.len(), 1);
    assert!(rt; !segments.is_empty());
    assert_eq!(rt; segments.as_slice().len(), 1);
    assert!(rt; segments.get(1).is_none());
    let segment = segments.get(0).ok_or("no segment")?;
    assert_eq!(rt; segment.length, 8);
    assert_eq!(rt; segment.bytes.as_slice(), [0x13, 0, 0, 0].as_slice());
    Ok(())
}

#[test]
fn one_segment_begins_at_zero(rt: HostRuntime) -> Result<(), Fail> {
    let bytes = Bytes::from_vec([7, 8, 9].to_vec(rt.alloc())?);
    let segments = Segments::from_zero(rt.alloc(), bytes)?;
    assert_eq!(rt; segments.len(), 1);
    let segment = segments.get(0).ok_or("no segment")?;
    assert_eq!(rt; segment.addr, 0);
    assert_eq!(rt; segment.length, 3);
    assert_eq!(rt; segment.bytes.as_slice(), [7, 8, 9].as_slice());
    Ok(())
}

#[test]
fn an_image_fits_its_memory(rt: HostRuntime) -> Result<(), Fail> {
    let image = Image {
        entry: 4,
        size: 16384,
        segments: one_segment(rt.alloc())?,
    };
    assert_eq!(rt; image.segments.len(), 1);
    Ok(())
}

fn write_to<S: Sink>(sink: &mut S, piece: &[u8]) -> Result<usize, SinkStop> {
    sink.write(piece)
}

#[test]
fn a_sink_fails_at_its_calls(rt: HostRuntime) -> Result<(), Fail> {
    let mut sink = MemorySink::new(rt.alloc(), &[2, 4])?;
    let rows: [(&[u8], Result<usize, SinkStop>); 6] = [
        (b"ab", Ok(2)),
        (b"", Ok(0)),
        (b"cd", Err(SinkStop::Failed)),
        (b"", Ok(0)),
        (b"e", Ok(1)),
        (b"f", Err(SinkStop::Failed)),
    ];
    for (piece, answer) in rows {
        assert_eq!(rt; write_to(&mut sink, piece), answer, "at {piece:?}");
    }
    assert_eq!(rt; sink.bytes(), b"abe".as_slice());
    Ok(())
}

#[test]
fn a_piece_is_written_whole(rt: HostRuntime) -> Result<(), Fail> {
    let mut sink = MemorySink::new(rt.alloc(), &[2])?;
    assert_eq!(rt; write_all(&mut sink, b"abc"), Ok(()));
    assert_eq!(rt; write_all(&mut sink, b"d"), Err(SinkStop::Failed));
    assert_eq!(rt; sink.bytes(), b"abc".as_slice());
    Ok(())
}

#[test]
fn a_short_sink_takes_a_piece_in_parts(rt: HostRuntime) -> Result<(), Fail> {
    let mut sink = MemorySink::short(rt.alloc(), 2)?;
    let rows: [(&[u8], usize); 4] = [(b"abcde", 2), (b"f", 1), (b"", 0), (b"gh", 2)];
    for (piece, taken) in rows {
        assert_eq!(rt; write_to(&mut sink, piece), Ok(taken), "at {piece:?}");
    }
    assert_eq!(rt; write_all(&mut sink, b"ijk"), Ok(()));
    assert_eq!(rt; sink.bytes(), b"abfghijk".as_slice());
    Ok(())
}

fn answer_of<F: Files>(
    files: &mut F,
    alloc: Global,
    name: &str,
    limit: u64,
) -> Result<Vec<u8>, ReadStop> {
    match files.read(alloc, name, limit) {
        Ok(bytes) => Ok(bytes.into_vec()),
        Err(stop) => Err(stop),
    }
}

#[test]
fn files_answer_as_they_are(rt: HostRuntime) -> Result<(), Fail> {
    let mut files = MemoryFiles::new(rt.alloc(), &[2])?;
    files.add("image", b"old")?;
    files.add("other", b"")?;
    files.add("image", b"newer")?;
    let rows: [(&str, u64, Result<&[u8], ReadStop>); 7] = [
        ("image", 5, Ok(b"newer")),
        ("image", 5, Err(ReadStop::Failed)),
        ("image", 4, Err(ReadStop::Long)),
        ("image", 6, Ok(b"newer")),
        ("other", 0, Ok(b"")),
        ("absent", 9, Err(ReadStop::Failed)),
        ("imag", 9, Err(ReadStop::Failed)),
    ];
    for (name, limit, want) in rows {
        match (answer_of(&mut files, rt.alloc(), name, limit), want) {
            (Ok(bytes), Ok(wanted)) => assert_eq!(rt;
                bytes.as_slice(),
                wanted,
                "{name} within {limit}"
            ),
            (Err(stop), Err(wanted)) => assert_eq!(rt; stop, wanted, "{name} within {limit}"),
            _ => assert!(rt; false, "{name} within {limit}"),
        }
    }
    Ok(())
}

#[test]
fn causes_have_their_words(rt: HostRuntime) -> Result<(), Fail> {
    let rows = [
        (Cause::Illegal, "illegal"),
        (Cause::MisalignedTarget, "misaligned target"),
        (Cause::MisalignedData, "misaligned data"),
        (Cause::OutsideMemory, "outside memory"),
        (Cause::Breakpoint, "breakpoint"),
    ];
    for (cause, words) in rows {
        assert_eq!(rt; format!(in rt.alloc(); "{cause}")?.as_str(), words);
    }
    Ok(())
}

#[test]
fn endings_have_their_words(rt: HostRuntime) -> Result<(), Fail> {
    let trap = Ending::Trapped {
        cause: Cause::MisalignedData,
        pc: 0xfc,
    };
    let node = Place::Node { level: 2, index: 3 };
    let rows = [
        (Ending::Halted(7), "halted 7"),
        (trap, "trapped misaligned data pc 000000fc"),
        (Ending::OutOfSteps, "out of steps"),
        (Ending::Tampered(Place::Line(16)), "tampered data 16"),
        (Ending::Tampered(node), "tampered node 2 3"),
        (Ending::Spent(5), "spent page 5"),
        (Ending::WriteFault, "write fault"),
        (Ending::NoMemory, "no memory"),
    ];
    for (ending, words) in rows {
        assert_eq!(rt; format!(in rt.alloc(); "{ending}")?.as_str(), words);
    }
    Ok(())
}

// The bytes are those of Python's `int.to_bytes(n, 'little')`.
#[test]
fn a_data_message_has_its_line_counter_and_bytes(rt: HostRuntime) {
    let written = data_message(5, Counter { page: 0, line: 1 }, &[0; 64]);
    assert_eq!(rt;
        &written[..14],
        [0x44, 5, 0, 0, 0, 0, 0, 0, 0, 0, 0, 0, 0, 1].as_slice()
    );
    assert_eq!(rt; &written[14..], [0; 64].as_slice());
    let counter = Counter {
        page: 0x1122_3344_5566_7788,
        line: 0x7f,
    };
    let mut cipher = [0; 64];
    cipher[0] = 0xaa;
    cipher[63] = 0xbb;
    let written = data_message(0x0102_0304, counter, &cipher);
    assert_eq!(rt;
        &written[..14],
        [
            0x44, 4, 3, 2, 1, 0x88, 0x77, 0x66, 0x55, 0x44, 0x33, 0x22, 0x11, 0x7f
        ]
        .as_slice()
    );
    assert_eq!(rt; &written[14..], cipher.as_slice());
}

#[test]
fn a_node_message_has_its_place_and_block(rt: HostRuntime) {
    let mut block = [0; 64];
    block[0] = 0xaa;
    block[63] = 0xbb;
    let written = node_message(1, 2, &block);
    assert_eq!(rt; &written[..6], [0x4e, 1, 2, 0, 0, 0].as_slice());
    assert_eq!(rt; &written[6..], block.as_slice());
    let written = node_message(6, 0x0102_0304, &block);
    assert_eq!(rt; &written[..6], [0x4e, 6, 4, 3, 2, 1].as_slice());
}

#[test]
fn messages_are_got_by_their_place(rt: HostRuntime) -> Result<(), Fail> {
    let first = Message::Line {
        line: 5,
        counter: Counter { page: 1, line: 0 },
        cipher: [7; 64],
    };
    let second = Message::Node {
        level: 1,
        index: 2,
        block: [8; 64],
    };
    let messages = Messages::from_vec([first, second].to_vec(rt.alloc())?);
    assert_eq!(rt; messages.len(), 2);
    assert!(rt; !messages.is_empty());
    assert_eq!(rt; messages.get(0), Some(first));
    assert_eq!(rt; messages.get(1), Some(second));
    assert_eq!(rt; messages.get(2), None);
    assert_eq!(rt; messages.get(u64::MAX), None);
    assert_eq!(rt; messages.as_slice().len(), 2);
    assert_eq!(rt; messages.into_vec().len(), 2);
    Ok(())
}

#[test]
fn pads_are_got_by_their_place(rt: HostRuntime) -> Result<(), Fail> {
    let entry = (5, Counter { page: 1, line: 2 });
    let pads = Pads::from_vec([entry].to_vec(rt.alloc())?);
    assert_eq!(rt; pads.len(), 1);
    assert!(rt; !pads.is_empty());
    assert_eq!(rt; pads.get(0), Some(entry));
    assert_eq!(rt; pads.get(1), None);
    assert_eq!(rt; pads.as_slice().len(), 1);
    assert_eq!(rt; pads.into_vec().len(), 1);
    Ok(())
}

// All tags are zeros.
#[derive(Drop)]
struct ZeroTags;

impl Tagger for ZeroTags {
    ghost data_tag_of = { λ tagger message. replicate 16 0 };

    ghost node_tag_of = { λ tagger message. replicate 16 0 };

    fn data_tag(&self, _message: &[u8; 78]) -> [u8; 16] {
        [0; 16]
    }

    fn node_tag(&self, _message: &[u8; 70]) -> [u8; 16] {
        [0; 16]
    }

    ghost data_tag_long = { λ tagger message. refl };

    ghost node_tag_long = { λ tagger message. refl };
}

#[test]
fn a_tagger_may_give_one_tag_to_all(rt: HostRuntime) {
    let tagger = ZeroTags;
    assert_eq!(rt; tagger.data_tag(&[1; 78]), [0; 16]);
    assert_eq!(rt; tagger.node_tag(&[2; 70]), [0; 16]);
}
