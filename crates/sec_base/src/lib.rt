//! The types and traits that every layer of the emulator shares: places of outside memory and their
//! geometry, programs and their segments, the memory that a processor sees, and what a run reads and writes.
#![tactic(auto)]

mod bytes;
mod counter;
mod ending;
mod evidence;
mod failing_calls;
mod files;
mod geometry;
mod image;
mod line_store;
mod memory_files;
mod memory_sink;
mod message;
mod pads;
mod place;
mod ram;
mod sealed;
mod segment;
mod sink;
mod stop;
mod tagger;
mod width;

pub use bytes::{Bytes, put};
pub use counter::Counter;
pub use ending::{Cause, Ending};
pub use evidence::Evidence;
pub use files::{Files, ReadStop};
pub use geometry::{Geometry, LINE_LEN, LINES_PER_PAGE, Layout, PAGE_LEN, page_of};
pub use image::{Image, is_entry};
pub use line_store::LineStore;
pub use memory_files::MemoryFiles;
pub use memory_sink::MemorySink;
pub use message::{Message, Messages, data_message, messages_are_told_apart, node_message};
pub use pads::Pads;
pub use place::Place;
pub use ram::Ram;
pub use sealed::{Sealed, TAG_LEN};
pub use segment::{Segment, Segments};
pub use sink::{Sink, SinkStop, write_all};
pub use stop::{MemStop, NoMemory, NoMemoryWith};
pub use tagger::Tagger;
pub use width::Width;
