// Programs, as they are loaded.
ghost use Rattle.std.specs.Prelude.{◌≡◌, ◌↔◌, IsTrue};
ghost use Rattle.sec_base.specs.Image.{IsEntry, IsImage, is_entry};

use crate::segment::Segments;

/// A program for a memory of `size` bytes, which it fits: the segments stand over zeros, a later one over an earlier
/// one, and it begins at `entry`. There are at most 64 segments.
#[derive(Debug, Drop)]
pub struct Image {
    pub entry: u32,
    pub size: u32,
    pub segments: Segments,
    pub ghost fits: { IsImage entry size segments },
}

/// Whether a program may begin at an address of a memory of `size` bytes: it is a multiple of 4, and its word ends
/// inside the memory.
pub fn is_entry(size: u32, address: u32) -> bool
    ensures value { result ≡ is_entry size address }
    ensures entry { IsTrue result ↔ IsEntry size address }
{
    address % 4 == 0 && u64::from(address) + 4 <= u64::from(size)
}
