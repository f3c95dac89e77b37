// The measurement of a program.

ghost use Rattle.elf_load.specs.Measurement.{measurement_of, segment_record};
ghost use Rattle.sha2.specs.Hashers.{Holds256};
ghost use Rattle.std.specs.Prelude.{List, length, ℕ, ◌++◌, ◌<◌, ◌^◌, ◌≡◌};

use crate::fields::u32_bytes;
use sec_base::{Image, Segment};
use sha2::{Digest, Sha256};

/// The measurement of a program, which takes no memory.
#[tactic(auto, unfolding(crate::specs::Measurement::measurement_by))]
pub fn measure(image: &Image) -> [u8; 32]
    ensures { result ≡ measurement_of image.now }
{
    let segments = image.segments.as_slice();
    let mut hasher = Sha256::new();
    hasher.update(u32_bytes(image.entry));
    hasher.update(u32_bytes(image.size));
    hasher.update(u32_bytes(segments.len() as u32));
    for segment in segments {
        update_by_segment(&mut hasher, segment);
    }
    hasher.finalize()
}

// Hashes a segment's record.
fn update_by_segment(hasher: &mut Sha256, segment: &Segment)
    requires { length segment.now.bytes < 2 ^ 32 }
    ensures { (message : List ℕ) → Holds256 hasher.old message →
        Holds256 hasher.new (message ++ segment_record segment.now) }
{
    hasher.update(u32_bytes(segment.addr));
    hasher.update(u32_bytes(segment.bytes.len() as u32));
    hasher.update(u32_bytes(segment.length));
    hasher.update(segment.bytes.as_slice());
}
