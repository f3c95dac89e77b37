// The bytes of one place, and how they change from an offset on.
ghost use Rattle.bus_adversary.specs.PlaceBytes.{with_mask, with_bytes};
ghost use Rattle.sec_base.specs.Evidence.{sealed_bytes};
ghost use Rattle.std.specs.Prelude.{drop, length, ◌+◌, ◌≡◌, ◌≤◌};

use sec_base::Sealed;

// Xors the bytes from an offset on.
pub(crate) fn flip_at(bytes: &mut [u8], offset: usize, mask: &[u8])
    requires { offset + length mask.now ≤ length bytes.old }
    ensures { bytes.new ≡ with_mask offset mask.now bytes.old }
{
    for i in 0..mask.len() {
        bytes[offset + i] ^= mask[i];
    }
}

// Puts bytes from an offset on.
pub(crate) fn set_at(bytes: &mut [u8], offset: usize, new: &[u8])
    requires { offset + length new.now ≤ length bytes.old }
    ensures { bytes.new ≡ with_bytes offset new.now bytes.old }
{
    bytes[offset..offset + new.len()].copy_from_slice(new);
}

// The 80 bytes of a line's place.
pub(crate) fn bytes_of(sealed: &Sealed) -> [u8; 80]
    ensures { result ≡ sealed_bytes sealed.now }
{
    let mut bytes = [0; 80];
    bytes[..64].copy_from_slice(&sealed.cipher);
    bytes[64..].copy_from_slice(&sealed.tag);
    bytes
}

// The line and the tag of 80 bytes.
pub(crate) fn sealed_of(bytes: &[u8; 80]) -> Sealed
    ensures bytes { sealed_bytes result ≡ bytes.now }
    ensures tag { result.tag ≡ drop 64 bytes.now }
{
    let mut cipher = [0; 64];
    let mut tag = [0; 16];
    cipher.copy_from_slice(&bytes[..64]);
    tag.copy_from_slice(&bytes[64..]);
    Sealed { cipher, tag }
}
