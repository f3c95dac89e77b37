// How many bytes a load or a store moves.
ghost use Rattle.std.specs.Prelude.{◌≡◌, ◌+◌, ◌*◌, ◌^◌, ◌<◌, ◌≤◌, length};
ghost use Rattle.sec_base.specs.Width.{width_bytes, number_at, with_number};

/// How many bytes a load or a store moves.
#[derive(Clone, Copy, Debug, PartialEq, Eq)]
pub enum Width {
    One,
    Two,
    Four,
}

impl Width {
    /// How many bytes they are.
    #[inline]
    pub fn bytes(self) -> u32
        ensures bytes { result ≡ width_bytes self }
        ensures some { 0 < result }
    {
        match self {
            Width::One => 1,
            Width::Two => 2,
            Width::Four => 4,
        }
    }

    /// The little-endian number at a place.
    #[inline]
    pub fn read(self, bytes: &[u8], at: usize) -> u32
        requires { at + width_bytes self ≤ length bytes.now }
        ensures value { result ≡ number_at bytes.now at self }
        ensures fits { result < 2 ^ (8 * width_bytes self) }
    {
        match self {
            Width::One => u32::from(bytes[at]),
            Width::Two => u32::from(u16::from_le_bytes([bytes[at], bytes[at + 1]])),
            Width::Four => {
                u32::from_le_bytes([bytes[at], bytes[at + 1], bytes[at + 2], bytes[at + 3]])
            }
        }
    }

    /// Puts the lowest bytes of a number at a place, the lowest first.
    #[inline]
    pub fn write(self, bytes: &mut [u8], at: usize, value: u32)
        requires { at + width_bytes self ≤ length bytes.old }
        ensures { bytes.new ≡ with_number bytes.old at self value }
    {
        match self {
            Width::One => bytes[at] = (value & 0xff) as u8,
            Width::Two => {
                let half = (value & 0xffff) as u16;
                bytes[at..at + 2].copy_from_slice(&half.to_le_bytes());
            }
            Width::Four => bytes[at..at + 4].copy_from_slice(&value.to_le_bytes()),
        }
    }
}
