// One way of a set.

/// A copy of the 64 bytes that stand at a place, and whether it was changed since it was put in.
#[derive(Clone, Copy, Debug)]
pub struct Way {
    pub place: u32,
    pub changed: bool,
    pub copy: [u8; 64],
}

// An unused way.
impl Default for Way {
    fn default() -> Way {
        Way {
            place: 0,
            changed: false,
            copy: [0; 64],
        }
    }
}
