// A flat memory.
ghost use Rattle.std.specs.Prelude.{◌≡◌, ◌+◌, ◌*◌, ◌^◌, ◌<◌, ◌≤◌, Ok, length, replicate, IfOk};
ghost use Rattle.sec_base.specs.Width.{width_bytes, number_at, with_number};

use sec_base::{MemStop, NoMemory, Ram, Width};
use std::alloc::Global;
use std::marker::Model;

/// A memory of bytes on the heap, which contracts see as a list. It never stops.
#[derive(Debug, Drop)]
pub struct FlatRam {
    bytes: Vec<u8>,
}

impl Model for FlatRam {
    ghost use Rattle.std.specs.Prelude.{List, ℕ, ◌<◌, ◌^◌, length};

    ghost Value = { List ℕ };

    ghost view = { λ memory. memory.bytes.items };

    ghost invariant = { λ memory. length memory.bytes.items < 2 ^ 32 };
}

impl FlatRam {
    /// A memory of so many bytes, all of them 0. It fails only where the emulator is out of memory.
    pub fn new(alloc: Global, size: u32) -> Result<FlatRam, NoMemory>
        ensures zeros { IfOk result (λ memory. memory ≡ replicate size 0) }
        ensures size { IfOk result (λ memory. length memory ≡ size) }
    {
        let bytes = vec![in alloc; 0; size as usize]?;
        Ok(FlatRam { bytes })
    }
}

impl Ram for FlatRam {
    ghost use Rattle.std.specs.Prelude.{None, length, refl};

    ghost contents = { λ memory. memory };

    ghost extent = { λ memory. length memory };

    ghost sound = { λ _. Unit {0} };

    ghost stopped = { λ _. None };

    ghost moved = { λ _ _ _. Unit {0} };

    fn size(&self) -> u32 {
        self.bytes.len() as u32
    }

    /// The little-endian number at an address. It is always `Ok`.
    fn load(&mut self, addr: u32, width: Width) -> Result<u32, MemStop>
        requires inside { addr + width_bytes width ≤ length self.old }

        ensures value { result ≡ Ok (number_at self.old addr width) }
        ensures fits { number_at self.old addr width < 2 ^ (8 * width_bytes width) }
        ensures contents { self.new ≡ self.old }
    {
        Ok(width.read(self.bytes.as_slice(), addr as usize))
    }

    /// Puts the lowest bytes of a number at an address, the lowest first. It is always `Ok`.
    fn store(&mut self, addr: u32, width: Width, value: u32) -> Result<(), MemStop>
        requires inside { addr + width_bytes width ≤ length self.old }

        ensures ok { result ≡ Ok tt }
        ensures stored { self.new ≡ with_number self.old addr width value }
        ensures extent { length self.new ≡ length self.old }
    {
        width.write(self.bytes.as_mut_slice(), addr as usize, value);
        Ok(())
    }

    ghost sized = { λ _. refl };

    ghost unmoved = { λ _. tt };

    ghost moved_on = { λ _ _ _ _ _ _ _. tt };
}
