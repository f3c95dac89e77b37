// Why a file is no state of the chip.
ghost use Rattle.std.specs.Prelude.{◌≡◌};
ghost use Rattle.sealed_state.specs.StateFault.{state_fault_code, state_fault_name};

use std::fmt;

/// Why a file is refused, in the order in which it is tested. Shown as its name.
#[derive(Clone, Copy, Debug, PartialEq, Eq)]
pub enum StateFault {
    /// It hasn't 233 bytes.
    Length = 1,
    /// Its first byte isn't 53 in hexadecimal.
    Kind = 2,
    /// Its last 32 bytes aren't the HMAC of those before them under the key.
    Tag = 3,
    /// It has another number than the chip.
    Number = 4,
}

impl StateFault {
    /// The number, from 1 to 4.
    pub fn code(self) -> u8
        ensures { result ≡ state_fault_code self }
    {
        self as u8
    }

    /// The name, as it is written here.
    pub fn name(self) -> &'static str
        ensures { result.now ≡ state_fault_name self }
    {
        match self {
            StateFault::Length => "Length",
            StateFault::Kind => "Kind",
            StateFault::Tag => "Tag",
            StateFault::Number => "Number",
        }
    }
}

impl fmt::Display for StateFault {
    ghost use Rattle.sealed_state.specs.StateFault.{state_fault_name};
    ghost use Rattle.std.specs.Prelude.{Some};

    ghost output = { λ fault. Some (state_fault_name fault) };

    fn fmt<W: fmt::Write>(&self, f: &mut fmt::Formatter<W>) -> fmt::Result {
        f.write_str(self.name())
    }
}
