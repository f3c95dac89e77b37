// Why words ask for nothing that can be done.
ghost use Rattle.std.specs.Prelude.{◌≡◌};
ghost use Rattle.chip_words.specs.Fault.{value_fault_name};
ghost use Rattle.chip_words.specs.declared.fault.WordsError.TheVariants.{NoMemory as no_memory};

use std::alloc::AllocError;
use std::fmt;
use thiserror::Error;

/// A value that is refused. Shown as the name of its option, and two keys that are the same as `keys`.
#[derive(Clone, Copy, Debug, PartialEq, Eq)]
pub enum ValueFault {
    /// The memory's layout has no trees of so many levels.
    Levels,
    /// No tags have this name.
    Tags,
    /// A device's key isn't 64 digits.
    Key,
    /// A nonce isn't 32 digits.
    Nonce,
    /// The keys of two devices are the same.
    Keys,
}

impl ValueFault {
    /// The name of the option, without its dashes; of two keys that are the same `keys`.
    pub fn name(self) -> &'static str
        ensures { result.now ≡ value_fault_name self }
    {
        match self {
            ValueFault::Levels => "levels",
            ValueFault::Tags => "tags",
            ValueFault::Key => "key",
            ValueFault::Nonce => "nonce",
            ValueFault::Keys => "keys",
        }
    }
}

impl fmt::Display for ValueFault {
    ghost use Rattle.chip_words.specs.Fault.{value_fault_name};
    ghost use Rattle.std.specs.Prelude.{Some};

    ghost output = { λ fault. Some (value_fault_name fault) };

    fn fmt<W: fmt::Write>(&self, f: &mut fmt::Formatter<W>) -> fmt::Result {
        f.write_str(self.name())
    }
}

/// Why words ask for nothing that can be done.
#[derive(Debug, Drop, Error)]
pub enum WordsError {
    /// They are no request, or a question for help: clap's text for the user.
    #[error("{0}")]
    Usage(String),
    /// A value is refused.
    #[error("wrong value of --{0}")]
    WrongValue(ValueFault),
    /// There was no memory to read them.
    #[error("out of memory")]
    NoMemory,
}

impl From<AllocError> for WordsError {
    ghost from_gives = { λ _ error. error ≡ no_memory };

    fn from(_: AllocError) -> Self {
        WordsError::NoMemory
    }
}
