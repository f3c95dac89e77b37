// Where a run reads.
ghost use Rattle.std.specs.Prelude.{◌≡◌, ◌≢◌, ◌<◌, ◌≤◌, ◌+◌, ◌⊎◌, List, ℕ, [], ◌∷◌, ◌++◌, Ok, Err, length, IfOk, OnOk};
ghost use Rattle.sec_base.specs.Count.{Rose, RoseBy};
ghost use Rattle.sec_base.specs.Files.{FilesState, HasBytes, HasOver};
ghost use Rattle.sec_base.specs.declared.files.ReadStop.TheVariants.{Failed, Long, NoMemory as no_memory};

use crate::bytes::Bytes;
use crate::stop::NoMemory;
use std::alloc::Global;

/// Why a file was not read.
#[derive(Clone, Copy, Debug, PartialEq, Eq)]
pub enum ReadStop {
    /// The read failed.
    Failed,
    /// The file has more bytes than the limit.
    Long,
    /// The emulator itself is out of memory.
    NoMemory,
}

impl From<NoMemory> for ReadStop {
    ghost from_gives = { λ _ stop. stop ≡ no_memory };

    fn from(_: NoMemory) -> Self {
        ReadStop::NoMemory
    }
}

/// Files that are read whole, by their names.
pub trait Files {
    /// The files' bytes, and what was asked of them so far.
    ghost state: { Self → FilesState };

    /// The bytes of a file, which are at most `limit`.
    fn read(&mut self, alloc: Global, name: &str, limit: u64) -> Result<Bytes, ReadStop>
        ensures bytes { IfOk result (HasBytes (state self.old).held name.now) }
        ensures within { IfOk result (λ bytes. length bytes ≤ limit) }
        ensures quiet { OnOk result ((state self.new).faults ≡ (state self.old).faults) }
        ensures taken_bytes { IfOk result (λ bytes. RoseBy (length bytes) (state self.old).taken
            (state self.new).taken) }

        ensures long { result ≡ Err Long → HasOver (state self.old).held name.now limit }
        ensures taken_long { result ≡ Err Long →
            RoseBy (limit + 1) (state self.old).taken (state self.new).taken }
        ensures failed { result ≡ Err Failed →
            Rose (state self.old).faults (state self.new).faults }

        ensures asked { result ≢ Err no_memory →
            (state self.new).asked ≡ (state self.old).asked ++ name.now ∷ [] }
        ensures asked_in_vain { result ≡ Err no_memory →
            ((state self.new).asked ≡ (state self.old).asked)
            ⊎ ((state self.new).asked ≡ (state self.old).asked ++ name.now ∷ []) }

        ensures held { (state self.new).held ≡ (state self.old).held }
        ensures faults { (state self.old).faults ≤ (state self.new).faults }
        ensures taken { (state self.old).taken ≤ (state self.new).taken };
}
