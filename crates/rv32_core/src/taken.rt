// What the sink took of what a run printed.
ghost use Rattle.std.specs.Prelude.{◌≡◌, ℕ, List, []};
ghost use Rattle.sha2.specs.Hashers.{Holds256};
ghost use Rattle.sha2.specs.Sha256.{sha256};

use sha2::{Digest, Sha256};

/// What the sink took: its running digest, and how many bytes it is, which stands still at 2^64 - 1.
#[derive(Drop)]
pub struct Taken {
    digest: Sha256,
    count: u64,
}

impl Taken {
    ghost use Rattle.rv32_core.specs.Printing.{Digests, HoldsTaken};

    /// Nothing yet.
    pub(crate) fn new() -> Taken
        ensures { HoldsTaken result [] }
    {
        Taken {
            digest: Sha256::new(),
            count: 0,
        }
    }

    /// The sink took these bytes too.
    pub(crate) fn add(&mut self, bytes: &[u8])
        ensures { Digests self.old bytes.now self.new }
    {
        self.digest.update(bytes);
        self.count = self.count.saturating_add(bytes.len() as u64);
    }

    /// How many bytes it is.
    pub(crate) fn count(&self) -> u64
        ensures { result ≡ self.now.count }
    {
        self.count
    }

    /// Its SHA-256.
    pub(crate) fn finish(self) -> [u8; 32]
        ensures { (bytes : List ℕ) → Holds256 self.digest bytes → result ≡ sha256 bytes }
    {
        let Taken { digest, count: _ } = self;
        digest.finalize()
    }
}
