// The engine that enciphers and deciphers the lines of one memory.
ghost use Rattle.std.specs.Prelude.{◌≡◌, ◌<◌, ◌^◌, length, IsOk, IfOk, OnOk, OnErr};
ghost use Rattle.pad_stream.specs.Pad.{cipher_of};
ghost use Rattle.pad_stream.specs.PadBlocks.{AreFit, ShareNoBlock};
ghost use Rattle.pad_stream.specs.Pads.{NoRepeat};
ghost use Rattle.pad_stream.specs.PadEngine.{PadEngineView, new_pads, with_room, after_encrypt};

use crate::pad::mixed_line;
use aes128_block::Key;
use sec_base::{Counter, NoMemory, Pads};
use std::alloc::Global;
use std::marker::Model;

/// Enciphers and deciphers the lines of one memory under one key, and keeps the lines and counters that it
/// enciphered under.
#[derive(Drop)]
pub struct PadEngine {
    key: Key,
    used: Vec<(u32, Counter)>,
    room: u64,
}

impl Model for PadEngine {
    ghost use Rattle.std.specs.Prelude.{length, ◌+◌, ◌≤◌};
    ghost use Rattle.std.specs.Vec.{vec_capacity};
    ghost use Rattle.pad_stream.specs.PadBlocks.{AreFit};
    ghost use Rattle.pad_stream.specs.PadEngine.{PadEngineView};

    ghost Value = { PadEngineView };

    ghost view = { λ inside. record { key = inside.key; used = inside.used.items; room = inside.room } };

    // Lines and counters fit their types, and there is memory for the entries that are sure to find it.
    ghost invariant = { λ inside. AreFit inside.used.items × (length inside.used.items + inside.room ≤ vec_capacity inside.used) };
}

impl PadEngine {
    /// An engine with this key that enciphered nothing.
    pub fn new(alloc: Global, enc_key: &[u8; 16]) -> Result<PadEngine, NoMemory>
        ensures fresh { IfOk result (λ engine. engine ≡ new_pads enc_key.now) }
    {
        Ok(PadEngine {
            key: Key::new(enc_key),
            used: Vec::new(alloc),
            room: 0,
        })
    }

    /// Takes memory for the next `n` lines that are enciphered, so that none of them is refused.
    pub fn reserve(&mut self, n: u64) -> Result<(), NoMemory>
        ensures taken { OnOk result (self.new ≡ with_room n self.old) }
        ensures refused { OnErr result (self.new ≡ self.old) }
    {
        self.used.reserve(n as usize)?;
        self.room = self.room.max(n);
        Ok(())
    }

    /// Puts a line and its counter in the list of those that were used, and then enciphers the line under them. It
    /// doesn't ask whether they were used before.
    pub fn encrypt(
        &mut self,
        line: u32,
        counter: Counter,
        plain: &[u8; 64],
    ) -> Result<[u8; 64], NoMemory>
        ensures cipher { IfOk result (λ cipher. cipher
            ≡ cipher_of self.old.key line counter plain.now) }
        ensures undone { IfOk result (λ cipher. cipher_of self.old.key line counter cipher
            ≡ plain.now) }
        ensures used { OnOk result (self.new ≡ after_encrypt line counter self.old) }

        ensures sure { 0 < self.old.room → IsOk result }
        ensures refused { OnErr result (self.new ≡ self.old) }
    {
        self.used.push((line, counter))?;
        self.room = self.room.saturating_sub(1);
        Ok(mixed_line(&self.key, line, counter, plain))
    }

    /// The bytes that a line's cipher is of. It takes no memory.
    pub fn decrypt(&self, line: u32, counter: Counter, cipher: &[u8; 64]) -> [u8; 64]
        ensures plain { result ≡ cipher_of self.now.key line counter cipher.now }
        ensures undone { cipher_of self.now.key line counter result ≡ cipher.now }
    {
        mixed_line(&self.key, line, counter, cipher)
    }

    /// The lines and counters that something was enciphered under, in order. Where none of them repeats, no block of
    /// all their pads does.
    pub fn finish(self) -> Pads
        ensures used { result ≡ self.used }
        ensures few { length result < 2 ^ 64 }
        ensures fit { AreFit result }
        ensures apart { NoRepeat result → ShareNoBlock self.key result }
    {
        let PadEngine {
            key: _key,
            used,
            room: _,
        } = self;
        Pads::from_vec(used)
    }
}
