// The fingerprint of the last 48 bytes, carried from byte to byte.
ghost use Rattle.std.specs.Prelude.{◌≡◌, ◌≤◌, ℕ, List, [], ◌∷◌, ◌++◌, length, IfOk};
ghost use Rattle.circular_buffer.specs.Buffer.{keep_last};
ghost use Rattle.roll_hash.specs.Fingerprint.{fingerprint};

use crate::{append, high_half, slide};
use circular_buffer::HeapCircularBuffer;
use ss_base::Memory;
use std::alloc::Global;
use std::marker::Model;

const WINDOW: usize = 48;

/// A window over a stream of bytes. Contracts see the bytes in it: the last 48 that were pushed since it was made
/// or cleared, or all where they are fewer.
#[derive(Drop)]
pub struct Roll {
    ring: HeapCircularBuffer<u8>,
    sum: u64,
}

impl Model for Roll {
    ghost use Rattle.std.specs.Prelude.{List, ℕ};

    ghost Value = { List ℕ };

    ghost use Rattle.roll_hash.specs.Rolled.{rolled_window, IsRolled};

    ghost view = { rolled_window };

    ghost invariant = { IsRolled };
}

impl Roll {
    /// An empty window.
    pub fn new(alloc: Global) -> Result<Roll, Memory>
        ensures { IfOk result (λ roll. roll ≡ []) }
    {
        let ring = HeapCircularBuffer::with_capacity(alloc, WINDOW)?;
        Ok(Roll { ring, sum: 0 })
    }

    /// Adds a byte.
    pub fn push(&mut self, byte: u8)
        ensures window { self.new ≡ keep_last 48 (self.old ++ byte ∷ []) }
        ensures last { (pushed : List ℕ) → self.old ≡ keep_last 48 pushed → self.new ≡ keep_last 48 (pushed ++ byte ∷ []) }
    {
        match self.ring.push_back(byte) {
            None => self.sum = append(self.sum, byte),
            Some(first) => self.sum = slide(self.sum, first, byte),
        }
    }

    /// The fingerprint of the last 48 bytes.
    pub fn value(&self) -> u32
        requires { 48 ≤ length self.now }
        ensures { result ≡ fingerprint self.now }
    {
        high_half(self.sum)
    }

    /// Empties the window.
    pub fn clear(&mut self)
        ensures { self.new ≡ [] }
    {
        self.ring.clear();
        self.sum = 0;
    }
}
