// Chunks that are kept as their pieces and their joined bytes.
ghost use Rattle.std.specs.Prelude.{◌≡◌, ℕ, ◌+◌, ◌<◌, ◌≤◌, ◌^◌, [], ◌∷◌, ◌++◌, length, IfOk, OnOk, OnErr};
ghost use Rattle.std.specs.List.{All};
ghost use Rattle.chunk_name.specs.Pieces.{name_of_bytes, piece, HasChunkLen};
ghost use Rattle.segmenter.specs.Segment.{HasChunks};

use crate::Segment;
use chunk_name::piece_of;
use ss_base::{MAX_CHUNKS, Memory, Name, Piece};
use std::alloc::Global;
use std::marker::Model;
use std::mem;

/// A list of chunks. Contracts see it as the list of their bytes.
#[derive(Drop)]
pub struct Joined {
    pieces: Vec<Piece>,
    bytes: Vec<u8>,
}

impl Model for Joined {
    ghost use Rattle.std.specs.Prelude.{List, ℕ};

    ghost Value = { List (List ℕ) };

    ghost use Rattle.segmenter.specs.Joined.{parts_of, ArePieces};

    ghost view = { λ s. parts_of s.pieces.items s.bytes.items };

    ghost invariant = { λ s. ArePieces s.pieces.items s.bytes.items };
}

impl Joined {
    pub fn new(alloc: Global) -> Self
        ensures { result ≡ [] }
    {
        Joined {
            pieces: Vec::new(alloc),
            bytes: Vec::new(alloc),
        }
    }

    pub fn len(&self) -> usize
        ensures { result ≡ length self.now }
    {
        self.pieces.len()
    }

    /// Adds a chunk, and gives its name.
    pub fn push(&mut self, chunk: &[u8]) -> Result<Name, Memory>
        requires { length chunk.now < 2 ^ 32 }
        ensures added { OnOk result (self.new ≡ self.old ++ chunk.now ∷ []) }
        ensures name { IfOk result (λ name. name ≡ name_of_bytes chunk.now) }
        ensures err { OnErr result (self.new ≡ self.old) }
    {
        self.pieces.reserve(1)?;
        self.bytes.extend_from_slice(chunk)?;
        let piece = piece_of(chunk);
        self.pieces.push(piece)?;
        Ok(piece.name)
    }

    /// Takes the chunks out. It takes no memory.
    pub fn take(&mut self) -> Segment
        requires some { 1 ≤ length self.old }
        requires bounded { length self.old ≤ MAX_CHUNKS }
        requires lengths { All (λ chunk. HasChunkLen (piece chunk)) self.old }
        ensures segment { HasChunks result self.old }
        ensures after { self.new ≡ [] }
    {
        let alloc = *self.pieces.allocator();
        Segment {
            pieces: mem::replace(&mut self.pieces, Vec::new(alloc)),
            bytes: mem::replace(&mut self.bytes, Vec::new(alloc)),
        }
    }
}
