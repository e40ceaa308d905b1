// `names`: one line for each chunk.
ghost use Rattle.std.specs.Prelude.{◌≡◌, IfOk, string_bytes};
ghost use Rattle.ss_base.specs.declared.limits.TheConstants.{MAX_CHUNK_LEN};
ghost use Rattle.store_run.specs.Lines.{chunk_lines, piece_line};

use crate::chunk_lines::ChunkLines;
use chunk_name::{hex_of, piece_of};
use ss_base::{Memory, Piece};
use std::alloc::Global;

/// The lines of `names`: the digits of the chunk's name, a space, and its length in bytes.
#[derive(Drop)]
pub struct NameLines;

impl ChunkLines for NameLines {
    ghost text = { λ _ _ chunks. chunk_lines chunks };

    ghost most = { λ _. MAX_CHUNK_LEN };

    fn add(&mut self, alloc: Global, chunk: &[u8]) -> Result<String, Memory> {
        piece_line(alloc, &piece_of(chunk))
    }

    fn rest(&mut self, alloc: Global) -> Result<String, Memory> {
        Ok(String::new(alloc))
    }
}

#[tactic(auto, unfolding(crate::specs::Lines::piece_line))]
fn piece_line(alloc: Global, piece: &Piece) -> Result<String, Memory>
    ensures { IfOk result (λ line. string_bytes line ≡ piece_line piece.now) }
{
    let digits = hex_of(alloc, &piece.name)?;
    let len = piece.len;
    Ok(format!(in alloc; "{digits} {len}\n")?)
}
