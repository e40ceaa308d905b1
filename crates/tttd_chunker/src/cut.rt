// The cut of a whole stream, by a chunker.
ghost use Rattle.std.specs.Prelude.{◌≡◌, ℕ, false, List, ◌++◌, length, IfOk, OnOk, map};
ghost use Rattle.std.specs.List.{flat_map};
ghost use Rattle.ss_base.specs.Profile.{numbers_of};
ghost use Rattle.tttd_chunker.specs.Cut.{has_cut, cut};

use crate::Chunker;
use ss_base::{Memory, PIECE_LEN, Profile};
use std::alloc::Global;

/// The chunks of these bytes, in order. Only want of memory is an error.
pub fn cut_all(alloc: Global, profile: Profile, bytes: &[u8]) -> Result<Vec<Vec<u8>>, Memory>
    ensures { IfOk result (λ chunks. map (λ c. c.items) chunks.items ≡ cut (numbers_of profile) bytes.now) }
{
    let mut chunker = Chunker::new(alloc, profile)?;
    let mut chunks = Vec::new(alloc);
    let mut rest = bytes;
    while !rest.is_empty() {
        let len = rest.len().min(PIECE_LEN);
        feed(alloc, &mut chunker, &mut chunks, &rest[..len])?;
        rest = &rest[len..];
    }
    end(alloc, &mut chunker, &mut chunks)?;
    Ok(chunks)
}

/// The chunks of a stream that comes in these pieces, in order: however it is taken apart, they are the same. Only
/// want of memory is an error.
pub fn cut_pieces(
    alloc: Global,
    profile: Profile,
    pieces: &[Vec<u8>],
) -> Result<Vec<Vec<u8>>, Memory>
    ensures { IfOk result (λ chunks. map (λ c. c.items) chunks.items ≡ cut (numbers_of profile) (flat_map (λ p. p.items) pieces.now)) }
{
    let mut chunker = Chunker::new(alloc, profile)?;
    let mut chunks = Vec::new(alloc);
    for piece in pieces {
        feed(alloc, &mut chunker, &mut chunks, piece.as_slice())?;
    }
    end(alloc, &mut chunker, &mut chunks)?;
    Ok(chunks)
}

// Pushes a piece of the stream, and takes out each chunk that has ended.
fn feed(
    alloc: Global,
    chunker: &mut Chunker,
    chunks: &mut Vec<Vec<u8>>,
    piece: &[u8],
) -> Result<(), Memory>
    ensures profile { chunker.new.profile ≡ chunker.old.profile }
    ensures open { OnOk result (has_cut (numbers_of chunker.old.profile) chunker.new.bytes ≡ false) }

    // However the stream goes on, the chunks so far and the cut of what is left are the same.
    ensures stream { OnOk result ((more : List ℕ) →
        map (λ c. c.items) chunks.new.items ++ cut (numbers_of chunker.old.profile) (chunker.new.bytes ++ more)
        ≡ map (λ c. c.items) chunks.old.items ++ cut (numbers_of chunker.old.profile) (chunker.old.bytes ++ (piece.now ++ more))) }
{
    chunker.push(piece)?;
    while let Some(chunk) = chunker.next(alloc)? {
        chunks.push(chunk)?;
    }
    Ok(())
}

// Takes out the last chunk of the stream.
fn end(alloc: Global, chunker: &mut Chunker, chunks: &mut Vec<Vec<u8>>) -> Result<(), Memory>
    requires { has_cut (numbers_of chunker.old.profile) chunker.old.bytes ≡ false }
    ensures { OnOk result (map (λ c. c.items) chunks.new.items
        ≡ map (λ c. c.items) chunks.old.items ++ cut (numbers_of chunker.old.profile) chunker.old.bytes) }
{
    match chunker.rest(alloc)? {
        Some(chunk) => chunks.push(chunk)?,
        None => {}
    }
    Ok(())
}
