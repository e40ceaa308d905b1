// Manifests from text.
ghost use Rattle.std.specs.Prelude.{◌≡◌, ◌≢◌, ℕ, ◌*◌, List, length, IfOk, All};
ghost use Rattle.ss_base.specs.declared.name.Piece.{Piece};
ghost use Rattle.ss_base.specs.declared.ids.Place.{Place};
ghost use Rattle.chunk_name.specs.Pieces.{HasChunkLen};
ghost use Rattle.manifest_codec.specs.PiecesPart.{pieces_part};
ghost use Rattle.manifest_codec.specs.Text.{places_part, manifest_text, AreManifest, IsPlace};

use crate::Manifest;
use crate::fields::{read_piece, read_place};
use ss_base::{MAX_CHUNK_LEN, MAX_CHUNKS, Memory, Piece, Place};
use std::alloc::{AllocError, AllocFailed, Global};

/// Why a text gives no manifest.
#[derive(Clone, Copy, Debug, PartialEq, Eq)]
pub enum DecodeFault {
    /// No manifest has the text.
    NotManifest,
    /// Memory was wanted and not to be had.
    Memory,
}

impl From<AllocError> for DecodeFault {
    ghost use Rattle.manifest_codec.specs.declared.decoding.DecodeFault.TheVariants.{Memory};

    ghost from_gives = { λ _ fault. fault ≡ Memory };

    fn from(_: AllocError) -> Self {
        DecodeFault::Memory
    }
}

impl<T: Drop> From<AllocFailed<T>> for DecodeFault {
    ghost use Rattle.manifest_codec.specs.declared.decoding.DecodeFault.TheVariants.{Memory};

    ghost from_gives = { λ _ fault. fault ≡ Memory };

    fn from(_: AllocFailed<T>) -> Self {
        DecodeFault::Memory
    }
}

/// The manifest that has this text. `NotManifest` comes exactly where none has it.
pub fn decode(alloc: Global, text: &[u8]) -> Result<Manifest, DecodeFault>
    ensures read { IfOk result (λ m. manifest_text m.pieces.items m.places.items ≡ text.now) }
    ensures manifest { IfOk result (λ m. AreManifest m.pieces.items m.places.items) }
    ensures only { IfOk result (λ m. (pieces : List Piece) (places : List Place) → AreManifest pieces places →
        manifest_text pieces places ≡ text.now → (m.pieces.items ≡ pieces) × (m.places.items ≡ places)) }
    ensures refused { result ≡ Err DecodeFault.NotManifest →
        (pieces : List Piece) (places : List Place) → AreManifest pieces places → manifest_text pieces places ≢ text.now }
{
    let count = text.len() / 48;
    if text.len() % 48 != 0 || count == 0 || count > MAX_CHUNKS {
        return Err(DecodeFault::NotManifest);
    }
    let (pieces, places) = text.split_at(count * 36);
    Ok(Manifest {
        pieces: read_pieces(alloc, pieces, count)?,
        places: read_places(alloc, places, count)?,
    })
}

fn read_pieces(alloc: Global, text: &[u8], count: usize) -> Result<Vec<Piece>, DecodeFault>
    requires { length text.now ≡ 36 * count }
    ensures read { IfOk result (λ ps. pieces_part ps.items ≡ text.now) }
    ensures count { IfOk result (λ ps. length ps.items ≡ count) }
    ensures lengths { IfOk result (λ ps. All HasChunkLen ps.items) }
    ensures names { IfOk result (λ ps. All (λ p. length p.name.0 ≡ 32) ps.items) }
    ensures refused { result ≡ Err DecodeFault.NotManifest →
        (ps : List Piece) → All (λ p. length p.name.0 ≡ 32) ps → All HasChunkLen ps → pieces_part ps ≢ text.now }
{
    let mut pieces = Vec::with_capacity(alloc, count)?;
    for i in 0..count {
        let piece = read_piece(&text[36 * i..36 * i + 36]);
        if piece.len < 1 || piece.len > MAX_CHUNK_LEN {
            return Err(DecodeFault::NotManifest);
        }
        pieces.push(piece)?;
    }
    Ok(pieces)
}

fn read_places(alloc: Global, text: &[u8], count: usize) -> Result<Vec<Place>, AllocError>
    requires { length text.now ≡ 12 * count }
    ensures read { IfOk result (λ ps. places_part ps.items ≡ text.now) }
    ensures count { IfOk result (λ ps. length ps.items ≡ count) }
    ensures numbers { IfOk result (λ ps. All IsPlace ps.items) }
{
    let mut places = Vec::with_capacity(alloc, count)?;
    for i in 0..count {
        places.push(read_place(&text[12 * i..12 * i + 12]))?;
    }
    Ok(places)
}
