// Manifests as text.
ghost use Rattle.std.specs.Prelude.{◌≡◌, ◌++◌, IfOk, OnOk};
ghost use Rattle.manifest_codec.specs.PiecesPart.{pieces_part};
ghost use Rattle.manifest_codec.specs.Text.{places_part, manifest_text, AreManifest};

use crate::Manifest;
use crate::fields::{write_piece, write_place};
use ss_base::Memory;
use std::alloc::Global;

/// The manifest's text: 36 bytes for each piece, then 12 for each place.
pub fn encode(alloc: Global, manifest: &Manifest) -> Result<Vec<u8>, Memory>
    ensures text { IfOk result (λ text. text.items ≡ manifest_text manifest.now.pieces.items manifest.now.places.items) }

    // So [`decode`] gives this manifest again, and no other manifest has the text.
    ensures manifest { OnOk result (AreManifest manifest.now.pieces.items manifest.now.places.items) }
{
    let mut text = Vec::with_capacity(alloc, manifest.pieces.len() * 48)?;
    for piece in &manifest.pieces {
        write_piece(&mut text, *piece)?;
    }
    for place in &manifest.places {
        write_place(&mut text, *place)?;
    }
    Ok(text)
}
