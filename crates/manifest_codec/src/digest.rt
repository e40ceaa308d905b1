// The content digest of a manifest.
ghost use Rattle.std.specs.Prelude.{◌≡◌};
ghost use Rattle.chunk_name.specs.Pieces.{name_of_bytes};
ghost use Rattle.manifest_codec.specs.PiecesPart.{pieces_part};

use sha2::{Digest, Sha256};
use ss_base::{Name, Piece};

/// The content digest of these pieces: the SHA-256 of the pieces part of their manifest's text, 36 bytes a piece. It
/// takes no memory.
pub fn content(pieces: &[Piece]) -> Name
    ensures { result ≡ name_of_bytes (pieces_part pieces.now) }
{
    let mut hasher = Sha256::new();
    for piece in pieces {
        hasher.update(piece.name.0.as_slice());
        hasher.update(piece.len.to_be_bytes().as_slice());
    }
    Name(hasher.finalize())
}
