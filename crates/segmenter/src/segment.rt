// Segments.
ghost use Rattle.std.specs.Prelude.{◌≤◌, vec_len};
ghost use Rattle.std.specs.List.{All};
ghost use Rattle.ss_base.specs.declared.limits.TheConstants.{MAX_CHUNKS};
ghost use Rattle.chunk_name.specs.Pieces.{HasChunkLen};
ghost use Rattle.segmenter.specs.Joined.{ArePieces};

use ss_base::Piece;

/// A run of consecutive chunks of a stream: the pieces of its 1 to 4,096 chunks, each of 1 to 11,200 bytes, and the
/// chunks' bytes, joined in the same order.
#[derive(Debug, Drop)]
pub struct Segment {
    pub pieces: Vec<Piece>,
    pub bytes: Vec<u8>,

    pub ghost some: { 1 ≤ vec_len pieces },
    pub ghost bounded: { vec_len pieces ≤ MAX_CHUNKS },
    pub ghost lengths: { All HasChunkLen pieces.items },
    pub ghost parts: { ArePieces pieces.items bytes.items },
}
