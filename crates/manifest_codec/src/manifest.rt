// Manifests.
ghost use Rattle.manifest_codec.specs.Manifest.{AreListed};

use ss_base::{Piece, Place};

/// The chunks of a stored segment in their order: 1 to 4,096 pieces, each of 1 to 11,200 bytes, and for each the
/// place where its chunk lies.
#[derive(Debug, Drop)]
pub struct Manifest {
    pub pieces: Vec<Piece>,
    pub places: Vec<Place>,

    pub ghost listed: { AreListed pieces.items places.items },
}
