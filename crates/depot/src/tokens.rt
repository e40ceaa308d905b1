// What shows that chunks and a manifest were stored.
ghost use Rattle.std.specs.Prelude.{◌≡◌};

use ss_base::{ManifestId, Name};
use std::marker::Model;

/// The fresh chunks of a manifest are stored, in so many bytes of puts. `Depot::store_fresh` alone makes one, and it
/// can't be copied.
#[derive(Debug, Drop)]
pub struct Placed {
    id: ManifestId,
    sum: u64,
}

impl Model for Placed {
    ghost use Rattle.depot.specs.Tokens.{PlacedView};

    ghost Value = { PlacedView };

    ghost view = { λ p. record { id = p.id; sum = p.sum } };
}

impl Placed {
    pub(crate) fn new(id: ManifestId, sum: u64) -> Placed
        ensures { result ≡ record { id = id; sum = sum } }
    {
        Placed { id, sum }
    }

    pub(crate) fn id(&self) -> ManifestId
        ensures { result ≡ self.now.id }
    {
        self.id
    }
}

/// The manifest of stored chunks is written, with this SHA-256 of its text. `Depot::write_manifest` alone makes one, and
/// it can't be copied.
#[derive(Debug, Drop)]
pub struct Written {
    placed: Placed,
    text: Name,
}

impl Model for Written {
    ghost use Rattle.depot.specs.Tokens.{WrittenView};

    ghost Value = { WrittenView };

    ghost view = { λ w. record { id = w.placed.id; sum = w.placed.sum; text = w.text } };
}

impl Written {
    pub(crate) fn new(placed: Placed, text: Name) -> Written
        ensures { result ≡ record { id = placed.id; sum = placed.sum; text = text } }
    {
        Written { placed, text }
    }
}
