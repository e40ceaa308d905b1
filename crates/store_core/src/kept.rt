// What a history keeps of a committed manifest.
ghost use Rattle.std.specs.Prelude.{◌≡◌};

use ss_base::{ContainerId, ManifestId, Name};
use std::marker::Model;

/// What a manifest's Commit kept: all that is needed to load the manifest and to check it. A state alone makes one, and
/// it can't be copied, so whoever has one was lent it by a choice or a reading.
#[derive(Debug, Drop)]
pub struct Kept {
    id: ManifestId,
    text: Name,
    content: Name,
    chunks: u32,
    uses: Vec<ContainerId>,
}

impl Model for Kept {
    ghost use Rattle.store_core.specs.View.{KeptView};

    ghost Value = { KeptView };

    ghost view = { λ k. record { id = k.id; text = k.text; content = k.content; chunks = k.chunks; uses = k.uses.items } };
}

impl Kept {
    pub(crate) fn new(
        id: ManifestId,
        text: Name,
        content: Name,
        chunks: u32,
        uses: Vec<ContainerId>,
    ) -> Kept
        ensures { result ≡ record { id = id; text = text; content = content; chunks = chunks; uses = uses.items } }
    {
        Kept {
            id,
            text,
            content,
            chunks,
            uses,
        }
    }

    /// The manifest.
    pub fn id(&self) -> ManifestId
        ensures { result ≡ self.now.id }
    {
        self.id
    }

    /// The SHA-256 of its text.
    pub fn text(&self) -> Name
        ensures { result ≡ self.now.text }
    {
        self.text
    }

    /// The SHA-256 of the pieces part of its text.
    pub fn content(&self) -> Name
        ensures { result ≡ self.now.content }
    {
        self.content
    }

    /// How many chunks it has.
    pub fn chunks(&self) -> u32
        ensures { result ≡ self.now.chunks }
    {
        self.chunks
    }

    /// The containers in which its chunks lie, ascending.
    pub fn uses(&self) -> &[ContainerId]
        ensures { result.now ≡ self.now.uses }
    {
        self.uses.as_slice()
    }
}
