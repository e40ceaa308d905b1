// How far a session's containers go.
ghost use Rattle.std.specs.Prelude.{◌≡◌, ◌+◌, ◌<◌, ◌≤◌, ◌^◌};
ghost use Rattle.container_file.specs.Layout.{fits, opened, after, place_for};

use crate::fields::{HEADER, RECORD};
use ss_base::{ContainerId, MAX_CHUNK_LEN, Piece, Place};

/// The end of a session's containers: `containers` is how many it has started, and `used` the size of the last one
/// in bytes, or 0.
#[derive(Clone, Copy, Debug, PartialEq, Eq)]
pub struct ContainerEnd {
    pub session: u32,
    pub containers: u32,
    pub used: u32,
}

impl ContainerEnd {
    // The end with a container to which the record of this piece goes: one more where it doesn't fit into the last.
    #[tactic(auto, unfolding(crate::specs::Layout::opened))]
    pub(crate) fn opened(self, room: u32, piece: Piece) -> ContainerEnd
        requires containers { self.containers + 1 < 2 ^ 32 }
        requires len { piece.len ≤ MAX_CHUNK_LEN }
        ensures opened { result ≡ opened self room piece }
        ensures some { 0 < result.containers }
        ensures record { result.used + 36 + piece.len < 2 ^ 32 }
    {
        if self.fits(room, piece) {
            return self;
        }
        ContainerEnd {
            session: self.session,
            containers: self.containers + 1,
            used: HEADER,
        }
    }

    // Whether the record of this piece goes to the last container.
    fn fits(self, room: u32, piece: Piece) -> bool
        ensures { result ≡ fits self room piece }
    {
        self.containers > 0
            && u64::from(self.used) + u64::from(RECORD) + u64::from(piece.len) <= u64::from(room)
    }
}
