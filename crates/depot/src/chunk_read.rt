// Chunks that are checked against their names.
ghost use Rattle.std.specs.Prelude.{◌≡◌, Contains};
ghost use Rattle.depot.specs.Chunks.{ChunkAnswer};

use crate::shelf_calls::read_object;
use crate::{Depot, ReadFault};
use chunk_name::name_of;
use outside::Shelf;
use ss_base::{Object, Piece, Place};
use std::alloc::Global;
use store_core::Kept;

impl<S: Shelf> Depot<'_, S> {
    ghost use Rattle.depot.specs.Seen.{shelf_of, seen};

    /// The chunk that lies at this place, by one read of the place's container: from the place's offset, of the
    /// piece's length. The container is one of those that were kept. `Damaged`: what was read has another SHA-256 than
    /// the piece's name. `Shelf`: the read failed.
    pub fn read_chunk(
        &mut self,
        alloc: Global,
        kept: &Kept,
        place: Place,
        piece: &Piece,
    ) -> Result<Vec<u8>, ReadFault>
        requires { Contains kept.now.uses place.container }
        ensures same_reference { (shelf_of self.new).ghost_name ≡ (shelf_of self.old).ghost_name }
        ensures answer { ChunkAnswer (seen ⟦<S as Shelf>⟧ self.old) (seen ⟦<S as Shelf>⟧ self.new) place piece.now result }
    {
        let _ = kept;
        let object = Object::Container(place.container);
        let at = u64::from(place.offset);
        let bytes = read_object(alloc, self.shelf, object, at, piece.len as usize)?;
        let got = name_of(&bytes);
        let want = piece.name;
        if got != want {
            return Err(ReadFault::Damaged { want, got });
        }
        Ok(bytes)
    }
}
