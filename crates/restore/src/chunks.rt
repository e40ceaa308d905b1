// The chunks of a manifest that was loaded.
ghost use Rattle.std.specs.Prelude.{◌≡◌, Contains};
ghost use Rattle.manifest_codec.specs.Containers.{AreContainers};
ghost use Rattle.depot.specs.Seen.{shelf_of};
ghost use Rattle.restore.specs.Reads.{listed_by};
ghost use Rattle.restore.specs.Copies.{shelves, ChunkCopy, ChunksCopy};

use crate::faults::{of_chunk, of_output};
use crate::output::add;
use depot::{Depot, RestoreFault};
use manifest_codec::Manifest;
use outside::Shelf;
use ss_base::{Piece, Place};
use std::alloc::Global;
use store_core::Kept;

// Reads the manifest's chunks and adds each to the output. Answers how many bytes there are, with `start` more.
pub(crate) fn copy_chunks<F: Shelf, K: Shelf>(
    alloc: Global,
    depot: &mut Depot<'_, K>,
    files: &mut F,
    output: &str,
    kept: &Kept,
    manifest: &Manifest,
    start: u64,
) -> Result<u64, RestoreFault>
    requires uses { AreContainers manifest.now.places.items kept.now.uses }
    ensures same_reference { (shelf_of depot.new).ghost_name ≡ (shelf_of depot.old).ghost_name }
    ensures answer { ChunksCopy output.now (shelves ⟦<F as Shelf>⟧ ⟦<K as Shelf>⟧ files.old depot.old)
        (shelves ⟦<F as Shelf>⟧ ⟦<K as Shelf>⟧ files.new depot.new) (listed_by manifest.now) start result }
{
    let mut count = start;
    for i in 0..manifest.pieces.len() {
        let (piece, place) = (&manifest.pieces[i], manifest.places[i]);
        let len = copy_chunk(alloc, depot, files, output, kept, piece, place)?;
        count = count.saturating_add(len);
    }
    Ok(count)
}

// Reads one chunk and adds it to the output. Answers how many bytes it has.
fn copy_chunk<F: Shelf, K: Shelf>(
    alloc: Global,
    depot: &mut Depot<'_, K>,
    files: &mut F,
    output: &str,
    kept: &Kept,
    piece: &Piece,
    place: Place,
) -> Result<u64, RestoreFault>
    requires uses { Contains kept.now.uses place.container }
    ensures same_reference { (shelf_of depot.new).ghost_name ≡ (shelf_of depot.old).ghost_name }
    ensures answer { ChunkCopy output.now (shelves ⟦<F as Shelf>⟧ ⟦<K as Shelf>⟧ files.old depot.old)
        (shelves ⟦<F as Shelf>⟧ ⟦<K as Shelf>⟧ files.new depot.new) (piece.now, place) result }
{
    let bytes = match depot.read_chunk(alloc, kept, place, piece) {
        Ok(bytes) => bytes,
        Err(fault) => return Err(of_chunk(fault)),
    };
    match add(files, output, &bytes) {
        Ok(()) => Ok(bytes.len() as u64),
        Err(trouble) => Err(of_output(trouble)),
    }
}
