// The manifests of a stream.
ghost use Rattle.std.specs.Prelude.{◌≡◌};
ghost use Rattle.depot.specs.Seen.{shelf_of};
ghost use Rattle.restore.specs.Copies.{shelves, ManifestCopy, ManifestsCopy, StreamCopy};

use crate::chunks::copy_chunks;
use crate::faults::{of_load, of_output};
use crate::output::make;
use depot::{Depot, RestoreFault};
use outside::Shelf;
use std::alloc::Global;
use store_core::Kept;

// Makes the output, without bytes, and then copies the manifests to it. Answers how many bytes there are.
pub(crate) fn copy_stream<F: Shelf, K: Shelf>(
    alloc: Global,
    depot: &mut Depot<'_, K>,
    files: &mut F,
    output: &str,
    kepts: &[Kept],
) -> Result<u64, RestoreFault>
    ensures same_reference { (shelf_of depot.new).ghost_name ≡ (shelf_of depot.old).ghost_name }
    ensures answer { StreamCopy output.now (shelves ⟦<F as Shelf>⟧ ⟦<K as Shelf>⟧ files.old depot.old)
        (shelves ⟦<F as Shelf>⟧ ⟦<K as Shelf>⟧ files.new depot.new) kepts.now result }
{
    match make(files, output) {
        Ok(()) => copy_manifests(alloc, depot, files, output, kepts),
        Err(trouble) => Err(of_output(trouble)),
    }
}

// Copies the manifests, one behind another, up to the first that fails.
fn copy_manifests<F: Shelf, K: Shelf>(
    alloc: Global,
    depot: &mut Depot<'_, K>,
    files: &mut F,
    output: &str,
    kepts: &[Kept],
) -> Result<u64, RestoreFault>
    ensures same_reference { (shelf_of depot.new).ghost_name ≡ (shelf_of depot.old).ghost_name }
    ensures answer { ManifestsCopy output.now (shelves ⟦<F as Shelf>⟧ ⟦<K as Shelf>⟧ files.old depot.old)
        (shelves ⟦<F as Shelf>⟧ ⟦<K as Shelf>⟧ files.new depot.new) kepts.now result }
{
    let mut count = 0;
    for kept in kepts {
        count = copy_manifest(alloc, depot, files, output, kept, count)?;
    }
    Ok(count)
}

// Loads one manifest and copies its chunks. Answers how many bytes these have, with `start` more.
fn copy_manifest<F: Shelf, K: Shelf>(
    alloc: Global,
    depot: &mut Depot<'_, K>,
    files: &mut F,
    output: &str,
    kept: &Kept,
    start: u64,
) -> Result<u64, RestoreFault>
    ensures same_reference { (shelf_of depot.new).ghost_name ≡ (shelf_of depot.old).ghost_name }
    ensures answer { ManifestCopy output.now (shelves ⟦<F as Shelf>⟧ ⟦<K as Shelf>⟧ files.old depot.old)
        (shelves ⟦<F as Shelf>⟧ ⟦<K as Shelf>⟧ files.new depot.new) kept.now start result }
{
    match depot.load(alloc, kept) {
        Ok(manifest) => copy_chunks(alloc, depot, files, output, kept, &manifest, start),
        Err(fault) => Err(of_load(fault)),
    }
}
