// A restore over the calls of a reading.
ghost use Rattle.std.specs.Prelude.{◌≡◌};
ghost use Rattle.depot.specs.Seen.{shelf_of};
ghost use Rattle.restore.specs.Copies.{shelves};
ghost use Rattle.restore.specs.Restores.{CallsOf, RestoreAnswer};

use crate::faults::{of_look, of_output};
use crate::manifests::copy_stream;
use crate::output::is_there;
use depot::{Depot, RestoreFault};
use history_calls::ReadingCalls;
use outside::Shelf;
use ss_base::StreamName;
use std::alloc::Global;

/// Restores the stream of this name to an output that is not there yet, by the calls of one caller. Answers as
/// [`crate::restore_solo`] does, and gives the caller back.
pub fn restore_by<C: ReadingCalls, F: Shelf, K: Shelf>(
    alloc: Global,
    calls: &mut C,
    idle: C::Idle,
    files: &mut F,
    name: StreamName,
    output: &str,
    depot: &mut Depot<'_, K>,
) -> (C::Idle, Result<u64, RestoreFault>)
    ensures same_reference { (shelf_of depot.new).ghost_name ≡ (shelf_of depot.old).ghost_name }
    ensures answer { RestoreAnswer
        (CallsOf C.others C.standings C.champions (C.of_idle calls.old idle) name (C.of_idle calls.new result.0))
        output.now (shelves ⟦<F as Shelf>⟧ ⟦<K as Shelf>⟧ files.old depot.old)
        (shelves ⟦<F as Shelf>⟧ ⟦<K as Shelf>⟧ files.new depot.new) result.1 }
{
    match is_there(files, output) {
        Ok(false) => {}
        Ok(true) => return (idle, Err(RestoreFault::Exists)),
        Err(trouble) => return (idle, Err(of_output(trouble))),
    }
    let reading = match calls.look(alloc, idle, name) {
        Ok(reading) => reading,
        Err((idle, fault)) => return (idle, Err(of_look(fault))),
    };
    let looked = calls.looked(&reading);
    let result = copy_stream(alloc, depot, files, output, &looked.manifests);
    (calls.done(reading), result)
}
