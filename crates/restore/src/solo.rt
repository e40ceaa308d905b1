// A restore by the one caller of a state.
ghost use Rattle.std.specs.Prelude.{◌≡◌};
ghost use Rattle.outside.specs.Views.{shelf_view, OnlyReads};
ghost use Rattle.depot.specs.Seen.{shelf_of, seen};
ghost use Rattle.restore.specs.Copies.{shelves};
ghost use Rattle.restore.specs.Restores.{StateCalls, RestoreAnswer, RestoreCause, RestoreCounts, FilesAnswer};

use crate::restore_by;
use depot::{Depot, RestoreFault};
use history_calls::Caller;
use outside::Shelf;
use ss_base::StreamName;
use std::alloc::Global;
use store_core::State;

/// Restores the stream of this name to an output that is not there yet: looks it up, makes the output without bytes,
/// loads its manifests one by one, reads each chunk, and adds it to the output once it is checked. Then it ends the
/// reading, in every case where the stream was looked up. Answers how many bytes there are, or 2^64 - 1 where there are
/// more. `Exists`: the output is there. `NoStream`, `Full`: the look was refused. `OutputFault`, `DepotFault`: a call on
/// `files`, or on the depot, failed. `Damaged`, `Unlike`: as a load or a read of a chunk says. `Memory` may come in each
/// step. After an `Err` an output that was made holds a front of the stream.
pub fn restore_solo<const L: usize, const M: usize, F: Shelf, K: Shelf>(
    alloc: Global,
    state: &mut State<L, M>,
    author: u32,
    files: &mut F,
    name: StreamName,
    output: &str,
    depot: &mut Depot<'_, K>,
) -> Result<u64, RestoreFault>
    ensures same_reference { (shelf_of depot.new).ghost_name ≡ (shelf_of depot.old).ghost_name }
    ensures answer { RestoreAnswer (StateCalls state.old author name state.new)
        output.now (shelves ⟦<F as Shelf>⟧ ⟦<K as Shelf>⟧ files.old depot.old)
        (shelves ⟦<F as Shelf>⟧ ⟦<K as Shelf>⟧ files.new depot.new) result }
    ensures cause { RestoreCause output.now (shelves ⟦<F as Shelf>⟧ ⟦<K as Shelf>⟧ files.old depot.old)
        (shelves ⟦<F as Shelf>⟧ ⟦<K as Shelf>⟧ files.new depot.new) result }
    ensures counts { RestoreCounts (shelves ⟦<F as Shelf>⟧ ⟦<K as Shelf>⟧ files.old depot.old)
        (shelves ⟦<F as Shelf>⟧ ⟦<K as Shelf>⟧ files.new depot.new) result }
    ensures files { FilesAnswer output.now (shelf_view ⟦<F as Shelf>⟧ files.old) (shelf_view ⟦<F as Shelf>⟧ files.new) result }
    ensures depot { OnlyReads (seen ⟦<K as Shelf>⟧ depot.old) (seen ⟦<K as Shelf>⟧ depot.new) }
{
    let (_, result) = restore_by(alloc, state, Caller { author }, files, name, output, depot);
    result
}
