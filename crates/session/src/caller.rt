// A backup by a caller of a history.
ghost use Rattle.std.specs.Prelude.{◌≡◌, ℕ, List, None, [], MatchResult};
ghost use Rattle.outside.specs.Views.{shelf_view, OnlyReads};
ghost use Rattle.depot.specs.Seen.{shelf_of, seen};
ghost use Rattle.history_calls.specs.OpenAt.{IsOpenAt};
ghost use Rattle.store_core.specs.View.{past_of};
ghost use Rattle.session.specs.Causes.{DepotCount, InputCount, DepotAnswer, InputAnswer};
ghost use Rattle.session.specs.Runs.{HasStreamed, HasNotStreamed};
ghost use Rattle.session.specs.Backup.{input_view, BackupAnswer};

use crate::causes::{of_begin, of_input};
use crate::stream::store_stream;
use depot::{BackupFault, Depot};
use history_calls::SessionCalls;
use manifest_cache::ManifestCache;
use outside::{Shelf, ShelfSource};
use ss_base::StreamName;
use std::alloc::Global;

/// Backs up a file under a name, in a session of its own, whose number is the answer. `calls` adds the session's
/// entries to a history, `files` has the input, and `depot` takes what is stored.
pub fn backup<C: SessionCalls, F: Shelf, K: Shelf>(
    alloc: Global,
    calls: &mut C,
    idle: C::Idle,
    files: &mut F,
    input: &str,
    name: StreamName,
    depot: &mut Depot<'_, K>,
    cache: &mut ManifestCache,
) -> (C::Idle, Result<u32, BackupFault>)
    ensures same_reference { (shelf_of depot.new).ghost_name ≡ (shelf_of depot.old).ghost_name }
    ensures answer { BackupAnswer C.others C.standings C.champions (shelf_view ⟦<F as Shelf>⟧ files.old) input.now name
        (C.of_idle calls.old idle) (seen ⟦<K as Shelf>⟧ depot.old) cache.old.entries (C.of_idle calls.new result.0) (seen ⟦<K as Shelf>⟧ depot.new) cache.new.entries result.1 }
    ensures files { OnlyReads (shelf_view ⟦<F as Shelf>⟧ files.old) (shelf_view ⟦<F as Shelf>⟧ files.new) }
    ensures input_count { InputAnswer result.1 (F.faults files.old) (F.faults files.new) }
    ensures depot_count { DepotAnswer result.1 (K.faults (shelf_of depot.old).now) (K.faults (shelf_of depot.new).now) }
{
    match files.has(input) {
        Ok(true) => {}
        Ok(false) => return (idle, Err(BackupFault::NoInput)),
        Err(trouble) => return (idle, Err(of_input(trouble))),
    }
    let caller = match calls.begin(idle, name) {
        Ok(caller) => caller,
        Err((idle, fault)) => return (idle, Err(of_begin(fault))),
    };
    let session = calls.session(&caller);
    match store_input(alloc, calls, caller, files, input, depot, cache) {
        Ok(idle) => (idle, Ok(session)),
        Err((idle, fault)) => (idle, Err(fault)),
    }
}

// Stores the stream of the input.
fn store_input<C: SessionCalls, F: Shelf, K: Shelf>(
    alloc: Global,
    calls: &mut C,
    caller: C::Open,
    files: &mut F,
    input: &str,
    depot: &mut Depot<'_, K>,
    cache: &mut ManifestCache,
) -> Result<C::Idle, (C::Idle, BackupFault)>
    requires begun { IsOpenAt (C.of_open calls.old caller).author (C.of_open calls.old caller).session None 0 0 (past_of (C.of_open calls.old caller).seen) }
    ensures same_reference { (shelf_of depot.new).ghost_name ≡ (shelf_of depot.old).ghost_name }
    ensures answer { MatchResult result
        (λ idle. HasStreamed C.others C.standings C.champions (C.of_open calls.old caller) (input_view (shelf_view ⟦<F as Shelf>⟧ files.old) input.now)
        (seen ⟦<K as Shelf>⟧ depot.old) cache.old.entries (C.of_idle calls.new idle) (seen ⟦<K as Shelf>⟧ depot.new) cache.new.entries)
        (λ back. HasNotStreamed C.others C.standings C.champions (C.of_open calls.old caller) (input_view (shelf_view ⟦<F as Shelf>⟧ files.old) input.now)
        (seen ⟦<K as Shelf>⟧ depot.old) cache.old.entries (C.of_idle calls.new back.0) (seen ⟦<K as Shelf>⟧ depot.new) cache.new.entries back.1) }
    ensures files { OnlyReads (shelf_view ⟦<F as Shelf>⟧ files.old) (shelf_view ⟦<F as Shelf>⟧ files.new) }
    ensures input_count { MatchResult result (λ _. F.faults files.new ≡ F.faults files.old)
        (λ back. InputCount back.1 (F.faults files.old) (F.faults files.new)) }
    ensures depot_count { MatchResult result (λ _. K.faults (shelf_of depot.new).now ≡ K.faults (shelf_of depot.old).now)
        (λ back. DepotCount back.1 (K.faults (shelf_of depot.old).now) (K.faults (shelf_of depot.new).now)) }
{
    let mut source = ShelfSource::new(files, input);
    store_stream(alloc, calls, caller, &mut source, depot, cache)
}
