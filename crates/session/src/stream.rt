// A session from its begin to its end.
ghost use Rattle.std.specs.Prelude.{◌≡◌, false, [], None, MatchResult, IfOk};
ghost use Rattle.outside.specs.Views.{source_view};
ghost use Rattle.depot.specs.Seen.{shelf_of, seen};
ghost use Rattle.history_calls.specs.OpenAt.{IsOpenAt};
ghost use Rattle.segment_reader.specs.WorkState.{unused};
ghost use Rattle.store_core.specs.View.{past_of};
ghost use Rattle.session.specs.Causes.{DepotCount, InputCount};
ghost use Rattle.session.specs.Ready.{reached, IsReady};
ghost use Rattle.session.specs.Runs.{numbers_for, HasStoredStream, HasStoppedStream, HasFinishedStream, HasFailedStream};
ghost use Rattle.session.specs.Split.{most_bytes};

use crate::causes::of_next;
use crate::segments::store_next;
use crate::storing::Extent;
use depot::{BackupFault, Depot};
use history_calls::SessionCalls;
use manifest_cache::ManifestCache;
use outside::{Shelf, Source};
use segment_reader::{Work, next_segment};
use std::alloc::Global;

/// The most bytes that a stream may have.
const MAX_STREAM: u64 = 1 << 40;

/// Stores the stream of a source in a session that has just begun, and finishes it. Where that fails the session is
/// given up, with what was begun.
pub(crate) fn store_stream<C: SessionCalls, S: Source, K: Shelf>(
    alloc: Global,
    calls: &mut C,
    caller: C::Open,
    source: &mut S,
    depot: &mut Depot<'_, K>,
    cache: &mut ManifestCache,
) -> Result<C::Idle, (C::Idle, BackupFault)>
    requires begun { IsOpenAt (C.of_open calls.old caller).author (C.of_open calls.old caller).session None 0 0 (past_of (C.of_open calls.old caller).seen) }
    ensures same_reference { (shelf_of depot.new).ghost_name ≡ (shelf_of depot.old).ghost_name }
    ensures answer { MatchResult result
        (λ idle. HasFinishedStream C.others C.standings C.champions (C.of_open calls.old caller)
        (source_view ⟦<S as Source>⟧ source.old) (source_view ⟦<S as Source>⟧ source.new)
        (seen ⟦<K as Shelf>⟧ depot.old) cache.old.entries (C.of_idle calls.new idle) (seen ⟦<K as Shelf>⟧ depot.new) cache.new.entries)
        (λ back. HasFailedStream C.others C.standings C.champions (C.of_open calls.old caller)
        (source_view ⟦<S as Source>⟧ source.old) (source_view ⟦<S as Source>⟧ source.new)
        (seen ⟦<K as Shelf>⟧ depot.old) cache.old.entries (C.of_idle calls.new back.0) (seen ⟦<K as Shelf>⟧ depot.new) cache.new.entries back.1) }
    ensures behind { S.behind source.new ≡ S.behind source.old }
    ensures input_count { MatchResult result (λ _. S.faults source.new ≡ S.faults source.old)
        (λ back. InputCount back.1 (S.faults source.old) (S.faults source.new)) }
    ensures depot_count { MatchResult result (λ _. K.faults (shelf_of depot.new).now ≡ K.faults (shelf_of depot.old).now)
        (λ back. DepotCount back.1 (K.faults (shelf_of depot.old).now) (K.faults (shelf_of depot.new).now)) }
{
    let Ok(mut work) = Work::new(alloc, calls.profile(&caller), MAX_STREAM) else {
        return Err((calls.abort(caller, 0, 0), BackupFault::Memory));
    };
    let mut extent = Extent::new(calls.session(&caller));
    match store_segments(
        alloc,
        calls,
        caller,
        source,
        &mut work,
        depot,
        &mut extent,
        cache,
    ) {
        Ok(caller) => Ok(calls.finish(caller, extent.end.containers)),
        Err(back) => Err(back),
    }
}

// Stores the segments of a source's stream, one by one.
fn store_segments<C: SessionCalls, S: Source, K: Shelf>(
    alloc: Global,
    calls: &mut C,
    caller: C::Open,
    source: &mut S,
    work: &mut Work,
    depot: &mut Depot<'_, K>,
    extent: &mut Extent,
    cache: &mut ManifestCache,
) -> Result<C::Open, (C::Idle, BackupFault)>
    requires ready { IsReady (C.of_open calls.old caller) extent.old }
    requires work { work.old ≡ record { numbers = numbers_for (C.of_open calls.old caller); limit = most_bytes; taken = 0; pending = 0; bytes = []; ended = false; spent = false } }
    ensures same_reference { (shelf_of depot.new).ghost_name ≡ (shelf_of depot.old).ghost_name }
    ensures answer { MatchResult result
        (λ token. HasStoredStream C.others C.standings C.champions (numbers_for (C.of_open calls.old caller))
        (reached (C.of_open calls.old caller) (seen ⟦<K as Shelf>⟧ depot.old) extent.old cache.old.entries)
        (source_view ⟦<S as Source>⟧ source.old) (source_view ⟦<S as Source>⟧ source.new)
        (reached (C.of_open calls.new token) (seen ⟦<K as Shelf>⟧ depot.new) extent.new cache.new.entries))
        (λ back. HasStoppedStream C.others C.standings C.champions (numbers_for (C.of_open calls.old caller))
        (reached (C.of_open calls.old caller) (seen ⟦<K as Shelf>⟧ depot.old) extent.old cache.old.entries)
        (source_view ⟦<S as Source>⟧ source.old) (source_view ⟦<S as Source>⟧ source.new)
        (C.of_idle calls.new back.0) (seen ⟦<K as Shelf>⟧ depot.new) cache.new.entries back.1) }
    ensures ready { IfOk result (λ token. IsReady (C.of_open calls.new token) extent.new) }
    ensures behind { S.behind source.new ≡ S.behind source.old }
    ensures input_count { MatchResult result (λ _. S.faults source.new ≡ S.faults source.old)
        (λ back. InputCount back.1 (S.faults source.old) (S.faults source.new)) }
    ensures depot_count { MatchResult result (λ _. K.faults (shelf_of depot.new).now ≡ K.faults (shelf_of depot.old).now)
        (λ back. DepotCount back.1 (K.faults (shelf_of depot.old).now) (K.faults (shelf_of depot.new).now)) }
{
    let mut caller = caller;
    loop {
        let segment = match next_segment(alloc, source, work) {
            Ok(Some(segment)) => segment,
            Ok(None) => return Ok(caller),
            Err(fault) => {
                let idle = calls.abort(caller, extent.end.containers, extent.texts);
                return Err((idle, of_next(fault)));
            }
        };
        match store_next(alloc, calls, caller, depot, &segment, extent, cache) {
            Ok(next) => caller = next,
            Err(back) => return Err(back),
        }
    }
}
