// One segment of a session.
ghost use Rattle.std.specs.Prelude.{◌≡◌, ℕ, List, MatchResult, IfOk};
ghost use Rattle.segmenter.specs.Segment.{HasChunks};
ghost use Rattle.depot.specs.Seen.{shelf_of, seen};
ghost use Rattle.session.specs.Causes.{DepotCount};
ghost use Rattle.session.specs.Ready.{progress_of, reached, IsReady, IsWaiting};
ghost use Rattle.session.specs.Stores.{HasStored, HasStoredChosen};
ghost use Rattle.session.specs.Stops.{HasGivenUp, HasGivenUpChosen};

use crate::causes::of_point;
use crate::storing::{Extent, store_for};
use depot::{BackupFault, Depot};
use history_calls::SessionCalls;
use hook_sampler::hooks;
use manifest_cache::ManifestCache;
use outside::Shelf;
use segmenter::Segment;
use std::alloc::Global;

/// Stores one segment of an open session: it is chosen for by its hooks, stored against its champions, and committed.
/// Where that fails the session is given up, with what was begun.
pub(crate) fn store_next<C: SessionCalls, K: Shelf>(
    alloc: Global,
    calls: &mut C,
    caller: C::Open,
    depot: &mut Depot<'_, K>,
    segment: &Segment,
    extent: &mut Extent,
    cache: &mut ManifestCache,
) -> Result<C::Open, (C::Idle, BackupFault)>
    requires ready { IsReady (C.of_open calls.old caller) extent.old }
    ensures same_reference { (shelf_of depot.new).ghost_name ≡ (shelf_of depot.old).ghost_name }
    ensures answer { (chunks : List (List ℕ)) → HasChunks segment.now chunks → MatchResult result
        (λ token. HasStored C.others C.standings C.champions chunks
        (reached (C.of_open calls.old caller) (seen ⟦<K as Shelf>⟧ depot.old) extent.old cache.old.entries)
        (reached (C.of_open calls.new token) (seen ⟦<K as Shelf>⟧ depot.new) extent.new cache.new.entries))
        (λ back. HasGivenUp C.others C.standings C.champions chunks
        (reached (C.of_open calls.old caller) (seen ⟦<K as Shelf>⟧ depot.old) extent.old cache.old.entries)
        (C.of_idle calls.new back.0) (seen ⟦<K as Shelf>⟧ depot.new) cache.new.entries back.1) }
    ensures ready { IfOk result (λ token. IsReady (C.of_open calls.new token) extent.new) }
    ensures count { MatchResult result (λ _. K.faults (shelf_of depot.new).now ≡ K.faults (shelf_of depot.old).now)
        (λ back. DepotCount back.1 (K.faults (shelf_of depot.old).now) (K.faults (shelf_of depot.new).now)) }
{
    let numbers = calls.profile(&caller).numbers();
    let Ok(hooks) = hooks(alloc, &segment.pieces, numbers.bits) else {
        let idle = calls.abort(caller, extent.end.containers, extent.texts);
        return Err((idle, BackupFault::Memory));
    };
    match calls.choose(alloc, caller, hooks) {
        Ok(chosen) => store_chosen(
            alloc,
            calls,
            chosen,
            depot,
            segment,
            numbers.room,
            extent,
            cache,
        ),
        Err((caller, fault)) => {
            let idle = calls.abort(caller, extent.end.containers, extent.texts);
            Err((idle, of_point(fault)))
        }
    }
}

// The same, behind the choice.
fn store_chosen<C: SessionCalls, K: Shelf>(
    alloc: Global,
    calls: &mut C,
    chosen: C::Chosen,
    depot: &mut Depot<'_, K>,
    segment: &Segment,
    room: u32,
    extent: &mut Extent,
    cache: &mut ManifestCache,
) -> Result<C::Open, (C::Idle, BackupFault)>
    requires waiting { IsWaiting (C.of_chosen calls.old chosen) extent.old }
    ensures same_reference { (shelf_of depot.new).ghost_name ≡ (shelf_of depot.old).ghost_name }
    ensures answer { (chunks : List (List ℕ)) → HasChunks segment.now chunks → MatchResult result
        (λ token. HasStoredChosen C.others C.standings C.champions chunks room (C.of_chosen calls.old chosen)
        (progress_of (seen ⟦<K as Shelf>⟧ depot.old) extent.old cache.old.entries)
        (reached (C.of_open calls.new token) (seen ⟦<K as Shelf>⟧ depot.new) extent.new cache.new.entries))
        (λ back. HasGivenUpChosen C.others C.standings C.champions chunks room (C.of_chosen calls.old chosen)
        (progress_of (seen ⟦<K as Shelf>⟧ depot.old) extent.old cache.old.entries)
        (C.of_idle calls.new back.0) (seen ⟦<K as Shelf>⟧ depot.new) cache.new.entries back.1) }
    ensures ready { IfOk result (λ token. IsReady (C.of_open calls.new token) extent.new) }
    ensures count { MatchResult result (λ _. K.faults (shelf_of depot.new).now ≡ K.faults (shelf_of depot.old).now)
        (λ back. DepotCount back.1 (K.faults (shelf_of depot.old).now) (K.faults (shelf_of depot.new).now)) }
{
    let choice = calls.choice(&chosen);
    match store_for(alloc, depot, segment, choice, room, extent, cache) {
        Ok((stored, written)) => match calls.commit(chosen, stored, written) {
            Ok(caller) => Ok(caller),
            Err((chosen, fault)) => {
                let idle = calls.abort_chosen(chosen, extent.end.containers, extent.texts);
                Err((idle, of_point(fault)))
            }
        },
        Err(fault) => {
            let idle = calls.abort_chosen(chosen, extent.end.containers, extent.texts);
            Err((idle, fault))
        }
    }
}
