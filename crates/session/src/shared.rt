// A backup by one of many callers of a store.
ghost use Rattle.std.specs.Prelude.{◌≡◌};
ghost use Rattle.outside.specs.Views.{shelf_view, OnlyReads};
ghost use Rattle.depot.specs.Seen.{shelf_of, seen};
ghost use Rattle.store_shared.specs.Sight.{AreByOthers};
ghost use Rattle.store_shared.specs.Tokens.{idle_of};
ghost use Rattle.session.specs.Causes.{DepotAnswer, InputAnswer};
ghost use Rattle.session.specs.Backup.{BackupAnswer};

use crate::caller::backup;
use depot::{BackupFault, Depot};
use manifest_cache::ManifestCache;
use outside::{Gate, Shelf};
use shared_calls::{IdlePass, Lane, ObjectName, PassCalls, SharedCalls, Started};
use ss_base::StreamName;
use std::alloc::Global;
use std::marker::{Brand, PhantomData};
use std::sync::Wait;
use store_shared::{Pass, Store};

/// Backs up a file under a name beside others that take turns on the store, and gives the pass back; see `backup`.
/// Before each turn it passes the gate, with its lane and the kind of point. A backup that fails once its session was
/// begun gives the session up, whatever others did meanwhile.
pub fn backup_shared<'s, const L: usize, const M: usize, R: Wait, F: Shelf, K: Shelf, G: Gate>(
    alloc: Global,
    store: &'s Store<L, M>,
    rt: &'s R,
    pass: Pass,
    lane: u32,
    gate: &'s G,
    files: &mut F,
    input: &str,
    name: StreamName,
    depot: &mut Depot<'_, K>,
    cache: &mut ManifestCache,
) -> (Pass, Result<u32, BackupFault>)
    requires turns { pass.turns ≡ store.now }
    ensures pass { result.0 ≡ record pass { seen = result.0.seen } }
    ensures same_reference { (shelf_of depot.new).ghost_name ≡ (shelf_of depot.old).ghost_name }
    ensures answer { BackupAnswer (AreByOthers pass) L M (shelf_view ⟦<F as Shelf>⟧ files.old) input.now name
        (idle_of pass) (seen ⟦<K as Shelf>⟧ depot.old) cache.old.entries (idle_of result.0) (seen ⟦<K as Shelf>⟧ depot.new) cache.new.entries result.1 }
    ensures files { OnlyReads (shelf_view ⟦<F as Shelf>⟧ files.old) (shelf_view ⟦<F as Shelf>⟧ files.new) }
    ensures input_count { InputAnswer result.1 (F.faults files.old) (F.faults files.new) }
    ensures depot_count { DepotAnswer result.1 (K.faults (shelf_of depot.old).now) (K.faults (shelf_of depot.new).now) }
{
    let calls = Lane {
        rt,
        store,
        gate,
        lane,
    };
    let input = ObjectName { text: input };
    backup_by_pass::<Brand, Lane<'_, R, G, L, M>, F, K>(
        alloc, &calls, pass, files, input, name, depot, cache,
    )
}

// The same over a lane's calls, for a job whose pass it is.
fn backup_by_pass<O: Started, C: SharedCalls, F: Shelf, K: Shelf>(
    alloc: Global,
    calls: &C,
    pass: Pass,
    files: &mut F,
    input: ObjectName<'_>,
    name: StreamName,
    depot: &mut Depot<'_, K>,
    cache: &mut ManifestCache,
) -> (Pass, Result<u32, BackupFault>)
    requires turns { C.turns calls.now ≡ O.pass.turns }
    requires first { pass ≡ O.pass }
    ensures pass { result.0 ≡ record O.pass { seen = result.0.seen } }
    ensures same_reference { (shelf_of depot.new).ghost_name ≡ (shelf_of depot.old).ghost_name }
    ensures answer { BackupAnswer (AreByOthers O.pass) C.standings C.champions (shelf_view ⟦<F as Shelf>⟧ files.old) input.entry.text.now name
        (idle_of pass) (seen ⟦<K as Shelf>⟧ depot.old) cache.old.entries (idle_of result.0) (seen ⟦<K as Shelf>⟧ depot.new) cache.new.entries result.1 }
    ensures files { OnlyReads (shelf_view ⟦<F as Shelf>⟧ files.old) (shelf_view ⟦<F as Shelf>⟧ files.new) }
    ensures input_count { InputAnswer result.1 (F.faults files.old) (F.faults files.new) }
    ensures depot_count { DepotAnswer result.1 (K.faults (shelf_of depot.old).now) (K.faults (shelf_of depot.new).now) }
{
    let mut calls: PassCalls<'_, C, O> = PassCalls {
        calls,
        of: PhantomData,
    };
    let idle = IdlePass {
        pass,
        of: PhantomData,
    };
    let (idle, result) = backup(
        alloc, &mut calls, idle, files, input.text, name, depot, cache,
    );
    let IdlePass { pass, of: _ } = idle;
    (pass, result)
}
