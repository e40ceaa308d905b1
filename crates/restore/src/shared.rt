// A restore by one of many callers of a store.
ghost use Rattle.std.specs.Prelude.{◌≡◌};
ghost use Rattle.outside.specs.Views.{shelf_view, OnlyReads};
ghost use Rattle.depot.specs.Seen.{shelf_of, seen};
ghost use Rattle.store_shared.specs.Sight.{AreByOthers};
ghost use Rattle.store_shared.specs.Tokens.{idle_of};
ghost use Rattle.restore.specs.Copies.{shelves};
ghost use Rattle.restore.specs.Restores.{CallsOf, RestoreAnswer, RestoreCause, RestoreCounts, FilesAnswer};

use crate::restore_by;
use depot::{Depot, RestoreFault};
use outside::{Gate, Shelf};
use shared_calls::{IdlePass, Lane, ObjectName, PassCalls, SharedCalls, Started};
use ss_base::StreamName;
use std::alloc::Global;
use std::marker::{Brand, PhantomData};
use std::sync::Wait;
use store_shared::{Pass, Store};

/// Restores the stream of this name as [`crate::restore_solo`] does, beside others that take turns on the store, and
/// gives the pass back. Before each turn it passes the gate, with its lane and the kind of point. Where the stream was
/// looked up, the reading is ended in every case.
pub fn restore_shared<'s, const L: usize, const M: usize, R: Wait, F: Shelf, K: Shelf, G: Gate>(
    alloc: Global,
    store: &'s Store<L, M>,
    rt: &'s R,
    pass: Pass,
    lane: u32,
    gate: &'s G,
    files: &mut F,
    name: StreamName,
    output: &str,
    depot: &mut Depot<'_, K>,
) -> (Pass, Result<u64, RestoreFault>)
    requires turns { pass.turns ≡ store.now }
    ensures pass { result.0 ≡ record pass { seen = result.0.seen } }
    ensures same_reference { (shelf_of depot.new).ghost_name ≡ (shelf_of depot.old).ghost_name }
    ensures answer { RestoreAnswer (CallsOf (AreByOthers pass) L M (idle_of pass) name (idle_of result.0))
        output.now (shelves ⟦<F as Shelf>⟧ ⟦<K as Shelf>⟧ files.old depot.old)
        (shelves ⟦<F as Shelf>⟧ ⟦<K as Shelf>⟧ files.new depot.new) result.1 }
    ensures cause { RestoreCause output.now (shelves ⟦<F as Shelf>⟧ ⟦<K as Shelf>⟧ files.old depot.old)
        (shelves ⟦<F as Shelf>⟧ ⟦<K as Shelf>⟧ files.new depot.new) result.1 }
    ensures counts { RestoreCounts (shelves ⟦<F as Shelf>⟧ ⟦<K as Shelf>⟧ files.old depot.old)
        (shelves ⟦<F as Shelf>⟧ ⟦<K as Shelf>⟧ files.new depot.new) result.1 }
    ensures files { FilesAnswer output.now (shelf_view ⟦<F as Shelf>⟧ files.old) (shelf_view ⟦<F as Shelf>⟧ files.new) result.1 }
    ensures depot { OnlyReads (seen ⟦<K as Shelf>⟧ depot.old) (seen ⟦<K as Shelf>⟧ depot.new) }
{
    let calls = Lane {
        rt,
        store,
        gate,
        lane,
    };
    let output = ObjectName { text: output };
    restore_by_pass::<Brand, Lane<'_, R, G, L, M>, F, K>(
        alloc, &calls, pass, files, name, output, depot,
    )
}

// The same over a lane's calls, for a job whose pass it is.
fn restore_by_pass<O: Started, C: SharedCalls, F: Shelf, K: Shelf>(
    alloc: Global,
    calls: &C,
    pass: Pass,
    files: &mut F,
    name: StreamName,
    output: ObjectName<'_>,
    depot: &mut Depot<'_, K>,
) -> (Pass, Result<u64, RestoreFault>)
    requires turns { C.turns calls.now ≡ O.pass.turns }
    requires first { pass ≡ O.pass }
    ensures pass { result.0 ≡ record O.pass { seen = result.0.seen } }
    ensures same_reference { (shelf_of depot.new).ghost_name ≡ (shelf_of depot.old).ghost_name }
    ensures answer { RestoreAnswer (CallsOf (AreByOthers O.pass) C.standings C.champions (idle_of pass) name (idle_of result.0))
        output.entry.text.now (shelves ⟦<F as Shelf>⟧ ⟦<K as Shelf>⟧ files.old depot.old)
        (shelves ⟦<F as Shelf>⟧ ⟦<K as Shelf>⟧ files.new depot.new) result.1 }
{
    let mut calls: PassCalls<'_, C, O> = PassCalls {
        calls,
        of: PhantomData,
    };
    let idle = IdlePass {
        pass,
        of: PhantomData,
    };
    let (idle, result) = restore_by(alloc, &mut calls, idle, files, name, output.text, depot);
    let IdlePass { pass, of: _ } = idle;
    (pass, result)
}
