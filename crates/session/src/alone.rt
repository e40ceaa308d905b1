// A backup by a caller that has the history to itself.
ghost use Rattle.std.specs.Prelude.{◌≡◌};
ghost use Rattle.outside.specs.Views.{shelf_view};
ghost use Rattle.depot.specs.Seen.{shelf_of, seen};
ghost use Rattle.session.specs.Backup.{HasRunAlone};

use crate::caller::backup;
use depot::{BackupFault, Depot};
use history_calls::Caller;
use manifest_cache::ManifestCache;
use outside::Shelf;
use ss_base::StreamName;
use std::alloc::Global;
use store_core::State;

/// Backs up a file under a name in a store that this caller has to itself; see `backup`.
pub fn backup_solo<const L: usize, const M: usize, F: Shelf, K: Shelf>(
    alloc: Global,
    state: &mut State<L, M>,
    author: u32,
    files: &mut F,
    input: &str,
    name: StreamName,
    depot: &mut Depot<'_, K>,
    cache: &mut ManifestCache,
) -> Result<u32, BackupFault>
    ensures same_reference { (shelf_of depot.new).ghost_name ≡ (shelf_of depot.old).ghost_name }
    ensures answer { HasRunAlone L M author (shelf_view ⟦<F as Shelf>⟧ files.old) (shelf_view ⟦<F as Shelf>⟧ files.new) input.now name
        state.old state.new (seen ⟦<K as Shelf>⟧ depot.old) (seen ⟦<K as Shelf>⟧ depot.new) cache.old.entries cache.new.entries result }
{
    let (_, answer) = backup(
        alloc,
        state,
        Caller { author },
        files,
        input,
        name,
        depot,
        cache,
    );
    answer
}
