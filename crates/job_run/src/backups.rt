// A backup as a job.
ghost use Rattle.outside.specs.Views.{shelf_view};
ghost use Rattle.job_run.specs.Jobs.{BackupDone};

use depot::Depot;
use job_script::PathText;
use manifest_cache::ManifestCache;
use outside::Shelf;
use report::JobAnswer;
use session::backup_solo;
use ss_base::StreamName;
use std::alloc::Global;
use store_core::State;

pub(crate) fn run_backup<const L: usize, const M: usize, F: Shelf, K: Shelf>(
    alloc: Global,
    state: &mut State<L, M>,
    author: u32,
    input: &PathText,
    name: StreamName,
    files: &mut F,
    depot: &mut K,
    cache: &mut ManifestCache,
) -> JobAnswer
    ensures { BackupDone L M author input.now name state.old state.new
        (record { files = shelf_view ⟦<F as Shelf>⟧ files.old; depot = shelf_view ⟦<K as Shelf>⟧ depot.old })
        (record { files = shelf_view ⟦<F as Shelf>⟧ files.new; depot = shelf_view ⟦<K as Shelf>⟧ depot.new })
        cache.old.entries cache.new.entries result }
{
    let mut depot = Depot::over(depot);
    match backup_solo(
        alloc,
        state,
        author,
        files,
        input.as_str(),
        name,
        &mut depot,
        cache,
    ) {
        Ok(_) => JobAnswer::Ok,
        Err(fault) => JobAnswer::Backup(fault),
    }
}
