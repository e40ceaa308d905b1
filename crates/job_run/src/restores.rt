// A restore as a job.
ghost use Rattle.outside.specs.Views.{shelf_view};
ghost use Rattle.job_run.specs.Jobs.{RestoreDone};

use depot::Depot;
use job_script::PathText;
use outside::Shelf;
use report::JobAnswer;
use restore::restore_solo;
use ss_base::StreamName;
use std::alloc::Global;
use store_core::State;

pub(crate) fn run_restore<const L: usize, const M: usize, F: Shelf, K: Shelf>(
    alloc: Global,
    state: &mut State<L, M>,
    author: u32,
    name: StreamName,
    output: &PathText,
    files: &mut F,
    depot: &mut K,
) -> JobAnswer
    ensures { RestoreDone author name output.now state.old state.new
        (record { files = shelf_view ⟦<F as Shelf>⟧ files.old; depot = shelf_view ⟦<K as Shelf>⟧ depot.old })
        (record { files = shelf_view ⟦<F as Shelf>⟧ files.new; depot = shelf_view ⟦<K as Shelf>⟧ depot.new }) result }
{
    let mut depot = Depot::over(depot);
    match restore_solo(
        alloc,
        state,
        author,
        files,
        name,
        output.as_str(),
        &mut depot,
    ) {
        Ok(_) => JobAnswer::Ok,
        Err(fault) => JobAnswer::Restore(fault),
    }
}
