// A run of one job.
ghost use Rattle.std.specs.Prelude.{◌≡◌, ◌≤◌, length, drop};
ghost use Rattle.outside.specs.Views.{sink_view, shelf_view};
ghost use Rattle.store_run.specs.JobRun.{JobRun, IsKeptAndReported};
ghost use Rattle.store_run.specs.Opening.{store_limits, IsLegal};

use crate::fault_lines::refuse;
use crate::opening::open;
use crate::reporting::{print_report, status_of_run};
use crate::stop::Stop;
use job_run::run_command;
use job_script::{Job, JobKind};
use journal_file::append;
use manifest_cache::ManifestCache;
use outside::{Shelf, Sink};
use report::{JobAnswer, status_of};
use std::alloc::Global;
use store_core::State;

/// How many loaded manifests a run keeps.
const CACHE_SIZE: usize = 64;

/// Opens the store, does the job on lane 1 as the author that comes next, keeps the new entries in the journal by one
/// append, and prints the report: a line for each of these entries, and one for the job. Answers the status. Where the
/// store is not opened, no author's number is left, or the cache of manifests wants memory, only that line is printed.
pub(crate) fn run_on_store<O: Sink, F: Shelf, K: Shelf>(
    alloc: Global,
    kind: JobKind,
    files: &mut F,
    depot: &mut K,
    out: &mut O,
) -> u8
    ensures { JobRun kind
        (record { files = shelf_view ⟦<F as Shelf>⟧ files.old; depot = shelf_view ⟦<K as Shelf>⟧ depot.old })
        (record { files = shelf_view ⟦<F as Shelf>⟧ files.new; depot = shelf_view ⟦<K as Shelf>⟧ depot.new })
        (sink_view ⟦<O as Sink>⟧ out.old) (sink_view ⟦<O as Sink>⟧ out.new) result }
{
    let mut state = match open(alloc, depot) {
        Ok(state) => state,
        Err(why) => return refuse(alloc, out, &[], why),
    };
    let Some(author) = state.next_author() else {
        return refuse(alloc, out, &[], Stop::Callers);
    };
    let Ok(mut cache) = ManifestCache::new(alloc, CACHE_SIZE) else {
        return refuse(alloc, out, &[], Stop::Memory);
    };
    let first = state.entries().len();
    let answer = run_command(alloc, &mut state, author, &kind, files, depot, &mut cache);
    let job = Job { lane: 1, kind };
    keep_and_report(alloc, &state, first, &job, &answer, depot, out)
}

// Keeps the entries from this number on in the journal, and reports them and the job.
fn keep_and_report<O: Sink, K: Shelf>(
    alloc: Global,
    state: &State<8, 8>,
    first: usize,
    job: &Job,
    answer: &JobAnswer,
    depot: &mut K,
    out: &mut O,
) -> u8
    requires first { first ≤ length state.now.entries }
    requires limits { state.now.limits ≡ store_limits }
    ensures legal { IsLegal state.now }
    ensures kept { IsKeptAndReported first (drop first state.now.entries) job.now answer.now
        (shelf_view ⟦<K as Shelf>⟧ depot.old) (shelf_view ⟦<K as Shelf>⟧ depot.new)
        (sink_view ⟦<O as Sink>⟧ out.old) (sink_view ⟦<O as Sink>⟧ out.new) result }
{
    let (_, added) = state.entries().split_at(first);
    let kept = append(alloc, depot, added);
    let printed = print_report(alloc, first as u32, added, job, answer, &kept, out);
    status_of_run(status_of(answer), &kept, &printed)
}
