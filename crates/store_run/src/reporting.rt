// What is printed of a job and of the entries that it added.
ghost use Rattle.std.specs.Prelude.{◌≡◌, ◌+◌, ◌≤◌, ◌++◌, ◌∷◌, [], length, OnOk, OnErr};
ghost use Rattle.std.specs.Io.KnownBytes.{Appends};
ghost use Rattle.outside.specs.Bytes.{AppendsFront};
ghost use Rattle.outside.specs.Faults.{HasCause};
ghost use Rattle.journal_file.specs.declared.limits.TheConstants.{MAX_ENTRIES};
ghost use Rattle.store_run.specs.JobRun.{append_line, report_text, run_status};
ghost use Rattle.store_run.specs.Stop.{sink_fault, least_status};

use crate::fault_lines::write_behind;
use crate::listing::print_entries;
use crate::stop::Stop;
use history::Entry;
use job_script::Job;
use journal_file::AppendFault;
use outside::{Sink, Trouble, write_all};
use report::{JobAnswer, job_line};
use std::alloc::Global;

/// Prints the lines of entries, the first of which has this number, the line of the job, and that of an append that
/// failed. After an `Err` a front of all may have been written.
pub(crate) fn print_report<O: Sink>(
    alloc: Global,
    first: u32,
    entries: &[Entry],
    job: &Job,
    answer: &JobAnswer,
    kept: &Result<(), AppendFault>,
    out: &mut O,
) -> Result<(), Trouble>
    requires { first + length entries.now ≤ MAX_ENTRIES }
    ensures ok { OnOk result (Appends (O.written out.old) (O.written out.new) (report_text first entries.now job.now answer.now kept.now)) }
    ensures err { OnErr result (AppendsFront (O.written out.old) (O.written out.new) (report_text first entries.now job.now answer.now kept.now)) }
    ensures cause { HasCause (O.faults out.old) (O.faults out.new) result }
{
    let mut waiting = Vec::new(alloc);
    print_entries(alloc, first, entries, &mut waiting, out)?;
    let line = job_line(alloc, 1, job, answer)?;
    waiting.extend_from_slice(line.as_bytes())?;
    print_ending(alloc, &waiting, kept, out)
}

// Prints what waits, and the line of an append that failed.
fn print_ending<O: Sink>(
    alloc: Global,
    waiting: &[u8],
    kept: &Result<(), AppendFault>,
    out: &mut O,
) -> Result<(), Trouble>
    ensures ok { OnOk result (Appends (O.written out.old) (O.written out.new) (waiting.now ++ append_line kept.now)) }
    ensures err { OnErr result (AppendsFront (O.written out.old) (O.written out.new) (waiting.now ++ append_line kept.now)) }
    ensures cause { HasCause (O.faults out.old) (O.faults out.new) result }
{
    match kept {
        Ok(()) => write_all(out, waiting),
        Err(AppendFault::Shelf) => write_behind(alloc, out, waiting, Stop::DepotFault),
        Err(AppendFault::Memory) => write_behind(alloc, out, waiting, Stop::Memory),
    }
}

/// The status of a run whose job has this one.
pub(crate) fn status_of_run(
    job: u8,
    kept: &Result<(), AppendFault>,
    printed: &Result<(), Trouble>,
) -> u8
    requires { job ≤ 8 }
    ensures { result ≡ run_status job kept.now printed.now }
{
    match (kept, printed) {
        (Err(AppendFault::Memory), _) => 8,
        (_, Err(Trouble::Memory)) => 8,
        (Ok(()), Ok(())) => job,
        (Ok(()), Err(Trouble::Fault)) => beside_sink_fault(job),
        (Err(AppendFault::Shelf), Ok(())) => beside_depot_fault(job),
        (Err(AppendFault::Shelf), Err(Trouble::Fault)) => beside_depot_fault(job),
    }
}

#[tactic(auto, unfolding(crate::specs::Stop::least_status, ss_base::specs::Search::least))]
fn beside_depot_fault(job: u8) -> u8
    requires { job ≤ 8 }
    ensures depot { result ≡ least_status (job ∷ 4 ∷ []) }
    ensures both { result ≡ least_status (job ∷ 4 ∷ sink_fault ∷ []) }
{
    match job {
        0 => 4,
        1 => 1,
        2 => 2,
        3 => 3,
        4 => 4,
        5 => 4,
        6 => 4,
        7 => 4,
        _ => 4,
    }
}

#[tactic(auto, unfolding(crate::specs::Stop::least_status, ss_base::specs::Search::least))]
fn beside_sink_fault(job: u8) -> u8
    requires { job ≤ 8 }
    ensures { result ≡ least_status (job ∷ sink_fault ∷ []) }
{
    match job {
        0 => 9,
        1 => 1,
        2 => 2,
        3 => 3,
        4 => 4,
        5 => 5,
        6 => 6,
        7 => 7,
        _ => 9,
    }
}
