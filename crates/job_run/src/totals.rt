// A stat as a job.
ghost use Rattle.job_run.specs.Jobs.{StatDone};

use report::JobAnswer;
use store_core::State;

pub(crate) fn run_stat<const L: usize, const M: usize>(
    state: &mut State<L, M>,
    author: u32,
) -> JobAnswer
    ensures { StatDone author state.old state.new result }
{
    match state.stat(author) {
        Ok(_) => JobAnswer::Ok,
        Err(fault) => JobAnswer::Stat(fault),
    }
}
