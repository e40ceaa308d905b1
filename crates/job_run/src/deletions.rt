// A delete as a job.
ghost use Rattle.job_run.specs.Jobs.{DeleteDone};

use report::JobAnswer;
use ss_base::StreamName;
use store_core::State;

pub(crate) fn run_delete<const L: usize, const M: usize>(
    state: &mut State<L, M>,
    author: u32,
    name: StreamName,
) -> JobAnswer
    ensures { DeleteDone author name state.old state.new result }
{
    match state.delete(author, name) {
        Ok(_) => JobAnswer::Ok,
        Err(fault) => JobAnswer::Delete(fault),
    }
}
