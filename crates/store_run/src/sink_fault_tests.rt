// Jobs whose lines cannot be printed: the status is the least of the job's, the append's and the sink's, but 8.
use crate::reporting::status_of_run;
use crate::transcripts::*;
use journal_file::AppendFault;
use outside::Trouble;
use std::test::Fail;

// A backup of a name that is taken, of no file, of a file that fails, in a depot that fails; a restore to a file that
// is there, of no stream, to a file that fails, from a depot that fails; and jobs that are done.
fn jobs_beside_a_sink() -> &'static str {
    "sink 1$ backup in zeros\n\
     status 2\n\
     sink 1$ backup nofile z\n\
     status 2\n\
     files 1,sink 1$ backup in again\n\
     status 3\n\
     depot 4,sink 1$ backup in again\n\
     status 4\n\
     --\n\
     sink 1$ restore zeros in\n\
     status 2\n\
     size in 769\n\
     sink 1$ restore other o\n\
     status 2\n\
     files 1,sink 1$ restore zeros o\n\
     status 3\n\
     size o absent\n\
     depot 4,sink 1$ restore zeros o\n\
     status 4\n\
     size o 0\n\
     --\n\
     sink 1$ restore zeros o\n\
     status 9\n\
     size o 769\n\
     --\n\
     sink 1$ delete zeros\n\
     status 9\n\
     size journal 232\n\
     sink 1$ reclaim\n\
     status 9\n\
     size c-0-0 absent\n\
     size m-0-0 absent\n\
     size journal 256\n\
     --\n\
     $ delete zeros\n\
     4 a1 delete zeros s0\n\
     job 1 lane 1 delete ok\n\
     status 0\n\
     depot 4,sink 1$ reclaim\n\
     status 4\n\
     size c-0-0 345\n\
     size m-0-0 absent\n\
     size journal 256\n"
}

#[test]
fn jobs_beside_a_sink_fault(rt: HostRuntime) -> Result<(), Fail> {
    let before = "$ init tiny\n$ backup in zeros\n";
    let came = follow_each(rt.alloc(), before, jobs_beside_a_sink())?;
    assert_eq!(rt; came.as_str(), jobs_beside_a_sink());
    Ok(())
}

// The statuses of a job; the least of each and 9 but 8, that of a sink that failed; the least of each and 4 but 8, that
// of an append that failed.
fn statuses() -> [(u8, u8, u8); 9] {
    [
        (0, 9, 4),
        (1, 1, 1),
        (2, 2, 2),
        (3, 3, 3),
        (4, 4, 4),
        (5, 5, 4),
        (6, 6, 4),
        (7, 7, 4),
        (8, 9, 4),
    ]
}

#[test]
fn statuses_of_a_run(rt: HostRuntime) -> Result<(), Fail> {
    for (job, beside_sink, beside_append) in statuses() {
        if job > 8 {
            return Err(Fail::from("a status of a job"));
        }
        assert!(rt; status_of_run(job, &Ok(()), &Ok(())) == job);
        assert!(rt; status_of_run(job, &Ok(()), &Err(Trouble::Fault)) == beside_sink);
        assert!(rt; status_of_run(job, &Err(AppendFault::Shelf), &Ok(())) == beside_append);
        assert!(rt;
            status_of_run(job, &Err(AppendFault::Shelf), &Err(Trouble::Fault)) == beside_append
        );
        assert!(rt; status_of_run(job, &Err(AppendFault::Memory), &Err(Trouble::Fault)) == 8);
        assert!(rt; status_of_run(job, &Err(AppendFault::Shelf), &Err(Trouble::Memory)) == 8);
    }
    Ok(())
}
