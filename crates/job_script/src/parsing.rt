// The jobs of a script.
ghost use Rattle.std.specs.Prelude.{◌<◌, ◌≤◌, ◌^◌, ℕ, length, All, IfOk, IfErr, IsErrOf, OnOk};
ghost use Rattle.job_script.specs.Grammar.{IsJob};
ghost use Rattle.job_script.specs.Script.{most_jobs, HasJobs, IsFirstBad, HasTooMany};
ghost use Rattle.job_script.specs.Step.{AddsJobs, IsStoppedBy};

use crate::lines::next_line;
use crate::reading::{Line, read_line};
use crate::{Job, ScriptFault};
use std::alloc::Global;

const MAX_JOBS: usize = 4096;

/// The jobs of a script in their order, at most 4,096. A line ends at LF, and a CR before the LF is dropped; a last
/// line may lack the LF. Words are separated by spaces. A line without words and one whose first word begins with `#`
/// are skipped. Every other line is one job: `LANE backup FILE NAME`, `LANE restore NAME FILE`, `LANE delete NAME`,
/// `LANE reclaim` or `LANE stat`, where LANE is a digit from 1 to `lanes`, FILE a file's name and NAME a stream's.
pub fn parse(alloc: Global, script: &[u8], lanes: u32) -> Result<Vec<Job>, ScriptFault>
    requires { length script.now < 2 ^ 32 }
    ensures jobs { IfOk result (λ jobs. HasJobs lanes script.now jobs.items) }
    ensures valid { IfOk result (λ jobs. All (IsJob lanes) jobs.items) }
    ensures bad_line { (number : ℕ) → IsErrOf result (ScriptFault.BadLine number) → IsFirstBad lanes script.now number }
    ensures too_many { IsErrOf result ScriptFault.TooMany → HasTooMany lanes script.now }
{
    let mut jobs = Vec::new(alloc);
    let mut number = 0;
    let mut rest = script;
    while let Some((line, behind)) = next_line(rest) {
        number += 1;
        add_line(&mut jobs, line, number, lanes)?;
        rest = behind;
    }
    Ok(jobs)
}

fn add_line(jobs: &mut Vec<Job>, line: &[u8], number: u32, lanes: u32) -> Result<(), ScriptFault>
    requires { length jobs.old.items ≤ most_jobs }
    ensures ok { OnOk result (AddsJobs lanes line.now jobs.old.items jobs.new.items) }
    ensures fits { OnOk result (length jobs.new.items ≤ most_jobs) }
    ensures stopped { IfErr result (λ fault. IsStoppedBy fault lanes line.now number jobs.old.items) }
{
    match read_line(line, lanes) {
        Line::Skipped => Ok(()),
        Line::Outside => Err(ScriptFault::BadLine(number)),
        Line::One(_) if jobs.len() == MAX_JOBS => Err(ScriptFault::TooMany),
        Line::One(job) => {
            jobs.push(job)?;
            Ok(())
        }
    }
}
