// The lines of jobs.
ghost use Rattle.std.specs.Prelude.{◌≡◌, ◌++◌, IfOk, OnOk, string_bytes};
ghost use Rattle.job_script.specs.Grammar.{verb};
ghost use Rattle.report.specs.JobLine.{damaged_words, unlike_words, outcome_words, job_line};

use crate::answer::JobAnswer;
use crate::outcome::{self, Outcome};
use chunk_name::hex_of;
use job_script::{Job, JobKind};
use ss_base::{Memory, Name};
use std::alloc::Global;

// Enough for each line without digits, in bytes.
const ROOM: usize = 64;

/// The line of the job with this number: `job NUMBER lane LANE KIND ANSWER` and LF, with decimal numbers. KIND is the
/// word of the job's kind, and nothing else of the job is printed. ANSWER is the text of the answer alone, so that one
/// which no job of this kind gives is printed too, as in `job 5 lane 3 reclaim taken`. SHA-256s are printed as
/// hexadecimal digits in lower case: behind `damaged` first the one that was kept, then that of what was read.
#[tactic(auto, unfolding(crate::specs::JobLine::job_line))]
pub fn job_line(alloc: Global, number: u32, job: &Job, answer: &JobAnswer) -> Result<String, Memory>
    ensures { IfOk result (λ line. string_bytes line ≡ job_line number job.now answer.now) }
{
    let mut line = String::with_capacity(alloc, ROOM)?;
    let lane = job.lane;
    let verb = verb_of(&job.kind);
    write!(line, "job {number} lane {lane} {verb} ")?;
    push_outcome(alloc, &mut line, &outcome::of_answer(answer))?;
    line.push_str("\n")?;
    Ok(line)
}

fn verb_of(kind: &JobKind) -> &'static str
    ensures { result.now ≡ verb kind.now }
{
    match kind {
        JobKind::Backup { .. } => "backup",
        JobKind::Restore { .. } => "restore",
        JobKind::Delete { .. } => "delete",
        JobKind::Reclaim => "reclaim",
        JobKind::Stat => "stat",
    }
}

#[tactic(auto, unfolding(crate::specs::JobLine::outcome_words))]
fn push_outcome(alloc: Global, line: &mut String, outcome: &Outcome) -> Result<(), Memory>
    ensures { OnOk result (string_bytes line.new ≡ string_bytes line.old ++ outcome_words outcome.now) }
{
    match outcome {
        Outcome::Ok => push_word(line, "ok"),
        Outcome::Taken => push_word(line, "taken"),
        Outcome::NoStream => push_word(line, "nostream"),
        Outcome::NoInput => push_word(line, "noinput"),
        Outcome::Exists => push_word(line, "exists"),
        Outcome::InputFault => push_word(line, "inputfault"),
        Outcome::OutputFault => push_word(line, "outputfault"),
        Outcome::DepotFault => push_word(line, "depotfault"),
        Outcome::Damaged { want, got } => push_damaged(alloc, line, want, got),
        Outcome::Unlike { text } => push_unlike(alloc, line, text),
        Outcome::TooLong => push_word(line, "toolong"),
        Outcome::Full => push_word(line, "full"),
        Outcome::Memory => push_word(line, "memory"),
    }
}

fn push_word(line: &mut String, word: &str) -> Result<(), Memory>
    ensures { OnOk result (string_bytes line.new ≡ string_bytes line.old ++ word.now) }
{
    line.push_str(word)?;
    Ok(())
}

#[tactic(auto, unfolding(crate::specs::JobLine::damaged_words))]
fn push_damaged(alloc: Global, line: &mut String, want: &Name, got: &Name) -> Result<(), Memory>
    ensures { OnOk result (string_bytes line.new ≡ string_bytes line.old ++ damaged_words want.now got.now) }
{
    let want = hex_of(alloc, want)?;
    let got = hex_of(alloc, got)?;
    write!(line, "damaged {want} {got}")?;
    Ok(())
}

#[tactic(auto, unfolding(crate::specs::JobLine::unlike_words))]
fn push_unlike(alloc: Global, line: &mut String, text: &Name) -> Result<(), Memory>
    ensures { OnOk result (string_bytes line.new ≡ string_bytes line.old ++ unlike_words text.now) }
{
    let text = hex_of(alloc, text)?;
    write!(line, "unlike {text}")?;
    Ok(())
}
