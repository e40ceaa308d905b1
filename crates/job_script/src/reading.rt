// What a line says.
ghost use Rattle.std.specs.Prelude.{◌≡◌, ◌∷◌, ℕ, IfSome, IfNone, codes};
ghost use Rattle.job_script.specs.declared.job.Job.{Job as AnyJob};
ghost use Rattle.job_script.specs.declared.job.JobKind.{JobKind as AnyKind};
ghost use Rattle.job_script.specs.Words.{words};
ghost use Rattle.job_script.specs.Grammar.{lane_word, IsLane, AreJobWords};
ghost use Rattle.job_script.specs.Reading.{IsKind, IsReading};

use crate::words::{is_blank, next_word, one_word, two_words};
use crate::{Job, JobKind, PathText};
use ss_base::StreamName;

/// What a line says.
pub(crate) enum Line {
    /// It is skipped.
    Skipped,
    /// It is this job.
    One(Job),
    /// It is outside the grammar.
    Outside,
}

/// What a line says where there are so many lanes.
pub(crate) fn read_line(line: &[u8], lanes: u32) -> Line
    ensures { IsReading lanes line.now result }
{
    let Some((first, rest)) = next_word(line) else {
        return Line::Skipped;
    };
    if let [b'#', ..] = first {
        return Line::Skipped;
    }
    match job_of(first, rest, lanes) {
        Some(job) => Line::One(job),
        None => Line::Outside,
    }
}

fn job_of(first: &[u8], rest: &[u8], lanes: u32) -> Option<Job>
    ensures found { IfSome result (λ job. AreJobWords lanes (first.now ∷ words rest.now) job) }
    ensures none { IfNone result ((job : AnyJob) → AreJobWords lanes (first.now ∷ words rest.now) job → ⊥) }
{
    let lane = lane_of(first, lanes)?;
    let (verb, operands) = next_word(rest)?;
    let kind = kind_of(verb, operands)?;
    Some(Job { lane, kind })
}

fn lane_of(word: &[u8], lanes: u32) -> Option<u32>
    ensures found { IfSome result (λ lane. (word.now ≡ lane_word lane) × IsLane lanes lane) }
    ensures none { IfNone result ((lane : ℕ) → word.now ≡ lane_word lane → IsLane lanes lane → ⊥) }
{
    let [digit @ b'1'..=b'9'] = word else {
        return None;
    };
    let lane = (*digit - b'0') as u32;
    if lane <= lanes { Some(lane) } else { None }
}

fn kind_of(verb: &[u8], operands: &[u8]) -> Option<JobKind>
    ensures found { IfSome result (λ kind. IsKind verb.now (words operands.now) kind) }
    ensures none { IfNone result ((kind : AnyKind) → IsKind verb.now (words operands.now) kind → ⊥) }
{
    let Ok(verb) = str::from_utf8(verb) else {
        return None;
    };
    match verb {
        "backup" => backup_of(operands),
        "restore" => restore_of(operands),
        "delete" => delete_of(operands),
        "reclaim" => is_blank(operands).then_some(JobKind::Reclaim),
        "stat" => is_blank(operands).then_some(JobKind::Stat),
        _ => None,
    }
}

fn backup_of(operands: &[u8]) -> Option<JobKind>
    ensures found { IfSome result (λ kind. IsKind (codes "backup") (words operands.now) kind) }
    ensures none { IfNone result ((kind : AnyKind) → IsKind (codes "backup") (words operands.now) kind → ⊥) }
{
    let (input, name) = two_words(operands)?;
    let input = PathText::new(input)?;
    let name = StreamName::new(name)?;
    Some(JobKind::Backup { input, name })
}

fn restore_of(operands: &[u8]) -> Option<JobKind>
    ensures found { IfSome result (λ kind. IsKind (codes "restore") (words operands.now) kind) }
    ensures none { IfNone result ((kind : AnyKind) → IsKind (codes "restore") (words operands.now) kind → ⊥) }
{
    let (name, output) = two_words(operands)?;
    let name = StreamName::new(name)?;
    let output = PathText::new(output)?;
    Some(JobKind::Restore { name, output })
}

fn delete_of(operands: &[u8]) -> Option<JobKind>
    ensures found { IfSome result (λ kind. IsKind (codes "delete") (words operands.now) kind) }
    ensures none { IfNone result ((kind : AnyKind) → IsKind (codes "delete") (words operands.now) kind → ⊥) }
{
    let name = StreamName::new(one_word(operands)?)?;
    Some(JobKind::Delete { name })
}
