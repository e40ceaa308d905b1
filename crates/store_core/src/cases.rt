// Cases, for tests, as lines: what is shown, a history, and what replaying it answers.
use crate::OpenFault::{Illegal, UnfinishedReading, UnfinishedSession};
use crate::entry_lines::*;
use crate::histories::lines_of;
use crate::{OpenFault, State};
use history::{Entry, Items, Limits, Point};
use ss_base::{Name, Profile};
use std::alloc::Global;
use std::process;
use std::test::Fail;

// The greatest limits.
pub(crate) const LIMITS: Limits = Limits {
    entries: 1_048_576,
    weight: 16_777_216,
};

// The first entries of a history, as backups 8.
fn past_of(alloc: Global, past: &str) -> Result<Vec<Entry>, Fail> {
    let (name, n) = past.split_once(' ').ok_or("a history and a number")?;
    let n = n.parse::<usize>()?;
    let mut entries = read_entries(alloc, lines_of(name)?)?;
    if entries.len() < n {
        return Err("so many entries")?;
    }
    entries.truncate(n);
    Ok(entries)
}

// The first entries of a history and some more, as backups 8 | a2 begin x s2 | a2 finish s2 containers 0.
pub(crate) fn read_history(alloc: Global, text: &str) -> Result<Vec<Entry>, Fail> {
    let Some((past, more)) = text.split_once(" | ") else {
        return past_of(alloc, text);
    };
    let mut entries = past_of(alloc, past)?;
    for line in more.split(" | ") {
        entries.push(read_entry(alloc, line)?)?;
    }
    Ok(entries)
}

// Session 0 chooses against none.
pub(crate) fn choice(alloc: Global, hooks: Items<Name>) -> Entry {
    Entry {
        author: 0,
        point: Point::Choose {
            session: 0,
            hooks,
            champions: Items::new(Vec::new(alloc)),
        },
    }
}

// Why a history is no state's; none where it opens.
pub(crate) fn read_answer(answer: &str) -> Result<Option<OpenFault>, Fail> {
    if answer == "opens" {
        return Ok(None);
    }
    let (fault, n) = answer.split_once(' ').ok_or("a fault and a number")?;
    let n = n.parse::<u32>()?;
    Ok(Some(match fault {
        "illegal" => Illegal(n),
        "session" => UnfinishedSession(n),
        "reading" => UnfinishedReading(n),
        _ => return Err("a fault")?,
    }))
}

// Why the entries are no state's of the smallest profile, where up to eight manifests stand at a hook and up to eight
// are chosen; none where they are.
pub(crate) fn refusal(
    alloc: Global,
    limits: Limits,
    entries: Vec<Entry>,
) -> Result<Option<OpenFault>, Fail> {
    if limits.entries > 1_048_576 || limits.weight > 16_777_216 {
        return Err("limits")?;
    }
    match State::<8, 8>::replay(alloc, Profile::Tiny, limits, entries) {
        Ok(_) => Ok(None),
        Err(fault) => Ok(Some(fault)),
    }
}

// Replays the history of each line, as none is left: backups 4 => opens.
pub(crate) fn all_answered(
    rt: &impl process::Abort,
    alloc: Global,
    cases: &str,
) -> Result<(), Fail> {
    for case in cases.lines() {
        let (_, rest) = case.split_once(": ").ok_or("what is shown")?;
        let (text, answer) = rest.split_once(" => ").ok_or("an answer")?;
        let found = refusal(alloc, LIMITS, read_history(alloc, text)?)?;
        assert_eq!(rt; found, read_answer(answer)?, "{case}");
    }
    Ok(())
}
