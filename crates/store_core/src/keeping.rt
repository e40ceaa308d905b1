// What a history keeps of its committed manifests.
ghost use Rattle.std.specs.Prelude.{◌≡◌, ◌++◌, [], filter_map, reverse, IfOk, OnOk};
ghost use Rattle.std.specs.List.{cons_option};
ghost use Rattle.history.specs.Sessions.{commits};
ghost use Rattle.legal_history.specs.Recorded.{past_of};
ghost use Rattle.store_core.specs.View.{kept_by, kept_at, kept};

use crate::Kept;
use history::{Entry, Point};
use legal_history::LegalHistory;
use ss_base::{ManifestId, Memory};
use std::alloc::Global;

// What an entry keeps of the manifest that it commits.
#[tactic(auto, unfolding(crate::specs::View::kept_by))]
fn kept_by(alloc: Global, point: &Point) -> Result<Option<Kept>, Memory>
    ensures { IfOk result (λ found. found ≡ kept_by point.now) }
{
    match point {
        Point::Commit {
            manifest,
            content,
            text,
            chunks,
            uses,
            ..
        } => {
            let uses = Vec::from_slice(alloc, uses.as_slice())?;
            Ok(Some(Kept::new(*manifest, *text, *content, *chunks, uses)))
        }
        Point::Begin { .. } => Ok(None),
        Point::Choose { .. } => Ok(None),
        Point::Finish { .. } => Ok(None),
        Point::Abort { .. } => Ok(None),
        Point::Delete { .. } => Ok(None),
        Point::Look { .. } => Ok(None),
        Point::Done { .. } => Ok(None),
        Point::Reclaim { .. } => Ok(None),
        Point::Stat { .. } => Ok(None),
    }
}

// What the entry with a number keeps.
fn kept_at(alloc: Global, entries: &[Entry], number: u32) -> Result<Option<Kept>, Memory>
    ensures { IfOk result (λ found. found ≡ kept_at (reverse entries.now) number) }
{
    match entries.get(number as usize) {
        Some(entry) => {
            let kept = kept_by(alloc, &entry.point)?;
            Ok(kept)
        }
        None => Ok(None),
    }
}

// Adds what was kept, if anything.
fn push_kept(found: &mut Vec<Kept>, kept: Option<Kept>) -> Result<(), Memory>
    ensures { OnOk result (found.new.items ≡ found.old.items ++ cons_option kept []) }
{
    match kept {
        Some(kept) => {
            found.push(kept)?;
            Ok(())
        }
        None => Ok(()),
    }
}

// What the entries with these numbers keep, in order.
pub(crate) fn all_kept_at(
    alloc: Global,
    entries: &[Entry],
    numbers: &[u32],
) -> Result<Vec<Kept>, Memory>
    ensures { IfOk result (λ found. found.items ≡ filter_map (kept_at (reverse entries.now)) numbers.now) }
{
    let mut found = Vec::new(alloc);
    for number in numbers {
        let kept = kept_at(alloc, entries, *number)?;
        push_kept(&mut found, kept)?;
    }
    Ok(found)
}

// What is kept of a manifest.
fn kept_of(alloc: Global, history: &LegalHistory, id: &ManifestId) -> Result<Option<Kept>, Memory>
    ensures { IfOk result (λ found. found ≡ kept id.now (past_of history.now)) }
{
    let entries = history.entries();
    match history.commits(id.session).get(id.seq as usize) {
        Some(number) => {
            let kept = kept_at(alloc, entries, *number)?;
            Ok(kept)
        }
        None => Ok(None),
    }
}

// What is kept of these manifests, in order.
pub(crate) fn all_kept(
    alloc: Global,
    history: &LegalHistory,
    ids: &[ManifestId],
) -> Result<Vec<Kept>, Memory>
    ensures { IfOk result (λ found. found.items ≡ filter_map (λ id. kept id (past_of history.now)) ids.now) }
{
    let mut found = Vec::new(alloc);
    for id in ids {
        let kept = kept_of(alloc, history, id)?;
        push_kept(&mut found, kept)?;
    }
    Ok(found)
}
