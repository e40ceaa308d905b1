// The choices of sessions, by scanning the entries from the newest one backwards.
ghost use Rattle.std.specs.Prelude.{◌≡◌, reverse, option_map, option_copied};
ghost use Rattle.history.specs.Sessions.{chooses, newest, hooks_chosen, champions_chosen, last_hooks, settles, pending, pending_champions};

use crate::session_scan::{aborts, commits};
use crate::{Entry, Point};
use ss_base::{ManifestId, Name};

#[tactic(auto, unfolding(crate::specs::Sessions::chooses))]
pub(crate) fn chooses(session: u32, point: &Point) -> bool
    ensures { result ≡ chooses session point.now }
{
    match point {
        Point::Choose { session: other, .. } => session == *other,
        _ => false,
    }
}

#[tactic(auto, unfolding(crate::specs::Sessions::hooks_chosen))]
pub(crate) fn hooks_chosen(point: &Point) -> &[Name]
    ensures { result.now ≡ hooks_chosen point.now }
{
    match point {
        Point::Choose { hooks, .. } => hooks.as_slice(),
        _ => &[],
    }
}

#[tactic(auto, unfolding(crate::specs::Sessions::champions_chosen))]
pub(crate) fn champions_chosen(point: &Point) -> Option<&[ManifestId]>
    ensures { option_map (λ r. r.now) result ≡ champions_chosen point.now }
{
    match point {
        Point::Choose { champions, .. } => Some(champions.as_slice()),
        _ => None,
    }
}

#[tactic(auto, unfolding(crate::specs::Sessions::newest))]
pub(crate) fn last_choice(session: u32, entries: &[Entry]) -> Option<&Entry>
    ensures { option_copied result ≡ newest (chooses session) (reverse entries.now) }
{
    entries.iter().rev().find(|e| chooses(session, &e.point))
}

#[tactic(auto, unfolding(crate::specs::Sessions::last_hooks))]
pub(crate) fn last_hooks(session: u32, entries: &[Entry]) -> &[Name]
    ensures { result.now ≡ last_hooks session (reverse entries.now) }
{
    match last_choice(session, entries) {
        Some(entry) => hooks_chosen(&entry.point),
        None => &[],
    }
}

#[tactic(auto, unfolding(crate::specs::Sessions::settles))]
pub(crate) fn settles(session: u32, point: &Point) -> bool
    ensures { result ≡ settles session point.now }
{
    chooses(session, point) || commits(session, point) || aborts(session, point)
}

#[tactic(auto, unfolding(crate::specs::Sessions::newest))]
pub(crate) fn last_settling(session: u32, entries: &[Entry]) -> Option<&Entry>
    ensures { option_copied result ≡ newest (settles session) (reverse entries.now) }
{
    entries.iter().rev().find(|e| settles(session, &e.point))
}

#[tactic(auto, unfolding(crate::specs::Sessions::pending))]
pub(crate) fn pending(session: u32, entries: &[Entry]) -> Option<&[ManifestId]>
    ensures { option_map (λ r. r.now) result ≡ pending session (reverse entries.now) }
{
    match last_settling(session, entries) {
        Some(entry) => champions_chosen(&entry.point),
        None => None,
    }
}

/// The champions of the session's pending choice, none where no choice is pending. A choice is pending from a Choose
/// to the session's next Commit or Abort.
#[tactic(auto, unfolding(crate::specs::Sessions::pending_champions))]
pub fn pending_champions(entries: &[Entry], session: u32) -> &[ManifestId]
    ensures { result.now ≡ pending_champions session (reverse entries.now) }
{
    match pending(session, entries) {
        Some(champions) => champions,
        None => &[],
    }
}
