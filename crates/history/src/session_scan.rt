// Sessions of a history and the names of their streams, by scanning its entries from the newest one backwards.
ghost use Rattle.std.specs.Prelude.{◌≡◌, ◌≤◌, length, reverse, option_copied};
ghost use Rattle.history.specs.Sessions.{is_number, session_begun, session_under, begins_some, session_count, begins, commits, finishes, aborts, deletes, closes, has, newest, is_unfinished, is_closed, is_retained, retained, is_held, commits_of};

use crate::{Entry, Point};
use ss_base::StreamName;

pub(crate) fn is_number(n: u32, number: Option<u32>) -> bool
    ensures { result ≡ is_number n number }
{
    match number {
        None => false,
        Some(m) => n == m,
    }
}

#[tactic(auto, unfolding(crate::specs::Sessions::session_begun))]
pub(crate) fn session_begun(point: &Point) -> Option<u32>
    ensures { result ≡ session_begun point.now }
{
    match point {
        Point::Begin { session, .. } => *session,
        _ => None,
    }
}

#[tactic(auto, unfolding(crate::specs::Sessions::session_under))]
pub(crate) fn session_under(name: &StreamName, point: &Point) -> Option<u32>
    ensures { result ≡ session_under name.now point.now }
{
    match point {
        Point::Begin {
            name: other,
            session,
        } if name.bytes() == other.bytes() => *session,
        _ => None,
    }
}

#[tactic(auto, unfolding(crate::specs::Sessions::begins))]
pub(crate) fn begins(session: u32, point: &Point) -> bool
    ensures { result ≡ begins session point.now }
{
    is_number(session, session_begun(point))
}

#[tactic(auto, unfolding(crate::specs::Sessions::commits))]
pub(crate) fn commits(session: u32, point: &Point) -> bool
    ensures { result ≡ commits session point.now }
{
    match point {
        Point::Commit { manifest, .. } => session == manifest.session,
        _ => false,
    }
}

#[tactic(auto, unfolding(crate::specs::Sessions::finishes))]
pub(crate) fn finishes(session: u32, point: &Point) -> bool
    ensures { result ≡ finishes session point.now }
{
    match point {
        Point::Finish { session: other, .. } => session == *other,
        _ => false,
    }
}

#[tactic(auto, unfolding(crate::specs::Sessions::aborts))]
pub(crate) fn aborts(session: u32, point: &Point) -> bool
    ensures { result ≡ aborts session point.now }
{
    match point {
        Point::Abort { session: other, .. } => session == *other,
        _ => false,
    }
}

#[tactic(auto, unfolding(crate::specs::Sessions::deletes))]
pub(crate) fn deletes(session: u32, point: &Point) -> bool
    ensures { result ≡ deletes session point.now }
{
    match point {
        Point::Delete { session: other, .. } => is_number(session, *other),
        _ => false,
    }
}

#[tactic(auto, unfolding(crate::specs::Sessions::closes))]
pub(crate) fn closes(session: u32, point: &Point) -> bool
    ensures { result ≡ closes session point.now }
{
    finishes(session, point) || aborts(session, point)
}

#[tactic(auto, unfolding(crate::specs::Sessions::has))]
fn has_begun(session: u32, entries: &[Entry]) -> bool
    ensures { result ≡ has (begins session) (reverse entries.now) }
{
    entries.iter().rev().any(|e| begins(session, &e.point))
}

#[tactic(auto, unfolding(crate::specs::Sessions::has, crate::specs::Sessions::is_closed))]
pub(crate) fn is_closed(session: u32, entries: &[Entry]) -> bool
    ensures { result ≡ is_closed session (reverse entries.now) }
{
    entries.iter().rev().any(|e| closes(session, &e.point))
}

#[tactic(auto, unfolding(crate::specs::Sessions::has))]
fn has_finished(session: u32, entries: &[Entry]) -> bool
    ensures { result ≡ has (finishes session) (reverse entries.now) }
{
    entries.iter().rev().any(|e| finishes(session, &e.point))
}

#[tactic(auto, unfolding(crate::specs::Sessions::has))]
fn is_deleted(session: u32, entries: &[Entry]) -> bool
    ensures { result ≡ has (deletes session) (reverse entries.now) }
{
    entries.iter().rev().any(|e| deletes(session, &e.point))
}

#[tactic(auto, unfolding(crate::specs::Sessions::is_unfinished, crate::specs::Sessions::is_closed))]
pub(crate) fn is_unfinished(session: u32, entries: &[Entry]) -> bool
    ensures { result ≡ is_unfinished session (reverse entries.now) }
{
    has_begun(session, entries) && !is_closed(session, entries)
}

#[tactic(auto, unfolding(crate::specs::Sessions::is_retained))]
pub(crate) fn is_retained(session: u32, entries: &[Entry]) -> bool
    ensures { result ≡ is_retained session (reverse entries.now) }
{
    has_finished(session, entries) && !is_deleted(session, entries)
}

/// The session whose stream is retained under the name: it finished, and was not deleted.
#[tactic(auto, unfolding(crate::specs::Sessions::retained, crate::specs::Sessions::sessions_under))]
pub fn retained(entries: &[Entry], name: &StreamName) -> Option<u32>
    ensures { result ≡ retained name.now (reverse entries.now) }
{
    entries
        .iter()
        .rev()
        .filter_map(|e| session_under(name, &e.point))
        .find(|session| is_retained(*session, entries))
}

/// Whether the name is held: a session that reserved it is unfinished, or its stream is retained.
#[tactic(auto, unfolding(crate::specs::Sessions::is_held, crate::specs::Sessions::sessions_under))]
pub fn is_held(entries: &[Entry], name: &StreamName) -> bool
    ensures { result ≡ is_held name.now (reverse entries.now) }
{
    entries
        .iter()
        .rev()
        .filter_map(|e| session_under(name, &e.point))
        .any(|session| is_unfinished(session, entries) || is_retained(session, entries))
}

#[tactic(auto, unfolding(crate::specs::Sessions::commits_of))]
pub(crate) fn commits_of(session: u32, entries: &[Entry]) -> usize
    ensures commits { result ≡ commits_of session (reverse entries.now) }
    ensures few { result ≤ length entries.now }
{
    entries
        .iter()
        .rev()
        .filter(|e| commits(session, &e.point))
        .count()
}

#[tactic(auto, unfolding(crate::specs::Sessions::begins_some))]
fn begins_some(point: &Point) -> bool
    ensures { result ≡ begins_some point.now }
{
    session_begun(point).is_some()
}

pub(crate) fn session_count(entries: &[Entry]) -> usize
    ensures sessions { result ≡ session_count (reverse entries.now) }
    ensures few { result ≤ length entries.now }
{
    let mut count = 0;
    for entry in entries {
        if begins_some(&entry.point) {
            count += 1;
        }
    }
    count
}

#[tactic(auto, unfolding(crate::specs::Sessions::newest))]
pub(crate) fn closing(session: u32, entries: &[Entry]) -> Option<&Entry>
    ensures { option_copied result ≡ newest (closes session) (reverse entries.now) }
{
    entries.iter().rev().find(|e| closes(session, &e.point))
}
