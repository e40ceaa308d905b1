// The readings of streams, by scanning the entries from the newest one backwards.
ghost use Rattle.std.specs.Prelude.{◌≡◌, ◌≤◌, length, reverse};
ghost use Rattle.history.specs.Sessions.{has, reading_begun, looks_some, reading_count, looks, ends, is_reading};

use crate::{Entry, Point, Seen};

#[tactic(auto, unfolding(crate::specs::Sessions::reading_begun))]
pub(crate) fn reading_begun(point: &Point) -> Option<Seen>
    ensures { result ≡ reading_begun point.now }
{
    match point {
        Point::Look { seen, .. } => *seen,
        _ => None,
    }
}

#[tactic(auto, unfolding(crate::specs::Sessions::looks_some))]
fn looks_some(point: &Point) -> bool
    ensures { result ≡ looks_some point.now }
{
    reading_begun(point).is_some()
}

pub(crate) fn reading_count(entries: &[Entry]) -> usize
    ensures readings { result ≡ reading_count (reverse entries.now) }
    ensures few { result ≤ length entries.now }
{
    let mut count = 0;
    for entry in entries {
        if looks_some(&entry.point) {
            count += 1;
        }
    }
    count
}

#[tactic(auto, unfolding(crate::specs::Sessions::looks))]
pub(crate) fn looks(reader: u32, point: &Point) -> bool
    ensures { result ≡ looks reader point.now }
{
    match reading_begun(point) {
        Some(seen) => reader == seen.reader,
        None => false,
    }
}

#[tactic(auto, unfolding(crate::specs::Sessions::ends))]
pub(crate) fn ends(reader: u32, point: &Point) -> bool
    ensures { result ≡ ends reader point.now }
{
    match point {
        Point::Done { reader: other } => reader == *other,
        _ => false,
    }
}

#[tactic(auto, unfolding(crate::specs::Sessions::has))]
fn has_looked(reader: u32, entries: &[Entry]) -> bool
    ensures { result ≡ has (looks reader) (reverse entries.now) }
{
    entries.iter().rev().any(|e| looks(reader, &e.point))
}

#[tactic(auto, unfolding(crate::specs::Sessions::has))]
fn has_ended(reader: u32, entries: &[Entry]) -> bool
    ensures { result ≡ has (ends reader) (reverse entries.now) }
{
    entries.iter().rev().any(|e| ends(reader, &e.point))
}

#[tactic(auto, unfolding(crate::specs::Sessions::is_reading))]
pub(crate) fn is_reading(reader: u32, entries: &[Entry]) -> bool
    ensures { result ≡ is_reading reader (reverse entries.now) }
{
    has_looked(reader, entries) && !has_ended(reader, entries)
}
