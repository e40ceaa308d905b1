// Whether a history fits its limits, by scanning its entries.
ghost use Rattle.std.specs.Prelude.{◌≡◌, ◌≤◌, ◌<◌, ◌^◌, nat_le, length, reverse};
ghost use Rattle.journal_entry.specs.Weight.{weight};
ghost use Rattle.history.specs.Legal.{begins_unfinished, looks_unfinished, unfinished_sessions, unfinished_readings, is_within};

use crate::reading_scan::{is_reading, reading_begun};
use crate::session_scan::{is_unfinished, session_begun};
use crate::{Entry, Limits, Point, point_weight};

#[tactic(auto, unfolding(crate::specs::Legal::begins_unfinished))]
fn begins_unfinished(entries: &[Entry], point: &Point) -> bool
    ensures { result ≡ begins_unfinished (reverse entries.now) point.now }
{
    match session_begun(point) {
        Some(session) => is_unfinished(session, entries),
        None => false,
    }
}

#[tactic(auto, unfolding(crate::specs::Legal::looks_unfinished))]
fn looks_unfinished(entries: &[Entry], point: &Point) -> bool
    ensures { result ≡ looks_unfinished (reverse entries.now) point.now }
{
    match reading_begun(point) {
        Some(seen) => is_reading(seen.reader, entries),
        None => false,
    }
}

fn unfinished_sessions(entries: &[Entry]) -> usize
    ensures sessions { result ≡ unfinished_sessions (reverse entries.now) }
    ensures few { result ≤ length entries.now }
{
    let mut count = 0;
    for entry in entries {
        if begins_unfinished(entries, &entry.point) {
            count += 1;
        }
    }
    count
}

fn unfinished_readings(entries: &[Entry]) -> usize
    ensures readings { result ≡ unfinished_readings (reverse entries.now) }
    ensures few { result ≤ length entries.now }
{
    let mut count = 0;
    for entry in entries {
        if looks_unfinished(entries, &entry.point) {
            count += 1;
        }
    }
    count
}

// Whether the entries' weight is at most a limit. It stops at the first entry with which it is more.
fn is_weight_within(limit: u32, entries: &[Entry]) -> bool
    ensures { result ≡ nat_le (weight (reverse entries.now)) limit }
{
    let mut left = limit as usize;
    for entry in entries {
        let part = point_weight(&entry.point);
        if left < part {
            return false;
        }
        left -= part;
    }
    true
}

/// Whether the entries fit the limits, with room for an entry that ends each unfinished session and reading. They are
/// fewer than 2^32.
#[tactic(auto, unfolding(crate::specs::Legal::is_within))]
pub fn is_within(entries: &[Entry], limits: &Limits) -> bool
    requires { length entries.now < 2 ^ 32 }
    ensures { result ≡ is_within limits.now (reverse entries.now) }
{
    let open = unfinished_sessions(entries) + unfinished_readings(entries);
    entries.len() + open <= limits.entries as usize && is_weight_within(limits.weight, entries)
}
