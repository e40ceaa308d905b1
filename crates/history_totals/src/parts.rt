// What one entry adds to the numbers of a history.
ghost use Rattle.std.specs.Prelude.{◌≡◌, ◌<◌, ◌≤◌, ◌*◌, ◌^◌, length, sum_by};
ghost use Rattle.history.specs.TotalsOf.{bytes_stored, containers_closed, objects_named};
ghost use Rattle.history_totals.specs.Parts.{gives_stream, takes_stream, starts, stops, bytes_committed, bytes_at};

use history::{Entry, Point};

#[tactic(auto, unfolding(crate::specs::Parts::gives_stream))]
pub(crate) fn gives_stream(point: &Point) -> bool
    ensures { result ≡ gives_stream point.now }
{
    matches!(point, Point::Finish { .. })
}

#[tactic(auto, unfolding(crate::specs::Parts::takes_stream))]
pub(crate) fn takes_stream(point: &Point) -> bool
    ensures { result ≡ takes_stream point.now }
{
    match point {
        Point::Delete { session, .. } => session.is_some(),
        _ => false,
    }
}

#[tactic(auto, unfolding(crate::specs::Parts::starts))]
pub(crate) fn starts(point: &Point) -> bool
    ensures { result ≡ starts point.now }
{
    match point {
        Point::Begin { session, .. } => session.is_some(),
        Point::Look { seen, .. } => seen.is_some(),
        _ => false,
    }
}

#[tactic(auto, unfolding(crate::specs::Parts::stops))]
pub(crate) fn stops(point: &Point) -> bool
    ensures { result ≡ stops point.now }
{
    matches!(
        point,
        Point::Finish { .. } | Point::Abort { .. } | Point::Done { .. }
    )
}

#[tactic(auto, unfolding(history::specs::TotalsOf::bytes_stored))]
pub(crate) fn bytes_stored(point: &Point) -> u32
    ensures { result ≡ bytes_stored point.now }
{
    match point {
        Point::Commit { fresh_bytes, .. } => *fresh_bytes,
        _ => 0,
    }
}

#[tactic(auto, unfolding(history::specs::TotalsOf::containers_closed))]
pub(crate) fn containers_closed(point: &Point) -> u32
    ensures { result ≡ containers_closed point.now }
{
    match point {
        Point::Finish { containers, .. } => *containers,
        Point::Abort { containers, .. } => *containers,
        _ => 0,
    }
}

#[tactic(auto, unfolding(history::specs::TotalsOf::objects_named))]
pub(crate) fn objects_named(point: &Point) -> usize
    ensures { result ≡ objects_named point.now }
{
    match point {
        Point::Reclaim { objects } => objects.as_slice().len(),
        _ => 0,
    }
}

#[tactic(auto, unfolding(crate::specs::Parts::bytes_committed))]
fn bytes_committed(point: &Point) -> u32
    ensures { result ≡ bytes_committed point.now }
{
    match point {
        Point::Commit { bytes, .. } => *bytes,
        _ => 0,
    }
}

#[tactic(auto, unfolding(crate::specs::Parts::bytes_at))]
fn bytes_at(entries: &[Entry], n: u32) -> u32
    ensures { result ≡ bytes_at entries.now n }
{
    match entries.get(n as usize) {
        Some(entry) => bytes_committed(&entry.point),
        None => 0,
    }
}

// The bytes that the entries with these numbers commit.
pub(crate) fn bytes_of(entries: &[Entry], numbers: &[u32]) -> u64
    requires { length numbers.now ≤ 2 ^ 32 }
    ensures { result ≡ sum_by (bytes_at entries.now) numbers.now }
{
    let mut sum: u64 = 0;
    for n in numbers {
        sum += u64::from(bytes_at(entries, *n));
    }
    sum
}
