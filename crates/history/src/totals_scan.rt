// The totals of a history, by scanning its entries.
ghost use Rattle.std.specs.Prelude.{◌≡◌, ◌<◌, ◌≤◌, ◌^◌, All, length, reverse, sum_by, count_by};
ghost use Rattle.journal_entry.specs.declared.entry.Entry.{Entry};
ghost use Rattle.history.specs.Sessions.{is_retained};
ghost use Rattle.history.specs.TotalsOf.{bytes_retained, bytes_stored, containers_closed, objects_named, stream_began, totals};

use crate::session_scan::{is_retained, session_begun};
use crate::{Entry, Point, Totals};
use ss_base::Memory;
use std::alloc::Global;

#[tactic(auto, unfolding(crate::specs::TotalsOf::stream_began))]
fn stream_began(entries: &[Entry], point: &Point) -> bool
    ensures { result ≡ stream_began (reverse entries.now) point.now }
{
    match session_begun(point) {
        Some(session) => is_retained(session, entries),
        None => false,
    }
}

#[tactic(auto, unfolding(crate::specs::TotalsOf::bytes_retained))]
fn bytes_retained(entries: &[Entry], point: &Point) -> u32
    ensures { result ≡ bytes_retained (reverse entries.now) point.now }
{
    match point {
        Point::Commit {
            manifest,
            bytes,
            ..
        } => {
            if is_retained(manifest.session, entries) {
                *bytes
            } else {
                0
            }
        }
        _ => 0,
    }
}

#[tactic(auto, unfolding(crate::specs::TotalsOf::bytes_stored))]
fn bytes_stored(point: &Point) -> u32
    ensures { result ≡ bytes_stored point.now }
{
    match point {
        Point::Commit { fresh_bytes, .. } => *fresh_bytes,
        _ => 0,
    }
}

#[tactic(auto, unfolding(crate::specs::TotalsOf::containers_closed))]
fn containers_closed(point: &Point) -> u32
    ensures { result ≡ containers_closed point.now }
{
    match point {
        Point::Finish { containers, .. } => *containers,
        Point::Abort { containers, .. } => *containers,
        _ => 0,
    }
}

#[tactic(auto, unfolding(crate::specs::TotalsOf::objects_named))]
fn objects_named(point: &Point) -> usize
    ensures { result ≡ objects_named point.now }
{
    match point {
        Point::Reclaim { objects } => objects.as_slice().len(),
        _ => 0,
    }
}

fn streams(entries: &[Entry]) -> u64
    ensures { result ≡ count_by (λ (entry : Entry). stream_began (reverse entries.now) entry.point) (reverse entries.now) }
{
    let mut count = 0;
    for entry in entries {
        if stream_began(entries, &entry.point) {
            count += 1;
        }
    }
    count
}

fn bytes(entries: &[Entry]) -> u64
    requires { length entries.now < 2 ^ 32 }
    ensures { result ≡ sum_by (λ (entry : Entry). bytes_retained (reverse entries.now) entry.point) (reverse entries.now) }
{
    let mut sum: u64 = 0;
    for entry in entries {
        sum += u64::from(bytes_retained(entries, &entry.point));
    }
    sum
}

fn fresh(entries: &[Entry]) -> u64
    requires { length entries.now < 2 ^ 32 }
    ensures { result ≡ sum_by (λ (entry : Entry). bytes_stored entry.point) (reverse entries.now) }
{
    let mut sum: u64 = 0;
    for entry in entries {
        sum += u64::from(bytes_stored(&entry.point));
    }
    sum
}

fn containers(entries: &[Entry]) -> u64
    requires { length entries.now < 2 ^ 32 }
    ensures { result ≡ sum_by (λ (entry : Entry). containers_closed entry.point) (reverse entries.now) }
{
    let mut sum: u64 = 0;
    for entry in entries {
        sum += u64::from(containers_closed(&entry.point));
    }
    sum
}

fn reclaimed(entries: &[Entry]) -> u64
    requires few { length entries.now < 2 ^ 32 }
    requires named { All (λ (entry : Entry). objects_named entry.point ≤ 16) entries.now }
    ensures { result ≡ sum_by (λ (entry : Entry). objects_named entry.point) (reverse entries.now) }
{
    let mut sum: u64 = 0;
    for entry in entries {
        sum += objects_named(&entry.point) as u64;
    }
    sum
}

/// The totals of these entries. The entries are fewer than 2^32, and each names at most 16 objects, as
/// those of a legal history do. It takes
/// no memory.
#[tactic(auto, unfolding(crate::specs::TotalsOf::totals))]
pub fn totals(_alloc: Global, entries: &[Entry]) -> Result<Totals, Memory>
    requires few { length entries.now < 2 ^ 32 }
    requires named { All (λ (entry : Entry). objects_named entry.point ≤ 16) entries.now }
    ensures { result ≡ Ok (totals (reverse entries.now)) }
{
    Ok(Totals {
        streams: streams(entries),
        bytes: bytes(entries),
        fresh: fresh(entries),
        containers: containers(entries),
        reclaimed: reclaimed(entries),
        entries: entries.len() as u64,
    })
}
