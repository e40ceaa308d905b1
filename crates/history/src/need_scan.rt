// What a history still needs, and what can be erased, by scanning its entries.
ghost use Rattle.std.specs.Prelude.{◌≡◌, ◌<◌, ◌^◌, length, reverse, IfOk};
ghost use Rattle.history.specs.Sessions.{has};
ghost use Rattle.history.specs.Need.{is_champion, is_being_read, is_pinned, commits_manifest, is_live, uses_live, is_needed, reclaims, is_wanted, is_erasable, erasable};

use crate::choice_scan::pending_champions;
use crate::ids::{has_container, has_manifest, has_object, same_manifest};
use crate::known_scan::known;
use crate::reading_scan::{is_reading, reading_begun};
use crate::session_scan::{is_retained, is_unfinished, session_begun};
use crate::{Entry, Point};
use ss_base::{ContainerId, ManifestId, Memory, Object};
use std::alloc::Global;

#[tactic(auto, unfolding(crate::specs::Need::is_champion, crate::specs::Sessions::sessions))]
fn is_champion(id: ManifestId, entries: &[Entry]) -> bool
    ensures { result ≡ is_champion id (reverse entries.now) }
{
    entries
        .iter()
        .rev()
        .filter_map(|e| session_begun(&e.point))
        .any(|session| has_manifest(id, pending_champions(entries, session)))
}

#[tactic(auto, unfolding(crate::specs::Need::is_being_read, crate::specs::Sessions::readings))]
fn is_being_read(session: u32, entries: &[Entry]) -> bool
    ensures { result ≡ is_being_read session (reverse entries.now) }
{
    entries
        .iter()
        .rev()
        .filter_map(|e| reading_begun(&e.point))
        .any(|seen| seen.session == session && is_reading(seen.reader, entries))
}

#[tactic(auto, unfolding(crate::specs::Need::is_pinned))]
fn is_pinned(id: ManifestId, entries: &[Entry]) -> bool
    ensures { result ≡ is_pinned id (reverse entries.now) }
{
    is_champion(id, entries) || is_being_read(id.session, entries)
}

#[tactic(auto, unfolding(crate::specs::Need::commits_manifest))]
fn commits_manifest(id: ManifestId, point: &Point) -> bool
    ensures { result ≡ commits_manifest id point.now }
{
    match point {
        Point::Commit { manifest, .. } => same_manifest(id, *manifest),
        _ => false,
    }
}

#[tactic(auto, unfolding(crate::specs::Sessions::has))]
fn is_committed(id: ManifestId, entries: &[Entry]) -> bool
    ensures { result ≡ has (commits_manifest id) (reverse entries.now) }
{
    entries.iter().rev().any(|e| commits_manifest(id, &e.point))
}

#[tactic(auto, unfolding(crate::specs::Need::is_live))]
fn is_live(id: ManifestId, entries: &[Entry]) -> bool
    ensures { result ≡ is_live id (reverse entries.now) }
{
    is_committed(id, entries)
        && (is_unfinished(id.session, entries)
            || is_retained(id.session, entries)
            || is_pinned(id, entries))
}

#[tactic(auto, unfolding(crate::specs::Need::uses_live))]
fn uses_live(id: ContainerId, entries: &[Entry], point: &Point) -> bool
    ensures { result ≡ uses_live id (reverse entries.now) point.now }
{
    match point {
        Point::Commit { manifest, uses, .. } => {
            has_container(id, uses.as_slice()) && is_live(*manifest, entries)
        }
        _ => false,
    }
}

#[tactic(auto, unfolding(crate::specs::Sessions::has))]
fn has_live_use(id: ContainerId, entries: &[Entry]) -> bool
    ensures { result ≡ has (uses_live id (reverse entries.now)) (reverse entries.now) }
{
    entries
        .iter()
        .rev()
        .any(|e| uses_live(id, entries, &e.point))
}

#[tactic(auto, unfolding(crate::specs::Need::is_needed))]
fn is_needed(id: ContainerId, entries: &[Entry]) -> bool
    ensures { result ≡ is_needed id (reverse entries.now) }
{
    is_unfinished(id.session, entries) || has_live_use(id, entries)
}

#[tactic(auto, unfolding(crate::specs::Need::reclaims))]
fn reclaims(object: &Object, point: &Point) -> bool
    ensures { result ≡ reclaims object.now point.now }
{
    match point {
        Point::Reclaim { objects } => has_object(object, objects.as_slice()),
        _ => false,
    }
}

#[tactic(auto, unfolding(crate::specs::Sessions::has))]
fn is_reclaimed(object: &Object, entries: &[Entry]) -> bool
    ensures { result ≡ has (reclaims object.now) (reverse entries.now) }
{
    entries.iter().rev().any(|e| reclaims(object, &e.point))
}

#[tactic(auto, unfolding(crate::specs::Need::is_wanted))]
fn is_wanted(object: &Object, entries: &[Entry]) -> bool
    ensures { result ≡ is_wanted object.now (reverse entries.now) }
{
    match object {
        Object::Container(id) => is_needed(*id, entries),
        Object::Manifest(id) => is_live(*id, entries),
    }
}

#[tactic(auto, unfolding(crate::specs::Need::is_erasable))]
pub(crate) fn is_erasable(object: &Object, entries: &[Entry]) -> bool
    ensures { result ≡ is_erasable object.now (reverse entries.now) }
{
    !is_reclaimed(object, entries) && !is_wanted(object, entries)
}

/// The objects that can be erased, in the order of objects: those of closed sessions that no Reclaim has named,
/// containers that are not needed, and manifests that are not live. The entries are fewer than 2^32.
#[tactic(auto, unfolding(crate::specs::Need::erasable))]
pub fn erasable(alloc: Global, entries: &[Entry]) -> Result<Vec<Object>, Memory>
    requires { length entries.now < 2 ^ 32 }
    ensures { IfOk result (λ objects. objects.items ≡ erasable (reverse entries.now)) }
{
    let objects = known(alloc, entries)?
        .into_iter()
        .filter(|object| is_erasable(object, entries))
        .collect(alloc)?;
    Ok(objects)
}
