// The objects of closed sessions, by scanning the entries.
ghost use Rattle.std.specs.Prelude.{◌≡◌, ◌<◌, ◌^◌, ◌++◌, length, reverse, IfOk, OnOk};
ghost use Rattle.ss_base.specs.declared.ended.Ended.{Ended};
ghost use Rattle.ss_base.specs.KnownObjects.{container_at, manifest_at, numbered, objects_of};
ghost use Rattle.history.specs.Need.{ended_by, ended, all_ended, known};

use crate::session_scan::{closing, commits_of, session_count};
use crate::{Entry, Point};
use ss_base::{ContainerId, Ended, ManifestId, Memory, Object};
use std::alloc::Global;

#[tactic(auto, unfolding(crate::specs::Need::ended_by))]
fn ended_by(entries: &[Entry], point: &Point) -> Option<Ended>
    requires { length entries.now < 2 ^ 32 }
    ensures { result ≡ ended_by (reverse entries.now) point.now }
{
    match point {
        Point::Finish {
            session,
            containers,
        } => Some(Ended {
            containers: *containers,
            texts: commits_of(*session, entries) as u32,
        }),
        Point::Abort {
            containers,
            texts,
            ..
        } => Some(Ended {
            containers: *containers,
            texts: *texts,
        }),
        _ => None,
    }
}

#[tactic(auto, unfolding(crate::specs::Need::ended))]
fn ended(session: u32, entries: &[Entry]) -> Option<Ended>
    requires { length entries.now < 2 ^ 32 }
    ensures { result ≡ ended session (reverse entries.now) }
{
    match closing(session, entries) {
        Some(entry) => ended_by(entries, &entry.point),
        None => None,
    }
}

// What each session was closed with, session by session.
fn all_ended(alloc: Global, entries: &[Entry]) -> Result<Vec<Option<Ended>>, Memory>
    requires { length entries.now < 2 ^ 32 }
    ensures all { IfOk result (λ all. all.items ≡ all_ended (reverse entries.now)) }
    ensures few { IfOk result (λ all. length all.items < 2 ^ 32) }
{
    let mut all = Vec::new(alloc);
    for session in 0..session_count(entries) as u32 {
        all.push(ended(session, entries))?;
    }
    Ok(all)
}

// Adds the first n containers of a session.
fn push_containers(found: &mut Vec<Object>, session: u32, n: u32) -> Result<(), Memory>
    ensures { OnOk result (found.new.items ≡ found.old.items ++ numbered (container_at session) 0 n) }
{
    for ordinal in 0..n {
        found.push(Object::Container(ContainerId { session, ordinal }))?;
    }
    Ok(())
}

// Adds the first n manifests of a session.
fn push_manifests(found: &mut Vec<Object>, session: u32, n: u32) -> Result<(), Memory>
    ensures { OnOk result (found.new.items ≡ found.old.items ++ numbered (manifest_at session) 0 n) }
{
    for seq in 0..n {
        found.push(Object::Manifest(ManifestId { session, seq }))?;
    }
    Ok(())
}

// Adds the containers of closed sessions.
fn push_all_containers(found: &mut Vec<Object>, sessions: &[Option<Ended>]) -> Result<(), Memory>
    requires { length sessions.now < 2 ^ 32 }
    ensures { OnOk result (found.new.items ≡ found.old.items ++ objects_of container_at (λ (e : Ended). e.containers) 0 sessions.now) }
{
    for (session, ended) in sessions.iter().enumerate() {
        let n = match ended {
            Some(ended) => ended.containers,
            None => 0,
        };
        push_containers(found, session as u32, n)?;
    }
    Ok(())
}

// Adds the manifests of closed sessions.
fn push_all_manifests(found: &mut Vec<Object>, sessions: &[Option<Ended>]) -> Result<(), Memory>
    requires { length sessions.now < 2 ^ 32 }
    ensures { OnOk result (found.new.items ≡ found.old.items ++ objects_of manifest_at (λ (e : Ended). e.texts) 0 sessions.now) }
{
    for (session, ended) in sessions.iter().enumerate() {
        let n = match ended {
            Some(ended) => ended.texts,
            None => 0,
        };
        push_manifests(found, session as u32, n)?;
    }
    Ok(())
}

// The objects of closed sessions, in the order of objects.
#[tactic(auto, unfolding(crate::specs::Need::known))]
pub(crate) fn known(alloc: Global, entries: &[Entry]) -> Result<Vec<Object>, Memory>
    requires { length entries.now < 2 ^ 32 }
    ensures { IfOk result (λ objects. objects.items ≡ known (reverse entries.now)) }
{
    let sessions = all_ended(alloc, entries)?;
    let mut objects = Vec::new(alloc);
    push_all_containers(&mut objects, sessions.as_slice())?;
    push_all_manifests(&mut objects, sessions.as_slice())?;
    Ok(objects)
}
